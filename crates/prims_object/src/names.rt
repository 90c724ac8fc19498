// Names and classes: the primitives 75, 110 and 111 (chapter 29). The receiver is in R10, an argument in R11, the answer in
// R12.
ghost use Rattle.std.specs.Prelude.{◌≡◌, OnOk};
ghost use Rattle.object_memory.specs.Told.{IsReady};
ghost use Rattle.blue_model.specs.Storage as model;
ghost use Rattle.contexts.specs.Serves.{Serves, StaysSound};
ghost use Rattle.object_memory.specs.Calls.{IsFit};
ghost use Rattle.contexts.specs.Calls.{StaysFit};
ghost use Rattle.contexts.specs.Keeping.{NeverKeeps};

use contexts::parts::class_of;
use contexts::{Answer, Cpu, Stop, answer, boolean, stack};
use long_names::SMALL_INTEGERS;
use object_memory::{ObjectMemory, Reg, shape};

/// Answers the index of the receiver's name, as far as a SmallInteger holds it (primitiveAsOop).
pub(crate) fn hash<M: ObjectMemory>(m: &mut M, cpu: &mut Cpu) -> Result<Answer, Stop>
    requires fit { IsFit M.ObjectMemory m.old }
    ensures serves { Serves (M.told m.old) cpu.old (M.told m.new) cpu.new model.hash result }
    ensures never_keeps { NeverKeeps result }
    ensures fit { StaysFit M.ObjectMemory m.old m.new result }
{
    stack(m, cpu, Reg::R10, 0)?;
    if !shape::is_name(m, Reg::R10) {
        return Ok(Answer::Failed);
    }
    let index = m.hash(Reg::R10) % SMALL_INTEGERS;
    m.int(Reg::R12, index as i16);
    answer(m, cpu, 0, Reg::R12)
}

/// Answers whether receiver and argument are the same (primitiveEquivalent).
pub(crate) fn equivalent<M: ObjectMemory>(m: &mut M, cpu: &mut Cpu) -> Result<Answer, Stop>
    requires fit { IsFit M.ObjectMemory m.old }
    ensures serves { Serves (M.told m.old) cpu.old (M.told m.new) cpu.new model.equivalent result }
    ensures never_keeps { NeverKeeps result }
    ensures fit { StaysFit M.ObjectMemory m.old m.new result }
{
    stack(m, cpu, Reg::R10, 1)?;
    stack(m, cpu, Reg::R11, 0)?;
    let same = m.same(Reg::R10, Reg::R11);
    boolean(m, Reg::R12, same)?;
    answer(m, cpu, 1, Reg::R12)
}

/// Answers the class (primitiveClass).
pub(crate) fn class<M: ObjectMemory>(m: &mut M, cpu: &mut Cpu) -> Result<Answer, Stop>
    requires fit { IsFit M.ObjectMemory m.old }
    ensures serves { Serves (M.told m.old) cpu.old (M.told m.new) cpu.new model.class result }
    ensures never_keeps { NeverKeeps result }
    ensures fit { StaysFit M.ObjectMemory m.old m.new result }
{
    stack(m, cpu, Reg::R10, 0)?;
    class_of(m, Reg::R12, Reg::R10)?;
    answer(m, cpu, 0, Reg::R12)
}
