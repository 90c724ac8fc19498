// Objects that become one another: the primitive 72 (chapter 29). The receiver is in R10, the argument in R11.
ghost use Rattle.std.specs.Prelude.{◌≡◌, OnOk, is_some};
ghost use Rattle.long_names.specs.Objects.{name_of};
ghost use Rattle.long_names.specs.State.{ACTIVE_CONTEXT, HOME, METHOD};
ghost use Rattle.object_memory.specs.Told.{IsReady};
ghost use Rattle.blue_model.specs.Storage as model;
ghost use Rattle.contexts.specs.Serves.{Serves, StaysSound};
ghost use Rattle.object_memory.specs.Calls.{IsFit};
ghost use Rattle.contexts.specs.Keeping.{NeverKeeps};
ghost use Rattle.contexts.specs.Calls.{StaysFit};

use contexts::parts::swap;
use contexts::{Answer, Cpu, Stop, pop, stack};
use object_memory::{ObjectMemory, Reg};

/// Whether two registers hold the same value.
fn is_same<M: ObjectMemory>(m: &M, a: Reg, b: Reg) -> bool
    requires sound { M.sound m.now }
    ensures { result ≡ model.is_same ((M.told m.now).regs a) ((M.told m.now).regs b) }
{
    m.same(a, b)
}

/// Whether a register holds a name.
fn has_name<M: ObjectMemory>(m: &M, r: Reg) -> bool
    requires sound { M.sound m.now }
    ensures { result ≡ is_some (name_of ((M.told m.now).regs r)) }
{
    m.as_int(r).is_none()
}

/// Whether a register holds a name that is neither the active context's nor its home's nor its method's.
fn is_another<M: ObjectMemory>(m: &M, r: Reg) -> bool
    requires sound { M.sound m.now }
    ensures { result ≡ model.is_another ((M.told m.now).regs ACTIVE_CONTEXT) ((M.told m.now).regs HOME) ((M.told m.now).regs METHOD) ((M.told m.now).regs r) }
{
    !is_same(m, r, Reg::ACTIVE_CONTEXT)
        && !is_same(m, r, Reg::HOME)
        && !is_same(m, r, Reg::METHOD)
        && has_name(m, r)
}

/// Lets receiver and argument change places, and answers the receiver (primitiveBecome).
pub(crate) fn change_places<M: ObjectMemory>(m: &mut M, cpu: &mut Cpu) -> Result<Answer, Stop>
    requires fit { IsFit M.ObjectMemory m.old }
    ensures serves { Serves (M.told m.old) cpu.old (M.told m.new) cpu.new model.become result }
    ensures never_keeps { NeverKeeps result }
    ensures fit { StaysFit M.ObjectMemory m.old m.new result }
{
    stack(m, cpu, Reg::R10, 1)?;
    stack(m, cpu, Reg::R11, 0)?;
    if !is_another(m, Reg::R10) || !is_another(m, Reg::R11) {
        return Ok(Answer::Failed);
    }
    swap(m, Reg::R10, Reg::R11)?;
    pop(cpu, 1)?;
    Ok(Answer::Done)
}
