// Jumps (chapter 28, jump bytecodes).
ghost use Rattle.std.specs.Prelude.{◌≡◌, ◌<◌, ◌-ℤ◌, ◌+◌, ◌*◌, pos, OnOk};
ghost use Rattle.object_memory.specs.Told.{IsReady};
ghost use Rattle.blue_model.specs.declared.step.Step.TheVariants.{Next};
ghost use Rattle.blue_model.specs.Bytecodes as model;
ghost use Rattle.blue_model.specs.Contexts as contexts;
ghost use Rattle.contexts.specs.Serves.{Serves, Speaks, StaysSound};
ghost use Rattle.object_memory.specs.Calls.{IsFit};
ghost use Rattle.contexts.specs.Calls.{StaysFit};
ghost use Rattle.contexts.specs.Keeping.{StepsBy};

use crate::sends::must_be_boolean;
use blue_model::Step;
use contexts::{Cpu, Stop, fetch, jump, pop_top};
use event_file::EventList;
use long_names::Name;
use object_memory::{ObjectMemory, Reg};

/// Jumps so far where the value in R10 is the first of two objects, and goes on where it is the second. mustBeBoolean is
/// sent to any other.
pub(crate) fn jump_where<M: ObjectMemory>(
    m: &mut M,
    cpu: &mut Cpu,
    events: &EventList,
    taken: Name,
    passed: Name,
    distance: u32,
) -> Result<Step, Stop>
    requires fit { IsFit M.ObjectMemory m.old }
    requires distance { distance < 1024 }
    ensures serves { Speaks Next (M.told m.old) cpu.old (M.told m.new) cpu.new (model.jump_where events.now taken passed (pos distance) ((M.told m.old).regs 10)) result }
    ensures keeps { StepsBy cpu.old.vault result }
    ensures fit { StaysFit M.ObjectMemory m.old m.new result }
{
    if m.is(Reg::R10, taken) {
        jump(m, cpu, distance as i32)?;
        return Ok(Step::Next);
    }
    if m.is(Reg::R10, passed) {
        return Ok(Step::Next);
    }
    must_be_boolean(m, cpu, events)
}

/// Pops the top, and jumps so far where it is the first of two objects (jumpIf:).
pub(crate) fn jump_on<M: ObjectMemory>(
    m: &mut M,
    cpu: &mut Cpu,
    events: &EventList,
    taken: Name,
    passed: Name,
    distance: u32,
) -> Result<Step, Stop>
    requires fit { IsFit M.ObjectMemory m.old }
    requires distance { distance < 1024 }
    ensures serves { Speaks Next (M.told m.old) cpu.old (M.told m.new) cpu.new (model.jump_on events.now taken passed (pos distance)) result }
    ensures keeps { StepsBy cpu.old.vault result }
    ensures fit { StaysFit M.ObjectMemory m.old m.new result }
{
    pop_top(m, cpu, Reg::R10)?;
    jump_where(m, cpu, events, taken, passed, distance)
}

/// Jumps so far ahead.
pub(crate) fn short_jump<M: ObjectMemory>(
    m: &mut M,
    cpu: &mut Cpu,
    distance: u32,
) -> Result<(), Stop>
    requires fit { IsFit M.ObjectMemory m.old }
    requires distance { distance < 1024 }
    ensures serves { Serves (M.told m.old) cpu.old (M.told m.new) cpu.new (contexts.jump (pos distance)) result }
    ensures fit { StaysFit M.ObjectMemory m.old m.new result }
{
    jump(m, cpu, distance as i32)?;
    Ok(())
}

/// Jumps by 256 times i - 4, and the next byte.
#[inline(always)]
pub(crate) fn long_jump<M: ObjectMemory>(m: &mut M, cpu: &mut Cpu, i: u32) -> Result<(), Stop>
    requires fit { IsFit M.ObjectMemory m.old }
    requires number { i < 8 }
    ensures serves { Serves (M.told m.old) cpu.old (M.told m.new) cpu.new (model.long_jump i) result }
    ensures fit { StaysFit M.ObjectMemory m.old m.new result }
{
    let byte = fetch(m, cpu)?;
    let distance = (256 * i + u32::from(byte)) as i32 - 1024;
    jump(m, cpu, distance)?;
    Ok(())
}

/// Pops the top, and jumps by 256 times i and the next byte where it is the first of two objects.
pub(crate) fn long_jump_on<M: ObjectMemory>(
    m: &mut M,
    cpu: &mut Cpu,
    events: &EventList,
    taken: Name,
    passed: Name,
    i: u32,
) -> Result<Step, Stop>
    requires fit { IsFit M.ObjectMemory m.old }
    requires number { i < 4 }
    ensures serves { Speaks Next (M.told m.old) cpu.old (M.told m.new) cpu.new (model.long_jump_on events.now taken passed i) result }
    ensures keeps { StepsBy cpu.old.vault result }
    ensures fit { StaysFit M.ObjectMemory m.old m.new result }
{
    let byte = fetch(m, cpu)?;
    jump_on(m, cpu, events, taken, passed, 256 * i + u32::from(byte))
}
