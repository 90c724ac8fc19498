// Returns (chapter 28, return bytecodes).
ghost use Rattle.std.specs.Prelude.{◌≡◌, ◌<◌, true, OnOk};
ghost use Rattle.long_names.specs.Names.{is_known};
ghost use Rattle.object_memory.specs.Told.{IsReady};
ghost use Rattle.blue_model.specs.declared.step.Step.TheVariants.{Next};
ghost use Rattle.blue_model.specs.Bytecodes as model;
ghost use Rattle.blue_model.specs.Contexts as contexts;
ghost use Rattle.blue_model.specs.Sends.{return_to};
ghost use Rattle.blue_model.specs.Machine as machine;
ghost use Rattle.long_names.specs.State.{RECEIVER};
ghost use Rattle.contexts.specs.Serves.{Serves, Speaks, StaysSound};
ghost use Rattle.object_memory.specs.Calls.{IsFit};
ghost use Rattle.contexts.specs.Calls.{StaysFit};
ghost use Rattle.contexts.specs.Keeping.{StepsBy};

use crate::sends::cannot_return;
use blue_model::Step;
use blue_model::indexes::{CALLER_INDEX, INSTRUCTION_POINTER_INDEX, SENDER_INDEX};
use contexts::parts::{field, known};
use contexts::{Cpu, Stop, back, pop_top, push};
use event_file::EventList;
use long_names::Name;
use object_memory::{ObjectMemory, Reg};

/// Goes back to a context, and pushes a value there. Both stand in the first scratch registers.
pub(crate) fn back_with<M: ObjectMemory>(m: &mut M, cpu: &mut Cpu) -> Result<(), Stop>
    requires fit { IsFit M.ObjectMemory m.old }
    ensures serves { Serves (M.told m.old) cpu.old (M.told m.new) cpu.new (contexts.back_with ((M.told m.old).regs 11) ((M.told m.old).regs 10)) result }
    ensures fit { StaysFit M.ObjectMemory m.old m.new result }
{
    back(m, cpu, Reg::R11)?;
    push(m, cpu, Reg::R10)?;
    Ok(())
}

/// Returns a value to a context (returnValue:to:): the value in R10, the context in R11. Where that is nil or has ended,
/// cannotReturn: is sent.
pub(crate) fn return_to<M: ObjectMemory>(
    m: &mut M,
    cpu: &mut Cpu,
    events: &EventList,
) -> Result<Step, Stop>
    requires fit { IsFit M.ObjectMemory m.old }
    ensures serves { Speaks Next (M.told m.old) cpu.old (M.told m.new) cpu.new (return_to events.now ((M.told m.old).regs 11) ((M.told m.old).regs 10)) result }
    ensures keeps { StepsBy cpu.old.vault result }
    ensures fit { StaysFit M.ObjectMemory m.old m.new result }
{
    if m.is(Reg::R11, Name::NIL) {
        return cannot_return(m, cpu, events);
    }
    field(m, Reg::R12, Reg::R11, 0, INSTRUCTION_POINTER_INDEX)?;
    if m.is(Reg::R12, Name::NIL) {
        return cannot_return(m, cpu, events);
    }
    back_with(m, cpu)?;
    Ok(Step::Next)
}

/// Returns the value in R10 to the sender of the home.
pub(crate) fn return_home<M: ObjectMemory>(
    m: &mut M,
    cpu: &mut Cpu,
    events: &EventList,
) -> Result<Step, Stop>
    requires fit { IsFit M.ObjectMemory m.old }
    ensures serves { Speaks Next (M.told m.old) cpu.old (M.told m.new) cpu.new (model.return_home events.now ((M.told m.old).regs 10)) result }
    ensures keeps { StepsBy cpu.old.vault result }
    ensures fit { StaysFit M.ObjectMemory m.old m.new result }
{
    field(m, Reg::R11, Reg::HOME, 0, SENDER_INDEX)?;
    return_to(m, cpu, events)
}

/// Returns the receiver.
pub(crate) fn return_receiver<M: ObjectMemory>(
    m: &mut M,
    cpu: &mut Cpu,
    events: &EventList,
) -> Result<Step, Stop>
    requires fit { IsFit M.ObjectMemory m.old }
    ensures serves { Speaks Next (M.told m.old) cpu.old (M.told m.new) cpu.new (model.return_of events.now (machine.register RECEIVER)) result }
    ensures keeps { StepsBy cpu.old.vault result }
    ensures fit { StaysFit M.ObjectMemory m.old m.new result }
{
    m.copy(Reg::R10, Reg::RECEIVER);
    return_home(m, cpu, events)
}

/// Returns a known object.
pub(crate) fn return_known<M: ObjectMemory>(
    m: &mut M,
    cpu: &mut Cpu,
    events: &EventList,
    name: Name,
) -> Result<Step, Stop>
    requires fit { IsFit M.ObjectMemory m.old }
    requires name { is_known name ≡ true }
    ensures serves { Speaks Next (M.told m.old) cpu.old (M.told m.new) cpu.new (model.return_of events.now (machine.known name)) result }
    ensures keeps { StepsBy cpu.old.vault result }
    ensures fit { StaysFit M.ObjectMemory m.old m.new result }
{
    known(m, Reg::R10, name)?;
    return_home(m, cpu, events)
}

/// Returns the top.
pub(crate) fn return_top<M: ObjectMemory>(
    m: &mut M,
    cpu: &mut Cpu,
    events: &EventList,
) -> Result<Step, Stop>
    requires fit { IsFit M.ObjectMemory m.old }
    ensures serves { Speaks Next (M.told m.old) cpu.old (M.told m.new) cpu.new (model.return_of events.now contexts.pop_top) result }
    ensures keeps { StepsBy cpu.old.vault result }
    ensures fit { StaysFit M.ObjectMemory m.old m.new result }
{
    pop_top(m, cpu, Reg::R10)?;
    return_home(m, cpu, events)
}

/// Returns the top to the caller of the active context.
pub(crate) fn return_from_block<M: ObjectMemory>(
    m: &mut M,
    cpu: &mut Cpu,
    events: &EventList,
) -> Result<Step, Stop>
    requires fit { IsFit M.ObjectMemory m.old }
    ensures serves { Speaks Next (M.told m.old) cpu.old (M.told m.new) cpu.new (model.return_from_block events.now) result }
    ensures keeps { StepsBy cpu.old.vault result }
    ensures fit { StaysFit M.ObjectMemory m.old m.new result }
{
    pop_top(m, cpu, Reg::R10)?;
    field(m, Reg::R11, Reg::ACTIVE_CONTEXT, 0, CALLER_INDEX)?;
    return_to(m, cpu, events)
}
