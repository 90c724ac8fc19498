// Execution of methods (chapter 28, executeNewMethod).
ghost use Rattle.std.specs.Prelude.{◌≡◌, ◌<◌, ◌==◌, ◌||◌, ◌&&◌, OnOk};
ghost use Rattle.long_names.specs.Words.{IsSmallInteger};
ghost use Rattle.long_names.specs.State.{NEW_METHOD};
ghost use Rattle.object_memory.specs.Told.{IsReady};
ghost use Rattle.blue_model.specs.declared.answer.Answer.TheVariants.{Done};
ghost use Rattle.blue_model.specs.declared.step.Step.TheVariants.{Next};
ghost use Rattle.blue_model.specs.Messages.{primitive_of};
ghost use Rattle.blue_model.specs.Primitives as primitives;
ghost use Rattle.blue_model.specs.Sends as model;
ghost use Rattle.bytecodes.specs.Steps.{activation};
ghost use Rattle.contexts.specs.Serves.{Serves, Speaks, StaysSound};
ghost use Rattle.object_memory.specs.Calls.{IsFit};
ghost use Rattle.contexts.specs.Calls.{StaysFit};
ghost use Rattle.contexts.specs.Keeping.{KeepsBy, NeverKeeps, StepsBy};

use crate::tries::{has_failed, is_execute, is_perform, step_of, try_primitive};
use blue_model::Step;
use blue_model::limits::{EXTENSION_FLAG, FIELD_FLAG, SELF_FLAG};
use contexts::parts::{extension, field, header};
use contexts::{Answer, Cpu, Stop, put_stack, stack};
use event_file::EventList;
use object_memory::{ObjectMemory, Reg};
use send_lookup::activate;
use send_lookup::header::{flag, temporaries};

/// Replaces the receiver by its field i. Arguments stay where they are.
fn answer_field<M: ObjectMemory>(m: &mut M, cpu: &mut Cpu, i: u32) -> Result<(), Stop>
    requires fit { IsFit M.ObjectMemory m.old }
    requires number { i < 32 }
    ensures serves { Serves (M.told m.old) cpu.old (M.told m.new) cpu.new (model.answer_field i) result }
    ensures fit { StaysFit M.ObjectMemory m.old m.new result }
{
    let depth = u32::from(cpu.args);
    stack(m, cpu, Reg::R10, depth)?;
    field(m, Reg::R10, Reg::R10, 0, i)?;
    put_stack(m, cpu, depth, Reg::R10)?;
    Ok(())
}

/// The index of the primitive that a header extension names; 0 is none.
#[inline(always)]
fn primitive(extension: i16) -> u8
    requires { IsSmallInteger extension }
    ensures { result ≡ primitive_of extension }
{
    extension.rem_euclid(256) as u8
}

/// Whether nothing is tried: primitive 0 is none, and a perform isn't tried of a method that a perform found.
#[inline(always)]
fn is_none(index: u8, performed: bool) -> bool
    ensures { result ≡ ((index == 0) || (performed && primitives.is_perform index)) }
{
    index == 0 || (performed && is_perform(index))
}

/// Activates the method in register 5.
fn activated<M: ObjectMemory>(m: &mut M, cpu: &mut Cpu) -> Result<Answer, Stop>
    requires fit { IsFit M.ObjectMemory m.old }
    ensures serves { Serves (M.told m.old) cpu.old (M.told m.new) cpu.new activation result }
    ensures never_keeps { NeverKeeps result }
    ensures fit { StaysFit M.ObjectMemory m.old m.new result }
{
    activate(m, cpu)?;
    Ok(Answer::Done)
}

/// Executes a method that has a header extension. Its primitive is tried first, where it has one. Of a method that a perform found,
/// neither perform is tried again.
fn execute_extended<M: ObjectMemory>(
    m: &mut M,
    cpu: &mut Cpu,
    events: &EventList,
    performed: bool,
) -> Result<Answer, Stop>
    requires fit { IsFit M.ObjectMemory m.old }
    ensures serves { Speaks Done (M.told m.old) cpu.old (M.told m.new) cpu.new (model.execute_extended events.now performed ((M.told m.old).regs NEW_METHOD)) result }
    ensures keeps { KeepsBy cpu.old.vault result }
    ensures fit { StaysFit M.ObjectMemory m.old m.new result }
{
    let extension = extension(m, Reg::R10, Reg::NEW_METHOD)?;
    let index = primitive(extension);
    if is_none(index, performed) {
        return activated(m, cpu);
    }
    let answer = try_primitive(m, cpu, events, index)?;
    if has_failed(answer) {
        return activated(m, cpu);
    }
    Ok(answer)
}

/// Executes the method in register 5 by its header: it answers self or a field of the receiver, its primitive is tried, or it is
/// activated.
fn execute_method<M: ObjectMemory>(
    m: &mut M,
    cpu: &mut Cpu,
    events: &EventList,
    performed: bool,
) -> Result<Answer, Stop>
    requires fit { IsFit M.ObjectMemory m.old }
    ensures serves { Speaks Done (M.told m.old) cpu.old (M.told m.new) cpu.new (model.execute_method events.now performed) result }
    ensures keeps { KeepsBy cpu.old.vault result }
    ensures fit { StaysFit M.ObjectMemory m.old m.new result }
{
    let header = header(m, Reg::NEW_METHOD)?;
    match flag(header) {
        SELF_FLAG => Ok(Answer::Done),
        FIELD_FLAG => {
            answer_field(m, cpu, temporaries(header))?;
            Ok(Answer::Done)
        }
        EXTENSION_FLAG => execute_extended(m, cpu, events, performed),
        _ => activated(m, cpu),
    }
}

/// Executes the method in register 5, and the one that it performs (executeNewMethod).
pub(crate) fn execute<M: ObjectMemory>(
    m: &mut M,
    cpu: &mut Cpu,
    events: &EventList,
) -> Result<Step, Stop>
    requires fit { IsFit M.ObjectMemory m.old }
    ensures serves { Speaks Next (M.told m.old) cpu.old (M.told m.new) cpu.new (model.execute events.now) result }
    ensures keeps { StepsBy cpu.old.vault result }
    ensures fit { StaysFit M.ObjectMemory m.old m.new result }
{
    let answer = execute_method(m, cpu, events, false)?;
    if is_execute(answer) {
        let last = execute_method(m, cpu, events, true)?;
        return Ok(step_of(last));
    }
    Ok(step_of(answer))
}
