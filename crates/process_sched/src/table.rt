// The primitives 85 to 88 (chapter 29), and their table. A semaphore is in R11, a process in R17; the receiver, which is the
// answer, stays on the stack.
ghost use Rattle.std.specs.Prelude.{◌≡◌, OnOk};
ghost use Rattle.object_memory.specs.Told.{IsReady};
ghost use Rattle.blue_model.specs.Trials.{primitive_in};
ghost use Rattle.blue_model.specs.Processes as model;
ghost use Rattle.contexts.specs.Serves.{Serves, StaysSound};
ghost use Rattle.object_memory.specs.Calls.{IsFit};
ghost use Rattle.contexts.specs.Calls.{StaysFit};
ghost use Rattle.contexts.specs.Keeping.{NeverKeeps};

use crate::scheduler::has_list;
use crate::semaphores::{signal, wait};
use crate::switches::{current_process, resume, suspend_active};
use blue_model::indexes::{EXCESS_SIGNALS_INDEX, PRIORITY_INDEX, PROCESS_SIZE, SEMAPHORE_SIZE};
use blue_model::primitives::{
    PRIMITIVE_RESUME, PRIMITIVE_SIGNAL, PRIMITIVE_SUSPEND, PRIMITIVE_WAIT,
};
use contexts::parts::known;
use contexts::peeks::peek_number;
use contexts::{Answer, Cpu, Stop, put_stack, stack};
use long_names::Name;
use object_memory::{ObjectMemory, Reg};

/// Signals the semaphore that is the receiver (primitiveSignal).
fn primitive_signal<M: ObjectMemory>(m: &mut M, cpu: &mut Cpu) -> Result<Answer, Stop>
    requires fit { IsFit M.ObjectMemory m.old }
    ensures serves { Serves (M.told m.old) cpu.old (M.told m.new) cpu.new model.primitive_signal result }
    ensures never_keeps { NeverKeeps result }
    ensures fit { StaysFit M.ObjectMemory m.old m.new result }
{
    stack(m, cpu, Reg::R11, 0)?;
    let Some(_) = peek_number(m, Reg::R16, Reg::R11, SEMAPHORE_SIZE, EXCESS_SIGNALS_INDEX)? else {
        return Ok(Answer::Failed);
    };
    signal(m, cpu, Reg::R11)?;
    Ok(Answer::Done)
}

/// The current process waits at the semaphore that is the receiver, unless that has a signal (primitiveWait).
fn primitive_wait<M: ObjectMemory>(m: &mut M, cpu: &mut Cpu) -> Result<Answer, Stop>
    requires fit { IsFit M.ObjectMemory m.old }
    ensures serves { Serves (M.told m.old) cpu.old (M.told m.new) cpu.new model.primitive_wait result }
    ensures never_keeps { NeverKeeps result }
    ensures fit { StaysFit M.ObjectMemory m.old m.new result }
{
    stack(m, cpu, Reg::R11, 0)?;
    let Some(_) = peek_number(m, Reg::R16, Reg::R11, SEMAPHORE_SIZE, EXCESS_SIGNALS_INDEX)? else {
        return Ok(Answer::Failed);
    };
    wait(m, cpu)?;
    Ok(Answer::Done)
}

/// Resumes the process that is the receiver (primitiveResume). It fails where the process's priority has no list.
fn primitive_resume<M: ObjectMemory>(m: &mut M, cpu: &mut Cpu) -> Result<Answer, Stop>
    requires fit { IsFit M.ObjectMemory m.old }
    ensures serves { Serves (M.told m.old) cpu.old (M.told m.new) cpu.new model.primitive_resume result }
    ensures never_keeps { NeverKeeps result }
    ensures fit { StaysFit M.ObjectMemory m.old m.new result }
{
    stack(m, cpu, Reg::R17, 0)?;
    let Some(priority) = peek_number(m, Reg::R16, Reg::R17, PROCESS_SIZE, PRIORITY_INDEX)? else {
        return Ok(Answer::Failed);
    };
    if !has_list(m, priority)? {
        return Ok(Answer::Failed);
    }
    resume(m, cpu)?;
    Ok(Answer::Done)
}

/// Suspends the process that is the receiver (primitiveSuspend). It fails where that isn't the current one. nil takes the receiver's place
/// on the stack, and is the answer when the process goes on again.
fn primitive_suspend<M: ObjectMemory>(m: &mut M, cpu: &mut Cpu) -> Result<Answer, Stop>
    requires fit { IsFit M.ObjectMemory m.old }
    ensures serves { Serves (M.told m.old) cpu.old (M.told m.new) cpu.new model.primitive_suspend result }
    ensures never_keeps { NeverKeeps result }
    ensures fit { StaysFit M.ObjectMemory m.old m.new result }
{
    stack(m, cpu, Reg::R17, 0)?;
    current_process(m, cpu)?;
    if !m.same(Reg::R17, Reg::R10) {
        return Ok(Answer::Failed);
    }
    known(m, Reg::R14, Name::NIL)?;
    put_stack(m, cpu, 0, Reg::R14)?;
    suspend_active(m, cpu)?;
    Ok(Answer::Done)
}

/// Does a primitive by its index (dispatchPrimitives). It fails where the message has another number of arguments, where its conditions
/// aren't met, and where the index is none of this table's. Then nothing has changed.
pub fn run<M: ObjectMemory>(m: &mut M, cpu: &mut Cpu, index: u8) -> Result<Answer, Stop>
    requires fit { IsFit M.ObjectMemory m.old }
    ensures serves { Serves (M.told m.old) cpu.old (M.told m.new) cpu.new (primitive_in model.process_primitives index) result }
    ensures never_keeps { NeverKeeps result }
    ensures fit { StaysFit M.ObjectMemory m.old m.new result }
{
    match (index, cpu.args) {
        (PRIMITIVE_SIGNAL, 0) => primitive_signal(m, cpu),
        (PRIMITIVE_WAIT, 0) => primitive_wait(m, cpu),
        (PRIMITIVE_RESUME, 0) => primitive_resume(m, cpu),
        (PRIMITIVE_SUSPEND, 0) => primitive_suspend(m, cpu),
        _ => Ok(Answer::Failed),
    }
}
