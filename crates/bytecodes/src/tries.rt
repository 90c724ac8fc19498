// Tries of primitives (chapter 29, dispatchPrimitives).
ghost use Rattle.std.specs.Prelude.{◌≡◌, OnOk};
ghost use Rattle.object_memory.specs.Told.{IsReady};
ghost use Rattle.blue_model.specs.declared.answer.Answer.TheVariants.{Done};
ghost use Rattle.blue_model.specs.Primitives as model;
ghost use Rattle.blue_model.specs.Sends as sends;
ghost use Rattle.contexts.specs.Serves.{Serves, Speaks, StaysSound};
ghost use Rattle.object_memory.specs.Calls.{IsFit};
ghost use Rattle.contexts.specs.Calls.{StaysFit};
ghost use Rattle.contexts.specs.Keeping.{KeepsBy};

use blue_model::Step;
use blue_model::primitives::{
    PRIMITIVE_AT, PRIMITIVE_BE_DISPLAY, PRIMITIVE_BLOCK_COPY, PRIMITIVE_COPY_BITS,
    PRIMITIVE_FLUSH_CACHE, PRIMITIVE_INPUT_SEMAPHORE, PRIMITIVE_LARGE_ADD,
    PRIMITIVE_LARGE_BIT_SHIFT, PRIMITIVE_PERFORM, PRIMITIVE_PERFORM_WITH_ARGUMENTS, PRIMITIVE_QUIT,
    PRIMITIVE_SAY_STRING, PRIMITIVE_SIGNAL, PRIMITIVE_SUSPEND,
};
use contexts::{Answer, Cpu, Stop};
use event_file::EventList;
use object_memory::ObjectMemory;

/// Whether the primitive is one of blocks, performs, the cache and the end of the run.
#[inline(always)]
fn is_control(index: u8) -> bool
    ensures { result ≡ model.is_control index }
{
    matches!(
        index,
        PRIMITIVE_BLOCK_COPY..=PRIMITIVE_PERFORM_WITH_ARGUMENTS
            | PRIMITIVE_FLUSH_CACHE
            | PRIMITIVE_QUIT
    )
}

/// Whether the primitive is one of processes and semaphores.
#[inline(always)]
fn is_process(index: u8) -> bool
    ensures { result ≡ model.is_process index }
{
    matches!(index, PRIMITIVE_SIGNAL..=PRIMITIVE_SUSPEND)
}

/// Whether the primitive is BitBlt's.
#[inline(always)]
fn is_blit(index: u8) -> bool
    ensures { result ≡ model.is_blit index }
{
    index == PRIMITIVE_COPY_BITS
}

/// Whether the primitive is one of input, the clock, the display and the transcript.
#[inline(always)]
fn is_device(index: u8) -> bool
    ensures { result ≡ model.is_device index }
{
    matches!(
        index,
        PRIMITIVE_INPUT_SEMAPHORE..=PRIMITIVE_BE_DISPLAY | PRIMITIVE_SAY_STRING
    )
}

/// Whether the primitive is one of arithmetic on large integers.
#[inline(always)]
fn is_large(index: u8) -> bool
    ensures { result ≡ model.is_large index }
{
    matches!(index, PRIMITIVE_LARGE_ADD..=PRIMITIVE_LARGE_BIT_SHIFT)
}

/// Whether the primitive is one of the two performs.
pub(crate) fn is_perform(index: u8) -> bool
    ensures { result ≡ model.is_perform index }
{
    matches!(index, PRIMITIVE_PERFORM | PRIMITIVE_PERFORM_WITH_ARGUMENTS)
}

/// Whether a primitive failed.
#[inline(always)]
pub(crate) fn has_failed(answer: Answer) -> bool
    ensures { result ≡ model.has_failed answer }
{
    match answer {
        Answer::Failed => true,
        Answer::Done | Answer::Execute | Answer::Quit | Answer::Keep => false,
    }
}

/// Whether a method that a primitive found is to be executed.
#[inline(always)]
pub(crate) fn is_execute(answer: Answer) -> bool
    ensures { result ≡ sends.is_execute answer }
{
    match answer {
        Answer::Execute => true,
        Answer::Done | Answer::Failed | Answer::Quit | Answer::Keep => false,
    }
}

/// How a bytecode ends whose primitive ended so.
#[inline(always)]
pub(crate) fn step_of(answer: Answer) -> Step
    ensures { result ≡ model.step_of answer }
{
    match answer {
        Answer::Quit => Step::Quit,
        Answer::Keep => Step::Keep,
        Answer::Done | Answer::Failed | Answer::Execute => Step::Next,
    }
}

/// Tries the primitive of this index. The message has as many arguments as `cpu.args` says, and input comes from the event list.
pub(crate) fn try_primitive<M: ObjectMemory>(
    m: &mut M,
    cpu: &mut Cpu,
    events: &EventList,
    index: u8,
) -> Result<Answer, Stop>
    requires fit { IsFit M.ObjectMemory m.old }
    ensures serves { Speaks Done (M.told m.old) cpu.old (M.told m.new) cpu.new (model.primitive events.now index) result }
    ensures keeps { KeepsBy cpu.old.vault result }
    ensures fit { StaysFit M.ObjectMemory m.old m.new result }
{
    if is_control(index) {
        return prims_control::run(m, cpu, index);
    }
    if is_process(index) {
        return process_sched::run(m, cpu, index);
    }
    if is_blit(index) {
        return bitblt::run(m, cpu, index);
    }
    if is_device(index) {
        return devices::run(m, cpu, events, index);
    }
    if is_large(index) {
        return large_ints::run(m, cpu, index);
    }
    if index < PRIMITIVE_AT {
        prims_integer::run(m, cpu, index)
    } else {
        prims_object::run(m, cpu, index)
    }
}
