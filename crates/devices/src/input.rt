// Input (chapter 29): the primitives 93 and 95. The semaphore is in R11, the number that is the answer in R12.
ghost use Rattle.std.specs.Prelude.{◌≡◌, ◌<◌, Ok, Some, true, [], OnOk};
ghost use Rattle.std.specs.Option.{option_and_then};
ghost use Rattle.object_memory.specs.Told.{IsReady};
ghost use Rattle.object_memory.specs.Shape.{Looks};
ghost use Rattle.blue_model.specs.declared.cpu.Cpu.{Cpu as Numbers};
ghost use Rattle.long_names.specs.declared.limits.TheConstants.{MACHINE_REGISTERS};
ghost use Rattle.blue_model.specs.Devices as model;
ghost use Rattle.contexts.specs.Serves.{Serves, StaysSound};
ghost use Rattle.object_memory.specs.Calls.{IsFit};
ghost use Rattle.contexts.specs.Calls.{StaysFit};
ghost use Rattle.contexts.specs.Keeping.{NeverKeeps};

use blue_model::indexes::SEMAPHORE_SIZE;
use contexts::peeks::peek_size;
use contexts::{Answer, Cpu, Stop, answer, pop, stack};
use event_file::EventList;
use long_names::Name;
use object_memory::{ObjectMemory, Reg};
use prims_object::number_object;

/// One more, as far as a count goes.
pub(crate) fn raised(count: u32) -> u32
    ensures { result ≡ model.raised count }
{
    count.saturating_add(1)
}

/// True of what has a size.
fn there_by(size: Option<u32>) -> Option<bool>
    ensures { result ≡ option_and_then (λ fields. Some true) size }
{
    size.map(|_| true)
}

/// Whether the register names a semaphore: false where it is nil, which stands for none. None of anything else.
pub(crate) fn semaphore_or_nil<M: ObjectMemory>(m: &mut M, of: Reg) -> Result<Option<bool>, Stop>
    requires fit { IsFit M.ObjectMemory m.old }
    ensures serves { (cpu : Numbers) → Serves (M.told m.old) cpu (M.told m.new) cpu (model.semaphore_or_nil ((M.told m.old).regs of)) result }
    ensures looks { OnOk result (Looks [] (M.told m.old) (M.told m.new)) }
    ensures fit { StaysFit M.ObjectMemory m.old m.new result }
{
    if m.is(of, Name::NIL) {
        return Ok(Some(false));
    }
    let size = peek_size(m, of, SEMAPHORE_SIZE)?;
    Ok(there_by(size))
}

/// A register of the machine takes the semaphore, or the number 0 where there is none.
pub(crate) fn put_semaphore<M: ObjectMemory>(m: &mut M, to: Reg, from: Reg, there: bool)
    requires fit { IsFit M.ObjectMemory m.old }
    requires machine { to < MACHINE_REGISTERS }
    ensures serves { (cpu : Numbers) → Serves (M.told m.old) cpu (M.told m.new) cpu (model.put_semaphore to ((M.told m.old).regs from) there) (Ok tt) }
    ensures fit { StaysFit M.ObjectMemory m.old m.new (Ok result) }
{
    if there {
        m.copy(to, from);
    } else {
        m.int(to, 0);
    }
}

/// Words that come signal this semaphore from now on, or none where the argument is nil (primitiveInputSemaphore).
pub(crate) fn input_semaphore<M: ObjectMemory>(m: &mut M, cpu: &mut Cpu) -> Result<Answer, Stop>
    requires fit { IsFit M.ObjectMemory m.old }
    ensures serves { Serves (M.told m.old) cpu.old (M.told m.new) cpu.new model.input_semaphore result }
    ensures never_keeps { NeverKeeps result }
    ensures fit { StaysFit M.ObjectMemory m.old m.new result }
{
    stack(m, cpu, Reg::R11, 0)?;
    let Some(there) = semaphore_or_nil(m, Reg::R11)? else {
        return Ok(Answer::Failed);
    };
    put_semaphore(m, Reg::INPUT_SEMAPHORE, Reg::R11, there);
    cpu.input = there;
    pop(cpu, 1)?;
    Ok(Answer::Done)
}

/// The first word of the queue.
fn next_word(events: &EventList, cpu: &Cpu) -> Option<u16>
    ensures { result ≡ model.next_word events.now cpu.now }
{
    if cpu.words_out < cpu.words_in {
        events.word(cpu.words_out as usize)
    } else {
        None
    }
}

/// Takes the first word out of the queue, and answers it (primitiveInputWord).
pub(crate) fn input_word<M: ObjectMemory>(
    m: &mut M,
    cpu: &mut Cpu,
    events: &EventList,
) -> Result<Answer, Stop>
    requires fit { IsFit M.ObjectMemory m.old }
    ensures serves { Serves (M.told m.old) cpu.old (M.told m.new) cpu.new (model.input_word events.now) result }
    ensures never_keeps { NeverKeeps result }
    ensures fit { StaysFit M.ObjectMemory m.old m.new result }
{
    let Some(word) = next_word(events, cpu) else {
        return Ok(Answer::Failed);
    };
    number_object(m, u32::from(word))?;
    cpu.words_out = raised(cpu.words_out);
    answer(m, cpu, 0, Reg::R12)
}
