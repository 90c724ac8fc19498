// The table of the primitives of the devices.
ghost use Rattle.std.specs.Prelude.{◌≡◌, OnOk};
ghost use Rattle.object_memory.specs.Told.{IsReady};
ghost use Rattle.blue_model.specs.declared.answer.Answer.{Answer as Outcome};
ghost use Rattle.blue_model.specs.Trials.{primitive_in};
ghost use Rattle.blue_model.specs.Devices.{device_primitives};
ghost use Rattle.contexts.specs.Serves.{Speaks, StaysSound};
ghost use Rattle.object_memory.specs.Calls.{IsFit};
ghost use Rattle.contexts.specs.Calls.{StaysFit};
ghost use Rattle.contexts.specs.Keeping.{KeepsBy};

use crate::display::be_display;
use crate::input::{input_semaphore, input_word};
use crate::state::keep_machine;
use crate::ticks::{signal_at_tick, tick_words};
use crate::transcript::say_string;
use blue_model::primitives::{
    PRIMITIVE_BE_DISPLAY, PRIMITIVE_INPUT_SEMAPHORE, PRIMITIVE_INPUT_WORD, PRIMITIVE_SAY_STRING,
    PRIMITIVE_SIGNAL_AT_TICK, PRIMITIVE_SNAPSHOT, PRIMITIVE_TIME_WORDS_INTO,
};
use contexts::{Answer, Cpu, Stop};
use event_file::EventList;
use object_memory::ObjectMemory;

/// Does a primitive by its index (dispatchPrimitives). It fails where the message has another number of arguments, where its conditions
/// aren't met, and where the index is none of this table's. Then nothing has changed. What 128 says is the last thing that it does.
/// Only 97 answers that the machine is to be kept, and only where a checkpoint may be made.
pub fn run<M: ObjectMemory>(
    m: &mut M,
    cpu: &mut Cpu,
    events: &EventList,
    index: u8,
) -> Result<Answer, Stop>
    requires fit { IsFit M.ObjectMemory m.old }
    ensures speaks { Speaks Outcome.Done (M.told m.old) cpu.old (M.told m.new) cpu.new (primitive_in (device_primitives events.now) index) result }
    ensures keeps { KeepsBy cpu.old.vault result }
    ensures fit { StaysFit M.ObjectMemory m.old m.new result }
{
    match (index, cpu.args) {
        (PRIMITIVE_INPUT_SEMAPHORE, 1) => input_semaphore(m, cpu),
        (PRIMITIVE_INPUT_WORD, 0) => input_word(m, cpu, events),
        (PRIMITIVE_SNAPSHOT, 0) => keep_machine(m, cpu),
        (PRIMITIVE_TIME_WORDS_INTO, 1) => tick_words(m, cpu),
        (PRIMITIVE_SIGNAL_AT_TICK, 2) => signal_at_tick(m, cpu),
        (PRIMITIVE_BE_DISPLAY, 0) => be_display(m, cpu),
        (PRIMITIVE_SAY_STRING, 1) => say_string(m, cpu),
        _ => Ok(Answer::Failed),
    }
}
