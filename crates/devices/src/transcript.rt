// The transcript: the primitive 128 of this profile. The string is in R10, its class in R11.
ghost use Rattle.std.specs.Prelude.{◌≡◌, ◌∷◌, [], OnOk};
ghost use Rattle.object_memory.specs.Told.{IsReady};
ghost use Rattle.object_memory.specs.Shape.{Looks};
ghost use Rattle.blue_model.specs.declared.answer.Answer.{Answer as Outcome};
ghost use Rattle.blue_model.specs.declared.cpu.Cpu.{Cpu as Numbers};
ghost use Rattle.blue_model.specs.Devices as model;
ghost use Rattle.contexts.specs.Serves.{Serves, Speaks, StaysSound, with_found};
ghost use Rattle.devices.specs.Inside.{text_in};
ghost use Rattle.object_memory.specs.Calls.{IsFit};
ghost use Rattle.contexts.specs.Calls.{StaysFit};
ghost use Rattle.contexts.specs.Keeping.{NeverKeeps};

use contexts::data::say;
use contexts::parts::class_of;
use contexts::{Answer, Cpu, Stop, pop, stack};
use long_names::Name;
use object_memory::{ObjectMemory, Reg, shape};

/// Whether the object in R10 is a String: bytes of that class.
fn is_string<M: ObjectMemory>(m: &mut M) -> Result<bool, Stop>
    requires fit { IsFit M.ObjectMemory m.old }
    ensures serves { (cpu : Numbers) → Serves (M.told m.old) cpu (M.told m.new) cpu (model.string_text ((M.told m.old).regs 10)) (with_found result (text_in (M.told m.old) 10)) }
    ensures looks { OnOk result (Looks (11 ∷ []) (M.told m.old) (M.told m.new)) }
    ensures fit { StaysFit M.ObjectMemory m.old m.new result }
{
    class_of(m, Reg::R11, Reg::R10)?;
    if !m.is(Reg::R11, Name::STRING) {
        return Ok(false);
    }
    let is_text = shape::is_text(m, Reg::R10)?;
    Ok(is_text)
}

/// The bytes of the String that is the argument join the transcript, last of all.
pub(crate) fn say_string<M: ObjectMemory>(m: &mut M, cpu: &mut Cpu) -> Result<Answer, Stop>
    requires fit { IsFit M.ObjectMemory m.old }
    ensures speaks { Speaks Outcome.Done (M.told m.old) cpu.old (M.told m.new) cpu.new model.say_string result }
    ensures never_keeps { NeverKeeps result }
    ensures fit { StaysFit M.ObjectMemory m.old m.new result }
{
    stack(m, cpu, Reg::R10, 0)?;
    if !is_string(m)? {
        return Ok(Answer::Failed);
    }
    pop(cpu, 1)?;
    say(m, Reg::R10)?;
    Ok(Answer::Done)
}
