// What primitives end with that store: the value in R12 is stored into the receiver in R10, and answered. R18 and R19 are used.
ghost use Rattle.std.specs.Prelude.{◌≡◌};
ghost use Rattle.blue_model.specs.Elements as model;
ghost use Rattle.blue_model.specs.Trials as trials;
ghost use Rattle.contexts.specs.Serves.{Serves};
ghost use Rattle.object_memory.specs.Calls.{IsFit};
ghost use Rattle.contexts.specs.Calls.{StaysFit};
ghost use Rattle.contexts.specs.Keeping.{NeverKeeps};
ghost use Rattle.prims_object.specs.Operands as rules;

use crate::characters::{store_character, text_at};
use crate::elements::store_element;
use blue_model::Spot;
use contexts::{Answer, Cpu, Stop, answer};
use object_memory::{ObjectMemory, Reg};

/// Stores the value there, and answers it. Fails where it doesn't fit.
pub(crate) fn store_and_answer<M: ObjectMemory>(
    m: &mut M,
    cpu: &mut Cpu,
    spot: Spot,
) -> Result<Answer, Stop>
    requires fit { IsFit M.ObjectMemory m.old }
    ensures serves { Serves (M.told m.old) cpu.old (M.told m.new) cpu.new (model.put_element ((M.told m.old).regs 10) spot ((M.told m.old).regs 12) (trials.answer 2 ((M.told m.old).regs 12))) result }
    ensures never_keeps { NeverKeeps result }
    ensures fit { StaysFit M.ObjectMemory m.old m.new result }
{
    if !store_element(m, Reg::R10, spot, Reg::R12)? {
        return Ok(Answer::Failed);
    }
    answer(m, cpu, 2, Reg::R12)
}

/// Stores the byte of the character there, and answers the character. Fails where it is none, or no text.
pub(crate) fn store_character_and_answer<M: ObjectMemory>(
    m: &mut M,
    cpu: &mut Cpu,
    spot: Spot,
) -> Result<Answer, Stop>
    requires fit { IsFit M.ObjectMemory m.old }
    ensures serves { Serves (M.told m.old) cpu.old (M.told m.new) cpu.new (rules.put_character ((M.told m.old).regs 10) spot ((M.told m.old).regs 12) (trials.answer 2 ((M.told m.old).regs 12))) result }
    ensures never_keeps { NeverKeeps result }
    ensures fit { StaysFit M.ObjectMemory m.old m.new result }
{
    let Some(_) = text_at(m, Reg::R10, spot)? else {
        return Ok(Answer::Failed);
    };
    if !store_character(m, Reg::R10, spot)? {
        return Ok(Answer::Failed);
    }
    answer(m, cpu, 2, Reg::R12)
}
