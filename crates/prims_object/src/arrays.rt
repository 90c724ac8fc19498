// The array primitives 60 to 64 (chapter 29). The object is in R10, its index argument in R11, the value in R12.
ghost use Rattle.std.specs.Prelude.{◌≡◌, OnOk};
ghost use Rattle.object_memory.specs.Told.{IsReady};
ghost use Rattle.blue_model.specs.Storage as model;
ghost use Rattle.contexts.specs.Serves.{Serves, StaysSound};
ghost use Rattle.object_memory.specs.Calls.{IsFit};
ghost use Rattle.contexts.specs.Calls.{StaysFit};
ghost use Rattle.contexts.specs.Keeping.{NeverKeeps};

use crate::characters::{character_of, text_at};
use crate::elements::element_at;
use crate::endings::{store_and_answer, store_character_and_answer};
use crate::extents::size_behind;
use crate::indexes::number_object;
use crate::operands::{element_place, one_argument, two_arguments};
use crate::specifications::fixed_of;
use contexts::{Answer, Cpu, Stop, answer, stack};
use object_memory::{ObjectMemory, Reg};

/// Answers an element (primitiveAt).
pub(crate) fn at<M: ObjectMemory>(m: &mut M, cpu: &mut Cpu) -> Result<Answer, Stop>
    requires fit { IsFit M.ObjectMemory m.old }
    ensures serves { Serves (M.told m.old) cpu.old (M.told m.new) cpu.new model.at result }
    ensures never_keeps { NeverKeeps result }
    ensures fit { StaysFit M.ObjectMemory m.old m.new result }
{
    one_argument(m, cpu)?;
    let Some(spot) = element_place(m)? else {
        return Ok(Answer::Failed);
    };
    element_at(m, Reg::R10, spot)?;
    answer(m, cpu, 1, Reg::R12)
}

/// Stores an element, and answers what was stored (primitiveAtPut).
pub(crate) fn at_put<M: ObjectMemory>(m: &mut M, cpu: &mut Cpu) -> Result<Answer, Stop>
    requires fit { IsFit M.ObjectMemory m.old }
    ensures serves { Serves (M.told m.old) cpu.old (M.told m.new) cpu.new model.at_put result }
    ensures never_keeps { NeverKeeps result }
    ensures fit { StaysFit M.ObjectMemory m.old m.new result }
{
    two_arguments(m, cpu)?;
    let Some(spot) = element_place(m)? else {
        return Ok(Answer::Failed);
    };
    store_and_answer(m, cpu, spot)
}

/// Answers how many elements there are (primitiveSize).
pub(crate) fn size<M: ObjectMemory>(m: &mut M, cpu: &mut Cpu) -> Result<Answer, Stop>
    requires fit { IsFit M.ObjectMemory m.old }
    ensures serves { Serves (M.told m.old) cpu.old (M.told m.new) cpu.new model.size_of result }
    ensures never_keeps { NeverKeeps result }
    ensures fit { StaysFit M.ObjectMemory m.old m.new result }
{
    stack(m, cpu, Reg::R10, 0)?;
    let Some(fixed) = fixed_of(m, Reg::R10)? else {
        return Ok(Answer::Failed);
    };
    let Some(n) = size_behind(m, Reg::R10, fixed)? else {
        return Ok(Answer::Failed);
    };
    number_object(m, n)?;
    answer(m, cpu, 0, Reg::R12)
}

/// Answers the character of a byte (primitiveStringAt).
pub(crate) fn string_at<M: ObjectMemory>(m: &mut M, cpu: &mut Cpu) -> Result<Answer, Stop>
    requires fit { IsFit M.ObjectMemory m.old }
    ensures serves { Serves (M.told m.old) cpu.old (M.told m.new) cpu.new model.string_at result }
    ensures never_keeps { NeverKeeps result }
    ensures fit { StaysFit M.ObjectMemory m.old m.new result }
{
    one_argument(m, cpu)?;
    let Some(spot) = element_place(m)? else {
        return Ok(Answer::Failed);
    };
    let Some(byte) = text_at(m, Reg::R10, spot)? else {
        return Ok(Answer::Failed);
    };
    if !character_of(m, byte)? {
        return Ok(Answer::Failed);
    }
    answer(m, cpu, 1, Reg::R12)
}

/// Stores the byte of a character, and answers the character (primitiveStringAtPut).
pub(crate) fn string_at_put<M: ObjectMemory>(m: &mut M, cpu: &mut Cpu) -> Result<Answer, Stop>
    requires fit { IsFit M.ObjectMemory m.old }
    ensures serves { Serves (M.told m.old) cpu.old (M.told m.new) cpu.new model.string_at_put result }
    ensures never_keeps { NeverKeeps result }
    ensures fit { StaysFit M.ObjectMemory m.old m.new result }
{
    two_arguments(m, cpu)?;
    let Some(spot) = element_place(m)? else {
        return Ok(Answer::Failed);
    };
    store_character_and_answer(m, cpu, spot)
}
