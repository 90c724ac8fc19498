// Text: bytes that stand for characters (chapter 29, primitiveStringAt and primitiveStringAtPut). Registers as in `elements`; a byte that
// is stored stands in R18.
ghost use Rattle.std.specs.Prelude.{◌≡◌, ◌<◌, ℕ, pos, [], ◌∷◌, OnOk, IfOk, IfSome};
ghost use Rattle.long_names.specs.declared.value.Value.TheVariants.{Int};
ghost use Rattle.object_memory.specs.Told.{IsReady};
ghost use Rattle.object_memory.specs.Shape.{Looks};
ghost use Rattle.blue_model.specs.declared.answer.Answer.{Answer};
ghost use Rattle.blue_model.specs.declared.cpu.Cpu.{Cpu as Numbers};
ghost use Rattle.blue_model.specs.Machine.{Rule};
ghost use Rattle.blue_model.specs.Trials.{peek, ◌>>?◌};
ghost use Rattle.blue_model.specs.Elements as model;
ghost use Rattle.contexts.specs.Serves.{Serves, StaysSound, with_found};
ghost use Rattle.prims_object.specs.Leads.{Leads};
ghost use Rattle.object_memory.specs.Calls.{IsFit};
ghost use Rattle.contexts.specs.Calls.{StaysFit};

use crate::elements::store_element;
use crate::extents::text_length;
use crate::indexes::byte_by;
use blue_model::Spot;
use blue_model::indexes::CHARACTER_VALUE_INDEX;
use contexts::Stop;
use contexts::data::byte;
use contexts::parts::{class_of, known};
use contexts::peeks::{peek_field, peek_number};
use long_names::Name;
use object_memory::{ObjectMemory, Reg};

/// Byte i of the object of bytes that a register names, where it has it.
fn text_byte<M: ObjectMemory>(m: &mut M, of: Reg, i: u32) -> Result<Option<u8>, Stop>
    requires fit { IsFit M.ObjectMemory m.old }
    ensures serves { (cpu : Numbers) → Serves (M.told m.old) cpu (M.told m.new) cpu (peek (model.text_at (Spot.Byte i)) ((M.told m.old).regs of)) result }
    ensures looks { OnOk result (Looks [] (M.told m.old) (M.told m.new)) }
    ensures fit { StaysFit M.ObjectMemory m.old m.new result }
{
    let Some(len) = text_length(m, of)? else {
        return Ok(None);
    };
    if len <= i {
        return Ok(None);
    }
    let byte = byte(m, of, i)?;
    Ok(Some(byte))
}

/// The byte that stands there in an object of bytes. None of another object.
pub(crate) fn text_at<M: ObjectMemory>(m: &mut M, of: Reg, spot: Spot) -> Result<Option<u8>, Stop>
    requires fit { IsFit M.ObjectMemory m.old }
    ensures serves { (cpu : Numbers) → Serves (M.told m.old) cpu (M.told m.new) cpu (peek (model.text_at spot) ((M.told m.old).regs of)) result }
    ensures looks { OnOk result (Looks [] (M.told m.old) (M.told m.new)) }
    ensures fit { StaysFit M.ObjectMemory m.old m.new result }
{
    match spot {
        Spot::Field(_) => Ok(None),
        Spot::Word(_) => Ok(None),
        Spot::Byte(i) => text_byte(m, of, i),
    }
}

/// Loads the character of a byte into R12: its field of the character table. False where that isn't there.
pub(crate) fn character_of<M: ObjectMemory>(m: &mut M, byte: u8) -> Result<bool, Stop>
    requires fit { IsFit M.ObjectMemory m.old }
    ensures serves { (cpu : Numbers) → Serves (M.told m.old) cpu (M.told m.new) cpu (model.character_of byte) (with_found result ((M.told m.new).regs 12)) }
    ensures looks { OnOk result (Looks (12 ∷ 19 ∷ []) (M.told m.old) (M.told m.new)) }
    ensures fit { StaysFit M.ObjectMemory m.old m.new result }
{
    known(m, Reg::R19, Name::CHARACTER_TABLE)?;
    peek_field(m, Reg::R12, Reg::R19, 0, u32::from(byte))
}

/// The byte of the character that a register names: the number in its first field. None of anything else.
fn byte_of_character<M: ObjectMemory>(m: &mut M, of: Reg) -> Result<Option<u8>, Stop>
    requires fit { IsFit M.ObjectMemory m.old }
    requires low { of < 19 }
    ensures serves { (cpu : Numbers) → Serves (M.told m.old) cpu (M.told m.new) cpu (model.byte_of_character ((M.told m.old).regs of)) result }
    ensures few { IfOk result (λ found. IfSome found (λ byte. byte < 256)) }
    ensures looks { OnOk result (Looks (19 ∷ []) (M.told m.old) (M.told m.new)) }
    ensures fit { StaysFit M.ObjectMemory m.old m.new result }
{
    class_of(m, Reg::R19, of)?;
    if !m.is(Reg::R19, Name::CHARACTER) {
        return Ok(None);
    }
    let number = peek_number(m, Reg::R19, of, 0, CHARACTER_VALUE_INDEX)?;
    Ok(byte_by(number))
}

/// Stores the byte of the character in R12 there. False where it is none, or where a byte doesn't fit.
pub(crate) fn store_character<M: ObjectMemory>(
    m: &mut M,
    array: Reg,
    spot: Spot,
) -> Result<bool, Stop>
    requires fit { IsFit M.ObjectMemory m.old }
    requires array { array < 18 }
    ensures leads { (cpu : Numbers) → Leads (M.told m.old) cpu (M.told m.new) (λ rest. model.byte_of_character ((M.told m.old).regs 12) >>? λ byte. model.put_element ((M.told m.old).regs array) spot (Int (pos byte)) rest) (λ (_ : Unit {0}) (rest : Rule Answer). rest) (with_found result tt) }
    ensures regs { OnOk result ((r : ℕ) → (r ≡ 18 → ⊥) → (r ≡ 19 → ⊥) → (M.told m.new).regs r ≡ (M.told m.old).regs r) }
    ensures fit { StaysFit M.ObjectMemory m.old m.new result }
{
    let Some(byte) = byte_of_character(m, Reg::R12)? else {
        return Ok(false);
    };
    m.int(Reg::R18, i16::from(byte));
    store_element(m, array, spot, Reg::R18)
}
