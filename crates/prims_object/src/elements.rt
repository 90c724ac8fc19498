// Elements of objects (chapter 29, subscript:with: and subscript:with:storing:). What is read comes into R12, and R19 is used.
ghost use Rattle.std.specs.Prelude.{◌≡◌, ◌<◌, ◌≤◌, ℕ, [], ◌∷◌, OnOk};
ghost use Rattle.object_memory.specs.Told.{IsReady};
ghost use Rattle.object_memory.specs.Shape.{Looks};
ghost use Rattle.blue_model.specs.declared.answer.Answer.{Answer};
ghost use Rattle.blue_model.specs.declared.cpu.Cpu.{Cpu as Numbers};
ghost use Rattle.blue_model.specs.Machine.{Rule};
ghost use Rattle.blue_model.specs.Elements as model;
ghost use Rattle.contexts.specs.Serves.{Serves, StaysSound, with_value, with_found};
ghost use Rattle.prims_object.specs.Leads.{Leads};
ghost use Rattle.object_memory.specs.Calls.{IsFit};
ghost use Rattle.contexts.specs.Calls.{StaysFit};

use crate::extents::spot_of;
use crate::indexes::{byte_by, natural_argument, number_object, positive};
use crate::specifications::fixed_of;
use blue_model::Spot;
use contexts::Stop;
use contexts::data::{byte, store_byte, store_word, word};
use contexts::parts::{field, store_value};
use object_memory::{ObjectMemory, Reg};

/// Where element i of the object that a register names stands, behind its fixed fields, where it has it
/// (checkIndexableBoundsOf:in:).
#[inline(always)]
pub(crate) fn element_of<M: ObjectMemory>(
    m: &mut M,
    array: Reg,
    i: i32,
) -> Result<Option<Spot>, Stop>
    requires fit { IsFit M.ObjectMemory m.old }
    requires low { array < 19 }
    ensures serves { (cpu : Numbers) → Serves (M.told m.old) cpu (M.told m.new) cpu (model.element_of ((M.told m.old).regs array) i) result }
    ensures looks { OnOk result (Looks (19 ∷ []) (M.told m.old) (M.told m.new)) }
    ensures fit { StaysFit M.ObjectMemory m.old m.new result }
{
    let Some(e) = positive(i) else {
        return Ok(None);
    };
    let Some(fixed) = fixed_of(m, array)? else {
        return Ok(None);
    };
    spot_of(m, array, e + fixed)
}

/// Where variable i of the object that a register names stands, with no regard to its fixed fields, where it has it.
pub(crate) fn variable_of<M: ObjectMemory>(
    m: &mut M,
    receiver: Reg,
    i: i32,
) -> Result<Option<Spot>, Stop>
    requires fit { IsFit M.ObjectMemory m.old }
    ensures serves { (cpu : Numbers) → Serves (M.told m.old) cpu (M.told m.new) cpu (model.variable_of ((M.told m.old).regs receiver) i) result }
    ensures looks { OnOk result (Looks [] (M.told m.old) (M.told m.new)) }
    ensures fit { StaysFit M.ObjectMemory m.old m.new result }
{
    let Some(e) = positive(i) else {
        return Ok(None);
    };
    spot_of(m, receiver, e)
}

/// Loads word i of the object of words that a register names, as a number.
fn word_object<M: ObjectMemory>(m: &mut M, array: Reg, i: u32) -> Result<(), Stop>
    requires fit { IsFit M.ObjectMemory m.old }
    ensures serves { (cpu : Numbers) → Serves (M.told m.old) cpu (M.told m.new) cpu (model.element_at ((M.told m.old).regs array) (Spot.Word i)) (with_value result ((M.told m.new).regs 12)) }
    ensures regs { OnOk result ((r : ℕ) → (r ≡ 12 → ⊥) → (r ≡ 19 → ⊥) → (M.told m.new).regs r ≡ (M.told m.old).regs r) }
    ensures fit { StaysFit M.ObjectMemory m.old m.new result }
{
    let word = word(m, array, i)?;
    number_object(m, u32::from(word))
}

/// Loads byte i of the object of bytes that a register names, or of a method's code, as a number.
fn byte_object<M: ObjectMemory>(m: &mut M, array: Reg, i: u32) -> Result<(), Stop>
    requires fit { IsFit M.ObjectMemory m.old }
    ensures serves { (cpu : Numbers) → Serves (M.told m.old) cpu (M.told m.new) cpu (model.element_at ((M.told m.old).regs array) (Spot.Byte i)) (with_value result ((M.told m.new).regs 12)) }
    ensures regs { OnOk result ((r : ℕ) → (r ≡ 12 → ⊥) → (r ≡ 19 → ⊥) → (M.told m.new).regs r ≡ (M.told m.old).regs r) }
    ensures fit { StaysFit M.ObjectMemory m.old m.new result }
{
    let byte = byte(m, array, i)?;
    number_object(m, u32::from(byte))
}

/// Loads what stands there (subscript:with:): a value, or a number.
#[inline(always)]
pub(crate) fn element_at<M: ObjectMemory>(m: &mut M, array: Reg, spot: Spot) -> Result<(), Stop>
    requires fit { IsFit M.ObjectMemory m.old }
    ensures serves { (cpu : Numbers) → Serves (M.told m.old) cpu (M.told m.new) cpu (model.element_at ((M.told m.old).regs array) spot) (with_value result ((M.told m.new).regs 12)) }
    ensures regs { OnOk result ((r : ℕ) → (r ≡ 12 → ⊥) → (r ≡ 19 → ⊥) → (M.told m.new).regs r ≡ (M.told m.old).regs r) }
    ensures fit { StaysFit M.ObjectMemory m.old m.new result }
{
    match spot {
        Spot::Field(i) => field(m, Reg::R12, array, 0, i),
        Spot::Word(i) => word_object(m, array, i),
        Spot::Byte(i) => byte_object(m, array, i),
    }
}

/// Stores the value of a register into value i.
fn store_in_field<M: ObjectMemory>(m: &mut M, array: Reg, i: u32, from: Reg) -> Result<bool, Stop>
    requires fit { IsFit M.ObjectMemory m.old }
    ensures leads { (cpu : Numbers) → Leads (M.told m.old) cpu (M.told m.new) (model.put_element ((M.told m.old).regs array) (Spot.Field i) ((M.told m.old).regs from)) (λ (_ : Unit {0}) (rest : Rule Answer). rest) (with_found result tt) }
    ensures regs { OnOk result ((r : ℕ) → (r ≡ 19 → ⊥) → (M.told m.new).regs r ≡ (M.told m.old).regs r) }
    ensures fit { StaysFit M.ObjectMemory m.old m.new result }
{
    store_value(m, array, i, from)?;
    Ok(true)
}

/// Stores the number that a register holds into word i. False where it is no index argument, or negative.
fn store_in_word<M: ObjectMemory>(m: &mut M, array: Reg, i: u32, from: Reg) -> Result<bool, Stop>
    requires fit { IsFit M.ObjectMemory m.old }
    requires array { array < 19 }
    requires from { from < 19 }
    ensures leads { (cpu : Numbers) → Leads (M.told m.old) cpu (M.told m.new) (model.put_element ((M.told m.old).regs array) (Spot.Word i) ((M.told m.old).regs from)) (λ (_ : Unit {0}) (rest : Rule Answer). rest) (with_found result tt) }
    ensures regs { OnOk result ((r : ℕ) → (r ≡ 19 → ⊥) → (M.told m.new).regs r ≡ (M.told m.old).regs r) }
    ensures fit { StaysFit M.ObjectMemory m.old m.new result }
{
    let Some(word) = natural_argument(m, from)? else {
        return Ok(false);
    };
    store_word(m, array, i, word as u16)?;
    Ok(true)
}

/// Stores the number that a register holds into byte i. False where it is no SmallInteger from 0 to 255.
fn store_in_byte<M: ObjectMemory>(m: &mut M, array: Reg, i: u32, from: Reg) -> Result<bool, Stop>
    requires fit { IsFit M.ObjectMemory m.old }
    ensures leads { (cpu : Numbers) → Leads (M.told m.old) cpu (M.told m.new) (model.put_element ((M.told m.old).regs array) (Spot.Byte i) ((M.told m.old).regs from)) (λ (_ : Unit {0}) (rest : Rule Answer). rest) (with_found result tt) }
    ensures regs { OnOk result ((r : ℕ) → (r ≡ 19 → ⊥) → (M.told m.new).regs r ≡ (M.told m.old).regs r) }
    ensures fit { StaysFit M.ObjectMemory m.old m.new result }
{
    let Some(byte) = byte_by(m.as_int(from)) else {
        return Ok(false);
    };
    store_byte(m, array, i, byte)?;
    Ok(true)
}

/// Stores the value of a register there (subscript:with:storing:). False where it doesn't fit: any value fits a field, a word takes an
/// index argument that isn't negative, and a byte a SmallInteger from 0 to 255.
pub(crate) fn store_element<M: ObjectMemory>(
    m: &mut M,
    array: Reg,
    spot: Spot,
    from: Reg,
) -> Result<bool, Stop>
    requires fit { IsFit M.ObjectMemory m.old }
    requires array { array < 19 }
    requires from { from < 19 }
    ensures leads { (cpu : Numbers) → Leads (M.told m.old) cpu (M.told m.new) (model.put_element ((M.told m.old).regs array) spot ((M.told m.old).regs from)) (λ (_ : Unit {0}) (rest : Rule Answer). rest) (with_found result tt) }
    ensures regs { OnOk result ((r : ℕ) → (r ≡ 19 → ⊥) → (M.told m.new).regs r ≡ (M.told m.old).regs r) }
    ensures fit { StaysFit M.ObjectMemory m.old m.new result }
{
    match spot {
        Spot::Field(i) => store_in_field(m, array, i, from),
        Spot::Word(i) => store_in_word(m, array, i, from),
        Spot::Byte(i) => store_in_byte(m, array, i, from),
    }
}
