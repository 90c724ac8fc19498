// Index arguments and numbers as answers (chapter 29, positive16BitValueOf: and positive16BitIntegerFor:). R19 is what they read
// into.
ghost use Rattle.std.specs.Prelude.{◌≡◌, ◌<◌, ◌≤◌, ◌+◌, ◌*◌, ◌^◌, ℕ, pos, [], ◌∷◌, OnOk, IfOk, IfSome};
ghost use Rattle.std.specs.Option.{option_and_then};
ghost use Rattle.long_names.specs.declared.limits.TheConstants.{MOST_FIELDS};
ghost use Rattle.long_names.specs.Objects.{text_of};
ghost use Rattle.long_names.specs.State.{IsRef};
ghost use Rattle.object_memory.specs.Told.{IsReady};
ghost use Rattle.object_memory.specs.Shape.{Looks};
ghost use Rattle.blue_model.specs.declared.cpu.Cpu.{Cpu as Numbers};
ghost use Rattle.blue_model.specs.Trials.{peek, where_some, ◌>>?◌};
ghost use Rattle.blue_model.specs.Elements as model;
ghost use Rattle.contexts.specs.Serves.{Serves, StaysSound, with_value};
ghost use Rattle.prims_object.specs.Leads.{Leads};
ghost use Rattle.prims_object.specs.Numbers as numbers;
ghost use Rattle.prims_object.specs.Numbers.{IsIndex};
ghost use Rattle.object_memory.specs.Calls.{IsFit};
ghost use Rattle.contexts.specs.Calls.{StaysFit};

use crate::extents::text_length;
use contexts::Stop;
use contexts::data::{byte, store_byte};
use contexts::parts::{class_of, known, make_bytes};
use long_names::{Name, SMALL_INTEGERS};
use object_memory::{ObjectMemory, Reg};

/// Whether there are two.
fn is_pair(count: Option<u32>) -> bool
    ensures { result ≡ numbers.is_pair count }
{
    count == Some(2)
}

/// The number of two bytes.
fn joined(low: u8, high: u8) -> i32
    ensures number { result ≡ pos (low + 256 * high) }
    ensures range { IsIndex result }
{
    i32::from(low) + 256 * i32::from(high)
}

/// The number that the two bytes are, lowest first, of the object of bytes that a register names. None where it has another number of
/// bytes.
fn two_bytes<M: ObjectMemory>(m: &mut M, of: Reg) -> Result<Option<i32>, Stop>
    requires fit { IsFit M.ObjectMemory m.old }
    ensures serves { (cpu : Numbers) → Serves (M.told m.old) cpu (M.told m.new) cpu (peek (λ o. option_and_then model.two_bytes (text_of o.body)) ((M.told m.old).regs of)) result }
    ensures looks { OnOk result (Looks [] (M.told m.old) (M.told m.new)) }
    ensures range { IfOk result (λ found. IfSome found IsIndex) }
    ensures fit { StaysFit M.ObjectMemory m.old m.new result }
{
    if !is_pair(text_length(m, of)?) {
        return Ok(None);
    }
    let low = byte(m, of, 0)?;
    let high = byte(m, of, 1)?;
    Ok(Some(joined(low, high)))
}

/// The number that a LargePositiveInteger of two bytes is. None where the register names another object.
fn large_number<M: ObjectMemory>(m: &mut M, of: Reg) -> Result<Option<i32>, Stop>
    requires fit { IsFit M.ObjectMemory m.old }
    requires low { of < 19 }
    requires named { IsRef ((M.told m.old).regs of) }
    ensures serves { (cpu : Numbers) → Serves (M.told m.old) cpu (M.told m.new) cpu (peek model.large_number ((M.told m.old).regs of)) result }
    ensures looks { OnOk result (Looks (19 ∷ []) (M.told m.old) (M.told m.new)) }
    ensures range { IfOk result (λ found. IfSome found IsIndex) }
    ensures fit { StaysFit M.ObjectMemory m.old m.new result }
{
    class_of(m, Reg::R19, of)?;
    if !m.is(Reg::R19, Name::LARGE_POSITIVE_INTEGER) {
        return Ok(None);
    }
    two_bytes(m, of)
}

/// The number of an index argument: a SmallInteger, or a LargePositiveInteger of two bytes (positive16BitValueOf:). None where the
/// register holds neither.
pub(crate) fn index_argument<M: ObjectMemory>(m: &mut M, of: Reg) -> Result<Option<i32>, Stop>
    requires fit { IsFit M.ObjectMemory m.old }
    requires low { of < 19 }
    ensures serves { (cpu : Numbers) → Serves (M.told m.old) cpu (M.told m.new) cpu (model.index_argument ((M.told m.old).regs of)) result }
    ensures looks { OnOk result (Looks (19 ∷ []) (M.told m.old) (M.told m.new)) }
    ensures range { IfOk result (λ found. IfSome found IsIndex) }
    ensures fit { StaysFit M.ObjectMemory m.old m.new result }
{
    if let Some(number) = m.as_int(of) {
        return Ok(Some(i32::from(number)));
    }
    large_number(m, of)
}

/// A number that isn't negative.
#[inline(always)]
pub(crate) fn natural(number: i32) -> Option<u32>
    ensures { result ≡ model.natural number }
{
    u32::try_from(number).ok()
}

/// A number from 1 on.
#[inline(always)]
pub(crate) fn positive(number: i32) -> Option<u32>
    ensures number { result ≡ numbers.positive number }
    ensures few { IfSome result (λ n. n < 2 ^ 31) }
    ensures first { IfSome result (λ n. 1 ≤ n) }
{
    if number < 1 {
        None
    } else {
        Some(number as u32)
    }
}

/// The number as a byte, where it is one.
pub(crate) fn byte_by(number: Option<i16>) -> Option<u8>
    ensures { result ≡ model.byte_by number }
{
    u8::try_from(number?).ok()
}

/// The number of an index argument that isn't negative.
pub(crate) fn natural_argument<M: ObjectMemory>(m: &mut M, of: Reg) -> Result<Option<u32>, Stop>
    requires fit { IsFit M.ObjectMemory m.old }
    requires low { of < 19 }
    ensures leads { (cpu : Numbers) → Leads (M.told m.old) cpu (M.told m.new) (λ rest. model.index_argument ((M.told m.old).regs of) >>? λ z. where_some (model.natural z) rest) (λ n rest. rest n) result }
    ensures looks { OnOk result (Looks (19 ∷ []) (M.told m.old) (M.told m.new)) }
    ensures few { IfOk result (λ found. IfSome found (λ n. n ≤ MOST_FIELDS)) }
    ensures fit { StaysFit M.ObjectMemory m.old m.new result }
{
    let Some(number) = index_argument(m, of)? else {
        return Ok(None);
    };
    Ok(natural(number))
}

/// Makes a LargePositiveInteger of two bytes, the lowest first, in R12.
fn make_large<M: ObjectMemory>(m: &mut M, n: u32) -> Result<(), Stop>
    requires fit { IsFit M.ObjectMemory m.old }
    ensures serves { (cpu : Numbers) → Serves (M.told m.old) cpu (M.told m.new) cpu (model.make_large n) (with_value result ((M.told m.new).regs 12)) }
    ensures regs { OnOk result ((r : ℕ) → (r ≡ 12 → ⊥) → (r ≡ 19 → ⊥) → (M.told m.new).regs r ≡ (M.told m.old).regs r) }
    ensures fit { StaysFit M.ObjectMemory m.old m.new result }
{
    known(m, Reg::R19, Name::LARGE_POSITIVE_INTEGER)?;
    make_bytes(m, Reg::R12, Reg::R19, 2)?;
    store_byte(m, Reg::R12, 0, (n % 256) as u8)?;
    store_byte(m, Reg::R12, 1, (n / 256 % 256) as u8)?;
    Ok(())
}

/// A number as an answer, in R12 (positive16BitIntegerFor:): a SmallInteger, or a new LargePositiveInteger of two bytes.
pub fn number_object<M: ObjectMemory>(m: &mut M, n: u32) -> Result<(), Stop>
    requires fit { IsFit M.ObjectMemory m.old }
    ensures serves { (cpu : Numbers) → Serves (M.told m.old) cpu (M.told m.new) cpu (model.number_object n) (with_value result ((M.told m.new).regs 12)) }
    ensures regs { OnOk result ((r : ℕ) → (r ≡ 12 → ⊥) → (r ≡ 19 → ⊥) → (M.told m.new).regs r ≡ (M.told m.old).regs r) }
    ensures fit { StaysFit M.ObjectMemory m.old m.new result }
{
    if n < SMALL_INTEGERS {
        m.int(Reg::R12, n as i16);
        return Ok(());
    }
    make_large(m, n)
}
