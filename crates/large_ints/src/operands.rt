// Operands: SmallIntegers and large integers.
ghost use Rattle.std.specs.Prelude.{◌≡◌, ◌≤◌, ◌<◌, [], ◌∷◌, length, OnOk, IfOk, IfSome, Some};
ghost use Rattle.std.specs.Int.{w128};
ghost use Rattle.std.specs.Int.RustNames.{FitsSigned};
ghost use Rattle.long_names.specs.Words.{IsSmallInteger};
ghost use Rattle.long_names.specs.State.{IsRef};
ghost use Rattle.object_memory.specs.Shape.{Looks};
ghost use Rattle.object_memory.specs.Calls.{IsFit};
ghost use Rattle.blue_model.specs.declared.limits.TheConstants.{LARGE_BYTES};
ghost use Rattle.blue_model.specs.declared.cpu.Cpu.{Cpu as Numbers};
ghost use Rattle.blue_model.specs.Trials.{peek};
ghost use Rattle.blue_model.specs.LargeInts as model;
ghost use Rattle.contexts.specs.Serves.{Serves};
ghost use Rattle.contexts.specs.Calls.{StaysFit};
ghost use Rattle.large_ints.specs.Operands as operands;
ghost use Rattle.large_ints.specs.Operands.{FindsTwo};

use crate::values::signed;
use blue_model::limits::LARGE_BYTES;
use contexts::parts::class_of;
use contexts::{Cpu, Stop, stack};
use long_names::{Kind, Name};
use object_memory::{ObjectMemory, Reg, shape};

/// The number that at most 16 bytes are, the lowest first.
fn magnitude(bytes: &[u8]) -> u128
    requires few { length bytes.now ≤ LARGE_BYTES }
    ensures { result ≡ model.magnitude bytes.now }
{
    let mut n = 0;
    let mut i = bytes.len();
    while i > 0 {
        i -= 1;
        n = n * 256 + u128::from(bytes[i]);
    }
    n
}

/// How many bytes an object of this kind and length has, where it is one of bytes and has at most 16.
fn few_bytes(found: Option<(Kind, u32)>) -> Option<u32>
    ensures few { result ≡ operands.few_bytes found }
    ensures bound { IfSome result (λ n. n ≤ LARGE_BYTES) }
{
    match found {
        Some((Kind::Bytes, len)) if len <= LARGE_BYTES => Some(len),
        _ => None,
    }
}

/// The magnitude of the object of at most 16 bytes that a register names. None where it names another object.
fn magnitude_of<M: ObjectMemory>(m: &mut M, of: Reg) -> Result<Option<u128>, Stop>
    requires fit { IsFit M.ObjectMemory m.old }
    ensures serves { (cpu : Numbers) → Serves (M.told m.old) cpu (M.told m.new) cpu (peek operands.magnitude_in ((M.told m.old).regs of)) result }
    ensures looks { OnOk result (Looks [] (M.told m.old) (M.told m.new)) }
    ensures fit { StaysFit M.ObjectMemory m.old m.new result }
{
    let found = shape::shape(m, of)?;
    let Some(len) = few_bytes(found) else {
        return Ok(None);
    };
    let mut buffer = [0; LARGE_BYTES as usize];
    let bytes = &mut buffer[..len as usize];
    m.read_bytes(of, 0, bytes)?;
    Ok(Some(magnitude(bytes)))
}

/// Whether the object that a register names is a negative large integer by its class. None where its class is none of theirs.
fn sign_of<M: ObjectMemory>(m: &mut M, of: Reg) -> Result<Option<bool>, Stop>
    requires fit { IsFit M.ObjectMemory m.old }
    requires named { IsRef ((M.told m.old).regs of) }
    ensures serves { (cpu : Numbers) → Serves (M.told m.old) cpu (M.told m.new) cpu (peek operands.sign_in ((M.told m.old).regs of)) result }
    ensures looks { OnOk result (Looks (19 ∷ []) (M.told m.old) (M.told m.new)) }
    ensures fit { StaysFit M.ObjectMemory m.old m.new result }
{
    class_of(m, Reg::R19, of)?;
    if m.is(Reg::R19, Name::LARGE_POSITIVE_INTEGER) {
        return Ok(Some(false));
    }
    if m.is(Reg::R19, Name::LARGE_NEGATIVE_INTEGER) {
        return Ok(Some(true));
    }
    Ok(None)
}

/// The value of the large integer that a register names.
fn large_value<M: ObjectMemory>(m: &mut M, of: Reg) -> Result<Option<i128>, Stop>
    requires fit { IsFit M.ObjectMemory m.old }
    requires low { of < 19 }
    requires named { IsRef ((M.told m.old).regs of) }
    ensures serves { (cpu : Numbers) → Serves (M.told m.old) cpu (M.told m.new) cpu (peek model.large_value ((M.told m.old).regs of)) result }
    ensures looks { OnOk result (Looks (19 ∷ []) (M.told m.old) (M.told m.new)) }
    ensures range { IfOk result (λ found. IfSome found (FitsSigned w128)) }
    ensures fit { StaysFit M.ObjectMemory m.old m.new result }
{
    let Some(negative) = sign_of(m, of)? else {
        return Ok(None);
    };
    let Some(size) = magnitude_of(m, of)? else {
        return Ok(None);
    };
    Ok(signed(negative, size))
}

/// The value of an operand: of a SmallInteger, or of a large integer. None where the register holds neither.
fn large_operand<M: ObjectMemory>(m: &mut M, of: Reg) -> Result<Option<i128>, Stop>
    requires fit { IsFit M.ObjectMemory m.old }
    requires low { of < 19 }
    ensures serves { (cpu : Numbers) → Serves (M.told m.old) cpu (M.told m.new) cpu (model.large_operand ((M.told m.old).regs of)) result }
    ensures looks { OnOk result (Looks (19 ∷ []) (M.told m.old) (M.told m.new)) }
    ensures range { IfOk result (λ found. IfSome found (FitsSigned w128)) }
    ensures fit { StaysFit M.ObjectMemory m.old m.new result }
{
    if let Some(number) = m.as_int(of) {
        return Ok(Some(i128::from(number)));
    }
    large_value(m, of)
}

/// The receiver and the argument on the stack, where both are SmallIntegers or large integers.
pub(crate) fn two_operands<M: ObjectMemory>(
    m: &mut M,
    cpu: &Cpu,
) -> Result<Option<(i128, i128)>, Stop>
    requires fit { IsFit M.ObjectMemory m.old }
    ensures finds { FindsTwo (M.told m.old) cpu.now (M.told m.new) model.of_large result }
    ensures range { IfOk result (λ found. IfSome found (λ ab. FitsSigned w128 ab.0 × FitsSigned w128 ab.1)) }
    ensures fit { StaysFit M.ObjectMemory m.old m.new result }
{
    stack(m, cpu, Reg::R10, 1)?;
    stack(m, cpu, Reg::R11, 0)?;
    let Some(receiver) = large_operand(m, Reg::R10)? else {
        return Ok(None);
    };
    let Some(argument) = large_operand(m, Reg::R11)? else {
        return Ok(None);
    };
    Ok(Some((receiver, argument)))
}

/// The receiver on the stack, where it is a SmallInteger or a large integer, and the argument, where it is a SmallInteger.
pub(crate) fn shift_operands<M: ObjectMemory>(
    m: &mut M,
    cpu: &Cpu,
) -> Result<Option<(i128, i16)>, Stop>
    requires fit { IsFit M.ObjectMemory m.old }
    ensures finds { FindsTwo (M.told m.old) cpu.now (M.told m.new) model.of_shift result }
    ensures range { IfOk result (λ found. IfSome found (λ ab. FitsSigned w128 ab.0 × IsSmallInteger ab.1)) }
    ensures fit { StaysFit M.ObjectMemory m.old m.new result }
{
    stack(m, cpu, Reg::R10, 1)?;
    stack(m, cpu, Reg::R11, 0)?;
    let Some(receiver) = large_operand(m, Reg::R10)? else {
        return Ok(None);
    };
    let Some(places) = m.as_int(Reg::R11) else {
        return Ok(None);
    };
    Ok(Some((receiver, places)))
}
