// Calls that ask what object a register names. They only read: each is, put together, a call that asks for the kind of that object,
// answered or refused.
ghost use Rattle.std.specs.Prelude.{◌≡◌, ◌↔◌, ◌+◌, ◌<◌, ◌≤◌, IsTrue, IsSome, IfOk, IfSome, Some, length};
ghost use Rattle.long_names.specs.declared.limits.TheConstants.{MOST_FIELDS, MOST_LITERALS};
ghost use Rattle.long_names.specs.Objects.{kind_of, pointers_of, literals_of, words_of, bytes_of, text_of};
ghost use Rattle.long_names.specs.State.{IsRef};
ghost use Rattle.object_memory.specs.Calls.{IsFit, KeepsFit};
ghost use Rattle.object_memory.specs.Shape.{shape_of, fields_by, words_by, bytes_by, field_count, word_count, byte_count, literals_count, FindsPart, TestsPart, ReadsObject};

use crate::fault::MemFault;
use crate::memory::ObjectMemory;
use crate::reg::Reg;
use long_names::{Kind, literal_count};

/// Whether the register holds a name.
#[inline(always)]
pub fn is_name<M: ObjectMemory>(m: &M, r: Reg) -> bool
    requires { M.sound m.now }
    ensures { IsTrue result ↔ IsRef ((M.told m.now).regs r) }
{
    m.as_int(r).is_none()
}

/// Whether the kind is this one.
#[inline(always)]
fn is_kind(kind: Option<Kind>, wanted: Kind) -> bool
    ensures { IsTrue result ↔ (kind ≡ Some wanted) }
{
    kind == Some(wanted)
}

/// Whether so many elements from a place on are within a length.
fn fits(at: u32, count: usize, len: u32) -> bool
    ensures { IsTrue result ↔ (at + count ≤ len) }
{
    at <= len && count <= (len - at) as usize
}

/// The kind of the object. None exactly for a number.
#[inline(always)]
pub fn kind_of<M: ObjectMemory>(m: &mut M, of: Reg) -> Result<Option<Kind>, MemFault>
    requires fit { IsFit M.ObjectMemory m.old }
    ensures read { ReadsObject (M.told m.old) (M.told m.new) of result }
    ensures named { IfOk result (λ kind. IsSome kind ↔ IsRef ((M.told m.old).regs of)) }
    ensures kind { IfOk result (FindsPart (M.told m.old) (M.told m.new) of (λ b. Some (kind_of b))) }
    ensures fit { KeepsFit M.ObjectMemory m.old m.new result }
{
    if !is_name(m, of) {
        return Ok(None);
    }
    let kind = m.kind(of)?;
    Ok(Some(kind))
}

/// The kind and the length of the object. None exactly for a number.
#[inline(always)]
pub fn shape<M: ObjectMemory>(m: &mut M, of: Reg) -> Result<Option<(Kind, u32)>, MemFault>
    requires fit { IsFit M.ObjectMemory m.old }
    ensures read { ReadsObject (M.told m.old) (M.told m.new) of result }
    ensures named { IfOk result (λ shape. IsSome shape ↔ IsRef ((M.told m.old).regs of)) }
    ensures shape { IfOk result (FindsPart (M.told m.old) (M.told m.new) of shape_of) }
    ensures bound { IfOk result (λ shape. IfSome shape (λ s. s.1 < MOST_FIELDS + 1)) }
    ensures fit { KeepsFit M.ObjectMemory m.old m.new result }
{
    let Some(kind) = kind_of(m, of)? else {
        return Ok(None);
    };
    let len = m.len(of)?;
    Ok(Some((kind, len)))
}

/// The number of fields by kind and length.
#[inline(always)]
fn fields_by(kind: Kind, len: u32) -> Option<u32>
    ensures { result ≡ fields_by kind len }
{
    match kind {
        Kind::Pointers => Some(len),
        Kind::Words | Kind::Bytes | Kind::Method => None,
    }
}

/// The number of words by kind and length.
fn words_by(kind: Kind, len: u32) -> Option<u32>
    ensures { result ≡ words_by kind len }
{
    match kind {
        Kind::Words => Some(len),
        Kind::Pointers | Kind::Bytes | Kind::Method => None,
    }
}

/// The number of bytes by kind and length.
fn bytes_by(kind: Kind, len: u32) -> Option<u32>
    ensures { result ≡ bytes_by kind len }
{
    match kind {
        Kind::Bytes | Kind::Method => Some(len),
        Kind::Pointers | Kind::Words => None,
    }
}

/// How many values an object of pointers has. None where the register names no such object.
#[inline(always)]
pub fn fields<M: ObjectMemory>(m: &mut M, of: Reg) -> Result<Option<u32>, MemFault>
    requires fit { IsFit M.ObjectMemory m.old }
    ensures read { ReadsObject (M.told m.old) (M.told m.new) of result }
    ensures fields { IfOk result (FindsPart (M.told m.old) (M.told m.new) of field_count) }
    ensures bound { IfOk result (λ len. IfSome len (λ n. n < MOST_FIELDS + 1)) }
    ensures fit { KeepsFit M.ObjectMemory m.old m.new result }
{
    let Some((kind, len)) = shape(m, of)? else {
        return Ok(None);
    };
    Ok(fields_by(kind, len))
}

/// How many words an object of words has. None where the register names no such object.
pub fn words<M: ObjectMemory>(m: &mut M, of: Reg) -> Result<Option<u32>, MemFault>
    requires fit { IsFit M.ObjectMemory m.old }
    ensures read { ReadsObject (M.told m.old) (M.told m.new) of result }
    ensures words { IfOk result (FindsPart (M.told m.old) (M.told m.new) of word_count) }
    ensures bound { IfOk result (λ len. IfSome len (λ n. n < MOST_FIELDS + 1)) }
    ensures fit { KeepsFit M.ObjectMemory m.old m.new result }
{
    let Some((kind, len)) = shape(m, of)? else {
        return Ok(None);
    };
    Ok(words_by(kind, len))
}

/// How many bytes an object of bytes or a method's code has. None where the register names no such object.
pub fn bytes<M: ObjectMemory>(m: &mut M, of: Reg) -> Result<Option<u32>, MemFault>
    requires fit { IsFit M.ObjectMemory m.old }
    ensures read { ReadsObject (M.told m.old) (M.told m.new) of result }
    ensures bytes { IfOk result (FindsPart (M.told m.old) (M.told m.new) of byte_count) }
    ensures bound { IfOk result (λ len. IfSome len (λ n. n < MOST_FIELDS + 1)) }
    ensures fit { KeepsFit M.ObjectMemory m.old m.new result }
{
    let Some((kind, len)) = shape(m, of)? else {
        return Ok(None);
    };
    Ok(bytes_by(kind, len))
}

/// How many literals a method has. None where the register names no method.
#[inline(always)]
pub fn literals<M: ObjectMemory>(m: &mut M, of: Reg) -> Result<Option<u32>, MemFault>
    requires fit { IsFit M.ObjectMemory m.old }
    ensures read { ReadsObject (M.told m.old) (M.told m.new) of result }
    ensures literals { IfOk result (FindsPart (M.told m.old) (M.told m.new) of literals_count) }
    ensures bound { IfOk result (λ len. IfSome len (λ n. n < MOST_LITERALS + 1)) }
    ensures fit { KeepsFit M.ObjectMemory m.old m.new result }
{
    let kind = kind_of(m, of)?;
    if !is_kind(kind, Kind::Method) {
        return Ok(None);
    }
    let header = m.header(of)?;
    Ok(Some(literal_count(header) as u32))
}

/// Whether the register names an object of pointers that has a field i.
#[inline(always)]
pub fn has_field<M: ObjectMemory>(m: &mut M, of: Reg, i: u32) -> Result<bool, MemFault>
    requires fit { IsFit M.ObjectMemory m.old }
    ensures read { ReadsObject (M.told m.old) (M.told m.new) of result }
    ensures field { IfOk result (TestsPart (M.told m.old) (M.told m.new) of pointers_of (λ xs. i < length xs)) }
    ensures fit { KeepsFit M.ObjectMemory m.old m.new result }
{
    let Some(len) = fields(m, of)? else {
        return Ok(false);
    };
    Ok(i < len)
}

/// Whether the register names a method that has a literal i.
#[inline(always)]
pub fn has_literal<M: ObjectMemory>(m: &mut M, of: Reg, i: u32) -> Result<bool, MemFault>
    requires fit { IsFit M.ObjectMemory m.old }
    ensures read { ReadsObject (M.told m.old) (M.told m.new) of result }
    ensures literal { IfOk result (TestsPart (M.told m.old) (M.told m.new) of literals_of (λ xs. i < length xs)) }
    ensures fit { KeepsFit M.ObjectMemory m.old m.new result }
{
    let Some(len) = literals(m, of)? else {
        return Ok(false);
    };
    Ok(i < len)
}

/// Whether the register names an object of words that has so many words from a place on.
pub fn has_words<M: ObjectMemory>(
    m: &mut M,
    of: Reg,
    at: u32,
    count: usize,
) -> Result<bool, MemFault>
    requires fit { IsFit M.ObjectMemory m.old }
    ensures read { ReadsObject (M.told m.old) (M.told m.new) of result }
    ensures words { IfOk result (TestsPart (M.told m.old) (M.told m.new) of words_of (λ xs. at + count ≤ length xs)) }
    ensures fit { KeepsFit M.ObjectMemory m.old m.new result }
{
    let Some(len) = words(m, of)? else {
        return Ok(false);
    };
    Ok(fits(at, count, len))
}

/// Whether the register names an object of bytes or a method that has so many bytes from a place on, of a method's code.
pub fn has_bytes<M: ObjectMemory>(
    m: &mut M,
    of: Reg,
    at: u32,
    count: usize,
) -> Result<bool, MemFault>
    requires fit { IsFit M.ObjectMemory m.old }
    ensures read { ReadsObject (M.told m.old) (M.told m.new) of result }
    ensures bytes { IfOk result (TestsPart (M.told m.old) (M.told m.new) of bytes_of (λ xs. at + count ≤ length xs)) }
    ensures fit { KeepsFit M.ObjectMemory m.old m.new result }
{
    let Some(len) = bytes(m, of)? else {
        return Ok(false);
    };
    Ok(fits(at, count, len))
}

/// Whether the register names an object of bytes.
pub fn is_text<M: ObjectMemory>(m: &mut M, of: Reg) -> Result<bool, MemFault>
    requires fit { IsFit M.ObjectMemory m.old }
    ensures read { ReadsObject (M.told m.old) (M.told m.new) of result }
    ensures text { IfOk result (TestsPart (M.told m.old) (M.told m.new) of text_of (λ _. Unit {0})) }
    ensures fit { KeepsFit M.ObjectMemory m.old m.new result }
{
    let kind = kind_of(m, of)?;
    Ok(is_kind(kind, Kind::Bytes))
}
