// Where the parts of a record stand among its bytes.
ghost use Rattle.std.specs.Prelude.{◌≡◌, ◌-◌, ◌++◌, ◌≤◌, ◌<◌, ◌+◌, ◌*◌, ◌^◌, ◌==◌, ◌↔◌, IsTrue, IfOk, Some, length, take, drop, replicate};
ghost use Rattle.std.specs.Int.{w16, w32};
ghost use Rattle.std.specs.List.{list_all};
ghost use Rattle.long_names.specs.Objects.{put_run};
ghost use Rattle.long_names.specs.Record.{padding, four_bytes, kind_number};
ghost use Rattle.object_record.specs.Raw.{raw_kind, raw_len, raw_literals, raw_size, raw_end, stated_literals, blank_record};
ghost use Rattle.object_record.specs.Buffer.{long_at, word_at, kind_numbered, raw_of, HasRecord};
ghost use Rattle.object_record.specs.Inside.{IsPlain, longs_place, bytes_place, size_stated, HasStated, IsSized, zeros_stated, head_text};
ghost use Rattle.long_names.specs.Names.{IsName, IsLongName};
ghost use Rattle.long_names.specs.declared.object.Kind.TheVariants.{Method};

use crate::offsets::{
    CLASS_AT, CONTENTS_AT, COUNT_AT, HEADER_AT, KIND_AT, LITERALS_AT, NAME_AT, SIZE_AT,
};
use long_names::{
    Kind, LONGEST_RECORD, MOST_CODE, MOST_LITERALS, Name, Value, literal_count, value_of,
};
use std::alloc::{AllocError, Global};

/// The number of the kind of methods, the highest.
pub(crate) const LAST_KIND: u16 = 3;

#[inline(always)]
pub(crate) fn long_at(bytes: &[u8], at: usize) -> u32
    requires { at + 4 ≤ length bytes.now }
    ensures { result ≡ long_at bytes.now at }
{
    u32::from_be_bytes([bytes[at], bytes[at + 1], bytes[at + 2], bytes[at + 3]])
}

#[inline(always)]
pub(crate) fn word_at(bytes: &[u8], at: usize) -> u16
    requires { at + 2 ≤ length bytes.now }
    ensures { result ≡ word_at bytes.now at }
{
    u16::from_be_bytes([bytes[at], bytes[at + 1]])
}

/// So many zeros.
pub(crate) fn zeros(alloc: Global, count: usize) -> Result<Vec<u8>, AllocError>
    ensures { IfOk result (λ bytes. bytes.items ≡ replicate count 0) }
{
    Ok(vec![in alloc; 0; count]?)
}

/// Puts bytes in the place of those from a place on.
#[inline(always)]
pub(crate) fn put(bytes: &mut Vec<u8>, at: usize, piece: &[u8])
    requires { at + length piece.now ≤ length bytes.old.items }
    ensures bytes { bytes.new.items ≡ put_run bytes.old.items at piece.now }
    ensures len { length bytes.new.items ≡ length bytes.old.items }
{
    bytes[at..at + piece.len()].copy_from_slice(piece);
}

#[inline(always)]
pub(crate) fn kind_of(bytes: &[u8]) -> Kind
    requires { length bytes.now ≡ LONGEST_RECORD }
    ensures { result ≡ kind_numbered (word_at bytes.now KIND_AT) }
{
    match word_at(bytes, KIND_AT) {
        0 => Kind::Pointers,
        1 => Kind::Words,
        2 => Kind::Bytes,
        _ => Kind::Method,
    }
}

#[inline(always)]
pub(crate) fn size_of(bytes: &[u8]) -> usize
    requires { length bytes.now ≡ LONGEST_RECORD }
    ensures size { result ≡ word_at bytes.now SIZE_AT }
    ensures range { result < 2 ^ 16 }
{
    word_at(bytes, SIZE_AT) as usize
}

/// How many literals a method has.
pub(crate) fn literals_of(bytes: &[u8]) -> usize
    requires { length bytes.now ≡ LONGEST_RECORD }
    ensures count { result ≡ long_at bytes.now CONTENTS_AT }
    ensures range { result < 2 ^ 32 }
{
    long_at(bytes, CONTENTS_AT) as usize
}

/// Where the first field stands: the first long word, or a method's first literal.
#[inline(always)]
pub(crate) fn longs_place(bytes: &[u8]) -> usize
    requires { length bytes.now ≡ LONGEST_RECORD }
    ensures { result ≡ longs_place (kind_numbered (word_at bytes.now KIND_AT)) }
{
    match kind_of(bytes) {
        Kind::Method => LITERALS_AT,
        _ => CONTENTS_AT,
    }
}

/// Where the first byte stands, of code too.
pub(crate) fn bytes_place(bytes: &[u8]) -> usize
    requires { length bytes.now ≡ LONGEST_RECORD }
    ensures place { result ≡ bytes_place (kind_numbered (word_at bytes.now KIND_AT)) (long_at bytes.now CONTENTS_AT) }
    ensures range { result < 2 ^ 35 }
{
    match kind_of(bytes) {
        Kind::Method => LITERALS_AT + 4 * literals_of(bytes),
        _ => CONTENTS_AT,
    }
}

/// How many bytes there are before the zeros at the end.
#[inline(always)]
pub(crate) fn end_of(bytes: &[u8]) -> usize
    requires { length bytes.now ≡ LONGEST_RECORD }
    ensures end { result ≡ CONTENTS_AT + size_stated (kind_numbered (word_at bytes.now KIND_AT)) (word_at bytes.now SIZE_AT) (long_at bytes.now CONTENTS_AT) }
    ensures range { result < 2 ^ 35 }
{
    let size = size_of(bytes);
    CONTENTS_AT
        + match kind_of(bytes) {
            Kind::Pointers => 4 * size,
            Kind::Words => 2 * size,
            Kind::Bytes => size,
            Kind::Method => 8 + 4 * literals_of(bytes) + size,
        }
}

/// How many zeros make a length a multiple of four.
#[inline(always)]
pub(crate) fn padding_of(len: usize) -> usize
    ensures { result ≡ padding len }
{
    (4 - len % 4) % 4
}

#[inline(always)]
fn has_names(bytes: &[u8]) -> bool
    requires { length bytes.now ≡ LONGEST_RECORD }
    ensures { IsTrue result ↔ (IsName (long_at bytes.now NAME_AT) × IsName (long_at bytes.now CLASS_AT)) }
{
    Name::new(long_at(bytes, NAME_AT)).is_some() && Name::new(long_at(bytes, CLASS_AT)).is_some()
}

/// Whether a header's long word is that of a SmallInteger that states so many literals.
fn states(header: u32, literals: usize) -> bool
    ensures { IsTrue result ↔ (stated_literals header ≡ Some literals) }
{
    match value_of(header) {
        Some(Value::Int(number)) => literal_count(number) == literals,
        _ => false,
    }
}

/// Whether an object of the kind may have the size and the literals.
#[inline(always)]
fn has_size(bytes: &[u8]) -> bool
    requires { length bytes.now ≡ LONGEST_RECORD }
    ensures { IsTrue result ↔ HasStated (kind_numbered (word_at bytes.now KIND_AT)) (word_at bytes.now SIZE_AT) (long_at bytes.now CONTENTS_AT) (long_at bytes.now HEADER_AT) }
{
    match kind_of(bytes) {
        Kind::Method => {
            size_of(bytes) <= MOST_CODE as usize
                && states(long_at(bytes, HEADER_AT), literals_of(bytes))
        }
        _ => true,
    }
}

#[inline(always)]
fn are_zeros(bytes: &[u8]) -> bool
    ensures { result ≡ list_all (λ b. b == 0) bytes.now }
{
    bytes.iter().all(|b| *b == 0)
}

/// Whether zeros stand up to a multiple of four.
#[inline(always)]
fn has_zeros(bytes: &[u8]) -> bool
    requires room { length bytes.now ≡ LONGEST_RECORD }
    requires size { HasStated (kind_numbered (word_at bytes.now KIND_AT)) (word_at bytes.now SIZE_AT) (long_at bytes.now CONTENTS_AT) (long_at bytes.now HEADER_AT) }
    ensures { result ≡ list_all (λ b. b == 0) (zeros_stated bytes.now) }
{
    let end = end_of(bytes);
    let (_, rest) = bytes.split_at(end);
    are_zeros(&rest[..padding_of(end)])
}

/// Whether names, kind, size and literals are such as a record may have.
#[inline(always)]
fn is_sized(bytes: &[u8]) -> bool
    requires { length bytes.now ≡ LONGEST_RECORD }
    ensures { IsTrue result ↔ IsSized bytes.now }
{
    has_names(bytes) && word_at(bytes, KIND_AT) <= LAST_KIND && has_size(bytes)
}

/// Whether the bytes begin with a record.
#[inline(always)]
pub(crate) fn is_laid(bytes: &[u8]) -> bool
    requires { length bytes.now ≡ LONGEST_RECORD }
    ensures { IsTrue result ↔ HasRecord bytes.now }
{
    is_sized(bytes) && has_zeros(bytes)
}

#[inline(always)]
fn number_of(kind: Kind) -> u16
    ensures { result ≡ kind_number kind }
{
    kind as u16
}

fn write_head(bytes: &mut Vec<u8>, name: Name, class: Name, kind: Kind, size: u16)
    requires { length bytes.old.items ≡ LONGEST_RECORD }
    ensures names { IsLongName name × IsLongName class }
    ensures head { bytes.new.items ≡ head_text name class 0 (kind_number kind) size (drop CONTENTS_AT bytes.old.items) }
    ensures len { length bytes.new.items ≡ length bytes.old.items }
{
    put(bytes, NAME_AT, &name.get().to_be_bytes());
    put(bytes, CLASS_AT, &class.get().to_be_bytes());
    put(bytes, COUNT_AT, &0u64.to_be_bytes());
    put(bytes, KIND_AT, &number_of(kind).to_be_bytes());
    put(bytes, SIZE_AT, &size.to_be_bytes());
}

/// Puts the literal count and the header of a method without flags.
fn write_header(bytes: &mut Vec<u8>, literals: u32)
    requires room { length bytes.old.items ≡ LONGEST_RECORD }
    requires few { literals ≤ MOST_LITERALS }
    ensures header { bytes.new.items ≡ take CONTENTS_AT bytes.old.items ++ (four_bytes literals ++ (four_bytes (2 * literals + 1) ++ drop LITERALS_AT bytes.old.items)) }
    ensures len { length bytes.new.items ≡ length bytes.old.items }
{
    put(bytes, CONTENTS_AT, &literals.to_be_bytes());
    put(bytes, HEADER_AT, &(2 * literals + 1).to_be_bytes());
}

/// Puts zeros from a place up to an end.
#[inline(always)]
fn clear(bytes: &mut Vec<u8>, at: usize, end: usize)
    requires ordered { at ≤ end }
    requires within { end ≤ length bytes.old.items }
    ensures bytes { bytes.new.items ≡ take at bytes.old.items ++ (replicate (end - at) 0 ++ drop end bytes.old.items) }
    ensures len { length bytes.new.items ≡ length bytes.old.items }
{
    bytes[at..end].fill(0);
}

/// The size of the contents of a kind without literals.
#[inline(always)]
fn plain_size(kind: Kind, len: u16) -> usize
    requires { IsPlain kind }
    ensures size { result ≡ size_stated kind len 0 }
    ensures range { result < 2 ^ 18 }
{
    match kind {
        Kind::Pointers => 4 * len as usize,
        Kind::Words => 2 * len as usize,
        _ => len as usize,
    }
}

/// Makes the record of an object without literals, of zeros.
#[inline(always)]
pub(crate) fn blank_plain(bytes: &mut Vec<u8>, name: Name, class: Name, kind: Kind, len: u16)
    requires room { length bytes.old.items ≡ LONGEST_RECORD }
    requires plain { IsPlain kind }
    ensures record { HasRecord bytes.new.items }
    ensures blank { raw_of bytes.new.items ≡ blank_record name class kind len 0 }
    ensures len { length bytes.new.items ≡ length bytes.old.items }
{
    write_head(bytes, name, class, kind, len);
    let end = CONTENTS_AT + plain_size(kind, len);
    clear(bytes, CONTENTS_AT, end + padding_of(end));
}

/// Makes the record of a method, of zeros but for its literal count and its header.
pub(crate) fn blank_method(bytes: &mut Vec<u8>, name: Name, class: Name, len: u16, literals: u32)
    requires room { length bytes.old.items ≡ LONGEST_RECORD }
    requires size { len ≤ MOST_CODE }
    requires few { literals ≤ MOST_LITERALS }
    ensures record { HasRecord bytes.new.items }
    ensures blank { raw_of bytes.new.items ≡ blank_record name class Method len literals }
    ensures len { length bytes.new.items ≡ length bytes.old.items }
{
    write_head(bytes, name, class, Kind::Method, len);
    write_header(bytes, literals);
    let end = LITERALS_AT + 4 * literals as usize + len as usize;
    clear(bytes, LITERALS_AT, end + padding_of(end));
}
