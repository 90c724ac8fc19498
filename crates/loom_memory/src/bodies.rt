// Words and bytes of a body in the core.
ghost use Rattle.std.specs.Prelude.{◌≡◌, ◌+◌, ◌*◌, ◌/◌, ◌<◌, ◌≤◌, ◌^◌, ℕ, Some, true, MatchBool, IfSome, IsSome, OnSome, length, drop, slice_get};
ghost use Rattle.std.specs.Option.{option_and_then};
ghost use Rattle.long_names.specs.Words.{IsSmallInteger, literal_count};
ghost use Rattle.long_names.specs.declared.limits.TheConstants.{MOST_FIELDS};
ghost use Rattle.long_names.specs.declared.object.Kind.TheVariants as kind;
ghost use Rattle.long_names.specs.Objects.{words_of, bytes_of, header_of};
ghost use Rattle.object_memory.specs.Shape.{code_at, field_count};
ghost use Rattle.object_table.specs.Entries.{is_used, place_of};
ghost use Rattle.core_segment.specs.Segment.{chunk_at};
ghost use Rattle.core_view.specs.Words.{bytes_in, header_in, int_of_short, words_for};
ghost use Rattle.leaf_lambda.specs.Parts.{core_of, IsParts};
ghost use Rattle.loom_memory.specs.Bodies.{OfBody, HasRun, LacksRun, bytes_from, code_from};

use core_segment::{Addr, Segment};
use leaf_lambda::Parts;
use leaf_lambda::merge::literals_of;
use leaf_lambda::numbers::int_short;
use leaf_lambda::steps::place_of_body;
use long_names::Kind;
use object_table::Short;

// Whether so many from a place on are among this many.
#[inline(always)]
fn reaches(len: u32, i: u32, count: usize) -> bool
    ensures { MatchBool result (i + count ≤ len) (len < i + count) }
{
    if i > len {
        return false;
    }
    count <= (len - i) as usize
}

// Copies a run of the words of a chunk, from word i on.
#[inline(always)]
fn copy_words(g: &Segment, at: Addr, i: u32, out: &mut [u16])
    requires within { i + length out.old ≤ length (chunk_at g.now at.place).words }
    requires small { i + length out.old < 2 ^ 16 }
    ensures run { (j : ℕ) → j < length out.old → slice_get out.new j ≡ slice_get (chunk_at g.now at.place).words (i + j) }
    ensures long { length out.new ≡ length out.old }
{
    let start = g.start();
    for k in 0..out.len() {
        out[k] = g.word_from(start, at, i as usize + k);
    }
}

// Byte i of the words of a chunk from one on.
#[inline(always)]
fn byte_from(g: &Segment, at: Addr, first: u32, i: u32) -> u8
    requires within { first + i / 2 < length (chunk_at g.now at.place).words }
    requires small { first < 2 ^ 16 }
    ensures { slice_get (bytes_in (drop first (chunk_at g.now at.place).words)) i ≡ Some result }
{
    let w = g.word(at, first + i / 2);
    if i % 2 == 1 {
        (w % 256) as u8
    } else {
        (w / 256) as u8
    }
}

// Copies a run of the bytes that the words of a chunk are from one on, from byte i on.
fn copy_bytes(g: &Segment, at: Addr, first: u32, i: u32, out: &mut [u8])
    requires within { first + (i + length out.old + 1) / 2 ≤ length (chunk_at g.now at.place).words }
    requires first { first < 2 ^ 16 }
    requires small { i + length out.old < 2 ^ 16 }
    ensures run { (j : ℕ) → j < length out.old → slice_get out.new j ≡ slice_get (bytes_in (drop first (chunk_at g.now at.place).words)) (i + j) }
    ensures long { length out.new ≡ length out.old }
{
    for k in 0..out.len() {
        out[k] = byte_from(g, at, first, i + k as u32);
    }
}

// The word of a body where its bytes begin. None where it has no bytes.
fn bytes_first(p: &Parts, s: Short, at: Addr) -> Option<u32>
    requires parts { IsParts p.now }
    requires place { place_of ((core_of p.now).entries s.0).state ≡ Some at.place }
    ensures first { result ≡ bytes_from ((core_of p.now).entries s.0).kind ((core_of p.now).chunks at.place).words }
    ensures small { IfSome result (λ n. n < 2 ^ 16) }
{
    let kind = p.names.table.used_entry(s).kind;
    match kind {
        Kind::Bytes => Some(0),
        Kind::Method => Some(1 + literals_of(p, at, kind)),
        _ => None,
    }
}

// Word i of a body of words. None where there is none.
pub(crate) fn word_at(p: &Parts, s: Short, i: u32) -> Option<u16>
    requires parts { IsParts p.now }
    requires there { (at : ℕ) × (place_of ((core_of p.now).entries s.0).state ≡ Some at) }
    ensures { OfBody (core_of p.now) s.0 (λ b. result ≡ option_and_then (λ words. slice_get words i) (words_of b)) }
{
    let e = p.names.table.used_entry(s);
    let at = place_of_body(p, s);
    match e.kind {
        Kind::Words => {
            if i < e.len {
                return Some(p.segment.word(at, i));
            }
            None
        }
        _ => None,
    }
}

// How many values a body of pointers has. None where it is of another kind, or there is no body.
#[inline(always)]
pub(crate) fn field_count_at(p: &Parts, s: Short) -> Option<u32>
    requires parts { IsParts p.now }
    requires used { is_used ((core_of p.now).entries s.0).state ≡ true }
    ensures count { OfBody (core_of p.now) s.0 (λ b. result ≡ field_count b) }
    ensures there { OnSome result (IsSome (place_of ((core_of p.now).entries s.0).state)) }
    ensures bound { IfSome result (λ n. n < MOST_FIELDS + 1) }
{
    let e = p.names.table.used_entry(s);
    if !e.place().is_some() {
        return None;
    }
    match e.kind {
        Kind::Pointers => Some(e.len),
        _ => None,
    }
}

// The header of a method. None where it is none.
#[inline(always)]
pub(crate) fn header_at(p: &Parts, s: Short) -> Option<i16>
    requires parts { IsParts p.now }
    requires there { (at : ℕ) × (place_of ((core_of p.now).entries s.0).state ≡ Some at) }
    ensures header { OfBody (core_of p.now) s.0 (λ b. result ≡ header_of b) }
    ensures range { IfSome result IsSmallInteger }
{
    let e = p.names.table.used_entry(s);
    let at = place_of_body(p, s);
    match e.kind {
        Kind::Method => Some(int_short(p.segment.word(at, 0))),
        _ => None,
    }
}

// Byte i of a body of bytes, or of a method's code. None where there is none.
pub(crate) fn byte_at(p: &Parts, s: Short, i: u32) -> Option<u8>
    requires parts { IsParts p.now }
    requires there { (at : ℕ) × (place_of ((core_of p.now).entries s.0).state ≡ Some at) }
    ensures { OfBody (core_of p.now) s.0 (λ b. result ≡ option_and_then (λ bytes. slice_get bytes i) (bytes_of b)) }
{
    let e = p.names.table.used_entry(s);
    let at = place_of_body(p, s);
    match bytes_first(p, s, at) {
        Some(first) => {
            if i < e.len {
                return Some(byte_from(&p.segment, at, first, i));
            }
            None
        }
        None => None,
    }
}

// The place of a method's first byte of code, by its header word: behind the header and the literals, of two bytes each.
#[inline(always)]
fn code_first(header: u16) -> u32
    ensures { result ≡ 2 * (literal_count (int_of_short header) + 1) }
{
    2 * u32::from(header / 2 % 64) + 2
}

// The byte at a place among those of a chunk's words, which are a method with so many bytes of code. None where it isn't one of these.
#[inline(always)]
fn code_byte(g: &Segment, at: Addr, len: u32, place: u32) -> Option<u8>
    requires long { length (chunk_at g.now at.place).words ≡ words_for kind.Method len (literal_count (header_in (chunk_at g.now at.place).words)) }
    ensures { result ≡ code_from (chunk_at g.now at.place).words len place }
{
    let first = code_first(g.word(at, 0));
    if place < first {
        return None;
    }
    if place - first < len {
        return Some(byte_from(g, at, 0, place));
    }
    None
}

// The byte of a method's code at a place that counts from its header on. None where there is none, or no body.
#[inline(always)]
pub(crate) fn code_byte_at(p: &Parts, s: Short, place: u32) -> Option<u8>
    requires parts { IsParts p.now }
    requires used { is_used ((core_of p.now).entries s.0).state ≡ true }
    ensures byte { OfBody (core_of p.now) s.0 (λ b. result ≡ code_at place b) }
    ensures there { OnSome result (IsSome (place_of ((core_of p.now).entries s.0).state)) }
{
    let e = p.names.table.used_entry(s);
    match e.place() {
        Some(body) => match e.kind {
            Kind::Method => code_byte(&p.segment, Addr { place: body }, e.len, place),
            _ => None,
        },
        None => None,
    }
}

// Copies a run of a body's words from word i on. False where they aren't all there.
#[inline(always)]
pub(crate) fn words_into(p: &Parts, s: Short, i: u32, out: &mut [u16]) -> bool
    requires parts { IsParts p.now }
    requires there { (at : ℕ) × (place_of ((core_of p.now).entries s.0).state ≡ Some at) }
    ensures { OfBody (core_of p.now) s.0 (λ b. MatchBool result (HasRun (words_of b) i (length out.old) out.new) (LacksRun (words_of b) i (length out.old))) }
{
    let e = p.names.table.used_entry(s);
    let at = place_of_body(p, s);
    match e.kind {
        Kind::Words => {
            if reaches(e.len, i, out.len()) {
                copy_words(&p.segment, at, i, out);
                return true;
            }
            false
        }
        _ => false,
    }
}

// Copies a run of a body's bytes, or of a method's code, from byte i on. False where they aren't all there.
pub(crate) fn bytes_into(p: &Parts, s: Short, i: u32, out: &mut [u8]) -> bool
    requires parts { IsParts p.now }
    requires there { (at : ℕ) × (place_of ((core_of p.now).entries s.0).state ≡ Some at) }
    ensures { OfBody (core_of p.now) s.0 (λ b. MatchBool result (HasRun (bytes_of b) i (length out.old) out.new) (LacksRun (bytes_of b) i (length out.old))) }
{
    let e = p.names.table.used_entry(s);
    let at = place_of_body(p, s);
    match bytes_first(p, s, at) {
        Some(first) => {
            if reaches(e.len, i, out.len()) {
                copy_bytes(&p.segment, at, first, i, out);
                return true;
            }
            false
        }
        None => false,
    }
}
