// Bodies that come, with a lambda for each field, and go.
ghost use Rattle.std.specs.Prelude.{◌≡◌, ◌+◌, ◌-◌, ◌*◌, ◌<◌, ◌≤◌, ◌^◌, Some, None, true, false, length, slice_get, get_or};
ghost use Rattle.long_names.specs.declared.object.Kind.TheVariants as kind;
ghost use Rattle.object_record.specs.Raw.{raw_kind, raw_len, raw_bytes};
ghost use Rattle.object_record.specs.Buffer.{raw_of, HasRecord};
ghost use Rattle.object_table.specs.Entries.{is_used};
ghost use Rattle.core_segment.specs.Chunks.{with_chunk};
ghost use Rattle.core_view.specs.Core.{with_entry, with_chunk_at};
ghost use Rattle.core_view.specs.Counts.{outside};
ghost use Rattle.core_view.specs.Steps.{IsOpening, IsMove};
ghost use Rattle.core_segment.specs.Segment.{chunk_at, largest_of, SameRoom};
ghost use Rattle.leaf_lambda.specs.Parts.{core_of, spare_of, IsParts, TakesRoom};
ghost use Rattle.leaf_lambda.specs.Records.{packed, unresolved, opened};

use crate::parts::Parts;
use core_segment::{Addr, HEADER, Segment};
use long_names::Kind;
use object_record::RecordBuf;
use object_table::{EntryState, Short};

// A byte of a record, or of a method's code. Behind the last one there are zeros.
fn byte_or_zero(buf: &RecordBuf, i: u32) -> u16
    requires record { HasRecord buf.now }
    requires len { raw_len (raw_of buf.now).body ≡ length (raw_bytes (raw_of buf.now).body) }
    ensures byte { result ≡ get_or (raw_bytes (raw_of buf.now).body) i 0 }
    ensures range { result < 256 }
{
    if i < buf.len() {
        u16::from(buf.byte(i))
    } else {
        0
    }
}

// Two bytes as a word, the first one high.
fn pair(buf: &RecordBuf, k: u32) -> u16
    requires record { HasRecord buf.now }
    requires len { raw_len (raw_of buf.now).body ≡ length (raw_bytes (raw_of buf.now).body) }
    requires within { 2 * k < length (raw_bytes (raw_of buf.now).body) }
    requires small { length (raw_bytes (raw_of buf.now).body) < 2 ^ 16 }
    ensures { slice_get (packed (raw_bytes (raw_of buf.now).body)) k ≡ Some result }
{
    256 * byte_or_zero(buf, 2 * k) + byte_or_zero(buf, 2 * k + 1)
}

// A word of a method's body with lambdas for literals.
fn method_word(buf: &RecordBuf, k: u32) -> u16
    requires record { HasRecord buf.now }
    requires method { raw_kind (raw_of buf.now).body ≡ kind.Method }
    requires within { k < length (unresolved (raw_of buf.now).body) }
    ensures { slice_get (unresolved (raw_of buf.now).body) k ≡ Some result }
{
    let literals = buf.literals();
    if k == 0 {
        (buf.header() % 65_536) as u16
    } else if k <= literals {
        0
    } else {
        pair(buf, k - 1 - literals)
    }
}

// A word of the body that a record has, with lambdas for its fields.
#[inline(always)]
fn body_word(buf: &RecordBuf, k: u32) -> u16
    requires record { HasRecord buf.now }
    requires within { k < length (unresolved (raw_of buf.now).body) }
    ensures { slice_get (unresolved (raw_of buf.now).body) k ≡ Some result }
{
    match buf.kind() {
        Kind::Pointers => 0,
        Kind::Words => buf.word(k),
        Kind::Bytes => pair(buf, k),
        Kind::Method => method_word(buf, k),
    }
}

/// How many words the body of a record has.
#[inline(always)]
pub fn words_of(buf: &RecordBuf) -> u32
    requires { HasRecord buf.now }
    ensures words { result ≡ length (unresolved (raw_of buf.now).body) }
    ensures small { result < 2 ^ 17 }
{
    let len = buf.len();
    match buf.kind() {
        Kind::Pointers => len,
        Kind::Words => len,
        Kind::Bytes => (len + 1) / 2,
        Kind::Method => 1 + buf.literals() + (len + 1) / 2,
    }
}

// Fills a chunk with the body of a record, with lambdas for its fields.
fn fill(g: &mut Segment, at: Addr, buf: &RecordBuf, words: u32)
    requires record { HasRecord buf.now }
    requires long { length (chunk_at g.old at.place).words ≡ words }
    requires words { words ≡ length (unresolved (raw_of buf.now).body) }
    ensures chunk { chunk_at g.new
        ≡ with_chunk (chunk_at g.old) at.place (record { owner = (chunk_at g.old at.place).owner; words = unresolved (raw_of buf.now).body }) }
    ensures room { SameRoom g.old g.new }
{
    for k in 0..words {
        let w = body_word(buf, k);
        g.set_word(at, k, w);
    }
}

// Gives a chunk to an owner, with the body of a record and lambdas for its fields.
fn take_filled(g: &mut Segment, words: u32, owner: u16, buf: &RecordBuf) -> Addr
    requires record { HasRecord buf.now }
    requires words { words ≡ length (unresolved (raw_of buf.now).body) }
    requires small { words < 2 ^ 17 }
    requires owned { 0 < owner }
    requires room { words + HEADER ≤ largest_of g.old }
    ensures vacant { (chunk_at g.old result.place).owner ≡ 0 }
    ensures chunk { chunk_at g.new
        ≡ with_chunk (chunk_at g.old) result.place (record { owner = owner; words = unresolved (raw_of buf.now).body }) }
    ensures takes { TakesRoom words g.old g.new }
{
    match g.take(words + HEADER, owner) {
        Some(at) => {
            fill(g, at, buf, words);
            at
        }
        None => unreachable!(),
    }
}

/// A chunk of an entry's own, with the body of a record and lambdas for its fields.
pub fn take_body(p: &mut Parts, s: Short, buf: &RecordBuf) -> Addr
    requires parts { IsParts p.old }
    requires record { HasRecord buf.now }
    requires used { is_used ((core_of p.old).entries s.0).state ≡ true }
    requires room { length (unresolved (raw_of buf.now).body) + HEADER ≤ largest_of p.old.segment }
    ensures parts { IsParts p.new }
    ensures moves { IsMove (core_of p.old) (core_of p.new) }
    ensures same_names { p.new.names ≡ p.old.names }
    ensures chunk { (core_of p.new).chunks result.place ≡ record { owner = s.0; words = unresolved (raw_of buf.now).body } }
    ensures core { core_of p.new
        ≡ with_chunk_at (core_of p.old) result.place (record { owner = s.0; words = unresolved (raw_of buf.now).body }) }
    ensures takes { TakesRoom (length (unresolved (raw_of buf.now).body)) p.old.segment p.new.segment }
{
    let words = words_of(buf);
    take_filled(&mut p.segment, words, s.0, buf)
}

/// Opens a leaf: from here on it has a body in a chunk of its own, of a class and with fields that were held from outside.
pub fn open_body(p: &mut Parts, s: Short, at: Addr, class: Short, kind: Kind, len: u32)
    requires parts { IsParts p.old }
    requires opening { IsOpening (core_of p.old) s.0 at.place (opened ((core_of p.old).entries s.0) at.place class.0 kind len) }
    ensures parts { IsParts p.new }
    ensures core { core_of p.new ≡ with_entry (core_of p.old) s.0 (opened ((core_of p.old).entries s.0) at.place class.0 kind len) }
    ensures spare { spare_of p.new ≡ spare_of p.old }
    ensures segment { p.new.segment ≡ p.old.segment }
{
    let mut e = p.names.table.used_entry(s);
    e.state = EntryState::Resident(at.place);
    e.class = class;
    e.kind = kind;
    e.len = len;
    e.flags.changed = false;
    e.flags.fresh = false;
    p.names.table.set(s, e);
}
