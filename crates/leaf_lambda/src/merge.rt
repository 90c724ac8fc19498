// Bodies into records: fields with lambdas as the old copy has them, words and bytes as the core has them.
ghost use Rattle.std.specs.Prelude.{◌≡◌, ◌≢◌, ◌+◌, ◌/◌, ◌%◌, ◌<◌, ◌^◌, ℕ, List, Some, true, false, length, map, get_or, take, drop, slice_get, if◌then◌else◌};
ghost use Rattle.long_names.specs.Words.{literal_count as count_literals};
ghost use Rattle.long_names.specs.declared.value.Value.{Value as Meaning};
ghost use Rattle.long_names.specs.declared.object.Kind.TheVariants as sort;
ghost use Rattle.object_record.specs.Raw.{raw_kind, raw_len, raw_words, raw_bytes, longs_of, with_raw, stated_literals};
ghost use Rattle.object_record.specs.Buffer.{raw_of, HasRecord};
ghost use Rattle.object_record.specs.Objects.{value_in, int_in, object_in};
ghost use Rattle.object_table.specs.Entries.{is_short, is_used, place_of};
ghost use Rattle.core_segment.specs.Segment.{chunk_at};
ghost use Rattle.core_view.specs.Words.{int_of_short, meant, values_by, bytes_in, header_in, pointers};
ghost use Rattle.core_view.specs.Held.{Disk as Store, object_at};
ghost use Rattle.core_view.specs.Kept.{IsBacked};
ghost use Rattle.core_view.specs.Steps.{IsAt};
ghost use Rattle.leaf_lambda.specs.Parts.{core_of, IsParts};
ghost use Rattle.leaf_lambda.specs.Records.{IsCopy, IsMerged, literals_for, with_longs, with_words, with_bytes};

use crate::numbers::int_short;
use crate::parts::Parts;
use crate::steps::{field_word, place_of_body};
use core_segment::{Addr, Segment};
use long_names::{Kind, Value, literal_count, long_word};
use object_record::RecordBuf;
use object_table::Short;

// The long word of the number of a short word.
#[inline(always)]
fn number_long(w: u16) -> u32
    ensures odd { result % 2 ≡ 1 }
    ensures number { int_in result ≡ int_of_short w }
    ensures stated { stated_literals result ≡ Some (count_literals (int_of_short w)) }
{
    long_word(Value::Int(int_short(w)))
}

// The long word of a short word that is no lambda.
#[inline(always)]
fn word_long(p: &Parts, w: u16) -> u32
    requires parts { IsParts p.now }
    requires some { w ≢ 0 }
    requires used { is_short w ≡ true → is_used ((core_of p.now).entries w).state ≡ true }
    ensures { (old : List Meaning) (i : ℕ) → value_in result ≡ meant (core_of p.now).entries old i w }
{
    if w % 2 == 0 {
        let name = p.names.table.used_entry(Short(w)).name;
        name.get()
    } else {
        number_long(w)
    }
}

// Merges one field: the word's long word, or what the old copy has where it is a lambda.
#[inline(always)]
fn merge_field(p: &Parts, s: Short, at: Addr, buf: &mut RecordBuf, i: u32)
    requires parts { IsParts p.now }
    requires there { (w : ℕ) × IsAt (core_of p.now) s.0 at.place i w }
    requires record { HasRecord buf.old }
    requires within { i < length (longs_of (raw_of buf.old).body) }
    ensures record { HasRecord buf.new }
    ensures longs { raw_of buf.new ≡ with_raw (raw_of buf.old) (with_longs (raw_of buf.old).body (longs_of (raw_of buf.new).body)) }
    ensures long { length (longs_of (raw_of buf.new).body) ≡ length (longs_of (raw_of buf.old).body) }
    ensures here { (w : ℕ) → IsAt (core_of p.now) s.0 at.place i w
        → value_in (get_or (longs_of (raw_of buf.new).body) i 0)
        ≡ meant (core_of p.now).entries (map value_in (longs_of (raw_of buf.old).body)) i w }
    ensures others { (k : ℕ) → k ≢ i → slice_get (longs_of (raw_of buf.new).body) k ≡ slice_get (longs_of (raw_of buf.old).body) k }
{
    let w = field_word(p, s, at, i);
    if w != 0 {
        let long = word_long(p, w);
        buf.set_long_field(i, long);
    }
}

// Merges all fields.
#[inline(always)]
fn merge_fields(p: &Parts, s: Short, at: Addr, buf: &mut RecordBuf, count: u32)
    requires parts { IsParts p.now }
    requires place { place_of ((core_of p.now).entries s.0).state ≡ Some at.place }
    requires record { HasRecord buf.old }
    requires count { count ≡ length (longs_of (raw_of buf.old).body) }
    requires fields { count ≡ length (pointers ((core_of p.now).entries s.0).kind ((core_of p.now).chunks at.place).words) }
    ensures record { HasRecord buf.new }
    ensures longs { raw_of buf.new ≡ with_raw (raw_of buf.old) (with_longs (raw_of buf.old).body (longs_of (raw_of buf.new).body)) }
    ensures values { map value_in (longs_of (raw_of buf.new).body)
        ≡ values_by (meant (core_of p.now).entries (map value_in (longs_of (raw_of buf.old).body)))
        (pointers ((core_of p.now).entries s.0).kind ((core_of p.now).chunks at.place).words) }
{
    for i in 0..count {
        merge_field(p, s, at, buf, i);
    }
}

// Copies the words of a chunk into a record of as many words.
fn copy_words(g: &Segment, at: Addr, buf: &mut RecordBuf, len: u32)
    requires record { HasRecord buf.old }
    requires len { len ≡ length (raw_words (raw_of buf.old).body) }
    requires words { len ≡ length (chunk_at g.now at.place).words }
    ensures record { HasRecord buf.new }
    ensures words { raw_of buf.new ≡ with_raw (raw_of buf.old) (with_words (raw_of buf.old).body (chunk_at g.now at.place).words) }
{
    for i in 0..len {
        let w = g.word(at, i);
        buf.set_word(i, w);
    }
}

// A byte of a word: the high one, or the low one.
fn byte_of(w: u16, low: bool) -> u8
    ensures { result ≡ (if low then w % 256 else w / 256) }
{
    if low {
        (w % 256) as u8
    } else {
        (w / 256) as u8
    }
}

// Copies the bytes in the words of a chunk from one on into a record of so many bytes.
fn copy_bytes(g: &Segment, at: Addr, first: u32, buf: &mut RecordBuf, len: u32)
    requires record { HasRecord buf.old }
    requires len { len ≡ length (raw_bytes (raw_of buf.old).body) }
    requires words { first + (len + 1) / 2 ≡ length (chunk_at g.now at.place).words }
    requires small { length (chunk_at g.now at.place).words < 2 ^ 17 }
    ensures record { HasRecord buf.new }
    ensures bytes { raw_of buf.new
        ≡ with_raw (raw_of buf.old) (with_bytes (raw_of buf.old).body (take len (bytes_in (drop first (chunk_at g.now at.place).words)))) }
{
    for i in 0..len {
        let w = g.word(at, first + i / 2);
        let byte = byte_of(w, i % 2 == 1);
        buf.set_byte(i, byte);
    }
}

// Merges a method: its header, its literals and its code.
fn merge_method(p: &Parts, s: Short, at: Addr, buf: &mut RecordBuf, len: u32)
    requires parts { IsParts p.now }
    requires place { place_of ((core_of p.now).entries s.0).state ≡ Some at.place }
    requires copy { IsCopy buf.old ((core_of p.now).entries s.0) ((core_of p.now).chunks at.place).words }
    requires method { raw_kind (raw_of buf.old).body ≡ sort.Method }
    requires len { len ≡ raw_len (raw_of buf.old).body }
    ensures merged { IsMerged (core_of p.now) s.0 at.place buf.old buf.new }
{
    let header = number_long(p.segment.word(at, 0));
    let count = buf.literals();
    buf.set_header(header);
    merge_fields(p, s, at, buf, count);
    copy_bytes(&p.segment, at, 1 + count, buf, len);
}

// Merges a body into a record like it.
fn merge_into(p: &Parts, s: Short, at: Addr, buf: &mut RecordBuf)
    requires parts { IsParts p.now }
    requires place { place_of ((core_of p.now).entries s.0).state ≡ Some at.place }
    requires copy { IsCopy buf.old ((core_of p.now).entries s.0) ((core_of p.now).chunks at.place).words }
    ensures merged { IsMerged (core_of p.now) s.0 at.place buf.old buf.new }
{
    let len = buf.len();
    match buf.kind() {
        Kind::Pointers => merge_fields(p, s, at, buf, len),
        Kind::Words => copy_words(&p.segment, at, buf, len),
        Kind::Bytes => copy_bytes(&p.segment, at, 0, buf, len),
        Kind::Method => merge_method(p, s, at, buf, len),
    }
}

// How many literals the header word of a method says.
#[inline(always)]
pub(crate) fn literals_by(header: u16) -> u32
    ensures { result ≡ count_literals (int_of_short header) }
{
    literal_count(int_short(header)) as u32
}

/// How many literals an object of a kind has: what the header of a method says.
#[inline(always)]
pub fn literals_of(p: &Parts, at: Addr, kind: Kind) -> u32
    requires { kind ≡ sort.Method → 0 < length ((core_of p.now).chunks at.place).words }
    ensures { result ≡ literals_for kind (header_in ((core_of p.now).chunks at.place).words) }
{
    match kind {
        Kind::Method => literals_by(p.segment.word(at, 0)),
        _ => 0,
    }
}

// Makes an empty record like an object that has none yet.
#[inline(always)]
fn blank_copy(p: &Parts, s: Short, at: Addr, buf: &mut RecordBuf)
    requires parts { IsParts p.now }
    requires place { place_of ((core_of p.now).entries s.0).state ≡ Some at.place }
    ensures copy { IsCopy buf.new ((core_of p.now).entries s.0) ((core_of p.now).chunks at.place).words }
    ensures class { (raw_of buf.new).class ≡ ((core_of p.now).entries ((core_of p.now).entries s.0).class.0).name }
{
    let e = p.names.table.used_entry(s);
    let class = p.names.table.used_entry(e.class).name;
    let literals = literals_of(p, at, e.kind);
    buf.blank(e.name, class, e.kind, e.len, literals);
}

// A record like an object: the one that there is, or an empty one.
#[inline(always)]
fn ready_copy(p: &Parts, s: Short, at: Addr, buf: &mut RecordBuf)
    requires parts { IsParts p.now }
    requires place { place_of ((core_of p.now).entries s.0).state ≡ Some at.place }
    requires copy { ((core_of p.now).entries s.0).flags.fresh ≡ false
        → IsCopy buf.old ((core_of p.now).entries s.0) ((core_of p.now).chunks at.place).words }
    ensures copy { IsCopy buf.new ((core_of p.now).entries s.0) ((core_of p.now).chunks at.place).words }
    ensures class { ((core_of p.now).entries s.0).flags.fresh ≡ true
        → (raw_of buf.new).class ≡ ((core_of p.now).entries ((core_of p.now).entries s.0).class.0).name }
    ensures same { ((core_of p.now).entries s.0).flags.fresh ≡ false → buf.new ≡ buf.old }
{
    if p.names.table.used_entry(s).flags.fresh {
        blank_copy(p, s, at, buf);
    }
}

/// Makes the record of an object with a body. Unless the object is fresh, the buffer has its old record, and each lambda is what that
/// has in its field. The count of the record stays, or is 0.
#[inline(always)]
pub fn merge_out(p: &mut Parts, s: Short, buf: &mut RecordBuf)
    requires parts { IsParts p.old }
    requires copy { (at : ℕ) × (place_of ((core_of p.old).entries s.0).state ≡ Some at)
        × (((core_of p.old).entries s.0).flags.fresh ≡ false
        → IsCopy buf.old ((core_of p.old).entries s.0) ((core_of p.old).chunks at).words) }
    ensures record { HasRecord buf.new × ((raw_of buf.new).name ≡ ((core_of p.old).entries s.0).name) }
    ensures object { (disk : Store) (at : ℕ) → IsBacked (core_of p.old) disk → place_of ((core_of p.old).entries s.0).state ≡ Some at
        → (((core_of p.old).entries s.0).flags.fresh ≡ false → disk ((core_of p.old).entries s.0).name ≡ Some (object_in (raw_of buf.old)))
        → object_in (raw_of buf.new) ≡ object_at (core_of p.old) disk ((core_of p.old).entries s.0) at }
    ensures same { p.new ≡ p.old }
{
    let at = place_of_body(p, s);
    ready_copy(p, s, at, buf);
    merge_into(p, s, at, buf);
}
