// Records into bodies: an object comes in, and its lambdas are resolved.
ghost use Rattle.std.specs.Prelude.{◌≡◌, ◌≢◌, ◌+◌, ◌-◌, ◌<◌, ◌≤◌, ℕ, List, Some, None, IfSome, IfNone, true, length, map, replicate, get_or, min, count_by, slice_get, slice_set, slice_index};
ghost use Rattle.long_names.specs.Objects.{body_words};
ghost use Rattle.long_names.specs.Words.{IsValue, value_of as read_value};
ghost use Rattle.long_names.specs.declared.value.Value.{Value as Meaning};
ghost use Rattle.object_record.specs.Raw.{raw_kind, longs_of};
ghost use Rattle.object_record.specs.Buffer.{raw_of, HasRecord};
ghost use Rattle.object_record.specs.Objects.{value_in, object_in};
ghost use Rattle.object_table.specs.Entries.{is_short, is_used, place_of};
ghost use Rattle.core_view.specs.Words.{meant, pointers};
ghost use Rattle.core_view.specs.Held.{Disk as Store, fields_there};
ghost use Rattle.core_view.specs.Counts.{names, holders, IsLight};
ghost use Rattle.core_view.specs.Kept.{IsBacked, Keeps};
ghost use Rattle.core_view.specs.Steps.{IsAt};
ghost use Rattle.core_segment.specs.declared.segment.TheConstants.{HEADER};
ghost use Rattle.core_segment.specs.Segment.{largest_of};
ghost use Rattle.leaf_lambda.specs.Parts.{core_of, spare_of, leaves_for, IsParts, IsHolding, IsSparing, Resolves};
ghost use Rattle.leaf_lambda.specs.declared.translate.TheConstants.{RESERVE as LEAST};
ghost use Rattle.leaf_lambda.specs.Records.{KeepsRecord, MayBeLambda, Opens, word_or_lambda};

use crate::bodies::{open_body, take_body};
use crate::numbers::short_int;
use crate::parts::Parts;
use crate::steps::{find_or_leaf, grip, place_of_body, store_word};
use core_segment::Addr;
use long_names::{Kind, Name, Value, value_of};
use object_record::RecordBuf;
use object_table::Short;

/// How many entries stay free while fields take entries; as many are freed between bytecodes.
pub const RESERVE: u16 = 128;

// The short name of a name, held from outside. None where it has no entry and none is to spare.
#[inline(always)]
fn short_for_name(p: &mut Parts, name: Name) -> Option<Short>
    requires parts { IsParts p.old }
    requires light { IsLight (core_of p.old) }
    ensures parts { IsParts p.new }
    ensures held { IsHolding (word_or_lambda result) (core_of p.old) (core_of p.new) }
    ensures short { IfSome result (λ s. (is_short s.0 ≡ true) × (((core_of p.new).entries s.0).name ≡ name)) }
    ensures none { IfNone result (((core_of p.old).find name ≡ None) × (spare_of p.old ≤ LEAST)) }
    ensures sparing { IsSparing p.old p.new }
    ensures cost { spare_of p.old ≤ spare_of p.new + 1 }
    ensures segment { p.new.segment ≡ p.old.segment }
{
    match find_or_leaf(p, name, RESERVE) {
        Some(s) => {
            grip(p, s);
            Some(s)
        }
        None => None,
    }
}

// The word for a short name; for none, a lambda.
#[inline(always)]
fn word_for(short: Option<Short>) -> u16
    ensures { result ≡ word_or_lambda short }
{
    match short {
        Some(s) => s.0,
        None => 0,
    }
}

// The word of a value, held from outside where it is a short name.
#[inline(always)]
fn short_for_value(p: &mut Parts, v: &Value) -> u16
    requires parts { IsParts p.old }
    requires light { IsLight (core_of p.old) }
    requires value { IsValue v.now }
    ensures parts { IsParts p.new }
    ensures held { IsHolding result (core_of p.old) (core_of p.new) }
    ensures means { result ≢ 0 → (old : List Meaning) (i : ℕ) → meant (core_of p.new).entries old i result ≡ v.now }
    ensures lambda { result ≡ 0 → MayBeLambda (core_of p.old).find (spare_of p.old) (Some v.now) }
    ensures sparing { IsSparing p.old p.new }
    ensures cost { spare_of p.old ≤ spare_of p.new + 1 }
    ensures segment { p.new.segment ≡ p.old.segment }
{
    match v.number() {
        Some(number) => short_int(number),
        None => match v.name() {
            Some(name) => {
                let short = short_for_name(p, name);
                word_for(short)
            }
            None => unreachable!(),
        },
    }
}

// The same of a long word.
#[inline(always)]
fn short_for(p: &mut Parts, long: u32) -> u16
    requires parts { IsParts p.old }
    requires light { IsLight (core_of p.old) }
    ensures parts { IsParts p.new }
    ensures held { IsHolding result (core_of p.old) (core_of p.new) }
    ensures means { result ≢ 0 → (old : List Meaning) (i : ℕ) → meant (core_of p.new).entries old i result ≡ value_in long }
    ensures lambda { result ≡ 0 → MayBeLambda (core_of p.old).find (spare_of p.old) (read_value long) }
    ensures sparing { IsSparing p.old p.new }
    ensures cost { spare_of p.old ≤ spare_of p.new + 1 }
    ensures segment { p.new.segment ≡ p.old.segment }
{
    match value_of(long) {
        Some(v) => short_for_value(p, &v),
        None => 0,
    }
}

// Puts the short word of its long word in the place of a lambda, where there can be one. Answers the word.
#[inline(always)]
fn resolve_field(p: &mut Parts, s: Short, at: Addr, i: u32, long: u32) -> u16
    requires parts { IsParts p.old }
    requires there { IsAt (core_of p.old) s.0 at.place i 0 }
    requires light { IsLight (core_of p.old) }
    ensures parts { IsParts p.new }
    ensures keeps { (disk : Store) → IsBacked (core_of p.old) disk
        → slice_get (fields_there (disk ((core_of p.old).entries s.0).name)) i ≡ Some (value_in long)
        → Keeps disk (core_of p.old) (core_of p.new) }
    ensures resolves { Resolves s.0 1 p.old p.new }
    ensures fields { let k = ((core_of p.old).entries s.0).kind in
        pointers k ((core_of p.new).chunks at.place).words ≡ slice_set (pointers k ((core_of p.old).chunks at.place).words) i result }
    ensures lambda { result ≡ 0 → MayBeLambda (core_of p.old).find (spare_of p.old) (read_value long) }
{
    let w = short_for(p, long);
    if w != 0 {
        store_word(p, s, at, i, w);
    }
    w
}

// Resolves the lambdas of a body that has nothing else.
fn resolve_fields(p: &mut Parts, s: Short, at: Addr, buf: &RecordBuf, count: u32)
    requires parts { IsParts p.old }
    requires light { IsLight (core_of p.old) }
    requires record { HasRecord buf.now }
    requires place { place_of ((core_of p.old).entries s.0).state ≡ Some at.place }
    requires fields { pointers ((core_of p.old).entries s.0).kind ((core_of p.old).chunks at.place).words ≡ replicate count 0 }
    requires count { count ≡ length (longs_of (raw_of buf.now).body) }
    ensures parts { IsParts p.new }
    ensures keeps { (disk : Store) → IsBacked (core_of p.old) disk
        → fields_there (disk ((core_of p.old).entries s.0).name) ≡ map value_in (longs_of (raw_of buf.now).body)
        → Keeps disk (core_of p.old) (core_of p.new) }
    ensures resolves { Resolves s.0 count p.old p.new }
    ensures lambda { let k = ((core_of p.old).entries s.0).kind in (i : ℕ)
        → slice_get (pointers k ((core_of p.new).chunks at.place).words) i ≡ Some 0
        → MayBeLambda (core_of p.new).find (spare_of p.new) (read_value (get_or (longs_of (raw_of buf.now).body) i 0)) }
    ensures long { length (pointers ((core_of p.old).entries s.0).kind ((core_of p.new).chunks at.place).words) ≡ count }
{
    for i in 0..count {
        let word = buf.long_field(i);
        resolve_field(p, s, at, i, word);
    }
}

// The entry of a record's class, with one reference more from outside.
fn hold_class(p: &mut Parts, buf: &RecordBuf) -> Short
    requires parts { IsParts p.old }
    requires light { IsLight (core_of p.old) }
    requires record { HasRecord buf.now }
    requires entry { leaves_for ((core_of p.old).find (raw_of buf.now).class) ≤ spare_of p.old }
    ensures parts { IsParts p.new }
    ensures held { IsHolding result.0 (core_of p.old) (core_of p.new) }
    ensures class { (is_used ((core_of p.new).entries result.0).state ≡ true)
        × (((core_of p.new).entries result.0).name ≡ (raw_of buf.now).class) }
    ensures cost { spare_of p.new ≤ spare_of p.old
        × (spare_of p.old ≤ spare_of p.new + leaves_for ((core_of p.old).find (raw_of buf.now).class)) }
    ensures segment { p.new.segment ≡ p.old.segment }
{
    match find_or_leaf(p, buf.class(), 0) {
        Some(class) => {
            grip(p, class);
            class
        }
        None => unreachable!(),
    }
}

// Opens a leaf: it has the body of its record, with a lambda for each field.
fn open_leaf(p: &mut Parts, s: Short, buf: &RecordBuf) -> Addr
    requires parts { IsParts p.old }
    requires light { IsLight (core_of p.old) }
    requires leaf { (is_used ((core_of p.old).entries s.0).state ≡ true) × (place_of ((core_of p.old).entries s.0).state ≡ None) }
    requires record { HasRecord buf.now }
    requires class { leaves_for ((core_of p.old).find (raw_of buf.now).class) ≤ spare_of p.old }
    requires room { body_words (object_in (raw_of buf.now)).body + HEADER ≤ largest_of p.old.segment }
    ensures parts { IsParts p.new }
    ensures keeps { KeepsRecord (core_of p.old) (core_of p.new) s.0 buf.now }
    ensures opens { Opens s.0 result.place (raw_of buf.now) p.old p.new }
    ensures fields { pointers (raw_kind (raw_of buf.now).body) ((core_of p.new).chunks result.place).words
        ≡ replicate (length (longs_of (raw_of buf.now).body)) 0 }
    ensures cost { spare_of p.new ≤ spare_of p.old
        × (spare_of p.old ≤ spare_of p.new + leaves_for ((core_of p.old).find (raw_of buf.now).class)) }
{
    let class = hold_class(p, buf);
    let at = take_body(p, s, buf);
    open_body(p, s, at, class, buf.kind(), buf.len());
    at
}

/// Brings an object in under its leaf, from its record. Its class gets an entry. Each name among its fields becomes the short name of
/// its target: the one that there is or, while more than 128 entries are free, a new one; else the field is a lambda. A field whose
/// long word is no value is a lambda too.
pub fn translate_in(p: &mut Parts, s: Short, buf: &mut RecordBuf)
    requires parts { IsParts p.old }
    requires light { IsLight (core_of p.old) }
    requires leaf { (is_used ((core_of p.old).entries s.0).state ≡ true) × (place_of ((core_of p.old).entries s.0).state ≡ None) }
    requires record { HasRecord buf.old }
    requires class { leaves_for ((core_of p.old).find (raw_of buf.old).class) ≤ spare_of p.old }
    requires room { body_words (object_in (raw_of buf.old)).body + HEADER ≤ largest_of p.old.segment }
    ensures parts { IsParts p.new }
    ensures keeps { KeepsRecord (core_of p.old) (core_of p.new) s.0 buf.old }
    ensures opens { (at : ℕ) × Opens s.0 at (raw_of buf.old) p.old p.new }
    ensures lambda { (at i : ℕ) → IsAt (core_of p.new) s.0 at i 0
        → MayBeLambda (core_of p.new).find (spare_of p.new) (read_value (get_or (longs_of (raw_of buf.old).body) i 0)) }
    ensures refs { (t : ℕ)
        → ((core_of p.new).entries t).refs ≡ ((core_of p.old).entries t).refs + count_by (names t) (holders (core_of p.new) s.0) }
    ensures spare { min (spare_of p.old - leaves_for ((core_of p.old).find (raw_of buf.old).class)) LEAST ≤ spare_of p.new }
    ensures cost { spare_of p.old
        ≤ spare_of p.new + leaves_for ((core_of p.old).find (raw_of buf.old).class) + length (longs_of (raw_of buf.old).body) }
    ensures same { buf.new ≡ buf.old }
{
    let at = open_leaf(p, s, buf);
    let count = buf.field_count();
    resolve_fields(p, s, at, buf, count);
}

/// The long word that the lambda of field `i` means, from the object's record. From here on the field has the short name of its target,
/// where that has an entry or more than [`RESERVE`] entries are free. Each other field keeps its word.
pub fn resolve(p: &mut Parts, s: Short, buf: &mut RecordBuf, i: u32) -> u32
    requires parts { IsParts p.old }
    requires light { IsLight (core_of p.old) }
    requires lambda { (at : ℕ) × IsAt (core_of p.old) s.0 at i 0 }
    requires record { HasRecord buf.old }
    requires field { i < length (longs_of (raw_of buf.old).body) }
    ensures parts { IsParts p.new }
    ensures long { result ≡ slice_index (longs_of (raw_of buf.old).body) i }
    ensures keeps { KeepsRecord (core_of p.old) (core_of p.new) s.0 buf.old }
    ensures resolves { Resolves s.0 1 p.old p.new }
    ensures fields { (at : ℕ) → place_of ((core_of p.old).entries s.0).state ≡ Some at → (w : ℕ)
        × (let k = ((core_of p.old).entries s.0).kind in
        pointers k ((core_of p.new).chunks at).words ≡ slice_set (pointers k ((core_of p.old).chunks at).words) i w) }
    ensures lambda { (at : ℕ) → IsAt (core_of p.new) s.0 at i 0 → MayBeLambda (core_of p.old).find (spare_of p.old) (read_value result) }
    ensures same { buf.new ≡ buf.old }
{
    let long = buf.long_field(i);
    let at = place_of_body(p, s);
    resolve_field(p, s, at, i, long);
    long
}
