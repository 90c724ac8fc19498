// Bodies of new objects: a leaf whose object has no record gets fields that are all one word, and words that are 0.
ghost use Rattle.std.specs.Prelude.{◌≡◌, ◌≢◌, ◌+◌, ◌<◌, ◌≤◌, ◌^◌, ℕ, Some, None, true, IfSome, length, slice_get};
ghost use Rattle.long_names.specs.Names.{NIL};
ghost use Rattle.long_names.specs.Objects.{body_made, OfPointers};
ghost use Rattle.long_names.specs.Words.{literal_count};
ghost use Rattle.long_names.specs.declared.limits.TheConstants.{MOST_FIELDS};
ghost use Rattle.object_table.specs.Entries.{put, is_short, is_used, place_of};
ghost use Rattle.core_segment.specs.Chunks.{with_chunk};
ghost use Rattle.core_segment.specs.Segment.{chunk_at, largest_of, SameRoom};
ghost use Rattle.core_view.specs.Core.{with_entry, with_chunk_at};
ghost use Rattle.core_view.specs.Words.{int_of_short, words_for, most_len};
ghost use Rattle.core_view.specs.Held.{Disk as Store, held};
ghost use Rattle.core_view.specs.Counts.{outside, one, IsLight};
ghost use Rattle.core_view.specs.Kept.{IsBacked};
ghost use Rattle.core_view.specs.Steps.{IsOpening, IsMove, with_refs_of};
ghost use Rattle.leaf_lambda.specs.Parts.{core_of, spare_of, IsParts, IsWithin, TakesRoom};
ghost use Rattle.leaf_lambda.specs.Making.{fields_new, words_new, made, IsHoldingMany, IsMade, Makes};

use crate::fields::{is_name, words_mean_values};
use crate::merge::literals_by;
use crate::parts::Parts;
use crate::steps::{grip, leaf};
use core_segment::{Addr, HEADER, Segment};
use long_names::{Kind, Name};
use object_table::{EntryState, Short};

/// So many more references from outside, at once.
#[inline(always)]
pub fn grip_many(p: &mut Parts, s: Short, n: u32)
    requires parts { IsParts p.old }
    requires used { is_used ((core_of p.old).entries s.0).state ≡ true }
    requires light { outside (core_of p.old) s.0 + n ≤ 2 ^ 31 + MOST_FIELDS }
    ensures parts { IsParts p.new }
    ensures core { core_of p.new ≡ with_refs_of (core_of p.old) s.0 (((core_of p.old).entries s.0).refs + n) }
    ensures spare { spare_of p.new ≡ spare_of p.old }
    ensures segment { p.new.segment ≡ p.old.segment }
{
    let mut e = p.names.table.used_entry(s);
    e.refs += n;
    p.names.table.set(s, e);
}

/// So many more references from outside to what a word names, if it names an entry.
#[inline(always)]
pub fn hold_many(p: &mut Parts, w: u16, n: u32)
    requires parts { IsParts p.old }
    requires used { is_short w ≡ true → is_used ((core_of p.old).entries w).state ≡ true }
    requires light { outside (core_of p.old) w + n ≤ 2 ^ 31 + MOST_FIELDS }
    ensures parts { IsParts p.new }
    ensures held { IsHoldingMany w n (core_of p.old) (core_of p.new) }
    ensures spare { spare_of p.new ≡ spare_of p.old }
    ensures segment { p.new.segment ≡ p.old.segment }
{
    if is_name(w) {
        grip_many(p, Short(w), n);
    }
}

// How many fields a new object has.
#[inline(always)]
fn count_new(kind: Kind, len: u32, header: u16) -> u32
    ensures { result ≡ fields_new kind len header }
{
    match kind {
        Kind::Pointers => len,
        Kind::Method => literals_by(header),
        Kind::Words => 0,
        Kind::Bytes => 0,
    }
}

// How many words its body has.
#[inline(always)]
fn size_new(kind: Kind, len: u32, header: u16) -> u32
    requires { len ≤ most_len kind }
    ensures { result ≡ words_for kind len (literal_count (int_of_short header)) }
{
    match kind {
        Kind::Pointers => len,
        Kind::Words => len,
        Kind::Bytes => (len + 1) / 2,
        Kind::Method => 1 + literals_by(header) + (len + 1) / 2,
    }
}

// A word of its body.
#[inline(always)]
fn word_new(kind: Kind, len: u32, header: u16, filler: u16, k: u32) -> u16
    requires within { k < length (words_new kind len header filler) }
    ensures { slice_get (words_new kind len header filler) k ≡ Some result }
{
    match kind {
        Kind::Pointers => filler,
        Kind::Words => 0,
        Kind::Bytes => 0,
        Kind::Method => {
            if k == 0 {
                header
            } else if k <= literals_by(header) {
                filler
            } else {
                0
            }
        }
    }
}

// Fills a chunk with the words of a new body.
#[inline(always)]
fn fill_new(g: &mut Segment, at: Addr, kind: Kind, len: u32, header: u16, filler: u16, words: u32)
    requires long { length (chunk_at g.old at.place).words ≡ words }
    requires words { words ≡ length (words_new kind len header filler) }
    ensures chunk { chunk_at g.new ≡ with_chunk (chunk_at g.old) at.place
        (record { owner = (chunk_at g.old at.place).owner; words = words_new kind len header filler }) }
    ensures room { SameRoom g.old g.new }
{
    for k in 0..words {
        let w = word_new(kind, len, header, filler, k);
        g.set_word(at, k, w);
    }
}

// Gives a chunk to an owner, with the words of a new body.
#[inline(always)]
fn take_filled_new(
    g: &mut Segment,
    words: u32,
    owner: u16,
    kind: Kind,
    len: u32,
    header: u16,
    filler: u16,
) -> Addr
    requires words { words ≡ length (words_new kind len header filler) }
    requires small { words < 2 ^ 17 }
    requires owned { 0 < owner }
    requires room { words + HEADER ≤ largest_of g.old }
    ensures vacant { (chunk_at g.old result.place).owner ≡ 0 }
    ensures chunk { chunk_at g.new
        ≡ with_chunk (chunk_at g.old) result.place (record { owner = owner; words = words_new kind len header filler }) }
    ensures takes { TakesRoom words g.old g.new }
{
    match g.take(words + HEADER, owner) {
        Some(at) => {
            fill_new(g, at, kind, len, header, filler, words);
            at
        }
        None => unreachable!(),
    }
}

/// A chunk of an entry's own, with the words of a new body.
#[inline(always)]
pub fn take_new(p: &mut Parts, s: Short, kind: Kind, len: u32, header: u16, filler: u16) -> Addr
    requires parts { IsParts p.old }
    requires used { is_used ((core_of p.old).entries s.0).state ≡ true }
    requires len { len ≤ most_len kind }
    requires room { words_for kind len (literal_count (int_of_short header)) + HEADER ≤ largest_of p.old.segment }
    ensures parts { IsParts p.new }
    ensures moves { IsMove (core_of p.old) (core_of p.new) }
    ensures same_names { p.new.names ≡ p.old.names }
    ensures vacant { ((core_of p.old).chunks result.place).owner ≡ 0 }
    ensures core { core_of p.new
        ≡ with_chunk_at (core_of p.old) result.place (record { owner = s.0; words = words_new kind len header filler }) }
    ensures takes { TakesRoom (words_for kind len (literal_count (int_of_short header))) p.old.segment p.new.segment }
{
    let words = size_new(kind, len, header);
    take_filled_new(&mut p.segment, words, s.0, kind, len, header, filler)
}

/// Opens a leaf as a new object: from here on it has a body in a chunk of its own, of a class and with fields that were held from
/// outside, and no record.
#[inline(always)]
pub fn open_new(p: &mut Parts, s: Short, at: Addr, class: Short, kind: Kind, len: u32)
    requires parts { IsParts p.old }
    requires opening { IsOpening (core_of p.old) s.0 at.place (made ((core_of p.old).entries s.0) at.place class.0 kind len) }
    ensures parts { IsParts p.new }
    ensures core { core_of p.new ≡ with_entry (core_of p.old) s.0 (made ((core_of p.old).entries s.0) at.place class.0 kind len) }
    ensures spare { spare_of p.new ≡ spare_of p.old }
    ensures segment { p.new.segment ≡ p.old.segment }
{
    let mut e = p.names.table.used_entry(s);
    e.state = EntryState::Resident(at.place);
    e.class = class;
    e.kind = kind;
    e.len = len;
    e.flags.changed = true;
    e.flags.fresh = true;
    p.names.table.set(s, e);
}

/// Gives a leaf the body of a new object that has no record: fields that are all the filler, words or bytes that are 0. Its class, and
/// what the filler names, have a reference more for each place where they stand.
pub fn make_body(
    p: &mut Parts,
    s: Short,
    class: Short,
    kind: Kind,
    len: u32,
    header: u16,
    filler: u16,
)
    requires parts { IsParts p.old }
    requires light { IsLight (core_of p.old) }
    requires leaf { (is_used ((core_of p.old).entries s.0).state ≡ true) × (place_of ((core_of p.old).entries s.0).state ≡ None) }
    requires class { is_used ((core_of p.old).entries class.0).state ≡ true }
    requires filler { is_short filler ≡ true → is_used ((core_of p.old).entries filler).state ≡ true }
    requires some { filler ≢ 0 }
    requires len { len ≤ most_len kind }
    requires room { words_for kind len (literal_count (int_of_short header)) + HEADER ≤ largest_of p.old.segment }
    ensures parts { IsParts p.new }
    ensures within { IsWithin s.0 (core_of p.old) (core_of p.new) }
    ensures body { (at : ℕ) × IsMade s.0 class.0 at kind len header filler (core_of p.old) (core_of p.new) }
    ensures makes { (disk : Store) → IsBacked (core_of p.old) disk → Makes s.0 class.0 kind len header filler (core_of p.old) (core_of p.new) disk }
    ensures spare { spare_of p.new ≡ spare_of p.old }
    ensures takes { TakesRoom (words_for kind len (literal_count (int_of_short header))) p.old.segment p.new.segment }
{
    // What the filler means is a value, for `valued`.
    words_mean_values(p, filler);
    grip(p, class);
    let fields = count_new(kind, len, header);
    hold_many(p, filler, fields);
    let at = take_new(p, s, kind, len, header, filler);
    open_new(p, s, at, class, kind, len);
}

// A new object of pointers under a name that has no entry: a leaf, which gets a body of nils.
fn one_making(p: &mut Parts, name: Name, class: Short, nil: Short, len: u32) -> Option<Short>
    requires parts { IsParts p.old }
    requires light { IsLight (core_of p.old) }
    requires absent { (core_of p.old).find name ≡ None }
    requires class { is_used ((core_of p.old).entries class.0).state ≡ true }
    requires nil { (is_used ((core_of p.old).entries nil.0).state ≡ true) × (((core_of p.old).entries nil.0).name ≡ NIL) }
    requires len { len < MOST_FIELDS + 1 }
    requires room { len + HEADER ≤ largest_of p.old.segment }
    ensures held { IfSome result (λ s. (disk : Store) → IsBacked (core_of p.old) disk →
        held (core_of p.new) disk ≡ put (held (core_of p.old) disk) name (Some (record {
          class = ((core_of p.old).entries class.0).name;
          body = body_made (OfPointers len);
        }))) }
{
    match leaf(p, name) {
        Some(s) => {
            make_body(p, s, class, Kind::Pointers, len, 1, nil.0);
            Some(s)
        }
        None => None,
    }
}
