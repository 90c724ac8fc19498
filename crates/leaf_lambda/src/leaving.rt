// Bodies that go: an object is evicted once it is just as its record.
ghost use Rattle.std.specs.Prelude.{◌≡◌, ◌+◌, ◌<◌, ◌≤◌, ◌^◌, ℕ, Some, None, false, length, replicate, slice_set};
ghost use Rattle.object_table.specs.Entries.{place_of, with_refs};
ghost use Rattle.core_segment.specs.declared.segment.TheConstants.{HEADER};
ghost use Rattle.core_segment.specs.Chunks.{no_chunk, with_chunk};
ghost use Rattle.core_segment.specs.Segment.{chunk_at, size_of, free_of, largest_of, SameRoom};
ghost use Rattle.core_view.specs.Core.{with_entry, with_chunk_at};
ghost use Rattle.core_view.specs.Words.{pointers};
ghost use Rattle.core_view.specs.Held.{Disk as Store, disk_with};
ghost use Rattle.core_view.specs.Counts.{outside};
ghost use Rattle.core_view.specs.Kept.{IsBacked, Keeps, KeepsOver, Stays};
ghost use Rattle.core_view.specs.Steps.{IsAt, IsLoose, IsMove, written, closed};
ghost use Rattle.leaf_lambda.specs.Parts.{core_of, spare_of, IsParts, IsWithin};

use crate::fields::drop_word;
use crate::merge::literals_of;
use crate::parts::Parts;
use crate::steps::{field_word, let_go, place_of_body, store_word};
use core_segment::{Addr, Segment};
use long_names::Kind;
use object_table::{EntryState, Short};

/// Notes that the object of a body was written as its record, as `merge_out` makes it.
#[inline(always)]
pub fn set_written(p: &mut Parts, s: Short)
    requires parts { IsParts p.old }
    requires body { (at : ℕ) × (place_of ((core_of p.old).entries s.0).state ≡ Some at) }
    ensures parts { IsParts p.new }
    ensures core { core_of p.new ≡ with_entry (core_of p.old) s.0 (written ((core_of p.old).entries s.0)) }
    ensures keeps { (disk : Store) (at : ℕ) → IsBacked (core_of p.old) disk → place_of ((core_of p.old).entries s.0).state ≡ Some at
        → KeepsOver (core_of p.old) disk (core_of p.new) (disk_with (core_of p.old) disk s.0 at) }
    ensures within { IsWithin s.0 (core_of p.old) (core_of p.new) }
    ensures find { (core_of p.new).find ≡ (core_of p.old).find }
    ensures spare { spare_of p.new ≡ spare_of p.old }
    ensures segment { p.new.segment ≡ p.old.segment }
{
    let mut e = p.names.table.used_entry(s);
    e.flags.changed = false;
    e.flags.fresh = false;
    p.names.table.set(s, e);
}

// Puts a lambda in the place of a field's word, and lets the word go.
#[inline(always)]
fn unresolve_field(p: &mut Parts, s: Short, at: Addr, i: u32)
    requires parts { IsParts p.old }
    requires there { (w : ℕ) × IsAt (core_of p.old) s.0 at.place i w }
    ensures parts { IsParts p.new }
    ensures keeps { (disk : Store) → IsBacked (core_of p.old) disk → ((core_of p.old).entries s.0).flags.fresh ≡ false
        → ((core_of p.old).entries s.0).flags.changed ≡ false → Keeps disk (core_of p.old) (core_of p.new) }
    ensures within { IsWithin s.0 (core_of p.old) (core_of p.new) }
    ensures find { (core_of p.new).find ≡ (core_of p.old).find }
    ensures entry { (core_of p.new).entries s.0 ≡ with_refs ((core_of p.old).entries s.0) ((core_of p.new).entries s.0).refs }
    ensures fields { let k = ((core_of p.old).entries s.0).kind in
        pointers k ((core_of p.new).chunks at.place).words ≡ slice_set (pointers k ((core_of p.old).chunks at.place).words) i 0 }
    ensures long { length ((core_of p.new).chunks at.place).words ≡ length ((core_of p.old).chunks at.place).words }
    ensures spare { spare_of p.new ≡ spare_of p.old }
    ensures room { SameRoom p.old.segment p.new.segment }
{
    let w = field_word(p, s, at, i);
    store_word(p, s, at, i, 0);
    drop_word(p, w);
}

// Puts lambdas in the places of all fields' words.
#[inline(always)]
fn unresolve_fields(p: &mut Parts, s: Short, at: Addr, count: u32)
    requires parts { IsParts p.old }
    requires place { place_of ((core_of p.old).entries s.0).state ≡ Some at.place }
    requires clean { (((core_of p.old).entries s.0).flags.fresh ≡ false) × (((core_of p.old).entries s.0).flags.changed ≡ false) }
    requires count { count ≡ length (pointers ((core_of p.old).entries s.0).kind ((core_of p.old).chunks at.place).words) }
    ensures parts { IsParts p.new }
    ensures stays { Stays (core_of p.old) (core_of p.new) }
    ensures within { IsWithin s.0 (core_of p.old) (core_of p.new) }
    ensures find { (core_of p.new).find ≡ (core_of p.old).find }
    ensures entry { (core_of p.new).entries s.0 ≡ with_refs ((core_of p.old).entries s.0) ((core_of p.new).entries s.0).refs }
    ensures fields { pointers ((core_of p.old).entries s.0).kind ((core_of p.new).chunks at.place).words ≡ replicate count 0 }
    ensures long { length ((core_of p.new).chunks at.place).words ≡ length ((core_of p.old).chunks at.place).words }
    ensures spare { spare_of p.new ≡ spare_of p.old }
    ensures room { SameRoom p.old.segment p.new.segment }
{
    for i in 0..count {
        unresolve_field(p, s, at, i);
    }
}

// Takes the body from an entry. What its class and fields name is held from outside then.
#[inline(always)]
fn close_body(p: &mut Parts, s: Short, at: Addr)
    requires parts { IsParts p.old }
    requires place { place_of ((core_of p.old).entries s.0).state ≡ Some at.place }
    ensures parts { IsParts p.new }
    ensures core { core_of p.new ≡ with_entry (core_of p.old) s.0 (closed ((core_of p.old).entries s.0)) }
    ensures spare { spare_of p.new ≡ spare_of p.old }
    ensures segment { p.new.segment ≡ p.old.segment }
{
    let mut e = p.names.table.used_entry(s);
    e.state = EntryState::Leaf;
    p.names.table.set(s, e);
}

// Frees a chunk of the segment.
#[inline(always)]
fn free_chunk(g: &mut Segment, at: Addr)
    requires { 0 < (chunk_at g.old at.place).owner }
    ensures chunks { chunk_at g.new ≡ with_chunk (chunk_at g.old) at.place no_chunk }
    ensures free { free_of g.new ≡ free_of g.old + HEADER + length (chunk_at g.old at.place).words }
    ensures largest { (largest_of g.old ≤ largest_of g.new) × (HEADER + length (chunk_at g.old at.place).words ≤ largest_of g.new) }
    ensures size { size_of g.new ≡ size_of g.old }
{
    g.give(at);
}

// Frees a chunk where no body lies.
#[inline(always)]
fn give_chunk(p: &mut Parts, at: Addr)
    requires parts { IsParts p.old }
    requires loose { IsLoose (core_of p.old) at.place }
    requires owned { 0 < ((core_of p.old).chunks at.place).owner }
    ensures parts { IsParts p.new }
    ensures moves { IsMove (core_of p.old) (core_of p.new) }
    ensures same_names { p.new.names ≡ p.old.names }
    ensures core { core_of p.new ≡ with_chunk_at (core_of p.old) at.place no_chunk }
    ensures size { size_of p.new.segment ≡ size_of p.old.segment }
    ensures free { free_of p.new.segment ≡ free_of p.old.segment + HEADER + length ((core_of p.old).chunks at.place).words }
    ensures largest { (largest_of p.old.segment ≤ largest_of p.new.segment)
        × (HEADER + length ((core_of p.old).chunks at.place).words ≤ largest_of p.new.segment) }
{
    free_chunk(&mut p.segment, at);
}

/// How many fields a body has: its values, or the literals of a method.
#[inline(always)]
pub fn field_total(p: &Parts, s: Short, at: Addr) -> u32
    requires parts { IsParts p.now }
    requires place { place_of ((core_of p.now).entries s.0).state ≡ Some at.place }
    ensures { result ≡ length (pointers ((core_of p.now).entries s.0).kind ((core_of p.now).chunks at.place).words) }
{
    let e = p.names.table.used_entry(s);
    match e.kind {
        Kind::Pointers => e.len,
        Kind::Method => literals_of(p, at, e.kind),
        Kind::Words => 0,
        Kind::Bytes => 0,
    }
}

/// How many words a body has.
pub fn body_total(p: &Parts, s: Short, at: Addr) -> u32
    requires parts { IsParts p.now }
    requires place { place_of ((core_of p.now).entries s.0).state ≡ Some at.place }
    ensures words { result ≡ length ((core_of p.now).chunks at.place).words }
    ensures small { result < 2 ^ 17 }
{
    let e = p.names.table.used_entry(s);
    match e.kind {
        Kind::Pointers => e.len,
        Kind::Words => e.len,
        Kind::Bytes => (e.len + 1) / 2,
        Kind::Method => 1 + literals_of(p, at, e.kind) + (e.len + 1) / 2,
    }
}

/// Evicts an object that is just as its record: its body goes, and what its class and fields named has a reference less for each. Its
/// entry is a leaf then, and entries to which nothing refers stay leaves.
#[inline(always)]
pub fn drop_body(p: &mut Parts, s: Short)
    requires parts { IsParts p.old }
    requires body { (at : ℕ) × (place_of ((core_of p.old).entries s.0).state ≡ Some at) }
    requires clean { (((core_of p.old).entries s.0).flags.fresh ≡ false) × (((core_of p.old).entries s.0).flags.changed ≡ false) }
    ensures parts { IsParts p.new }
    ensures stays { Stays (core_of p.old) (core_of p.new) }
    ensures within { IsWithin s.0 (core_of p.old) (core_of p.new) }
    ensures find { (core_of p.new).find ≡ (core_of p.old).find }
    ensures gone { place_of ((core_of p.new).entries s.0).state ≡ None }
    ensures entry { (core_of p.new).entries s.0 ≡ with_refs (closed ((core_of p.old).entries s.0)) ((core_of p.new).entries s.0).refs }
    ensures spare { spare_of p.new ≡ spare_of p.old }
    ensures size { size_of p.new.segment ≡ size_of p.old.segment }
    ensures free { (at : ℕ) → place_of ((core_of p.old).entries s.0).state ≡ Some at
        → free_of p.new.segment ≡ free_of p.old.segment + HEADER + length ((core_of p.old).chunks at).words }
    ensures largest { (at : ℕ) → place_of ((core_of p.old).entries s.0).state ≡ Some at → (largest_of p.old.segment ≤ largest_of p.new.segment)
        × (HEADER + length ((core_of p.old).chunks at).words ≤ largest_of p.new.segment) }
{
    let at = place_of_body(p, s);
    let count = field_total(p, s, at);
    unresolve_fields(p, s, at, count);
    let class = p.names.table.used_entry(s).class;
    close_body(p, s, at);
    give_chunk(p, at);
    let_go(p, class);
}
