// Stores of words and bytes: what no reference is.
ghost use Rattle.std.specs.Prelude.{◌≡◌, ◌+◌, ◌*◌, ◌<◌, ◌≤◌, ◌^◌, ℕ, [], ◌∷◌, Some, length};
ghost use Rattle.long_names.specs.declared.object.Kind.TheVariants as sort;
ghost use Rattle.long_names.specs.declared.object.Object.{Object as Item};
ghost use Rattle.long_names.specs.Objects.{put_run, with_bytes, with_words as with_run};
ghost use Rattle.object_table.specs.Entries.{put, place_of};
ghost use Rattle.core_segment.specs.Chunks.{with_chunk};
ghost use Rattle.core_segment.specs.Segment.{chunk_at, size_of, SameRoom};
ghost use Rattle.core_view.specs.Core.{with_words};
ghost use Rattle.core_view.specs.Held.{Disk as Store, held};
ghost use Rattle.core_view.specs.Kept.{IsBacked, IsValued};
ghost use Rattle.core_view.specs.Steps.{with_mark, marked_changed};
ghost use Rattle.leaf_lambda.specs.Parts.{core_of, spare_of, IsParts, IsWithin};
ghost use Rattle.leaf_lambda.specs.Making.{with_byte, first_byte, HasBytes};

use crate::merge::literals_of;
use crate::parts::Parts;
use crate::steps::mark_changed;
use core_segment::{Addr, Segment};
use long_names::Kind;
use object_table::Short;

// Writes a run of words into a chunk.
#[inline(always)]
fn write_run(g: &mut Segment, at: Addr, i: u32, run: &[u16])
    requires within { i + length run.now ≤ length (chunk_at g.old at.place).words }
    requires small { length (chunk_at g.old at.place).words < 2 ^ 17 }
    ensures chunk { chunk_at g.new ≡ with_chunk (chunk_at g.old) at.place
        (record { owner = (chunk_at g.old at.place).owner; words = put_run (chunk_at g.old at.place).words i run.now }) }
    ensures room { SameRoom g.old g.new }
{
    let start = g.start();
    for k in 0..run.len() {
        g.set_word_from(start, at, i as usize + k, run[k]);
    }
}

/// Writes a run of words into a body of words, from word `i` on. The object is marked as changed.
#[inline(always)]
pub fn put_words(p: &mut Parts, s: Short, at: Addr, i: u32, run: &[u16])
    requires parts { IsParts p.old }
    requires place { place_of ((core_of p.old).entries s.0).state ≡ Some at.place }
    requires kind { ((core_of p.old).entries s.0).kind ≡ sort.Words }
    requires within { i + length run.now ≤ ((core_of p.old).entries s.0).len }
    ensures parts { IsParts p.new }
    ensures within { IsWithin s.0 (core_of p.old) (core_of p.new) }
    ensures entry { (core_of p.new).entries s.0 ≡ marked_changed ((core_of p.old).entries s.0) }
    ensures core { core_of p.new
        ≡ with_words (with_mark (core_of p.old) s.0) at.place (put_run ((core_of p.old).chunks at.place).words i run.now) }
    ensures backed { (disk : Store) → IsBacked (core_of p.old) disk → IsBacked (core_of p.new) disk }
    ensures held { (disk : Store) (o : Item) → IsBacked (core_of p.old) disk
        → held (core_of p.old) disk ((core_of p.old).entries s.0).name ≡ Some o →
        held (core_of p.new) disk
        ≡ put (held (core_of p.old) disk) ((core_of p.old).entries s.0).name
        (Some (record { class = o.class; body = with_run o.body i run.now })) }
    ensures valued { (disk : Store) → IsBacked (core_of p.old) disk → IsValued (held (core_of p.old) disk) → IsValued (held (core_of p.new) disk) }
    ensures spare { spare_of p.new ≡ spare_of p.old }
    ensures size { size_of p.new.segment ≡ size_of p.old.segment }
    ensures room { SameRoom p.old.segment p.new.segment }
{
    mark_changed(p, s);
    write_run(&mut p.segment, at, i, run);
}

// A word with another byte: the high one, or the low one.
fn byte_put(w: u16, i: u32, b: u8) -> u16
    ensures { result ≡ with_byte w i b }
{
    if i % 2 == 1 {
        256 * (w / 256) + u16::from(b)
    } else {
        256 * u16::from(b) + w % 256
    }
}

// The word of a body where its bytes begin.
fn first_of(p: &Parts, s: Short, at: Addr) -> u32
    requires parts { IsParts p.now }
    requires place { place_of ((core_of p.now).entries s.0).state ≡ Some at.place }
    ensures first { result ≡ first_byte ((core_of p.now).entries s.0).kind ((core_of p.now).chunks at.place).words }
    ensures small { result < 2 ^ 16 }
{
    let kind = p.names.table.used_entry(s).kind;
    match kind {
        Kind::Method => 1 + literals_of(p, at, kind),
        _ => 0,
    }
}

/// Writes a byte into a body of bytes, or into the code of a method. The object is marked as changed.
pub fn put_byte(p: &mut Parts, s: Short, at: Addr, i: u32, b: u8)
    requires parts { IsParts p.old }
    requires place { place_of ((core_of p.old).entries s.0).state ≡ Some at.place }
    requires kind { HasBytes ((core_of p.old).entries s.0).kind }
    requires within { i < ((core_of p.old).entries s.0).len }
    ensures parts { IsParts p.new }
    ensures within { IsWithin s.0 (core_of p.old) (core_of p.new) }
    ensures find { (core_of p.new).find ≡ (core_of p.old).find }
    ensures entry { (core_of p.new).entries s.0 ≡ marked_changed ((core_of p.old).entries s.0) }
    ensures backed { (disk : Store) → IsBacked (core_of p.old) disk → IsBacked (core_of p.new) disk }
    ensures held { (disk : Store) (o : Item) → IsBacked (core_of p.old) disk
        → held (core_of p.old) disk ((core_of p.old).entries s.0).name ≡ Some o →
        held (core_of p.new) disk
        ≡ put (held (core_of p.old) disk) ((core_of p.old).entries s.0).name
        (Some (record { class = o.class; body = with_bytes o.body i (b ∷ []) })) }
    ensures valued { (disk : Store) → IsBacked (core_of p.old) disk → IsValued (held (core_of p.old) disk) → IsValued (held (core_of p.new) disk) }
    ensures spare { spare_of p.new ≡ spare_of p.old }
    ensures size { size_of p.new.segment ≡ size_of p.old.segment }
    ensures room { SameRoom p.old.segment p.new.segment }
{
    let first = first_of(p, s, at);
    let w = p.segment.word(at, first + i / 2);
    mark_changed(p, s);
    p.segment.set_word(at, first + i / 2, byte_put(w, i, b));
}
