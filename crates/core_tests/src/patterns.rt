// Takes, gives and steps of compaction by a pattern, against a list of what was written.
ghost use Rattle.std.specs.Prelude.{◌≡◌, ◌+◌, ◌<◌, ℕ, None, Some, length, slice_index_or};
ghost use Rattle.core_tests.specs.declared.patterns.TheConstants.{OWNERS};
ghost use Rattle.core_segment.specs.declared.segment.Addr.{Addr};
ghost use Rattle.core_segment.specs.Segment.{chunk_at};

use core_segment::{Addr, HEADER, MOST_WORDS, Segment};
use std::test::Fail;

// How many owners there are.
const OWNERS: u16 = 512;

// Of the long pattern: how many owners have a part in it, and its turns.
const PARTAKERS: u32 = 64;

const TURNS: u32 = 10_000;

// Chunks by their owners, and the number from which the words of each were made.
#[derive(Drop)]
struct Kept {
    segment: Segment,
    places: Vec<Option<Addr>>,
    stamps: Vec<u16>,
    ghost many: { (length places.items ≡ OWNERS) × (length stamps.items ≡ OWNERS) },
    ghost told: { (k : ℕ) (a : Addr) → slice_index_or places.items k None ≡ Some a → (chunk_at segment a.place).owner ≡ k + 1 },
}

// The word that is written at an index.
fn word_of(stamp: u16, i: u32) -> u16 {
    (u32::from(stamp).wrapping_add(i.wrapping_mul(40_503)) % 65_536) as u16
}

// Writes each word of a chunk.
fn fill(segment: &mut Segment, at: Addr, stamp: u16)
    requires { 0 < (chunk_at segment.old at.place).owner }
    ensures { (p : ℕ) → (chunk_at segment.new p).owner ≡ (chunk_at segment.old p).owner }
{
    let words = segment.len(at);
    for i in 0..words {
        segment.set_word(at, i, word_of(stamp, i));
    }
}

// Whether each word is as it was written.
fn is_as_written(segment: &Segment, at: Addr, stamp: u16) -> bool
    requires { 0 < (chunk_at segment.now at.place).owner }
{
    for i in 0..segment.len(at) {
        if segment.word(at, i) != word_of(stamp, i) {
            return false;
        }
    }
    true
}

impl Kept {
    ghost use Rattle.std.specs.Prelude.{◌≡◌, ◌≤◌, ◌<◌, false, true};
    ghost use Rattle.core_segment.specs.declared.segment.TheConstants.{HEADER, MOST_WORDS};
    ghost use Rattle.core_segment.specs.Segment.{work_of};

    fn new(rt: &HostRuntime, words: u32) -> Result<Kept, Fail>
        requires some { HEADER ≤ words }
        requires most { words ≤ MOST_WORDS }
    {
        Ok(Kept {
            segment: Segment::new(rt.alloc(), words)?,
            places: vec![in rt.alloc(); None; usize::from(OWNERS)]?,
            stamps: vec![in rt.alloc(); 0; usize::from(OWNERS)]?,
        })
    }

    // Takes a chunk for an owner, and writes it. False where there is no room for it.
    fn take(&mut self, k: u16, words: u32, stamp: u16) -> bool
        requires owner { k < OWNERS }
        requires words { HEADER ≤ words }
    {
        let Some(at) = self.segment.take(words, k + 1) else {
            return false;
        };
        fill(&mut self.segment, at, stamp);
        self.places[usize::from(k)] = Some(at);
        self.stamps[usize::from(k)] = stamp;
        true
    }

    // Gives an owner's chunk back. False where a word isn't as it was written.
    fn give(&mut self, k: u16) -> bool
        requires { k < OWNERS }
    {
        let Some(at) = self.places[usize::from(k)] else {
            return true;
        };
        let same = is_as_written(&self.segment, at, self.stamps[usize::from(k)]);
        self.places[usize::from(k)] = None;
        self.segment.give(at);
        same
    }

    // A step of compaction. False where there was nothing to move.
    fn step(&mut self) -> bool
        ensures less { result ≡ true → work_of self.new.segment < work_of self.old.segment }
    {
        let Some(moved) = self.segment.compact_step() else {
            return false;
        };
        // No other owner ever took a chunk, but that isn't told.
        if moved.owner <= OWNERS {
            self.places[usize::from(moved.owner - 1)] = Some(moved.to);
        }
        true
    }

    // Steps until nothing is left to move.
    fn compact(&mut self) {
        while self.step() {}
    }

    // Gives back what an owner has, or takes a chunk for it. Where none is taken there was no room, and a whole compaction makes one chunk
    // of all that is free.
    fn turn(&mut self, k: u16, words: u32, stamp: u16) -> Result<(), Fail>
        requires owner { k < OWNERS }
        requires words { HEADER ≤ words }
    {
        if self.places[usize::from(k)].is_some() {
            if !self.give(k) {
                return Err("a word isn't as it was written".into());
            }
        } else if !self.take(k, words, stamp) {
            if self.segment.has_room(words) {
                return Err("there is room, and none is taken".into());
            }
            self.compact();
            let free = self.segment.free_words();
            if 0 < free && !self.segment.has_room(free) {
                return Err("what is free isn't one chunk".into());
            }
        }
        Ok(())
    }

    // Turns of a fixed pattern, with steps of compaction between.
    fn turns(&mut self) -> Result<(), Fail> {
        let mut seed: u32 = 1;
        for turn in 0..TURNS {
            seed = seed.wrapping_mul(1_664_525).wrapping_add(1_013_904_223);
            let most = if turn % 5 == 0 { 600 } else { 60 };
            let words = HEADER + (seed / 65_536) % most;
            let owner = ((seed / 1_024) % PARTAKERS) as u16;
            self.turn(owner, words, (seed % 65_536) as u16)?;
            if turn % 7 == 0 {
                self.step();
            }
        }
        Ok(())
    }

    // Whether each owner takes a chunk of eight words.
    fn take_all(&mut self) -> bool {
        for k in 0..OWNERS {
            if !self.take(k, 8, k) {
                return false;
            }
        }
        true
    }

    // Whether each second owner gives its chunk back as it was written.
    fn give_even(&mut self) -> bool {
        for k in 0..OWNERS / 2 {
            if !self.give(2 * k) {
                return false;
            }
        }
        true
    }

    // Gives all back. The first owner whose chunk isn't as it was written.
    fn give_all(&mut self) -> Option<u16> {
        for k in 0..OWNERS {
            if !self.give(k) {
                return Some(k);
            }
        }
        None
    }
}

#[test]
fn a_pattern_is_kept(rt: HostRuntime) -> Result<(), Fail> {
    let mut kept = Kept::new(&rt, 4_096)?;
    kept.turns()?;
    assert_eq!(rt; (kept.give_all(), kept.segment.free_words()), (None, 4_096));
    Ok(())
}

#[test]
fn every_second_chunk_is_given_back(rt: HostRuntime) -> Result<(), Fail> {
    let mut kept = Kept::new(&rt, 4_096)?;
    assert_eq!(rt; (kept.take_all(), kept.segment.free_words()), (true, 0));
    assert_eq!(rt; (kept.give_even(), kept.take(0, 9, 0)), (true, false));
    kept.compact();
    assert_eq!(rt;
        (kept.take(0, 2_048, 1), kept.segment.free_words()),
        (true, 0)
    );
    assert_eq!(rt; kept.give_all(), None);
    Ok(())
}
