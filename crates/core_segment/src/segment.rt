// The segment: a region of words that chunks tile. Used chunks and free ones tell where they end, and free ones stand in lists.
ghost use Rattle.core_segment.specs.Words.{filled_of, words_of};
ghost use Rattle.std.specs.Prelude.{◌≡◌, ◌≤◌, length};
ghost use Rattle.core_segment.specs.declared.segment.TheConstants.{MOST_WORDS};
ghost use Rattle.core_segment.specs.Chunks.{at_place};
ghost use Rattle.core_segment.specs.Layout.{AreBelow, IsLaid, placed_in, tiles_of};
ghost use Rattle.core_segment.specs.Order.{IsGoingOn, IsGoingOn-prop};
ghost use Rattle.core_segment.specs.Props.{AreBelow-prop, IsLaid-prop};

use crate::heads::{FEWEST, owner_at, size_at};
use crate::lists::{Lists, Spot};
use crate::memory::Base;
use crate::order::{first_free, rise, thread};
use crate::words::Words;
use std::alloc::{AllocError, Global};

/// The most words of a segment.
pub const MOST_WORDS: u32 = 16_777_216;

/// The words at the front of a chunk that are the segment's own.
pub const HEADER: u32 = 4;

/// The place of a chunk: the index of its first word in the region.
#[derive(Clone, Copy, Debug, PartialEq, Eq)]
pub struct Addr {
    pub place: u32,
}

/// What a step of compaction moved: the chunk of this owner, to this place.
#[derive(Clone, Copy, Debug, PartialEq, Eq)]
pub struct Moved {
    pub owner: u16,
    pub to: Addr,
}

/// Where the words of a segment begin. A loop over many of them asks for it once, and then need not look for each.
#[derive(Clone, Copy)]
pub struct Start {
    base: Base,
}

/// A region of words, of which parts are given out as chunks.
#[derive(Drop)]
pub struct Segment {
    region: Words,
    lists: Lists,
    free: u32,
    // How far a compaction is: no chunk is free below this place, and each list goes up. None where that isn't known.
    reached: Option<u32>,
    ghost small: { length (words_of region) ≤ MOST_WORDS },
    ghost whole: { IsLaid (words_of region) lists.firsts (tiles_of (words_of region)) free } by { IsLaid-prop (words_of region) lists.firsts (tiles_of (words_of region)) free },
    ghost filled: { AreBelow (at_place (placed_in (words_of region) (tiles_of (words_of region)))) (filled_of region) } by { AreBelow-prop (at_place (placed_in (words_of region) (tiles_of (words_of region)))) (filled_of region) },
    ghost going: { IsGoingOn (words_of region) lists.firsts (tiles_of (words_of region)) reached } by { IsGoingOn-prop (words_of region) lists.firsts (tiles_of (words_of region)) reached },
}

impl Segment {
    ghost use Rattle.core_segment.specs.Words.{words_of};
    ghost use Rattle.std.specs.Prelude.{◌≡◌, ◌+◌, ◌<◌, ◌≤◌, ◌↔◌, IfOk, IfSome, IfNone, IsTrue, Some, length, slice_get};
    ghost use Rattle.core_segment.specs.Chunks.{no_chunk, with_chunk, with_word};
    ghost use Rattle.core_segment.specs.Heads.{owner_in, size_in};
    ghost use Rattle.core_segment.specs.Taking.{IsSpot};
    ghost use Rattle.core_segment.specs.Segment.{chunk_at, size_of, free_of, largest_of, work_of, SameRoom, IsStart, IsTaken, IsJoined, IsMove};

    /// A segment of so many words, all of them free.
    pub fn new(alloc: Global, words: u32) -> Result<Segment, AllocError>
        requires some { HEADER ≤ words }
        requires most { words ≤ MOST_WORDS }
        ensures chunks { IfOk result (λ g. chunk_at g ≡ (λ p. no_chunk)) }
        ensures size { IfOk result (λ g. size_of g ≡ words) }
        ensures free { IfOk result (λ g. (free_of g ≡ words) × (largest_of g ≡ words)) }
    {
        let mut region = Words::make(alloc, words)?;
        let mut lists = Lists::none();
        lists.push(&mut region, 0, words);
        Ok(Segment {
            region,
            lists,
            free: words,
            reached: None,
        })
    }

    /// How many words are in no used chunk.
    #[inline(always)]
    pub fn free_words(&self) -> u32
        ensures { result ≡ free_of self.now }
    {
        self.free
    }

    /// How many words of a chunk are its user's.
    pub fn len(&self, at: Addr) -> u32
        requires { 0 < (chunk_at self.now at.place).owner }
        ensures words { result ≡ length (chunk_at self.now at.place).words }
        ensures small { result + HEADER ≤ size_of self.now }
    {
        size_at(&self.region, at.place) - HEADER
    }

    // A free chunk of at least so many words. None exactly where no free chunk has so many.
    #[inline(always)]
    fn find(&self, words: u32) -> Option<Spot>
        requires { FEWEST ≤ words }
        ensures some { IfSome result (λ s. IsSpot (words_of self.now.region) self.now.lists.firsts s.class s.before s.place) }
        ensures enough { IfSome result (λ s. words ≤ size_in (words_of self.now.region) s.place) }
        ensures room { IfSome result (λ s. words ≤ largest_of self.now) }
        ensures none { IfNone result (largest_of self.now < words) }
    {
        self.lists.find(&self.region, words)
    }

    // Whether a free chunk has so many words, by a walk over all chunks.
    fn has_scrap(&self, words: u32) -> bool
        requires { 1 ≤ words }
        ensures { IsTrue result ↔ (words ≤ largest_of self.now) }
    {
        let mut place = 0;
        while place < self.region.size {
            let size = size_at(&self.region, place);
            if owner_at(&self.region, place) == 0 && words <= size {
                return true;
            }
            place += size;
        }
        false
    }

    /// Whether so many words are free together, so that `take` gives them.
    #[inline(always)]
    pub fn has_room(&self, words: u32) -> bool
        requires { 1 ≤ words }
        ensures { IsTrue result ↔ (words ≤ largest_of self.now) }
    {
        let least = if words < FEWEST { FEWEST } else { words };
        self.find(least).is_some() || (words < FEWEST && self.has_scrap(words))
    }

    /// A word of a chunk. The first of its user's words has the index 0.
    #[inline(always)]
    pub fn word(&self, at: Addr, i: u32) -> u16
        requires { i < length (chunk_at self.now at.place).words }
        ensures { slice_get (chunk_at self.now at.place).words i ≡ Some result }
    {
        self.region.get_written(at.place + HEADER + i)
    }

    /// Changes a word of a chunk.
    #[inline(always)]
    pub fn set_word(&mut self, at: Addr, i: u32, w: u16)
        requires { i < length (chunk_at self.old at.place).words }
        ensures chunks { chunk_at self.new ≡ with_word (chunk_at self.old) at.place i w }
        ensures room { SameRoom self.old self.new }
    {
        self.region.put_written(at.place + HEADER + i, w);
    }

    /// Where its words begin.
    #[inline(always)]
    pub fn start(&self) -> Start
        ensures { IsStart self.now result }
    {
        Start {
            base: self.region.base(),
        }
    }

    /// A word of a chunk, by where the words begin.
    #[inline(always)]
    pub fn word_from(&self, start: Start, at: Addr, i: usize) -> u16
        requires start { IsStart self.now start }
        requires there { i < length (chunk_at self.now at.place).words }
        ensures { slice_get (chunk_at self.now at.place).words i ≡ Some result }
    {
        self.region
            .get_from(start.base, (at.place + HEADER) as usize + i)
    }

    /// Changes a word of a chunk, by where the words begin, which stays the same.
    #[inline(always)]
    pub fn set_word_from(&mut self, start: Start, at: Addr, i: usize, w: u16)
        requires start { IsStart self.old start }
        requires there { i < length (chunk_at self.old at.place).words }
        ensures chunks { chunk_at self.new ≡ with_word (chunk_at self.old) at.place i w }
        ensures room { SameRoom self.old self.new }
        ensures start { IsStart self.new start }
    {
        self.region
            .put_from(start.base, (at.place + HEADER) as usize + i, w);
    }

    /// Gives a chunk of so many words, four of them the segment's own, to an owner. None exactly where no free chunk has so many. They
    /// come from an end of one free chunk, so the largest one gets smaller by so many at most.
    pub fn take(&mut self, words: u32, owner: u16) -> Option<Addr>
        requires some { HEADER ≤ words }
        requires owner { 0 < owner }
        ensures taken { IfSome result (λ at. IsTaken (chunk_at self.old) (chunk_at self.new) at.place owner words) }
        ensures free { IfSome result (λ at. free_of self.new + words ≡ free_of self.old) }
        ensures room { IfSome result (λ at. words ≤ largest_of self.old) }
        ensures largest { IfSome result (λ at. largest_of self.old ≤ largest_of self.new + words) }
        ensures none { IfNone result ((largest_of self.old < words) × (self.new ≡ self.old)) }
        ensures size { size_of self.new ≡ size_of self.old }
    {
        let spot = self.find(words)?;
        self.lists.cut(&mut self.region, spot);
        self.lists.carve(&mut self.region, spot.place, owner, words);
        self.region.reach(spot.place + words - 1);
        self.free -= words;
        self.reached = None;
        Some(Addr { place: spot.place })
    }

    /// Frees a chunk. No free chunk gets smaller by it, and the words of this one are free together.
    #[inline(always)]
    pub fn give(&mut self, at: Addr)
        requires { 0 < (chunk_at self.old at.place).owner }
        ensures chunks { chunk_at self.new ≡ with_chunk (chunk_at self.old) at.place no_chunk }
        ensures free { free_of self.new ≡ free_of self.old + HEADER + length (chunk_at self.old at.place).words }
        ensures largest { largest_of self.old ≤ largest_of self.new }
        ensures room { HEADER + length (chunk_at self.old at.place).words ≤ largest_of self.new }
        ensures size { size_of self.new ≡ size_of self.old }
    {
        let size = size_at(&self.region, at.place);
        self.lists.push(&mut self.region, at.place, size);
        self.free += size;
        self.reached = None;
    }

    // Goes on with a compaction, or begins one with the lists made anew. Answers the first free chunk, or the end.
    fn reach(&mut self) -> u32
        ensures joined { IsJoined self.old self.new }
        ensures reached { self.new.reached ≡ Some result }
    {
        if let Some(place) = self.reached {
            return place;
        }
        let last = thread(&mut self.region);
        self.lists = rise(&mut self.region, last);
        let place = first_free(&self.region);
        self.reached = Some(place);
        place
    }

    // Joins the free chunk behind the first one to it. Answers how many words are free together then.
    fn join_next(&mut self, to: u32, gap: u32) -> u32
        requires reached { self.old.reached ≡ Some to }
        requires gap { size_in (words_of self.old.region) to ≡ gap }
        requires many { gap < self.old.free }
        requires free { owner_in (words_of self.old.region) (to + gap) ≡ 0 }
        ensures joined { IsJoined self.old self.new }
        ensures reached { self.new.reached ≡ Some to }
        ensures gap { size_in (words_of self.new.region) to ≡ result }
        ensures more { gap < result }
        ensures few { result ≤ self.new.free }
    {
        let from = to + gap;
        let more = size_at(&self.region, from);
        let size = gap + more;
        self.lists.leave(&self.region, to, gap);
        self.lists.leave(&self.region, from, more);
        self.lists.push(&mut self.region, to, size);
        size
    }

    // Joins all free chunks that follow the first one to it. Answers how many words are free together then.
    fn join(&mut self, to: u32) -> u32
        requires reached { self.old.reached ≡ Some to }
        requires some { to < length (words_of self.old.region) }
        ensures joined { IsJoined self.old self.new }
        ensures reached { self.new.reached ≡ Some to }
        ensures gap { size_in (words_of self.new.region) to ≡ result }
        ensures used { result < self.new.free → 0 < owner_in (words_of self.new.region) (to + result) }
        ensures few { result ≤ self.new.free }
    {
        let mut gap = size_at(&self.region, to);
        while gap < self.free {
            if owner_at(&self.region, to + gap) != 0 {
                return gap;
            }
            gap = self.join_next(to, gap);
        }
        gap
    }

    // Moves the chunk behind the first free one down over it.
    fn move_down(&mut self, to: u32, gap: u32) -> Moved
        requires reached { self.old.reached ≡ Some to }
        requires gap { size_in (words_of self.old.region) to ≡ gap }
        requires many { gap < self.old.free }
        requires used { 0 < owner_in (words_of self.old.region) (to + gap) }
        ensures moved { IsMove (chunk_at self.old) (chunk_at self.new) result }
        ensures many { largest_of self.old < free_of self.old }
        ensures less { work_of self.new < work_of self.old }
        ensures free { free_of self.new ≡ free_of self.old }
        ensures size { size_of self.new ≡ size_of self.old }
    {
        let from = to + gap;
        let owner = owner_at(&self.region, from);
        let size = size_at(&self.region, from);
        self.lists.leave(&self.region, to, gap);
        self.region.shift(from, to, size);
        self.lists.push(&mut self.region, to + size, gap);
        self.reached = Some(to + size);
        Moved {
            owner,
            to: Addr { place: to },
        }
    }

    /// Moves one chunk down, so that less than before lies between free words. None where all free words are one chunk or none, after
    /// free chunks that touch were joined. As long as nothing is taken or given, a step goes on where the last one was.
    pub fn compact_step(&mut self) -> Option<Moved>
        ensures moved { IfSome result (λ m. IsMove (chunk_at self.old) (chunk_at self.new) m) }
        ensures many { IfSome result (λ m. largest_of self.old < free_of self.old) }
        ensures less { IfSome result (λ m. work_of self.new < work_of self.old) }
        ensures none { IfNone result ((largest_of self.new ≡ free_of self.new) × (chunk_at self.new ≡ chunk_at self.old)) }
        ensures free { free_of self.new ≡ free_of self.old }
        ensures size { size_of self.new ≡ size_of self.old }
    {
        let to = self.reach();
        if to == self.region.size {
            return None;
        }
        let gap = self.join(to);
        if gap == self.free {
            return None;
        }
        Some(self.move_down(to, gap))
    }
}
