// The lists of free chunks: one for each size from 4 to 64, and one for all that are longer.
ghost use Rattle.core_segment.specs.Words.{words_of};
ghost use Rattle.std.specs.Prelude.{◌≡◌, length};
ghost use Rattle.core_segment.specs.declared.lists.TheConstants.{LISTS};
ghost use Rattle.core_segment.specs.Lists.{class_in};

use crate::heads::{FEWEST, SHORT, close, link_at, open, put_link, size_at};
use crate::words::Words;

// How many lists there are.
const LISTS: usize = SHORT as usize + 2;

// Which list a free chunk of a size stands in. Those of the sizes below 4 stay empty.
#[inline(always)]
pub(crate) fn class_of(size: u32) -> u32
    ensures { result ≡ class_in size }
{
    if size <= SHORT { size } else { SHORT + 1 }
}

// Where a free chunk stands: its list, the link to the chunk before it there, 0 where it is the first, and its place.
#[derive(Clone, Copy)]
pub(crate) struct Spot {
    class: u32,
    before: u32,
    pub(crate) place: u32,
}

// The first link of each list: the place of a chunk and one more, or 0.
#[derive(Drop)]
pub(crate) struct Lists {
    firsts: [u32; LISTS],
    ghost many: { length firsts ≡ LISTS },
}

impl Lists {
    ghost use Rattle.core_segment.specs.Words.{filled_of, words_of};
    ghost use Rattle.std.specs.Prelude.{◌≡◌, ◌+◌, ◌<◌, ◌≤◌, ℕ, IfNone, IfSome, length, replicate};
    ghost use Rattle.core_segment.specs.Heads.{HasHead, IsClosed, link_in, size_in};
    ghost use Rattle.core_segment.specs.Layout.{largest_in, tiles_of};
    ghost use Rattle.core_segment.specs.Lists.{class_in, first_in, with_first};
    ghost use Rattle.core_segment.specs.Taking.{IsCarved, IsSpot, IsUnlisted, IsWhole};

    pub(crate) fn none() -> Lists
        ensures { result.firsts ≡ replicate LISTS 0 }
    {
        Lists { firsts: [0; LISTS] }
    }

    // The first link of a list.
    #[inline(always)]
    pub(crate) fn first(&self, class: u32) -> u32
        requires { class ≤ SHORT + 1 }
        ensures { result ≡ first_in self.now.firsts class }
    {
        self.firsts[class as usize]
    }

    // Makes the words from a place on a free chunk, the first of its list.
    #[inline(always)]
    pub(crate) fn push(&mut self, region: &mut Words, place: u32, size: u32)
        requires within { place + size ≤ length (words_of region.old) }
        requires some { 0 < size }
        ensures closed { IsClosed (words_of region.old) (words_of region.new) place size (first_in self.old.firsts (class_in size)) }
        ensures firsts { self.new.firsts ≡ with_first self.old.firsts size (place + 1) }
        ensures grown { filled_of region.old ≤ filled_of region.new }
    {
        let class = class_of(size) as usize;
        close(region, place, size, self.firsts[class]);
        if FEWEST <= size {
            self.firsts[class] = place + 1;
        }
    }

    // Takes a chunk out of its list, of which it is the first.
    pub(crate) fn leave(&mut self, region: &Words, place: u32, size: u32)
        requires { FEWEST ≤ size → place + 3 < length (words_of region.now) }
        ensures { self.new.firsts ≡ with_first self.old.firsts size (link_in (words_of region.now) place) }
    {
        if size < FEWEST {
            return;
        }
        self.firsts[class_of(size) as usize] = link_at(region, place);
    }

    // The least class, from one on, whose list has a chunk; one past the last where none has.
    #[inline(always)]
    pub(crate) fn class_from(&self, from: u32) -> u32
        requires { from ≤ SHORT + 1 }
        ensures least { (c : ℕ) → from ≤ c → c < result → first_in self.now.firsts c ≡ 0 }
        ensures some { result ≤ SHORT + 1 → 0 < first_in self.now.firsts result }
        ensures order { (from ≤ result) × (result ≤ SHORT + 2) }
    {
        let mut class = from;
        while class <= SHORT + 1 {
            if self.firsts[class as usize] != 0 {
                return class;
            }
            class += 1;
        }
        class
    }

    // The first chunk of the first list that has one, from the list of this size on.
    #[inline(always)]
    fn find_short(&self, words: u32) -> Option<Spot>
        requires { words ≤ SHORT }
        ensures some { IfSome result (λ s. (words ≤ s.class) × (s.class ≤ SHORT + 1) × (s.before ≡ 0) × (first_in self.now.firsts s.class ≡ s.place + 1)) }
        ensures none { IfNone result ((c : ℕ) → words ≤ c → c ≤ SHORT + 1 → first_in self.now.firsts c ≡ 0) }
    {
        let class = self.class_from(words);
        if SHORT + 1 < class {
            return None;
        }
        Some(Spot {
            class,
            before: 0,
            place: self.first(class) - 1,
        })
    }

    // The first of the long chunks that has so many words, by a walk along their list.
    fn find_long(&self, region: &Words, words: u32) -> Option<Spot>
        requires whole { IsWhole (words_of region.now) self.now.firsts }
        requires long { SHORT < words }
        ensures some { IfSome result (λ s. IsSpot (words_of region.now) self.now.firsts s.class s.before s.place) }
        ensures enough { IfSome result (λ s. words ≤ size_in (words_of region.now) s.place) }
        ensures none { IfNone result (largest_in (tiles_of (words_of region.now)) < words) }
    {
        let mut before = 0;
        let mut link = self.first(SHORT + 1);
        while link != 0 {
            let place = link - 1;
            if words <= size_at(region, place) {
                return Some(Spot {
                    class: SHORT + 1,
                    before,
                    place,
                });
            }
            before = link;
            link = link_at(region, place);
        }
        None
    }

    // A free chunk of at least so many words. None where no free chunk has so many.
    #[inline(always)]
    pub(crate) fn find(&self, region: &Words, words: u32) -> Option<Spot>
        requires whole { IsWhole (words_of region.now) self.now.firsts }
        requires some { FEWEST ≤ words }
        ensures some { IfSome result (λ s. IsSpot (words_of region.now) self.now.firsts s.class s.before s.place) }
        ensures enough { IfSome result (λ s. words ≤ size_in (words_of region.now) s.place) }
        ensures none { IfNone result (largest_in (tiles_of (words_of region.now)) < words) }
    {
        if words <= SHORT {
            self.find_short(words)
        } else {
            self.find_long(region, words)
        }
    }

    // Takes a chunk out of its list.
    #[inline(always)]
    pub(crate) fn cut(&mut self, region: &mut Words, spot: Spot)
        requires whole { IsWhole (words_of region.old) self.old.firsts }
        requires spot { IsSpot (words_of region.old) self.old.firsts spot.class spot.before spot.place }
        ensures unlisted { IsUnlisted (words_of region.old) (words_of region.new) self.new.firsts spot.place }
        ensures grown { filled_of region.old ≤ filled_of region.new }
    {
        let next = link_at(region, spot.place);
        if spot.before == 0 {
            self.firsts[spot.class as usize] = next;
        } else {
            put_link(region, spot.before - 1, next);
        }
    }

    // Makes the first words of a free chunk that is in no list a used one, and the rest, where there is some, a free one.
    #[inline(always)]
    pub(crate) fn carve(&mut self, region: &mut Words, place: u32, owner: u16, words: u32)
        requires head { HasHead (words_of region.old) place }
        requires within { place + size_in (words_of region.old) place ≤ length (words_of region.old) }
        requires few { FEWEST ≤ words }
        requires enough { words ≤ size_in (words_of region.old) place }
        requires owner { 0 < owner }
        ensures carved { IsCarved (words_of region.old) (words_of region.new) self.old.firsts self.new.firsts place owner words (size_in (words_of region.old) place) }
        ensures grown { filled_of region.old ≤ filled_of region.new }
    {
        let rest = size_at(region, place) - words;
        open(region, place, owner, words);
        if 0 < rest {
            self.push(region, place + words, rest);
        }
    }
}
