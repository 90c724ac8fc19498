// What is asked while room is made: whether there is enough, what goes, and where the hand is.
ghost use Rattle.std.specs.Prelude.{◌≡◌, ◌⊎◌, ◌+◌, ◌*◌, ◌/◌, ◌≤◌, ◌<◌, ℕ, Some, true, false, IsTrue};
ghost use Rattle.object_table.specs.Entries.{is_short, place_of};
ghost use Rattle.object_table.specs.Table.{bound_of};
ghost use Rattle.object_table.specs.declared.table.TheConstants.{MOST_ENTRIES};
ghost use Rattle.core_segment.specs.Segment.{largest_of};
ghost use Rattle.core_view.specs.Room.{is_among};
ghost use Rattle.leaf_lambda.specs.Parts.{core_of, IsParts};
ghost use Rattle.purger.specs.Purge.{HasRoom};
ghost use Rattle.purger.specs.Rounds.{IsFewBehind};
ghost use Rattle.purger.specs.declared.room.TheConstants.{ROUND_PARTS};

use leaf_lambda::Parts;
use loom_host::DiskFault;
use object_table::Short;

/// Why there is no room: nothing more can go, or a call on Work failed.
#[derive(Clone, Copy, Debug, PartialEq, Eq)]
pub enum RoomFault {
    Short,
    Disk(DiskFault),
}

/// A round of the hand that has to look for what goes looks at this part of the table, or at a quarter of the entries in use.
pub(crate) const ROUND_PARTS: u16 = 32;

/// The short words of three objects that stay; 0 for none.
#[derive(Clone, Copy, Debug, PartialEq, Eq)]
pub struct Pinned {
    pub a: u16,
    pub b: u16,
    pub d: u16,
}

impl Pinned {
    /// Whether an entry is one of them.
    #[inline(always)]
    pub fn has(&self, s: Short) -> bool
        ensures { result ≡ is_among self.now.a self.now.b self.now.d s.0 }
    {
        s.0 == self.a || (s.0 == self.b || s.0 == self.d)
    }
}

// What left since the table was swept for idle leaves: so many objects, behind which so many idle leaves are reckoned.
#[derive(Clone, Copy)]
pub(crate) struct Behind {
    pub(crate) left: u32,
    pub(crate) idle: u32,
}

// Nothing left since.
pub(crate) const NOTHING: Behind = Behind { left: 0, idle: 0 };

/// Whether so many words and entries are free.
#[inline(always)]
pub fn has_room(p: &Parts, words: u32, entries: u16) -> bool
    ensures has { IsTrue result → HasRoom p.now words entries }
    ensures lacks { result ≡ false → HasRoom p.now words entries → ⊥ }
{
    if p.segment.free_words() < words {
        return false;
    }
    entries <= p.names.table.free()
}

// Whether so many words are free, and so many entries where so many more are.
#[inline(always)]
fn would_have_room(p: &Parts, words: u32, entries: u16, more: u32) -> bool {
    if p.segment.free_words() < words {
        return false;
    }
    u32::from(entries) <= more.saturating_add(u32::from(p.names.table.free()))
}

// Whether words enough are free and entries aren't, but would be without the idle leaves, as they are reckoned; or more than a part of the table
// left since it was swept.
#[inline(always)]
pub(crate) fn is_worth_a_sweep(
    p: &Parts,
    words: u32,
    entries: u16,
    part: u16,
    behind: Behind,
) -> bool
    ensures no { result ≡ false → IsFewBehind part words entries p.now behind.left }
{
    if has_room(p, words, entries) {
        return false;
    }
    if p.segment.free_words() < words {
        return false;
    }
    if behind.left > u32::from(part) {
        return true;
    }
    would_have_room(p, words, entries, behind.idle)
}

// Whether so many words are free together.
#[inline(always)]
pub(crate) fn is_together(p: &Parts, words: u32) -> bool
    ensures { IsTrue result → words ≤ largest_of p.now.segment }
{
    if words == 0 {
        return true;
    }
    p.segment.has_room(words)
}

// Whether an object may leave: it has a body, and isn't pinned.
#[inline(always)]
pub(crate) fn may_leave(p: &Parts, s: Short, pinned: &Pinned) -> bool
    requires parts { IsParts p.now }
    requires short { is_short s.0 ≡ true }
    requires within { s.0 < bound_of p.now.names.table }
    ensures body { IsTrue result → (at : ℕ) × (place_of ((core_of p.now).entries s.0).state ≡ Some at) }
    ensures loose { IsTrue result → is_among pinned.now.a pinned.now.b pinned.now.d s.0 ≡ false }
    ensures stays { result ≡ false → (at : ℕ) → place_of ((core_of p.now).entries s.0).state ≡ Some at → is_among pinned.now.a pinned.now.b pinned.now.d s.0 ≡ true }
{
    if pinned.has(s) {
        return false;
    }
    p.names.table.entry(s).place().is_some()
}

// Whether an object goes where the hand passes, unless it was touched since: it may leave, and isn't marked.
#[inline(always)]
pub(crate) fn may_go(p: &Parts, s: Short, pinned: &Pinned) -> bool
    requires parts { IsParts p.now }
    requires short { is_short s.0 ≡ true }
    requires within { s.0 < bound_of p.now.names.table }
    ensures body { IsTrue result → (at : ℕ) × (place_of ((core_of p.now).entries s.0).state ≡ Some at) }
    ensures loose { IsTrue result → is_among pinned.now.a pinned.now.b pinned.now.d s.0 ≡ false }
{
    if p.names.table.entry(s).flags.marked {
        return false;
    }
    may_leave(p, s, pinned)
}

// The entry at which the hand is, of so many. The hand moves on, and behind the last of them to the first.
#[inline(always)]
pub(crate) fn next_entry(end: u16, hand: &mut u16) -> Short
    requires some { 0 < end }
    requires most { end ≤ MOST_ENTRIES }
    ensures short { is_short result.0 ≡ true }
    ensures within { result.0 ≤ 2 * end }
{
    let at = if *hand < end { *hand } else { 0 };
    *hand = at + 1;
    Short(2 * at + 2)
}

// Whether a round ends: there is room, and the hand went over no entry, or over so many.
#[inline(always)]
pub(crate) fn has_turned(p: &Parts, words: u32, entries: u16, passed: u16, part: u16) -> bool
    ensures goes { result ≡ false → (passed < part) ⊎ (HasRoom p.now words entries → ⊥) }
{
    if passed > 0 && passed < part {
        return false;
    }
    has_room(p, words, entries)
}

// How many entries a round goes over at least: where few are in use, a quarter of those.
#[inline(always)]
pub(crate) fn round_of(part: u16, end: u16) -> u16
    ensures { result ≤ part }
{
    let quarter = end / 4;
    if quarter < part { quarter } else { part }
}
