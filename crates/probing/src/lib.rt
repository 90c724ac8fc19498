//! Linear probing: how a name is found in a ring of slots.
//!
//! A name is looked for from its home on, slot by slot and around the end, up to an empty slot; where one is taken out, those behind it
//! that a search would miss move up. `turn` and `distance` count such steps. The crates that keep slots search them and change them
//! themselves; here are the words for it and the laws that they share. There are two kinds of homes. By `home` each name spreads by
//! itself: names that were made one after another fill no run of slots. By `paged_home` those of a block of names share a block of slots,
//! and blocks spread: so they share a page of a file. Either way few slots are read for a removal, whatever the order.
//!
//! ```text
//! let home = home(name, slots);               // or paged_home
//! let at = turn(home, step, slots);
//! let steps = distance(home, at, slots);      // step again
//! ```
//!
//! Read `specs/Table.antt` first, then `specs/Homes.antt` and `specs/Search.antt`; `proofs/` has the laws of searches, of the map that
//! slots stand for, and of closing up. A slot is a name and a value of any type to the laws: how slots are kept, they don't say.
//!
//! - Proved: What slots with linear probing stand for, and that adding, setting and removal by closing up change one name of it, for any
//!   value beside a name and any homes. Names of a block have their homes in one block of slots, no two the same.
//! - Tested: By the two crates that keep slots (`work_tests`, `core_tests`).
//! - Not said: How many steps a search takes.
#![tactic(auto)]

ghost use Rattle.std.specs.Prelude.{◌≡◌, ◌<◌, ◌≤◌, ◌*◌, ◌/◌, ◌^◌, ℕ};
ghost use Rattle.probing.specs.Homes.{home_of, block_begin, block_home, paged_home_of};
ghost use Rattle.probing.specs.Table.{turned, apart};

// 2^32 times the fraction of the golden ratio: odd, and its multiples lie evenly among the numbers of 32 bits.
const SPREADER: u32 = 0x9e37_79b9;

/// How many slots a block has, and how many numbers its names are of. A name is even, so that every second slot is a home.
pub const BLOCK_SLOTS: u32 = 170;

/// The slot where the search for a name begins, each name by itself.
#[tactic(auto, unfolding(crate::specs::Homes::spread, crate::specs::Homes::home_of))]
#[inline(always)]
pub fn home(name: u32, slots: u32) -> u32
    requires some { 0 < slots }
    ensures place { result ≡ home_of name slots }
    ensures within { result < slots }
{
    let key = name.wrapping_mul(SPREADER);
    ((u64::from(key) * u64::from(slots)) >> 32) as u32
}

// Where the names of a block begin, among the slots of so many blocks.
#[tactic(auto, unfolding(crate::specs::Homes::block_begin, crate::specs::Homes::home_of))]
#[inline(always)]
fn begin(block: u32, blocks: u32) -> u32
    requires some { 0 < blocks }
    requires few { blocks < 2 ^ 24 }
    ensures place { result ≡ block_begin block blocks }
    ensures within { result < blocks * BLOCK_SLOTS }
{
    let round = block / blocks;
    let turned = block.wrapping_add(round.wrapping_mul(round));
    home(turned, blocks * BLOCK_SLOTS)
}

// The home of a name whose block begins there.
#[tactic(auto, unfolding(crate::specs::Homes::block_home))]
#[inline(always)]
fn within(begin: u32, name: u32) -> u32
    requires low { begin < 2 ^ 31 }
    ensures place { result ≡ block_home begin name }
{
    begin / BLOCK_SLOTS * BLOCK_SLOTS + (begin % BLOCK_SLOTS + name % BLOCK_SLOTS) % BLOCK_SLOTS
}

/// The slot where the search for a name begins, by blocks: names that were made one after another share a block of slots.
#[tactic(auto, unfolding(crate::specs::Homes::paged_home_of))]
#[inline(always)]
pub fn paged_home(name: u32, slots: u32) -> u32
    requires some { 0 < slots }
    requires few { slots < 2 ^ 31 }
    ensures place { result ≡ paged_home_of name slots }
    ensures within { result < slots }
    ensures shared { BLOCK_SLOTS ≤ slots → (other : ℕ) → other / BLOCK_SLOTS ≡ name / BLOCK_SLOTS → paged_home_of other slots / BLOCK_SLOTS ≡ result / BLOCK_SLOTS }
    ensures apart { BLOCK_SLOTS ≤ slots → (other : ℕ) → other / BLOCK_SLOTS ≡ name / BLOCK_SLOTS → paged_home_of other slots ≡ result → other ≡ name }
{
    if slots < BLOCK_SLOTS {
        return home(name, slots);
    }
    within(begin(name / BLOCK_SLOTS, slots / BLOCK_SLOTS), name)
}

/// The slot so many steps on from a slot, around the end.
#[tactic(auto, unfolding(crate::specs::Table::turned))]
#[inline(always)]
pub fn turn(home: u32, step: u32, slots: u32) -> u32
    requires few { slots < 2 ^ 31 }
    requires home_within { home < slots }
    requires step_within { step < slots }
    ensures place { result ≡ turned home step slots }
    ensures within { result < slots }
{
    let at = home + step;
    if at < slots { at } else { at - slots }
}

/// How many slots on from one slot the other is, around the end.
#[tactic(auto, unfolding(crate::specs::Table::apart))]
pub fn distance(from: u32, to: u32, slots: u32) -> u32
    requires few { slots < 2 ^ 31 }
    requires from_within { from < slots }
    requires to_within { to < slots }
    ensures { result ≡ apart from to slots }
{
    if from <= to {
        to - from
    } else {
        to + slots - from
    }
}
