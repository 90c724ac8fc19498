//! The core and the disk as one struct that pages: objects leave the core until there is room.
//!
//! What the parts keep is a fact of the levels' type, so it holds also behind a fault. That they stand for sound levels is a condition and a promise.
use crate::idle::idle_behind;
use crate::room::{
    Behind, NOTHING, Pinned, ROUND_PARTS, RoomFault, has_room, has_turned, is_together,
    is_worth_a_sweep, may_go, may_leave, next_entry, round_of,
};
use crate::touches::{is_touched, untouch};
use delta_counts::TwoLevels;
use leaf_lambda::moving::compact_one;
use loom_host::{DiskFault, Host};
use object_record::RecordBuf;
use object_table::Short;

/// A core over a disk, the record of what leaves it, three objects that stay, and where in the table what goes is looked for next.
#[derive(Drop)]
pub struct Pager<'h, H: Host> {
    pub levels: TwoLevels<'h, H>,
    pub out: RecordBuf,
    pub pinned: Pinned,
    /// Any number will do.
    pub hand: u16,
}

impl<'h, H: Host> Pager<'h, H> {
    ghost use Rattle.std.specs.Prelude.{◌≡◌, ◌⊎◌, ◌+◌, ◌*◌, ◌/◌, ◌^◌, ◌≤◌, ◌<◌, ℕ, Some, None, Ok, true, false, IsOk, IfOk, OnOk};
    ghost use Rattle.object_table.specs.Entries.{is_short, place_of};
    ghost use Rattle.object_table.specs.Table.{bound_of, entries_of};
    ghost use Rattle.core_segment.specs.Segment.{free_of, largest_of};
    ghost use Rattle.core_view.specs.Purge.{HasNoIdle};
    ghost use Rattle.core_view.specs.Room.{is_among};
    ghost use Rattle.purger.specs.Pager.{core_in, Clears, IsReady, MakesRoom, Moves, Passes, Purges};
    ghost use Rattle.purger.specs.Purge.{HasRoom, KeepsBodies};
    ghost use Rattle.purger.specs.Rounds.{IsFewBehind, KeepsAllBut, LostInNeed, StopsInTime};
    ghost use Rattle.purger.specs.declared.room.TheConstants.{ROUND_PARTS};

    /// Moves bodies down until all free words are one chunk, or none.
    pub fn compact(&mut self)
        ensures moves { Moves self.old self.new }
        ensures room { largest_of self.new.levels.parts.segment ≡ free_of self.old.levels.parts.segment }
    {
        let levels = &mut self.levels;
        while compact_one(&mut levels.parts) {}
    }

    // Moves bodies together where so many words are free, but not as one chunk.
    fn gather(&mut self, words: u32)
        requires words { words ≤ free_of self.old.levels.parts.segment }
        ensures moves { Moves self.old self.new }
        ensures room { words ≤ largest_of self.new.levels.parts.segment }
    {
        if is_together(&self.levels.parts, words) {
            return;
        }
        self.compact();
    }

    // Gives up the entries of all leaves to which nothing refers: their changes join the counts on disk.
    fn free_idle(&mut self) -> Result<(), DiskFault>
        requires ready { IsReady self.old }
        ensures purges { Purges self.old self.new result }
        ensures bodies { KeepsBodies (core_in self.old) (core_in self.new) }
        ensures idle { OnOk result (HasNoIdle (core_in self.new)) }
    {
        self.levels.give_idle()
    }

    // Gives up the idle leaves where that makes room, as they are reckoned, and where much left since that was done. Answers what left since then.
    fn free_enough(
        &mut self,
        words: u32,
        entries: u16,
        part: u16,
        behind: Behind,
    ) -> Result<Behind, DiskFault>
        requires ready { IsReady self.old }
        ensures purges { Purges self.old self.new result }
        ensures bodies { KeepsBodies (core_in self.old) (core_in self.new) }
        ensures behind { IfOk result (λ b. (b.left ≡ behind.left) ⊎ ((b.left ≡ 0) × HasNoIdle (core_in self.new))) }
        ensures few { IfOk result (λ b. IsFewBehind part words entries self.new.levels.parts b.left) }
    {
        if !is_worth_a_sweep(&self.levels.parts, words, entries, part, behind) {
            return Ok(behind);
        }
        self.free_idle()?;
        Ok(NOTHING)
    }

    // Evicts an object. Where the idle leaves are room enough then, as they are reckoned, they are given up: so the table is swept for them
    // once, and not after each eviction. Answers what left since.
    fn evict_one(
        &mut self,
        s: Short,
        words: u32,
        entries: u16,
        part: u16,
        behind: Behind,
    ) -> Result<Behind, DiskFault>
        requires small { behind.left + 1 < 2 ^ 32 }
        requires ready { IsReady self.old }
        requires body { (at : ℕ) × (place_of ((core_in self.old).entries s.0).state ≡ Some at) }
        requires loose { is_among self.old.pinned.a self.old.pinned.b self.old.pinned.d s.0 ≡ false }
        ensures purges { Purges self.old self.new result }
        ensures one { KeepsAllBut s.0 (core_in self.old) (core_in self.new) }
        ensures gone { OnOk result (place_of ((core_in self.new).entries s.0).state ≡ None) }
        ensures behind { IfOk result (λ b. (b.left ≡ behind.left + 1) ⊎ ((b.left ≡ 0) × HasNoIdle (core_in self.new))) }
        ensures few { IfOk result (λ b. IsFewBehind part words entries self.new.levels.parts b.left) }
    {
        let left = behind.left + 1;
        let idle = behind
            .idle
            .saturating_add(idle_behind(&self.levels.parts, s));
        self.evict(s)?;
        self.free_enough(words, entries, part, Behind { left, idle })
    }

    // Evicts an object that may leave, unless there is room.
    fn evict_more(
        &mut self,
        s: Short,
        words: u32,
        entries: u16,
        part: u16,
        behind: Behind,
    ) -> Result<Behind, DiskFault>
        requires small { behind.left + 1 < 2 ^ 32 }
        requires ready { IsReady self.old }
        requires short { is_short s.0 ≡ true }
        requires within { s.0 < bound_of self.old.levels.parts.names.table }
        ensures passes { Passes s.0 part words entries behind.left self.old self.new result }
        ensures stops { OnOk result (KeepsBodies (core_in self.old) (core_in self.new) ⊎ (HasRoom self.old.levels.parts words entries → ⊥)) }
        ensures gone { OnOk result (HasRoom self.new.levels.parts words entries
            ⊎ ((at : ℕ) → place_of ((core_in self.new).entries s.0).state ≡ Some at → is_among self.old.pinned.a self.old.pinned.b self.old.pinned.d s.0 ≡ true)) }
        ensures needless { HasRoom self.old.levels.parts words entries → (result ≡ Ok behind) × (self.new ≡ self.old) }
    {
        if has_room(&self.levels.parts, words, entries) {
            return Ok(behind);
        }
        let levels = &self.levels;
        if !may_leave(&levels.parts, s, &self.pinned) {
            return Ok(behind);
        }
        self.evict_one(s, words, entries, part, behind)
    }

    // The hand passes over an object: it has no flag TOUCHED then.
    fn pass_over(&mut self, s: Short)
        requires body { (at : ℕ) × (place_of ((core_in self.old).entries s.0).state ≡ Some at) }
        ensures moves { Moves self.old self.new }
        ensures segment { self.new.levels.parts.segment ≡ self.old.levels.parts.segment }
    {
        let levels = &mut self.levels;
        untouch(&mut levels.parts, s);
    }

    // Evicts an object at which the hand is, if it goes; one that was touched since the hand passed isn't touched from then on. Answers what
    // left since the table was swept.
    fn pass(
        &mut self,
        s: Short,
        words: u32,
        entries: u16,
        part: u16,
        behind: Behind,
    ) -> Result<Behind, DiskFault>
        requires small { behind.left + 1 < 2 ^ 32 }
        requires ready { IsReady self.old }
        requires short { is_short s.0 ≡ true }
        requires within { s.0 < bound_of self.old.levels.parts.names.table }
        ensures passes { Passes s.0 part words entries behind.left self.old self.new result }
    {
        let levels = &self.levels;
        if !may_go(&levels.parts, s, &self.pinned) {
            return Ok(behind);
        }
        if is_touched(&self.levels.parts, s) {
            self.pass_over(s);
            return Ok(behind);
        }
        self.evict_one(s, words, entries, part, behind)
    }

    // The hand goes on over the table, at most twice round it, while there is no room: what is passed over the first time may go the second. Where
    // it has to go, it goes over a part of the table at least, so that the table is swept for idle leaves, and bodies are moved together, once
    // for many objects.
    fn go_round(&mut self, words: u32, entries: u16) -> Result<(), DiskFault>
        requires ready { IsReady self.old }
        requires idle { HasNoIdle (core_in self.old) }
        ensures purges { Purges self.old self.new result }
        ensures stops { OnOk result (StopsInTime (entries_of self.old.levels.parts.names.table / ROUND_PARTS) words entries self.old.levels.parts self.new.levels.parts) }
    {
        let end = self.levels.parts.names.table.used_end();
        let part = self.levels.parts.names.table.entries() / ROUND_PARTS;
        let round = round_of(part, end);
        let mut behind = NOTHING;
        for i in 0..2 * end {
            if has_turned(&self.levels.parts, words, entries, i, round) {
                return Ok(());
            }
            let s = next_entry(end, &mut self.hand);
            behind = self.pass(s, words, entries, part, behind)?;
        }
        Ok(())
    }

    // A round of the hand; and where it made no room, the idle leaves are given up.
    fn turn(&mut self, words: u32, entries: u16) -> Result<(), DiskFault>
        requires ready { IsReady self.old }
        requires idle { HasNoIdle (core_in self.old) }
        ensures purges { Purges self.old self.new result }
        ensures stops { OnOk result (StopsInTime (entries_of self.old.levels.parts.names.table / ROUND_PARTS) words entries self.old.levels.parts self.new.levels.parts) }
        ensures idle { OnOk result (HasRoom self.new.levels.parts words entries ⊎ HasNoIdle (core_in self.new)) }
    {
        self.go_round(words, entries)?;
        if has_room(&self.levels.parts, words, entries) {
            return Ok(());
        }
        self.free_idle()
    }

    // The end of a purge: the idle leaves are given up, and there is room or nothing more can go.
    fn last_room(&mut self, words: u32, entries: u16) -> Result<(), RoomFault>
        requires ready { IsReady self.old }
        requires gone { HasRoom self.old.levels.parts words entries
            ⊎ ((s at : ℕ) → place_of ((core_in self.old).entries s).state ≡ Some at → is_among self.old.pinned.a self.old.pinned.b self.old.pinned.d s ≡ true) }
        ensures clears { Clears self.old self.new result }
        ensures bodies { KeepsBodies (core_in self.old) (core_in self.new) }
        ensures makes { MakesRoom words entries self.new result }
    {
        match self.free_idle() {
            Ok(()) => {}
            Err(f) => return Err(RoomFault::Disk(f)),
        }
        if has_room(&self.levels.parts, words, entries) {
            self.gather(words);
            Ok(())
        } else {
            Err(RoomFault::Short)
        }
    }

    // Makes room where a round made none: once through the table from its first entry on, marked objects too, until there is room or nothing
    // more can go.
    fn clear_out(&mut self, words: u32, entries: u16) -> Result<(), RoomFault>
        requires ready { IsReady self.old }
        requires idle { HasNoIdle (core_in self.old) }
        ensures clears { Clears self.old self.new result }
        ensures makes { MakesRoom words entries self.new result }
        ensures stops { OnOk result (KeepsBodies (core_in self.old) (core_in self.new)
            ⊎ LostInNeed (entries_of self.old.levels.parts.names.table / ROUND_PARTS) words entries self.old.levels.parts self.new.levels.parts) }
    {
        let part = self.levels.parts.names.table.entries() / ROUND_PARTS;
        let mut behind = NOTHING;
        for i in 0..self.levels.parts.names.table.used_end() {
            match self.evict_more(Short(2 * i + 2), words, entries, part, behind) {
                Ok(then) => behind = then,
                Err(f) => return Err(RoomFault::Disk(f)),
            }
        }
        self.last_room(words, entries)
    }

    // Makes room where there is none: by a round of the hand, or by clearing out what may leave.
    fn purge(&mut self, words: u32, entries: u16) -> Result<(), RoomFault>
        requires ready { IsReady self.old }
        requires idle { HasNoIdle (core_in self.old) }
        ensures clears { Clears self.old self.new result }
        ensures makes { MakesRoom words entries self.new result }
        ensures stops { OnOk result (StopsInTime (entries_of self.old.levels.parts.names.table / ROUND_PARTS) words entries self.old.levels.parts self.new.levels.parts) }
    {
        match self.turn(words, entries) {
            Ok(()) => {}
            Err(f) => return Err(RoomFault::Disk(f)),
        }
        if has_room(&self.levels.parts, words, entries) {
            self.gather(words);
            return Ok(());
        }
        self.clear_out(words, entries)
    }

    /// Makes room: so many words and entries are free after it, the words as one chunk, and three objects stay in the core. Where that many
    /// were free before, it succeeds, no body goes and Work isn't touched. Else a part of the table may go at once, and more only while that many
    /// aren't free; or, where words are, since the table was swept for idle leaves and entries weren't free all the same (`stops`). Short only
    /// where nothing more can go and that many aren't free.
    pub fn make_room(&mut self, words: u32, entries: u16) -> Result<(), RoomFault>
        requires ready { IsReady self.old }
        ensures clears { Clears self.old self.new result }
        ensures makes { MakesRoom words entries self.new result }
        ensures stops { OnOk result (StopsInTime (entries_of self.old.levels.parts.names.table / ROUND_PARTS) words entries self.old.levels.parts self.new.levels.parts) }
        ensures needless { HasRoom self.old.levels.parts words entries → IsOk result × Moves self.old self.new }
    {
        if has_room(&self.levels.parts, words, entries) {
            self.gather(words);
            return Ok(());
        }
        match self.free_idle() {
            Ok(()) => self.purge(words, entries),
            Err(f) => Err(RoomFault::Disk(f)),
        }
    }
}
