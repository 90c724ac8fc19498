//! Dead objects go from a pager: names that have no body are freed on disk, and an object with a body is freed without being written.
ghost use Rattle.std.specs.Prelude.{◌≡◌, ◌<◌, true, IfSome};
ghost use Rattle.object_table.specs.Entries.{is_used};
ghost use Rattle.leaf_lambda.specs.Parts.{core_of, IsParts};

use crate::pager::Pager;
use crate::room::{Pinned, RoomFault};
use core_segment::laws::chunks_never_overlap;
use leaf_lambda::Parts;
use long_names::value_of;
use loom_host::{DiskFault, Host, Role};
use object_table::Short;
use object_table::laws::entries_are_counted;

// The entry of what a long word names, if it names an object that has one.
#[inline(always)]
pub(crate) fn entry_of(p: &Parts, long: u32) -> Option<Short>
    requires parts { IsParts p.now }
    ensures used { IfSome result (λ s. is_used ((core_of p.now).entries s.0).state ≡ true) }
{
    match value_of(long) {
        Some(v) => match v.name() {
            Some(name) => p.names.resident.find(name),
            None => None,
        },
        None => None,
    }
}

// With which of the dead objects that one held it goes on.
#[derive(Clone, Copy, Debug, PartialEq, Eq)]
pub(crate) enum Next {
    First,
    Last,
}

impl Next {
    // The field that is looked at while so many of all are left behind it.
    #[inline(always)]
    pub(crate) fn field(&self, left: u32, all: u32) -> u32
        requires { left < all }
        ensures { result < all }
    {
        match self {
            Next::First => all - 1 - left,
            Next::Last => left,
        }
    }
}

impl<'h, H: Host> Pager<'h, H> {
    ghost use Rattle.std.specs.Prelude.{[], ◌≡◌, ◌+◌, ◌≤◌, ◌<◌, ℕ, None, true, IsTrue, IfOk, IfErr, OnOk, length};
    ghost use Rattle.object_record.specs.Raw.{longs_of};
    ghost use Rattle.object_record.specs.Buffer.{raw_of, HasRecord};
    ghost use Rattle.object_table.specs.Entries.{is_short};
    ghost use Rattle.object_table.specs.Table.{bound_of};
    ghost use Rattle.core_segment.specs.Segment.{free_of};
    ghost use Rattle.disk_objects.specs.Disk.{disk_held};
    ghost use Rattle.disk_objects.specs.Stays.{StaysOnWork};
    ghost use Rattle.core_view.specs.Counts.{outside};
    ghost use Rattle.delta_counts.specs.Effects.{HasSound};
    ghost use Rattle.purger.specs.Closing.{LeavesKept};
    ghost use Rattle.purger.specs.Draining.{NoBodyDead, NotDeadAt};
    ghost use Rattle.purger.specs.Freeing.{FreesAll, FreesBare, FreesDead, HasTold, KeepsAll};
    ghost use Rattle.purger.specs.Pager.{core_in, IsReady};
    ghost use Rattle.purger.specs.Purge.{IsPurgeFault};

    // Gives up the entry of an idle leaf, whose name is pending then where it is dead; or frees the object of an entry, if it has a body and is dead.
    fn free_at(&mut self, s: Short) -> Result<bool, DiskFault>
        requires sound { HasSound self.old.levels [] }
        requires short { is_short s.0 ≡ true }
        requires within { s.0 < bound_of self.old.levels.parts.names.table }
        ensures frees { FreesDead self.old self.new result }
        ensures told { IfOk result (HasTold self.old self.new) }
        ensures held { OnOk result (disk_held self.new.levels.disk.rest ≤ disk_held self.old.levels.disk.rest) }
    {
        self.levels.give_idle_at(s)?;
        self.free_dead_at(s)
    }

    // The same of what a field of the record in the buffer names, if that has an entry.
    fn free_held(&mut self, i: u32) -> Result<bool, DiskFault>
        requires sound { HasSound self.old.levels [] }
        requires record { HasRecord self.old.out }
        requires field { i < length (longs_of (raw_of self.old.out).body) }
        ensures frees { FreesDead self.old self.new result }
        ensures told { IfOk result (HasTold self.old self.new) }
        ensures held { OnOk result (disk_held self.new.levels.disk.rest ≤ disk_held self.old.levels.disk.rest) }
    {
        let long = self.out.long_field(i);
        match entry_of(&self.levels.parts, long) {
            Some(s) => self.free_at(s),
            None => Ok(false),
        }
    }

    // Goes on from an object that was freed, whose record is in the buffer: one that it held is freed, if that has a body and is dead now, then one
    // that this held, and so on. Idle leaves among the fields that it passes are given up.
    fn free_fields(&mut self, next: &Next) -> Result<(), DiskFault>
        requires sound { HasSound self.old.levels [] }
        requires record { HasRecord self.old.out }
        ensures frees { FreesDead self.old self.new result }
        ensures held { OnOk result (disk_held self.new.levels.disk.rest ≤ disk_held self.old.levels.disk.rest) }
    {
        let mut left = self.out.field_count();
        while left > 0 {
            left -= 1;
            let i = next.field(left, self.out.field_count());
            if self.free_held(i)? {
                // no more words are free than there are
                chunks_never_overlap(&self.levels.parts.segment);
                left = self.out.field_count();
            }
        }
        Ok(())
    }

    // Frees the first name that is pending, whose record is in the buffer then. No body goes.
    fn free_pending(&mut self) -> Result<bool, DiskFault>
        requires sound { HasSound self.old.levels [] }
        ensures frees { FreesDead self.old self.new result }
        ensures held { IfOk result (λ found. IsTrue found → disk_held self.new.levels.disk.rest + 1 ≡ disk_held self.old.levels.disk.rest) }
        ensures record { IfOk result (λ found. IsTrue found → HasRecord self.new.out) }
    {
        self.levels.drain_pending(&mut self.out)
    }

    // The same, and each time with a dead name that has no body, until none is pending: so a chain goes on through names that aren't in the core.
    fn free_on(&mut self, next: &Next) -> Result<(), DiskFault>
        requires sound { HasSound self.old.levels [] }
        requires record { HasRecord self.old.out }
        ensures frees { FreesDead self.old self.new result }
    {
        loop {
            self.free_fields(next)?;
            if !self.free_pending()? {
                return Ok(());
            }
        }
    }

    // Frees the object of an entry, if it has a body and is dead, and a chain of those that die with it.
    fn free_chain(&mut self, s: Short, next: &Next) -> Result<(), DiskFault>
        requires sound { HasSound self.old.levels [] }
        requires short { is_short s.0 ≡ true }
        requires within { s.0 < bound_of self.old.levels.parts.names.table }
        ensures frees { FreesDead self.old self.new result }
        ensures none { IsTrue (H.tells Role.Work) → OnOk result (free_of self.new.levels.parts.segment ≡ free_of self.old.levels.parts.segment → KeepsAll self.old self.new (NotDeadAt s.0)) }
    {
        if !self.free_dead_at(s)? {
            return Ok(());
        }
        self.free_on(next)
    }

    // Frees each object that has a body and is dead when its entry's turn comes, and chains of those that die with it. Where no words became free
    // none was.
    fn free_dead(&mut self) -> Result<(), DiskFault>
        requires sound { HasSound self.old.levels [] }
        ensures frees { FreesDead self.old self.new result }
        ensures none { IsTrue (H.tells Role.Work) → OnOk result (free_of self.new.levels.parts.segment ≡ free_of self.old.levels.parts.segment → KeepsAll self.old self.new NoBodyDead) }
    {
        for i in 0..self.levels.parts.names.table.used_end() {
            self.free_chain(Short(2 * i + 2), &Next::First)?;
        }
        Ok(())
    }

    // The same from the last entry to the first, and by the last field of each.
    fn free_down(&mut self) -> Result<(), DiskFault>
        requires sound { HasSound self.old.levels [] }
        ensures frees { FreesDead self.old self.new result }
    {
        let count = self.levels.parts.names.table.used_end();
        for i in 0..count {
            self.free_chain(Short(2 * (count - i)), &Next::Last)?;
        }
        Ok(())
    }

    // Frees dead names that have no body until there is none. No body goes.
    fn drain_bare(&mut self) -> Result<(), DiskFault>
        requires sound { HasSound self.old.levels [] }
        ensures frees { FreesDead self.old self.new result }
        ensures bare { IsTrue (H.tells Role.Work) → OnOk result (FreesBare self.old self.new) }
    {
        loop {
            if !self.levels.drain_one(&mut self.out)? {
                return Ok(());
            }
        }
    }

    /// Frees dead objects until nothing is dead. What is freed had no reference from outside, so what a register or a slot names stays, and what
    /// stays keeps its body. A dead object that is in the core isn't written, whatever its record has. Each round goes up the table and down again,
    /// and a body goes in each but the last. From an object that goes it follows one that dies with it, up the first of them and down the last: so
    /// a list goes in one round, whichever end of its cells links them, wherever they lie. It takes no memory, no entry, and no words of the
    /// segment.
    pub fn drain(&mut self) -> Result<(), DiskFault>
        requires sound { HasSound self.old.levels [] }
        ensures frees { FreesDead self.old self.new result }
        ensures drained { IsTrue (H.tells Role.Work) → OnOk result (FreesAll self.old self.new) }
    {
        loop {
            self.drain_bare()?;
            let before = self.levels.parts.segment.free_words();
            self.free_dead()?;
            // no more words are free than there are
            chunks_never_overlap(&self.levels.parts.segment);
            if self.levels.parts.segment.free_words() == before {
                return Ok(());
            }
            self.free_down()?;
        }
    }

    /// Everything leaves the core, once no register or slot names anything: dead objects go, then all others are written and their entries given
    /// up, the pinned three too. The disk has just the kept objects then, each with its exact count.
    pub fn close(&mut self) -> Result<(), DiskFault>
        requires ready { IsReady self.old }
        requires loose { (s : ℕ) → outside (core_in self.old) s ≡ 0 }
        ensures empty { OnOk result ((q : ℕ) → (core_in self.new).find q ≡ None) }
        ensures kept { IsTrue (H.tells Role.Work) → OnOk result (LeavesKept H.Host self.old.levels.parts self.old.levels.disk.host.now self.old.levels.disk.rest self.new.levels.disk.host.now self.new.levels.disk.rest) }
        ensures disk { StaysOnWork H.Host self.old.levels.disk self.new.levels.disk }
        ensures fault { IfErr result (IsPurgeFault H.Host self.old.levels.disk.host.now self.new.levels.disk.host.now) }
    {
        self.drain()?;
        let all = self.levels.parts.names.table.entries() + 1;
        self.pinned = Pinned { a: 0, b: 0, d: 0 };
        match self.make_room(0, all) {
            Ok(()) => {
                // no more entries are free than there are
                entries_are_counted(&self.levels.parts.names.table);
                unreachable!()
            }
            Err(RoomFault::Short) => Ok(()),
            Err(RoomFault::Disk(f)) => Err(f),
        }
    }
}
