//! A dead object of a pager goes without being written.
ghost use Rattle.std.specs.Prelude.{◌≡◌, ◌+◌, ◌+ℤ◌, ◌≤◌, ◌<◌, ◌↔◌, ℕ, pos, List, Option, None, Some, true, IsTrue, IfOk, IfErr, OnOk};
ghost use Rattle.object_table.specs.Entries.{place_of, put};
ghost use Rattle.core_segment.specs.Segment.{free_of, size_of};
ghost use Rattle.disk_objects.specs.Calls.{HoldsObjects};
ghost use Rattle.disk_objects.specs.Disk.{disk_held};
ghost use Rattle.disk_objects.specs.Stays.{IsRead, StaysOnWork};
ghost use Rattle.leaf_lambda.specs.Parts.{core_of, spare_of, IsParts};
ghost use Rattle.core_view.specs.Levels.{Stored, count_in};
ghost use Rattle.delta_counts.specs.At.{IsStoredAt};
ghost use Rattle.purger.specs.Draining.{IsForgotten, MayDrop};
ghost use Rattle.purger.specs.Purge.{IsReadFault};

use crate::alone::{MOST_ALONE, copy_fields};
use crate::eviction::{NOWHERE, count_of};
use crate::pager::Pager;
use disk_objects::DiskObjects;
use leaf_lambda::Parts;
use leaf_lambda::leaving::{drop_body, set_written};
use leaf_lambda::steps::{free_leaf, place_of_body};
use long_names::Name;
use loom_host::{DiskFault, Host, Role};
use object_table::Short;

// Whether a change and a count on disk come to nothing.
fn comes_to_none(change: i64, count: u64) -> bool
    ensures { IsTrue result ↔ (change +ℤ pos count ≡ pos 0) }
{
    if change > 0 {
        return false;
    }
    change.unsigned_abs() == count
}

// The count on disk of the name of an entry: of a fresh object, which has no record, 0, and nothing is read.
#[inline(always)]
fn count_behind<H: Host>(
    disk: &mut DiskObjects<'_, H>,
    name: Name,
    fresh: bool,
) -> Result<u64, DiskFault>
    requires stands { HoldsObjects H.Host disk.old.host.now disk.old.rest }
    ensures count { IsTrue (H.tells Role.Work) → (stored : ℕ → Option Stored) (pending : List ℕ) →
        IsStoredAt H.Host disk.old.host.now disk.old.rest stored pending → (fresh ≡ true → stored name ≡ None) → IfOk result (λ n. n ≡ count_in (stored name)) }
    ensures reads { IsRead H.Host disk.old disk.new }
    ensures fault { IfErr result (IsReadFault (H.tells Role.Work) (H.faults disk.old.host.now Role.Work) (H.faults disk.new.host.now Role.Work)) }
{
    if fresh {
        return Ok(0);
    }
    count_of(disk, name)
}

// Removes the record of a name that isn't pending; a fresh object has none.
fn drop_record<H: Host>(
    disk: &mut DiskObjects<'_, H>,
    name: Name,
    fresh: bool,
) -> Result<(), DiskFault>
    requires may { IsTrue (H.tells Role.Work) → (stored : ℕ → Option Stored) × (pending : List ℕ) ×
        IsStoredAt H.Host disk.old.host.now disk.old.rest stored pending × MayDrop fresh stored pending name }
    ensures dropped { IsTrue (H.tells Role.Work) → (stored : ℕ → Option Stored) (pending : List ℕ) →
        IsStoredAt H.Host disk.old.host.now disk.old.rest stored pending → MayDrop fresh stored pending name →
        OnOk result (IsStoredAt H.Host disk.new.host.now disk.new.rest (put stored name None) pending) }
    ensures held { OnOk result (disk_held disk.new.rest ≤ disk_held disk.old.rest) }
    ensures disk { StaysOnWork H.Host disk.old disk.new }
    ensures fault { IfErr result (IsReadFault (H.tells Role.Work) (H.faults disk.old.host.now Role.Work) (H.faults disk.new.host.now Role.Work)) }
{
    if fresh {
        return Ok(());
    }
    disk.remove(name)
}

// Takes the body and the entry of an object to which nothing refers. It isn't written.
fn forget(p: &mut Parts, s: Short)
    requires parts { IsParts p.old }
    requires body { (at : ℕ) × (place_of ((core_of p.old).entries s.0).state ≡ Some at) }
    requires none { ((core_of p.old).entries s.0).refs ≡ 0 }
    ensures parts { IsParts p.new }
    ensures forgotten { IsForgotten s.0 (core_of p.old) (core_of p.new) }
    ensures spare { spare_of p.new ≡ spare_of p.old + 1 }
    ensures size { size_of p.new.segment ≡ size_of p.old.segment }
    ensures wider { free_of p.old.segment < free_of p.new.segment }
{
    // as if it had been: so it may be dropped
    set_written(p, s);
    drop_body(p, s);
    free_leaf(p, s);
}

impl<'h, H: Host> Pager<'h, H> {
    ghost use Rattle.std.specs.Prelude.{[], ◌≡◌, ◌<◌, ◌≤◌, ℕ, Some, true, IsTrue, IfOk, OnOk};
    ghost use Rattle.object_record.specs.Buffer.{HasRecord};
    ghost use Rattle.object_table.specs.Entries.{is_short, place_of};
    ghost use Rattle.object_table.specs.Table.{bound_of};
    ghost use Rattle.core_segment.specs.Segment.{free_of};
    ghost use Rattle.disk_objects.specs.Disk.{disk_held};
    ghost use Rattle.core_view.specs.Levels.{Levels};
    ghost use Rattle.core_view.specs.Counted.{IsSound};
    ghost use Rattle.delta_counts.specs.Effects.{HasSound, StandsFor};
    ghost use Rattle.purger.specs.Alone.{AreFields, NoneIsZero};
    ghost use Rattle.purger.specs.Draining.{IsDeadBy, NotDeadAt};
    ghost use Rattle.purger.specs.Freeing.{FreesDead, HasTold, KeepsAll};
    ghost use Rattle.purger.specs.Leaving.{FreesOne, MayGo, Reads, TakesOut};
    ghost use Rattle.purger.specs.Pager.{core_in};

    // Whether an object with a body is dead: nothing refers to its entry, it isn't known, and its count is 0.
    fn is_dead(&mut self, s: Short) -> Result<bool, DiskFault>
        requires sound { HasSound self.old.levels [] }
        requires short { is_short s.0 ≡ true }
        requires within { s.0 < bound_of self.old.levels.parts.names.table }
        ensures reads { Reads self.old self.new result }
        ensures still { self.new.out ≡ self.old.out }
        ensures body { IfOk result (λ dead. IsTrue dead → (at : ℕ) × (place_of ((core_in self.old).entries s.0).state ≡ Some at)) }
        ensures loose { IfOk result (λ dead. IsTrue dead → ((core_in self.old).entries s.0).refs ≡ 0) }
        ensures dead { IsTrue (H.tells Role.Work) → (t : Levels) → StandsFor self.old.levels t → IsSound t [] → IfOk result (λ dead. IsDeadBy dead s.0 t) }
    {
        let e = self.levels.parts.names.table.entry(s);
        if !e.place().is_some() {
            return Ok(false);
        }
        if e.refs > 0 {
            return Ok(false);
        }
        if e.name.is_known() {
            return Ok(false);
        }
        let levels = &mut self.levels;
        let count = count_behind(&mut levels.disk, e.name, e.flags.fresh)?;
        Ok(comes_to_none(e.change, count))
    }

    // Takes the record, the body and the entry of a dead object. It isn't written.
    fn take_out(&mut self, s: Short) -> Result<(), DiskFault>
        requires may { MayGo s.0 self.old }
        ensures takes { TakesOut s.0 self.old self.new result }
    {
        let levels = &mut self.levels;
        let e = levels.parts.names.table.used_entry(s);
        drop_record(&mut levels.disk, e.name, e.flags.fresh)?;
        forget(&mut levels.parts, s);
        Ok(())
    }

    // Frees a dead object by its record, which is in the buffer then: what it held has a word less.
    fn free_body(&mut self, s: Short) -> Result<(), DiskFault>
        requires may { MayGo s.0 self.old }
        ensures frees { FreesOne s.0 self.old self.new result }
        ensures record { OnOk result (HasRecord self.new.out) }
    {
        self.make_record(s)?;
        self.take_out(s)?;
        self.levels.lower_words(&self.out, NOWHERE)
    }

    // Frees a dead object whose fields are these words, so of which no record is made: what it held has a word less.
    fn free_alone(&mut self, s: Short, words: &[u16]) -> Result<(), DiskFault>
        requires may { MayGo s.0 self.old }
        requires fields { AreFields (core_in self.old) s.0 words.now }
        requires whole { NoneIsZero words.now }
        ensures frees { FreesOne s.0 self.old self.new result }
        ensures still { self.new.out ≡ self.old.out }
    {
        let class = self.levels.parts.names.table.used_entry(s).class;
        self.take_out(s)?;
        self.levels.lower_shorts(class, words);
        Ok(())
    }

    // Frees a dead object. Where something may go with it, its record is in the buffer then; else that has what it had.
    fn free_gone(&mut self, s: Short) -> Result<bool, DiskFault>
        requires may { MayGo s.0 self.old }
        ensures frees { FreesOne s.0 self.old self.new result }
        ensures told { IfOk result (HasTold self.old self.new) }
    {
        let at = place_of_body(&self.levels.parts, s);
        let mut words = [0; MOST_ALONE];
        match copy_fields(&self.levels.parts, s, at, &mut words) {
            Some(count) => {
                self.free_alone(s, &words[..count])?;
                Ok(false)
            }
            None => {
                self.free_body(s)?;
                Ok(true)
            }
        }
    }

    // Frees the object of an entry, if it has a body and is dead. Where it was, and something may go with it, its record is in the buffer then; else
    // that has what it had.
    pub(crate) fn free_dead_at(&mut self, s: Short) -> Result<bool, DiskFault>
        requires sound { HasSound self.old.levels [] }
        requires short { is_short s.0 ≡ true }
        requires within { s.0 < bound_of self.old.levels.parts.names.table }
        ensures frees { FreesDead self.old self.new result }
        ensures told { IfOk result (HasTold self.old self.new) }
        ensures none { IsTrue (H.tells Role.Work) → OnOk result (free_of self.new.levels.parts.segment ≡ free_of self.old.levels.parts.segment → KeepsAll self.old self.new (NotDeadAt s.0)) }
        ensures held { OnOk result (disk_held self.new.levels.disk.rest ≤ disk_held self.old.levels.disk.rest) }
    {
        if !self.is_dead(s)? {
            return Ok(false);
        }
        self.unmark(s);
        self.free_gone(s)
    }
}
