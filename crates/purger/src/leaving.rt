//! One object of a pager leaves the core: it is written back where it differs from its record, and then its body goes.
use crate::eviction::{is_clean, read_copy, store};
use crate::marks::unmark_for;
use crate::pager::Pager;
use leaf_lambda::leaving::{drop_body, set_written};
use leaf_lambda::merge_out;
use leaf_lambda::steps::place_of_body;
use loom_host::{DiskFault, Host, Role};
use object_table::Short;

impl<'h, H: Host> Pager<'h, H> {
    ghost use Rattle.std.specs.Prelude.{[], ◌≡◌, ◌<◌, ℕ, Some, None, true, false, IsTrue, OnOk};
    ghost use Rattle.object_record.specs.Buffer.{raw_of, HasRecord};
    ghost use Rattle.object_record.specs.Objects.{object_in};
    ghost use Rattle.object_table.specs.Entries.{is_used, place_of};
    ghost use Rattle.core_segment.specs.Segment.{free_of};
    ghost use Rattle.core_view.specs.Core.{with_entry};
    ghost use Rattle.core_view.specs.Held.{object_at};
    ghost use Rattle.core_view.specs.Room.{is_among};
    ghost use Rattle.core_view.specs.Steps.{written};
    ghost use Rattle.core_view.specs.Levels.{Levels, records_of};
    ghost use Rattle.core_view.specs.Counted.{IsSound};
    ghost use Rattle.delta_counts.specs.Effects.{HasSound, StandsFor};
    ghost use Rattle.purger.specs.Leaving.{Evicts, Reads, Unmarks};
    ghost use Rattle.purger.specs.Marks.{KeepsMarks};
    ghost use Rattle.purger.specs.Pager.{core_in, HasLeft, IsReady, Purges};
    ghost use Rattle.purger.specs.Rounds.{KeepsAllBut};

    // All marks go where this object has one.
    pub(crate) fn unmark(&mut self, s: Short)
        requires used { is_used ((core_in self.old).entries s.0).state ≡ true }
        ensures unmarks { Unmarks s.0 self.old self.new }
    {
        let levels = &mut self.levels;
        unmark_for(&mut levels.parts, s);
    }

    // Makes the record of an object with a body, with its lambdas as the old record has them.
    pub(crate) fn make_record(&mut self, s: Short) -> Result<(), DiskFault>
        requires sound { HasSound self.old.levels [] }
        requires body { (at : ℕ) × (place_of ((core_in self.old).entries s.0).state ≡ Some at) }
        ensures reads { Reads self.old self.new result }
        ensures record { OnOk result (HasRecord self.new.out × ((raw_of self.new.out).name ≡ ((core_in self.old).entries s.0).name)) }
        ensures object { IsTrue (H.tells Role.Work) → (t : Levels) (at : ℕ) → StandsFor self.new.levels t → IsSound t [] → place_of ((core_in self.old).entries s.0).state ≡ Some at
            → OnOk result (object_in (raw_of self.new.out) ≡ object_at (core_in self.old) (records_of t) ((core_in self.old).entries s.0) at) }
    {
        let levels = &mut self.levels;
        let at = place_of_body(&levels.parts, s);
        read_copy(&levels.parts, &mut levels.disk, &mut self.out, s, at)?;
        merge_out(&mut levels.parts, s, &mut self.out);
        Ok(())
    }

    // Writes the object of a body over its record, which keeps its count, or as a new one, whose count is 0.
    fn write_back(&mut self, s: Short) -> Result<(), DiskFault>
        requires ready { IsReady self.old }
        requires body { (at : ℕ) × (place_of ((core_in self.old).entries s.0).state ≡ Some at) }
        ensures evicts { Evicts s.0 self.old self.new result }
        ensures core { OnOk result (core_in self.new ≡ with_entry (core_in self.old) s.0 (written ((core_in self.old).entries s.0))) }
        ensures segment { self.new.levels.parts.segment ≡ self.old.levels.parts.segment }
    {
        self.make_record(s)?;
        let levels = &mut self.levels;
        store(&mut levels.disk, &self.out)?;
        set_written(&mut levels.parts, s);
        Ok(())
    }

    // Writes an object back unless it is just as its record.
    fn clean(&mut self, s: Short) -> Result<(), DiskFault>
        requires ready { IsReady self.old }
        requires body { (at : ℕ) × (place_of ((core_in self.old).entries s.0).state ≡ Some at) }
        ensures evicts { Evicts s.0 self.old self.new result }
        ensures clean { OnOk result ((((core_in self.new).entries s.0).flags.fresh ≡ false) × (((core_in self.new).entries s.0).flags.changed ≡ false)) }
        ensures body { OnOk result (place_of ((core_in self.new).entries s.0).state ≡ place_of ((core_in self.old).entries s.0).state) }
        ensures mark { OnOk result (((core_in self.new).entries s.0).flags.marked ≡ ((core_in self.old).entries s.0).flags.marked) }
        ensures segment { self.new.levels.parts.segment ≡ self.old.levels.parts.segment }
    {
        if is_clean(&self.levels.parts, s) {
            return Ok(());
        }
        self.write_back(s)
    }

    // Evicts an object that isn't marked.
    fn put_away(&mut self, s: Short) -> Result<(), DiskFault>
        requires ready { IsReady self.old }
        requires body { (at : ℕ) × (place_of ((core_in self.old).entries s.0).state ≡ Some at) }
        requires unmarked { ((core_in self.old).entries s.0).flags.marked ≡ false }
        ensures evicts { Evicts s.0 self.old self.new result }
        ensures gone { OnOk result (place_of ((core_in self.new).entries s.0).state ≡ None) }
        ensures wider { OnOk result (free_of self.old.levels.parts.segment < free_of self.new.levels.parts.segment) }
    {
        self.clean(s)?;
        let levels = &mut self.levels;
        drop_body(&mut levels.parts, s);
        Ok(())
    }

    /// Evicts an object that isn't pinned: where it differs from its record or has none it is written, with its lambdas as the old record has them
    /// and with the count that its name has on disk; then its body goes, and its change joins that count. Its entry goes too where nothing refers to
    /// it. If it was marked, all marks go.
    pub fn evict(&mut self, s: Short) -> Result<(), DiskFault>
        requires ready { IsReady self.old }
        requires body { (at : ℕ) × (place_of ((core_in self.old).entries s.0).state ≡ Some at) }
        requires loose { is_among self.old.pinned.a self.old.pinned.b self.old.pinned.d s.0 ≡ false }
        ensures purges { Purges self.old self.new result }
        ensures one { KeepsAllBut s.0 (core_in self.old) (core_in self.new) }
        ensures left { OnOk result (HasLeft s.0 self.new) }
        ensures unmarked { ((core_in self.old).entries s.0).flags.marked ≡ false → KeepsMarks (core_in self.old) (core_in self.new) }
    {
        self.unmark(s);
        self.put_away(s)?;
        self.levels.fold_leaf(s)
    }
}
