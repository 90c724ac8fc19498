// The core and the disk as one struct: changes of counts that join the disk, words that are lowered, and leaves and dead names that go.
//
// What the parts keep is a fact of the type, so it holds also behind a fault. That the two stand for sound levels is a condition and a promise,
// since it is lost where Work fails or lies.
ghost use Rattle.leaf_lambda.specs.Whole.{IsWhole, IsWhole-prop};

use crate::folding::fold;
use crate::freeing::drain_pending;
use crate::giving::{give_up, is_idle};
use crate::shorts::{lower_short, lower_shorts};
use crate::words::lower_words;
use disk_objects::DiskObjects;
use leaf_lambda::Parts;
use loom_host::{DiskFault, Host, Role};
use object_record::RecordBuf;
use object_table::Short;

/// A core of parts over a disk.
#[derive(Drop)]
pub struct TwoLevels<'h, H: Host> {
    pub disk: DiskObjects<'h, H>,
    pub parts: Parts,
    ghost whole: { IsWhole parts } by { IsWhole-prop parts },
}

impl<'h, H: Host> TwoLevels<'h, H> {
    ghost use Rattle.std.specs.Prelude.{◌≡◌, ◌<◌, ◌≤◌, ◌+◌, ◌-◌, [], ◌∷◌, true, false, pos, None, map, IsTrue, IfOk, IfErr, OnOk};
    ghost use Rattle.object_table.specs.Entries.{free_entry, is_short, is_used, place_of};
    ghost use Rattle.object_table.specs.Table.{bound_of, entries_of, entry_at};
    ghost use Rattle.delta_counts.specs.Parts.{IsCounting};
    ghost use Rattle.delta_counts.specs.Giving.{IsIdleEntry, NoneIdleBelow};
    ghost use Rattle.delta_counts.specs.Effects.{Counts, Frees, HasSound, Keeps, Leaves, Same, StandsFor};
    ghost use Rattle.delta_counts.specs.At.{Drains, DrainsOne};
    ghost use Rattle.delta_counts.specs.Shorts.{AreAtHand, short_value};
    ghost use Rattle.delta_counts.specs.Faults.{AreValues, IsWordsFault};
    ghost use Rattle.core_view.specs.Counted.{IsSound, words_of};
    ghost use Rattle.core_view.specs.Levels.{Levels};
    ghost use Rattle.core_segment.specs.Segment.{chunk_at};
    ghost use Rattle.disk_objects.specs.Disk.{disk_held};
    ghost use Rattle.object_record.specs.Raw.{longs_of};
    ghost use Rattle.object_record.specs.Buffer.{HasRecord, raw_of};
    ghost use Rattle.object_record.specs.Objects.{value_in, object_in};

    /// The change of a leaf joins its count on disk, which is answered.
    pub fn fold(&mut self, s: Short) -> Result<u64, DiskFault>
        requires sound { HasSound self.old [] }
        requires used { is_used (entry_at self.old.parts.names.table s.0).state ≡ true }
        requires leaf { place_of (entry_at self.old.parts.names.table s.0).state ≡ None }
        ensures counts { Counts Same [] [] self.old self.new result }
        ensures counting { IsCounting self.old.parts.names self.new.parts.names }
        ensures none { IsTrue (H.tells Role.Work) → OnOk result ((entry_at self.new.parts.names.table s.0).change ≡ pos 0) }
    {
        fold(&mut self.parts.names, &mut self.disk, s)
    }

    /// Gives up the entry, if it is that of an idle leaf: its change is folded, and where its count is 0 then and it isn't known, its name is
    /// pending.
    pub fn give_idle_at(&mut self, s: Short) -> Result<(), DiskFault>
        requires sound { HasSound self.old [] }
        requires short { is_short s.0 ≡ true }
        requires within { s.0 < bound_of self.old.parts.names.table }
        ensures counts { Counts Same [] [] self.old self.new result }
        ensures gone { OnOk result (IsIdleEntry (entry_at self.new.parts.names.table s.0) → ⊥) }
        ensures freed { IsIdleEntry (entry_at self.old.parts.names.table s.0) → OnOk result (entry_at self.new.parts.names.table s.0 ≡ free_entry) }
    {
        if is_idle(&self.parts.names, s) {
            return give_up(&mut self.parts.names, &mut self.disk, s);
        }
        Ok(())
    }

    /// The change of a leaf joins its count on disk, unless there is none; and its entry goes where nothing refers to it.
    pub fn fold_leaf(&mut self, s: Short) -> Result<(), DiskFault>
        requires sound { HasSound self.old [] }
        requires used { is_used (entry_at self.old.parts.names.table s.0).state ≡ true }
        requires leaf { place_of (entry_at self.old.parts.names.table s.0).state ≡ None }
        ensures counts { Counts Same [] [] self.old self.new result }
        ensures none { OnOk result (is_used (entry_at self.new.parts.names.table s.0).state ≡ true → 1 ≤ (entry_at self.new.parts.names.table s.0).refs) }
        ensures folded { IsTrue (H.tells Role.Work) → OnOk result ((entry_at self.new.parts.names.table s.0).change ≡ pos 0) }
    {
        let e = self.parts.names.table.used_entry(s);
        if e.refs == 0 {
            return self.give_idle_at(s);
        }
        if e.change == 0 {
            return Ok(());
        }
        self.fold(s)?;
        Ok(())
    }

    /// Gives up the entries of all idle leaves.
    pub fn give_idle(&mut self) -> Result<(), DiskFault>
        requires sound { HasSound self.old [] }
        ensures counts { Counts Same [] [] self.old self.new result }
        ensures none { OnOk result (NoneIdleBelow (entries_of self.old.parts.names.table) self.new.parts.names) }
    {
        let count = self.parts.names.table.used_end();
        for k in 0..count {
            self.give_idle_at(Short(2 * (k + 1)))?;
        }
        Ok(())
    }

    /// One word less for the class and for each name among the fields of the record. Damage in a field is told with this place and the
    /// record's name.
    pub fn lower_words(&mut self, buf: &RecordBuf, place: u64) -> Result<(), DiskFault>
        requires record { HasRecord buf.now }
        requires values { IsTrue (H.tells Role.Work) → AreValues (map value_in (longs_of (raw_of buf.now).body)) }
        requires sound { HasSound self.old (words_of (object_in (raw_of buf.now))) }
        ensures leaves { Leaves Same self.old self.new }
        ensures keeps { OnOk result (Keeps Same (words_of (object_in (raw_of buf.now))) [] self.old self.new) }
        ensures fault { IfErr result (IsWordsFault (H.tells Role.Work) (H.faults self.old.disk.host.now Role.Work) (H.faults self.new.disk.host.now Role.Work)
            self.old.disk.rest (words_of (object_in (raw_of buf.now))) place (raw_of buf.now).name) }
    {
        lower_words(&mut self.parts.names, &mut self.disk, buf, place)
    }

    /// One word less for the class and for each of these short words, none of which is a lambda.
    pub fn lower_shorts(&mut self, class: Short, words: &[u16])
        requires hand { AreAtHand self.old.parts.names (class.0 ∷ words.now) }
        ensures leaves { Leaves Same self.old self.new }
        ensures keeps { Keeps Same (map (short_value (entry_at self.old.parts.names.table)) (class.0 ∷ words.now)) [] self.old self.new }
    {
        lower_short(&mut self.parts.names, class.0);
        lower_shorts(&mut self.parts.names, words);
    }

    /// Frees the first dead name that is pending, whose record is in the buffer then, and lowers the counts of what it held. False exactly where
    /// none is pending.
    pub fn drain_pending(&mut self, buf: &mut RecordBuf) -> Result<bool, DiskFault>
        requires sound { HasSound self.old [] }
        ensures frees { Frees self.old self.new result }
        ensures drained { IsTrue (H.tells Role.Work) → (t : Levels) → StandsFor self.old t → IsSound t [] →
            IfOk result (Drains H.Host (chunk_at self.new.parts.segment) self.new.parts.names self.new.disk.host.now self.new.disk.rest t) }
        ensures counting { IsCounting self.old.parts.names self.new.parts.names }
        ensures held { IfOk result (λ found. IsTrue found → disk_held self.new.disk.rest + 1 ≡ disk_held self.old.disk.rest) }
        ensures still { IfOk result (λ found. found ≡ false → disk_held self.new.disk.rest ≡ disk_held self.old.disk.rest) }
        ensures record { IfOk result (λ found. IsTrue found → HasRecord buf.new) }
    {
        drain_pending(&mut self.parts.names, &mut self.disk, buf)
    }

    /// Frees one dead name that has no body in core, and lowers the counts of what it held. False exactly where there is none. Where none is
    /// pending, the entries of idle leaves are given up first.
    pub fn drain_one(&mut self, buf: &mut RecordBuf) -> Result<bool, DiskFault>
        requires sound { HasSound self.old [] }
        ensures frees { Frees self.old self.new result }
        ensures drained { IsTrue (H.tells Role.Work) → (t : Levels) → StandsFor self.old t → IsSound t [] →
            IfOk result (DrainsOne H.Host (chunk_at self.new.parts.segment) self.new.parts.names self.new.disk.host.now self.new.disk.rest t) }
        ensures held { IfOk result (λ found. IsTrue found → disk_held self.new.disk.rest + 1 ≡ disk_held self.old.disk.rest) }
    {
        if self.drain_pending(buf)? {
            return Ok(true);
        }
        self.give_idle()?;
        self.drain_pending(buf)
    }
}
