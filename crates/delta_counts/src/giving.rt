// Leaves to which nothing refers: their entries are given up.
ghost use Rattle.std.specs.Prelude.{◌≡◌, ◌≢◌, ◌<◌, ◌↔◌, ℕ, true, [], IsTrue, OnOk, IfErr};
ghost use Rattle.loom_host.specs.declared.outside.Role.{Role};
ghost use Rattle.object_table.specs.Entries.{is_short, free_entry};
ghost use Rattle.object_table.specs.Table.{entry_at, bound_of};
ghost use Rattle.core_segment.specs.Chunks.{Chunk};
ghost use Rattle.loom_host.specs.Work.{IsWorkOnly};
ghost use Rattle.disk_objects.specs.Calls.{IsFault};
ghost use Rattle.disk_objects.specs.Places.{IsSlotPlace};
ghost use Rattle.disk_objects.specs.Disk.{disk_room, disk_held};
ghost use Rattle.core_view.specs.Levels.{Levels};
ghost use Rattle.core_view.specs.Counted.{IsSound};
ghost use Rattle.core_view.specs.LevelSteps.{with_change};
ghost use Rattle.delta_counts.specs.Parts.{IsNames};
ghost use Rattle.delta_counts.specs.At.{IsAt, AtSome, IsReached, IsSoundWith};
ghost use Rattle.delta_counts.specs.Giving.{IsIdleEntry, IsGiving};

use crate::folding::fold;
use disk_objects::DiskObjects;
use loom_host::{DiskFault, Host, Role};
use object_table::Short;
use resident_table::Parts2;

// Whether an entry is a leaf to which nothing refers.
#[inline(always)]
pub(crate) fn is_idle(p: &Parts2, s: Short) -> bool
    requires short { is_short s.0 ≡ true }
    requires within { s.0 < bound_of p.now.table }
    ensures { IsTrue result ↔ IsIdleEntry (entry_at p.now.table s.0) }
{
    let e = p.table.entry(s);
    if !e.is_used() {
        return false;
    }
    if e.place().is_some() {
        return false;
    }
    e.refs == 0
}

/// Gives up the entry of a leaf to which nothing refers: its change is folded, and where its count is 0 then and it isn't known, its name
/// is pending.
pub fn give_up<H: Host>(
    p: &mut Parts2,
    disk: &mut DiskObjects<'_, H>,
    s: Short,
) -> Result<(), DiskFault>
    requires names { IsNames p.old }
    requires idle { IsIdleEntry (entry_at p.old.table s.0) }
    requires sound { AtSome H.Host p.old disk.old.host.now disk.old.rest (IsSoundWith []) }
    ensures given { IsTrue (H.tells Role.Work) → (chunks : ℕ → Chunk) (t : Levels) →
        IsAt H.Host chunks p.old disk.old.host.now disk.old.rest t → IsSound t [] →
        OnOk result (IsReached H.Host chunks p.new disk.new.host.now disk.new.rest t []) }
    ensures giving { IsGiving p.old p.new }
    ensures others { (q : ℕ) → q ≢ s.0 → entry_at p.new.table q ≡ with_change (entry_at p.old.table q) (entry_at p.new.table q).change }
    ensures gone { OnOk result (entry_at p.new.table s.0 ≡ free_entry) }
    ensures held { disk_held disk.new.rest ≡ disk_held disk.old.rest }
    ensures room { disk_room disk.new.rest ≡ disk_room disk.old.rest }
    ensures work { IsWorkOnly H.Host disk.old.host.now disk.new.host.now }
    ensures same_host { disk.new.host.ghost_name ≡ disk.old.host.ghost_name }
    ensures fault { IfErr result (IsFault (H.tells Role.Work) (H.faults disk.old.host.now Role.Work) (H.faults disk.new.host.now Role.Work) (IsSlotPlace disk.old.rest) (entry_at p.old.table s.0).name) }
{
    let name = p.table.used_entry(s).name;
    let count = fold(p, disk, s)?;
    p.resident.remove(name);
    p.table.give(s);
    if count > 0 {
        return Ok(());
    }
    if name.is_known() {
        return Ok(());
    }
    disk.put_pending(name)
}
