// Counts on disk.
ghost use Rattle.std.specs.Prelude.{◌≡◌, ℕ, List, Option, ◌-◌, IsTrue, OnOk, IfErr, option_map};
ghost use Rattle.loom_host.specs.declared.outside.Role.{Role};
ghost use Rattle.object_table.specs.Entries.{put};
ghost use Rattle.loom_host.specs.Work.{IsWorkOnly};
ghost use Rattle.disk_objects.specs.Calls.{IsFault};
ghost use Rattle.disk_objects.specs.Places.{IsSlotPlace};
ghost use Rattle.disk_objects.specs.Disk.{disk_room, disk_held};
ghost use Rattle.core_view.specs.Levels.{Stored, count_in};
ghost use Rattle.core_view.specs.LevelSteps.{recounted, joined};
ghost use Rattle.core_view.specs.Dead.{HasCount};
ghost use Rattle.delta_counts.specs.At.{IsStoredAt};

use disk_objects::DiskObjects;
use long_names::Name;
use loom_host::{DiskFault, Host, Role};

// One less of the count of a name on disk, which has no entry. Where it falls to 0 and the name isn't known, it is pending then.
pub(crate) fn lower_stored<H: Host>(
    disk: &mut DiskObjects<'_, H>,
    name: Name,
) -> Result<(), DiskFault>
    requires can { IsTrue (H.tells Role.Work) → (stored : ℕ → Option Stored) × (pending : List ℕ) ×
        IsStoredAt H.Host disk.old.host.now disk.old.rest stored pending × HasCount stored pending name }
    ensures lowered { IsTrue (H.tells Role.Work) → (stored : ℕ → Option Stored) (pending : List ℕ) →
        IsStoredAt H.Host disk.old.host.now disk.old.rest stored pending → HasCount stored pending name →
        OnOk result (IsStoredAt H.Host disk.new.host.now disk.new.rest
        (put stored name (option_map (recounted (count_in (stored name) - 1)) (stored name)))
        (joined None (option_map (recounted (count_in (stored name) - 1)) (stored name)) name pending)) }
    ensures held { disk_held disk.new.rest ≡ disk_held disk.old.rest }
    ensures room { disk_room disk.new.rest ≡ disk_room disk.old.rest }
    ensures work { IsWorkOnly H.Host disk.old.host.now disk.new.host.now }
    ensures same_host { disk.new.host.ghost_name ≡ disk.old.host.ghost_name }
    ensures fault { IfErr result (IsFault (H.tells Role.Work) (H.faults disk.old.host.now Role.Work) (H.faults disk.new.host.now Role.Work) (IsSlotPlace disk.old.rest) name) }
{
    let count = disk.add_count(name, -1)?;
    if count > 0 {
        return Ok(());
    }
    if name.is_known() {
        return Ok(());
    }
    disk.put_pending(name)
}
