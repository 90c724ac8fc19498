// Changes of counts that join the counts on disk.
ghost use Rattle.std.specs.Prelude.{◌≡◌, ℕ, true, IsTrue, IfOk, IfErr};
ghost use Rattle.loom_host.specs.declared.outside.Role.{Role};
ghost use Rattle.object_table.specs.Entries.{is_used};
ghost use Rattle.object_table.specs.Table.{entry_at};
ghost use Rattle.core_segment.specs.Chunks.{Chunk};
ghost use Rattle.loom_host.specs.Work.{IsWorkOnly};
ghost use Rattle.disk_objects.specs.Calls.{IsFault};
ghost use Rattle.disk_objects.specs.Places.{IsSlotPlace};
ghost use Rattle.disk_objects.specs.Disk.{disk_room, disk_held};
ghost use Rattle.core_view.specs.Levels.{Levels};
ghost use Rattle.delta_counts.specs.Parts.{IsNames, IsCounting};
ghost use Rattle.delta_counts.specs.At.{IsAt, AtSome, CanFold, IsFolded};

use crate::changes::set_change;
use disk_objects::DiskObjects;
use loom_host::{DiskFault, Host, Role};
use object_table::Short;
use resident_table::Parts2;

/// The change of an entry joins the count on disk, which is answered.
pub fn fold<H: Host>(
    p: &mut Parts2,
    disk: &mut DiskObjects<'_, H>,
    s: Short,
) -> Result<u64, DiskFault>
    requires names { IsNames p.old }
    requires used { is_used (entry_at p.old.table s.0).state ≡ true }
    requires can { AtSome H.Host p.old disk.old.host.now disk.old.rest (CanFold s.0) }
    ensures folded { IsTrue (H.tells Role.Work) → (chunks : ℕ → Chunk) (t : Levels) →
        IsAt H.Host chunks p.old disk.old.host.now disk.old.rest t → CanFold s.0 t →
        IfOk result (IsFolded H.Host chunks p.new disk.new.host.now disk.new.rest t s.0) }
    ensures counting { IsCounting p.old p.new }
    ensures held { disk_held disk.new.rest ≡ disk_held disk.old.rest }
    ensures room { disk_room disk.new.rest ≡ disk_room disk.old.rest }
    ensures work { IsWorkOnly H.Host disk.old.host.now disk.new.host.now }
    ensures same_host { disk.new.host.ghost_name ≡ disk.old.host.ghost_name }
    ensures fault { IfErr result (IsFault (H.tells Role.Work) (H.faults disk.old.host.now Role.Work) (H.faults disk.new.host.now Role.Work) (IsSlotPlace disk.old.rest) (entry_at p.old.table s.0).name) }
{
    let e = p.table.used_entry(s);
    let count = disk.add_count(e.name, e.change)?;
    set_change(p, s, 0);
    Ok(count)
}
