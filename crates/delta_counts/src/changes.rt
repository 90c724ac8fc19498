// The change of a count in an entry, and one word less.
ghost use Rattle.std.specs.Prelude.{◌≡◌, ◌+ℤ◌, ℕ, true, IsTrue, OnOk, IfErr};
ghost use Rattle.loom_host.specs.declared.outside.Role.{Role};
ghost use Rattle.object_table.specs.Entries.{is_used};
ghost use Rattle.object_table.specs.Table.{entry_at};
ghost use Rattle.core_segment.specs.Chunks.{Chunk};
ghost use Rattle.loom_host.specs.Work.{IsWorkOnly};
ghost use Rattle.disk_objects.specs.Calls.{IsFault};
ghost use Rattle.disk_objects.specs.Places.{IsSlotPlace};
ghost use Rattle.disk_objects.specs.Disk.{disk_room, disk_held};
ghost use Rattle.core_view.specs.Levels.{Levels};
ghost use Rattle.core_view.specs.LevelSteps.{changed_at, lowered};
ghost use Rattle.delta_counts.specs.Parts.{core_with, IsNames, IsChange, IsCounting};
ghost use Rattle.delta_counts.specs.At.{IsAt, AtSome, CanLower};

use crate::stored::lower_stored;
use disk_objects::DiskObjects;
use long_names::Name;
use loom_host::{DiskFault, Host, Role};
use object_table::Short;
use resident_table::Parts2;

// Another number for the change of an entry's count.
#[inline(always)]
pub(crate) fn set_change(p: &mut Parts2, s: Short, change: i64)
    requires names { IsNames p.old }
    requires used { is_used (entry_at p.old.table s.0).state ≡ true }
    ensures core { (chunks : ℕ → Chunk) → core_with chunks p.new ≡ changed_at (core_with chunks p.old) s.0 change }
    ensures counting { IsCounting p.old p.new }
{
    p.table.set_change(s, change);
}

/// A number more for the change of an entry's count, unless it would be no number of 64 bits.
#[inline(always)]
pub fn add_change(p: &mut Parts2, s: Short, by: i64)
    requires names { IsNames p.old }
    requires used { is_used (entry_at p.old.table s.0).state ≡ true }
    ensures changed { (chunks : ℕ → Chunk) → IsChange ((entry_at p.old.table s.0).change +ℤ by)
        → core_with chunks p.new ≡ changed_at (core_with chunks p.old) s.0 ((entry_at p.old.table s.0).change +ℤ by) }
    ensures still { (chunks : ℕ → Chunk) → (IsChange ((entry_at p.old.table s.0).change +ℤ by) → ⊥)
        → core_with chunks p.new ≡ changed_at (core_with chunks p.old) s.0 (entry_at p.old.table s.0).change }
    ensures counting { IsCounting p.old p.new }
{
    let change = p.table.used_entry(s).change;
    let new = match change.checked_add(by) {
        Some(sum) => sum,
        None => change,
    };
    set_change(p, s, new);
}

/// One word less is this name: in its entry, or where it has none on disk.
#[inline(always)]
pub fn lower<H: Host>(
    p: &mut Parts2,
    disk: &mut DiskObjects<'_, H>,
    name: Name,
) -> Result<(), DiskFault>
    requires names { IsNames p.old }
    requires can { AtSome H.Host p.old disk.old.host.now disk.old.rest (CanLower name) }
    ensures lowered { IsTrue (H.tells Role.Work) → (chunks : ℕ → Chunk) (t : Levels) →
        IsAt H.Host chunks p.old disk.old.host.now disk.old.rest t → CanLower name t →
        OnOk result (IsAt H.Host chunks p.new disk.new.host.now disk.new.rest (lowered t name)) }
    ensures counting { IsCounting p.old p.new }
    ensures held { disk_held disk.new.rest ≡ disk_held disk.old.rest }
    ensures room { disk_room disk.new.rest ≡ disk_room disk.old.rest }
    ensures work { IsWorkOnly H.Host disk.old.host.now disk.new.host.now }
    ensures same_host { disk.new.host.ghost_name ≡ disk.old.host.ghost_name }
    ensures fault { IfErr result (IsFault (H.tells Role.Work) (H.faults disk.old.host.now Role.Work) (H.faults disk.new.host.now Role.Work) (IsSlotPlace disk.old.rest) name) }
{
    match p.resident.find(name) {
        Some(s) => {
            add_change(p, s, -1);
            Ok(())
        }
        None => lower_stored(disk, name),
    }
}
