// Dead names that wait on disk are freed, one at a time.
ghost use Rattle.std.specs.Prelude.{◌≡◌, ◌+◌, ℕ, [], false, IsTrue, OnOk, IfOk, IfErr};
ghost use Rattle.loom_host.specs.declared.outside.Role.{Role};
ghost use Rattle.object_record.specs.Buffer.{HasRecord};
ghost use Rattle.core_segment.specs.Chunks.{Chunk};
ghost use Rattle.loom_host.specs.Work.{IsWorkOnly};
ghost use Rattle.disk_objects.specs.Disk.{disk_room, disk_held};
ghost use Rattle.core_view.specs.Levels.{Levels};
ghost use Rattle.core_view.specs.Counted.{IsSound};
ghost use Rattle.delta_counts.specs.Faults.{IsFreeFault};
ghost use Rattle.delta_counts.specs.Parts.{IsNames, IsCounting};
ghost use Rattle.delta_counts.specs.At.{IsAt, AtSome, IsSoundWith, MayGo, IsFreedAt, Drains};

use crate::words::lower_words;
use disk_objects::DiskObjects;
use long_names::Name;
use loom_host::{DiskFault, Host, Role};
use object_record::RecordBuf;
use resident_table::Parts2;

// Removes the record of a dead name that has no entry and isn't pending any more, and lowers the counts of what it held.
fn free<H: Host>(
    p: &mut Parts2,
    disk: &mut DiskObjects<'_, H>,
    buf: &mut RecordBuf,
    name: Name,
) -> Result<(), DiskFault>
    requires names { IsNames p.old }
    requires may { AtSome H.Host p.old disk.old.host.now disk.old.rest (MayGo name) }
    ensures freed { IsTrue (H.tells Role.Work) → (chunks : ℕ → Chunk) (now : Levels) →
        IsAt H.Host chunks p.old disk.old.host.now disk.old.rest now → (may : MayGo name now) →
        OnOk result (IsFreedAt H.Host chunks p.new disk.new.host.now disk.new.rest may.levels name) }
    ensures counting { IsCounting p.old p.new }
    ensures held { OnOk result (disk_held disk.new.rest + 1 ≡ disk_held disk.old.rest) }
    ensures record { OnOk result (HasRecord buf.new) }
    ensures room { disk_room disk.new.rest ≡ disk_room disk.old.rest }
    ensures work { IsWorkOnly H.Host disk.old.host.now disk.new.host.now }
    ensures same_host { disk.new.host.ghost_name ≡ disk.old.host.ghost_name }
    ensures fault { IfErr result (IsFreeFault (H.tells Role.Work) (H.faults disk.old.host.now Role.Work) (H.faults disk.new.host.now Role.Work) disk.old.rest) }
{
    let place = disk.get_held(name, buf)?;
    disk.remove(name)?;
    lower_words(p, disk, buf, place)
}

/// Frees the first dead name that is pending, whose record is in the buffer then, and lowers the counts of what it held. False exactly where
/// none is pending.
pub fn drain_pending<H: Host>(
    p: &mut Parts2,
    disk: &mut DiskObjects<'_, H>,
    buf: &mut RecordBuf,
) -> Result<bool, DiskFault>
    requires names { IsNames p.old }
    requires sound { AtSome H.Host p.old disk.old.host.now disk.old.rest (IsSoundWith []) }
    ensures drained { IsTrue (H.tells Role.Work) → (chunks : ℕ → Chunk) (t : Levels) →
        IsAt H.Host chunks p.old disk.old.host.now disk.old.rest t → IsSound t [] →
        IfOk result (Drains H.Host chunks p.new disk.new.host.now disk.new.rest t) }
    ensures counting { IsCounting p.old p.new }
    ensures held { IfOk result (λ found. IsTrue found → disk_held disk.new.rest + 1 ≡ disk_held disk.old.rest) }
    ensures record { IfOk result (λ found. IsTrue found → HasRecord buf.new) }
    ensures held_still { IfOk result (λ found. found ≡ false → disk_held disk.new.rest ≡ disk_held disk.old.rest) }
    ensures room { disk_room disk.new.rest ≡ disk_room disk.old.rest }
    ensures work { IsWorkOnly H.Host disk.old.host.now disk.new.host.now }
    ensures same_host { disk.new.host.ghost_name ≡ disk.old.host.ghost_name }
    ensures fault { IfErr result (IsFreeFault (H.tells Role.Work) (H.faults disk.old.host.now Role.Work) (H.faults disk.new.host.now Role.Work) disk.old.rest) }
{
    let Some(name) = disk.take_pending()? else {
        return Ok(false);
    };
    free(p, disk, buf, name)?;
    Ok(true)
}
