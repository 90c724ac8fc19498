// The record of one object: it is read, and written.
ghost use Rattle.std.specs.Prelude.{◌≡◌, ◌<◌, ℕ, List, Option, Some, true, false, IsTrue, IfOk, IfErr, OnOk, is_some, if◌then◌else◌};
ghost use Rattle.loom_host.specs.Work.{IsWorkRead};
ghost use Rattle.object_record.specs.Buffer.{raw_of, HasRecord};
ghost use Rattle.object_record.specs.Objects.{object_in};
ghost use Rattle.object_table.specs.Entries.{put, is_used, place_of};
ghost use Rattle.disk_objects.specs.Calls.{HoldsObjects};
ghost use Rattle.disk_objects.specs.Function.{disk_of, IsFetched};
ghost use Rattle.disk_objects.specs.Stays.{IsRead, StaysOnWork};
ghost use Rattle.core_view.specs.Kept.{IsBacked};
ghost use Rattle.leaf_lambda.specs.Parts.{core_of, IsParts};
ghost use Rattle.leaf_lambda.specs.Records.{IsCopy};
ghost use Rattle.core_view.specs.Levels.{Stored, count_in};
ghost use Rattle.delta_counts.specs.At.{IsStoredAt};
ghost use Rattle.purger.specs.Counts.{stored_as};
ghost use Rattle.purger.specs.Purge.{IsReadFault, IsReadDamage, IsEvictFault};

use core_segment::Addr;
use disk_objects::DiskObjects;
use disk_objects::laws::a_disk_is_its_objects;
use leaf_lambda::Parts;
use leaf_lambda::laws::own_record_is_like;
use leaf_lambda::parts::is_copy;
use long_names::Name;
use loom_host::{DiskFault, Host, Role};
use object_record::RecordBuf;
use object_table::Short;

/// The place of a damage that no byte of Work shows.
pub const NOWHERE: u64 = 18_446_744_073_709_551_615;

/// What was read of a name can't be so.
pub fn damaged(name: Name) -> DiskFault
    ensures { result ≡ DiskFault.Damaged NOWHERE name }
{
    DiskFault::Damaged {
        place: NOWHERE,
        name: name.get(),
    }
}

/// The record of a name: false exactly where it has none.
#[inline(always)]
pub fn fetch<H: Host>(
    disk: &mut DiskObjects<'_, H>,
    name: Name,
    buf: &mut RecordBuf,
) -> Result<bool, DiskFault>
    requires stands { HoldsObjects H.Host disk.old.host.now disk.old.rest }
    ensures found { IsTrue (H.tells Role.Work) → IfOk result (IsFetched buf.new (disk_of H.Host disk.old.host.now disk.old.rest name)) }
    ensures record { IfOk result (λ held. IsTrue held → HasRecord buf.new × ((raw_of buf.new).name ≡ name)) }
    ensures stands { HoldsObjects H.Host disk.new.host.now disk.new.rest }
    ensures same { disk_of H.Host disk.new.host.now disk.new.rest ≡ disk_of H.Host disk.old.host.now disk.old.rest }
    ensures rest { disk.new.rest ≡ disk.old.rest }
    ensures read { IsWorkRead H.Host disk.old.host.now disk.new.host.now }
    ensures same_host { disk.new.host.ghost_name ≡ disk.old.host.ghost_name }
    ensures fault { IfErr result (IsReadFault (H.tells Role.Work) (H.faults disk.old.host.now Role.Work) (H.faults disk.new.host.now Role.Work)) }
    ensures damage { IfErr result (IsReadDamage disk.old.rest name) }
{
    disk.get(name, buf)
}

/// Reads the record of an object with a body, and tests that it is like it. Of a fresh object, which has none, nothing is read.
pub fn read_copy<H: Host>(
    p: &Parts,
    disk: &mut DiskObjects<'_, H>,
    buf: &mut RecordBuf,
    s: Short,
    at: Addr,
) -> Result<(), DiskFault>
    requires parts { IsParts p.now }
    requires place { place_of ((core_of p.now).entries s.0).state ≡ Some at.place }
    requires stands { HoldsObjects H.Host disk.old.host.now disk.old.rest }
    requires backed { IsTrue (H.tells Role.Work) → IsBacked (core_of p.now) (disk_of H.Host disk.old.host.now disk.old.rest) }
    ensures copy { OnOk result (((core_of p.now).entries s.0).flags.fresh ≡ false → IsCopy buf.new ((core_of p.now).entries s.0) ((core_of p.now).chunks at.place).words) }
    ensures there { IsTrue (H.tells Role.Work) → OnOk result (((core_of p.now).entries s.0).flags.fresh ≡ false
        → disk_of H.Host disk.old.host.now disk.old.rest ((core_of p.now).entries s.0).name ≡ Some (object_in (raw_of buf.new))) }
    ensures stands { HoldsObjects H.Host disk.new.host.now disk.new.rest }
    ensures same { disk_of H.Host disk.new.host.now disk.new.rest ≡ disk_of H.Host disk.old.host.now disk.old.rest }
    ensures rest { disk.new.rest ≡ disk.old.rest }
    ensures read { IsWorkRead H.Host disk.old.host.now disk.new.host.now }
    ensures same_host { disk.new.host.ghost_name ≡ disk.old.host.ghost_name }
    ensures fault { IfErr result (IsReadFault (H.tells Role.Work) (H.faults disk.old.host.now Role.Work) (H.faults disk.new.host.now Role.Work)) }
    ensures damage { IfErr result (IsReadDamage disk.old.rest ((core_of p.now).entries s.0).name) }
{
    // a told record is like its object
    own_record_is_like();
    let e = p.names.table.used_entry(s);
    if e.flags.fresh {
        return Ok(());
    }
    if !fetch(disk, e.name, buf)? {
        return Err(damaged(e.name));
    }
    if is_copy(p, s, at, buf) {
        return Ok(());
    }
    Err(damaged(e.name))
}

// The count of a name on disk: 0 where it has no record.
pub(crate) fn count_of<H: Host>(disk: &mut DiskObjects<'_, H>, name: Name) -> Result<u64, DiskFault>
    requires stands { HoldsObjects H.Host disk.old.host.now disk.old.rest }
    ensures count { IsTrue (H.tells Role.Work) → (stored : ℕ → Option Stored) (pending : List ℕ) →
        IsStoredAt H.Host disk.old.host.now disk.old.rest stored pending → IfOk result (λ n. n ≡ count_in (stored name)) }
    ensures reads { IsRead H.Host disk.old disk.new }
    ensures fault { IfErr result (IsReadFault (H.tells Role.Work) (H.faults disk.old.host.now Role.Work) (H.faults disk.new.host.now Role.Work)) }
{
    let Some(held) = disk.count(name)? else {
        return Ok(0);
    };
    Ok(held)
}

// Writes a record, with the count that its name has on disk, or 0 where it is the first.
pub(crate) fn store<H: Host>(
    disk: &mut DiskObjects<'_, H>,
    buf: &RecordBuf,
) -> Result<(), DiskFault>
    requires record { HasRecord buf.now }
    requires stands { HoldsObjects H.Host disk.old.host.now disk.old.rest }
    ensures stored { IsTrue (H.tells Role.Work) → (stored : ℕ → Option Stored) (pending : List ℕ) →
        IsStoredAt H.Host disk.old.host.now disk.old.rest stored pending → OnOk result (IsStoredAt H.Host disk.new.host.now disk.new.rest
        (put stored (raw_of buf.now).name (Some (stored_as (object_in (raw_of buf.now)) (count_in (stored (raw_of buf.now).name))))) pending) }
    ensures disk { StaysOnWork H.Host disk.old disk.new }
    ensures fault { IfErr result (IsEvictFault H.Host disk.old.host.now disk.new.host.now disk.old.rest (if is_some (disk_of H.Host disk.old.host.now disk.old.rest (raw_of buf.now).name) then false else true)) }
{
    // Full says that the map has no such name
    a_disk_is_its_objects();
    let own = buf.name();
    let count = count_of(disk, own)?;
    disk.put(buf, count)
}

// Whether an object is just as its record.
#[inline(always)]
pub(crate) fn is_clean(p: &Parts, s: Short) -> bool
    requires parts { IsParts p.now }
    requires used { is_used ((core_of p.now).entries s.0).state ≡ true }
    ensures clean { IsTrue result → (((core_of p.now).entries s.0).flags.fresh ≡ false) × (((core_of p.now).entries s.0).flags.changed ≡ false) }
{
    let e = p.names.table.used_entry(s);
    if e.flags.fresh {
        return false;
    }
    !e.flags.changed
}
