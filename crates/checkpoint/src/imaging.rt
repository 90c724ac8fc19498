// The image of a disk's objects, put into an area of a vault.
ghost use Rattle.std.specs.Prelude.{◌≡◌, ◌≤◌, ◌+◌, ◌*◌, ◌-◌, ◌^◌, ◌++◌, length, IsTrue, IfOk, IfErr, OnOk, All};
ghost use Rattle.std.specs.List.{flat_map};
ghost use Rattle.long_names.specs.Heap.{Heap, Has};
ghost use Rattle.long_names.specs.declared.limits.TheConstants.{LONGEST_RECORD};
ghost use Rattle.object_record.specs.Buffer.{HasRecord, raw_of};
ghost use Rattle.object_record.specs.Raw.{raw_text};
ghost use Rattle.work_directory.specs.declared.limits.TheConstants.{MOST_NAMES};
ghost use Rattle.disk_objects.specs.Calls.{HoldsObjects};
ghost use Rattle.disk_objects.specs.Disk.{disk_held, with_count};
ghost use Rattle.image_format.specs.Heads.{opening_text, state_text};
ghost use Rattle.image_writer.specs.Inside.{IsHeapOf, opening_of};
ghost use Rattle.image_writer.specs.Puts.{name_text};
ghost use Rattle.loom_host.specs.Work.{IsWorkRead};
ghost use Rattle.loom_host.specs.declared.outside.DiskFault.TheVariants as disk_fault;
ghost use Rattle.loom_host.specs.declared.outside.Role.{Role};
ghost use Rattle.checkpoint.specs.Area.{IsBegun, len_of, text_of};
ghost use Rattle.checkpoint.specs.Faults.{IsFailed, IsKeepFault};
ghost use Rattle.checkpoint.specs.Layout.{area_in};
ghost use Rattle.checkpoint.specs.Sparing.{IsApart, Spares};
ghost use Rattle.checkpoint.specs.Vault.{contents_of};
ghost use Rattle.checkpoint.specs.declared.fault.VaultFault.TheVariants as fault;
ghost use Rattle.checkpoint.specs.declared.layout.TheConstants.{LEAST_LENGTH, MOST_LENGTH};

use crate::area::Area;
use crate::fault::VaultFault;
use crate::vault::Vault;
use disk_objects::DiskObjects;
use image_format::{Opening, STATE_VERSION, State, bytes_of_u64};
use long_names::{Name, NameList};
use loom_host::{DiskFault, Host};
use object_record::{COUNT_AT, KIND_AT, RecordBuf};
use work_directory::MOST_NAMES;

// Puts the head of version 2.
fn put_head<V: Vault>(
    vault: &mut V,
    area: &mut Area,
    objects: u32,
    next: u32,
    state: &State,
) -> Result<(), VaultFault>
    requires fits { len_of area.old + LEAST_LENGTH ≤ MOST_LENGTH }
    ensures text { IsTrue V.tells → OnOk result (text_of area.new (contents_of (V.state vault.new))
        ≡ text_of area.old (contents_of (V.state vault.old)) ++ (opening_text (opening_of objects next) ++ state_text state.now)) }
    ensures len { OnOk result (len_of area.new ≡ len_of area.old + LEAST_LENGTH) }
    ensures parity { area.new.parity ≡ area.old.parity }
    ensures spares { IsTrue V.tells → Spares (IsApart area.old.parity) (V.state vault.old) (V.state vault.new) }
    ensures later { V.faults vault.old ≤ V.faults vault.new }
    ensures calm { OnOk result (V.faults vault.new ≡ V.faults vault.old) }
    ensures fault { IfErr result (IsFailed (V.faults vault.old) (V.faults vault.new)) }
{
    let opening = Opening {
        version: STATE_VERSION,
        objects,
        next,
    };
    area.put(vault, &opening.bytes())?;
    area.put(vault, &state.bytes())
}

// Puts the buffer's record with this count.
fn put_counted<V: Vault>(
    vault: &mut V,
    area: &mut Area,
    buf: &RecordBuf,
    count: u64,
) -> Result<(), VaultFault>
    requires record { HasRecord buf.now }
    requires fits { len_of area.old + LONGEST_RECORD ≤ MOST_LENGTH }
    ensures text { IsTrue V.tells → OnOk result (text_of area.new (contents_of (V.state vault.new))
        ≡ text_of area.old (contents_of (V.state vault.old)) ++ raw_text (with_count (raw_of buf.now) count)) }
    ensures least { OnOk result (len_of area.old ≤ len_of area.new) }
    ensures most { OnOk result (len_of area.new ≤ len_of area.old + LONGEST_RECORD) }
    ensures parity { area.new.parity ≡ area.old.parity }
    ensures spares { IsTrue V.tells → Spares (IsApart area.old.parity) (V.state vault.old) (V.state vault.new) }
    ensures later { V.faults vault.old ≤ V.faults vault.new }
    ensures calm { OnOk result (V.faults vault.new ≡ V.faults vault.old) }
    ensures fault { IfErr result (IsFailed (V.faults vault.old) (V.faults vault.new)) }
{
    let bytes = buf.bytes();
    let (_, tail) = bytes.split_at(KIND_AT);
    area.put(vault, &bytes[..COUNT_AT])?;
    area.put(vault, &bytes_of_u64(count))?;
    area.put(vault, tail)
}

// A name that the disk told, and of which it tells no record, or that is one too many.
fn lost(name: Name) -> VaultFault
    ensures { result ≡ fault.Disk (disk_fault.Damaged (2 ^ 64 - 1) name) }
{
    VaultFault::Disk(DiskFault::Damaged {
        place: u64::MAX,
        name: name.get(),
    })
}

// Puts the record of a name with its count.
fn put_record<H: Host, V: Vault>(
    disk: &mut DiskObjects<'_, H>,
    vault: &mut V,
    area: &mut Area,
    buf: &mut RecordBuf,
    name: Name,
) -> Result<(), VaultFault>
    requires stands { HoldsObjects H.Host disk.old.host.now disk.old.rest }
    requires fits { len_of area.old + LONGEST_RECORD ≤ MOST_LENGTH }
    ensures text { (h : Heap) → (IsTrue (H.tells Role.Work) → IsHeapOf H.Host disk.old.host.now disk.old.rest h × Has h name)
        → IsTrue V.tells → IsTrue (H.tells Role.Work) →
        OnOk result (text_of area.new (contents_of (V.state vault.new)) ≡ text_of area.old (contents_of (V.state vault.old)) ++ name_text h name) }
    ensures least { OnOk result (len_of area.old ≤ len_of area.new) }
    ensures most { OnOk result (len_of area.new ≤ len_of area.old + LONGEST_RECORD) }
    ensures parity { area.new.parity ≡ area.old.parity }
    ensures spares { IsTrue V.tells → Spares (IsApart area.old.parity) (V.state vault.old) (V.state vault.new) }
    ensures read { IsWorkRead H.Host disk.old.host.now disk.new.host.now }
    ensures rest { disk.new.rest ≡ disk.old.rest }
    ensures same_host { disk.new.host.ghost_name ≡ disk.old.host.ghost_name }
    ensures later { V.faults vault.old ≤ V.faults vault.new }
    ensures calm { OnOk result (V.faults vault.new ≡ V.faults vault.old) }
    ensures fault { (h : Heap) → (IsTrue (H.tells Role.Work) → IsHeapOf H.Host disk.old.host.now disk.old.rest h × Has h name) →
        IfErr result (IsKeepFault H.Host disk.old.host.now disk.new.host.now (V.faults vault.old) (V.faults vault.new)) }
{
    let Some(count) = disk.get_counted(name, buf)? else {
        return Err(lost(name));
    };
    put_counted(vault, area, buf, count)
}

// Puts the records of these names.
fn put_records<H: Host, V: Vault>(
    disk: &mut DiskObjects<'_, H>,
    vault: &mut V,
    area: &mut Area,
    names: &NameList,
    buf: &mut RecordBuf,
) -> Result<(), VaultFault>
    requires stands { HoldsObjects H.Host disk.old.host.now disk.old.rest }
    requires fits { len_of area.old + length names.now * LONGEST_RECORD ≤ MOST_LENGTH }
    ensures text { (h : Heap) → (IsTrue (H.tells Role.Work) → IsHeapOf H.Host disk.old.host.now disk.old.rest h × All (Has h) names.now)
        → IsTrue V.tells → IsTrue (H.tells Role.Work) →
        OnOk result (text_of area.new (contents_of (V.state vault.new)) ≡ text_of area.old (contents_of (V.state vault.old)) ++ flat_map (name_text h) names.now) }
    ensures least { OnOk result (len_of area.old ≤ len_of area.new) }
    ensures parity { area.new.parity ≡ area.old.parity }
    ensures spares { IsTrue V.tells → Spares (IsApart area.old.parity) (V.state vault.old) (V.state vault.new) }
    ensures read { IsWorkRead H.Host disk.old.host.now disk.new.host.now }
    ensures rest { disk.new.rest ≡ disk.old.rest }
    ensures same_host { disk.new.host.ghost_name ≡ disk.old.host.ghost_name }
    ensures later { V.faults vault.old ≤ V.faults vault.new }
    ensures calm { OnOk result (V.faults vault.new ≡ V.faults vault.old) }
    ensures fault { (h : Heap) → (IsTrue (H.tells Role.Work) → IsHeapOf H.Host disk.old.host.now disk.old.rest h × All (Has h) names.now) →
        IfErr result (IsKeepFault H.Host disk.old.host.now disk.new.host.now (V.faults vault.old) (V.faults vault.new)) }
{
    for i in 0..names.len() {
        let name = *names.item(i);
        put_record(disk, vault, area, buf, name)?;
    }
    Ok(())
}

// Puts the head of version 2 and the records of these names into an area where nothing was put yet, and answers how long the image is. More
// names than a disk has room for are not those of a disk.
pub(crate) fn write_image<H: Host, V: Vault>(
    disk: &mut DiskObjects<'_, H>,
    vault: &mut V,
    area: &mut Area,
    next: u32,
    kept: &State,
    names: &NameList,
    buf: &mut RecordBuf,
) -> Result<u64, VaultFault>
    requires stands { HoldsObjects H.Host disk.old.host.now disk.old.rest }
    requires begun { IsBegun area.old }
    requires few { IsTrue (H.tells Role.Work) → length names.now ≤ MOST_NAMES }
    ensures text { (h : Heap) → (IsTrue (H.tells Role.Work) → IsHeapOf H.Host disk.old.host.now disk.old.rest h × All (Has h) names.now)
        → IsTrue V.tells → IsTrue (H.tells Role.Work) →
        IfOk result (λ len. area_in (contents_of (V.state vault.new)) area.old.parity len
        ≡ (opening_text (opening_of (disk_held disk.old.rest) next) ++ state_text kept.now) ++ flat_map (name_text h) names.now) }
    ensures len { IfOk result (λ len. (LEAST_LENGTH ≤ len) × (len ≤ MOST_LENGTH)) }
    ensures parity { area.new.parity ≡ area.old.parity }
    ensures spares { IsTrue V.tells → Spares (IsApart area.old.parity) (V.state vault.old) (V.state vault.new) }
    ensures read { IsWorkRead H.Host disk.old.host.now disk.new.host.now }
    ensures rest { disk.new.rest ≡ disk.old.rest }
    ensures same_host { disk.new.host.ghost_name ≡ disk.old.host.ghost_name }
    ensures later { V.faults vault.old ≤ V.faults vault.new }
    ensures calm { OnOk result (V.faults vault.new ≡ V.faults vault.old) }
    ensures fault { (h : Heap) → (IsTrue (H.tells Role.Work) → IsHeapOf H.Host disk.old.host.now disk.old.rest h × All (Has h) names.now) →
        IfErr result (IsKeepFault H.Host disk.old.host.now disk.new.host.now (V.faults vault.old) (V.faults vault.new)) }
{
    if names.len() > MOST_NAMES as usize {
        return Err(lost(*names.item(MOST_NAMES as usize)));
    }
    put_head(vault, area, disk.len(), next, kept)?;
    put_records(disk, vault, area, names, buf)?;
    area.finish(vault)?;
    Ok(area.len())
}
