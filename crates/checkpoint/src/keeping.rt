// A checkpoint is written beside the last one.
ghost use Rattle.std.specs.Prelude.{◌≡◌, ◌+◌, ◌%◌, ◌<◌, ◌≤◌, [], IsTrue, IfOk, IfErr, OnOk, Some, length};
ghost use Rattle.disk_objects.specs.Calls.{HoldsObjects};
ghost use Rattle.disk_objects.specs.Disk.{disk_held};
ghost use Rattle.image_writer.specs.Saved.{IsExact, disk_heap, saved_text};
ghost use Rattle.long_names.specs.Heap.{Heap};
ghost use Rattle.loom_host.specs.Work.{IsWorkRead};
ghost use Rattle.loom_host.specs.declared.outside.Role.{Role};
ghost use Rattle.work_directory.specs.declared.limits.TheConstants.{MOST_NAMES};
ghost use Rattle.checkpoint.specs.Area.{IsBegun};
ghost use Rattle.checkpoint.specs.Faults.{IsKeepFault, LeavesLast};
ghost use Rattle.checkpoint.specs.Inside.{HasHead, HoldsNamed, image_text};
ghost use Rattle.checkpoint.specs.Keeping.{HasEither, IsLast, serial_of};
ghost use Rattle.checkpoint.specs.Layout.{IsPoint, image_in};
ghost use Rattle.checkpoint.specs.Sparing.{IsApart, Spares};
ghost use Rattle.checkpoint.specs.Vault.{Extends, Throughout, contents_of, unsynced_of};
ghost use Rattle.checkpoint.specs.declared.layout.TheConstants.{LEAST_LENGTH, MOST_LENGTH, SERIAL_END};

use crate::area::Area;
use crate::calls::sync;
use crate::fault::VaultFault;
use crate::gates::{close_gate, open_gate, write_head};
use crate::imaging::write_image;
use crate::point::Point;
use crate::vault::Vault;
use disk_objects::DiskObjects;
use image_format::State;
use image_writer::kept_state;
use long_names::NameList;
use loom_host::Host;
use object_record::RecordBuf;
use std::alloc::Global;

// The serial of the checkpoint after the last one.
fn next_serial(last: Option<Point>) -> u64
    requires below { serial_of last + 1 < SERIAL_END }
    ensures { result ≡ serial_of last + 1 }
{
    match last {
        Some(point) => point.serial + 1,
        None => 1,
    }
}

// Writes the image, and serial and length to the gate, and syncs. The answer is the point.
fn write_beside<H: Host, V: Vault>(
    disk: &mut DiskObjects<'_, H>,
    vault: &mut V,
    area: &mut Area,
    serial: u64,
    next: u32,
    kept: &State,
    names: &NameList,
    buf: &mut RecordBuf,
) -> Result<Point, VaultFault>
    requires stands { HoldsObjects H.Host disk.old.host.now disk.old.rest }
    requires few { IsTrue (H.tells Role.Work) → length names.now ≤ MOST_NAMES }
    requires begun { IsBegun area.old }
    requires parity { area.old.parity ≡ serial % 2 }
    ensures point { IfOk result (λ point. (point.serial ≡ serial) × (LEAST_LENGTH ≤ point.len) × (point.len ≤ MOST_LENGTH)) }
    ensures text { (h : Heap) → HoldsNamed H.Host disk.old.host.now disk.old.rest names.now h → IsTrue V.tells → IsTrue (H.tells Role.Work) →
        IfOk result (λ point. image_in (contents_of (V.state vault.new)) point ≡ image_text (disk_held disk.old.rest) next kept.now names.now h) }
    ensures head { IsTrue V.tells → IfOk result (λ point. HasHead (contents_of (V.state vault.new)) (serial % 2) point) }
    ensures synced { IsTrue V.tells → OnOk result (unsynced_of (V.state vault.new) ≡ []) }
    ensures spares { IsTrue V.tells → Spares (IsApart (serial % 2)) (V.state vault.old) (V.state vault.new) }
    ensures read { IsWorkRead H.Host disk.old.host.now disk.new.host.now }
    ensures rest { disk.new.rest ≡ disk.old.rest }
    ensures same_host { disk.new.host.ghost_name ≡ disk.old.host.ghost_name }
    ensures later { V.faults vault.old ≤ V.faults vault.new }
    ensures calm { OnOk result (V.faults vault.new ≡ V.faults vault.old) }
    ensures fault { (h : Heap) → HoldsNamed H.Host disk.old.host.now disk.old.rest names.now h →
        IfErr result (IsKeepFault H.Host disk.old.host.now disk.new.host.now (V.faults vault.old) (V.faults vault.new)) }
{
    let len = write_image(disk, vault, area, next, kept, names, buf)?;
    let point = Point { serial, len };
    write_head(vault, point)?;
    sync(vault)?;
    Ok(point)
}

// Writes the checkpoint after the last one, with its gate closed before and opened behind.
fn write_next<H: Host, V: Vault>(
    alloc: Global,
    disk: &mut DiskObjects<'_, H>,
    vault: &mut V,
    last: Option<Point>,
    next: u32,
    kept: &State,
    names: &NameList,
    buf: &mut RecordBuf,
) -> Result<Point, VaultFault>
    requires stands { HoldsObjects H.Host disk.old.host.now disk.old.rest }
    requires few { IsTrue (H.tells Role.Work) → length names.now ≤ MOST_NAMES }
    requires last { IsTrue V.tells → IsLast (V.state vault.old) last }
    requires below { serial_of last + 1 < SERIAL_END }
    ensures point { IfOk result (λ point. IsPoint point × (point.serial ≡ serial_of last + 1)) }
    ensures kept { IsTrue V.tells → IfOk result (λ point. IsLast (V.state vault.new) (Some point)) }
    ensures image { (h : Heap) → HoldsNamed H.Host disk.old.host.now disk.old.rest names.now h → IsTrue V.tells → IsTrue (H.tells Role.Work) →
        IfOk result (λ point. image_in (contents_of (V.state vault.new)) point ≡ image_text (disk_held disk.old.rest) next kept.now names.now h) }
    ensures stops { (h : Heap) → HoldsNamed H.Host disk.old.host.now disk.old.rest names.now h → IsTrue V.tells →
        Throughout (V.state vault.old) (V.state vault.new) (HasEither (contents_of (V.state vault.old)) (serial_of last + 1)
        (λ text. IsTrue (H.tells Role.Work) → text ≡ image_text (disk_held disk.old.rest) next kept.now names.now h)) }
    ensures left { IsTrue V.tells → IfErr result (LeavesLast (V.state vault.old) (V.state vault.new)) }
    ensures extends { IsTrue V.tells → Extends (V.state vault.old) (V.state vault.new) }
    ensures read { IsWorkRead H.Host disk.old.host.now disk.new.host.now }
    ensures rest { disk.new.rest ≡ disk.old.rest }
    ensures same_host { disk.new.host.ghost_name ≡ disk.old.host.ghost_name }
    ensures later { V.faults vault.old ≤ V.faults vault.new }
    ensures calm { OnOk result (V.faults vault.new ≡ V.faults vault.old) }
    ensures fault { (h : Heap) → HoldsNamed H.Host disk.old.host.now disk.old.rest names.now h →
        IfErr result (IsKeepFault H.Host disk.old.host.now disk.new.host.now (V.faults vault.old) (V.faults vault.new)) }
{
    let serial = next_serial(last);
    let parity = serial % 2;
    let mut area = Area::new(alloc, parity)?;
    close_gate(vault, parity)?;
    let point = write_beside(disk, vault, &mut area, serial, next, kept, names, buf)?;
    open_gate(vault, parity)?;
    Ok(point)
}

/// Keeps the disk's objects, the next name and this state as the checkpoint after the last one: its image, of version 2, is written into the
/// other area, and then its gate is opened. A stop at any moment of it leaves the last checkpoint or this one, whole. The answer is its point.
///
/// The condition is that the disk's counts are exact, that nothing was written to the vault since it was synced, and that `last` is what
/// `recover` would give now, with a serial below 2 ^ 62 - 1. After a refusal the vault is opened again before another use. It answers no Bad.
pub fn keep<H: Host, V: Vault>(
    alloc: Global,
    disk: &mut DiskObjects<'_, H>,
    vault: &mut V,
    last: Option<Point>,
    next: u32,
    state: &State,
) -> Result<Point, VaultFault>
    requires stands { HoldsObjects H.Host disk.old.host.now disk.old.rest }
    requires exact { IsTrue (H.tells Role.Work) → IsExact H.Host disk.old.host.now disk.old.rest next }
    requires last { IsTrue V.tells → IsLast (V.state vault.old) last }
    requires below { serial_of last + 1 < SERIAL_END }
    ensures point { IfOk result (λ point. IsPoint point × (point.serial ≡ serial_of last + 1)) }
    ensures kept { IsTrue V.tells → IfOk result (λ point. IsLast (V.state vault.new) (Some point)) }
    ensures image { IsTrue V.tells → IsTrue (H.tells Role.Work) → IfOk result (λ point.
        image_in (contents_of (V.state vault.new)) point ≡ saved_text (disk_heap H.Host disk.old.host.now disk.old.rest next) state.now) }
    ensures stops { IsTrue V.tells → Throughout (V.state vault.old) (V.state vault.new) (HasEither (contents_of (V.state vault.old)) (serial_of last + 1)
        (λ text. IsTrue (H.tells Role.Work) → text ≡ saved_text (disk_heap H.Host disk.old.host.now disk.old.rest next) state.now)) }
    ensures left { IsTrue V.tells → IfErr result (LeavesLast (V.state vault.old) (V.state vault.new)) }
    ensures extends { IsTrue V.tells → Extends (V.state vault.old) (V.state vault.new) }
    ensures read { IsWorkRead H.Host disk.old.host.now disk.new.host.now }
    ensures rest { disk.new.rest ≡ disk.old.rest }
    ensures same_host { disk.new.host.ghost_name ≡ disk.old.host.ghost_name }
    ensures later { V.faults vault.old ≤ V.faults vault.new }
    ensures calm { OnOk result (V.faults vault.new ≡ V.faults vault.old) }
    ensures fault { IfErr result (IsKeepFault H.Host disk.old.host.now disk.new.host.now (V.faults vault.old) (V.faults vault.new)) }
{
    let names = disk.names(alloc)?;
    let mut buf = RecordBuf::new(alloc)?;
    let kept = kept_state(disk, state)?;
    write_next(alloc, disk, vault, last, next, &kept, &names, &mut buf)
}
