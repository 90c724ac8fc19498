// The vault is opened, once: new for a guarded run, and as it was left for a resumed one, whose image is read from it.
ghost use Rattle.std.specs.Prelude.{◌≡◌, ◌+◌, ◌*◌, ◌≤◌, ◌<◌, ◌^◌, All, IsTrue, IfErr, IfOk, None, OnErr, OnOk, Some, length};
ghost use Rattle.long_names.specs.declared.limits.TheConstants.{LONGEST_RECORD};
ghost use Rattle.image_front.specs.declared.front.TheConstants.{FRONT};
ghost use Rattle.image_front.specs.Front.{TellsOf};
ghost use Rattle.checkpoint.specs.Faults.{IsReadFault};
ghost use Rattle.checkpoint.specs.Keeping.{IsLast};
ghost use Rattle.checkpoint.specs.Layout.{IsPoint, image_in};
ghost use Rattle.checkpoint.specs.Vault.{contents_of};
ghost use Rattle.loom_guard.specs.Vaults.{IsFrom, IsKept, IsNew, IsVaultRefusal, LeavesVault, OpenedOnce, vault_meanings};
ghost use Rattle.loom_guard.specs.Ways.{Guarding, Resuming};

use checkpoint::{Point, Vault, VaultFault, fresh, read_image, recover};
use image_front::{FRONT, telling_len};
use long_names::Octets;
use loom_words::Status;
use std::alloc::Global;

// The answer where a call on the vault has just failed.
fn failed<V: Vault>(vault: &V) -> Status
    ensures { result ≡ Status.VaultFault (V.faults vault.now) }
{
    Status::VaultFault {
        count: vault.fault_count(),
    }
}

/// Opens the vault of this name, new, and closes both its gates: it has no checkpoint then, and none that it had comes back. A failure is a fault
/// of the vault.
pub(crate) fn open_fresh<V: Vault>(vault: &mut V, name: &str) -> Result<(), Status>
    ensures opened { IsTrue V.tells → OpenedOnce name.now (V.state vault.old) (V.state vault.new) }
    ensures found { IsTrue V.tells → OnOk result (IsNew (V.state vault.old) (V.state vault.new)) }
    ensures last { IsTrue V.tells → OnOk result (IsLast (V.state vault.new) None) }
    ensures later { V.faults vault.old ≤ V.faults vault.new }
    ensures calm { OnOk result (V.faults vault.new ≡ V.faults vault.old) }
    ensures left { IsTrue V.tells → OnErr result (LeavesVault Guarding (V.state vault.old) (V.state vault.new)) }
    ensures refused { IfErr result (IsVaultRefusal Guarding V.tells (vault_meanings V.Vault vault.old) (vault_meanings V.Vault vault.new)) }
{
    if vault.open_named(name, true).is_err() {
        return Err(failed(vault));
    }
    match fresh(vault) {
        Ok(()) => Ok(()),
        Err(_) => Err(failed(vault)),
    }
}

// What is read is bytes.
fn are_bytes(read: &[u8])
    ensures { All (λ b. b < 2 ^ 8) read.now }
{}

// As much of the image of a point that `recover` just gave as tells what the whole is: its first 36 bytes say how much.
fn read_telling<V: Vault>(
    alloc: Global,
    vault: &mut V,
    point: Point,
    room: u32,
) -> Result<Octets, VaultFault>
    requires point { IsPoint point }
    ensures tells { IsTrue V.tells → IfOk result (λ image. TellsOf room image (image_in (contents_of (V.state vault.old)) point)) }
    ensures most { IsTrue V.tells → IfOk result (λ image. length image ≤ LONGEST_RECORD * room + (FRONT + 4)) }
    ensures still { V.state vault.new ≡ V.state vault.old }
    ensures later { V.faults vault.old ≤ V.faults vault.new }
    ensures calm { OnOk result (V.faults vault.new ≡ V.faults vault.old) }
    ensures fault { IfErr result (IsReadFault (V.faults vault.old) (V.faults vault.new)) }
{
    let serial = point.serial;
    let front = read_image(alloc, vault, Point { serial, len: FRONT })?;
    are_bytes(front.bytes());
    let len = telling_len(front.bytes(), room, point.len);
    if len == FRONT {
        return Ok(front);
    }
    let image = read_image(alloc, vault, Point { serial, len })?;
    are_bytes(image.bytes());
    Ok(image)
}

/// Opens the vault of this name as it was left, and gives its last checkpoint, with as much of its image as tells what the whole is to a run with
/// this room. It is refused where there is none, or a gate is bad, by a fault of the vault, or for want of memory.
pub(crate) fn open_kept<V: Vault>(
    alloc: Global,
    vault: &mut V,
    name: &str,
    room: u32,
) -> Result<(Point, Octets), Status>
    ensures opened { IsTrue V.tells → OpenedOnce name.now (V.state vault.old) (V.state vault.new) }
    ensures found { IsTrue V.tells → OnOk result (IsKept (V.state vault.old) (V.state vault.new)) }
    ensures from { IsTrue V.tells → IfOk result (λ r. IsFrom Resuming (V.state vault.old) (Some r.0)) }
    ensures last { IsTrue V.tells → IfOk result (λ r. IsLast (V.state vault.new) (Some r.0)) }
    ensures point { IfOk result (λ r. IsPoint r.0) }
    ensures image { IsTrue V.tells → IfOk result (λ r. TellsOf room r.1 (image_in (contents_of (V.state vault.old)) r.0)) }
    ensures later { V.faults vault.old ≤ V.faults vault.new }
    ensures calm { OnOk result (V.faults vault.new ≡ V.faults vault.old) }
    ensures left { IsTrue V.tells → OnErr result (LeavesVault Resuming (V.state vault.old) (V.state vault.new)) }
    ensures refused { IfErr result (IsVaultRefusal Resuming V.tells (vault_meanings V.Vault vault.old) (vault_meanings V.Vault vault.new)) }
{
    if vault.open_named(name, false).is_err() {
        return Err(failed(vault));
    }
    let point = match recover(vault) {
        Ok(Some(point)) => point,
        Ok(None) => return Err(Status::NoCheckpoint),
        Err(VaultFault::Bad { place }) => return Err(Status::VaultBad { place }),
        Err(_) => return Err(failed(vault)),
    };
    match read_telling(alloc, vault, point, room) {
        Ok(image) => Ok((point, image)),
        Err(VaultFault::Memory) => Err(Status::OutOfMemory),
        Err(_) => Err(failed(vault)),
    }
}
