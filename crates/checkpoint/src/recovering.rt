// The checkpoint that a vault has.
ghost use Rattle.std.specs.Prelude.{◌≡◌, ◌≤◌, ◌<◌, ◌++◌, false, None, [], length, vec_len, IsTrue, IfOk, OnOk, IfErr, IfSome};
ghost use Rattle.loom_host.specs.Bytes.{window};
ghost use Rattle.checkpoint.specs.Faults.{IsReadFault, IsRecoverFault, IsSureBad};
ghost use Rattle.checkpoint.specs.Inside.{IsGateFault};
ghost use Rattle.checkpoint.specs.Layout.{IsPoint, bad_place, found, gate_in, image_in, is_bad, later_of, point_of};
ghost use Rattle.checkpoint.specs.declared.layout.TheConstants.{MOST_LENGTH};
ghost use Rattle.checkpoint.specs.Vault.{Extends, MayLeave, Throughout, contents_of, unsynced_of};

use crate::calls::{read, sync};
use crate::fault::VaultFault;
use crate::layout::{BLOCK, GATE_BYTES, GATE_GAP, Gate, block_place};
use crate::point::Point;
use crate::vault::Vault;
use long_names::Octets;
use std::alloc::{AllocError, Global};

// The point of the gate of the serials of this parity, where it is open.
fn read_point<V: Vault>(vault: &mut V, parity: u64) -> Result<Option<Point>, VaultFault>
    requires { parity < 2 }
    ensures point { IsTrue V.tells → IfOk result (λ point. point ≡ point_of (gate_in (contents_of (V.state vault.old)) parity)) }
    ensures whole { IsTrue V.tells → OnOk result (is_bad parity (gate_in (contents_of (V.state vault.old)) parity) ≡ false) }
    ensures valid { IfOk result (λ point. IfSome point IsPoint) }
    ensures still { V.state vault.new ≡ V.state vault.old }
    ensures later { V.faults vault.old ≤ V.faults vault.new }
    ensures calm { OnOk result (V.faults vault.new ≡ V.faults vault.old) }
    ensures fault { IfErr result (IsGateFault V.tells parity (contents_of (V.state vault.old)) (V.faults vault.old) (V.faults vault.new)) }
{
    let place = GATE_GAP * parity;
    let mut bytes = [0; GATE_BYTES];
    read(vault, place, &mut bytes)?;
    let gate = Gate::new(&bytes);
    if gate.is_bad(parity) {
        return Err(VaultFault::Bad { place });
    }
    Ok(gate.point())
}

// That of the larger serial.
fn later(first: Option<Point>, second: Option<Point>) -> Option<Point>
    ensures { result ≡ later_of first second }
{
    match (first, second) {
        (Some(p), Some(q)) => Some(if p.serial < q.serial { q } else { p }),
        (Some(p), None) => Some(p),
        (None, q) => q,
    }
}

/// The checkpoint that the vault has: the point of the open gate with the larger serial, and None exactly where no gate is open. It syncs
/// first, so that what it found outlives a stop. Bad means that this gate, the first such of the two, is open and its serial is 2 ^ 62 or
/// more or of the other gate's parity, or its length is not in 36 to 2 ^ 42.
pub fn recover<V: Vault>(vault: &mut V) -> Result<Option<Point>, VaultFault>
    ensures found { IsTrue V.tells → IfOk result (λ last. last ≡ found (contents_of (V.state vault.old))) }
    ensures whole { IsTrue V.tells → OnOk result (bad_place (contents_of (V.state vault.old)) ≡ None) }
    ensures point { IfOk result (λ last. IfSome last IsPoint) }
    ensures synced { IsTrue V.tells → OnOk result (unsynced_of (V.state vault.new) ≡ []) }
    ensures bad_synced { IsTrue V.tells → IfErr result (IsSureBad (V.state vault.new)) }
    ensures contents { IsTrue V.tells → contents_of (V.state vault.new) ≡ contents_of (V.state vault.old) }
    ensures extends { IsTrue V.tells → Extends (V.state vault.old) (V.state vault.new) }
    ensures stops { IsTrue V.tells → Throughout (V.state vault.old) (V.state vault.new) (MayLeave (V.state vault.old)) }
    ensures later { V.faults vault.old ≤ V.faults vault.new }
    ensures calm { OnOk result (V.faults vault.new ≡ V.faults vault.old) }
    ensures fault { IfErr result (IsRecoverFault V.tells (contents_of (V.state vault.old)) (V.faults vault.old) (V.faults vault.new)) }
{
    sync(vault)?;
    let first = read_point(vault, 0)?;
    let second = read_point(vault, 1)?;
    Ok(later(first, second))
}

// So many bytes to read into.
fn buffer(alloc: Global, size: usize) -> Result<Vec<u8>, AllocError>
    ensures { IfOk result (λ block. vec_len block ≡ size) }
{
    vec![in alloc; 0; size]
}

// The empty list, with room for so many bytes.
fn room_for(alloc: Global, size: u64) -> Result<Octets, AllocError>
    requires { size ≤ MOST_LENGTH }
    ensures { IfOk result (λ list. list ≡ []) }
{
    let mut list = Octets::filled(alloc, 0, size as usize)?;
    list.truncate(0);
    Ok(list)
}

// Reads what stands at a place behind what was read of the image, as much as the buffer holds.
fn read_behind<V: Vault>(
    vault: &mut V,
    place: u64,
    block: &mut [u8],
    image: &mut Octets,
) -> Result<(), VaultFault>
    ensures image { IsTrue V.tells → OnOk result (image.new ≡ image.old ++ window (contents_of (V.state vault.old)) place (length block.old)) }
    ensures still { V.state vault.new ≡ V.state vault.old }
    ensures later { V.faults vault.old ≤ V.faults vault.new }
    ensures calm { OnOk result (V.faults vault.new ≡ V.faults vault.old) }
    ensures fault { IfErr result (IsReadFault (V.faults vault.old) (V.faults vault.new)) }
{
    read(vault, place, block)?;
    image.extend(block)?;
    Ok(())
}

/// The image of a point that `recover` just gave, whole; or as many of its first bytes as a point of this serial with a smaller length says. It
/// takes room for all before it reads the first block: a length that memory can't hold is want of memory at once. It answers no Bad and no Disk,
/// and Memory only where no call on the vault failed.
pub fn read_image<V: Vault>(
    alloc: Global,
    vault: &mut V,
    point: Point,
) -> Result<Octets, VaultFault>
    requires point { IsPoint point }
    ensures image { IsTrue V.tells → IfOk result (λ image. image ≡ image_in (contents_of (V.state vault.old)) point) }
    ensures still { V.state vault.new ≡ V.state vault.old }
    ensures later { V.faults vault.old ≤ V.faults vault.new }
    ensures calm { OnOk result (V.faults vault.new ≡ V.faults vault.old) }
    ensures fault { IfErr result (IsReadFault (V.faults vault.old) (V.faults vault.new)) }
{
    let parity = point.serial % 2;
    let mut image = room_for(alloc, point.len)?;
    let mut block = buffer(alloc, BLOCK)?;
    let blocks = (point.len + BLOCK as u64 - 1) / BLOCK as u64;
    for b in 0..blocks {
        let size = (point.len - b * BLOCK as u64).min(BLOCK as u64) as usize;
        read_behind(
            vault,
            block_place(parity, b),
            &mut block[..size],
            &mut image,
        )?;
    }
    Ok(image)
}
