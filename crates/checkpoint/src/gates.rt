// Closing, writing and opening a gate.
ghost use Rattle.std.specs.Prelude.{◌≡◌, ◌≢◌, ◌≤◌, ◌<◌, ◌*◌, ◌==◌, ◌%◌, [], ℕ, length, slice_index, IsTrue, OnOk, IfOk, IfErr};
ghost use Rattle.checkpoint.specs.Faults.{IsFailed};
ghost use Rattle.checkpoint.specs.Inside.{HasHead, head_of};
ghost use Rattle.checkpoint.specs.Layout.{area_in};
ghost use Rattle.checkpoint.specs.Sparing.{IsApart, IsButByte, Spares};
ghost use Rattle.checkpoint.specs.Vault.{contents_of, unsynced_of};
ghost use Rattle.checkpoint.specs.declared.layout.TheConstants.{GATE_GAP};

use crate::calls::{read, sync, write};
use crate::fault::VaultFault;
use crate::layout::{GATE_GAP, SERIAL_AT};
use crate::point::Point;
use crate::vault::Vault;
use byteorder::{BigEndian, ByteOrder};

// Whether the byte of a gate is 1.
fn is_marked<V: Vault>(vault: &mut V, parity: u64) -> Result<bool, VaultFault>
    requires { parity < 2 }
    ensures byte { IsTrue V.tells → IfOk result (λ marked. marked ≡ (slice_index (contents_of (V.state vault.old)) (GATE_GAP * parity) == 1)) }
    ensures still { V.state vault.new ≡ V.state vault.old }
    ensures later { V.faults vault.old ≤ V.faults vault.new }
    ensures calm { OnOk result (V.faults vault.new ≡ V.faults vault.old) }
    ensures fault { IfErr result (IsFailed (V.faults vault.old) (V.faults vault.new)) }
{
    let mut byte = [0; 1];
    read(vault, GATE_GAP * parity, &mut byte)?;
    Ok(byte[0] == 1)
}

// Writes the byte of a gate.
fn mark<V: Vault>(vault: &mut V, parity: u64, byte: u8) -> Result<(), VaultFault>
    requires { parity < 2 }
    ensures byte { IsTrue V.tells → OnOk result (slice_index (contents_of (V.state vault.new)) (GATE_GAP * parity) ≡ byte) }
    ensures spares { IsTrue V.tells → Spares (IsButByte parity) (V.state vault.old) (V.state vault.new) }
    ensures later { V.faults vault.old ≤ V.faults vault.new }
    ensures calm { OnOk result (V.faults vault.new ≡ V.faults vault.old) }
    ensures fault { IfErr result (IsFailed (V.faults vault.old) (V.faults vault.new)) }
{
    write(vault, GATE_GAP * parity, &[byte])
}

// Sees that the byte of a gate isn't 1, and syncs. One that isn't 1 is left alone: a write that a stop breaks off could leave it 1, and what
// the gate says then may be torn.
pub(crate) fn close_gate<V: Vault>(vault: &mut V, parity: u64) -> Result<(), VaultFault>
    requires { parity < 2 }
    ensures spares { IsTrue V.tells → Spares (IsButByte parity) (V.state vault.old) (V.state vault.new) }
    ensures left { IsTrue V.tells → slice_index (contents_of (V.state vault.old)) (GATE_GAP * parity) ≢ 1 →
        Spares (λ i. Unit {0}) (V.state vault.old) (V.state vault.new) }
    ensures closed { IsTrue V.tells → OnOk result (slice_index (contents_of (V.state vault.new)) (GATE_GAP * parity) ≢ 1) }
    ensures synced { IsTrue V.tells → OnOk result (unsynced_of (V.state vault.new) ≡ []) }
    ensures later { V.faults vault.old ≤ V.faults vault.new }
    ensures calm { OnOk result (V.faults vault.new ≡ V.faults vault.old) }
    ensures fault { IfErr result (IsFailed (V.faults vault.old) (V.faults vault.new)) }
{
    if is_marked(vault, parity)? {
        mark(vault, parity, 0)?;
    }
    sync(vault)
}

// Writes 1 to the byte of a gate, and syncs.
pub(crate) fn open_gate<V: Vault>(vault: &mut V, parity: u64) -> Result<(), VaultFault>
    requires { parity < 2 }
    ensures spares { IsTrue V.tells → Spares (IsButByte parity) (V.state vault.old) (V.state vault.new) }
    ensures open { IsTrue V.tells → OnOk result (slice_index (contents_of (V.state vault.new)) (GATE_GAP * parity) ≡ 1) }
    ensures synced { IsTrue V.tells → OnOk result (unsynced_of (V.state vault.new) ≡ []) }
    ensures later { V.faults vault.old ≤ V.faults vault.new }
    ensures calm { OnOk result (V.faults vault.new ≡ V.faults vault.old) }
    ensures fault { IfErr result (IsFailed (V.faults vault.old) (V.faults vault.new)) }
{
    mark(vault, parity, 1)?;
    sync(vault)
}

// The bytes of a gate behind its first 8.
fn head(point: Point) -> [u8; 16]
    ensures { result ≡ head_of point }
{
    let mut bytes = [0; 16];
    BigEndian::write_u64(&mut bytes, point.serial);
    BigEndian::write_u64(&mut bytes[8..], point.len);
    bytes
}

// Writes serial and length to the gate of a point.
pub(crate) fn write_head<V: Vault>(vault: &mut V, point: Point) -> Result<(), VaultFault>
    ensures head { IsTrue V.tells → OnOk result (HasHead (contents_of (V.state vault.new)) (point.serial % 2) point) }
    ensures image { IsTrue V.tells → (n : ℕ) →
        area_in (contents_of (V.state vault.new)) (point.serial % 2) n ≡ area_in (contents_of (V.state vault.old)) (point.serial % 2) n }
    ensures spares { IsTrue V.tells → Spares (IsApart (point.serial % 2)) (V.state vault.old) (V.state vault.new) }
    ensures later { V.faults vault.old ≤ V.faults vault.new }
    ensures calm { OnOk result (V.faults vault.new ≡ V.faults vault.old) }
    ensures fault { IfErr result (IsFailed (V.faults vault.old) (V.faults vault.new)) }
{
    let place = GATE_GAP * (point.serial % 2) + SERIAL_AT as u64;
    write(vault, place, &head(point))
}
