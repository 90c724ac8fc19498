// A vault with no checkpoint.
ghost use Rattle.std.specs.Prelude.{◌≡◌, ◌≢◌, ◌<◌, ◌≤◌, ℕ, None, [], IsTrue, OnOk, IfErr, length, slice_index};
ghost use Rattle.checkpoint.specs.Faults.{IsFailed};
ghost use Rattle.checkpoint.specs.Layout.{found};
ghost use Rattle.checkpoint.specs.Vault.{Extends, IsEmpty, Throughout, contents_of, unsynced_of};
ghost use Rattle.checkpoint.specs.declared.layout.TheConstants.{GATE_GAP};

use crate::calls::{sync, write};
use crate::fault::VaultFault;
use crate::layout::GATE_GAP;
use crate::vault::Vault;

/// Closes both gates of a vault: writes 0 to the byte of each, and syncs. Then both stand there, and there is no checkpoint. Where the vault was empty, with
/// nothing unsynced, as a fresh opening leaves it, there is none at any moment of this.
pub fn fresh<V: Vault>(vault: &mut V) -> Result<(), VaultFault>
    ensures extends { IsTrue V.tells → Extends (V.state vault.old) (V.state vault.new) }
    ensures first { IsTrue V.tells → OnOk result (slice_index (contents_of (V.state vault.new)) 0 ≡ 0) }
    ensures second { IsTrue V.tells → OnOk result (slice_index (contents_of (V.state vault.new)) GATE_GAP ≡ 0) }
    ensures written { IsTrue V.tells → OnOk result (GATE_GAP < length (contents_of (V.state vault.new))) }
    ensures others { IsTrue V.tells → (i : ℕ) → i ≢ 0 → i ≢ GATE_GAP →
        slice_index (contents_of (V.state vault.new)) i ≡ slice_index (contents_of (V.state vault.old)) i }
    ensures none { IsTrue V.tells → OnOk result (found (contents_of (V.state vault.new)) ≡ None) }
    ensures synced { IsTrue V.tells → OnOk result (unsynced_of (V.state vault.new) ≡ []) }
    ensures stops { IsTrue V.tells → IsEmpty (V.state vault.old) → Throughout (V.state vault.old) (V.state vault.new) (λ bytes. found bytes ≡ None) }
    ensures later { V.faults vault.old ≤ V.faults vault.new }
    ensures calm { OnOk result (V.faults vault.new ≡ V.faults vault.old) }
    ensures fault { IfErr result (IsFailed (V.faults vault.old) (V.faults vault.new)) }
{
    write(vault, 0, &[0])?;
    write(vault, GATE_GAP, &[0])?;
    sync(vault)
}
