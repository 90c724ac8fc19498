// Calls on a vault, each refused with its count of faults.
ghost use Rattle.std.specs.Prelude.{◌≡◌, ◌≤◌, length, IsTrue, OnOk, IfErr};
ghost use Rattle.loom_host.specs.Bytes.{window};
ghost use Rattle.checkpoint.specs.Faults.{IsFailed};
ghost use Rattle.checkpoint.specs.Vault.{IsSynced, IsWritten, contents_of};

use crate::fault::VaultFault;
use crate::vault::Vault;

// The fault of a call on the vault that has just failed.
fn failed<V: Vault>(vault: &V) -> VaultFault
    ensures { result ≡ VaultFault.Failed (V.faults vault.now) }
{
    VaultFault::Failed {
        count: vault.fault_count(),
    }
}

pub(crate) fn read<V: Vault>(vault: &mut V, place: u64, buf: &mut [u8]) -> Result<(), VaultFault>
    ensures bytes { IsTrue V.tells → OnOk result (buf.new ≡ window (contents_of (V.state vault.old)) place (length buf.old)) }
    ensures still { V.state vault.new ≡ V.state vault.old }
    ensures later { V.faults vault.old ≤ V.faults vault.new }
    ensures calm { OnOk result (V.faults vault.new ≡ V.faults vault.old) }
    ensures fault { IfErr result (IsFailed (V.faults vault.old) (V.faults vault.new)) }
{
    match vault.read_at(place, buf) {
        Ok(()) => Ok(()),
        Err(_) => Err(failed(vault)),
    }
}

pub(crate) fn write<V: Vault>(vault: &mut V, place: u64, bytes: &[u8]) -> Result<(), VaultFault>
    ensures written { IsTrue V.tells → IsWritten place bytes.now result (V.state vault.old) (V.state vault.new) }
    ensures later { V.faults vault.old ≤ V.faults vault.new }
    ensures calm { OnOk result (V.faults vault.new ≡ V.faults vault.old) }
    ensures fault { IfErr result (IsFailed (V.faults vault.old) (V.faults vault.new)) }
{
    match vault.write_at(place, bytes) {
        Ok(()) => Ok(()),
        Err(_) => Err(failed(vault)),
    }
}

pub(crate) fn sync<V: Vault>(vault: &mut V) -> Result<(), VaultFault>
    ensures synced { IsTrue V.tells → IsSynced result (V.state vault.old) (V.state vault.new) }
    ensures later { V.faults vault.old ≤ V.faults vault.new }
    ensures calm { OnOk result (V.faults vault.new ≡ V.faults vault.old) }
    ensures fault { IfErr result (IsFailed (V.faults vault.old) (V.faults vault.new)) }
{
    match vault.sync() {
        Ok(()) => Ok(()),
        Err(_) => Err(failed(vault)),
    }
}
