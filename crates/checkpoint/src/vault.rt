// What keeps checkpoints.
ghost use Rattle.std.specs.Prelude.{◌≡◌, Bool, ℕ, IsTrue, OnOk, length};
ghost use Rattle.loom_host.specs.Bytes.{window};
ghost use Rattle.loom_host.specs.Outside.{HasCause};
ghost use Rattle.checkpoint.specs.Vault.{IsOpened, IsSynced, IsWritten, VaultState, contents_of};

use loom_host::Failed;

/// Bytes by their places, of which those that are synced outlive a stop. It counts its failures, up to the greatest u64, and nothing else: a
/// call that answers Ok leaves the count. It may also tell what it holds, and which of its calls a stop may undo.
pub trait Vault {
    /// Whether it tells what it holds. This is a fact of the type, so it never changes.
    ghost tells: { Bool };

    /// What it tells. It says nothing where it isn't told.
    ghost state: { Self → VaultState };

    /// How often its calls failed, up to the greatest u64.
    ghost faults: { Self → ℕ };

    /// Opens the vault of this name. A fresh one is empty, and what it held before never comes back.
    fn open_named(&mut self, name: &str, fresh: bool) -> Result<(), Failed>
        ensures opened { IsTrue tells → IsOpened fresh name.now result (state self.old) (state self.new) }
        ensures cause { HasCause (faults self.old) (faults self.new) result }
        ensures calm { OnOk result (faults self.new ≡ faults self.old) };

    /// Reads the bytes from a place on over the whole buffer. Past the end they are 0.
    fn read_at(&mut self, place: u64, buf: &mut [u8]) -> Result<(), Failed>
        ensures bytes { IsTrue tells → OnOk result (buf.new ≡ window (contents_of (state self.old)) place (length buf.old)) }
        ensures still { state self.new ≡ state self.old }
        ensures cause { HasCause (faults self.old) (faults self.new) result }
        ensures calm { OnOk result (faults self.new ≡ faults self.old) };

    /// Writes the whole piece from a place on. Where it failed, any bytes may stand there.
    fn write_at(&mut self, place: u64, buf: &[u8]) -> Result<(), Failed>
        ensures written { IsTrue tells → IsWritten place buf.now result (state self.old) (state self.new) }
        ensures cause { HasCause (faults self.old) (faults self.new) result }
        ensures calm { OnOk result (faults self.new ≡ faults self.old) };

    /// Has all that was written outlive a stop.
    fn sync(&mut self) -> Result<(), Failed>
        ensures synced { IsTrue tells → IsSynced result (state self.old) (state self.new) }
        ensures cause { HasCause (faults self.old) (faults self.new) result }
        ensures calm { OnOk result (faults self.new ≡ faults self.old) };

    /// How often its calls failed, up to the greatest u64.
    fn fault_count(&self) -> u64
        ensures { result ≡ faults self.now };
}
