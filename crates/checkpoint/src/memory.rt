// A vault in memory, for tests. It tells all, and fails and stops where it is told to.
ghost use Rattle.std.specs.Prelude.{◌≡◌, ◌+◌, ◌-◌, ◌≤◌, ℕ, true, false, None, Some, length, IsTrue, IsOk, IsErr, OnOk, IfOk};
ghost use Rattle.std.specs.Option.{option_map};
ghost use Rattle.loom_host.specs.Bytes.{window};
ghost use Rattle.loom_host.specs.Outside.{HasCause};
ghost use Rattle.long_names.specs.Counting.{counted};
ghost use Rattle.checkpoint.specs.Memory.{HasRoom, OneCall, Widens, faults_of, fuse_of, state_of, stopped, with_opening};
ghost use Rattle.checkpoint.specs.Vault.{IsOpened, IsSynced, IsWritten, MayLeave, MayOpen, at_start, contents_of};

use crate::journal::Journal;
use crate::vault::Vault;
use loom_host::Failed;
use std::alloc::{AllocError, Global};

/// A vault in memory, which tells all. Its calls fail where its fuse is out, and else only for want of memory past what `reserve` took; a
/// write that the fuse fails counts as written. It keeps the bytes of each write since it was made or last stopped.
#[derive(Drop)]
pub struct MemoryVault {
    journal: Journal,
    // the name of the last opening, and whether it answered Ok
    name: Vec<u8>,
    named: bool,
    openings: u64,
    faults: u64,
    // how many calls pass before each is to fail
    fuse: Option<u64>,
}

#[tactic(auto, unfolding(crate::specs::Memory::state_of, crate::specs::Memory::faults_of, crate::specs::Memory::fuse_of, crate::specs::Memory::HasRoom))]
impl MemoryVault {
    /// An empty vault that was never opened, where nothing failed, with no fuse. It takes no memory yet.
    pub fn new(alloc: Global) -> Result<MemoryVault, AllocError>
        ensures ok { IsOk result }
        ensures state { IfOk result (λ v. state_of v ≡ at_start) }
        ensures faults { IfOk result (λ v. faults_of v ≡ 0) }
        ensures fuse { IfOk result (λ v. fuse_of v ≡ None) }
    {
        Ok(MemoryVault {
            journal: Journal::new(alloc),
            name: Vec::new(alloc),
            named: false,
            openings: 0,
            faults: 0,
            fuse: None,
        })
    }

    /// So many calls from now on pass, and each later one fails, until another fuse is set or the vault is stopped. The calls that it counts
    /// are those of `open_named`, `read_at`, `write_at` and `sync`.
    pub fn fuse(&mut self, calls: u64)
        ensures fuse { fuse_of self.new ≡ Some calls }
        ensures state { state_of self.new ≡ state_of self.old }
        ensures faults { faults_of self.new ≡ faults_of self.old }
        ensures room { Widens self.old self.new }
    {
        self.fuse = Some(calls);
    }

    /// Makes room: from now on no opening by a name of at most `name_bytes` bytes needs a growth, and so many further fresh openings, writes
    /// and syncs need none while what they write is at most `bytes` in all and ends at `end` at the furthest. Reads, and openings that
    /// aren't fresh, aren't counted. After an opening, a write or a sync that failed no room is promised.
    pub fn reserve(
        &mut self,
        name_bytes: usize,
        calls: usize,
        bytes: usize,
        end: u64,
    ) -> Result<(), AllocError>
        ensures room { OnOk result (HasRoom name_bytes calls bytes end self.new) }
        ensures widens { Widens self.old self.new }
        ensures state { state_of self.new ≡ state_of self.old }
        ensures faults { faults_of self.new ≡ faults_of self.old }
        ensures fuse { fuse_of self.new ≡ fuse_of self.old }
    {
        self.journal.reserve(calls, bytes, end as usize)?;
        let held = self.name.len();
        self.name.reserve(name_bytes.saturating_sub(held))
    }

    /// Stops the vault, as a loss of power does. Of the ranges that were written since the last sync that answered Ok, or the last fresh
    /// opening, the first `kept` stand, and the others hold `fill` as far as the contents reach; writes that failed are among them. Then no
    /// fuse is set, and what it tells begins anew with these contents. It can't fail, and takes no memory.
    pub fn stop(&mut self, kept: u64, fill: u8)
        ensures state { state_of self.new ≡ stopped kept fill (state_of self.old) }
        ensures may { MayLeave (state_of self.old) (contents_of (state_of self.new)) }
        ensures fuse { fuse_of self.new ≡ None }
        ensures faults { faults_of self.new ≡ faults_of self.old }
        ensures room { Widens self.old self.new }
    {
        self.journal.stop(kept, fill);
        self.fuse = None;
    }

    // A call begins. Whether it is to fail.
    fn is_due(&mut self) -> bool
        ensures due { fuse_of self.old ≡ Some 0 → IsTrue result }
        ensures passes { (fuse_of self.old ≡ Some 0 → ⊥) → result ≡ false }
        ensures fuse { fuse_of self.new ≡ option_map (λ calls. calls - 1) (fuse_of self.old) }
        ensures state { state_of self.new ≡ state_of self.old }
        ensures faults { faults_of self.new ≡ faults_of self.old }
        ensures room { Widens self.old self.new }
    {
        match self.fuse {
            Some(0) => true,
            Some(calls) => {
                self.fuse = Some(calls - 1);
                false
            }
            None => false,
        }
    }

    // Counts a failure, and answers it.
    fn fail(&mut self) -> Result<(), Failed>
        ensures err { IsErr result }
        ensures faults { faults_of self.new ≡ counted (faults_of self.old) }
        ensures cause { HasCause (faults_of self.old) (faults_of self.new) result }
        ensures state { state_of self.new ≡ state_of self.old }
        ensures fuse { fuse_of self.new ≡ fuse_of self.old }
        ensures room { Widens self.old self.new }
    {
        self.faults = self.faults.saturating_add(1);
        Err(Failed)
    }

    // Takes the name, and empties the contents where the opening is fresh.
    fn renew(&mut self, name: &str, fresh: bool) -> Result<(), AllocError>
        ensures name { OnOk result (self.new.name.items ≡ name.now) }
        ensures named { self.new.named ≡ self.old.named }
        ensures openings { (state_of self.new).openings ≡ (state_of self.old).openings }
        ensures began { (state_of self.new).began ≡ (state_of self.old).began }
        ensures calls { MayOpen fresh result (state_of self.old).calls (state_of self.new).calls }
        ensures faults { faults_of self.new ≡ faults_of self.old }
        ensures fuse { fuse_of self.new ≡ fuse_of self.old }
        ensures succeeds { (name_bytes calls bytes end : ℕ) → HasRoom name_bytes (with_opening fresh calls) bytes end self.old → length name.now ≤ name_bytes → IsOk result }
        ensures room { OnOk result ((name_bytes calls bytes end : ℕ) → HasRoom name_bytes (with_opening fresh calls) bytes end self.old → HasRoom name_bytes calls bytes end self.new) }
    {
        self.name.clear();
        self.name.extend_from_slice(name.as_bytes())?;
        if fresh {
            self.journal.open()?;
        }
        Ok(())
    }
}

#[tactic(auto, unfolding(crate::specs::Memory::state_of, crate::specs::Memory::faults_of, crate::specs::Memory::fuse_of, crate::specs::Memory::HasRoom))]
impl Vault for MemoryVault {
    ghost tells = { true };

    ghost state = { state_of };

    ghost faults = { faults_of };

    fn open_named(&mut self, name: &str, fresh: bool) -> Result<(), Failed>
        ensures opened { IsOpened fresh name.now result (state_of self.old) (state_of self.new) }
        ensures cause { HasCause (faults_of self.old) (faults_of self.new) result }
        ensures calm { OnOk result (faults_of self.new ≡ faults_of self.old) }
        ensures call { OneCall self.old self.new result }

        // It needs the name, and where it is fresh a call of the list.
        ensures succeeds { (name_bytes calls bytes end : ℕ) → HasRoom name_bytes (with_opening fresh calls) bytes end self.old → length name.now ≤ name_bytes → (fuse_of self.old ≡ Some 0 → ⊥) → IsOk result }
        ensures room { OnOk result ((name_bytes calls bytes end : ℕ) → HasRoom name_bytes (with_opening fresh calls) bytes end self.old → HasRoom name_bytes calls bytes end self.new) }
    {
        self.openings = self.openings.saturating_add(1);
        self.named = false;
        if self.is_due() || self.renew(name, fresh).is_err() {
            return self.fail();
        }
        self.named = true;
        Ok(())
    }

    fn read_at(&mut self, place: u64, buf: &mut [u8]) -> Result<(), Failed>
        ensures bytes { OnOk result (buf.new ≡ window (contents_of (state_of self.old)) place (length buf.old)) }
        ensures still { state_of self.new ≡ state_of self.old }
        ensures cause { HasCause (faults_of self.old) (faults_of self.new) result }
        ensures calm { OnOk result (faults_of self.new ≡ faults_of self.old) }
        ensures call { OneCall self.old self.new result }

        // It needs no memory.
        ensures succeeds { (fuse_of self.old ≡ Some 0 → ⊥) → IsOk result }
        ensures room { Widens self.old self.new }
    {
        if self.is_due() {
            return self.fail();
        }
        self.journal.read(place, buf);
        Ok(())
    }

    fn write_at(&mut self, place: u64, buf: &[u8]) -> Result<(), Failed>
        ensures written { IsWritten place buf.now result (state_of self.old) (state_of self.new) }
        ensures cause { HasCause (faults_of self.old) (faults_of self.new) result }
        ensures calm { OnOk result (faults_of self.new ≡ faults_of self.old) }
        ensures call { OneCall self.old self.new result }

        // It needs a call of the list, the bytes of its piece, and the contents up to its end.
        ensures succeeds { (name_bytes calls bytes end : ℕ) → HasRoom name_bytes (calls + 1) (bytes + length buf.now) end self.old → place + length buf.now ≤ end → (fuse_of self.old ≡ Some 0 → ⊥) → IsOk result }
        ensures room { OnOk result ((name_bytes calls bytes end : ℕ) → HasRoom name_bytes (calls + 1) (bytes + length buf.now) end self.old → place + length buf.now ≤ end → HasRoom name_bytes calls bytes end self.new) }
    {
        if self.is_due() {
            let _ = self.journal.fail(place, buf.len());
            return self.fail();
        }
        if self.journal.write(place, buf).is_err() {
            return self.fail();
        }
        Ok(())
    }

    fn sync(&mut self) -> Result<(), Failed>
        ensures synced { IsSynced result (state_of self.old) (state_of self.new) }
        ensures cause { HasCause (faults_of self.old) (faults_of self.new) result }
        ensures calm { OnOk result (faults_of self.new ≡ faults_of self.old) }
        ensures call { OneCall self.old self.new result }

        // It needs a call of the list.
        ensures succeeds { (name_bytes calls bytes end : ℕ) → HasRoom name_bytes (calls + 1) bytes end self.old → (fuse_of self.old ≡ Some 0 → ⊥) → IsOk result }
        ensures room { OnOk result ((name_bytes calls bytes end : ℕ) → HasRoom name_bytes (calls + 1) bytes end self.old → HasRoom name_bytes calls bytes end self.new) }
    {
        if self.is_due() || self.journal.sync().is_err() {
            return self.fail();
        }
        Ok(())
    }

    fn fault_count(&self) -> u64 {
        self.faults
    }
}
