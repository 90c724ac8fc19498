// The names of a disk, gathered from its directory and put in order.
ghost use Rattle.std.specs.Prelude.{◌≡◌, ◌<◌, ◌+◌, ◌==◌, ◌||◌, ℕ, List, IsTrue, IfOk, IfErr, OnOk, is_some};
ghost use Rattle.std.specs.List.Sorted.{IsStrictlySortedBy};
ghost use Rattle.std.specs.FinMap as map;
ghost use Rattle.disk_objects.specs.Inside.{is_noted};
ghost use Rattle.std.specs.Ordering.{nat_cmp};
ghost use Rattle.loom_host.specs.declared.outside.Role.{Role};
ghost use Rattle.loom_host.specs.Work.{IsWorkRead, work_of};

use crate::rest::DiskRest;
use long_names::{Name, NameList};
use loom_host::{DiskFault, Host};
use std::alloc::{AllocError, Global};
use work_directory::Piece;

/// Why the names of a disk aren't told: a fault of the disk, or no memory for them.
#[derive(Clone, Copy, Debug, PartialEq, Eq)]
pub enum NamesFault {
    Disk(DiskFault),
    Memory,
}

// Notes a name.
fn note(names: &mut Vec<Name>, name: Name) -> Result<(), NamesFault>
    ensures noted { OnOk result ((q : ℕ) → is_noted names.new.items q ≡ (name == q || is_noted names.old.items q)) }
    ensures fault { IfErr result (λ fault. fault ≡ NamesFault.Memory) }
{
    match names.push(name) {
        Ok(_) => Ok(()),
        Err(_) => Err(NamesFault::Memory),
    }
}

// Puts names in order, each once.
fn order(names: &mut Vec<Name>)
    ensures ordered { IsStrictlySortedBy nat_cmp names.new.items }
    ensures noted { (q : ℕ) → is_noted names.new.items q ≡ is_noted names.old.items q }
{
    names.sort_unstable();
    names.dedup();
}

// These names as a list.
fn listed(alloc: Global, names: Vec<Name>) -> Result<NameList, AllocError>
    ensures { IfOk result (λ list. list ≡ names.items) }
{
    let mut list = NameList::new(alloc);
    for name in names {
        list.push(name)?;
    }
    Ok(list)
}

impl DiskRest {
    ghost use Rattle.disk_objects.specs.Calls.{IsNamesFault, HoldsObjects};
    ghost use Rattle.disk_objects.specs.Disk.{IsDisk, Objects};
    ghost use Rattle.disk_objects.specs.Names.{seen};
    ghost use Rattle.work_directory.specs.Directory.{blocks_of, first_slot, shown_at};
    ghost use Rattle.work_directory.specs.Pieces.{IsPieceOf};

    // Notes the names that the slots of a block have. One that was never written is passed over.
    fn gather_block<H: Host>(
        &self,
        host: &mut H,
        piece: &mut Piece,
        names: &mut Vec<Name>,
        block: u32,
    ) -> Result<(), NamesFault>
        requires stands { HoldsObjects H.Host host.old self.now }
        requires within { block < blocks_of self.now.directory }
        requires piece { IsTrue (H.tells Role.Work) → IsPieceOf (work_of H.Host host.old) piece.old }
        ensures noted { OnOk result (IsTrue (H.tells Role.Work) → (q : ℕ) → is_noted names.old.items q ≡ seen (shown_at (work_of H.Host host.old)) q (first_slot self.now.directory block) →
            is_noted names.new.items q ≡ seen (shown_at (work_of H.Host host.old)) q (first_slot self.now.directory (block + 1))) }
        ensures piece { IsTrue (H.tells Role.Work) → IsPieceOf (work_of H.Host host.old) piece.new }
        ensures read { IsWorkRead H.Host host.old host.new }
        ensures fault { IfErr result (IsNamesFault (H.tells Role.Work) (H.faults host.old Role.Work) (H.faults host.new Role.Work) self.now) }
    {
        if !self.directory.is_written(block) {
            return Ok(());
        }
        for i in self.directory.first_slot(block)..self.directory.first_slot(block + 1) {
            match self.directory.slot_by(host, piece, i) {
                Ok(Some(slot)) => note(names, slot.name)?,
                Ok(None) => {}
                Err(fault) => return Err(NamesFault::Disk(fault)),
            }
        }
        Ok(())
    }

    // The names that the slots of the directory have.
    fn gather<H: Host>(&self, host: &mut H, alloc: Global) -> Result<Vec<Name>, NamesFault>
        requires stands { HoldsObjects H.Host host.old self.now }
        ensures gathered { IsTrue (H.tells Role.Work) → (objects : Objects) (pending : List ℕ) → IsDisk self.now (work_of H.Host host.old) objects pending →
            IfOk result (λ names. (q : ℕ) → is_noted names.items q ≡ is_some (map.get objects q)) }
        ensures read { IsWorkRead H.Host host.old host.new }
        ensures fault { IfErr result (IsNamesFault (H.tells Role.Work) (H.faults host.old Role.Work) (H.faults host.new Role.Work) self.now) }
    {
        let mut names = Vec::new(alloc);
        let mut piece = Piece::new();
        for block in 0..self.directory.blocks() {
            self.gather_block(host, &mut piece, &mut names, block)?;
        }
        Ok(names)
    }

    pub(crate) fn names<H: Host>(&self, host: &mut H, alloc: Global) -> Result<NameList, NamesFault>
        requires stands { HoldsObjects H.Host host.old self.now }
        ensures names { IsTrue (H.tells Role.Work) → (objects : Objects) (pending : List ℕ) → IsDisk self.now (work_of H.Host host.old) objects pending →
            IfOk result (λ names. names ≡ map.keys objects) }
        ensures read { IsWorkRead H.Host host.old host.new }
        ensures fault { IfErr result (IsNamesFault (H.tells Role.Work) (H.faults host.old Role.Work) (H.faults host.new Role.Work) self.now) }
    {
        let mut names = self.gather(host, alloc)?;
        order(&mut names);
        match listed(alloc, names) {
            Ok(names) => Ok(names),
            Err(_) => Err(NamesFault::Memory),
        }
    }
}
