// Slots that were read at once.
ghost use Rattle.std.specs.Prelude.{◌≤◌};
ghost use Rattle.probing.specs.declared.TheConstants.{BLOCK_SLOTS};

use crate::limits::SLOT_BYTES;
use crate::slot::{Slot, failed, parse, place_of};
use loom_host::{DiskFault, Host};
use probing::BLOCK_SLOTS;

// The slots of a block are read at once.
const PIECE_BYTES: usize = SLOT_BYTES * BLOCK_SLOTS as usize;

/// The slots of a block of a directory, which one read of Work brought. A new one has none.
#[derive(Drop)]
pub struct Piece {
    first: u32,
    count: u32,
    bytes: [u8; PIECE_BYTES],
    ghost most: { count ≤ BLOCK_SLOTS },
}

impl Piece {
    ghost use Rattle.std.specs.Prelude.{◌≡◌, List, ℕ, IfOk, IfErr, IsTrue, OnOk};
    ghost use Rattle.loom_host.specs.Work.{IsWorkFault, IsWorkRead, work_of};
    ghost use Rattle.loom_host.specs.declared.outside.Role.{Role};
    ghost use Rattle.work_directory.specs.Inside.{HasSlot, IsPieceDamage, piece_bytes};
    ghost use Rattle.work_directory.specs.Pieces.{IsPieceOf};
    ghost use Rattle.work_directory.specs.Slots.{slot_in, used_slot};

    /// A piece without slots.
    pub fn new() -> Piece
        ensures { (work : List ℕ) → IsPieceOf work result }
    {
        Piece {
            first: 0,
            count: 0,
            bytes: [0; PIECE_BYTES],
        }
    }

    // Whether it has slot `i`.
    fn has(&self, i: u32) -> bool
        ensures { IsTrue result → HasSlot self.now i }
    {
        self.first <= i && i - self.first < self.count
    }

    // Reads the block of slot `i`.
    fn fill<H: Host>(&mut self, host: &mut H, i: u32) -> Result<(), DiskFault>
        ensures there { OnOk result (HasSlot self.new i) }
        ensures piece { IsTrue (H.tells Role.Work) → IsPieceOf (work_of H.Host host.old) self.new }
        ensures read { IsWorkRead H.Host host.old host.new }
        ensures fault { IfErr result (IsWorkFault (H.faults host.old Role.Work) (H.faults host.new Role.Work)) }
    {
        let first = i - i % BLOCK_SLOTS;
        self.count = 0;
        match host.read_at(place_of(first), &mut self.bytes) {
            Ok(()) => {
                self.first = first;
                self.count = BLOCK_SLOTS;
                Ok(())
            }
            Err(_) => Err(failed(host)),
        }
    }

    // Has slot `i` then: its block is read where the piece doesn't have it.
    pub(crate) fn turn_to<H: Host>(&mut self, host: &mut H, i: u32) -> Result<(), DiskFault>
        requires piece { IsTrue (H.tells Role.Work) → IsPieceOf (work_of H.Host host.old) self.old }
        ensures there { OnOk result (HasSlot self.new i) }
        ensures piece { IsTrue (H.tells Role.Work) → IsPieceOf (work_of H.Host host.old) self.new }
        ensures read { IsWorkRead H.Host host.old host.new }
        ensures fault { IfErr result (IsWorkFault (H.faults host.old Role.Work) (H.faults host.new Role.Work)) }
    {
        if self.has(i) {
            return Ok(());
        }
        self.fill(host, i)
    }

    // What stands in slot `i`, None where it is empty. Damage is told about the word in place of its name.
    pub(crate) fn slot(&self, i: u32) -> Result<Option<Slot>, DiskFault>
        requires there { HasSlot self.now i }
        ensures slot { IfOk result (λ slot. slot ≡ used_slot (slot_in (piece_bytes self.now i))) }
        ensures cause { IfErr result (IsPieceDamage self.now i) }
    {
        let at = SLOT_BYTES * (i - self.first) as usize;
        match parse(&self.bytes[at..at + SLOT_BYTES]) {
            Ok(slot) => Ok(slot),
            Err(word) => Err(DiskFault::Damaged {
                place: place_of(i),
                name: word,
            }),
        }
    }
}
