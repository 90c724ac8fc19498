// A map from names to counts and places. What stands in Work behind its slots stays as it is.
ghost use Rattle.std.specs.Prelude.{◌≡◌, ◌<◌, ◌≤◌, ◌*◌, ◌^◌};
ghost use Rattle.work_directory.specs.Inside.{search_end};
ghost use Rattle.work_directory.specs.declared.limits.TheConstants.{MOST_NAMES};

use crate::limits::{MOST_NAMES, PAGE_BYTES};
use crate::marks::Marks;
use crate::piece::Piece;
use crate::slot::{Slot, clear, damaged, look, put};
use long_names::Name;
use loom_host::{DiskFault, Host};
use probing::{BLOCK_SLOTS, distance, paged_home, turn};

/// The directory of the work file: the counts and places of the objects on disk. It has twice as many slots of 24 bytes as it has room
/// for names, from the first byte of Work on, each block of 170 in a page of its own. A name is looked for from its home on, slot by slot and around the end, up to an empty
/// slot; where one is removed, those behind it that a search would miss move up. Names that were made one after another have their
/// homes in one block of slots, and of each block it is known whether it was ever written.
///
/// Each call answers Work where a call of the host failed. It answers Damaged where a slot that it read is none, where it met no empty
/// slot, or where a name isn't there that is to be, or is there that isn't to be; a host that tells Work shows none of these. After
/// either, the directory is as it was, but what its slots in Work hold isn't known any more, unless the call only reads.
#[derive(Drop)]
pub struct Directory {
    room: u32,
    held: u32,
    // A slot of a block without a mark was never written, so it is empty.
    written: Marks,
    ghost some: { 0 < room },
    ghost most: { room ≤ MOST_NAMES },
    ghost fits: { held ≤ room },
}

/// Where the search for a name ended: at its slot, or at the empty slot that it met first.
#[derive(Clone, Copy)]
pub enum Found {
    Held { at: u32, slot: Slot },
    Vacant { at: u32 },
}

// Where a search through all slots ended. Where it met no empty slot, damage is told of the one that it read last, which stands before
// the name's home.
fn search_end(found: Option<Found>, name: Name, slots: u32) -> Result<Found, DiskFault>
    requires some { 0 < slots }
    requires few { slots < 2 ^ 31 }
    ensures { result ≡ search_end found name slots }
{
    match found {
        Some(found) => Ok(found),
        None => Err(damaged(turn(paged_home(name.get(), slots), slots - 1, slots), name)),
    }
}

impl Directory {
    ghost use Rattle.std.specs.Prelude.{◌≡◌, ◌≢◌, ◌≤◌, ◌+◌, ◌/◌, ℕ, List, None, false, [], IsTrue, IsSome, IfSome, IfOk, IfErr, OnOk, OnErr, Err, option_map};
    ghost use Rattle.std.specs.FinMap as map;
    ghost use Rattle.loom_host.specs.declared.outside.DiskFault.TheVariants.{Full};
    ghost use Rattle.loom_host.specs.declared.outside.Role.{Role};
    ghost use Rattle.work_directory.specs.Directory.{room_of, held_of, slots_of, blocks_of, first_slot, was_written, end_of, entries_of, found_entry, shown_at, AnswersSearch, IsIn, IsOfName, HoldsDirectory, entries_in, Holds, Lacks, EndsAt, StandsAt, Becomes, WritesBlockOf, WritesNoBlock, WritesWhereItEnds};
    ghost use Rattle.probing.specs.declared.TheConstants.{BLOCK_SLOTS};
    ghost use Rattle.work_directory.specs.Inside.{Closes};
    ghost use Rattle.work_directory.specs.Pieces.{IsPieceOf};
    ghost use Rattle.work_directory.specs.Slots.{slot_at};
    ghost use Rattle.work_directory.specs.Table.{entry_of};
    ghost use Rattle.work_directory.specs.Work.{IsCause, IsSlotCause};
    ghost use Rattle.loom_host.specs.Work.{work_of, IsWorkOnly, IsWorkRead};

    /// An empty directory with room for so many names, over an empty file.
    pub fn new(room: u32) -> Directory
        requires some { 0 < room }
        requires most { room ≤ MOST_NAMES }
        ensures room { room_of result ≡ room }
        ensures held { held_of result ≡ 0 }
        ensures stands { IsIn result [] }
        ensures none { entries_of result [] ≡ map.empty }
        ensures unwritten { (block : ℕ) → was_written result block ≡ false }
    {
        Directory {
            room,
            held: 0,
            written: Marks::new(),
        }
    }

    /// How many names are held.
    #[tactic(auto, unfolding(crate::specs::Directory::room_of, crate::specs::Directory::held_of))]
    #[inline(always)]
    pub fn len(&self) -> u32
        ensures value { result ≡ held_of self.now }
        ensures most { result ≤ room_of self.now }
    {
        self.held
    }

    /// How many names it has room for.
    #[tactic(auto, unfolding(crate::specs::Directory::room_of))]
    #[inline(always)]
    pub fn room(&self) -> u32
        ensures value { result ≡ room_of self.now }
        ensures some { 0 < result }
        ensures most { result ≤ MOST_NAMES }
    {
        self.room
    }

    /// How many slots it has: twice its room.
    #[tactic(auto, unfolding(crate::specs::Directory::room_of))]
    #[inline(always)]
    pub fn slots(&self) -> u32
        ensures value { result ≡ slots_of self.now }
        ensures some { 1 < result }
        ensures most { result ≤ 2 * MOST_NAMES }
    {
        2 * self.room
    }

    /// The byte of Work behind the page of its last block, from which on it has nothing.
    pub fn end(&self) -> u64
        ensures value { result ≡ end_of self.now }
        ensures most { result ≤ PAGE_BYTES * (2 * MOST_NAMES / BLOCK_SLOTS + 1) }
    {
        PAGE_BYTES as u64 * u64::from(self.blocks())
    }

    // Looks for a name, slot by slot: None where it met no empty slot.
    fn scan<H: Host>(&self, host: &mut H, name: Name) -> Result<Option<Found>, DiskFault>
        requires stands { HoldsDirectory H.Host host.old self.now }
        ensures name { IfOk result (λ found. IfSome found (IsOfName (slots_of self.now) name)) }
        ensures found { IfOk result (λ found. IsTrue (H.tells Role.Work) → IfSome found (AnswersSearch (work_of H.Host host.old) (slots_of self.now) name)) }
        ensures some { IfOk result (λ found. IsTrue (H.tells Role.Work) → IsSome found) }
        ensures read { IsWorkRead H.Host host.old host.new }
        ensures cause { IfErr result (IsCause H.Host host.old host.new (slots_of self.now) name) }
    {
        let slots = self.slots();
        let home = paged_home(name.get(), slots);
        for step in 0..slots {
            let at = turn(home, step, slots);
            let Some(slot) = look(host, at, Some(name))? else {
                return Ok(Some(Found::Vacant { at }));
            };
            if slot.name == name {
                return Ok(Some(Found::Held { at, slot }));
            }
        }
        Ok(None)
    }

    // Searches for a name.
    fn search<H: Host>(&self, host: &mut H, name: Name) -> Result<Found, DiskFault>
        requires stands { HoldsDirectory H.Host host.old self.now }
        ensures name { IfOk result (IsOfName (slots_of self.now) name) }
        ensures found { IfOk result (λ found. IsTrue (H.tells Role.Work) → AnswersSearch (work_of H.Host host.old) (slots_of self.now) name found) }
        ensures read { IsWorkRead H.Host host.old host.new }
        ensures cause { IfErr result (IsCause H.Host host.old host.new (slots_of self.now) name) }
    {
        let found = self.scan(host, name)?;
        search_end(found, name, self.slots())
    }

    /// Where the search for a name ends: at an empty slot exactly where the name isn't held.
    #[inline(always)]
    pub fn seek<H: Host>(&self, host: &mut H, name: Name) -> Result<Found, DiskFault>
        requires stands { HoldsDirectory H.Host host.old self.now }
        ensures found { IfOk result (λ found. IsTrue (H.tells Role.Work) → found_entry found ≡ map.get (entries_in H.Host host.old self.now) name) }
        ensures at { IfOk result (λ found. IsTrue (H.tells Role.Work) → AnswersSearch (work_of H.Host host.old) (slots_of self.now) name found) }
        ensures name { IfOk result (IsOfName (slots_of self.now) name) }
        ensures read { IsWorkRead H.Host host.old host.new }
        ensures cause { IfErr result (IsCause H.Host host.old host.new (slots_of self.now) name) }
    {
        self.search(host, name)
    }

    /// The slot of a name: None exactly where it isn't held.
    pub fn find<H: Host>(&self, host: &mut H, name: Name) -> Result<Option<Slot>, DiskFault>
        requires stands { HoldsDirectory H.Host host.old self.now }
        ensures found { IfOk result (λ slot. IsTrue (H.tells Role.Work) → option_map entry_of slot ≡ map.get (entries_in H.Host host.old self.now) name) }
        ensures name { IfOk result (λ slot. IfSome slot (λ s. s.name ≡ name)) }
        ensures read { IsWorkRead H.Host host.old host.new }
        ensures cause { IfErr result (IsCause H.Host host.old host.new (slots_of self.now) name) }
    {
        match self.seek(host, name)? {
            Found::Held { slot, .. } => Ok(Some(slot)),
            Found::Vacant { .. } => Ok(None),
        }
    }

    /// How many blocks its slots are, one after another. The last has what is left, which may be none.
    #[inline(always)]
    pub fn blocks(&self) -> u32
        ensures value { result ≡ blocks_of self.now }
        ensures most { result < 2 ^ 24 }
    {
        self.slots() / BLOCK_SLOTS + 1
    }

    /// Where the slots of a block begin, which is where those of the block before end.
    #[inline(always)]
    pub fn first_slot(&self, block: u32) -> u32
        requires within { block ≤ blocks_of self.now }
        ensures value { result ≡ first_slot self.now block }
    {
        (BLOCK_SLOTS * block).min(self.slots())
    }

    /// Whether a slot of a block was ever written. No other block has a slot that isn't empty.
    #[tactic(auto, unfolding(crate::specs::Directory::was_written))]
    pub fn is_written(&self, block: u32) -> bool
        requires within { block < blocks_of self.now }
        ensures value { result ≡ was_written self.now block }
        ensures empty { result ≡ false → (work : List ℕ) (i : ℕ) → IsIn self.now work → i < slots_of self.now → i / BLOCK_SLOTS ≡ block → shown_at work i ≡ None }
    {
        self.written.has(block)
    }

    /// What stands in slot `i`, None where it is empty. Damage is told about the word in place of its name.
    pub fn slot<H: Host>(&self, host: &mut H, i: u32) -> Result<Option<Slot>, DiskFault>
        requires within { i < slots_of self.now }
        requires stands { HoldsDirectory H.Host host.old self.now }
        ensures shown { IfOk result (λ slot. IsTrue (H.tells Role.Work) → slot ≡ shown_at (work_of H.Host host.old) i) }
        ensures read { IsWorkRead H.Host host.old host.new }
        ensures cause { IfErr result (IsSlotCause H.Host host.old host.new i) }
    {
        look(host, i, None)
    }

    /// The same by a piece: where it doesn't have the slot, the slot's block is read. So a look at each slot in turn takes one read for a
    /// block, and none for one that was never written. The piece is as Work was when it was read, so nothing may have been
    /// written since.
    pub fn slot_by<H: Host>(
        &self,
        host: &mut H,
        piece: &mut Piece,
        i: u32,
    ) -> Result<Option<Slot>, DiskFault>
        requires within { i < slots_of self.now }
        requires stands { HoldsDirectory H.Host host.old self.now }
        requires piece { IsTrue (H.tells Role.Work) → IsPieceOf (work_of H.Host host.old) piece.old }
        ensures shown { IfOk result (λ slot. IsTrue (H.tells Role.Work) → slot ≡ shown_at (work_of H.Host host.old) i) }
        ensures piece { IsTrue (H.tells Role.Work) → IsPieceOf (work_of H.Host host.old) piece.new }
        ensures read { IsWorkRead H.Host host.old host.new }
        ensures unread { was_written self.now (i / BLOCK_SLOTS) ≡ false → host.new ≡ host.old }
        ensures cause { IfErr result (IsSlotCause H.Host host.old host.new i) }
    {
        if !self.is_written(i / BLOCK_SLOTS) {
            return Ok(None);
        }
        piece.turn_to(host, i)?;
        piece.slot(i)
    }

    /// Adds a name that isn't held. Full exactly where as many are held as there is room for; nothing is done then.
    #[tactic(auto, unfolding(crate::specs::Directory::room_of, crate::specs::Directory::held_of))]
    pub fn add<H: Host>(&mut self, host: &mut H, slot: Slot) -> Result<(), DiskFault>
        requires stands { HoldsDirectory H.Host host.old self.old }
        requires absent { Lacks H.Host host.old self.old slot.name }
        ensures added { OnOk result (Becomes H.Host host.old host.new self.new (map.insert (entries_in H.Host host.old self.old) slot.name (entry_of slot))) }
        ensures held { OnOk result (held_of self.new ≡ held_of self.old + 1) }
        ensures written { OnOk result (WritesWhereItEnds H.Host host.old slot.name self.old self.new) }
        ensures still { OnErr result (self.new ≡ self.old) }
        ensures room { room_of self.new ≡ room_of self.old }
        ensures full { held_of self.old ≡ room_of self.old → (result ≡ Err (Full (held_of self.old) (room_of self.old))) × (host.new ≡ host.old) }
        ensures work { IsWorkOnly H.Host host.old host.new }
        ensures cause { held_of self.old ≢ room_of self.old → IfErr result (IsCause H.Host host.old host.new (slots_of self.old) slot.name) }
    {
        if self.held == self.room {
            return Err(DiskFault::Full {
                held: self.held,
                room: self.room,
            });
        }
        match self.search(host, slot.name)? {
            Found::Held { at, .. } => Err(damaged(at, slot.name)),
            Found::Vacant { at } => self.add_at(host, at, slot),
        }
    }

    /// Adds a name that isn't held at the empty slot where the search for it ended, so that nothing is read.
    #[tactic(auto, unfolding(crate::specs::Directory::room_of, crate::specs::Directory::held_of))]
    pub fn add_at<H: Host>(&mut self, host: &mut H, at: u32, slot: Slot) -> Result<(), DiskFault>
        requires stands { HoldsDirectory H.Host host.old self.old }
        requires vacant { EndsAt H.Host host.old self.old slot.name (Found.Vacant at) }
        requires room { held_of self.old < room_of self.old }
        ensures added { OnOk result (Becomes H.Host host.old host.new self.new (map.insert (entries_in H.Host host.old self.old) slot.name (entry_of slot))) }
        ensures held { OnOk result (held_of self.new ≡ held_of self.old + 1) }
        ensures written { OnOk result (WritesBlockOf at self.old self.new) }
        ensures still { OnErr result (self.new ≡ self.old) }
        ensures room { room_of self.new ≡ room_of self.old }
        ensures work { IsWorkOnly H.Host host.old host.new }
        ensures cause { IfErr result (IsCause H.Host host.old host.new (slots_of self.old) slot.name) }
    {
        put(host, at, &slot)?;
        self.held += 1;
        self.written.set(at / BLOCK_SLOTS);
        Ok(())
    }

    /// Sets the count and the place of a name that is held.
    #[tactic(auto, unfolding(crate::specs::Directory::room_of, crate::specs::Directory::held_of))]
    pub fn set<H: Host>(&mut self, host: &mut H, slot: Slot) -> Result<(), DiskFault>
        requires stands { HoldsDirectory H.Host host.old self.old }
        requires there { Holds H.Host host.old self.old slot.name }
        ensures set { OnOk result (Becomes H.Host host.old host.new self.new (map.insert (entries_in H.Host host.old self.old) slot.name (entry_of slot))) }
        ensures still { self.new ≡ self.old }
        ensures work { IsWorkOnly H.Host host.old host.new }
        ensures cause { IfErr result (IsCause H.Host host.old host.new (slots_of self.old) slot.name) }
    {
        match self.search(host, slot.name)? {
            Found::Held { at, .. } => put(host, at, &slot),
            Found::Vacant { at } => Err(damaged(at, slot.name)),
        }
    }

    /// Sets the count and the place of a name at the slot where the search for it ended, so that nothing is read.
    #[inline(always)]
    pub fn set_at<H: Host>(&mut self, host: &mut H, at: u32, slot: Slot) -> Result<(), DiskFault>
        requires stands { HoldsDirectory H.Host host.old self.old }
        requires there { StandsAt H.Host host.old self.old slot.name at }
        ensures set { OnOk result (Becomes H.Host host.old host.new self.new (map.insert (entries_in H.Host host.old self.old) slot.name (entry_of slot))) }
        ensures still { self.new ≡ self.old }
        ensures work { IsWorkOnly H.Host host.old host.new }
        ensures cause { IfErr result (IsCause H.Host host.old host.new (slots_of self.old) slot.name) }
    {
        put(host, at, &slot)
    }

    /// Removes a name that is held.
    #[tactic(auto, unfolding(crate::specs::Directory::room_of, crate::specs::Directory::held_of))]
    pub fn remove<H: Host>(&mut self, host: &mut H, name: Name) -> Result<(), DiskFault>
        requires stands { HoldsDirectory H.Host host.old self.old }
        requires there { Holds H.Host host.old self.old name }
        ensures removed { OnOk result (Becomes H.Host host.old host.new self.new (map.remove (entries_in H.Host host.old self.old) name)) }
        ensures held { OnOk result (held_of self.new + 1 ≡ held_of self.old) }
        ensures written { WritesNoBlock self.old self.new }
        ensures still { OnErr result (self.new ≡ self.old) }
        ensures room { room_of self.new ≡ room_of self.old }
        ensures work { IsWorkOnly H.Host host.old host.new }
        ensures cause { IfErr result (IsCause H.Host host.old host.new (slots_of self.old) name) }
    {
        let at = match self.search(host, name)? {
            Found::Held { at, .. } => at,
            Found::Vacant { at } => return Err(damaged(at, name)),
        };
        if self.held == 0 {
            return Err(damaged(at, name));
        }
        self.close_up(host, at, name)?;
        self.held -= 1;
        Ok(())
    }

    // Takes out the slot `at` of a name: later ones move up over it, until the hole needs no filling.
    fn close_up<H: Host>(&self, host: &mut H, at: u32, name: Name) -> Result<(), DiskFault>
        requires within { at < slots_of self.now }
        requires stands { HoldsDirectory H.Host host.old self.now }
        requires used { IsTrue (H.tells Role.Work) → (slot_at (work_of H.Host host.old) at).name ≢ 0 }
        ensures closed { OnOk result (IsTrue (H.tells Role.Work) → Closes (work_of H.Host host.old) (work_of H.Host host.new) (slots_of self.now) (held_of self.now) at) }
        ensures work { IsWorkOnly H.Host host.old host.new }
        ensures cause { IfErr result (IsCause H.Host host.old host.new (slots_of self.now) name) }
    {
        let slots = self.slots();
        let mut hole = at;
        let mut gap = 1;
        for _step in 1..slots {
            let place = turn(hole, gap, slots);
            let Some(slot) = look(host, place, Some(name))? else {
                return clear(host, hole);
            };
            let home = paged_home(slot.name.get(), slots);
            if distance(home, place, slots) < gap {
                gap += 1;
            } else {
                put(host, hole, &slot)?;
                hole = place;
                gap = 1;
            }
        }
        Err(damaged(turn(at, slots - 1, slots), name))
    }
}
