// The resident table: names and their short names in slots, found by linear probing from a name's home.
ghost use Rattle.std.specs.Prelude.{◌≡◌, ◌+◌, ◌*◌, ◌≤◌, length};
ghost use Rattle.probing.specs.Homes.{home_of};
ghost use Rattle.probing.specs.Table.{IsTable};
ghost use Rattle.resident_table.specs.Inside.{name_at};

use crate::probe::{Slot, close_up};
use long_names::Name;
use object_table::Short;
use probing::{home, turn};
use std::alloc::{AllocError, Global};

/// A map from names to short names, with room for as many as it was made for.
#[derive(Drop)]
pub struct Resident {
    // At least one slot is empty, so each search ends.
    slots: Vec<Slot>,
    held: u16,
    room: u16,
    ghost size: { length slots.items ≡ 2 * room + 2 },
    ghost small: { length slots.items ≤ 131072 },
    ghost few: { held ≤ room },
    ghost table: { IsTable home_of (name_at slots.items) (length slots.items) held },
}

impl Resident {
    ghost use Rattle.std.specs.Prelude.{◌≡◌, ◌≢◌, ◌+◌, ◌-◌, ◌<◌, ℕ, IfOk, IfSome, IfNone, Some, None, IsSome, length, option_map};
    ghost use Rattle.object_table.specs.declared.entry.Short.{Short};
    ghost use Rattle.object_table.specs.Entries.{put};
    ghost use Rattle.resident_table.specs.Inside.{Ends, name_at};
    ghost use Rattle.resident_table.specs.Resident.{short_of, held_of, room_of};

    /// An empty table with room for so many names.
    pub fn new(alloc: Global, entries: u16) -> Result<Resident, AllocError>
        ensures none { IfOk result (λ r. short_of r ≡ (λ name. None)) }
        ensures held { IfOk result (λ r. held_of r ≡ 0) }
        ensures room { IfOk result (λ r. room_of r ≡ entries) }
    {
        Ok(Resident {
            slots: vec![in alloc; Slot::EMPTY; 2 * entries as usize + 2]?,
            held: 0,
            room: entries,
        })
    }

    // Where the search for a name ends: at its slot, or at an empty one.
    #[inline(always)]
    fn seek(&self, name: u32) -> usize
        requires { 0 < name }
        ensures within { result < length self.now.slots.items }
        ensures ends { Ends (name_at self.now.slots.items) (length self.now.slots.items) name result }
    {
        let slots = self.slots.len() as u32;
        let home = home(name, slots);
        for step in 0..slots {
            let at = turn(home, step, slots) as usize;
            let slot = self.slots[at];
            if slot.name == 0 || slot.name == name {
                return at;
            }
        }
        unreachable!()
    }

    /// The short name of a name. None exactly where there is none.
    #[inline(always)]
    pub fn find(&self, name: Name) -> Option<Short>
        ensures { option_map (λ (s : Short). s.0) result ≡ short_of self.now name }
    {
        let at = self.seek(name.get());
        let slot = self.slots[at];
        if slot.name == 0 {
            return None;
        }
        Some(Short(slot.short))
    }

    /// Adds a name that has no short name yet.
    #[inline(always)]
    pub fn insert(&mut self, name: Name, s: Short)
        requires absent { short_of self.old name ≡ None }
        requires room { held_of self.old < room_of self.old }
        ensures find { short_of self.new ≡ put (short_of self.old) name (Some s.0) }
        ensures held { held_of self.new ≡ held_of self.old + 1 }
        ensures room { room_of self.new ≡ room_of self.old }
    {
        let name = name.get();
        let at = self.seek(name);
        self.slots[at] = Slot { name, short: s.0 };
        self.held += 1;
    }

    /// Takes a name away that has a short name.
    #[inline(always)]
    pub fn remove(&mut self, name: Name)
        requires there { IsSome (short_of self.old name) }
        ensures find { short_of self.new ≡ put (short_of self.old) name None }
        ensures held { held_of self.new + 1 ≡ held_of self.old }
        ensures room { room_of self.new ≡ room_of self.old }
    {
        let at = self.seek(name.get());
        close_up(&mut self.slots, at);
        self.held -= 1;
    }
}
