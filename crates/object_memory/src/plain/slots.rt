// The slots for pinned objects.
ghost use Rattle.std.specs.Prelude.{◌≡◌, ◌+◌, ◌<◌, ◌≤◌, ◌||◌, ℕ, nat_lt, None, OnOk};
ghost use Rattle.long_names.specs.Kept.{any_below};
ghost use Rattle.long_names.specs.Need.{is_pinned};
ghost use Rattle.object_memory.specs.Counts.{count_in};
ghost use Rattle.long_names.specs.State.{set_slot};
ghost use Rattle.long_names.specs.declared.limits.TheConstants.{REGISTERS, SLOTS};
ghost use Rattle.object_memory.specs.Plain.{names_of};
ghost use Rattle.object_memory.specs.Told.{has_slot};

use crate::plain::counts::Counts;
use long_names::{Name, SLOTS};
use std::alloc::AllocError;

/// The names in the three slots.
#[derive(Drop)]
pub(crate) struct Slots {
    pub(crate) names: [Option<Name>; SLOTS],
}

/// Whether a slot has this name.
fn is_pinned(slot: Option<Name>, name: Name) -> bool
    ensures { result ≡ is_pinned name slot }
{
    match slot {
        Some(pinned) => pinned == name,
        None => false,
    }
}

impl Slots {
    /// All are empty.
    pub(crate) fn new() -> Slots
        ensures { names_of result ≡ (λ i. None) }
    {
        Slots {
            names: [None; SLOTS],
        }
    }

    pub(crate) fn set(&mut self, slot: u8, name: Option<Name>)
        requires { slot < SLOTS }
        ensures { names_of self.new ≡ set_slot (names_of self.old) slot name }
    {
        self.names[slot as usize] = name;
    }

    /// Whether one of them has this name.
    pub(crate) fn has(&self, name: Name) -> bool
        ensures { result ≡ has_slot (names_of self.now) name }
    {
        is_pinned(self.names[0], name)
            || is_pinned(self.names[1], name)
            || is_pinned(self.names[2], name)
    }

    /// Counts the names in them, beside those of the registers.
    pub(crate) fn count(&self, counts: &mut Counts) -> Result<(), AllocError>
        requires { (q : ℕ) → count_in counts.old q ≤ REGISTERS }
        ensures roots { OnOk result ((q : ℕ) → nat_lt 0 (count_in counts.new q) ≡ (nat_lt 0 (count_in counts.old q) || any_below SLOTS (λ i. is_pinned q (names_of self.now i)))) }
        ensures few { OnOk result ((q : ℕ) → count_in counts.new q ≤ REGISTERS + SLOTS) }
    {
        for i in 0..SLOTS {
            counts.add_some(self.names[i])?;
        }
        Ok(())
    }
}
