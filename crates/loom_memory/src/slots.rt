// Slots: what they name stays in the core.
ghost use Rattle.std.specs.Prelude.{◌≡◌, ◌<◌, ℕ, None, false, OnOk};
ghost use Rattle.loom_memory.specs.Memory.{pin_in, with_pin};

use crate::memory::LoomMemory;
use crate::thinned::note_gone;
use leaf_lambda::fields::{drop_word, hold_word};
use loom_host::Host;
use object_memory::{MemFault, Reg};
use purger::Pinned;

// The word of a slot.
#[inline(always)]
fn pin_at(pins: &Pinned, slot: u8) -> u16
    requires { slot < 3 }
    ensures { result ≡ pin_in pins.now slot }
{
    match slot {
        0 => pins.a,
        1 => pins.b,
        _ => pins.d,
    }
}

// Another word in a slot.
#[inline(always)]
fn put_pin(pins: &mut Pinned, slot: u8, w: u16)
    requires { slot < 3 }
    ensures { pins.new ≡ with_pin pins.old slot w }
{
    match slot {
        0 => pins.a = w,
        1 => pins.b = w,
        _ => pins.d = w,
    }
}

impl<'h, H: Host> LoomMemory<'h, H> {
    ghost use Rattle.loom_memory.specs.Effects.{LeavesBeside, Puts};
    ghost use Rattle.object_memory.specs.Fit.{KeepsCallable, MayCall, StaysCallable};
    ghost use Rattle.std.specs.Prelude.{Ok};
    ghost use Rattle.long_names.specs.State.{name_at, set_slot};
    ghost use Rattle.long_names.specs.Access.{Pin, Nothing};
    ghost use Rattle.object_memory.specs.Contract.{Accessed, MayDo};
    ghost use Rattle.loom_memory.specs.Memory.{loom_told, loom_outside, loom_lender, name_if, loom_core, loom_pins, IsPinned, IsSound};
    ghost use Rattle.loom_memory.specs.Gentle.{IsSteady};
    ghost use Rattle.loom_memory.specs.Thinned.{StaysThinned};
    ghost use Rattle.loom_memory.specs.Damage.{IsDamaged};
    ghost use Rattle.loom_memory.specs.Freed.{IsFreedBy};
    ghost use Rattle.loom_memory.specs.Own.{BringsOne, IsSparing};
    ghost use Rattle.loom_memory.specs.Residents.{is_resident};

    // Puts the word of an entry with a body into a slot, or 0.
    #[inline(always)]
    fn put_slot(&mut self, slot: u8, w: u16)
        requires sound { IsSound H.Host self.old }
        requires slot { slot < 3 }
        requires body { IsPinned (loom_core self.old) w }
        ensures told { loom_told H.Host self.new ≡ record (loom_told H.Host self.old) { slots = set_slot (loom_told H.Host self.old).slots slot (name_if (loom_core self.old).entries w) } }
        ensures leaves { LeavesBeside H.Host self.old self.new (Ok result) }
        ensures steady { IsSteady H.Host self.old self.new }
        ensures due { self.new.due ≡ self.old.due }
        ensures stays { StaysThinned self.old self.new (pin_in (loom_pins self.old) slot) }
    {
        let old = pin_at(&self.pager.pinned, slot);
        put_pin(&mut self.pager.pinned, slot, w);
        let levels = &mut self.pager.levels;
        hold_word(&mut levels.parts, w);
        drop_word(&mut levels.parts, old);
        note_gone(&levels.parts, &mut self.thinned, old);
    }

    /// Empties the slot.
    #[inline(always)]
    pub fn unpin(&mut self, slot: u8)
        requires sound { IsSound H.Host self.old }
        requires slot { slot < 3 }
        ensures told { loom_told H.Host self.new ≡ record (loom_told H.Host self.old) { slots = set_slot (loom_told H.Host self.old).slots slot None } }
        ensures steady { IsSteady H.Host self.old self.new }
        ensures due { self.new.due ≡ self.old.due }
        ensures stays { StaysThinned self.old self.new (pin_in (loom_pins self.old) slot) }
        ensures fit { KeepsCallable (IsSound H.Host) (loom_told H.Host) loom_lender (loom_outside H.Host) self.old self.new }
    {
        self.put_slot(slot, 0);
    }

    /// The object in the register stays in the core until the slot is emptied or filled again.
    #[inline(always)]
    pub fn pin(&mut self, slot: u8, r: Reg) -> Result<(), MemFault>
        requires fit { MayCall (IsSound H.Host) (loom_told H.Host) self.old }
        requires may { MayDo (loom_told H.Host self.old) (Pin slot r) }
        requires slot { slot < 3 }
        ensures access { Accessed (loom_told H.Host self.old) (loom_told H.Host self.new) (Pin slot r) (λ _. Nothing) result }
        ensures own { IsSparing H.Host self.old self.new (name_at ((loom_told H.Host self.old).regs r)) result }
        ensures gone { OnOk result (IsFreedBy H.Host self.old self.new (name_at ((loom_told H.Host self.old).regs r)) (Pin slot r)) }
        ensures damage { IsDamaged self.old self.new (name_at ((loom_told H.Host self.old).regs r)) result }
        ensures brings { BringsOne self.old self.new (is_resident self.old (name_at ((loom_told H.Host self.old).regs r)) ≡ false) }
        ensures fit { StaysCallable (IsSound H.Host) (loom_told H.Host) loom_lender (loom_outside H.Host) self.old self.new result }
    {
        match self.load(r) {
            Ok(s) => {
                self.put_slot(slot, s.0);
                Ok(())
            }
            Err(f) => Err(f),
        }
    }
}
