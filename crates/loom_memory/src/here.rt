// The object of a register is in the core, and is found with nothing done; or it comes in.
ghost use Rattle.std.specs.Prelude.{◌≡◌, ◌≤◌, ℕ, Some, None, false, IsTrue, IsSome, IfSome, IfNone, OnOk, IfOk, IfErr};
ghost use Rattle.object_table.specs.Entries.{place_of};
ghost use Rattle.core_segment.specs.Segment.{largest_of};
ghost use Rattle.leaf_lambda.specs.Parts.{spare_of};
ghost use Rattle.loom_memory.specs.declared.load.TheConstants.{SPARE_ENTRIES as SPARE};

use crate::memory::LoomMemory;
use core_segment::Segment;
use core_segment::laws::chunks_never_overlap;
use loom_host::Host;
use object_memory::{MemFault, Reg};
use object_table::Short;

// Whether so many words are free together.
#[inline(always)]
fn is_together(g: &Segment, words: u32) -> bool
    ensures together { IsTrue result → words ≤ largest_of g.now }
    ensures none { words ≡ 0 → IsTrue result }
{
    if words == 0 {
        return true;
    }
    g.has_room(words)
}

impl<'h, H: Host> LoomMemory<'h, H> {
    ghost use Rattle.loom_memory.specs.Effects.{IsHere, Leaves, LeavesBeside, Pages};
    ghost use Rattle.object_memory.specs.Fit.{MayCall};
    ghost use Rattle.std.specs.Prelude.{Ok};
    ghost use Rattle.long_names.specs.Access.{Access, target_of};
    ghost use Rattle.long_names.specs.State.{name_at, IsRef};
    ghost use Rattle.object_memory.specs.Told.{IsReady};
    ghost use Rattle.object_memory.specs.Contract.{Does, ForBounds, HasCore, IfBounds, IsLater, KeepsSound, Refuses, makes};
    ghost use Rattle.purger.specs.Purge.{HasRoom};
    ghost use Rattle.loom_memory.specs.Calls.{IsLoaded};
    ghost use Rattle.loom_memory.specs.Residents.{fetched, is_resident, words_resident};
    ghost use Rattle.loom_memory.specs.Gentle.{IsGentle};
    ghost use Rattle.loom_memory.specs.Freed.{IsFreedFor};
    ghost use Rattle.loom_memory.specs.Below.{IsTested};
    ghost use Rattle.loom_memory.specs.Makings.{HasThinned};
    ghost use Rattle.loom_memory.specs.Damage.{IsDamaged};
    ghost use Rattle.loom_memory.specs.Own.{BringsOne, IsSparing, MindsCache};
    ghost use Rattle.loom_memory.specs.Memory.{loom_told, loom_outside, word_in, loom_core, loom_lender, loom_parts, loom_pins, IsSound, IsSilent};
    ghost use Rattle.loom_memory.specs.Gentle.{IsQuiet, IsCalm};

    // Moves bodies together where so many words are free, but not as one chunk.
    #[inline(always)]
    pub(crate) fn gather(&mut self, words: u32)
        requires sound { IsSound H.Host self.old }
        requires room { HasRoom (loom_parts self.old) words SPARE }
        ensures pages { Pages H.Host self.old self.new }
        ensures leaves { Leaves H.Host self.old self.new (Ok result) }
        ensures room { (words ≤ largest_of (loom_parts self.new).segment) × (SPARE ≤ spare_of (loom_parts self.new)) }
        ensures gentle { IsGentle H.Host self.old self.new }
        ensures idle { words ≡ 0 → self.new ≡ self.old }
        ensures buf { self.new.buf ≡ self.old.buf }
    {
        if is_together(&self.pager.levels.parts.segment, words) {
            return;
        }
        self.pager.compact();
    }

    // The entry of the object of a register, where it is in the core.
    #[inline(always)]
    pub(crate) fn here(&self, of: Reg) -> Option<Short>
        requires sound { IsSound H.Host self.now }
        requires name { IsRef ((loom_told H.Host self.now).regs of) }
        ensures here { IfSome result (λ s. IsHere H.Host (loom_told H.Host self.now) self.now of s.0) }
        ensures away { IfNone result (is_resident self.now (name_at ((loom_told H.Host self.now).regs of)) ≡ false) }
        ensures leaf { IfNone result (place_of ((loom_core self.now).entries (word_in self.now.regs of)).state ≡ None) }
    {
        let w = self.word_of(of);
        let e = self.pager.levels.parts.names.table.used_entry(Short(w));
        if e.place().is_some() {
            // no body is larger than the core
            chunks_never_overlap(&self.pager.levels.parts.segment);
            return Some(Short(w));
        }
        None
    }

    // The object of a register is in the core, or is brought there from its record, in which each name is below the next one.
    #[inline(always)]
    pub(crate) fn load(&mut self, of: Reg) -> Result<Short, MemFault>
        requires fit { MayCall (IsSound H.Host) (loom_told H.Host) self.old }
        requires name { IsRef ((loom_told H.Host self.old).regs of) }
        ensures thinned { OnOk result (HasThinned (loom_told H.Host self.old) (loom_told H.Host self.new)) }
        ensures leaves { LeavesBeside H.Host self.old self.new result }
        ensures here { IfOk result (λ s. IsHere H.Host (loom_told H.Host self.old) self.new of s.0) }
        ensures gone { OnOk result (IsFreedFor H.Host self.old self.new (name_at ((loom_told H.Host self.old).regs of))) }
        ensures idle { IsTrue (is_resident self.old (name_at ((loom_told H.Host self.old).regs of))) → self.new ≡ self.old }
        ensures own { IsSparing H.Host self.old self.new (name_at ((loom_told H.Host self.old).regs of)) result }
        ensures damage { IsDamaged self.old self.new (name_at ((loom_told H.Host self.old).regs of)) result }
        ensures tested { OnOk result (is_resident self.old (name_at ((loom_told H.Host self.old).regs of)) ≡ false → IsTested self.new (name_at ((loom_told H.Host self.old).regs of))) }
        ensures err { IfErr result (λ f. (a : Access) → target_of a ≡ Some of → makes a ≡ 0 → IsSilent a → IsLater (loom_told H.Host self.old) (loom_told H.Host self.new) × Refuses (loom_told H.Host self.old) (loom_told H.Host self.new) (Does a) f) }
        ensures brings { BringsOne self.old self.new (is_resident self.old (name_at ((loom_told H.Host self.old).regs of)) ≡ false) }
        ensures regs { OnOk result (self.new.regs ≡ self.old.regs) }
        ensures pins { OnOk result (loom_pins self.new ≡ loom_pins self.old) }
    {
        match self.here(of) {
            Some(s) => Ok(s),
            None => self.load_with_room(of),
        }
    }
}
