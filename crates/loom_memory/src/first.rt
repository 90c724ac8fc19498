// Room for what a call brings in: what is dead goes before anything living.
ghost use Rattle.std.specs.Prelude.{◌≡◌, ◌≤◌, ℕ, Some, None, false, IsTrue, OnOk, IfOk, IfErr};
ghost use Rattle.object_table.specs.Entries.{place_of};
ghost use Rattle.core_segment.specs.Segment.{largest_of};
ghost use Rattle.core_view.specs.Counts.{outside};
ghost use Rattle.leaf_lambda.specs.Parts.{spare_of};
ghost use Rattle.loom_memory.specs.declared.load.TheConstants.{SPARE_ENTRIES as SPARE};

use crate::load::SPARE_ENTRIES;
use crate::memory::LoomMemory;
use loom_host::{Host, Role};
use object_memory::MemFault;

impl<'h, H: Host> LoomMemory<'h, H> {
    ghost use Rattle.loom_memory.specs.Effects.{Leaves, MayThin};
    ghost use Rattle.object_memory.specs.Fit.{MayCall};
    ghost use Rattle.long_names.specs.Access.{Access, target_of};
    ghost use Rattle.object_memory.specs.Told.{IsReady};
    ghost use Rattle.object_memory.specs.Contract.{KeepsSound, makes};
    ghost use Rattle.disk_objects.specs.Function.{disk_of};
    ghost use Rattle.purger.specs.Purge.{HasRoom, IsShort};
    ghost use Rattle.loom_memory.specs.Freed.{IsFreed, IsOnTime};
    ghost use Rattle.loom_memory.specs.Thinned.{KeepsThinned};
    ghost use Rattle.loom_memory.specs.Gentle.{IsGentle};
    ghost use Rattle.loom_memory.specs.Makings.{HasThinned};
    ghost use Rattle.loom_memory.specs.Own.{MindsCache};
    ghost use Rattle.loom_memory.specs.Residents.{fetched};
    ghost use Rattle.loom_memory.specs.Memory.{loom_told, loom_outside, loom_core, loom_lender, loom_now, loom_parts, loom_pins, loom_rest, IsRead, IsRefused, IsSilent, IsSound};
    ghost use Rattle.loom_memory.specs.Gentle.{IsCalm};

    // `clear`, once what is dead has gone. The buffer keeps its record, which is that of the disk if it was before, where its object is named
    // from outside.
    pub(crate) fn clear_first(&mut self, words: u32) -> Result<bool, MemFault>
        requires fit { MayCall (IsSound H.Host) (loom_told H.Host) self.old }
        ensures thins { OnOk result (MayThin H.Host (λ k. ⊥) self.old self.new) }
        ensures gone { OnOk result (IsFreed H.Host self.old self.new words SPARE) }
        ensures leaves { Leaves H.Host self.old self.new result }
        ensures calm { OnOk result (IsCalm (loom_pins self.old) (loom_core self.old) (loom_core self.new)) }
        ensures leaf { OnOk result ((t : ℕ) → 1 ≤ outside (loom_core self.old) t → place_of ((loom_core self.old).entries t).state ≡ None → place_of ((loom_core self.new).entries t).state ≡ None) }
        ensures record { OnOk result ((t k : ℕ) → 1 ≤ outside (loom_core self.old) t → place_of ((loom_core self.old).entries t).state ≡ None → IsRead (H.tells Role.Work) self.old.buf (disk_of H.Host (loom_now self.old) (loom_rest self.old)) ((loom_core self.old).entries t).name k → IsRead (H.tells Role.Work) self.new.buf (disk_of H.Host (loom_now self.new) (loom_rest self.new)) ((loom_core self.new).entries t).name k) }
        ensures room { IfOk result (λ enough. IsTrue enough → (words ≤ largest_of (loom_parts self.new).segment) × (SPARE ≤ spare_of (loom_parts self.new))) }
        ensures short { IfOk result (λ enough. enough ≡ false → IsShort (loom_parts self.new) (loom_pins self.new).a (loom_pins self.new).b (loom_pins self.new).d words SPARE) }
        ensures ledger { OnOk result (self.new.ledger ≡ record self.old.ledger { held = self.new.ledger.held }) }
        ensures gentle { OnOk result (HasRoom (loom_parts self.old) words SPARE → IsGentle H.Host self.old self.new) }
        ensures idle { OnOk result (HasRoom (loom_parts self.old) words SPARE → words ≡ 0 → self.new ≡ self.old) }
        ensures buf { self.new.buf ≡ self.old.buf }
        ensures sure { IfErr result (λ f. HasRoom (loom_parts self.old) words SPARE → ⊥) }
        ensures err { IfErr result (λ f. (a : Access) (of : ℕ) → target_of a ≡ Some of → IsSilent a → makes a ≡ 0 → IsRefused (loom_told H.Host self.old) (loom_told H.Host self.new) a f) }
    {
        match self.free_first(words, SPARE_ENTRIES) {
            Ok(()) => self.clear(words),
            Err(f) => Err(f),
        }
    }
}
