// Objects leave the core, or lie together in it.
ghost use Rattle.std.specs.Prelude.{◌≡◌, ◌<◌, ℕ, None, IsTrue, OnOk, IfErr};
ghost use Rattle.core_segment.specs.Segment.{largest_of, free_of};
ghost use Rattle.object_table.specs.Table.{entries_of};

use crate::memory::LoomMemory;
use crate::refusals::refusal_of;
use leaf_lambda::Parts;
use loom_host::Host;
use object_memory::MemFault;
use object_table::laws::entries_are_counted;
use purger::RoomFault;

// More entries than there are.
fn too_many(p: &Parts) -> u16
    ensures { entries_of p.now.names.table < result }
{
    p.names.table.entries() + 1
}

impl<'h, H: Host> LoomMemory<'h, H> {
    ghost use Rattle.loom_memory.specs.Effects.{IsFaulted, Leaves, Pages};
    ghost use Rattle.object_memory.specs.Fit.{MayCall, StaysCallable};
    ghost use Rattle.std.specs.Prelude.{Ok, Err};
    ghost use Rattle.object_memory.specs.Told.{has_slot, IsReady};
    ghost use Rattle.object_memory.specs.Contract.{Called, Follows, IsLater, KeepsSound, Thins};
    ghost use Rattle.loom_memory.specs.Memory.{loom_told, loom_outside, loom_lender, loom_parts, IsSound};
    ghost use Rattle.loom_memory.specs.Gentle.{IsQuiet};
    ghost use Rattle.loom_memory.specs.Freed.{IsAlive};
    ghost use Rattle.loom_memory.specs.Makings.{IsLost};
    ghost use Rattle.loom_memory.specs.Residents.{is_resident, fetched};
    ghost use Rattle.loom_memory.specs.Gentle.{IsPeek, IsResting};
    ghost use Rattle.loom_memory.specs.Own.{MindsCache};

    // More entries are asked for than there are, so everything leaves that may. That there are fewer is no refusal.
    fn put_out(&mut self) -> Result<(), MemFault>
        requires fit { MayCall (IsSound H.Host) (loom_told H.Host) self.old }
        ensures pages { OnOk result (Pages H.Host self.old self.new) }
        ensures pinned { OnOk result ((n : ℕ) → IsTrue (is_resident self.new n) → IsTrue (has_slot (loom_told H.Host self.new).slots n)) }
        ensures leaves { Leaves H.Host self.old self.new result }
        ensures faulted { IfErr result (IsFaulted (loom_told H.Host self.old) (loom_told H.Host self.new)) }
    {
        let entries = too_many(&self.pager.levels.parts);
        match self.page(0, entries) {
            Ok(_enough) => {
                entries_are_counted(&self.pager.levels.parts.names.table);
                Ok(())
            }
            Err(f) => Err(f),
        }
    }

    /// Dead objects are freed, and all others leave but those that are pinned. After it nothing of the heap is dead.
    pub fn purge_all(&mut self) -> Result<(), MemFault>
        requires fit { MayCall (IsSound H.Host) (loom_told H.Host) self.old }
        ensures called { Called (loom_told H.Host self.old) (loom_told H.Host self.new) Thins result }
        ensures pinned { OnOk result ((n : ℕ) → IsTrue (is_resident self.new n) → IsTrue (has_slot (loom_told H.Host self.new).slots n)) }
        ensures fetches { fetched self.new ≡ fetched self.old }
        ensures gone { OnOk result (IsAlive (loom_told H.Host self.new)) }
        ensures minds { OnOk result (MindsCache H.Host None self.old self.new (λ k. ⊥)) }
        ensures fit { StaysCallable (IsSound H.Host) (loom_told H.Host) loom_lender (loom_outside H.Host) self.old self.new result }
    {
        match self.thin() {
            Ok(()) => self.put_out(),
            Err(f) => Err(f),
        }
    }

    /// The free words of the core become one piece.
    pub fn compact(&mut self)
        requires fit { MayCall (IsSound H.Host) (loom_told H.Host) self.old }
        ensures later { IsLater (loom_told H.Host self.old) (loom_told H.Host self.new) }
        ensures one { largest_of (loom_parts self.new).segment ≡ free_of (loom_parts self.old).segment }
        ensures follows { Follows (loom_told H.Host self.old) (loom_told H.Host self.new) Thins }
        ensures peek { IsPeek H.Host self.old self.new }
        ensures resting { IsResting self.old self.new }
        ensures due { self.new.due ≡ self.old.due }
        ensures flag { self.new.thinned ≡ self.old.thinned }
        ensures fit { StaysCallable (IsSound H.Host) (loom_told H.Host) loom_lender (loom_outside H.Host) self.old self.new (Ok result) }
    {
        self.pager.compact();
    }
}
