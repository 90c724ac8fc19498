// Two objects change places under their names: both leave the core, and their records are exchanged.
ghost use Rattle.std.specs.Prelude.{◌≡◌, ◌≢◌, ℕ, None, IsTrue, OnOk, IfErr};

use crate::memory::LoomMemory;
use crate::refusals::refusal_of;
use disk_objects::laws::a_disk_is_its_objects;
use loom_host::Host;
use object_memory::{MemFault, Reg};
use object_table::Short;

impl<'h, H: Host> LoomMemory<'h, H> {
    ghost use Rattle.loom_memory.specs.Effects.{Leaves};
    ghost use Rattle.object_memory.specs.Fit.{MayCall, StaysCallable};
    ghost use Rattle.long_names.specs.Access.{Access, Swap, IsUnpinned, Nothing};
    ghost use Rattle.long_names.specs.State.{IsRef, name_at};
    ghost use Rattle.object_memory.specs.Told.{IsReady};
    ghost use Rattle.object_memory.specs.Contract.{Accessed, KeepsSound, MayDo, makes};
    ghost use Rattle.loom_memory.specs.Memory.{loom_told, loom_outside, loom_lender, loom_parts, IsSound, IsSilent, IsRefused};
    ghost use Rattle.loom_memory.specs.Gentle.{IsQuiet};
    ghost use Rattle.loom_memory.specs.Stores.{IsAway, IsStored};
    ghost use Rattle.loom_memory.specs.Own.{IsPutAway, IsUnmarked, MindsCache};
    ghost use Rattle.loom_memory.specs.Gentle.{KeepsCache};
    ghost use Rattle.loom_memory.specs.Residents.{is_resident, fetched};

    // The object of a register leaves the core.
    fn put_away(&mut self, of: Reg) -> Result<(), MemFault>
        requires fit { MayCall (IsSound H.Host) (loom_told H.Host) self.old }
        requires name { IsRef ((loom_told H.Host self.old).regs of) }
        requires unpinned { IsUnpinned (loom_told H.Host self.old).slots (name_at ((loom_told H.Host self.old).regs of)) }
        ensures quiet { OnOk result (IsQuiet (loom_told H.Host self.old) (loom_told H.Host self.new)) }
        ensures leaves { Leaves H.Host self.old self.new result }
        ensures away { OnOk result (IsAway self.new of) }
        ensures still { OnOk result ((r : ℕ) → IsAway self.old r → IsAway self.new r) }
        ensures others { OnOk result ((k : ℕ) → k ≢ name_at ((loom_told H.Host self.old).regs of) → IsTrue (is_resident self.old k) → IsTrue (is_resident self.new k)) }
        ensures cached { OnOk result (IsUnmarked H.Host self.old (name_at ((loom_told H.Host self.old).regs of)) → KeepsCache H.Host self.old self.new) }
        ensures minds { OnOk result (MindsCache H.Host None self.old self.new (λ k. ⊥)) }
        ensures err { IfErr result (λ f. (a : Access) → IsSilent a → makes a ≡ 0 → IsRefused (loom_told H.Host self.old) (loom_told H.Host self.new) a f) }
        ensures due { OnOk result (self.new.due ≡ self.old.due) }
    {
        let s = Short(self.regs[of.index()]);
        if self
            .pager
            .levels
            .parts
            .names
            .table
            .used_entry(s)
            .place()
            .is_some()
        {
            return match self.pager.evict(s) {
                Ok(()) => Ok(()),
                Err(f) => {
                    let f = refusal_of(f);
                    Err(self.refuse(f))
                }
            };
        }
        Ok(())
    }

    // The records of the objects of two registers are exchanged, which aren't in the core.
    fn exchange(&mut self, a: Reg, b: Reg) -> Result<(), MemFault>
        requires fit { MayCall (IsSound H.Host) (loom_told H.Host) self.old }
        requires names { IsRef ((loom_told H.Host self.old).regs a) × IsRef ((loom_told H.Host self.old).regs b) }
        requires away { IsAway self.old a × IsAway self.old b }
        ensures swapped { OnOk result (IsStored (loom_told H.Host self.old) (loom_told H.Host self.new) (Swap a b)) }
        ensures parts { OnOk result (loom_parts self.new ≡ loom_parts self.old) }
        ensures leaves { Leaves H.Host self.old self.new result }
        ensures cached { OnOk result (KeepsCache H.Host self.old self.new) }
        ensures err { IfErr result (IsRefused (loom_told H.Host self.old) (loom_told H.Host self.new) (Swap a b)) }
        ensures due { OnOk result (self.new.due ≡ self.old.due) }
    {
        // What has an object on the disk is held there.
        a_disk_is_its_objects();
        let s = Short(self.regs[a.index()]);
        let t = Short(self.regs[b.index()]);
        let first = self.pager.levels.parts.names.table.used_entry(s).name;
        let second = self.pager.levels.parts.names.table.used_entry(t).name;
        let levels = &mut self.pager.levels;
        match levels.disk.swap(first, second, &mut self.buf) {
            Ok(()) => {
                self.thinned = false;
                Ok(())
            }
            Err(f) => {
                let f = refusal_of(f);
                Err(self.refuse(f))
            }
        }
    }

    /// The objects that two registers name change places under their names, with class and body (swapPointersOf:and:). Of one name
    /// nothing changes. Neither is pinned.
    pub fn swap(&mut self, a: Reg, b: Reg) -> Result<(), MemFault>
        requires fit { MayCall (IsSound H.Host) (loom_told H.Host) self.old }
        requires may { MayDo (loom_told H.Host self.old) (Swap a b) }
        ensures access { Accessed (loom_told H.Host self.old) (loom_told H.Host self.new) (Swap a b) (λ _. Nothing) result }
        ensures own { OnOk result (IsPutAway self.old self.new (name_at ((loom_told H.Host self.old).regs a)) (name_at ((loom_told H.Host self.old).regs b))) }
        ensures cached { OnOk result (IsUnmarked H.Host self.old (name_at ((loom_told H.Host self.old).regs a)) → IsUnmarked H.Host self.old (name_at ((loom_told H.Host self.old).regs b))
            → KeepsCache H.Host self.old self.new) }
        ensures minds { OnOk result (MindsCache H.Host None self.old self.new (λ k. ⊥)) }
        ensures brings { fetched self.new ≡ fetched self.old }
        ensures due { OnOk result (self.new.due ≡ self.old.due) }
        ensures fit { StaysCallable (IsSound H.Host) (loom_told H.Host) loom_lender (loom_outside H.Host) self.old self.new result }
    {
        match self.put_away(a) {
            Ok(()) => match self.put_away(b) {
                Ok(()) => self.exchange(a, b),
                Err(f) => Err(f),
            },
            Err(f) => Err(f),
        }
    }
}
