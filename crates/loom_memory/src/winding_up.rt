// A memory ends: nothing is named from outside any more, and everything leaves the core.
ghost use Rattle.std.specs.Prelude.{◌≡◌, ℕ, IsTrue, IfOk, IfErr, OnOk};
ghost use Rattle.core_view.specs.Counts.{outside};

use crate::memory::LoomMemory;
use crate::refusals::refusal_of;
use disk_objects::DiskObjects;
use long_names::REGISTERS;
use loom_host::{Host, Role};
use object_memory::{MemFault, Reg};

impl<'h, H: Host> LoomMemory<'h, H> {
    ghost use Rattle.loom_memory.specs.Effects.{LeavesBeside};
    ghost use Rattle.std.specs.Prelude.{Ok};
    ghost use Rattle.object_memory.specs.Contract.{HasCause, SameBounds, Thins};
    ghost use Rattle.purger.specs.Closing.{HasKept};
    ghost use Rattle.loom_memory.specs.Ending.{AreNumbers};
    ghost use Rattle.loom_memory.specs.Makings.{IsLost};
    ghost use Rattle.loom_memory.specs.Memory.{loom_told, loom_outside, loom_core, loom_lender, loom_now, loom_rest, IsSound};

    // Registers get 0.
    fn clear_registers(&mut self)
        requires sound { IsSound H.Host self.old }
        ensures told { loom_told H.Host self.new ≡ record (loom_told H.Host self.old) { regs = (loom_told H.Host self.new).regs } }
        ensures none { AreNumbers (loom_told H.Host self.new).regs }
        ensures leaves { LeavesBeside H.Host self.old self.new (Ok result) }
    {
        for i in 0..REGISTERS as u8 {
            self.put_word(Reg::new(i), 1);
        }
    }

    // Registers get 0, and slots are emptied: nothing is named from outside.
    fn let_go(&mut self)
        requires sound { IsSound H.Host self.old }
        ensures told { loom_told H.Host self.new ≡ record (loom_told H.Host self.old) { regs = (loom_told H.Host self.new).regs; slots = (loom_told H.Host self.new).slots } }
        ensures loose { (t : ℕ) → outside (loom_core self.new) t ≡ 0 }
        ensures leaves { LeavesBeside H.Host self.old self.new (Ok result) }
    {
        self.clear_registers();
        self.unpin(0);
        self.unpin(1);
        self.unpin(2);
    }

    /// Ends what the memory does: nothing is named from outside any more, dead objects go, and all others leave the core. After it the disk has
    /// just the objects that are kept with no roots, with their exact counts, and none is pending; the answer is the next name. After a
    /// fault nothing is known of the disk.
    pub fn wind_up(&mut self) -> Result<u32, MemFault>
        requires sound { IsSound H.Host self.old }
        ensures kept { IsTrue (H.tells Role.Work) → OnOk result (HasKept H.Host (loom_now self.new) (loom_rest self.new) (loom_told H.Host self.old).heap) }
        ensures next { IfOk result (λ n. n ≡ self.old.ledger.next) }
        ensures lost { IfErr result IsLost }
        ensures cause { IfErr result (HasCause (loom_told H.Host self.old) (loom_told H.Host self.new) Thins) }
        ensures transcript { (loom_told H.Host self.new).transcript ≡ (loom_told H.Host self.old).transcript }
        ensures bounds { SameBounds (loom_told H.Host self.old).bounds (loom_told H.Host self.new).bounds }
        ensures lender { loom_lender self.new ≡ loom_lender self.old }
        ensures outside { loom_outside H.Host self.new ≡ loom_outside H.Host self.old }
    {
        let next = self.ledger.next;
        self.let_go();
        match self.pager.close() {
            Ok(()) => Ok(next),
            Err(f) => {
                let f = refusal_of(f);
                Err(self.refuse(f))
            }
        }
    }

    /// Hands the disk back, as it is.
    pub fn into_disk(self) -> DiskObjects<'h, H>
        ensures host { result.host.ghost_name ≡ loom_lender self.entry }
        ensures now { result.host.now ≡ loom_now self.entry }
        ensures rest { result.rest ≡ loom_rest self.entry }
    {
        self.pager.levels.disk
    }
}
