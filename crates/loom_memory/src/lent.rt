// The host's roles that a memory leaves to its caller.
ghost use Rattle.std.specs.Prelude.{◌≡◌, IsTrue, OnOk, OnErr};
ghost use Rattle.loom_host.specs.Outside.{SameBut, PutPrefix, HasCause, puts};

use crate::memory::LoomMemory;
use loom_host::{Failed, Host, Role};

impl<'h, H: Host> LoomMemory<'h, H> {
    ghost use Rattle.loom_memory.specs.Effects.{Puts};
    ghost use Rattle.loom_memory.specs.Memory.{loom_told, loom_outside, loom_lender, IsSound};
    ghost use Rattle.loom_memory.specs.Lent.{faults_of, IsAside, IsLent};

    /// Puts a whole piece to Saved or to Notes. What is told of the memory stays.
    pub fn write_to(&mut self, role: Role, buf: &[u8]) -> Result<(), Failed>
        requires sound { IsSound H.Host self.old }
        requires role { IsLent role }
        ensures told { loom_told H.Host self.new ≡ loom_told H.Host self.old }
        ensures sound { IsSound H.Host self.new }
        ensures steady { IsAside H.Host self.old self.new }
        ensures put { IsTrue (H.tells role) → OnOk result ((loom_outside H.Host self.new role).role ≡ puts buf.now (loom_outside H.Host self.old role).role) }
        ensures failed { IsTrue (H.tells role) → OnErr result (PutPrefix buf.now (loom_outside H.Host self.old role).role (loom_outside H.Host self.new role).role) }
        ensures cause { HasCause (loom_outside H.Host self.old role).faults (loom_outside H.Host self.new role).faults result }
        ensures others { SameBut role (loom_outside H.Host self.old) (loom_outside H.Host self.new) }
        ensures due { self.new.due ≡ self.old.due }
        ensures flag { self.new.thinned ≡ self.old.thinned }
        ensures lender { loom_lender self.new ≡ loom_lender self.old }
    {
        let levels = &mut self.pager.levels;
        levels.disk.write_to(role, buf)
    }

    /// How often calls on this role failed, up to the greatest u64.
    pub fn fault_count(&self, role: Role) -> u64
        ensures { result ≡ faults_of H.Host self.now role }
    {
        self.pager.levels.disk.fault_count(role)
    }
}
