// A host over another, which counts how often Work is read and written.
ghost use Rattle.std.specs.Prelude.{false};
ghost use Rattle.loom_host.specs.Outside.{at_start};

use loom_outside::{Failed, Host, MemoryHost, Role};

/// A host in memory that counts the calls on Work. It tells nothing.
#[derive(Drop)]
pub struct CountingHost {
    inner: MemoryHost,
    /// The calls of `read_at` and of `write_at`.
    pub reads: u64,
    pub writes: u64,
}

impl CountingHost {
    pub fn new(inner: MemoryHost) -> CountingHost {
        CountingHost {
            inner,
            reads: 0,
            writes: 0,
        }
    }
}

impl Host for CountingHost {
    ghost tells = { λ _. false };

    ghost roles = { λ _ _. at_start };

    ghost faults = { λ h. ⟦<MemoryHost as Host>⟧.faults h.inner };

    ghost writes = { λ h. ⟦<MemoryHost as Host>⟧.writes h.inner };

    fn attach(&mut self, role: Role, name: &str) -> Result<(), Failed> {
        self.inner.attach(role, name)
    }

    fn read(&mut self, role: Role, buf: &mut [u8]) -> Result<usize, Failed> {
        self.inner.read(role, buf)
    }

    fn write(&mut self, role: Role, buf: &[u8]) -> Result<usize, Failed> {
        self.inner.write(role, buf)
    }

    fn read_at(&mut self, place: u64, buf: &mut [u8]) -> Result<(), Failed> {
        self.reads = self.reads.saturating_add(1);
        self.inner.read_at(place, buf)
    }

    fn write_at(&mut self, place: u64, buf: &[u8]) -> Result<(), Failed> {
        self.writes = self.writes.saturating_add(1);
        self.inner.write_at(place, buf)
    }

    fn fault_count(&self, role: Role) -> u64 {
        self.inner.fault_count(role)
    }
}
