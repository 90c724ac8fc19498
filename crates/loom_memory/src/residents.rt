// Which objects are in the core, and how many words they take.
ghost use Rattle.std.specs.Prelude.{◌≡◌, ◌≤◌};

use crate::memory::LoomMemory;
use core_segment::laws::chunks_never_overlap;
use long_names::Name;
use loom_host::Host;

impl<'h, H: Host> LoomMemory<'h, H> {
    ghost use Rattle.object_memory.specs.Contract.{ForBounds};
    ghost use Rattle.loom_memory.specs.Memory.{loom_told, IsSound};
    ghost use Rattle.loom_memory.specs.Residents.{is_resident, words_resident, fetched};

    /// The words that the objects in the core take: of each 4 and those of its body.
    pub fn resident_words(&self) -> u32
        requires { IsSound H.Host self.now }
        ensures sum { result ≡ words_resident self.now }
        ensures most { ForBounds (loom_told H.Host self.now).bounds (λ b. result ≤ b.core) }
    {
        chunks_never_overlap(&self.pager.levels.parts.segment);
        let free = self.pager.levels.parts.segment.free_words();
        self.ledger.core - free
    }

    /// Whether the object of a name is in the core.
    pub fn resident(&self, name: Name) -> bool
        requires { IsSound H.Host self.now }
        ensures { result ≡ is_resident self.now name }
    {
        match self.pager.levels.parts.names.resident.find(name) {
            Some(s) => self
                .pager
                .levels
                .parts
                .names
                .table
                .used_entry(s)
                .place()
                .is_some(),
            None => false,
        }
    }

    /// How many objects were brought in so far.
    pub fn fetches(&self) -> u64
        ensures { result ≡ fetched self.now }
    {
        self.ledger.fetches
    }
}
