// What a memory notes beside its core: limits, counts, and what its lookups found.
ghost use Rattle.std.specs.Prelude.{◌≡◌, ◌≤◌, ◌<◌, ◌+◌, ◌^◌, Some};
ghost use Rattle.long_names.specs.Counting.{counted};

use method_cache::Cache;
use object_memory::MemFault;

/// The words of the core and the number of its entries; the next name; how many objects there were at the last settling, if that is
/// known, and how many were made since; how many names are held; how many objects were brought in; how many calls were refused, and why
/// the last one was. The rows of the method cache, by short words; whether a path was begun; and the short word of an object that was
/// marked, 0 where none was. The rows count only as long as this object is marked.
#[derive(Drop)]
pub struct Ledger {
    pub core: u32,
    pub entries: u16,
    pub next: u32,
    pub base: Option<u32>,
    pub made: u32,
    pub held: u32,
    pub fetches: u64,
    pub refusals: u64,
    pub last: Option<MemFault>,
    pub rows: Cache,
    pub begun: bool,
    pub mark: u16,
}

impl Ledger {
    /// Counts an object that was brought in.
    pub fn count_fetch(&mut self)
        ensures { self.new ≡ record self.old { fetches = counted self.old.fetches } }
    {
        self.fetches = self.fetches.saturating_add(1);
    }

    /// Counts an object that was made, under the next name.
    #[inline(always)]
    pub fn count_making(&mut self)
        requires held { self.old.held + 1 < 2 ^ 32 }
        requires made { self.old.made + 1 < 2 ^ 32 }
        requires next { self.old.next + 2 < 2 ^ 32 }
        ensures { self.new ≡ record self.old { held = self.old.held + 1; made = self.old.made + 1; next = self.old.next + 2 } }
    {
        self.held += 1;
        self.made += 1;
        self.next += 2;
    }

    /// Counts a refusal.
    pub fn refuse(&mut self, f: MemFault)
        ensures refused { self.new ≡ record self.old { refusals = counted self.old.refusals; last = Some f } }
        ensures later { self.old.refusals ≤ counted self.old.refusals }
    {
        self.refusals = self.refusals.saturating_add(1);
        self.last = Some(f);
    }
}
