// The bounds of a memory.
ghost use Rattle.std.specs.Prelude.{◌≡◌, ◌+◌, ◌<◌, ◌≤◌, Some};
ghost use Rattle.long_names.specs.Counting.{counted};
ghost use Rattle.long_names.specs.declared.limits.TheConstants.{LAST_NAME};

/// The words and entries of the core, the objects for which there is room, how many lived at the last settling, how many were made
/// since then, and how often a call on Work failed.
#[derive(Drop)]
pub(crate) struct Limits {
    pub(crate) core: u32,
    pub(crate) entries: u32,
    pub(crate) room: u32,
    base: u32,
    made: u32,
    work_faults: u64,
    ghost counted_up: { base + made < LAST_NAME + 1 },
    ghost roomy: { room < LAST_NAME + 1 },
}

impl Limits {
    ghost use Rattle.bounded_memory.specs.Limits.{bounds_of};

    pub(crate) fn new(core: u32, entries: u32, room: u32, objects: u32) -> Limits
        requires room { room < LAST_NAME + 1 }
        requires objects { objects < LAST_NAME + 1 }
        ensures { bounds_of result ≡ (record { core = core; entries = entries; room = room; base = Some objects; made = 0; work_faults = 0; said_faults = 0 }) }
    {
        Limits {
            core,
            entries,
            room,
            base: objects,
            made: 0,
            work_faults: 0,
        }
    }

    /// How many objects would live with one more.
    pub(crate) fn live(&self) -> u32
        ensures { result ≡ self.now.base + self.now.made + 1 }
    {
        self.base + self.made + 1
    }

    /// Counts an object that was made.
    pub(crate) fn count_making(&mut self)
        requires { self.old.base + self.old.made + 1 ≤ self.old.room }
        ensures { bounds_of self.new ≡ record (bounds_of self.old) { made = self.old.made + 1 } }
    {
        self.made += 1;
    }

    /// Counts anew from here, where so many objects live.
    pub(crate) fn settle(&mut self, objects: u32)
        requires { objects < LAST_NAME + 1 }
        ensures { bounds_of self.new ≡ record (bounds_of self.old) { base = Some objects; made = 0 } }
    {
        self.base = objects;
        self.made = 0;
    }

    /// Counts a call on Work that failed. The count stands still at its type's end.
    pub(crate) fn count_work_fault(&mut self) -> u64
        ensures count { result ≡ counted self.old.work_faults }
        ensures bounds { bounds_of self.new ≡ record (bounds_of self.old) { work_faults = result } }
        ensures later { self.old.work_faults ≤ result }
    {
        self.work_faults = self.work_faults.saturating_add(1);
        self.work_faults
    }
}
