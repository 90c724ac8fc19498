// Why a call of a memory is refused.

/// What an access needs of a core: its object, 16-bit words, and entries for short names.
#[derive(Clone, Copy, Debug, PartialEq, Eq)]
pub struct Need {
    pub object: u32,
    pub words: u32,
    pub entries: u32,
}

/// Why a call was refused.
#[derive(Clone, Copy, Debug, PartialEq, Eq)]
pub enum MemFault {
    /// The core is too small for the objects of this access.
    CoreFull(Need),
    /// More objects would live than there is room for.
    WorkFull { live: u32, room: u32 },
    /// A call on Work failed; its fault count since then.
    WorkFault { count: u64 },
    /// What stands in Work isn't what the memory put there.
    Damaged { place: u64, name: u32 },
    /// No name is left for a new object.
    NamesSpent,
    /// A call on Transcript failed; its fault count since then.
    Said { count: u64 },
    /// Want of memory, of a memory without bounds.
    Memory,
}
