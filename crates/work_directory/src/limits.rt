// The sizes of a directory.
use probing::BLOCK_SLOTS;

/// The bytes of a slot.
pub const SLOT_BYTES: usize = 24;

/// The bytes from one block of slots to the next, a page of the file: a block has 4,080 of them, and the last 16 are never written.
pub const PAGE_BYTES: usize = 4_096;

/// The most names that a directory has room for.
pub const MOST_NAMES: u32 = 1_048_576;

// The words that have a bit for each block of slots, where there is the most room: 193, for 12,337 blocks.
pub(crate) const MARK_WORDS: usize = (2 * MOST_NAMES / BLOCK_SLOTS / 64 + 1) as usize;
