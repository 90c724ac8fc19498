// The sizes of blocks, and where the last one ends.

/// How many size classes of blocks there are, from 0 on.
pub const SIZE_CLASSES: usize = 15;

/// The bytes of a block of size class 0, and the step in which blocks lie.
pub const SMALLEST_BLOCK: u64 = 32;

/// The place behind which no block ends.
pub const LAST_END: u64 = 1 << 62;
