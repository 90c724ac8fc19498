// The limits of an event file: each stands here once, and definitions and clauses cite it.

/// The greatest count of a line, which is the most bytecodes of a run.
pub const MOST_COUNT: u32 = 2_147_483_647;

/// The greatest input word.
pub const MOST_WORD: u32 = 65_535;

/// The most lines of a right file.
pub const MOST_LINES: usize = 65_535;

/// The most bytes of a right line, without its end.
pub const LONGEST: usize = 21;

/// How many bytes of the file are read at once.
pub const PIECE: usize = 4_096;
