// The limits of an image's text: each stands here once, and definitions and clauses cite it.

/// The most bytes of a line, without its end.
pub const LONGEST_LINE: usize = 1_048_576;
