// A checkpoint, by its number.

/// Which checkpoint it is, and how long its image is.
#[derive(Clone, Copy, Debug, PartialEq, Eq)]
pub struct Point {
    /// The first has 1, and each later one is one more. Below 2 ^ 62.
    pub serial: u64,
    /// The bytes of its image: from 36 to 2 ^ 42.
    pub len: u64,
}
