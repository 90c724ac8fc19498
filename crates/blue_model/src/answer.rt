// How a primitive ended.

/// How a call of a primitive ended.
#[derive(Clone, Copy, Debug, PartialEq, Eq)]
pub enum Answer {
    /// It was done.
    Done,
    /// Its condition isn't met, and nothing has changed.
    Failed,
    /// A method that it found is to be executed.
    Execute,
    /// The machine is to end.
    Quit,
    /// The machine is to be kept as it is, and goes on.
    Keep,
}
