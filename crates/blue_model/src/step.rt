// How a bytecode ended.

/// How a bytecode ended.
#[derive(Clone, Copy, Debug, PartialEq, Eq)]
pub enum Step {
    /// The next bytecode follows.
    Next,
    /// The machine is to end.
    Quit,
    /// The machine is to be kept as it is, and goes on.
    Keep,
}
