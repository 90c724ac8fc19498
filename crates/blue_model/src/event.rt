// The lines of an event list.

/// What a line of an event list brings.
#[derive(Clone, Copy, Debug, PartialEq, Eq)]
pub enum Event {
    /// A word joins the input queue.
    Word(u16),
    /// The memory is to put out what it can.
    Purge,
    /// The memory is to close its gaps.
    Compact,
}

/// A line of an event list: what comes, and after how many bytecodes.
#[derive(Clone, Copy, Debug, PartialEq, Eq)]
pub struct Line {
    pub count: u32,
    pub event: Event,
}
