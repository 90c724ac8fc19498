// What a vault in memory notes of its calls, so as to tell them.

// So many bytes from a place on.
#[derive(Clone, Copy)]
pub struct Range {
    pub place: u64,
    pub len: usize,
}

#[derive(Clone, Copy)]
pub enum Noted {
    // a fresh opening
    Opened,
    // a write that went through, by where its piece stands among those of all
    Written { place: u64, from: usize, len: usize },
    // a write that failed
    Failed(Range),
    Synced,
}
