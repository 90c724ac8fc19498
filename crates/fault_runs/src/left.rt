// What a run left in a file or a stream, beside all that it puts where no call fails.

/// How much there is.
#[derive(Clone, Copy, Debug, PartialEq, Eq)]
pub enum Left {
    /// Nothing. A file was never attached.
    Nothing,
    /// First bytes, and not all. A file may not have been attached.
    Cut,
    /// First bytes, or all. A file may not have been attached.
    Begun,
    /// All.
    Whole,
}

/// Whether so much of a stream is there.
pub fn is_left(got: &[u8], whole: &[u8], left: Left) -> bool {
    match left {
        Left::Nothing => got.is_empty(),
        Left::Cut => got.len() < whole.len() && whole.starts_with(got),
        Left::Begun => whole.starts_with(got),
        Left::Whole => got == whole,
    }
}

/// Whether so much of a file is there. None is one that was never attached.
pub fn is_file_left(got: Option<&[u8]>, whole: Option<&[u8]>, left: Left) -> bool {
    match (got, whole) {
        (None, None) => true,
        (None, Some(_)) => left != Left::Whole,
        (Some(_), None) => false,
        (Some(got), Some(whole)) => left != Left::Nothing && is_left(got, whole, left),
    }
}
