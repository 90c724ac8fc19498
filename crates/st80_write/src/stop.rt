// Why a method has no source.
use std::alloc::AllocError;

#[derive(Clone, Copy)]
pub(crate) enum Stop {
    NoMemory,
    /// It has no tree, or the tree has something that no source has.
    NoSource,
}

impl From<AllocError> for Stop {
    fn from(_error: AllocError) -> Stop {
        Stop::NoMemory
    }
}
