// Why bytes are no record, and no image.
ghost use Rattle.std.specs.Prelude.{◌≡◌};
ghost use Rattle.image_format.specs.declared.fault.RecFault.TheVariants.{Memory};
ghost use Rattle.image_format.specs.declared.fault.NoRecord.TheVariants as none;

use std::alloc::AllocError;
use thiserror::Error;

/// A rule that an image breaks, and where: the offset of the field that breaks it, or from rule 10 on a name.
#[derive(Clone, Copy, Debug, PartialEq, Eq)]
pub struct Break {
    pub rule: u8,
    pub place: u64,
}

/// Why no record was read.
#[derive(Debug, Drop, Error)]
pub enum RecFault {
    /// The bytes don't begin with a record: the first rule that breaks as it is read, and the offset of the field that breaks it.
    #[error("no record: rule {rule} at {at}")]
    Bad { rule: u8, at: u32 },
    /// There was no memory for the record.
    #[error("no memory for a record")]
    Memory,
}

impl From<AllocError> for RecFault {
    ghost from_gives = { λ _ e. e ≡ Memory };

    fn from(_e: AllocError) -> RecFault {
        RecFault::Memory
    }
}

/// Where reading broke off: the rule that broke, and how many bytes were left where its field begins; none where the bytes ended.
#[derive(Clone, Copy, Debug, PartialEq, Eq)]
pub struct Halt {
    pub rule: u8,
    pub left: usize,
}

/// Why a part of a record wasn't read.
#[derive(Clone, Copy, Debug, PartialEq, Eq)]
pub enum NoRecord {
    Halted(Halt),
    Memory,
}

impl From<Halt> for NoRecord {
    ghost from_gives = { λ h e. e ≡ none.Halted h };

    fn from(h: Halt) -> NoRecord {
        NoRecord::Halted(h)
    }
}

impl From<AllocError> for NoRecord {
    ghost from_gives = { λ _ e. e ≡ none.Memory };

    fn from(_e: AllocError) -> NoRecord {
        NoRecord::Memory
    }
}
