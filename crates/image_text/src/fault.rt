// Why no text was assembled.
ghost use Rattle.std.specs.Prelude.{◌≡◌};
ghost use Rattle.image_text.specs.declared.fault.TextFault.TheVariants as fault;

use loom_host::DiskFault;
use std::alloc::AllocError;

/// Why a text was not assembled.
#[derive(Clone, Copy, Debug, PartialEq, Eq)]
pub enum TextFault {
    /// The first line that breaks the grammar, which is rule 0, or a rule of images. What is missing in the whole, rules 12 and 14, has the
    /// line 0.
    Bad { line: u32, rule: u8 },
    /// A call on Image failed. The number is how often it failed so far.
    Read { count: u64 },
    /// A call on the disk failed.
    Disk(DiskFault),
    /// There was no memory for a line or for the names.
    Memory,
}

impl From<DiskFault> for TextFault {
    ghost from_gives = { λ f e. e ≡ fault.Disk f };

    fn from(fault: DiskFault) -> TextFault {
        TextFault::Disk(fault)
    }
}

impl From<AllocError> for TextFault {
    ghost from_gives = { λ _ e. e ≡ fault.Memory };

    fn from(_e: AllocError) -> TextFault {
        TextFault::Memory
    }
}
