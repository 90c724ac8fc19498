// Why an image can't be read.
ghost use Rattle.std.specs.Prelude.{◌≡◌};
ghost use Rattle.st80_objects.specs.Images.{fault_from};
ghost use Rattle.st80_objects.specs.declared.fault.ImageFault.TheVariants as variants;

use image_format::{Break, RecFault};
use std::alloc::AllocError;
use thiserror::Error;

/// Why bytes gave no image.
#[derive(Debug, Drop, Error)]
pub enum ImageFault {
    /// They break one of the rules 1 to 9 and 13: the first, and the offset of the field that breaks it.
    #[error("image: rule {} at {}", .0.rule, .0.place)]
    Broken(Break),
    /// There was no memory for their objects.
    #[error("no memory for the image")]
    Memory,
}

impl From<AllocError> for ImageFault {
    ghost from_gives = { λ _ e. e ≡ variants.Memory };

    fn from(_e: AllocError) -> ImageFault {
        ImageFault::Memory
    }
}

impl From<Break> for ImageFault {
    ghost from_gives = { λ b e. e ≡ variants.Broken b };

    fn from(broken: Break) -> ImageFault {
        ImageFault::Broken(broken)
    }
}

/// The fault of a record that begins at this offset.
pub(crate) fn fault_at(start: usize, fault: RecFault) -> ImageFault
    ensures { result ≡ fault_from start fault }
{
    match fault {
        RecFault::Bad { rule, at } => ImageFault::Broken(Break {
            rule,
            place: (start as u64).saturating_add(u64::from(at)),
        }),
        RecFault::Memory => ImageFault::Memory,
    }
}
