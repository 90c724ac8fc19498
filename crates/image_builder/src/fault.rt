// Why no image was made.
ghost use Rattle.std.specs.Prelude.{◌≡◌};
ghost use Rattle.image_builder.specs.declared.fault.BuildFault.TheVariants.{Rule, Memory};

use std::alloc::AllocError;
use thiserror::Error;

/// Why the objects that were added make no image.
#[derive(Debug, Drop, Error)]
pub enum BuildFault {
    /// The first rule of images that would break, and the name of the object that breaks it, of the known object that is missing, or 0
    /// where it is the head.
    #[error("no image: rule {rule} at object {name}")]
    Rule { rule: u8, name: u32 },
    /// There was no memory for the image.
    #[error("no memory for an image")]
    Memory,
}

impl From<AllocError> for BuildFault {
    ghost from_gives = { λ _ e. e ≡ Memory };

    fn from(_e: AllocError) -> BuildFault {
        BuildFault::Memory
    }
}

/// A rule that is broken, and a name.
#[derive(Clone, Copy, Debug)]
pub(crate) struct Broken {
    pub(crate) rule: u8,
    pub(crate) name: u32,
}

impl From<Broken> for BuildFault {
    ghost from_gives = { λ b e. e ≡ Rule b.rule b.name };

    fn from(broken: Broken) -> BuildFault {
        BuildFault::Rule {
            rule: broken.rule,
            name: broken.name,
        }
    }
}
