// Why there is no picture.
ghost use Rattle.std.specs.Prelude.{◌≡◌};
ghost use Rattle.devices.specs.declared.fault.PictureFault.TheVariants as variants;

use contexts::Stop;
use std::alloc::AllocError;

/// Why there is no picture.
#[derive(Clone, Copy, Debug, PartialEq, Eq)]
pub enum PictureFault {
    /// The display can't be drawn.
    Stop(Stop),
    /// There was no memory for the picture.
    Memory,
}

impl From<Stop> for PictureFault {
    ghost from_gives = { λ stop e. e ≡ variants.Stop stop };

    fn from(stop: Stop) -> PictureFault {
        PictureFault::Stop(stop)
    }
}

impl From<AllocError> for PictureFault {
    ghost from_gives = { λ _ e. e ≡ variants.Memory };

    fn from(_e: AllocError) -> PictureFault {
        PictureFault::Memory
    }
}
