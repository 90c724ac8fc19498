// Why no image was loaded.
ghost use Rattle.std.specs.Prelude.{◌≡◌, ◌+◌, ◌≤◌, ◌^◌};
ghost use Rattle.image_reader.specs.Inside as inside;
ghost use Rattle.image_reader.specs.declared.fault.LoadFault.TheVariants as fault;

use image_format::{Break, RecFault};
use loom_host::DiskFault;
use std::alloc::AllocError;

/// Why an image was not loaded.
#[derive(Clone, Copy, Debug, PartialEq, Eq)]
pub enum LoadFault {
    /// The first rule that the image breaks, and its place: an offset, or from rule 10 on a name.
    Bad { rule: u8, place: u64 },
    /// A call on Image failed. The number is how often it failed so far.
    Read { count: u64 },
    /// A call on the disk failed, or the image states more objects than there is room for.
    Disk(DiskFault),
    /// There was no memory for a record or for the names.
    Memory,
}

impl From<DiskFault> for LoadFault {
    ghost from_gives = { λ f e. e ≡ fault.Disk f };

    fn from(fault: DiskFault) -> LoadFault {
        LoadFault::Disk(fault)
    }
}

impl From<AllocError> for LoadFault {
    ghost from_gives = { λ _ e. e ≡ fault.Memory };

    fn from(_e: AllocError) -> LoadFault {
        LoadFault::Memory
    }
}

impl From<Break> for LoadFault {
    ghost from_gives = { λ b e. e ≡ fault.Bad b.rule b.place };

    fn from(b: Break) -> LoadFault {
        LoadFault::Bad {
            rule: b.rule,
            place: b.place,
        }
    }
}

/// Why no record was read that begins at this place.
pub(crate) fn fault_at(place: u64, fault: RecFault) -> LoadFault
    requires { place + 2 ^ 32 ≤ 2 ^ 64 }
    ensures { result ≡ inside.fault_at place fault }
{
    match fault {
        RecFault::Bad { rule, at } => LoadFault::Bad {
            rule,
            place: place + at as u64,
        },
        RecFault::Memory => LoadFault::Memory,
    }
}
