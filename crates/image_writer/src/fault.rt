// Why no image was saved.
ghost use Rattle.std.specs.Prelude.{◌≡◌};
ghost use Rattle.image_writer.specs.declared.fault.SaveFault.TheVariants as fault;

use disk_objects::NamesFault;
use loom_host::DiskFault;
use std::alloc::AllocError;

/// Why an image was not saved whole.
#[derive(Clone, Copy, Debug, PartialEq, Eq)]
pub enum SaveFault {
    /// A call on Saved failed. The number is how often it failed so far.
    Write { count: u64 },
    /// A call on the disk failed.
    Disk(DiskFault),
    /// There was no memory for a record or for the names.
    Memory,
}

impl From<DiskFault> for SaveFault {
    ghost from_gives = { λ f e. e ≡ fault.Disk f };

    fn from(fault: DiskFault) -> SaveFault {
        SaveFault::Disk(fault)
    }
}

impl From<AllocError> for SaveFault {
    ghost from_gives = { λ _ e. e ≡ fault.Memory };

    fn from(_e: AllocError) -> SaveFault {
        SaveFault::Memory
    }
}
