// Why a checkpoint was not kept or not found.
ghost use Rattle.std.specs.Prelude.{◌≡◌};
ghost use Rattle.checkpoint.specs.Faults.{fault_of_names};
ghost use Rattle.checkpoint.specs.declared.fault.VaultFault.TheVariants as fault;

use disk_objects::NamesFault;
use loom_host::DiskFault;
use std::alloc::AllocError;

/// Why a checkpoint was not kept, or was not found or read. Where it isn't `Failed`, no call on the vault failed.
#[derive(Clone, Copy, Debug, PartialEq, Eq)]
pub enum VaultFault {
    /// A call on the vault failed; `count` is its fault count since then.
    Failed { count: u64 },
    /// The gate at byte `place` is open, and what it says cannot be so.
    Bad { place: u64 },
    /// A call on the disk failed.
    Disk(DiskFault),
    /// There was no memory for a block or for the image.
    Memory,
}

impl From<DiskFault> for VaultFault {
    ghost from_gives = { λ f e. e ≡ fault.Disk f };

    fn from(fault: DiskFault) -> VaultFault {
        VaultFault::Disk(fault)
    }
}

impl From<NamesFault> for VaultFault {
    ghost from_gives = { λ f e. e ≡ fault_of_names f };

    fn from(fault: NamesFault) -> VaultFault {
        match fault {
            NamesFault::Disk(fault) => VaultFault::Disk(fault),
            NamesFault::Memory => VaultFault::Memory,
        }
    }
}

impl From<AllocError> for VaultFault {
    ghost from_gives = { λ _ e. e ≡ fault.Memory };

    fn from(_e: AllocError) -> VaultFault {
        VaultFault::Memory
    }
}
