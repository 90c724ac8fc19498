// What a refusal of the disk is to the caller of a memory.
ghost use Rattle.loom_memory.specs.Memory.{IsRefusalOf};

use loom_host::DiskFault;
use object_memory::MemFault;
use purger::NOWHERE;

// A fault of the disk as a refusal.
pub(crate) fn refusal_of(f: DiskFault) -> MemFault
    ensures { IsRefusalOf f result }
{
    match f {
        DiskFault::Work { count } => MemFault::WorkFault { count },
        DiskFault::Full { .. } => MemFault::Damaged {
            place: NOWHERE,
            name: 0,
        },
        DiskFault::Damaged { place, name } => MemFault::Damaged { place, name },
    }
}
