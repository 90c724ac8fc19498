// A memory begins over an image.
ghost use Rattle.std.specs.Prelude.{◌≡◌, ℕ, IsTrue, false};
ghost use Rattle.loom_host.specs.declared.outside.Role.TheVariants.{Work, Transcript};
ghost use Rattle.disk_objects.specs.Disk.{disk_held, disk_room};
ghost use Rattle.image_reader.specs.Loaded.{heap_on};
ghost use Rattle.object_memory.specs.Told.{IsReady};
ghost use Rattle.loom_memory.specs.Beginning.{HasEmptyCore, IsFirst};
ghost use Rattle.loom_memory.specs.Memory.{loom_lender, loom_now, loom_told, IsSound};
ghost use Rattle.loom_memory.specs.Residents.{is_resident, fetched};
ghost use Rattle.image_memory.specs.Image.{BeginsWith, HasImage};

use disk_objects::DiskObjects;
use image_reader::Loaded;
use loom_host::Host;
use loom_memory::{CoreTables, LoomMemory};

/// A memory over the image that was loaded to a disk, of tables that were made for a core of so many words and entries. It takes no
/// memory. What was said before is what is told of the transcript.
pub fn begin_memory<'h, H: Host>(
    disk: DiskObjects<'h, H>,
    loaded: &Loaded,
    tables: CoreTables,
    core: u32,
    entries: u16,
) -> LoomMemory<'h, H>
    requires image { HasImage H.Host disk.host.now disk.rest loaded.now }
    requires empty { HasEmptyCore tables core entries }
    ensures begins { IsTrue (H.tells Work) → BeginsWith (heap_on H.Host disk.entry.host.now disk.entry.rest loaded.now.next) (loom_told H.Host result) }
    ensures first { IsFirst (loom_told H.Host result) core entries (disk_room disk.entry.rest) (disk_held disk.entry.rest) (H.faults disk.entry.host.now Work) (H.faults disk.entry.host.now Transcript) }
    ensures transcript { (loom_told H.Host result).transcript ≡ (H.roles disk.entry.host.now Transcript).put }
    ensures sound { IsSound H.Host result }
    ensures ready { IsReady (loom_told H.Host result) }
    ensures now { loom_now result ≡ disk.entry.host.now }
    ensures lender { loom_lender result ≡ disk.entry.host.ghost_name }
    ensures none { (fetched result ≡ 0) × ((k : ℕ) → is_resident result k ≡ false) }
{
    LoomMemory::joined(disk, tables, loaded.next, core, entries)
}
