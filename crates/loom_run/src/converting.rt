// An image becomes a text, or a text an image.
ghost use Rattle.std.specs.Prelude.{◌≡◌, [], is_ok, IsTrue, IfErr, IfOk, OnOk};
ghost use Rattle.std.specs.FinMap as map;
ghost use Rattle.disk_objects.specs.Disk.{IsDisk, disk_held, disk_room};
ghost use Rattle.image_format.specs.declared.head.TheConstants.{MOST_OBJECTS};
ghost use Rattle.image_reader.specs.Loaded.{heap_on};
ghost use Rattle.image_writer.specs.Puts.{Puts};
ghost use Rattle.long_names.specs.Heap.{object_count};
ghost use Rattle.loom_host.specs.Work.{work_of};
ghost use Rattle.loom_words.specs.Command.{paths_for};
ghost use Rattle.loom_run.specs.Converts.{EndsSource, JudgesSource, Reads, done_by, spelled_by};
ghost use Rattle.loom_run.specs.Ends.{AttachedOnce, WasRead, WrittenBy, bytes_of};
ghost use Rattle.loom_run.specs.Meanings.{Meanings, meanings, LeavesBut};
ghost use Rattle.loom_run.specs.Stages.{EndsSaving, Reading, Saving, roles_at};
ghost use Rattle.loom_run.specs.Steps.{ConversionEnds, HasOpened, HasPut, HasSource, IsRefusedBy, IsSameFile};

use crate::making::end_saved;
use crate::reading::{open_image, open_work, read_image};
use crate::status::status_of_disk;
use crate::writing::open_saved;
use disk_objects::DiskObjects;
use image_reader::Loaded;
use image_text::{TextFault, assemble, list};
use image_writer::{SaveFault, save};
use loom_host::{Host, Role};
use loom_words::{Conversion, MOST_ROOM, Status};
use std::alloc::Global;

/// Which spelling of a heap is read; the other one is written.
#[derive(Clone, Copy, Debug, PartialEq, Eq)]
pub enum Way {
    /// An image is read, and its text is written.
    Listing,
    /// A text is read, and its image is written.
    Assembling,
}

/// Attaches Work, and then Image, which is read to its end, its objects going to Work; then Saved, which is written and ended. There is room for
/// the most objects that an image has.
pub(crate) fn convert<H: Host>(
    alloc: Global,
    host: &mut H,
    conversion: &Conversion<'_>,
    way: Way,
) -> Status
    ensures ends { ConversionEnds H.tells (meanings H.Host host.old) (meanings H.Host host.new) way (paths_for conversion.now) result }
{
    if let Err(status) = open_work(host, conversion.work) {
        return status;
    }
    let mut disk = DiskObjects::begin(host, MOST_ROOM);
    let objects = convert_on(alloc, &mut disk, conversion, way);
    let host = disk.into_host();
    match objects {
        Ok(objects) => end_conversion(host, conversion, way, objects),
        Err(status) => status,
    }
}

// Ends Saved, to which all was put.
fn end_conversion<H: Host>(
    host: &mut H,
    conversion: &Conversion<'_>,
    way: Way,
    objects: u32,
) -> Status
    ensures ends { (before : Meanings) → HasPut H.tells before (meanings H.Host host.old) way (paths_for conversion.now) objects
        → ConversionEnds H.tells before (meanings H.Host host.new) way (paths_for conversion.now) result }
{
    match end_saved(host) {
        Ok(()) => status_of_count(way, objects),
        Err(_) => Status::WriteFault {
            role: Role::Saved,
            count: host.fault_count(Role::Saved),
        },
    }
}

// The answer of a conversion that went through.
fn status_of_count(way: Way, objects: u32) -> Status
    ensures { result ≡ done_by way objects }
{
    match way {
        Way::Listing => Status::Listed { objects },
        Way::Assembling => Status::Assembled { objects },
    }
}

// Image is attached and read, and Saved attached and written. The number of objects is the answer.
fn convert_on<H: Host>(
    alloc: Global,
    disk: &mut DiskObjects<'_, H>,
    conversion: &Conversion<'_>,
    way: Way,
) -> Result<u32, Status>
    requires room { disk_room disk.old.rest ≡ MOST_OBJECTS }
    requires empty { IsTrue (H.tells Role.Work) → IsDisk disk.old.rest (work_of H.Host disk.old.host.now) map.empty [] }
    requires none { disk_held disk.old.rest ≡ 0 }
    ensures put { IfOk result (λ objects. (before : Meanings) → HasOpened H.tells before (meanings H.Host disk.old.host.now) conversion.now.work.now
        → HasPut H.tells before (meanings H.Host disk.new.host.now) way (paths_for conversion.now) objects) }
    ensures ends { IfErr result (λ status. (before : Meanings) → HasOpened H.tells before (meanings H.Host disk.old.host.now) conversion.now.work.now
        → ConversionEnds H.tells before (meanings H.Host disk.new.host.now) way (paths_for conversion.now) status) }
    ensures same_host { disk.new.host.ghost_name ≡ disk.old.host.ghost_name }
{
    let loaded = match read_source(alloc, disk, conversion.source, way) {
        Ok(loaded) => loaded,
        Err(status) => return Err(status),
    };
    match write_target(alloc, disk, &loaded, conversion.target, way) {
        Ok(()) => Ok(loaded.objects),
        Err(status) => Err(status),
    }
}

// Attaches Image by its word, and reads the image or the text that it is.
fn read_source<H: Host>(
    alloc: Global,
    disk: &mut DiskObjects<'_, H>,
    source: &str,
    way: Way,
) -> Result<Loaded, Status>
    requires room { disk_room disk.old.rest ≡ MOST_OBJECTS }
    requires empty { IsTrue (H.tells Role.Work) → IsDisk disk.old.rest (work_of H.Host disk.old.host.now) map.empty [] }
    requires none { disk_held disk.old.rest ≡ 0 }
    ensures attached { IsTrue (H.tells Role.Image) → AttachedOnce source.now (H.roles disk.old.host.now Role.Image) (H.roles disk.new.host.now Role.Image) }
    ensures source { IfOk result (λ x. HasSource H.Host disk.new.host.now disk.new.rest x.next) }
    ensures read { IsTrue (H.tells Role.Image) → IsTrue (H.tells Role.Work) → IfOk result (λ x. Reads way (bytes_of (H.roles disk.new.host.now Role.Image)) (heap_on H.Host disk.new.host.now disk.new.rest x.next) x.state
        × (x.objects ≡ object_count (heap_on H.Host disk.new.host.now disk.new.rest x.next))) }
    ensures end { IsTrue (H.tells Role.Image) → OnOk result (WasRead source.now (H.roles disk.new.host.now Role.Image)) }
    ensures judged { IsTrue (H.tells Role.Image) → IfErr result (λ status. JudgesSource way (H.tells Role.Work) status (bytes_of (H.roles disk.new.host.now Role.Image))) }
    ensures file { IsTrue (H.tells Role.Work) → IsSameFile (H.roles disk.old.host.now Role.Work) (H.roles disk.new.host.now Role.Work) }
    ensures same_host { disk.new.host.ghost_name ≡ disk.old.host.ghost_name }
    ensures others { LeavesBut (roles_at Reading) (meanings H.Host disk.old.host.now) (meanings H.Host disk.new.host.now) }
    ensures refused { IfErr result (IsRefusedBy H.tells (meanings H.Host disk.old.host.now) (meanings H.Host disk.new.host.now) (EndsSource way)) }
{
    match way {
        Way::Listing => read_image(alloc, disk, source, MOST_ROOM),
        Way::Assembling => read_text(alloc, disk, source),
    }
}

// Attaches Image by its word, and reads the text that it is to its end.
fn read_text<H: Host>(
    alloc: Global,
    disk: &mut DiskObjects<'_, H>,
    text: &str,
) -> Result<Loaded, Status>
    requires room { disk_room disk.old.rest ≡ MOST_OBJECTS }
    requires empty { IsTrue (H.tells Role.Work) → IsDisk disk.old.rest (work_of H.Host disk.old.host.now) map.empty [] }
    requires none { disk_held disk.old.rest ≡ 0 }
    ensures attached { IsTrue (H.tells Role.Image) → AttachedOnce text.now (H.roles disk.old.host.now Role.Image) (H.roles disk.new.host.now Role.Image) }
    ensures source { IfOk result (λ x. HasSource H.Host disk.new.host.now disk.new.rest x.next) }
    ensures read { IsTrue (H.tells Role.Image) → IsTrue (H.tells Role.Work) → IfOk result (λ x. Reads Way.Assembling (bytes_of (H.roles disk.new.host.now Role.Image)) (heap_on H.Host disk.new.host.now disk.new.rest x.next) x.state
        × (x.objects ≡ object_count (heap_on H.Host disk.new.host.now disk.new.rest x.next))) }
    ensures end { IsTrue (H.tells Role.Image) → OnOk result (WasRead text.now (H.roles disk.new.host.now Role.Image)) }
    ensures judged { IsTrue (H.tells Role.Image) → IfErr result (λ status. JudgesSource Way.Assembling (H.tells Role.Work) status (bytes_of (H.roles disk.new.host.now Role.Image))) }
    ensures file { IsTrue (H.tells Role.Work) → IsSameFile (H.roles disk.old.host.now Role.Work) (H.roles disk.new.host.now Role.Work) }
    ensures same_host { disk.new.host.ghost_name ≡ disk.old.host.ghost_name }
    ensures others { LeavesBut (roles_at Reading) (meanings H.Host disk.old.host.now) (meanings H.Host disk.new.host.now) }
    ensures refused { IfErr result (IsRefusedBy H.tells (meanings H.Host disk.old.host.now) (meanings H.Host disk.new.host.now) (EndsSource Way.Assembling)) }
{
    if let Err(status) = open_image(disk, text) {
        return Err(status);
    }
    match assemble(alloc, disk, MOST_ROOM) {
        Ok(loaded) => Ok(loaded),
        Err(TextFault::Bad { line, rule }) => Err(Status::TextBad { line, rule }),
        Err(TextFault::Read { count }) => Err(Status::ReadFault {
            role: Role::Image,
            count,
        }),
        Err(TextFault::Disk(fault)) => Err(status_of_disk(fault)),
        Err(TextFault::Memory) => Err(Status::OutOfMemory),
    }
}

// Attaches Saved by its word, and puts the text or the image of what was read to it.
fn write_target<H: Host>(
    alloc: Global,
    disk: &mut DiskObjects<'_, H>,
    loaded: &Loaded,
    target: &str,
    way: Way,
) -> Result<(), Status>
    requires source { HasSource H.Host disk.old.host.now disk.old.rest loaded.now.next }
    ensures attached { IsTrue (H.tells Role.Saved) → AttachedOnce target.now (H.roles disk.old.host.now Role.Saved) (H.roles disk.new.host.now Role.Saved) }
    ensures put { IsTrue (H.tells Role.Saved) → IsTrue (H.tells Role.Work) → WrittenBy (is_ok result) target.now (spelled_by way (heap_on H.Host disk.old.host.now disk.old.rest loaded.now.next) loaded.now.state) (H.roles disk.old.host.now Role.Saved) (H.roles disk.new.host.now Role.Saved) }
    ensures file { H.roles disk.new.host.now Role.Work ≡ H.roles disk.old.host.now Role.Work }
    ensures same_host { disk.new.host.ghost_name ≡ disk.old.host.ghost_name }
    ensures others { LeavesBut (roles_at Saving) (meanings H.Host disk.old.host.now) (meanings H.Host disk.new.host.now) }
    ensures refused { IfErr result (IsRefusedBy H.tells (meanings H.Host disk.old.host.now) (meanings H.Host disk.new.host.now) EndsSaving) }
{
    if let Err(status) = open_saved(disk, target) {
        return Err(status);
    }
    match put_source(alloc, disk, loaded, way) {
        Ok(()) => Ok(()),
        Err(SaveFault::Write { count }) => Err(Status::WriteFault {
            role: Role::Saved,
            count,
        }),
        Err(SaveFault::Disk(fault)) => Err(status_of_disk(fault)),
        Err(SaveFault::Memory) => Err(Status::OutOfMemory),
    }
}

// Puts the text or the image of what was read to Saved.
fn put_source<H: Host>(
    alloc: Global,
    disk: &mut DiskObjects<'_, H>,
    loaded: &Loaded,
    way: Way,
) -> Result<(), SaveFault>
    requires source { HasSource H.Host disk.old.host.now disk.old.rest loaded.now.next }
    ensures puts { Puts H.Host disk.old.host.now disk.new.host.now (spelled_by way (heap_on H.Host disk.old.host.now disk.old.rest loaded.now.next) loaded.now.state) result }
    ensures rest { disk.new.rest ≡ disk.old.rest }
    ensures same_host { disk.new.host.ghost_name ≡ disk.old.host.ghost_name }
{
    match way {
        Way::Listing => list(alloc, disk, loaded.next, &loaded.state),
        Way::Assembling => save(alloc, disk, loaded.next, &loaded.state),
    }
}
