// The steps that read: Work is attached, the image comes into it, and the events are read. A run and a trace begin with them.
ghost use Rattle.std.specs.Prelude.{◌≡◌, ◌≤◌, ℕ, Bool, List, [], Some, IsTrue, IfOk, IfErr, OnOk};
ghost use Rattle.loom_host.specs.Outside.{SameBut};
ghost use Rattle.std.specs.FinMap as map;
ghost use Rattle.loom_host.specs.Work.{work_of};
ghost use Rattle.disk_objects.specs.Disk.{IsDisk, disk_held, disk_room};
ghost use Rattle.image_reader.specs.Loaded.{heap_on};
ghost use Rattle.image_memory.specs.Image.{HasImage};
ghost use Rattle.long_names.specs.Heap.{object_count};
ghost use Rattle.loom_words.specs.Command.{HasLimits, row_for};
ghost use Rattle.loom_run.specs.Ends.{AreEvents, AttachedOnce, JudgesEvents, JudgesImage, WasRead, bytes_of};
ghost use Rattle.loom_run.specs.Meanings.{meanings, LeavesBut};
ghost use Rattle.loom_run.specs.Stages.{Opening, Reading, Listening, roles_at};
ghost use Rattle.loom_run.specs.Steps.{Came, IsRead, IsReadRefusal, IsRefusal, IsRefusalAt, IsSameFile, IsUnopened, ReadEnds};

use crate::status::status_of_disk;
use disk_objects::{DiskObjects, DiskRest};
use event_file::{EventFault, EventList, read_events};
use image_reader::{LoadFault, Loaded, load};
use loom_host::{Host, Role};
use loom_words::{Command, Status};
use std::alloc::Global;

/// What was read before a memory is made.
#[derive(Drop)]
pub struct Read {
    /// The disk, taken apart; the image's objects are in Work.
    pub rest: DiskRest,
    pub loaded: Loaded,
    pub events: EventList,
}

/// Attaches Work, and then Image and Events, by their words, and reads these two to their ends. The first refusal is the answer, and what comes behind it
/// isn't attached.
pub fn read_all<H: Host>(alloc: Global, host: &mut H, command: &Command<'_>) -> Result<Read, Status>
    requires limits { HasLimits command.now }
    ensures came { IfOk result (λ read. Came H.tells (meanings H.Host host.old) (meanings H.Host host.new) (row_for command.now) Listening read.loaded.state (heap_on H.Host host.new read.rest read.loaded.next) read.events) }
    ensures image { IfOk result (λ read. HasImage H.Host host.new read.rest read.loaded) }
    ensures room { IfOk result (λ read. command.now.room ≡ disk_room read.rest) }
    ensures ends { IfErr result (ReadEnds H.tells (meanings H.Host host.old) (meanings H.Host host.new) (row_for command.now)) }
{
    open_work(host, command.work)?;
    let mut disk = DiskObjects::begin(host, command.room);
    let image = read_image(alloc, &mut disk, command.image, command.room);
    let (host, rest) = disk.apart();
    let loaded = image?;
    let events = read_lines(alloc, host, command)?;
    Ok(Read {
        rest,
        loaded,
        events,
    })
}

/// Attaches Work by its word. A failure is a fault of Work.
pub fn open_work<H: Host>(host: &mut H, work: &str) -> Result<(), Status>
    ensures attached { IsTrue (H.tells Role.Work) → AttachedOnce work.now (H.roles host.old Role.Work) (H.roles host.new Role.Work) }
    ensures named { IsTrue (H.tells Role.Work) → OnOk result ((H.roles host.new Role.Work).name ≡ Some work.now) }
    ensures empty { IsTrue (H.tells Role.Work) → OnOk result (work_of H.Host host.new ≡ []) }
    ensures others { LeavesBut (roles_at Opening) (meanings H.Host host.old) (meanings H.Host host.new) }
    ensures refused { IfErr result (IsRefusalAt H.tells (meanings H.Host host.old) (meanings H.Host host.new) Opening) }
{
    match host.attach(Role::Work, work) {
        Ok(()) => Ok(()),
        Err(_) => Err(Status::WorkFault {
            count: host.fault_count(Role::Work),
        }),
    }
}

/// Attaches Image by its word. A refusal says nothing of its bytes.
pub(crate) fn open_image<H: Host>(disk: &mut DiskObjects<'_, H>, image: &str) -> Result<(), Status>
    ensures attached { IsTrue (H.tells Role.Image) → AttachedOnce image.now (H.roles disk.old.host.now Role.Image) (H.roles disk.new.host.now Role.Image) }
    ensures named { IsTrue (H.tells Role.Image) → OnOk result ((H.roles disk.new.host.now Role.Image).name ≡ Some image.now) }
    ensures fresh { IsTrue (H.tells Role.Image) → OnOk result ((H.roles disk.new.host.now Role.Image).taken ≡ []) }
    ensures others { SameBut Role.Image (H.roles disk.old.host.now) (H.roles disk.new.host.now) }
    ensures other_faults { SameBut Role.Image (H.faults disk.old.host.now) (H.faults disk.new.host.now) }
    ensures later { H.faults disk.old.host.now Role.Image ≤ H.faults disk.new.host.now Role.Image }
    ensures writes { H.writes disk.new.host.now ≡ H.writes disk.old.host.now }
    ensures rest { disk.new.rest ≡ disk.old.rest }
    ensures same_host { disk.new.host.ghost_name ≡ disk.old.host.ghost_name }
    ensures refused { IfErr result (IsRefusalAt H.tells (meanings H.Host disk.old.host.now) (meanings H.Host disk.new.host.now) Reading) }
    ensures unopened { IfErr result IsUnopened }
    ensures judged { (work : Bool) (room : ℕ) (bytes : List ℕ) → IfErr result (λ status. JudgesImage work status room bytes) }
{
    match disk.attach(Role::Image, image) {
        Ok(()) => Ok(()),
        Err(_) => Err(Status::ReadFault {
            role: Role::Image,
            count: disk.fault_count(Role::Image),
        }),
    }
}

/// Attaches Image by its word, and reads it to its end, its objects going to the disk, which has room for `room` of them. The answer has the next name, how
/// many objects there are, and the state. It is refused for a rule that the bytes break, for want of room, by a fault of Image or of the disk, or for want of
/// memory.
pub fn read_image<H: Host>(
    alloc: Global,
    disk: &mut DiskObjects<'_, H>,
    image: &str,
    room: u32,
) -> Result<Loaded, Status>
    requires room { room ≡ disk_room disk.old.rest }
    requires empty { IsTrue (H.tells Role.Work) → IsDisk disk.old.rest (work_of H.Host disk.old.host.now) map.empty [] }
    requires none { disk_held disk.old.rest ≡ 0 }
    ensures attached { IsTrue (H.tells Role.Image) → AttachedOnce image.now (H.roles disk.old.host.now Role.Image) (H.roles disk.new.host.now Role.Image) }
    ensures image { IfOk result (HasImage H.Host disk.new.host.now disk.new.rest) }
    ensures read { IsTrue (H.tells Role.Image) → IsTrue (H.tells Role.Work) → IfOk result (λ x. IsRead (bytes_of (H.roles disk.new.host.now Role.Image)) room x.state (heap_on H.Host disk.new.host.now disk.new.rest x.next)) }
    ensures objects { IsTrue (H.tells Role.Image) → IsTrue (H.tells Role.Work) → IfOk result (λ x. x.objects ≡ object_count (heap_on H.Host disk.new.host.now disk.new.rest x.next)) }
    ensures end { IsTrue (H.tells Role.Image) → OnOk result (WasRead image.now (H.roles disk.new.host.now Role.Image)) }
    ensures judged { IsTrue (H.tells Role.Image) → IfErr result (λ status. JudgesImage (H.tells Role.Work) status room (bytes_of (H.roles disk.new.host.now Role.Image))) }
    ensures file { IsTrue (H.tells Role.Work) → IsSameFile (H.roles disk.old.host.now Role.Work) (H.roles disk.new.host.now Role.Work) }
    ensures kept { disk_room disk.new.rest ≡ disk_room disk.old.rest }
    ensures same_host { disk.new.host.ghost_name ≡ disk.old.host.ghost_name }
    ensures others { LeavesBut (roles_at Reading) (meanings H.Host disk.old.host.now) (meanings H.Host disk.new.host.now) }
    ensures refused { IfErr result (IsReadRefusal H.tells (meanings H.Host disk.old.host.now) (meanings H.Host disk.new.host.now) room) }
{
    open_image(disk, image)?;
    match load(alloc, disk, room) {
        Ok(loaded) => Ok(loaded),
        Err(LoadFault::Bad { rule, place }) => Err(Status::ImageBad { rule, place }),
        Err(LoadFault::Read { count }) => Err(Status::ReadFault {
            role: Role::Image,
            count,
        }),
        Err(LoadFault::Disk(fault)) => Err(status_of_disk(fault)),
        Err(LoadFault::Memory) => Err(Status::OutOfMemory),
    }
}

/// Attaches Events by its word, and reads them to their end. It is refused for a bad line, by a fault of Events, or for want of memory.
pub fn read_lines<H: Host>(
    alloc: Global,
    host: &mut H,
    command: &Command<'_>,
) -> Result<EventList, Status>
    ensures attached { IsTrue (H.tells Role.Events) → AttachedOnce command.now.events.now (H.roles host.old Role.Events) (H.roles host.new Role.Events) }
    ensures list { IsTrue (H.tells Role.Events) → IfOk result (AreEvents (bytes_of (H.roles host.new Role.Events))) }
    ensures end { IsTrue (H.tells Role.Events) → OnOk result (WasRead command.now.events.now (H.roles host.new Role.Events)) }
    ensures judged { IsTrue (H.tells Role.Events) → IfErr result (λ status. JudgesEvents status (bytes_of (H.roles host.new Role.Events))) }
    ensures others { LeavesBut (roles_at Listening) (meanings H.Host host.old) (meanings H.Host host.new) }
    ensures refused { IfErr result (IsRefusal H.tells (meanings H.Host host.old) (meanings H.Host host.new) (row_for command.now) Listening) }
{
    let Ok(()) = host.attach(Role::Events, command.events) else {
        return Err(Status::ReadFault {
            role: Role::Events,
            count: host.fault_count(Role::Events),
        });
    };
    match read_events(alloc, host) {
        Ok(events) => Ok(events),
        Err(EventFault::Bad { line }) => Err(Status::EventsBad { line }),
        Err(EventFault::Read { count }) => Err(Status::ReadFault {
            role: Role::Events,
            count,
        }),
        Err(EventFault::Memory) => Err(Status::OutOfMemory),
    }
}
