// The steps that read a run which goes on from a checkpoint: Work is attached, the image comes into it from bytes in memory, and the events are read.
ghost use Rattle.std.specs.Prelude.{◌≡◌, ◌≤◌, ℕ, [], IsTrue, IfErr, IfOk};
ghost use Rattle.loom_host.specs.Work.{work_of};
ghost use Rattle.loom_host.specs.declared.outside.Role.TheVariants as role;
ghost use Rattle.disk_objects.specs.Disk.{disk_room};
ghost use Rattle.image_format.specs.Rules as rules;
ghost use Rattle.image_reader.specs.Frames.{IsLoading};
ghost use Rattle.image_reader.specs.Loaded.{IsLoadFault, Loads, heap_on};
ghost use Rattle.image_memory.specs.Image.{HasImage};
ghost use Rattle.loom_words.specs.Command.{HasLimits, row_for};
ghost use Rattle.loom_words.specs.declared.status.Status.TheVariants as answer;
ghost use Rattle.loom_words.specs.declared.words.TheConstants.{LEAST_ROOM, MOST_ROOM};
ghost use Rattle.loom_run.specs.Ends.{JudgesImage};
ghost use Rattle.loom_run.specs.Meanings.{meanings, IsLeft, LeavesBut};
ghost use Rattle.loom_run.specs.Stages.{Listening, Reading, roles_at};
ghost use Rattle.loom_run.specs.Steps.{Came, IsRead, IsRefusal, IsSameFile};
ghost use Rattle.loom_guard.specs.Steps.{KeptReadEnds, status_by_load};
ghost use Rattle.loom_guard.specs.Ways.{imageless};

use checkpoint::ImageHost;
use disk_objects::{DiskObjects, DiskRest};
use image_reader::{LoadFault, Loaded, load};
use loom_host::{Host, Role};
use loom_run::steps::{Read, open_work, read_lines, status_of_disk};
use loom_words::{Command, Status};
use std::alloc::Global;

// The answer for an image that couldn't be loaded.
fn status_of_load(fault: LoadFault) -> Status
    ensures { result ≡ status_by_load fault }
{
    match fault {
        LoadFault::Bad { rule, place } => Status::ImageBad { rule, place },
        LoadFault::Read { count } => Status::ReadFault {
            role: Role::Image,
            count,
        },
        LoadFault::Disk(fault) => status_of_disk(fault),
        LoadFault::Memory => Status::OutOfMemory,
    }
}

// Reads Image of a host to its end, its objects going to Work, which is attached and empty.
fn load_over<H: Host>(
    alloc: Global,
    host: &mut H,
    room: u32,
) -> Result<(DiskRest, Loaded), LoadFault>
    requires some { LEAST_ROOM ≤ room }
    requires most { room ≤ MOST_ROOM }
    requires empty { IsTrue (H.tells role.Work) → work_of H.Host host.old ≡ [] }
    ensures loads { IfOk result (λ x. (image : rules.Image) × Loads H.Host host.old host.new room x.0 image × (x.1.next ≡ image.head.opening.next) × (x.1.state ≡ image.head.state)) }
    ensures image { IfOk result (λ x. HasImage H.Host host.new x.0 x.1) }
    ensures room { IfOk result (λ x. room ≡ disk_room x.0) }
    ensures loading { IsLoading H.Host host.old host.new }
    ensures fault { IfErr result (IsLoadFault H.Host host.old host.new room) }
{
    let mut disk = DiskObjects::begin(host, room);
    match load(alloc, &mut disk, room) {
        Ok(loaded) => {
            // by a name of its own, or the proof knows nothing of it any more
            let (host, rest) = disk.apart();
            let _host = host;
            Ok((rest, loaded))
        }
        Err(fault) => {
            let _host = disk.into_host();
            Err(fault)
        }
    }
}

// Reads an image from bytes in memory, its objects going to Work, which is attached and empty.
fn load_kept<H: Host>(
    alloc: Global,
    host: &mut H,
    image: &[u8],
    command: &Command<'_>,
) -> Result<(DiskRest, Loaded), Status>
    requires limits { HasLimits command.now }
    requires empty { IsTrue (H.tells role.Work) → work_of H.Host host.old ≡ [] }
    ensures image { IfOk result (λ x. HasImage H.Host host.new x.0 x.1) }
    ensures room { IfOk result (λ x. command.now.room ≡ disk_room x.0) }
    ensures read { IsTrue (H.tells role.Work) → IfOk result (λ x. IsRead image.now command.now.room x.1.state (heap_on H.Host host.new x.0 x.1.next)) }
    ensures judged { IfErr result (λ status. JudgesImage (H.tells role.Work) status command.now.room image.now) }
    ensures file { IsTrue (H.tells role.Work) → IsSameFile (H.roles host.old role.Work) (H.roles host.new role.Work) }
    ensures others { LeavesBut (roles_at Reading) (meanings H.Host host.old) (meanings H.Host host.new) }
    ensures imageless { IsLeft role.Image (meanings H.Host host.old) (meanings H.Host host.new) }
    ensures refused { IfErr result (IsRefusal H.tells (meanings H.Host host.old) (meanings H.Host host.new) (row_for command.now) Reading) }
    ensures never { IfErr result (λ status. (count : ℕ) → status ≡ answer.ReadFault role.Image count → ⊥) }
{
    let mut over = ImageHost::new(host, image);
    let loaded = load_over(alloc, &mut over, command.room);
    let _host = over.into_host();
    match loaded {
        Ok(kept) => Ok(kept),
        Err(fault) => Err(status_of_load(fault)),
    }
}

/// Attaches Work by its word, reads an image from bytes in memory, its objects going to Work, and attaches Events by its word and reads it. The first refusal is
/// the answer. Nothing is done with Image of the host.
pub fn read_kept<H: Host>(
    alloc: Global,
    host: &mut H,
    image: &[u8],
    command: &Command<'_>,
) -> Result<Read, Status>
    requires limits { HasLimits command.now }
    ensures came { IfOk result (λ read. Came (imageless H.tells) (meanings H.Host host.old) (meanings H.Host host.new) (row_for command.now) Listening read.loaded.state (heap_on H.Host host.new read.rest read.loaded.next) read.events) }
    ensures image { IfOk result (λ read. HasImage H.Host host.new read.rest read.loaded) }
    ensures room { IfOk result (λ read. command.now.room ≡ disk_room read.rest) }
    ensures read { IsTrue (H.tells role.Work) → IfOk result (λ read. IsRead image.now command.now.room read.loaded.state (heap_on H.Host host.new read.rest read.loaded.next)) }
    ensures imageless { IsLeft role.Image (meanings H.Host host.old) (meanings H.Host host.new) }
    ensures ends { IfErr result (KeptReadEnds H.tells (meanings H.Host host.old) (meanings H.Host host.new) (row_for command.now) image.now) }
{
    open_work(host, command.work)?;
    let kept = load_kept(alloc, host, image, command)?;
    let events = read_lines(alloc, host, command)?;
    Ok(Read {
        rest: kept.0,
        loaded: kept.1,
        events,
    })
}
