// The steps that write: the saved image, the picture, and the last line.
ghost use Rattle.std.specs.Prelude.{◌≡◌, ◌≤◌, [], ◌∷◌, is_ok, IsTrue, IfErr, OnOk, OnErr};
ghost use Rattle.loom_host.specs.Outside.{SameBut, ends};
ghost use Rattle.long_names.specs.Heap.{Heap};
ghost use Rattle.long_names.specs.Kept.{kept, no_roots};
ghost use Rattle.image_writer.specs.Saved.{saved_text};
ghost use Rattle.image_memory.specs.Image.{HasEnded};
ghost use Rattle.loom_words.specs.Command.{row_for};
ghost use Rattle.loom_run.specs.Ends.{AttachedOnce, MadeBy, WasRefused, WasWritten, WrittenBy};
ghost use Rattle.loom_run.specs.Meanings.{meanings, LeavesBut};
ghost use Rattle.loom_run.specs.Parts.{IsTold, unsaid};
ghost use Rattle.loom_run.specs.Stages.{Saving, Drawing, roles_at};
ghost use Rattle.loom_run.specs.Steps.{IsRefusal, IsRefusalAt, IsUnsaved};

use crate::making::end_saved;
use crate::status::status_of_disk;
use disk_objects::{DiskObjects, DiskRest};
use image_format::State;
use image_memory::save_kept;
use image_writer::SaveFault;
use loom_host::{Host, Role, write_full};
use loom_words::{Command, Status};
use std::alloc::Global;

/// Attaches Saved by its word.
pub(crate) fn open_saved<H: Host>(disk: &mut DiskObjects<'_, H>, saved: &str) -> Result<(), Status>
    ensures refusal { IsTrue (H.tells Role.Saved) → OnErr result (WasRefused saved.now (H.roles disk.old.host.now Role.Saved) (H.roles disk.new.host.now Role.Saved)) }
    ensures opened { IsTrue (H.tells Role.Saved) → OnOk result (WasWritten saved.now [] (H.roles disk.old.host.now Role.Saved) (H.roles disk.new.host.now Role.Saved)) }
    ensures once { IsTrue (H.tells Role.Saved) → AttachedOnce saved.now (H.roles disk.old.host.now Role.Saved) (H.roles disk.new.host.now Role.Saved) }
    ensures others { SameBut Role.Saved (H.roles disk.old.host.now) (H.roles disk.new.host.now) }
    ensures other_faults { SameBut Role.Saved (H.faults disk.old.host.now) (H.faults disk.new.host.now) }
    ensures later { H.faults disk.old.host.now Role.Saved ≤ H.faults disk.new.host.now Role.Saved }
    ensures rest { disk.new.rest ≡ disk.old.rest }
    ensures same_host { disk.new.host.ghost_name ≡ disk.old.host.ghost_name }
    ensures which { IfErr result IsUnsaved }
    ensures refused { IfErr result (IsRefusalAt H.tells (meanings H.Host disk.old.host.now) (meanings H.Host disk.new.host.now) Saving) }
{
    match disk.attach(Role::Saved, saved) {
        Ok(()) => Ok(()),
        Err(_) => Err(Status::WriteFault {
            role: Role::Saved,
            count: disk.fault_count(Role::Saved),
        }),
    }
}

/// Attaches Saved by its word, puts the image of what the disk has to it, with this next name and state, and ends it. It is refused by a fault of Saved or of the
/// disk, or for want of memory; Saved is ended where it isn't refused, and nowhere else.
pub fn write_saved<H: Host>(
    alloc: Global,
    host: &mut H,
    rest: DiskRest,
    next: u32,
    state: &State,
    command: &Command<'_>,
) -> Result<(), Status>
    requires ended { IsTrue (H.tells Role.Work) → (h : Heap) × HasEnded H.Host host.old rest next h }
    ensures attached { IsTrue (H.tells Role.Saved) → AttachedOnce command.now.saved.now (H.roles host.old Role.Saved) (H.roles host.new Role.Saved) }
    ensures put { IsTrue (H.tells Role.Saved) → IsTrue (H.tells Role.Work) → (h : Heap) → HasEnded H.Host host.old rest next h
        → MadeBy (is_ok result) command.now.saved.now (saved_text (kept h no_roots) state.now) (H.roles host.old Role.Saved) (H.roles host.new Role.Saved) }
    ensures file { H.roles host.new Role.Work ≡ H.roles host.old Role.Work }
    ensures others { LeavesBut (roles_at Saving) (meanings H.Host host.old) (meanings H.Host host.new) }
    ensures refused { IfErr result (IsRefusal H.tells (meanings H.Host host.old) (meanings H.Host host.new) (row_for command.now) Saving) }
{
    let mut disk = DiskObjects::again(host, rest);
    let put = put_saved(alloc, &mut disk, next, state, command);
    let host = disk.into_host();
    match put {
        Ok(()) => end_image(host),
        Err(status) => Err(status),
    }
}

// Ends Saved, to which the whole image was put. A failure is a write fault of Saved.
fn end_image<H: Host>(host: &mut H) -> Result<(), Status>
    ensures ended { IsTrue (H.tells Role.Saved) → OnOk result (H.roles host.new Role.Saved ≡ ends (H.roles host.old Role.Saved)) }
    ensures still { IsTrue (H.tells Role.Saved) → OnErr result (H.roles host.new Role.Saved ≡ H.roles host.old Role.Saved) }
    ensures others { SameBut Role.Saved (H.roles host.old) (H.roles host.new) }
    ensures other_faults { SameBut Role.Saved (H.faults host.old) (H.faults host.new) }
    ensures later { H.faults host.old Role.Saved ≤ H.faults host.new Role.Saved }
    ensures refused { IfErr result (IsRefusalAt H.tells (meanings H.Host host.old) (meanings H.Host host.new) Saving) }
{
    match end_saved(host) {
        Ok(()) => Ok(()),
        Err(_) => Err(Status::WriteFault {
            role: Role::Saved,
            count: host.fault_count(Role::Saved),
        }),
    }
}

// Attaches Saved by its word, and puts the image of what the disk has to it, with this next name and state.
fn put_saved<H: Host>(
    alloc: Global,
    disk: &mut DiskObjects<'_, H>,
    next: u32,
    state: &State,
    command: &Command<'_>,
) -> Result<(), Status>
    requires ended { IsTrue (H.tells Role.Work) → (h : Heap) × HasEnded H.Host disk.old.host.now disk.old.rest next h }
    ensures attached { IsTrue (H.tells Role.Saved) → AttachedOnce command.now.saved.now (H.roles disk.old.host.now Role.Saved) (H.roles disk.new.host.now Role.Saved) }
    ensures put { IsTrue (H.tells Role.Saved) → IsTrue (H.tells Role.Work) → (h : Heap) → HasEnded H.Host disk.old.host.now disk.old.rest next h
        → WrittenBy (is_ok result) command.now.saved.now (saved_text (kept h no_roots) state.now) (H.roles disk.old.host.now Role.Saved) (H.roles disk.new.host.now Role.Saved) }
    ensures file { H.roles disk.new.host.now Role.Work ≡ H.roles disk.old.host.now Role.Work }
    ensures same_host { disk.new.host.ghost_name ≡ disk.old.host.ghost_name }
    ensures others { LeavesBut (roles_at Saving) (meanings H.Host disk.old.host.now) (meanings H.Host disk.new.host.now) }
    ensures refused { IfErr result (IsRefusal H.tells (meanings H.Host disk.old.host.now) (meanings H.Host disk.new.host.now) (row_for command.now) Saving) }
{
    open_saved(disk, command.saved)?;
    match save_kept(alloc, disk, next, state) {
        Ok(()) => Ok(()),
        Err(SaveFault::Write { count }) => Err(Status::WriteFault {
            role: Role::Saved,
            count,
        }),
        Err(SaveFault::Disk(fault)) => Err(status_of_disk(fault)),
        Err(SaveFault::Memory) => Err(Status::OutOfMemory),
    }
}

/// Attaches Display by its word, and puts a picture to it, its bytes as they are. A failure is a write fault of Display.
pub fn write_display<H: Host>(
    host: &mut H,
    picture: &[u8],
    command: &Command<'_>,
) -> Result<(), Status>
    ensures attached { IsTrue (H.tells Role.Display) → AttachedOnce command.now.display.now (H.roles host.old Role.Display) (H.roles host.new Role.Display) }
    ensures put { IsTrue (H.tells Role.Display) → WrittenBy (is_ok result) command.now.display.now picture.now (H.roles host.old Role.Display) (H.roles host.new Role.Display) }
    ensures others { LeavesBut (roles_at Drawing) (meanings H.Host host.old) (meanings H.Host host.new) }
    ensures refused { IfErr result (IsRefusal H.tells (meanings H.Host host.old) (meanings H.Host host.new) (row_for command.now) Drawing) }
{
    if host.attach(Role::Display, command.display).is_err()
        || write_full(host, Role::Display, picture).is_err()
    {
        return Err(Status::WriteFault {
            role: Role::Display,
            count: host.fault_count(Role::Display),
        });
    }
    Ok(())
}

/// Puts the last line to Notes. Only Done, Quit, Made, Listed and Assembled become another answer where that fails.
pub fn tell<H: Host>(host: &mut H, status: Status) -> Status
    ensures told { IsTold (H.tells Role.Notes) status result (meanings H.Host host.old) (meanings H.Host host.new) }
    ensures others { LeavesBut (Role.Notes ∷ []) (meanings H.Host host.old) (meanings H.Host host.new) }
{
    let line = status.line();
    match write_full(host, Role::Notes, line.as_str().as_bytes()) {
        Ok(()) => status,
        Err(_) => unsaid(host, status),
    }
}

// The answer where the last line couldn't be written.
fn unsaid<H: Host>(host: &H, status: Status) -> Status
    ensures { result ≡ unsaid status (H.faults host.now Role.Notes) }
{
    match status {
        Status::Done { .. }
        | Status::Quit { .. }
        | Status::Made { .. }
        | Status::Listed { .. }
        | Status::Assembled { .. } => Status::WriteFault {
            role: Role::Notes,
            count: host.fault_count(Role::Notes),
        },
        _ => status,
    }
}
