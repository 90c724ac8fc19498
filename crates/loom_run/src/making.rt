// The image of a number is made and written.
ghost use Rattle.std.specs.Prelude.{◌≡◌, ◌≤◌, [], ◌∷◌, is_ok, IsErr, IsTrue, OnErr, OnOk};
ghost use Rattle.long_names.specs.Counting.{Rose};
ghost use Rattle.loom_gen.specs.declared.generator.TheConstants.{LAST_NUMBER};
ghost use Rattle.loom_words.specs.Command.{make_for};
ghost use Rattle.loom_host.specs.Outside.{HasCause, SameBut, ends};
ghost use Rattle.loom_run.specs.Ends.{MadeBy};
ghost use Rattle.loom_run.specs.Meanings.{meanings, LeavesBut};
ghost use Rattle.loom_run.specs.Steps.{MakeEnds};

use loom_gen::{make, object_count};
use loom_host::{Failed, Host, Role, write_full};
use loom_words::{Making, Status};
use std::alloc::Global;

/// Makes the image of a number, attaches Saved by the name of its file, puts the image to it, and ends it. Without memory for the image
/// nothing is done.
pub(crate) fn make_image<H: Host>(alloc: Global, host: &mut H, making: &Making<'_>) -> Status
    requires number { making.now.number ≤ LAST_NUMBER }
    ensures ends { MakeEnds H.tells (meanings H.Host host.old) (meanings H.Host host.new) (make_for making.now) result }
{
    let Ok(image) = make(alloc, making.number) else {
        return Status::OutOfMemory;
    };
    match write_image(host, making.file, image.bytes()) {
        Ok(()) => Status::Made {
            objects: object_count(making.number),
        },
        Err(_) => Status::WriteFault {
            role: Role::Saved,
            count: host.fault_count(Role::Saved),
        },
    }
}

// Attaches Saved by the name of its file, puts an image to it, and ends it.
fn write_image<H: Host>(host: &mut H, file: &str, image: &[u8]) -> Result<(), Failed>
    ensures put { IsTrue (H.tells Role.Saved) → MadeBy (is_ok result) file.now image.now (H.roles host.old Role.Saved) (H.roles host.new Role.Saved) }
    ensures others { LeavesBut (Role.Saved ∷ []) (meanings H.Host host.old) (meanings H.Host host.new) }
    ensures rose { IsErr result → Rose (H.faults host.old Role.Saved) (H.faults host.new Role.Saved) }
{
    host.attach(Role::Saved, file)?;
    write_full(host, Role::Saved, image)?;
    end_saved(host)
}

/// Ends Saved by a piece of no bytes: what was put to it is whole.
pub(crate) fn end_saved<H: Host>(host: &mut H) -> Result<(), Failed>
    ensures ended { IsTrue (H.tells Role.Saved) → OnOk result (H.roles host.new Role.Saved ≡ ends (H.roles host.old Role.Saved)) }
    ensures still { IsTrue (H.tells Role.Saved) → OnErr result (H.roles host.new Role.Saved ≡ H.roles host.old Role.Saved) }
    ensures others { SameBut Role.Saved (H.roles host.old) (H.roles host.new) }
    ensures other_faults { SameBut Role.Saved (H.faults host.old) (H.faults host.new) }
    ensures writes { H.writes host.new ≡ H.writes host.old }
    ensures cause { HasCause (H.faults host.old Role.Saved) (H.faults host.new Role.Saved) result }
{
    host.write(Role::Saved, &[])?;
    Ok(())
}
