// How a run ended, as an answer.
ghost use Rattle.std.specs.Prelude.{◌≡◌, ℕ, false};
ghost use Rattle.blue_model.specs.Logs.{Course};
ghost use Rattle.blue_model.specs.Endings.{HasCounted, IsParkedBy};
ghost use Rattle.contexts.specs.Keeping.{is_kept};
ghost use Rattle.loom_run.specs.Ends.{GoesThrough, HasRun};
ghost use Rattle.loom_run.specs.Parts.{IsFinished, status_by, status_by_disk, status_by_fault};

use blue_model::Step;
use contexts::Stop;
use loom_host::{DiskFault, Role};
use loom_words::Status;
use machine_run::{Finished, Halted, Reason};
use object_memory::MemFault;

// The answer of a run that went through, and whose machine isn't to be kept.
pub(crate) fn status_of_end(finished: &Finished) -> Status
    requires { is_kept finished.now.end ≡ false }
    ensures finished { IsFinished result }
    ensures ran { (steps : ℕ) → HasCounted finished.now.end finished.now.ran steps → HasRun result steps }
    ensures goes { (c : Course) → IsParkedBy finished.now.end finished.now.ran c.ending → GoesThrough result c }
{
    let ran = finished.ran;
    match finished.end {
        Step::Next => Status::Done { ran },
        Step::Quit | Step::Keep => Status::Quit { ran },
    }
}

/// The answer of a run that ended before its end.
pub fn status_of(halted: &Halted) -> Status
    ensures { result ≡ status_by halted.now.why halted.now.ran }
{
    match halted.why {
        Reason::ByStop(Stop::Stuck(cause)) => Status::Stuck {
            cause: cause.number(),
            ran: halted.ran,
        },
        Reason::ByStop(Stop::Mem(fault)) => status_of_fault(fault, halted.ran),
        Reason::NoMemory => Status::OutOfMemory,
    }
}

/// The answer for a fault of the memory after so many bytecodes.
pub fn status_of_fault(fault: MemFault, ran: u32) -> Status
    ensures { result ≡ status_by_fault fault ran }
{
    match fault {
        MemFault::CoreFull(need) => Status::CoreFull { ran, need },
        MemFault::WorkFull { live, room } => Status::WorkFull { live, room },
        MemFault::WorkFault { count } => Status::WorkFault { count },
        MemFault::Damaged { place, name } => Status::Damaged { place, name },
        MemFault::NamesSpent => Status::NamesSpent { ran },
        MemFault::Said { count } => Status::WriteFault {
            role: Role::Transcript,
            count,
        },
        MemFault::Memory => Status::OutOfMemory,
    }
}

/// The answer for a fault of the disk.
pub fn status_of_disk(fault: DiskFault) -> Status
    ensures { result ≡ status_by_disk fault }
{
    match fault {
        DiskFault::Work { count } => Status::WorkFault { count },
        DiskFault::Full { held, room } => Status::WorkFull { live: held, room },
        DiskFault::Damaged { place, name } => Status::Damaged { place, name },
    }
}
