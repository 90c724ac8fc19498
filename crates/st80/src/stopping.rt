// The machine as it was before the bytecode that stopped it: a run is the same each time, so it is run again, and ends there.
ghost use Rattle.std.specs.Prelude.{◌≡◌};
ghost use Rattle.loom_words.specs.Command.{HasLimits};

use crate::paths::source_word;
use crate::rows::{Source, row_of};
use crate::running::{Job, command_of};
use crate::why::tell_why;
use loom_words::{Command, MOST_CORE, MOST_ENTRIES, MOST_STEPS, Status};
use st80_explain::put_stuck;
use st80_files::{Failure, STREAM, Temporary, bytes_of, copy_out};
use st80_looks::labelled;
use st80_outside::{Hearing, ran_row};
use st80_words::{Unused, null_path};

// After how many bytecodes the machine stopped, where it was stopped by the next one.
fn stopped_after(status: &Status) -> Option<u32> {
    match status {
        Status::Stuck { ran, .. } | Status::CoreFull { ran, .. } | Status::NamesSpent { ran } => {
            Some(*ran)
        }
        _ => None,
    }
}

// The same run, for so many bytecodes, in the largest core, whose image goes to this file and whose picture goes nowhere.
fn command_until<'a>(job: &'a Job<'_>, ran: u32, saved: &'a str) -> Command<'a>
    ensures limits { HasLimits result }
{
    let command = command_of(job);
    Command {
        saved,
        display: null_path(Unused::Display),
        core: MOST_CORE,
        entries: MOST_ENTRIES as u16,
        steps: ran.min(MOST_STEPS),
        ..command
    }
}

// What is said where the machine can't be kept.
fn tell_unkept(rt: HostRuntime, status: &Status, row: &[String]) {
    if stopped_after(status).is_some() {
        let _ = rt.eprintln(
            "st80: the machine before that can't be kept: its start or its parking is what stopped it",
        );
        return;
    }
    let line = status.line();
    let _ = rt.eprint(format_args!("st80: the machine before that can't be kept: {line}"));
    tell_why(rt, status, row);
}

// What runs again; a guarded run keeps its checkpoints in another vault. None where the vault has moved on.
fn source_again<'a>(source: Source<'a>, vault: &'a str) -> Option<Source<'a>> {
    match source {
        Source::Image(image) => Some(Source::Image(image)),
        Source::Guarded(image, _) => Some(Source::Guarded(image, vault)),
        Source::Kept(_) => None,
    }
}

// Whether the machine was kept in this file. Where it wasn't, that is told.
fn run_until(
    rt: HostRuntime,
    room: &Temporary,
    job: &Job<'_>,
    ran: u32,
    saved: &str,
) -> Result<bool, Failure> {
    let command = command_until(job, ran, saved);
    let vault = room.file(rt, "vault")?;
    let Some(source) = source_again(job.source, vault.as_str()) else {
        let _ = rt.eprintln(
            "st80: the machine before that can't be kept: the vault of a resumed run has moved on",
        );
        return Ok(false);
    };
    let row = row_of(rt, source, &command)?;
    let ran = ran_row(rt, Hearing::Nobody, row)?;
    if matches!(ran.status(), Status::Done { .. } | Status::Quit { .. }) {
        return Ok(true);
    }
    tell_unkept(rt, ran.status(), ran.row());
    Ok(false)
}

// Says where the machine stands, in this image.
fn tell_stuck(rt: HostRuntime, job: &Job<'_>, path: &str, cause: u8) -> Result<(), Failure> {
    let bytes = bytes_of(rt, path)?;
    let view = labelled(rt, source_word(job.source), &bytes, None)?;
    let mut text = String::new(rt.alloc());
    put_stuck(rt.alloc(), &mut text, &view, cause)?;
    let _ = rt.eprint(text);
    Ok(())
}

/// Keeps the machine as it was before the bytecode that stopped it, where there is one and where that was asked for. What the machine said
/// isn't said again.
pub fn keep_stopped(
    rt: HostRuntime,
    room: &Temporary,
    job: &Job<'_>,
    status: &Status,
) -> Result<(), Failure> {
    let Some(ran) = stopped_after(status) else {
        return Ok(());
    };
    let path = match job.running.on_stop {
        Some(file) if file != STREAM => String::from_str(rt.alloc(), file)?,
        _ => room.file(rt, "stopped")?,
    };
    if !run_until(rt, room, job, ran, path.as_str())? {
        return Ok(());
    }
    if let Status::Stuck { cause, .. } = status {
        tell_stuck(rt, job, path.as_str(), *cause)?;
    }
    match job.running.on_stop {
        Some(STREAM) => copy_out(rt, path.as_str())?,
        Some(file) => {
            let _ = rt.eprintln(format_args!(
                "st80: the machine as it was before that is in {file}"
            ));
        }
        None => {}
    }
    Ok(())
}
