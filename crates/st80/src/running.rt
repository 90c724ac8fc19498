// The commands that run a machine: where its files are, and what is done behind the run.
ghost use Rattle.std.specs.Prelude.{◌≡◌, IfOk};
ghost use Rattle.loom_words.specs.Command.{HasLimits};
ghost use Rattle.st80.specs.Ends.{IsEndOf};
ghost use Rattle.st80.specs.Paths.{AreFiles, files_at};
ghost use Rattle.st80.specs.Runs.{HasNumbers, IsRunOf, files_for};
ghost use Rattle.st80_files.specs.Inside.{folder_at};
ghost use Rattle.st80_outside.specs.Ran.{words_of};

use crate::apart::{expect_apart, file_of};
use crate::paths::{Paths, paths_of, source_word};
use crate::rows::{Source, print_row, row_of};
use crate::stopping::keep_stopped;
use crate::telling::{Done, ended, tell_beside};
use crate::why::tell_why;
use loom_outside::Identity;
use loom_words::{Command, Status};
use st80_files::{
    Code, Failure, STREAM, Stated, Temporary, copy_out, failed, stated_of, try_writing,
};
use st80_looks::{Drawing, drawing_of, explain, finish_picture};
use st80_outside::{Hearing, Ran, ran_row};
use st80_words::{Running, Saving, sizes_for};
use std::fs::File;

/// A run: what runs, how, where its files are, and what its image states.
#[derive(Drop)]
pub struct Job<'a> {
    pub source: Source<'a>,
    pub running: Running<'a>,
    pub paths: Paths,
    pub drawing: Drawing<'a>,
    pub stated: Stated,
}

/// The run as a command of `loom`.
pub fn command_of<'a>(job: &'a Job<'_>) -> Command<'a>
    ensures limits { HasLimits result }
    ensures files { files_for result ≡ files_at job.now.paths }
    ensures numbers { HasNumbers job.now.running job.now.stated result }
{
    let sizes = sizes_for(&job.running.sizes, job.stated.objects, job.stated.bytes);
    Command {
        image: job.paths.image.as_str(),
        events: job.paths.events.as_str(),
        work: job.paths.work.as_str(),
        saved: job.paths.saved.as_str(),
        display: job.paths.display.as_str(),
        core: sizes.core,
        entries: sizes.entries,
        room: sizes.room,
        steps: job.running.steps,
    }
}

// How many of these words are the one for a standard stream.
fn streams_among(words: &[Option<&str>]) -> u32 {
    let mut count = 0_u32;
    for word in words {
        if *word == Some(STREAM) {
            count = count.saturating_add(1);
        }
    }
    count
}

// One file at most comes from standard input, and one at most goes to standard output.
fn check_streams(
    rt: HostRuntime,
    source: Source<'_>,
    running: &Running<'_>,
) -> Result<(), Failure> {
    let image = match source {
        Source::Image(image) | Source::Guarded(image, _) => Some(image),
        Source::Kept(_) => None,
    };
    if streams_among(&[image, running.events]) > 1 {
        let text = "only one file can come from standard input";
        return Err(failed(rt.alloc(), Code::Words, text));
    }
    let saved = match running.saving {
        Saving::To(word) => Some(word),
        _ => None,
    };
    if streams_among(&[saved, running.picture, running.on_stop]) > 1 {
        let text = "only one file can go to standard output";
        return Err(failed(rt.alloc(), Code::Words, text));
    }
    Ok(())
}

// What is written is another file than the image that is read.
fn expect_other(rt: HostRuntime, image: Option<Identity>, file: &str) -> Result<(), Failure> {
    if Identity::named(&rt, file) == image {
        let text = format!(in rt.alloc();
            "{file} is the image itself, which only --in-place writes over"
        )?;
        return Err(failed(rt.alloc(), Code::CantWrite, text.as_str()));
    }
    Ok(())
}

// The image that is read is written over only where that was asked for, by whatever name and whatever is written.
fn check_image(rt: HostRuntime, job: &Job<'_>) -> Result<(), Failure> {
    let image = Identity::named(&rt, job.paths.image.as_str());
    if image.is_none() {
        return Ok(());
    }
    if job.running.saving != Saving::Over {
        expect_other(rt, image, job.paths.saved.as_str())?;
    }
    if let Drawing::Png(file) = job.drawing {
        expect_other(rt, image, file)?;
    }
    match job.running.on_stop {
        Some(file) => expect_other(rt, image, file),
        None => Ok(()),
    }
}

// No file that is written is another one of the run. Of the image that is read more is said above and below.
fn check_apart(rt: HostRuntime, job: &Job<'_>) -> Result<(), Failure> {
    let vault = match job.source {
        Source::Image(_) => None,
        Source::Guarded(_, vault) | Source::Kept(vault) => Some(vault),
    };
    let picture = match job.drawing {
        Drawing::Pbm(file) | Drawing::Png(file) => Some(file),
        _ => None,
    };
    let saved = match job.running.saving {
        Saving::Nowhere | Saving::To(STREAM) => None,
        _ => Some(job.paths.saved.as_str()),
    };
    expect_apart(
        rt,
        &[
            file_of(rt, "vault", vault),
            file_of(rt, "work file", job.running.work),
            file_of(rt, "picture", picture),
            file_of(rt, "file of --on-stop", job.running.on_stop),
            file_of(rt, "saved image", saved),
            file_of(rt, "events", job.running.events),
        ],
    )
}

// Whether the image, or the vault, can be read at all. Where it can't, that is what has to be told.
fn can_read(rt: HostRuntime, job: &Job<'_>) -> bool {
    match job.source {
        Source::Kept(vault) => File::open(&rt, vault).is_ok(),
        _ => File::open(&rt, job.paths.image.as_str()).is_ok(),
    }
}

// Tries the files that will be written.
fn check_written(rt: HostRuntime, job: &Job<'_>) -> Result<(), Failure> {
    if !can_read(rt, job) {
        return Ok(());
    }
    if job.running.saving != Saving::Nowhere {
        try_writing(rt, job.paths.saved.as_str())?;
    }
    match job.drawing {
        Drawing::Pbm(file) | Drawing::Png(file) => try_writing(rt, file)?,
        _ => {}
    }
    match job.running.on_stop {
        Some(file) if file != STREAM => try_writing(rt, file)?,
        _ => {}
    }
    if let Some(file) = job.running.work {
        try_writing(rt, file)?;
    }
    if let Source::Guarded(_, vault) = job.source {
        try_writing(rt, vault)?;
    }
    Ok(())
}

fn job_of<'a>(
    rt: HostRuntime,
    room: &Temporary,
    source: Source<'a>,
    running: &Running<'a>,
) -> Result<Job<'a>, Failure>
    ensures source { IfOk result (λ job. job.source ≡ source.entry) }
    ensures running { IfOk result (λ job. job.running ≡ running.now) }
    ensures files { IfOk result (λ job. AreFiles (folder_at room.now) source.entry running.now job.drawing (files_at job.paths)) }
{
    check_streams(rt, source, running)?;
    let drawing = drawing_of(rt, running.picture);
    let paths = paths_of(rt, room, source, running, drawing)?;
    let stated = match source {
        Source::Kept(vault) => stated_of(rt, vault),
        _ => stated_of(rt, paths.image.as_str()),
    };
    Ok(Job {
        source,
        running: *running,
        paths,
        drawing,
        stated,
    })
}

// What is done behind a run that went through.
fn finish(rt: HostRuntime, job: &Job<'_>) -> Result<(), Failure> {
    let saved = job.paths.saved.as_str();
    match job.running.saving {
        Saving::To(STREAM) => copy_out(rt, saved)?,
        Saving::Nowhere => {}
        Saving::Beside if source_word(job.source) == STREAM => {}
        _ => {
            let _ = rt.eprintln(format_args!("saved: {saved}"));
        }
    }
    finish_picture(rt, job.drawing, job.paths.display.as_str())
}

// Whether a file goes to standard output behind the run.
fn has_output(job: &Job<'_>) -> bool {
    let saved = match job.running.saving {
        Saving::To(word) => word,
        _ => "",
    };
    saved == STREAM || job.running.picture == Some(STREAM) || job.running.on_stop == Some(STREAM)
}

// Who hears a run. What the machine says goes to standard error where a file goes to standard output.
fn hearing_of(job: &Job<'_>) -> Hearing {
    if has_output(job) {
        Hearing::Errors
    } else {
        Hearing::Output
    }
}

// Says why a run ended so that didn't go through. What fails in that is told, and changes no code.
fn tell_ending(rt: HostRuntime, room: &Temporary, job: &Job<'_>, ran: &Ran) {
    let status = ran.status();
    tell_beside(rt, explain(rt, status, ran.row()));
    tell_why(rt, status, ran.row());
    tell_beside(rt, keep_stopped(rt, room, job, status));
}

/// Runs a machine. Its row is of the files and the numbers that were asked for, and its code is that of the run, whatever fails in what is said of
/// it.
pub fn run(
    rt: HostRuntime,
    room: &Temporary,
    source: Source<'_>,
    running: &Running<'_>,
) -> Result<Done, Failure>
    ensures row { IfOk result (λ done. IsRunOf (folder_at room.now) source.entry running.now (words_of done.ran)) }
    ensures code { IfOk result IsEndOf }
{
    let job = job_of(rt, room, source, running)?;
    check_image(rt, &job)?;
    check_apart(rt, &job)?;
    check_written(rt, &job)?;
    let command = command_of(&job);
    let row = row_of(rt, source, &command)?;
    print_row(rt, &row);
    let ran = ran_row(rt, hearing_of(&job), row)?;
    match ran.status() {
        Status::Done { .. } | Status::Quit { .. } => finish(rt, &job)?,
        _ => tell_ending(rt, room, &job, &ran),
    }
    Ok(ended(ran))
}
