// The commands `build` and `eval`.
ghost use Rattle.std.specs.Prelude.{◌≡◌, codes, IfOk};
ghost use Rattle.loom_words.specs.Command.{HasLimits};
ghost use Rattle.loom_words.specs.Words.{texts_of};
ghost use Rattle.st80.specs.Building.{IsBuildingOf, IsOnce, IsWhole, files_with};
ghost use Rattle.st80.specs.Ends.{IsEndOf};
ghost use Rattle.st80.specs.Runs.{files_for};
ghost use Rattle.st80_files.specs.Inside.{file_in, folder_at};
ghost use Rattle.st80_outside.specs.Ran.{words_of};
ghost use Rattle.st80_outside.specs.Right.{IsRight};

use crate::apart::{expect_apart, file_of};
use crate::rows::{Source, row_of};
use crate::telling::{Done, ended, tell_beside};
use crate::why::tell_why;
use loom_words::{Command, MOST_ROOM, MOST_STEPS, Status};
use st80_files::{Failure, STREAM, Stated, Temporary, stated_of, try_writing};
use st80_looks::explain;
use st80_make::{Building, Text, building_of, put_building, texts_of};
use st80_outside::{Hearing, Ran, ran_row};
use st80_words::{AskedSizes, Sources, Unused, null_path, sizes_for};

// The image is none of the files that were read, and can be written.
fn check_image(rt: HostRuntime, texts: &[Text], image: &str) -> Result<(), Failure> {
    for text in texts {
        expect_apart(
            rt,
            &[
                file_of(rt, "image", Some(image)),
                file_of(rt, "source", Some(text.word.as_str())),
            ],
        )?;
    }
    if image == STREAM {
        return Ok(());
    }
    try_writing(rt, image)
}

/// The command `build`, also of statements whose value is asked for. What it writes is an image of what was asked for.
pub fn build(
    rt: HostRuntime,
    sources: &Sources<'_>,
    statements: Option<&str>,
    image: &str,
) -> Result<Building, Failure>
    ensures { IfOk result (IsBuildingOf sources.now statements.entry) }
{
    let texts = texts_of(rt, sources, statements)?;
    check_image(rt, &texts, image)?;
    let building = building_of(rt.alloc(), texts)?;
    put_building(rt, image, &building)?;
    Ok(building)
}

// Statements may make many objects: there is as much room as there may be.
const SIZES: AskedSizes = AskedSizes {
    core: None,
    entries: None,
    room: Some(MOST_ROOM),
};

// A run of an image to its end that keeps nothing.
fn command_for<'a>(image: &'a str, work: &'a str, stated: Stated) -> Command<'a>
    ensures limits { HasLimits result }
    ensures files { files_for result ≡ files_with image.now work.now }
    ensures numbers { IsWhole stated result }
{
    let sizes = sizes_for(&SIZES, stated.objects, stated.bytes);
    Command {
        image,
        events: null_path(Unused::Events),
        work,
        saved: null_path(Unused::Saved),
        display: null_path(Unused::Display),
        core: sizes.core,
        entries: sizes.entries,
        room: sizes.room,
        steps: MOST_STEPS,
    }
}

fn row_for_image(rt: HostRuntime, room: &Temporary, image: &str) -> Result<Vec<String>, Failure>
    ensures once { IfOk result (λ words. IsOnce (folder_at room.now) image.now (texts_of words.items)) }
    ensures right { IfOk result (λ words. IsRight (texts_of words.items)) }
{
    let work = room.file(rt, "work")?;
    let command = command_for(image, work.as_str(), stated_of(rt, image));
    row_of(rt, Source::Image(image), &command)
}

// Says why a run ended so that didn't go through.
fn tell_ending(rt: HostRuntime, ran: &Ran) {
    match ran.status() {
        Status::Done { .. } | Status::Quit { .. } => {}
        status => {
            tell_beside(rt, explain(rt, status, ran.row()));
            tell_why(rt, status, ran.row());
        }
    }
}

/// The command `eval`. What it runs is the image that it made; what that says goes to standard output.
pub fn evaluate(
    rt: HostRuntime,
    room: &Temporary,
    sources: &Sources<'_>,
    statements: &str,
) -> Result<Done, Failure>
    ensures row { IfOk result (λ done. IsOnce (folder_at room.now) (file_in (folder_at room.now) (codes "image")) (words_of done.ran)) }
    ensures code { IfOk result IsEndOf }
{
    let image = room.file(rt, "image")?;
    build(rt, sources, Some(statements), image.as_str())?;
    let row = row_for_image(rt, room, image.as_str())?;
    let ran = ran_row(rt, Hearing::Output, row)?;
    tell_ending(rt, &ran);
    Ok(ended(ran))
}
