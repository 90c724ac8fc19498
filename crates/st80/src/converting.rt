// The commands `make`, `list` and `asm`.
ghost use Rattle.std.specs.Prelude.{◌≡◌, IfOk};
ghost use Rattle.loom_words.specs.Command.{paths_for};
ghost use Rattle.loom_words.specs.Words.{ArePaths, texts_of};
ghost use Rattle.st80.specs.Ends.{IsEndOf};
ghost use Rattle.st80.specs.Rows.{verb_for};
ghost use Rattle.st80.specs.Runs.{IsBetween, IsMaking};
ghost use Rattle.st80_files.specs.Inside.{folder_at};
ghost use Rattle.st80_outside.specs.Ran.{words_of};
ghost use Rattle.st80_outside.specs.Right.{IsRight};

use crate::apart::{expect_apart, file_of};
use crate::paths::{read_path, written_path};
use crate::rows::{clash_failed, print_row};
use crate::telling::{Done, ended, tell_beside};
use crate::why::tell_why;
use loom_words::{Conversion, Making, Status};
use st80_files::{Failure, STREAM, Temporary, copy_out, try_writing};
use st80_looks::explain;
use st80_outside::{Hearing, ran_row};
use st80_words::{Clash, LargeNumber, asm_row, list_row, make_row};
use std::alloc::{AllocError, Global};

// Runs a row whose file goes to standard output where its word is `-`.
fn convert(rt: HostRuntime, row: Vec<String>, word: &str, target: &str) -> Result<Done, Failure>
    requires right { IsRight (texts_of row.items) }
    ensures row { IfOk result (λ done. words_of done.ran ≡ texts_of row.items) }
    ensures code { IfOk result IsEndOf }
{
    if word != STREAM {
        try_writing(rt, target)?;
    }
    print_row(rt, &row);
    let ran = ran_row(rt, Hearing::Output, row)?;
    match ran.status() {
        Status::Made { .. } | Status::Listed { .. } | Status::Assembled { .. } => {
            if word == STREAM {
                copy_out(rt, target)?;
            }
        }
        status => {
            tell_beside(rt, explain(rt, status, ran.row()));
            tell_why(rt, status, ran.row());
        }
    }
    Ok(ended(ran))
}

/// The command `make`.
pub fn make(
    rt: HostRuntime,
    room: &Temporary,
    number: LargeNumber,
    file: &str,
) -> Result<Done, Failure>
    ensures row { IfOk result (λ done. IsMaking (folder_at room.now) number.number file.now (words_of done.ran)) }
    ensures code { IfOk result IsEndOf }
{
    let target = written_path(rt, room, file, "made")?;
    let making = Making {
        number: number.number,
        file: target.as_str(),
    };
    let row = make_row(rt.alloc(), &making)?;
    convert(rt, row, file, target.as_str())
}

/// Which way an image and a text are converted.
#[derive(Clone, Copy, Debug, PartialEq, Eq)]
pub enum Way {
    ToText,
    ToImage,
}

fn row_of(rt: HostRuntime, way: Way, conversion: &Conversion<'_>) -> Result<Vec<String>, Failure>
    ensures paths { IfOk result (λ words. ArePaths (verb_for way) (texts_of words.items) (paths_for conversion.now)) }
    ensures right { IfOk result (λ words. IsRight (texts_of words.items)) }
{
    if conversion.work == conversion.source || conversion.work == conversion.target {
        let clash = Clash {
            one: "work file",
            other: "file that is read or written",
        };
        return Err(clash_failed(rt, clash));
    }
    match way {
        Way::ToText => Ok(list_row(rt.alloc(), conversion)?),
        Way::ToImage => Ok(asm_row(rt.alloc(), conversion)?),
    }
}

// What the file that is read is called in what is said, and the one that is written.
fn names_of(way: Way) -> (&'static str, &'static str) {
    match way {
        Way::ToText => ("image", "text"),
        Way::ToImage => ("text", "image"),
    }
}

/// The commands `list` and `asm`.
pub fn between(
    rt: HostRuntime,
    room: &Temporary,
    way: Way,
    source: &str,
    word: &str,
) -> Result<Done, Failure>
    ensures row { IfOk result (λ done. IsBetween (folder_at room.now) way source.now word.now (words_of done.ran)) }
    ensures code { IfOk result IsEndOf }
{
    let (read, written) = names_of(way);
    expect_apart(
        rt,
        &[
            file_of(rt, read, Some(source)),
            file_of(rt, written, Some(word)),
        ],
    )?;
    let source = read_path(rt, room, source, "read")?;
    let target = written_path(rt, room, word, "written")?;
    let work = room.file(rt, "work")?;
    let conversion = Conversion {
        source: source.as_str(),
        work: work.as_str(),
        target: target.as_str(),
    };
    let row = row_of(rt, way, &conversion)?;
    convert(rt, row, word, target.as_str())
}
