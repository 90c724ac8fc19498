//! The program `st80`: `loom` for people, and what looks at images.
//!
//! `main` reads the words (`st80_words`), makes a folder of the run's own in the temporary folder, does what was asked for, and removes the
//! folder. A run is a row of words for `loom`: `running` finds its files and tries those that will be written, `apart` refuses two that are one,
//! `ran_row` of `st80_outside` calls `loom_kept` with the row, and behind it `explain` and `why` say what the answer means and what the system
//! answers about a file. `stopping` keeps the machine as it was before the bytecode that stopped it, by running the same again up to there.
//!
//! All texts of errors go to standard error. What is shown goes to standard output.
//!
//! - Proved: It ends, nothing panics, and the exit code is one of the table in `specs/Codes.antt` (of st80_files). Each row that it runs is one that
//!   `loom` finds right, in which each role has the file that was asked for it, and the numbers are those that were asked for (`specs/Runs.antt`,
//!   `specs/Paths.antt`). A command that runs one ends with the code of `loom` for how that run ended, or says what else failed (`specs/Ends.antt`).
//!   What `build` and `eval` make of sources is an image of the texts that were asked for (`specs/Building.antt`).
//! - Tested: What it says, shows, writes and touches, on real files and streams, with more than a hundred mistakes (`tests/desk.sh`, `tests/build.sh`).
//! - Not said: What files and streams do, and the texts. That a command's own code becomes that of the process is read in the code.
#![tactic(auto)]

ghost use Rattle.std.specs.Prelude.{◌≡◌};
ghost use Rattle.std.specs.Process.{exit_status};
ghost use Rattle.st80_files.specs.Codes.{number_of};
ghost use Rattle.st80_files.specs.declared.codes.Code.{Code};

mod apart;
mod building;
mod converting;
mod paths;
mod rows;
mod running;
mod stopping;
mod telling;
mod tracing;
mod why;

use apart::{expect_apart, file_of};
use building::{build, evaluate};
use converting::{Way, between, make};
use rows::Source;
use running::run;
use st80_files::{Code, Failure, STREAM, Temporary, failed, put_bytes};
use st80_looks::{check, codes_text, compare, convert, look, manual_text};
use st80_words::{Refusal, Request, request_of};
use std::fs::File;
use std::process::ExitCode;
use std::rt::Files;
use std::{env, io};
use telling::tell;
use tracing::follow;

const NULL_DEVICE: &str = "/dev/null";

// Takes the places of the standard streams that are closed, so that no file of the run becomes one.
fn fill_streams(rt: HostRuntime) -> io::Result<[File; 3]> {
    Ok([
        File::open(&rt, NULL_DEVICE)?,
        File::open(&rt, NULL_DEVICE)?,
        File::open(&rt, NULL_DEVICE)?,
    ])
}

fn words_of(rt: HostRuntime) -> Result<Vec<String>, Failure> {
    match env::args(&rt) {
        Ok(args) => Ok(args.skip(1).collect(rt.alloc())?),
        Err(_) => Err(failed(rt.alloc(), Code::Words, "the words are no text")),
    }
}

// The command `picture`.
fn draw(
    rt: HostRuntime,
    pbm: &str,
    png: Option<&str>,
    scale: u32,
    width: Option<u32>,
) -> Result<Code, Failure> {
    expect_apart(
        rt,
        &[file_of(rt, "PBM", Some(pbm)), file_of(rt, "PNG", png)],
    )?;
    convert(rt, pbm, png, scale, width)
}

fn answer_in(rt: HostRuntime, room: &Temporary, request: &Request<'_>) -> Result<Code, Failure> {
    match *request {
        Request::Run { image, running } => Ok(run(rt, room, Source::Image(image), &running)?.code),
        Request::Guard {
            image,
            vault,
            running,
        } => Ok(run(rt, room, Source::Guarded(image, vault), &running)?.code),
        Request::Resume { vault, running } => {
            Ok(run(rt, room, Source::Kept(vault), &running)?.code)
        }
        Request::Make { number, file } => Ok(make(rt, room, number, file)?.code),
        Request::List { image, text } => { Ok(between(rt, room, Way::ToText, image, text)?.code) }
        Request::Assemble { text, image } => {
            Ok(between(rt, room, Way::ToImage, text, image)?.code)
        }
        Request::Picture {
            pbm,
            png,
            scale,
            width,
        } => draw(rt, pbm, png, scale, width),
        Request::Show {
            image,
            shown,
            names,
        } => look(rt, image, shown, names),
        Request::Diff { a, b, names } => compare(rt, a, b, names),
        Request::Check { file, names } => check(rt, file, names),
        Request::Trace { image, tracing } => follow(rt, room, image, &tracing),
        Request::Build { ref sources, image } => {
            build(rt, sources, None, image)?;
            Ok(Code::Well)
        }
        Request::Evaluate {
            statements,
            ref sources,
        } => Ok(evaluate(rt, room, sources, statements)?.code),
        Request::Manual => print(rt, &manual_text(rt.alloc())?),
        Request::Codes => print(rt, &codes_text(rt.alloc())?),
    }
}

fn print(rt: HostRuntime, text: &String) -> Result<Code, Failure> {
    put_bytes(rt, STREAM, text.as_bytes())?;
    Ok(Code::Well)
}

fn answer_to(rt: HostRuntime, request: &Request<'_>) -> Result<Code, Failure> {
    let room = Temporary::new(rt)?;
    let answer = answer_in(rt, &room, request);
    room.clear(rt);
    answer
}

fn answer(rt: HostRuntime) -> Result<Code, Failure> {
    let words = words_of(rt)?;
    match request_of(rt.alloc(), &words) {
        Ok(request) => answer_to(rt, &request),
        Err(Refusal::Help(text)) => {
            let _ = rt.print(text);
            Ok(Code::Well)
        }
        Err(Refusal::Words(text)) => {
            let _ = rt.eprint(text);
            Ok(Code::Words)
        }
        Err(Refusal::Memory) => Err(Failure::Memory),
    }
}

// How the program ends.
fn ending(rt: HostRuntime) -> Code {
    let Ok(_streams) = fill_streams(rt) else {
        return Code::NoStreams;
    };
    match answer(rt) {
        Ok(code) => code,
        Err(failure) => tell(rt, &failure),
    }
}

// What the process ends with.
fn exit_of(rt: HostRuntime) -> ExitCode
    // It is the number of a code of the table.
    ensures code { (code : Code) × (exit_status result ≡ number_of code) }
{
    let code = ending(rt);
    ExitCode::from(code.number())
}

fn main(rt: HostRuntime) -> ExitCode {
    exit_of(rt)
}
