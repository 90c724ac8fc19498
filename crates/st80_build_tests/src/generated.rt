// A program of generated methods, built, and run on a small machine and on a large one.
use anyhow::{Context, Result, bail};
use case_runs::{EVENTS, IMAGE, Sizes, words_of};
use long_names::Octets;
use loom_outside::MemoryHost;
use loom_run::loom;
use st80_build::{Built, image_of};
use st80_program::{Program, Reading, Trees, Whole, program_of, trees_of};
use std::fs;

/// The classes that the methods need, and the methods.
const SOURCES: [&str; 2] = ["base.st", "generated.st"];

/// What they have to print.
const WANTED: &str = "generated.wanted";

/// A small machine and a large one.
const MACHINES: [Sizes<'static>; 2] = [
    Sizes {
        core: "4096",
        entries: "512",
        room: "131072",
    },
    Sizes {
        core: "1048576",
        entries: "32767",
        room: "131072",
    },
];

/// A host moves so many bytes at most in one call.
const CHUNK: usize = 65536;

fn program_in(rt: HostRuntime) -> Result<Program> {
    let mut texts = Vec::new(rt.alloc());
    for source in &SOURCES {
        texts.push(fs::read(&rt, *source).context("a source")?)?;
    }
    let mut slices = Vec::new(rt.alloc());
    for text in &texts {
        slices.push(text.as_slice())?;
    }
    match program_of(rt.alloc(), slices.as_slice())? {
        Reading::Program(program) => Ok(program),
        Reading::Wrong(problem) => {
            bail!("text {} is wrong at {}", problem.source, problem.place)
        }
    }
}

fn trees_in(rt: HostRuntime, program: &Program) -> Result<Trees> {
    match trees_of(rt.alloc(), program)? {
        Whole::Trees(trees) => Ok(trees),
        Whole::Wrong(problem) => {
            bail!(
                "a method of text {} is wrong at {}",
                problem.source,
                problem.place
            )
        }
    }
}

fn image_in(rt: HostRuntime) -> Result<Octets> {
    let program = program_in(rt)?;
    let trees = trees_in(rt, &program)?;
    match image_of(rt.alloc(), &program, &trees)? {
        Built::Image(made) => Ok(made.image),
        other => bail!("no image: {other:?}"),
    }
}

/// What an image says on a machine of these sizes.
fn said_by(rt: HostRuntime, image: &[u8], sizes: Sizes<'static>) -> Result<Vec<u8>> {
    let mut host = MemoryHost::new(rt.alloc(), CHUNK)?;
    host.add_file(IMAGE, image)?;
    host.add_file(EVENTS, &[])?;
    let words = words_of(rt.alloc(), sizes, "2147483647")?;
    let _status = loom(rt.alloc(), &mut host, words.as_slice());
    Ok(host.transcript().to_vec(rt.alloc())?)
}

/// Judges what the generated methods print.
pub(crate) fn report_generated(rt: HostRuntime) -> Result<()> {
    let wanted = fs::read(&rt, WANTED).context("what is wanted")?;
    let image = image_in(rt)?;
    for sizes in &MACHINES {
        let said = said_by(rt, image.bytes(), *sizes)?;
        let core = sizes.core;
        if said.as_slice() == wanted.as_slice() {
            println!(rt; "generated.st: as evaluated, in a core of {core} words")?;
        } else {
            println!(rt; "generated.st: otherwise than evaluated, in a core of {core} words")?;
        }
    }
    Ok(())
}
