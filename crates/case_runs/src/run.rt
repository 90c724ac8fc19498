// A case, run.
ghost use Rattle.std.specs.Prelude.{◌<◌};

use crate::answer::Answer;
use crate::case::Case;
use crate::sizes::Sizes;
use loom_outside::MemoryHost;
use loom_run::loom;
use std::alloc::{AllocError, Global};

/// The name of a case's image.
pub const IMAGE: &str = "image";

/// The name of its events.
pub const EVENTS: &str = "events";

/// The name of its work file.
pub const WORK: &str = "work";

/// The name of the file that a run saves.
pub const SAVED: &str = "saved";

/// The name of the file of its picture.
pub const DISPLAY: &str = "display";

/// How a case is run: under these events, on a machine of these sizes, over a host that moves so many bytes at most in one call.
#[derive(Clone, Copy, Debug)]
pub struct Way<'a> {
    pub events: &'a [u8],
    pub sizes: Sizes<'a>,
    pub chunk: usize,
}

/// What the program answers to a case, over a host that has its image and the events as files.
pub fn answer_to(alloc: Global, case: &Case<'_>, way: Way<'_>) -> Result<Answer, AllocError>
    requires { 0 < way.chunk }
{
    let mut host = host_of(alloc, case, way)?;
    let words = words_of(alloc, way.sizes, case.steps)?;
    let status = loom(alloc, &mut host, &words);
    Ok(Answer {
        status: status.code(),
        notes: host.notes().to_vec(alloc)?,
        transcript: host.transcript().to_vec(alloc)?,
        saved: copied(alloc, host.file(SAVED))?,
        display: copied(alloc, host.file(DISPLAY))?,
    })
}

/// A host that has the image of a case and the events of a way as the files that `words_of` names.
pub fn host_of(alloc: Global, case: &Case<'_>, way: Way<'_>) -> Result<MemoryHost, AllocError>
    requires { 0 < way.chunk }
{
    let mut host = MemoryHost::new(alloc, way.chunk)?;
    host.add_file(IMAGE, &case.image)?;
    host.add_file(EVENTS, way.events)?;
    Ok(host)
}

/// The words `run IMAGE EVENTS WORK SAVED DISPLAY CORE ENTRIES ROOM STEPS`.
pub fn words_of(alloc: Global, sizes: Sizes<'_>, steps: &str) -> Result<Vec<String>, AllocError> {
    let mut words = Vec::new(alloc);
    for word in [
        "run",
        IMAGE,
        EVENTS,
        WORK,
        SAVED,
        DISPLAY,
        sizes.core,
        sizes.entries,
        sizes.room,
        steps,
    ] {
        words.push(String::from_str(alloc, word)?)?;
    }
    Ok(words)
}

fn copied(alloc: Global, file: Option<&[u8]>) -> Result<Option<Vec<u8>>, AllocError> {
    match file {
        Some(bytes) => Ok(Some(bytes.to_vec(alloc)?)),
        None => Ok(None),
    }
}
