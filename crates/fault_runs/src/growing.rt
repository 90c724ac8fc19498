// A case on a host that takes no memory in the run, so that each allocation that is refused there is one of the program's own.
use crate::failing::{ROLES, is_whole};
use crate::left::{Left, is_file_left, is_left};
use anyhow::Result;
use case_runs::{Case, DISPLAY, SAVED, Way, host_of, words_of};
use loom_outside::MemoryHost;
use loom_run::{Status, loom};
use std::alloc::Global;

/// How a case ends.
#[derive(Clone, Copy, Debug, PartialEq, Eq)]
pub enum End {
    /// As it has to where memory is there.
    Whole,
    /// For want of memory, and what was left is right.
    NoMemory,
    Wrong,
}

/// Room for all that a case puts to a role, and for its name.
const ROOM: u64 = 65_536;

const CHUNK: usize = 65_536;

/// How a case ends. It is refused where memory is before the run.
pub fn grow(alloc: Global, case: &Case<'_>) -> Result<End> {
    let way = Way {
        events: &case.events,
        sizes: case.sizes,
        chunk: CHUNK,
    };
    let mut host = host_of(alloc, case, way)?;
    for role in ROLES {
        host.reserve(role, ROOM)?;
    }
    let words = words_of(alloc, case.sizes, case.steps)?;
    let status = loom(alloc, &mut host, &words);
    if is_whole(case, status, &host) {
        Ok(End::Whole)
    } else if status == Status::OutOfMemory && is_refused(case, &host) {
        Ok(End::NoMemory)
    } else {
        Ok(End::Wrong)
    }
}

// Whether what is left is that of a run for which there was no memory: the transcript is empty or whole, and there is no picture.
fn is_refused(case: &Case<'_>, host: &MemoryHost) -> bool {
    let said = host.transcript();
    let whole = case.want.transcript.as_slice();
    host.notes() == b"out of memory\n".as_slice()
        && (said.is_empty() || is_left(said, whole, Left::Whole))
        && is_file_left(host.file(SAVED), case.want.saved.as_deref(), Left::Cut)
        && host.file(DISPLAY).is_none()
}
