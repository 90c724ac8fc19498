// Each read of Work lies in turn.
use crate::failing::{is_whole, own_way};
use anyhow::{Context, Result, bail};
use case_runs::{Case, DISPLAY, SAVED, Sizes, host_of, words_of};
use loom_outside::{LyingHost, MemoryHost};
use loom_run::{Status, loom};
use std::alloc::Global;

/// What is xored into each byte of a read.
const MASKS: [u8; 3] = [1, 128, 255];

/// How many exit statuses there are.
const CODES: usize = 14;

/// How many runs came to each exit status, and whether one of them came to another end of its machine than the case's.
#[derive(Clone, Copy, Debug)]
pub struct Tally {
    pub by_code: [u64; CODES],
    noticed: bool,
}

impl Tally {
    fn count(&mut self, code: u8) {
        if let Some(count) = self.by_code.get_mut(code as usize) {
            *count = count.saturating_add(1);
        }
    }
}

// The numbers that an answer may have.
#[derive(Clone, Copy, Debug)]
struct Bounds {
    core: u32,
    entries: u32,
    room: u32,
    steps: u32,
}

fn bounds_of(sizes: Sizes<'_>, steps: &str) -> Result<Bounds> {
    Ok(Bounds {
        core: sizes.core.parse().context("core")?,
        entries: sizes.entries.parse().context("entries")?,
        room: sizes.room.parse().context("room")?,
        steps: steps.parse().context("steps")?,
    })
}

/// Runs a case once with each mask for each number up to so many, by which read of Work lies, and once where none does. Past the last read none
/// does either. It is refused where one of these runs comes to an answer that can't be, or the last one comes out wrong; and where none of them
/// comes to another end of its machine, since what is read of Work then doesn't matter to it.
pub fn lie(alloc: Global, case: &Case<'_>, reads: u64) -> Result<Tally> {
    let bounds = bounds_of(case.sizes, case.steps)?;
    let (status, host) = run_lying(alloc, case, 0, 0)?;
    if !is_whole(case, status, host.inner()) {
        bail!("without a lie it comes out wrong");
    }
    let mut tally = Tally {
        by_code: [0; CODES],
        noticed: false,
    };
    for read in 0..reads {
        let nth = read.saturating_add(1);
        for mask in MASKS {
            let (status, host) = run_lying(alloc, case, nth, mask)?;
            if !is_possible(&bounds, status) || !is_left_right(status, host.inner()) {
                bail!("read {nth}, mask {mask}: {status:?}");
            }
            tally.count(status.code());
            tally.noticed = tally.noticed || is_noticed(case, status, host.inner());
        }
    }
    if !tally.noticed {
        bail!("no read of Work matters to the machine");
    }
    Ok(tally)
}

// Whether the image was found right, and the machine didn't come as far as the saving of its image, or came to another end than the case's.
fn is_noticed(case: &Case<'_>, status: Status, host: &MemoryHost) -> bool {
    !matches!(status, Status::ImageBad { .. })
        && host.file(SAVED).is_none()
        && !is_whole(case, status, host)
}

// A run of which the nth read of Work lies.
fn run_lying(alloc: Global, case: &Case<'_>, nth: u64, mask: u8) -> Result<(Status, LyingHost)> {
    let host = host_of(alloc, case, own_way(case))?;
    let mut host = LyingHost::new(host, nth, mask);
    let words = words_of(alloc, case.sizes, case.steps)?;
    let status = loom(alloc, &mut host, &words);
    Ok((status, host))
}

// Whether a run of which no call fails, but a read may lie, may come to this answer.
fn is_possible(bounds: &Bounds, status: Status) -> bool {
    match status {
        Status::Done { ran } => ran == bounds.steps,
        Status::Quit { ran } => 0 < ran && ran <= bounds.steps,
        // the image is right, so a lie can break only what is judged of it as a whole, from Work
        Status::ImageBad { rule, .. } => matches!(rule, 10..=12 | 14),
        Status::Stuck { cause, ran } => 1 <= cause && cause <= 7 && ran <= bounds.steps,
        Status::CoreFull { ran, need } => {
            ran <= bounds.steps && (need.words > bounds.core || need.entries > bounds.entries)
        }
        Status::NamesSpent { ran } => ran < bounds.steps,
        Status::WorkFull { live, room } => room == bounds.room && live > room,
        Status::Damaged { .. } => true,
        Status::OutOfMemory
        | Status::Made { .. }
        | Status::Listed { .. }
        | Status::Assembled { .. }
        | Status::TextBad { .. }
        | Status::VaultFault { .. }
        | Status::NoCheckpoint
        | Status::VaultBad { .. }
        | Status::Usage { .. }
        | Status::EventsBad { .. }
        | Status::ReadFault { .. }
        | Status::WorkFault { .. }
        | Status::WriteFault { .. } => false,
    }
}

// Whether there is a saved image, a picture and a line of an answer. What is damaged may be found in saving.
fn is_left_right(status: Status, host: &MemoryHost) -> bool {
    let ended = status.code() == 0;
    let saved = host.file(SAVED).is_some();
    let files = match status {
        Status::Damaged { .. } => true,
        _ => saved == ended,
    };
    files && host.file(DISPLAY).is_some() == ended && host.notes().ends_with(b"\n")
}
