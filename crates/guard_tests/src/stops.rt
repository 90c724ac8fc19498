// Runs that are stopped at each of their calls on the vault: what is found then, and that another run goes on from there.
use crate::commands::{find, guard, host_with, resume, serial_in};
use crate::images::{Sample, image_of};
use crate::states::{After, image_after};
use checkpoint::MemoryVault;
use loom_outside::MemoryHost;
use loom_words::Status;
use std::alloc::{AllocError, Global};
use std::test::Fail;

/// A run that is stopped.
struct Stopped {
    sample: Sample,
    /// None of a guarded run. A resumed one goes on from what a guarded run of so many bytecodes left.
    before: Option<u32>,
    steps: u32,
    status: Status,
    /// How many calls on the vault come before the first checkpoint is under way, and up to the end of each one.
    opening: u64,
    ends: &'static [u64],
    /// The serial that the vault has before, and the images of all from 1 on.
    made: u64,
    kept: &'static [After],
}

// A guarded run opens the vault by one call and closes its gates by three. A resumed one opens it, syncs, and reads both gates, the image's first 36 bytes
// and each block of it: one, or two of the wide image. A checkpoint reads its gate's byte and writes 0 where that is 1, syncs, writes the image's blocks, and serial and length, syncs, writes
// the byte, and syncs.
const STOPPED: &[Stopped] = &[
    Stopped {
        sample: Sample::Snaps,
        before: None,
        steps: 6,
        status: Status::Done { ran: 6 },
        opening: 4,
        made: 0,
        ends: &[11, 18],
        kept: &[After::Snaps2, After::Snaps5],
    },
    Stopped {
        sample: Sample::Snaps,
        before: Some(3),
        steps: 4,
        status: Status::Done { ran: 4 },
        opening: 6,
        made: 1,
        ends: &[13],
        kept: &[After::Snaps2, After::Snaps5],
    },
    Stopped {
        sample: Sample::Drops,
        before: None,
        steps: 17,
        status: Status::Done { ran: 17 },
        opening: 4,
        made: 0,
        ends: &[11, 18, 26],
        kept: &[After::Drops6, After::Drops12, After::Drops16],
    },
    Stopped {
        sample: Sample::Drops,
        before: Some(12),
        steps: 5,
        status: Status::Done { ran: 5 },
        opening: 6,
        made: 2,
        ends: &[14],
        kept: &[After::Drops6, After::Drops12, After::Drops16],
    },
    Stopped {
        sample: Sample::Wide,
        before: None,
        steps: 6,
        status: Status::Done { ran: 6 },
        opening: 4,
        made: 0,
        ends: &[12, 20],
        kept: &[After::Snaps2, After::Snaps5],
    },
    Stopped {
        sample: Sample::Wide,
        before: Some(3),
        steps: 4,
        status: Status::Done { ran: 4 },
        opening: 7,
        made: 1,
        ends: &[15],
        kept: &[After::Snaps2, After::Snaps5],
    },
];

/// How many of the ranges that weren't synced are kept, and the byte of the others.
const STOPS: &[(u64, u8)] = &[
    (0, 0),
    (0, 1),
    (0, 255),
    (1, 0),
    (1, 1),
    (1, 255),
    (2, 0),
    (2, 1),
    (2, 255),
    (3, 0),
    (3, 1),
    (3, 255),
];

// Behind so many calls the least serial that may be found, and the greatest: that of the checkpoint that was under way.
fn serials(row: &Stopped, calls: u64) -> (u64, u64) {
    let mut least = row.made;
    for end in row.ends {
        if *end <= calls {
            least = least.saturating_add(1);
        }
    }
    if is_through(row, calls) || calls < row.opening {
        (least, least)
    } else {
        (least, least.saturating_add(1))
    }
}

// Whether so many calls are all.
fn is_through(row: &Stopped, calls: u64) -> bool {
    row.ends.iter().all(|end| *end <= calls)
}

// A host that has this image.
fn host_of(alloc: Global, image: &[u8]) -> Result<MemoryHost, AllocError> {
    let mut host = host_with(alloc, "")?;
    host.add_file("i", image)?;
    Ok(host)
}

// Runs the image under guard, for a run that goes on from what it leaves.
fn run_before(
    alloc: Global,
    vault: &mut MemoryVault,
    image: &[u8],
    steps: u32,
) -> Result<(), AllocError> {
    let mut host = host_of(alloc, image)?;
    let _status = guard(alloc, &mut host, vault, steps)?;
    vault.stop(0, 0);
    Ok(())
}

// The vault of the run.
fn begun(alloc: Global, row: &Stopped, image: &[u8]) -> Result<MemoryVault, Fail> {
    let mut vault = MemoryVault::new(alloc)?;
    if let Some(steps) = row.before {
        run_before(alloc, &mut vault, image, steps)?;
    }
    Ok(vault)
}

// Runs, of which so many calls on the vault pass. A run that goes on has no image.
fn run(
    alloc: Global,
    row: &Stopped,
    image: &[u8],
    vault: &mut MemoryVault,
    calls: u64,
) -> Result<Status, AllocError> {
    match row.before {
        Some(_) => go_on(alloc, vault, calls, row.steps),
        None => begin(alloc, vault, image, calls, row.steps),
    }
}

fn go_on(
    alloc: Global,
    vault: &mut MemoryVault,
    calls: u64,
    steps: u32,
) -> Result<Status, AllocError> {
    let mut host = host_with(alloc, "")?;
    vault.fuse(calls);
    resume(alloc, &mut host, vault, steps)
}

fn begin(
    alloc: Global,
    vault: &mut MemoryVault,
    image: &[u8],
    calls: u64,
    steps: u32,
) -> Result<Status, AllocError> {
    let mut host = host_of(alloc, image)?;
    vault.fuse(calls);
    guard(alloc, &mut host, vault, steps)
}

// Whether what is found has one of these serials, and its image. Of serial 0 nothing is found.
fn is_found(
    alloc: Global,
    vault: &mut MemoryVault,
    kept: &[Vec<u8>],
    (least, most): (u64, u64),
) -> Result<bool, Fail> {
    match find(alloc, vault)? {
        None => Ok(least == 0),
        Some((serial, image)) => match kept.get((serial as usize).saturating_sub(1)) {
            Some(want) => {
                Ok(least <= serial && serial <= most && image.bytes() == want.as_slice())
            }
            None => Ok(false),
        },
    }
}

// Whether a run that is stopped so answers what it has to, and leaves the last checkpoint or the next.
fn is_right(
    alloc: Global,
    row: &Stopped,
    (image, kept): (&[u8], &[Vec<u8>]),
    calls: u64,
    (first, fill): (u64, u8),
) -> Result<bool, Fail> {
    let mut vault = begun(alloc, row, image)?;
    let status = run(alloc, row, image, &mut vault, calls)?;
    vault.stop(first, fill);
    let wanted = if is_through(row, calls) {
        row.status
    } else {
        Status::VaultFault { count: 1 }
    };
    Ok(status == wanted && is_found(alloc, &mut vault, kept, serials(row, calls))?)
}

fn images_of(alloc: Global, row: &Stopped) -> Result<Vec<Vec<u8>>, Fail> {
    let mut images = Vec::new(alloc);
    for with in row.kept {
        images.push(image_after(alloc, row.sample, *with)?)?;
    }
    Ok(images)
}

// The first call and the first stop of a run that come out wrong.
fn first_wrong(alloc: Global, row: &Stopped) -> Result<Option<(u64, (u64, u8))>, Fail> {
    let image = image_of(alloc, row.sample)?;
    let kept = images_of(alloc, row)?;
    for calls in 0..=30 {
        for stop in STOPS {
            if !is_right(alloc, row, (&image, &kept), calls, *stop)? {
                return Ok(Some((calls, *stop)));
            }
        }
        if is_through(row, calls) {
            return Ok(None);
        }
    }
    Err("a run makes fewer calls".into())
}

#[test]
fn a_stop_loses_no_checkpoint(rt: HostRuntime) -> Result<(), Fail> {
    for (i, row) in STOPPED.iter().enumerate() {
        assert_eq!(rt; (i, first_wrong(rt.alloc(), row)?), (i, None));
    }
    Ok(())
}

// ---- runs that are stopped again and again

/// How many runs are begun at most, and more bytecodes than each runs.
const MOST_RUNS: u32 = 6;

const STEPS: u32 = 99;

/// What is said in all, and from each serial on.
const SAID: &[&[u8]] = &[b"one\ntwo\nthree\n", b"two\nthree\n", b"three\n"];

// Runs from what is found in the vault, or from the image where there is nothing, with so many calls on the vault. The answer is how the run ended, and the serial
// from which it began.
fn run_once(
    alloc: Global,
    host: &mut MemoryHost,
    vault: &mut MemoryVault,
    image: &[u8],
    calls: u64,
) -> Result<(Status, u64), Fail> {
    let serial = serial_in(alloc, vault)?;
    if serial == 0 {
        host.add_file("i", image)?;
    }
    vault.fuse(calls);
    let status = if serial == 0 {
        guard(alloc, host, vault, STEPS)?
    } else {
        resume(alloc, host, vault, STEPS)?
    };
    Ok((status, serial))
}

// Whether a run from this serial saves what one run would save, and says what comes behind its checkpoint; where it was stopped on the way there is no answer yet.
fn judged(host: &MemoryHost, saved: &[u8], (status, serial): (Status, u64)) -> Option<bool> {
    let Some(said) = SAID.get(serial as usize) else {
        return Some(false);
    };
    if matches!(status, Status::Quit { .. }) {
        return Some(host.transcript() == *said && host.file("s") == Some(saved));
    }
    if said.starts_with(host.transcript()) && host.file("s").is_none() {
        None
    } else {
        Some(false)
    }
}

// The same of the run that comes next in a vault, which is stopped behind it.
fn ended(
    alloc: Global,
    vault: &mut MemoryVault,
    (image, saved): (&[u8], &[u8]),
    calls: u64,
    (first, fill): (u64, u8),
) -> Result<Option<bool>, Fail> {
    let mut host = host_with(alloc, "")?;
    let end = run_once(alloc, &mut host, vault, image, calls)?;
    vault.stop(first, fill);
    Ok(judged(&host, saved, end))
}

// Whether runs of so many calls each, which are stopped so, come to the image's end.
fn comes_to_its_end(alloc: Global, calls: u64, stop: (u64, u8)) -> Result<bool, Fail> {
    let image = image_of(alloc, Sample::Says)?;
    let saved = image_after(alloc, Sample::Says, After::Says20)?;
    let mut vault = MemoryVault::new(alloc)?;
    for _ in 0..MOST_RUNS {
        if let Some(right) = ended(alloc, &mut vault, (&image, &saved), calls, stop)? {
            return Ok(right);
        }
    }
    Ok(false)
}

// Each run comes at least to its first checkpoint: a resumed one makes thirteen calls up to its end, and fourteen where the gate was open.
#[test]
fn runs_that_are_stopped_come_to_their_end(rt: HostRuntime) -> Result<(), Fail> {
    for calls in 14..=21 {
        for stop in STOPS {
            assert!(rt; comes_to_its_end(rt.alloc(), calls, *stop)?);
        }
    }
    Ok(())
}
