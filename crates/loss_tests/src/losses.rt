// What a loss of power may leave of files, by the record of what was done to them.
use crate::recording::Event;
use loom_host::write_bytes_at;
use std::alloc::{AllocError, Global};
use std::test::Fail;

/// Which of the changes of a file that weren't synced have arrived.
#[derive(Clone, Copy, Debug, PartialEq, Eq)]
pub(crate) enum Arrived {
    /// The first so many: none up to all.
    First(usize),
    /// All but this one.
    Without(usize),
    /// By a seed none, all, or some of the sectors of each.
    Torn { sector: usize, seed: u64 },
}

/// How many choices are seeded for each size of sectors.
const SEEDS: usize = 100;

const SMALL: usize = 512;

const LARGE: usize = 4_096;

impl Arrived {
    // The nth of all that are tried where so many changes weren't synced, and None behind the last one.
    fn nth(n: usize, unsynced: usize) -> Option<Arrived> {
        if n <= unsynced {
            return Some(Arrived::First(n));
        }
        let n = n - unsynced - 1;
        if n < unsynced {
            return Some(Arrived::Without(n));
        }
        let n = n - unsynced;
        if unsynced == 0 || n >= 2 * SEEDS {
            return None;
        }
        let sector = if n < SEEDS { SMALL } else { LARGE };
        let seed = n as u64;
        Some(Arrived::Torn { sector, seed })
    }
}

// ---- files

// Whether it changes this file.
fn changes(event: &Event, file: usize) -> bool {
    match event {
        Event::Written { file: changed, .. } | Event::Sized { file: changed, .. } => {
            *changed == file
        }
        Event::Named { .. } | Event::Synced { .. } | Event::Said => false,
    }
}

// How many events change this file.
fn count(events: &[Event], file: usize) -> usize {
    events.iter().filter(|event| changes(event, file)).count()
}

// The events up to the last sync of this file, and those behind it.
fn synced(events: &[Event], file: usize) -> (&[Event], &[Event]) {
    for (i, event) in events.iter().enumerate().rev() {
        match event {
            Event::Synced { file: Some(synced) } if *synced == file => return events.split_at(i),
            _ => {}
        }
    }
    events.split_at(0)
}

// The finalizer of splitmix64: each bit of the answer depends on each of the number.
fn mixed(number: u64) -> u64 {
    let a = number.wrapping_add(0x9e37_79b9_7f4a_7c15);
    let b = (a ^ (a >> 30)).wrapping_mul(0xbf58_476d_1ce4_e5b9);
    let c = (b ^ (b >> 27)).wrapping_mul(0x94d0_49bb_1331_11eb);
    c ^ (c >> 31)
}

// Writes the sectors that this number says.
fn tear(
    bytes: &mut Vec<u8>,
    place: u64,
    piece: &[u8],
    sector: usize,
    number: u64,
) -> Result<(), AllocError> {
    let mut at = place;
    let mut number = number;
    for part in piece.chunks(sector.max(1)) {
        number = mixed(number);
        if number % 2 == 0 {
            write_bytes_at(bytes, at, part)?;
        }
        at = at.saturating_add(part.len() as u64);
    }
    Ok(())
}

// Does to the bytes of a file what was done to it.
fn change(bytes: &mut Vec<u8>, event: &Event) -> Result<(), AllocError> {
    match event {
        Event::Written {
            place,
            bytes: piece,
            ..
        } => write_bytes_at(bytes, *place, piece),
        Event::Sized { len, .. } => bytes.resize(*len as usize, 0),
        Event::Named { .. } | Event::Synced { .. } | Event::Said => Ok(()),
    }
}

// The same where a loss tears it, by this number.
fn change_torn(
    bytes: &mut Vec<u8>,
    event: &Event,
    sector: usize,
    number: u64,
) -> Result<(), AllocError> {
    match (number % 3, event) {
        (0, _) => Ok(()),
        (
            1,
            Event::Written {
                place,
                bytes: piece,
                ..
            },
        ) => { tear(bytes, *place, piece, sector, number) }
        _ => change(bytes, event),
    }
}

// Does the ith change of a file, as far as it has arrived.
fn change_nth(
    bytes: &mut Vec<u8>,
    event: &Event,
    i: usize,
    arrived: Arrived,
) -> Result<(), AllocError> {
    match arrived {
        Arrived::First(n) if i < n => change(bytes, event),
        Arrived::Without(n) if i != n => change(bytes, event),
        Arrived::Torn { sector, seed } => {
            let number = mixed(mixed(seed).wrapping_add(i as u64));
            change_torn(bytes, event, sector, number)
        }
        Arrived::First(_) | Arrived::Without(_) => Ok(()),
    }
}

// The bytes of a file behind the changes of it that have arrived.
fn left(
    alloc: Global,
    before: &[u8],
    events: &[Event],
    file: usize,
    arrived: Arrived,
) -> Result<Vec<u8>, AllocError> {
    let mut bytes = before.to_vec(alloc)?;
    let mut i = 0usize;
    for event in events {
        if changes(event, file) {
            change_nth(&mut bytes, event, i, arrived)?;
            i = i.saturating_add(1);
        }
    }
    Ok(bytes)
}

// ---- names

// Whether it says what this name leads to.
fn names<'a>(event: &'a Event, name: &str) -> Option<Option<usize>> {
    match event {
        Event::Named { name: named, file } if named.as_str() == name => Some(*file),
        _ => None,
    }
}

// The files that a name may lead to: the one that the folder's last sync fixed, and those behind it.
fn files_of(alloc: Global, events: &[Event], name: &str) -> Result<Vec<Option<usize>>, AllocError> {
    let mut last = None;
    let mut files = Vec::new(alloc);
    files.push(last)?;
    for event in events {
        if let Some(file) = names(event, name) {
            last = file;
            files.push(file)?;
        }
        if matches!(event, Event::Synced { file: None }) {
            files.clear();
            files.push(last)?;
        }
    }
    Ok(files)
}

// ---- states

/// What has to hold of each state that a loss leaves.
pub(crate) trait Judge {
    /// Whether a file may have these bytes then, since so much has arrived. None where there is no such file.
    fn allows(&self, alloc: Global, left: Option<&[u8]>, arrived: Arrived) -> Result<bool, Fail>;
}

/// Whether a loss may come before this event, or behind all.
pub(crate) fn is_moment(events: &[Event], at: usize) -> bool {
    match events.get(at) {
        Some(event) => matches!(event, Event::Synced { .. }),
        None => true,
    }
}

/// More states than a file has at a moment.
const MOST_STATES: usize = 1_000;

// The first state of a file that isn't allowed.
fn first_wrong_of<J: Judge>(
    alloc: Global,
    events: &[Event],
    file: usize,
    judge: &J,
) -> Result<Option<Arrived>, Fail> {
    let (front, behind) = synced(events, file);
    let before = left(alloc, &[], front, file, Arrived::First(usize::MAX))?;
    let unsynced = count(behind, file);
    for n in 0..MOST_STATES {
        let Some(arrived) = Arrived::nth(n, unsynced) else {
            return Ok(None);
        };
        let bytes = left(alloc, &before, behind, file, arrived)?;
        if !judge.allows(alloc, Some(&bytes), arrived)? {
            return Ok(Some(arrived));
        }
    }
    Err("a file has fewer states".into())
}

/// The first state behind these events in which the file of a name isn't as it may be.
pub(crate) fn first_wrong<J: Judge>(
    alloc: Global,
    events: &[Event],
    name: &str,
    judge: &J,
) -> Result<Option<Arrived>, Fail> {
    for file in files_of(alloc, events, name)? {
        let wrong = match file {
            Some(file) => first_wrong_of(alloc, events, file, judge)?,
            None if judge.allows(alloc, None, Arrived::First(0))? => None,
            None => Some(Arrived::First(0)),
        };
        if wrong.is_some() {
            return Ok(wrong);
        }
    }
    Ok(None)
}
