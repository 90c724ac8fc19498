// Tables of calls on a directory, with their answers and how many names are held then.
ghost use Rattle.std.specs.Prelude.{◌<◌, ◌≤◌};

use crate::hosts::attached;
use long_names::Name;
use loom_outside::DiskFault::{self, Damaged, Full, Work};
use loom_outside::{Host, LyingHost};
use std::alloc::Global;
use std::test::Fail;
use work_directory::{Directory, MOST_NAMES, SLOT_BYTES, Slot};

#[derive(Clone, Copy)]
enum Call {
    // a name, a count and a place
    Add(u32, u64, u64),
    Set(u32, u64, u64),
    // a name
    Remove(u32),
    Find(u32),
    // the number of a slot
    Slot(u32),
    // a place in Work, and what is written there by no directory
    Write(u64, [u8; 8]),
    // a place in Work, and what stands there
    Read(u64, [u8; SLOT_BYTES]),
}

// The name, the count and the place that a call answered.
type Answer = Result<Option<(u32, u64, u64)>, DiskFault>;

fn name(word: u32) -> Result<Name, Fail> {
    Ok(Name::new(word).ok_or("a name is even and above 0")?)
}

fn slot(word: u32, count: u64, place: u64) -> Result<Slot, Fail> {
    let name = name(word)?;
    Ok(Slot { name, count, place })
}

fn done(answer: Result<(), DiskFault>) -> Answer {
    match answer {
        Ok(()) => Ok(None),
        Err(fault) => Err(fault),
    }
}

fn found(answer: Result<Option<Slot>, DiskFault>) -> Answer {
    match answer {
        Ok(None) => Ok(None),
        Ok(Some(slot)) => Ok(Some((slot.name.get(), slot.count, slot.place))),
        Err(fault) => Err(fault),
    }
}

// There is one of this number.
fn shown(directory: &mut Directory, host: &mut LyingHost, i: u32) -> Result<Answer, Fail> {
    if i >= directory.slots() {
        return Err("there is no such slot".into());
    }
    Ok(found(directory.slot(host, i)))
}

fn reads(host: &mut LyingHost, place: u64, want: &[u8; SLOT_BYTES]) -> Result<Answer, Fail> {
    let mut bytes = [9; SLOT_BYTES];
    host.read_at(place, &mut bytes)?;
    if bytes != *want {
        return Err("other bytes stand there".into());
    }
    Ok(Ok(None))
}

fn writes(host: &mut LyingHost, place: u64, bytes: &[u8; 8]) -> Result<Answer, Fail> {
    host.write_at(place, bytes)?;
    Ok(Ok(None))
}

fn answer_to(directory: &mut Directory, host: &mut LyingHost, call: &Call) -> Result<Answer, Fail> {
    match *call {
        Call::Add(word, count, place) => Ok(done(directory.add(host, slot(word, count, place)?))),
        Call::Set(word, count, place) => Ok(done(directory.set(host, slot(word, count, place)?))),
        Call::Remove(word) => Ok(done(directory.remove(host, name(word)?))),
        Call::Find(word) => Ok(found(directory.find(host, name(word)?))),
        Call::Slot(i) => shown(directory, host, i),
        Call::Write(place, bytes) => writes(host, place, &bytes),
        Call::Read(place, want) => reads(host, place, &want),
    }
}

/// A call, its answer, and how many names are held then.
struct Row {
    call: Call,
    answer: Answer,
    held: u32,
}

fn is_right(directory: &mut Directory, host: &mut LyingHost, row: &Row) -> Result<bool, Fail> {
    let answer = answer_to(directory, host, &row.call)?;
    Ok(answer == row.answer && directory.len() == row.held)
}

// Makes the calls of a table, over a host whose calls on Work of these numbers fail. The first row that comes out otherwise.
fn first_wrong(
    alloc: Global,
    failing: &[u64],
    room: u32,
    rows: &[Row],
) -> Result<Option<usize>, Fail>
    requires some { 0 < room }
    requires most { room ≤ MOST_NAMES }
{
    let mut host = attached(alloc, failing)?;
    let mut directory = Directory::new(room);
    for (i, row) in rows.iter().enumerate() {
        if !is_right(&mut directory, &mut host, row)? {
            return Ok(Some(i));
        }
    }
    Ok(None)
}

// With room for 4 names there are 8 slots. 8 and 16 have their home at slot 7, 18 at 0, 2 and 10 at 1.
const FILLED: &[Row] = &[
    Row {
        call: Call::Find(8),
        answer: Ok(None),
        held: 0,
    },
    Row {
        call: Call::Add(8, 1, 192),
        answer: Ok(None),
        held: 1,
    },
    Row {
        call: Call::Add(16, 2, 224),
        answer: Ok(None),
        held: 2,
    },
    Row {
        call: Call::Add(2, 3, 256),
        answer: Ok(None),
        held: 3,
    },
    Row {
        call: Call::Add(18, 4, 288),
        answer: Ok(None),
        held: 4,
    },
    Row {
        call: Call::Add(10, 5, 320),
        answer: Err(Full { held: 4, room: 4 }),
        held: 4,
    },
    Row {
        call: Call::Find(8),
        answer: Ok(Some((8, 1, 192))),
        held: 4,
    },
    Row {
        call: Call::Find(16),
        answer: Ok(Some((16, 2, 224))),
        held: 4,
    },
    Row {
        call: Call::Find(2),
        answer: Ok(Some((2, 3, 256))),
        held: 4,
    },
    Row {
        call: Call::Find(18),
        answer: Ok(Some((18, 4, 288))),
        held: 4,
    },
    Row {
        call: Call::Find(10),
        answer: Ok(None),
        held: 4,
    },
    Row {
        call: Call::Slot(7),
        answer: Ok(Some((8, 1, 192))),
        held: 4,
    },
    Row {
        call: Call::Slot(0),
        answer: Ok(Some((16, 2, 224))),
        held: 4,
    },
    Row {
        call: Call::Slot(1),
        answer: Ok(Some((2, 3, 256))),
        held: 4,
    },
    Row {
        call: Call::Slot(2),
        answer: Ok(Some((18, 4, 288))),
        held: 4,
    },
    Row {
        call: Call::Slot(3),
        answer: Ok(None),
        held: 4,
    },
    Row {
        call: Call::Remove(8),
        answer: Ok(None),
        held: 3,
    },
    Row {
        call: Call::Slot(7),
        answer: Ok(Some((16, 2, 224))),
        held: 3,
    },
    Row {
        call: Call::Slot(0),
        answer: Ok(Some((18, 4, 288))),
        held: 3,
    },
    Row {
        call: Call::Slot(1),
        answer: Ok(Some((2, 3, 256))),
        held: 3,
    },
    Row {
        call: Call::Slot(2),
        answer: Ok(None),
        held: 3,
    },
    Row {
        call: Call::Find(8),
        answer: Ok(None),
        held: 3,
    },
    Row {
        call: Call::Set(18, 0x0102, 0x0304_0506),
        answer: Ok(None),
        held: 3,
    },
    Row {
        call: Call::Find(18),
        answer: Ok(Some((18, 0x0102, 0x0304_0506))),
        held: 3,
    },
    Row {
        call: Call::Read(
            0,
            [
                0, 0, 0, 18, 0, 0, 0, 0, 0, 0, 0, 0, 0, 0, 1, 2, 0, 0, 0, 0, 3, 4, 5, 6,
            ],
        ),
        answer: Ok(None),
        held: 3,
    },
    Row {
        call: Call::Read(48, [0; SLOT_BYTES]),
        answer: Ok(None),
        held: 3,
    },
    Row {
        call: Call::Remove(16),
        answer: Ok(None),
        held: 2,
    },
    Row {
        call: Call::Remove(18),
        answer: Ok(None),
        held: 1,
    },
    Row {
        call: Call::Remove(2),
        answer: Ok(None),
        held: 0,
    },
    Row {
        call: Call::Slot(1),
        answer: Ok(None),
        held: 0,
    },
];

// Names that a caller was not to add, set or remove; an odd name on the way of a search and of a hole; bytes that are to be zero; and one
// more name than is counted.
const DAMAGED: &[Row] = &[
    Row {
        call: Call::Add(2, 1, 192),
        answer: Ok(None),
        held: 1,
    },
    Row {
        call: Call::Add(2, 1, 192),
        answer: Err(Damaged { place: 24, name: 2 }),
        held: 1,
    },
    Row {
        call: Call::Set(10, 1, 192),
        answer: Err(Damaged {
            place: 48,
            name: 10,
        }),
        held: 1,
    },
    Row {
        call: Call::Remove(10),
        answer: Err(Damaged {
            place: 48,
            name: 10,
        }),
        held: 1,
    },
    Row {
        call: Call::Write(48, [0, 0, 0, 3, 0, 0, 0, 0]),
        answer: Ok(None),
        held: 1,
    },
    Row {
        call: Call::Find(10),
        answer: Err(Damaged {
            place: 48,
            name: 10,
        }),
        held: 1,
    },
    Row {
        call: Call::Remove(2),
        answer: Err(Damaged { place: 48, name: 2 }),
        held: 1,
    },
    Row {
        call: Call::Slot(2),
        answer: Err(Damaged { place: 48, name: 3 }),
        held: 1,
    },
    Row {
        call: Call::Write(48, [0, 0, 0, 4, 0, 1, 0, 0]),
        answer: Ok(None),
        held: 1,
    },
    Row {
        call: Call::Slot(2),
        answer: Err(Damaged { place: 48, name: 4 }),
        held: 1,
    },
    Row {
        call: Call::Write(48, [0, 0, 0, 0, 0, 0, 0, 1]),
        answer: Ok(None),
        held: 1,
    },
    Row {
        call: Call::Slot(2),
        answer: Err(Damaged { place: 48, name: 0 }),
        held: 1,
    },
    Row {
        call: Call::Find(10),
        answer: Err(Damaged {
            place: 48,
            name: 10,
        }),
        held: 1,
    },
    Row {
        call: Call::Write(48, [0; 8]),
        answer: Ok(None),
        held: 1,
    },
    Row {
        call: Call::Remove(2),
        answer: Ok(None),
        held: 0,
    },
    Row {
        call: Call::Write(24, [0, 0, 0, 2, 0, 0, 0, 0]),
        answer: Ok(None),
        held: 0,
    },
    Row {
        call: Call::Remove(2),
        answer: Err(Damaged { place: 24, name: 2 }),
        held: 0,
    },
];

// No slot is empty: of the two slots, 2 and 4 have their home at the first, 6 and 8 at the second.
const FULL_OF_NAMES: &[Row] = &[
    Row {
        call: Call::Add(2, 1, 48),
        answer: Ok(None),
        held: 1,
    },
    Row {
        call: Call::Write(24, [0, 0, 0, 6, 0, 0, 0, 0]),
        answer: Ok(None),
        held: 1,
    },
    Row {
        call: Call::Remove(2),
        answer: Err(Damaged { place: 24, name: 2 }),
        held: 1,
    },
    Row {
        call: Call::Find(4),
        answer: Err(Damaged { place: 24, name: 4 }),
        held: 1,
    },
    Row {
        call: Call::Find(8),
        answer: Err(Damaged { place: 0, name: 8 }),
        held: 1,
    },
];

// What fails: the first call on Work, the write of an addition, a search, a write, a slot that is shown, and the write that closes up.
const FAILING: &[Row] = &[
    Row {
        call: Call::Add(2, 1, 192),
        answer: Err(Work { count: 1 }),
        held: 0,
    },
    Row {
        call: Call::Find(2),
        answer: Ok(None),
        held: 0,
    },
    Row {
        call: Call::Add(2, 1, 192),
        answer: Err(Work { count: 2 }),
        held: 0,
    },
    Row {
        call: Call::Add(2, 1, 192),
        answer: Ok(None),
        held: 1,
    },
    Row {
        call: Call::Add(10, 2, 224),
        answer: Ok(None),
        held: 2,
    },
    Row {
        call: Call::Find(10),
        answer: Err(Work { count: 3 }),
        held: 2,
    },
    Row {
        call: Call::Set(10, 3, 224),
        answer: Err(Work { count: 4 }),
        held: 2,
    },
    Row {
        call: Call::Find(10),
        answer: Ok(Some((10, 2, 224))),
        held: 2,
    },
    Row {
        call: Call::Slot(1),
        answer: Err(Work { count: 5 }),
        held: 2,
    },
    Row {
        call: Call::Remove(2),
        answer: Err(Work { count: 6 }),
        held: 2,
    },
    Row {
        call: Call::Find(2),
        answer: Ok(Some((2, 1, 192))),
        held: 2,
    },
    Row {
        call: Call::Remove(2),
        answer: Ok(None),
        held: 1,
    },
    Row {
        call: Call::Find(10),
        answer: Ok(Some((10, 2, 224))),
        held: 1,
    },
];

#[test]
fn a_directory_is_filled_and_emptied(rt: HostRuntime) -> Result<(), Fail> {
    assert_eq!(rt; first_wrong(rt.alloc(), &[], 4, FILLED)?, None);
    Ok(())
}

#[test]
fn what_was_not_written_by_a_directory_is_damage(rt: HostRuntime) -> Result<(), Fail> {
    assert_eq!(rt; first_wrong(rt.alloc(), &[], 4, DAMAGED)?, None);
    assert_eq!(rt; first_wrong(rt.alloc(), &[], 1, FULL_OF_NAMES)?, None);
    Ok(())
}

#[test]
fn calls_on_work_fail(rt: HostRuntime) -> Result<(), Fail> {
    let failing = [1, 4, 10, 13, 16, 19];
    assert_eq!(rt; first_wrong(rt.alloc(), &failing, 4, FAILING)?, None);
    Ok(())
}
