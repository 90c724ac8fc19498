// Tables of calls on a disk of objects, each with what comes of it.
use crate::hosts::attached;
use disk_objects::{DiskObjects, DiskRest};
use long_names::{Kind, MOST_FIELDS, Name, NameList};
use loom_outside::DiskFault::{self, Damaged, Full, Work};
use loom_outside::{Host, LyingHost};
use object_record::RecordBuf;
use std::alloc::Global;
use std::process::Abort;
use std::test::Fail;

// A call, and what comes of it. Objects are bytes, so many.
#[derive(Clone, Copy)]
enum Step {
    // a name, how many bytes, and a count
    Put(u32, u32, u64, Result<(), DiskFault>),
    Get(u32, Result<Option<u32>, DiskFault>),
    Count(u32, Option<u64>),
    AddCount(u32, i64, Result<u64, DiskFault>),
    Remove(u32, Result<(), DiskFault>),
    // two names
    Swap(u32, u32, Result<(), DiskFault>),
    PutPending(u32, Result<(), DiskFault>),
    TakePending(Result<Option<u32>, DiskFault>),
    Len(u32),
    // what stands at a place of Work, and what is written there past the disk
    Shows(u64, [u8; 8]),
    Write(u64, [u8; 8]),
}

fn name(word: u32) -> Result<Name, Fail> {
    Ok(Name::new(word).ok_or("a name is even and above 0")?)
}

fn put(
    disk: &mut DiskObjects<'_, LyingHost>,
    buf: &mut RecordBuf,
    word: u32,
    len: u32,
    count: u64,
) -> Result<Result<(), DiskFault>, Fail> {
    if len > MOST_FIELDS {
        return Err("an object has 65,535 bytes at most".into());
    }
    buf.blank(name(word)?, Name::ARRAY, Kind::Bytes, len, 0);
    Ok(disk.put(buf, count))
}

fn get(
    disk: &mut DiskObjects<'_, LyingHost>,
    buf: &mut RecordBuf,
    word: u32,
) -> Result<Result<Option<u32>, DiskFault>, Fail> {
    match disk.get(name(word)?, buf) {
        Ok(true) => Ok(Ok(Some(buf.len()))),
        Ok(false) => Ok(Ok(None)),
        Err(fault) => Ok(Err(fault)),
    }
}

fn taken(disk: &mut DiskObjects<'_, LyingHost>) -> Result<Option<u32>, DiskFault> {
    match disk.take_pending()? {
        Some(name) => Ok(Some(name.get())),
        None => Ok(None),
    }
}

fn shows(host: &mut LyingHost, place: u64, want: &[u8; 8]) -> Result<bool, Fail> {
    let mut bytes = [9; 8];
    host.read_at(place, &mut bytes)?;
    Ok(bytes == *want)
}

// Whether the answer of a call of the disk is the one that is wanted.
fn answers(
    disk: &mut DiskObjects<'_, LyingHost>,
    buf: &mut RecordBuf,
    step: &Step,
) -> Result<bool, Fail> {
    match *step {
        Step::Put(word, len, count, want) => Ok(put(disk, buf, word, len, count)? == want),
        Step::Get(word, want) => Ok(get(disk, buf, word)? == want),
        Step::Count(word, want) => Ok(disk.count(name(word)?) == Ok(want)),
        Step::AddCount(word, change, want) => Ok(disk.add_count(name(word)?, change) == want),
        Step::Remove(word, want) => Ok(disk.remove(name(word)?) == want),
        Step::Swap(a, b, want) => Ok(disk.swap(name(a)?, name(b)?, buf) == want),
        Step::PutPending(word, want) => Ok(disk.put_pending(name(word)?) == want),
        Step::TakePending(want) => Ok(taken(disk) == want),
        Step::Len(want) => Ok(disk.len() == want),
        Step::Shows(..) | Step::Write(..) => Ok(true),
    }
}

fn writes(host: &mut LyingHost, place: u64, bytes: &[u8; 8]) -> Result<bool, Fail> {
    host.write_at(place, bytes)?;
    Ok(true)
}

// Whether a step on Work does, or shows, what it says.
fn holds(host: &mut LyingHost, step: &Step) -> Result<bool, Fail> {
    match *step {
        Step::Shows(place, want) => shows(host, place, &want),
        Step::Write(place, bytes) => writes(host, place, &bytes),
        _ => Ok(true),
    }
}

// Takes a step on Work, or on the disk there, which is taken apart again.
fn run(
    rt: &impl Abort,
    host: &mut LyingHost,
    rest: DiskRest,
    buf: &mut RecordBuf,
    step: Step,
) -> Result<DiskRest, Fail> {
    let held = holds(host, &step)?;
    let mut disk = DiskObjects::again(host, rest);
    let right = answers(&mut disk, buf, &step)?;
    let (_host, rest) = disk.apart();
    assert!(rt; held && right);
    Ok(rest)
}

// Takes the steps of a table, over a host whose calls on Work of these numbers fail.
fn check(rt: &impl Abort, alloc: Global, failing: &[u64], steps: &[Step]) -> Result<(), Fail> {
    let mut host = attached(alloc, failing)?;
    let mut buf = RecordBuf::new(alloc)?;
    let (_host, mut rest) = DiskObjects::begin(&mut host, 4).apart();
    for step in steps {
        rest = run(rt, &mut host, rest, &mut buf, *step)?;
    }
    Ok(())
}

// As many objects as there is room for.
const FULL: DiskFault = Full { held: 4, room: 4 };

// The slot of the name 2, where the search for it ends too once it is gone.
const SLOT: DiskFault = Damaged { place: 24, name: 2 };

// The empty slot where the search for the name 6 ends.
const MISSING: DiskFault = Damaged {
    place: 120,
    name: 6,
};

// The block of the name 2.
const RECORD: DiskFault = Damaged {
    place: 4_096,
    name: 2,
};

// With room for 4 objects the directory is one page of 4,096 bytes. A record of 3 bytes takes a block of 32, one of 100 bytes a block of 128.
const OBJECTS: &[Step] = &[
    Step::Get(2, Ok(None)),
    Step::Put(2, 3, 5, Ok(())),
    Step::Put(4, 100, 1, Ok(())),
    Step::Shows(4_096, [0, 0, 0, 2, 0, 0, 0, 16]),
    Step::Shows(4_128, [0, 0, 0, 4, 0, 0, 0, 16]),
    Step::Get(2, Ok(Some(3))),
    Step::Get(4, Ok(Some(100))),
    Step::Count(2, Some(5)),
    Step::Count(6, None),
    Step::AddCount(2, -5, Ok(0)),
    Step::AddCount(2, 7, Ok(7)),
    Step::Count(2, Some(7)),
    Step::TakePending(Ok(None)),
    Step::PutPending(4, Ok(())),
    Step::PutPending(2, Ok(())),
    Step::Shows(4_104, [0, 0, 0, 0, 0, 0, 0, 4]),
    Step::Put(2, 50, 9, Ok(())),
    Step::Shows(4_264, [0, 0, 0, 0, 0, 0, 0, 4]),
    Step::Put(4, 90, 2, Ok(())),
    Step::TakePending(Ok(Some(2))),
    Step::TakePending(Ok(Some(4))),
    Step::TakePending(Ok(None)),
    Step::Get(2, Ok(Some(50))),
    Step::Get(4, Ok(Some(90))),
    Step::PutPending(4, Ok(())),
    Step::Swap(2, 4, Ok(())),
    Step::Get(2, Ok(Some(90))),
    Step::Get(4, Ok(Some(50))),
    Step::Count(2, Some(9)),
    Step::TakePending(Ok(Some(4))),
    Step::Swap(4, 2, Ok(())),
    Step::Swap(2, 2, Ok(())),
    Step::Put(6, 0, 0, Ok(())),
    Step::Shows(4_096, [0, 0, 0, 6, 0, 0, 0, 16]),
    Step::Put(8, 65_535, 1, Ok(())),
    Step::Put(10, 1, 1, Err(FULL)),
    Step::Len(4),
    Step::Put(8, 12, 1, Ok(())),
    Step::Get(8, Ok(Some(12))),
    Step::Remove(2, Ok(())),
    Step::Remove(2, Err(SLOT)),
    Step::Get(2, Ok(None)),
    Step::Len(3),
    Step::Put(10, 65_535, 3, Ok(())),
    Step::Get(10, Ok(Some(65_535))),
    Step::Get(6, Ok(Some(0))),
];

// Names that are not held; a count below 0; links of a pending name that are none; another name, a kind and a literal count that are none;
// and a place that is none.
const DAMAGED: &[Step] = &[
    Step::Put(2, 3, 5, Ok(())),
    Step::AddCount(6, 1, Err(MISSING)),
    Step::Remove(6, Err(MISSING)),
    Step::PutPending(6, Err(MISSING)),
    Step::AddCount(2, -6, Err(SLOT)),
    Step::PutPending(2, Ok(())),
    Step::Write(4_104, [0, 0, 0, 0, 0, 0, 0, 3]),
    Step::TakePending(Err(RECORD)),
    Step::Write(4_104, [0, 0, 0, 1, 0, 0, 0, 2]),
    Step::TakePending(Err(RECORD)),
    Step::Write(4_104, [0, 0, 0, 0, 0, 0, 0, 0]),
    Step::TakePending(Ok(Some(2))),
    Step::Write(4_096, [0, 0, 0, 4, 0, 0, 0, 16]),
    Step::Get(2, Err(RECORD)),
    Step::Write(4_096, [0, 0, 0, 2, 0, 0, 0, 16]),
    Step::Get(2, Ok(Some(3))),
    Step::Write(4_112, [0, 4, 0, 3, 0, 0, 0, 0]),
    Step::Get(2, Err(RECORD)),
    Step::Write(4_112, [0, 3, 0, 3, 255, 0, 0, 0]),
    Step::Get(2, Err(RECORD)),
    Step::Put(2, 3, 5, Err(RECORD)),
    Step::Remove(2, Err(RECORD)),
    Step::Write(40, [64, 0, 0, 0, 0, 0, 0, 1]),
    Step::Get(2, Err(SLOT)),
];

// What fails: the write of a new record, a read of a record, and the write of a link.
const FAILING: &[Step] = &[
    Step::Put(2, 3, 5, Err(Work { count: 1 })),
    Step::Put(2, 3, 5, Ok(())),
    Step::Get(2, Err(Work { count: 2 })),
    Step::Get(2, Ok(Some(3))),
    Step::PutPending(2, Err(Work { count: 3 })),
    Step::TakePending(Ok(None)),
];

#[test]
fn objects_are_put_and_removed(rt: HostRuntime) -> Result<(), Fail> {
    check(&rt, rt.alloc(), &[], OBJECTS)
}

#[test]
fn what_cannot_be_so_is_damaged(rt: HostRuntime) -> Result<(), Fail> {
    check(&rt, rt.alloc(), &[], DAMAGED)
}

#[test]
fn calls_on_work_fail(rt: HostRuntime) -> Result<(), Fail> {
    check(&rt, rt.alloc(), &[2, 7, 11], FAILING)
}

/// How many objects there is room for on a larger disk.
const ROOM: u32 = 1_024;

// Puts an object under each name from the last to the first.
fn fills(disk: &mut DiskObjects<'_, LyingHost>, buf: &mut RecordBuf) -> Result<bool, Fail> {
    for i in 0..ROOM {
        if put(disk, buf, 2 * (ROOM - i), i % 50, 1)?.is_err() {
            return Ok(false);
        }
    }
    Ok(true)
}

// They rise, and none is left out.
fn are_all(names: &NameList) -> bool {
    names.len() == ROOM as usize
        && (0..names.len()).all(|i| names.item(i).index() as usize == i + 1)
}

#[test]
fn the_last_object_finds_no_room(rt: HostRuntime) -> Result<(), Fail> {
    let mut host = attached(rt.alloc(), &[])?;
    let mut buf = RecordBuf::new(rt.alloc())?;
    let mut disk = DiskObjects::begin(&mut host, ROOM);
    assert!(rt; fills(&mut disk, &mut buf)?);
    let full = Full {
        held: ROOM,
        room: ROOM,
    };
    assert_eq!(rt; put(&mut disk, &mut buf, 2 * ROOM + 2, 1, 1)?, Err(full));
    assert_eq!(rt; get(&mut disk, &mut buf, 2 * ROOM)?, Ok(Some(0)));
    let names = disk.names(rt.alloc());
    assert!(rt; names.is_ok());
    let Ok(names) = names else {
        return Ok(());
    };
    assert!(rt; are_all(&names));
    Ok(())
}
