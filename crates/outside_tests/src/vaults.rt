// Vaults: which checkpoint the gates tell, images by their blocks, the stops of `fresh` and of a vault in memory, and a vault over a file.
use checkpoint::{MemoryVault, Vault, VaultFault, fresh, read_image, recover};
use loom_outside::{Failed, Role};
use real_vault::RealVault;
use std::alloc::{AllocError, Global};
use std::test::Fail;
use std::{fs, io};

// ---- gates

/// A gate: its byte, its serial and its length.
#[derive(Clone, Copy)]
struct Gate(u8, u64, u64);

/// What `recover` answers: a serial and a length, or the place of a gate.
#[derive(Clone, Copy, Debug, PartialEq, Eq)]
enum Answer {
    None,
    Point(u64, u64),
    Bad(u64),
    Other,
}

struct Row {
    first: Gate,
    second: Gate,
    answer: Answer,
}

const EMPTY: Gate = Gate(0, 0, 0);

const OPEN_2: Gate = Gate(1, 2, 36);

const OPEN_3: Gate = Gate(1, 3, 50);

// The greatest serial is 2 ^ 62 - 1, and the greatest length 2 ^ 42.
const CLOSED: &[Row] = &[
    Row {
        first: EMPTY,
        second: EMPTY,
        answer: Answer::None,
    },
    Row {
        first: Gate(0, 2, 36),
        second: EMPTY,
        answer: Answer::None,
    },
    Row {
        first: Gate(2, 2, 36),
        second: Gate(255, 1, 36),
        answer: Answer::None,
    },
    Row {
        first: Gate(255, u64::MAX, 0),
        second: Gate(0, 2, 35),
        answer: Answer::None,
    },
    Row {
        first: Gate(1, 0, 36),
        second: Gate(1, 0, 0),
        answer: Answer::None,
    },
    Row {
        first: OPEN_2,
        second: Gate(0, 3, 36),
        answer: Answer::Point(2, 36),
    },
    Row {
        first: Gate(129, 4, 36),
        second: OPEN_3,
        answer: Answer::Point(3, 50),
    },
    Row {
        first: Gate(1, 0, 36),
        second: OPEN_3,
        answer: Answer::Point(3, 50),
    },
];

const OPEN: &[Row] = &[
    Row {
        first: OPEN_2,
        second: EMPTY,
        answer: Answer::Point(2, 36),
    },
    Row {
        first: EMPTY,
        second: Gate(1, 1, 672),
        answer: Answer::Point(1, 672),
    },
    Row {
        first: OPEN_2,
        second: Gate(1, 1, 50),
        answer: Answer::Point(2, 36),
    },
    Row {
        first: OPEN_2,
        second: OPEN_3,
        answer: Answer::Point(3, 50),
    },
    Row {
        first: Gate(1, 1 << 32, 36),
        second: OPEN_3,
        answer: Answer::Point(1 << 32, 36),
    },
    Row {
        first: Gate(1, (1 << 62) - 2, 36),
        second: Gate(1, (1 << 62) - 1, 50),
        answer: Answer::Point((1 << 62) - 1, 50),
    },
    Row {
        first: Gate(1, (1 << 62) - 2, 36),
        second: Gate(1, (1 << 62) - 3, 50),
        answer: Answer::Point((1 << 62) - 2, 36),
    },
    Row {
        first: Gate(1, 1 << 62, 36),
        second: EMPTY,
        answer: Answer::Bad(0),
    },
    Row {
        first: EMPTY,
        second: Gate(1, (1 << 62) + 1, 36),
        answer: Answer::Bad(512),
    },
    Row {
        first: OPEN_2,
        second: Gate(1, u64::MAX, 36),
        answer: Answer::Bad(512),
    },
    Row {
        first: Gate(1, 1, 36),
        second: EMPTY,
        answer: Answer::Bad(0),
    },
    Row {
        first: Gate(1, 4, 36),
        second: Gate(1, 2, 36),
        answer: Answer::Bad(512),
    },
    Row {
        first: Gate(1, 2, 35),
        second: OPEN_3,
        answer: Answer::Bad(0),
    },
    Row {
        first: Gate(1, 2, 1 << 42),
        second: EMPTY,
        answer: Answer::Point(2, 1 << 42),
    },
    Row {
        first: Gate(1, 2, (1 << 42) + 1),
        second: EMPTY,
        answer: Answer::Bad(0),
    },
    Row {
        first: EMPTY,
        second: Gate(1, 3, 35),
        answer: Answer::Bad(512),
    },
    Row {
        first: EMPTY,
        second: Gate(1, 3, 36),
        answer: Answer::Point(3, 36),
    },
    Row {
        first: OPEN_2,
        second: Gate(1, 3, 1 << 42),
        answer: Answer::Point(3, 1 << 42),
    },
    Row {
        first: OPEN_2,
        second: Gate(1, 3, (1 << 42) + 1),
        answer: Answer::Bad(512),
    },
    Row {
        first: OPEN_2,
        second: Gate(1, 1, 0),
        answer: Answer::Bad(512),
    },
    Row {
        first: Gate(1, 3, 36),
        second: Gate(1, 2, 36),
        answer: Answer::Bad(0),
    },
];

// The first gate stands at 0 and the second at 512. The bytes between the byte of a gate and its serial say nothing.
fn put_gate<V: Vault>(vault: &mut V, second: bool, gate: Gate) -> Result<(), Failed> {
    let place = if second { 512u64 } else { 0 };
    vault.write_at(place, &[gate.0, 1, 1, 1, 1, 1, 1, 1])?;
    vault.write_at(place + 8, &gate.1.to_be_bytes())?;
    vault.write_at(place + 16, &gate.2.to_be_bytes())
}

fn with_gates(alloc: Global, first: Gate, second: Gate) -> Result<MemoryVault, Fail> {
    let mut vault = MemoryVault::new(alloc)?;
    put_gate(&mut vault, false, first)?;
    put_gate(&mut vault, true, second)?;
    Ok(vault)
}

fn answer_of(vault: &mut MemoryVault) -> Answer {
    match recover(vault) {
        Ok(None) => Answer::None,
        Ok(Some(point)) => Answer::Point(point.serial, point.len),
        Err(VaultFault::Bad { place }) => Answer::Bad(place),
        Err(_) => Answer::Other,
    }
}

// What `recover` found outlives a stop, though the gates weren't synced before.
fn is_right(alloc: Global, row: &Row) -> Result<bool, Fail> {
    let mut vault = with_gates(alloc, row.first, row.second)?;
    let found = answer_of(&mut vault);
    vault.stop(0, 255);
    Ok(found == row.answer && answer_of(&mut vault) == row.answer)
}

// The first row of which something else is told.
fn first_wrong(alloc: Global, rows: &[Row]) -> Result<Option<usize>, Fail> {
    for (i, row) in rows.iter().enumerate() {
        if !is_right(alloc, row)? {
            return Ok(Some(i));
        }
    }
    Ok(None)
}

#[test]
fn gates_that_are_closed(rt: HostRuntime) -> Result<(), Fail> {
    assert_eq!(rt; first_wrong(rt.alloc(), CLOSED)?, None);
    Ok(())
}

#[test]
fn gates_that_are_open(rt: HostRuntime) -> Result<(), Fail> {
    assert_eq!(rt; first_wrong(rt.alloc(), OPEN)?, None);
    Ok(())
}

// ---- images

/// The bytes of an image, up to three blocks.
const LENGTHS: [usize; 6] = [36, 65_535, 65_536, 65_537, 131_072, 131_073];

// No two blocks of it are alike, and none of it is like one that begins otherwise.
fn pattern(alloc: Global, len: usize, first: usize) -> Result<Vec<u8>, AllocError> {
    let mut bytes = Vec::new(alloc);
    for j in 0..len {
        bytes.push((j.saturating_add(first) % 251) as u8)?;
    }
    Ok(bytes)
}

// Block b of the even serials stands at 4,096 + 2 b * 65,536, and that of the odd ones 65,536 behind it.
fn lay(vault: &mut MemoryVault, odd: bool, image: &[u8]) -> Result<(), Failed> {
    let mut place = if odd { 69_632u64 } else { 4_096 };
    for block in image.chunks(65_536) {
        vault.write_at(place, block)?;
        place = place.saturating_add(131_072);
    }
    Ok(())
}

// Whether the image of the vault's checkpoint, which has this serial, is this.
fn reads(
    alloc: Global,
    vault: &mut MemoryVault,
    serial: u64,
    image: &[u8],
) -> Result<bool, VaultFault> {
    match recover(vault)? {
        Some(point) => {
            let read = read_image(alloc, vault, point)?;
            Ok(point.serial == serial && read.bytes() == image)
        }
        None => Ok(false),
    }
}

// Whether an image is read out of each area, where both have the same length.
fn both_read(
    alloc: Global,
    vault: &mut MemoryVault,
    even: &[u8],
    odd: &[u8],
) -> Result<bool, Fail> {
    lay(vault, false, even)?;
    lay(vault, true, odd)?;
    let first = reads(alloc, vault, 8, even)?;
    put_gate(vault, true, Gate(1, 9, odd.len() as u64))?;
    Ok(first && reads(alloc, vault, 9, odd)?)
}

// The same of images of this length.
fn are_read(alloc: Global, len: usize) -> Result<bool, Fail> {
    let even = pattern(alloc, len, 0)?;
    let odd = pattern(alloc, len, 100)?;
    let mut vault = with_gates(alloc, Gate(1, 8, len as u64), EMPTY)?;
    both_read(alloc, &mut vault, &even, &odd)
}

#[test]
fn images_by_their_blocks(rt: HostRuntime) -> Result<(), Fail> {
    for len in LENGTHS {
        assert_eq!(rt; (len, are_read(rt.alloc(), len)?), (len, true));
    }
    Ok(())
}

// Whether the image of the vault's checkpoint is refused for want of memory, with no call on the vault, of which none would pass.
fn is_refused(alloc: Global, vault: &mut MemoryVault) -> Result<bool, VaultFault> {
    let Some(point) = recover(vault)? else {
        return Ok(false);
    };
    vault.fuse(0);
    let refused = matches!(read_image(alloc, vault, point), Err(VaultFault::Memory));
    Ok(refused && vault.fault_count() == 0)
}

// A length that no memory holds is want of memory before the image is read.
#[test]
fn a_length_that_no_memory_holds(rt: HostRuntime) -> Result<(), Fail> {
    let mut vault = with_gates(rt.alloc(), Gate(1, 2, 1 << 42), EMPTY)?;
    lay(&mut vault, false, &[7; 100])?;
    assert!(rt; is_refused(rt.alloc(), &mut vault)?);
    Ok(())
}

// ---- stops

/// How many of the ranges that weren't synced are kept, and the byte of the others.
const STOPS: &[(u64, u8)] = &[
    (0, 0),
    (0, 1),
    (0, 255),
    (1, 0),
    (1, 1),
    (1, 255),
    (2, 0),
    (2, 1),
    (2, 255),
    (3, 0),
    (3, 1),
    (3, 255),
];

// `fresh` makes three calls.
fn is_answer(answer: Result<(), VaultFault>, calls: u64) -> bool {
    match answer {
        Ok(()) => calls >= 3,
        Err(fault) => calls < 3 && fault == VaultFault::Failed { count: 1 },
    }
}

// Whether nothing is found after a stop of `fresh` behind so many calls, over a vault that had checkpoints before it was opened.
fn is_closed(alloc: Global, calls: u64, (kept, fill): (u64, u8)) -> Result<bool, Fail> {
    let mut vault = with_gates(alloc, OPEN_2, OPEN_3)?;
    vault.open_named("v", true)?;
    vault.fuse(calls);
    let answered = is_answer(fresh(&mut vault), calls);
    vault.stop(kept, fill);
    vault.open_named("v", false)?;
    Ok(answered && answer_of(&mut vault) == Answer::None)
}

// The first stop behind so many calls that leaves a checkpoint.
fn first_open(alloc: Global, calls: u64) -> Result<Option<(u64, u8)>, Fail> {
    for stop in STOPS {
        if !is_closed(alloc, calls, *stop)? {
            return Ok(Some(*stop));
        }
    }
    Ok(None)
}

// What is found after a stop of `fresh` over a vault that wasn't opened.
fn answer_unopened(alloc: Global) -> Result<Answer, Fail> {
    let mut vault = with_gates(alloc, OPEN_2, OPEN_3)?;
    fresh(&mut vault)?;
    vault.stop(0, 1);
    Ok(answer_of(&mut vault))
}

#[test]
fn a_fresh_vault_has_no_checkpoint(rt: HostRuntime) -> Result<(), Fail> {
    for calls in 0..4 {
        assert_eq!(rt; (calls, first_open(rt.alloc(), calls)?), (calls, None));
    }
    assert_eq!(rt; answer_unopened(rt.alloc())?, Answer::None);
    Ok(())
}

// ---- calls

/// A step, and what comes of it.
#[derive(Clone, Copy)]
enum Step {
    /// The vault is opened, as a fresh one or not.
    Open(bool),
    Misses(bool),
    Write(u64, &'static [u8]),
    NoWrite(u64, &'static [u8]),
    /// These bytes stand from a place on.
    Shows(u64, &'static [u8]),
    NoRead,
    Sync,
    NoSync,
    /// So many calls have failed.
    Faults(u64),
    /// Of a vault in memory alone.
    Fuse(u64),
    Stop(u64, u8),
}

/// The vault's name.
const NAME: &str = "v";

fn shows<V: Vault>(vault: &mut V, place: u64, bytes: &[u8]) -> Result<bool, Failed> {
    let mut buf = [9; 10];
    if bytes.len() > 10 {
        return Ok(false);
    }
    let piece = &mut buf[..bytes.len()];
    vault.read_at(place, piece)?;
    Ok(&*piece == bytes)
}

// Whether what came of it is what is wanted.
fn run<V: Vault>(vault: &mut V, step: Step) -> bool {
    match step {
        Step::Open(fresh) => vault.open_named(NAME, fresh).is_ok(),
        Step::Misses(fresh) => vault.open_named(NAME, fresh).is_err(),
        Step::Write(place, bytes) => vault.write_at(place, bytes).is_ok(),
        Step::NoWrite(place, bytes) => vault.write_at(place, bytes).is_err(),
        Step::Shows(place, bytes) => shows(vault, place, bytes) == Ok(true),
        Step::NoRead => shows(vault, 0, b"#").is_err(),
        Step::Sync => vault.sync().is_ok(),
        Step::NoSync => vault.sync().is_err(),
        Step::Faults(count) => vault.fault_count() == count,
        Step::Fuse(_) | Step::Stop(..) => false,
    }
}

fn run_in_memory(vault: &mut MemoryVault, step: Step) -> bool {
    match step {
        Step::Fuse(calls) => {
            vault.fuse(calls);
            true
        }
        Step::Stop(kept, fill) => {
            vault.stop(kept, fill);
            true
        }
        _ => run(vault, step),
    }
}

// The first step of which something else came.
fn first_not<V: Vault>(vault: &mut V, steps: &[Step]) -> Option<usize> {
    for (i, step) in steps.iter().enumerate() {
        if !run(vault, *step) {
            return Some(i);
        }
    }
    None
}

fn first_not_in_memory(vault: &mut MemoryVault, steps: &[Step]) -> Option<usize> {
    for (i, step) in steps.iter().enumerate() {
        if !run_in_memory(vault, *step) {
            return Some(i);
        }
    }
    None
}

// What holds over a file as over memory.
const CALLS: &[Step] = &[
    Step::Open(true),
    Step::Shows(0, b"\0\0\0"),
    Step::Write(3, b"abc"),
    Step::Shows(0, b"\0\0\0abc\0\0"),
    Step::Write(1, b"xyz"),
    Step::Sync,
    Step::Shows(0, b"\0xyzbc\0"),
    Step::Open(false),
    Step::Shows(2, b"yzbc"),
    Step::Open(true),
    Step::Shows(0, b"\0\0\0\0\0\0"),
    Step::Sync,
    Step::Write(9, b"end"),
    Step::Write(0, b"front"),
    Step::Shows(3, b"nt\0\0\0\0en"),
    Step::Open(false),
    Step::Shows(0, b"front\0\0\0\0e"),
];

// What was synced stays, and the ranges that weren't count each for itself, those of failed writes among them. An opening that isn't fresh changes
// nothing of it; behind a fresh one nothing older comes back.
const RANGES: &[Step] = &[
    Step::Write(0, b"abcdef"),
    Step::Sync,
    Step::Write(1, b"BC"),
    Step::Write(4, b"E"),
    Step::Stop(1, 7),
    Step::Shows(0, b"aBCd\x07f\0"),
    Step::Stop(0, 8),
    Step::Shows(0, b"aBCd\x07f\0"),
    Step::Fuse(0),
    Step::NoWrite(3, b"12"),
    Step::Stop(0, 1),
    Step::Shows(0, b"aBC\x01\x01f\0"),
    Step::Write(2, b"pqrs"),
    Step::Write(0, b"PQR"),
    Step::Stop(1, 6),
    Step::Shows(0, b"\x06\x06\x06qrs\0"),
    Step::Write(0, b"xyz"),
    Step::Open(false),
    Step::Shows(0, b"xyzqrs\0"),
    Step::Stop(0, 4),
    Step::Shows(0, b"\x04\x04\x04qrs\0"),
    Step::Write(1, b"old"),
    Step::Open(true),
    Step::Shows(0, b"\0\0\0\0\0\0\0"),
    Step::Stop(0, 5),
    Step::Shows(0, b"\0\0\0\0\0\0\0"),
    Step::Write(1, b"new"),
    Step::Stop(2, 5),
    Step::Shows(0, b"\0new\0"),
];

// So many calls of whatever kind pass, and then none. After a sync that failed the ranges go as before it. A stop sets no fuse, and changes no
// count.
const FUSES: &[Step] = &[
    Step::Fuse(4),
    Step::Open(true),
    Step::Write(0, b"ab"),
    Step::Shows(0, b"ab"),
    Step::Sync,
    Step::NoSync,
    Step::NoRead,
    Step::NoWrite(1, b"X"),
    Step::Misses(false),
    Step::Faults(4),
    Step::Stop(0, 3),
    Step::Faults(4),
    Step::Shows(0, b"a\x03\0"),
    Step::Write(0, b"cd"),
    Step::Fuse(0),
    Step::NoSync,
    Step::Fuse(1),
    Step::Shows(0, b"cd\0"),
    Step::NoRead,
    Step::Stop(0, 2),
    Step::Shows(0, b"\x02\x02\0"),
    Step::Faults(6),
];

#[test]
fn a_vault_in_memory(rt: HostRuntime) -> Result<(), Fail> {
    for steps in [CALLS, RANGES, FUSES] {
        let mut vault = MemoryVault::new(rt.alloc())?;
        assert_eq!(rt; first_not_in_memory(&mut vault, steps), None);
    }
    Ok(())
}

// There is no file yet, and nothing is open.
const MISSING: &[Step] = &[
    Step::NoRead,
    Step::NoWrite(0, b"w"),
    Step::NoSync,
    Step::Misses(false),
    Step::NoRead,
    Step::Faults(5),
];

// The file is one that the run has.
const TAKEN: &[Step] = &[
    Step::Misses(true),
    Step::Misses(false),
    Step::NoRead,
    Step::Faults(8),
];

// Whether the file is as these calls leave it.
fn is_written(rt: &HostRuntime) -> io::Result<bool> {
    Ok(fs::read_to_string(rt, NAME)?.as_str() == "front\0\0\0\0end")
}

// The first step of each part of which something else came: where there is no file, where there is one, and where the run has it.
fn wrong_over_file(rt: &HostRuntime) -> Result<[Option<usize>; 3], Fail> {
    let mut vault = RealVault::new(rt.clone()?);
    let missing = first_not(&mut vault, MISSING);
    let calls = first_not(&mut vault, CALLS);
    if !is_written(rt)? {
        return Err("the file is as these calls leave it".into());
    }
    vault.expect(Role::Saved, "./v");
    Ok([missing, calls, first_not(&mut vault, TAKEN)])
}

#[test]
fn a_vault_over_a_file(rt: HostRuntime) -> Result<(), Fail> {
    assert_eq!(rt; wrong_over_file(&rt)?, [None; 3]);
    assert!(rt; is_written(&rt)?);
    fs::remove_file(&rt, NAME)?;
    Ok(())
}

// ---- files that are no vault

/// A file of this many bytes, with these first and these from a place on, and zeros else; and whether it is opened afresh.
struct File {
    len: usize,
    first: &'static [u8],
    place: usize,
    then: &'static [u8],
    opens: bool,
}

// The gates' bytes stand at 0 and at 512, and are 0 or 1 in a vault. An image, an image's text and a picture begin with a letter.
const FILES: &[File] = &[
    File {
        len: 0,
        first: b"",
        place: 0,
        then: b"",
        opens: true,
    },
    File {
        len: 1,
        first: b"\x01",
        place: 0,
        then: b"",
        opens: true,
    },
    File {
        len: 512,
        first: b"\0\xff",
        place: 511,
        then: b"\xff",
        opens: true,
    },
    File {
        len: 513,
        first: b"\x01\xff",
        place: 512,
        then: b"\x01",
        opens: true,
    },
    File {
        len: 4_096,
        first: b"",
        place: 511,
        then: b"\x02\x01\x02",
        opens: true,
    },
    File {
        len: 652,
        first: b"LOOM\0\0\0\x01\0\0\0\x1a\0\0\0\x44",
        place: 512,
        then: b"\0",
        opens: false,
    },
    File {
        len: 672,
        first: b"LOOM\0\0\0\x02\0\0\0\x1a\0\0\0\x44",
        place: 512,
        then: b"\x01",
        opens: false,
    },
    File {
        len: 28,
        first: b"loom 68 0 0 0 0 0\n2 16 words",
        place: 27,
        then: b"\n",
        opens: false,
    },
    File {
        len: 13,
        first: b"P4\n16 2\n\xf0\xf0\x0f\x0f",
        place: 0,
        then: b"",
        opens: false,
    },
    File {
        len: 1,
        first: b"\x02",
        place: 0,
        then: b"",
        opens: false,
    },
    File {
        len: 1,
        first: b"\xff",
        place: 0,
        then: b"",
        opens: false,
    },
    File {
        len: 513,
        first: b"\x01",
        place: 512,
        then: b"\x02",
        opens: false,
    },
    File {
        len: 9_000,
        first: b"",
        place: 512,
        then: b"\x80",
        opens: false,
    },
    File {
        len: 9_000,
        first: b"#!/bin/sh\n",
        place: 512,
        then: b"\x01",
        opens: false,
    },
    File {
        len: 600,
        first: b"\n",
        place: 512,
        then: b"\0",
        opens: false,
    },
    File {
        len: 600,
        first: b"\x01",
        place: 512,
        then: b"\0\xff",
        opens: true,
    },
];

fn bytes_of(alloc: Global, row: &File) -> Result<Vec<u8>, Fail> {
    let mut bytes = vec![in alloc; 0; row.len]?;
    for (at, piece) in [(0, row.first), (row.place, row.then)] {
        for (i, byte) in piece.iter().enumerate() {
            let Some(place) = bytes.get_mut(i.saturating_add(at)) else {
                return Err("a file has its bytes".into());
            };
            *place = *byte;
        }
    }
    Ok(bytes)
}

// Whether a fresh opening empties the file, or fails, once, and leaves it.
fn opens_so(
    rt: &HostRuntime,
    vault: &mut RealVault<HostRuntime>,
    row: &File,
) -> Result<bool, Fail> {
    let bytes = bytes_of(rt.alloc(), row)?;
    fs::write(rt, NAME, &bytes)?;
    let before = vault.fault_count();
    let opened = vault.open_named(NAME, true).is_ok();
    let left = fs::read(rt, NAME)?;
    let failed = vault.fault_count() != before;
    let stays = left.as_slice() == bytes.as_slice();
    Ok(if row.opens {
        opened && !failed && left.is_empty()
    } else {
        !opened && failed && stays
    })
}

#[test]
fn a_file_that_is_no_vault_is_kept(rt: HostRuntime) -> Result<(), Fail> {
    let mut vault = RealVault::new(rt.clone()?);
    for (i, row) in FILES.iter().enumerate() {
        assert_eq!(rt; (i, opens_so(&rt, &mut vault, row)?), (i, true));
    }
    fs::remove_file(&rt, NAME)?;
    Ok(())
}
