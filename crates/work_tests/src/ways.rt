// Images that are loaded, and saved again: straight from the disk, or by way of a memory of two levels; and why they aren't.
ghost use Rattle.object_memory.specs.Calls.{IsFit};
ghost use Rattle.contexts.specs.Calls.{StaysFit};
ghost use Rattle.object_memory.specs.Told.{IsReady};
ghost use Rattle.loom_memory.specs.Memory.{loom_told, IsSound};
ghost use Rattle.image_memory.specs.Image.{HasImage};

use contexts::Stop;
use contexts::parts::{known, store_field};
use disk_objects::{DiskObjects, DiskRest};
use image_format::State;
use image_memory::{begin_memory, save_kept};
use image_reader::{LoadFault, Loaded, load};
use image_writer::{SaveFault, save};
use long_names::{Name, Octets};
use loom_memory::{CoreTables, LoomMemory};
use loom_outside::{DiskFault, Host, LyingHost, MemoryHost, Role};
use object_memory::{MemFault, ObjectMemory, Reg};
use sample_images::{HELLO_NEXT, NEXT, base, hello};
use std::alloc::Global;
use std::test::Fail;

/// The words of the core, its entries, and the objects for which there is room.
const CORE: u32 = 4_096;

const ENTRIES: u16 = 512;

const ROOM: u32 = 128;

#[derive(Clone, Copy)]
enum Sample {
    Base,
    Hello,
}

/// What is done between loading and saving.
#[derive(Clone, Copy)]
enum Between {
    Nothing,
    /// Bytes are written to a place of Work.
    Writes(u64, &'static [u8]),
    /// A memory begins and ends.
    Memory,
    /// And in it the scheduler's association gets nil in place of the scheduler.
    LetsGo,
}

/// An image, of version 1 or of version 2 with these words of a state; what is done with it, and the state with which it is saved; and how
/// that ends. The words of the state that are saved stand behind the first 16 bytes, in the place of the image's own; other bytes stand at
/// some offsets then, and so many are put in all.
#[derive(Clone, Copy)]
struct Row {
    sample: Sample,
    words: Option<[u32; 5]>,
    between: Between,
    state: State,
    end: End,
    kept: [u32; 5],
    changes: &'static [(usize, u8)],
    len: usize,
}

/// How a way ends.
#[derive(Clone, Copy, Debug, PartialEq, Eq)]
enum End {
    NoWork(u64),
    Unloaded(LoadFault),
    NoTables,
    Stopped(Stop),
    Refused(MemFault),
    Unattached(u64),
    Unsaved(SaveFault),
    Saved,
}

// ---- the way

// The scheduler's association gets nil, if so is asked: then nothing holds the scheduler, nor what it leads to.
fn let_go<M: ObjectMemory>(m: &mut M, asked: bool) -> Result<(), Stop>
    requires fit { IsFit M.ObjectMemory m.old }
    ensures fit { StaysFit M.ObjectMemory m.old m.new result }
{
    if !asked {
        return Ok(());
    }
    known(m, Reg::R10, Name::SCHEDULER_ASSOCIATION)?;
    known(m, Reg::R11, Name::NIL)?;
    store_field(m, Reg::R10, 1, Reg::R11)
}

// Attaches Saved and saves what is on the disk: as it was loaded, or as a memory left it.
fn saves(
    alloc: Global,
    disk: &mut DiskObjects<'_, LyingHost>,
    next: u32,
    state: &State,
    as_loaded: bool,
) -> End {
    if disk.attach(Role::Saved, "saved").is_err() {
        return End::Unattached(disk.fault_count(Role::Saved));
    }
    let saved = if as_loaded {
        save(alloc, disk, next, state)
    } else {
        save_kept(alloc, disk, next, state)
    };
    match saved {
        Ok(()) => End::Saved,
        Err(fault) => End::Unsaved(fault),
    }
}

// Ends a memory. The answer is the next name.
fn winds_up<H: Host>(memory: &mut LoomMemory<'_, H>, lets_go: bool) -> Result<u32, End>
    requires sound { IsSound H.Host memory.old }
    requires ready { IsReady (loom_told H.Host memory.old) }
{
    match let_go(memory, lets_go) {
        Ok(()) => {}
        Err(stop) => return Err(End::Stopped(stop)),
    }
    match memory.wind_up() {
        Ok(next) => Ok(next),
        Err(fault) => Err(End::Refused(fault)),
    }
}

// Makes a memory over a disk that was loaded, ends it, and saves what is kept.
fn by_memory(
    alloc: Global,
    host: &mut LyingHost,
    rest: DiskRest,
    loaded: &Loaded,
    lets_go: bool,
    state: &State,
) -> End
    requires image { HasImage ⟦<LyingHost as Host>⟧ host.old rest loaded.now }
{
    let Ok(tables) = CoreTables::new(alloc, CORE, ENTRIES) else {
        return End::NoTables;
    };
    let disk = DiskObjects::again(host, rest);
    let mut memory = begin_memory(disk, loaded, tables, CORE, ENTRIES);
    let wound = winds_up(&mut memory, lets_go);
    let mut disk = memory.into_disk();
    let end = match wound {
        Ok(next) => saves(alloc, &mut disk, next, state, false),
        Err(end) => end,
    };
    let _host = disk.into_host();
    end
}

// Saves a disk as it was loaded.
fn by_disk(
    alloc: Global,
    host: &mut LyingHost,
    rest: DiskRest,
    loaded: &Loaded,
    state: &State,
) -> End {
    let mut disk = DiskObjects::again(host, rest);
    let end = saves(alloc, &mut disk, loaded.next, state, true);
    let _host = disk.into_host();
    end
}

// Goes on from a disk that was loaded.
fn leaves(alloc: Global, host: &mut LyingHost, rest: DiskRest, loaded: &Loaded, row: &Row) -> End
    requires image { HasImage ⟦<LyingHost as Host>⟧ host.old rest loaded.now }
{
    match row.between {
        Between::Nothing => by_disk(alloc, host, rest, loaded, &row.state),
        Between::Writes(at, bytes) => match host.write_at(at, bytes) {
            Ok(()) => by_disk(alloc, host, rest, loaded, &row.state),
            Err(_) => End::NoWork(host.fault_count(Role::Work)),
        },
        Between::Memory => by_memory(alloc, host, rest, loaded, false, &row.state),
        Between::LetsGo => by_memory(alloc, host, rest, loaded, true, &row.state),
    }
}

// Attaches Work, loads Image, and goes on from there.
fn end_of(alloc: Global, host: &mut LyingHost, row: &Row) -> End {
    if host.attach(Role::Work, "work").is_err() {
        return End::NoWork(host.fault_count(Role::Work));
    }
    let mut disk = DiskObjects::begin(host, ROOM);
    match load(alloc, &mut disk, ROOM) {
        Ok(loaded) => {
            let (host, rest) = disk.apart();
            leaves(alloc, host, rest, &loaded, row)
        }
        Err(fault) => {
            let _host = disk.into_host();
            End::Unloaded(fault)
        }
    }
}

// ---- bytes

fn octets(alloc: Global, sample: Sample) -> Result<Octets, Fail> {
    let built = match sample {
        Sample::Base => base(alloc)?.finish(alloc, NEXT),
        Sample::Hello => hello(alloc)?.finish(alloc, HELLO_NEXT),
    };
    Ok(built?)
}

fn set(bytes: &mut Vec<u8>, at: usize, byte: u8) {
    if let Some(old) = bytes.get_mut(at) {
        *old = byte;
    }
}

/// An image of version 1 as one of version 2 with these words of a state.
fn with_words(alloc: Global, bytes: &[u8], words: &[u32; 5]) -> Result<Vec<u8>, Fail> {
    let (head, records) = bytes.split_at(bytes.len().min(16));
    let mut made = Vec::new(alloc);
    made.extend_from_slice(head)?;
    for word in words {
        made.extend_from_slice(&word.to_be_bytes())?;
    }
    made.extend_from_slice(records)?;
    set(&mut made, 7, 2);
    Ok(made)
}

/// What is to be put.
fn wanted(alloc: Global, row: &Row) -> Result<Vec<u8>, Fail> {
    let octets = octets(alloc, row.sample)?;
    let mut made = with_words(alloc, octets.bytes(), &row.kept)?;
    for (at, byte) in row.changes {
        set(&mut made, *at, *byte);
    }
    made.truncate(row.len);
    Ok(made)
}

// A host with the row's image, of which the nth call on this role fails, counted from 1; 0 for none. Work is not attached yet.
fn host_for(alloc: Global, row: &Row, role: Role, nth: u64) -> Result<LyingHost, Fail> {
    let octets = octets(alloc, row.sample)?;
    let mut host = MemoryHost::new(alloc, 1_000)?;
    match row.words {
        Some(words) => host.add_file("image", &with_words(alloc, octets.bytes(), &words)?)?,
        None => host.add_file("image", octets.bytes())?,
    }
    host.attach(Role::Image, "image")?;
    host.fail(role, nth)?;
    Ok(LyingHost::new(host, 0, 0))
}

fn put_to_saved(host: &LyingHost) -> &[u8] {
    match host.inner().file("saved") {
        Some(bytes) => bytes,
        None => &[],
    }
}

fn is_right(alloc: Global, row: &Row) -> Result<bool, Fail> {
    let mut host = host_for(alloc, row, Role::Saved, 0)?;
    let end = end_of(alloc, &mut host, row);
    let want = wanted(alloc, row)?;
    Ok(end == row.end && put_to_saved(&host) == want.as_slice())
}

// With no memory between, and with one, all is kept, and what is saved is the image in version 2. Of the state a name goes that no object has:
// the next name, an odd word, and one above. Where the scheduler is let go of, it, the process, the method and the context aren't kept, so 22
// objects stay, and counts fall: of nil at 51, of the classes of arrays, contexts and methods at 179, 199 and 319; the association's second
// field at 123 is nil.
//
// With room for 128 objects the directory has two pages, 8,192 bytes, and the slot of the name 2 is number 60; its record stands in the first block. What
// is written: an odd name in the slot; and in the record another name, and a kind that is none. So short an image is put at its end, so
// nothing was.
const ROWS: &[Row] = &[
    Row {
        sample: Sample::Base,
        words: Some([7, 60, 0, 62, 5]),
        between: Between::Nothing,
        state: State {
            clock: 7,
            display: 60,
            input: 0,
            timer: 62,
            tick: 5,
        },
        end: End::Saved,
        kept: [7, 60, 0, 62, 5],
        changes: &[],
        len: 672,
    },
    Row {
        sample: Sample::Base,
        words: Some([7, 60, 0, 62, 5]),
        between: Between::Nothing,
        state: State {
            clock: 9,
            display: 68,
            input: 61,
            timer: 70,
            tick: 5,
        },
        end: End::Saved,
        kept: [9, 0, 0, 0, 0],
        changes: &[],
        len: 672,
    },
    Row {
        sample: Sample::Hello,
        words: None,
        between: Between::Nothing,
        state: State::NONE,
        end: End::Saved,
        kept: [0; 5],
        changes: &[],
        len: 3_124,
    },
    Row {
        sample: Sample::Hello,
        words: Some([1, 0, 0, 0, 0]),
        between: Between::Memory,
        state: State {
            clock: 9,
            display: 96,
            input: 40,
            timer: 62,
            tick: 3,
        },
        end: End::Saved,
        kept: [9, 96, 40, 62, 3],
        changes: &[],
        len: 3_124,
    },
    Row {
        sample: Sample::Base,
        words: Some([7, 60, 0, 62, 5]),
        between: Between::LetsGo,
        state: State {
            clock: 9,
            display: 66,
            input: 40,
            timer: 62,
            tick: 3,
        },
        end: End::Saved,
        kept: [9, 0, 40, 0, 0],
        changes: &[(11, 22), (51, 2), (123, 2), (179, 22), (199, 0), (319, 0)],
        len: 484,
    },
    Row {
        sample: Sample::Base,
        words: None,
        between: Between::Writes(1_440, &[0, 0, 0, 3, 0, 0, 0, 0]),
        state: State::NONE,
        end: End::Unsaved(SaveFault::Disk(DiskFault::Damaged {
            place: 1_440,
            name: 3,
        })),
        kept: [0; 5],
        changes: &[],
        len: 0,
    },
    Row {
        sample: Sample::Base,
        words: None,
        between: Between::Writes(8_192, &[0, 0, 0, 4, 0, 0, 0, 16]),
        state: State::NONE,
        end: End::Unsaved(SaveFault::Disk(DiskFault::Damaged {
            place: 8_192,
            name: 2,
        })),
        kept: [0; 5],
        changes: &[],
        len: 0,
    },
    Row {
        sample: Sample::Base,
        words: None,
        between: Between::Writes(8_208, &[0, 4, 0, 0, 0, 0, 0, 0]),
        state: State::NONE,
        end: End::Unsaved(SaveFault::Disk(DiskFault::Damaged {
            place: 8_192,
            name: 2,
        })),
        kept: [0; 5],
        changes: &[],
        len: 0,
    },
];

#[test]
fn what_is_kept_is_saved(rt: HostRuntime) -> Result<(), Fail> {
    for (i, row) in ROWS.iter().enumerate() {
        assert_eq!(rt; (i, is_right(rt.alloc(), row)?), (i, true));
    }
    Ok(())
}

// ---- calls that fail

// Whether a way ended so because one call on this role failed.
fn is_caused_by(end: End, role: Role) -> bool {
    let work = DiskFault::Work { count: 1 };
    match role {
        Role::Image => end == End::Unloaded(LoadFault::Read { count: 1 }),
        Role::Work => {
            end == End::NoWork(1)
                || end == End::Unloaded(LoadFault::Disk(work))
                || end == End::Stopped(Stop::Mem(MemFault::WorkFault { count: 1 }))
                || end == End::Refused(MemFault::WorkFault { count: 1 })
                || end == End::Unsaved(SaveFault::Disk(work))
        }
        _ => end == End::Unattached(1) || end == End::Unsaved(SaveFault::Write { count: 1 }),
    }
}

// Whether a way is refused for one call on a role, and a prefix of what is wanted was put.
fn is_told(alloc: Global, row: &Row, role: Role, nth: u64) -> Result<bool, Fail> {
    let want = wanted(alloc, row)?;
    let mut host = host_for(alloc, row, role, nth)?;
    let end = end_of(alloc, &mut host, row);
    Ok(is_caused_by(end, role) && want.as_slice().starts_with(put_to_saved(&host)))
}

// Of the calls on a role the first, and then one of so many: the first of which it isn't told that it failed, counted from 1.
fn first_untold(alloc: Global, row: &Row, role: Role, step: u64) -> Result<u64, Fail> {
    let mut nth = 1u64;
    for _ in 0..1_000u32 {
        if !is_told(alloc, row, role, nth)? {
            return Ok(nth);
        }
        nth = nth.saturating_add(step);
    }
    Err("some call is the last".into())
}

// A failing call is told, and the first that isn't was never made: then all is saved.
#[test]
fn a_failing_call_is_told(rt: HostRuntime) -> Result<(), Fail> {
    for (role, step) in [(Role::Image, 1), (Role::Work, 60), (Role::Saved, 1)] {
        let nth = first_untold(rt.alloc(), &ROWS[4], role, step)?;
        let mut host = host_for(rt.alloc(), &ROWS[4], role, nth)?;
        assert!(rt; nth > 1);
        assert_eq!(rt; end_of(rt.alloc(), &mut host, &ROWS[4]), End::Saved);
    }
    Ok(())
}
