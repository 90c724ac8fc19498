// The calls that a system in memory was asked for and has done, the newest first. Names and files are read out of them backwards: what the
// newest call did, and else what the calls before it left.
ghost use Rattle.std.specs.Prelude.{◌≡◌, [], Some, false, IfOk, OnOk};
ghost use Rattle.std.specs.Option.{option_map};
ghost use Rattle.file_system.specs.Calls.{opening};
ghost use Rattle.file_system.specs.World.{FileState, World};
ghost use Rattle.file_system.specs.declared.system.Way.TheVariants.{Stream};
ghost use Rattle.memory_files.specs.Memory.{ShowsFile, at_start, changed_by, entry_of, file_left, is_append, leads_to, next_of, opens_folder, placed_at, seen_by, shut_of, step, synced_by, view_of, world_of};

use file_system::Way;
use loom_host::write_bytes_at;
use std::alloc::{AllocError, Global};

/// What is done through a descriptor.
#[derive(Drop)]
pub enum Change {
    Closed,
    // the next read in order begins at this place
    Placed(u64),
    Put(Vec<u8>),
    Written(u64, Vec<u8>),
    Cut,
    Unsynced,
}

/// One call. A file that is made, and a descriptor that is opened, have the number of the call: how many calls came before it, and three more.
#[derive(Drop)]
pub enum Call {
    Opened(Option<Way>, u64),
    Made(Vec<u8>, Way),
    Added(Vec<u8>, Vec<u8>),
    On(u64, Change),
    Synced(u64),
    Renamed(Vec<u8>, Vec<u8>),
    Removed(Vec<u8>),
    Lost(bool, Option<u8>),
}

#[derive(Drop)]
pub enum Calls {
    Start,
    Then(Call, Box<Calls>),
}

/// What is open under a descriptor.
#[derive(Clone, Copy)]
pub struct View {
    pub file: u64,
    pub way: Option<Way>,
    pub place: u64,
    pub shut: bool,
}

/// What a file holds, whether all of it may be lost, and whether a sync of it failed.
#[derive(Drop)]
pub struct FileNow {
    pub bytes: Vec<u8>,
    pub whole: bool,
    pub spoiled: bool,
}

/// The file that a name leads to, or with `settled` the one that it led to when the folder was synced.
pub fn named(calls: &Calls, next: u64, target: &[u8], settled: bool) -> Option<u64>
    requires next { next ≡ next_of calls.now }
    ensures { result ≡ leads_to settled (entry_of target.now) (world_of calls.now) }
{
    let Calls::Then(call, rest) = calls else {
        return None;
    };
    let before = next - 1;
    match call {
        Call::Made(path, _) => {
            if settled {
                named(rest, before, target, true)
            } else if path.as_slice() == target {
                Some(before)
            } else {
                named(rest, before, target, false)
            }
        }
        Call::Added(path, _) => {
            if path.as_slice() == target {
                Some(before)
            } else {
                named(rest, before, target, settled)
            }
        }
        Call::Renamed(from, to) => {
            if settled {
                named(rest, before, target, true)
            } else if to.as_slice() == target {
                named(rest, before, from.as_slice(), false)
            } else if from.as_slice() == target {
                None
            } else {
                named(rest, before, target, false)
            }
        }
        Call::Removed(path) => {
            if settled {
                named(rest, before, target, true)
            } else if path.as_slice() == target {
                None
            } else {
                named(rest, before, target, false)
            }
        }
        Call::Synced(descriptor) => {
            let folder = is_folder(seen(rest, before, *descriptor));
            named(rest, before, target, settled && !folder)
        }
        Call::Lost(back, _) => named(rest, before, target, *back),
        Call::Opened(_, _) => named(rest, before, target, settled),
        Call::On(_, _) => named(rest, before, target, settled),
    }
}

fn is_folder(seen: Option<View>) -> bool
    ensures { result ≡ opens_folder seen }
{
    match seen {
        Some(seen) => match seen.way {
            Some(_) => false,
            None => seen.file == 0,
        },
        None => false,
    }
}

/// What is open under a descriptor.
pub fn seen(calls: &Calls, next: u64, descriptor: u64) -> Option<View>
    requires next { next ≡ next_of calls.now }
    ensures { result ≡ option_map view_of ((world_of calls.now).opened descriptor) }
{
    let Calls::Then(call, rest) = calls else {
        return seen_at_start(descriptor);
    };
    let before = next - 1;
    let now = seen(rest, before, descriptor);
    seen_after(now, call, before, descriptor)
}

fn seen_at_start(descriptor: u64) -> Option<View>
    ensures { result ≡ option_map view_of (at_start.opened descriptor) }
{
    if descriptor == 1 {
        return Some(stream(1));
    }
    if descriptor == 2 {
        return Some(stream(2));
    }
    None
}

fn stream(file: u64) -> View
    ensures { result ≡ view_of (opening file (Some Stream) []) }
{
    View {
        file,
        way: Some(Way::Stream),
        place: 0,
        shut: false,
    }
}

// What is open under a descriptor after one more call.
fn seen_after(now: Option<View>, call: &Call, number: u64, descriptor: u64) -> Option<View>
    ensures { (w : World) → now ≡ option_map view_of (w.opened descriptor) → result ≡ option_map view_of ((step number call.now w).opened descriptor) }
{
    match call {
        Call::Opened(way, file) => {
            if number != descriptor {
                now
            } else if *file < number {
                Some(View {
                    file: *file,
                    way: *way,
                    place: 0,
                    shut: false,
                })
            } else {
                now
            }
        }
        Call::Made(_, way) => {
            if number == descriptor {
                Some(View {
                    file: number,
                    way: Some(*way),
                    place: 0,
                    shut: false,
                })
            } else {
                now
            }
        }
        Call::On(on, change) => {
            if *on == descriptor {
                seen_changed(now, change)
            } else {
                now
            }
        }
        Call::Lost(_, _) => shut(now),
        Call::Added(_, _) => now,
        Call::Synced(_) => now,
        Call::Renamed(_, _) => now,
        Call::Removed(_) => now,
    }
}

fn shut(now: Option<View>) -> Option<View>
    ensures { result ≡ option_map shut_of now }
{
    match now {
        Some(seen) => Some(View {
            file: seen.file,
            way: seen.way,
            place: seen.place,
            shut: true,
        }),
        None => None,
    }
}

fn seen_changed(now: Option<View>, change: &Change) -> Option<View>
    ensures { result ≡ option_map (seen_by change.now) now }
{
    match change {
        Change::Closed => shut(now),
        Change::Placed(place) => placed(now, *place),
        Change::Put(_) => now,
        Change::Written(_, _) => now,
        Change::Cut => now,
        Change::Unsynced => now,
    }
}

fn placed(now: Option<View>, place: u64) -> Option<View>
    ensures { result ≡ option_map (placed_at place) now }
{
    match now {
        Some(seen) => Some(View {
            file: seen.file,
            way: seen.way,
            place,
            shut: seen.shut,
        }),
        None => None,
    }
}

/// What a file holds.
pub fn file_now(alloc: Global, calls: &Calls, next: u64, file: u64) -> Result<FileNow, AllocError>
    requires next { next ≡ next_of calls.now }
    ensures { IfOk result (λ f. ShowsFile f ((world_of calls.now).files file)) }
{
    let Calls::Then(call, rest) = calls else {
        return Ok(FileNow {
            bytes: Vec::new(alloc),
            whole: false,
            spoiled: false,
        });
    };
    let before = next - 1;
    let mut now = file_now(alloc, rest, before, file)?;
    file_after(&mut now, call, rest, before, file)?;
    Ok(now)
}

// What it holds after one more call.
fn file_after(
    now: &mut FileNow,
    call: &Call,
    rest: &Calls,
    number: u64,
    file: u64,
) -> Result<(), AllocError>
    requires next { number ≡ next_of rest.now }
    ensures { ShowsFile now.old ((world_of rest.now).files file) → OnOk result (ShowsFile now.new ((step number call.now (world_of rest.now)).files file)) }
{
    match call {
        Call::Made(_, _) => {
            if number == file {
                reset(now, &[], true)
            } else {
                Ok(())
            }
        }
        Call::Added(_, bytes) => {
            if number == file {
                reset(now, bytes.as_slice(), false)
            } else {
                Ok(())
            }
        }
        Call::On(descriptor, change) => match seen(rest, number, *descriptor) {
            Some(seen) => {
                if seen.file == file {
                    change_file(now, change, seen.way)
                } else {
                    Ok(())
                }
            }
            None => Ok(()),
        },
        Call::Synced(descriptor) => match seen(rest, number, *descriptor) {
            Some(seen) => {
                if seen.file == file {
                    sync_file(now, seen.way);
                }
                Ok(())
            }
            None => Ok(()),
        },
        Call::Lost(_, fill) => {
            lose_file(now, *fill);
            Ok(())
        }
        Call::Opened(_, _) => Ok(()),
        Call::Renamed(_, _) => Ok(()),
        Call::Removed(_) => Ok(()),
    }
}

fn reset(now: &mut FileNow, bytes: &[u8], whole: bool) -> Result<(), AllocError>
    ensures bytes { OnOk result (now.new.bytes.items ≡ bytes.now) }
    ensures whole { now.new.whole ≡ whole }
    ensures spoiled { now.new.spoiled ≡ false }
{
    now.whole = whole;
    now.spoiled = false;
    now.bytes.clear();
    now.bytes.extend_from_slice(bytes)
}

fn appends(way: Option<Way>) -> bool
    ensures { result ≡ is_append way }
{
    match way {
        Some(Way::Append) => true,
        Some(Way::Read) => false,
        Some(Way::Stream) => false,
        Some(Way::Place) => false,
        None => false,
    }
}

fn change_file(now: &mut FileNow, change: &Change, way: Option<Way>) -> Result<(), AllocError>
    ensures { (f : FileState) → ShowsFile now.old f → OnOk result (ShowsFile now.new (changed_by change.now way f)) }
{
    match change {
        Change::Put(bytes) => {
            if appends(way) {
                now.bytes.extend_from_slice(bytes.as_slice())
            } else {
                Ok(())
            }
        }
        Change::Written(place, bytes) => write_bytes_at(&mut now.bytes, *place, bytes.as_slice()),
        Change::Cut => {
            now.bytes.clear();
            now.whole = true;
            Ok(())
        }
        Change::Unsynced => {
            now.spoiled = true;
            Ok(())
        }
        Change::Closed => Ok(()),
        Change::Placed(_) => Ok(()),
    }
}

fn sync_file(now: &mut FileNow, way: Option<Way>)
    ensures { (f : FileState) → ShowsFile now.old f → ShowsFile now.new (synced_by way f) }
{
    match way {
        Some(_) => {
            if !now.spoiled {
                now.whole = false;
            }
        }
        None => {}
    }
}

fn lose_file(now: &mut FileNow, fill: Option<u8>)
    ensures { (f : FileState) → ShowsFile now.old f → ShowsFile now.new (file_left fill f) }
{
    if now.whole {
        if let Some(byte) = fill {
            now.bytes.fill(byte);
        }
    }
    now.whole = false;
    now.spoiled = false;
}
