// The system over its list of calls.
ghost use Rattle.std.specs.Prelude.{◌≡◌, ◌<◌, ◌≤◌, ◌-◌, [], Some, None, IfOk, OnOk, OnErr, true, length, take, drop};
ghost use Rattle.std.specs.Option.{option_map};
ghost use Rattle.loom_host.specs.Bytes.{window};
ghost use Rattle.file_system.specs.Calls.{Does, Finds, MakesOpen, opening};
ghost use Rattle.file_system.specs.declared.system.Way.TheVariants.{Stream};
ghost use Rattle.file_system.specs.World.{MayLeave};
ghost use Rattle.file_system.specs.declared.system.Kind.TheVariants.{Regular};
ghost use Rattle.memory_files.specs.Memory.{IsThen, ShowsFile, apart_everywhere, entry_of, moments_of, next_of, view_of, world_of};
ghost use Rattle.memory_files.specs.declared.calls.Call.TheVariants.{On};

use crate::calls::{Call, Calls, Change, FileNow, View, file_now, named, seen};
use file_system::{Found, Kind, Making, Opened, Refusal, System, Way};
use loom_host::read_bytes_at;
use std::alloc::{AllocError, Global};
use std::mem;

// How many bytes an append accepts at most, so that a short piece is put by several.
const MOST: usize = 3;

/// What a loss of power leaves: whether names lead where they led when the folder was synced, and what a file that was never synced is filled with.
#[derive(Clone, Copy)]
pub struct Loss {
    pub names: bool,
    pub fill: Option<u8>,
}

/// Files in memory.
#[derive(Drop)]
pub struct MemoryFiles {
    alloc: Global,
    calls: Calls,
    next: u64,
    fuse: Option<u64>,
    ghost counted: { next ≡ next_of calls },
}

impl MemoryFiles {
    /// No name leads anywhere, and the standard streams are open.
    pub fn new(alloc: Global) -> MemoryFiles
        ensures output { (⟦<MemoryFiles as System>⟧.moments result).now.opened 1 ≡ Some (opening 1 (Some Stream) []) }
        ensures errors { (⟦<MemoryFiles as System>⟧.moments result).now.opened 2 ≡ Some (opening 2 (Some Stream) []) }
    {
        MemoryFiles {
            alloc,
            calls: Calls::Start,
            next: 3,
            fuse: None,
        }
    }

    /// So many calls pass, and each later one fails.
    pub fn fail_after(&mut self, calls: Option<u64>)
        ensures { self.new.calls ≡ self.old.calls }
    {
        self.fuse = calls;
    }

    /// Adds a file that is on the disk.
    pub fn add(&mut self, path: &str, bytes: &[u8]) -> Result<(), Refusal> {
        let (Ok(path), Ok(bytes)) = (
            Vec::from_slice(self.alloc, path.as_bytes()),
            Vec::from_slice(self.alloc, bytes),
        ) else {
            return Err(Refusal::Failed);
        };
        self.note(Call::Added(path, bytes))
    }

    /// The power goes, and comes again.
    pub fn lose(&mut self, loss: Loss) -> Result<(), Refusal>
        ensures lost { OnOk result (MayLeave (moments_of self.old.calls).now (moments_of self.new.calls).now) }
    {
        self.note(Call::Lost(loss.names, loss.fill))
    }

    /// The bytes of the file that this name leads to.
    pub fn content(&self, path: &str) -> Option<Vec<u8>> {
        let file = named(&self.calls, self.next, path.as_bytes(), false)?;
        match file_now(self.alloc, &self.calls, self.next, file) {
            Ok(now) => Some(now.bytes),
            Err(_) => None,
        }
    }

    // One more call was done.
    fn note(&mut self, call: Call) -> Result<(), Refusal>
        ensures noted { OnOk result (IsThen call self.old.calls self.new.calls) }
        ensures failed { OnErr result (self.new.calls ≡ self.old.calls) }
        ensures alloc { self.new.alloc ≡ self.old.alloc }
    {
        let Some(next) = self.next.checked_add(1) else {
            return Err(Refusal::Failed);
        };
        let calls = mem::replace(&mut self.calls, Calls::Start);
        match Box::new(self.alloc, calls) {
            Ok(rest) => {
                self.calls = Calls::Then(call, rest);
                self.next = next;
                Ok(())
            }
            Err(failed) => {
                self.calls = failed.value;
                Err(Refusal::Failed)
            }
        }
    }

    // Whether this call fails.
    fn burns(&mut self) -> bool
        ensures calls { self.new.calls ≡ self.old.calls }
    {
        match self.fuse {
            Some(0) => true,
            Some(calls) => {
                self.fuse = Some(calls - 1);
                false
            }
            None => false,
        }
    }

    fn opened(&self, descriptor: u32) -> Result<View, Refusal>
        ensures { IfOk result (λ v. option_map view_of ((world_of self.now.calls).opened descriptor) ≡ Some v) }
    {
        match seen(&self.calls, self.next, u64::from(descriptor)) {
            Some(seen) => {
                if seen.shut {
                    Err(Refusal::Failed)
                } else {
                    Ok(seen)
                }
            }
            None => Err(Refusal::Failed),
        }
    }

    fn number(&self) -> Result<u32, Refusal>
        ensures { IfOk result (λ n. n ≡ next_of self.now.calls) }
    {
        match u32::try_from(self.next) {
            Ok(number) => Ok(number),
            Err(_) => Err(Refusal::Failed),
        }
    }

    fn open_found(&mut self, file: u64, way: Option<Way>) -> Result<u32, Refusal>
        ensures opened { file < next_of self.old.calls → IfOk result (λ d. Does (Finds d file way) (moments_of self.old.calls) (moments_of self.new.calls)) }
        ensures failed { OnErr result (self.new.calls ≡ self.old.calls) }
    {
        let number = self.number()?;
        self.note(Call::Opened(way, file))?;
        Ok(number)
    }

    // Opens a file that a name leads to.
    fn open_old(&mut self, file: u64, way: Way) -> Result<Opened, Refusal>
        ensures opened { file < next_of self.old.calls → IfOk result (λ o. Does (Finds o.descriptor o.found.file (Some way)) (moments_of self.old.calls) (moments_of self.new.calls)) }
        ensures found { IfOk result (λ o. o.found.file ≡ file) }
        ensures kind { IfOk result (λ o. o.found.kind ≡ Regular) }
        ensures failed { OnErr result (self.new.calls ≡ self.old.calls) }
    {
        let descriptor = self.open_found(file, Some(way))?;
        Ok(Opened {
            descriptor,
            found: regular(file),
        })
    }

    fn make(&mut self, path: &str, way: Way) -> Result<Opened, Refusal>
        ensures made { (world_of self.old.calls).names (entry_of path.now) ≡ None → IfOk result (λ o. Does (MakesOpen (entry_of path.now) o.descriptor o.found.file (Some way)) (moments_of self.old.calls) (moments_of self.new.calls)) }
        ensures kind { IfOk result (λ o. o.found.kind ≡ Regular) }
        ensures failed { OnErr result (self.new.calls ≡ self.old.calls) }
    {
        let descriptor = self.number()?;
        let Ok(path) = Vec::from_slice(self.alloc, path.as_bytes()) else {
            return Err(Refusal::Failed);
        };
        self.note(Call::Made(path, way))?;
        Ok(Opened {
            descriptor,
            found: regular(u64::from(descriptor)),
        })
    }

    // The file of an opening that is read.
    fn file(&self, seen: View) -> Result<FileNow, Refusal>
        ensures { IfOk result (λ f. ShowsFile f ((world_of self.now.calls).files seen.file)) }
    {
        if seen.way != Some(Way::Read) && seen.way != Some(Way::Place) {
            return Err(Refusal::Failed);
        }
        match file_now(self.alloc, &self.calls, self.next, seen.file) {
            Ok(now) => Ok(now),
            Err(_) => Err(Refusal::Failed),
        }
    }

    fn on(&mut self, descriptor: u32, change: Change) -> Result<(), Refusal>
        ensures noted { OnOk result (IsThen (On descriptor change) self.old.calls self.new.calls) }
        ensures failed { OnErr result (self.new.calls ≡ self.old.calls) }
    {
        self.note(Call::On(u64::from(descriptor), change))
    }
}

// How many bytes are read from a place on: none only behind the end.
fn some_of(bytes: &[u8], place: u64, most: usize) -> usize
    ensures bound { result ≤ most }
    ensures enough { result ≤ length bytes.now - place }
    ensures end { 0 < most → result ≡ 0 → length bytes.now ≤ place }
{
    let at = (place as usize).min(bytes.len());
    most.min(bytes.len() - at).min(MOST)
}

// Some bytes from a place on to the front of the buffer.
fn front_of(bytes: &[u8], place: u64, buf: &mut [u8]) -> usize
    ensures bound { result ≤ length buf.old }
    ensures enough { result ≤ length bytes.now - place }
    ensures bytes { take result buf.new ≡ take result (drop place bytes.now) }
    ensures end { 0 < length buf.old → result ≡ 0 → length bytes.now ≤ place }
{
    let n = some_of(bytes, place, buf.len());
    if n > 0 {
        let at = place as usize;
        buf[..n].copy_from_slice(&bytes[at..at + n]);
    }
    n
}

// The same, by the place of each.
fn window_of(bytes: &[u8], place: u64, buf: &mut [u8]) -> usize
    ensures bound { result ≤ length buf.old }
    ensures bytes { take result buf.new ≡ window bytes.now place result }
    ensures end { 0 < length buf.old → result ≡ 0 → length bytes.now ≤ place }
{
    let n = some_of(bytes, place, buf.len());
    read_bytes_at(bytes, place, &mut buf[..n]);
    n
}

fn regular(file: u64) -> Found
    ensures file { result.file ≡ file }
    ensures kind { result.kind ≡ Regular }
{
    Found {
        file: u128::from(file),
        kind: Kind::Regular,
        alone: true,
        mode: 0o644,
    }
}

impl System for MemoryFiles {
    ghost tells = { true };

    ghost entry = { entry_of };

    ghost moments = { λ m. moments_of m.calls };

    ghost beside = { apart_everywhere };

    fn open(
        &mut self,
        path: &str,
        way: Way,
        making: Making,
        _mode: u32,
    ) -> Result<Opened, Refusal> {
        if self.burns() {
            return Err(Refusal::Failed);
        }
        match named(&self.calls, self.next, path.as_bytes(), false) {
            Some(file) => match making {
                Making::New => Err(Refusal::Failed),
                Making::Old => self.open_old(file, way),
                Making::May => self.open_old(file, way),
            },
            None => match making {
                Making::Old => Err(Refusal::Missing),
                Making::New => self.make(path, way),
                Making::May => self.make(path, way),
            },
        }
    }

    fn open_folder(&mut self, _path: &str) -> Result<u32, Refusal> {
        if self.burns() {
            return Err(Refusal::Failed);
        }
        self.open_found(0, None)
    }

    fn close(&mut self, descriptor: u32) {
        let _ = self.on(descriptor, Change::Closed);
    }

    fn read(&mut self, descriptor: u32, buf: &mut [u8]) -> Result<usize, Refusal> {
        if self.burns() {
            return Err(Refusal::Failed);
        }
        let seen = self.opened(descriptor)?;
        let now = self.file(seen)?;
        let n = front_of(now.bytes.as_slice(), seen.place, buf);
        let Some(place) = seen.place.checked_add(n as u64) else {
            return Err(Refusal::Failed);
        };
        self.on(descriptor, Change::Placed(place))?;
        Ok(n)
    }

    fn append(&mut self, descriptor: u32, buf: &[u8]) -> Result<usize, Refusal> {
        if self.burns() {
            return Err(Refusal::Failed);
        }
        let seen = self.opened(descriptor)?;
        if seen.way != Some(Way::Append) && seen.way != Some(Way::Stream) {
            return Err(Refusal::Failed);
        }
        let n = buf.len().min(MOST);
        let Ok(bytes) = Vec::from_slice(self.alloc, &buf[..n]) else {
            return Err(Refusal::Failed);
        };
        self.on(descriptor, Change::Put(bytes))?;
        Ok(n)
    }

    fn read_at(&mut self, descriptor: u32, place: u64, buf: &mut [u8]) -> Result<usize, Refusal> {
        if self.burns() {
            return Err(Refusal::Failed);
        }
        let seen = self.opened(descriptor)?;
        let now = self.file(seen)?;
        Ok(window_of(now.bytes.as_slice(), place, buf))
    }

    fn write_at(&mut self, descriptor: u32, place: u64, buf: &[u8]) -> Result<usize, Refusal> {
        if self.burns() {
            return Err(Refusal::Failed);
        }
        let seen = self.opened(descriptor)?;
        if seen.way != Some(Way::Place) {
            return Err(Refusal::Failed);
        }
        let n = buf.len().min(MOST);
        let Ok(bytes) = Vec::from_slice(self.alloc, &buf[..n]) else {
            return Err(Refusal::Failed);
        };
        self.on(descriptor, Change::Written(place, bytes))?;
        Ok(n)
    }

    fn cut(&mut self, descriptor: u32) -> Result<(), Refusal> {
        if self.burns() {
            return Err(Refusal::Failed);
        }
        self.opened(descriptor)?;
        self.on(descriptor, Change::Cut)
    }

    fn sync(&mut self, descriptor: u32) -> Result<(), Refusal> {
        let burns = self.burns();
        let seen = self.opened(descriptor)?;
        if burns {
            // a folder isn't spoiled
            if seen.way.is_some() {
                let _ = self.on(descriptor, Change::Unsynced);
            }
            return Err(Refusal::Failed);
        }
        self.note(Call::Synced(u64::from(descriptor)))
    }

    fn permit(&mut self, _descriptor: u32, _mode: u32) -> Result<(), Refusal> {
        if self.burns() {
            return Err(Refusal::Failed);
        }
        Ok(())
    }

    fn rename(&mut self, from: &str, to: &str) -> Result<(), Refusal> {
        if self.burns() {
            return Err(Refusal::Failed);
        }
        if named(&self.calls, self.next, from.as_bytes(), false).is_none() {
            return Err(Refusal::Missing);
        }
        let (Ok(from), Ok(to)) = (
            Vec::from_slice(self.alloc, from.as_bytes()),
            Vec::from_slice(self.alloc, to.as_bytes()),
        ) else {
            return Err(Refusal::Failed);
        };
        self.note(Call::Renamed(from, to))
    }

    fn remove(&mut self, path: &str) -> Result<(), Refusal> {
        if self.burns() {
            return Err(Refusal::Failed);
        }
        if named(&self.calls, self.next, path.as_bytes(), false).is_none() {
            return Err(Refusal::Missing);
        }
        let Ok(path) = Vec::from_slice(self.alloc, path.as_bytes()) else {
            return Err(Refusal::Failed);
        };
        self.note(Call::Removed(path))
    }

    fn look(&mut self, path: &str, _follow: bool) -> Result<Found, Refusal> {
        if self.burns() {
            return Err(Refusal::Failed);
        }
        match named(&self.calls, self.next, path.as_bytes(), false) {
            Some(file) => Ok(regular(file)),
            None => Err(Refusal::Missing),
        }
    }

    fn read_link(&mut self, _alloc: Global, _path: &str) -> Result<String, Refusal> {
        Err(Refusal::Failed)
    }
}
