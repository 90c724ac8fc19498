// A file that is written in order, and what is at hand for the next one.
ghost use Rattle.std.specs.Prelude.{◌≡◌, ◌+◌, ◌≤◌, ◌<◌, ◌++◌, ◌∷◌, [], true, false, Some, OnOk, OnErr, IsOk, length, vec_capacity};
ghost use Rattle.loom_outside.specs.Files.{names, contents, rooms, kept};

use crate::files::File;
use std::alloc::{AllocError, Global};
use std::mem;

#[derive(Drop)]
pub struct Writer {
    // which file
    pub file: usize,
    // of the next attach: its name and its bytes, and whether a place among the files is kept for it
    pub name: Vec<u8>,
    pub bytes: Vec<u8>,
    pub place: bool,
}

impl Writer {
    pub fn new(alloc: Global, file: usize) -> Writer
        ensures file { result.file ≡ file }
        ensures place { result.place ≡ false }
    {
        Writer {
            file,
            name: Vec::new(alloc),
            bytes: Vec::new(alloc),
            place: false,
        }
    }

    // Makes a new and empty file, where the other writer may have kept a place.
    pub fn make(
        &mut self,
        alloc: Global,
        files: &mut Vec<File>,
        other: bool,
        name: &str,
    ) -> Result<(), AllocError>
        ensures names { OnOk result (names files.new.items ≡ names files.old.items ++ Some name.now ∷ []) }
        ensures contents { OnOk result (contents files.new.items ≡ contents files.old.items ++ [] ∷ []) }
        ensures rooms { OnOk result (rooms files.new.items ≡ rooms files.old.items ++ vec_capacity self.old.bytes ∷ []) }
        ensures file { OnOk result (self.new.file ≡ length files.old.items) }
        ensures place { OnOk result (self.new.place ≡ false) }
        ensures places { OnOk result (length files.new.items + kept other ≤ vec_capacity files.new) }
        ensures err { OnErr result (files.new.items ≡ files.old.items) }
        ensures err_places { vec_capacity files.old ≤ vec_capacity files.new }
        ensures err_file { OnErr result (self.new.file ≡ self.old.file) }
        ensures err_room { OnErr result (vec_capacity self.old.bytes ≤ vec_capacity self.new.bytes) }
        ensures err_name { OnErr result (vec_capacity self.old.name ≤ vec_capacity self.new.name) }
        ensures err_place { OnErr result (self.new.place ≡ self.old.place) }
        ensures succeeds { length files.old.items + kept other < vec_capacity files.old → length name.now ≤ vec_capacity self.old.name → IsOk result }
    {
        let wanted = if other { 2 } else { 1 };
        files.reserve(wanted)?;
        self.name.clear();
        self.name.extend_from_slice(name.as_bytes())?;
        self.bytes.clear();
        self.file = files.len();
        self.place = false;
        files.push_reserved(File {
            name: Some(mem::replace(&mut self.name, Vec::new(alloc))),
            bytes: mem::replace(&mut self.bytes, Vec::new(alloc)),
        });
        Ok(())
    }

    // Makes room for so many bytes, a name of so many, and a file more.
    pub fn widen(
        &mut self,
        files: &mut Vec<File>,
        other: bool,
        most: usize,
    ) -> Result<(), AllocError>
        ensures files { files.new.items ≡ files.old.items }
        ensures file { self.new.file ≡ self.old.file }
        ensures room { vec_capacity self.old.bytes ≤ vec_capacity self.new.bytes }
        ensures name_room { vec_capacity self.old.name ≤ vec_capacity self.new.name }
        ensures places { vec_capacity files.old ≤ vec_capacity files.new }
        ensures ok { OnOk result (most ≤ vec_capacity self.new.bytes) }
        ensures ok_name { OnOk result (most ≤ vec_capacity self.new.name) }
        ensures ok_place { OnOk result (self.new.place ≡ true) }
        ensures ok_places { OnOk result (length files.new.items + (1 + kept other) ≤ vec_capacity files.new) }
        ensures err_place { OnErr result (self.new.place ≡ self.old.place) }
    {
        let wanted = if other { 2 } else { 1 };
        files.reserve(wanted)?;
        self.bytes.reserve(most.saturating_sub(self.bytes.len()))?;
        self.name.reserve(most.saturating_sub(self.name.len()))?;
        self.place = true;
        Ok(())
    }
}
