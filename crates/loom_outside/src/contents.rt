// What Work holds, under the name of its last attach.
ghost use Rattle.std.specs.Prelude.{◌≡◌, ◌+◌, ◌≤◌, [], length, OnOk, OnErr, IsOk, vec_capacity};
ghost use Rattle.loom_host.specs.Bytes.{window, overwritten};

use loom_host::{read_bytes_at, write_bytes_at};
use std::alloc::{AllocError, Global};

#[derive(Drop)]
pub struct Contents {
    pub name: Vec<u8>,
    pub bytes: Vec<u8>,
}

impl Contents {
    pub fn new(alloc: Global) -> Contents
        ensures { result.bytes.items ≡ [] }
    {
        Contents {
            name: Vec::new(alloc),
            bytes: Vec::new(alloc),
        }
    }

    // Takes the name. What was held before is gone.
    pub fn open(&mut self, name: &str) -> Result<(), AllocError>
        ensures name { OnOk result (self.new.name.items ≡ name.now) }
        ensures bytes { OnOk result (self.new.bytes.items ≡ []) }
        ensures err { OnErr result (self.new.bytes.items ≡ self.old.bytes.items) }
        ensures room { vec_capacity self.old.bytes ≤ vec_capacity self.new.bytes }
        ensures name_room { vec_capacity self.old.name ≤ vec_capacity self.new.name }
        ensures succeeds { length name.now ≤ vec_capacity self.old.name → IsOk result }
    {
        self.name.clear();
        self.name.extend_from_slice(name.as_bytes())?;
        self.bytes.clear();
        Ok(())
    }

    // Makes room for so many bytes, and for a name of so many.
    pub fn widen(&mut self, most: usize) -> Result<(), AllocError>
        ensures ok { OnOk result (most ≤ vec_capacity self.new.bytes) }
        ensures ok_name { OnOk result (most ≤ vec_capacity self.new.name) }
        ensures bytes { self.new.bytes.items ≡ self.old.bytes.items }
        ensures name { self.new.name.items ≡ self.old.name.items }
        ensures room { vec_capacity self.old.bytes ≤ vec_capacity self.new.bytes }
        ensures name_room { vec_capacity self.old.name ≤ vec_capacity self.new.name }
    {
        self.bytes.reserve(most.saturating_sub(self.bytes.len()))?;
        self.name.reserve(most.saturating_sub(self.name.len()))
    }

    // What stands from a place on, and zeros past the end.
    pub fn read_at(&self, place: u64, buf: &mut [u8])
        ensures { buf.new ≡ window self.now.bytes.items place (length buf.old) }
    {
        read_bytes_at(&self.bytes, place, buf);
    }

    // Writes over what stands there, and past the end.
    pub fn write_at(&mut self, place: u64, piece: &[u8]) -> Result<(), AllocError>
        ensures ok { OnOk result (self.new.bytes.items ≡ overwritten self.old.bytes.items place piece.now) }
        ensures err { OnErr result (self.new.bytes.items ≡ self.old.bytes.items) }
        ensures name { self.new.name ≡ self.old.name }
        ensures room { vec_capacity self.old.bytes ≤ vec_capacity self.new.bytes }
        ensures succeeds { place + length piece.now ≤ vec_capacity self.old.bytes → IsOk result }
    {
        write_bytes_at(&mut self.bytes, place, piece)
    }
}
