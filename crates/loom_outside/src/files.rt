// Files that are there for good: each has a place of its own, and the last of a name is the one found.
ghost use Rattle.std.specs.Prelude.{◌≡◌, ◌+◌, ◌<◌, ◌≤◌, ◌++◌, ◌∷◌, ℕ, [], None, Some, OnOk, OnErr, IfSome, IsOk, List, length, slice_set, slice_index_or, slice_index, vec_capacity, vec_len};
ghost use Rattle.loom_outside.specs.Files.{name_of, names, contents, rooms, bytes_at, is_named, newest, kept};

use std::alloc::{AllocError, Global};

// A file, by its name. One with no name isn't found.
#[derive(Drop)]
pub struct File {
    pub name: Option<Vec<u8>>,
    pub bytes: Vec<u8>,
}

impl File {
    pub fn nameless(alloc: Global) -> File
        ensures name { name_of result ≡ None }
        ensures bytes { result.bytes.items ≡ [] }
    {
        File {
            name: None,
            bytes: Vec::new(alloc),
        }
    }

    fn is_named(&self, name: &[u8]) -> bool
        ensures { result ≡ is_named (name_of self.now) name.now }
    {
        match &self.name {
            Some(own) => own.as_slice() == name,
            None => false,
        }
    }
}

// The place of the last file of this name.
pub fn find(files: &[File], name: &[u8]) -> Option<usize>
    ensures newest { result ≡ newest (names files.now) name.now }
    ensures bound { IfSome result (λ place. place < length files.now) }
{
    let mut found = None;
    for (place, file) in files.iter().enumerate() {
        if file.is_named(name) {
            found = Some(place);
        }
    }
    found
}

// Puts these bytes behind those of the file at a place.
pub fn put(files: &mut Vec<File>, place: usize, bytes: &[u8]) -> Result<(), AllocError>
    requires { place < length files.old.items }
    ensures names { names files.new.items ≡ names files.old.items }
    ensures ok { OnOk result (contents files.new.items ≡ slice_set (contents files.old.items) place (bytes_at (contents files.old.items) place ++ bytes.now)) }
    ensures err { OnErr result (contents files.new.items ≡ contents files.old.items) }
    ensures rooms { (k : ℕ) → slice_index (rooms files.old.items) k ≤ slice_index (rooms files.new.items) k }
    ensures places { (length files.new.items ≡ length files.old.items) × (vec_capacity files.new ≡ vec_capacity files.old) }
    ensures succeeds { length (bytes_at (contents files.old.items) place) + length bytes.now ≤ slice_index (rooms files.old.items) place → IsOk result }
{
    files[place].bytes.extend_from_slice(bytes)
}

// Makes room for so many bytes in all in the file at a place.
pub fn widen(files: &mut Vec<File>, place: usize, most: usize) -> Result<(), AllocError>
    requires { place < length files.old.items }
    ensures names { names files.new.items ≡ names files.old.items }
    ensures contents { contents files.new.items ≡ contents files.old.items }
    ensures rooms { (k : ℕ) → slice_index (rooms files.old.items) k ≤ slice_index (rooms files.new.items) k }
    ensures ok { OnOk result (most ≤ slice_index (rooms files.new.items) place) }
    ensures places { (length files.new.items ≡ length files.old.items) × (vec_capacity files.new ≡ vec_capacity files.old) }
{
    let bytes = &mut files[place].bytes;
    bytes.reserve(most.saturating_sub(bytes.len()))
}

// Puts a file last, where two writers may have kept places.
pub fn add(
    alloc: Global,
    files: &mut Vec<File>,
    first: bool,
    second: bool,
    name: &[u8],
    bytes: &[u8],
) -> Result<(), AllocError>
    ensures names { OnOk result (names files.new.items ≡ names files.old.items ++ Some name.now ∷ []) }
    ensures contents { OnOk result (contents files.new.items ≡ contents files.old.items ++ bytes.now ∷ []) }
    ensures rooms { OnOk result ((k : ℕ) → slice_index (rooms files.old.items) k ≤ slice_index (rooms files.new.items) k) }
    ensures places { OnOk result (length files.new.items + (kept first + kept second) ≤ vec_capacity files.new) }
    ensures err { OnErr result (files.new.items ≡ files.old.items) }
    ensures more { vec_capacity files.old ≤ vec_capacity files.new }
{
    let file = File {
        name: Some(Vec::from_slice(alloc, name)?),
        bytes: Vec::from_slice(alloc, bytes)?,
    };
    let wanted = if first { 2 } else { 1 };
    let wanted = if second { wanted + 1 } else { wanted };
    files.reserve(wanted)?;
    files.push_reserved(file);
    Ok(())
}
