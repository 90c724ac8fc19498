// What a new file may be used for.
use std::fs::{Metadata, OpenFile};
use std::io;
use std::os::unix::fs::MetadataExt;

// A file without an old one may be used for this, but for what the process forbids.
const NEW_MODE: u32 = 0o666;

// The bits of a mode that say what a file may be used for.
const MODE_BITS: u32 = 0o777;

// The mode that a new file is made with: that of the old one, where there is one.
pub fn new_mode(old: Option<&Metadata>) -> u32 {
    match old {
        Some(old) => old.mode() & MODE_BITS,
        None => NEW_MODE,
    }
}

// A new file may be used for what the old one might, whatever the process forbids.
pub fn permit<F: OpenFile>(file: &F, old: &Metadata) -> io::Result<()> {
    let wanted = old.permissions();
    if file.metadata()?.permissions() == wanted {
        return Ok(());
    }
    file.set_permissions(wanted)
}
