// The work file, of which nothing is kept: it is empty when it is attached.
use crate::real::identity::{Identity, Opened, is_at};
use crate::real::modes::{new_mode, permit};
use crate::real::paths::followed;
use std::fs::{Metadata, OpenFile, OpenOptions};
use std::io;
use std::os::unix::fs::{MetadataExt, OpenOptionsExt};
use std::path::{Path, PathBuf};
use std::rt::Files;

// A new file to be read and written, with the mode of the old one where there was one.
pub fn new_scratch<R: Files>(
    rt: &R,
    path: Path<'_>,
    old: Option<&Metadata>,
) -> io::Result<Opened<R::File>> {
    let file = OpenOptions::new()
        .read(true)
        .write(true)
        .create_new(true)
        .mode(new_mode(old))
        .open(rt, path.as_str())?;
    if let Some(old) = old {
        permit(&file, old)?;
    }
    Opened::new(file)
}

// The file of this name, which is this one, empty. It is removed and made anew where no other name leads to it and its folder allows that,
// since cutting a large one takes long. Else it is cut.
pub fn emptied<R: Files + Alloc>(
    rt: &R,
    name: &str,
    old: Opened<R::File>,
    metadata: &Metadata,
) -> io::Result<Opened<R::File>> {
    if metadata.nlink() == 1 {
        if let Some(path) = removed(rt, name, old.identity) {
            drop(old);
            return new_scratch(rt, path.as_path(), Some(metadata));
        }
    }
    old.cut()?;
    Ok(old)
}

// Removes the file of this name, where it is this one. Says by which path: a symbolic link is followed, and stays.
fn removed<R: Files + Alloc>(
    rt: &R,
    name: &str,
    identity: Option<Identity>,
) -> Option<PathBuf<R::A>> {
    let path = followed(rt, name).ok()?;
    if !is_at(rt, path.as_path().as_str(), identity) {
        return None;
    }
    rt.remove_file(path.as_path().as_str()).ok()?;
    Some(path)
}
