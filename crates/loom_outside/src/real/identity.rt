// Which file of the system a file is, by whatever name it was opened.
use std::fs::{Metadata, OpenFile};
use std::io;
use std::os::unix::fs::{FileTypeExt, MetadataExt};
use std::rt::Files;

/// Which file of the system a file is, by whatever name it was opened.
#[derive(Clone, Copy, PartialEq, Eq)]
pub struct Identity {
    device: u64,
    inode: u64,
}

impl Identity {
    /// Of an open file. None for what keeps no bytes, as a terminal, a pipe or the null device: roles may share it, and nothing is lost by
    /// that.
    pub fn of(metadata: &Metadata) -> Option<Identity> {
        let kind = metadata.file_type();
        if kind.is_file() || kind.is_block_device() {
            Some(Identity {
                device: metadata.dev(),
                inode: metadata.ino(),
            })
        } else {
            None
        }
    }

    /// Of the file that has this name now, where there is one.
    pub fn named<R: Files>(rt: &R, name: &str) -> Option<Identity> {
        match rt.metadata(name) {
            Ok(metadata) => Identity::of(&metadata),
            Err(_) => None,
        }
    }
}

// Whether it is this file that has the path, and no link.
pub fn is_at<R: Files>(rt: &R, path: &str, identity: Option<Identity>) -> bool {
    match rt.symlink_metadata(path) {
        Ok(metadata) => identity.is_some() && Identity::of(&metadata) == identity,
        Err(_) => false,
    }
}

// An open file.
#[derive(Drop)]
pub struct Opened<F> {
    pub file: F,
    pub identity: Option<Identity>,
}

impl<F: OpenFile + Drop> Opened<F> {
    pub fn new(file: F) -> io::Result<Opened<F>> {
        let identity = Identity::of(&file.metadata()?);
        Ok(Opened { file, identity })
    }

    // What was written is on the disk. What keeps no bytes has none.
    pub fn sync(&self) -> io::Result<()> {
        match self.identity {
            Some(_) => self.file.sync_all(),
            None => Ok(()),
        }
    }

    // A regular file is empty then. Nothing else can be cut.
    pub fn cut(&self) -> io::Result<()> {
        if self.file.metadata()?.is_file() {
            self.file.set_len(0)?;
        }
        Ok(())
    }
}

// Of a role's file, where one is attached.
pub fn identity_in<F>(opened: &Option<Opened<F>>) -> Option<Identity> {
    match opened {
        Some(opened) => opened.identity,
        None => None,
    }
}
