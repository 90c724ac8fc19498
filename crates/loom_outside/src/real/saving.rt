// The file of Saved while it is written. It is written beside the file that it is to be, and takes that file's name once it
// is whole and on the disk: until then the file of that name is as before, and where anything fails it stays so.
use crate::real::identity::{Identity, Opened, is_at};
use crate::real::modes::{new_mode, permit};
use crate::real::paths::{followed, open_folder};
use std::fs::{Metadata, OpenFile, OpenOptions};
use std::io::{self, ErrorKind};
use std::os::unix::fs::OpenOptionsExt;
use std::path::PathBuf;
use std::rt::Files;

// What the name of a file ends with while it is written.
const PART: &str = ".part";

// The path that a file is written under, and the path that it is to have.
#[derive(Drop)]
pub struct Names<R: Files + Alloc> {
    part: String<R::A>,
    path: PathBuf<R::A>,
}

impl<R: Files + Alloc> Names<R> {
    // For a file of this name. A symbolic link is followed first.
    pub fn new(rt: &R, name: &str) -> io::Result<Names<R>> {
        let path = followed(rt, name)?;
        if path.as_path().file_name().is_none() {
            return Err(io::Error::from(ErrorKind::InvalidInput));
        }
        let mut part = String::from_str(rt.alloc(), path.as_path().as_str())?;
        part.push_str(PART)?;
        Ok(Names { part, path })
    }

    pub fn part(&self) -> &str {
        self.part.as_str()
    }

    // Whether the path is that of this file.
    pub fn leads_to(&self, rt: &R, identity: Option<Identity>) -> bool {
        is_at(rt, self.path.as_path().as_str(), identity)
    }

    // A new file to be written, with the mode of the old one where there is one.
    pub fn create(&self, rt: &R, old: Option<&Metadata>) -> io::Result<R::File> {
        OpenOptions::new()
            .write(true)
            .create_new(true)
            .mode(new_mode(old))
            .open(rt, self.part())
    }

    // The file that was written takes its name, and the folder is on the disk too.
    fn take(&self, rt: &R, opened: Opened<R::File>) -> io::Result<()> {
        opened.sync()?;
        if !is_at(rt, self.part(), opened.identity) {
            return Err(io::Error::from(ErrorKind::ResourceBusy));
        }
        drop(opened);
        let folder = open_folder(rt, self.path.as_path())?;
        rt.rename(self.part(), self.path.as_path().as_str())?;
        folder.sync_all()
    }

    // Removes what was written, unless another run has put its own there. Nothing more can be done where that fails.
    fn remove(&self, rt: &R, identity: Option<Identity>) {
        if is_at(rt, self.part(), identity) {
            let _ = rt.remove_file(self.part());
        }
    }
}

#[derive(Drop)]
pub struct Saving<R: Files + Alloc> {
    pub opened: Opened<R::File>,
    // None of a file that is written in its place
    names: Option<Names<R>>,
}

impl<R: Files + Alloc> Saving<R> {
    // The file itself is written.
    pub fn in_place(opened: Opened<R::File>) -> Saving<R> {
        Saving {
            opened,
            names: None,
        }
    }

    // The file is written beside the one that it is to be.
    pub fn beside(
        rt: &R,
        names: Names<R>,
        file: R::File,
        old: Option<Metadata>,
    ) -> io::Result<Saving<R>> {
        let saving = Saving {
            opened: Opened::new(file)?,
            names: Some(names),
        };
        if let Some(old) = old {
            if let Err(error) = permit(&saving.opened.file, &old) {
                saving.discard(rt);
                return Err(error);
            }
        }
        Ok(saving)
    }

    // Whether this is the file that is written, or the one that has the name of Saved now.
    pub fn has(&self, rt: &R, identity: Option<Identity>) -> bool {
        match &self.names {
            Some(names) if names.leads_to(rt, identity) => true,
            _ => self.opened.identity == identity,
        }
    }

    // What was written is on the disk, under the name of Saved. Says which file that is.
    pub fn finish(self, rt: &R) -> io::Result<Option<Identity>> {
        let Saving { opened, names } = self;
        let identity = opened.identity;
        let Some(names) = names else {
            opened.sync()?;
            return Ok(identity);
        };
        if let Err(error) = names.take(rt, opened) {
            names.remove(rt, identity);
            return Err(error);
        }
        Ok(identity)
    }

    // Gives up. A file that was written beside another is removed.
    pub fn discard(self, rt: &R) {
        let Saving { opened, names } = self;
        if let Some(names) = names {
            names.remove(rt, opened.identity);
        }
    }
}
