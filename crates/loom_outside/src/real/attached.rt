// The files of the roles. Before a file is cut or replaced it is compared with the files of the other roles, by what the
// system calls them, so that no other name of a file hides that two roles have it. Work is cut before others are attached, so it is also
// compared with the files that they are expected to have, and what it begins with is looked at.
ghost use Rattle.std.specs.Prelude.{◌≡◌, ◌<◌, ◌≤◌, IfSome, length};
ghost use Rattle.loom_host.specs.Outside.{CanAttach, CanRead, CanWrite};

use crate::real::expected::Expected;
use crate::real::identity::{Identity, Opened, identity_in};
use crate::real::paths::{followed, open_folder};
use crate::real::saving::{Names, Saving};
use crate::real::scratch::{emptied, new_scratch};
use crate::real::transfer::{read_some, read_whole, write_some, write_through, write_whole};
use crate::{Precious, Role};
use std::alloc::AllocError;
use std::fs::{File, OpenFile, OpenOptions};
use std::io::{self, ErrorKind, Write};
use std::os::unix::fs::FileExt;
use std::rt::Files;

// The roles that are read alone, and those that are written.
const READ: [Role; 2] = [Role::Image, Role::Events];

const WRITTEN: [Role; 5] = [
    Role::Work,
    Role::Saved,
    Role::Display,
    Role::Transcript,
    Role::Notes,
];

#[derive(Drop)]
pub struct Attached<R: Files + Alloc, T: Write, N: Write> {
    rt: R,
    image: Option<Opened<R::File>>,
    events: Option<Opened<R::File>>,
    work: Option<Opened<R::File>>,
    // Saved while it is written, and which file it became
    saving: Option<Saving<R>>,
    saved: Option<Identity>,
    display: Option<Opened<R::File>>,
    transcript: T,
    notes: N,
    // which files the standard streams are, and which will be attached behind Work
    expected: Expected,
    // whether Saved may replace neither Image nor Events
    keeps_inputs: bool,
    // the name of a file that no role may cut or replace
    protected: Option<String<R::A>>,
}

fn same_file() -> io::Error {
    io::Error::from(ErrorKind::ResourceBusy)
}

// Whether no file can be made in the folder.
fn is_forbidden(error: &io::Error) -> bool {
    matches!(
        error.kind(),
        ErrorKind::PermissionDenied | ErrorKind::ReadOnlyFilesystem
    )
}

// What opens a file, and what attaches it.
impl<R: Files + Alloc, T: Write, N: Write> Attached<R, T, N>
where
    R::File: FileExt,
{
    pub fn new(rt: R, transcript: T, notes: N) -> Attached<R, T, N> {
        let expected = Expected::new(&rt);
        Attached {
            rt,
            image: None,
            events: None,
            work: None,
            saving: None,
            saved: None,
            display: None,
            transcript,
            notes,
            expected,
            keeps_inputs: false,
            protected: None,
        }
    }

    // A role will be attached by this name.
    pub fn expect(&mut self, role: Role, name: &str) {
        match role {
            Role::Image | Role::Events | Role::Saved | Role::Display => {
                self.expected.expect(&self.rt, role, name);
            }
            Role::Work | Role::Transcript | Role::Notes => {}
        }
    }

    // Saved may replace neither Image nor Events.
    pub fn keep_inputs(&mut self) {
        self.keeps_inputs = true;
    }

    // No role may cut or replace the file that has this name.
    pub fn protect(&mut self, name: &str) -> Result<(), AllocError> {
        self.protected = Some(String::from_str(self.rt.alloc(), name)?);
        Ok(())
    }

    pub fn attach(&mut self, role: Role, name: &str) -> io::Result<()>
        requires { CanAttach role }
    {
        match role {
            Role::Image => self.image = Some(Opened::new(File::open(&self.rt, name)?)?),
            Role::Events => self.events = Some(Opened::new(File::open(&self.rt, name)?)?),
            Role::Work => self.work = Some(self.open_work(name)?),
            Role::Saved => self.attach_saved(name)?,
            Role::Display => self.display = Some(self.open_display(name)?),
            Role::Transcript | Role::Notes => unreachable!(),
        }
        Ok(())
    }

    // One that was attached before and not ended is given up first.
    fn attach_saved(&mut self, name: &str) -> io::Result<()> {
        if let Some(saving) = self.saving.take() {
            saving.discard(&self.rt);
        }
        self.saving = Some(self.open_saved(name)?);
        Ok(())
    }

    fn identity(&self, role: Role) -> Option<Identity> {
        match role {
            Role::Image => identity_in(&self.image),
            Role::Events => identity_in(&self.events),
            Role::Work => identity_in(&self.work),
            Role::Saved => self.saved,
            Role::Display => identity_in(&self.display),
            Role::Transcript | Role::Notes => self.expected.of(role),
        }
    }

    // Whether this role has this file. While Saved isn't ended, it has the file that is written and the one that has its name.
    fn has(&self, role: Role, identity: Option<Identity>) -> bool {
        match &self.saving {
            Some(saving) if role == Role::Saved && saving.has(&self.rt, identity) => true,
            _ => self.identity(role) == identity,
        }
    }

    // Whether one of these roles has this file, other than this role itself.
    fn is_taken(&self, role: Role, identity: Option<Identity>, others: &[Role]) -> bool {
        for other in others {
            if *other != role && identity.is_some() && self.has(*other, identity) {
                return true;
            }
        }
        false
    }

    // Whether it is the file that no role may cut or replace, by the name that it has now.
    fn is_protected(&self, identity: Option<Identity>) -> bool {
        match &self.protected {
            Some(name) => {
                identity.is_some() && Identity::named(&self.rt, name.as_str()) == identity
            }
            None => false,
        }
    }

    // Fails where another role has this file, or none may.
    fn claim(&self, role: Role, identity: Option<Identity>) -> io::Result<()> {
        if self.is_taken(role, identity, &READ) {
            return Err(same_file());
        }
        self.claim_written(role, identity)
    }

    // The same, but the file may be one that is only read.
    fn claim_written(&self, role: Role, identity: Option<Identity>) -> io::Result<()> {
        if self.is_taken(role, identity, &WRITTEN) || self.is_protected(identity) {
            return Err(same_file());
        }
        Ok(())
    }

    fn open_work(&self, name: &str) -> io::Result<Opened<R::File>> {
        match OpenOptions::new()
            .read(true)
            .write(true)
            .open(&self.rt, name)
        {
            Ok(old) => self.work_over(name, Opened::new(old)?),
            Err(error) if error.kind() == ErrorKind::NotFound => {
                let path = followed(&self.rt, name)?;
                new_scratch(&self.rt, path.as_path(), None)
            }
            Err(error) => Err(error),
        }
    }

    // In the place of a file that is there, if that is a regular one, no other role has or will have it, and it begins with nothing that
    // people keep.
    fn work_over(&self, name: &str, old: Opened<R::File>) -> io::Result<Opened<R::File>> {
        self.claim(Role::Work, old.identity)?;
        if self.expected.has(old.identity) {
            return Err(same_file());
        }
        let metadata = old.file.metadata()?;
        if !metadata.is_file() || Precious::in_file(&old.file)?.is_some() {
            return Err(io::Error::from(ErrorKind::InvalidInput));
        }
        emptied(&self.rt, name, old, &metadata)
    }

    fn open_display(&self, name: &str) -> io::Result<Opened<R::File>> {
        let file = match OpenOptions::new().write(true).open(&self.rt, name) {
            Ok(file) => file,
            Err(error) if error.kind() == ErrorKind::NotFound => self.create(name)?,
            Err(error) => return Err(error),
        };
        let opened = Opened::new(file)?;
        self.claim(Role::Display, opened.identity)?;
        opened.cut()?;
        opened.sync()?;
        Ok(opened)
    }

    // A new file, whose name is on the disk.
    fn create(&self, name: &str) -> io::Result<R::File> {
        let path = followed(&self.rt, name)?;
        let file = File::create_new(&self.rt, path.as_path())?;
        open_folder(&self.rt, path.as_path())?.sync_all()?;
        Ok(file)
    }

    fn open_saved(&self, name: &str) -> io::Result<Saving<R>> {
        match OpenOptions::new().write(true).open(&self.rt, name) {
            Ok(old) => self.save_over(name, Opened::new(old)?),
            Err(error) if error.kind() == ErrorKind::NotFound => {
                let names = Names::new(&self.rt, name)?;
                self.clear(names.part())?;
                let file = names.create(&self.rt, None)?;
                Saving::beside(&self.rt, names, file, None)
            }
            Err(error) => Err(error),
        }
    }

    // Over a file that is there: beside it where a new one can take its name, and else in its place.
    fn save_over(&self, name: &str, old: Opened<R::File>) -> io::Result<Saving<R>> {
        if self.keeps_inputs {
            self.claim(Role::Saved, old.identity)?;
        } else {
            self.claim_written(Role::Saved, old.identity)?;
        }
        let metadata = old.file.metadata()?;
        if metadata.is_file() {
            let names = Names::new(&self.rt, name)?;
            if names.leads_to(&self.rt, old.identity) {
                self.clear(names.part())?;
                match names.create(&self.rt, Some(&metadata)) {
                    Ok(file) => return Saving::beside(&self.rt, names, file, Some(metadata)),
                    Err(error) if is_forbidden(&error) => {}
                    Err(error) => return Err(error),
                }
            }
        }
        self.claim(Role::Saved, old.identity)?;
        old.cut()?;
        Ok(Saving::in_place(old))
    }

    // Removes what a run that was cut off left beside Saved. Whatever else stands there is left, and the attach fails.
    fn clear(&self, part: &str) -> io::Result<()> {
        let metadata = match self.rt.symlink_metadata(part) {
            Ok(metadata) => metadata,
            Err(error) if error.kind() == ErrorKind::NotFound => return Ok(()),
            Err(error) => return Err(error),
        };
        if !metadata.is_file() {
            return Err(io::Error::from(ErrorKind::AlreadyExists));
        }
        self.claim(Role::Saved, Identity::of(&metadata))?;
        self.rt.remove_file(part)
    }
}

// What moves bytes. None is a failure.
impl<R: Files + Alloc, T: Write, N: Write> Attached<R, T, N> {
    pub fn read(&mut self, role: Role, buf: &mut [u8]) -> Option<usize>
        requires { CanRead role }
        ensures { IfSome result (λ n. n ≤ length buf.old) }
    {
        let opened = match role {
            Role::Image => &mut self.image,
            _ => &mut self.events,
        };
        match opened {
            Some(opened) => read_some(&mut opened.file, buf),
            None => None,
        }
    }

    pub fn write(&mut self, role: Role, buf: &[u8]) -> Option<usize>
        requires { CanWrite role }
        ensures bound { IfSome result (λ n. n ≤ length buf.now) }
        ensures some { 0 < length buf.now → IfSome result (λ n. 0 < n) }
    {
        match role {
            Role::Saved => self.write_saved(buf),
            Role::Display => self.write_display(buf),
            Role::Transcript => write_through(&mut self.transcript, buf),
            _ => write_through(&mut self.notes, buf),
        }
    }

    // Where it fails, Saved is given up, and the file of its name stays as it was. A piece of no bytes ends it: then what was written is on
    // the disk, and has its name.
    fn write_saved(&mut self, buf: &[u8]) -> Option<usize>
        ensures bound { IfSome result (λ n. n ≤ length buf.now) }
        ensures some { 0 < length buf.now → IfSome result (λ n. 0 < n) }
    {
        let mut saving = self.saving.take()?;
        if buf.is_empty() {
            self.saved = saving.finish(&self.rt).ok()?;
            return Some(0);
        }
        let moved = write_some(&mut saving.opened.file, buf);
        match moved {
            Some(_) => self.saving = Some(saving),
            None => saving.discard(&self.rt),
        }
        moved
    }

    // No role is attached after Display, so its bytes are on the disk when the call is done.
    fn write_display(&mut self, buf: &[u8]) -> Option<usize>
        ensures bound { IfSome result (λ n. n ≤ length buf.now) }
        ensures some { 0 < length buf.now → IfSome result (λ n. 0 < n) }
    {
        match &mut self.display {
            Some(opened) => {
                let moved = write_some(&mut opened.file, buf);
                if opened.sync().is_ok() { moved } else { None }
            }
            None => None,
        }
    }
}

// What moves bytes of Work. False is a failure.
impl<R: Files + Alloc, T: Write, N: Write> Attached<R, T, N>
where
    R::File: FileExt,
{
    pub fn read_at(&self, place: u64, buf: &mut [u8]) -> bool {
        match &self.work {
            Some(opened) => read_whole(&opened.file, place, buf),
            None => false,
        }
    }

    pub fn write_at(&self, place: u64, buf: &[u8]) -> bool {
        match &self.work {
            Some(opened) => write_whole(&opened.file, place, buf),
            None => false,
        }
    }
}
