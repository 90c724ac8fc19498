// The file of a vault, and its opening.
ghost use Rattle.std.specs.Prelude.{◌≡◌, ◌≤◌, ◌<◌, false, IfOk, IsErr, length};
ghost use Rattle.long_names.specs.Counting.{counted};
ghost use Rattle.real_vault.specs.Real.{faults_counted};
ghost use Rattle.checkpoint.specs.Vault.{at_start};

use crate::gates::{FRONT, has_gates};
use checkpoint::Vault;
use loom_host::{Failed, Role};
use loom_outside::{Expected, Identity};
use std::fs::{File, OpenFile, OpenOptions};
use std::io::{self, ErrorKind};
use std::os::unix::fs::FileExt;
use std::path::Path;
use std::rt::Files;

// How often a read is made at most, while signals interrupt it.
const MOST_TRIES: u32 = 1_000;

/// A vault over a regular file. It tells nothing, and counts each failure, a call before any opening that answered Ok among them. Where an
/// opening or a sync failed, calls fail until an opening answers Ok. It keeps no bytes back: each call goes on to the file.
#[derive(Drop)]
pub struct RealVault<R: Files> {
    rt: R,
    file: Option<R::File>,
    // which files the roles of the run have
    expected: Expected,
    faults: u64,
}

impl<R: Files> RealVault<R> {
    /// A vault that was never opened, where nothing failed.
    pub fn new(rt: R) -> RealVault<R>
        ensures { faults_counted result ≡ 0 }
    {
        let expected = Expected::new(&rt);
        RealVault {
            rt,
            file: None,
            expected,
            faults: 0,
        }
    }

    /// Tells by which name a role of the run will be attached: from then on an opening fails where the vault's file is this one, by whatever
    /// name, and leaves it as it is. A name that no file has yet tells nothing.
    pub fn expect(&mut self, role: Role, name: &str)
        ensures { faults_counted self.new ≡ faults_counted self.old }
    {
        self.expected.expect(&self.rt, role, name);
    }

    // Counts a failure, and answers it.
    fn fail(&mut self) -> Result<(), Failed>
        ensures err { IsErr result }
        ensures faults { faults_counted self.new ≡ counted (faults_counted self.old) }
        ensures later { faults_counted self.old ≤ faults_counted self.new }
    {
        self.faults = self.faults.saturating_add(1);
        Err(Failed)
    }
}

impl<R: Files> Vault for RealVault<R>
where
    R::File: FileExt,
{
    ghost tells = { false };

    ghost state = { λ _. at_start };

    ghost faults = { faults_counted };

    fn open_named(&mut self, name: &str, fresh: bool) -> Result<(), Failed> {
        let opened = if fresh {
            open_fresh(&self.rt, &self.expected, name)
        } else {
            open(&self.rt, &self.expected, name)
        };
        match opened {
            Ok(file) => {
                self.file = Some(file);
                Ok(())
            }
            Err(_) => {
                self.file = None;
                self.fail()
            }
        }
    }

    fn read_at(&mut self, place: u64, buf: &mut [u8]) -> Result<(), Failed> {
        match &self.file {
            Some(file) if read_whole(file, place, buf).is_ok() => Ok(()),
            _ => self.fail(),
        }
    }

    fn write_at(&mut self, place: u64, buf: &[u8]) -> Result<(), Failed> {
        match &self.file {
            Some(file) if file.write_all_at(buf, place).is_ok() => Ok(()),
            _ => self.fail(),
        }
    }

    fn sync(&mut self) -> Result<(), Failed> {
        let synced = match &self.file {
            Some(file) => file.sync_data().is_ok(),
            None => false,
        };
        if synced {
            return Ok(());
        }
        // The system may have dropped what it couldn't write, and a later sync that answers Ok would say nothing of it.
        self.file = None;
        self.fail()
    }

    fn fault_count(&self) -> u64 {
        self.faults
    }
}

// The file of this name, which is there, to be read and written. Only a regular file keeps what a vault needs, and none that the run has.
fn open<R: Files>(rt: &R, expected: &Expected, name: &str) -> io::Result<R::File> {
    let file = OpenOptions::new().read(true).write(true).open(rt, name)?;
    let metadata = file.metadata()?;
    if !metadata.is_file() {
        return Err(io::Error::from(ErrorKind::InvalidInput));
    }
    if expected.has(Identity::of(&metadata)) {
        return Err(io::Error::from(ErrorKind::ResourceBusy));
    }
    Ok(file)
}

// Refuses a file that no vault can be: what stands in it stays.
fn expect_gates<F: FileExt>(file: &F) -> io::Result<()> {
    let mut front = [0; FRONT];
    read_whole(file, 0, &mut front)?;
    if has_gates(&front) {
        Ok(())
    } else {
        Err(io::Error::from(ErrorKind::InvalidData))
    }
}

// The same, made or cut. It is empty on the disk. One that is no vault is left as it is.
fn open_fresh<R: Files>(rt: &R, expected: &Expected, name: &str) -> io::Result<R::File>
where
    R::File: FileExt,
{
    let file = match open(rt, expected, name) {
        Ok(file) => {
            expect_gates(&file)?;
            file
        }
        Err(error) if error.kind() == ErrorKind::NotFound => create(rt, name)?,
        Err(error) => return Err(error),
    };
    file.set_len(0)?;
    file.sync_all()?;
    Ok(file)
}

// A new file, whose name is on the disk.
fn create<R: Files>(rt: &R, name: &str) -> io::Result<R::File> {
    let file = OpenOptions::new()
        .read(true)
        .write(true)
        .create_new(true)
        .open(rt, name)?;
    let folder = match Path::new(name).parent() {
        Some(folder) if !folder.as_str().is_empty() => File::open(rt, folder.as_str())?,
        _ => File::open(rt, ".")?,
    };
    folder.sync_all()?;
    Ok(file)
}

// Some bytes from a place on to the front of the buffer.
fn read_some<F: FileExt>(file: &F, place: u64, buf: &mut [u8]) -> io::Result<usize>
    ensures { IfOk result (λ n. n ≤ length buf.old) }
{
    for _ in 1..MOST_TRIES {
        match file.read_at(buf, place) {
            Ok(n) => return Ok(n),
            Err(error) if error.kind() == ErrorKind::Interrupted => {}
            Err(error) => return Err(error),
        }
    }
    file.read_at(buf, place)
}

// The whole piece from a place on, with zeros past the end.
fn read_whole<F: FileExt>(file: &F, place: u64, buf: &mut [u8]) -> io::Result<()> {
    let mut done = 0;
    while done < buf.len() {
        let Some(from) = place.checked_add(done as u64) else {
            return Err(io::Error::from(ErrorKind::InvalidInput));
        };
        let n = read_some(file, from, &mut buf[done..])?;
        if n == 0 {
            buf[done..].fill(0);
            return Ok(());
        }
        done += n;
    }
    Ok(())
}
