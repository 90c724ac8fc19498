// One call of the system each. A descriptor is the place of an open file in a list that only grows, behind the standard streams.
ghost use Rattle.std.specs.Prelude.{◌≡◌, ◌≤◌, ◌<◌, false, IfOk, length};
ghost use Rattle.system_files.specs.Untold.{anywhere, apart_everywhere, untold};

use file_system::{ERRORS, Found, Kind, Making, OUTPUT, Opened, Refusal, System, Way};
use std::alloc::Global;
use std::fs::{File, Metadata, OpenFile, OpenOptions, Permissions};
use std::io::{self, ErrorKind, Read, Write};
use std::os::unix::fs::{FileExt, MetadataExt, OpenOptionsExt, PermissionsExt};
use std::path::Path;
use std::rt::Files;

// How often a call is made at most, while signals interrupt it.
const MOST_TRIES: u32 = 1_000;

// The first descriptor that is given.
const FIRST: u32 = 3;

// The bits of a mode that say what a file may be used for.
const MODE_BITS: u32 = 0o777;

/// The files that this process reaches, and a writer each for standard output and standard error.
#[derive(Drop)]
pub struct SystemFiles<R: Files + Alloc, T: Write, N: Write> {
    rt: R,
    output: T,
    errors: N,
    files: Vec<Option<R::File>, R::A>,
}

fn refusal(error: &io::Error) -> Refusal {
    match error.kind() {
        ErrorKind::NotFound => Refusal::Missing,
        ErrorKind::PermissionDenied | ErrorKind::ReadOnlyFilesystem => Refusal::Forbidden,
        ErrorKind::Interrupted => Refusal::Interrupted,
        _ => Refusal::Failed,
    }
}

fn answer<X>(answered: io::Result<X>) -> Result<X, Refusal> {
    match answered {
        Ok(x) => Ok(x),
        Err(error) => Err(refusal(&error)),
    }
}

fn kind(metadata: &Metadata) -> Kind {
    if metadata.is_file() {
        Kind::Regular
    } else if metadata.is_dir() {
        Kind::Folder
    } else if metadata.is_symlink() {
        Kind::Link
    } else {
        Kind::Device
    }
}

fn found(metadata: &Metadata) -> Found {
    Found {
        file: (u128::from(metadata.dev()) << 64) | u128::from(metadata.ino()),
        kind: kind(metadata),
        alone: metadata.nlink() == 1,
        mode: metadata.mode() & MODE_BITS,
    }
}

fn options(way: Way, making: Making, mode: u32) -> OpenOptions {
    let mut options = OpenOptions::new();
    options
        .read(way == Way::Read || way == Way::Place)
        .write(way == Way::Stream || way == Way::Place)
        .append(way == Way::Append)
        .create(making == Making::May)
        .create_new(making == Making::New)
        .mode(mode);
    options
}

// The call, made again while a signal interrupts it.
fn write_some<W: Write>(sink: &mut W, buf: &[u8]) -> Result<usize, Refusal>
    ensures bound { IfOk result (λ n. n ≤ length buf.now) }
    ensures some { IfOk result (λ n. 0 < n) }
{
    for _ in 0..MOST_TRIES {
        match sink.write(buf) {
            Ok(0) => return Err(Refusal::Failed),
            Ok(n) => return Ok(n),
            Err(error) if error.kind() == ErrorKind::Interrupted => {}
            Err(error) => return Err(refusal(&error)),
        }
    }
    Err(Refusal::Interrupted)
}

// What a writer keeps back goes on.
fn flush<W: Write>(sink: &mut W) -> Result<(), Refusal> {
    for _ in 0..MOST_TRIES {
        match sink.flush() {
            Ok(()) => return Ok(()),
            Err(error) if error.kind() == ErrorKind::Interrupted => {}
            Err(error) => return Err(refusal(&error)),
        }
    }
    Err(Refusal::Interrupted)
}

fn write_through<W: Write>(sink: &mut W, buf: &[u8]) -> Result<usize, Refusal>
    ensures bound { IfOk result (λ n. n ≤ length buf.now) }
    ensures some { IfOk result (λ n. 0 < n) }
{
    let n = write_some(sink, buf)?;
    flush(sink)?;
    Ok(n)
}

impl<R: Files + Alloc, T: Write, N: Write> SystemFiles<R, T, N> {
    /// No file is open but the standard streams.
    pub fn new(rt: R, output: T, errors: N) -> SystemFiles<R, T, N> {
        let files = Vec::new(rt.alloc());
        SystemFiles {
            rt,
            output,
            errors,
            files,
        }
    }

    fn file(&self, descriptor: u32) -> Result<&R::File, Refusal> {
        match self.files.get(descriptor.wrapping_sub(FIRST) as usize) {
            Some(Some(file)) => Ok(file),
            _ => Err(Refusal::Failed),
        }
    }

    fn file_mut(&mut self, descriptor: u32) -> Option<&mut Option<R::File>> {
        self.files.get_mut(descriptor.wrapping_sub(FIRST) as usize)
    }

    // Room for one more descriptor, which it will be.
    fn next(&mut self) -> Result<u32, Refusal> {
        if self.files.reserve(1).is_err() {
            return Err(Refusal::Failed);
        }
        match u32::try_from(self.files.len()) {
            Ok(len) => len.checked_add(FIRST).ok_or(Refusal::Failed),
            Err(_) => Err(Refusal::Failed),
        }
    }

    fn keep(&mut self, file: R::File) -> Result<(), Refusal> {
        match self.files.push(Some(file)) {
            Ok(()) => Ok(()),
            Err(_) => Err(Refusal::Failed),
        }
    }
}

impl<R: Files + Alloc, T: Write, N: Write> System for SystemFiles<R, T, N>
where
    R::File: FileExt,
{
    ghost tells = { false };

    ghost entry = { anywhere };

    ghost moments = { λ _. untold };

    ghost beside = { apart_everywhere };

    fn open(&mut self, path: &str, way: Way, making: Making, mode: u32) -> Result<Opened, Refusal> {
        let descriptor = self.next()?;
        let file = answer(options(way, making, mode).open(&self.rt, path))?;
        let metadata = answer(file.metadata())?;
        self.keep(file)?;
        Ok(Opened {
            descriptor,
            found: found(&metadata),
        })
    }

    fn open_folder(&mut self, path: &str) -> Result<u32, Refusal> {
        let descriptor = self.next()?;
        let folder = match Path::new(path).parent() {
            Some(folder) if !folder.as_str().is_empty() => File::open(&self.rt, folder.as_str()),
            _ => File::open(&self.rt, "."),
        };
        self.keep(answer(folder)?)?;
        Ok(descriptor)
    }

    fn close(&mut self, descriptor: u32) {
        if let Some(place) = self.file_mut(descriptor) {
            *place = None;
        }
    }

    fn read(&mut self, descriptor: u32, buf: &mut [u8]) -> Result<usize, Refusal> {
        let Some(Some(file)) = self.file_mut(descriptor) else {
            return Err(Refusal::Failed);
        };
        for _ in 0..MOST_TRIES {
            match file.read(buf) {
                Ok(n) => return Ok(n),
                Err(error) if error.kind() == ErrorKind::Interrupted => {}
                Err(error) => return Err(refusal(&error)),
            }
        }
        Err(Refusal::Interrupted)
    }

    fn append(&mut self, descriptor: u32, buf: &[u8]) -> Result<usize, Refusal> {
        match descriptor {
            OUTPUT => write_through(&mut self.output, buf),
            ERRORS => write_through(&mut self.errors, buf),
            _ => match self.file_mut(descriptor) {
                Some(Some(file)) => write_some(file, buf),
                _ => Err(Refusal::Failed),
            },
        }
    }

    fn read_at(&mut self, descriptor: u32, place: u64, buf: &mut [u8]) -> Result<usize, Refusal> {
        let file = self.file(descriptor)?;
        for _ in 0..MOST_TRIES {
            match file.read_at(buf, place) {
                Ok(n) => return Ok(n),
                Err(error) if error.kind() == ErrorKind::Interrupted => {}
                Err(error) => return Err(refusal(&error)),
            }
        }
        Err(Refusal::Interrupted)
    }

    fn write_at(&mut self, descriptor: u32, place: u64, buf: &[u8]) -> Result<usize, Refusal> {
        let file = self.file(descriptor)?;
        for _ in 0..MOST_TRIES {
            match file.write_at(buf, place) {
                Ok(0) => return Err(Refusal::Failed),
                Ok(n) => return Ok(n),
                Err(error) if error.kind() == ErrorKind::Interrupted => {}
                Err(error) => return Err(refusal(&error)),
            }
        }
        Err(Refusal::Interrupted)
    }

    fn cut(&mut self, descriptor: u32) -> Result<(), Refusal> {
        answer(self.file(descriptor)?.set_len(0))
    }

    fn sync(&mut self, descriptor: u32) -> Result<(), Refusal> {
        answer(self.file(descriptor)?.sync_all())
    }

    fn permit(&mut self, descriptor: u32, mode: u32) -> Result<(), Refusal> {
        answer(
            self.file(descriptor)?
                .set_permissions(Permissions::from_mode(mode)),
        )
    }

    fn rename(&mut self, from: &str, to: &str) -> Result<(), Refusal> {
        answer(self.rt.rename(from, to))
    }

    fn remove(&mut self, path: &str) -> Result<(), Refusal> {
        answer(self.rt.remove_file(path))
    }

    fn look(&mut self, path: &str, follow: bool) -> Result<Found, Refusal> {
        let metadata = if follow {
            self.rt.metadata(path)
        } else {
            self.rt.symlink_metadata(path)
        };
        Ok(found(&answer(metadata)?))
    }

    fn read_link(&mut self, alloc: Global, path: &str) -> Result<String, Refusal> {
        Ok(answer(self.rt.read_link(alloc, path))?.into_string())
    }
}
