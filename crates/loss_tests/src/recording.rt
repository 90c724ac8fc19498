// Files of the system, with a record of what is done to them.
use std::alloc::{Allocator, Global};
use std::cell::RefCell;
use std::fs::{Metadata, OpenFile, OpenOptions, Permissions};
use std::io::{self, ErrorKind, Read, Seek, SeekFrom, Write};
use std::os::unix::fs::FileExt;
use std::path::PathBuf;
use std::rt::Files;

/// Something that was done. Files have numbers, in the order in which they were met.
#[derive(Drop)]
pub(crate) enum Event {
    /// These bytes were written to a file from a place on.
    Written {
        file: usize,
        place: u64,
        bytes: Vec<u8>,
    },
    /// A file got this length.
    Sized {
        file: usize,
        len: u64,
    },
    /// A name leads to this file from then on, or to none.
    Named {
        name: String,
        file: Option<usize>,
    },
    /// A file was synced, or the folder, which has no number.
    Synced {
        file: Option<usize>,
    },
    /// The machine said a line.
    Said,
}

/// All that was done, in order.
#[derive(Drop)]
pub(crate) struct Record {
    alloc: Global,
    pub(crate) events: Vec<Event>,
    files: usize,
}

/// The folder of all files, as it is opened.
const FOLDER: &str = ".";

impl Record {
    pub(crate) fn new(alloc: Global) -> Record {
        Record {
            alloc,
            events: Vec::new(alloc),
            files: 0,
        }
    }

    // The file that a name leads to now.
    fn file_of(&self, name: &str) -> Option<usize> {
        for event in self.events.iter().rev() {
            if let Event::Named { name: named, file } = event {
                if named.as_str() == name {
                    return *file;
                }
            }
        }
        None
    }

    fn name(&mut self, name: &str, file: Option<usize>) -> io::Result<()> {
        let name = String::from_str(self.alloc, name)?;
        self.events.push(Event::Named { name, file })?;
        Ok(())
    }

    // The file of a name that was opened. One that the name didn't lead to is new.
    fn open(&mut self, name: &str) -> io::Result<Option<usize>> {
        if name == FOLDER {
            return Ok(None);
        }
        let mut file = self.file_of(name);
        if file.is_none() {
            file = Some(self.files);
            self.files = self.files.saturating_add(1);
            self.name(name, file)?;
        }
        Ok(file)
    }

    fn rename(&mut self, from: &str, to: &str) -> io::Result<()> {
        let file = self.file_of(from);
        self.name(to, file)?;
        self.name(from, None)
    }

    fn write(&mut self, file: usize, place: u64, bytes: &[u8]) -> io::Result<()> {
        let bytes = bytes.to_vec(self.alloc)?;
        self.events.push(Event::Written { file, place, bytes })?;
        Ok(())
    }

    fn add(&mut self, event: Event) -> io::Result<()> {
        self.events.push(event)?;
        Ok(())
    }
}

fn busy() -> io::Error {
    io::Error::from(ErrorKind::ResourceBusy)
}

fn add(record: &RefCell<Record>, event: Event) -> io::Result<()> {
    match record.try_borrow_mut() {
        Ok(mut record) => record.add(event),
        Err(_) => Err(busy()),
    }
}

/// The files of a runtime, recorded. What would change them and isn't recorded is refused.
#[derive(Drop)]
pub(crate) struct Recorder<'a, R> {
    pub(crate) rt: R,
    pub(crate) record: &'a RefCell<Record>,
}

impl<R: Alloc> Alloc for Recorder<'_, R> {
    type A = R::A;

    fn alloc(&self) -> R::A {
        self.rt.alloc()
    }
}

impl<'a, R: Files> Files for Recorder<'a, R> {
    type File = Recorded<'a, R::File>;

    type Dir = R::Dir;

    fn open_file(&self, how: &OpenOptions, path: &str) -> io::Result<Recorded<'a, R::File>> {
        let file = self.rt.open_file(how, path)?;
        let opened = match self.record.try_borrow_mut() {
            Ok(mut record) => record.open(path)?,
            Err(_) => return Err(busy()),
        };
        let recorded = Recorded {
            file,
            record: self.record,
            number: opened,
            place: 0,
        };
        if how.asks_truncate() {
            recorded.cut(0)?;
        }
        Ok(recorded)
    }

    fn open_dir(&self, path: &str) -> io::Result<R::Dir> {
        self.rt.open_dir(path)
    }

    fn metadata(&self, path: &str) -> io::Result<Metadata> {
        self.rt.metadata(path)
    }

    fn symlink_metadata(&self, path: &str) -> io::Result<Metadata> {
        self.rt.symlink_metadata(path)
    }

    fn copy(&self, _from: &str, _to: &str) -> io::Result<u64> {
        Err(io::Error::from(ErrorKind::Unsupported))
    }

    fn rename(&self, from: &str, to: &str) -> io::Result<()> {
        self.rt.rename(from, to)?;
        match self.record.try_borrow_mut() {
            Ok(mut record) => record.rename(from, to),
            Err(_) => Err(busy()),
        }
    }

    fn remove_file(&self, path: &str) -> io::Result<()> {
        self.rt.remove_file(path)?;
        match self.record.try_borrow_mut() {
            Ok(mut record) => record.name(path, None),
            Err(_) => Err(busy()),
        }
    }

    fn create_dir(&self, _path: &str) -> io::Result<()> {
        Err(io::Error::from(ErrorKind::Unsupported))
    }

    fn remove_dir(&self, _path: &str) -> io::Result<()> {
        Err(io::Error::from(ErrorKind::Unsupported))
    }

    fn remove_dir_all<B: Allocator>(&self, _alloc: B, _path: &str) -> io::Result<()> {
        Err(io::Error::from(ErrorKind::Unsupported))
    }

    fn read_link<B: Allocator>(&self, alloc: B, path: &str) -> io::Result<PathBuf<B>> {
        self.rt.read_link(alloc, path)
    }
}

/// An open file, recorded. Its syncs are recorded alone: what a loss leaves is made from the record.
#[derive(Drop)]
pub(crate) struct Recorded<'a, F> {
    file: F,
    record: &'a RefCell<Record>,
    // None of the folder
    number: Option<usize>,
    // where the next write goes
    place: u64,
}

impl<F> Recorded<'_, F> {
    fn cut(&self, len: u64) -> io::Result<()> {
        match self.number {
            Some(file) => add(self.record, Event::Sized { file, len }),
            None => Ok(()),
        }
    }

    fn note(&self, place: u64, bytes: &[u8]) -> io::Result<()> {
        let Some(file) = self.number else {
            return Ok(());
        };
        match self.record.try_borrow_mut() {
            Ok(mut record) => record.write(file, place, bytes),
            Err(_) => Err(busy()),
        }
    }

    fn sync(&self) -> io::Result<()> {
        add(self.record, Event::Synced { file: self.number })
    }
}

impl<F: OpenFile> OpenFile for Recorded<'_, F> {
    fn metadata(&self) -> io::Result<Metadata> {
        self.file.metadata()
    }

    fn set_len(&self, size: u64) -> io::Result<()> {
        self.file.set_len(size)?;
        self.cut(size)
    }

    fn sync_all(&self) -> io::Result<()> {
        self.sync()
    }

    fn sync_data(&self) -> io::Result<()> {
        self.sync()
    }

    fn set_permissions(&self, perm: Permissions) -> io::Result<()> {
        self.file.set_permissions(perm)
    }
}

impl<F: Read> Read for Recorded<'_, F> {
    fn read(&mut self, buf: &mut [u8]) -> io::Result<usize> {
        let n = self.file.read(buf)?;
        self.place = self.place.saturating_add(n as u64);
        Ok(n)
    }
}

impl<F: Write> Write for Recorded<'_, F> {
    fn write(&mut self, buf: &[u8]) -> io::Result<usize> {
        let n = self.file.write(buf)?;
        self.note(self.place, &buf[..n])?;
        self.place = self.place.saturating_add(n as u64);
        Ok(n)
    }

    fn flush(&mut self) -> io::Result<()> {
        self.file.flush()
    }
}

impl<F: Seek> Seek for Recorded<'_, F> {
    fn seek(&mut self, to: SeekFrom) -> io::Result<u64> {
        let place = self.file.seek(to)?;
        self.place = place;
        Ok(place)
    }
}

impl<F: FileExt> FileExt for Recorded<'_, F> {
    fn read_at(&self, buf: &mut [u8], offset: u64) -> io::Result<usize> {
        self.file.read_at(buf, offset)
    }

    fn write_at(&self, buf: &[u8], offset: u64) -> io::Result<usize> {
        let n = self.file.write_at(buf, offset)?;
        self.note(offset, &buf[..n])?;
        Ok(n)
    }
}

/// Takes what the machine says, and records each line.
#[derive(Drop)]
pub(crate) struct Lines<'a> {
    pub(crate) record: &'a RefCell<Record>,
}

impl Write for Lines<'_> {
    fn write(&mut self, buf: &[u8]) -> io::Result<usize> {
        if buf.ends_with(b"\n") {
            add(self.record, Event::Said)?;
        }
        Ok(buf.len())
    }

    fn flush(&mut self) -> io::Result<()> {
        Ok(())
    }
}
