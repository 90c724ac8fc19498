// Files and streams: what is copied in and out, what an image states first, and whether a file can be written.
ghost use Rattle.std.specs.Prelude.{IfErr};
ghost use Rattle.st80_files.specs.Codes.{IsToldBy, IsToldByOneOf};
ghost use Rattle.st80_files.specs.declared.codes.Code.TheVariants as code;

use crate::codes::Code;
use crate::failure::{Failure, failed, file_failed};
use std::alloc::AllocError;
use std::fs::{self, File, Metadata, OpenFile, OpenOptions};
use std::io::{self, ErrorKind, Input, Read, Write};
use std::os::unix::fs::FileTypeExt;
use std::path::Path;
use std::rt::Files;

/// The word for a standard stream.
pub const STREAM: &str = "-";

/// What an image states first, as far as it can be read: how many objects it has, and how many bytes its file.
#[derive(Clone, Copy, Debug, PartialEq, Eq)]
pub struct Stated {
    pub objects: u32,
    pub bytes: u64,
}

// Copies what a reader gives into a new file.
fn copy_from<S: Read>(
    rt: HostRuntime,
    source: &mut S,
    name: &str,
    path: &str,
) -> Result<(), Failure>
    ensures { IfErr result (IsToldBy code.NoTemporary) }
{
    let alloc = rt.alloc();
    let mut file = match File::create_new(&rt, path) {
        Ok(file) => file,
        Err(error) => return Err(file_failed(alloc, Code::NoTemporary, path, "made", &error)),
    };
    match io::copy(source, &mut file) {
        Ok(_) => Ok(()),
        Err(error) => Err(file_failed(
            alloc,
            Code::NoTemporary,
            name,
            "copied to the temporary folder",
            &error,
        )),
    }
}

/// Copies standard input into a new file.
pub fn copy_in(rt: HostRuntime, path: &str) -> Result<(), Failure>
    ensures { IfErr result (IsToldBy code.NoTemporary) }
{
    copy_from(rt, &mut rt.reader(), "standard input", path)
}

/// Whether a file is a pipe, which can be read only once.
pub fn is_pipe(rt: HostRuntime, path: &str) -> bool {
    match rt.metadata(path) {
        Ok(metadata) => metadata.file_type().is_fifo(),
        Err(_) => false,
    }
}

/// Copies a pipe into a new file.
pub fn copy_pipe(rt: HostRuntime, pipe: &str, path: &str) -> Result<(), Failure>
    ensures { IfErr result (IsToldByOneOf code.CantRead code.NoTemporary) }
{
    match File::open(&rt, pipe) {
        Ok(mut file) => copy_from(rt, &mut file, pipe, path),
        Err(error) => Err(file_failed(rt.alloc(), Code::CantRead, pipe, "read", &error)),
    }
}

/// Copies a file to standard output.
pub fn copy_out(rt: HostRuntime, path: &str) -> Result<(), Failure>
    ensures { IfErr result (IsToldByOneOf code.CantRead code.WriteFault) }
{
    let alloc = rt.alloc();
    let mut file = match File::open(&rt, path) {
        Ok(file) => file,
        Err(error) => return Err(file_failed(alloc, Code::CantRead, path, "read", &error)),
    };
    let mut output = rt.stdout();
    match io::copy(&mut file, &mut output) {
        Ok(_) => Ok(()),
        Err(error) => Err(file_failed(
            alloc,
            Code::WriteFault,
            "standard output",
            "written",
            &error,
        )),
    }
}

/// All bytes of a file.
pub fn bytes_of(rt: HostRuntime, path: &str) -> Result<Vec<u8>, Failure>
    ensures { IfErr result (IsToldBy code.CantRead) }
{
    match fs::read(&rt, path) {
        Ok(bytes) => Ok(bytes),
        Err(error) => Err(file_failed(rt.alloc(), Code::CantRead, path, "read", &error)),
    }
}

/// All bytes of a file, or of standard input where the word is `-`.
pub fn bytes_or_input(rt: HostRuntime, word: &str) -> Result<Vec<u8>, Failure>
    ensures { IfErr result (IsToldBy code.CantRead) }
{
    if word != STREAM {
        return bytes_of(rt, word);
    }
    let mut bytes = Vec::new(rt.alloc());
    match rt.reader().read_to_end(&mut bytes) {
        Ok(_) => Ok(bytes),
        Err(error) => Err(file_failed(
            rt.alloc(),
            Code::CantRead,
            "standard input",
            "read",
            &error,
        )),
    }
}

/// Writes a file, or standard output where the word is `-`.
pub fn put_bytes(rt: HostRuntime, word: &str, bytes: &[u8]) -> Result<(), Failure>
    ensures { IfErr result (IsToldBy code.WriteFault) }
{
    let written = if word == STREAM {
        rt.stdout().write_all(bytes)
    } else {
        fs::write(&rt, word, bytes)
    };
    match written {
        Ok(()) => Ok(()),
        Err(error) => Err(file_failed(rt.alloc(), Code::WriteFault, word, "written", &error)),
    }
}

/// What the first bytes of an image state; nothing where they can't be read, or are no image's.
pub fn stated_of(rt: HostRuntime, path: &str) -> Stated {
    let mut head = [0; 16];
    let Ok(mut file) = File::open(&rt, path) else {
        return Stated {
            objects: 0,
            bytes: 0,
        };
    };
    let bytes = match file.metadata() {
        Ok(metadata) => metadata.len(),
        Err(_) => 0,
    };
    if file.read_exact(&mut head).is_err() || !head.starts_with(b"LOOM") {
        return Stated { objects: 0, bytes };
    }
    let objects = u32::from_be_bytes([head[8], head[9], head[10], head[11]]);
    Stated { objects, bytes }
}

/// The folder that a file of this path lies in.
pub fn folder_of(path: &str) -> &str {
    match Path::new(path).parent() {
        Some(folder) if !folder.as_str().is_empty() => folder.as_str(),
        _ => ".",
    }
}

// Whether a new file can be made beside this path: one is made and removed.
fn try_beside(rt: HostRuntime, path: &str) -> io::Result<()> {
    let tried = format!(in rt.alloc(); "{path}.try")?;
    match File::create_new(&rt, tried.as_str()) {
        Ok(file) => {
            drop(file);
            rt.remove_file(tried.as_str())
        }
        Err(error) if error.kind() == ErrorKind::AlreadyExists => Ok(()),
        Err(error) => Err(error),
    }
}

// Whether a file of this path, which isn't there, can be made.
fn try_new(rt: HostRuntime, path: &str) -> Result<(), Failure>
    ensures { IfErr result (IsToldBy code.CantWrite) }
{
    let alloc = rt.alloc();
    let folder = folder_of(path);
    match rt.metadata(folder) {
        Ok(metadata) if !metadata.is_dir() => {
            let text = format!(in alloc; "{path} can't be written: {folder} is no folder")?;
            return Err(failed(alloc, Code::CantWrite, text.as_str()));
        }
        Err(error) if error.kind() == ErrorKind::NotFound => {
            let text = format!(in alloc;
                "{path} can't be written: there is no folder {folder}; mkdir -p {folder} makes it"
            )?;
            return Err(failed(alloc, Code::CantWrite, text.as_str()));
        }
        _ => {}
    }
    match try_beside(rt, path) {
        Ok(()) => Ok(()),
        Err(error) => Err(file_failed(alloc, Code::CantWrite, path, "written", &error)),
    }
}

/// Tries whether a file can be written, and leaves it as it is.
pub fn try_writing(rt: HostRuntime, path: &str) -> Result<(), Failure>
    ensures { IfErr result (IsToldBy code.CantWrite) }
{
    let alloc = rt.alloc();
    match rt.metadata(path) {
        Ok(metadata) if metadata.is_dir() => {
            let text = format!(in alloc; "{path} can't be written: it is a folder")?;
            Err(failed(alloc, Code::CantWrite, text.as_str()))
        }
        Ok(_) => match OpenOptions::new().write(true).open(&rt, path) {
            Ok(_) => Ok(()),
            Err(error) => Err(file_failed(alloc, Code::CantWrite, path, "written", &error)),
        },
        Err(error) if error.kind() == ErrorKind::NotFound => try_new(rt, path),
        Err(error) => Err(file_failed(alloc, Code::CantWrite, path, "written", &error)),
    }
}
