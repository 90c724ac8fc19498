// Why a call on a file failed: st80 looks at the file again.
use loom_outside::{Identity, Precious, Role};
use loom_words::Status;
use st80_files::{Places, places_in, word_at};
use std::fs::{File, OpenFile, OpenOptions};
use std::io::{self, ErrorKind, Read, Write};
use std::rt::Files;

// How many bytes are written to see whether there is room.
const PIECE: u64 = 65_536;

// Reads a little of a file.
fn try_reading(rt: HostRuntime, path: &str) -> io::Result<()> {
    let mut file = File::open(&rt, path)?;
    let mut piece = [0; 16];
    file.read(&mut piece)?;
    Ok(())
}

// Writes a little beside a file, and removes it.
fn try_room(rt: HostRuntime, path: &str) -> io::Result<()> {
    let tried = format!(in rt.alloc(); "{path}.try")?;
    let mut file = File::create_new(&rt, tried.as_str())?;
    let written = write_piece(&mut file);
    drop(file);
    rt.remove_file(tried.as_str())?;
    written
}

fn write_piece(file: &mut File) -> io::Result<()> {
    let mut piece = io::repeat(0).take(PIECE);
    io::copy(&mut piece, file)?;
    file.sync_all()
}

fn say(rt: HostRuntime, path: &str, error: &io::Error) {
    let _ = rt.eprintln(format_args!("st80: {path}: {error}"));
}

// The other role of the row that has the same file.
fn twin_of(rt: HostRuntime, row: &[String], place: usize) -> Option<usize> {
    let identity = Identity::named(&rt, word_at(row, Some(place))?);
    if identity.is_none() {
        return None;
    }
    for other in 1..row.len() {
        if other != place && Identity::named(&rt, word_at(row, Some(other))?) == identity {
            return Some(other);
        }
    }
    None
}

// Says that the file is another one of the row, or that of a standard stream. False where it is none.
fn tell_twin(rt: HostRuntime, row: &[String], place: usize) -> bool {
    let Some(path) = word_at(row, Some(place)) else {
        return false;
    };
    if let Some(other) = twin_of(rt, row, place) {
        if let Some(other) = word_at(row, Some(other)) {
            let _ = rt.eprintln(format_args!(
                "st80: {path} is the same file as {other}: give another"
            ));
            return true;
        }
    }
    let identity = Identity::named(&rt, path);
    for stream in ["/dev/stdout", "/dev/stderr"] {
        if identity.is_some() && Identity::named(&rt, stream) == identity {
            let _ = rt.eprintln(format_args!(
                "st80: {path} is the file that {stream} goes to: give another"
            ));
            return true;
        }
    }
    false
}

fn tell_unread(rt: HostRuntime, path: &str) {
    match try_reading(rt, path) {
        Ok(()) => {
            let _ = rt.eprintln(format_args!(
                "st80: {path} couldn't be read; now it can: run again"
            ));
        }
        Err(error) => say(rt, path, &error),
    }
}

// What stands in the way of writing the file of this place.
fn tell_unwritten(rt: HostRuntime, row: &[String], place: Option<usize>) {
    let Some(path) = word_at(row, place) else {
        return;
    };
    if tell_twin(rt, row, place.unwrap_or(0)) {
        return;
    }
    match rt.metadata(path) {
        Ok(metadata) if metadata.is_dir() => {
            let _ = rt.eprintln(format_args!("st80: {path} is a folder"));
        }
        Ok(_) => match OpenOptions::new().write(true).open(&rt, path) {
            Ok(_) => tell_no_room(rt, path),
            Err(error) => say(rt, path, &error),
        },
        Err(error) if error.kind() == ErrorKind::NotFound => tell_no_room(rt, path),
        Err(error) => say(rt, path, &error),
    }
}

fn tell_no_room(rt: HostRuntime, path: &str) {
    match try_room(rt, path) {
        Ok(()) => {
            let _ = rt.eprintln(format_args!(
                "st80: {path} couldn't be written; now it can: see that its disk has room, and run again"
            ));
        }
        Err(error) => say(rt, path, &error),
    }
}

// What stands in the way of the work file.
fn tell_work(rt: HostRuntime, row: &[String], place: Option<usize>) {
    let Some(path) = word_at(row, place) else {
        return;
    };
    match rt.metadata(path) {
        Ok(metadata) if !metadata.is_file() => {
            let _ = rt.eprintln(format_args!(
                "st80: {path} is no regular file: the work file has to be one, or a new one"
            ));
        }
        Ok(_) if is_precious(rt, path) => {
            let _ = rt.eprintln(format_args!(
                "st80: {path} is an image, a text or a picture, which a run would destroy: give another work file"
            ));
        }
        _ => tell_unwritten(rt, row, place),
    }
}

// What stands in the way of the vault.
fn tell_vault(rt: HostRuntime, row: &[String], place: Option<usize>) {
    let Some(path) = word_at(row, place) else {
        return;
    };
    match File::open(&rt, path) {
        Ok(_) if is_precious(rt, path) => {
            let _ = rt.eprintln(format_args!(
                "st80: {path} is no vault: it is an image, a text or a picture"
            ));
        }
        Ok(_) => tell_unwritten_vault(rt, row, place),
        Err(error) => say(rt, path, &error),
    }
}

// Of a vault that can be read nothing more is known where it can be written.
fn tell_unwritten_vault(rt: HostRuntime, row: &[String], place: Option<usize>) {
    let Some(path) = word_at(row, place) else {
        return;
    };
    match OpenOptions::new().read(true).write(true).open(&rt, path) {
        Ok(_) => {
            tell_twin(rt, row, place.unwrap_or(0));
        }
        Err(error) => say(rt, path, &error),
    }
}

fn is_precious(rt: HostRuntime, path: &str) -> bool {
    match File::open(&rt, path) {
        Ok(file) => match Precious::in_file(&file) {
            Ok(precious) => precious.is_some(),
            Err(_) => false,
        },
        Err(_) => false,
    }
}

fn tell_role(rt: HostRuntime, role: Role, row: &[String], places: &Places) {
    match role {
        Role::Saved => tell_unwritten(rt, row, places.saved),
        Role::Display => tell_unwritten(rt, row, places.display),
        Role::Transcript => {
            let _ = rt.eprintln(
                "st80: standard output can't be written: it is closed, its reader has gone, or its disk is full",
            );
        }
        _ => {}
    }
}

/// Says on standard error what the system answers where a call on a file failed, by the row of words of the run.
pub fn tell_why(rt: HostRuntime, status: &Status, row: &[String]) {
    let places = places_in(row);
    match status {
        Status::ReadFault { role, .. } => {
            let place = if *role == Role::Image {
                places.image
            } else {
                places.events
            };
            if let Some(path) = word_at(row, place) {
                tell_unread(rt, path);
            }
        }
        Status::WorkFault { .. } => tell_work(rt, row, places.work),
        Status::WriteFault { role, .. } => tell_role(rt, *role, row, &places),
        Status::VaultFault { .. } | Status::NoCheckpoint | Status::VaultBad { .. } => {
            tell_vault(rt, row, places.vault);
        }
        _ => {}
    }
}
