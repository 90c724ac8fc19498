// Calls on a file or a writer. One that a signal interrupts is made again.
ghost use Rattle.std.specs.Prelude.{◌≡◌, ◌<◌, ◌≤◌, false, IfSome, length};

use std::io::{ErrorKind, Read, Write};
use std::os::unix::fs::FileExt;

// How often a call is made at most, while signals interrupt it.
const MOST_TRIES: u32 = 1_000;

// Some bytes to the front of the buffer, or None where that failed.
pub fn read_some<F: Read>(file: &mut F, buf: &mut [u8]) -> Option<usize>
    ensures { IfSome result (λ n. n ≤ length buf.old) }
{
    for _ in 0..MOST_TRIES {
        match file.read(buf) {
            Ok(n) => return Some(n),
            Err(error) if error.kind() == ErrorKind::Interrupted => {}
            Err(_) => return None,
        }
    }
    None
}

// Some bytes of the piece, or None where that failed. A sink that takes nothing has failed.
pub fn write_some<W: Write>(sink: &mut W, buf: &[u8]) -> Option<usize>
    ensures bound { IfSome result (λ n. n ≤ length buf.now) }
    ensures some { 0 < length buf.now → IfSome result (λ n. 0 < n) }
{
    if buf.is_empty() {
        return Some(0);
    }
    for _ in 0..MOST_TRIES {
        match sink.write(buf) {
            Ok(0) => return None,
            Ok(n) => return Some(n),
            Err(error) if error.kind() == ErrorKind::Interrupted => {}
            Err(_) => return None,
        }
    }
    None
}

// The writer keeps none of its bytes back; false where that failed.
fn flush<W: Write>(sink: &mut W) -> bool {
    for _ in 0..MOST_TRIES {
        match sink.flush() {
            Ok(()) => return true,
            Err(error) if error.kind() == ErrorKind::Interrupted => {}
            Err(_) => return false,
        }
    }
    false
}

// As `write_some`, and the writer has passed them on.
pub fn write_through<W: Write>(sink: &mut W, buf: &[u8]) -> Option<usize>
    ensures bound { IfSome result (λ n. n ≤ length buf.now) }
    ensures some { 0 < length buf.now → IfSome result (λ n. 0 < n) }
{
    let moved = write_some(sink, buf);
    if flush(sink) { moved } else { None }
}

// Some bytes from a place on to the front of the buffer, or None where that failed.
fn read_some_at<F: FileExt>(file: &F, place: u64, buf: &mut [u8]) -> Option<usize>
    ensures { IfSome result (λ n. n ≤ length buf.old) }
{
    for _ in 0..MOST_TRIES {
        match file.read_at(buf, place) {
            Ok(n) => return Some(n),
            Err(error) if error.kind() == ErrorKind::Interrupted => {}
            Err(_) => return None,
        }
    }
    None
}

// Some bytes of the piece to a place on, or None where that failed. A file that takes nothing has failed.
fn write_some_at<F: FileExt>(file: &F, place: u64, buf: &[u8]) -> Option<usize>
    ensures bound { IfSome result (λ n. n ≤ length buf.now) }
    ensures some { IfSome result (λ n. 0 < n) }
{
    for _ in 0..MOST_TRIES {
        match file.write_at(buf, place) {
            Ok(0) => return None,
            Ok(n) => return Some(n),
            Err(error) if error.kind() == ErrorKind::Interrupted => {}
            Err(_) => return None,
        }
    }
    None
}

// Bytes from the start on to the front of the buffer, as many as there are and it holds. Says how many, or None where that failed.
pub fn read_front<F: FileExt>(file: &F, buf: &mut [u8]) -> Option<usize>
    ensures { IfSome result (λ n. n ≤ length buf.old) }
{
    let mut done = 0;
    while done < buf.len() {
        match read_some_at(file, done as u64, &mut buf[done..]) {
            Some(0) => return Some(done),
            Some(n) => done += n,
            None => return None,
        }
    }
    Some(done)
}

// The whole piece from a place on, with zeros past the end; false where that failed.
pub fn read_whole<F: FileExt>(file: &F, place: u64, buf: &mut [u8]) -> bool {
    let mut done = 0;
    while done < buf.len() {
        let Some(from) = place.checked_add(done as u64) else {
            return false;
        };
        match read_some_at(file, from, &mut buf[done..]) {
            Some(0) => {
                buf[done..].fill(0);
                return true;
            }
            Some(n) => done += n,
            None => return false,
        }
    }
    true
}

// The whole piece to a place on; false where that failed.
pub fn write_whole<F: FileExt>(file: &F, place: u64, buf: &[u8]) -> bool {
    let mut done = 0;
    while done < buf.len() {
        let Some(from) = place.checked_add(done as u64) else {
            return false;
        };
        match write_some_at(file, from, &buf[done..]) {
            Some(n) => done += n,
            None => return false,
        }
    }
    true
}
