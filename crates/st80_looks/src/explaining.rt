// What went wrong, in words, behind the line of `loom`.
use loom_words::Status;
use st80_explain::{
    FileKind, Files, TextReading, Wanted, file_kind, put_core_full, put_events_break,
    put_image_break, put_kind, put_status, put_text_break, put_work_full, read_text,
};
use st80_files::{Failure, Places, bytes_of, places_in, word_at};
use st80_words::number_in;

// Where CORE and ENTRIES stand in the row of a run.
const CORE: usize = 6;

const ENTRIES: usize = 7;

fn path_at<'a>(row: &'a [String], place: Option<usize>) -> &'a str {
    match word_at(row, place) {
        Some(path) => path,
        None => "",
    }
}

fn files_in<'a>(row: &'a [String], places: &Places) -> Files<'a> {
    Files {
        image: path_at(row, places.image),
        events: path_at(row, places.events),
        work: path_at(row, places.work),
        saved: path_at(row, places.saved),
        display: path_at(row, places.display),
        vault: path_at(row, places.vault),
    }
}

fn number_at(row: &[String], place: usize) -> u32 {
    match word_at(row, Some(place)) {
        Some(word) => match number_in(word, 0, u32::MAX) {
            Some(number) => number,
            None => 0,
        },
        None => 0,
    }
}

/// Puts which rule an image breaks, what stood there, and what it is where it is none.
pub fn put_bad_image(
    rt: HostRuntime,
    text: &mut String,
    bytes: &[u8],
    rule: u8,
    place: u64,
) -> Result<(), Failure> {
    put_kind(text, bytes, Wanted::Image)?;
    if file_kind(bytes) == FileKind::Image {
        put_image_break(rt.alloc(), text, bytes, rule, place)?;
    }
    Ok(())
}

/// Puts which line of a text breaks which rule, what stood there, and what it is where it is none. False where nothing breaks.
pub fn put_bad_text(rt: HostRuntime, text: &mut String, bytes: &[u8]) -> Result<bool, Failure> {
    put_kind(text, bytes, Wanted::Text)?;
    if file_kind(bytes) != FileKind::Text {
        return Ok(true);
    }
    match read_text(rt.alloc(), bytes)? {
        TextReading::Broken(found) => {
            put_text_break(rt.alloc(), text, bytes, &found)?;
            Ok(true)
        }
        _ => Ok(false),
    }
}

fn put_bad_events(text: &mut String, bytes: &[u8], line: u32) -> Result<(), Failure> {
    put_kind(text, bytes, Wanted::Events)?;
    put_events_break(text, bytes, line)?;
    Ok(())
}

// The file that was read and is refused; None where the status speaks of none, or where it has no path.
fn refused_path<'a>(status: &Status, files: &Files<'a>) -> Option<&'a str> {
    let path = match status {
        Status::ImageBad { .. } | Status::TextBad { .. } => files.image,
        Status::EventsBad { .. } => files.events,
        _ => "",
    };
    if path.is_empty() { None } else { Some(path) }
}

// What stands in a file that was read and is refused.
fn put_refused(
    rt: HostRuntime,
    text: &mut String,
    status: &Status,
    path: &str,
) -> Result<(), Failure> {
    let bytes = bytes_of(rt, path)?;
    write!(text, "{path}: ")?;
    match status {
        Status::ImageBad { rule, place } => put_bad_image(rt, text, &bytes, *rule, *place),
        Status::EventsBad { line } => put_bad_events(text, &bytes, *line),
        _ => {
            put_bad_text(rt, text, &bytes)?;
            Ok(())
        }
    }
}

// What another answer means, and which sizes to give.
fn put_meaning(
    text: &mut String,
    status: &Status,
    row: &[String],
    files: &Files<'_>,
) -> Result<(), Failure> {
    if let Status::WorkFull { live, room } = status {
        put_work_full(text, *live, *room)?;
        return Ok(());
    }
    put_status(text, status, files)?;
    if let Status::CoreFull { need, .. } = status {
        put_core_full(text, need, number_at(row, CORE), number_at(row, ENTRIES))?;
    }
    Ok(())
}

/// Says on standard error what the answer of a run means, and what to do, by its row of words.
pub fn explain(rt: HostRuntime, status: &Status, row: &[String]) -> Result<(), Failure> {
    let places = places_in(row);
    let files = files_in(row, &places);
    let mut text = String::new(rt.alloc());
    match refused_path(status, &files) {
        Some(path) => put_refused(rt, &mut text, status, path)?,
        None => put_meaning(&mut text, status, row, &files)?,
    }
    let _ = rt.eprint(text);
    Ok(())
}
