// The files of a case beside its image: what events it gives, and what picture it wants.
ghost use Rattle.std.specs.Prelude.{◌≡◌, ◌++◌, [], ◌∷◌, OnOk};

use crate::paragraph::{Paragraph, parts_of};
use crate::pieces::bytes_of;
use anyhow::{Context, Result};
use std::alloc::{AllocError, Global};

/// The event file: each line `events` adds the bytes that it states, and each line `event` the rest of it and a newline.
pub fn events_of(alloc: Global, paragraph: Paragraph<'_>) -> Result<Vec<u8>> {
    let mut events = Vec::new(alloc);
    for line in paragraph.text().lines() {
        let (word, value) = parts_of(line);
        match word {
            "event" => append_line(&mut events, value)?,
            "events" => {
                let bytes = bytes_of(alloc, value).context(word)?;
                events.extend_from_slice(&bytes)?;
            }
            _ => {}
        }
    }
    Ok(events)
}

/// Puts a line and its newline behind a text.
pub fn append_line(text: &mut Vec<u8>, line: &str) -> Result<(), AllocError>
    ensures { OnOk result (text.new.items ≡ text.old.items ++ (line.now ++ 10 ∷ [])) }
{
    text.extend_from_slice(line.as_bytes())?;
    text.push(b'\n')?;
    Ok(())
}

/// The file of the picture: none where nothing is saved and none is stated; empty where it is stated without bytes, or not stated.
/// `P4 17 3` and pieces behind it are a picture of that width and height with these rows.
pub fn display_of(
    alloc: Global,
    paragraph: Paragraph<'_>,
    is_saved: bool,
) -> Result<Option<Vec<u8>>> {
    match paragraph.value("display")? {
        Some(value) => Ok(Some(picture_of(alloc, value).context("display")?)),
        None if is_saved => Ok(Some(Vec::new(alloc))),
        None => Ok(None),
    }
}

fn picture_of(alloc: Global, value: &str) -> Result<Vec<u8>> {
    let Some(("P4", rest)) = value.split_once(' ') else {
        return bytes_of(alloc, value);
    };
    let (width, rest) = rest.split_once(' ').context("no height")?;
    let (height, rows) = rest.split_once(' ').context("no rows")?;
    let mut file = b"P4\n".to_vec(alloc)?;
    file.extend_from_slice(width.as_bytes())?;
    file.push(b' ')?;
    append_line(&mut file, height)?;
    file.extend_from_slice(&bytes_of(alloc, rows)?)?;
    Ok(file)
}
