// A case, read from its paragraph.
use crate::answer::Answer;
use crate::edits::{as_version_2, cut, patch};
use crate::files::{display_of, events_of};
use crate::paragraph::{Paragraph, parts_of};
use crate::pieces::{append_rising, append_times, bytes_of};
use crate::sizes::{LEAST_CORE, LEAST_ENTRIES, LEAST_ROOM, Sizes};
use anyhow::{Context, Result, bail};
use loom_gen::{LAST_NUMBER, make};
use std::alloc::Global;

/// An image, how it is run, and what has to come out.
#[derive(Drop)]
pub struct Case<'a> {
    /// The bytes of the image.
    pub image: Vec<u8>,
    /// The bytes of the event file.
    pub events: Vec<u8>,
    /// A machine that all of the run fits, or that it is refused for.
    pub sizes: Sizes<'a>,
    /// How many bytecodes are run, as a word of a command.
    pub steps: &'a str,
    /// What the program has to answer.
    pub want: Answer,
    // Where the other lines stand that may come on Notes.
    paragraph: Paragraph<'a>,
}

impl<'a> Case<'a> {
    /// How many bytecodes it runs, where it goes through.
    pub fn ran(&self) -> Result<Option<u32>> {
        let line = self.paragraph.needed("notes")?;
        let count = match line.strip_prefix("ran ") {
            Some(count) => Some(count),
            None => line.strip_prefix("quit after "),
        };
        match count {
            Some(count) => Ok(Some(count.parse::<u32>().context("notes")?)),
            None => Ok(None),
        }
    }

    /// Whether this may come on Notes in place of what is wanted: where several needs of a core may be told, each has a line `or`.
    pub fn may_note(&self, notes: &[u8]) -> bool {
        let Ok(text) = str::from_utf8(notes) else {
            return false;
        };
        for line in self.paragraph.text().lines() {
            let (word, value) = parts_of(line);
            if word == "or" && value == text.trim_end() {
                return true;
            }
        }
        false
    }
}

/// The case of a paragraph. `base` is the image that it may begin with.
pub fn case_of<'a>(alloc: Global, base: &[u8], text: &'a str) -> Result<Case<'a>> {
    let paragraph = Paragraph::new(text)?;
    paragraph.needed("case")?;
    let (image, saved) = files_of(alloc, base, paragraph)?;
    Ok(Case {
        image,
        events: events_of(alloc, paragraph)?,
        sizes: sizes_of(paragraph)?,
        steps: paragraph.needed("steps")?,
        want: answer_of(alloc, paragraph, saved)?,
        paragraph,
    })
}

fn sizes_of(paragraph: Paragraph<'_>) -> Result<Sizes<'_>> {
    Ok(Sizes {
        core: paragraph.value("core")?.unwrap_or(LEAST_CORE),
        entries: paragraph.value("entries")?.unwrap_or(LEAST_ENTRIES),
        room: paragraph.value("room")?.unwrap_or(LEAST_ROOM),
    })
}

// The stated image, and the file that has to be saved, if any. What is changed stands in the order of the lines: up to the line
// `saved` it is changed of the image, and behind that line of the saved file.
fn files_of(
    alloc: Global,
    base: &[u8],
    paragraph: Paragraph<'_>,
) -> Result<(Vec<u8>, Option<Vec<u8>>)> {
    let mut image = image_of(alloc, base, paragraph.needed("image")?)?;
    let mut saved = None;
    for line in paragraph.text().lines() {
        let (word, value) = parts_of(line);
        match &mut saved {
            Some(_) if word == "saved" => bail!("saved twice"),
            Some(saved) => edit(alloc, saved, word, value)
                .context(word)
                .context("saved")?,
            None if word == "saved" => saved = Some(saved_of(alloc, &image, value)?),
            None => edit(alloc, &mut image, word, value).context(word)?,
        }
    }
    Ok((image, saved))
}

// The stated image: the base image, that of a number, or these bytes.
fn image_of(alloc: Global, base: &[u8], value: &str) -> Result<Vec<u8>> {
    if value == "base" {
        return Ok(base.to_vec(alloc)?);
    }
    match value.strip_prefix("make ") {
        Some(number) => made(alloc, number.parse().context("image")?),
        None => hex::decode(alloc, value).context("image"),
    }
}

fn made(alloc: Global, number: u8) -> Result<Vec<u8>> {
    if number > LAST_NUMBER {
        bail!("no image of {number}");
    }
    Ok(make(alloc, number)?.bytes().to_vec(alloc)?)
}

// The file that is saved: the image itself as version 2, or these bytes.
fn saved_of(alloc: Global, image: &[u8], value: &str) -> Result<Vec<u8>> {
    match value {
        "image" => Ok(as_version_2(alloc, image)?),
        text => hex::decode(alloc, text).context("saved"),
    }
}

// Makes the change that a line states, if it states one.
fn edit(alloc: Global, file: &mut Vec<u8>, word: &str, value: &str) -> Result<()> {
    match word {
        "patch" => {
            let (at, bytes) = value.split_once(' ').context("no bytes")?;
            patch(file, at.parse()?, &hex::decode(alloc, bytes)?)?;
        }
        "cut" => cut(file, value.parse()?)?,
        "append" => file.extend_from_slice(&hex::decode(alloc, value)?)?,
        "repeat" => {
            let (count, bytes) = value.split_once(' ').context("no bytes")?;
            append_times(file, count.parse()?, &hex::decode(alloc, bytes)?)?;
        }
        "rising" => edit_rising(alloc, file, value)?,
        _ => {}
    }
    Ok(())
}

// Puts bytes with a rising number at the end: how often, its place, its step, and the bytes.
fn edit_rising(alloc: Global, file: &mut Vec<u8>, value: &str) -> Result<()> {
    let (count, rest) = value.split_once(' ').context("no place")?;
    let (at, rest) = rest.split_once(' ').context("no step")?;
    let (step, bytes) = rest.split_once(' ').context("no bytes")?;
    let piece = hex::decode(alloc, bytes)?;
    append_rising(file, count.parse()?, at.parse()?, step.parse()?, &piece)
}

// What has to come out.
fn answer_of(alloc: Global, paragraph: Paragraph<'_>, saved: Option<Vec<u8>>) -> Result<Answer> {
    let status = paragraph.needed("status")?.parse().context("status")?;
    let mut notes = paragraph.needed("notes")?.as_bytes().to_vec(alloc)?;
    notes.push(b'\n')?;
    let said = paragraph.value("transcript")?.unwrap_or("");
    Ok(Answer {
        status,
        notes,
        transcript: bytes_of(alloc, said).context("transcript")?,
        display: display_of(alloc, paragraph, saved.is_some())?,
        saved,
    })
}
