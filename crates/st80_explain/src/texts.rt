//! A reader of texts that tells where they break.
use crate::columns::{Expected, Spot, behind, head_spot, name_spot, object_spot, part_spot};
use image_format::{
    FEWEST_OBJECTS, ImageHead, MOST_OBJECTS, Opening, STATE_VERSION, is_next, is_state_word,
    is_tick,
};
use long_names::{Body, MOST_CODE, Name, Rec, literal_count};
use st80_objects::{Image, Objects};
use st80_view::{Finding, View};
use std::alloc::{AllocError, Global};
use text_lines::{Head, Stated, head_in, object_in};

/// The first break of a text: its line and rule as `loom asm` answers them, and its place in the line. What is missing in the whole has the line 0 and no
/// place; `name` is what is missing, or else the object that breaks a rule of the whole, or 0.
#[derive(Clone, Copy, Debug, PartialEq, Eq)]
pub struct TextBreak {
    pub line: u32,
    pub rule: u8,
    pub spot: Option<Spot>,
    pub name: u32,
}

/// What a text is read as.
#[derive(Debug, Drop)]
pub enum TextReading {
    /// A right text. All counts are 0.
    Whole(View),
    Broken(TextBreak),
}

/// What a line is read as.
#[derive(Drop)]
enum LineReading {
    Right(Rec),
    Broken(TextBreak),
}

fn at(line: u32, rule: u8, spot: Spot) -> TextBreak {
    TextBreak {
        line,
        rule,
        spot: Some(spot),
        name: 0,
    }
}

fn broken(line: u32, rule: u8, spot: Spot) -> LineReading {
    LineReading::Broken(at(line, rule, spot))
}

/// The number of the part of line 1 that breaks rule 13.
fn state_part(head: &Head) -> Option<usize> {
    let state = &head.state;
    if !is_state_word(head.next, state.display) {
        return Some(3);
    }
    if !is_state_word(head.next, state.input) {
        return Some(4);
    }
    if !is_state_word(head.next, state.timer) {
        return Some(5);
    }
    if !is_tick(state.timer, state.tick) {
        return Some(6);
    }
    None
}

fn read_line_1(line: &[u8]) -> Result<Head, TextBreak> {
    let Some(head) = head_in(line) else {
        return Err(at(1, 0, head_spot(line)));
    };
    if !is_next(head.next) {
        return Err(at(1, 3, part_spot(line, 1, Expected::Number)));
    }
    match state_part(&head) {
        Some(part) => Err(at(1, 13, part_spot(line, part, Expected::Number))),
        None => Ok(head),
    }
}

/// The number of the part that breaks rule 7: the header, or the first byte of code that is too much.
fn size_part(body: &Body) -> Option<usize> {
    match body {
        Body::Pointers(_) | Body::Words(_) | Body::Bytes(_) => None,
        Body::Method {
            header,
            literals,
            code,
        } => {
            if code.len() > MOST_CODE as usize {
                return Some(
                    literals
                        .len()
                        .saturating_add(5)
                        .saturating_add(MOST_CODE as usize),
                );
            }
            if literal_count(*header) as usize == literals.len() {
                None
            } else {
                Some(3)
            }
        }
    }
}

/// The name of a line, where it keeps rule 4.
fn ordered_name(stated: &Stated, last: u32, next: u32) -> Option<Name> {
    if stated.name <= u64::from(last) || u64::from(next) <= stated.name {
        return None;
    }
    match u32::try_from(stated.name) {
        Ok(word) => Name::new(word),
        Err(_) => None,
    }
}

/// Reads the line of an object.
fn read_object(
    alloc: Global,
    number: u32,
    last: u32,
    next: u32,
    line: &[u8],
) -> Result<LineReading, AllocError> {
    let Some(stated) = object_in(alloc, line)? else {
        return Ok(broken(number, 0, object_spot(line)));
    };
    if number > MOST_OBJECTS + 1 {
        return Ok(broken(number, 3, part_spot(line, 0, Expected::Name)));
    }
    let Some(name) = ordered_name(&stated, last, next) else {
        return Ok(broken(number, 4, part_spot(line, 0, Expected::Name)));
    };
    if let Some(part) = size_part(&stated.body) {
        return Ok(broken(number, 7, part_spot(line, part, Expected::Header)));
    }
    Ok(LineReading::Right(Rec {
        name,
        class: stated.class,
        count: 0,
        body: stated.body,
    }))
}

/// The line that begins at a place, without its end; None where no newline ends it.
fn line_at(bytes: &[u8], at: usize) -> Option<&[u8]> {
    let rest = bytes.get(at..)?;
    let len = rest.iter().position(|b| *b == b'\n')?;
    rest.get(..len)
}

/// What stands from a place to the end of a file that no newline ends.
fn unended(bytes: &[u8], at: usize) -> &[u8] {
    bytes.get(at..).unwrap_or(bytes)
}

/// The objects of the lines from a place on, or the first break.
fn read_objects(
    alloc: Global,
    bytes: &[u8],
    start: usize,
    next: u32,
) -> Result<Result<Objects, TextBreak>, AllocError> {
    let mut objects = Objects::new(alloc);
    let mut place = start;
    let mut last = 0;
    for number in 2..u32::MAX {
        if bytes.len() <= place {
            break;
        }
        let Some(line) = line_at(bytes, place) else {
            let rest = unended(bytes, place);
            return Ok(Err(at(number, 0, behind(rest, Expected::Newline))));
        };
        match read_object(alloc, number, last, next, line)? {
            LineReading::Right(rec) => {
                last = rec.name.get();
                objects.push(rec)?;
            }
            LineReading::Broken(found) => return Ok(Err(found)),
        }
        place = place.saturating_add(line.len()).saturating_add(1);
    }
    Ok(Ok(objects))
}

/// Line number `number` of a text, counted from 1.
pub(crate) fn line_of(bytes: &[u8], number: u32) -> &[u8] {
    let mut place = 0usize;
    for _ in 1..number {
        match line_at(bytes, place) {
            Some(line) => place = place.saturating_add(line.len()).saturating_add(1),
            None => return b"",
        }
    }
    line_at(bytes, place).unwrap_or(unended(bytes, place))
}

/// The break of an object by its name.
fn object_break(bytes: &[u8], view: &View, rule: u8, name: Name, held: Option<Name>) -> TextBreak {
    let place = view.image().objects.place(name).unwrap_or(0);
    let number = u32::try_from(place).unwrap_or(0).saturating_add(2);
    let line = line_of(bytes, number);
    TextBreak {
        line: number,
        rule,
        spot: Some(match held {
            Some(held) => name_spot(line, held),
            None => part_spot(line, 0, Expected::Name),
        }),
        name: name.get(),
    }
}

/// The break of a rule of the whole; a count breaks none in a text.
fn break_of(bytes: &[u8], view: &View, finding: &Finding) -> Option<TextBreak> {
    match finding {
        Finding::Lost { holder, name, .. } => {
            Some(object_break(bytes, view, 10, *holder, Some(*name)))
        }
        Finding::Miscounted { .. } => None,
        Finding::Unheld { name } => Some(object_break(bytes, view, 11, *name, None)),
        Finding::Missing { name } => Some(TextBreak {
            line: 0,
            rule: 12,
            spot: None,
            name: name.get(),
        }),
        Finding::StateLost { name, .. } => Some(TextBreak {
            line: 0,
            rule: 14,
            spot: None,
            name: *name,
        }),
    }
}

/// Judges the whole.
fn judge(alloc: Global, bytes: &[u8], view: View) -> Result<TextReading, AllocError> {
    if view.image().objects.len() < FEWEST_OBJECTS as usize {
        let spot = part_spot(line_of(bytes, 1), 0, Expected::Loom);
        return Ok(TextReading::Broken(at(1, 3, spot)));
    }
    let findings = view.findings(alloc)?;
    for finding in findings.iter() {
        if let Some(found) = break_of(bytes, &view, finding) {
            return Ok(TextReading::Broken(found));
        }
    }
    Ok(TextReading::Whole(view))
}

/// Reads a text whole: its view, or the first break as `loom asm` answers it.
pub fn read_text(alloc: Global, bytes: &[u8]) -> Result<TextReading, AllocError> {
    let Some(first) = line_at(bytes, 0) else {
        let spot = behind(bytes, Expected::Newline);
        return Ok(TextReading::Broken(at(1, 0, spot)));
    };
    let head = match read_line_1(first) {
        Ok(head) => head,
        Err(found) => return Ok(TextReading::Broken(found)),
    };
    match read_objects(alloc, bytes, first.len().saturating_add(1), head.next)? {
        Ok(objects) => {
            let head = image_head(&head, objects.len());
            let view = View::of_image(alloc, Image { head, objects })?;
            judge(alloc, bytes, view)
        }
        Err(found) => Ok(TextReading::Broken(found)),
    }
}

/// The head of the image that a text is read as.
fn image_head(head: &Head, objects: usize) -> ImageHead {
    ImageHead {
        opening: Opening {
            version: STATE_VERSION,
            objects: u32::try_from(objects).unwrap_or(u32::MAX),
            next: head.next,
        },
        state: head.state,
    }
}
