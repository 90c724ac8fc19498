//! Event files.
use crate::texts::line_of;
use st80_objects::put_bytes;
use std::alloc::AllocError;

/// How many bytes of a line are shown.
const MOST_SHOWN: usize = 60;

/// The most lines of an event file.
const MOST_LINES: u32 = 65_535;

/// The number of plain decimal digits, up to a limit.
fn number_in(part: &[u8], most: u64) -> Option<u64> {
    if part.is_empty() || (part.len() > 1 && part[0] == b'0') {
        return None;
    }
    let mut number = 0u64;
    for digit in part {
        if !digit.is_ascii_digit() {
            return None;
        }
        number = number
            .saturating_mul(10)
            .saturating_add(u64::from(*digit - b'0'));
    }
    if number <= most { Some(number) } else { None }
}

/// Splits at the first space.
fn cut(line: &[u8]) -> (&[u8], Option<&[u8]>) {
    match line.iter().position(|b| *b == b' ') {
        Some(at) => (
            line.get(..at).unwrap_or(line),
            line.get(at.saturating_add(1)..),
        ),
        None => (line, None),
    }
}

/// The count of an event's line; None where it is none.
fn count_of(line: &[u8]) -> Option<u64> {
    let (count, rest) = cut(line);
    let count = number_in(count, 2_147_483_647)?;
    let (word, behind) = cut(rest?);
    match behind {
        None if word == b"purge".as_slice() || word == b"compact".as_slice() => Some(count),
        Some(number) if word == b"word".as_slice() => {
            number_in(number, 65_535)?;
            Some(count)
        }
        _ => None,
    }
}

/// What is wrong with a line that a count stands before.
fn reason(bytes: &[u8], number: u32) -> &'static str {
    let line = line_of(bytes, number);
    if number > MOST_LINES {
        return "There are at most 65,535 lines.";
    }
    match count_of(line) {
        None => line_reason(line),
        Some(count) => match count_of(line_of(bytes, number.saturating_sub(1))) {
            Some(before) if number > 1 && count < before =>
                "Its count is below that of the line before.",
            _ => "The last line ends with a newline too.",
        },
    }
}

fn line_reason(line: &[u8]) -> &'static str {
    if line.is_empty() {
        "There are no empty lines."
    } else if line.contains(&b'\r') {
        "It ends with a carriage return: lines end with a newline alone."
    } else if line.contains(&b'\t') {
        "A tab isn't a space."
    } else if line.contains(&b'#') {
        "There are no comments."
    } else {
        "A line is `COUNT word N`, `COUNT purge` or `COUNT compact`: COUNT up to 2,147,483,647, N up to 65,535, no sign, no zero in front, one space."
    }
}

/// Puts what stands on a bad line of an event file, and why it is bad.
pub fn put_events_break(out: &mut String, bytes: &[u8], line: u32) -> Result<(), AllocError> {
    let stood = line_of(bytes, line);
    write!(out, "Line {line} of the event file is `")?;
    put_bytes(out, stood.get(..MOST_SHOWN).unwrap_or(stood))?;
    out.push_str("`. ")?;
    out.push_str(reason(bytes, line))?;
    out.push('\n')
}

/// The first bad line of an event file, from 1; None where all are right.
pub fn first_bad_event(bytes: &[u8]) -> Option<u32> {
    let mut place = 0usize;
    let mut last = 0u64;
    for number in 1..u32::MAX {
        if bytes.len() <= place {
            return None;
        }
        let rest = bytes.get(place..)?;
        let Some(len) = rest.iter().position(|b| *b == b'\n') else {
            return Some(number);
        };
        let count = count_of(rest.get(..len)?);
        match count {
            Some(count) if last <= count && number <= MOST_LINES => last = count,
            _ => return Some(number),
        }
        place = place.saturating_add(len).saturating_add(1);
    }
    None
}
