//! The break of a text in words.
ghost use Rattle.std.specs.Prelude.{◌≡◌};
ghost use Rattle.st80_explain.specs.Sentences.{expected_text};

use crate::columns::{Expected, Spot};
use crate::texts::{TextBreak, line_of};
use st80_objects::{put_bytes, rule_sentence};
use std::alloc::{AllocError, Global};

/// How many bytes of what stood there are shown.
const MOST_SHOWN: usize = 40;

/// What should have stood at a place.
fn expected_words(expected: Expected) -> &'static str
    ensures { result.now ≡ expected_text expected }
{
    match expected {
        Expected::Loom => "the word loom, in lower case",
        Expected::Number =>
            "a number from 0 to 4294967295, without a sign and without a zero in front",
        Expected::Name => "the number of an object, without a sign and without a zero in front",
        Expected::Class => "a class: the number of an object, even and not 0",
        Expected::Kind => "pointers, words, bytes or method",
        Expected::Value =>
            "a value: the number of an object, even and not 0, or a SmallInteger as 5i, from -16384i to 16383i",
        Expected::Word => "a word of four digits 0 to 9 and a to f, in lower case",
        Expected::Byte => "a byte of two digits 0 to 9 and a to f, in lower case",
        Expected::Header => "a method's header: a SmallInteger as 5i, from -16384i to 16383i",
        Expected::LiteralOrCode => "a literal, as 5i or the number of an object, or the word code",
        Expected::End => "the end of the line",
        Expected::Newline =>
            "a newline: each line ends with one, and has at most 1,048,576 bytes before it",
    }
}

/// What a reader should know of a part that is wrong.
fn hint(part: &[u8], expected: Expected) -> &'static str {
    if part.is_empty() {
        return "One space stands between two parts, and none at either end of a line.";
    }
    if part.contains(&b'\t') {
        return "A tab isn't a space.";
    }
    if part.contains(&b'\r') {
        return "The line ends with a carriage return: lines end with a newline alone.";
    }
    if part.starts_with(b"#")
        || part.starts_with(b"//")
        || part.starts_with(b";")
        || part.starts_with(b"\"")
    {
        return "There are no comments.";
    }
    if part.contains(&b',') {
        return "Numbers have no commas.";
    }
    number_hint(part, expected)
}

fn number_hint(part: &[u8], expected: Expected) -> &'static str {
    match expected {
        Expected::Byte | Expected::Word => hexadecimal_hint(part),
        Expected::Value | Expected::Header | Expected::LiteralOrCode => {
            if part.ends_with(b"i") {
                "A SmallInteger is from -16384 to 16383, and has no + and no zero in front."
            } else if part.iter().all(|b| b.is_ascii_digit()) {
                "A number of one's own has an i behind it; without it, it is the number of an object."
            } else {
                ""
            }
        }
        Expected::Class if part == b"0".as_slice() => "nil is 2.",
        Expected::Loom if part.starts_with(b"LOOM") => "This is an image, and no text.",
        _ => "",
    }
}

fn hexadecimal_hint(part: &[u8]) -> &'static str {
    if part.iter().any(|b| b.is_ascii_uppercase()) {
        "Digits past 9 are lower case."
    } else if part.starts_with(b"0x") {
        "There is no 0x in front."
    } else {
        ""
    }
}

/// What stood at a place, without what follows.
fn stood<'a>(line: &'a [u8], spot: &Spot) -> &'a [u8] {
    let from = spot.column.saturating_sub(1);
    let to = from.saturating_add(spot.len.min(MOST_SHOWN));
    line.get(from..to).unwrap_or(b"")
}

/// Puts what stood at a place, and what should have.
fn put_stood(out: &mut String, line: &[u8], spot: &Spot) -> Result<(), AllocError> {
    let column = spot.column;
    write!(out, "Column {column} has ")?;
    if spot.len == 0 {
        out.push_str("nothing")?;
    } else {
        out.push('`')?;
        put_bytes(out, stood(line, spot))?;
        out.push('`')?;
    }
    out.push_str(", and should have ")?;
    out.push_str(expected_words(spot.expected))?;
    out.push('.')?;
    let hint = if spot.expected == Expected::Newline {
        ""
    } else {
        hint(stood(line, spot), spot.expected)
    };
    if !hint.is_empty() {
        out.push(' ')?;
        out.push_str(hint)?;
    }
    out.push('\n')
}

/// Puts where a rule breaks that isn't the grammar.
fn put_place(out: &mut String, line: &[u8], spot: &Spot) -> Result<(), AllocError> {
    let column = spot.column;
    write!(out, "Column {column} has `")?;
    put_bytes(out, stood(line, spot))?;
    out.push_str("`.\n")
}

/// Puts what is missing in the whole, or which object breaks a rule of it.
fn put_name(out: &mut String, found: &TextBreak) -> Result<(), AllocError> {
    let name = found.name;
    match found.rule {
        11 => write!(
            out,
            "Nothing holds object {name}: let a field of another object be {name}, or leave its line out.\n"
        ),
        12 => {
            write!(out, "Object {name}")?;
            out.push_str(known_words(name))?;
            out.push_str(" has no line.\n")
        }
        14 => write!(out, "Line 1 names object {name}, which has no line.\n"),
        _ => Ok(()),
    }
}

/// What an object that every image has is called, behind a comma.
fn known_words(name: u32) -> &'static str {
    match name {
        2 => ", nil,",
        4 => ", false,",
        6 => ", true,",
        8 => ", the association of the scheduler,",
        12 => ", class SmallInteger,",
        14 => ", class String,",
        16 => ", class Array,",
        22 => ", class MethodContext,",
        24 => ", class BlockContext,",
        26 => ", class Point,",
        28 => ", class LargePositiveInteger,",
        30 => ", class DisplayBitmap,",
        32 => ", class Message,",
        34 => ", class CompiledMethod,",
        38 => ", class Semaphore,",
        40 => ", class Character,",
        42 => ", the selector doesNotUnderstand:,",
        44 => ", the selector cannotReturn:,",
        48 => ", the special selectors,",
        50 => ", the table of characters,",
        52 => ", the selector mustBeBoolean,",
        58 => ", class LargeNegativeInteger,",
        _ => "",
    }
}

/// Puts the break of a text: its line, its rule in a sentence, its column, and what stood there.
pub fn put_text_break(
    _alloc: Global,
    out: &mut String,
    bytes: &[u8],
    found: &TextBreak,
) -> Result<(), AllocError> {
    let number = found.line;
    let rule = found.rule;
    if number == 0 {
        write!(out, "Rule {rule}: ")?;
    } else {
        write!(out, "Line {number}, rule {rule}: ")?;
    }
    out.push_str(rule_sentence(rule))?;
    out.push_str(".\n")?;
    if let Some(spot) = &found.spot {
        let line = line_of(bytes, number);
        if rule == 0 {
            put_stood(out, line, spot)?;
        } else {
            put_place(out, line, spot)?;
        }
    }
    put_name(out, found)
}
