// One object: what it is, what it holds, and what holds it.
use crate::columns::{put_counted, put_left_out};
use crate::process::put_frame;
use long_names::{Body, Name, Octets, Rec, Values, Words16};
use st80_code::put_method;
use st80_objects::put_symbol;
use st80_view::{Hold, Part, View, record_size};
use std::alloc::{AllocError, Global};

/// How many fields of an object, and how many of what holds it, are put.
const MOST_FIELDS: usize = 200;

const MOST_HOLDERS: usize = 50;

/// How many words or bytes stand in a row, and how many rows are put.
const ROW: usize = 16;

const MOST_ROWS: usize = 64;

/// Puts an object: what it is, its class, what it holds, and what holds it.
pub fn show_object(
    alloc: Global,
    out: &mut String,
    view: &View,
    name: Name,
) -> Result<(), AllocError> {
    let Some(rec) = view.image().find(name) else {
        return Ok(());
    };
    put_title(out, view, rec)?;
    match &rec.body {
        Body::Pointers(values) => put_fields(out, view, values)?,
        Body::Words(words) => put_words(out, words)?,
        Body::Bytes(octets) => put_octets(out, octets)?,
        Body::Method { .. } => put_method(alloc, out, view, name)?,
    }
    if is_context(rec) {
        put_context(out, view, name)?;
    }
    put_holders(alloc, out, view, name)
}

fn is_context(rec: &Rec) -> bool {
    rec.class == Name::METHOD_CONTEXT || rec.class == Name::BLOCK_CONTEXT
}

/// Puts where a context is, if it is one.
fn put_context(out: &mut String, view: &View, name: Name) -> Result<(), AllocError> {
    match view.frame(name) {
        Some(frame) => {
            out.push_str("as a context\n")?;
            put_frame(out, view, &frame)
        }
        None => Ok(()),
    }
}

fn put_title(out: &mut String, view: &View, rec: &Rec) -> Result<(), AllocError> {
    let number = rec.name.get();
    write!(out, "{number}: ")?;
    view.put_object(out, rec.name)?;
    out.push_str("\n  class ")?;
    view.put_class_name(out, rec.class)?;
    let class = rec.class.get();
    write!(out, " ({class}), ")?;
    put_size(out, rec)?;
    out.push_str(", ")?;
    put_counted(out, record_size(rec), "byte", "bytes")?;
    out.push_str(" in the image\n")
}

fn put_size(out: &mut String, rec: &Rec) -> Result<(), AllocError> {
    let len = rec.body.len() as u64;
    match &rec.body {
        Body::Pointers(_) => put_counted(out, len, "field", "fields"),
        Body::Words(_) => put_counted(out, len, "word", "words"),
        Body::Bytes(_) => put_counted(out, len, "byte", "bytes"),
        Body::Method { .. } => put_counted(out, len, "byte of code", "bytes of code"),
    }
}

fn put_fields(out: &mut String, view: &View, values: &Values) -> Result<(), AllocError> {
    for i in 0..values.len() {
        if i < MOST_FIELDS {
            let value = *values.item(i);
            write!(out, "  field {i}: ")?;
            view.put_value(out, value)?;
            out.push('\n')?;
        }
    }
    put_left_out(out, values.len().saturating_sub(MOST_FIELDS), "fields")
}

fn put_words(out: &mut String, words: &Words16) -> Result<(), AllocError> {
    for (i, row) in words.words().chunks(ROW).enumerate() {
        if i < MOST_ROWS {
            out.push_str(" ")?;
            for word in row {
                write!(out, " {word:04x}")?;
            }
            out.push('\n')?;
        }
    }
    put_left_out(out, words.len().saturating_sub(MOST_ROWS * ROW), "words")
}

fn put_octets(out: &mut String, octets: &Octets) -> Result<(), AllocError> {
    for (i, row) in octets.bytes().chunks(ROW).enumerate() {
        if i < MOST_ROWS {
            out.push_str(" ")?;
            for byte in row {
                write!(out, " {byte:02x}")?;
            }
            out.push_str("  ")?;
            put_symbol(out, row)?;
            out.push('\n')?;
        }
    }
    put_left_out(out, octets.len().saturating_sub(MOST_ROWS * ROW), "bytes")
}

fn put_holders(alloc: Global, out: &mut String, view: &View, name: Name) -> Result<(), AllocError> {
    let holds = view.holders(alloc, name)?;
    out.push_str("held by ")?;
    put_counted(out, holds.len() as u64, "word", "words")?;
    out.push('\n')?;
    for (i, hold) in holds.iter().enumerate() {
        if i < MOST_HOLDERS {
            put_hold(out, view, hold)?;
        }
    }
    put_left_out(out, holds.len().saturating_sub(MOST_HOLDERS), "words")
}

fn put_hold(out: &mut String, view: &View, hold: &Hold) -> Result<(), AllocError> {
    match &hold.part {
        Part::Class => out.push_str("  the class of ")?,
        Part::Field(i) => write!(out, "  field {i} of ")?,
        Part::Literal(i) => write!(out, "  literal {i} of ")?,
    }
    let number = hold.holder.get();
    write!(out, "{number}: ")?;
    view.put_object(out, hold.holder)?;
    out.push('\n')
}
