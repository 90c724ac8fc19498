// Literals as source.
use crate::stop::Stop;
use long_names::{Body, Name, Rec, Value, Values};
use st80_objects::{item_of, put_large};
use st80_view::View;

/// So deep arrays nest at most.
const MOST_NESTED: usize = 32;

/// Puts bytes as they are. Only those of ASCII are put.
pub(crate) fn put_text(out: &mut String, bytes: &[u8]) -> Result<(), Stop> {
    for byte in bytes {
        if *byte > 126 {
            return Err(Stop::NoSource);
        }
        out.push(char::from(*byte))?;
    }
    Ok(())
}

fn put_string(out: &mut String, bytes: &[u8]) -> Result<(), Stop> {
    out.push('\'')?;
    for byte in bytes {
        if *byte == b'\'' {
            out.push('\'')?;
        }
        put_text(out, &[*byte])?;
    }
    out.push('\'')?;
    Ok(())
}

fn is_letter(byte: u8) -> bool {
    byte.is_ascii_alphabetic()
}

/// Whether bytes are letters, digits and colons, and begin with a letter; or no letters at all, as binary selectors are.
pub(crate) fn is_spelled(bytes: &[u8]) -> bool {
    let Some(first) = bytes.first() else {
        return false;
    };
    if is_letter(*first) {
        return bytes
            .iter()
            .all(|b| b.is_ascii_alphanumeric() || *b == b':');
    }
    bytes.len() < 3
        && bytes.iter().all(|b| b.is_ascii_punctuation() && *b != b'#' && *b != b'\'' && *b != b'$')
}

fn put_symbol(out: &mut String, bytes: &[u8]) -> Result<(), Stop> {
    if !is_spelled(bytes) {
        return Err(Stop::NoSource);
    }
    out.push('#')?;
    put_text(out, bytes)
}

fn is_symbol(view: &View, rec: &Rec) -> bool {
    match view.own_class_name(rec.class) {
        Some(name) => name.bytes() == b"Symbol".as_slice(),
        None => false,
    }
}

fn put_bytes(out: &mut String, view: &View, rec: &Rec, bytes: &[u8]) -> Result<(), Stop> {
    if rec.class == Name::LARGE_POSITIVE_INTEGER || rec.class == Name::LARGE_NEGATIVE_INTEGER {
        return Ok(put_large(out, bytes, rec.class)?);
    }
    if rec.class == Name::STRING {
        return put_string(out, bytes);
    }
    if is_symbol(view, rec) {
        return put_symbol(out, bytes);
    }
    Err(Stop::NoSource)
}

fn put_character(out: &mut String, code: Option<Value>) -> Result<(), Stop> {
    match code {
        Some(Value::Int(n)) if 32 <= n && n < 127 => {
            out.push('$')?;
            put_text(out, &[n as u8])
        }
        _ => Err(Stop::NoSource),
    }
}

/// The items of an array.
fn array_of<'v>(view: &'v View, name: Name) -> Option<&'v Values> {
    let rec = view.image().find(name)?;
    match &rec.body {
        Body::Pointers(values) if rec.class == Name::ARRAY => Some(values),
        _ => None,
    }
}

/// Puts the object that a literal is, which is no array.
fn put_object(out: &mut String, view: &View, name: Name) -> Result<(), Stop> {
    let rec = view.image().find(name).ok_or(Stop::NoSource)?;
    match &rec.body {
        Body::Bytes(octets) => put_bytes(out, view, rec, octets.bytes()),
        Body::Pointers(values) if rec.class == Name::CHARACTER => {
            put_character(out, item_of(values, 0))
        }
        Body::Pointers(_) | Body::Words(_) | Body::Method { .. } => Err(Stop::NoSource),
    }
}

/// Puts a value, in arrays up to a depth.
fn put_value(out: &mut String, view: &View, value: Value, depth: usize) -> Result<(), Stop> {
    let name = match value {
        Value::Int(n) => return Ok(write!(out, "{n}")?),
        Value::Ref(name) => name,
    };
    let Some(values) = array_of(view, name) else {
        return put_object(out, view, name);
    };
    if depth == 0 {
        return Err(Stop::NoSource);
    }
    let within = depth - 1;
    out.push_str(if depth == MOST_NESTED { "#(" } else { "(" })?;
    for i in 0..values.len() {
        if i > 0 {
            out.push(' ')?;
        }
        put_value(out, view, *values.item(i), within)?;
    }
    out.push(')')?;
    Ok(())
}

/// Puts a literal as it is written.
pub(crate) fn put_literal(out: &mut String, view: &View, value: Value) -> Result<(), Stop> {
    put_value(out, view, value, MOST_NESTED)
}
