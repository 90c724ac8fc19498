//! The break of an image in words.
use image_format::{HEAD_LEN, STATE_LEN, STATE_VERSION, decode_rec, read_head};
use long_names::Name;
use st80_objects::{put_decimal, rule_sentence};
use st80_view::{Finding, View};
use std::alloc::{AllocError, Global};

/// How many bytes the field has that breaks a rule.
fn field_len(rule: u8) -> usize {
    match rule {
        5 | 7 => 2,
        8 => 1,
        _ => 4,
    }
}

/// Puts bytes as hexadecimal digits.
fn put_hexadecimal(out: &mut String, bytes: &[u8]) -> Result<(), AllocError> {
    for (i, byte) in bytes.iter().enumerate() {
        if i > 0 {
            out.push(' ')?;
        }
        write!(out, "{byte:02x}")?;
    }
    Ok(())
}

/// The number that bytes are, the highest first.
fn number_of(bytes: &[u8]) -> u64 {
    let mut number = 0u64;
    for byte in bytes {
        number = number.wrapping_mul(256).wrapping_add(u64::from(*byte));
    }
    number
}

/// Puts what stands at the place of a field.
fn put_field(out: &mut String, bytes: &[u8], rule: u8, place: u64) -> Result<(), AllocError> {
    let Ok(from) = usize::try_from(place) else {
        return Ok(());
    };
    let to = from.saturating_add(field_len(rule)).min(bytes.len());
    let field = bytes.get(from..to).unwrap_or(b"");
    write!(out, "At offset {place} stands ")?;
    put_hexadecimal(out, field)?;
    let number = number_of(field);
    write!(out, ", the number {number}.\n")
}

/// Puts where the file ends, and where it should.
fn put_end(out: &mut String, bytes: &[u8], place: u64) -> Result<(), AllocError> {
    let len = bytes.len() as u64;
    if place >= len {
        out.push_str("The file ends after ")?;
        put_decimal(out, len)?;
        return out.push_str(" bytes, within its head or a record: it is cut.\n");
    }
    out.push_str("Behind the last record, at offset ")?;
    put_decimal(out, place)?;
    out.push_str(", stand ")?;
    put_decimal(out, len - place)?;
    out.push_str(" more bytes.\n")
}

/// The number from 1 and the name of the record in which an offset lies, where those before it can be read.
fn record_at(alloc: Global, bytes: &[u8], place: usize) -> Option<(u32, u32)> {
    let head = read_head(bytes).ok()?;
    let mut at = if head.opening.version == STATE_VERSION {
        HEAD_LEN + STATE_LEN
    } else {
        HEAD_LEN
    };
    if place < at {
        return None;
    }
    for number in 0..head.opening.objects {
        let rest = bytes.get(at..)?;
        let len = match decode_rec(alloc, rest) {
            Ok((_, len)) => len,
            Err(_) => usize::MAX,
        };
        if place < at.saturating_add(len) {
            return Some((number.saturating_add(1), word_at(rest)));
        }
        at = at.saturating_add(len);
    }
    None
}

/// The word that bytes begin with.
fn word_at(bytes: &[u8]) -> u32 {
    match bytes {
        [a, b, c, d, ..] => u32::from_be_bytes([*a, *b, *c, *d]),
        _ => 0,
    }
}

/// Puts whose record an offset lies in.
fn put_record(alloc: Global, out: &mut String, bytes: &[u8], place: u64) -> Result<(), AllocError> {
    let Ok(offset) = usize::try_from(place) else {
        return Ok(());
    };
    match record_at(alloc, bytes, offset) {
        Some((number, name)) => write!(out, "It is in record {number}, whose name is {name}.\n"),
        None => Ok(()),
    }
}

/// Puts what breaks a rule of the whole, at a name.
fn put_whole(
    alloc: Global,
    out: &mut String,
    bytes: &[u8],
    rule: u8,
    place: u64,
) -> Result<(), AllocError> {
    match View::open(alloc, bytes) {
        Ok(view) => put_found(alloc, out, &view, rule, place),
        Err(_) => write!(out, "It is at object {place}.\n"),
    }
}

fn put_found(
    alloc: Global,
    out: &mut String,
    view: &View,
    rule: u8,
    place: u64,
) -> Result<(), AllocError> {
    let findings = view.findings(alloc)?;
    for finding in findings.iter() {
        if finding.rule() == rule && finding.place() == place {
            return put_finding(out, view, finding);
        }
    }
    write!(out, "It is at object {place}.\n")
}

/// Puts one place that breaks a rule of the whole.
fn put_finding(out: &mut String, view: &View, finding: &Finding) -> Result<(), AllocError> {
    match finding {
        Finding::Lost { holder, name, .. } => {
            put_number(out, view, *holder)?;
            let name = name.get();
            write!(out, " holds {name}, which is no object.\n")
        }
        Finding::Miscounted {
            name,
            stated,
            counted,
        } => {
            put_number(out, view, *name)?;
            write!(
                out,
                " states the count {stated}, and {counted} words hold it.\n"
            )
        }
        Finding::Unheld { name } => {
            put_number(out, view, *name)?;
            out.push_str(" is held by nothing.\n")
        }
        Finding::Missing { name } => {
            let name = name.get();
            write!(out, "Object {name} isn't there.\n")
        }
        Finding::StateLost { name, .. } => {
            write!(
                out,
                "The machine's state names object {name}, which isn't there.\n"
            )
        }
    }
}

/// Puts the number of an object, and what it is.
fn put_number(out: &mut String, view: &View, name: Name) -> Result<(), AllocError> {
    let number = name.get();
    write!(out, "Object {number} (")?;
    view.put_object(out, name)?;
    out.push(')')
}

/// Puts the rule that an image breaks, in a sentence, and what stood at its place.
pub fn put_image_break(
    alloc: Global,
    out: &mut String,
    bytes: &[u8],
    rule: u8,
    place: u64,
) -> Result<(), AllocError> {
    write!(out, "Rule {rule}: ")?;
    out.push_str(rule_sentence(rule))?;
    out.push_str(".\n")?;
    match rule {
        9 => put_end(out, bytes, place),
        0..=8 | 13 => {
            put_field(out, bytes, rule, place)?;
            put_record(alloc, out, bytes, place)
        }
        _ => put_whole(alloc, out, bytes, rule, place),
    }
}
