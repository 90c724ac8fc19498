// What the parts of a line behind the kind are.
ghost use Rattle.std.specs.Prelude.{◌≡◌, ◌∷◌, List, ℕ, Some, None, IfOk, IfSome, IfNone};
ghost use Rattle.text_lines.specs.Grammar.{body_of, code_of, each_of, method_of};
ghost use Rattle.text_lines.specs.Inside.{with_code};
ghost use Rattle.text_lines.specs.Parts.{parts_behind};
ghost use Rattle.text_lines.specs.Parts as read;

use crate::numbers::{byte_in, small_in, value_in, word_in};
use crate::parts::Parts;
use long_names::{Body, Kind, MOST_FIELDS, Octets, Values, Words16};
use std::alloc::{AllocError, Global};

/// The values that the parts are.
fn all_values(alloc: Global, mut parts: Parts<'_>) -> Result<Option<Values>, AllocError>
    ensures { IfOk result (λ values. values ≡ each_of read.value_of (parts_behind parts.entry.tail.now)) }
{
    let mut values = Values::new(alloc);
    'each: while let Some(part) = parts.next() {
        match value_in(part) {
            Some(value) => values.push(value)?,
            None => return Ok(None),
        }
    }
    Ok(Some(values))
}

/// The words that the parts are.
fn all_words(alloc: Global, mut parts: Parts<'_>) -> Result<Option<Words16>, AllocError>
    ensures { IfOk result (λ words. words ≡ each_of read.word_of (parts_behind parts.entry.tail.now)) }
{
    let mut words = Words16::new(alloc);
    'each: while let Some(part) = parts.next() {
        match word_in(part) {
            Some(word) => words.push(word)?,
            None => return Ok(None),
        }
    }
    Ok(Some(words))
}

/// The bytes that the parts are.
fn all_bytes(alloc: Global, mut parts: Parts<'_>) -> Result<Option<Octets>, AllocError>
    ensures { IfOk result (λ bytes. bytes ≡ each_of read.byte_of (parts_behind parts.entry.tail.now)) }
{
    let mut bytes = Octets::new(alloc);
    'each: while let Some(part) = parts.next() {
        match byte_in(part) {
            Some(byte) => bytes.push(byte)?,
            None => return Ok(None),
        }
    }
    Ok(Some(bytes))
}

/// An object of the values that the parts are, if it may have so many.
fn values_in(alloc: Global, parts: Parts<'_>) -> Result<Option<Body>, AllocError>
    ensures { IfOk result (λ body. body ≡ body_of Kind.Pointers (parts_behind parts.entry.tail.now)) }
{
    match all_values(alloc, parts)? {
        Some(values) if values.len() <= MOST_FIELDS as usize => Ok(Some(Body::Pointers(values))),
        _ => Ok(None),
    }
}

/// An object of the words that the parts are, if it may have so many.
fn words_in(alloc: Global, parts: Parts<'_>) -> Result<Option<Body>, AllocError>
    ensures { IfOk result (λ body. body ≡ body_of Kind.Words (parts_behind parts.entry.tail.now)) }
{
    match all_words(alloc, parts)? {
        Some(words) if words.len() <= MOST_FIELDS as usize => Ok(Some(Body::Words(words))),
        _ => Ok(None),
    }
}

/// An object of the bytes that the parts are, if it may have so many.
fn bytes_in(alloc: Global, parts: Parts<'_>) -> Result<Option<Body>, AllocError>
    ensures { IfOk result (λ body. body ≡ body_of Kind.Bytes (parts_behind parts.entry.tail.now)) }
{
    match all_bytes(alloc, parts)? {
        Some(bytes) if bytes.len() <= MOST_FIELDS as usize => Ok(Some(Body::Bytes(bytes))),
        _ => Ok(None),
    }
}

/// A method's code, behind these literals.
fn code_behind(
    alloc: Global,
    literals: Values,
    parts: Parts<'_>,
) -> Result<Option<(Values, Octets)>, AllocError>
    ensures { IfOk result (λ found. found ≡ with_code literals (each_of read.byte_of (parts_behind parts.entry.tail.now))) }
{
    match all_bytes(alloc, parts)? {
        Some(code) => Ok(Some((literals, code))),
        None => Ok(None),
    }
}

/// The literals of a method and its code, which the parts are.
fn code_in(alloc: Global, mut parts: Parts<'_>) -> Result<Option<(Values, Octets)>, AllocError>
    ensures { IfOk result (λ found. found ≡ code_of (parts_behind parts.entry.tail.now)) }
{
    let mut literals = Values::new(alloc);
    'each: while let Some(part) = parts.next() {
        if part == b"code".as_slice() {
            return code_behind(alloc, literals, parts);
        }
        match value_in(part) {
            Some(literal) => literals.push(literal)?,
            None => return Ok(None),
        }
    }
    Ok(None)
}

/// The header that comes first of the parts.
fn header_in(parts: &mut Parts<'_>) -> Option<i16>
    ensures some { IfSome result (λ z. (part : List ℕ) × (parts_behind parts.old.tail.now ≡ part ∷ parts_behind parts.new.tail.now) × (read.small_of part ≡ Some z)) }
    ensures none { IfNone result (method_of (parts_behind parts.old.tail.now) ≡ None) }
{
    let part = parts.next()?;
    small_in(part)
}

/// The method that the parts are.
fn method_in(alloc: Global, mut parts: Parts<'_>) -> Result<Option<Body>, AllocError>
    ensures { IfOk result (λ body. body ≡ method_of (parts_behind parts.entry.tail.now)) }
{
    let Some(header) = header_in(&mut parts) else {
        return Ok(None);
    };
    match code_in(alloc, parts)? {
        Some((literals, code)) => Ok(Some(Body::Method {
            header,
            literals,
            code,
        })),
        None => Ok(None),
    }
}

/// The body of this kind that the parts are.
pub(crate) fn body_in(
    alloc: Global,
    kind: Kind,
    parts: Parts<'_>,
) -> Result<Option<Body>, AllocError>
    ensures { IfOk result (λ body. body ≡ body_of kind (parts_behind parts.entry.tail.now)) }
{
    match kind {
        Kind::Pointers => values_in(alloc, parts),
        Kind::Words => words_in(alloc, parts),
        Kind::Bytes => bytes_in(alloc, parts),
        Kind::Method => method_in(alloc, parts),
    }
}
