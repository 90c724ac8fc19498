// The piece that a text begins with: its kind and its length, or why no rule takes it.
ghost use Rattle.std.specs.Prelude.{◌≡◌, ◌<◌, ◌≤◌, ◌+◌, length};
ghost use Rattle.st80_syntax.specs.Pieces as spec;
ghost use Rattle.st80_syntax.specs.Pieces.{Fits, IsWithin};

use crate::bytes::{Class, Start, byte_at, is_special, quoted, run, start_of};
use crate::token::{Fault, Kind};

/// A name, or a keyword where a colon stands behind it that begins no `:=`.
#[tactic(auto, unfolding(crate::specs::Pieces::word, crate::specs::Pieces::head_run))]
fn word_at(text: &[u8]) -> (Kind, usize)
    requires { 0 < length text.now }
    ensures is { result ≡ spec.word text.now }
    ensures within { IsWithin text.now result.1 }
{
    let len = 1 + run(Class::Word, &text[1..]);
    if byte_at(text, len) == 58 {
        if byte_at(text, len + 1) == 61 {
            return (Kind::Name, len);
        }
        return (Kind::Keyword, len + 1);
    }
    (Kind::Name, len)
}

/// Whether a digit stands at a place.
#[tactic(auto, unfolding(crate::specs::Pieces::has_digit, crate::specs::Bytes::is_digit))]
fn has_digit(text: &[u8], at: usize) -> bool
    ensures { result ≡ spec.has_digit text.now at }
{
    let b = byte_at(text, at);
    48 <= b && b <= 57
}

/// A number whose radix has so many digits; an `r` stands behind it.
#[tactic(auto, unfolding(crate::specs::Pieces::radix))]
fn radix_at(text: &[u8], len: usize) -> Result<(Kind, usize), Fault>
    requires { len < length text.now }
    ensures is { result ≡ spec.radix text.now len }
    ensures within { Fits text.now result }
{
    let figures = run(Class::Figure, &text[len + 1..]);
    if figures == 0 {
        return Err(Fault::Radix);
    }
    Ok((Kind::Integer, len + 1 + figures))
}

/// A number. One with a point and a digit, or with an exponent, is refused.
#[tactic(auto, unfolding(crate::specs::Pieces::number, crate::specs::Pieces::head_run))]
fn number_at(text: &[u8]) -> Result<(Kind, usize), Fault>
    requires { 0 < length text.now }
    ensures is { result ≡ spec.number text.now }
    ensures within { Fits text.now result }
{
    let len = 1 + run(Class::Digit, &text[1..]);
    let next = byte_at(text, len);
    if next == 114 {
        return radix_at(text, len);
    }
    if next == 101 {
        return Err(Fault::Float);
    }
    if next == 46 && has_digit(text, len + 1) {
        return Err(Fault::Float);
    }
    Ok((Kind::Integer, len))
}

/// How many special characters a selector has that begins at a place, of which one stands there: two, where another one stands behind it that is
/// no `-`.
#[tactic(auto, unfolding(crate::specs::Pieces::selector_len))]
fn selector_len(text: &[u8], at: usize) -> usize
    requires { at < length text.now }
    ensures is { result ≡ spec.selector_len text.now at }
    ensures within { at + result ≤ length text.now }
    ensures some { 0 < result }
{
    if at + 1 >= text.len() {
        return 1;
    }
    let next = byte_at(text, at + 1);
    if next != 45 && is_special(next) { 2 } else { 1 }
}

/// A binary selector, or a minus by itself.
#[tactic(auto, unfolding(crate::specs::Pieces::selector))]
fn selector_at(text: &[u8]) -> (Kind, usize)
    requires { 0 < length text.now }
    ensures is { result ≡ spec.selector text.now }
    ensures within { IsWithin text.now result.1 }
{
    let len = selector_len(text, 0);
    if len == 1 && byte_at(text, 0) == 45 {
        (Kind::Minus, len)
    } else {
        (Kind::Binary, len)
    }
}

/// A symbol, or what opens an array.
#[tactic(auto, unfolding(crate::specs::Pieces::symbol))]
fn symbol_at(text: &[u8]) -> Result<(Kind, usize), Fault>
    requires { 0 < length text.now }
    ensures is { result ≡ spec.symbol text.now }
    ensures within { Fits text.now result }
{
    if text.len() < 2 {
        return Err(Fault::Symbol);
    }
    match start_of(byte_at(text, 1)) {
        Start::Letter => Ok((Kind::Symbol, 1 + run(Class::Path, &text[1..]))),
        Start::Special => Ok((Kind::Symbol, 1 + selector_len(text, 1))),
        Start::Single(Kind::Open) => Ok((Kind::OpenArray, 2)),
        Start::Single(Kind::Bar) => Ok((Kind::Symbol, 2)),
        _ => Err(Fault::Symbol),
    }
}

/// A string.
#[tactic(auto, unfolding(crate::specs::Pieces::string))]
fn text_at(text: &[u8]) -> Result<(Kind, usize), Fault>
    requires { 0 < length text.now }
    ensures is { result ≡ spec.string text.now }
    ensures within { Fits text.now result }
{
    match quoted(&text[1..]) {
        Some(len) => Ok((Kind::Text, 1 + len)),
        None => Err(Fault::Text),
    }
}

/// A remark, up to the next `"`.
#[tactic(auto, unfolding(crate::specs::Pieces::remark))]
fn remark_at(text: &[u8]) -> Result<(Kind, usize), Fault>
    requires { 0 < length text.now }
    ensures is { result ≡ spec.remark text.now }
    ensures within { Fits text.now result }
{
    let len = run(Class::Remark, &text[1..]);
    if len + 1 < text.len() {
        Ok((Kind::Space, len + 2))
    } else {
        Err(Fault::Remark)
    }
}

/// A character.
#[tactic(auto, unfolding(crate::specs::Pieces::character))]
fn character_at(text: &[u8]) -> Result<(Kind, usize), Fault>
    ensures is { result ≡ spec.character text.now }
    ensures within { Fits text.now result }
{
    if 1 < text.len() {
        Ok((Kind::Character, 2))
    } else {
        Err(Fault::Character)
    }
}

/// A colon, or `:=`.
#[tactic(auto, unfolding(crate::specs::Pieces::colon))]
fn colon_at(text: &[u8]) -> (Kind, usize)
    requires { 0 < length text.now }
    ensures is { result ≡ spec.colon text.now }
    ensures within { IsWithin text.now result.1 }
{
    if byte_at(text, 1) == 61 {
        (Kind::Assign, 2)
    } else {
        (Kind::Colon, 1)
    }
}

/// The piece that a text begins with, and its length.
#[tactic(auto, unfolding(crate::specs::Pieces::piece, crate::specs::Pieces::head_run))]
pub fn piece_at(text: &[u8]) -> Result<(Kind, usize), Fault>
    requires { 0 < length text.now }
    ensures is { result ≡ spec.piece text.now }
    ensures within { Fits text.now result }
{
    match start_of(byte_at(text, 0)) {
        Start::Blank => Ok((Kind::Space, 1 + run(Class::Blank, &text[1..]))),
        Start::Remark => remark_at(text),
        Start::Letter => Ok(word_at(text)),
        Start::Digit => number_at(text),
        Start::Special => Ok(selector_at(text)),
        Start::Dollar => character_at(text),
        Start::Quote => text_at(text),
        Start::Hash => symbol_at(text),
        Start::Colon => Ok(colon_at(text)),
        Start::Single(kind) => Ok((kind, 1)),
        Start::Foreign => Err(Fault::Foreign),
    }
}
