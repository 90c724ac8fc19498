// What characters begin, and in what they go on.
ghost use Rattle.std.specs.Prelude.{◌≡◌, ◌<◌, ◌≤◌, false, length, slice_index, IfSome};
ghost use Rattle.st80_syntax.specs.Bytes as spec;
ghost use Rattle.st80_syntax.specs.Bytes.{run_of};

use crate::token::Kind;

/// What a run of characters is of.
#[derive(Clone, Copy, Debug, PartialEq, Eq)]
pub enum Class {
    Blank,
    /// All but `"`.
    Remark,
    /// Letters and digits.
    Word,
    Digit,
    /// Digits and capital letters.
    Figure,
    /// Letters, digits and colons.
    Path,
}

/// What begins with a character.
#[derive(Clone, Copy, Debug, PartialEq, Eq)]
pub enum Start {
    Blank,
    Remark,
    Letter,
    Digit,
    Special,
    Dollar,
    Quote,
    Hash,
    Colon,
    /// A token of one character.
    Single(Kind),
    Foreign,
}

#[tactic(auto, unfolding(crate::specs::Bytes::is_blank))]
fn is_blank(b: u8) -> bool
    ensures { result ≡ spec.is_blank b }
{
    b == 32 || (9 <= b && b <= 13)
}

#[tactic(auto, unfolding(crate::specs::Bytes::is_digit))]
fn is_digit(b: u8) -> bool
    ensures { result ≡ spec.is_digit b }
{
    48 <= b && b <= 57
}

#[tactic(auto, unfolding(crate::specs::Bytes::is_capital))]
fn is_capital(b: u8) -> bool
    ensures { result ≡ spec.is_capital b }
{
    65 <= b && b <= 90
}

#[tactic(auto, unfolding(crate::specs::Bytes::is_letter))]
fn is_letter(b: u8) -> bool
    ensures { result ≡ spec.is_letter b }
{
    is_capital(b) || (97 <= b && b <= 122)
}

/// Whether binary selectors are of this character: + - * / \ ~ < > = @ % & ? ! and the comma.
#[tactic(auto, unfolding(crate::specs::Bytes::is_special))]
pub(crate) fn is_special(b: u8) -> bool
    ensures { result ≡ spec.is_special b }
{
    is_high_special(b) || b == 33 || b == 37 || b == 38 || (42 <= b && b <= 45) || b == 47
}

#[tactic(auto, unfolding(crate::specs::Bytes::is_high_special))]
fn is_high_special(b: u8) -> bool
    ensures { result ≡ spec.is_high_special b }
{
    (60 <= b && b <= 64) || b == 92 || b == 126
}

#[tactic(auto, unfolding(crate::specs::Bytes::is_in))]
fn is_in(class: Class, b: u8) -> bool
    ensures { result ≡ spec.is_in class b }
{
    match class {
        Class::Blank => is_blank(b),
        Class::Remark => b != 34,
        Class::Word => is_letter(b) || is_digit(b),
        Class::Digit => is_digit(b),
        Class::Figure => is_digit(b) || is_capital(b),
        Class::Path => is_letter(b) || is_digit(b) || b == 58,
    }
}

/// What begins with a character that is no letter, digit, blank or special one.
#[tactic(auto, unfolding(crate::specs::Bytes::mark_of))]
fn mark_of(b: u8) -> Start
    ensures { result ≡ spec.mark_of b }
{
    match b {
        34 => Start::Remark,
        35 => Start::Hash,
        36 => Start::Dollar,
        39 => Start::Quote,
        58 => Start::Colon,
        _ => Start::Foreign,
    }
}

/// The kind of a token of this one character.
#[tactic(auto, unfolding(crate::specs::Bytes::single_of))]
fn single_of(b: u8) -> Option<Kind>
    ensures { result ≡ spec.single_of b }
{
    match b {
        40 => Some(Kind::Open),
        41 => Some(Kind::Close),
        46 => Some(Kind::Period),
        59 => Some(Kind::Semicolon),
        91 => Some(Kind::OpenBlock),
        93 => Some(Kind::CloseBlock),
        94 => Some(Kind::Return),
        95 => Some(Kind::Assign),
        124 => Some(Kind::Bar),
        _ => None,
    }
}

/// What begins with a character.
#[tactic(auto, unfolding(crate::specs::Bytes::start_of))]
pub(crate) fn start_of(b: u8) -> Start
    ensures { result ≡ spec.start_of b }
{
    if is_blank(b) {
        Start::Blank
    } else if is_letter(b) {
        Start::Letter
    } else if is_digit(b) {
        Start::Digit
    } else if is_special(b) {
        Start::Special
    } else {
        match single_of(b) {
            Some(kind) => Start::Single(kind),
            None => mark_of(b),
        }
    }
}

/// The character at a place, or 0 behind the last.
pub(crate) fn byte_at(text: &[u8], at: usize) -> u8
    ensures is { result ≡ slice_index text.now at }
    ensures within { 0 < result → at < length text.now }
{
    if at < text.len() { text[at] } else { 0 }
}

/// How many characters of a class a text begins with.
pub(crate) fn run(class: Class, text: &[u8]) -> usize
    ensures is { result ≡ run_of class text.now }
    ensures within { result ≤ length text.now }
{
    let mut count = 0;
    'each: while count < text.len() {
        if !is_in(class, text[count]) {
            return count;
        }
        count += 1;
    }
    count
}

/// How many characters a string has behind its first quote, with the last quote. None where there is no last quote.
pub(crate) fn quoted(text: &[u8]) -> Option<usize>
    ensures is { result ≡ spec.quoted_by false text.now }
    ensures within { IfSome result (λ n. n ≤ length text.now) }
{
    let mut count = 0;
    let mut ended = false;
    'each: while count < text.len() {
        if text[count] == 39 {
            ended = !ended;
        } else if ended {
            return Some(count);
        }
        count += 1;
    }
    if ended { Some(count) } else { None }
}
