// Numbers, values, words and bytes, as the parts of a line spell them: None where a part is nothing of the kind.
ghost use Rattle.std.specs.Prelude.{◌≡◌, ◌^◌, [], ◌∷◌, ℕ, Some, None, pos, min, true, option_map, if◌then◌else◌};
ghost use Rattle.std.specs.Char.{digit_value, is_ascii_digit};
ghost use Rattle.std.specs.List.{list_all};
ghost use Rattle.std.specs.Str.Parse.{digits_value};
ghost use Rattle.text_lines.specs.Parts as parts;
ghost use Rattle.text_lines.specs.Parts.{negative_of, signed_of, small_of, that_is, number_of};

use long_names::{Kind, Name, SMALL_INTEGERS, Value};

/// What a number is taken for that is as large or larger: it is above each name.
const LARGE: u64 = 4_294_967_296;

/// Whether these are digits.
fn are_digits(bytes: &[u8]) -> bool
    ensures { result ≡ list_all is_ascii_digit bytes.now }
{
    bytes.iter().all(|b| b.is_ascii_digit())
}

/// Whether a part is plain decimal: digits, and the first of several isn't 0.
fn is_plain(part: &[u8]) -> bool
    ensures { result ≡ parts.is_plain part.now }
{
    match part.split_first() {
        Some((first, others)) => are_digits(part) && (*first != b'0' || others.is_empty()),
        None => false,
    }
}

/// The number that digits write, or LARGE where that is less.
fn capped(digits: &[u8]) -> u64
    requires { list_all is_ascii_digit digits.now ≡ true }
    ensures { result ≡ min (digits_value 10 digits.now) (2 ^ 32) }
{
    let mut number = 0;
    for digit in digits {
        number = (number * 10 + u64::from(digit.saturating_sub(b'0'))).min(LARGE);
    }
    number
}

/// The number that a part is, or LARGE where that is less.
pub fn number_in(part: &[u8]) -> Option<u64>
    ensures { result ≡ option_map (λ n. min n (2 ^ 32)) (number_of part.now) }
{
    if is_plain(part) {
        Some(capped(part))
    } else {
        None
    }
}

/// The number of 32 bits that a part is.
pub fn long_in(part: &[u8]) -> Option<u32>
    ensures { result ≡ parts.long_of part.now }
{
    let number = number_in(part)?;
    if number < LARGE {
        Some(number as u32)
    } else {
        None
    }
}

/// The name that a part is.
pub fn name_in(part: &[u8]) -> Option<Name>
    ensures { result ≡ parts.name_of part.now }
{
    Name::new(long_in(part)?)
}

/// A SmallInteger that isn't below 0.
fn positive(number: u64) -> Option<i16>
    ensures { (n : ℕ) → number ≡ min n (2 ^ 32) → result ≡ that_is parts.is_small (Some (pos n)) }
{
    if number < u64::from(SMALL_INTEGERS) {
        Some(number as i16)
    } else {
        None
    }
}

/// A SmallInteger below 0.
fn negative(number: u64) -> Option<i16>
    ensures { (n : ℕ) → number ≡ min n (2 ^ 32) → result ≡ that_is parts.is_small (negative_of n) }
{
    if number == 0 || number > u64::from(SMALL_INTEGERS) {
        return None;
    }
    Some(-1 - ((number - 1) as i16))
}

/// The SmallInteger that a sign and digits are.
fn signed_in(part: &[u8]) -> Option<i16>
    ensures { result ≡ that_is parts.is_small (signed_of part.now) }
{
    match part.split_first() {
        Some((b'-', digits)) => negative(number_in(digits)?),
        _ => positive(number_in(part)?),
    }
}

/// The SmallInteger that a part is.
pub fn small_in(part: &[u8]) -> Option<i16>
    ensures { result ≡ small_of part.now }
{
    let (last, front) = part.split_last()?;
    if *last == b'i' {
        signed_in(front)
    } else {
        None
    }
}

/// The value that a part is: a SmallInteger, or a name.
pub fn value_in(part: &[u8]) -> Option<Value>
    ensures { result ≡ parts.value_of part.now }
{
    if let Some(number) = small_in(part) {
        return Some(Value::Int(number));
    }
    let name = name_in(part)?;
    Some(Value::Ref(name))
}

/// The hexadecimal digit that a byte is, in lower case.
fn hex_digit(byte: u8) -> Option<u8>
    ensures { result ≡ (if parts.is_hex byte then Some (digit_value byte) else None) }
{
    match byte {
        b'0'..=b'9' => Some(byte - b'0'),
        b'a'..=b'f' => Some(byte - b'a' + 10),
        _ => None,
    }
}

/// The byte that two digits are.
fn byte_of(high: u8, low: u8) -> Option<u8>
    ensures { result ≡ parts.byte_of (high ∷ low ∷ []) }
{
    Some(16 * hex_digit(high)? + hex_digit(low)?)
}

/// The byte that a part is.
pub fn byte_in(part: &[u8]) -> Option<u8>
    ensures { result ≡ parts.byte_of part.now }
{
    if part.len() != 2 {
        return None;
    }
    byte_of(part[0], part[1])
}

/// The word that a part is.
pub fn word_in(part: &[u8]) -> Option<u16>
    ensures { result ≡ parts.word_of part.now }
{
    if part.len() != 4 {
        return None;
    }
    let high = byte_of(part[0], part[1])?;
    let low = byte_of(part[2], part[3])?;
    Some(256 * u16::from(high) + u16::from(low))
}

/// The kind that a part is.
pub fn kind_in(part: &[u8]) -> Option<Kind>
    ensures { result ≡ parts.kind_of part.now }
{
    if part == b"pointers".as_slice() {
        Some(Kind::Pointers)
    } else if part == b"words".as_slice() {
        Some(Kind::Words)
    } else if part == b"bytes".as_slice() {
        Some(Kind::Bytes)
    } else if part == b"method".as_slice() {
        Some(Kind::Method)
    } else {
        None
    }
}
