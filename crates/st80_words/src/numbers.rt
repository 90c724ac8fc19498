// Numbers on the line, and what is wrong with a word that is none.
ghost use Rattle.std.specs.Prelude.{◌≡◌, ◌↔◌, ◌≤◌, IfSome, IsNone, IsTrue, decimal, false};
ghost use Rattle.loom_words.specs.Words.{is_number};

use itoa::Buffer;
use std::alloc::{AllocError, Global};

/// The number from the least to the most that a word states, in decimal digits with no sign and no leading zero.
pub fn number_in(word: &str, least: u32, most: u32) -> Option<u32>
    ensures some { IfSome result (λ n. (word.now ≡ decimal n) × (least ≤ n) × (n ≤ most)) }
    ensures none { IsNone result → is_number least most word.now ≡ false }
{
    let Ok(number) = word.parse::<u32>() else {
        return None;
    };
    if least <= number && number <= most && is_decimal(word, number) {
        Some(number)
    } else {
        None
    }
}

fn is_decimal(word: &str, number: u32) -> bool
    ensures { IsTrue result ↔ (word.now ≡ decimal number) }
{
    let mut buffer = Buffer::new();
    buffer.format(number) == word
}

// How many of it a letter behind a number stands for; 1 for none that is known.
fn times(last: u8) -> u64 {
    match last {
        b'k' | b'K' => 1_024,
        b'm' | b'M' => 1_048_576,
        _ => 1,
    }
}

// Whether a byte is passed over in a number that was written for people.
fn is_passed(byte: u8) -> bool {
    matches!(byte, b',' | b'_' | b' ' | b'\'' | b'+')
}

/// The number that a word probably means: with commas, spaces or underlines between its digits, with zeros or a sign in front, with `k` or `M`
/// behind it, or beyond the limits. None where it has no digit or anything else.
pub fn meant_number(word: &str, least: u32, most: u32) -> Option<u32>
    requires { least ≤ most }
    ensures { IfSome result (λ n. (least ≤ n) × (n ≤ most)) }
{
    let mut value = 0_u64;
    let mut digits = 0_u32;
    let mut unit = 1;
    for &byte in word.as_bytes() {
        if byte.is_ascii_digit() {
            value = value
                .saturating_mul(10)
                .saturating_add((byte - b'0') as u64);
            digits = digits.saturating_add(1);
        } else if times(byte) > 1 && digits > 0 && unit == 1 {
            unit = times(byte);
        } else if !is_passed(byte) {
            return None;
        }
    }
    if digits == 0 {
        return None;
    }
    let value = value.saturating_mul(unit);
    Some(value.clamp(least as u64, most as u64) as u32)
}

/// What is wrong with a word that is no number from the least to the most, and what was probably meant. `part` is what it stands for.
pub fn number_fault(
    alloc: Global,
    part: &str,
    word: &str,
    least: u32,
    most: u32,
) -> Result<String, AllocError>
    requires { least ≤ most }
{
    let mut text = format!(in alloc;
        "error: {part} is {word:?}, and has to be a number from {least} to {most}, in digits alone\n"
    )?;
    if let Some(meant) = meant_number(word, least, most) {
        write!(text, "\n  tip: {meant} was probably meant\n")?;
    }
    Ok(text)
}
