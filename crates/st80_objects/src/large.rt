// Large integers in decimal.
use long_names::Name;
use std::alloc::{AllocError, Global};

/// The most bytes that a large integer has here.
const MOST_BYTES: usize = 16;

/// Divides a number of bytes, the lowest first, by ten, and answers what is left.
fn divide_by_ten(bytes: &mut [u8; MOST_BYTES]) -> u8 {
    let mut rest = 0u8;
    for i in 0..MOST_BYTES {
        let place = MOST_BYTES - 1 - i;
        let part = u16::from(rest % 10) * 256 + u16::from(bytes[place]);
        bytes[place] = (part / 10) as u8;
        rest = (part % 10) as u8;
    }
    rest
}

fn is_zero(bytes: &[u8; MOST_BYTES]) -> bool {
    bytes.iter().all(|b| *b == 0)
}

/// The bytes of a large integer, lowest first, in a row of their own.
fn row_of(bytes: &[u8]) -> [u8; MOST_BYTES] {
    let mut row = [0; MOST_BYTES];
    for (i, byte) in bytes.iter().enumerate() {
        if i < MOST_BYTES {
            row[i] = *byte;
        }
    }
    row
}

/// The digits of a number, the lowest first.
fn digits_of(alloc: Global, bytes: &[u8]) -> Result<Vec<u8>, AllocError> {
    let mut row = row_of(bytes);
    let mut digits = Vec::new(alloc);
    for _ in 0..40 {
        let digit = divide_by_ten(&mut row);
        digits.push(b'0' + digit % 10)?;
        if is_zero(&row) {
            break;
        }
    }
    Ok(digits)
}

/// Puts the number that a large integer is, and of one that has too many bytes how many.
pub fn put_large(out: &mut String, bytes: &[u8], class: Name) -> Result<(), AllocError> {
    if bytes.len() > MOST_BYTES {
        let count = bytes.len();
        return write!(out, "a number of {count} bytes");
    }
    if class == Name::LARGE_NEGATIVE_INTEGER {
        out.push('-')?;
    }
    let digits = digits_of(*out.allocator(), bytes)?;
    for digit in digits.iter().rev() {
        out.push(char::from(*digit))?;
    }
    Ok(())
}
