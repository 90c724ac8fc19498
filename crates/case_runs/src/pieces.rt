// Bytes as a case states them: pieces in hex, each as often as it says.
ghost use Rattle.std.specs.Prelude.{◌≡◌, ◌*◌, ◌+◌, length, OnOk};

use anyhow::{Context, Result, bail};
use std::alloc::{AllocError, Global};

/// The bytes of pieces with a space between two: `0aff` is two bytes, and `3*0aff` these two three times.
pub fn bytes_of(alloc: Global, text: &str) -> Result<Vec<u8>> {
    let mut bytes = Vec::new(alloc);
    for piece in text.split(' ') {
        append_piece(alloc, &mut bytes, piece)?;
    }
    Ok(bytes)
}

fn append_piece(alloc: Global, bytes: &mut Vec<u8>, piece: &str) -> Result<()> {
    let (count, piece) = match piece.split_once('*') {
        Some((count, piece)) => (count.parse().context("count")?, piece),
        None => (1, piece),
    };
    append_times(bytes, count, &hex::decode(alloc, piece)?)?;
    Ok(())
}

/// Puts the piece behind the bytes so many times.
pub fn append_times(bytes: &mut Vec<u8>, count: usize, piece: &[u8]) -> Result<(), AllocError>
    ensures length { OnOk result (length bytes.new.items ≡ length bytes.old.items + count * length piece.now) }
{
    for _ in 0..count {
        bytes.extend_from_slice(piece)?;
    }
    Ok(())
}

/// The number of bytes of the number that rises.
const NUMBER: usize = 4;

/// Puts the piece behind the bytes so many times. The number of four bytes at a place of it rises by the step from one to the next.
pub fn append_rising(
    bytes: &mut Vec<u8>,
    count: usize,
    at: usize,
    step: u32,
    piece: &[u8],
) -> Result<()> {
    if at > piece.len() || piece.len() - at < NUMBER {
        bail!("no number of four bytes");
    }
    let mut number = u32::from_be_bytes([piece[at], piece[at + 1], piece[at + 2], piece[at + 3]]);
    for _ in 0..count {
        bytes.extend_from_slice(&piece[..at])?;
        bytes.extend_from_slice(&number.to_be_bytes())?;
        bytes.extend_from_slice(&piece[at + NUMBER..])?;
        number = number.wrapping_add(step);
    }
    Ok(())
}
