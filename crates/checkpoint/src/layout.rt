// Where the gates of a vault stand, and the blocks of its images.
ghost use Rattle.std.specs.Prelude.{◌≡◌, ◌≤◌, ◌<◌, ◌+◌, ◌^◌, length};
ghost use Rattle.checkpoint.specs.Layout.{block_place, gate_of, is_bad, is_open, number_at, point_of};

use crate::point::Point;
use byteorder::{BigEndian, ByteOrder};

/// How far the second gate stands behind the first.
pub(crate) const GATE_GAP: u64 = 512;

/// Where in a gate its serial and its length stand. Its byte is the first.
pub(crate) const SERIAL_AT: usize = 8;

pub(crate) const LENGTH_AT: usize = 16;

/// Where a gate ends.
pub(crate) const GATE_BYTES: usize = 24;

/// Where the areas begin.
pub(crate) const AREAS_AT: u64 = 4096;

/// The bytes of a block.
pub(crate) const BLOCK: usize = 65_536;

/// Each serial is below this.
pub(crate) const SERIAL_END: u64 = 1 << 62;

/// The least and the greatest length of an image.
pub(crate) const LEAST_LENGTH: u64 = 36;

pub(crate) const MOST_LENGTH: u64 = 1 << 42;

// The number in the 8 bytes from a place on, the highest byte first.
fn number_at(bytes: &[u8], at: usize) -> u64
    requires { at + 8 ≤ length bytes.now }
    ensures { result ≡ number_at bytes.now at }
{
    BigEndian::read_u64(&bytes[at..])
}

/// Where a block of an area stands. The first area has the blocks of even serials.
pub(crate) fn block_place(parity: u64, block: u64) -> u64
    requires parity { parity < 2 }
    requires block { block < 2 ^ 32 }
    ensures { result ≡ block_place parity block }
{
    AREAS_AT + (2 * block + parity) * BLOCK as u64
}

/// What a gate says.
#[derive(Clone, Copy)]
pub(crate) struct Gate {
    pub(crate) byte: u8,
    pub(crate) serial: u64,
    pub(crate) len: u64,
}

impl Gate {
    // The gate that these bytes are.
    pub(crate) fn new(bytes: &[u8]) -> Gate
        requires { GATE_BYTES ≤ length bytes.now }
        ensures { result ≡ gate_of bytes.now }
    {
        Gate {
            byte: bytes[0],
            serial: number_at(bytes, SERIAL_AT),
            len: number_at(bytes, LENGTH_AT),
        }
    }

    pub(crate) fn is_open(&self) -> bool
        ensures { result ≡ is_open self.now }
    {
        self.byte == 1 && self.serial != 0
    }

    // Whether it is open, and what it says cannot be so. It is the gate of the serials of this parity.
    pub(crate) fn is_bad(&self, parity: u64) -> bool
        ensures { result ≡ is_bad parity self.now }
    {
        self.is_open()
            && (self.serial >= SERIAL_END
                || self.serial % 2 != parity
                || self.len < LEAST_LENGTH
                || self.len > MOST_LENGTH)
    }

    // The point that it says, where it is open.
    pub(crate) fn point(&self) -> Option<Point>
        ensures { result ≡ point_of self.now }
    {
        if self.is_open() {
            Some(Point {
                serial: self.serial,
                len: self.len,
            })
        } else {
            None
        }
    }
}
