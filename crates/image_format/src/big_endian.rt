// The one way in which numbers are written: the highest byte first.
ghost use Rattle.std.specs.Prelude.{◌≡◌};
ghost use Rattle.long_names.specs.Record.{two_bytes, four_bytes, eight_bytes};

use byteorder::{BigEndian, ByteOrder};

/// A number in two bytes.
#[tactic(auto, unfolding(long_names::specs::Record::two_bytes))]
pub fn bytes_of_u16(number: u16) -> [u8; 2]
    ensures { result ≡ two_bytes number }
{
    let mut bytes = [0; 2];
    BigEndian::write_u16(&mut bytes, number);
    bytes
}

/// A number in four bytes, as a long word.
#[tactic(auto, unfolding(long_names::specs::Record::four_bytes))]
pub fn bytes_of_u32(number: u32) -> [u8; 4]
    ensures { result ≡ four_bytes number }
{
    let mut bytes = [0; 4];
    BigEndian::write_u32(&mut bytes, number);
    bytes
}

/// A number in eight bytes.
#[tactic(auto, unfolding(long_names::specs::Record::eight_bytes))]
pub fn bytes_of_u64(number: u64) -> [u8; 8]
    ensures { result ≡ eight_bytes number }
{
    let mut bytes = [0; 8];
    BigEndian::write_u64(&mut bytes, number);
    bytes
}
