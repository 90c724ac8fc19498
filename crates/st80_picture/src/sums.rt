//! The two sums of a PNG file, bit by bit.

ghost use Rattle.std.specs.Prelude.{◌≡◌, ◌<◌};
ghost use Rattle.st80_picture.specs.Sums.{crc_bit, crc_half, crc_byte, adler_sums};
ghost use Rattle.st80_picture.specs.Sums.{crc32 as check_of, adler32 as adler_of};

fn crc_bit(register: u32) -> u32
    ensures { result ≡ crc_bit register }
{
    if register % 2 == 1 {
        (register / 2) ^ 0xedb8_8320
    } else {
        register / 2
    }
}

#[tactic(auto, unfolding(crate::specs::Sums::crc_half))]
fn crc_half(register: u32) -> u32
    ensures { result ≡ crc_half register }
{
    crc_bit(crc_bit(crc_bit(crc_bit(register))))
}

#[tactic(auto, unfolding(crate::specs::Sums::crc_byte))]
fn crc_byte(register: u32, byte: u8) -> u32
    ensures { result ≡ crc_byte register byte }
{
    crc_half(crc_half(register ^ u32::from(byte)))
}

/// The cyclic redundancy check of a PNG's chunk: of its kind and its content.
#[tactic(auto, unfolding(crate::specs::Sums::crc32))]
pub fn crc32(bytes: &[u8]) -> u32
    ensures { result ≡ check_of bytes.now }
{
    let mut register = 0xffff_ffff;
    for byte in bytes {
        register = crc_byte(register, *byte);
    }
    register ^ 0xffff_ffff
}

/// The halves of the sum of Adler.
#[derive(Clone, Copy)]
struct Adler {
    low: u32,
    high: u32,
}

#[tactic(auto, unfolding(crate::specs::Sums::adler_sums))]
fn adler_sums(bytes: &[u8]) -> Adler
    ensures sums { result ≡ adler_sums bytes.now }
    ensures low { result.low < 65521 }
    ensures high { result.high < 65521 }
{
    let mut sums = Adler { low: 1, high: 0 };
    for byte in bytes {
        let low = (sums.low + u32::from(*byte)) % 65521;
        sums = Adler {
            low,
            high: (sums.high + low) % 65521,
        };
    }
    sums
}

/// The sum of Adler of a zlib stream: of the bytes before they are compressed.
#[tactic(auto, unfolding(crate::specs::Sums::adler32))]
pub fn adler32(bytes: &[u8]) -> u32
    ensures { result ≡ adler_of bytes.now }
{
    let sums = adler_sums(bytes);
    sums.high * 65536 + sums.low
}
