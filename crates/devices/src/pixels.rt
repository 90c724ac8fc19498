// A row of pixels as bytes (portable bitmap, binary): eight pixels a byte, the leftmost highest, and white behind the last.
ghost use Rattle.std.specs.Prelude.{◌≡◌, ◌<◌, ◌≤◌, ◌+◌, ◌*◌, length, take};
ghost use Rattle.long_names.specs.declared.limits.TheConstants.{SMALL_INTEGERS};
ghost use Rattle.blue_model.specs.Forms as model;
ghost use Rattle.devices.specs.declared.pixels.TheConstants.{MOST_ROW_BYTES};

/// How many bytes a row has at most.
pub const MOST_ROW_BYTES: usize = 2_048;

/// The pixel in a column of a row, white behind the last.
fn pixel(words: &[u16], width: u32, x: u32) -> u8
    requires words { length words.now ≡ model.row_words width }
    requires width { width < SMALL_INTEGERS }
    ensures pixel { result ≡ model.padded_pixel width words.now 0 x }
    ensures small { result < 2 }
{
    if x < width {
        ((words[(x / 16) as usize] >> (15 - x % 16)) % 2) as u8
    } else {
        0
    }
}

/// Four pixels, the leftmost highest.
fn four_pixels(words: &[u16], width: u32, x: u32) -> u8
    requires words { length words.now ≡ model.row_words width }
    requires width { width < SMALL_INTEGERS }
    requires column { x < SMALL_INTEGERS + 4 }
    ensures pixels { result ≡ 8 * model.padded_pixel width words.now 0 x + 4 * model.padded_pixel width words.now 0 (x + 1)
        + 2 * model.padded_pixel width words.now 0 (x + 2) + model.padded_pixel width words.now 0 (x + 3) }
    ensures small { result < 16 }
{
    8 * pixel(words, width, x)
        + 4 * pixel(words, width, x + 1)
        + 2 * pixel(words, width, x + 2)
        + pixel(words, width, x + 3)
}

/// Byte j of a row.
fn row_byte(words: &[u16], width: u32, j: u32) -> u8
    requires words { length words.now ≡ model.row_words width }
    requires width { width < SMALL_INTEGERS }
    requires byte { j < MOST_ROW_BYTES }
    ensures { result ≡ model.row_byte width words.now 0 j }
{
    16 * four_pixels(words, width, 8 * j) + four_pixels(words, width, 8 * j + 4)
}

/// Puts the bytes of a row to the front of the buffer, and says how many there are.
pub(crate) fn row_bytes(words: &[u16], width: u32, out: &mut [u8]) -> u32
    requires words { length words.now ≡ model.row_words width }
    requires width { width < SMALL_INTEGERS }
    requires room { MOST_ROW_BYTES ≤ length out.old }
    ensures bytes { take result out.new ≡ model.row_bytes width words.now 0 }
    ensures few { result ≤ MOST_ROW_BYTES }
    ensures length { length out.new ≡ length out.old }
{
    let count = width.div_ceil(8);
    'bytes: for j in 0..count {
        out[j as usize] = row_byte(words, width, j);
    }
    count
}
