//! A picture in a terminal: a line has two rows of pixels.

ghost use Rattle.std.specs.Prelude.{◌<◌, ◌^◌};

use crate::picture::Picture;
use long_names::Octets;
use std::alloc::{AllocError, Global};

/// The block of an upper and a lower pixel, in UTF-8.
fn block_of(upper: bool, lower: bool) -> &'static [u8] {
    match (upper, lower) {
        (true, true) => "█".as_bytes(),
        (true, false) => "▀".as_bytes(),
        (false, true) => "▄".as_bytes(),
        (false, false) => b" ",
    }
}

/// How many pixels stand for one, so that so many columns are enough.
fn side_of(width: u32, columns: u32) -> u32
    requires some { 0 < columns }
    requires few { width < 2 ^ 31 }
    ensures some { 0 < result }
    ensures few { result < 2 ^ 31 }
{
    width.div_ceil(columns).max(1)
}

fn put_line(text: &mut Octets, picture: &Picture, side: u32, y: usize) -> Result<(), AllocError>
    requires some { 0 < side }
    requires few { side < 2 ^ 31 }
{
    for column in 0..picture.width.div_ceil(side) {
        let x = column as usize * side as usize + side as usize / 2;
        let upper = picture.is_black(x, y);
        let lower = picture.is_black(x, y.saturating_add(side as usize));
        text.extend(block_of(upper, lower))?;
    }
    text.push(b'\n')
}

/// The picture as lines of blocks, of so many columns at most. Of each square of pixels that stands for one, the one in its middle is shown.
pub fn blocks(alloc: Global, picture: &Picture, columns: u32) -> Result<Octets, AllocError> {
    let side = side_of(picture.width, columns.max(1));
    let mut text = Octets::new(alloc);
    for line in 0..picture.height.div_ceil(2 * side) {
        let y = line as usize * 2 * side as usize + side as usize / 2;
        put_line(&mut text, picture, side, y)?;
    }
    Ok(text)
}
