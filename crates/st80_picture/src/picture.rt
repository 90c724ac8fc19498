//! A picture of one bit a pixel, out of a binary PBM and back.

ghost use Rattle.std.specs.Prelude.{◌≡◌, ◌≢◌, ℕ, ◌+◌, ◌*◌, ◌/◌, ◌<◌, ◌≤◌, ◌^◌, ◌==◌, ◌++◌, List, ◌∷◌, decimal, length, position, IfErr, IfOk, IfSome, IsNone, OnOk};
ghost use Rattle.st80_picture.specs.Refusals.{HasNoHead, IsRefusal};
ghost use Rattle.st80_picture.specs.Pictures.{HasBits, HasPixels, black_in, larger_of, row_bytes, row};
ghost use Rattle.st80_picture.specs.Pictures.{pbm as pbm_of};
ghost use Rattle.st80_picture.specs.declared.picture.BadPicture.TheVariants as variants;

use itoa::Buffer;
use long_names::Octets;
use std::alloc::{AllocError, Global};
use text_lines::long_in;

/// The most bytes that the rows of a picture may have.
pub const MOST_BYTES: usize = 1_073_741_824;

const MOST_SIDE: u32 = 2_147_483_647;

/// Why a picture isn't there.
#[derive(Clone, Copy, Debug, Drop, PartialEq, Eq, thiserror::Error)]
pub enum BadPicture {
    #[error("this isn't a picture as PBM: it doesn't begin with P4, a width and a height")]
    Head,
    #[error("the file is empty: the image had no form as its display")]
    Empty,
    #[error("a PNG has one pixel at least, and this picture has none")]
    Flat,
    #[error("the picture is cut: it has fewer rows than its head says")]
    Cut,
    #[error("the picture has bytes behind its last row")]
    Long,
    #[error("the picture is too large: its rows may have 1,073,741,824 bytes at most")]
    Large,
    #[error("there is no memory for the picture")]
    Memory,
}

impl From<AllocError> for BadPicture {
    ghost from_gives = { λ _ e. e ≡ variants.Memory };

    fn from(_error: AllocError) -> BadPicture {
        BadPicture::Memory
    }
}

/// A picture. Its rows are whole bytes, the leftmost pixel in the highest bit, and 1 is black.
#[derive(Debug, Drop)]
pub struct Picture {
    pub width: u32,
    pub height: u32,
    pub rows: Octets,
    ghost width_fits: { width < 2 ^ 31 },
    ghost height_fits: { height < 2 ^ 31 },
    ghost whole: { length rows ≡ height * row_bytes width },
    ghost small: { height * row_bytes width ≤ 1073741824 },
}

/// The bytes of a row.
fn stride_of(width: u32) -> usize
    requires { width < 2 ^ 31 }
    ensures { result ≡ row_bytes width }
{
    (width as usize + 7) / 8
}

/// How many bytes such a picture has.
fn extent(width: u32, height: u32) -> Option<usize>
    requires width { width < 2 ^ 31 }
    requires height { height < 2 ^ 31 }
    ensures count { IfSome result (λ count. count ≡ height * row_bytes width) }
    ensures small { IfSome result (λ count. count ≤ 1073741824) }
    ensures large { IsNone result → 1073741824 < height * row_bytes width }
{
    let count = height as usize * stride_of(width);
    if count <= MOST_BYTES {
        Some(count)
    } else {
        None
    }
}

impl Picture {
    /// The bytes of a row.
    pub fn row(&self, y: u32) -> &[u8]
        requires { y < self.now.height }
        ensures { result.now ≡ row self.now.rows (row_bytes self.now.width) y }
    {
        let stride = stride_of(self.width);
        let start = y as usize * stride;
        &self.rows.bytes()[start..start + stride]
    }

    /// Whether the pixel is black; one outside isn't.
    pub fn is_black(&self, x: usize, y: usize) -> bool
        ensures { result ≡ black_in self.now.width self.now.height self.now.rows x y }
    {
        if self.width as usize <= x || self.height as usize <= y {
            return false;
        }
        let stride = stride_of(self.width);
        let byte = *self.rows.item(y * stride + x / 8);
        (byte >> (7 - x % 8)) % 2 == 1
    }
}

/// Where a byte stands first.
fn place_of(bytes: &[u8], byte: u8) -> Option<usize>
    ensures { result ≡ position (λ b. b == byte) bytes.now }
{
    bytes.iter().position(|b| *b == byte)
}

/// The number below 2^31 whose plain decimal digits stand before a space or a newline, and what stands behind that. None exactly where there is none.
fn number_before(bytes: &[u8], end: u8) -> Option<(u32, &[u8])>
    requires { end ≤ 32 }
    ensures some { IfSome result (λ found. bytes.now ≡ decimal found.0 ++ end ∷ found.1.now) }
    ensures small { IfSome result (λ found. found.0 < 2 ^ 31) }
    ensures none { IsNone result → (n : ℕ) (rest : List ℕ) → n < 2 ^ 31 → bytes.now ≢ decimal n ++ end ∷ rest }
{
    let at = place_of(bytes, end)?;
    let (part, _) = bytes.split_at(at);
    let number = long_in(part)?;
    if MOST_SIDE < number {
        return None;
    }
    let (_, rest) = bytes.split_at(at + 1);
    Some((number, rest))
}

/// Width and height of the head of a PBM, and what stands behind it. None exactly where bytes begin with none.
fn head_of(bytes: &[u8]) -> Option<(u32, u32, &[u8])>
    ensures some { IfSome result (λ found. bytes.now ≡ pbm_of found.0 found.1 found.2.now) }
    ensures width { IfSome result (λ found. found.0 < 2 ^ 31) }
    ensures height { IfSome result (λ found. found.1 < 2 ^ 31) }
    ensures none { IsNone result → HasNoHead bytes.now }
{
    if !bytes.starts_with(b"P4\n") {
        return None;
    }
    let (_, rest) = bytes.split_at(3);
    let (width, rest) = number_before(rest, b' ')?;
    let (height, rest) = number_before(rest, b'\n')?;
    Some((width, height, rest))
}

/// Reads a binary PBM without comments, as `loom` writes it: `P4`, a newline, width, a space, height, a newline, and the rows.
pub fn read(alloc: Global, bytes: &[u8]) -> Result<Picture, BadPicture>
    // They are its bytes.
    ensures picture { IfOk result (λ picture. bytes.now ≡ pbm_of picture.width picture.height picture.rows) }
    ensures refusal { IfErr result (IsRefusal bytes.now) }
{
    if bytes.is_empty() {
        return Err(BadPicture::Empty);
    }
    let Some((width, height, rows)) = head_of(bytes) else {
        return Err(BadPicture::Head);
    };
    let Some(count) = extent(width, height) else {
        return Err(BadPicture::Large);
    };
    if rows.len() < count {
        return Err(BadPicture::Cut);
    }
    if count < rows.len() {
        return Err(BadPicture::Long);
    }
    let rows = Octets::from_slice(alloc, rows)?;
    Ok(Picture {
        width,
        height,
        rows,
    })
}

/// The picture as a binary PBM.
pub fn pbm(alloc: Global, picture: &Picture) -> Result<Octets, AllocError>
    ensures { IfOk result (λ file. file ≡ pbm_of picture.now.width picture.now.height picture.now.rows) }
{
    let mut buffer = Buffer::new();
    let mut file = Octets::from_slice(alloc, b"P4\n")?;
    file.extend(buffer.format(picture.width).as_bytes())?;
    file.push(b' ')?;
    file.extend(buffer.format(picture.height).as_bytes())?;
    file.push(b'\n')?;
    file.extend(picture.rows.bytes())?;
    Ok(file)
}

/// Eight pixels of a row of a picture that is so many times as large, the leftmost in the highest bit.
fn eight_of(picture: &Picture, first: usize, y: usize, times: u32) -> u8
    requires some { 0 < times }
    requires near { first < 2 ^ 31 }
    ensures { HasBits result (λ i. black_in picture.now.width picture.now.height picture.now.rows ((8 * first + i) / times) y) 8 }
{
    let mut byte = 0u8;
    for bit in 0..8usize {
        let black = picture.is_black((8 * first + bit) / times as usize, y);
        byte = byte * 2 + u8::from(black);
    }
    byte
}

/// Puts row y of a picture that is so many times as large.
fn put_row(
    picture: &Picture,
    y: usize,
    times: u32,
    width: u32,
    rows: &mut Octets,
) -> Result<(), AllocError>
    requires some { 0 < times }
    requires width { width < 2 ^ 31 }
    requires place { length rows.old ≡ y * row_bytes width }
    requires before { HasPixels rows.old (row_bytes width) (larger_of picture.now.width picture.now.height picture.now.rows times) }
    ensures len { OnOk result (length rows.new ≡ length rows.old + row_bytes width) }
    ensures pixels { OnOk result (HasPixels rows.new (row_bytes width) (larger_of picture.now.width picture.now.height picture.now.rows times)) }
{
    for first in 0..stride_of(width) {
        rows.push(eight_of(picture, first, y / times as usize, times))?;
    }
    Ok(())
}

/// Width and height of such a picture, where they and its rows aren't too large.
fn sides(picture: &Picture, times: u32) -> Option<(u32, u32)>
    ensures times { IfSome result (λ sides. 0 < times) }
    ensures width { IfSome result (λ sides. (sides.0 ≡ picture.now.width * times) × (sides.0 < 2 ^ 31)) }
    ensures height { IfSome result (λ sides. (sides.1 ≡ picture.now.height * times) × (sides.1 < 2 ^ 31)) }
    ensures small { IfSome result (λ sides. sides.1 * row_bytes sides.0 ≤ 1073741824) }
{
    if times == 0 {
        return None;
    }
    let width = picture.width.checked_mul(times)?;
    let height = picture.height.checked_mul(times)?;
    if MOST_SIDE < width || MOST_SIDE < height {
        return None;
    }
    extent(width, height)?;
    Some((width, height))
}

/// The picture with each pixel as a square of so many by so many.
pub fn scaled(alloc: Global, picture: &Picture, times: u32) -> Result<Picture, BadPicture>
    ensures width { IfOk result (λ larger. larger.width ≡ picture.now.width * times) }
    ensures height { IfOk result (λ larger. larger.height ≡ picture.now.height * times) }
    ensures pixels { IfOk result (λ larger. (x y : ℕ) → black_in larger.width larger.height larger.rows x y ≡ black_in picture.now.width picture.now.height picture.now.rows (x / times) (y / times)) }
{
    let Some((width, height)) = sides(picture, times) else {
        return Err(BadPicture::Large);
    };
    let mut rows = Octets::new(alloc);
    for y in 0..height {
        put_row(picture, y as usize, times, width, &mut rows)?;
    }
    Ok(Picture {
        width,
        height,
        rows,
    })
}
