//! A picture as a PNG file.

ghost use Rattle.std.specs.Prelude.{◌≡◌, ◌++◌, ◌-◌, ◌*◌, ◌/◌, ◌≤◌, ◌<◌, ◌^◌, List, [], ◌∷◌, length, map, take, IfErr, IfOk, OnOk};
ghost use Rattle.st80_picture.specs.Causes.{IsCause};
ghost use Rattle.st80_picture.specs.Png.{stored, block, chunk, scanline, scanlines, zlib, head};
ghost use Rattle.st80_picture.specs.Png.{png as png_of};

use crate::picture::{BadPicture, Picture};
use crate::sums::{adler32, crc32};
use long_names::Octets;
use std::alloc::{AllocError, Global};

/// The most bytes that a block has.
const FULL_BLOCK: usize = 65_535;

/// The most bytes of a chunk's content.
const MOST_CONTENT: usize = 2_147_483_647;

fn put_chunk(
    alloc: Global,
    file: &mut Octets,
    kind: &[u8],
    content: &[u8],
) -> Result<(), AllocError>
    requires { length content.now < 2 ^ 32 }
    ensures { OnOk result (file.new ≡ file.old ++ chunk kind.now content.now) }
{
    let mut checked = Octets::from_slice(alloc, kind)?;
    checked.extend(content)?;
    file.extend(&(content.len() as u32).to_be_bytes())?;
    file.extend(checked.bytes())?;
    file.extend(&crc32(checked.bytes()).to_be_bytes())?;
    Ok(())
}

fn put_stored(file: &mut Octets, last: u8, bytes: &[u8]) -> Result<(), AllocError>
    requires { length bytes.now ≤ 65535 }
    ensures { OnOk result (file.new ≡ file.old ++ stored last bytes.now) }
{
    let count = bytes.len() as u16;
    file.push(last)?;
    file.extend(&count.to_le_bytes())?;
    file.extend(&(65_535 - count).to_le_bytes())?;
    file.extend(bytes)?;
    Ok(())
}

/// As many of the first bytes as a block has.
fn front(bytes: &[u8]) -> &[u8]
    ensures front { result.now ≡ take 65535 bytes.now }
    ensures few { length result.now ≤ 65535 }
{
    if FULL_BLOCK < bytes.len() {
        &bytes[..FULL_BLOCK]
    } else {
        bytes
    }
}

fn put_block(file: &mut Octets, bytes: &[u8], k: usize) -> Result<(), AllocError>
    requires { k * 65535 ≤ length bytes.now }
    ensures { OnOk result (file.new ≡ file.old ++ block bytes.now k) }
{
    let (_, rest) = bytes.split_at(k * FULL_BLOCK);
    let part = front(rest);
    let last = u8::from(k == bytes.len() / FULL_BLOCK);
    put_stored(file, last, part)
}

/// The zlib stream of these bytes.
fn zlib(alloc: Global, bytes: &[u8]) -> Result<Octets, AllocError>
    ensures { IfOk result (λ stream. stream ≡ zlib bytes.now) }
{
    let mut stream = Octets::from_slice(alloc, &[0x78, 0x01])?;
    for k in 0..bytes.len() / FULL_BLOCK + 1 {
        put_block(&mut stream, bytes, k)?;
    }
    let sum = adler32(bytes).to_be_bytes();
    stream.extend(&sum)?;
    Ok(stream)
}

fn put_inverted(lines: &mut Octets, row: &[u8]) -> Result<(), AllocError>
    ensures { OnOk result (lines.new ≡ lines.old ++ map (λ byte. 255 - byte) row.now) }
{
    for byte in row {
        lines.push(255 - *byte)?;
    }
    Ok(())
}

fn scanlines(alloc: Global, picture: &Picture) -> Result<Octets, AllocError>
    ensures { IfOk result (λ lines. lines ≡ scanlines picture.now.width picture.now.height picture.now.rows) }
{
    let mut lines = Octets::new(alloc);
    for y in 0..picture.height {
        lines.push(0)?;
        put_inverted(&mut lines, picture.row(y))?;
    }
    Ok(lines)
}

fn head(alloc: Global, width: u32, height: u32) -> Result<Octets, AllocError>
    ensures { IfOk result (λ content. content ≡ head width height) }
{
    let mut content = Octets::from_slice(alloc, &width.to_be_bytes())?;
    content.extend(&height.to_be_bytes())?;
    content.extend(&[1, 0, 0, 0, 0])?;
    Ok(content)
}

/// The picture as a PNG of one bit, greyscale. A picture without a pixel has none.
pub fn png(alloc: Global, picture: &Picture) -> Result<Octets, BadPicture>
    ensures cause { IfErr result (IsCause picture.now.width picture.now.height picture.now.rows) }
    ensures file { IfOk result (λ file. file ≡ png_of picture.now.width picture.now.height picture.now.rows) }
{
    if picture.width == 0 || picture.height == 0 {
        return Err(BadPicture::Flat);
    }
    let lines = scanlines(alloc, picture)?;
    let content = zlib(alloc, lines.bytes())?;
    if MOST_CONTENT < content.len() {
        return Err(BadPicture::Large);
    }
    let head = head(alloc, picture.width, picture.height)?;
    let mut file = Octets::from_slice(alloc, &[137, 80, 78, 71, 13, 10, 26, 10])?;
    put_chunk(alloc, &mut file, b"IHDR", head.bytes())?;
    put_chunk(alloc, &mut file, b"IDAT", content.bytes())?;
    put_chunk(alloc, &mut file, b"IEND", &[])?;
    Ok(file)
}
