// Pictures behind a run, and by themselves.
ghost use Rattle.std.specs.Prelude.{◌≡◌, IfOk};
ghost use Rattle.st80_files.specs.declared.codes.Code.TheVariants as code;

use st80_files::{Code, Failure, STREAM, bytes_of, bytes_or_input, copy_out, put_bytes};
use st80_picture::{BadPicture, Picture, blocks, png, read, scaled};
use std::io::IsTerminal;

/// Where the picture of a run goes.
#[derive(Clone, Copy, Debug)]
pub enum Drawing<'a> {
    Nowhere,
    Pbm(&'a str),
    Png(&'a str),
    /// To standard output, as PBM.
    Out,
    /// Shown on the terminal.
    Terminal,
}

/// How many columns a terminal is taken to have.
const COLUMNS: u32 = 80;

/// Where the picture goes by the word for it.
pub fn drawing_of<'a>(rt: HostRuntime, word: Option<&'a str>) -> Drawing<'a> {
    match word {
        Some(STREAM) => Drawing::Out,
        Some(file) if file.ends_with(".png") => Drawing::Png(file),
        Some(file) => Drawing::Pbm(file),
        None if rt.stdout().is_terminal() => Drawing::Terminal,
        None => Drawing::Nowhere,
    }
}

// The picture in a file; none where the display was never set.
fn picture_in(rt: HostRuntime, path: &str) -> Result<Option<Picture>, Failure> {
    let bytes = bytes_of(rt, path)?;
    if bytes.is_empty() {
        return Ok(None);
    }
    Ok(Some(picture_of(rt, path, &bytes)?))
}

fn bad_picture(rt: HostRuntime, name: &str, error: BadPicture) -> Failure {
    if error == BadPicture::Memory {
        return Failure::Memory;
    }
    match format!(in rt.alloc(); "{name}: {error}") {
        Ok(text) => Failure::Told {
            code: Code::CantRead,
            text,
        },
        Err(_) => Failure::Memory,
    }
}

fn picture_of(rt: HostRuntime, name: &str, bytes: &[u8]) -> Result<Picture, Failure> {
    match read(rt.alloc(), bytes) {
        Ok(picture) => Ok(picture),
        Err(error) => Err(bad_picture(rt, name, error)),
    }
}

// Writes a picture as PNG, or to standard output where the word is `-`.
fn put_png(rt: HostRuntime, name: &str, file: &str, picture: &Picture) -> Result<(), Failure> {
    match png(rt.alloc(), picture) {
        Ok(bytes) => put_bytes(rt, file, bytes.bytes()),
        Err(error) => Err(bad_picture(rt, name, error)),
    }
}

fn show(rt: HostRuntime, picture: &Picture, columns: u32) -> Result<(), Failure> {
    let text = blocks(rt.alloc(), picture, columns)?;
    put_bytes(rt, STREAM, text.bytes())
}

/// What is done with the picture of a run, which is in this file.
pub fn finish_picture(rt: HostRuntime, drawing: Drawing<'_>, path: &str) -> Result<(), Failure> {
    match drawing {
        Drawing::Nowhere => Ok(()),
        Drawing::Out => copy_out(rt, path),
        Drawing::Pbm(_) => tell_size(rt, path, path),
        Drawing::Png(file) => {
            match picture_in(rt, path)? {
                Some(picture) => put_png(rt, path, file, &picture)?,
                None => put_bytes(rt, file, b"")?,
            }
            tell_size(rt, path, file)
        }
        Drawing::Terminal => match picture_in(rt, path)? {
            Some(picture) => show(rt, &picture, COLUMNS),
            None => Ok(()),
        },
    }
}

fn tell_size(rt: HostRuntime, path: &str, file: &str) -> Result<(), Failure> {
    match picture_in(rt, path)? {
        Some(picture) => {
            let width = picture.width;
            let height = picture.height;
            let _ = rt.eprintln(format_args!("picture: {file}, {width} by {height} pixels"));
        }
        None => {
            let _ = rt.eprintln(format_args!(
                "picture: {file} is empty: the machine has shown none"
            ));
        }
    }
    Ok(())
}

/// The command `picture`.
pub fn convert(
    rt: HostRuntime,
    pbm: &str,
    file: Option<&str>,
    scale: u32,
    width: Option<u32>,
) -> Result<Code, Failure>
    ensures { IfOk result (λ end. end ≡ code.Well) }
{
    let bytes = bytes_or_input(rt, pbm)?;
    let picture = picture_of(rt, pbm, &bytes)?;
    let picture = match scaled(rt.alloc(), &picture, scale) {
        Ok(picture) => picture,
        Err(error) => return Err(bad_picture(rt, pbm, error)),
    };
    match file {
        Some(file) => put_png(rt, pbm, file, &picture)?,
        None => show(rt, &picture, width.unwrap_or(COLUMNS))?,
    }
    Ok(Code::Well)
}
