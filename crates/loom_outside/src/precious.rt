// What a file begins with that people keep: such a file is never cut to be used for something else.
ghost use Rattle.std.specs.Prelude.{◌≡◌, ◌<◌, ◌^◌, ◌++◌, ℕ, List, Some, None, IfSome, IfNone, length, codes, decimal, position};
ghost use Rattle.image_format.specs.Rules.{first_break};
ghost use Rattle.text_lines.specs.Breaks.{text_break};
ghost use Rattle.loom_outside.specs.Precious as precious;
ghost use Rattle.loom_outside.specs.declared.precious.Precious.TheVariants as Precious;

use crate::real::transfer::read_front;
use image_format::read_head;
use std::io::{self, ErrorKind};
use std::os::unix::fs::FileExt;
use text_lines::{first_part, head_in, long_in};

/// How many bytes a file is known by. A head has 71 at most: the first line of a text of six numbers of ten digits.
const FRONT: usize = 128;

/// What a file begins with that people keep, by its whole head: an image of either version, the text of one, or a picture as DISPLAY has it.
#[derive(Clone, Copy, Debug, PartialEq, Eq)]
pub enum Precious {
    Image,
    Text,
    Picture,
}

impl Precious {
    /// What these bytes begin with. What follows a head isn't looked at.
    pub fn of(bytes: &[u8]) -> Option<Precious>
        ensures { result ≡ precious.precious_in bytes.now }
    {
        if read_head(bytes).is_ok() {
            Some(Precious::Image)
        } else if begins_text(bytes) {
            Some(Precious::Text)
        } else if begins_picture(bytes) {
            Some(Precious::Picture)
        } else {
            None
        }
    }

    /// What a file begins with, by its first bytes. An empty file begins with nothing.
    pub fn in_file<F: FileExt>(file: &F) -> io::Result<Option<Precious>> {
        let mut front = [0; FRONT];
        match read_front(file, &mut front) {
            Some(count) => Ok(Precious::of(&front[..count])),
            None => Err(io::Error::from(ErrorKind::Other)),
        }
    }
}

/// Whatever stands behind its head, each image is one, each text of an image, and each picture.
pub fn each_is_precious()
    ensures image { (bytes : List ℕ) → first_break bytes ≡ None → precious.precious_in bytes ≡ Some Precious.Image }
    ensures text { (text : List ℕ) → text_break text ≡ None → precious.precious_in text ≡ Some Precious.Text }
    ensures picture { (width height : ℕ) (rows : List ℕ) → width < 2 ^ 32 → height < 2 ^ 32 → precious.precious_in (codes "P4\n" ++ decimal width ++ codes " " ++ decimal height ++ codes "\n" ++ rows) ≡ Some Precious.Picture }
{}

/// Where the first newline stands, if there is one.
fn newline_in(bytes: &[u8]) -> Option<usize>
    ensures at { result ≡ position precious.is_newline bytes.now }
    ensures within { IfSome result (λ n. n < length bytes.now) }
{
    bytes.iter().position(|b| *b == b'\n')
}

/// What stands before the first newline, if there is one.
fn first_line(bytes: &[u8]) -> Option<&[u8]>
    ensures some { IfSome result (λ line. precious.first_line bytes.now ≡ Some line.now) }
    ensures none { IfNone result (precious.first_line bytes.now ≡ None) }
{
    let end = newline_in(bytes)?;
    Some(&bytes[..end])
}

fn begins_text(bytes: &[u8]) -> bool
    ensures { result ≡ precious.begins_text bytes.now }
{
    match first_line(bytes) {
        Some(line) => head_in(line).is_some(),
        None => false,
    }
}

/// Whether a line is a width and a height.
fn is_extent(line: &[u8]) -> bool
    ensures { result ≡ precious.is_extent (Some line.now) }
{
    let (width, mut parts) = first_part(line);
    let Some(height) = parts.next() else {
        return false;
    };
    parts.next().is_none() && long_in(width).is_some() && long_in(height).is_some()
}

fn begins_picture(bytes: &[u8]) -> bool
    ensures { result ≡ precious.begins_picture bytes.now }
{
    if !bytes.starts_with(b"P4\n") {
        return false;
    }
    match first_line(&bytes[3..]) {
        Some(line) => is_extent(line),
        None => false,
    }
}
