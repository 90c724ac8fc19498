//! Makes each image of the repository and its text, and compares both with the files of their names.
//!
//! The images are tables of objects in `sample_images`, and the files are what the program is run on. The text of an image is what `list`
//! writes of it. A line is printed for each file: that its bytes are those that were made, from which byte on they aren't, or why there is no
//! image or no text. So a file that no table makes, or a table that makes another file, is seen.
//!
//! The files lie where the program runs, or in the folder that its first word names.
//!
//! - Proved: `difference` is the first place where two texts differ.
//! - Tested: It is a test: each image of the repository, from its table, is its file, and its text is the one that the reference machine
//!   wrote.
//! - Not said: Nothing else.
#![tactic(auto)]

mod compare;
mod listing;

use crate::compare::difference;
use crate::listing::{TEXT, listed};
use image_builder::Builder;
use sample_images::{BLIT_NEXT, HELLO_NEXT, NEXT, base, blit, hello};
use std::path::Path;
use std::rt::Files;
use std::{env, fs, io};

fn main(rt: HostRuntime) -> io::Result<()> {
    let word = env::args(&rt)?.nth(1).unwrap_or(String::new(rt.alloc()));
    let folder = Path::new(word.as_str());
    report(
        &rt,
        folder,
        "base.loom",
        "base.text",
        &base(rt.alloc())?,
        NEXT,
    )?;
    report(
        &rt,
        folder,
        "hello.loom",
        "hello.text",
        &hello(rt.alloc())?,
        HELLO_NEXT,
    )?;
    report(
        &rt,
        folder,
        "blit.loom",
        "blit.text",
        &blit(rt.alloc())?,
        BLIT_NEXT,
    )
}

// Prints how the image of a builder and its text stand to the files of these names.
fn report<R: Files + Print + AllocGlobal>(
    rt: &R,
    folder: Path<'_>,
    file: &str,
    text_file: &str,
    builder: &Builder,
    next: u32,
) -> io::Result<()> {
    let image = match builder.finish(rt.alloc(), next) {
        Ok(image) => image,
        Err(fault) => return println!(rt; "{file}: {fault}"),
    };
    judge(rt, folder, file, image.bytes())?;
    let Some(host) = listed(rt.alloc(), image.bytes()) else {
        return println!(rt; "{text_file}: no text");
    };
    judge(
        rt,
        folder,
        text_file,
        host.inner().file(TEXT).unwrap_or(&[]),
    )
}

// Prints how what was made stands to the file of this name.
fn judge<R: Files + Print + AllocGlobal>(
    rt: &R,
    folder: Path<'_>,
    file: &str,
    made: &[u8],
) -> io::Result<()> {
    let wanted = match fs::read(rt, folder.join(rt.alloc(), file)?) {
        Ok(wanted) => wanted,
        Err(error) => return println!(rt; "{file}: {error}"),
    };
    match difference(made, &wanted) {
        None => println!(rt; "{file}: {} bytes, the same", made.len()),
        Some(at) => println!(rt; "{file}: other bytes from {at} on"),
    }
}
