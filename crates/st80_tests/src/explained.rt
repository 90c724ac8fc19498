// Pictures, and what went wrong in sentences.
use anyhow::{Context, Result, bail};
use st80_explain::{
    TextReading, Wanted, nearest, put_events_break, put_image_break, put_kind, put_stuck,
    put_text_break, read_text,
};
use st80_picture::{Picture, adler32, blocks, crc32, pbm, png, read, scaled};
use st80_view::View;
use std::fs;

/// A picture of a file, so many times as large.
fn picture_of(rt: HostRuntime, file: &str, times: &str) -> Result<Picture> {
    let bytes = fs::read(&rt, file).context("a picture")?;
    let picture = read(rt.alloc(), &bytes)?;
    let times = times.parse::<u32>()?;
    Ok(scaled(rt.alloc(), &picture, times)?)
}

fn put_sums(out: &mut String, text: &str) -> Result<()> {
    let check = crc32(text.as_bytes());
    let sum = adler32(text.as_bytes());
    writeln!(out, "{check:08x} {sum:08x}")?;
    Ok(())
}

fn put_blocks(rt: HostRuntime, out: &mut String, file: &str, columns: &str) -> Result<()> {
    let picture = picture_of(rt, file, "1")?;
    let text = blocks(rt.alloc(), &picture, columns.parse::<u32>()?)?;
    out.push_str(std::str::from_utf8(text.bytes())?)?;
    Ok(())
}

fn put_text(rt: HostRuntime, out: &mut String, file: &str) -> Result<()> {
    let bytes = fs::read(&rt, file).context("a text")?;
    match read_text(rt.alloc(), &bytes)? {
        TextReading::Whole(view) => {
            let count = view.image().objects.len();
            writeln!(out, "{count} objects")?;
        }
        TextReading::Broken(found) => put_text_break(rt.alloc(), out, &bytes, &found)?,
    }
    Ok(())
}

fn put_image(rt: HostRuntime, out: &mut String, file: &str, rule: &str, place: &str) -> Result<()> {
    let bytes = fs::read(&rt, file).context("an image")?;
    let rule = rule.parse::<u8>()?;
    let place = place.parse::<u64>()?;
    put_image_break(rt.alloc(), out, &bytes, rule, place)?;
    Ok(())
}

fn put_view(rt: HostRuntime, out: &mut String, file: &str, cause: &str) -> Result<()> {
    let bytes = fs::read(&rt, file).context("an image")?;
    let view = View::open(rt.alloc(), &bytes)?;
    put_stuck(rt.alloc(), out, &view, cause.parse::<u8>()?)?;
    Ok(())
}

fn put_events(rt: HostRuntime, out: &mut String, file: &str, line: &str) -> Result<()> {
    let bytes = fs::read(&rt, file).context("events")?;
    put_events_break(out, &bytes, line.parse::<u32>()?)?;
    Ok(())
}

fn put_kind_of(rt: HostRuntime, out: &mut String, file: &str) -> Result<()> {
    let bytes = fs::read(&rt, file).context("a file")?;
    put_kind(out, &bytes, Wanted::Image)?;
    Ok(())
}

fn put_nearest(rt: HostRuntime, out: &mut String, word: &str, among: &[&str]) -> Result<()> {
    let found = nearest(rt.alloc(), word, among)?.unwrap_or("none");
    writeln!(out, "{found}")?;
    Ok(())
}

/// Puts what a command puts that draws or explains.
pub(crate) fn put_drawn(rt: HostRuntime, out: &mut String, words: &[&str]) -> Result<()> {
    match words {
        [command, text] if *command == "sums" => put_sums(out, text),
        [command, file, times, to] if *command == "png" => {
            let picture = picture_of(rt, file, times)?;
            fs::write(&rt, *to, png(rt.alloc(), &picture)?.bytes())?;
            Ok(())
        }
        [command, file, times, to] if *command == "pbm" => {
            let picture = picture_of(rt, file, times)?;
            fs::write(&rt, *to, pbm(rt.alloc(), &picture)?.bytes())?;
            Ok(())
        }
        [command, file, columns] if *command == "blocks" => put_blocks(rt, out, file, columns),
        [command, rest @ ..] => put_explained(rt, out, command, rest),
        _ => bail!("no such command"),
    }
}

fn put_explained(rt: HostRuntime, out: &mut String, command: &str, words: &[&str]) -> Result<()> {
    match words {
        [file] if command == "text" => put_text(rt, out, file),
        [file, rule, place] if command == "image" => put_image(rt, out, file, rule, place),
        [file, cause] if command == "stuck" => put_view(rt, out, file, cause),
        [file, line] if command == "events" => put_events(rt, out, file, line),
        [file] if command == "kind" => put_kind_of(rt, out, file),
        [word, among @ ..] if command == "nearest" => put_nearest(rt, out, word, among),
        _ => bail!("no such command"),
    }
}
