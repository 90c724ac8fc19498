// Changed texts, and where they break first.
use anyhow::{Context, Result};
use st80_explain::{TextReading, read_text};
use std::fs;

/// The text that is changed.
const BASE: &str = "base.text";

/// A piece of a row, with its newlines.
fn unescaped(rt: HostRuntime, piece: &str) -> Result<String> {
    let mut text = String::new(rt.alloc());
    for (i, part) in piece.split("\\n").enumerate() {
        if i > 0 {
            text.push('\n')?;
        }
        text.push_str(part)?;
    }
    Ok(text)
}

/// The base text with the first such piece changed.
fn changed(rt: HostRuntime, old: &str, new: &str) -> Result<String> {
    let text = fs::read_to_string(&rt, BASE).context("the base text")?;
    let old = unescaped(rt, old)?;
    let (before, behind) = text
        .as_str()
        .split_once(old.as_str())
        .context("no such piece")?;
    let new = unescaped(rt, new)?;
    Ok(format!(in rt.alloc(); "{before}{new}{behind}")?)
}

/// The line, the rule and the column at which a changed text breaks first.
fn answer(rt: HostRuntime, old: &str, new: &str) -> Result<String> {
    let text = changed(rt, old, new)?;
    match read_text(rt.alloc(), text.as_bytes())? {
        TextReading::Whole(_) => Ok(String::from_str(rt.alloc(), "right")?),
        TextReading::Broken(found) => {
            let line = found.line;
            let rule = found.rule;
            let column = found.spot.map_or(0, |spot| spot.column);
            Ok(format!(in rt.alloc(); "{line} {rule} {column}")?)
        }
    }
}

/// Prints what came, where it isn't what a row wants.
fn judge_row(rt: HostRuntime, row: &str) -> Result<()> {
    let (old, rest) = row.split_once('\t').context("no row")?;
    let (new, wanted) = rest.split_once('\t').context("no row")?;
    let came = answer(rt, old, new)?;
    if came.as_str() != wanted {
        println!(rt; "{old} becomes {new}: wanted {wanted}, and {came} came")?;
    }
    Ok(())
}

/// Judges each row of a file of changed texts.
pub(crate) fn report_texts(rt: HostRuntime, file: &str) -> Result<()> {
    let text = fs::read_to_string(&rt, file).context("the file of a table")?;
    let mut count = 0u64;
    for row in text.as_str().lines() {
        if !row.is_empty() && !row.starts_with('#') {
            count = count.saturating_add(1);
            judge_row(rt, row)?;
        }
    }
    println!(rt; "{file}: {count} rows")?;
    Ok(())
}
