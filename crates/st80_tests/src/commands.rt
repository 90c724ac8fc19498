// Commands of cases, and what they put.
use crate::answers::view_of;
use crate::explained::put_drawn;
use anyhow::{Context, Result, bail};
use st80_objects::{ImageFault, Labels};
use st80_show::{Asked, show, show_break, show_difference, show_findings};
use st80_view::View;
use std::fs;

/// What the words of a `show` ask for.
fn asked_of<'a>(words: &[&'a str]) -> Result<Asked<'a>> {
    match words {
        [] => Ok(Asked::Image),
        [word] if *word == "processes" => Ok(Asked::Processes),
        [word] if *word == "stack" => Ok(Asked::Stack),
        [word] if *word == "counts" => Ok(Asked::Counts),
        [name] => Ok(Asked::Object(name)),
        [word, class] if *word == "class" => Ok(Asked::Class(class)),
        [word, class, selector] if *word == "method" => Ok(Asked::Method { class, selector }),
        _ => bail!("nothing that can be shown"),
    }
}

fn put_show(rt: HostRuntime, out: &mut String, view: &View, words: &[&str]) -> Result<()> {
    let asked = asked_of(words)?;
    show(rt.alloc(), out, view, &asked)?;
    Ok(())
}

/// Puts what an image breaks.
fn put_check(rt: HostRuntime, out: &mut String, file: &str) -> Result<()> {
    let bytes = fs::read(&rt, file).context("an image")?;
    match View::open(rt.alloc(), &bytes) {
        Ok(view) => {
            let count = show_findings(rt.alloc(), out, &view)?;
            writeln!(out, "{count} places")?;
        }
        Err(ImageFault::Broken(broken)) => show_break(out, &bytes, &broken)?,
        Err(ImageFault::Memory) => bail!("no memory"),
    }
    Ok(())
}

/// Puts what a command of a case puts.
pub(crate) fn put_command(rt: HostRuntime, out: &mut String, words: &[&str]) -> Result<()> {
    match words {
        [command, image, rest @ ..] if *command == "show" => {
            let view = view_of(rt, image)?;
            put_show(rt, out, &view, rest)
        }
        [command, image, names, rest @ ..] if *command == "named" => {
            let mut view = view_of(rt, image)?;
            let bytes = fs::read(&rt, *names).context("names")?;
            view.set_labels(Labels::read(rt.alloc(), &bytes)?);
            put_show(rt, out, &view, rest)
        }
        [command, before, after] if *command == "diff" => {
            let old = view_of(rt, before)?;
            let new = view_of(rt, after)?;
            show_difference(out, &old, &new)?;
            Ok(())
        }
        [command, image] if *command == "check" => put_check(rt, out, image),
        _ => put_drawn(rt, out, words),
    }
}
