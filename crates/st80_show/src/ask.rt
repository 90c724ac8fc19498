// What is asked for.
ghost use Rattle.std.specs.Prelude.{IfOk};
ghost use Rattle.st80_show.specs.Answers.{IsAnswer};
ghost use Rattle.st80_view.specs.Viewed.{recs_of};

use crate::class::{show_class, show_method};
use crate::columns::put_left_out;
use crate::image::{show_counts, show_image};
use crate::object::show_object;
use crate::process::{show_processes, show_stack};
use long_names::Name;
use st80_view::View;
use std::alloc::{AllocError, Global};

/// How many classes are told of where one isn't there.
const MOST_CLASSES: usize = 100;

/// What of an image is to be shown.
#[derive(Clone, Copy, Debug)]
pub enum Asked<'a> {
    /// Its head, its classes, its largest objects and its processes.
    Image,
    /// The object of this number.
    Object(&'a str),
    /// The class that is called so, or has this number.
    Class(&'a str),
    /// The method that a lookup of a selector from a class on finds.
    Method { class: &'a str, selector: &'a str },
    Processes,
    /// The stack of the active process.
    Stack,
    Counts,
}

/// Whether what was asked for is there.
#[derive(Clone, Copy, Debug, PartialEq, Eq)]
pub enum Found {
    Shown,
    /// The image hasn't what was asked for; what was put says so.
    Nothing,
}

/// Shows what is asked for.
pub fn show(
    alloc: Global,
    out: &mut String,
    view: &View,
    asked: &Asked<'_>,
) -> Result<Found, AllocError>
    ensures { IfOk result (IsAnswer (recs_of view.now) asked.now) }
{
    match asked {
        Asked::Image => show_image(alloc, out, view)?,
        Asked::Processes => show_processes(alloc, out, view)?,
        Asked::Stack => return show_stack(alloc, out, view),
        Asked::Counts => show_counts(alloc, out, view)?,
        Asked::Object(text) => return show_object_named(alloc, out, view, text),
        Asked::Class(text) => return show_class_named(alloc, out, view, text),
        Asked::Method { class, selector } => {
            return show_method_named(alloc, out, view, class, selector);
        }
    }
    Ok(Found::Shown)
}

/// The name that decimal digits are.
fn name_of(text: &str) -> Option<Name> {
    match text.parse::<u32>() {
        Ok(number) => Name::new(number),
        Err(_) => None,
    }
}

fn show_object_named(
    alloc: Global,
    out: &mut String,
    view: &View,
    text: &str,
) -> Result<Found, AllocError> {
    let Some(name) = name_of(text) else {
        out.push_str(text)?;
        out.push_str(" is no name: a name is an even number from 2 on\n")?;
        return Ok(Found::Nothing);
    };
    if !view.image().is_there(name) {
        let number = name.get();
        write!(out, "no object has the name {number}\n")?;
        return Ok(Found::Nothing);
    }
    show_object(alloc, out, view, name)?;
    Ok(Found::Shown)
}

fn show_class_named(
    alloc: Global,
    out: &mut String,
    view: &View,
    text: &str,
) -> Result<Found, AllocError> {
    match view.find_class(text.as_bytes()) {
        Some(class) => {
            show_class(alloc, out, view, class)?;
            Ok(Found::Shown)
        }
        None => no_class(out, view, text),
    }
}

/// Says that no class is called so, and which there are.
fn no_class(out: &mut String, view: &View, text: &str) -> Result<Found, AllocError> {
    out.push_str("no class is called ")?;
    out.push_str(text)?;
    out.push_str("; these are there:\n")?;
    let mut count = 0usize;
    for rec in view.image().objects.all() {
        if view.is_class(rec.name) {
            count = count.saturating_add(1);
            if count <= MOST_CLASSES {
                out.push_str("  ")?;
                view.put_class_name(out, rec.name)?;
                out.push('\n')?;
            }
        }
    }
    put_left_out(out, count.saturating_sub(MOST_CLASSES), "classes")?;
    Ok(Found::Nothing)
}

fn show_method_named(
    alloc: Global,
    out: &mut String,
    view: &View,
    class: &str,
    selector: &str,
) -> Result<Found, AllocError> {
    let Some(from) = view.find_class(class.as_bytes()) else {
        return no_class(out, view, class);
    };
    match view.find_method(from, selector.as_bytes()) {
        Some(home) => {
            show_method(alloc, out, view, home.method)?;
            Ok(Found::Shown)
        }
        None => no_method(out, view, from, selector),
    }
}

/// Says that a class understands no such message, and which it has itself.
fn no_method(
    out: &mut String,
    view: &View,
    class: Name,
    selector: &str,
) -> Result<Found, AllocError> {
    view.put_class_name(out, class)?;
    out.push_str(" finds no method for #")?;
    out.push_str(selector)?;
    out.push_str("; its own are:\n")?;
    for home in view.methods() {
        if home.class == class {
            out.push_str("  #")?;
            view.put_selector(out, home.selector)?;
            out.push('\n')?;
        }
    }
    Ok(Found::Nothing)
}
