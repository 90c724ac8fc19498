// What of two images differs.
ghost use Rattle.std.specs.Prelude.{◌≡◌, ◌↔◌, false, IfOk};
ghost use Rattle.image_format.specs.Rules.{object_of_rec};
ghost use Rattle.st80_show.specs.Same.{IsSameImage};
ghost use Rattle.st80_view.specs.Viewed.{image_of};

use crate::columns::put_counted;
use crate::same::{is_same_image, is_same_object};
use image_format::State;
use long_names::{Body, Rec, Values};
use st80_view::View;
use std::alloc::AllocError;

/// How many fields of one object are put.
const MOST_CHANGES: usize = 200;

/// Puts what of two images differs: heads, states, and object by object; that no object differs, where that is all. Answers whether something differs.
pub fn show_difference(out: &mut String, before: &View, after: &View) -> Result<bool, AllocError>
    ensures { IfOk result (λ differs. differs ≡ false ↔ IsSameImage (image_of before.now) (image_of after.now)) }
{
    put_openings(out, before, after)?;
    put_states(out, &before.image().state(), &after.image().state())?;
    let gone = put_gone(out, before, after)?;
    let changed = put_changed(out, before, after)?;
    put_counted(
        out,
        gone.saturating_add(changed),
        "object differs",
        "objects differ",
    )?;
    out.push('\n')?;
    Ok(!is_same_image(before.image(), after.image()))
}

fn put_number(out: &mut String, what: &str, old: u32, new: u32) -> Result<(), AllocError> {
    if old == new {
        return Ok(());
    }
    write!(out, "{what}: {old} became {new}\n")
}

fn put_openings(out: &mut String, before: &View, after: &View) -> Result<(), AllocError> {
    let old = before.image().head.opening;
    let new = after.image().head.opening;
    put_number(out, "version", old.version, new.version)?;
    put_number(out, "objects", old.objects, new.objects)?;
    put_number(out, "next name", old.next, new.next)
}

fn put_states(out: &mut String, old: &State, new: &State) -> Result<(), AllocError> {
    put_number(out, "clock", old.clock, new.clock)?;
    put_number(out, "display", old.display, new.display)?;
    put_number(out, "input semaphore", old.input, new.input)?;
    put_number(out, "timer semaphore", old.timer, new.timer)?;
    put_number(out, "tick", old.tick, new.tick)
}

/// Puts the objects that the second image hasn't, and answers how many they are.
fn put_gone(out: &mut String, before: &View, after: &View) -> Result<u64, AllocError> {
    let mut count = 0u64;
    for rec in before.image().objects.all() {
        if !after.image().is_there(rec.name) {
            put_name(out, before, rec)?;
            out.push_str(" is gone\n")?;
            count = count.saturating_add(1);
        }
    }
    Ok(count)
}

fn put_name(out: &mut String, view: &View, rec: &Rec) -> Result<(), AllocError> {
    let number = rec.name.get();
    write!(out, "{number}: ")?;
    view.put_object(out, rec.name)
}

/// Puts the objects that the first image hasn't, or has otherwise, and answers how many they are.
fn put_changed(out: &mut String, before: &View, after: &View) -> Result<u64, AllocError> {
    let mut count = 0u64;
    for rec in after.image().objects.all() {
        let differs = match before.image().find(rec.name) {
            Some(old) => put_change(out, before, after, old, rec)?,
            None => put_new(out, after, rec)?,
        };
        if differs {
            count = count.saturating_add(1);
        }
    }
    Ok(count)
}

fn put_new(out: &mut String, after: &View, rec: &Rec) -> Result<bool, AllocError> {
    put_name(out, after, rec)?;
    out.push_str(" is new\n")?;
    Ok(true)
}

/// Puts what of an object differs, and answers whether something does. Counts aren't compared: they follow from the objects.
fn put_change(
    out: &mut String,
    before: &View,
    after: &View,
    old: &Rec,
    new: &Rec,
) -> Result<bool, AllocError>
    ensures { IfOk result (λ differs. differs ≡ false ↔ (object_of_rec old.now ≡ object_of_rec new.now)) }
{
    if is_same_object(old, new) {
        return Ok(false);
    }
    if old.class != new.class {
        put_name(out, after, new)?;
        out.push_str(": its class ")?;
        before.put_class_name(out, old.class)?;
        out.push_str(" became ")?;
        after.put_class_name(out, new.class)?;
        out.push('\n')?;
    }
    put_body_change(out, before, after, old, new)?;
    Ok(true)
}

fn put_body_change(
    out: &mut String,
    before: &View,
    after: &View,
    old: &Rec,
    new: &Rec,
) -> Result<(), AllocError> {
    match (&old.body, &new.body) {
        (Body::Pointers(a), Body::Pointers(b)) => put_values(out, before, after, new, a, b),
        (Body::Words(a), Body::Words(b)) => put_raw(out, after, new, a.words() != b.words()),
        (Body::Bytes(a), Body::Bytes(b)) => put_raw(out, after, new, a.bytes() != b.bytes()),
        (Body::Method { .. }, Body::Method { .. }) => put_methods(out, before, after, old, new),
        _ => put_raw(out, after, new, true),
    }
}

/// Puts that an object has other contents, where it has.
fn put_raw(out: &mut String, after: &View, rec: &Rec, differs: bool) -> Result<(), AllocError> {
    if differs {
        put_name(out, after, rec)?;
        out.push_str(" has other contents\n")?;
    }
    Ok(())
}

/// Puts which fields of an object differ.
fn put_values(
    out: &mut String,
    before: &View,
    after: &View,
    rec: &Rec,
    old: &Values,
    new: &Values,
) -> Result<(), AllocError> {
    let mut changes = 0usize;
    if old.len() != new.len() {
        put_name(out, after, rec)?;
        let (was, is) = (old.len(), new.len());
        write!(out, ": it had {was} fields or literals, and has {is}\n")?;
        changes = 1;
    }
    for i in 0..old.len().min(new.len()) {
        if *old.item(i) != *new.item(i) {
            changes = changes.saturating_add(1);
            if changes <= MOST_CHANGES {
                put_name(out, after, rec)?;
                write!(out, ": field {i}: ")?;
                before.put_value(out, *old.item(i))?;
                out.push_str(" became ")?;
                after.put_value(out, *new.item(i))?;
                out.push('\n')?;
            }
        }
    }
    Ok(())
}

/// Puts that a method has other literals or other code, where it has.
fn put_methods(
    out: &mut String,
    before: &View,
    after: &View,
    old: &Rec,
    new: &Rec,
) -> Result<(), AllocError> {
    match (&old.body, &new.body) {
        (
            Body::Method {
                header: old_header,
                literals: old_literals,
                code: old_code,
            },
            Body::Method {
                header,
                literals,
                code,
            },
        ) => {
            put_values(out, before, after, new, old_literals, literals)?;
            let code_differs = *old_header != *header || old_code.bytes() != code.bytes();
            put_raw(out, after, new, code_differs)
        }
        _ => Ok(()),
    }
}
