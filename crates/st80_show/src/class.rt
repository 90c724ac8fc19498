// Classes and methods.
use crate::columns::put_counted;
use long_names::Name;
use st80_code::put_method;
use st80_view::{MethodHome, View};
use st80_write::source_of;
use std::alloc::{AllocError, Global};

/// How many superclasses are put.
const LONGEST_CHAIN: usize = 1024;

/// The field of a class that says what its objects are.
const SPECIFICATION: usize = 2;

/// Puts a method as source, or instruction by instruction where it has none.
pub fn show_method(
    alloc: Global,
    out: &mut String,
    view: &View,
    method: Name,
) -> Result<(), AllocError> {
    let Some(source) = source_of(alloc, view, method)? else {
        return put_method(alloc, out, view, method);
    };
    let number = method.get();
    view.put_method_name(out, method)?;
    write!(out, " ({number})\n")?;
    out.push_str(&source)
}

/// Puts a class: its superclasses, what its objects are and how many there are, its subclasses and its methods.
pub fn show_class(
    alloc: Global,
    out: &mut String,
    view: &View,
    class: Name,
) -> Result<(), AllocError> {
    let number = class.get();
    out.push_str("class ")?;
    view.put_class_name(out, class)?;
    write!(out, " ({number})\n")?;
    put_chain(out, view, class)?;
    put_specification(out, view, class)?;
    put_instances(out, view, class)?;
    put_subclasses(out, view, class)?;
    put_methods(out, view, class)
}

fn put_chain(out: &mut String, view: &View, class: Name) -> Result<(), AllocError> {
    let mut at = class;
    for i in 0..LONGEST_CHAIN {
        let Some(superclass) = view.superclass(at) else {
            break;
        };
        out.push_str(if i == 0 { "  superclasses: " } else { ", " })?;
        view.put_class_name(out, superclass)?;
        at = superclass;
    }
    if at == class {
        out.push_str("  no superclass")?;
    }
    out.push('\n')
}

/// What an instance specification says, bit by bit.
fn put_specification(out: &mut String, view: &View, class: Name) -> Result<(), AllocError> {
    let Some(number) = view.image().number_in(class, SPECIFICATION) else {
        return Ok(());
    };
    let bits = i32::from(number).rem_euclid(32_768);
    let fixed = bits % 2048;
    let kind = if bits / 16_384 == 1 {
        "pointers"
    } else if bits / 8192 % 2 == 1 {
        "words"
    } else {
        "bytes"
    };
    write!(out, "  objects of {kind}, {fixed} fixed fields")?;
    if bits / 4096 % 2 == 1 {
        out.push_str(", indexable")?;
    }
    out.push('\n')
}

fn put_instances(out: &mut String, view: &View, class: Name) -> Result<(), AllocError> {
    let mut count = 0u64;
    for rec in view.image().objects.all() {
        if rec.class == class {
            count = count.saturating_add(1);
        }
    }
    out.push_str("  ")?;
    put_counted(out, count, "object", "objects")?;
    out.push('\n')
}

fn put_subclasses(out: &mut String, view: &View, class: Name) -> Result<(), AllocError> {
    for rec in view.image().objects.all() {
        if view.is_class(rec.name) && view.superclass(rec.name) == Some(class) {
            out.push_str("  subclass ")?;
            view.put_class_name(out, rec.name)?;
            out.push('\n')?;
        }
    }
    Ok(())
}

fn put_methods(out: &mut String, view: &View, class: Name) -> Result<(), AllocError> {
    for home in view.methods() {
        if home.class == class {
            put_home(out, view, home)?;
        }
    }
    Ok(())
}

fn put_home(out: &mut String, view: &View, home: &MethodHome) -> Result<(), AllocError> {
    out.push_str("  #")?;
    view.put_selector(out, home.selector)?;
    let number = home.method.get();
    write!(out, ", method {number}")?;
    if let Some(header) = view.method_header(home.method) {
        if header.primitive > 0 {
            let primitive = header.primitive;
            write!(out, ", primitive {primitive}")?;
        }
    }
    out.push('\n')
}
