// Methods as source.
use crate::blocks::in_statements;
use crate::given::given_of;
use crate::literals::{is_spelled, put_text};
use crate::stop::Stop;
use crate::writer::{Names, is_keyword, next_word, put_declared, put_line, put_temporary};
use long_names::Name;
use st80_code::code_of;
use st80_decompile::decompile;
use st80_tree::Method;
use st80_view::View;
use std::alloc::{AllocError, Global};

/// So deep expressions and lists nest at most.
const DEEPEST: usize = 10_000;

/// Puts a selector with the names of its arguments, of which there are so many.
fn put_pattern(out: &mut String, text: &[u8], arguments: u8) -> Result<(), Stop> {
    if !is_spelled(text) {
        return Err(Stop::NoSource);
    }
    if !is_keyword(text) {
        put_text(out, text)?;
        if arguments > 0 {
            out.push(' ')?;
            put_temporary(out, 0)?;
        }
        return Ok(());
    }
    let mut rest = text;
    for n in 0..arguments {
        let (word, behind) = next_word(rest);
        if n > 0 {
            out.push(' ')?;
        }
        put_text(out, word)?;
        out.push(' ')?;
        put_temporary(out, n)?;
        rest = behind;
    }
    if rest.is_empty() {
        Ok(())
    } else {
        Err(Stop::NoSource)
    }
}

fn put_tree(
    alloc: Global,
    out: &mut String,
    names: &Names<'_>,
    method: &Method,
) -> Result<(), Stop> {
    let mut blocks = Vec::new(alloc);
    in_statements(&mut blocks, &method.body)?;
    put_declared(out, method.arguments, method.temporaries, &blocks)?;
    if method.primitive > 0 {
        let primitive = method.primitive;
        put_line(out, 1)?;
        write!(out, "<primitive: {primitive}>")?;
    }
    put_line(out, 1)?;
    names.put_statements(out, &method.body, false, 1, DEEPEST)?;
    out.push('\n')?;
    Ok(())
}

fn put_all(alloc: Global, out: &mut String, view: &View, method: Name) -> Result<(), Stop> {
    let home = view.method_home(method).ok_or(Stop::NoSource)?;
    let selector = home.selector.name().ok_or(Stop::NoSource)?;
    let text = view.selector_text(selector).ok_or(Stop::NoSource)?;
    let (literals, _) = code_of(view, method).ok_or(Stop::NoSource)?;
    let given = given_of(alloc, view, method)?;
    let Some(tree) = decompile(alloc, &given)? else {
        return Err(Stop::NoSource);
    };
    put_pattern(out, text, tree.arguments)?;
    put_tree(alloc, out, &Names { view, literals }, &tree)
}

/// The source of a method, or nothing where it has none.
pub fn source_of(alloc: Global, view: &View, method: Name) -> Result<Option<String>, AllocError> {
    let mut out = String::new(alloc);
    match put_all(alloc, &mut out, view, method) {
        Ok(()) => Ok(Some(out)),
        Err(Stop::NoSource) => Ok(None),
        Err(Stop::NoMemory) => Err(AllocError),
    }
}
