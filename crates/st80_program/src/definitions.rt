// What a chunk outside methods says: it defines a class, names the fields of one, heads methods, or is statements to begin with.
use crate::program::Shape;
use st80_parser::{Expr, Last, Method, Steps, Temporaries};
use st80_scope::{Given, given_in, spelling};
use st80_source::is_blank;
use st80_syntax::{Kind, Token};
use std::alloc::{AllocError, Global};

/// A message of keywords to a class, or to its metaclass: the name of the class, and the keywords, of which the last comes first.
#[derive(Drop)]
pub(crate) struct Call<'e> {
    pub class: Token,
    pub is_meta: bool,
    pub given: Vec<Given<'e>>,
}

/// Whether there is nothing in it: no temporaries and no statements.
pub(crate) fn is_empty(method: &Method) -> bool {
    match (&method.temporaries, &method.steps, &method.last) {
        (Temporaries::Nothing, Steps::Start, Last::Nothing) => true,
        _ => false,
    }
}

/// The only expression of statements.
fn only_of(method: &Method) -> Option<&Expr> {
    match (&method.steps, &method.last) {
        (Steps::Start, Last::Value(value)) => Some(value),
        (Steps::Step(before, value, _), Last::Nothing) => match &**before {
            Steps::Start => Some(value),
            _ => None,
        },
        _ => None,
    }
}

/// The class that a receiver names, and whether it is its metaclass.
fn receiver_of(text: &[u8], receiver: &Expr) -> Option<(Token, bool)> {
    match receiver {
        Expr::Name(token) => Some((*token, false)),
        Expr::Unary(inner, selector) => match &**inner {
            Expr::Name(token) if spelling(text, *selector) == b"class".as_slice() => {
                Some((*token, true))
            }
            _ => None,
        },
        _ => None,
    }
}

/// The message of keywords to a class that statements are, if they are one.
pub(crate) fn call_of<'e>(
    alloc: Global,
    text: &[u8],
    method: &'e Method,
) -> Result<Option<Call<'e>>, AllocError> {
    let Some(Expr::Keyword(receiver, parts)) = only_of(method) else {
        return Ok(None);
    };
    let Some((class, is_meta)) = receiver_of(text, receiver) else {
        return Ok(None);
    };
    let given = given_in(alloc, parts)?;
    Ok(Some(Call {
        class,
        is_meta,
        given,
    }))
}

/// The shape of the class that a message with this first keyword defines.
pub(crate) fn shape_of(keyword: &[u8]) -> Option<Shape> {
    if keyword == b"subclass:".as_slice() {
        return Some(Shape::Fields);
    }
    if keyword == b"variableSubclass:".as_slice() {
        return Some(Shape::Pointers);
    }
    if keyword == b"variableWordSubclass:".as_slice() {
        return Some(Shape::Words);
    }
    if keyword == b"variableByteSubclass:".as_slice() {
        return Some(Shape::Bytes);
    }
    None
}

/// The name that a symbol has.
pub(crate) fn symbol_in<'t>(text: &'t [u8], argument: &Expr) -> Option<&'t [u8]> {
    match argument {
        Expr::Literal(token) if token.kind == Kind::Symbol => spelling(text, *token).get(1..),
        _ => None,
    }
}

/// What stands between the quotes of a string.
pub(crate) fn string_in<'t>(text: &'t [u8], argument: &Expr) -> Option<&'t [u8]> {
    match argument {
        Expr::Literal(token) if token.kind == Kind::Text => {
            let spelled = spelling(text, *token);
            spelled.get(1..spelled.len().saturating_sub(1))
        }
        _ => None,
    }
}

/// The words between blanks.
pub(crate) fn words_in(alloc: Global, bytes: &[u8]) -> Result<Vec<Vec<u8>>, AllocError> {
    let mut words = Vec::new(alloc);
    let mut word = Vec::new(alloc);
    for b in bytes {
        if !is_blank(&[*b]) {
            word.push(*b)?;
        } else if !word.is_empty() {
            let whole = std::mem::replace(&mut word, Vec::new(alloc));
            words.push(whole)?;
        }
    }
    if !word.is_empty() {
        words.push(word)?;
    }
    Ok(words)
}
