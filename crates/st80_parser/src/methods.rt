// Methods, and statements by themselves: a tree of all tokens, or the first that is refused.
ghost use Rattle.std.specs.Prelude.{◌≡◌, ◌≤◌, ◌++◌, ◌∷◌, [], true, false, Bool, List, IfOk, length};
ghost use Rattle.st80_parser.specs.Stands as stands;
ghost use Rattle.st80_parser.specs.Stands.{Runs, Stopped, Symbol, run, start};
ghost use Rattle.st80_parser.specs.Written as written;
ghost use Rattle.st80_parser.specs.Grammar.{IsMethod, IsParsed, IsTree};

use crate::arrays::MOST_NESTED;
use crate::cursor::Cursor;
use crate::error::{Expected, ParseError};
use crate::expressions::Grammar;
use crate::rules::{pattern, primitive, temporaries};
use crate::tree::{Expr, Last, Method, Pattern, Steps};
use st80_syntax::Token;
use std::alloc::{AllocError, Global};

/// The number of the token that is refused, from 0, and what could stand there; behind the last it is their number.
#[derive(Clone, Copy, Debug, PartialEq, Eq)]
pub struct Refused {
    pub number: usize,
    pub expected: Expected,
}

/// What tokens are read as.
#[derive(Drop)]
pub enum Parsed {
    Method(Method),
    Refused(Refused),
}

/// An expression.
fn expression(alloc: Global, cursor: &mut Cursor<'_>, depth: usize) -> Result<Expr, ParseError>
    ensures reads { IfOk result (λ e. cursor.old.rest.now ≡ written.expr e ++ cursor.new.rest.now) }
    ensures runs { (xs : List Symbol) → Runs result (stands.Nested depth ∷ xs) (λ _. xs) cursor.old.rest.now cursor.new.rest.now }
    ensures within { length cursor.new.rest.now ≤ length cursor.old.rest.now }
{
    if depth == 0 {
        return Err(ParseError::Refused(Expected::Shallower));
    }
    Grammar {
        alloc,
        depth: depth - 1,
        reader: expression,
    }
    .whole(cursor)
}

/// Statements.
fn body(alloc: Global, cursor: &mut Cursor<'_>) -> Result<(Steps, Last), ParseError>
    ensures reads { IfOk result (λ b. cursor.old.rest.now ≡ written.body b ++ cursor.new.rest.now) }
    ensures runs { (xs : List Symbol) → Runs result (stands.Body 100 ∷ xs) (λ _. xs) cursor.old.rest.now cursor.new.rest.now }
    ensures within { length cursor.new.rest.now ≤ length cursor.old.rest.now }
{
    Grammar {
        alloc,
        depth: MOST_NESTED,
        reader: expression,
    }
    .body(cursor)
}

/// What stands behind the selector of a method.
fn behind(alloc: Global, cursor: &mut Cursor<'_>, pattern: Pattern) -> Result<Method, ParseError>
    ensures reads { IfOk result (λ m. written.pattern_of pattern ++ cursor.old.rest.now ≡ written.method m ++ cursor.new.rest.now) }
    ensures runs { Runs result (start false) (λ _. []) cursor.old.rest.now cursor.new.rest.now }
    ensures within { length cursor.new.rest.now ≤ length cursor.old.rest.now }
{
    let names = temporaries(alloc, cursor)?;
    let number = primitive(cursor)?;
    let inner = body(alloc, cursor)?;
    let (steps, last) = inner;
    Ok(Method {
        pattern,
        temporaries: names,
        primitive: number,
        steps,
        last,
    })
}

/// A whole method.
fn whole(alloc: Global, cursor: &mut Cursor<'_>, is_method: bool) -> Result<Method, ParseError>
    ensures reads { IfOk result (λ m. cursor.old.rest.now ≡ written.method m ++ cursor.new.rest.now) }
    ensures runs { Runs result (start is_method) (λ _. []) cursor.old.rest.now cursor.new.rest.now }
    ensures within { length cursor.new.rest.now ≤ length cursor.old.rest.now }
{
    if is_method {
        let found = pattern(alloc, cursor)?;
        return behind(alloc, cursor, found);
    }
    behind(alloc, cursor, Pattern::Nothing)
}

/// That the next token is refused.
fn refused_at(tokens: &[Token], cursor: &Cursor<'_>, expected: Expected) -> Parsed
    requires { length cursor.now.rest.now ≤ length tokens.now }
    ensures { (is_method : Bool) → run (start is_method) tokens.now ≡ Stopped cursor.now.rest.now → IsParsed is_method tokens.now result }
{
    let number = tokens.len() - cursor.rest.len();
    Parsed::Refused(Refused { number, expected })
}

/// A tree of all tokens, or that the next one is refused.
fn found_at(tokens: &[Token], cursor: &Cursor<'_>, method: Method) -> Parsed
    requires { length cursor.now.rest.now ≤ length tokens.now }
    ensures { (is_method : Bool) → tokens.now ≡ written.method method ++ cursor.now.rest.now
        → run (start is_method) tokens.now ≡ run [] cursor.now.rest.now → IsParsed is_method tokens.now result }
{
    if cursor.is_done() {
        Parsed::Method(method)
    } else {
        refused_at(tokens, cursor, Expected::Period)
    }
}

/// The tree of all tokens.
fn tree_of(alloc: Global, tokens: &[Token], is_method: bool) -> Result<Parsed, AllocError>
    ensures { IfOk result (λ found. IsParsed is_method tokens.now found) }
{
    let mut cursor = Cursor { rest: tokens };
    match whole(alloc, &mut cursor, is_method) {
        Ok(method) => Ok(found_at(tokens, &cursor, method)),
        Err(ParseError::Refused(expected)) => Ok(refused_at(tokens, &cursor, expected)),
        Err(ParseError::Memory(error)) => Err(error),
    }
}

/// The tree of the tokens of a method.
pub fn method_in(alloc: Global, tokens: &[Token]) -> Result<Parsed, AllocError>
    ensures is { IfOk result (λ found. IsParsed true tokens.now found) }
    ensures taken { (m : Method) → IsMethod true m → tokens.now ≡ written.method m → IfOk result IsTree }
{
    tree_of(alloc, tokens, true)
}

/// The tree of the tokens of statements, with temporaries before them.
pub fn statements_in(alloc: Global, tokens: &[Token]) -> Result<Parsed, AllocError>
    ensures is { IfOk result (λ found. IsParsed false tokens.now found) }
    ensures taken { (m : Method) → IsMethod false m → tokens.now ≡ written.method m → IfOk result IsTree }
{
    tree_of(alloc, tokens, false)
}
