// Literal arrays.
ghost use Rattle.std.specs.Prelude.{◌≡◌, ◌≤◌, ◌∷◌, ◌++◌, List, IfOk, length};
ghost use Rattle.st80_syntax.specs.declared.token.Kind.TheVariants as kinds;
ghost use Rattle.st80_parser.specs.Stands as stands;
ghost use Rattle.st80_parser.specs.Stands.{Plain, Runs, Symbol, state_of};
ghost use Rattle.st80_parser.specs.Written.{elements, expr};

use crate::cursor::Cursor;
use crate::error::{Expected, ParseError};
use crate::kinds::{Item, item_of};
use crate::making::{nested_of, one_of};
use crate::tree::{Elements, Expr};
use st80_syntax::{Kind, Token};
use std::alloc::Global;

/// So deep expressions and arrays nest at most, which bounds the stack.
pub const MOST_NESTED: usize = 100;

/// What stands in an array, up to what can't.
fn elements_in(alloc: Global, cursor: &mut Cursor<'_>, depth: usize) -> Result<Elements, ParseError>
    ensures reads { IfOk result (λ es. cursor.old.rest.now ≡ elements es ++ cursor.new.rest.now) }
    ensures runs { (xs : List Symbol) → Runs result (stands.Elements depth ∷ xs) (λ _. xs) cursor.old.rest.now cursor.new.rest.now }
    ensures within { length cursor.new.rest.now ≤ length cursor.old.rest.now }
{
    let mut found = Elements::Start;
    'each: while let Some(item) = item_of(cursor.peek()) {
        match item {
            Item::One => {
                let token = cursor.next();
                let longer = one_of(alloc, found, token)?;
                found = longer;
            }
            Item::Nested => {
                if depth == 0 {
                    return Err(ParseError::Refused(Expected::Shallower));
                }
                let opening = cursor.next();
                let inner = elements_in(alloc, cursor, depth - 1)?;
                let close = cursor.expect(Kind::Close, Expected::Close)?;
                let longer = nested_of(alloc, found, opening, inner, close)?;
                found = longer;
            }
        }
    }
    Ok(found)
}

/// A literal array behind its opening, which was taken.
pub(crate) fn array(
    alloc: Global,
    cursor: &mut Cursor<'_>,
    opening: Token,
) -> Result<Expr, ParseError>
    ensures reads { IfOk result (λ e. opening ∷ cursor.old.rest.now ≡ expr e ++ cursor.new.rest.now) }
    ensures runs { (xs : List Symbol) → Runs result (stands.Elements 100 ∷ stands.One kinds.Close ∷ xs) (λ _. xs) cursor.old.rest.now cursor.new.rest.now }
    ensures state { IfOk result (λ e. state_of e ≡ Plain) }
    ensures within { length cursor.new.rest.now ≤ length cursor.old.rest.now }
{
    let inner = elements_in(alloc, cursor, MOST_NESTED)?;
    let close = cursor.expect(Kind::Close, Expected::Close)?;
    Ok(Expr::Array(opening, inner, close))
}
