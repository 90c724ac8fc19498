// Rules without expressions in them.
ghost use Rattle.std.specs.Prelude.{◌≡◌, ◌≤◌, ◌++◌, ◌∷◌, [], false, List, IfOk, length};
ghost use Rattle.st80_syntax.specs.declared.token.Kind.TheVariants as kinds;
ghost use Rattle.st80_parser.specs.Kinds.{same_kind};
ghost use Rattle.st80_parser.specs.Stands as stands;
ghost use Rattle.st80_parser.specs.Stands.{Plain, Runs, Symbol, state_of};
ghost use Rattle.st80_parser.specs.Written.{expr, header_of, names, pairs, pattern_of, primitive_of, temporaries_of};

use crate::cursor::Cursor;
use crate::error::{Expected, ParseError};
use crate::kinds::{Joint, same_kind};
use crate::making::{name_of, pair_of};
use crate::tree::{Expr, Header, Names, Pairs, Pattern, Primitive, Temporaries};
use st80_syntax::{Kind, Token};
use std::alloc::Global;

/// Marks of a kind, each with a name behind it.
fn pairs_in(alloc: Global, cursor: &mut Cursor<'_>, mark: Kind) -> Result<Pairs, ParseError>
    requires real { same_kind kinds.End mark ≡ false }
    ensures reads { IfOk result (λ ps. cursor.old.rest.now ≡ pairs ps ++ cursor.new.rest.now) }
    ensures runs { (xs : List Symbol) → Runs result (stands.Marks mark ∷ xs) (λ _. xs) cursor.old.rest.now cursor.new.rest.now }
    ensures within { length cursor.new.rest.now ≤ length cursor.old.rest.now }
{
    let mut found = Pairs::Start;
    'each: while let Some(token) = cursor.eat(mark) {
        let name = cursor.expect(Kind::Name, Expected::Name)?;
        let longer = pair_of(alloc, found, token, name)?;
        found = longer;
    }
    Ok(found)
}

/// Names, up to what is none.
fn names_in(alloc: Global, cursor: &mut Cursor<'_>) -> Result<Names, ParseError>
    ensures reads { IfOk result (λ ns. cursor.old.rest.now ≡ names ns ++ cursor.new.rest.now) }
    ensures runs { (xs : List Symbol) → Runs result (stands.Names ∷ xs) (λ _. xs) cursor.old.rest.now cursor.new.rest.now }
    ensures within { length cursor.new.rest.now ≤ length cursor.old.rest.now }
{
    let mut found = Names::Start;
    'each: while let Some(token) = cursor.eat(Kind::Name) {
        let longer = name_of(alloc, found, token)?;
        found = longer;
    }
    Ok(found)
}

/// The arguments of a block, if there are any.
pub(crate) fn header(alloc: Global, cursor: &mut Cursor<'_>) -> Result<Header, ParseError>
    ensures reads { IfOk result (λ h. cursor.old.rest.now ≡ header_of h ++ cursor.new.rest.now) }
    ensures runs { (xs : List Symbol) → Runs result (stands.Header ∷ xs) (λ _. xs) cursor.old.rest.now cursor.new.rest.now }
    ensures within { length cursor.new.rest.now ≤ length cursor.old.rest.now }
{
    if !same_kind(cursor.peek(), Kind::Colon) {
        return Ok(Header::Nothing);
    }
    let arguments = pairs_in(alloc, cursor, Kind::Colon)?;
    let bar = cursor.expect(Kind::Bar, Expected::Bar)?;
    Ok(Header::Of(arguments, bar))
}

/// Temporaries between bars, if there are any.
pub(crate) fn temporaries(alloc: Global, cursor: &mut Cursor<'_>) -> Result<Temporaries, ParseError>
    ensures reads { IfOk result (λ ts. cursor.old.rest.now ≡ temporaries_of ts ++ cursor.new.rest.now) }
    ensures runs { (xs : List Symbol) → Runs result (stands.Temporaries ∷ xs) (λ _. xs) cursor.old.rest.now cursor.new.rest.now }
    ensures within { length cursor.new.rest.now ≤ length cursor.old.rest.now }
{
    let Some(opening) = cursor.eat(Kind::Bar) else {
        return Ok(Temporaries::Nothing);
    };
    let found = names_in(alloc, cursor)?;
    let close = cursor.expect(Kind::Bar, Expected::Name)?;
    Ok(Temporaries::Of(opening, found, close))
}

/// A primitive, if there is one.
pub(crate) fn primitive(cursor: &mut Cursor<'_>) -> Result<Primitive, ParseError>
    ensures reads { IfOk result (λ p. cursor.old.rest.now ≡ primitive_of p ++ cursor.new.rest.now) }
    ensures runs { (xs : List Symbol) → Runs result (stands.Primitive ∷ xs) (λ _. xs) cursor.old.rest.now cursor.new.rest.now }
    ensures within { length cursor.new.rest.now ≤ length cursor.old.rest.now }
{
    let Some(opening) = cursor.eat(Kind::Binary) else {
        return Ok(Primitive::Nothing);
    };
    let word = cursor.expect(Kind::Keyword, Expected::Keyword)?;
    let number = cursor.expect(Kind::Integer, Expected::Number)?;
    let close = cursor.expect(Kind::Binary, Expected::Sign)?;
    Ok(Primitive::Of(opening, word, number, close))
}

/// The selector of a method with its arguments.
pub(crate) fn pattern(alloc: Global, cursor: &mut Cursor<'_>) -> Result<Pattern, ParseError>
    ensures reads { IfOk result (λ p. cursor.old.rest.now ≡ pattern_of p ++ cursor.new.rest.now) }
    ensures runs { (xs : List Symbol) → Runs result (stands.Selector ∷ xs) (λ _. xs) cursor.old.rest.now cursor.new.rest.now }
    ensures within { length cursor.new.rest.now ≤ length cursor.old.rest.now }
{
    match cursor.joint() {
        Joint::Name => Ok(Pattern::Unary(cursor.next())),
        Joint::Operator => {
            let selector = cursor.next();
            let name = cursor.expect(Kind::Name, Expected::Name)?;
            Ok(Pattern::Binary(selector, name))
        }
        Joint::Keyword => Ok(Pattern::Keyword(pairs_in(alloc, cursor, Kind::Keyword)?)),
        _ => Err(ParseError::Refused(Expected::Pattern)),
    }
}

/// A minus, which was taken, and the integer behind it.
pub(crate) fn negative(cursor: &mut Cursor<'_>, minus: Token) -> Result<Expr, ParseError>
    ensures reads { IfOk result (λ e. minus ∷ cursor.old.rest.now ≡ expr e ++ cursor.new.rest.now) }
    ensures runs { (xs : List Symbol) → Runs result (stands.One kinds.Integer ∷ xs) (λ _. xs) cursor.old.rest.now cursor.new.rest.now }
    ensures state { IfOk result (λ e. state_of e ≡ Plain) }
    ensures within { length cursor.new.rest.now ≤ length cursor.old.rest.now }
{
    let number = cursor.expect(Kind::Integer, Expected::Number)?;
    Ok(Expr::Negative(minus, number))
}
