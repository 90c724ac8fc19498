// Trees out of their parts. What each is written as follows from the parts.
ghost use Rattle.std.specs.Prelude.{◌≡◌, [], ◌∷◌, ◌++◌, IfOk};
ghost use Rattle.st80_parser.specs.Stands.{Binary, Plain, Sent, Unary, state_of};
ghost use Rattle.st80_parser.specs.Written.{elements, expr, header_of, last_of, names, others, pairs, parts, steps};

use crate::tree::{Elements, Expr, Header, Last, Names, Others, Pairs, Parts, Steps};
use st80_syntax::Token;
use std::alloc::{AllocError, Global};

pub(crate) fn group_of(
    alloc: Global,
    opening: Token,
    inner: Expr,
    close: Token,
) -> Result<Expr, AllocError>
    ensures is { IfOk result (λ e. expr e ≡ opening ∷ (expr inner ++ close ∷ [])) }
    ensures state { IfOk result (λ e. state_of e ≡ Plain) }
{
    Ok(Expr::Group(opening, Box::new(alloc, inner)?, close))
}

pub(crate) fn block_of(
    alloc: Global,
    opening: Token,
    header: Header,
    body: (Steps, Last),
    close: Token,
) -> Result<Expr, AllocError>
    ensures is { IfOk result (λ e. expr e ≡ opening ∷ (header_of header ++ ((steps body.0 ++ last_of body.1) ++ close ∷ []))) }
    ensures state { IfOk result (λ e. state_of e ≡ Plain) }
{
    let (steps, last) = body;
    let steps = Box::new(alloc, steps)?;
    let last = Box::new(alloc, last)?;
    Ok(Expr::Block(opening, header, steps, last, close))
}

pub(crate) fn assign_of(
    alloc: Global,
    name: Token,
    sign: Token,
    value: Expr,
) -> Result<Expr, AllocError>
    ensures { IfOk result (λ e. expr e ≡ name ∷ sign ∷ expr value) }
{
    Ok(Expr::Assign(name, sign, Box::new(alloc, value)?))
}

pub(crate) fn unary_of(alloc: Global, receiver: Expr, selector: Token) -> Result<Expr, AllocError>
    ensures is { IfOk result (λ e. expr e ≡ expr receiver ++ selector ∷ []) }
    ensures state { IfOk result (λ e. state_of e ≡ Unary) }
{
    Ok(Expr::Unary(Box::new(alloc, receiver)?, selector))
}

pub(crate) fn binary_of(
    alloc: Global,
    receiver: Expr,
    selector: Token,
    argument: Expr,
) -> Result<Expr, AllocError>
    ensures is { IfOk result (λ e. expr e ≡ expr receiver ++ selector ∷ expr argument) }
    ensures state { IfOk result (λ e. state_of e ≡ Binary) }
{
    let receiver = Box::new(alloc, receiver)?;
    let argument = Box::new(alloc, argument)?;
    Ok(Expr::Binary(receiver, selector, argument))
}

pub(crate) fn keyword_of(
    alloc: Global,
    receiver: Expr,
    arguments: Parts,
) -> Result<Expr, AllocError>
    ensures is { IfOk result (λ e. expr e ≡ expr receiver ++ parts arguments) }
    ensures state { IfOk result (λ e. state_of e ≡ Sent) }
{
    let receiver = Box::new(alloc, receiver)?;
    let arguments = Box::new(alloc, arguments)?;
    Ok(Expr::Keyword(receiver, arguments))
}

pub(crate) fn cascade_of(alloc: Global, first: Expr, more: Others) -> Result<Expr, AllocError>
    ensures is { IfOk result (λ e. expr e ≡ expr first ++ others more) }
    ensures state { IfOk result (λ e. state_of e ≡ Sent) }
{
    let first = Box::new(alloc, first)?;
    let more = Box::new(alloc, more)?;
    Ok(Expr::Cascade(first, more))
}

pub(crate) fn part_of(
    alloc: Global,
    before: Parts,
    keyword: Token,
    argument: Expr,
) -> Result<Parts, AllocError>
    ensures { IfOk result (λ ps. parts ps ≡ parts before ++ keyword ∷ expr argument) }
{
    let before = Box::new(alloc, before)?;
    let argument = Box::new(alloc, argument)?;
    Ok(Parts::Part(before, keyword, argument))
}

pub(crate) fn other_unary(
    alloc: Global,
    before: Others,
    semicolon: Token,
    selector: Token,
) -> Result<Others, AllocError>
    ensures { IfOk result (λ os. others os ≡ others before ++ semicolon ∷ selector ∷ []) }
{
    Ok(Others::Unary(Box::new(alloc, before)?, semicolon, selector))
}

pub(crate) fn other_binary(
    alloc: Global,
    before: Others,
    semicolon: Token,
    selector: Token,
    argument: Expr,
) -> Result<Others, AllocError>
    ensures { IfOk result (λ os. others os ≡ others before ++ semicolon ∷ selector ∷ expr argument) }
{
    let before = Box::new(alloc, before)?;
    let argument = Box::new(alloc, argument)?;
    Ok(Others::Binary(before, semicolon, selector, argument))
}

pub(crate) fn other_keyword(
    alloc: Global,
    before: Others,
    semicolon: Token,
    arguments: Parts,
) -> Result<Others, AllocError>
    ensures { IfOk result (λ os. others os ≡ others before ++ semicolon ∷ parts arguments) }
{
    let before = Box::new(alloc, before)?;
    let arguments = Box::new(alloc, arguments)?;
    Ok(Others::Keyword(before, semicolon, arguments))
}

pub(crate) fn step_of(
    alloc: Global,
    before: Steps,
    value: Expr,
    period: Token,
) -> Result<Steps, AllocError>
    ensures { IfOk result (λ ss. steps ss ≡ steps before ++ (expr value ++ period ∷ [])) }
{
    let before = Box::new(alloc, before)?;
    let value = Box::new(alloc, value)?;
    Ok(Steps::Step(before, value, period))
}

pub(crate) fn value_of(alloc: Global, value: Expr) -> Result<Last, AllocError>
    ensures { IfOk result (λ l. last_of l ≡ expr value) }
{
    Ok(Last::Value(Box::new(alloc, value)?))
}

pub(crate) fn return_of(alloc: Global, sign: Token, value: Expr) -> Result<Last, AllocError>
    ensures { IfOk result (λ l. last_of l ≡ sign ∷ expr value) }
{
    Ok(Last::Return(sign, Box::new(alloc, value)?))
}

pub(crate) fn closed_of(
    alloc: Global,
    sign: Token,
    value: Expr,
    period: Token,
) -> Result<Last, AllocError>
    ensures { IfOk result (λ l. last_of l ≡ sign ∷ (expr value ++ period ∷ [])) }
{
    Ok(Last::Closed(sign, Box::new(alloc, value)?, period))
}

pub(crate) fn one_of(alloc: Global, before: Elements, token: Token) -> Result<Elements, AllocError>
    ensures { IfOk result (λ es. elements es ≡ elements before ++ token ∷ []) }
{
    Ok(Elements::One(Box::new(alloc, before)?, token))
}

pub(crate) fn nested_of(
    alloc: Global,
    before: Elements,
    opening: Token,
    inner: Elements,
    close: Token,
) -> Result<Elements, AllocError>
    ensures { IfOk result (λ es. elements es ≡ elements before ++ opening ∷ (elements inner ++ close ∷ [])) }
{
    let before = Box::new(alloc, before)?;
    let inner = Box::new(alloc, inner)?;
    Ok(Elements::Nested(before, opening, inner, close))
}

pub(crate) fn pair_of(
    alloc: Global,
    before: Pairs,
    mark: Token,
    name: Token,
) -> Result<Pairs, AllocError>
    ensures { IfOk result (λ ps. pairs ps ≡ pairs before ++ mark ∷ name ∷ []) }
{
    Ok(Pairs::Pair(Box::new(alloc, before)?, mark, name))
}

pub(crate) fn name_of(alloc: Global, before: Names, token: Token) -> Result<Names, AllocError>
    ensures { IfOk result (λ ns. names ns ≡ names before ++ token ∷ []) }
{
    Ok(Names::Name(Box::new(alloc, before)?, token))
}
