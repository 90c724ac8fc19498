// What nodes are made of: lists, and the forms that are compiled to jumps.
use st80_parser::{Expr, Header, Last, Parts, Steps};
use st80_syntax::Token;
use st80_tree::{Node, Nodes, Statements};
use std::alloc::{AllocError, Global};

/// A keyword of a message with its argument.
#[derive(Drop)]
pub struct Given<'e> {
    pub keyword: Token,
    pub argument: &'e Expr,
}

/// How statements end.
#[derive(Clone, Copy, Debug, PartialEq, Eq)]
pub(crate) enum Ending {
    /// A method answers self where nothing is returned.
    Method,
    /// A block answers its last value.
    Block,
    /// The last value is returned.
    Answer,
}

/// A message that is compiled to jumps.
#[derive(Clone, Copy, Debug, PartialEq, Eq)]
pub(crate) enum Jump {
    /// The block where the test comes to this, and nil elsewhere.
    One(bool),
    /// The first block where the test comes to this, and the second one elsewhere.
    Two(bool),
    /// The block where the test comes to this, and the other truth value elsewhere.
    Both(bool),
    Loop(bool),
}

pub(crate) fn jump_of(selector: u32) -> Option<Jump> {
    match selector {
        32 => Some(Jump::One(true)),
        33 => Some(Jump::One(false)),
        34 => Some(Jump::Two(true)),
        35 => Some(Jump::Two(false)),
        36 => Some(Jump::Both(true)),
        37 => Some(Jump::Both(false)),
        38 | 40 => Some(Jump::Loop(true)),
        39 | 41 => Some(Jump::Loop(false)),
        _ => None,
    }
}

/// The statements of a block without arguments.
pub(crate) fn plain(expr: &Expr) -> Option<(&Steps, &Last)> {
    match expr {
        Expr::Block(_, Header::Nothing, steps, last, _) => Some((steps, last)),
        _ => None,
    }
}

/// Whether all arguments are blocks without arguments.
pub(crate) fn are_plain(given: &[Given<'_>]) -> bool {
    for one in given {
        if plain(one.argument).is_none() {
            return false;
        }
    }
    true
}

/// The keywords of a message with their arguments, the last first.
pub fn given_in(alloc: Global, parts: &Parts) -> Result<Vec<Given<'_>>, AllocError> {
    let mut given = Vec::new(alloc);
    let mut at = parts;
    loop {
        match at {
            Parts::Start => return Ok(given),
            Parts::Part(before, keyword, argument) => {
                let keyword = *keyword;
                given.push(Given { keyword, argument })?;
                at = before;
            }
        }
    }
}

/// Statements, the last first.
pub(crate) fn values_in(alloc: Global, steps: &Steps) -> Result<Vec<&Expr>, AllocError> {
    let mut values = Vec::new(alloc);
    let mut at = steps;
    loop {
        match at {
            Steps::Start => return Ok(values),
            Steps::Step(before, value, _) => {
                values.push(&**value)?;
                at = before;
            }
        }
    }
}

/// Nodes in order, as a list.
pub(crate) fn nodes_of(alloc: Global, mut nodes: Vec<Node>) -> Result<Nodes, AllocError> {
    let mut list = Nodes::End;
    'each: while let Some(node) = nodes.pop() {
        let node = Box::new(alloc, node)?;
        let rest = Box::new(alloc, list)?;
        list = Nodes::More(node, rest);
    }
    Ok(list)
}

/// Steps in order, before what stands behind them.
pub(crate) fn steps_of(
    alloc: Global,
    mut nodes: Vec<Node>,
    last: Statements,
) -> Result<Statements, AllocError> {
    let mut list = last;
    'each: while let Some(node) = nodes.pop() {
        let node = Box::new(alloc, node)?;
        let rest = Box::new(alloc, list)?;
        list = Statements::Step(node, rest);
    }
    Ok(list)
}
