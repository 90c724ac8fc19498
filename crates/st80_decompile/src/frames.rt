// What is read so far: the parts of code that aren't over, each with its statements and its values.
use crate::stop::Halt;
use st80_tree::{Messages, Node, Nodes, Statements};
use std::alloc::{AllocError, Global};

/// A message, without what it goes to.
#[derive(Drop)]
pub(crate) struct Sent {
    pub(crate) to_super: bool,
    pub(crate) selector: u32,
    pub(crate) arguments: Nodes,
}

/// What stands on the stack.
#[derive(Drop)]
pub(crate) enum Entry {
    Value(Node),
    /// What the messages of a cascade go to, and those so far.
    Cascade(Node, Vec<Sent>),
    /// One more of what is below.
    Copy,
    /// What a message to a copy answers.
    Answer(Sent),
    /// A loop among values, whose value is to be pushed.
    Looped(Node),
}

/// Statements so far, and what stands on the stack. Where a return was last, it is `returned`.
#[derive(Drop)]
pub(crate) struct Part {
    pub(crate) steps: Vec<Node>,
    pub(crate) stack: Vec<Entry>,
    pub(crate) returned: Option<Node>,
}

/// What a part of code is.
#[derive(Drop)]
pub(crate) enum Kind {
    Method,
    /// A loop's test. The code of the loop begins at this byte.
    Test(usize),
    /// The first part of a choice, or the body of a loop.
    First {
        on: bool,
        test: Node,
    },
    Second {
        on: bool,
        test: Node,
        first: Part,
    },
    /// What stands behind a choice whose first part returns.
    Behind {
        on: bool,
        test: Node,
        first: Statements,
    },
    /// A block, of whose arguments so many are to be stored.
    Block {
        first: u8,
        count: u8,
        left: u8,
    },
}

/// A part that isn't over, and the byte at which it is.
#[derive(Drop)]
pub(crate) struct Frame {
    pub(crate) kind: Kind,
    pub(crate) end: usize,
    pub(crate) part: Part,
}

pub(crate) fn empty_part(alloc: Global) -> Part {
    Part {
        steps: Vec::new(alloc),
        stack: Vec::new(alloc),
        returned: None,
    }
}

/// Steps in order, before what stands behind them.
pub(crate) fn steps_of(
    alloc: Global,
    mut nodes: Vec<Node>,
    last: Statements,
) -> Result<Statements, AllocError> {
    let mut list = last;
    'each: while let Some(node) = nodes.pop() {
        let node = Box::new(alloc, node)?;
        let rest = Box::new(alloc, list)?;
        list = Statements::Step(node, rest);
    }
    Ok(list)
}

/// The messages of a cascade in order, of which this one is the last.
pub(crate) fn messages_of(
    alloc: Global,
    mut before: Vec<Sent>,
    last: Sent,
) -> Result<Messages, AllocError> {
    let mut list = Messages::Last {
        selector: last.selector,
        arguments: Box::new(alloc, last.arguments)?,
    };
    'each: while let Some(sent) = before.pop() {
        let Sent {
            to_super: _,
            selector,
            arguments,
        } = sent;
        let arguments = Box::new(alloc, arguments)?;
        let rest = Box::new(alloc, list)?;
        list = Messages::Then {
            selector,
            arguments,
            rest,
        };
    }
    Ok(list)
}

/// The one value on a stack.
fn only_value(mut stack: Vec<Entry>) -> Result<Node, Halt> {
    match (stack.pop(), stack.pop()) {
        (Some(Entry::Value(node)), None) => Ok(node),
        _ => Err(Halt::NoTree),
    }
}

/// How a part ends.
#[derive(Clone, Copy, Debug, PartialEq, Eq)]
pub(crate) enum Ending {
    WithReturn,
    WithValue,
    WithEffect,
}

pub(crate) fn ending_of(part: &Part) -> Ending {
    if part.returned.is_some() {
        return Ending::WithReturn;
    }
    if part.stack.is_empty() {
        Ending::WithEffect
    } else {
        Ending::WithValue
    }
}

fn is_nil(node: &Node) -> bool {
    matches!(node, Node::Constant(st80_tree::Constant::Nil))
}

fn valued(alloc: Global, node: Node) -> Result<Statements, AllocError> {
    if is_nil(&node) {
        return Ok(Statements::Done);
    }
    Ok(Statements::Value(Box::new(alloc, node)?))
}

/// The statements of a part that is over.
pub(crate) fn statements_of(alloc: Global, part: Part) -> Result<Statements, Halt> {
    let Part {
        steps,
        stack,
        returned,
    } = part;
    if let Some(node) = returned {
        let last = Statements::Return(Box::new(alloc, node)?);
        return Ok(steps_of(alloc, steps, last)?);
    }
    if stack.is_empty() {
        return Ok(steps_of(alloc, steps, Statements::Done)?);
    }
    let node = only_value(stack)?;
    let last = valued(alloc, node)?;
    Ok(steps_of(alloc, steps, last)?)
}

/// The statements of a part that has to have a value. Where there is none, the last statement is one that never ends.
pub(crate) fn valued_statements(alloc: Global, part: Part) -> Result<Statements, Halt> {
    let Part {
        mut steps,
        mut stack,
        returned,
    } = part;
    if returned.is_none() && stack.is_empty() {
        match steps.pop() {
            Some(node) => stack.push(Entry::Value(node))?,
            None => return Err(Halt::NoTree),
        }
    }
    statements_of(
        alloc,
        Part {
            steps,
            stack,
            returned,
        },
    )
}
