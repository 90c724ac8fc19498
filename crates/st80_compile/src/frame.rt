// The literals of a tree.
ghost use Rattle.std.specs.Prelude.{◌≡◌, OnOk};
ghost use Rattle.st80_compile.specs.Frame as rules;

use st80_tree::{FIRST_INTEGER, Messages, Node, Nodes, Statements, Variable};
use std::alloc::AllocError;

/// One field more, up to the largest byte.
pub fn higher(height: u8) -> u8
    ensures { result ≡ rules.higher height }
{
    if height < 255 { height + 1 } else { height }
}

/// The height with so many arguments above it.
pub fn raised(height: u8, arguments: &Nodes) -> u8
    ensures { result ≡ rules.raised height arguments.now }
{
    match arguments {
        Nodes::End => height,
        Nodes::More(_, rest) => raised(higher(height), rest),
    }
}

/// How many arguments a selector with a bytecode of its own has.
pub fn special_arguments(selector: u32) -> u8
    ensures { result ≡ rules.special_arguments selector }
{
    if selector == 17 {
        return 2;
    }
    match selector {
        18 | 19 | 21 | 23 | 25 | 28 | 30 | 31 => 0,
        _ => 1,
    }
}

/// Whether a message is sent by a bytecode of its own.
pub fn is_special(to_super: bool, selector: u32, arguments: u8) -> bool
    ensures { result ≡ rules.is_special to_super selector arguments }
{
    !to_super && selector < 32 && special_arguments(selector) == arguments
}

/// The number of a literal, or how many there are.
pub fn index_of(frame: &[u32], literal: u32) -> usize
    ensures { result ≡ rules.index_of frame.now literal }
{
    for (i, x) in frame.iter().enumerate() {
        if *x == literal {
            return i;
        }
    }
    frame.len()
}

fn add_literal(frame: &mut Vec<u32>, literal: u32) -> Result<(), AllocError>
    ensures { OnOk result (frame.new.items ≡ rules.with_literal frame.old.items literal) }
{
    if index_of(frame, literal) < frame.len() {
        return Ok(());
    }
    frame.push(literal)?;
    Ok(())
}

fn add_variable(frame: &mut Vec<u32>, variable: Variable) -> Result<(), AllocError>
    ensures { OnOk result (frame.new.items ≡ rules.with_variable frame.old.items variable) }
{
    match variable {
        Variable::Temporary(_) | Variable::Instance(_) => Ok(()),
        Variable::Shared(association) => add_literal(frame, association),
    }
}

fn add_selector(
    frame: &mut Vec<u32>,
    to_super: bool,
    selector: u32,
    arguments: u8,
) -> Result<(), AllocError>
    ensures { OnOk result (frame.new.items ≡ rules.with_selector frame.old.items to_super selector arguments) }
{
    if is_special(to_super, selector, arguments) {
        return Ok(());
    }
    add_literal(frame, selector)
}

fn add_count(frame: &mut Vec<u32>, count: u8) -> Result<(), AllocError>
    ensures { OnOk result (frame.new.items ≡ rules.with_count frame.old.items count) }
{
    if count < 3 {
        return Ok(());
    }
    add_literal(frame, FIRST_INTEGER + u32::from(count))
}

/// Adds the literals of an expression.
#[cycle(literals)]
fn add_node(frame: &mut Vec<u32>, node: &Node) -> Result<(), AllocError>
    ensures { OnOk result (frame.new.items ≡ rules.node_literals frame.old.items node.now) }
{
    match node {
        Node::Constant(_) | Node::Context => Ok(()),
        Node::Literal(literal) => add_literal(frame, *literal),
        Node::Variable(variable) => add_variable(frame, *variable),
        Node::Assign(variable, value) => {
            add_node(frame, value)?;
            add_variable(frame, *variable)
        }
        Node::Send {
            to_super,
            receiver,
            selector,
            arguments,
        } => {
            add_node(frame, receiver)?;
            add_arguments(frame, arguments)?;
            add_selector(frame, *to_super, *selector, raised(0, arguments))
        }
        Node::Cascade {
            to_super,
            receiver,
            messages,
        } => {
            add_node(frame, receiver)?;
            add_messages(frame, *to_super, messages)
        }
        Node::Block {
            first: _,
            count,
            body,
        } => {
            add_count(frame, *count)?;
            add_statements(frame, body)
        }
        Node::Choice {
            on: _,
            test,
            first,
            second,
        } => {
            add_node(frame, test)?;
            add_statements(frame, first)?;
            add_statements(frame, second)
        }
        Node::Loop { on: _, test, body } => {
            add_statements(frame, test)?;
            add_statements(frame, body)
        }
    }
}

#[cycle(literals)]
fn add_arguments(frame: &mut Vec<u32>, arguments: &Nodes) -> Result<(), AllocError>
    ensures { OnOk result (frame.new.items ≡ rules.argument_literals frame.old.items arguments.now) }
{
    match arguments {
        Nodes::End => Ok(()),
        Nodes::More(node, rest) => {
            add_node(frame, node)?;
            add_arguments(frame, rest)
        }
    }
}

#[cycle(literals)]
fn add_messages(frame: &mut Vec<u32>, to_super: bool, messages: &Messages) -> Result<(), AllocError>
    ensures { OnOk result (frame.new.items ≡ rules.message_literals frame.old.items to_super messages.now) }
{
    match messages {
        Messages::Last {
            selector,
            arguments,
        } => {
            add_arguments(frame, arguments)?;
            add_selector(frame, to_super, *selector, raised(0, arguments))
        }
        Messages::Then {
            selector,
            arguments,
            rest,
        } => {
            add_arguments(frame, arguments)?;
            add_selector(frame, to_super, *selector, raised(0, arguments))?;
            add_messages(frame, to_super, rest)
        }
    }
}

/// Adds the literals of statements.
#[cycle(literals)]
pub fn add_statements(frame: &mut Vec<u32>, statements: &Statements) -> Result<(), AllocError>
    ensures { OnOk result (frame.new.items ≡ rules.statement_literals frame.old.items statements.now) }
{
    match statements {
        Statements::Done => Ok(()),
        Statements::Value(node) | Statements::Return(node) => add_node(frame, node),
        Statements::Step(node, rest) => {
            add_node(frame, node)?;
            add_statements(frame, rest)
        }
    }
}
