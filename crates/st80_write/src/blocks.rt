// Which temporaries are arguments of blocks.
use st80_tree::{Messages, Node, Nodes, Statements};
use std::alloc::AllocError;

/// The arguments of a block: so many temporaries from the first one on.
#[derive(Clone, Copy)]
pub(crate) struct Arguments {
    pub(crate) first: u8,
    pub(crate) count: u8,
}

#[cycle(blocks)]
fn in_node(found: &mut Vec<Arguments>, node: &Node) -> Result<(), AllocError> {
    match node {
        Node::Constant(_) | Node::Context | Node::Literal(_) | Node::Variable(_) => Ok(()),
        Node::Assign(_, value) => in_node(found, value),
        Node::Send {
            to_super: _,
            receiver,
            selector: _,
            arguments,
        } => {
            in_node(found, receiver)?;
            in_nodes(found, arguments)
        }
        Node::Cascade {
            to_super: _,
            receiver,
            messages,
        } => {
            in_node(found, receiver)?;
            in_messages(found, messages)
        }
        Node::Block { first, count, body } => {
            found.push(Arguments {
                first: *first,
                count: *count,
            })?;
            in_statements(found, body)
        }
        Node::Choice {
            on: _,
            test,
            first,
            second,
        } => {
            in_node(found, test)?;
            in_statements(found, first)?;
            in_statements(found, second)
        }
        Node::Loop { on: _, test, body } => {
            in_statements(found, test)?;
            in_statements(found, body)
        }
    }
}

#[cycle(blocks)]
fn in_nodes(found: &mut Vec<Arguments>, nodes: &Nodes) -> Result<(), AllocError> {
    match nodes {
        Nodes::End => Ok(()),
        Nodes::More(node, rest) => {
            in_node(found, node)?;
            in_nodes(found, rest)
        }
    }
}

#[cycle(blocks)]
fn in_messages(found: &mut Vec<Arguments>, messages: &Messages) -> Result<(), AllocError> {
    match messages {
        Messages::Last {
            selector: _,
            arguments,
        } => in_nodes(found, arguments),
        Messages::Then {
            selector: _,
            arguments,
            rest,
        } => {
            in_nodes(found, arguments)?;
            in_messages(found, rest)
        }
    }
}

/// Adds the arguments of each block of statements.
#[cycle(blocks)]
pub(crate) fn in_statements(
    found: &mut Vec<Arguments>,
    statements: &Statements,
) -> Result<(), AllocError> {
    match statements {
        Statements::Done => Ok(()),
        Statements::Value(node) | Statements::Return(node) => in_node(found, node),
        Statements::Step(node, rest) => {
            in_node(found, node)?;
            in_statements(found, rest)
        }
    }
}

/// Whether a temporary is an argument of one of these blocks.
pub(crate) fn is_argument(found: &[Arguments], n: u8) -> bool {
    found.iter().any(|one| one.first <= n
        && u16::from(n) < u16::from(one.first) + u16::from(one.count))
}
