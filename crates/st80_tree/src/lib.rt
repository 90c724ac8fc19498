//! The tree of a Smalltalk-80 method (chapters 26 and 28 of the Blue Book).
//!
//! A `Method` has its `Statements`, and these its expressions (`Node`). Names are resolved: a variable is a temporary or a field by its
//! number, or the association of a shared one. Literals, selectors and associations stand as numbers of one pool, in which each is once;
//! the tree doesn't say what stands there, but for the first numbers of every pool, which `pool` tells.
//!
//! Messages whose arguments are literal blocks and that are compiled to jumps have forms of their own: `Choice` and `Loop`.
//!
//! - Proved: That it is safe. Which number stands first in a pool is a table.
//! - Tested: Nothing: it has hardly any code.
//! - Not said: Nothing else.
#![tactic(auto)]

mod pool;
mod tree;

pub use pool::{FIRST_INTEGER, INTEGERS, SELECTORS, arguments_of, name_of};
pub use tree::{Constant, Messages, Method, Node, Nodes, Statements, Variable};
