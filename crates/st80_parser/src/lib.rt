//! The syntax of methods (chapter 27 of the Blue Book), as a tree of tokens.
//!
//! `method_in` reads the tokens of a method, and `statements_in` those of statements by themselves:
//!
//!     match method_in(alloc, &tokens)? {
//!         Parsed::Method(method) => ..,
//!         Parsed::Refused(refused) => say(refused.number, refused.expected),
//!     }
//!
//! The types of the tree are the grammar's rules: each of their variants has the tokens and the parts that the rule has, in their order. What a
//! tree is written as is thus all of its tokens, from left to right (`specs/Written.antt`). `specs/Grammar.antt` says which trees are of the grammar:
//! of which kinds their tokens are, which expression stands where, and how deep they nest.
//!
//! Where the parser stands is a list of what may come (`specs/Stands.antt`), and the next token's kind alone says what comes of it. Each rule of the
//! code leaves the list behind its own part, or is refused where the list has nothing for the next token. Read `specs/Written.antt`, then
//! `specs/Grammar.antt`.
//!
//! - Proved: A tree that is answered is written as the tokens, all of them. Tokens that a tree of the grammar is written as are never refused. A
//!   refusal is at the first token that no rule takes where the parser stands, or behind the last: no tree of the grammar is written as the tokens
//!   before it and then one of its kind, whatever follows. Every call returns.
//! - Tested: Nothing by itself.
//! - Not said: That a tree that is answered is of the grammar, and the only one that is so written. That what stands before a refusal begins a tree.
#![tactic(auto)]

mod arrays;
mod cursor;
mod error;
mod expressions;
mod kinds;
mod making;
mod methods;
mod rules;
mod tree;

pub use error::Expected;
pub use methods::{Parsed, Refused, method_in, statements_in};
pub use tree::{
    Elements, Expr, Header, Last, Method, Names, Others, Pairs, Parts, Pattern, Primitive, Steps,
    Temporaries,
};
