//! Tokens of Smalltalk-80 (chapter 27 of the Blue Book has its syntax in diagrams).
//!
//! `scan` reads the tokens of a text, each with its place and length, or answers the first place where no rule begins a token:
//!
//!     match scan(alloc, text)? {
//!         Scanned::Tokens(tokens) => parse(&tokens),
//!         Scanned::Refused(refusal) => say(refusal.at, refusal.fault),
//!     }
//!
//! A text falls into pieces, each as long as a rule of `specs/Pieces.antt` has it; blanks and remarks are pieces too, and no tokens. `integer_in` is
//! the number that an integer spells. Read `specs/Pieces.antt`, then `specs/Tokens.antt`.
//!
//! - Proved: The tokens are those of the pieces of the text, in order and all of them. A refusal stands where the pieces before it end, and no
//!   rule takes what stands there. What figures come to.
//! - Tested: Nothing by itself.
//! - Not said: That out of memory has a cause.
#![tactic(auto)]

mod bytes;
mod numbers;
mod pieces;
mod scanner;
mod token;

pub use numbers::{LARGEST, integer_in};
pub use pieces::piece_at;
pub use scanner::{Refusal, Scanned, scan};
pub use token::{Fault, Kind, Token};
