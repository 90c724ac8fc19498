//! What the names of a method mean: a tree of tokens becomes one of variables, literals and messages.
//!
//! `method_of` takes the tree that `st80_parser` made of a text, and answers that of `st80_tree` with the method's selector, or the first complaint:
//!
//!     match method_of(alloc, &mut pool, &around, text, &parsed)? {
//!         Resolved::Method(found) => ..,
//!         Resolved::Refused(complaint) => say(complaint),
//!     }
//!
//! Names are looked up among the temporaries of the method, then the fields of its class, then the shared variables. Literals go into the pool.
//! Messages with literal blocks that are compiled to jumps become the forms for them.
//!
//! - Proved: It is safe and returns. A name stands for its innermost declaration (`declaration_of`). The arguments of a method are the first of its
//!   temporaries, of which there are at most 31. The name that was probably meant is one of those that are known.
//! - Tested: What is refused, and where (`tests/build.sh`).
//! - Not said: That a tree means what its text says.
#![tactic(auto)]

mod blocks;
mod complaint;
mod literals;
mod lookup;
mod methods;
mod nearness;
mod nodes;
mod scope;

pub use blocks::{Given, given_in};
pub use complaint::{Complaint, Reason};
pub use lookup::{Declared, declaration_of, place_in};
pub use methods::{Around, Found, Resolved, method_of};
pub use nearness::nearest;
pub use scope::{Call, spelling};
