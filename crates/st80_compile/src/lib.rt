//! The code of a method, by the Blue Book's patterns (chapters 26 and 28).
//!
//! `compile` makes a method's code and says which literals it has, or why it has none:
//!
//!     let made = compile(Global, &method)?;
//!     made.literals   // numbers of the pool, each once
//!     made.code       // bytes
//!
//! Read `specs/Steps.antt` first: a tree's instructions, each with the height of the stack before it. `specs/Bytes.antt` has an
//! instruction's bytes, short forms first, `specs/Frame.antt` a tree's literals, and `specs/Compiled.antt` puts them together.
//!
//! - Proved: The code and the literals are those of the definition, or the refusal is the first that it has.
//! - Tested: What the code does, by runs of images (`tests/build.sh`).
//! - Not said: That code does what its tree means. Nothing is optimized beyond short forms, special sends, and jumps.
#![tactic(auto)]

mod bytes;
mod compiler;
mod frame;
mod step;
mod steps;

pub use bytes::{Bytes, Refusal};
pub use compiler::{Answers, Compiled, Stop, compile};
pub use step::{Op, Place, Step};
