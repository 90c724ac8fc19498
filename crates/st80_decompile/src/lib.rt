//! The tree of a method out of its code.
//!
//! `decompile` reads what `st80_compile::compile` makes back into a tree, and answers one only where it has that code and those literals:
//!
//!     let found = decompile(Global, &made)?;   // None where code isn't that of a tree
//!
//! - Proved: A tree that is answered has just that code.
//! - Tested: That each method of the kernel has a tree (`tests/source.sh`).
//! - Not said: For which code there is one.
#![tactic(auto)]

mod decompiler;
mod frames;
mod ops;
mod reader;
mod stop;

pub use decompiler::decompile;
