//! Methods of an image as source.
//!
//! `source_of` decompiles a method and writes its tree:
//!
//!     let source = source_of(alloc, &view, method)?;   // None where it has none
//!
//! Arguments and temporaries are called t1, t2 and so on, and fields of the receiver field1, field2 and so on, since no image has their
//! names. Shared variables, selectors and literals are written as the image has them.
//!
//! - Proved: Nothing panics, and all ends. The tree has just the method's code (`st80_decompile`).
//! - Tested: That what is written is compiled to the same method, of each of the kernel's (`tests/source.sh`).
//! - Not said: What is written.
#![tactic(auto)]

mod blocks;
mod given;
mod literals;
mod methods;
mod stop;
mod writer;

pub use methods::source_of;
