//! A program in Smalltalk, out of source files: its classes, its methods and what it begins with.
//!
//! `program_of` reads the chunks of some files. A chunk of blanks and comments announces a header as `Object methodsFor: 'comparing'`; the chunks
//! behind that are methods, up to one of blanks. Other chunks define classes, or are statements to begin with. `trees_of` then resolves the methods:
//!
//!     match program_of(alloc, &texts)? {
//!         Reading::Program(program) => trees_of(alloc, &program)?,
//!         Reading::Wrong(problem) => say(problem.source, problem.place, problem.what),
//!     }
//!
//! - Proved: It is safe and returns. Each class stands behind its superclass, under a name of its own, and each method has a class (`IsProgram`).
//!   Each method has its tree, no class has two methods of one selector, and each message has a selector that some method has (`AreOf`).
//! - Tested: What is refused, and where (`tests/build.sh`).
//! - Not said: What texts are read as, beyond that.
#![tactic(auto)]

mod definitions;
mod problem;
mod program;
mod reading;
mod trees;

pub use problem::{Problem, What};
pub use program::{Class, Program, Shape, Written};
pub use reading::{Reading, first_place, program_of};
pub use trees::{Sending, Tree, Trees, Whole, trees_of};
