//! The pool of the literals of methods: each stands in it once, under a number.
//!
//! Trees of methods name their literals by these numbers. The first are those that `st80_tree` knows: the selectors that code has bytecodes or jumps
//! for, and small integers.
//!
//!     let mut pool = Pool::new(alloc)?;
//!     let number = pool.number_of(Entry::Symbol(name))?;
//!
//! - Proved: A number that is answered is that of an entry that stands for the literal, and no entry goes or changes.
//! - Tested: Nothing by itself.
//! - Not said: That no two entries are one literal, and that out of memory has a cause.
#![tactic(auto)]

mod pool;

pub use pool::{Entry, Pool};
