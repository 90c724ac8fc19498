//! The contract of an object memory (chapter 30 of the Blue Book, the object memory interface), as the trait `ObjectMemory`, and a
//! memory that meets it, `PlainMemory`, which is one map.
//!
//! Of each call that may be refused the clause `access` or `called` says what it changes and answers, or why it is refused and what is
//! left. Read `specs/Told.antt` first, what a memory tells of itself, then `specs/Contract.antt`.
//!
//! A caller is generic in the memory, and asks what an object is before it reads it:
//!
//! ```text
//! if !shape::has_field(m, of, 1)? {
//!     return Ok(false);
//! }
//! m.field(Reg::R10, of, 1)?;
//! ```
//!
//! `caller.rt` has it whole. The trait doesn't say which objects stand in a core, nor when one is freed that nothing holds.
//!
//! - Proved: `PlainMemory`, one map, meets the trait `ObjectMemory`, which says of each call what it asks, answers, changes and leaves, and
//!   why it may be refused. A caller that is generic is proved from these clauses alone.
//! - Tested: All calls of the trait on two memories side by side (`memory_tests`).
//! - Not said: Which objects are in a core, and when dead ones are freed; that is left to each memory.
#![tactic(auto)]

pub mod caller;
mod fault;
pub mod laws;
mod memory;
mod plain;
mod reg;
pub mod shape;

pub use fault::{MemFault, Need};
pub use memory::ObjectMemory;
pub use plain::PlainMemory;
pub use reg::Reg;
