//! How much a memory of two levels holds of its own.
//!
//! Laws over the struct of `loom_memory`, with no code that runs. What a memory holds is counted field by field, down to the lists that grow with
//! the sizes it was made for: the words of its core, its table of entries, and the slots by which entries are found. The host that it borrows isn't
//! its own.
//!
//! Read `specs/Held.antt` first.
//!
//! - Proved: A sound memory holds at most two bytes for each word of its core, a fixed number for each entry, and a constant (`a_memory_is_small`).
//!   Its sizes are those that it tells, which no call changes. Each struct on the way has no field but those that are counted
//!   (`nothing_else_is_held`).
//! - Tested: Nothing is left to test, since the crate does nothing.
//! - Not said: What the process holds beside it: the host and its windows, and the stack. How many bytes the compiler gives a struct is stated
//!   here as a number, and not proved.
#![tactic(auto)]

pub mod laws;
