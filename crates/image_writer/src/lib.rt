//! A disk's objects as an image of version 2.
//!
//! `save` puts the head, with the machine's state, and then each record with its count, by rising name, to Saved. It reads record by
//! record, so it takes memory for one record and for the names alone. Where Work tells what it holds, the bytes are the text of the
//! disk's heap (`saved_text`); after a refusal a prefix of it was put. The bytes go to Saved some 16,000 at a time, whatever record they are
//! of: a record makes no write of its own, unless it is longer than that.
//!
//! ```text
//! disk.attach(Role::Saved, name)?;
//! save(alloc, &mut disk, next, &state)?;
//! ```
//!
//! Its condition is that the disk's counts are those of its heap. Read `specs/Saved.antt`. Whoever spells a disk's objects otherwise has the
//! names (`names_of`), what is kept of the state (`kept_state`), and the bytes that are gathered for Saved (`Gathered`, `put`, `flush`).
//!
//! - Proved: `save` puts the image of the disk's heap, with its counts and a state, to Saved; after a refusal it put a first part of that.
//! - Tested: States with names that aren't there, and each refusal with what was put (`work_tests`).
//! - Not said: Which place a Damaged names.
#![tactic(auto)]

mod fault;
mod gathered;
mod pieces;
mod saving;

pub use fault::SaveFault;
pub use gathered::Gathered;
pub use pieces::{flush, kept_state, put};
pub use saving::{names_of, save};
