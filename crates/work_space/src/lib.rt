//! Blocks in the work file: a block of size class c has 32 * 2^c bytes, for c from 0 to 14.
//!
//! Blocks are laid one behind the other from a place on. A block that is given back is linked through Work itself into the list of its
//! size class, and taken again before a new one is laid. So `take` and `give` touch one link each, and take no memory.
//!
//! ```text
//! let mut space = Space::new(49_152);             // what Work holds before this place is the caller's
//! let place = space.take(&mut host, 2)?;          // 128 bytes from `place` on
//! host.write_at(place, &record)?;
//! space.give(&mut host, place, 2)?;
//! ```
//!
//! Which blocks are out is for the caller to know. What holds of them, `IsSpace`, speaks of a space, of what Work contains, and of the
//! blocks, so each call says what it makes of it where the host tells Work: the clauses `takes` and `gives`. The laws say what a caller
//! may write. Read `specs/Blocks.antt` first, then `specs/Space.antt`, then `specs/Calls.antt`. The crate doesn't know what is in a block.
//!
//! - Proved: Over a host that tells Work, `take` answers a block that shares no byte with any that is out, a free one first, and `give`
//!   loses none and changes no other byte.
//! - Tested: The bounds of each size class, and damaged links (`work_tests`).
//! - Not said: How much of the file is free at any time.
#![tactic(auto)]

pub mod laws;
mod limits;
mod link;
mod size_class;
mod space;

pub use limits::{LAST_END, SIZE_CLASSES, SMALLEST_BLOCK};
pub use size_class::{block_bytes, size_class_of};
pub use space::Space;
