//! A system in memory, for tests: it fails from a call on where it is told to, and loses its power.
//!
//! `MemoryFiles` is a `System` with one folder, whose paths are names. What it means is the list of the calls that it has done (`world_of`):
//! names, files and descriptors are read out of that list backwards.
//!
//! ```text
//! let mut system = MemoryFiles::new(alloc);
//! system.add("saved.loom", b"old")?;
//! system.fail_after(Some(5));             // so many calls pass, and each later one fails
//! let saved = save(&mut system, alloc, "saved.loom", b"new");
//! system.lose(Loss { names: true, fill: Some(7) })?;
//! ```
//!
//! Read `specs/Memory.antt`: `step` is what one call does.
//!
//! - Proved: It meets every clause of `System`, and tells all: so one system can meet them together. What a loss of power leaves of it is
//!   something that `MayLeave` allows (`lose.lost`).
//! - Tested: A saving over it, and that it answers as `system_files` does (`file_tests`).
//! - Not said: It has one folder and no links, devices, modes or times; an append and a write move three bytes at most, a read too; what was
//!   written to a file that was synced before is never lost; a name is lost with all others or not at all; no other process is there.
#![tactic(auto)]

mod calls;
mod memory;

pub use memory::{Loss, MemoryFiles};
