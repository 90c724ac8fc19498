//! The files of a host's roles, over any system.
//!
//! Each call opens, empties, reads or writes the file of one role. Its clause says what it leaves: what descriptors accepted, which file each is
//! of, and a file that is written beside another and isn't finished (`Leaves`, `Puts`). `begin_saved` begins such a file for Saved, and leaves
//! the one of its name as it is, at each moment.
//!
//! ```text
//! let work = attach(system, alloc, "work", Way::Place, Role::Work, &table, &beside)?;     // empty, and no other role's
//! write_whole(system, &work, 512, &page)?;
//! let saving = begin_saved(system, alloc, "saved.loom", &table, &beside, true)?;          // written beside it
//! ```
//!
//! Read `specs/Open.antt`, then `Share.antt`.
//!
//! - Proved: Over every system that tells: no call on another role's file changes an unfinished one, or what was put through another descriptor;
//!   no role's file is the unfinished one; `begin_saved` leaves the name as it was. A role that is written has neither the file that is kept nor
//!   one that Image or Events is read from, Saved has the place of none of these where they aren't shared, and Work has none that is expected.
//! - Tested: As part of `file_host` (`file_tests`).
//! - Not said: What files hold, but for the unfinished one; that two roles which are written have two files.
#![tactic(auto)]

mod files;
mod paths;
mod saved;
mod table;

pub use files::{
    Used, attach, open_old, put, put_some, put_through, read_whole, settle, shut, take_some,
    write_whole,
};
pub use paths::followed;
pub use saved::begin_saved;
pub use table::{Beside, Expected, Table};
