//! The directory of the work file: the count and the place of each object on disk, by its name.
//!
//! A directory stands for a map from names to entries in the contents of Work, `entries_of`. `find` answers the map's entry, and None
//! exactly where there is none; `add`, `set` and `remove` are one equation of whole maps each (`Becomes`). `add` answers Full exactly
//! where as many names are held as there is room for. What stands in Work behind the slots stays, and no call takes memory. A directory
//! has blocks of slots, and only those that were ever written are read where its slots are looked at in turn.
//!
//! ```text
//! let mut directory = Directory::new(room);
//! directory.add(host, Slot { name, count: 1, place: directory.end() })?;
//! let slot = directory.find(host, name)?;
//! ```
//!
//! Read `specs/Directory.antt` first, then `specs/Work.antt` for why a call fails; `specs/Slots.antt` has the bytes, and `probing` how a
//! name is found. The crate doesn't know what stands at a place: that is for the layers above.
//!
//! - Proved: Over a host that tells Work it is a map from names to counts and places, and each call is one equation of whole maps. Over
//!   every host it says when it is full, that it touches Work alone, and that a look by a piece reads no block that was never written.
//! - Tested: Directories that are filled and emptied, damaged slots, and calls that fail (`work_tests`).
//! - Not said: Over a host that lies, which bytes were wrong.
#![tactic(auto)]

mod directory;
pub mod laws;
mod limits;
mod marks;
mod piece;
mod slot;

pub use directory::{Directory, Found};
pub use limits::{MOST_NAMES, SLOT_BYTES};
pub use piece::Piece;
pub use slot::{Slot, damaged};
