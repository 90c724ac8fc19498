//! Large images from a number.
//!
//! `make` answers the image of a number, at most `LAST_NUMBER`. Its bytes are the text of one heap (`text`), which an image may have
//! (`image`): known objects, a scheduler with three processes, a dictionary of twelve messages, a form, a stream, the characters, and
//! nodes, 1,000 more than those of the number before. Want of memory is its only refusal.
//!
//!     let image = make(alloc, 0)?;                    // 77,460 bytes
//!     assert_eq!(rt; object_count(0), 1_327);
//!     assert_eq!(rt; next_name(0), 2_670);
//!
//! Read `specs/Generated.antt` first, then `Table.antt` and `Messages.antt`: each object as a function of its name. The code has a
//! table of its own (`src/table.rt`), which stands for the same objects. What the processes do when the image is run is said nowhere.
//!
//! - Proved: `make` gives the image of the heap that `specs/Generated.antt` defines for a number from 0 to 19, object by object.
//! - Tested: The first image's length and ends. All twenty were compared once with those of the reference machine, byte for byte.
//! - Not said: What the three processes do when such an image is run.
#![tactic(auto)]

mod generator;
pub mod laws;
mod names;
mod nodes;
mod rows;
mod table;

pub use generator::{LAST_NUMBER, make, next_name, object_count};
