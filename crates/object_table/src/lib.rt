//! The table of a core's entries. A short name, an even word above 0, names an entry: what a core knows of one object.
//!
//! A table stands for a function from short words to entries, `entry_at`, and each call that changes it is one equation of whole
//! functions: `set` changes one entry that is in use, `add_ref`, `drop_ref`, `set_change`, `set_changed` and `set_touched` one field of it,
//! `take` makes a free entry a leaf, and `give` frees one. `used_entry` reads an entry that is known to be in use, with no test.
//! How many entries are free is always known, and each call takes constant time but `unmark_all`, which goes over the entries that were
//! marked since the last time. `used_end` says behind which entry nothing was ever in use.
//!
//! ```text
//! let mut table = Table::new(alloc, 512)?;
//! if let Some(s) = table.take(Name::NIL) {    // of the short names 2 to 1024
//!     table.add_ref(s);
//! }
//! ```
//!
//! Read `specs/Entries.antt` first, then `specs/Table.antt`. `laws` says that each entry is free or in use, by numbers. The table
//! doesn't know which short name a name has, nor where a body lies, and it counts no references by itself.
//!
//! - Proved: `Table` has an entry under each short name; each call changes one entry and says how many are free, and `take` answers None
//!   exactly where none is. Nothing is in use behind `used_end`, and no mark is left behind `unmark_all`.
//! - Tested: A table filled, an entry used and given back, flags as bits (`core_tests`).
//! - Not said: That each call takes constant time; this is read in the code.
#![tactic(auto)]

mod entry;
mod flags;
pub mod laws;
mod table;

pub use entry::{Entry, EntryState, Short};
pub use flags::EntryFlags;
pub use table::{MOST_ENTRIES, Table};
