//! The resident table of a core: the short name of each name that has an entry.
//!
//! A table stands for a map from names to short words, `short_of`, and `insert` and `remove` are one equation of whole maps each. `find`
//! answers None exactly where a name has none. There is room for as many names as the table was made for, so no call but `new` takes
//! memory, and each takes constant time on average, also where names were made one after another: homes spread.
//!
//! ```text
//! let mut resident = Resident::new(alloc, table.entries())?;
//! if resident.find(name).is_none() {
//!     resident.insert(name, s);
//! }
//! ```
//!
//! Read `specs/Resident.antt` first; `probing` has how names are found. The table doesn't know what a short name means: that an
//! entry and its name belong together is for the layers above `Parts2` to keep.
//!
//! - Proved: `Resident` is a map from long names to short ones with room for all entries; each change is one equation of whole maps.
//! - Tested: A map filled and emptied (`core_tests`).
//! - Not said: How many steps a search takes.
#![tactic(auto)]

mod probe;
mod resident;

use object_table::Table;
pub use resident::Resident;

/// The entries of a core, and the table that finds them by their names.
#[derive(Drop)]
pub struct Parts2 {
    pub table: Table,
    pub resident: Resident,
}
