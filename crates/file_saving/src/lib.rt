//! A file is saved under a name so that the name leads to the old file or to the whole new one at each moment, whatever fails, and after a
//! loss of power too.
//!
//! The new file is written beside the one of its name, synced, and renamed; then the folder is synced. `save` does all of it; `begin`, `write`,
//! `finish` and `discard` are its steps, for a caller that writes as it goes. `old_or_new` of `save` says what the name leads to at each moment
//! between, and `saved` what it leads to behind an Ok, with no premise. Both are facts about every system that tells of its files (`System`).
//!
//! ```text
//! let saving = begin(system, alloc, "saved.loom", None)?;
//! write(system, &saving, &bytes)?;        // as often as it takes
//! finish(system, saving)?;                // now the name leads to it, and a loss of power changes nothing
//! ```
//!
//! Read `specs/Saving.antt`, its first part alone.
//!
//! - Proved: Over every system that tells: the name leads to the old file or to the whole new one, at each moment and after a loss of power;
//!   behind an Ok to the new one. A giving up leaves the name as it was. Each call leaves what other descriptors accepted, and which file
//!   each is of (`KeepsPut`).
//! - Tested: 504 cases that fail from each call on, with losses of power (`file_tests`).
//! - Not said: That anything is saved where another process changes the same names.
#![tactic(auto)]

mod saving;

pub use saving::{Saving, begin, discard, finish, give_up_for, save, write};
