//! Images as text.
//!
//! `list` puts the text of a disk's objects and of a machine's state to Saved: a line for the next name and the state, and a line for each
//! object, by rising name. It reads record by record, so it takes memory for one record and for the names alone. Where Work tells what
//! it holds, the bytes are the text of the disk's heap (`heap_text`); after a refusal a prefix of it was put.
//!
//! ```text
//! disk.attach(Role::Saved, name)?;
//! list(alloc, &mut disk, next, &state)?;
//! ```
//!
//! `assemble` reads such a text from Image, line by line, and puts its objects to a disk that is empty, without counts. Then it judges the
//! rules of the whole, in three steps over the names: that all names which objects hold have their objects (rule 10), that each object is
//! held or known (rule 11), and that the known objects and those of the state are there (12 and 14). Between the last two it gives each
//! object its count. After Ok the text was that of the disk's heap and of the state; Bad has the line and the rule that break first.
//!
//! ```text
//! disk.attach(Role::Image, name)?;
//! let loaded = assemble(alloc, &mut disk, MOST_OBJECTS)?;
//! ```
//!
//! Read `specs/Spelling.antt` and `specs/Breaks.antt` of text_lines, and then `specs/Assembled.antt`.
//!
//! - Proved: `list` puts the text of the disk's heap and state to Saved. `assemble` reads a text to an empty disk with exact counts, or
//!   answers the first line that breaks, and its rule.
//! - Tested: 99 changes of one text, each with its line and rule, files that are no texts, the longest line (`text_tests`); a million
//!   objects in 256 MB (`tests/large.sh`).
//! - Not said: How much memory assembling takes: one line, one record, and 12 bytes for each name, as the code reads.
#![tactic(auto)]

mod assembling;
mod fault;
mod judging;
mod lines;
mod listing;
mod reading;
mod spelling;

pub use assembling::assemble;
pub use fault::TextFault;
pub use listing::list;
