//! What went wrong, in sentences for people.
//!
//! ```text
//! put_status(&mut out, &status, &files)?;                  // what an answer means, with paths, and what to do
//! put_cause(&mut out, cause)?;                             // what a cause of `stuck` is called and means
//! put_stuck(alloc, &mut out, &view, cause)?;               // where the machine stands, of a view of the image at the stop
//! put_core_full(&mut out, &need, core, entries)?;          // which --core and --entries this access asks for
//! put_work_full(&mut out, live, room)?;                    // which --room
//! put_image_break(alloc, &mut out, &bytes, rule, place)?;  // the rule, what stood there, whose record it is
//! put_events_break(&mut out, &bytes, line)?;
//! if let TextReading::Broken(found) = read_text(alloc, &bytes)? {
//!     put_text_break(alloc, &mut out, &bytes, &found)?;    // line, column, and what stood there
//! }
//! put_kind(&mut out, &bytes, Wanted::Image)?;              // `this is a text: ..`, where the file is of another kind
//! nearest(alloc, word, &["run", "make"])?                  // what was probably meant, within two edits
//! ```
//!
//! Each puts whole lines. What it is given may be anything: where it isn't what the answer speaks of, less is said.
//!
//! `read_text` is a reader of texts beside that of `image_text`, over the lines of `text_lines`. It answers the first break as `loom asm` does,
//! with a column, or the view of the text, in which all counts are 0.
//!
//! - Proved: Nothing panics, and all ends. The sizes that are advised are twice what there was or is needed, within limits. Each cause, kind of
//!   file, role and expectation has words of its own (`laws`).
//! - Tested: Lines and rules of `read_text` against those of `image_text`; the sentences (`st80_tests`).
//! - Not said: What else the sentences say.
#![tactic(auto)]

mod causes;
mod columns;
mod events;
mod images;
mod kinds;
pub mod laws;
mod nearness;
mod sizes;
mod statuses;
mod texts;
mod writing;

pub use causes::{put_cause, put_stuck};
pub use columns::{Expected, Spot};
pub use events::{first_bad_event, put_events_break};
pub use images::put_image_break;
pub use kinds::{FileKind, Wanted, file_kind, put_kind};
pub use nearness::nearest;
pub use sizes::{core_for, entries_for, put_core_full, put_work_full, room_for};
pub use statuses::{Files, put_status};
pub use texts::{TextBreak, TextReading, read_text};
pub use writing::put_text_break;
