//! What the program `st80` shows and says: images, texts and pictures, the manual, and what an answer of `loom` means.
//!
//! `look`, `compare` and `check` are the commands `show`, `diff` and `check`, `convert` is `picture`, and `finish_picture` is what becomes of the
//! picture of a run. `explain` says on standard error what an answer means, by the row of words of the run. `manual_text` and `codes_text` are
//! the manual and the table of exit codes.
//!
//! - Proved: It ends and nothing panics. With which codes `show`, `diff` and `picture` end where nothing fails.
//! - Tested: What is shown and said (`tests/desk.sh`).
//! - Not said: The texts.
#![tactic(auto)]

mod drawing;
mod explaining;
mod manual;
mod showing;

pub use drawing::{Drawing, convert, drawing_of, finish_picture};
pub use explaining::explain;
pub use manual::{codes_text, manual_text};
pub use showing::{check, compare, labelled, look};
