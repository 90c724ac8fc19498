//! What a person asks of an image, as text: `show`, `diff` and `check`.
//!
//! Each call puts ASCII lines at the end of a `String`. What is asked for by a name that the image hasn't is answered by
//! `Found::Nothing`, with a line that says what there is:
//!
//!     show(alloc, &mut out, &view, &Asked::Class("Integer"))?;
//!     let differs = show_difference(&mut out, &before, &after)?;
//!     let breaks = show_findings(alloc, &mut out, &view)?;
//!
//! - Proved: Nothing panics, and all ends. Two images differ exactly where their heads do, or the objects under one name
//!   (`specs/Same.antt`), and that is what `show_difference` answers. A stack is shown exactly where the active process has a context.
//! - Tested: What is put (`st80_tests`).
//! - Not said: The lines.
#![tactic(auto)]

mod ask;
mod changes;
mod check;
mod class;
mod columns;
mod image;
mod object;
mod process;
mod same;

pub use ask::{Asked, Found, show};
pub use changes::show_difference;
pub use check::{show_break, show_findings};
pub use class::{show_class, show_method};
pub use image::{show_counts, show_image};
pub use object::show_object;
pub use process::{put_frame, put_process, show_processes, show_stack};
pub use same::is_same_image;
