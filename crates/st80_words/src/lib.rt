//! The words of the program `st80`: what they ask for, and the row of words by which the program `loom` does it.
//!
//! `request_of` reads the words behind the program's name, by clap, and its numbers by itself, so that it can say what was probably meant:
//!
//!     match request_of(alloc, &words) {
//!         Ok(Request::Run { image, running }) => ..,
//!         Err(Refusal::Help(text)) => print(text),
//!         Err(Refusal::Words(text)) => eprint(text),
//!         ..
//!     }
//!
//! Sizes that aren't asked for come of the image (`sizes_for`, by `specs/Sizes.antt`). A role that has no file has a spelling of the null device of
//! its own (`null_path`), since `loom` refuses a word that stands twice. `file_clash`, `image_clash` and `vault_clash` answer two files that are one
//! and may not be. Where they answer none, `run_row`, `guard_row` and `resume_row` make a row that `loom` finds right, and so do `make_row`,
//! `list_row` and `asm_row`.
//!
//! - Proved: What is asked for is within the limits of `loom`, and so are the sizes, which are exactly those of `specs/Sizes.antt`. Each row is
//!   one that `loom` finds right, of these files and numbers. No two roles have the same spelling of the null device.
//! - Tested: Which words ask for what, and what is said of others (`tests/desk.sh`).
//! - Not said: The texts.
#![tactic(auto)]

mod commands;
mod defaults;
mod numbers;
mod parsing;
mod request;
mod rows;

pub use commands::NAMES;
pub use defaults::{Sizes, default_core, default_room, sizes_for};
pub use numbers::{meant_number, number_in};
pub use parsing::help_of;
pub use request::{
    AskedSizes, LargeNumber, Refusal, Request, Running, Saving, Shown, Sources, Tracing, request_of,
};
pub use rows::{
    Clash, Unused, asm_row, file_clash, guard_row, image_clash, list_row, make_row, null_path,
    null_paths_are_apart, resume_row, run_row, vault_clash,
};
