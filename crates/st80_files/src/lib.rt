//! Files and streams of the program `st80`, its temporary folder, where the files of a row of words stand, and how it ends.
//!
//! `Code` has the exit codes (`specs/Codes.antt`): those of `loom`, and from 20 on those of `st80` alone. `Failure` is why it ends before `loom` would.
//! `Temporary` is a folder of the run's own. `try_writing` tries whether a file can be written, and leaves it as it is.
//!
//! - Proved: It ends and nothing panics. The code of a status of `loom` is that of `loom`, and each code is its number in the table,
//!   and comes in words of its own. Each failure has the code of what was tried.
//! - Tested: What becomes of files and streams, and what is said of them (`tests/desk.sh`).
//! - Not said: What files and streams do.
#![tactic(auto)]

mod codes;
mod failure;
mod files;
mod places;
mod temporary;

pub use codes::{ALL, Code, all_are_there, code_for, codes_are_apart};
pub use failure::{Failure, failed, file_failed};
pub use files::{
    STREAM, Stated, bytes_of, bytes_or_input, copy_in, copy_out, copy_pipe, folder_of, is_pipe,
    put_bytes, stated_of, try_writing,
};
pub use places::{Places, places_in, word_at};
pub use temporary::Temporary;
