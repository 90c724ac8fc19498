//! The words of the program: those of each command, and those that it says.
//!
//! `asked_of` reads what the words behind the program's name ask for: `IsAsked` of `specs/Command.antt`. It refuses exactly at the first bad,
//! missing or extra word, by the rows of `specs/Words.antt`: a row is a list of checks, one a word, and the first word decides which row the
//! others are compared with. Which words are right then is the law `right_words`.
//!
//!     match asked_of(&words) {
//!         Ok(Asked::Run(command)) => ..,                          // run IMAGE EVENTS WORK SAVED DISPLAY CORE ENTRIES ROOM STEPS
//!         Ok(Asked::Make(making)) => ..,                          // make NUMBER FILE
//!         Ok(Asked::List(conversion)) => ..,                      // list IMAGE WORK TEXT
//!         Ok(Asked::Assemble(conversion)) => ..,                  // asm TEXT WORK IMAGE
//!         Ok(Asked::Trace(command)) => ..,                        // trace IMAGE EVENTS WORK TEXT CORE ENTRIES ROOM STEPS
//!         Err(word) => say(&Status::Usage { word }.line()),       // "usage: word 3\n"
//!     }
//!
//! `kept_of` reads the words of the two commands with a vault, `guard IMAGE EVENTS WORK SAVED DISPLAY CORE ENTRIES ROOM STEPS VAULT` and
//! `resume VAULT EVENTS WORK SAVED DISPLAY CORE ENTRIES ROOM STEPS`: `IsKept` of `specs/Kept.antt`, with its rows and the law
//! `right_kept_words`. It answers None of all other words.
//!
//! `keep_apart` tells a host and a vault, before a file is opened, which files the words of a command name, so that none takes a file that another
//! keeps: by the table of `specs/Files.antt`, which the code of `files.rt` has, and whose laws tie it to what is read of the words.
//!
//! `Status` says how a command ended, with its line and the exit status (`specs/Status.antt`). Nothing here takes memory, and nothing knows
//! a host or a machine.
//!
//! - Proved: The words of each command are read within their limits, or refused exactly at the first bad, missing or extra one. Each status
//!   has its line and exit code. Which files the words of each command name, and what is told of them, is one table; right words name no file
//!   twice where it may not be.
//! - Tested: Each word bad, missing or extra (`machine_tests`, `guard_tests`); lines of traces (`outside_tests`).
//! - Not said: Nothing that we know of.
#![tactic(auto)]

mod files;
mod kept;
pub mod laws;
mod status;
mod trace;
mod words;

pub use files::{KeepsApart, Listener, keep_apart};
pub use kept::{Guarded, Kept, kept_of};
pub use status::{Line, Status};
pub use trace::trace_line;
pub use words::{
    Asked, Command, Conversion, LEAST_CORE, LEAST_ENTRIES, LEAST_ROOM, MOST_CORE, MOST_ENTRIES,
    MOST_ROOM, MOST_STEPS, Making, asked_of,
};
