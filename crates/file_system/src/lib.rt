//! The calls of a system on its files, as relations between the files before and behind them.
//!
//! The trait `System` has one method for each call that is made. A world is files by their numbers, names that lead to them, and open files by
//! their descriptors; each clause says which world a call leaves (`Does`), or that one that failed left it as it was or had done it all the
//! same (`MayDo`). `MayLeave` says what a loss of power may leave of a world: of a file what was synced, and of a name where it led when its
//! folder was synced, or anything that came behind.
//!
//! ```text
//! let opened = system.open("notes.part", Way::Append, Making::New, 0o666)?;
//! let n = system.append(opened.descriptor, &bytes)?;          // some of them, and at least one
//! system.sync(opened.descriptor)?;                            // what it holds lasts
//! system.rename("notes.part", "notes")?;
//! ```
//!
//! Read `specs/World.antt` first, then `Calls.antt`. How a file is used belongs to its opening (`way`), so that a system that passes the calls
//! on has nothing to decide.
//!
//! - Proved: Nothing here: what stands over it holds over every system that is as the clauses say. `memory_files` meets all clauses together.
//! - Tested: Nothing: it has no code.
//! - Not said: Modes of files, how full a disk is, other processes that change the same files, and times.
#![tactic(auto)]

mod system;

pub use system::{ERRORS, Found, Kind, Making, OUTPUT, Opened, Refusal, System, Way};
