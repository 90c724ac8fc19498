//! Runs and traces over the files and the streams of the process, for the program `st80`.
//!
//! `run_row` does what a right row of words asks of `loom` (`specs/Right.antt`): it makes the host and the vault of the process, tells both of the
//! files of the row, and calls `loom_kept`, as the program `loom` does. `ran_row` does the same, and answers which row was run, too (`Ran`).
//! `trace_run` is `trace` of `st80_trace` over such a host; its lines go to standard output.
//!
//! ```text
//! let status = run_row(rt, Hearing::Output, &row)?;
//! ```
//!
//! Where standard error is a terminal, `progress` shows there how far a run is, from the first second on: an `Observer` of `machine_run` is told of
//! its bytecodes, and `watched`, a host over the files, of what is read and written.
//!
//! Their contracts speak of rows, commands and statuses alone, so whoever calls them loads nothing of the interpreter.
//!
//! - Proved: It ends and nothing panics. Whoever calls it gives a row that `loom` finds right, or a command within the limits of `loom`; what
//!   `ran_row` answers has this row.
//! - Tested: What a run and a trace do to files and streams, and what a terminal shows of a run (`tests/desk.sh`).
//! - Not said: What files, streams and terminals do. That `run_row` answers what `loom_kept` promises of this row is read in its code.
#![tactic(auto)]

mod following;
mod progress;
mod running;
mod tracing;
mod watched;

pub use running::{Hearing, Ran, ran_row, run_row};
pub use tracing::{Lines, trace_run};
