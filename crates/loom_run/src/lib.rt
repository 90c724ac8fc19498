//! The program: an image and its events are read, so many bytecodes are run over the memory of two levels, and what was said, an image and
//! a picture are written. Or a large image is made from a number, and written; or an image is written as text, or a text as its image; or
//! a run is written as a trace, a line for each bytecode.
//!
//! `loom` does what the words of a command ask for, over any host. Its clauses are the record `Promise`: read `specs/Promise.antt`
//! first; and `specs/Headline.antt`, which has it in seven lines for a run that goes through. `specs/Shows.antt` has the same for a
//! trace (`a_trace_shows_the_run`). When a run comes to the model's own end is the law `a_run_comes_to_its_end`; `worked_headline` has one.
//!
//!     let status = loom(alloc, host, &words);   // run IMAGE EVENTS WORK SAVED DISPLAY CORE ENTRIES ROOM STEPS, make NUMBER FILE,
//!     ExitCode::from(status.code())             // list IMAGE WORK TEXT, asm TEXT WORK IMAGE,
//!                                               // or trace IMAGE EVENTS WORK TEXT CORE ENTRIES ROOM STEPS
//!
//! A run has stages (`specs/Stages.antt`), in the order in which it uses the roles of its host. `program` has them in that order; `reading`,
//! `machine` and `writing` have the steps. Each step says what it did with its roles and why it was refused; each part of the run takes
//! what came before it as a premise, and says how the whole run ends from there. Nothing is said of time. Want of memory may come in reading,
//! in making the memory, in the picture of a machine that was parked and in saving, and never in a cycle. A making has one
//! step (`making`), and leaves what `specs/Makes.antt` says. A listing and an assembling are one function with two ways (`converting`), and leave
//! what `specs/Converts.antt` says.
//!
//! A trace (`following`) has the stages of a run as far as the memory is made, with Saved attached before it; then `trace` of `tracing` runs over
//! it as `run` does, and puts a line to Saved for each bytecode (`specs/Traces.antt`). What it leaves says `specs/Traced.antt`.
//!
//! `loom_observed` is `loom` with an `Observer` of machine_run, who is told how far a run is.
//!
//! Whoever puts a run of another kind together has the steps of this one in `steps`.
//!
//! - Proved: The records `Promise` and `Headline` are the clauses of `loom`, over every host; its laws say that a run without faults comes
//!   to its end, and that what was read determines what is written (`docs/PROMISE.md`).
//! - Tested: Words, faults, refusals, listings and traces (`machine_tests`, `trace_tests`), the cases, and real files (`tests/all.sh`).
//! - Not said: Time; that out of memory has a cause; that the first call that fails ends a command; when the first tables of a trace are
//!   made. Over a host that doesn't tell Work: what was read and written.
#![tactic(auto)]

mod converting;
mod following;
pub mod laws;
mod machine;
mod making;
mod program;
mod reading;
mod status;
pub mod steps;
mod tracing;
mod writing;

pub use loom_words::Status;
pub use machine_run::{
    Finished, Halted, NoObserver, Observer, Progress, Reason, State, run, whole_run,
};
pub use program::{loom, loom_observed};
pub use tracing::{TraceStop, trace};
