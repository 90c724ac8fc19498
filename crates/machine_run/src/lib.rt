//! A run of the machine over any object memory (interpret, chapter 28 of the Blue Book): cycle by cycle, and whole, from a start to the
//! parked machine and its picture.
//!
//! `run` does so many bytecodes, and the memory settles after each. Its clause `runs` says that the memory then stands for the model's
//! machine after as many cycles, and of a stop in which cycle it came and why. `whole_run` starts with a state, runs, parks and draws
//! the display; its clause `ends` compares it with the model's `course`, behind what had been said before. Read `specs/Run.antt` first,
//! then `specs/States.antt`.
//!
//!     let finished = whole_run(alloc, &mut m, &events, steps, &State::NONE)?;   // Err: why it halted, and after how many bytecodes
//!     finished.end == Step::Quit                                                // or Next, where all were run
//!     finished.state                                                            // what a next run goes on from
//!
//! Whoever puts a run together of its parts has `begin`, `run`, `draw` and `state_of`, and `park` of contexts.
//!
//! `run_observed` and `whole_run_observed` are the same with an `Observer`, who is told every 65,536 bytecodes how many were run; `run` and
//! `whole_run` are these with nobody. An observer is handed three numbers, and no memory; `tell` is for whoever
//! runs cycle by cycle.
//!
//! `traced_cycle` does one cycle of a run that is traced: it also tells the active context, the instruction pointer and the byte there, as the
//! machine came to its bytecode (`specs/Sights.antt`).
//!
//! It reads no image and writes nothing: what a memory is made of and what becomes of it is its caller's. Over a memory that doesn't tell
//! its heap nothing is said but of counts and faults.
//!
//! - Proved: Over any object memory a run of so many bytecodes goes and stops as the model's, cycle by cycle, with its events, timer and
//!   switches; a stop for lack of room has the need of a row of that cycle.
//! - Tested: Whole runs in the smallest core in which they go through (`machine_tests`), and the cases.
//! - Not said: Time, the memory of the process, and that out of memory in drawing the picture has a cause.
#![tactic(auto)]

pub mod laws;
mod observer;
mod running;
mod states;
mod tracing;

pub use blue_model::Step;
pub use image_format::State;
pub use observer::{NoObserver, Observer, Progress, tell};
pub use running::{
    Finished, Halted, Reason, draw, is_last, run, run_observed, settle, whole_run,
    whole_run_observed,
};
pub use states::{begin, state_of};
pub use tracing::{Sight, Traced, traced_cycle};
