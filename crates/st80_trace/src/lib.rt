//! A run that a person can follow: a line for each bytecode, in words.
//!
//! ```text
//! let mut options = Options::all();
//! options.sends = true;                                   // sends and returns alone
//! let status = trace(alloc, &mut host, &command, &view, &options, &mut out, &mut NoObserver)?;
//!
//!        1  Object>>doIt                    6  push 3                                     3
//!        2  Object>>doIt                    7  send #factorial, no arguments              3
//!        3    Integer>>factorial            6  push receiver                              3
//! ```
//!
//! A line has the number of the bytecode, how deep its context is, where it stands, the instruction and its place, and the top of the stack
//! behind it. `command` is that of `loom trace`; its file for lines isn't attached. `view` is the view of the same image, for names. A method
//! that was made during the run has a number, and its bytes aren't put in words. What the machine says goes to Transcript, as in a run.
//!
//! - Proved: It is safe and ends, and the answer is the status of a run. The machine goes by the calls that a run makes.
//! - Tested: That there is a line for each of `loom trace`, at the same place of its method (`tests/desk/traces.sh`).
//! - Not said: The words. To name the class of a new object the trace reads it, so a core that is only just large enough for the run may be
//!   too small for its trace.
#![tactic(auto)]

mod lines;
mod looking;
mod options;
mod stepping;
mod tracing;

pub use options::Options;
pub use tracing::trace;
