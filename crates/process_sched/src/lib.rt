//! Processes and semaphores over any object memory (chapter 29 of the Blue Book): the primitives 85 to 88, signals, and the switch from
//! a process to another.
//!
//! `run` does a primitive by its index, and says by its clause `serves` that it does what `process_primitives` of `blue_model` has for
//! it; `signal` and `switch` serve the rules of these names. A process that is to go on waits in its register, with `waiting` set, until
//! `switch` makes it the active one.
//!
//!     signal(m, cpu, Reg::INPUT_SEMAPHORE)?;       // the first that waits there is resumed, or one signal more is kept
//!     if cpu.waiting {
//!         switch(m, cpu)?;
//!     }
//!
//! Read `Processes.antt` of `blue_model` first; `Queues.antt` there reads process lists as lists, and laws say that they are queues. The
//! scratch registers from 10 to 17 are used, and those of `contexts`. When a switch is made is its caller's to say.
//!
//! - Proved: Over any object memory the primitives on processes and semaphores, signals and the switch serve the model's rules; one that
//!   fails has changed nothing.
//! - Tested: Three processes that signal each other, saved after each bytecode, as a case.
//! - Not said: Nothing that we know of.
#![tactic(auto)]

mod lists;
mod scheduler;
mod semaphores;
mod switches;
mod table;

pub use contexts::{Answer, Cpu, Stop};
pub use semaphores::signal;
pub use switches::switch;
pub use table::run;
