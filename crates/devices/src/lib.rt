//! The devices over any object memory (chapters 18 and 29 of the Blue Book): the primitives 93, 95, 97, 99, 100, 102 and 128, what is
//! due before a bytecode, the picture of the display, and the state that a machine goes on with.
//!
//! `run` does a primitive by its index, and says by its clause `speaks` that it does what `device_primitives` of `blue_model` has for
//! it; what 128 says is the last thing that it does. `due` takes the lines of the event list that come at this count, and then the
//! timer. `picture` draws the display: its clause `drawn` says that the bytes are the model's picture.
//!
//! `restore` goes on from a state after a start: the clock, the display, the semaphores and the timer.
//!
//!     devices::due(m, cpu, events)?;                    // before each bytecode
//!     let picture = devices::picture(alloc, m, &cpu)?;  // at the end: empty where no form is the display
//!
//! Read `Devices` and `Forms` of `blue_model` first, then `specs/Pictures`. The scratch registers from 10 to 19 are used, and those of
//! `contexts` and `process_sched`. It reads no file and writes none.
//!
//! - Proved: Over any object memory input, clock, timer, display, transcript and checkpoint serve the model's rules, and the picture is the
//!   one that is defined over the pixels of its form.
//! - Tested: Each condition broken, as cases (`docs/CASES.md`).
//! - Not said: That a purge line purges and a compact line compacts; this is read in the code.
#![tactic(auto)]

mod display;
mod drawing;
mod events;
mod fault;
mod input;
mod pixels;
mod state;
mod table;
mod ticks;
mod transcript;

pub use contexts::{Answer, Cpu, Stop};
pub use drawing::{picture, picture_row, picture_size};
pub use events::{due, is_idle};
pub use fault::PictureFault;
pub use pixels::MOST_ROW_BYTES;
pub use state::restore;
pub use table::run;
pub use ticks::clock;
