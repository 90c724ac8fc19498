//! The control primitives over any object memory (chapter 29 of the Blue Book): blocks and performs, 80 to 84, the method cache, 89, and
//! the end of the run, 113.
//!
//! `run` does a primitive by its index, and says by its clause `serves` that it does what `control_primitive` of `blue_model` has for it.
//! A primitive that fails leaves the machine as it was. One that performs leaves the method to be executed in register 5, and the number
//! of its arguments in the processor's numbers.
//!
//!     match prims_control::run(m, cpu, 83)? {
//!         Answer::Execute => ..,                   // perform: found a method of so many arguments
//!         ended => ..,                             // Done, Quit, or Failed: then the method that has the primitive is activated
//!     }
//!
//! Read `Control.antt` of `blue_model` first. The scratch registers from 10 on are used. What is executed isn't executed here.
//!
//! - Proved: Over any object memory the primitives on blocks and performs, the flush of the cache and the end of the run serve the model's
//!   rules; one that fails has changed nothing.
//! - Tested: As cases (`docs/CASES.md`).
//! - Not said: Nothing that we know of.
#![tactic(auto)]

mod blocks;
mod numbers;
mod parts;
mod performs;
mod table;
mod values;

pub use contexts::{Answer, Cpu, Stop};
pub use table::run;
