//! The primitives on objects, arrays and streams over any object memory (chapter 29 of the Blue Book): 60 to 75, 79, 110
//! and 111.
//!
//! `run` does a primitive by its index, and says by its clause `serves` that it does what `object_primitives` of `blue_model` has for
//! it. A primitive that fails leaves the machine as it was.
//!
//!     let ended = prims_object::run(m, cpu, 60)?;      // Answer::Done, or Answer::Failed: then the method is activated
//!
//! The scratch registers from 10 to 19 are used. `specs/Leads.antt` has what a call says that begins a rule.
//!
//! - Proved: Over any object memory the primitives on objects, arrays and streams serve the model's table, `become:` among them; one that
//!   fails has changed nothing.
//! - Tested: Each primitive with each condition broken, as cases (`primitive_cases`).
//! - Not said: Nothing that we know of.
#![tactic(auto)]

mod arrays;
mod becomes;
mod characters;
mod elements;
mod endings;
mod extents;
mod indexes;
mod instances;
mod methods;
mod names;
mod operands;
mod specifications;
mod streams;
mod table;

pub use contexts::{Answer, Cpu, Stop};
pub use indexes::number_object;
pub use table::run;
