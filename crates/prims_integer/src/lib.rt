//! The primitives on SmallIntegers, 1 to 18, over any object memory (chapter 29 of the Blue Book).
//!
//! `run` does a primitive by its index, and says by its clause `serves` that it does what `integer_primitives` of `blue_model` has for it,
//! in whole numbers without bound. It is Failed exactly where a condition isn't met, and then nothing has changed.
//!
//!     let ended = prims_integer::run(m, cpu, 1)?;      // receiver and argument on the stack; Done, with the sum there, or Failed
//!
//! Read `Arithmetic.antt` of `blue_model` first, then `specs/Operations.antt`: which of its operations each row of the table here is. The
//! code computes in 32 bits, which never overflow. The scratch registers from 10 to 19 are used. It knows no large integers: a result
//! out of range fails.
//!
//! - Proved: Over any object memory the primitives on numbers serve the model's table, whose arithmetic is that of whole numbers without
//!   bound; one that fails has changed nothing.
//! - Tested: Each pair of ten numbers under each operation, as cases (`primitive_cases`).
//! - Not said: Nothing that we know of.
#![tactic(auto)]

mod numbers;
mod operation;
mod point;
mod primitives;

pub use contexts::{Answer, Stop};
pub use primitives::run;
