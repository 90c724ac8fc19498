//! The primitives on large integers, 21 to 37, over any object memory (chapter 29 of the Blue Book).
//!
//! `run` does a primitive by its index, and says by its clause `serves` that it does what `large_primitives` of `blue_model` has for it,
//! in whole numbers without bound. It is Failed exactly where a condition isn't met, and then nothing has changed.
//!
//!     let ended = large_ints::run(m, cpu, 21)?;      // receiver and argument on the stack; Done, with the sum there, or Failed
//!
//! Read `LargeInts.antt` of `blue_model` first, then `specs/Operations.antt`: which of its operations each row of the table here is. A
//! large integer is read whole, in one access; an answer is stored byte by byte. Between the two the code computes in 128 bits, and asks
//! of each operation whether its result has as many. The scratch registers from 10 to 19 are used.
//!
//! - Proved: Over any object memory the primitives 21 to 37 serve the model's table, for operands of up to 16 bytes; one that fails has
//!   changed nothing.
//! - Tested: As cases (`primitive_cases`).
//! - Not said: Numbers of more than 16 bytes: the primitive fails.
#![tactic(auto)]

mod answers;
mod operands;
mod operation;
mod primitives;
mod values;

pub use contexts::{Answer, Stop};
pub use primitives::run;
