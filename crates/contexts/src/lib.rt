//! Contexts over any object memory: their registers, stacks and code, how they are entered and left, and what rules look for in objects.
//!
//! - Proved: Over any object memory each call serves its rule of the model: the same answer and next machine, or the rule's cause, or a
//!   refusal with a need of the rule's log.
//! - Tested: By the cases (`docs/CASES.md`).
//! - Not said: Over a memory that tells no heap, only safety and the causes that name no row.
#![tactic(auto)]

mod answers;
mod code;
mod context;
pub mod data;
mod numbers;
pub mod parts;
pub mod peeks;
mod registers;
mod stacks;
mod stop;

pub use answers::{answer, boolean};
pub use blue_model::{Answer, Cause, Cpu};
pub use code::{fetch, jump};
pub use context::{active_process, back, enter, park, scheduler, start};
pub use registers::{clear, set_arguments};
pub use stacks::{peek_stack, pop, pop_top, push, put_stack, stack};
pub use stop::Stop;
