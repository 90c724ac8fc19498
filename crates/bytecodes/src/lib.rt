//! The bytecodes over any object memory (chapter 28 of the Blue Book): one step of the machine, by the byte that it fetches. Sends
//! execute the method that lookup finds, and a method's primitive is tried first. Input comes from an event list.
//!
//! That `step` does what the model's rule `step` says, with the cause of each stop, is its clause `serves`; the rule may say something
//! on the transcript as the last thing that its bytecode does. `specs/Serves.antt` of `contexts` says what that means, and is read
//! first. Not done here: counting bytecodes, taking the lines of the event list that are due, the process switch, and settling.
//!
//!     start(m, &mut cpu)?;
//!     while step(m, &mut cpu, &events)? == Step::Next {
//!         m.settle()?;
//!     }
//!
//! - Proved: Over any object memory `step` fetches a byte and does what the model's table says for it; what it says on the transcript comes
//!   last.
//! - Tested: Each bytecode with each of its causes, as cases (`loom_cases`).
//! - Not said: Nothing that we know of.
#![tactic(auto)]

mod dispatch;
mod execution;
mod jumps;
mod returns;
mod sends;
mod stacks;
mod tries;
mod variables;

pub use blue_model::Step;
pub use dispatch::step;
