//! What the code of a method keeps to: its stack, its jumps, its literals.
//!
//! Laws over the definition of `st80_compile`, with no code that runs. Each instruction of a method has the height of the stack that it
//! says: wherever an instruction goes, another begins with as many values as it leaves, or the code ends. So jumps land on instructions.
//! And where a method was made, no instruction pushes past its context, and each literal and temporary that one names is there.
//!
//! Read `specs/Heights.antt` first.
//!
//! - Proved: All of it, of every tree.
//! - Tested: Nothing is left to test, since the crate does nothing.
//! - Not said: That a block runs over the stack of the context that was made for it; that the machine runs code as `Runs` has it.
#![tactic(auto)]

pub mod laws;
