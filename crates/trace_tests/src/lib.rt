//! Tests of traces, over the program: the line of each bytecode, and what a trace leaves where it stops or a call fails.
//!
//! No case of `loom_cases` is traced. `images` has what is traced, `lines` the lines, by whatever comes before a bytecode in its cycle and whatever ends the
//! run, and `faults` hosts that fail at any call. The crate has no function of its own.
//!
//! - Proved: Nothing: tests over public calls.
//! - Tested: Traces with the lines that the reference machine writes, up to each kind of stop, and calls that fail.
//! - Not said: Nothing else.
#![tactic(auto)]

#[cfg(test)]
mod faults;
#[cfg(test)]
mod images;
#[cfg(test)]
mod lines;
