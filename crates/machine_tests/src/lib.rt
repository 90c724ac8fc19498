//! Tests of the machine over any memory, and of the program: what no case of `loom_cases` runs.
//!
//! The cases run each bytecode and each primitive with each of its conditions, over the memory of two levels and a host in memory that
//! never fails. Here stands the rest, over public calls: what a memory with bounds refuses, with the exact need; two objects that
//! change places; rows of its cache; starts that go on from a state; whole runs in the smallest core; the words of a command;
//! hosts that fail at any call; objects for which there is no room; and that the program runs over the memory of two levels. `steps`
//! has calls of a memory as data, `memories` tables of them, `cached` lookups, `states` starts, `runs` whole runs over a memory with bounds,
//! `words`, `programs`, `failing`, `makings` and `conversions` commands.
//! The crate has no function of its own.
//!
//! - Proved: Nothing: tests over public calls.
//! - Tested: Refusals with their numbers, states, words, faults of each role at each stage, listings and assemblings through the program.
//! - Not said: Nothing else.
#![tactic(auto)]

#[cfg(test)]
mod cached;
#[cfg(test)]
mod conversions;
#[cfg(test)]
mod failing;
#[cfg(test)]
mod makings;
#[cfg(test)]
mod memories;
#[cfg(test)]
mod programs;
#[cfg(test)]
mod runs;
#[cfg(test)]
mod states;
#[cfg(test)]
mod steps;
#[cfg(test)]
mod words;
