//! Tests of the memory of two levels, over public calls: what it answers is what the memory that is one map answers.
//!
//! An image's objects are put on a disk, and a memory is made over it with a core, a room and a next name. Steps are taken over it and over one
//! map side by side: each has to see the same, and at the end both have the same image, byte for byte. A core may be purged and packed after
//! each step, so objects come in as leaves and lambdas.
//!
//! `steps` has calls of a memory as data, with `calls`; `runs` takes them. The tables: `tables` has all calls of the trait over several cores,
//! `refusals` each cause of a refusal with its numbers, `freeing` what dies and what stays, `cached` rows of the method cache, `lookups`
//! what a send's lookup leaves in it, `lines` what a purge line does, and `faults` hosts that fail or lie. The crate has no function of its
//! own.
//!
//! - Proved: Nothing: tests over public calls.
//! - Tested: The memory of two levels beside one map, call by call, in five cores; what dies; the method cache; failing calls and lying
//!   reads.
//! - Not said: Nothing else.
#![tactic(auto)]

#[cfg(test)]
mod cached;
#[cfg(test)]
mod calls;
#[cfg(test)]
mod faults;
#[cfg(test)]
mod freeing;
#[cfg(test)]
mod lines;
#[cfg(test)]
mod lookups;
#[cfg(test)]
mod refusals;
#[cfg(test)]
mod runs;
#[cfg(test)]
mod steps;
#[cfg(test)]
mod tables;
