//! Tests of what stands below any memory: names and values, the hosts, records as bytes, the builder of images, the lines of a trace, the
//! words of the commands with a vault, and vaults.
//!
//! They are over public calls, and keep what no case of `loom_cases` runs: a call at values that are worked out by hand, a host or a
//! vault over real files, and that a call which takes memory succeeds where there is enough. Hosts that fail are those of `work_tests` and
//! `machine_tests`. A test is a table of rows with named fields, and one loop over them. There is one file for each crate: `names` for
//! `long_names`, `hosts` for `loom_outside`, `records` for `image_format`, `builders` for `image_builder`, `generated` for `loom_gen`,
//! `windows` for `work_windows`, `traces` and `words` for `loom_words`, `vaults` for `checkpoint` but for `keep`, which has its tests in
//! `work_tests`. The crate has no function of its own.
//!
//! - Proved: Nothing: tests over public calls.
//! - Tested: Values, hosts in memory and over real files, records, windows, vaults, the rules that a builder breaks.
//! - Not said: Nothing else.
#![tactic(auto)]

#[cfg(test)]
mod builders;
#[cfg(test)]
mod generated;
#[cfg(test)]
mod hosts;
#[cfg(test)]
mod names;
#[cfg(test)]
mod records;
#[cfg(test)]
mod traces;
#[cfg(test)]
mod vaults;
#[cfg(test)]
mod windows;
#[cfg(test)]
mod words;
