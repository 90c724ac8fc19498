//! Tests of files, over public calls.
//!
//! `saving` has 504 cases of a saving: over an old file or none, with what a run that was cut off left or without, failing from each of its calls
//! on, and each of six losses of power behind it. `real` makes the same calls on the system in memory and on real files, and `host` has a host over
//! each.
//!
//! - Proved: Nothing: tests over public calls.
//! - Tested: `file_saving` and `file_host` over `memory_files` and over `system_files`; that both systems answer the same calls alike.
//! - Not said: Links, devices and modes of real files, and a call of a real system that fails.
#![tactic(auto)]

#[cfg(test)]
mod host;
#[cfg(test)]
mod real;
#[cfg(test)]
mod saving;
