//! The program with checkpoints: a run keeps the machine in a vault each time that primitive 97 is done, and another goes on from what was kept.
//!
//! `loom_kept` does what `loom` of loom_run does, and two commands more, over any host and any vault. What every answer says is the record `KeptPromise`: read
//! `specs/Promise.antt` first. What it says of the vault is the theorem on stops: from when the checkpoint was found that a run begins with, a stop at any moment
//! leaves the checkpoint that was answered last, or the one that was under way, whole, and no other. Unless the answer is a fault of
//! the vault, no call on the vault failed (`vault_calm`).
//!
//!     let status = loom_kept(alloc, host, vault, &words);   // guard IMAGE EVENTS WORK SAVED DISPLAY CORE ENTRIES ROOM STEPS VAULT,
//!     ExitCode::from(status.code())                         // resume VAULT EVENTS WORK SAVED DISPLAY CORE ENTRIES ROOM STEPS, or words of `loom`
//!
//! A guarded run has the stages of a run, with the vault opened before the first of them (`vaults`). The image of a resumed run is read from the vault
//! (`resuming`). From there both are one (`program`): the machine runs leg by leg (`legs`, `memories`, `keeping`, `guarded`), each over a memory of its own, and the
//! steps that write are those of loom_run. What it comes to in eight lines (`specs/Headline.antt`) say two clauses more, and when to the model's own end, the laws in `laws`. Nothing is
//! said of Work after a stop.
//!
//! `loom_kept_observed` is `loom_kept` with an `Observer` of machine_run, who is told how far a run is, through all its legs.
//!
//! - Proved: The record `KeptPromise` and the headlines are the clauses of `loom_kept`, over every host and vault: a stop at any moment
//!   leaves the checkpoint that was answered last, or the next one, and no call on the vault failed unless a fault of the vault is answered
//!   (`docs/PROMISE.md`).
//! - Tested: Stops at each call on the vault, gates, refusals (`guard_tests`); kills and faults on real files (`tests/all.sh`).
//! - Not said: That out of memory has a cause. Over a host that doesn't tell Work: what was kept.
#![tactic(auto)]

mod guarded;
mod keeping;
pub mod laws;
mod legs;
mod memories;
mod program;
mod resuming;
mod vaults;

pub use program::{loom_kept, loom_kept_observed};
