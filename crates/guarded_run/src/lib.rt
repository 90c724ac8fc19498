//! A guarded run of the machine over object memories, leg by leg.
//!
//! A run is guarded where a checkpoint is kept each time that primitive 97 was done. Then the machine parks; what nothing holds is freed,
//! and the rest is kept; and a new memory over what was kept goes on, as one does that loads it. So each leg, from a start to the next
//! checkpoint or to the end, has a memory of its own, and whoever makes these memories and keeps their objects puts the legs together:
//!
//!     start_leg(&mut m, &mut cpu, &state, serial)?;                // the first leg, over an image's heap
//!     match run_leg(&mut m, &mut cpu, &events, steps)? {
//!         Step::Keep => { .. continue_leg(&mut next, &mut cpu, &state, serial + 1)?; .. }
//!         end => finish_leg(alloc, &mut m, &cpu, end),             // the picture and the state
//!     }
//!
//! `run_leg_observed` is `run_leg` with an `Observer` of machine_run, who is told how far the run is.
//!
//! The clauses say where the model's guarded run (`Guarded` of blue_model) is then, and that a stop is the one that it comes to: read
//! `specs/Course.antt` first, the course of a guarded run, then `specs/Legs.antt`. That a memory keeps what the model's machine keeps is a
//! law (`laws`). Over a memory that doesn't tell its heap nothing is said but of counts and faults.
//!
//! - Proved: Over any object memories a run that keeps checkpoints goes, leg by leg, as the model's guarded run.
//! - Tested: By `guard_tests`, over the whole program.
//! - Not said: Who makes the memories and keeps what is to be kept; that is `loom_guard`.
#![tactic(auto)]

pub mod laws;
mod legs;

pub use legs::{continue_leg, finish_leg, run_leg, run_leg_observed, start_leg};
