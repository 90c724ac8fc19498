//! A vault over a file, by which what was synced is on the disk.
//!
//! - A fresh opening makes the file, or cuts it where it is there. The empty file and its name are on the disk before it answers Ok.
//! - A fresh opening cuts no file that a role of the run has or will have, by whatever name, and none that a standard stream goes to: there it
//!   fails.
//! - It cuts no file that no vault can be (`has_gates`), so no image, no image's text and no picture, which begin with a letter: there it fails,
//!   and the file stays. One that is empty is taken.
//! - A sync has what was written on the disk before it answers Ok.
//! - A sync that fails is final: behind it each call of that opening fails, since the system may have dropped what it couldn't write.
//! - A read or a write is of the whole piece. One that a signal interrupts is made again, and so is a sync.
//!
//! `RealVault` tells nothing, and counts each failure. No clause says what a file of the system holds.
//!
//! - Proved: Each failure is counted, and no byte is told. A file whose byte at 0 or 512 is neither 0 nor 1 is no vault (`has_gates`).
//! - Tested: That no file of a role is taken, full disks and failed syncs (`tests/edge.sh`); that what is no vault is kept (`outside_tests`);
//!   kills at a hundred moments (`tests/kills.sh`).
//! - Not said: What a file of the system holds.
#![tactic(auto)]

mod file;
pub mod gates;

pub use file::RealVault;
