//! Tests of what a loss of power leaves of the files of a run: its vault, and SAVED.
//!
//! Runs go over `RealHost` and `RealVault`, on files of the system, through a runtime that keeps a record of what they do to these (`recording`). Just before
//! each sync, and at the end, the states that a loss may leave are made from the record (`losses`): of the changes that weren't synced none, all, each first
//! part, all but each one, and two hundred seeded choices, whose writes are torn at sectors of 512 and of 4,096 bytes; and of the names that a folder's sync
//! hasn't fixed each one. `vaults` has the checkpoints that are found then, and what goes on from them; `saves` what SAVED is. `images` has the image that is
//! run, `commands` how a command is. The crate has no function of its own.
//!
//! A sync of the record fixes what was done before to its file, or to the names of its folder, and nothing else. That a file system does so much is its own.
//!
//! - Proved: Nothing: tests over public calls.
//! - Tested: The states that a loss of power may leave of a vault and of SAVED, from a record of what runs do to real files.
//! - Not said: What a file system and its disk do beyond what they answered as synced.
#![tactic(auto)]

#[cfg(test)]
mod commands;
#[cfg(test)]
mod images;
#[cfg(test)]
mod losses;
#[cfg(test)]
mod recording;
#[cfg(test)]
mod saves;
#[cfg(test)]
mod vaults;
