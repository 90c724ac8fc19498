//! Tests of the work file: the directory that stands first in it, the blocks behind that, and the objects in both.
//!
//! They are over public calls and `LyingHost`, a host that tells nothing of Work: there any call may be made at any time, over calls on
//! Work that fail and over bytes that no disk wrote, and Work shows what it holds, byte by byte. What holds over a host that tells Work
//! is proved. There is one file for each crate: `directories` for `work_directory`, `spaces` for `work_space`, `objects` for
//! `disk_objects`, `images` for `image_reader`. `ways` loads images and saves them again, with a memory of two levels between or none, and
//! has the refusals of `image_writer`; `checkpoints` keeps what is on a disk in a vault, and stops it behind each call (`keep` of
//! `checkpoint`). The crate has no function of its own.
//!
//! - Proved: Nothing: tests over public calls.
//! - Tested: Directories, blocks and objects of the work file byte by byte, images on their way in and out, failures, damage, and
//!   checkpoints.
//! - Not said: Nothing else.
#![tactic(auto)]

#[cfg(test)]
mod checkpoints;
#[cfg(test)]
mod directories;
#[cfg(test)]
mod hosts;
#[cfg(test)]
mod images;
#[cfg(test)]
mod objects;
#[cfg(test)]
mod spaces;
#[cfg(test)]
mod ways;
