//! The image of a program in Smalltalk.
//!
//! `image_of` makes an image of the classes and methods that `st80_program` read, and of what it begins with, and a file of names for it:
//!
//!     match image_of(alloc, &program, &trees)? {
//!         Built::Image(made) => write(made.image.bytes(), &made.names),
//!         Built::Refused(number, refusal) => say(number, refusal),
//!         ..
//!     }
//!
//! Classes have the fields of chapter 27 first and then those of chapter 16, the name at field 6; a metaclass has its class there. Symbols are unique.
//!
//! - Proved: What is answered as an image is one. Where a method has no code, that is the method, and why.
//! - Tested: Which image it is, by runs of it (`tests/build.sh`).
//! - Not said: Which image it is, and that out of memory has a cause.
#![tactic(auto)]

mod classes;
mod codes;
mod dictionaries;
mod heap;
mod image;
mod known;
mod literals;
mod methods;
mod names;
mod plan;
mod shared;
mod starting;

pub use image::{Built, Made, image_of};
