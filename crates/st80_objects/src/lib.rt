//! An image read whole into memory, for a person who looks at it: its objects by rising name, their names and values, and the file that
//! names them.
//!
//! `Image::read` reads the bytes of a file, or answers the first of the rules 1 to 9 and 13 that they break, and its place.
//! `Image::find` answers the record of a name, and `field`, `name_in`, `number_in` and `text` what it holds:
//!
//!     let image = Image::read(alloc, &bytes)?;
//!     let class = image.class(name);
//!     put_symbol(&mut out, text.bytes())?;             // #at:put:, as ASCII
//!
//! Read `specs/Images.antt` first.
//!
//! - Proved: An image that is read is the one that its bytes spell (`IsImageOf`), and a fault is the first rule that they break, of 1 to 9
//!   and 13, and its place (`IsFaultOf`). A name is found exactly where an object has it, and what an object is said to hold is what it
//!   holds. Each rule has a sentence.
//! - Tested: What is printed, and what a `.names` file names (`st80_tests`).
//! - Not said: The sentences.
#![tactic(auto)]

mod fault;
mod image;
mod labels;
mod large;
mod objects;
mod printing;
mod reading;
mod rules;

pub use fault::ImageFault;
pub use image::{Image, item_of};
pub use labels::{LabelFault, Labels, is_number};
pub use large::put_large;
pub use objects::Objects;
pub use printing::{put_bytes, put_decimal, put_line, put_symbol};
pub use rules::{rule_sentence, sentences_are_apart};
