//! Forms over any object memory (chapter 18 of the Blue Book): whether an object has a form's shape, and how many columns and rows it has.
//!
//! A form is an object of pointers with 3 fields or more: bits, which are an object of words, a width and a height, which are 1 or more. Its
//! bits have the words of all rows; a halftone's have 16 or more. `read_form` says by its clause `serves` that it does what `form_where` of
//! `blue_model` has for it:
//!
//!     let Some(extent) = read_form(m, Reg::R13, false)? else {
//!         return Ok(Answer::Failed);             // what R11 names is no form
//!     };                                         // else its bits are in R13, and have row_words(extent.width) words a row
//!
//! It reads what it needs and changes nothing but two scratch registers.
//!
//! - Proved: Over any object memory `read_form` finds a form exactly where the model's rule does.
//! - Tested: As cases (`docs/CASES.md`).
//! - Not said: Nothing that we know of.
#![tactic(auto)]

mod form;

pub use form::{Extent, HALFTONE_WORDS, read_form, row_words};
