//! Tests of images as text. There is one file for each thing that is done with a text: `listings` has what is listed of an image that was
//! loaded, `assemblings` what is read of texts, with the first break of each that is wrong. The crate has no function of its own.
//!
//! - Proved: Nothing: tests over public calls.
//! - Tested: Listings and assemblings, each break of a line and of the whole, and calls that fail.
//! - Not said: Nothing else.
#![tactic(auto)]

#[cfg(test)]
mod assemblings;
#[cfg(test)]
mod listings;
