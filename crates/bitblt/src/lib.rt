//! BitBlt over any object memory (chapter 18 of the Blue Book, and primitive 96 of chapter 29): by words of 16 bits, with masks and shifts.
//!
//! `run` does the primitive, and says by its clause `serves` that it does what `copy_bits` of `blue_model` has for it, pixel by pixel: all
//! pixels of source, halftone and destination are those before the call, also where they share bits. All other bits and objects stay. A
//! primitive that fails leaves the machine as it was. After a refusal of the memory any of the rows may be done.
//!
//!     let ended = bitblt::run(m, cpu, 96)?;      // Answer::Done, or Answer::Failed: then the method is activated
//!
//! Read `specs/Transfers.antt` first: it has what a transfer makes of the destination's words, and in which order rows are done. Each row
//! is read whole before it is written, so a blit makes three accesses a row, and two where there is no source.
//!
//! The scratch registers from 10 to 15 are used, and those of `contexts`. Nothing is drawn here: the picture of a form is of `devices`.
//!
//! - Proved: Over any object memory BitBlt serves the model's rule pixel by pixel, also where source and destination share bits; one that
//!   fails has changed nothing.
//! - Tested: Rules, widths, overlaps and each condition broken, as cases (`docs/CASES.md`).
//! - Not said: What stands in the destination after a refusal of the memory: any of the rows may be done.
#![tactic(auto)]

mod asked;
mod clip;
mod copy;
mod optional;
mod rows;
mod table;
mod transfer;

pub use contexts::{Answer, Cpu, Stop};
pub use table::run;
