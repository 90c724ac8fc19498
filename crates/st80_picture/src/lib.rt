//! Pictures for people: a binary PBM is read, made larger, and written as PBM, as PNG, or as blocks for a terminal.
//!
//! ```text
//! let picture = read(alloc, bytes)?;              // `P4`, as `loom` writes it to DISPLAY
//! let large = scaled(alloc, &picture, 4)?;
//! let file = png(alloc, &large)?;                 // or `pbm(alloc, &large)?`
//! let text = blocks(alloc, &picture, 80)?;        // lines of blocks, at most so many columns
//! ```
//!
//! Read `specs/Sums.antt` first, then `specs/Png.antt`.
//!
//! - Proved: That the two sums are those of the standards bit by bit, and that a PNG is, byte for byte, signature, head, the rows in stored
//!   blocks, and end. A PBM is read as it is spelled, or refused for what is wrong with it (`specs/Refusals.antt`), and a larger picture has
//!   each pixel as a square (`black_in` of `specs/Pictures.antt`).
//! - Tested: What other programs read in such a PNG, and the blocks (`st80_tests`, `tests/`).
//! - Not said: What is seen of a picture that is made smaller.
#![tactic(auto)]

mod chunks;
mod picture;
mod sums;
mod terminal;

pub use chunks::png;
pub use picture::{BadPicture, MOST_BYTES, Picture, pbm, read, scaled};
pub use sums::{adler32, crc32};
pub use terminal::blocks;
