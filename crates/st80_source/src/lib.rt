//! The text of a source file: its chunks, and the lines and columns of its places.
//!
//! A chunk ends at a `!` that stands alone, and two of them together stand for one in it, as in the file format of chapter 24 of the Blue Book's
//! companion. `chunk_at` reads the one that begins at a place:
//!
//!     match chunk_at(alloc, text, from)? {
//!         Some(chunk) => .. chunk.bytes, chunk.end ..,
//!         None => no `!` stands alone from there on,
//!     }
//!
//! Each byte of a chunk keeps the place at which it stands in the file, and `line_of` and `column_of` say what people call that place. Read
//! `specs/Chunks.antt`.
//!
//! - Proved: What a chunk is: its bytes with each `!` doubled are what stands there, and each of its bytes stands at its place; where none is
//!   answered there is none. Lines and columns.
//! - Tested: Nothing by itself.
//! - Not said: That out of memory has a cause.
#![tactic(auto)]

mod chunks;
mod places;

pub use chunks::{Chunk, MARK, chunk_at, is_blank};
pub use places::{column_of, line_of};
