//! The core's segment: a region of 16-bit words, parts of which are given out as chunks.
//!
//! A segment stands for a function from places to used chunks, `chunk_at`, each with an owner and words. `take`, `give` and `set_word`
//! change one chunk, and `compact_step` moves one down, with its words; each is one equation of whole functions. `take` answers None
//! exactly where no free chunk has so many words (`has_room` tells), and once `compact_step` answered None all free words are one chunk.
//! No call but `new` takes memory. Chunks tell in their first words where they end, and free ones are linked there into lists by their
//! sizes; beside the region stand only the first links of these lists. The first step of a compaction makes the lists anew, by rising
//! place, and the steps after it go over the region once.
//!
//! ```text
//! let mut segment = Segment::new(alloc, 4096)?;
//! if let Some(at) = segment.take(4 + 6, owner) {      // four words of a chunk are the segment's own
//!     segment.set_word(at, 5, 0xffff);
//! }
//! ```
//!
//! The words lie in raw memory, which `words` alone knows: one block, asked for by `new` and given back by the drop. A word is written first
//! when it, or one behind it, is put, so `new` costs the same for each size. `take` writes all words of its chunk, so a word of a chunk is
//! read and changed with no test. A loop over many words asks once where they begin (`start`), and so goes through them eight at a time.
//!
//! Read `specs/Chunks.antt` first, then `specs/Segment.antt`. `laws` says that chunks never overlap. An owner is a number to the segment,
//! and what a word means it doesn't know.
//!
//! - Proved: A segment is a region of words with chunks that never overlap. Each call changes one chunk, `take` answers None exactly where
//!   no free chunk is large enough, and a whole compaction leaves one free chunk. The raw memory is safe.
//! - Tested: Small and full segments, and ten thousand turns of a pattern (`core_tests`).
//! - Not said: What calls cost; that most take constant time is read in the code.
#![tactic(auto)]

mod heads;
pub mod laws;
mod lists;
mod memory;
mod order;
mod segment;
mod words;

pub use segment::{Addr, HEADER, MOST_WORDS, Moved, Segment, Start};
