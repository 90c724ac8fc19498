//! The image of a heap as bytes: its head, its records, the text of a whole heap, which images are valid, and the first rule that one
//! breaks.
//!
//! `decode_rec` answers the record that the bytes begin with, and refuses exactly where they begin with none, with the first rule that
//! breaks and its place; `measure_rec` judges it the same and keeps nothing of it. `encode_rec` appends a record's one text, or nothing, and `encode_object` that of an object where it stands.
//! What was written is read again, whatever follows it:
//!
//!     encode_rec(&rec, &mut out)?;
//!     let (same, len) = decode_rec(alloc, out.bytes())?;
//!
//! An image of version 1 begins with 16 bytes, which `decode_head` and `Head::bytes` read and write. One of version 2 has the machine's
//! state behind them: `read_opening` reads the 16 bytes of either version, `read_head` the whole head, and both say which rule breaks
//! first, and where; `Opening::bytes` and `State::bytes` write them.
//!
//! Read `specs/Text.antt` and `Valid.antt` first; a record's text is `Record.antt` of long_names. How bytes are read, and which rule
//! they break first, is `Reading.antt`, `Heads.antt` and `Rules.antt`: `first_break` is None exactly for the text of a heap, a version
//! and a state (`laws`). Whole images are read and written by the crates above, piece by piece.
//!
//! - Proved: Decoding answers the record that the bytes begin with, or the first rule that breaks and its place; encoding appends that one
//!   text. Laws: valid bytes are the text of exactly one heap, version and state.
//! - Tested: One example of each rule is computed in `proofs/Base.antt`; images with each rule broken are cases.
//! - Not said: That no memory is taken for a size that the bytes don't fill; this is read in the code.
#![tactic(auto)]

mod big_endian;
mod decoding;
mod encoding;
mod fault;
mod head;
pub mod laws;
mod opening;
mod reading;

pub use big_endian::{bytes_of_u16, bytes_of_u32, bytes_of_u64};
pub use decoding::{decode_rec, measure_rec};
pub use encoding::{encode_object, encode_rec};
pub use fault::{Break, RecFault};
pub use head::{FEWEST_OBJECTS, HEAD_LEN, Head, LOWEST_NEXT, MOST_OBJECTS, VERSION, decode_head};
pub use opening::{
    ImageHead, LOOM, Opening, STATE_LEN, STATE_VERSION, State, is_next, is_state_word, is_tick,
    read_head, read_opening,
};
pub use reading::RecMeasure;
