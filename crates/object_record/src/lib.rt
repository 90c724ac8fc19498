//! One object's record in a buffer: its fields are read and set in place.
//!
//! A buffer has as many bytes as the longest record. `blank` makes a record in it, or `space` lends the bytes to be filled
//! and `is_record` tells whether they begin with one of a name; every other call has as its condition that they do (`HasRecord`). What
//! a record says is its raw record (`raw_of`): each getter answers a part of it, and each setter is one equation,
//! `raw_of new ≡ with_long (raw_of old) i word`, so that all other parts stay. Fields are long words, and none of them is judged.
//!
//!     buffer.blank(name, class, Kind::Pointers, 2, 0);
//!     buffer.set_long_field(1, long_word(value));
//!     place.write(buffer.bytes())?;
//!
//! Read `specs/Raw.antt` first (raw records and their texts), then `Buffer.antt` (the raw record that bytes begin with). `laws` ties raw
//! records to the records of an image. The crate holds no count: `blank` writes 0 where a record has its count, and nothing reads it.
//!
//! - Proved: Each getter answers a part of the record that the buffer begins with, each setter is one equation of it. The record of an
//!   object in an image is such a record, and a text has one.
//! - Tested: Records of each kind (`outside_tests`).
//! - Not said: Nothing that we know of.
#![tactic(auto)]

pub mod laws;
mod layout;
mod offsets;
mod record_buf;

pub use offsets::{
    CLASS_AT, CONTENTS_AT, COUNT_AT, HEADER_AT, KIND_AT, LITERALS_AT, NAME_AT, SIZE_AT,
};
pub use record_buf::RecordBuf;
