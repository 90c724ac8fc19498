//! How much of an image is to be read.
//!
//! Where only a claim says how long an image is, as the gate of a vault does, its first 36 bytes say how long it may be: so many objects have
//! no more bytes than so many of the longest record. What is longer breaks a rule no later than behind its last record, and the front that
//! reaches so far breaks it at the same place. So an image that is claimed to be longer is refused by that front, and by its 36 bytes alone
//! where they break a rule or state more objects than there is room for.
//!
//! ```text
//! let front = read_image(alloc, vault, Point { serial, len: FRONT })?;
//! let len = telling_len(front.bytes(), room, point.len);
//! ```
//!
//! Read `specs/Front.antt` first: what a front tells of the whole (`TellsOf`).
//!
//! - Proved: The front of the length that `telling_len` answers is the whole image, or is refused as the whole is, by the same rule at the
//!   same place or for as many objects; and it is no longer than so many of the longest record as there is room for, and forty bytes.
//! - Tested: Vaults whose gates claim too much (`guard_tests`, `tests/edge.sh`).
//! - Not said: That no shorter front would do.
#![tactic(auto)]

mod front;

pub use front::{FRONT, telling_len};
