//! Counts of objects: changes gathered in entries, folded into the counts on disk, and what is dead freed.
//!
//! Each word that joins or leaves the held heap is a change of its name's count: in the entry (`add_change`), or on disk where the name has
//! none (`lower`). `fold` adds the change of an entry to the count on disk, and `give_idle_at` frees the entry of a leaf to which nothing
//! refers. A name whose count is 0 then, that has no entry and isn't known, is pending on disk; `drain_one` frees one such name, and lowers the
//! counts of what it held. No call takes memory or an entry, and each ends over every host, also over one whose Work lies.
//!
//!     add_change(&mut levels.parts.names, s, -1);      // a word less is the name of s
//!     levels.give_idle_at(s)?;                         // its leaf, if nothing refers to it any more
//!     while levels.drain_one(&mut buf)? {}
//!
//! What the counts mean stands in `core_view`: `IsSound t owed` says that they are exact but for the words that are owed. Here `IsAt` says
//! that parts and a disk stand for such levels, and each call says what it makes of them where the host tells Work. Read `specs/At.antt` first,
//! then `Parts.antt` and `Giving.antt`. Bodies are never touched: the layer above frees the dead objects that have one, whose words
//! `lower_words` lowers from the record that it makes of them, or `lower_shorts` from the short words themselves, where no lambda is
//! among them.
//!
//! `TwoLevels` is the core and the disk as one struct, with what its parts keep as a fact of the type. Its calls owe one frame (`Leaves`) and one
//! effect (`Keeps`), by what becomes of the heap; `specs/Effects.antt` has both.
//!
//! - Proved: Each call keeps counts exact where the host tells Work. `drain_one` frees one name that nothing holds, and answers false
//!   exactly where there is none without a body. Over every host each call ends.
//! - Tested: Objects that die in each state (`memory_tests`).
//! - Not said: What is freed first.
#![tactic(auto)]

mod changes;
mod folding;
mod freeing;
mod giving;
pub mod laws;
mod shorts;
mod stored;
mod two_levels;
mod words;

pub use changes::add_change;
pub use two_levels::TwoLevels;
