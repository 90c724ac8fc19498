//! Room in a core: objects are evicted until so many words and entries are free, and what is dead is freed.
//!
//! `Pager` is the core and the disk (`TwoLevels` of delta_counts), the buffer for records, three pinned objects and the hand as one struct. `evict`
//! writes an object back where it differs from its record, takes its body, and folds its change of count. `make_room` evicts objects while room is
//! wanting, gives up leaves to which nothing refers, and moves bodies together; the three pinned objects stay. Where there is room, nothing goes.
//! What goes is looked for by a hand that goes round the table, from call to call: it takes what is neither pinned nor marked, over a 32nd part of
//! the table at least, or a quarter of the entries in use, so that leaves are swept up and bodies moved together once for many objects. Where
//! entries alone are wanting, leaves are swept up again before more than such a part has left (`stops`). Where a whole round isn't enough, the
//! table is gone over from its first entry on, and marked objects go too. `Short` is answered only where nothing but pinned objects is left and
//! that isn't enough.
//!
//!     pager.make_room(words, entries)?;
//!
//! Its calls owe one condition (`IsReady`), one frame and one effect, by what becomes of the heap. Where objects leave it stays (`Spares`,
//! `Preserves`, in `specs/Pager.antt`), with references from outside, pinned bodies and the names of what is named from outside; counts stay
//! exact: from all sound levels that the parts and the disk stand for, sound ones are reached, with the same heap. Marks stay, or all go at once,
//! where a marked object is evicted; after a call that is done, only where one that was marked has left the core (`MindsMarks`). How many words and
//! entries are free afterwards is not told but by `room`; by how much there was too little, core_view's `what_is_left_is_pinned` says. What one
//! object's steps owe is in `specs/Leaving.antt`.
//!
//! `drain` frees what is dead, in the core and on disk, until nothing is: the heap is thinner by it, what stays keeps its body, and no dead object
//! is written (`LeavesNamed`, `ThinsHeap`, `FreesAll`, in `specs/Freeing.antt`). It follows what dies from object to object, so a list goes in one
//! round whatever the order of its cells. Of an object that dies alone no record is made: counts are lowered from its short words (`alone`). `close`
//! lets everything leave a core from which nothing is named: the disk has just the kept objects then, with their exact counts (`HasKept`).
//!
//! Read `specs/Purge.antt`, then `Marks.antt`, `Pager.antt`, `Draining.antt`, `Freeing.antt` and `Closing.antt`. What moves one body is leaf_lambda's,
//! and what joins its calls with counts stands in `laws`.
//!
//! - Proved: Making room keeps what is held, pinned bodies and exact counts, and evicts nothing where there was room; `Short` means that
//!   only pinned objects are left. `drain` frees just what is dead, and `close` leaves the disk with what is kept.
//! - Tested: Chains, rings, and objects that die in each state (`memory_tests`).
//! - Not said: Which objects go, what calls cost, that no record is written only to be removed again, and where most Damaged answers point.
#![tactic(auto)]

mod alone;
mod dying;
pub mod eviction;
pub mod freeing;
mod idle;
pub mod laws;
mod leaving;
pub mod marks;
pub mod pager;
pub mod room;
pub mod touches;

pub use eviction::NOWHERE;
pub use pager::Pager;
pub use room::{Pinned, RoomFault};
