//! The memory of two levels: objects on a disk, and a core of those that are at hand. It is an object memory (`implementation`), whose calls
//! have the clauses of the trait, and may be called by name, with what they promise beside. `make` begins one over a disk that is loaded;
//! `CoreTables::new` takes the memory for that before, and `joined` takes none then. `wind_up` with `into_disk` ends it: the disk has just the
//! objects that are kept then, with their exact counts.
//!
//! A making (`making`) asks for a name first, then for room on the disk, then for room in the core. Where the disk is full and eight or more
//! were made since the last settling, dead objects are freed before it is refused (`thin`, by `Pager::drain`). `settle` frees them where
//! there is no room for eight more, so that a making before the eighth frees nothing for the disk's sake (`specs/Numbers.antt`). Where the
//! core is short, what is dead is freed before anything living leaves (`free_first`): by a making, by `settle`, and by an access that brings an
//! object in (`clear_first`). So does `purge_all`. `specs/Freed.antt` says what is dead then: nothing, where that was looked for; and that the
//! next search is put off only where nothing is dead (`IsOnTime`). A memory that says that nothing is dead says so until a word goes whose object
//! the core names nowhere else (`specs/Thinned.antt`).
//!
//! `load` is the step that each access begins with. An object in the core is found with nothing done (`here`); for a leaf room is made
//! beside the pinned objects, and it is brought in from its record, which is read once: each name in it is below the next one, or the answer
//! is Damaged (`holds_below`). Where the row of the access doesn't fit it answers CoreFull with that row's need
//! (`full`), said of every access that names the object and is silent (`err`). Nothing of what is told changes meanwhile but that dead objects
//! may be gone, counts of faults, and that all marks may be gone (`HasThinned`; `IsQuiet`, where none was freed). No access reaches a dead
//! object, so it does of the heap before what it does of the one that is left (`accessed-freed`).
//!
//! What a call within the crate leaves stands in `specs/Effects.antt`: a record for whatever it answers, and one for what it may touch. What is promised
//! of the core and of Work beside what is told stands in `specs/Own.antt`, a record for each shape of call (`IsSparing` of
//! one that changes nothing): which object is in the core, that none leaves it without need, that Work isn't touched without need, what
//! comes in, and that cached rows stay.
//!
//! Read `specs/Memory.antt` first: `told_of`, what is told of a core over a disk, and `IsSound`: what the core keeps over every host
//! (`IsKept`), what it keeps with a disk (`IsOver`), and that counts are exact (`IsExact`), which is said of the levels of `core_view` that core
//! and disk stand for. `specs/Cache.antt` has the rows of the method cache. Objects leave by `purger`.
//!
//! - Proved: `LoomMemory` meets every clause of `ObjectMemory`, over every host: each access is answered or refused with its row's exact
//!   need, counts are exact between calls, and no call is refused as out of memory. `docs/CORE.md` says when no object leaves the core.
//! - Tested: All calls beside one map, in five cores from the smallest up, each failing call on Work and each lying read (`memory_tests`).
//! - Not said: What leaves in a making that frees; why marks went in a refused call. Over a host that doesn't tell Work: why they went in a
//!   making or a settling, and where Damaged points after an eviction, a freeing, a making or a swap.
#![tactic(auto)]

pub mod beginning;
pub mod below;
mod bodies;
pub mod cache;
pub mod fields;
pub mod first;
pub mod here;
mod implementation;
pub mod known;
pub mod laws;
pub mod ledger;
pub mod lent;
pub mod load;
pub mod making;
pub mod memory;
mod new_object;
pub mod purging;
pub mod reads;
pub mod refusals;
pub mod registers;
pub mod residents;
pub mod says;
pub mod scratch;
pub mod settling;
pub mod slots;
pub mod stores;
pub mod swap;
pub mod thinned;
pub mod winding_up;

pub use beginning::CoreTables;
pub use memory::LoomMemory;
