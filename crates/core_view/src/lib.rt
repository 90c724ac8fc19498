//! What a two-level memory holds, as a function of its core and of its disk, with the laws of the core's steps; and what exact counts of
//! objects mean for the two together.
//!
//! A core is four functions and a bound (`Core`): entries by short word, short words by name, chunks by place. Its held heap (`held`) gives
//! each name the object whose body lies in the segment, each short word read as a number, as the name of its entry or, where it is a
//! lambda, as that field of the disk's record; every other name has its record. `IsCore` is what a core keeps whatever the disk has,
//! `IsBacked` what it keeps with its disk; where it `IsTight`, each chunk with an owner is a body, so words are accounted for. A step
//! that leaves the held heap as it was, over every disk, is one that `Stays`.
//!
//!     held (with_field_word c s p i w) disk ≡ put (held c disk) name (Some { class; body = with_field body i (meant .. w) })
//!
//! References are counted by difference: `outside c s` is how many there are beyond those of classes and fields, in registers and in
//! what a call holds. Read `specs/Core.antt`, `Words.antt` and `Held.antt` first, then `Counts.antt`, `Kept.antt` and `Steps.antt`. How
//! much of a core is in use, and what goes while room is made, stand in `Room.antt` and `Purge.antt`.
//!
//! Two levels (`Levels`) are a core, what the disk has of each name with its count, the names that are pending there, and the next name.
//! Their heap is the held heap. The count of a name (`sum_of`) is that on disk and the change in its entry, and `IsCounted` says that it is
//! the number of class and field words that are this name, beside words that are owed: those that counts have already, or still, and the
//! heap doesn't. It also says which names are pending: just those that are on disk with count 0, have no entry and aren't known. `IsSound`
//! is all that two levels keep.
//!
//!     IsSound t (Ref n ∷ owed) → IsSound (lowered t n) owed        -- a word less
//!     IsSound t [] → CanGo t n r rest → heap_of (removed t n rest) ≡ without (heap_of t) n
//!
//! Read `specs/Levels.antt`, then `Counted.antt`, where an object's states are drawn, `Dead.antt` and `LevelSteps.antt`. What names an
//! object from outside is `outside` of its entry, so no list of registers and slots is kept here.
//!
//! The crate has no code: its laws stand on the functions of `laws` and `counts`, which do nothing, and in `proofs/`. What makes the steps
//! of a core is `leaf_lambda`, and those of counts `delta_counts` and the crates above it.
//!
//! - Proved: As laws: what a core and a disk hold together is one heap, and what each step of a core does to it; what exact counts mean,
//!   and that each step keeps them. Where nothing but pinned objects has a body, no more room is in use than they need. Where no object is
//!   dead, the heap is just what is kept. Freeing takes no ring.
//! - Tested: By the crates that make the steps.
//! - Not said: Nothing that we know of.
#![tactic(auto)]

pub mod counts;
pub mod laws;
