//! An object's fields in a core: brought in from a record (`translate_in`), made a record again (`merge_out`), and resolved one by one
//! (`resolve`). A field is a short word: a number, the short name of an entry, or 0, a lambda, which means that field of the record.
//!
//! Each call keeps `IsParts`, and leaves the held heap (`held` of core_view) as it was over every disk that has the record: the clause
//! `keeps`. Only stores (`put_field`, `put_words`, `put_byte`) and `make_body` change what is held, of one object. Which fields may be
//! lambdas says `MayBeLambda`. What stays beside the object's body says `IsWithin`: references from outside, all of other entries but
//! their references, changes of counts, marks, and that each chunk with an owner is a body. What a call leaves that resolves fields is one
//! record (`Resolves`), and so is an object that came in (`Opens`) or was made (`Makes`). Words and entries are accounted for: `TakesRoom`
//! and `SameRoom` of the segment, `spare` and `cost` of the table.
//!
//!     translate_in(&mut parts, leaf, &mut record);
//!     put_field(&mut parts, leaf, place_of_body(&parts, leaf), 3, word);
//!     merge_out(&mut parts, leaf, &mut record);   // and once it is written: set_written, drop_body
//!
//! Read `specs/Parts.antt` first, where an object's states are drawn, then `Records.antt` and `Making.antt`. `turn` follows one fault, one
//! store and one eviction by these promises alone. The crate reads and writes no disk, changes no count of an object, and frees no entry
//! by itself: those are its callers' to do.
//!
//! - Proved: What is held stays, over every disk that has the record, when an object comes in, a lambda is resolved, a body moves or an
//!   unchanged object goes. A store changes one object.
//! - Tested: An object that comes and goes (`core_tests`).
//! - Not said: The largest free chunk after an object came in or was made; a caller asks for it.
#![tactic(auto)]

pub mod bodies;
pub mod fields;
pub mod laws;
pub mod leaving;
pub mod making;
pub mod merge;
pub mod moving;
pub mod numbers;
pub mod parts;
pub mod steps;
pub mod storing;
pub mod translate;
mod turn;

pub use merge::merge_out;
pub use parts::Parts;
pub use translate::{RESERVE, resolve, translate_in};
