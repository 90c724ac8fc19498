//! Long names, values and objects, and the words in which all crates above speak of them.
//!
//! A `Name` is always an even number above 0 of 32 bits, and a `Value` that was read is a SmallInteger in range or a name:
//! `value_of` and `long_word` are inverse. A `Body` hands out its parts by methods whose clauses are equations.
//!
//!     let word = long_word(Value::Int(-1));              // 0xffff_ffff
//!     let value = value_of(word);                        // Some(Value::Int(-1))
//!
//! Most of the crate is `specs/`: read `Names`, `Words` and `Objects` first, then `Heap` and `Kept` (what reference counting keeps),
//! `State` and `Access` (what a memory is asked), `Need` (what a core has to hold for it) and `Thin` (what may be freed early).
//! `laws` has what follows from these definitions. It holds no heap and reads no file.
//!
//! - Proved: Values and their words are inverse, names are the even numbers but 0, and the parts of an object are got and stored as
//!   equations. Laws: what is kept is kept again, and freeing loses no ring of objects.
//! - Tested: Lists that grow, and values at their ends (`outside_tests`).
//! - Not said: Nothing that we know of.
#![tactic(auto)]

pub mod laws;
mod limits;
mod lists;
mod name;
mod object;
mod value;

pub use limits::{
    ENTRIES_OF_A_CALL, LAST_NAME, LONGEST_RECORD, MACHINE_REGISTERS, MAKINGS_BEFORE_FREEING,
    MOST_CODE, MOST_FIELDS, MOST_LITERALS, REGISTERS, SLOTS, SMALL_INTEGERS,
};
pub use lists::{NameList, Octets, RecList, Values, Words16};
pub use name::{Name, bits};
pub use object::{Body, Kind, Object, Rec, literal_count};
pub use value::{Value, long_word, value_of};
