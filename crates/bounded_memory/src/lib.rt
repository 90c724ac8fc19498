//! A memory with bounds, over one that is one map: a test double that refuses whenever it may.
//!
//! Each access is refused where a row of it has no room in the core, with its exact need; each making where the names are spent, else
//! where no object more may live, else where the core has no room. Want of memory is told as a fault of Work. After a settling it
//! knows how many objects are kept. Its method cache is one row, which is lost with the marks. That it does all this is the contract of
//! `ObjectMemory`, which it meets.
//!
//!     let mut m = BoundedMemory::new(memory, 24, 59, 30, 26);     // a core of 24 words and 59 entries, room for 30 objects; 26 there
//!     let class = m.class(Reg::R10, Reg::RECEIVER);               // CoreFull, where the receiver's need is larger
//!
//! Read `specs/Bounded.antt` first: what it tells (`bounded_told`), what it keeps (`IsSound`) and why it refuses; `specs/Row.antt` has the
//! row. It has no core: which objects stand in one isn't decided here.
//!
//! - Proved: The same trait is met with bounds: each access that doesn't fit is refused with its exact need.
//! - Tested: Each cause of a refusal with its numbers (`machine_tests`).
//! - Not said: It is a test double, and says nothing of a real core.
#![tactic(auto)]

mod bounded;
mod limits;
mod pins;
mod row;
mod size;

pub use bounded::BoundedMemory;
