//! The machine of the Blue Book's chapters 26 to 30 over one unbounded memory of long names, as definitions that compute.
//!
//! A rule takes a machine (heap, registers, slots, transcript, numbers) to an answer and the next machine, or to a cause, with a log
//! of each object that it needs. Bytecodes are a table of ranges, each with its rule, and each byte is in one range. `laws` says so,
//! and that a cycle, a lookup and a whole run go the same way over a heap from which objects were freed early. `checkpoint_laws` says
//! where a machine goes on that is kept and loaded again, and what a guarded run is, which does so at each checkpoint. `pin_laws` says
//! which objects are pinned, and that none of them changes places.
//!
//!     ghost use Rattle.blue_model.specs.Cycle.{Parked, Stuck, ending};
//!     // a contract cites a run: `ending steps heap` is `Parked step m`, or `Stuck why ran`, and then:
//!     let number = cause.number();                       // 1 to 7, of a run that is stuck
//!
//! Read `Machine` first, of the files of `specs/`, then `Contexts`, `Lookup`, `Messages`, `Sends`, `Bytecodes` and `Cycle`, and `Loaded`
//! and `Guarded` for what is kept; primitives are in `Arithmetic`, `Storage`, `Control`, `Processes`, `BitBlt` and `Devices`, and
//! `Queues` reads process lists as lists. `Pointers` has the numbers by which a context states its pointers. `Law` says what the laws of
//! thinning promise, `Alike` how they are proved of rules, and `Base` and `Snaps` have heaps as worked values. The crate runs nothing.
//!
//! - Proved: As laws: every rule goes the same way over a heap from which dead objects were freed early; runs add up; each byte has one
//!   rule; a lookup takes the first class that has the selector; process lists are queues. Guarded runs go on from what was kept.
//! - Tested: By the cases of a reference machine that was written apart from it (`docs/CASES.md`), and by worked values.
//! - Not said: That these definitions are the Blue Book's is for a reader to compare. That the tests of pointers never say no is a law of
//!   each rule that sets one, and of a context whose numbers are SmallIntegers; that a run leaves them so isn't said.
#![tactic(auto)]

mod answer;
mod cause;
pub mod checkpoint_laws;
mod cpu;
mod event;
pub mod indexes;
pub mod laws;
pub mod limits;
pub mod log_laws;
pub mod pin_laws;
pub mod primitives;
mod spot;
mod step;

pub use answer::Answer;
pub use cause::Cause;
pub use cpu::Cpu;
pub use event::{Event, Line};
pub use spot::Spot;
pub use step::Step;
