//! An image that a person looks at: which of its objects are classes, whose its methods are, what its objects are called, what holds
//! them, its processes with their stacks, and which rules it breaks.
//!
//! `View::open` reads the bytes of a file, as `Image::read` does. All that is printed is ASCII in a `String`:
//!
//!     let view = View::open(alloc, &bytes)?;
//!     view.put_value(&mut out, Value::Ref(name))?;        // nil, #at:put:, a Point 84, class Integer
//!     for frame in view.stack(alloc, context)?.iter() { .. }
//!
//! A class is what an object has as its class, what such a class has as its superclass, one that every image has, and what else has
//! the shape of one: a method dictionary and an instance specification. Its name is its field 6 where that is a text, and `X class`
//! where that is the class X (chapter 16 of the Blue Book); otherwise a line of the `.names` file (`Labels`), otherwise the name that
//! the machine knows it by, otherwise its number.
//!
//! - Proved: A view is of the image that its bytes spell, and a fault is the first rule that they break, of 1 to 9 and 13.
//! - Tested: What is printed (`st80_tests`).
//! - Not said: That the findings are those of `first_break`; a test compares them.
#![tactic(auto)]

mod classes;
mod counting;
mod findings;
mod naming;
mod processes;
mod view;

pub use classes::MethodHome;
pub use counting::{ClassCount, Hold, Part, record_size};
pub use findings::{Finding, StateRole};
pub use processes::{Frame, MethodHeader, Process, Standing, method_header};
pub use view::View;
