//! Images out of objects that are added in any order.
//!
//! A `Builder` takes objects under their names, computes their counts, and gives the image's bytes, or the first rule of images that
//! the objects break:
//!
//!     let mut builder = Builder::new(alloc)?;
//!     builder.add(Name::NIL, Name::ARRAY, Body::Pointers(Values::new(alloc)))?;
//!     let image = builder.finish(alloc, 60)?;            // here Rule { rule: 3, name: 0 }: there are 22 objects at least
//!
//! Read `specs/Builder.antt` and `specs/Rules.antt` first. What an image is, and its bytes, stand in `image_format`.
//!
//! - Proved: `finish` gives the text of the heap of what was added, with exact counts, and that is an image; otherwise it answers the first
//!   rule that would break, and the object that breaks it.
//! - Tested: The first rule of each kind (`outside_tests`). The program doesn't use this crate.
//! - Not said: That out of memory has a cause.
#![tactic(auto)]

mod builder;
mod counts;
mod fault;
mod rules;

pub use builder::Builder;
pub use fault::BuildFault;
