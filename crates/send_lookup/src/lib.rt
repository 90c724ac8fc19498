//! Messages over any object memory (chapter 28 of the Blue Book): the lookup of a selector along the superclass chain, with the memory's
//! method cache in front of it, what is sent at the chain's end, and the activation of the method that was found.
//!
//! Each call says by its clause `serves` that it does what the rule of its name in `blue_model` does: `look_up` and `find` those of
//! `specs/Lookup.antt` there, `find_or_tell` and `activate` those of `Messages.antt`. The selector is in register 4, the method that was
//! found in 5, the number of arguments in the processor's numbers.
//!
//!     find_or_tell(m, cpu, class)?;       // the method, or that of doesNotUnderstand: with a Message on the stack
//!     activate(m, cpu)?;                  // a context takes receiver and arguments, and is entered
//!
//! The cache is asked first. A lookup that goes on begins a path, marks each object that it looks at, and puts its row, so that the cache
//! stays sound (`Cache.antt` of `contexts`) and is never flushed.
//!
//! Read `specs/Found.antt` first, what a lookup leaves and what it answers for a cached pair, and `specs/Path.antt`, what it marks, after
//! `Serves.antt` of `contexts`. The scratch registers from 15 on are used. No primitive is tried here.
//!
//! - Proved: Over any object memory lookup and activation serve the model's rules, with the method cache or without it, and the cache stays
//!   sound. Where the cache has a row of the pair, nothing else is looked up.
//! - Tested: That a lookup which wasn't cached puts its row (`machine_tests`); sends are cases.
//! - Not said: That a row is kept, since a memory may keep none.
#![tactic(auto)]

mod activation;
mod classes;
pub mod header;
mod lookup;
mod message;
mod methods;
mod path;
mod slots;

pub use activation::activate;
pub use contexts::{Cause, Stop};
pub use lookup::{find, look_up};
pub use message::find_or_tell;
