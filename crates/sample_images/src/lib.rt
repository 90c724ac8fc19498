//! The images of the repository, as tables of objects, and the notation in which a test adds objects of its own.
//!
//! `base` is a builder that has the objects of the base image; its own are named by `METHOD`, `CONTEXT`, `SCHEDULER` and `PROCESS`, and
//! `NEXT` is its next name. `hello`, with `HELLO_NEXT`, has those of an image that says a word, draws a picture and quits, and `blit`, with
//! `BLIT_NEXT`, those of one that draws by `copyBits`. `memory` is a memory of what a builder has, ready for the first call (its clauses
//! `told`, `ready` and `slots`):
//!
//!     let mut builder = base(alloc)?;
//!     add_pointers(alloc, &mut builder, name(68), Name::ARRAY, &[Value::Int(7), object(METHOD)])?;
//!     add_pointers(alloc, &mut builder, Name::TRUE, Name::ARRAY, &[object(68)])?;    // in place of the one that it has
//!     let mut m = memory(alloc, &builder, 70)?;
//!     m.known(Reg::R10, Name::TRUE)?;
//!
//! An object that nothing holds is no part of an image, so each that is added has to be held, and its class has to be there: `memory`
//! answers the first rule of images that is broken. What a method's header says stands in `specs/Header.antt`. There is one file of
//! code for each image. No clause says which objects they have: `loom_images` compares their images with the files.
//!
//! - Proved: `memory` is the plain memory of what a builder has, ready for a first call, or the first rule that the objects break. Each
//!   call of the notation adds the object that it says.
//! - Tested: Which objects the images have (`loom_images` compares them with their files).
//! - Not said: That out of memory has a cause.
#![tactic(auto)]

mod base_image;
mod blit_image;
mod hello_image;
mod memories;
mod messages;
mod notation;

pub use base_image::{CONTEXT, METHOD, NEXT, PROCESS, SCHEDULER, base};
pub use blit_image::{BLIT_NEXT, blit};
pub use hello_image::{HELLO_NEXT, hello};
pub use image_builder::{BuildFault, Builder};
pub use memories::memory;
pub use notation::{Header, NIL, add_bytes, add_method, add_pointers, add_words, name, object};
