//! What the commands `build` and `eval` of the program `st80` make of sources in Smalltalk.
//!
//! `texts_of` reads the files, those of the kernel before them, and `building_of` makes an image of them, or says what is wrong where:
//!
//!     let texts = texts_of(rt, &sources, None)?;
//!     let building = building_of(rt.alloc(), texts)?;
//!     put_building(rt, image, &building)?;
//!
//! With statements, their value is printed at the end of its run. The kernel is a folder of source files: the one that is named, that beside the
//! program, or that of this name here. Read `specs/Asked.antt`, then `specs/Making.antt`.
//!
//! - Proved: It ends and nothing panics. The texts are of the files that are asked for, in their order. What is made of texts is an image, and they
//!   are a program whose methods have trees each. Nothing but an image is written. Each failure has the code of what was tried.
//! - Tested: What is read, written and said (`tests/build.sh`).
//! - Not said: Which image it is, and what files do.
#![tactic(auto)]

mod kernel;
mod making;
mod texts;

pub use making::{Building, building_of, put_building};
pub use texts::{Text, texts_of};
