//! Compiled methods as objects, for an image.
//!
//! `method_body` is the body of a method's object: its header and the header's extension, its literals as the values of a pool, with the
//! class's association last where the code sends to super, and its code:
//!
//!     let body = method_body(Global, &made, &pool, class)?;
//!     builder.add(name, Name::COMPILED_METHOD, body)?;
//!
//! Read `specs/MethodObjects.antt` first.
//!
//! - Proved: The body is that definition's. Where the pool lacks a literal, there is none.
//! - Tested: What the code does, by runs of images (`tests/build.sh`).
//! - Not said: That the body fits an image: who builds one asks.
#![tactic(auto)]

mod methods;

pub use methods::{NoBody, method_body};
