//! A host over the files of any system.
//!
//! `FileHost` has a file for each role, and calls a `System` for all of them. Saved is written beside the file of its name, and has that name
//! once it is ended. Over a system that tells, the host tells Saved: what was put to it is what its descriptor accepted.
//!
//! ```text
//! let mut host = FileHost::new(system, alloc, output, errors);
//! host.attach(Role::Saved, "saved.loom")?;        // the file of that name stays as it is
//! write_full(&mut host, Role::Saved, &bytes)?;    // beside it
//! host.write(Role::Saved, &[])?;                  // now the name leads to it, and a loss of power changes nothing
//! ```
//!
//! `keep_inputs`, `expect` and `protect` say which files roles may not be written to: they are compared by their numbers, whatever they are called.
//!
//! Read `specs/Told.antt`, then `Stands.antt`: what the host keeps, in the words of the system.
//!
//! - Proved: It meets every clause of `Host`, over every system. Over one that tells, Saved while it isn't ended is an unfinished file with all
//!   bytes that were put, and no other role is written through its descriptor or to its file (`stands`); the attach and the writing of Saved
//!   leave the file of its name as it is at each moment, and its end leaves the old one or the whole new one (`keeps`, `moves`).
//! - Tested: A host over the system in memory, and one over real files (`file_tests`).
//! - Not said: What the files of the other roles hold. Saved is refused where no file can be made beside it, as for a device.
#![tactic(auto)]

mod faults;
mod host;
mod told;

pub use host::FileHost;
