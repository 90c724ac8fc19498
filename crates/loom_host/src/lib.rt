//! What a run reads and writes: seven roles, and the trait of a host that has them.
//!
//! The clauses of `Host` say of each call what the role took, gave or holds, that all other roles stay (`others`), and that it failed
//! only where the role's count of faults rose (`cause`). What a host doesn't tell of a role, no clause speaks of.
//!
//! ```text
//! host.attach(Role::Saved, "saved.loom")?;
//! write_full(host, Role::Saved, &bytes)?;         // the whole piece, by as many calls as it takes
//! ```
//!
//! Read `specs/Outside.antt` first, then `Bytes.antt` for what Work holds and `Work.antt` for calls on Work alone. The hosts themselves stand
//! in `loom_outside`.
//!
//! - Proved: `read_full` and `write_full` do the whole piece or say what was done. The trait `Host` says of each call what it takes, puts
//!   and leaves, and that it fails only where its role's count of faults rose.
//! - Tested: Each call on a host in memory and on real files (`outside_tests`).
//! - Not said: What a file of the system holds.
#![tactic(auto)]

mod bytes;
mod outside;
mod whole;

pub use bytes::{read_bytes_at, write_bytes_at};
pub use outside::{DiskFault, Failed, Host, Role};
pub use whole::{read_full, write_full};
