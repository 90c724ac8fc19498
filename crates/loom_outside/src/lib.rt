//! Three hosts: what a run reads and writes, in memory, behind a lie, and over files and streams.
//!
//! `MemoryHost` tells all, and fails where it is told to; `LyingHost`, over one, tells nothing of Work, and one read of it lies; `RealHost`,
//! over files and streams, counts each failure and tells no byte. The trait `Host`, whose calls they have, stands in `loom_host`, and is
//! handed on here with its roles. No clause says what a file of the system holds after a call of `RealHost`: `tests/edge.sh` tries it.
//! `Precious` is what a file begins with that people keep, by its whole head: such a file isn't cut to be used for something else.
//!
//! ```text
//! let mut host = MemoryHost::new(alloc)?;
//! host.add("image.loom", &bytes)?;
//! host.attach(Role::Image, "image.loom")?;
//! ```
//!
//! - Proved: `MemoryHost` and `LyingHost` meet the trait and tell what they hold; `MemoryHost` fails only where it is told to, or where
//!   memory is refused. `RealHost` counts each failure and tells no byte.
//! - Tested: What `RealHost` does with files and streams (`tests/edge.sh`, `tests/faults.sh`, `outside_tests`).
//! - Not said: What a file or a stream then holds. It is trusted to be what the calls of the system answered.
#![tactic(auto)]

mod calls;
mod chunk;
mod contents;
mod files;
mod lying;
mod marks;
mod memory;
mod per_role;
mod precious;
mod reader;
mod reading;
mod real;
mod store;
mod writer;

pub use loom_host::{DiskFault, Failed, Host, Role, read_full, write_full};
pub use lying::LyingHost;
pub use memory::MemoryHost;
pub use precious::Precious;
pub use real::{Expected, Identity, RealHost};
