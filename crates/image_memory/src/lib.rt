//! A memory over an image: from the one that was loaded to the one that is saved.
//!
//! What `load` of image_reader promises of a disk is that it `HasImage`. `begin_memory` begins a memory of two levels over that: what is told
//! of it first stands for the image's heap (`BeginsWith`). What `wind_up` promises is that the memory `HasEnded`, and `save_kept` puts what is
//! kept of its heap to Saved, as an image of version 2 with the machine's state.
//!
//! ```text
//! let loaded = load(alloc, &mut disk, room)?;
//! let tables = CoreTables::new(alloc, core, entries)?;
//! let mut memory = begin_memory(disk, &loaded, tables, core, entries);
//! let next = memory.wind_up()?;
//! let mut disk = memory.into_disk();
//! disk.attach(Role::Saved, name)?;
//! save_kept(alloc, &mut disk, next, &state)?;
//! ```
//!
//! That each of these promises gives what the next call asks are the laws of `laws`. Read `specs/Image.antt`. What runs between is not known
//! here.
//!
//! - Proved: A memory that begins over a loaded image stands for its heap. What it leaves at its end is the heap of an image, and is saved
//!   as one, with the state.
//! - Tested: Images that are loaded, used and saved again (`work_tests`, `memory_tests`).
//! - Not said: That out of memory has a cause.
#![tactic(auto)]

mod beginning;
pub mod laws;
mod saving;

pub use beginning::begin_memory;
pub use saving::save_kept;
