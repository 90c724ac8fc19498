//! A host that does short reads and writes of Work in windows over it.
//!
//! `Windowed` is a host over another. Its faults are those of the host inside, and so is what it tells, but for what Work holds: that is what
//! the host inside holds, with what the windows keep back put over it (`contents_over`). It counts the calls of `write_at` itself. It meets every
//! clause of `Host`, so whatever holds over every host holds over it.
//!
//! ```text
//! let mut host = Windowed::new(alloc, RealHost::new(rt, rt.stdout(), rt.stderr()));
//! loom(alloc, &mut host, &words)
//! ```
//!
//! What is written gathers in windows, and goes on to the host inside when a write to another page wants a window's place. Pages that are only
//! read have windows of their own: a read never takes the place of what is kept back, since a read that fails has to leave Work as it was,
//! and a write that fails has not. A write that fails makes all windows forget. Nothing is written at the end, since Work is for the run alone.
//! A page that was never written since Work was attached is all zeros, and isn't read (`Blanks`).
//!
//! That windows and the host inside together hold what Work holds is a fact of the type, wherever the host inside tells what Work holds
//! (`current`). Read `specs/Windows.antt`, then `Blanks.antt` and `Rows.antt`.
//!
//! - Proved: `Windowed` meets every clause of `Host` over any host inside; what it tells of Work is what the host inside holds, with what
//!   the windows keep back put over it.
//! - Tested: The same steps with windows and without, at edges, at ends, after failures and in both rows (`windows` of `outside_tests`).
//! - Not said: How many calls the windows spare; `docs/COSTS.md` has what was measured.
#![tactic(auto)]

mod blanks;
mod row;
mod window;
mod windowed;
mod windows;

pub use window::WIDTH;
pub use windowed::Windowed;
pub use windows::{MOST, READ, WRITTEN};
