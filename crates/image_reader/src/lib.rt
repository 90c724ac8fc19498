//! An image as a disk's objects.
//!
//! `load` reads Image by a window, tests each field before it believes it, and puts each record to the disk with the count that it
//! states; then it judges the rules of the whole image over the names. Where the host tells Image and Work, Bad has the first rule that
//! breaks, with its place (`first_break`), and after Ok the disk holds the image's objects with exact counts, and nothing is pending. It
//! takes memory for one record, a window of the file, and the names, each with the count that is stated and the one that is found, never
//! for the image.
//!
//! ```text
//! disk.attach(Role::Image, name)?;
//! let loaded = load(alloc, &mut disk, room)?;
//! ```
//!
//! Its condition is that the disk is empty and has this room. Read `specs/Loaded.antt`. Whoever reads images that are spelled otherwise has
//! the bytes of Image as they come (`Window`), the words that hold each name (`Tally`, `first_unclosed`), and the rules on the known
//! objects and on the state (`judge_names`).
//!
//! - Proved: `load` reads an image record by record to an empty disk, or answers the first rule that breaks, with its place. After Ok the
//!   disk has the image's heap, and each count is exact.
//! - Tested: Each rule once with its place, lengths, room, states, reads that fail (`work_tests`).
//! - Not said: Where a Damaged points, and how much memory it takes: one record, a window, and 20 bytes for each name, as the code reads.
#![tactic(auto)]

mod fault;
mod head;
mod judging;
mod loading;
mod records;
mod tally;
mod window;

pub use fault::LoadFault;
pub use judging::{first_unclosed, judge_names};
pub use loading::{Loaded, load};
pub use tally::Tally;
pub use window::Window;
