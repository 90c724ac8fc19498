//! Objects in the work file: a finite map from names to records with counts, and a list of pending names.
//!
//! The directory stands first in Work and has each object's count and place. Behind it lie blocks: each record stands in one of the
//! smallest size class that holds it. Where a record has its count, Work has the link of the pending list, the next pending name, so that a
//! record may move. Each call costs what the record has, and none but `names` takes memory.
//!
//! ```text
//! let mut disk = DiskObjects::begin(&mut host, room);
//! disk.put(&buf, 1)?;                            // the record that `buf` has, under its name
//! let held = disk.get(name, &mut buf)?;
//! let _host = disk.into_host();
//! ```
//!
//! `IsDisk rest work objects pending` says which objects and pending names stand in what Work contains. Each call says what it makes of
//! them where the host tells Work, for whatever they are: `put` inserts, `remove` removes, `swap` exchanges two names, `take_pending`
//! takes the first. The same is said of two functions of what Work contains, `disk_of` from names to objects and `counts_of` to counts
//! (`PutsObject` and the like). A host that doesn't tell Work is tested, and answered by Damaged with the place of the slot or the record
//! that was read; how many names are held is known over any host. Read `specs/Disk.antt` first, then `specs/Function.antt` and
//! `specs/Calls.antt`.
//!
//! - Proved: Over a host that tells Work it is a finite map from names to records with counts, beside a list of pending names, and each
//!   call says what becomes of both. Over every host draining ends.
//! - Tested: Objects filled and emptied, damage, calls that fail, the last object without room (`work_tests`).
//! - Not said: That a name's slot is looked for once; this is read in the code.
#![tactic(auto)]

pub mod laws;
mod names;
mod objects;
mod record;
mod rest;

pub use names::NamesFault;
pub use objects::DiskObjects;
pub use rest::DiskRest;
