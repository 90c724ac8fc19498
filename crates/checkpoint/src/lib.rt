//! Checkpoints: images in a vault, of which the last one outlives a stop at any moment.
//!
//! A vault is bytes by their places. A stop, as a loss of power, leaves those that are synced; a range that was written since the last sync
//! may hold any bytes then. First in a vault stand two gates, and behind them two areas of blocks lie in turn. Gate s has its byte at
//! 512 s, its serial at 512 s + 8 and its length at 512 s + 16, both of 64 bits, the highest byte first; it is open where its byte is 1 and
//! its serial isn't 0. Block b of area s, of 65,536 bytes, stands at 4,096 + (2 b + s) 65,536. The checkpoint of serial n has gate and area
//! n mod 2, and its image is as many of the area's first bytes as the gate's length says. Serials start at 1, and the vault's checkpoint is
//! that of the open gate with the larger one.
//!
//! A checkpoint is written beside the last one, in this order: its gate is closed, where its byte is 1; a sync; image, serial and length; a
//! sync; its gate is opened; a sync. So no gate is open while what it says may be torn.
//!
//! ```text
//! vault.open_named("vault", false)?;
//! if let Some(point) = recover(&mut vault)? {
//!     let image = read_image(alloc, &mut vault, point)?;
//! }
//! ```
//!
//! `MemoryVault` tells all, and fails and stops where it is told to; `RealVault`, over a file, counts each failure and tells nothing. Read
//! `specs/Vault.antt` first, for what a vault tells and what a stop may leave of it (`MayLeave`, `Throughout`), then `specs/Layout.antt` for
//! the gates, the checkpoint among bytes (`found`) and its image (`image_in`). No clause says what a file of the system holds.
//!
//! - Proved: Over a vault that tells what it holds, a stop at any moment leaves the last checkpoint or the next one, whole, whatever the
//!   bytes written since the last sync became. The serial that was answered last never falls. Over every vault: a call answers Ok, want of
//!   memory, a bad gate or a fault of the disk only where the count of the vault's faults is as it was before. `MemoryVault` fails only where
//!   it is told to, or where memory past what `reserve` took is refused.
//! - Tested: Gates of every kind, every call failing in turn, stops within calls (`outside_tests`, `work_tests`).
//! - Not said: That a fault of the vault outside the list of calls did nothing.
#![tactic(auto)]

mod area;
mod calls;
mod fault;
mod gates;
mod image_host;
mod imaging;
mod journal;
mod keeping;
pub mod laws;
mod layout;
mod losing;
mod memory;
mod noted;
mod point;
mod recovering;
mod starting;
mod vault;

pub use fault::VaultFault;
pub use image_host::ImageHost;
pub use keeping::keep;
pub use memory::MemoryVault;
pub use point::Point;
pub use recovering::{read_image, recover};
pub use starting::fresh;
pub use vault::Vault;
