// The bytes of Image as they come.
ghost use Rattle.std.specs.Prelude.{◌≡◌, ◌+◌, ◌≤◌, ◌<◌, ◌^◌, ◌++◌, ◌==◌, [], IsTrue, OnOk, IfErr, false, length, drop};
ghost use Rattle.image_reader.specs.Frames.{ReadsImage};
ghost use Rattle.image_reader.specs.Inside.{IsFillFault};
ghost use Rattle.image_reader.specs.Window.{Ahead, EndsTruly, unused};

use crate::fault::LoadFault;
use disk_objects::DiskObjects;
use long_names::LONGEST_RECORD;
use loom_host::{Host, Role};
use std::alloc::{AllocError, Global};
use std::marker::Model;

/// How many bytes one piece of the file has.
const PIECE: usize = 16_384;

/// So many bytes decide what a record is that begins them: none that is longer breaks off only at their end.
pub(crate) const ENOUGH: usize = LONGEST_RECORD as usize + 4;

/// The bytes of Image that were read and not yet used. They stand from `at` on, and `place` bytes of the file stand before them.
#[derive(Drop)]
pub struct Window {
    bytes: Vec<u8>,
    at: usize,
    ended: bool,
    place: u64,
}

impl Model for Window {
    ghost use Rattle.std.specs.Prelude.{◌≤◌, drop, vec_len};
    ghost use Rattle.image_reader.specs.Window.{Ahead};

    ghost Value = { Ahead };

    ghost view = { λ w. record { bytes = drop w.at w.bytes.items; ended = w.ended; place = w.place } };

    ghost invariant = { λ w. w.at ≤ vec_len w.bytes };
}

impl Window {
    /// Nothing was read yet. It takes no memory.
    pub fn new(alloc: Global) -> Window
        ensures bytes { result.bytes ≡ [] }
        ensures ended { result.ended ≡ false }
        ensures place { result.place ≡ 0 }
    {
        Window {
            bytes: Vec::new(alloc),
            at: 0,
            ended: false,
            place: 0,
        }
    }

    /// The bytes that stand there.
    pub fn bytes(&self) -> &[u8]
        ensures { result.now ≡ self.now.bytes }
    {
        &self.bytes[self.at..]
    }

    /// How many bytes of the file stand before them.
    pub fn place(&self) -> u64
        ensures { result ≡ self.now.place }
    {
        self.place
    }

    /// Whether nothing stands there.
    pub fn is_empty(&self) -> bool
        ensures { result ≡ (length self.now.bytes == 0) }
    {
        self.at == self.bytes.len()
    }

    /// Whether the file ends behind them.
    pub fn has_ended(&self) -> bool
        ensures { result ≡ self.now.ended }
    {
        self.ended
    }

    /// The first bytes have been used.
    pub fn skip(&mut self, count: usize)
        requires within { count ≤ length self.old.bytes }
        requires far { self.old.place + count < 2 ^ 64 }
        ensures bytes { self.new.bytes ≡ drop count self.old.bytes }
        ensures ended { self.new.ended ≡ self.old.ended }
        ensures place { self.new.place ≡ self.old.place + count }
    {
        self.at += count;
        self.place += count as u64;
    }

    /// Gives back the room of the bytes that were used, once they are at least as many as the others. So each byte is moved about once.
    fn close_up(&mut self)
        ensures { self.new ≡ self.old }
    {
        let rest = self.bytes.len() - self.at;
        if self.at >= rest {
            self.bytes.copy_within(self.at.., 0);
            self.bytes.truncate(rest);
            self.at = 0;
        }
    }

    /// Appends a piece.
    fn append(&mut self, piece: &[u8]) -> Result<(), AllocError>
        ensures bytes { OnOk result (self.new.bytes ≡ self.old.bytes ++ piece.now) }
        ensures ended { self.new.ended ≡ self.old.ended }
        ensures place { self.new.place ≡ self.old.place }
    {
        self.bytes.extend_from_slice(piece)?;
        Ok(())
    }

    /// Reads one more piece.
    pub fn read_piece<H: Host>(&mut self, disk: &mut DiskObjects<'_, H>) -> Result<(), LoadFault>
        requires { IsTrue (H.tells Role.Image) → EndsTruly self.old (H.roles disk.old.host.now Role.Image) }
        ensures rest { IsTrue (H.tells Role.Image) → OnOk result (unused self.new (H.roles disk.new.host.now Role.Image) ≡ unused self.old (H.roles disk.old.host.now Role.Image)) }
        ensures ends { IsTrue (H.tells Role.Image) → OnOk result (EndsTruly self.new (H.roles disk.new.host.now Role.Image)) }
        ensures more { OnOk result (self.new.ended ≡ false → length self.new.bytes ≡ length self.old.bytes + PIECE) }
        ensures place { OnOk result (self.new.place ≡ self.old.place) }
        ensures reads { ReadsImage H.Host disk.old.host.now disk.new.host.now }
        ensures same_rest { disk.new.rest ≡ disk.old.rest }
        ensures same_host { disk.new.host.ghost_name ≡ disk.old.host.ghost_name }
        ensures fault { IfErr result (IsFillFault H.Host disk.old.host.now disk.new.host.now) }
    {
        let mut piece = [0; PIECE];
        let Ok(count) = disk.read_from(Role::Image, &mut piece) else {
            return Err(LoadFault::Read {
                count: disk.fault_count(Role::Image),
            });
        };
        self.close_up();
        self.append(&piece[..count])?;
        self.ended = count < PIECE;
        Ok(())
    }

    /// Reads until what stands there decides what the next record is, or the end came. It makes no more room than the file fills.
    pub fn fill<H: Host>(&mut self, disk: &mut DiskObjects<'_, H>) -> Result<(), LoadFault>
        requires { IsTrue (H.tells Role.Image) → EndsTruly self.old (H.roles disk.old.host.now Role.Image) }
        ensures rest { IsTrue (H.tells Role.Image) → OnOk result (unused self.new (H.roles disk.new.host.now Role.Image) ≡ unused self.old (H.roles disk.old.host.now Role.Image)) }
        ensures ends { IsTrue (H.tells Role.Image) → OnOk result (EndsTruly self.new (H.roles disk.new.host.now Role.Image)) }
        ensures enough { OnOk result (self.new.ended ≡ false → ENOUGH ≤ length self.new.bytes) }
        ensures place { OnOk result (self.new.place ≡ self.old.place) }
        ensures reads { ReadsImage H.Host disk.old.host.now disk.new.host.now }
        ensures same_rest { disk.new.rest ≡ disk.old.rest }
        ensures same_host { disk.new.host.ghost_name ≡ disk.old.host.ghost_name }
        ensures fault { IfErr result (IsFillFault H.Host disk.old.host.now disk.new.host.now) }
    {
        while !self.ended && self.bytes.len() - self.at < ENOUGH {
            self.read_piece(disk)?;
        }
        Ok(())
    }
}
