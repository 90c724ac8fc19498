// The contents of a vault in memory, with all calls since it began.
ghost use Rattle.std.specs.Prelude.{◌≡◌, ◌≤◌, [], length};
ghost use Rattle.checkpoint.specs.Noted.{began_of, calls_from, reach, spans};
ghost use Rattle.checkpoint.specs.Vault.{contents_after, unsynced_after};

use crate::losing::lose;
use crate::noted::{Noted, Range};
use loom_host::{read_bytes_at, write_bytes_at};
use std::alloc::{AllocError, Global};

#[derive(Drop)]
pub struct Journal {
    // the contents that it began with, where a call is noted
    began: Vec<u8>,
    noted: Vec<Noted>,
    // the pieces of the writes that are noted, one behind another
    pieces: Vec<u8>,
    // the contents now
    bytes: Vec<u8>,
    // the ranges that were written since the last sync or fresh opening
    unsynced: Vec<Range>,
    ghost held: { bytes.items ≡ contents_after (began_of bytes.items began.items noted.items) (calls_from pieces.items began.items noted.items) },
    ghost ranges: { unsynced_after [] (calls_from pieces.items began.items noted.items) ≡ spans unsynced.items },
    ghost within: { reach noted.items ≤ length pieces.items },
}

#[tactic(auto, unfolding(crate::specs::Journal::state_in))]
impl Journal {
    ghost use Rattle.std.specs.Prelude.{ℕ, ◌+◌, ◌<◌, ◌∷◌, true, false, take, drop, vec_len, vec_capacity, IsOk, IfOk, OnOk, OnErr};
    ghost use Rattle.loom_host.specs.Bytes.{overwritten, window};
    ghost use Rattle.checkpoint.specs.Journal.{HasRoomIn, WidensIn, state_in};
    ghost use Rattle.checkpoint.specs.Torn.{but_first, torn};
    ghost use Rattle.checkpoint.specs.Vault.{Opened, Synced, Written, at_start, behind, contents_of, unsynced_of};

    pub fn new(alloc: Global) -> Journal
        ensures { state_in result ≡ at_start }
    {
        Journal {
            began: Vec::new(alloc),
            noted: Vec::new(alloc),
            pieces: Vec::new(alloc),
            bytes: Vec::new(alloc),
            unsynced: Vec::new(alloc),
        }
    }

    // Makes room for so many calls and so many bytes of pieces more, and for contents up to an end.
    pub fn reserve(&mut self, calls: usize, bytes: usize, end: usize) -> Result<(), AllocError>
        ensures state { state_in self.new ≡ state_in self.old }
        ensures ok { OnOk result (HasRoomIn calls bytes end self.new) }
        ensures room { WidensIn self.old self.new }
    {
        self.noted.reserve(calls)?;
        self.unsynced.reserve(calls)?;
        self.pieces.reserve(bytes)?;
        let held = self.bytes.len();
        self.bytes.reserve(end.saturating_sub(held))?;
        self.began
            .reserve(end.max(held).saturating_sub(self.began.len()))
    }

    // Makes room for one call more, and keeps the contents that it began with where none is noted.
    fn make_room(&mut self) -> Result<(), AllocError>
        ensures bytes { self.new.bytes.items ≡ self.old.bytes.items }
        ensures noted { self.new.noted.items ≡ self.old.noted.items }
        ensures unsynced { self.new.unsynced.items ≡ self.old.unsynced.items }
        ensures pieces { self.new.pieces ≡ self.old.pieces }
        ensures state { state_in self.new ≡ state_in self.old }
        ensures began { OnOk result (began_of self.new.bytes.items self.new.began.items self.new.noted.items ≡ self.new.began.items) }
        ensures room { OnOk result (vec_len self.new.noted < vec_capacity self.new.noted) }
        ensures range_room { OnOk result (vec_len self.new.unsynced < vec_capacity self.new.unsynced) }
        ensures widens { WidensIn self.old self.new }
        ensures succeeds { (calls bytes end : ℕ) → HasRoomIn (calls + 1) bytes end self.old → IsOk result }
    {
        if self.noted.is_empty() {
            self.began.clear();
            self.began.extend_from_slice(&self.bytes)?;
        }
        self.noted.reserve(1)?;
        self.unsynced.reserve(1)
    }

    // Puts a piece behind those that are noted, and tells where it stands.
    fn keep_piece(&mut self, piece: &[u8]) -> Result<usize, AllocError>
        ensures bytes { self.new.bytes ≡ self.old.bytes }
        ensures noted { self.new.noted ≡ self.old.noted }
        ensures unsynced { self.new.unsynced ≡ self.old.unsynced }
        ensures began { self.new.began ≡ self.old.began }
        ensures kept { began_of self.old.bytes.items self.old.began.items self.old.noted.items ≡ self.old.began.items → began_of self.new.bytes.items self.new.began.items self.new.noted.items ≡ self.new.began.items }
        ensures state { state_in self.new ≡ state_in self.old }
        ensures piece { IfOk result (λ from. take (length piece.now) (drop from self.new.pieces.items) ≡ piece.now) }
        ensures within { IfOk result (λ from. from + length piece.now ≤ length self.new.pieces.items) }
        ensures len { OnOk result (vec_len self.new.pieces ≡ vec_len self.old.pieces + length piece.now) }
        ensures room { vec_capacity self.old.pieces ≤ vec_capacity self.new.pieces }
        ensures succeeds { vec_len self.old.pieces + length piece.now ≤ vec_capacity self.old.pieces → IsOk result }
    {
        let from = self.pieces.len();
        self.pieces.extend_from_slice(piece)?;
        Ok(from)
    }

    // A fresh opening.
    pub fn open(&mut self) -> Result<(), AllocError>
        ensures ok { OnOk result (state_in self.new ≡ behind (state_in self.old) (Opened true [] ∷ [])) }
        ensures err { OnErr result (state_in self.new ≡ state_in self.old) }
        ensures succeeds { (calls bytes end : ℕ) → HasRoomIn (calls + 1) bytes end self.old → IsOk result }
        ensures room { OnOk result ((calls bytes end : ℕ) → HasRoomIn (calls + 1) bytes end self.old → HasRoomIn calls bytes end self.new) }
    {
        self.make_room()?;
        self.noted.push_reserved(Noted::Opened);
        self.bytes.clear();
        self.unsynced.clear();
        Ok(())
    }

    pub fn write(&mut self, place: u64, piece: &[u8]) -> Result<(), AllocError>
        ensures ok { OnOk result (state_in self.new ≡ behind (state_in self.old) (Written true place (length piece.now) (overwritten (contents_of (state_in self.old)) place piece.now) ∷ [])) }
        ensures err { OnErr result (state_in self.new ≡ state_in self.old) }
        ensures succeeds { (calls bytes end : ℕ) → HasRoomIn (calls + 1) (bytes + length piece.now) end self.old → place + length piece.now ≤ end → IsOk result }
        ensures room { OnOk result ((calls bytes end : ℕ) → HasRoomIn (calls + 1) (bytes + length piece.now) end self.old → place + length piece.now ≤ end → HasRoomIn calls bytes end self.new) }
    {
        self.make_room()?;
        let from = self.keep_piece(piece)?;
        write_bytes_at(&mut self.bytes, place, piece)?;
        let len = piece.len();
        self.noted
            .push_reserved(Noted::Written { place, from, len });
        self.unsynced.push_reserved(Range { place, len });
        Ok(())
    }

    // A write of so many bytes that fails. The contents reach to its end then, so that a stop may leave any bytes there.
    pub fn fail(&mut self, place: u64, len: usize) -> Result<(), AllocError>
        ensures ok { OnOk result (state_in self.new ≡ behind (state_in self.old) (Written false place len (overwritten (contents_of (state_in self.old)) (place + len) []) ∷ [])) }
        ensures err { OnErr result (state_in self.new ≡ state_in self.old) }
    {
        let Some(end) = place.checked_add(len as u64) else {
            return Err(AllocError);
        };
        self.make_room()?;
        write_bytes_at(&mut self.bytes, end, &[])?;
        let range = Range { place, len };
        self.noted.push_reserved(Noted::Failed(range));
        self.unsynced.push_reserved(range);
        Ok(())
    }

    pub fn sync(&mut self) -> Result<(), AllocError>
        ensures ok { OnOk result (state_in self.new ≡ behind (state_in self.old) (Synced true (contents_of (state_in self.old)) ∷ [])) }
        ensures err { OnErr result (state_in self.new ≡ state_in self.old) }
        ensures succeeds { (calls bytes end : ℕ) → HasRoomIn (calls + 1) bytes end self.old → IsOk result }
        ensures room { OnOk result ((calls bytes end : ℕ) → HasRoomIn (calls + 1) bytes end self.old → HasRoomIn calls bytes end self.new) }
    {
        self.make_room()?;
        self.noted.push_reserved(Noted::Synced);
        self.unsynced.clear();
        Ok(())
    }

    pub fn read(&self, place: u64, buf: &mut [u8])
        ensures { buf.new ≡ window (contents_of (state_in self.now)) place (length buf.old) }
    {
        read_bytes_at(&self.bytes, place, buf);
    }

    // The first ranges of those that were written since the last sync stand, and the others hold this byte. Then it begins anew.
    pub fn stop(&mut self, kept: u64, fill: u8)
        ensures room { WidensIn self.old self.new }
        ensures state { state_in self.new ≡ record (state_in self.old) { began = torn (but_first kept (unsynced_of (state_in self.old))) fill (contents_of (state_in self.old)); calls = [] } }
    {
        let first = (kept as usize).min(self.unsynced.len());
        lose(&mut self.bytes, &self.unsynced[first..], fill);
        self.noted.clear();
        self.pieces.clear();
        self.unsynced.clear();
    }
}
