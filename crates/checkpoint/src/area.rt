// Bytes for an area of a vault, gathered until there are enough for a block.
ghost use Rattle.std.specs.Prelude.{◌≡◌, ◌≤◌, ◌<◌, ◌+◌, ◌*◌, ◌++◌, length, take, drop, vec_len, IfOk};
ghost use Rattle.checkpoint.specs.declared.layout.TheConstants.{BLOCK, MOST_LENGTH};

use crate::calls::write;
use crate::fault::VaultFault;
use crate::layout::{BLOCK, block_place};
use crate::vault::Vault;
use std::alloc::{AllocError, Global};

// So many zeros.
fn zeros(alloc: Global, size: usize) -> Result<Vec<u8>, AllocError>
    ensures { IfOk result (λ block. vec_len block ≡ size) }
{
    vec![in alloc; 0; size]
}

// Puts a piece into a block.
fn copy_into(block: &mut Vec<u8>, from: usize, piece: &[u8])
    requires { from + length piece.now ≤ vec_len block.old }
    ensures items { block.new.items ≡ take from block.old.items ++ (piece.now ++ drop (from + length piece.now) block.old.items) }
    ensures len { vec_len block.new ≡ vec_len block.old }
{
    block[from..from + piece.len()].copy_from_slice(piece);
}

// Bytes that are put into the area of this parity, one after the other.
#[derive(Drop)]
pub(crate) struct Area {
    parity: u64,
    // begins with the bytes that are not written yet
    block: Vec<u8>,
    filled: usize,
    // how many blocks are written
    blocks: u64,
    ghost which: { parity < 2 },
    ghost whole: { vec_len block ≡ BLOCK },
    ghost room: { filled < BLOCK },
    ghost most: { blocks * BLOCK + filled ≤ MOST_LENGTH },
}

impl Area {
    ghost use Rattle.std.specs.Prelude.{IsTrue, OnOk, IfErr};
    ghost use Rattle.checkpoint.specs.Area.{IsBegun, len_of, text_of};
    ghost use Rattle.checkpoint.specs.Faults.{IsFailed};
    ghost use Rattle.checkpoint.specs.Layout.{area_in};
    ghost use Rattle.checkpoint.specs.Sparing.{IsApart, Spares};
    ghost use Rattle.checkpoint.specs.Vault.{contents_of};

    // Nothing is put yet.
    pub(crate) fn new(alloc: Global, parity: u64) -> Result<Area, AllocError>
        requires { parity < 2 }
        ensures parity { IfOk result (λ area. area.parity ≡ parity) }
        ensures begun { IfOk result IsBegun }
    {
        Ok(Area {
            parity,
            block: zeros(alloc, BLOCK)?,
            filled: 0,
            blocks: 0,
        })
    }

    // How many bytes were put.
    pub(crate) fn len(&self) -> u64
        ensures { result ≡ len_of self.now }
    {
        self.blocks * BLOCK as u64 + self.filled as u64
    }

    // Puts bytes for which the block has room, and writes it where it is full then.
    fn put_piece<V: Vault>(&mut self, vault: &mut V, piece: &[u8]) -> Result<(), VaultFault>
        requires room { self.old.filled + length piece.now ≤ BLOCK }
        requires fits { len_of self.old + length piece.now ≤ MOST_LENGTH }
        ensures text { IsTrue V.tells → OnOk result (text_of self.new (contents_of (V.state vault.new))
            ≡ text_of self.old (contents_of (V.state vault.old)) ++ piece.now) }
        ensures len { OnOk result (len_of self.new ≡ len_of self.old + length piece.now) }
        ensures parity { self.new.parity ≡ self.old.parity }
        ensures spares { IsTrue V.tells → Spares (IsApart self.old.parity) (V.state vault.old) (V.state vault.new) }
        ensures later { V.faults vault.old ≤ V.faults vault.new }
        ensures calm { OnOk result (V.faults vault.new ≡ V.faults vault.old) }
        ensures fault { IfErr result (IsFailed (V.faults vault.old) (V.faults vault.new)) }
    {
        let end = self.filled + piece.len();
        copy_into(&mut self.block, self.filled, piece);
        if end < BLOCK {
            self.filled = end;
            return Ok(());
        }
        let place = block_place(self.parity, self.blocks);
        write(vault, place, &self.block)?;
        self.filled = 0;
        self.blocks += 1;
        Ok(())
    }

    // Puts bytes, and writes each block that is full.
    pub(crate) fn put<V: Vault>(&mut self, vault: &mut V, bytes: &[u8]) -> Result<(), VaultFault>
        requires fits { len_of self.old + length bytes.now ≤ MOST_LENGTH }
        ensures text { IsTrue V.tells → OnOk result (text_of self.new (contents_of (V.state vault.new))
            ≡ text_of self.old (contents_of (V.state vault.old)) ++ bytes.now) }
        ensures len { OnOk result (len_of self.new ≡ len_of self.old + length bytes.now) }
        ensures parity { self.new.parity ≡ self.old.parity }
        ensures spares { IsTrue V.tells → Spares (IsApart self.old.parity) (V.state vault.old) (V.state vault.new) }
        ensures later { V.faults vault.old ≤ V.faults vault.new }
        ensures calm { OnOk result (V.faults vault.new ≡ V.faults vault.old) }
        ensures fault { IfErr result (IsFailed (V.faults vault.old) (V.faults vault.new)) }
    {
        let mut rest = bytes;
        while !rest.is_empty() {
            let (piece, tail) = rest.split_at(rest.len().min(BLOCK - self.filled));
            self.put_piece(vault, piece)?;
            rest = tail;
        }
        Ok(())
    }

    // Writes the bytes that are gathered, behind the blocks that are written.
    pub(crate) fn finish<V: Vault>(&self, vault: &mut V) -> Result<(), VaultFault>
        ensures text { IsTrue V.tells → OnOk result (area_in (contents_of (V.state vault.new)) self.now.parity (len_of self.now)
            ≡ text_of self.now (contents_of (V.state vault.old))) }
        ensures spares { IsTrue V.tells → Spares (IsApart self.now.parity) (V.state vault.old) (V.state vault.new) }
        ensures later { V.faults vault.old ≤ V.faults vault.new }
        ensures calm { OnOk result (V.faults vault.new ≡ V.faults vault.old) }
        ensures fault { IfErr result (IsFailed (V.faults vault.old) (V.faults vault.new)) }
    {
        if self.filled == 0 {
            return Ok(());
        }
        let place = block_place(self.parity, self.blocks);
        write(vault, place, &self.block[..self.filled])
    }
}
