//! Pieces: blocks that one call of the device read, so that several extents are found in them.
ghost use Rattle.std.specs.Prelude.{◌≡◌, ◌+◌, ◌*◌, ◌<◌, ◌≤◌, ◌^◌, ◌↔◌, length, min, max, IfErr, IsTrue, OnOk};
ghost use Rattle.btr_disk.specs.Bytes.{IsBlockRange};
ghost use Rattle.btr_disk.specs.Causes.{KeepsCounts};
ghost use Rattle.btr_disk.specs.Moments.{WroteNothing};
ghost use Rattle.btr_log.specs.Found.{ReadCause};
ghost use Rattle.btr_log.specs.Log.{FitsDevice};
ghost use Rattle.btr_log.specs.Piece.{empty_piece, bytes_at, IsPieceOf, HoldsBlocks, ReadsPiece};

use crate::ExtentFault;
use btr_disk::{BLOCK, Disk};
use std::alloc::Global;
use std::marker::Model;

/// The number of blocks that a read of a log takes at least, if the log has as many: 1 MiB.
pub const READ_AHEAD: u64 = 256;

/// A run of blocks that was read from a device.
#[derive(Drop)]
pub struct Piece {
    first: u64,
    bytes: Vec<u8>,
}

impl Model for Piece {
    ghost use Rattle.btr_log.specs.Piece.{PieceValue};

    ghost Value = { PieceValue };

    ghost view = { λ p. record { first = p.first; bytes = p.bytes.items } };
}

impl Piece {
    /// A piece with no block. It takes no memory.
    pub fn new(alloc: Global) -> Piece
        ensures { result ≡ empty_piece }
    {
        Piece {
            first: 0,
            bytes: Vec::new(alloc),
        }
    }

    /// Returns whether the piece holds the `count` blocks from this one on.
    pub fn holds(&self, block: u64, count: u64) -> bool
        ensures { IsTrue result ↔ HoldsBlocks self.now block count }
    {
        let held = (self.bytes.len() / BLOCK) as u64;
        block >= self.first && block - self.first <= held && count <= held - (block - self.first)
    }

    /// The bytes of the `count` blocks from this one on, which the piece holds. They are not copied.
    pub fn blocks(&self, block: u64, count: u64) -> &[u8]
        requires { HoldsBlocks self.now block count }
        ensures { result.now ≡ bytes_at self.now block count }
    {
        let at = BLOCK * (block - self.first) as usize;
        &self.bytes[at..at + BLOCK * count as usize]
    }

    /// The bytes of a block that the piece holds. They are not copied.
    pub fn held(&self, block: u64) -> &[u8; BLOCK]
        requires { HoldsBlocks self.now block 1 }
        ensures { result.now ≡ bytes_at self.now block 1 }
    {
        match self.blocks(block, 1).first_chunk::<BLOCK>() {
            Some(bytes) => bytes,
            None => unreachable!(),
        }
    }

    /// Makes the piece hold the `count` blocks from this one on, of a log of `blocks` blocks on the device.
    ///
    /// If it holds all of them, it makes no call of the device, and stays. Else it reads from this block on in one call, and holds
    /// nothing else then. After an `Err` it is as before, or has no block.
    pub(crate) fn hold<D: Disk>(
        &mut self,
        disk: &mut D,
        blocks: u64,
        block: u64,
        count: u64,
    ) -> Result<(), ExtentFault>
        requires some { 1 ≤ count }
        requires inside { block + count ≤ blocks }
        requires device { FitsDevice blocks (D.size disk.old) }
        ensures reads { ReadsPiece D.size D.calls D.faults (HoldsBlocks self.old block count) self.old self.new disk.old disk.new }
        ensures unwritten { D.is_observable → WroteNothing D.calls D.contents D.images_now D.images_since disk.old disk.new }
        ensures piece { D.is_observable → IsPieceOf (D.contents disk.old) self.old → IsPieceOf (D.contents disk.new) self.new }
        ensures held { OnOk result (HoldsBlocks self.new block count) }
        ensures cause { IfErr result (ReadCause (D.faults disk.old) (D.faults disk.new)) }
    {
        if self.holds(block, count) {
            return Ok(());
        }
        let more = count.max(READ_AHEAD).min(blocks - block);
        self.read(disk, block, more)
    }

    /// Reads `count` blocks from `first` on into the piece, in one call of the device. They replace what it held.
    ///
    /// Its memory is used again, and grows only to what they need. After an `Err` it is as before, or has no block. `Fault` is returned
    /// only if the call failed, and never `Damaged`.
    pub fn read<D: Disk>(&mut self, disk: &mut D, first: u64, count: u64) -> Result<(), ExtentFault>
        requires run { IsBlockRange (D.size disk.old) first (4096 * count) }
        requires addressable { count ≤ 2 ^ 32 }
        ensures counts { KeepsCounts D.size D.calls D.faults disk.old disk.new }
        ensures call { D.calls disk.new ≤ D.calls disk.old + 1 }
        ensures unwritten { D.is_observable → WroteNothing D.calls D.contents D.images_now D.images_since disk.old disk.new }
        ensures piece { D.is_observable → IsPieceOf (D.contents disk.old) self.old → IsPieceOf (D.contents disk.new) self.new }
        ensures held { OnOk result (HoldsBlocks self.new first count) }
        ensures cause { IfErr result (ReadCause (D.faults disk.old) (D.faults disk.new)) }
    {
        let size = BLOCK * count as usize;
        let more = size.saturating_sub(self.bytes.len());
        self.bytes.reserve_exact(more)?;
        self.bytes.resize(size, 0)?;
        self.first = first;
        if let Err(failed) = disk.read(first, &mut self.bytes) {
            self.bytes.clear();
            return Err(failed.into());
        }
        Ok(())
    }
}
