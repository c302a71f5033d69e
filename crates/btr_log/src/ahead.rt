//! Reading extents in order: one call of the device for about each mebibyte of the log.
ghost use Rattle.std.specs.Prelude.{◌<◌, IfErr, IfOk};
ghost use Rattle.btr_disk.specs.Moments.{WroteNothing};
ghost use Rattle.btr_log.specs.Log.{log_device, log_blocks, FitsDevice, KeepsLog, LogReads};
ghost use Rattle.btr_log.specs.Found.{FindCause, ExtentCause};
ghost use Rattle.btr_log.specs.Piece.{IsPieceOf, HoldsBlocks, ReadsPiece};
ghost use Rattle.btr_log.specs.Ahead.{TellsStart, HoldsGateBlocks, IsFoundAhead, ReadsAhead};

use crate::read::{start_blocks, start_of};
use crate::{ExtentFault, Head, Log, Piece};
use btr_disk::Disk;

impl<D: Disk> Log<D> {
    /// Makes the piece hold the extent at this gate, which is below the log's blocks, and returns its head, or `None` if
    /// the gate is closed. The body is not copied: it is the `head.n` blocks of the piece from `gate + 1` on, and the block
    /// after them is the next gate. What is found, and when, is the same as for [`Log::read_extent`], but blocks that the
    /// piece holds are taken from there.
    ///
    /// The caller passes an empty piece, or the one that an earlier call on this log left, if nothing was
    /// written to its blocks since. A read takes at least 256 blocks, or as many as the log still has, and
    /// replaces what the piece held. So the extents of a log, read in order, cost one call for about each
    /// mebibyte, and one more for each larger extent.
    ///
    /// It makes at most two calls of the device: one if the gate and the block after it are not in the piece,
    /// and one if the body is not. If the piece holds all blocks that say what is found, it makes none. The piece
    /// takes at most 1 MiB of memory, or the bytes of the largest extent, and uses its memory again.
    ///
    /// `Damaged` is returned only if the gate is open and the named block breaks the format, or if the device
    /// does not return the same bytes in both calls. `Fault` is returned only if a call of the device failed.
    /// After an `Err` the piece still is one of this device.
    pub fn read_ahead(&mut self, gate: u64, piece: &mut Piece) -> Result<Option<Head>, ExtentFault>
        requires gate { gate < log_blocks self.old }
        requires piece { D.is_observable → IsPieceOf (D.contents (log_device self.old)) piece.old }
        ensures kept { KeepsLog self.old self.new }
        ensures reads { LogReads self.old self.new }
        ensures calls { ReadsAhead (log_blocks self.old) gate piece.old result
            (D.calls (log_device self.old)) (D.calls (log_device self.new)) }
        ensures piece { D.is_observable → IsPieceOf (D.contents (log_device self.new)) piece.new }
        ensures found { IfOk result
            (IsFoundAhead D.is_observable (D.contents (log_device self.old)) (log_blocks self.old) gate piece.new) }
        ensures cause { IfErr result (ExtentCause self.old self.new gate) }
    {
        let blocks = self.blocks;
        let count = start_blocks(blocks, gate);
        let Some(head) = hold_start(&mut self.disk, blocks, gate, count, piece)? else {
            return Ok(None);
        };
        if piece.holds(gate, head.n + 1) {
            return Ok(Some(head));
        }
        match hold_start(&mut self.disk, blocks, gate, head.n + 1, piece)? {
            Some(again) if again.n == head.n => Ok(Some(again)),
            _ => Err(ExtentFault::Damaged { block: gate + 1 }),
        }
    }
}

/// Makes the piece hold the `count` blocks from the gate on, of a log of this many blocks on the device, and returns what the gate and the
/// block after it say, as [`start_of`] does. It makes at most one call of the device.
fn hold_start<D: Disk>(
    disk: &mut D,
    blocks: u64,
    gate: u64,
    count: u64,
    piece: &mut Piece,
) -> Result<Option<Head>, ExtentFault>
    requires start { TellsStart blocks gate count }
    requires device { FitsDevice blocks (D.size disk.old) }
    requires piece { D.is_observable → IsPieceOf (D.contents disk.old) piece.old }
    ensures reads { ReadsPiece D.size D.calls D.faults (HoldsBlocks piece.old gate count) piece.old piece.new disk.old disk.new }
    ensures unwritten { D.is_observable → WroteNothing D.calls D.contents D.images_now D.images_since disk.old disk.new }
    ensures piece { D.is_observable → IsPieceOf (D.contents disk.new) piece.new }
    ensures found { IfOk result (HoldsGateBlocks blocks gate count piece.new) }
    ensures cause { IfErr result (FindCause D.is_observable (D.contents disk.old) blocks gate (D.faults disk.old) (D.faults disk.new)) }
{
    piece.hold(disk, blocks, gate, count)?;
    start_of(piece.blocks(gate, start_blocks(blocks, gate)), blocks, gate)
}
