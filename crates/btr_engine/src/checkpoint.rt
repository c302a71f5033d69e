//! The checkpoint: an extent with all streams and their versions, from which on the log is read. The seal: a last one.
ghost use Rattle.std.specs.Prelude.{◌≡◌, ◌+◌, ◌<◌, ◌≤◌, ◌^◌, false, true, IfOk};
ghost use Rattle.btr_log.specs.Append.{IsAppendRun};
ghost use Rattle.btr_engine.specs.Engine.{board_of, super_of, is_stopped, is_sealed, is_home};
ghost use Rattle.btr_engine.specs.Mark.{run_of_board, next_super, MayMark, Marks};

use crate::engine::Engine;
use crate::extent::encode_checkpoint;
use crate::step::{StepFault, step_fault};
use btr_disk::{Disk, NoBlocks, Parts};
use btr_streams::Board;
use btr_super::{SEALED_FORMAT, Super, replace};
use std::alloc::{AllocError, Global};

/// Returns the body, in this format, of a checkpoint of this board, followed by one block of zeros. An `Err` means out of memory.
fn checkpoint_run(alloc: Global, format: u32, board: &Board) -> Result<Parts, AllocError>
    requires { (1 ≤ format) × (format ≤ 4) }
    ensures bytes { IfOk result (λ p. p ≡ run_of_board format board.now) }
    ensures run { IfOk result (λ p. IsAppendRun p) }
{
    let roll = board.roll(alloc)?;
    encode_checkpoint(alloc, format, &roll, board.entries())
}

impl<D: Disk> Engine<D> {
    /// Adds a checkpoint, which has all streams with their versions, to the log, and replaces the superblock by one that names it. From
    /// then on the superblock says that the log is read from the gate after this checkpoint. The format stays. Returns the number of
    /// entries.
    ///
    /// The checkpoint has the format of the superblock. The history stays as it is, and a crash at any moment of the call leaves it. After
    /// an `Err` the engine is as before, except after a `DeviceFault`, which stops it: from then on it returns `Stopped`. Of several
    /// causes the one that stands first in [`StepFault`] is returned. `Rejected` is none of them.
    ///
    /// After `Ok` it made nine calls of the device or eleven: a write and a sync for the checkpoint, a write and a sync for the gate
    /// before it, and five or seven to replace the superblock. It takes all memory before the first of them. It costs time and memory
    /// linear in the numbers of streams and of versions.
    ///
    /// The caller passes an engine whose log is at home, and gets it so.
    pub fn checkpoint(&mut self, alloc: Global) -> Result<u64, StepFault>
        requires home { is_home self.old ≡ true }
        ensures { Marks (super_of self.old).format self.old self.new result }
    {
        self.mark(alloc, self.chosen.format)
    }

    /// Seals the store: adds a checkpoint, as [`Engine::checkpoint`] does, and replaces the superblock by one that names it and has the
    /// format of a sealed store. From then on the store takes no entry, no checkpoint and no seal: each returns `Sealed`, also after the
    /// next opening. Returns the number of entries.
    ///
    /// The checkpoint has the format of a sealed store. The history stays as it is. A crash at any moment of the call leaves it, sealed or
    /// not, and after `Ok` sealed. The causes of an `Err`, the calls of the device and the cost are those of a checkpoint.
    ///
    /// The caller passes an engine whose log is at home, and gets it so.
    pub fn seal(&mut self, alloc: Global) -> Result<u64, StepFault>
        requires home { is_home self.old ≡ true }
        ensures { Marks 4 self.old self.new result }
    {
        self.mark(alloc, SEALED_FORMAT)
    }

    /// Adds a checkpoint in this format, and replaces the superblock by one of this format that names it. Returns the number of entries.
    fn mark(&mut self, alloc: Global, format: u32) -> Result<u64, StepFault>
        requires home { is_home self.old ≡ true }
        requires format { MayMark (super_of self.old) format }
        ensures { Marks format self.old self.new result }
    {
        if self.stopped {
            return Err(StepFault::Stopped {
                entries: self.board.entries(),
            });
        }
        if self.chosen.is_sealed() {
            return Err(StepFault::Sealed);
        }
        let extent = checkpoint_run(alloc, format, &self.board)?;
        self.append_mark(&extent, format)
    }

    /// Appends the extent of a checkpoint of the board, and replaces the superblock by one of this format that names the checkpoint.
    /// Returns the number of entries.
    fn append_mark(&mut self, extent: &Parts, format: u32) -> Result<u64, StepFault>
        requires home { is_home self.old ≡ true }
        requires runs { is_stopped self.old ≡ false }
        requires unsealed { is_sealed self.old ≡ false }
        requires format { MayMark (super_of self.old) format }
        requires bytes { extent.now ≡ run_of_board format (board_of self.old) }
        requires run { IsAppendRun extent.now }
        ensures { Marks format self.old self.new result }
    {
        let Some(mut log) = self.place.take() else {
            unreachable!()
        };
        let gate = log.tail();
        if let Err(fault) = log.append(extent, &NoBlocks) {
            self.stopped = log.stopped();
            self.place.put_back(log);
            return Err(step_fault(fault));
        }
        let next = next_super(&self.chosen, gate, log.tail(), format);
        if replace(&mut log.disk, &next).is_err() {
            log.stop();
            self.stopped = true;
            self.place.put_back(log);
            return Err(StepFault::DeviceFault);
        }
        self.place.put_back(log);
        self.chosen = next;
        Ok(self.board.entries())
    }
}

/// Returns the superblock of this format that follows the chosen one and names the checkpoint at this gate. The gate after the checkpoint
/// is the tail.
fn next_super(chosen: &Super, gate: u64, tail: u64, format: u32) -> Super
    requires side { chosen.now.side ≤ 1 }
    requires seq { chosen.now.seq + 1 < 2 ^ 64 }
    ensures { result ≡ next_super chosen.now gate tail format }
{
    Super {
        seq: chosen.seq + 1,
        side: 1 - chosen.side,
        blocks: chosen.blocks,
        tail,
        checkpoint: gate,
        format,
    }
}
