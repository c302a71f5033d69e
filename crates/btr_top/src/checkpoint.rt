//! The commands `checkpoint` and `seal`, which add a checkpoint to the log of a store.
ghost use Rattle.std.specs.Prelude.{◌≡◌, true, false};
ghost use Rattle.btr_engine.specs.Engine.{super_of, is_stopped, is_home};
ghost use Rattle.btr_engine.specs.Mark.{Marks};
ghost use Rattle.btr_open.specs.Opening.{IsOpenedEngine};
ghost use Rattle.btr_top.specs.Checkpoint.{checkpoint_format, CheckpointEnds};

use crate::command::{CommandResult, open_refusal};
use crate::ending::Ending;
use crate::remains::RunRemains;
use btr_disk::Disk;
use btr_engine::{Engine, StepFault};
use btr_open::open_store;
use std::alloc::Global;

/// The kinds of checkpoints.
#[derive(Clone, Copy, PartialEq, Eq)]
pub enum CheckpointKind {
    /// One in the format of the superblock. Entries may follow.
    Plain,

    /// The last one, in the format of a sealed store, which it seals. Nothing follows.
    Seal,
}

/// `checkpoint` and `seal`: opens the store, adds a checkpoint of its whole history to the log, and replaces the superblock by one that
/// names it. It reads no input.
///
/// It costs an opening, and then time and memory linear in the numbers of streams and of versions. After the opening it makes nine calls
/// of the device or eleven, fewer if one fails, and none if the store is sealed, or if there is no memory or no room for the checkpoint.
pub(crate) fn run_checkpoint<D: Disk>(
    kind: CheckpointKind,
    alloc: Global,
    disk: D,
) -> CommandResult<D>
    ensures size { D.size result.disk ≡ D.size disk }
    ensures cause { CheckpointEnds ⟦<D as Disk>⟧ kind disk result.disk result.ending }
{
    match open_store(alloc, disk) {
        Ok(engine) => mark_opened(kind, alloc, engine),
        Err(fault) => open_refusal(fault),
    }
}

/// Adds a checkpoint to the log of a store that was opened.
fn mark_opened<D: Disk>(kind: CheckpointKind, alloc: Global, engine: Engine<D>) -> CommandResult<D>
    requires runs { is_stopped engine ≡ false }
    requires home { is_home engine ≡ true }
    ensures size { (old : D) → IsOpenedEngine ⟦<D as Disk>⟧ old engine → D.size result.disk ≡ D.size old }
    ensures cause { (old : D) → IsOpenedEngine ⟦<D as Disk>⟧ old engine
        → CheckpointEnds ⟦<D as Disk>⟧ kind old result.disk result.ending }
{
    let mut engine = engine;
    let ending = match mark(kind, alloc, &mut engine) {
        Ok(entries) => Ending::Checkpointed { kind, entries },
        Err(StepFault::Sealed) => Ending::Sealed,
        Err(StepFault::Want) => Ending::OutOfMemory,
        Err(StepFault::DeviceFull { need, left }) => Ending::Full { need, left },
        Err(StepFault::DeviceFault) => Ending::NoDevice,
        // the engine ran, and a checkpoint adds no entry
        Err(StepFault::Stopped { .. } | StepFault::Rejected(_)) => unreachable!(),
    };
    let (disk, remains) = engine.into_parts();
    CommandResult {
        ending,
        disk,
        remains: RunRemains::Store(remains),
    }
}

/// Adds a checkpoint of this kind to the log of an engine. Returns the number of entries.
fn mark<D: Disk>(
    kind: CheckpointKind,
    alloc: Global,
    engine: &mut Engine<D>,
) -> Result<u64, StepFault>
    requires home { is_home engine.old ≡ true }
    ensures { Marks (checkpoint_format kind (super_of engine.old)) engine.old engine.new result }
{
    match kind {
        CheckpointKind::Plain => engine.checkpoint(alloc),
        CheckpointKind::Seal => engine.seal(alloc),
    }
}
