//! The reading of a whole log from its first gate, with a judge.
ghost use Rattle.std.specs.Prelude.{◌≡◌, IfErr, IfOk};
ghost use Rattle.btr_super.specs.Super.{IsSuper};
ghost use Rattle.btr_log.specs.Reads.{OnlyReads};
ghost use Rattle.btr_open.specs.Reads.{PartCause};
ghost use Rattle.btr_open.specs.Seen.{nothing_seen, first_reading, EndsInside, IsJudgedLog, IsDamagedLogBy};

use crate::judge::Judge;
use crate::loading::Loader;
use crate::log_walk::LogWalk;
use crate::opening::OpenCause;
use btr_disk::Disk;
use btr_pages::Trees;
use btr_super::{LOG_START, SEALED_FORMAT, Super};
use std::alloc::Global;

/// A log that was read whole.
#[derive(Drop)]
pub struct WholeLog {
    /// The trees of its pages, by their blocks.
    pub nodes: Trees,

    /// The gate after its last extent.
    pub tail: u64,
}

/// Reads the log of this superblock from its first gate, whatever checkpoint the superblock names, and has each entry judged. It syncs and
/// writes nothing. The log of a sealed store is read on to its first closed gate, as that of any other: whether this is the tail that the
/// superblock names is not tested.
///
/// Each extent is tested as [`open_store`](crate::open_store) does it; a checkpoint is compared with what is before it. An entry that may
/// follow but that the judge does not let follow breaks the format in the first block of its body. The device is returned in each case.
///
/// The time is linear in the bytes of the log, but for logarithms of the streams, versions and ids, and what the judge takes.
pub fn read_judged<D: Disk, J: Judge>(
    alloc: Global,
    disk: D,
    found: Super,
    judge: &mut J,
) -> (D, Result<WholeLog, OpenCause>)
    requires table { IsSuper (D.size disk) found }
    requires judge { J.is_after nothing_seen judge.old }
    ensures reads { OnlyReads ⟦<D as Disk>⟧ disk result.0 }
    ensures ends { IfOk result.1 (EndsInside found.blocks) }
    ensures read { D.is_observable
        → IfOk result.1 (IsJudgedLog J.may J.is_after (D.contents disk) (first_reading found) judge.new) }
    ensures cause { IfErr result.1
        (PartCause ⟦<D as Disk>⟧ (IsDamagedLogBy J.may (D.contents disk) (first_reading found)) disk result.0) }
{
    let mut walk = LogWalk::new(alloc, disk, first_reading(found));
    let read = walk.read_log(judge);
    let (disk, loader, place) = walk.into_parts();
    match read {
        Ok(()) => {
            let Loader { nodes, .. } = loader;
            let tail = place.gate;
            (disk, Ok(WholeLog { nodes, tail }))
        }
        Err(cause) => (disk, Err(cause)),
    }
}

/// The superblock as it would be if the log were read from its first gate, in a store that is not sealed.
fn first_reading(found: Super) -> Super
    ensures { result ≡ first_reading found }
{
    Super {
        seq: 1,
        side: found.side,
        blocks: found.blocks,
        tail: LOG_START,
        checkpoint: 0,
        format: found.format.min(SEALED_FORMAT - 1),
    }
}
