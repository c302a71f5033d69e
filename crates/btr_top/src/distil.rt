//! The command `distil`, which brings each output of a store up to date once.
ghost use Rattle.std.specs.Prelude.{◌≡◌, ◌+◌};
ghost use Rattle.btr_top.specs.Work.{DistilCause};

use crate::command::{CommandResult, open_refusal, work_result};
use btr_disk::Disk;
use btr_jobs::{Pace, System};
use btr_store::distil_store;
use std::sync::Wait;
use std::thread::Threads;

/// `distil`: opens the store, and brings each output up to date once. It reads no input.
pub(crate) fn run_distil<R: Threads + Wait + Sync, D: Disk + Send, P: Pace + Sync>(
    system: System<'_, R>,
    workers: u8,
    disk: D,
    pace: &P,
) -> CommandResult<D>
    ensures size { D.size result.disk ≡ D.size disk }
    ensures cause { DistilCause ⟦<D as Disk>⟧ workers disk result.disk result.ending }
{
    match distil_store(system, workers, pace, disk) {
        Ok(worked) => work_result(worked),
        Err(fault) => open_refusal(fault),
    }
}
