//! The command `sample`, which fills an empty store with the points of a generator.
ghost use Rattle.std.specs.Prelude.{◌≡◌, ◌+◌};
ghost use Rattle.btr_top.specs.Work.{SampleCause};

use crate::command::{CommandResult, open_refusal, work_result};
use btr_disk::Disk;
use btr_jobs::{Pace, System};
use btr_store::sample_store;
use std::sync::Wait;
use std::thread::Threads;

/// `sample`: opens the store, and fills it with a sample if it is empty. It reads no input.
pub(crate) fn run_sample<R: Threads + Wait + Sync, D: Disk + Send, P: Pace + Sync>(
    system: System<'_, R>,
    number: u32,
    streams: u32,
    points: u32,
    disk: D,
    pace: &P,
) -> CommandResult<D>
    ensures size { D.size result.disk ≡ D.size disk }
    ensures cause { SampleCause ⟦<D as Disk>⟧ number streams points disk result.disk result.ending }
{
    match sample_store(system, number, streams, points, pace, disk) {
        Ok(worked) => work_result(worked),
        Err(fault) => open_refusal(fault),
    }
}
