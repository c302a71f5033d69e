//! The command `load`, which loads the rows of an input.
ghost use Rattle.std.specs.Prelude.{◌≡◌, ◌+◌, ◌≤◌};
ghost use Rattle.btr_io.specs.Bytes.{Gives};
ghost use Rattle.btr_rows.specs.Rows.{rows_of};
ghost use Rattle.btr_rows.specs.Streams.{list_of};
ghost use Rattle.btr_load.specs.There.{AreDistinct};
ghost use Rattle.btr_top.specs.declared.command.TheConstants.{MAX_INPUT};
ghost use Rattle.btr_top.specs.Work.{LoadCause, RowsCause};

use crate::command::{CommandResult, open_refusal, read_input, work_result};
use crate::ending::Ending;
use crate::remains::RunRemains;
use btr_disk::Disk;
use btr_io::Source;
use btr_jobs::{Pace, System};
use btr_load::rows_are_distinct;
use btr_rows::{RowList, read_rows};
use btr_store::load_store;
use std::sync::Wait;
use std::thread::Threads;

/// `load`: reads the source to its end, opens the store, and loads the rows of the input. It does not call the device before all rows
/// are read.
pub(crate) fn run_load<R: Threads + Wait + Sync, S: Source, D: Disk + Send, P: Pace + Sync>(
    system: System<'_, R>,
    workers: u8,
    batch: u32,
    source: &mut S,
    disk: D,
    pace: &P,
) -> CommandResult<D>
    requires { 1 ≤ batch }
    ensures size { D.size result.disk ≡ D.size disk }
    ensures input { S.is_observable → Gives (MAX_INPUT + 1) (S.left source.old) (S.left source.new) }
    ensures cause { LoadCause ⟦<S as Source>⟧ ⟦<D as Disk>⟧ workers batch source.old source.new disk result.disk result.ending }
{
    match read_input(system.alloc, source) {
        Ok(input) => load_input(system, workers, batch, &input, disk, pace),
        Err(ending) => CommandResult {
            ending,
            disk,
            remains: RunRemains::Nothing,
        },
    }
}

/// Reads the rows of an input, and loads them into the store of a device.
fn load_input<R: Threads + Wait + Sync, D: Disk + Send, P: Pace + Sync>(
    system: System<'_, R>,
    workers: u8,
    batch: u32,
    input: &[u8],
    disk: D,
    pace: &P,
) -> CommandResult<D>
    requires { 1 ≤ batch }
    ensures size { D.size result.disk ≡ D.size disk }
    ensures distinct { AreDistinct (list_of (rows_of input.now)).streams }
    ensures cause { RowsCause ⟦<D as Disk>⟧ workers batch (list_of (rows_of input.now)) disk result.disk result.ending }
{
    // the rows of an input have each id once
    rows_are_distinct();
    match read_rows(system.alloc, input) {
        Ok(rows) => load_rows(system, workers, batch, rows, disk, pace),
        Err(_) => CommandResult {
            ending: Ending::OutOfMemory,
            disk,
            remains: RunRemains::Nothing,
        },
    }
}

/// Loads rows into the store of a device.
fn load_rows<R: Threads + Wait + Sync, D: Disk + Send, P: Pace + Sync>(
    system: System<'_, R>,
    workers: u8,
    batch: u32,
    rows: RowList,
    disk: D,
    pace: &P,
) -> CommandResult<D>
    requires { 1 ≤ batch }
    ensures size { D.size result.disk ≡ D.size disk }
    ensures cause { RowsCause ⟦<D as Disk>⟧ workers batch rows disk result.disk result.ending }
{
    match load_store(system, rows, batch, workers, pace, disk) {
        Ok(worked) => work_result(worked),
        Err(fault) => open_refusal(fault),
    }
}
