//! The work of `load`: rows are committed to a store.
ghost use Rattle.std.specs.Prelude.{◌≤◌, IfErr, IfOk};
ghost use Rattle.std.specs.Result.{result_ok};
ghost use Rattle.btr_open.specs.Opening.{IsNotOpened};
ghost use Rattle.btr_store.specs.Work.{DoesRightly, IfHolds, IsPlainWork};
ghost use Rattle.btr_store.specs.Load.{LoadsStore, SaysLoaded, SaysSomeLoad};

use crate::load_lines::load_lines;
use crate::transcript::Transcript;
use crate::work::{Worked, close_hall, open_hall};
use btr_disk::Disk;
use btr_jobs::{Pace, System};
use btr_load::{Loaded, load};
use btr_open::OpenFault;
use btr_rows::RowList;
use std::alloc::{AllocError, Global};
use std::sync::Wait;
use std::thread::Threads;

/// Opens the store on a device, loads rows with at most `workers` workers, in batches of `batch` points, and closes the store. It says
/// a line for each refused row, by its number; then for each stream, in the order of its first row, a line for each refused batch, and
/// one with the stream's latest version and the points that were committed; and last the numbers of good and of refused rows.
///
/// In the end a batch is in the store exactly if it was not refused, and nothing else was added but new streams. If the memory and the
/// device suffice, each stream is as one worker leaves it, which commits the batches stream by stream. Both is so if the rows list each
/// id once, as rows that were read do. If there is also room for the rows, and the device does not fail, no line says that it was full
/// or failed.
///
/// One worker has one right outcome, also on a nearly full device: it makes the creates in order, and then commits the batches stream by
/// stream. Each entry is added if the model accepts it and the blocks that are left suffice. If the memory suffices and the device does
/// not fail, the history and the results are those.
///
/// It costs the reading of the store, time linear in the rows, logarithmic time for each stream and each refused row, and what the
/// entries need. If there is no memory for the lines, all rows may have been loaded, or none.
///
/// What is said of histories holds if the device can be observed and held one when it was opened. On each device the store was sound when
/// it was opened, if the device can be observed; and if the status or `failed` says that the device failed, its count of faults rose.
pub fn load_store<R: Threads + Wait + Sync, D: Disk + Send, P: Pace + Sync>(
    system: System<'_, R>,
    rows: RowList,
    batch: u32,
    workers: u8,
    pace: &P,
    disk: D,
) -> Result<Worked<D>, OpenFault<D>>
    requires batch { 1 ≤ batch }
    ensures plain { IfOk result (λ w. IsPlainWork ⟦<D as Disk>⟧ disk w.said w.failed w.disk) }
    ensures says { IfOk result (λ w. IfOk w.said SaysSomeLoad) }
    ensures done { IfOk result (λ w. IfHolds ⟦<D as Disk>⟧ disk (DoesRightly ⟦<D as Disk>⟧
        (λ start log own. LoadsStore start log rows batch workers w.said own) w.failed disk w.disk)) }
    ensures refused { IfErr result (IsNotOpened ⟦<D as Disk>⟧ disk) }
{
    let (hall, mut session) = open_hall(system.alloc, disk)?;
    let loaded = load(system, &hall, &mut session, rows, batch, workers, pace);
    let said = say_loaded(system.alloc, loaded);
    Ok(close_hall(hall, session, said))
}

/// Says what became of rows, if they were loaded. An `Err` means out of memory.
fn say_loaded(alloc: Global, loaded: Result<Loaded, AllocError>) -> Result<Transcript, AllocError>
    ensures { SaysLoaded (result_ok loaded) result }
{
    match loaded {
        Ok(loaded) => load_lines(alloc, &loaded),
        Err(error) => Err(error),
    }
}
