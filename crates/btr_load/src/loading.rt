//! The load: first the creates of the streams that are not there, then the batches of all streams, by many workers.
ghost use Rattle.std.specs.Prelude.{◌≡◌, ◌≤◌, [], IfOk, OnErr};
ghost use Rattle.btr_hall.specs.Session.{IsAlone};
ghost use Rattle.btr_jobs.specs.Jobs.{IsAt, Does};
ghost use Rattle.btr_load.specs.Loads.{Loads, LoadsInTurn};

use crate::creating::create_streams;
use crate::loaded::Loaded;
use crate::plan::planned;
use btr_disk::Disk;
use btr_hall::{Hall, Session};
use btr_jobs::{Pace, System, run_jobs};
use btr_rows::RowList;
use std::alloc::AllocError;
use std::marker::{Send, Sync};
use std::sync::Wait;
use std::thread::Threads;

/// Loads rows: creates each stream whose id the store does not have, in the order of the rows, and then commits the points of each
/// stream in batches of this many points. The streams are shared among at most this many workers; one worker commits them one after
/// another. The batches of a stream are committed in order, by one worker; a refused batch does not stop later ones. The rows of an
/// output are not committed. The turns of `pace` are the streams, from 0 on.
///
/// The session is the only one of its hall, before and after. All memory for the result is taken first: an `Err` means out of
/// memory, and that nothing was added. Memory that runs out later is the result of one batch or create. It takes time linear in the
/// rows and, for each stream, logarithmic in the streams of the store, beside the steps of its entries.
pub fn load<R: Threads + Wait + Sync, D: Disk + Send, P: Pace + Sync>(
    system: System<'_, R>,
    hall: &Hall<D>,
    session: &mut Session<D>,
    rows: RowList,
    batch: u32,
    workers: u8,
    pace: &P,
) -> Result<Loaded, AllocError>
    requires at { IsAt hall.now session.old }
    requires alone { IsAlone session.old }
    requires batch { 1 ≤ batch }
    ensures at { IsAt hall.now session.new }
    ensures alone { IsAlone session.new }
    ensures loads { IfOk result (λ loaded. Does hall.now session.old session.new
        (λ start log low own. Loads start log low rows batch loaded own)) }
    ensures in_turn { workers ≤ 1 → IfOk result (λ loaded. Does hall.now session.old session.new
        (λ start log low own. LoadsInTurn start log low rows batch loaded own)) }
    ensures refused { OnErr result (Does hall.now session.old session.new (λ start log low own. own ≡ [])) }
{
    let snapshot = session.admit(system.rt, hall)?;
    let (rows, refused) = rows.into_parts();
    let mut streams = planned(system.alloc, &snapshot, rows, batch)?;
    create_streams(system, hall, session, &snapshot, &mut streams);
    run_jobs(system, hall, session, workers, 0, &mut streams, pace);
    Ok(Loaded::from_parts(streams, refused))
}
