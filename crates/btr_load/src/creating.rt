//! The creates of the streams that are not there, one after another.
ghost use Rattle.std.specs.Prelude.{◌≡◌, List};
ghost use Rattle.btr_hist.specs.declared.entry.Entry.{Entry as EntrySpec};
ghost use Rattle.btr_streams.specs.Snapshot.{IsSnapshotOf};
ghost use Rattle.btr_hall.specs.Session.{IsAlone};
ghost use Rattle.btr_jobs.specs.Jobs.{IsAt, Does};
ghost use Rattle.btr_load.specs.Plan.{IsStreamSettled, SettlesStreams, settled_outcome};

use crate::outcome::RowsOutcome;
use crate::stream::LoadedStream;
use btr_disk::Disk;
use btr_engine::{Receipt, Snapshot, StepFault};
use btr_hall::{Hall, Session};
use btr_hist::Entry;
use btr_jobs::System;
use std::marker::Sync;
use std::sync::Wait;
use std::thread::Threads;

/// Opens the streams, in order.
pub(crate) fn create_streams<R: Threads + Wait + Sync, D: Disk>(
    system: System<'_, R>,
    hall: &Hall<D>,
    session: &mut Session<D>,
    snapshot: &Snapshot,
    streams: &mut [LoadedStream],
)
    requires at { IsAt hall.now session.old }
    requires alone { IsAlone session.old }
    ensures at { IsAt hall.now session.new }
    ensures alone { IsAlone session.new }
    ensures does { Does hall.now session.old session.new
        (λ start log low own. SettlesStreams snapshot.now streams.old streams.new start log low own) }
{
    for stream in streams.iter_mut() {
        create_stream(system, hall, session, snapshot, stream);
    }
}

/// Creates the stream of these rows, if the snapshot has none of this id.
fn create_stream<R: Threads + Wait + Sync, D: Disk>(
    system: System<'_, R>,
    hall: &Hall<D>,
    session: &mut Session<D>,
    snapshot: &Snapshot,
    stream: &mut LoadedStream,
)
    requires at { IsAt hall.now session.old }
    requires alone { IsAlone session.old }
    ensures at { IsAt hall.now session.new }
    ensures alone { IsAlone session.new }
    ensures does { Does hall.now session.old session.new (λ start log low own. (h : List EntrySpec) → IsSnapshotOf h snapshot.now
        → IsStreamSettled start log h low stream.old stream.new own log.history) }
{
    let id = stream.rows.id();
    if snapshot.find(id).is_some() {
        return;
    }
    let entry = Entry::Create { id };
    let result = session.commit(system.rt, system.alloc, hall, &entry);
    settle(&mut stream.outcome, result);
}

/// Sets the outcome of rows after the create of their stream returned this.
fn settle(outcome: &mut RowsOutcome, reported: Result<Receipt, StepFault>)
    ensures { outcome.new ≡ settled_outcome outcome.old reported }
{
    match reported {
        Ok(receipt) => {
            if let RowsOutcome::Committed { stream, .. } = outcome {
                *stream = receipt.stream;
            }
        }
        Err(fault) => *outcome = RowsOutcome::NotCreated(fault),
    }
}
