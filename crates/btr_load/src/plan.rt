//! The streams of a load before any commit: what is known of each by its id, and a place for each result.
ghost use Rattle.std.specs.Prelude.{◌≡◌, ◌≤◌, ◌<◌, List, length, IfOk};
ghost use Rattle.btr_hist.specs.declared.entry.Entry.{Entry as EntrySpec};
ghost use Rattle.btr_hist.specs.History.{ids, stream_of, spec_of};
ghost use Rattle.btr_streams.specs.Snapshot.{IsSnapshotOf};
ghost use Rattle.btr_load.specs.Batches.{batches_of};
ghost use Rattle.btr_load.specs.Work.{IsBlank};
ghost use Rattle.btr_load.specs.Loads.{IsCommittedTo, OutcomeOfFound};
ghost use Rattle.btr_load.specs.Plan.{ArePlanned, IsPlanned, AreReady};

use crate::outcome::{BatchResults, RowsOutcome};
use crate::stream::LoadedStream;
use btr_engine::Snapshot;
use btr_rows::{NumberedPoint, StreamRows};
use std::alloc::{AllocError, Global};

/// Takes all memory for the results of a load. A stream that is not there gets the number 0 for now. An `Err` means out of memory.
pub(crate) fn planned(
    alloc: Global,
    snapshot: &Snapshot,
    rows: Vec<StreamRows>,
    batch: u32,
) -> Result<Vec<LoadedStream>, AllocError>
    requires batch { 1 ≤ batch }
    ensures ready { IfOk result (λ v. AreReady v.items) }
    ensures planned { (h : List EntrySpec) → IsSnapshotOf h snapshot.now → IfOk result (λ v. ArePlanned h batch rows.items v.items) }
{
    let mut streams = Vec::with_capacity(alloc, rows.len())?;
    for of_stream in rows {
        let outcome = outcome_of(alloc, snapshot, &of_stream, batch)?;
        streams.push(LoadedStream {
            rows: of_stream,
            batch,
            outcome,
        })?;
    }
    Ok(streams)
}

/// Returns what is planned for rows. An `Err` means out of memory.
fn outcome_of(
    alloc: Global,
    snapshot: &Snapshot,
    rows: &StreamRows,
    batch: u32,
) -> Result<RowsOutcome, AllocError>
    requires batch { 1 ≤ batch }
    ensures blank { IfOk result (IsBlank (batches_of batch rows.now.points)) }
    ensures planned { (h : List EntrySpec) → IsSnapshotOf h snapshot.now
        → IfOk result (IsPlanned h (stream_of h rows.now.id)) }
{
    match snapshot.find(rows.id()) {
        Some(stream) => found_outcome(alloc, snapshot, stream, rows, batch),
        None => blank_outcome(alloc, 0, 0, rows, batch),
    }
}

/// Returns what is planned for rows whose stream is there. An `Err` means out of memory.
fn found_outcome(
    alloc: Global,
    snapshot: &Snapshot,
    stream: u32,
    rows: &StreamRows,
    batch: u32,
) -> Result<RowsOutcome, AllocError>
    requires batch { 1 ≤ batch }
    ensures blank { IfOk result (IsBlank (batches_of batch rows.now.points)) }
    ensures planned { (h : List EntrySpec) → IsSnapshotOf h snapshot.now → stream < length (ids h)
        → IfOk result (OutcomeOfFound h stream (spec_of h stream)) }
{
    if snapshot.spec(stream).is_some() {
        return Ok(RowsOutcome::Output);
    }
    let latest = snapshot.latest(stream).unwrap_or(0);
    blank_outcome(alloc, stream, latest, rows, batch)
}

/// Returns the outcome of rows before the commits to this stream, of which this is the latest version. An `Err` means out of memory.
fn blank_outcome(
    alloc: Global,
    stream: u32,
    latest: u64,
    rows: &StreamRows,
    batch: u32,
) -> Result<RowsOutcome, AllocError>
    requires batch { 1 ≤ batch }
    ensures blank { IfOk result (IsBlank (batches_of batch rows.now.points)) }
    ensures planned { IfOk result (IsCommittedTo stream latest) }
{
    let batches = batch_count(rows.points(), batch);
    let results = BatchResults::blank(alloc, batches)?;
    Ok(RowsOutcome::Committed {
        stream,
        results,
        latest,
    })
}

/// Returns the number of batches of these points.
fn batch_count(points: &[NumberedPoint], batch: u32) -> usize
    requires { 1 ≤ batch }
    ensures { result ≡ length (batches_of batch points.now) }
{
    points.len().div_ceil(batch as usize)
}
