//! The lines of `load`.
ghost use Rattle.std.specs.Prelude.{◌≡◌, ◌≤◌, ◌++◌, length, map, take, drop, IfOk, OnOk};
ghost use Rattle.btr_store.specs.Transcript.{AddsLines, SaysLines};
ghost use Rattle.btr_store.specs.LoadLines.{AreRefused, SaysLoad, SaysRefused, row_line, first_number, last_row, rows_refused};
ghost use Rattle.btr_store.specs.LoadLines.{output_rows, refused_point, stream_lines, stream_spans, span_line, batch_span, batch_spans};
ghost use Rattle.btr_store.specs.LoadLines.{points_committed, points_by_result, good_in, total_line};

use crate::report_line::{ReportLine, RowRefusal};
use crate::transcript::Transcript;
use btr_engine::{Receipt, StepFault};
use btr_live::reason_of_step;
use btr_load::{Loaded, LoadedStream, RowsOutcome};
use btr_rows::NumberedPoint;
use std::alloc::{AllocError, Global};

/// A refused row, by its number.
#[derive(Clone, Copy)]
pub(crate) struct RefusedNumber {
    number: u64,
    reason: RowRefusal,
}

/// Says what became of rows. An `Err` means out of memory.
pub(crate) fn load_lines(alloc: Global, loaded: &Loaded) -> Result<Transcript, AllocError>
    ensures { IfOk result (SaysLoad loaded.now) }
{
    let mut transcript = refused_lines(alloc, loaded)?;
    for stream in loaded.streams() {
        add_stream(stream, &mut transcript)?;
    }
    transcript.add(&total_line(loaded))?;
    Ok(transcript)
}

/// Says which rows were refused, by their numbers. An `Err` means out of memory.
pub(crate) fn refused_lines(alloc: Global, loaded: &Loaded) -> Result<Transcript, AllocError>
    ensures { IfOk result (SaysRefused loaded.now) }
{
    let rows = refused_rows(alloc, loaded)?;
    let mut transcript = Transcript::new(alloc);
    for row in &rows {
        transcript.add(&row_line(*row))?;
    }
    Ok(transcript)
}

/// Returns the line of a refused row.
fn row_line(row: RefusedNumber) -> ReportLine
    ensures { result ≡ row_line row }
{
    ReportLine::RowRefused {
        number: row.number,
        reason: row.reason,
    }
}

/// Returns the refused rows, sorted by their numbers. An `Err` means out of memory.
fn refused_rows(alloc: Global, loaded: &Loaded) -> Result<Vec<RefusedNumber>, AllocError>
    ensures { IfOk result (λ v. AreRefused loaded.now v.items) }
{
    let mut rows = all_refused(alloc, loaded)?;
    rows.sort_unstable_by_key(|row| row.number);
    Ok(rows)
}

/// Returns the refused rows: those that the reader refused, and then those of outputs. An `Err` means out of memory.
fn all_refused(alloc: Global, loaded: &Loaded) -> Result<Vec<RefusedNumber>, AllocError>
    ensures { IfOk result (λ v. v.items ≡ rows_refused loaded.now) }
{
    let mut rows = Vec::new(alloc);
    for row in loaded.refused() {
        rows.push(RefusedNumber {
            number: row.number,
            reason: RowRefusal::Row(row.reason),
        })?;
    }
    for stream in loaded.streams() {
        add_output_rows(stream, &mut rows)?;
    }
    Ok(rows)
}

/// Adds the rows of a stream, if it is an output. An `Err` means out of memory.
fn add_output_rows(stream: &LoadedStream, rows: &mut Vec<RefusedNumber>) -> Result<(), AllocError>
    ensures { OnOk result (rows.new.items ≡ rows.old.items ++ output_rows stream.now) }
{
    match &stream.outcome {
        RowsOutcome::Output => add_rows(stream.rows.points(), rows),
        RowsOutcome::NotCreated(_) | RowsOutcome::Committed { .. } => Ok(()),
    }
}

/// Adds the rows of these points of an output. An `Err` means out of memory.
fn add_rows(points: &[NumberedPoint], rows: &mut Vec<RefusedNumber>) -> Result<(), AllocError>
    ensures { OnOk result (rows.new.items ≡ rows.old.items ++ map refused_point points.now) }
{
    for point in points {
        rows.push(RefusedNumber {
            number: point.number,
            reason: RowRefusal::Output,
        })?;
    }
    Ok(())
}

/// Adds the lines of a stream: its refused batches, and what was committed. An `Err` means out of memory.
fn add_stream(stream: &LoadedStream, transcript: &mut Transcript) -> Result<(), AllocError>
    ensures { OnOk result (AddsLines (stream_lines stream.now) transcript.old transcript.new) }
{
    add_spans(stream, transcript)?;
    if let RowsOutcome::Committed {
        results,
        latest,
        ..
    } = &stream.outcome
    {
        let points = points_in(stream.rows.points(), stream.batch, results.as_slice());
        transcript.add(&ReportLine::StreamLoaded {
            id: stream.rows.id(),
            version: *latest,
            points,
        })?;
    }
    Ok(())
}

/// Adds the lines of the refused batches of a stream. An `Err` means out of memory.
pub(crate) fn add_spans(
    stream: &LoadedStream,
    transcript: &mut Transcript,
) -> Result<(), AllocError>
    ensures { OnOk result (AddsLines (stream_spans stream.now) transcript.old transcript.new) }
{
    let id = stream.rows.id();
    let points = stream.rows.points();
    match &stream.outcome {
        RowsOutcome::Output => Ok(()),
        RowsOutcome::NotCreated(fault) => transcript.add(&span_line(id, points, *fault)),
        RowsOutcome::Committed { results, .. } => {
            add_batches(id, points, stream.batch, results.as_slice(), transcript)
        }
    }
}

/// Adds the lines of the refused ones of these batches. An `Err` means out of memory.
fn add_batches(
    id: u128,
    points: &[NumberedPoint],
    batch: u32,
    results: &[Result<Receipt, StepFault>],
    transcript: &mut Transcript,
) -> Result<(), AllocError>
    ensures { OnOk result (AddsLines (batch_spans id batch points.now results.now) transcript.old transcript.new) }
{
    let mut rest = points;
    for result in results {
        let (here, after) = cut(rest, batch);
        add_batch(id, here, *result, transcript)?;
        rest = after;
    }
    Ok(())
}

/// Cuts the next batch of this many points off, or what is left.
fn cut(points: &[NumberedPoint], batch: u32) -> (&[NumberedPoint], &[NumberedPoint])
    ensures here { result.0.now ≡ take batch points.now }
    ensures after { result.1.now ≡ drop batch points.now }
{
    points.split_at(points.len().min(batch as usize))
}

/// Adds the line of a batch, if it was refused. An `Err` means out of memory.
fn add_batch(
    id: u128,
    points: &[NumberedPoint],
    done: Result<Receipt, StepFault>,
    transcript: &mut Transcript,
) -> Result<(), AllocError>
    ensures { OnOk result (AddsLines (batch_span id points.now done) transcript.old transcript.new) }
{
    match done {
        Ok(_) => Ok(()),
        Err(fault) => transcript.add(&span_line(id, points, fault)),
    }
}

/// Returns the line of rows that were refused together. The rejection names no output, since the entry is no retirement.
fn span_line(id: u128, points: &[NumberedPoint], fault: StepFault) -> ReportLine
    ensures { result ≡ span_line id points.now fault }
{
    ReportLine::BatchRefused {
        id,
        first: first_number(points),
        last: last_number(points),
        reason: reason_of_step(fault, 0),
    }
}

/// Returns the number of the first row, or 0 if there is none.
fn first_number(points: &[NumberedPoint]) -> u64
    ensures { result ≡ first_number points.now }
{
    match points {
        [] => 0,
        [point, ..] => point.number,
    }
}

/// Returns the number of the last row, or 0 if there is none.
fn last_number(points: &[NumberedPoint]) -> u64
    ensures { result ≡ last_row points.now }
{
    match points.len() {
        0 => 0,
        count => points[count - 1].number,
    }
}

/// Returns the number of points in the accepted ones of these batches.
fn points_in(points: &[NumberedPoint], batch: u32, results: &[Result<Receipt, StepFault>]) -> u64
    ensures value { result ≡ points_committed batch points.now results.now }
    ensures most { result ≤ length points.now }
{
    let mut count = 0;
    let mut rest = points;
    for result in results {
        let (here, after) = cut(rest, batch);
        count += points_of(here, *result);
        rest = after;
    }
    count
}

/// Returns the number of points of a batch, if it was accepted.
fn points_of(points: &[NumberedPoint], done: Result<Receipt, StepFault>) -> u64
    ensures value { result ≡ points_by_result points.now done }
    ensures most { result ≤ length points.now }
{
    match done {
        Ok(_) => points.len() as u64,
        Err(_) => 0,
    }
}

/// Returns the last line: how many rows are good, and how many were refused.
fn total_line(loaded: &Loaded) -> ReportLine
    ensures { result ≡ total_line loaded.now }
{
    let mut good: u64 = 0;
    let mut refused = loaded.refused().len() as u64;
    for stream in loaded.streams() {
        let points = good_in(stream);
        good = good.saturating_add(points);
        refused = refused.saturating_add(stream.rows.points().len() as u64 - points);
    }
    ReportLine::Loaded { good, refused }
}

/// Returns the number of rows of a stream that were committed.
fn good_in(stream: &LoadedStream) -> u64
    ensures value { result ≡ good_in stream.now }
    ensures most { result ≤ length stream.now.rows.points }
{
    match &stream.outcome {
        RowsOutcome::Output | RowsOutcome::NotCreated(_) => 0,
        RowsOutcome::Committed { results, .. } => {
            points_in(stream.rows.points(), stream.batch, results.as_slice())
        }
    }
}
