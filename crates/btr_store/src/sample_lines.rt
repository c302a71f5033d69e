//! The lines of `sample`.
ghost use Rattle.std.specs.Prelude.{◌≡◌, ◌<◌, List, length, flat_map, IfOk, OnOk};
ghost use Rattle.std.specs.List.{AllByRecursion};
ghost use Rattle.btr_hist.specs.declared.entry.Entry.{Entry as EntrySpec};
ghost use Rattle.btr_hist.specs.History.{ids};
ghost use Rattle.btr_streams.specs.Snapshot.{IsSnapshotOf};
ghost use Rattle.btr_store.specs.Transcript.{AddsLines};
ghost use Rattle.btr_store.specs.declared.report_line.ReportLine.{ReportLine as LineSpec};
ghost use Rattle.btr_store.specs.Streams.{AreStreams, id_in};
ghost use Rattle.btr_store.specs.LoadLines.{stream_spans};
ghost use Rattle.btr_store.specs.SampleLines.{SaysFilled, summary_line, summary_lines, define_line, landing_by, landing_refusal};
ghost use Rattle.btr_store.specs.SampleLines.{IsSummary, SaysSomeFilled, refusal_line};

use crate::define::DefinedOutput;
use crate::load_lines::{add_spans, refused_lines};
use crate::report_line::ReportLine;
use crate::sample::Filled;
use crate::streams::{all_streams, id_of};
use crate::transcript::Transcript;
use btr_engine::Snapshot;
use btr_hist::{Answer, At, Query, Rows, StreamRow};
use btr_live::reason_of_landing;
use btr_load::LoadedStream;
use btr_text::Reason;
use btr_work::{RefreshLine, Refreshed};
use std::alloc::{AllocError, Global};

/// Says what was done to a store, and what its streams are. An `Err` means out of memory.
pub(crate) fn filled_lines(
    alloc: Global,
    snapshot: &Snapshot,
    filled: &Filled,
) -> Result<Transcript, AllocError>
    ensures some { IfOk result (SaysSomeFilled filled.now) }
    ensures says { (h : List EntrySpec) → IsSnapshotOf h snapshot.now → IfOk result (SaysFilled h filled.now) }
{
    let streams = all_streams(alloc, snapshot)?;
    let mut transcript = refused_lines(alloc, &filled.loaded)?;
    add_all_spans(filled.loaded.streams(), &mut transcript)?;
    add_undefined(filled.outputs.as_slice(), &mut transcript)?;
    add_landings(streams.as_slice(), filled.report.lines(), &mut transcript)?;
    add_summaries(alloc, snapshot, streams.as_slice(), &mut transcript)?;
    Ok(transcript)
}

/// Adds the lines of the refused batches of all streams. An `Err` means out of memory.
fn add_all_spans(streams: &[LoadedStream], transcript: &mut Transcript) -> Result<(), AllocError>
    ensures { OnOk result (AddsLines (flat_map stream_spans streams.now) transcript.old transcript.new) }
{
    for stream in streams {
        add_spans(stream, transcript)?;
    }
    Ok(())
}

/// Adds the lines of the outputs that were not defined. An `Err` means out of memory.
fn add_undefined(outputs: &[DefinedOutput], transcript: &mut Transcript) -> Result<(), AllocError>
    ensures { OnOk result (AddsLines (flat_map define_line outputs.now) transcript.old transcript.new) }
{
    for output in outputs {
        add_if_refused(output.id, output.refused, transcript)?;
    }
    Ok(())
}

/// Adds the lines of the outputs that were not brought up to date. An `Err` means out of memory.
fn add_landings(
    streams: &[StreamRow],
    report: &[RefreshLine],
    transcript: &mut Transcript,
) -> Result<(), AllocError>
    ensures { OnOk result (AddsLines (flat_map (landing_by (id_in streams.now)) report.now) transcript.old transcript.new) }
{
    for line in report {
        add_if_refused(
            id_of(streams, line.output),
            landing_refusal(line.result),
            transcript,
        )?;
    }
    Ok(())
}

/// Returns why an output was not brought up to date, if it was not.
fn landing_refusal(refreshed: Refreshed) -> Option<Reason>
    ensures { result ≡ landing_refusal refreshed }
{
    match refreshed {
        Refreshed::Landed { .. } | Refreshed::Current { .. } => None,
        Refreshed::Refused(fault) => Some(reason_of_landing(fault)),
    }
}

/// Adds the line of an output, if it was refused. An `Err` means out of memory.
fn add_if_refused(
    id: u128,
    refused: Option<Reason>,
    transcript: &mut Transcript,
) -> Result<(), AllocError>
    ensures { OnOk result (AddsLines (refusal_line id refused) transcript.old transcript.new) }
{
    match refused {
        None => Ok(()),
        Some(reason) => transcript.add(&ReportLine::OutputRefused { id, reason }),
    }
}

/// Adds a line for each of the streams of a snapshot, in order of creation. An `Err` means out of memory.
fn add_summaries(
    alloc: Global,
    snapshot: &Snapshot,
    streams: &[StreamRow],
    transcript: &mut Transcript,
) -> Result<(), AllocError>
    ensures some { OnOk result ((said : List LineSpec) × AllByRecursion IsSummary said × AddsLines said transcript.old transcript.new) }
    ensures says { (h : List EntrySpec) → IsSnapshotOf h snapshot.now → AreStreams h streams.now
        → OnOk result (AddsLines (summary_lines h) transcript.old transcript.new) }
{
    for stream in 0..snapshot.streams() {
        let line = summary(alloc, snapshot, id_of(streams, stream), stream)?;
        transcript.add(&line)?;
    }
    Ok(())
}

/// Returns the line of a stream of a snapshot: its latest version, and the aggregate of its points. An `Err` means out of memory.
fn summary(
    alloc: Global,
    snapshot: &Snapshot,
    id: u128,
    stream: u32,
) -> Result<ReportLine, AllocError>
    ensures some { IfOk result IsSummary }
    ensures line { (h : List EntrySpec) → IsSnapshotOf h snapshot.now → stream < length (ids h)
        → IfOk result (λ line. line ≡ summary_line h id stream) }
{
    let query = Query::Info {
        stream,
        at: At::Latest,
    };
    let answer = snapshot.answer(alloc, &query)?;
    match &answer {
        Answer::Found {
            version,
            rows: Rows::Info { agg, .. },
        } => Ok(ReportLine::StreamSummary {
            id,
            version: *version,
            agg: *agg,
        }),
        // The latest version of a stream is always found.
        _ => Err(AllocError),
    }
}
