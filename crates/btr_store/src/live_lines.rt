//! What `live` says of a script that ran: the replies, and the outputs that the last round refused.
ghost use Rattle.std.specs.Prelude.{◌≡◌, ◌⊎◌, ℕ, ◌++◌, false, List, flat_map, IfOk, OnOk};
ghost use Rattle.btr_hist.specs.declared.entry.Entry.{Entry as EntrySpec};
ghost use Rattle.btr_engine.specs.Engine.{is_stopped, IsEngineOf};
ghost use Rattle.btr_streams.specs.Snapshot.{IsSnapshotOf};
ghost use Rattle.btr_hall.specs.Trace.{history_of};
ghost use Rattle.btr_hall.specs.Session.{IsAlone, opening_of, seen_of};
ghost use Rattle.btr_jobs.specs.States.{log_seen};
ghost use Rattle.btr_jobs.specs.Jobs.{IsAt};
ghost use Rattle.btr_store.specs.Status.{greater};
ghost use Rattle.btr_store.specs.declared.report_line.ReportLine.{ReportLine as LineSpec};
ghost use Rattle.btr_store.specs.declared.status.Status.TheVariants.{Done, DeviceFault};
ghost use Rattle.btr_store.specs.Streams.{Stays, id_in};
ghost use Rattle.btr_store.specs.Transcript.{AddsLines, SaysLines};
ghost use Rattle.btr_store.specs.Replies.{IsTranscript};
ghost use Rattle.btr_store.specs.Live.{AreRoundLines, SaysLive, SaysSomeLive};
ghost use Rattle.btr_store.specs.Live.{log_status, refused_by, round_line, round_lines, round_status};
ghost use Rattle.btr_store.specs.LiveLines.{refused_line};

use crate::replies::{add_reply, no_replies};
use crate::report_line::ReportLine;
use crate::status::Status;
use crate::streams::{all_streams, id_of};
use crate::transcript::Transcript;
use btr_disk::Disk;
use btr_engine::Snapshot;
use btr_hall::{Hall, Session};
use btr_hist::StreamRow;
use btr_jobs::System;
use btr_live::{LiveReport, reason_of_landing};
use btr_text::LineReply;
use btr_work::{RefreshLine, Refreshed, Report};
use std::alloc::{AllocError, Global};
use std::sync::Wait;

/// Says the replies in the order of the script, and then a line for each output that the last round refused. The status is the greatest
/// of theirs: it is also that of a device which failed in a round, or of a last round that had no memory to begin. An `Err` means out of
/// memory.
pub(crate) fn say_live<R: Wait, D: Disk>(
    system: System<'_, R>,
    hall: &Hall<D>,
    session: &mut Session<D>,
    report: &LiveReport,
) -> Result<Transcript, AllocError>
    requires runs { is_stopped (opening_of hall.now) ≡ false }
    requires at { IsAt hall.now session.old }
    requires alone { IsAlone session.old }
    ensures at { IsAt hall.now session.new }
    ensures stays { Stays session.old session.new }
    ensures some { IfOk result (SaysSomeLive report.now) }
    ensures says { (h : List EntrySpec) → IsEngineOf h (opening_of hall.now) → IfOk result (SaysLive (log_seen h session.old) report.now) }
{
    let said = say_replies(system.alloc, &report.replies)?;
    let lines = say_last(system, hall, session, &report.last)?;
    let device = device_status(system.rt, hall, session);
    say_both(said, &lines, round_status(&report.last).greater(device))
}

/// Says replies, in order. An `Err` means out of memory.
fn say_replies(alloc: Global, replies: &[LineReply]) -> Result<Transcript, AllocError>
    ensures { IfOk result (IsTranscript replies.now) }
{
    let mut transcript = no_replies(alloc);
    for reply in replies {
        add_reply(&mut transcript, reply)?;
    }
    Ok(transcript)
}

/// Says a line for each output that the last round refused, by the ids of the store as it is now. An `Err` means out of memory.
fn say_last<R: Wait, D: Disk>(
    system: System<'_, R>,
    hall: &Hall<D>,
    session: &mut Session<D>,
    last: &Option<Result<Report, AllocError>>,
) -> Result<Transcript, AllocError>
    requires at { IsAt hall.now session.old }
    requires alone { IsAlone session.old }
    ensures at { IsAt hall.now session.new }
    ensures stays { Stays session.old session.new }
    ensures some { IfOk result (λ t. (said : List LineSpec) × AreRoundLines last.now said × SaysLines said t) }
    ensures says { (h : List EntrySpec) → IsEngineOf h (opening_of hall.now)
        → IfOk result (SaysLines (round_lines (history_of h (seen_of session.old)) last.now)) }
{
    match last {
        Some(Ok(report)) => {
            let snapshot = session.admit(system.rt, hall)?;
            refused_lines(system.alloc, &snapshot, report)
        }
        _ => Ok(Transcript::new(system.alloc)),
    }
}

/// Says a line for each output that a round refused, by the ids of a snapshot. An `Err` means out of memory.
fn refused_lines(
    alloc: Global,
    snapshot: &Snapshot,
    report: &Report,
) -> Result<Transcript, AllocError>
    ensures some { IfOk result (λ t. (ids : ℕ → ℕ) × SaysLines (flat_map (refused_by ids) report.now) t) }
    ensures says { (h : List EntrySpec) → IsSnapshotOf h snapshot.now → IfOk result (SaysLines (flat_map (refused_line h) report.now)) }
{
    let streams = all_streams(alloc, snapshot)?;
    let mut transcript = Transcript::new(alloc);
    add_refused(&mut transcript, streams.as_slice(), report.lines())?;
    Ok(transcript)
}

/// Adds a line for each output that a round refused. An `Err` means out of memory.
fn add_refused(
    transcript: &mut Transcript,
    streams: &[StreamRow],
    report: &[RefreshLine],
) -> Result<(), AllocError>
    ensures { OnOk result (AddsLines (flat_map (refused_by (id_in streams.now)) report.now) transcript.old transcript.new) }
{
    for line in report {
        add_if_refused(transcript, id_of(streams, line.output), line.result)?;
    }
    Ok(())
}

/// Adds the line of an output with this id, if a round refused it. An `Err` means out of memory.
fn add_if_refused(
    transcript: &mut Transcript,
    id: u128,
    refreshed: Refreshed,
) -> Result<(), AllocError>
    ensures { OnOk result (AddsLines (round_line id refreshed) transcript.old transcript.new) }
{
    match refreshed {
        Refreshed::Landed { .. } | Refreshed::Current { .. } => Ok(()),
        Refreshed::Refused(fault) => transcript.add(&ReportLine::RoundRefused {
            id,
            reason: reason_of_landing(fault),
        }),
    }
}

/// Returns the status of a last round that had no memory to begin.
fn round_status(last: &Option<Result<Report, AllocError>>) -> Status
    ensures { result ≡ round_status last.now }
{
    match last {
        Some(Err(_)) => Status::OutOfMemory,
        _ => Status::Done,
    }
}

/// Returns the status of a device which failed.
fn device_status<R: Wait, D: Disk>(rt: &R, hall: &Hall<D>, session: &mut Session<D>) -> Status
    requires runs { is_stopped (opening_of hall.now) ≡ false }
    requires at { IsAt hall.now session.old }
    requires alone { IsAlone session.old }
    ensures at { IsAt hall.now session.new }
    ensures stays { Stays session.old session.new }
    ensures some { (result ≡ Done) ⊎ (result ≡ DeviceFault) }
    ensures status { (h : List EntrySpec) → IsEngineOf h (opening_of hall.now) → result ≡ log_status (log_seen h session.old) }
{
    match session.stopped(rt, hall) {
        Some(_) => Status::DeviceFault,
        None => Status::Done,
    }
}

/// Says what both transcripts say, one after the other. The status is the greatest of theirs and this one. An `Err` means out of memory.
fn say_both(
    first: Transcript,
    second: &Transcript,
    status: Status,
) -> Result<Transcript, AllocError>
    ensures text { IfOk result (λ t. t.text.items ≡ first.text.items ++ second.now.text.items) }
    ensures status { IfOk result (λ t. t.status ≡ greater (greater first.status second.now.status) status) }
{
    let Transcript {
        status: before,
        mut text,
    } = first;
    text.extend_from_slice(&second.text)?;
    Ok(Transcript {
        status: before.greater(second.status).greater(status),
        text,
    })
}
