//! The work of `distil`: each output of a store is brought up to date once.
ghost use Rattle.std.specs.Prelude.{◌≡◌, ◌≤◌, ℕ, List, map, IfErr, IfOk};
ghost use Rattle.btr_hist.specs.declared.entry.Entry.{Entry as EntrySpec};
ghost use Rattle.btr_engine.specs.Engine.{IsEngineOf};
ghost use Rattle.btr_streams.specs.Snapshot.{IsSnapshotOf};
ghost use Rattle.btr_open.specs.Opening.{IsNotOpened};
ghost use Rattle.btr_hall.specs.Trace.{history_of};
ghost use Rattle.btr_hall.specs.Session.{IsAlone, opening_of, seen_of};
ghost use Rattle.btr_jobs.specs.Jobs.{IsAt, Does};
ghost use Rattle.btr_store.specs.Work.{DoesRightly, IfHolds, IsPlainWork};
ghost use Rattle.btr_store.specs.Transcript.{SaysLines};
ghost use Rattle.btr_store.specs.Streams.{AreStreams, Stays};
ghost use Rattle.btr_store.specs.Distil.{Distils, DistilsInTurn, DistilsStore, output_line, current_line, nothing_of};
ghost use Rattle.btr_store.specs.Distil.{IsCurrentLine, IsOutputLine, SaysOutputs, SaysSomeReport};

use crate::report_line::ReportLine;
use crate::streams::{all_streams, id_of};
use crate::transcript::Transcript;
use crate::work::{Worked, close_hall, open_hall};
use btr_disk::Disk;
use btr_engine::Snapshot;
use btr_hall::{Hall, Session};
use btr_hist::{Reads, Spec, StreamRow};
use btr_jobs::{Pace, System};
use btr_live::reason_of_landing;
use btr_open::OpenFault;
use btr_work::{RefreshLine, Refreshed, Report, bring_current};
use std::alloc::{AllocError, Global};
use std::sync::Wait;
use std::thread::Threads;

/// Opens the store on a device, brings each output up to date once, its inputs first, and closes the store. It says one line for each
/// output, in the order in which they were defined: its latest version and the versions of the inputs that this has read, or why it
/// was not brought up to date. Outputs that do not depend on each other are shared among at most `workers` workers.
///
/// In the end each output is up to date whose line is no refusal. If the history was legal, and the memory and the device suffice, the
/// commits, what they have read, and the lines are those of one worker, which lands the outputs one after another. If there is room
/// for all that may be landed, and the device does not fail, no line says that it was full or failed.
///
/// One worker has one right outcome, also on a nearly full device: it lands the outputs one after another, level by level, each level in
/// rising order. A landing is added if the model accepts it and the blocks that are left suffice. If the history was legal, the memory
/// suffices and the device does not fail, the history and the results are those.
///
/// It costs the reading of the store, logarithmic time for each stream, and what the outputs need. If there is no memory for the
/// lines, all outputs may have been brought up to date, or none.
///
/// What is said of histories holds if the device can be observed and held one when it was opened. On each device there is a line for each
/// output of a report. On each device the store was sound when it was opened, if the device can be observed; and if the status or `failed`
/// says that the device failed, its count of faults rose.
pub fn distil_store<R: Threads + Wait + Sync, D: Disk + Send, P: Pace + Sync>(
    system: System<'_, R>,
    workers: u8,
    pace: &P,
    disk: D,
) -> Result<Worked<D>, OpenFault<D>>
    ensures plain { IfOk result (λ w. IsPlainWork ⟦<D as Disk>⟧ disk w.said w.failed w.disk) }
    ensures says { IfOk result (λ w. IfOk w.said SaysSomeReport) }
    ensures done { IfOk result (λ w. IfHolds ⟦<D as Disk>⟧ disk (DoesRightly ⟦<D as Disk>⟧
        (λ start log own. DistilsStore start log workers w.said own) w.failed disk w.disk)) }
    ensures refused { IfErr result (IsNotOpened ⟦<D as Disk>⟧ disk) }
{
    let (hall, mut session) = open_hall(system.alloc, disk)?;
    let said = distil(system, &hall, &mut session, workers, pace);
    Ok(close_hall(hall, session, said))
}

/// Brings each output up to date once, and says what became of each. An `Err` means out of memory.
fn distil<R: Threads + Wait + Sync, D: Disk + Send, P: Pace + Sync>(
    system: System<'_, R>,
    hall: &Hall<D>,
    session: &mut Session<D>,
    workers: u8,
    pace: &P,
) -> Result<Transcript, AllocError>
    requires at { IsAt hall.now session.old }
    requires alone { IsAlone session.old }
    ensures at { IsAt hall.now session.new }
    ensures alone { IsAlone session.new }
    ensures says { IfOk result SaysSomeReport }
    ensures does { Does hall.now session.old session.new (λ start log low own. Distils start log low result own) }
    ensures in_turn { workers ≤ 1 → Does hall.now session.old session.new
        (λ start log low own. DistilsInTurn start log low result own) }
{
    match bring_current(system, hall, session, workers, pace) {
        Ok(report) => say_report(system, hall, session, &report),
        Err(error) => Err(error),
    }
}

/// Says what became of each output, as the store is now. An `Err` means out of memory.
fn say_report<R: Wait, D: Disk>(
    system: System<'_, R>,
    hall: &Hall<D>,
    session: &mut Session<D>,
    report: &Report,
) -> Result<Transcript, AllocError>
    requires at { IsAt hall.now session.old }
    requires alone { IsAlone session.old }
    ensures at { IsAt hall.now session.new }
    ensures stays { Stays session.old session.new }
    ensures some { IfOk result (SaysOutputs report.now) }
    ensures says { (h : List EntrySpec) → IsEngineOf h (opening_of hall.now)
        → IfOk result (SaysLines (map (output_line (history_of h (seen_of session.old))) report.now)) }
{
    let snapshot = session.admit(system.rt, hall)?;
    output_lines(system.alloc, &snapshot, report)
}

/// Says what became of each output of this snapshot. An `Err` means out of memory.
fn output_lines(
    alloc: Global,
    snapshot: &Snapshot,
    report: &Report,
) -> Result<Transcript, AllocError>
    ensures some { IfOk result (SaysOutputs report.now) }
    ensures says { (h : List EntrySpec) → IsSnapshotOf h snapshot.now → IfOk result (SaysLines (map (output_line h) report.now)) }
{
    let streams = all_streams(alloc, snapshot)?;
    let mut transcript = Transcript::new(alloc);
    for line in report.lines() {
        transcript.add(&output_line(snapshot, streams.as_slice(), *line))?;
    }
    Ok(transcript)
}

/// Returns the line of an output of this snapshot, which has these streams.
fn output_line(snapshot: &Snapshot, streams: &[StreamRow], line: RefreshLine) -> ReportLine
    ensures some { IsOutputLine line.result result }
    ensures line { (h : List EntrySpec) → IsSnapshotOf h snapshot.now → AreStreams h streams.now → result ≡ output_line h line }
{
    let id = id_of(streams, line.output);
    match line.result {
        Refreshed::Landed { .. } | Refreshed::Current { .. } => {
            current_line(snapshot, id, line.output)
        }
        Refreshed::Refused(fault) => ReportLine::OutputRefused {
            id,
            reason: reason_of_landing(fault),
        },
    }
}

/// Returns the line of an output that is up to date.
fn current_line(snapshot: &Snapshot, id: u128, output: u32) -> ReportLine
    ensures some { IsCurrentLine result }
    ensures line { (h : List EntrySpec) → IsSnapshotOf h snapshot.now → result ≡ current_line h id output }
{
    let version = snapshot.latest(output).unwrap_or(0);
    let reads = match snapshot.reads(output, version) {
        Some(reads) => reads,
        None => nothing_read(snapshot.spec(output)),
    };
    ReportLine::OutputCurrent { id, version, reads }
}

/// Returns version 0 of each input of an output.
fn nothing_read(kind: Option<Spec>) -> Reads
    ensures { result ≡ nothing_of kind }
{
    match kind {
        None => Reads {
            first: 0,
            second: None,
        },
        Some(spec) => Reads {
            first: 0,
            second: spec.second.map(|_| 0),
        },
    }
}
