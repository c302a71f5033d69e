//! The work of `live` with shared buffers: a script runs on a store, and its lanes share the commits of what they feed.
ghost use Rattle.std.specs.Prelude.{◌≡◌, ◌≤◌, false, List, [], length, IfErr, IfOk, OnErr};
ghost use Rattle.std.specs.List.{AllByRecursion};
ghost use Rattle.btr_base.specs.declared.limits.TheConstants.{MAX_COMMIT_POINTS};
ghost use Rattle.btr_hist.specs.declared.entry.Entry.{Entry as EntrySpec};
ghost use Rattle.btr_hist.specs.History.{ids};
ghost use Rattle.btr_engine.specs.Engine.{is_stopped, IsEngineOf};
ghost use Rattle.btr_text.specs.Input.{HaveLanes};
ghost use Rattle.btr_open.specs.Opening.{IsNotOpened};
ghost use Rattle.btr_hall.specs.Trace.{history_of};
ghost use Rattle.btr_hall.specs.Session.{IsAlone, Looks, opening_of, seen_of};
ghost use Rattle.btr_group.specs.Sets.{AreGroupsOf, AreSeatsOf, IsFirstSeat};
ghost use Rattle.btr_group.specs.Seats.{HasWholeShare};
ghost use Rattle.btr_jobs.specs.Jobs.{IsAt, Does};
ghost use Rattle.btr_live.specs.Live.{HasReplyEach, LastIsCurrent};
ghost use Rattle.btr_store.specs.Work.{DoesRightly, IfHolds, IsPlainWork};
ghost use Rattle.btr_store.specs.Live.{SaysSomeScript};
ghost use Rattle.btr_store.specs.Shared.{SharesStore};
ghost use Rattle.btr_store.specs.SharedLines.{LanesShared, RunsInSession, SharesFrom};

use crate::live_lines::say_live;
use crate::streams::all_streams;
use crate::transcript::Transcript;
use crate::work::{Worked, close_hall, open_hall};
use btr_base::MAX_STREAMS;
use btr_disk::Disk;
use btr_group::{Group, Seat, begin_groups, begin_lanes, close_groups, end_lanes};
use btr_hall::{Hall, Session};
use btr_jobs::{Pace, System};
use btr_live::{Beside, LANES, LiveReport, last_round, shared_lanes};
use btr_open::OpenFault;
use btr_text::{LineReply, ScriptLine};
use std::alloc::AllocError;
use std::marker::{Send, Sync};
use std::sync::Wait;
use std::thread::Threads;

/// Opens the store on a device, runs the lines of a script on it, and closes the store, as [`crate::live_store`] does, but for the lines of
/// feeds: each stream that stands at the opening has a buffer that all lanes share. `feed` puts points into it; the lane whose points are
/// the `threshold`-th or later ones commits all that wait, in one entry, while the others go on. `flush` commits what waits. What still
/// waits at the end is dropped.
///
/// Each entry since the opening is that of one line, of one batch or of one landing, for every schedule of the threads. If the device does
/// not fail, each output that the last round did not refuse is up to date.
///
/// It costs as [`crate::live_store`] does, and memory for a buffer of each stream.
pub fn share_store<R: Threads + Wait + Sync, D: Disk + Send, P: Pace + Sync>(
    system: System<'_, R>,
    threshold: u32,
    materialize: bool,
    lines: Vec<ScriptLine>,
    disk: D,
    pace: &P,
) -> Result<Worked<D>, OpenFault<D>>
    requires threshold { (1 ≤ threshold) × (threshold ≤ MAX_COMMIT_POINTS) }
    requires lanes { HaveLanes lines.items }
    ensures plain { IfOk result (λ w. IsPlainWork ⟦<D as Disk>⟧ disk w.said w.failed w.disk) }
    ensures says { IfOk result (λ w. IfOk w.said (SaysSomeScript materialize lines.items)) }
    ensures done { IfOk result (λ w. IfHolds ⟦<D as Disk>⟧ disk (DoesRightly ⟦<D as Disk>⟧
        (λ start log own. SharesStore threshold materialize lines.items start log w.said own) w.failed disk w.disk)) }
    ensures refused { IfErr result (IsNotOpened ⟦<D as Disk>⟧ disk) }
{
    let (hall, mut session) = open_hall(system.alloc, disk)?;
    let beside = Beside { materialize, pace };
    let script = SharedScript {
        lines,
        threshold,
        beside,
    };
    let said = share(system, &hall, &mut session, script);
    Ok(close_hall(hall, session, said))
}

/// A script whose lanes share buffers.
#[derive(Drop)]
struct SharedScript<'a, P> {
    lines: Vec<ScriptLine>,
    /// The number of points at which a batch is led, from 1 to 65,536.
    threshold: u32,
    beside: Beside<'a, P>,
}

/// Runs lines at a hall with shared buffers, and says their replies and what the last round refused. An `Err` means out of memory.
fn share<R: Threads + Wait + Sync, D: Disk + Send, P: Pace + Sync>(
    system: System<'_, R>,
    hall: &Hall<D>,
    session: &mut Session<D>,
    script: SharedScript<'_, P>,
) -> Result<Transcript, AllocError>
    requires runs { is_stopped (opening_of hall.now) ≡ false }
    requires at { IsAt hall.now session.old }
    requires alone { IsAlone session.old }
    requires script { HaveLanes script.lines.items × (1 ≤ script.threshold) × (script.threshold ≤ MAX_COMMIT_POINTS) }
    ensures at { IsAt hall.now session.new }
    ensures alone { IsAlone session.new }
    ensures says { IfOk result (SaysSomeScript script.entry.beside.materialize script.entry.lines.items) }
    ensures does { Does hall.now session.old session.new
        (λ start log low own. SharesFrom script.entry.threshold script.entry.beside.materialize script.entry.lines.items
        start log low result own) }
{
    match run_shared(system, hall, session, script) {
        Ok(report) => say_live(system, hall, session, &report),
        Err(error) => Err(error),
    }
}

/// Runs lines at a hall with shared buffers, and a last round. After an `Err`, which means out of memory, no line ran.
fn run_shared<R: Threads + Wait + Sync, D: Disk + Send, P: Pace + Sync>(
    system: System<'_, R>,
    hall: &Hall<D>,
    session: &mut Session<D>,
    script: SharedScript<'_, P>,
) -> Result<LiveReport, AllocError>
    requires at { IsAt hall.now session.old }
    requires alone { IsAlone session.old }
    requires script { HaveLanes script.lines.items × (1 ≤ script.threshold) × (script.threshold ≤ MAX_COMMIT_POINTS) }
    ensures at { IsAt hall.now session.new }
    ensures each { IfOk result (HasReplyEach script.entry.beside.materialize script.entry.lines.items) }
    ensures runs { IfOk result (RunsInSession script.entry.threshold script.entry.beside.materialize script.entry.lines.items
        hall.now session.old session.new) }
    ensures none { OnErr result (Does hall.now session.old session.new (λ start log low own. own ≡ [])) }
{
    let streams = count_streams(system, hall, session)?;
    let (groups, seats) = begin_groups(system.alloc, hall, session, streams, script.threshold)?;
    let materialize = script.beside.materialize;
    let (replies, seats) = share_lanes(system, hall, session, &groups, seats, script);
    close_groups(hall, session, groups, seats);
    match replies {
        Ok(replies) => {
            let last = last_round(system, hall, session, materialize);
            Ok(LiveReport { replies, last })
        }
        Err(error) => Err(error),
    }
}

/// Returns the number of streams. It waits for a turn. An `Err` means out of memory.
fn count_streams<R: Wait, D: Disk>(
    system: System<'_, R>,
    hall: &Hall<D>,
    session: &mut Session<D>,
) -> Result<u32, AllocError>
    requires at { IsAt hall.now session.old }
    ensures at { IsAt hall.now session.new }
    ensures looks { Looks hall.now session.old session.new }
    ensures streams { (h : List EntrySpec) → IsEngineOf h (opening_of hall.now)
        → IfOk result (λ n. n ≡ length (ids (history_of h (seen_of session.new)))) }
{
    let snapshot = session.admit(system.rt, hall)?;
    let streams = all_streams(system.alloc, &snapshot)?;
    let count = streams.as_slice().len();
    // No store has more.
    if count > MAX_STREAMS {
        return Err(AllocError);
    }
    Ok(count as u32)
}

/// Runs lines at a hall with these groups. Returns their replies, and the last seats of the groups. If memory runs out before any line, the
/// groups are as new.
fn share_lanes<R: Threads + Wait + Sync, D: Disk + Send, P: Pace + Sync>(
    system: System<'_, R>,
    hall: &Hall<D>,
    session: &mut Session<D>,
    groups: &[Group<D>],
    seats: Vec<Seat<D>>,
    script: SharedScript<'_, P>,
) -> (Result<Vec<LineReply>, AllocError>, Vec<Seat<D>>)
    requires at { IsAt hall.now session.old }
    requires script { HaveLanes script.lines.items }
    requires groups { AreGroupsOf hall.now script.threshold 0 groups.now }
    requires seats { AreSeatsOf groups.now seats.items × AllByRecursion IsFirstSeat seats.items }
    ensures at { IsAt hall.now session.new }
    ensures seats { AreSeatsOf groups.now result.1.items × AllByRecursion HasWholeShare result.1.items }
    ensures runs { LanesShared hall.now groups.now script.entry.threshold script.entry.beside.materialize script.entry.lines.items
        session.old session.new result.0 result.1.items }
{
    let SharedScript {
        lines,
        threshold,
        beside,
    } = script;
    match begin_lanes(system.alloc, hall, groups, threshold, seats, LANES) {
        Err((seats, error)) => (Err(error), seats),
        Ok(lanes) => match shared_lanes(system, hall, session, lines, lanes, beside) {
            Ok((replies, lanes)) => (Ok(replies), end_lanes(groups, lanes)),
            Err((lanes, error)) => (Err(error), end_lanes(groups, lanes)),
        },
    }
}
