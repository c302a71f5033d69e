//! All outputs are brought up to date, level by level.
ghost use Rattle.std.specs.Prelude.{◌≡◌, ◌≤◌, ℕ, List, length, IfOk, OnErr};
ghost use Rattle.btr_hist.specs.declared.entry.Entry.{Entry as EntrySpec};
ghost use Rattle.btr_engine.specs.Engine.{IsEngineOf};
ghost use Rattle.btr_gate.specs.Numbers.{times};
ghost use Rattle.btr_hall.specs.Trace.{history_of};
ghost use Rattle.btr_hall.specs.Session.{Looks, opening_of, seen_of};
ghost use Rattle.btr_jobs.specs.Jobs.{IsAt, Does, AllDid, DidInTurn};
ghost use Rattle.btr_work.specs.Report.{Refreshes, RefreshesInTurn};
ghost use Rattle.btr_work.specs.Refreshing.{IsDone, IsPrepared, jobs_in};

use crate::filling::report_of;
use crate::prepare::{Level, Work, prepare};
use crate::report::Report;
use btr_disk::Disk;
use btr_hall::{Hall, Session};
use btr_jobs::{Pace, System, run_jobs};
use std::alloc::AllocError;
use std::marker::{Send, Sync};
use std::sync::Wait;
use std::thread::Threads;

/// Brings each output up to date once, with at most `workers` workers, each in a session of its own. The outputs are those of the
/// history that the session sees first. A level is done after the one below it, so an output reads what was landed for its inputs.
/// One worker does the outputs of a level one after another, in rising order.
/// Each output is planned and landed once: if another user's landing comes between, it is refused as superseded.
///
/// If a level has fewer outputs than there are workers, each output has a worker of its own, and its plan may use
/// `workers / outputs` threads, that of its worker among them. So no more than `workers` threads work at once, 1 if `workers` is 0.
/// The thread of the caller is one of them; it works or waits for the others.
///
/// The turns of `pace` are the outputs, in order of definition. All memory for the jobs and the report is taken before the first
/// plan. An `Err` means out of memory then; nothing was planned. If the memory runs out later, the output is refused as `Want`.
///
/// Afterwards the session has seen what all workers have seen, and has the numbers of what they added. If it was the only session
/// of the hall it is so again. It costs what the plans and the landings cost, and looks each stream up in logarithmic time.
pub fn bring_current<R: Threads + Wait + Sync, D: Disk + Send, P: Pace + Sync>(
    system: System<'_, R>,
    hall: &Hall<D>,
    session: &mut Session<D>,
    workers: u8,
    pace: &P,
) -> Result<Report, AllocError>
    requires at { IsAt hall.now session.old }
    ensures at { IsAt hall.now session.new }
    ensures refused { OnErr result (Does hall.now session.old session.new (λ start log low own. (n : ℕ) → times n own ≡ 0)) }
    ensures refreshes { IfOk result (λ report. Does hall.now session.old session.new
        (λ start log low own. Refreshes start log low report own)) }
    ensures in_turn { workers ≤ 1 → IfOk result (λ report. Does hall.now session.old session.new
        (λ start log low own. RefreshesInTurn start log low report own)) }
{
    let mut work = prepare_seen(system, hall, session, workers)?;
    refresh_levels(system, hall, session, workers, &mut work.levels, pace);
    Ok(report_of(work))
}

/// Makes the work for the outputs of the whole history, for this many workers.
pub(crate) fn prepare_seen<R: Wait, D: Disk>(
    system: System<'_, R>,
    hall: &Hall<D>,
    session: &mut Session<D>,
    workers: u8,
) -> Result<Work, AllocError>
    requires at { IsAt hall.now session.old }
    ensures at { IsAt hall.now session.new }
    ensures looks { Looks hall.now session.old session.new }
    ensures prepared { (h : List EntrySpec) → IsEngineOf h (opening_of hall.now)
        → IfOk result (IsPrepared (history_of h (seen_of session.new))) }
{
    let snapshot = session.admit(system.rt, hall)?;
    prepare(system.alloc, &snapshot, workers)
}

/// Does the jobs of all levels, one level after another.
fn refresh_levels<R: Threads + Wait + Sync, D: Disk + Send, P: Pace + Sync>(
    system: System<'_, R>,
    hall: &Hall<D>,
    session: &mut Session<D>,
    workers: u8,
    levels: &mut [Level],
    pace: &P,
)
    requires at { IsAt hall.now session.old }
    ensures at { IsAt hall.now session.new }
    ensures levels { length levels.new ≡ length levels.old }
    ensures done { Does hall.now session.old session.new
        (λ start log low own. DidInTurn (AllDid IsDone) start log low (jobs_in levels.old) (jobs_in levels.new) own) }
    ensures in_turn { workers ≤ 1 → Does hall.now session.old session.new
        (λ start log low own. DidInTurn (DidInTurn IsDone) start log low (jobs_in levels.old) (jobs_in levels.new) own) }
{
    for level in levels.iter_mut() {
        refresh_level(system, hall, session, workers, level, pace);
    }
}

/// Does the jobs of a level.
fn refresh_level<R: Threads + Wait + Sync, D: Disk + Send, P: Pace + Sync>(
    system: System<'_, R>,
    hall: &Hall<D>,
    session: &mut Session<D>,
    workers: u8,
    level: &mut Level,
    pace: &P,
)
    requires at { IsAt hall.now session.old }
    ensures at { IsAt hall.now session.new }
    ensures done { Does hall.now session.old session.new
        (λ start log low own. AllDid IsDone start log low level.old.jobs.items level.new.jobs.items own) }
    ensures in_turn { workers ≤ 1 → Does hall.now session.old session.new
        (λ start log low own. DidInTurn IsDone start log low level.old.jobs.items level.new.jobs.items own) }
{
    let turns = LevelTurns {
        pace,
        turns: &level.turns,
    };
    run_jobs(system, hall, session, workers, 0, &mut level.jobs, &turns);
}

/// A pace for the jobs of a level: each job has a turn of its own.
#[derive(Drop)]
struct LevelTurns<'a, P> {
    pace: &'a P,
    turns: &'a [u32],
}

impl<'a, P: Pace> LevelTurns<'a, P> {
    /// Returns the number of the turn of a job.
    fn turn_of(&self, job: u32) -> u32 {
        match self.turns.get(job as usize) {
            None => job,
            Some(turn) => *turn,
        }
    }
}

impl<'a, P: Pace> Pace for LevelTurns<'a, P> {
    fn begun(&self, turn: u32) {
        self.pace.begun(self.turn_of(turn));
    }

    fn ended(&self, turn: u32) {
        self.pace.ended(self.turn_of(turn));
    }
}
