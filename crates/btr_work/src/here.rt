//! All outputs are brought up to date in one session, without other threads.
ghost use Rattle.std.specs.Prelude.{◌≡◌, ℕ, length, IfOk, OnErr};
ghost use Rattle.btr_gate.specs.Numbers.{times};
ghost use Rattle.btr_jobs.specs.Jobs.{IsAt, Does, AllDid, DidInTurn};
ghost use Rattle.btr_work.specs.Report.{Refreshes, RefreshesInTurn};
ghost use Rattle.btr_work.specs.Refreshing.{IsDone, jobs_in};

use crate::current::prepare_seen;
use crate::filling::report_of;
use crate::prepare::Level;
use crate::refreshing::OutputJob;
use crate::report::Report;
use btr_disk::Disk;
use btr_hall::{Hall, Session};
use btr_jobs::System;
use std::alloc::AllocError;
use std::marker::Sync;
use std::sync::Wait;
use std::thread::Threads;

/// Brings each output up to date once, in this session: [`bring_current`] with one worker, for a job, which starts no thread. The
/// outputs are done one after another, level by level.
///
/// [`bring_current`]: crate::bring_current
pub fn bring_current_here<R: Threads + Wait + Sync, D: Disk>(
    system: System<'_, R>,
    hall: &Hall<D>,
    session: &mut Session<D>,
) -> Result<Report, AllocError>
    requires at { IsAt hall.now session.old }
    ensures at { IsAt hall.now session.new }
    ensures refused { OnErr result (Does hall.now session.old session.new (λ start log low own. (n : ℕ) → times n own ≡ 0)) }
    ensures refreshes { IfOk result (λ report. Does hall.now session.old session.new
        (λ start log low own. Refreshes start log low report own)) }
    ensures in_turn { IfOk result (λ report. Does hall.now session.old session.new
        (λ start log low own. RefreshesInTurn start log low report own)) }
{
    let mut work = prepare_seen(system, hall, session, 1)?;
    refresh_levels_here(system, hall, session, &mut work.levels);
    Ok(report_of(work))
}

/// Does the jobs of all levels, one level after another.
fn refresh_levels_here<R: Threads + Wait + Sync, D: Disk>(
    system: System<'_, R>,
    hall: &Hall<D>,
    session: &mut Session<D>,
    levels: &mut [Level],
)
    requires at { IsAt hall.now session.old }
    ensures at { IsAt hall.now session.new }
    ensures levels { length levels.new ≡ length levels.old }
    ensures done { Does hall.now session.old session.new
        (λ start log low own. DidInTurn (AllDid IsDone) start log low (jobs_in levels.old) (jobs_in levels.new) own) }
    ensures in_turn { Does hall.now session.old session.new
        (λ start log low own. DidInTurn (DidInTurn IsDone) start log low (jobs_in levels.old) (jobs_in levels.new) own) }
{
    for level in levels.iter_mut() {
        refresh_level_here(system, hall, session, level);
    }
}

/// Does the jobs of a level.
fn refresh_level_here<R: Threads + Wait + Sync, D: Disk>(
    system: System<'_, R>,
    hall: &Hall<D>,
    session: &mut Session<D>,
    level: &mut Level,
)
    requires at { IsAt hall.now session.old }
    ensures at { IsAt hall.now session.new }
    ensures in_turn { Does hall.now session.old session.new
        (λ start log low own. DidInTurn IsDone start log low level.old.jobs.items level.new.jobs.items own) }
{
    refresh_each(system, hall, session, &mut level.jobs);
}

/// Does jobs one after another.
fn refresh_each<R: Threads + Wait + Sync, D: Disk>(
    system: System<'_, R>,
    hall: &Hall<D>,
    session: &mut Session<D>,
    jobs: &mut [OutputJob],
)
    requires at { IsAt hall.now session.old }
    ensures at { IsAt hall.now session.new }
    ensures jobs { length jobs.new ≡ length jobs.old }
    ensures in_turn { Does hall.now session.old session.new
        (λ start log low own. DidInTurn IsDone start log low jobs.old jobs.new own) }
{
    for job in jobs.iter_mut() {
        job.bring(system, hall, session);
    }
}
