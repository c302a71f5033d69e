//! One output is brought up to date: it is planned and landed once.
ghost use Rattle.std.specs.Prelude.{◌≡◌, ℕ, List, IfOk};
ghost use Rattle.btr_hist.specs.declared.entry.Entry.{Entry as EntrySpec};
ghost use Rattle.btr_engine.specs.Engine.{IsEngineOf};
ghost use Rattle.btr_gate.specs.Prefixes.{StartsWith};
ghost use Rattle.btr_hall.specs.Trace.{history_of};
ghost use Rattle.btr_hall.specs.Session.{Looks, opening_of, seen_of};
ghost use Rattle.btr_plan.specs.Next.{IsNext};
ghost use Rattle.btr_jobs.specs.States.{StoreState, LogState, GoesOn};
ghost use Rattle.btr_jobs.specs.Jobs.{IsAt, Does};
ghost use Rattle.btr_work.specs.Report.{IsRefreshed, IsOfStopped, KnowsStopped};
ghost use Rattle.btr_work.specs.Refreshing.{IsDone, IsPlannedAt, IsNextAt};

use crate::report::Refreshed;
use btr_disk::Disk;
use btr_distil::Plan;
use btr_hall::{Hall, LandFault, Session};
use btr_jobs::{Job, System};
use btr_plan::{Next, next_plan_shared};
use std::alloc::AllocError;
use std::marker::{Send, Sync};
use std::sync::Wait;
use std::thread::Threads;

/// The work of bringing an output up to date, and what became of it. Before it is done, that is as if there had been no memory.
#[derive(Drop)]
pub(crate) struct OutputJob {
    pub(crate) output: u32,

    /// The greatest number of threads that work on the output at once.
    pub(crate) threads: usize,

    pub(crate) result: Refreshed,
}

impl OutputJob {
    /// Brings the output up to date on this thread alone, and keeps what became of it.
    pub(crate) fn bring<R: Threads + Wait + Sync, D: Disk>(
        &mut self,
        system: System<'_, R>,
        hall: &Hall<D>,
        session: &mut Session<D>,
    )
        requires at { IsAt hall.now session.old }
        ensures at { IsAt hall.now session.new }
        ensures done { Does hall.now session.old session.new (λ start log low own. IsDone start log low self.old self.new own) }
    {
        self.result = refresh_output(system, hall, session, self.output, 1);
    }
}

impl Job for OutputJob {
    ghost use Rattle.btr_work.specs.Refreshing.{IsDone};
    ghost use Rattle.btr_work.specs.ReportLaws.{done_lasts, done_lowers};

    ghost did = { IsDone };

    ghost keeps = { λ was now. Unit {0} };

    fn run<R: Threads + Wait + Sync, D: Disk + Send>(
        &mut self,
        system: System<'_, R>,
        hall: &Hall<D>,
        session: &mut Session<D>,
    ) {
        self.result = refresh_output(system, hall, session, self.output, self.threads);
    }

    ghost lasts = { done_lasts };

    ghost lowers = { done_lowers };
}

/// Brings one output up to date: one admission, a plan from its snapshot, after the turn, and its landing in another turn. If the stream
/// is no output, that is as if there had been no memory. At most `threads` threads work on it at once, the calling one among them: if that
/// is one, it starts no thread.
///
/// It costs what the plan and the landing cost, which follows what has changed in the inputs since the latest version of the output.
pub fn refresh_output<R: Threads + Wait + Sync, D: Disk>(
    system: System<'_, R>,
    hall: &Hall<D>,
    session: &mut Session<D>,
    output: u32,
    threads: usize,
) -> Refreshed
    requires at { IsAt hall.now session.old }
    ensures at { IsAt hall.now session.new }
    ensures refreshed { Does hall.now session.old session.new (λ start log low own. IsRefreshed start log low output result own) }
    ensures stopped { KnowsStopped hall.now session.old → IsOfStopped result }
{
    let next = plan_output(system, hall, session, output, threads);
    land_next(system, hall, session, output, next, threads)
}

/// Returns what is planned for an output after the whole history. At most `threads` threads work on it at once, this one among them.
fn plan_output<R: Threads + Wait + Sync, D: Disk>(
    system: System<'_, R>,
    hall: &Hall<D>,
    session: &mut Session<D>,
    output: u32,
    threads: usize,
) -> Result<Next, AllocError>
    requires at { IsAt hall.now session.old }
    ensures at { IsAt hall.now session.new }
    ensures looks { Looks hall.now session.old session.new }
    ensures next { IsNextAt hall.now session.new output result }
{
    let snapshot = session.admit(system.rt, hall)?;
    next_plan_shared(system.rt, system.alloc, &snapshot, output, threads)
}

/// Lands what is planned for an output, if that is a plan, by at most `threads` threads.
fn land_next<R: Threads + Wait + Sync, D: Disk>(
    system: System<'_, R>,
    hall: &Hall<D>,
    session: &mut Session<D>,
    output: u32,
    next: Result<Next, AllocError>,
    threads: usize,
) -> Refreshed
    requires at { IsAt hall.now session.old }
    requires next { IsNextAt hall.now session.old output next }
    ensures at { IsAt hall.now session.new }
    ensures refreshed { Does hall.now session.old session.new (λ start log low own. IsRefreshed start log low output result own) }
    ensures stopped { KnowsStopped hall.now session.old → IsOfStopped result }
{
    match next {
        Ok(Next::UpToDate { version }) => Refreshed::Current { version },
        Ok(Next::Plan(plan)) => land(system, hall, session, output, &plan, threads),
        // An output stays one: it has a plan or is up to date, unless there is no memory.
        Ok(Next::NotOutput) | Err(_) => Refreshed::Refused(LandFault::Want),
    }
}

/// Lands the plan of an output, by at most `threads` threads.
fn land<R: Threads + Wait + Sync, D: Disk>(
    system: System<'_, R>,
    hall: &Hall<D>,
    session: &mut Session<D>,
    output: u32,
    plan: &Plan,
    threads: usize,
) -> Refreshed
    requires at { IsAt hall.now session.old }
    requires planned { IsPlannedAt hall.now session.old output plan.now }
    ensures at { IsAt hall.now session.new }
    ensures refreshed { Does hall.now session.old session.new (λ start log low own. IsRefreshed start log low output result own) }
    ensures stopped { KnowsStopped hall.now session.old → IsOfStopped result }
{
    match session.land(system.rt, system.alloc, hall, plan, threads) {
        Ok(receipt) => Refreshed::Landed {
            version: receipt.version,
        },
        Err(fault) => Refreshed::Refused(fault),
    }
}
