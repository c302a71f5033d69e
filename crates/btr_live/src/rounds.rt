//! The rounds of the materializer, which bring outputs up to date beside the lanes.
ghost use Rattle.btr_jobs.specs.Jobs.{IsAt, Does};
ghost use Rattle.btr_live.specs.Rounds.{MakesRound, MakesRounds};

use btr_disk::Disk;
use btr_hall::{Hall, Session};
use btr_jobs::{Job, System};
use btr_work::bring_current_here;
use std::marker::{Send, Sync};
use std::sync::atomic::{AtomicU32, Ordering};
use std::sync::{Arc, Wait};
use std::thread::Threads;

/// The rounds beside the lanes of a run.
#[derive(Drop)]
pub(crate) struct Rounds {
    /// The most rounds that are made.
    pub(crate) count: usize,

    /// How many lanes have not ended. No round begins once it is 0.
    pub(crate) lanes: Arc<AtomicU32>,
}

impl Job for Rounds {
    ghost use Rattle.btr_live.specs.Running.{RoundsDid};
    ghost use Rattle.btr_live.specs.RoundsLaws.{rounds_did_lasts, rounds_did_lowers};

    ghost did = { RoundsDid };

    ghost keeps = { λ was now. Unit {0} };

    /// Makes the rounds, one after another.
    fn run<R: Threads + Wait + Sync, D: Disk + Send>(
        &mut self,
        system: System<'_, R>,
        hall: &Hall<D>,
        session: &mut Session<D>,
    ) {
        make_rounds(system, hall, session, self.count, &self.lanes);
    }

    ghost lasts = { rounds_did_lasts };

    ghost lowers = { rounds_did_lowers };
}

/// Makes at most `count` rounds, one after another, while lanes run.
fn make_rounds<R: Threads + Wait + Sync, D: Disk>(
    system: System<'_, R>,
    hall: &Hall<D>,
    session: &mut Session<D>,
    count: usize,
    lanes: &AtomicU32,
)
    requires at { IsAt hall.now session.old }
    ensures at { IsAt hall.now session.new }
    ensures rounds { Does hall.now session.old session.new (λ start log low own. MakesRounds start count low log own) }
{
    for _ in 0..count {
        make_round(system, hall, session, lanes);
    }
}

/// Brings each output up to date once, unless all lanes have ended. What is refused, also when memory runs out, is left to a later
/// round.
fn make_round<R: Threads + Wait + Sync, D: Disk>(
    system: System<'_, R>,
    hall: &Hall<D>,
    session: &mut Session<D>,
    lanes: &AtomicU32,
)
    requires at { IsAt hall.now session.old }
    ensures at { IsAt hall.now session.new }
    ensures round { Does hall.now session.old session.new (λ start log low own. MakesRound start log low own) }
{
    if lanes.load(Ordering::SeqCst) > 0 {
        let _report = bring_current_here(system, hall, session);
    }
}
