//! Many jobs, shared among workers.
ghost use Rattle.std.specs.Prelude.{◌≡◌, ◌<◌, ◌≤◌, length};
ghost use Rattle.std.specs.Thread.{IsSync, IsSend};
ghost use Rattle.btr_jobs.specs.Jobs.{IsAt, Does, AllKeep, AllDid, DidInTurn};

use crate::job::Job;
use crate::pace::Pace;
use crate::system::System;
use crate::worker::Worker;
use btr_disk::Disk;
use btr_hall::{Hall, Session};
use std::alloc::Global;
use std::marker::{Send, Sync};
use std::sync::Wait;
use std::thread::{Threads, join_mut};

/// Does all jobs, with at most this many workers, each in a session of its own; 0 workers are 1. A job is done by one worker. If there
/// are more jobs than workers, each worker does jobs next to each other in the list, in order. One worker does all jobs one after
/// another. The turns of `pace` are the jobs, from `first` on.
///
/// Afterwards the session has seen what all of them have seen. If it was the only session of the hall it is so again. It takes no
/// memory but what the jobs and the threads take.
pub fn run_jobs<R: Threads + Wait + Sync, D: Disk + Send, J: Job + Send, P: Pace + Sync>(
    system: System<'_, R>,
    hall: &Hall<D>,
    session: &mut Session<D>,
    workers: u8,
    first: u32,
    jobs: &mut [J],
    pace: &P,
)
    requires at { IsAt hall.now session.old }
    ensures at { IsAt hall.now session.new }
    ensures jobs { length jobs.new ≡ length jobs.old }
    ensures keep { AllKeep J.keeps jobs.old jobs.new }
    ensures does { Does hall.now session.old session.new (λ start log low own. AllDid J.did start log low jobs.old jobs.new own) }
    ensures in_turn { workers ≤ 1 → Does hall.now session.old session.new
        (λ start log low own. DidInTurn J.did start log low jobs.old jobs.new own) }
{
    let other = session.split(hall);
    let mut worker = Worker {
        hall,
        session: other,
    };
    let System { rt, alloc } = system;
    share_out(rt, alloc, pace, workers, first, &mut worker, jobs);
    let Worker {
        hall: _,
        session: other,
    } = worker;
    session.meet(hall, other);
}

/// Does all jobs with at most this many workers. With one of them they are done in turn, else each half of the workers does its part.
#[cycle(workers)]
fn share_out<R: Threads + Wait + Sync, D: Disk + Send, J: Job + Send, P: Pace + Sync>(
    rt: &R,
    alloc: Global,
    pace: &P,
    workers: u8,
    first: u32,
    worker: &mut Worker<'_, D>,
    jobs: &mut [J],
)
    requires at { IsAt worker.old.hall.now worker.old.session }
    ensures hall { worker.new.hall ≡ worker.old.hall }
    ensures at { IsAt worker.old.hall.now worker.new.session }
    ensures jobs { length jobs.new ≡ length jobs.old }
    ensures keep { AllKeep J.keeps jobs.old jobs.new }
    ensures does { Does worker.old.hall.now worker.old.session worker.new.session
        (λ start log low own. AllDid J.did start log low jobs.old jobs.new own) }
    ensures in_turn { workers ≤ 1 → Does worker.old.hall.now worker.old.session worker.new.session
        (λ start log low own. DidInTurn J.did start log low jobs.old jobs.new own) }
{
    if workers <= 1 || jobs.len() <= 1 {
        let (system, hall) = (System { rt, alloc }, worker.hall);
        run_in_turn(system, hall, &mut worker.session, first, jobs, pace);
        return;
    }
    let here = workers - workers / 2;
    let cut = part_of(jobs.len(), here, workers);
    let next = turn_after(first, cut);
    let mut other = worker.split();
    let (low, high) = jobs.split_at_mut(cut);
    both_halves(
        rt,
        alloc,
        pace,
        here,
        workers - here,
        first,
        next,
        worker,
        &mut other,
        low,
        high,
    );
    worker.meet(other);
}

/// Two workers do two parts of the jobs beside each other.
#[cycle(workers)]
fn both_halves<R: Threads + Wait + Sync, D: Disk + Send, J: Job + Send, P: Pace + Sync>(
    rt: &R,
    alloc: Global,
    pace: &P,
    here: u8,
    there: u8,
    first: u32,
    next: u32,
    worker: &mut Worker<'_, D>,
    other: &mut Worker<'_, D>,
    low: &mut [J],
    high: &mut [J],
)
    requires fewer { there ≤ here }
    requires crossing { IsSync R.row × IsSend D.row × IsSend J.row × IsSync P.row }
    requires worker { IsAt worker.old.hall.now worker.old.session }
    requires other { IsAt other.old.hall.now other.old.session }
    ensures halls { (worker.new.hall ≡ worker.old.hall) × (other.new.hall ≡ other.old.hall) }
    ensures worker { IsAt worker.old.hall.now worker.new.session }
    ensures other { IsAt other.old.hall.now other.new.session }
    ensures low_keep { AllKeep J.keeps low.old low.new }
    ensures high_keep { AllKeep J.keeps high.old high.new }
    ensures low { Does worker.old.hall.now worker.old.session worker.new.session
        (λ start log seen own. AllDid J.did start log seen low.old low.new own) }
    ensures high { Does other.old.hall.now other.old.session other.new.session
        (λ start log seen own. AllDid J.did start log seen high.old high.new own) }
{
    let mut left = ||
        requires { IsSync R.row × IsSend D.row × IsSend J.row × IsSync P.row × IsAt worker.now.hall.now worker.now.session }
        ensures hall { worker.exit.now.hall ≡ worker.entry.now.hall }
        ensures at { IsAt worker.entry.now.hall.now worker.exit.now.session }
        ensures keep { AllKeep J.keeps low.entry.now low.exit.now }
        ensures does { Does worker.entry.now.hall.now worker.entry.now.session worker.exit.now.session
            (λ start log seen own. AllDid J.did start log seen low.entry.now low.exit.now own) }
    { share_out(rt, alloc, pace, here, first, worker, low) };
    let mut right = ||
        requires { IsSync R.row × IsSend D.row × IsSend J.row × IsSync P.row × IsAt other.now.hall.now other.now.session }
        ensures hall { other.exit.now.hall ≡ other.entry.now.hall }
        ensures at { IsAt other.entry.now.hall.now other.exit.now.session }
        ensures keep { AllKeep J.keeps high.entry.now high.exit.now }
        ensures does { Does other.entry.now.hall.now other.entry.now.session other.exit.now.session
            (λ start log seen own. AllDid J.did start log seen high.entry.now high.exit.now own) }
    { share_out(rt, alloc, pace, there, next, other, high) };
    join_mut(rt, &mut left, &mut right);
}

/// Returns how many of this many jobs `here` of the workers do.
fn part_of(jobs: usize, here: u8, workers: u8) -> usize
    requires { (here ≤ workers) × (0 < workers) }
    ensures { result ≤ jobs }
{
    let (here, workers) = (usize::from(here), usize::from(workers));
    jobs / workers * here + jobs % workers * here / workers
}

/// Returns the number of the turn that is this many after this one. After the greatest number comes 0.
fn turn_after(first: u32, count: usize) -> u32 {
    first.wrapping_add((count % (1 << 32)) as u32)
}

/// Does the jobs one after another in this session. The turns of `pace` are the jobs, from `first` on.
fn run_in_turn<R: Threads + Wait + Sync, D: Disk + Send, J: Job + Send, P: Pace + Sync>(
    system: System<'_, R>,
    hall: &Hall<D>,
    session: &mut Session<D>,
    first: u32,
    jobs: &mut [J],
    pace: &P,
)
    requires at { IsAt hall.now session.old }
    ensures at { IsAt hall.now session.new }
    ensures jobs { length jobs.new ≡ length jobs.old }
    ensures keep { AllKeep J.keeps jobs.old jobs.new }
    ensures in_turn { Does hall.now session.old session.new
        (λ start log low own. DidInTurn J.did start log low jobs.old jobs.new own) }
{
    let mut turn = first;
    for job in jobs.iter_mut() {
        pace.begun(turn);
        job.run(system, hall, session);
        pace.ended(turn);
        turn = turn.wrapping_add(1);
    }
}
