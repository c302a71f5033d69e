//! Jobs for one worker and for many, over devices in memory. The expected values are worked out by hand.
use crate::fixture::{Meeting, Met, begun_empty, no_wrong};
use btr_disk::Disk;
use btr_engine::{Receipt, StepFault};
use btr_hall::{Hall, Session};
use btr_hist::{Entry, Rejection};
use btr_jobs::{System, *};
use std::alloc::{AllocError, Global};
use std::marker::{Send, Sync};
use std::sync::Wait;
use std::test::Fail;
use std::thread::Threads;

/// Makes a stream with this id, and keeps the result.
#[derive(Drop)]
struct Make {
    id: u128,
    result: Option<Result<Receipt, StepFault>>,
}

impl Job for Make {
    ghost use Rattle.std.specs.Prelude.{◌≡◌, List, Result, Some};
    ghost use Rattle.btr_hist.specs.declared.entry.Entry.{Entry as EntrySpec};
    ghost use Rattle.btr_hist.specs.declared.entry.Entry.TheVariants.{Create};
    ghost use Rattle.btr_streams.specs.declared.board.Receipt.{Receipt as ReceiptSpec};
    ghost use Rattle.btr_engine.specs.declared.step.StepFault.{StepFault as StepFaultSpec};
    ghost use Rattle.btr_jobs.specs.Turns.{CommittedAfter};
    ghost use Rattle.btr_jobs.specs.TurnLaws.{committed_lasts, committed_lowers};

    ghost did = { λ start log low was now own.
        (result : Result ReceiptSpec StepFaultSpec) × (next : List EntrySpec)
        × CommittedAfter start log low (Create was.id) result own next × (now.id ≡ was.id) × (now.result ≡ Some result) };

    ghost keeps = { λ was now. Unit {0} };

    fn run<R: Threads + Wait + Sync, D: Disk + Send>(
        &mut self,
        system: System<'_, R>,
        hall: &Hall<D>,
        session: &mut Session<D>,
    ) {
        let entry = Entry::Create { id: self.id };
        self.result = Some(session.commit(system.rt, system.alloc, hall, &entry));
    }

    ghost lasts = { λ start late early low was now own on is.
        (is.0, is.1, committed_lasts start late early low (Create was.id) is.0 own is.1 on is.2, is.3, is.4) };

    ghost lowers = { λ start log low less was now own starts is.
        (is.0, is.1, committed_lowers start log low less (Create was.id) is.0 own is.1 starts is.2, is.3, is.4) };
}

/// Returns jobs that make streams with these ids.
fn makes(alloc: Global, ids: &[u128]) -> Result<Vec<Make>, AllocError> {
    let mut jobs = Vec::new(alloc);
    for id in ids {
        jobs.push(Make {
            id: *id,
            result: None,
        })?;
    }
    Ok(jobs)
}

/// Does the jobs at a hall of their own, with at most this many workers. Returns the number of its entries in the end.
fn done<R: Threads + Wait + Sync, P: Pace + Sync>(
    rt: &R,
    alloc: Global,
    workers: u8,
    first: u32,
    jobs: &mut [Make],
    pace: &P,
) -> Result<u64, Fail> {
    let (hall, mut session) = begun_empty(alloc, 64, &[])?;
    run_jobs(
        System { rt, alloc },
        &hall,
        &mut session,
        workers,
        first,
        jobs,
        pace,
    );
    let engine = hall.close(session);
    Ok(engine.entries())
}

/// Returns the numbers of the receipts of jobs, in rising order, and how many were refused since the stream existed.
fn reported(alloc: Global, jobs: &[Make]) -> Result<(Vec<u64>, u32), AllocError> {
    let mut numbers = Vec::new(alloc);
    let mut refused = 0u32;
    for job in jobs {
        match job.result {
            Some(Ok(receipt)) => numbers.push(receipt.number)?,
            Some(Err(StepFault::Rejected(Rejection::StreamExists))) => {
                refused = refused.wrapping_add(1);
            }
            _ => {}
        }
    }
    numbers.sort_unstable();
    Ok((numbers, refused))
}

/// Returns whether seven jobs make five streams by this many workers, with the numbers 1 to 5, and two of them are refused.
fn makes_five<R: Threads + Wait + Sync>(rt: &R, alloc: Global, workers: u8) -> Result<bool, Fail> {
    let mut jobs = makes(alloc, &[7, 8, 9, 7, 10, 8, 11])?;
    let entries = done(rt, alloc, workers, 0, &mut jobs, &NoPace)?;
    let (numbers, refused) = reported(alloc, &jobs)?;
    Ok((entries, refused) == (5, 2) && matches!(numbers.as_slice(), [1, 2, 3, 4, 5]))
}

/// Numbers of workers.
const WORKERS: &[u8] = &[0, 1, 2, 4, 200];

fn first_wrong_workers<R: Threads + Wait + Sync>(
    rt: &R,
    alloc: Global,
) -> Result<Option<usize>, Fail> {
    for (row, workers) in WORKERS.iter().enumerate() {
        if !makes_five(rt, alloc, *workers)? {
            return Ok(Some(row));
        }
    }
    Ok(None)
}

/// Seven jobs make five streams, and two of them are refused since the stream exists, whatever the order is. So there are five
/// entries.
#[test]
fn each_job_is_done_once_by_any_number_of_workers(rt: HostRuntime) -> Result<(), Fail> {
    no_wrong(first_wrong_workers(&rt, rt.alloc())?)
}

/// Returns the number of entries after three jobs by one worker, whether the numbers of the receipts are 1 and 2, and how many were
/// refused.
fn three_in_turn<R: Threads + Wait + Sync>(
    rt: &R,
    alloc: Global,
) -> Result<(u64, bool, u32), Fail> {
    let mut jobs = makes(alloc, &[7, 8, 7])?;
    let entries = done(rt, alloc, 1, 0, &mut jobs, &NoPace)?;
    let (numbers, refused) = reported(alloc, &jobs)?;
    Ok((entries, matches!(numbers.as_slice(), [1, 2]), refused))
}

/// One worker does three jobs in turn: they make two streams, and the last one is refused.
#[test]
fn jobs_are_done_in_turn(rt: HostRuntime) -> Result<(), Fail> {
    assert!(rt; three_in_turn(&rt, rt.alloc())? == (2, true, 1));
    Ok(())
}

/// Returns the number of entries after two jobs by this many workers, and what their meeting saw. The turns begin with `first`.
fn met_by<R: Threads + Wait + Sync>(
    rt: &R,
    alloc: Global,
    workers: u8,
    first: u32,
) -> Result<(u64, Met), Fail> {
    let mut jobs = makes(alloc, &[7, 8])?;
    let pace = Meeting::new();
    let entries = done(rt, alloc, workers, first, &mut jobs, &pace)?;
    Ok((entries, pace.met()))
}

/// The number of workers, the first turn, the sum of both turns, and whether the first turn met the second.
const MEETINGS: &[(u8, u32, u32, u32)] = &[(1, 0, 1, 0), (2, 0, 1, 1), (2, 5, 11, 0)];

fn first_wrong_meeting<R: Threads + Wait + Sync>(
    rt: &R,
    alloc: Global,
) -> Result<Option<usize>, Fail> {
    for (row, (workers, first, sum, beside)) in MEETINGS.iter().enumerate() {
        let (entries, met) = met_by(rt, alloc, *workers, *first)?;
        if (entries, met.begun, met.ended, met.beside) != (2, 2, *sum, *beside) {
            return Ok(Some(row));
        }
    }
    Ok(None)
}

/// Of two workers each begins its job while the other one waits. One worker waits in vain. The turns are 0 and 1, or 5 and 6, of which
/// none waits.
#[test]
fn two_workers_work_beside_each_other(rt: HostRuntime) -> Result<(), Fail> {
    no_wrong(first_wrong_meeting(&rt, rt.alloc())?)
}
