//! Outputs that are brought up to date by one worker and by many, over devices in memory. The expected values are worked out by hand.
ghost use Rattle.std.specs.Prelude.{◌≡◌, ◌≤◌, true, IfOk};
ghost use Rattle.btr_engine.specs.Engine.{is_home};
ghost use Rattle.btr_hall.specs.Session.{IsAlone};
ghost use Rattle.btr_jobs.specs.Jobs.{IsAt};

use crate::fixture::{Meeting, begun, close, empty, no_wrong, points_of, sums};
use btr_base::{Bag, Ranges};
use btr_disk::MemDisk;
use btr_engine::Engine;
use btr_hall::{Hall, LandFault, Session};
use btr_hist::{Answer, At, Entry, Kernel, Query, Rows, Spec};
use btr_jobs::{NoPace, Pace, System};
use btr_work::*;
use std::alloc::{AllocError, Global};
use std::marker::Sync;
use std::sync::Wait;
use std::test::Fail;
use std::thread::Threads;

/// Adds an entry.
fn add(alloc: Global, engine: &mut Engine<MemDisk>, entry: &Entry) -> Result<(), Fail>
    requires home { is_home engine.old ≡ true }
    ensures home { is_home engine.new ≡ true }
{
    match engine.step(alloc, entry) {
        Ok(_) => Ok(()),
        Err(_) => Err("an entry was refused".into()),
    }
}

/// The spec of an output of `floor((2 * x + 1) / 3)`.
fn thirds(first: u32) -> Spec {
    Spec {
        kernel: Kernel::Affine { a: 2, b: 1, d: 3 },
        lead: 0,
        grain: 0,
        first,
        second: None,
    }
}

/// Adds three points to stream 0.
fn add_points(alloc: Global, engine: &mut Engine<MemDisk>) -> Result<(), Fail>
    requires home { is_home engine.old ≡ true }
    ensures home { is_home engine.new ≡ true }
{
    let points = points_of(alloc, &[(0, 10), (10, 20), (20, 30)])?;
    let entry = Entry::Commit {
        stream: 0,
        cut: Ranges::none(alloc),
        added: Bag::from_points(points),
    };
    add(alloc, engine, &entry)
}

/// Adds an output.
fn define(alloc: Global, engine: &mut Engine<MemDisk>, id: u128, spec: Spec) -> Result<(), Fail>
    requires home { is_home engine.old ≡ true }
    ensures home { is_home engine.new ≡ true }
{
    add(alloc, engine, &Entry::Define { id, spec })
}

/// Returns a store of a plain stream with three points, 0; an output of its sums, 1; and an output of that, 2.
fn two_levels(alloc: Global, blocks: u32) -> Result<Engine<MemDisk>, Fail>
    requires { (8 ≤ blocks) × (blocks ≤ 1000) }
    ensures home { IfOk result (λ e. is_home e ≡ true) }
{
    let mut engine = empty(alloc, blocks, &[])?;
    add(alloc, &mut engine, &Entry::Create { id: 7 })?;
    add_points(alloc, &mut engine)?;
    define(alloc, &mut engine, 8, sums(0))?;
    define(alloc, &mut engine, 9, thirds(1))?;
    Ok(engine)
}

/// Brings all outputs up to date in a session that is alone.
fn bring<R: Threads + Wait + Sync, P: Pace + Sync>(
    rt: &R,
    alloc: Global,
    hall: &Hall<MemDisk>,
    session: &mut Session<MemDisk>,
    workers: u8,
    pace: &P,
) -> Result<Vec<RefreshLine>, AllocError>
    requires at { IsAt hall.now session.old }
    requires alone { IsAlone session.old }
    ensures at { IsAt hall.now session.new }
    ensures alone { IsAlone session.new }
{
    match bring_current(System { rt, alloc }, hall, session, workers, pace) {
        Ok(report) => Ok(report.into_lines()),
        Err(error) => Err(error),
    }
}

/// The same without threads.
fn bring_here<R: Threads + Wait + Sync>(
    rt: &R,
    alloc: Global,
    hall: &Hall<MemDisk>,
    session: &mut Session<MemDisk>,
) -> Result<Vec<RefreshLine>, AllocError>
    requires at { IsAt hall.now session.old }
    requires alone { IsAlone session.old }
    ensures at { IsAt hall.now session.new }
    ensures alone { IsAlone session.new }
{
    match bring_current_here(System { rt, alloc }, hall, session) {
        Ok(report) => Ok(report.into_lines()),
        Err(error) => Err(error),
    }
}

/// The lines of two calls one after the other, the second one without threads, and the engine after them.
#[derive(Drop)]
struct Twice {
    first: Result<Vec<RefreshLine>, AllocError>,
    second: Result<Vec<RefreshLine>, AllocError>,
    engine: Engine<MemDisk>,
}

fn bring_twice<R: Threads + Wait + Sync, P: Pace + Sync>(
    rt: &R,
    alloc: Global,
    engine: Engine<MemDisk>,
    workers: u8,
    pace: &P,
) -> Result<Twice, Fail>
    requires home { is_home engine ≡ true }
{
    let (hall, mut session) = begun(alloc, engine)?;
    let first = bring(rt, alloc, &hall, &mut session, workers, pace);
    let second = bring_here(rt, alloc, &hall, &mut session);
    let engine = close(hall, session);
    Ok(Twice {
        first,
        second,
        engine,
    })
}

/// Returns whether a stream has these points from time 0 on.
fn has_points(
    alloc: Global,
    engine: &Engine<MemDisk>,
    stream: u32,
    pairs: &[(i64, i64)],
) -> Result<bool, AllocError> {
    let query = Query::Points {
        stream,
        from: 0,
        to: 1000,
        at: At::Latest,
    };
    let wanted = points_of(alloc, pairs)?;
    match engine.admit()?.answer(alloc, &query)? {
        Answer::Found {
            rows: Rows::Points(found),
            ..
        } => Ok(found.as_slice() == wanted.as_slice()),
        _ => Ok(false),
    }
}

/// Returns whether a report has these lines: outputs, and what became of them.
fn has_lines(report: &Result<Vec<RefreshLine>, AllocError>, wanted: &[(u32, Refreshed)]) -> bool {
    match report {
        Ok(lines) => {
            lines.len() == wanted.len()
                && lines.iter().zip(wanted.iter()).all(|(line, pair)| line.output == pair.0
                    && line.result == pair.1)
        }
        Err(_) => false,
    }
}

/// An output that landed its first version, and one that has it already.
const LANDED: Refreshed = Refreshed::Landed { version: 1 };

const CURRENT: Refreshed = Refreshed::Current { version: 1 };

/// Returns whether both outputs are landed by this many workers, and are then current; and whether the output above has its points.
fn lands_both<R: Threads + Wait + Sync>(rt: &R, alloc: Global, workers: u8) -> Result<bool, Fail> {
    let engine = two_levels(alloc, 64)?;
    let twice = bring_twice(rt, alloc, engine, workers, &NoPace)?;
    let has_points = has_points(alloc, &twice.engine, 2, &[(0, 7), (10, 20), (20, 33)])?;
    Ok(
        has_lines(&twice.first, &[(1, LANDED), (2, LANDED)])
            && has_lines(&twice.second, &[(1, CURRENT), (2, CURRENT)])
            && twice.engine.entries() == 6
            && has_points,
    )
}

fn first_not_landed<R: Threads + Wait + Sync>(
    rt: &R,
    alloc: Global,
) -> Result<Option<usize>, Fail> {
    for (row, workers) in [1, 2, 4, 16].iter().enumerate() {
        if !lands_both(rt, alloc, *workers)? {
            return Ok(Some(row));
        }
    }
    Ok(None)
}

#[test]
fn each_output_reads_what_was_landed_below_it(rt: HostRuntime) -> Result<(), Fail> {
    no_wrong(first_not_landed(&rt, rt.alloc())?)
}

/// What became of the outputs if the device is full.
const FULL: &[(u32, Refreshed)] = &[
    (
        1,
        Refreshed::Refused(LandFault::DeviceFull { need: 3, left: 0 }),
    ),
    (2, Refreshed::Current { version: 0 }),
];

/// Returns whether both reports say that the device is full, and the number of entries.
fn refreshed_on_a_full_device<R: Threads + Wait + Sync>(
    rt: &R,
    alloc: Global,
) -> Result<(bool, bool, u64), Fail> {
    let engine = two_levels(alloc, 14)?;
    let twice = bring_twice(rt, alloc, engine, 2, &NoPace)?;
    let first = has_lines(&twice.first, FULL);
    let second = has_lines(&twice.second, FULL);
    Ok((first, second, twice.engine.entries()))
}

/// Four entries leave no block on a device of 14 blocks: a stream and two outputs that are made take two blocks each, and the three
/// points take three, with their leaf. The points of the output need as many. The output above then has nothing to read.
#[test]
fn an_output_is_refused_if_the_device_is_full(rt: HostRuntime) -> Result<(), Fail> {
    assert!(rt; refreshed_on_a_full_device(&rt, rt.alloc())? == (true, true, 4));
    Ok(())
}

/// Returns a store with one more output of the plain stream, 3.
fn three_outputs(alloc: Global) -> Result<Engine<MemDisk>, Fail>
    ensures home { IfOk result (λ e. is_home e ≡ true) }
{
    let mut engine = two_levels(alloc, 64)?;
    define(alloc, &mut engine, 10, sums(0))?;
    Ok(engine)
}

/// Returns whether three outputs are landed by this many workers, whether turn 0 met another one, and the last turn.
fn met_by<R: Threads + Wait + Sync>(
    rt: &R,
    alloc: Global,
    workers: u8,
) -> Result<(bool, u32, u32), Fail> {
    let engine = three_outputs(alloc)?;
    let pace = Meeting::new();
    let twice = bring_twice(rt, alloc, engine, workers, &pace)?;
    let met = pace.met();
    let wanted = [(1, LANDED), (2, LANDED), (3, LANDED)];
    Ok((has_lines(&twice.first, &wanted), met.beside, met.last))
}

/// Outputs 1 and 3 are in one level, so their turns, 0 and 2, can meet. With one worker turn 0 waits in vain.
#[test]
fn two_workers_work_beside_each_other(rt: HostRuntime) -> Result<(), Fail> {
    let alloc = rt.alloc();
    // turn 1 is that of the output of the second level
    assert!(rt; met_by(&rt, alloc, 1)? == (true, 0, 1));
    assert!(rt; met_by(&rt, alloc, 2)? == (true, 1, 1));
    Ok(())
}

/// Returns a store of three levels: an output of the plain stream and of the output above, 3; and one more of the plain stream, 4.
fn three_levels(alloc: Global) -> Result<Engine<MemDisk>, Fail> {
    let mut engine = two_levels(alloc, 64)?;
    let minus = Spec {
        kernel: Kernel::Minus,
        lead: 0,
        grain: 0,
        first: 0,
        second: Some(2),
    };
    define(alloc, &mut engine, 10, minus)?;
    define(alloc, &mut engine, 11, sums(0))?;
    Ok(engine)
}

/// Returns the number of levels, and whether they are the wanted ones.
fn found_levels(alloc: Global) -> Result<(usize, [bool; 3]), Fail> {
    let found = levels(alloc, &three_levels(alloc)?.admit()?)?;
    Ok(match found.as_slice() {
        [first, second, third] => (
            3,
            [
                matches!(first.as_slice(), [1, 4]),
                matches!(second.as_slice(), [2]),
                matches!(third.as_slice(), [3]),
            ],
        ),
        other => (other.len(), [false, false, false]),
    })
}

/// A stream, an output of it and one of that output, and another output of both: it is in the third level.
#[test]
fn levels_follow_the_greatest_input(rt: HostRuntime) -> Result<(), Fail> {
    assert!(rt; found_levels(rt.alloc())? == (3, [true, true, true]));
    Ok(())
}
