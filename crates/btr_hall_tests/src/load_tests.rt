//! Loads by one worker and by two, over devices in memory. The expected values are worked out by hand.
ghost use Rattle.std.specs.Prelude.{◌≡◌, ◌≤◌, false};
ghost use Rattle.btr_hall.specs.Commit.{is_distillate};
ghost use Rattle.btr_hall.specs.Session.{IsAlone};
ghost use Rattle.btr_jobs.specs.Jobs.{IsAt};

use crate::fixture::{Meeting, Met, begun_empty, close, no_wrong};
use btr_disk::MemDisk;
use btr_engine::{Receipt, StepFault};
use btr_hall::{Hall, Session};
use btr_hist::{Entry, Kernel, Rejection, Spec};
use btr_jobs::{NoPace, System};
use btr_load::*;
use btr_rows::read_rows;
use std::alloc::{AllocError, Global};
use std::marker::Sync;
use std::sync::Wait;
use std::test::Fail;
use std::thread::Threads;

/// Five rows, of which the first and the last two are points of one stream.
const FIVE_ROWS: &str = "\
00000000-0000-0000-0000-000000000007,10,1
not an id,1,1
00000000-0000-0000-0000-000000000007,10
00000000-0000-0000-0000-000000000007,30,3
00000000-0000-0000-0000-000000000007,20,2
";

/// Five points of one stream.
const FIVE_POINTS: &str = "\
00000000-0000-0000-0000-000000000007,1,1
00000000-0000-0000-0000-000000000007,2,1
00000000-0000-0000-0000-000000000007,3,1
00000000-0000-0000-0000-000000000007,4,1
00000000-0000-0000-0000-000000000007,5,1
";

/// Points of two streams.
const TWO_STREAMS: &str = "\
00000000-0000-0000-0000-000000000008,1,1
00000000-0000-0000-0000-000000000007,2,2
00000000-0000-0000-0000-000000000008,3,3
";

/// Commits an entry.
fn commit<R: Threads + Wait + Sync>(
    rt: &R,
    alloc: Global,
    hall: &Hall<MemDisk>,
    session: &mut Session<MemDisk>,
    entry: &Entry,
) -> Result<(), Fail>
    requires at { IsAt hall.now session.old }
    requires alone { IsAlone session.old }
    requires user { is_distillate entry.now ≡ false }
    ensures at { IsAt hall.now session.new }
    ensures alone { IsAlone session.new }
{
    match session.commit(rt, alloc, hall, entry) {
        Ok(_) => Ok(()),
        Err(_) => Err("refused".into()),
    }
}

/// What becomes of the rows of one stream, in a table.
#[derive(Clone, Copy)]
enum Wanted<'a> {
    Output,
    NotCreated(StepFault),

    /// The stream, the results of its batches, and its latest version.
    Committed(u32, &'a [Result<Receipt, StepFault>], u64),
}

/// Batches that were committed to stream 0, by the number of their entry.
const ENTRY_2: Result<Receipt, StepFault> = Ok(Receipt {
    number: 2,
    stream: 0,
    version: 1,
});

const ENTRY_3: Result<Receipt, StepFault> = Ok(Receipt {
    number: 3,
    stream: 0,
    version: 2,
});

const ENTRY_4: Result<Receipt, StepFault> = Ok(Receipt {
    number: 4,
    stream: 0,
    version: 3,
});

const ENTRY_5: Result<Receipt, StepFault> = Ok(Receipt {
    number: 5,
    stream: 0,
    version: 3,
});

/// Whether the outcome of a stream is the wanted one.
fn is_outcome(outcome: &RowsOutcome, wanted: &Wanted<'_>) -> bool {
    match (outcome, wanted) {
        (RowsOutcome::Output, Wanted::Output) => true,
        (RowsOutcome::NotCreated(fault), Wanted::NotCreated(why)) => *fault == *why,
        (
            RowsOutcome::Committed {
                stream,
                results,
                latest,
            },
            Wanted::Committed(number, list, version),
        ) => *stream == *number && *latest == *version && results.as_slice() == *list,
        _ => false,
    }
}

/// What a load gives: the outcomes of its streams, and how many rows were refused.
type Given<'a> = (&'a [Wanted<'a>], usize);

/// Whether a load gave what is wanted.
fn is_given(loaded: &Loaded, wanted: Given<'_>) -> bool {
    let streams = loaded.streams();
    let (outcomes, refused) = wanted;
    streams.len() == outcomes.len()
        && loaded.refused().len() == refused
        && streams
            .iter()
            .zip(outcomes.iter())
            .all(|(stream, outcome)| is_outcome(&stream.outcome, outcome))
}

/// Loads rows, and returns whether the load gave what is wanted.
fn gives<R: Threads + Wait + Sync>(
    rt: &R,
    alloc: Global,
    hall: &Hall<MemDisk>,
    session: &mut Session<MemDisk>,
    rows: &str,
    batch: u32,
    workers: u8,
    wanted: Given<'_>,
) -> Result<bool, AllocError>
    requires at { IsAt hall.now session.old }
    requires alone { IsAlone session.old }
    requires batch { 1 ≤ batch }
    ensures at { IsAt hall.now session.new }
    ensures alone { IsAlone session.new }
{
    let rows = read_rows(alloc, rows.as_bytes())?;
    let loaded = load(
        System { rt, alloc },
        hall,
        session,
        rows,
        batch,
        workers,
        &NoPace,
    )?;
    Ok(is_given(&loaded, wanted))
}

/// Loads rows into a store of their own, over a device of this many blocks. Returns whether the load gave what is wanted.
fn new_gives<R: Threads + Wait + Sync>(
    rt: &R,
    alloc: Global,
    blocks: u32,
    failing: &[u64],
    rows: &str,
    batch: u32,
    workers: u8,
    wanted: Given<'_>,
) -> Result<bool, Fail>
    requires blocks { (8 ≤ blocks) × (blocks ≤ 100_000) }
    requires batch { 1 ≤ batch }
{
    let (hall, mut session) = begun_empty(alloc, blocks, failing)?;
    let given = gives(rt, alloc, &hall, &mut session, rows, batch, workers, wanted);
    let _engine = close(hall, session);
    Ok(given?)
}

/// A load of five rows in one batch.
const ONE_BATCH: Given<'static> = (&[Wanted::Committed(0, &[ENTRY_2], 1)], 2);

/// A load of five points by twos.
const THREE_BATCHES: Given<'static> = (&[Wanted::Committed(0, &[ENTRY_2, ENTRY_3, ENTRY_4], 3)], 0);

/// A load by one worker is the same as one by two if there is one stream.
#[test]
fn rows_of_one_stream_are_committed_in_one_batch(rt: HostRuntime) -> Result<(), Fail> {
    let alloc = rt.alloc();
    assert!(rt; new_gives(&rt, alloc, 64, &[], FIVE_ROWS, 65_536, 1, ONE_BATCH)?);
    assert!(rt; new_gives(&rt, alloc, 64, &[], FIVE_ROWS, 65_536, 2, ONE_BATCH)?);
    Ok(())
}

/// A load by one worker is the same as one by two if there is one stream.
#[test]
fn rows_of_one_stream_are_committed_in_batches(rt: HostRuntime) -> Result<(), Fail> {
    let alloc = rt.alloc();
    assert!(rt; new_gives(&rt, alloc, 64, &[], FIVE_POINTS, 2, 1, THREE_BATCHES)?);
    assert!(rt; new_gives(&rt, alloc, 64, &[], FIVE_POINTS, 2, 2, THREE_BATCHES)?);
    Ok(())
}

/// A load whose last batch does not fit.
const FULL: Given<'static> = (
    &[Wanted::Committed(
        0,
        &[
            ENTRY_2,
            ENTRY_3,
            Err(StepFault::DeviceFull { need: 3, left: 2 }),
        ],
        2,
    )],
    0,
);

/// A load in whose first batch the device fails.
const FAILED: Given<'static> = (
    &[Wanted::Committed(
        0,
        &[
            Err(StepFault::DeviceFault),
            Err(StepFault::Stopped { entries: 1 }),
            Err(StepFault::Stopped { entries: 1 }),
        ],
        0,
    )],
    0,
);

/// The create needs two blocks. Each batch needs three: its entry, the leaf of all points so far, and the gate after them. The device of
/// 15 blocks has ten for entries.
#[test]
fn a_refused_batch_does_not_stop_later_ones(rt: HostRuntime) -> Result<(), Fail> {
    let alloc = rt.alloc();
    assert!(rt; new_gives(&rt, alloc, 15, &[], FIVE_POINTS, 2, 1, FULL)?);
    assert!(rt; new_gives(&rt, alloc, 64, &[5], FIVE_POINTS, 2, 1, FAILED)?);
    Ok(())
}

/// A load whose first stream cannot be created, since the device fails.
const NOT_CREATED: Given<'static> = (
    &[
        Wanted::NotCreated(StepFault::DeviceFault),
        Wanted::NotCreated(StepFault::Stopped { entries: 0 }),
    ],
    0,
);

/// The first call of the device fails, in the create of the first stream.
#[test]
fn rows_of_a_stream_that_cannot_be_created_are_not_committed(rt: HostRuntime) -> Result<(), Fail> {
    let alloc = rt.alloc();
    assert!(rt; new_gives(&rt, alloc, 64, &[1], TWO_STREAMS, 2, 2, NOT_CREATED)?);
    Ok(())
}

/// Returns rows of more points at one time than a span may hold, and of one more point.
fn crowded_rows(alloc: Global) -> Result<String, AllocError> {
    let mut rows = String::new(alloc);
    for _ in 0..253u32 {
        rows.push_str("00000000-0000-0000-0000-000000000007,0,1\n")?;
    }
    rows.push_str("00000000-0000-0000-0000-000000000007,9,1\n")?;
    Ok(rows)
}

/// A load whose first batch is crowded.
const CROWDED: Given<'static> = (
    &[Wanted::Committed(
        0,
        &[
            Err(StepFault::Rejected(Rejection::Crowded { start: 0 })),
            ENTRY_2,
        ],
        1,
    )],
    0,
);

/// More points at one time than a span may hold are refused. The next batch has one point.
#[test]
fn a_crowded_batch_is_refused(rt: HostRuntime) -> Result<(), Fail> {
    let alloc = rt.alloc();
    let rows = crowded_rows(alloc)?;
    assert!(rt; new_gives(&rt, alloc, 64, &[], rows.as_str(), 253, 1, CROWDED)?);
    Ok(())
}

/// A load of five points by threes.
const TWO_BATCHES: Given<'static> = (&[Wanted::Committed(0, &[ENTRY_2, ENTRY_3], 2)], 0);

/// A load of rows of an output, and of one batch of its input.
const WITH_OUTPUT: Given<'static> = (&[Wanted::Output, Wanted::Committed(0, &[ENTRY_5], 3)], 0);

/// Commits points of the id 7 and makes an output of the id 8, and then loads rows of both. Returns whether both loads gave what is
/// wanted.
fn output_and_rows<R: Threads + Wait + Sync>(
    rt: &R,
    alloc: Global,
    hall: &Hall<MemDisk>,
    session: &mut Session<MemDisk>,
) -> Result<(bool, bool), Fail>
    requires at { IsAt hall.now session.old }
    requires alone { IsAlone session.old }
    ensures at { IsAt hall.now session.new }
    ensures alone { IsAlone session.new }
{
    let first = gives(rt, alloc, hall, session, FIVE_POINTS, 3, 1, TWO_BATCHES)?;
    let spec = Spec {
        kernel: Kernel::Sum,
        lead: 0,
        grain: 0,
        first: 0,
        second: None,
    };
    commit(rt, alloc, hall, session, &Entry::Define { id: 8, spec })?;
    let second = gives(rt, alloc, hall, session, TWO_STREAMS, 2, 2, WITH_OUTPUT)?;
    Ok((first, second))
}

/// Loads rows of a plain stream and of an output into a store of their own. Returns whether both loads gave what is wanted.
fn rows_of_an_output<R: Threads + Wait + Sync>(
    rt: &R,
    alloc: Global,
) -> Result<(bool, bool), Fail> {
    let (hall, mut session) = begun_empty(alloc, 64, &[])?;
    let given = output_and_rows(rt, alloc, &hall, &mut session);
    let _engine = close(hall, session);
    given
}

/// The plain stream has two versions before the second load.
#[test]
fn an_output_takes_no_rows(rt: HostRuntime) -> Result<(), Fail> {
    assert!(rt; rows_of_an_output(&rt, rt.alloc())? == (true, true));
    Ok(())
}

/// Loads two streams into a store of their own. Returns the number of its entries.
fn loaded_by<R: Threads + Wait + Sync>(
    rt: &R,
    alloc: Global,
    workers: u8,
    pace: &Meeting,
) -> Result<u64, Fail> {
    let rows = read_rows(alloc, TWO_STREAMS.as_bytes())?;
    let (hall, mut session) = begun_empty(alloc, 64, &[])?;
    let loaded = load(
        System { rt, alloc },
        &hall,
        &mut session,
        rows,
        2,
        workers,
        pace,
    );
    let engine = close(hall, session);
    loaded?;
    Ok(engine.entries())
}

/// Loads two streams. Returns the number of entries, and what the meeting of the workers saw.
fn met_by<R: Threads + Wait + Sync>(
    rt: &R,
    alloc: Global,
    workers: u8,
) -> Result<(u64, Met), Fail> {
    let pace = Meeting::new();
    let entries = loaded_by(rt, alloc, workers, &pace)?;
    Ok((entries, pace.met()))
}

fn first_wrong_meeting<R: Threads + Wait + Sync>(
    rt: &R,
    alloc: Global,
) -> Result<Option<usize>, Fail> {
    for (row, (workers, beside)) in [(1, 0), (2, 1)].iter().enumerate() {
        let (entries, met) = met_by(rt, alloc, *workers)?;
        if (entries, met.begun, met.beside) != (4, 2, *beside) {
            return Ok(Some(row));
        }
    }
    Ok(None)
}

/// Of two workers each begins its stream while the other one waits. One worker waits in vain.
#[test]
fn two_workers_load_beside_each_other(rt: HostRuntime) -> Result<(), Fail> {
    no_wrong(first_wrong_meeting(&rt, rt.alloc())?)
}
