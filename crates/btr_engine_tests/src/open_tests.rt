//! Tests of an engine from its opening on, over a device in memory.
ghost use Rattle.std.specs.Prelude.{◌≡◌, ◌%◌, ◌<◌, ◌≤◌, ◌^◌, length};

use crate::fixture::{MemEngine, engine_on, mark, no_wrong, opened};
use btr_base::{Agg, Bag, END, FIRST, Point, Range, Ranges, Toward};
use btr_disk::{Capacity, Disk, MemDisk};
use btr_engine::{Receipt, Snapshot, StepFault};
use btr_hist::{
    Answer, At, Entry, History, Kernel, PointList, Query, Reads, Rejection, Rows, Spec, StreamList,
    StreamRow,
};
use btr_log::Log;
use btr_open::*;
use btr_super::format;
use std::alloc::{AllocError, Global};
use std::test::Fail;
use std::thread::{Threads, join};

const CAPACITY: Capacity = Capacity {
    calls: 64,
    blocks: 128,
};

/// Returns a device of 64 blocks with a store of 16, which the first eight calls made. The calls in the list fail.
fn formatted(alloc: Global, failing: &[u64]) -> Result<MemDisk, Fail> {
    let mut disk = MemDisk::new(alloc, 64, CAPACITY, failing.to_vec(alloc)?)?;
    let made = format(&mut disk, 16);
    if made.is_err() {
        return Err("no store was made".into());
    }
    Ok(disk)
}

/// Returns a commit of `count` points to stream 0, one every four nanoseconds.
fn insert(alloc: Global, count: u32) -> Result<Entry, AllocError> {
    let mut points = Vec::new(alloc);
    for index in 0..count {
        points.push(Point {
            time: 4 * i64::from(index),
            value: 0,
        })?;
    }
    Ok(Entry::Commit {
        stream: 0,
        cut: Ranges::none(alloc),
        added: Bag::from_points(points),
    })
}

/// Returns the latest version of stream 0 in a snapshot and the number of its points.
fn latest_in(alloc: Global, snapshot: &Snapshot) -> Result<Option<(u64, usize)>, AllocError> {
    let query = Query::Points {
        stream: 0,
        from: 0,
        to: 4000,
        at: At::Latest,
    };
    match snapshot.answer(alloc, &query)? {
        Answer::Found {
            version,
            rows: Rows::Points(points),
        } => Ok(Some((version, points.as_slice().len()))),
        _ => Ok(None),
    }
}

/// Returns the latest version of stream 0 and the number of its points.
fn latest(alloc: Global, engine: &MemEngine) -> Result<(u64, usize), Fail> {
    let found = latest_in(alloc, &engine.admit()?)?;
    Ok(found.ok_or("no points were answered")?)
}

/// The result of a step.
type Stepped = Result<Receipt, StepFault>;

/// The receipt of an entry.
fn receipt(number: u64, stream: u32, version: u64) -> Stepped {
    Ok(Receipt {
        number,
        stream,
        version,
    })
}

/// Adds a commit of `count` points to stream 0.
fn step_insert(alloc: Global, engine: &mut MemEngine, count: u32) -> Result<Stepped, Fail> {
    let entry = insert(alloc, count)?;
    Ok(engine.step(alloc, &entry))
}

/// Adds two streams, a commit of three points, and the first stream again. Returns the engine, and the results of the steps.
fn three_entries(alloc: Global) -> Result<(MemEngine, [Stepped; 4]), Fail> {
    let mut engine = opened(alloc, formatted(alloc, &[])?)?;
    let first = engine.step(alloc, &Entry::Create { id: 7 });
    let second = engine.step(alloc, &Entry::Create { id: 8 });
    let third = step_insert(alloc, &mut engine, 3)?;
    let again = engine.step(alloc, &Entry::Create { id: 7 });
    Ok((engine, [first, second, third, again]))
}

/// The engine of three entries, opened again.
fn reopened(alloc: Global) -> Result<MemEngine, Fail> {
    let (engine, _) = three_entries(alloc)?;
    opened(alloc, engine.into_disk())
}

/// The number of entries of an engine that was just made.
fn new_entries(alloc: Global) -> Result<u64, Fail> {
    let engine = opened(alloc, formatted(alloc, &[])?)?;
    Ok(engine.entries())
}

/// Returns the results of those steps, and the latest version of stream 0 and the number of its points after them.
fn stepped_and_found(alloc: Global) -> Result<([Stepped; 4], (u64, usize)), Fail> {
    let (engine, stepped) = three_entries(alloc)?;
    Ok((stepped, latest(alloc, &engine)?))
}

#[test]
fn each_accepted_entry_has_its_receipt(rt: HostRuntime) -> Result<(), Fail> {
    let alloc = rt.alloc();
    assert!(rt; new_entries(alloc)? == 0);
    let (stepped, found) = stepped_and_found(alloc)?;
    let exists = Err(StepFault::Rejected(Rejection::StreamExists));
    assert!(rt; stepped == [receipt(1, 0, 0), receipt(2, 1, 0), receipt(3, 0, 1), exists]);
    assert!(rt; found == (1, 3));
    Ok(())
}

/// The number of entries of a reopened engine, and two of its streams.
fn reopened_streams(alloc: Global) -> Result<(u64, Option<u32>, Option<u32>), Fail> {
    let engine = reopened(alloc)?;
    let snapshot = engine.admit()?;
    Ok((engine.entries(), snapshot.find(8), snapshot.find(9)))
}

/// The latest version of stream 0 in a reopened engine, and the number of its points.
fn reopened_latest(alloc: Global) -> Result<(u64, usize), Fail> {
    let engine = reopened(alloc)?;
    latest(alloc, &engine)
}

#[test]
fn acknowledged_entries_are_there_after_reopening(rt: HostRuntime) -> Result<(), Fail> {
    let alloc = rt.alloc();
    assert!(rt; reopened_streams(alloc)? == (3, Some(1), None));
    assert!(rt; reopened_latest(alloc)? == (1, 3));
    Ok(())
}

/// Adds a small commit to a reopened engine, and one that is too large. Returns the engine, and the results of the steps.
fn filled(alloc: Global) -> Result<(MemEngine, [Stepped; 2]), Fail> {
    let mut engine = reopened(alloc)?;
    let small = step_insert(alloc, &mut engine, 3)?;
    let large = step_insert(alloc, &mut engine, 1000)?;
    Ok((engine, [small, large]))
}

#[test]
fn a_full_device_is_said_so(rt: HostRuntime) -> Result<(), Fail> {
    let alloc = rt.alloc();
    let (engine, [small, large]) = filled(alloc)?;
    let found = latest(alloc, &engine)?;
    let is_stopped = engine.stopped();
    // one of the sixteen blocks is left after the fourth entry; a thousand points 4 ns apart are in 16 leaves, below 9 inner nodes
    assert!(rt; small == receipt(4, 0, 2));
    assert!(rt; large == Err(StepFault::DeviceFull { need: 30, left: 1 }));
    assert!(rt; !is_stopped);
    assert!(rt; found == (2, 6));
    Ok(())
}

/// The number of entries and the latest version of stream 0 in a snapshot that was made before a commit.
fn seen_before(alloc: Global) -> Result<(u64, Option<u64>), Fail> {
    let mut engine = reopened(alloc)?;
    let snapshot = engine.admit()?;
    let _stepped = step_insert(alloc, &mut engine, 3)?;
    Ok((snapshot.entries(), snapshot.latest(0)))
}

#[test]
fn a_snapshot_is_as_it_was_after_a_commit(rt: HostRuntime) -> Result<(), Fail> {
    assert!(rt; seen_before(rt.alloc())? == (3, Some(1)));
    Ok(())
}

/// What steps give on a device that fails: two attempts of a commit, whether the engine is stopped, the latest version of stream 0 and
/// the number of its points, and the faults of the device.
type Failed = ([Stepped; 2], bool, (u64, usize), u64);

/// Returns an engine with one stream, whose device fails at a call.
fn failing_at(alloc: Global, call: u64) -> Result<MemEngine, Fail> {
    let mut engine = opened(alloc, formatted(alloc, &[call])?)?;
    match engine.step(alloc, &Entry::Create { id: 7 }) {
        Ok(_) => Ok(engine),
        Err(_) => Err("no stream was made".into()),
    }
}

/// Adds a commit twice to an engine.
fn stepped_twice(alloc: Global, engine: &mut MemEngine) -> Result<[Stepped; 2], AllocError> {
    let entry = insert(alloc, 3)?;
    let first = engine.step(alloc, &entry);
    let second = engine.step(alloc, &entry);
    Ok([first, second])
}

fn failed_at(alloc: Global, call: u64) -> Result<Failed, Fail> {
    let mut engine = failing_at(alloc, call)?;
    let stepped = stepped_twice(alloc, &mut engine)?;
    let found = latest(alloc, &engine)?;
    let is_stopped = engine.stopped();
    Ok((stepped, is_stopped, found, engine.into_disk().faults()))
}

fn first_that_goes_on(alloc: Global) -> Result<Option<usize>, Fail> {
    let wanted = [
        Err(StepFault::DeviceFault),
        Err(StepFault::Stopped { entries: 1 }),
    ];
    // after the format three calls open the store, and each entry takes four
    for (row, call) in [15, 16, 17, 18].iter().enumerate() {
        if failed_at(alloc, *call)? != (wanted, true, (0, 0), 1) {
            return Ok(Some(row));
        }
    }
    Ok(None)
}

#[test]
fn a_device_that_fails_stops_the_engine(rt: HostRuntime) -> Result<(), Fail> {
    no_wrong(first_that_goes_on(rt.alloc())?)
}

/// Why a device is not opened, and the calls of the device that is handed back.
fn unopened(alloc: Global, disk: MemDisk) -> Option<(OpenCause, u64)> {
    match open_store(alloc, disk) {
        Ok(_) => None,
        Err(fault) => Some((fault.cause, fault.disk.calls())),
    }
}

/// The first call whose failure does not keep a store from being opened.
fn first_opened(alloc: Global) -> Result<Option<usize>, Fail> {
    for (row, (call, calls)) in [(8, 9), (9, 10), (10, 11)].iter().enumerate() {
        let disk = formatted(alloc, &[*call])?;
        if unopened(alloc, disk) != Some((OpenCause::Fault, *calls)) {
            return Ok(Some(row));
        }
    }
    Ok(None)
}

#[test]
fn a_device_that_is_not_opened_is_handed_back(rt: HostRuntime) -> Result<(), Fail> {
    let alloc = rt.alloc();
    let empty = MemDisk::new(alloc, 64, CAPACITY, Vec::new(alloc))?;
    assert!(rt; unopened(alloc, empty) == Some((OpenCause::NotAStore, 2)));
    one_history_is_held();
    held_is_sound();
    no_wrong(first_opened(alloc)?)
}

/// Returns a commit of these ranges and points.
fn commit(
    alloc: Global,
    stream: u32,
    ranges: &[(i64, i64)],
    points: Vec<Point>,
) -> Result<Entry, Fail> {
    let mut cut = Ranges::none(alloc);
    for (from, to) in ranges {
        cut.add(Range::new(*from, *to).ok_or("no range")?)?;
    }
    Ok(Entry::Commit {
        stream,
        cut,
        added: Bag::from_points(points),
    })
}

/// Returns points with these times and values.
fn points(alloc: Global, pairs: &[(i64, i64)]) -> Result<Vec<Point>, AllocError> {
    let mut points = Vec::new(alloc);
    for (time, value) in pairs {
        points.push(Point {
            time: *time,
            value: *value,
        })?;
    }
    Ok(points)
}

/// Returns `count` points, one every seven nanoseconds from a time on, with the values from 0 on.
fn points_from(alloc: Global, first: i64, count: u32) -> Result<Vec<Point>, AllocError> {
    let mut points = Vec::new(alloc);
    for index in 0..count {
        points.push(Point {
            time: first.wrapping_add(7 * i64::from(index)),
            value: i64::from(index),
        })?;
    }
    Ok(points)
}

/// Returns the entry at this index of a history with two streams. One has more points than a leaf, some of which are replaced
/// and deleted. The other has a point at each end of the domain.
fn entry_at(alloc: Global, index: u32) -> Result<Entry, Fail> {
    match index {
        0 => Ok(Entry::Create { id: 7 }),
        1 => Ok(Entry::Create { id: 8 }),
        2 => commit(alloc, 0, &[], points_from(alloc, -700, 300)?),
        3 => commit(alloc, 1, &[], points(alloc, &[(FIRST, 5), (END - 1, -5)])?),
        4 => commit(
            alloc,
            0,
            &[(0, 70)],
            points(alloc, &[(64, -1), (3, 9), (3, 9)])?,
        ),
        _ => commit(alloc, 0, &[(-350, -7), (1000, 2000)], Vec::new(alloc)),
    }
}

/// Adds the questions about a range of a version.
fn ask_range(
    asked: &mut Vec<Query>,
    stream: u32,
    at: At,
    from: i64,
    to: i64,
) -> Result<(), AllocError> {
    asked.push(Query::Points {
        stream,
        from,
        to,
        at,
    })?;
    for p in [0, 3, 40, 62, 63] {
        asked.push(Query::Aligned {
            stream,
            from,
            to,
            p,
            at,
        })?;
    }
    for width in [0, 1, 50, 4611686018427387904, 4611686018427387905] {
        asked.push(Query::Windows {
            stream,
            from,
            to,
            width,
            at,
        })?;
    }
    Ok(())
}

/// Adds the questions about the times of a version, and about all of it.
fn ask_times(asked: &mut Vec<Query>, stream: u32, at: At) -> Result<(), AllocError> {
    asked.push(Query::Info { stream, at })?;
    for time in [i64::MIN, FIRST, -350, 3, 4, 2000, i64::MAX] {
        for toward in [Toward::Forward, Toward::Backward] {
            asked.push(Query::Nearest {
                stream,
                time,
                toward,
                at,
            })?;
        }
    }
    Ok(())
}

/// Adds the questions about two versions.
fn ask_changes(asked: &mut Vec<Query>, stream: u32) -> Result<(), AllocError> {
    for (old, new) in [
        (0, 0),
        (0, 1),
        (0, 3),
        (1, 2),
        (2, 3),
        (3, 1),
        (3, 4),
        (4, 3),
    ] {
        for p in [0, 3, 40, 62, 63] {
            asked.push(Query::Changes {
                stream,
                old,
                new,
                p,
            })?;
        }
    }
    Ok(())
}

/// Returns questions of all kinds about three streams. The last stream does not exist.
fn questions(alloc: Global) -> Result<Vec<Query>, AllocError> {
    let mut asked = Vec::new(alloc);
    asked.push(Query::Streams)?;
    for stream in 0..3u32 {
        ask_changes(&mut asked, stream)?;
        for at in [
            At::Latest,
            At::Number(0),
            At::Number(1),
            At::Number(2),
            At::Number(3),
            At::Number(4),
        ] {
            ask_times(&mut asked, stream, at)?;
            for (from, to) in [
                (FIRST, END),
                (-351, 64),
                (3, 4),
                (5, 5),
                (FIRST - 1, 0),
                (0, END + 1),
            ] {
                ask_range(&mut asked, stream, at, from, to)?;
            }
        }
    }
    Ok(asked)
}

/// Returns whether two answers have the same rows.
fn are_same_rows(a: &Rows, b: &Rows) -> bool {
    match (a, b) {
        (Rows::Points(a), Rows::Points(b)) => a.as_slice() == b.as_slice(),
        (Rows::Cells(a), Rows::Cells(b)) => a.as_slice() == b.as_slice(),
        (Rows::Ranges(a), Rows::Ranges(b)) => a.as_slice() == b.as_slice(),
        (
            Rows::Info { output, agg, reads },
            Rows::Info {
                output: other,
                agg: other_agg,
                reads: other_reads,
            },
        ) => output == other && agg == other_agg && reads == other_reads,
        (Rows::Streams(a), Rows::Streams(b)) => a.as_slice() == b.as_slice(),
        _ => false,
    }
}

/// Returns whether two answers are the same.
fn are_same(a: &Answer, b: &Answer) -> bool {
    match (a, b) {
        (
            Answer::Found { version, rows },
            Answer::Found {
                version: other,
                rows: others,
            },
        ) => version == other && are_same_rows(rows, others),
        (Answer::Refused(a), Answer::Refused(b)) => a == b,
        _ => false,
    }
}

/// Returns a device of 64 blocks with a store of as many.
fn whole_store(alloc: Global, capacity: Capacity) -> Result<MemDisk, Fail>
    requires { capacity.blocks ≤ 2 ^ 32 }
{
    let mut disk = MemDisk::new(alloc, 64, capacity, Vec::new(alloc))?;
    match format(&mut disk, 64) {
        Ok(()) => Ok(disk),
        Err(_) => Err("no store was made".into()),
    }
}

/// Adds an entry that is accepted.
fn add(alloc: Global, engine: &mut MemEngine, entry: &Entry) -> Result<(), Fail> {
    match engine.step(alloc, entry) {
        Ok(_) => Ok(()),
        Err(_) => Err("an entry was refused".into()),
    }
}

/// Adds the entry at this index of that history.
fn add_at(alloc: Global, engine: &mut MemEngine, index: u32) -> Result<(), Fail> {
    let entry = entry_at(alloc, index)?;
    add(alloc, engine, &entry)
}

/// Adds the entries of that history from one index up to another.
fn add_from(alloc: Global, engine: &mut MemEngine, from: u32, to: u32) -> Result<(), Fail> {
    for index in from..to {
        add_at(alloc, engine, index)?;
    }
    Ok(())
}

/// Returns an engine of the first entries of that history.
fn engine_of(alloc: Global, count: u32) -> Result<MemEngine, Fail> {
    let capacity = Capacity {
        calls: 96,
        blocks: 256,
    };
    let mut engine = opened(alloc, whole_store(alloc, capacity)?)?;
    add_from(alloc, &mut engine, 0, count)?;
    Ok(engine)
}

/// Returns a snapshot of an engine of those six entries.
fn snapshot_of_six(alloc: Global) -> Result<Snapshot, Fail> {
    Ok(engine_of(alloc, 6)?.admit()?)
}

/// Returns an engine of the first entries of that history, opened from a checkpoint after them.
fn opened_from(alloc: Global, count: u32) -> Result<MemEngine, Fail> {
    let mut engine = engine_of(alloc, count)?;
    mark(alloc, &mut engine, u64::from(count))?;
    opened(alloc, engine.into_disk())
}

/// Returns a snapshot of an engine of those six entries, which was opened from a checkpoint after this many of them. The others were added
/// then, and it was opened once more.
fn reopened_from(alloc: Global, count: u32) -> Result<Snapshot, Fail> {
    let mut engine = opened_from(alloc, count)?;
    add_from(alloc, &mut engine, count, 6)?;
    let engine = opened(alloc, engine.into_disk())?;
    Ok(engine.admit()?)
}

/// Returns the history of those six entries.
fn history_of_six(alloc: Global) -> Result<History, Fail> {
    let mut history = History::empty(alloc);
    for index in 0..6 {
        history.push(entry_at(alloc, index)?)?;
    }
    Ok(history)
}

/// Returns whether a snapshot answers as a history.
fn answers_alike(
    alloc: Global,
    snapshot: &Snapshot,
    history: &History,
    query: &Query,
) -> Result<bool, AllocError> {
    let found = snapshot.answer(alloc, query)?;
    let want = history.answer(alloc, query)?;
    Ok(are_same(&found, &want))
}

/// Returns the number of the first question that a snapshot answers in another way than a history.
fn first_other(
    alloc: Global,
    snapshot: &Snapshot,
    history: &History,
) -> Result<Option<usize>, AllocError> {
    for (row, query) in questions(alloc)?.iter().enumerate() {
        if !answers_alike(alloc, snapshot, history, query)? {
            return Ok(Some(row));
        }
    }
    Ok(None)
}

#[test]
fn the_engine_answers_as_the_history(rt: HostRuntime) -> Result<(), Fail> {
    let alloc = rt.alloc();
    let snapshot = snapshot_of_six(alloc)?;
    let history = history_of_six(alloc)?;
    no_wrong(first_other(alloc, &snapshot, &history)?)
}

#[test]
fn the_engine_answers_as_the_history_after_a_checkpoint_of_all(
    rt: HostRuntime,
) -> Result<(), Fail> {
    let alloc = rt.alloc();
    let snapshot = reopened_from(alloc, 6)?;
    let history = history_of_six(alloc)?;
    no_wrong(first_other(alloc, &snapshot, &history)?)
}

#[test]
fn the_engine_answers_as_the_history_after_a_checkpoint_of_some(
    rt: HostRuntime,
) -> Result<(), Fail> {
    let alloc = rt.alloc();
    let snapshot = reopened_from(alloc, 4)?;
    let history = history_of_six(alloc)?;
    no_wrong(first_other(alloc, &snapshot, &history)?)
}

/// Adds a stream, and returns the engine.
fn with_stream(alloc: Global, engine: MemEngine, id: u128) -> Option<MemEngine> {
    let mut engine = engine;
    engine.step(alloc, &Entry::Create { id }).ok()?;
    Some(engine)
}

/// The number of entries of an engine.
fn entries_of(engine: Option<MemEngine>) -> Option<u64> {
    Some(engine?.entries())
}

/// Returns the log of an empty store on a device, if the device has its blocks.
fn log_on(disk: MemDisk) -> Option<Log<MemDisk>> {
    if disk.blocks() < 16 {
        return None;
    }
    Some(Log::at(disk, 4, 16, 0))
}

/// Adds a stream in another thread, while this one has a snapshot. Returns the numbers of entries of the engine and the snapshot.
fn engine_moved<R: Threads>(
    rt: &R,
    alloc: Global,
    engine: MemEngine,
) -> Result<(Option<u64>, u64), AllocError> {
    let snapshot = engine.admit()?;
    let (moved, entries) = join(
        rt,
        move || with_stream(alloc, engine, 7),
        || snapshot.entries(),
    );
    Ok((entries_of(moved), entries))
}

/// Asks a snapshot in another thread, while this one has the engine. Returns what was found, and the number of entries.
fn snapshot_moved<R: Threads>(
    rt: &R,
    alloc: Global,
    engine: MemEngine,
) -> Result<(Option<u32>, Option<u64>), AllocError> {
    let snapshot = engine.admit()?;
    let (found, moved) = join(
        rt,
        move || snapshot.find(7),
        move || with_stream(alloc, engine, 8),
    );
    Ok((found, entries_of(moved)))
}

/// Opens a device in another thread. Returns the engine.
fn device_moved<R: Threads>(rt: &R, alloc: Global, disk: MemDisk) -> Option<MemEngine> {
    let (engine, _) = join(rt, move || engine_on(alloc, disk), || ());
    engine
}

/// Asks a log for its room in another thread.
fn log_moved<R: Threads>(rt: &R, log: Log<MemDisk>) -> u64 {
    let (room, _) = join(rt, move || log.room(), || ());
    room
}

#[test]
fn an_engine_moves_to_another_thread(rt: HostRuntime) -> Result<(), Fail> {
    let alloc = rt.alloc();
    let engine = opened(alloc, formatted(alloc, &[])?)?;
    assert!(rt; engine_moved(&rt, alloc, engine)? == (Some(1), 0));
    Ok(())
}

#[test]
fn a_snapshot_moves_to_another_thread(rt: HostRuntime) -> Result<(), Fail> {
    let alloc = rt.alloc();
    let engine = opened(alloc, formatted(alloc, &[])?)?;
    assert!(rt; snapshot_moved(&rt, alloc, engine)? == (None, Some(1)));
    let engine = with_stream(alloc, opened(alloc, formatted(alloc, &[])?)?, 7);
    let engine = engine.ok_or("no stream was added")?;
    assert!(rt; snapshot_moved(&rt, alloc, engine)? == (Some(0), Some(2)));
    Ok(())
}

#[test]
fn a_device_and_a_log_move_to_another_thread(rt: HostRuntime) -> Result<(), Fail> {
    let alloc = rt.alloc();
    let engine = reopened(alloc)?;
    let moved = device_moved(&rt, alloc, engine.into_disk());
    assert!(rt; entries_of(moved) == Some(3));
    let log = log_on(formatted(alloc, &[])?).ok_or("too few blocks")?;
    assert!(rt; log_moved(&rt, log) == 11);
    Ok(())
}

/// Asks a snapshot many times for the latest version of stream 0 and the number of its points. Returns them if all answers are
/// the same.
fn steady(alloc: Global, snapshot: &Snapshot) -> Option<(u64, usize)> {
    let first = latest_in(alloc, snapshot).ok()??;
    for _ in 0..100 {
        if latest_in(alloc, snapshot).ok()?? != first {
            return None;
        }
    }
    Some(first)
}

/// Adds `count` commits of three points to stream 0, and returns the engine.
fn with_commits(alloc: Global, engine: MemEngine, count: u32) -> Option<MemEngine> {
    let mut engine = engine;
    for _ in 0..count {
        let entry = insert(alloc, 3).ok()?;
        engine.step(alloc, &entry).ok()?;
    }
    Some(engine)
}

/// Adds a commit of three points.
fn add_points(alloc: Global, engine: &mut MemEngine) -> Result<(), Fail> {
    let entry = insert(alloc, 3)?;
    add(alloc, engine, &entry)
}

/// Returns an engine with a stream and a commit of three points. Its device keeps a record of many calls.
fn one_commit(alloc: Global) -> Result<MemEngine, Fail> {
    let capacity = Capacity {
        calls: 256,
        blocks: 256,
    };
    let mut engine = opened(alloc, whole_store(alloc, capacity)?)?;
    add(alloc, &mut engine, &Entry::Create { id: 7 })?;
    add_points(alloc, &mut engine)?;
    Ok(engine)
}

/// Asks a snapshot in another thread, while this one adds eight commits. Returns what the snapshot answered, and the engine.
fn asked_and_added<R: Threads>(
    rt: &R,
    alloc: Global,
    snapshot: Snapshot,
    engine: MemEngine,
) -> (Option<(u64, usize)>, Option<MemEngine>) {
    join(
        rt,
        move || steady(alloc, &snapshot),
        move || with_commits(alloc, engine, 8),
    )
}

#[test]
fn a_snapshot_answers_as_before_in_another_thread_while_commits_go_on(
    rt: HostRuntime,
) -> Result<(), Fail> {
    let alloc = rt.alloc();
    let engine = one_commit(alloc)?;
    let snapshot = engine.admit()?;
    let (found, moved) = asked_and_added(&rt, alloc, snapshot, engine);
    let engine = moved.ok_or("a commit was refused")?;
    let after = latest(alloc, &engine)?;
    assert!(rt; found == Some((1, 3)));
    assert!(rt; after == (9, 27));
    Ok(())
}

/// The spec of an output: at each time of stream 0 the sum of the values of the last ten nanoseconds.
const SPEC: Spec = Spec {
    kernel: Kernel::Sum,
    lead: 10,
    grain: 0,
    first: 0,
    second: None,
};

/// Returns a distillate that reads this version of the first input, with one range and these points.
fn distillate(
    alloc: Global,
    stream: u32,
    read: u64,
    (from, to): (i64, i64),
    added: Vec<Point>,
) -> Result<Entry, Fail> {
    let mut cut = Ranges::none(alloc);
    cut.add(Range::new(from, to).ok_or("no range")?)?;
    Ok(Entry::Distillate {
        stream,
        cut,
        added: Bag::from_points(added),
        reads: Reads {
            first: read,
            second: None,
        },
    })
}

/// Returns the entry at this index of a history with a stream and an output, which is brought up to date twice.
fn derived_at(alloc: Global, index: u32) -> Result<Entry, Fail> {
    match index {
        0 => Ok(Entry::Create { id: 7 }),
        1 => commit(
            alloc,
            0,
            &[],
            points(alloc, &[(0, 10), (10, 20), (20, 30)])?,
        ),
        2 => Ok(Entry::Define { id: 8, spec: SPEC }),
        3 => distillate(
            alloc,
            1,
            1,
            (0, 31),
            points(alloc, &[(0, 10), (10, 30), (20, 50)])?,
        ),
        4 => commit(alloc, 0, &[], points(alloc, &[(5, 1)])?),
        _ => distillate(alloc, 1, 2, (5, 16), points(alloc, &[(5, 11), (10, 31)])?),
    }
}

/// Adds the entry at this index of that history.
fn add_derived(alloc: Global, engine: &mut MemEngine, index: u32) -> Result<(), Fail> {
    let entry = derived_at(alloc, index)?;
    add(alloc, engine, &entry)
}

/// Adds the entries of that history from one index up to the sixth.
fn add_derived_from(alloc: Global, engine: &mut MemEngine, from: u32) -> Result<(), Fail> {
    for index in from..6 {
        add_derived(alloc, engine, index)?;
    }
    Ok(())
}

/// Returns an engine of that history. The body of its last extent is block 18.
fn with_output(alloc: Global) -> Result<MemEngine, Fail> {
    let mut engine = opened(alloc, whole_store(alloc, CAPACITY)?)?;
    add_derived_from(alloc, &mut engine, 0)?;
    Ok(engine)
}

/// Returns whether an answer to a question about stream 1 has these rows of a version.
fn is_answered(
    alloc: Global,
    snapshot: &Snapshot,
    query: &Query,
    version: u64,
    rows: Rows,
) -> Result<bool, AllocError> {
    let want = Answer::Found { version, rows };
    let found = snapshot.answer(alloc, query)?;
    Ok(are_same(&found, &want))
}

/// Returns whether a version of the output has these points, and has read the version of its input with the same number.
fn is_output_at(
    alloc: Global,
    snapshot: &Snapshot,
    version: u64,
    want: Vec<Point>,
) -> Result<bool, AllocError> {
    let at = At::Number(version);
    let reads = Some(Reads {
        first: version,
        second: None,
    });
    let info = Rows::Info {
        output: true,
        agg: Agg::of_points(&want),
        reads,
    };
    let rows = Rows::Points(PointList::from_points(want));
    let points = Query::Points {
        stream: 1,
        from: -100,
        to: 100,
        at,
    };
    let has_points = is_answered(alloc, snapshot, &points, version, rows)?;
    let has_info = is_answered(
        alloc,
        snapshot,
        &Query::Info { stream: 1, at },
        version,
        info,
    )?;
    Ok(has_info && has_points && snapshot.reads(1, version) == reads)
}

/// Returns whether a snapshot has the stream and the output.
fn has_streams(alloc: Global, snapshot: &Snapshot) -> Result<bool, AllocError> {
    let mut rows = Vec::new(alloc);
    rows.push(StreamRow {
        id: 7,
        latest: 2,
        output: false,
    })?;
    rows.push(StreamRow {
        id: 8,
        latest: 2,
        output: true,
    })?;
    let streams = Rows::Streams(StreamList::from_rows(rows));
    is_answered(alloc, snapshot, &Query::Streams, 6, streams)
}

/// Returns whether a snapshot has the stream and the output, with both versions of it.
fn has_output(alloc: Global, snapshot: &Snapshot) -> Result<bool, AllocError> {
    let first = points(alloc, &[(0, 10), (10, 30), (20, 50)])?;
    let has_first = is_output_at(alloc, snapshot, 1, first)?;
    let second = points(alloc, &[(0, 10), (5, 11), (10, 31), (20, 50)])?;
    let has_second = is_output_at(alloc, snapshot, 2, second)?;
    Ok(has_first && has_second && has_streams(alloc, snapshot)?)
}

/// A distillate of a stream that reads a version, and why it is rejected: a plain stream, a version that is not there yet, one before
/// the last that was read, and no stream.
const REJECTED: &[(u32, u64, Rejection)] = &[
    (0, 2, Rejection::NotWritable),
    (1, 3, Rejection::NotWritable),
    (1, 1, Rejection::NotWritable),
    (2, 2, Rejection::NoStream),
];

/// Returns whether a distillate is rejected for this reason.
fn is_rejected(
    alloc: Global,
    engine: &mut MemEngine,
    stream: u32,
    read: u64,
    why: Rejection,
) -> Result<bool, Fail> {
    let entry = distillate(alloc, stream, read, (0, 1), Vec::new(alloc))?;
    Ok(engine.step(alloc, &entry) == Err(StepFault::Rejected(why)))
}

fn first_not_rejected(alloc: Global, engine: &mut MemEngine) -> Result<Option<usize>, Fail> {
    for (row, (stream, read, why)) in REJECTED.iter().enumerate() {
        if !is_rejected(alloc, engine, *stream, *read, *why)? {
            return Ok(Some(row));
        }
    }
    Ok(None)
}

/// Adds a user's commit to the output.
fn step_user(alloc: Global, engine: &mut MemEngine) -> Result<Stepped, Fail> {
    let entry = commit(alloc, 1, &[(0, 1)], Vec::new(alloc))?;
    Ok(engine.step(alloc, &entry))
}

/// Adds the distillates and the user's commit. Returns the engine, the number of the first distillate that is not rejected, and the result
/// of the commit.
fn refused(alloc: Global) -> Result<(MemEngine, Option<usize>, Stepped), Fail> {
    let mut engine = with_output(alloc)?;
    let wrong = first_not_rejected(alloc, &mut engine)?;
    let user = step_user(alloc, &mut engine)?;
    Ok((engine, wrong, user))
}

/// Returns whether an engine has the stream and the output.
fn engine_has_output(alloc: Global, engine: MemEngine) -> Result<bool, AllocError> {
    let snapshot = engine.admit()?;
    has_output(alloc, &snapshot)
}

#[test]
fn an_output_takes_the_next_distillate_alone(rt: HostRuntime) -> Result<(), Fail> {
    let alloc = rt.alloc();
    let (engine, wrong, user) = refused(alloc)?;
    let has_output = engine_has_output(alloc, engine)?;
    assert!(rt; user == Err(StepFault::Rejected(Rejection::NotWritable)));
    assert!(rt; has_output);
    no_wrong(wrong)
}

/// Returns a snapshot of that history after reopening, with the rejected entries before.
fn reopened_output(alloc: Global) -> Result<Snapshot, Fail> {
    let mut engine = with_output(alloc)?;
    let _wrong = first_not_rejected(alloc, &mut engine)?;
    let engine = opened(alloc, engine.into_disk())?;
    Ok(engine.admit()?)
}

#[test]
fn an_output_is_the_same_after_reopening(rt: HostRuntime) -> Result<(), Fail> {
    let alloc = rt.alloc();
    let snapshot = reopened_output(alloc)?;
    let has_output = has_output(alloc, &snapshot)?;
    let specs = (snapshot.spec(0), snapshot.spec(1), snapshot.spec(2));
    let reads = (
        snapshot.reads(1, 0),
        snapshot.reads(1, 3),
        snapshot.reads(0, 1),
    );
    assert!(rt; has_output);
    assert!(rt; specs == (None, Some(SPEC), None));
    assert!(rt; reads == (None, None, None));
    Ok(())
}

/// Returns an engine of the first four entries of that history, opened from a checkpoint after them.
fn output_opened(alloc: Global) -> Result<MemEngine, Fail> {
    let mut engine = opened(alloc, whole_store(alloc, CAPACITY)?)?;
    for index in 0..4 {
        add_derived(alloc, &mut engine, index)?;
    }
    mark(alloc, &mut engine, 4)?;
    opened(alloc, engine.into_disk())
}

/// Returns an engine of that history, opened from a checkpoint after all of it. There is also one after four entries.
fn output_reopened(alloc: Global) -> Result<MemEngine, Fail> {
    let mut engine = output_opened(alloc)?;
    add_derived_from(alloc, &mut engine, 4)?;
    mark(alloc, &mut engine, 6)?;
    opened(alloc, engine.into_disk())
}

/// What that engine refuses: the number of the first distillate that is not rejected, and the results of a user's commit and of the streams
/// of the ids again.
fn refused_after(alloc: Global) -> Result<(Option<usize>, [Stepped; 3]), Fail> {
    let mut engine = output_reopened(alloc)?;
    let wrong = first_not_rejected(alloc, &mut engine)?;
    let user = step_user(alloc, &mut engine)?;
    let first = engine.step(alloc, &Entry::Create { id: 7 });
    let second = engine.step(alloc, &Entry::Create { id: 8 });
    Ok((wrong, [user, first, second]))
}

/// Returns whether that engine has the stream and the output, with its spec and what its versions have read.
fn has_output_after(alloc: Global) -> Result<bool, Fail> {
    let snapshot = output_reopened(alloc)?.admit()?;
    let has_spec = snapshot.spec(0) == None && snapshot.spec(1) == Some(SPEC);
    Ok(has_spec && has_output(alloc, &snapshot)?)
}

#[test]
fn an_output_goes_on_after_a_checkpoint(rt: HostRuntime) -> Result<(), Fail> {
    let alloc = rt.alloc();
    assert!(rt; has_output_after(alloc)?);
    let (wrong, refused) = refused_after(alloc)?;
    let not_writable = Err(StepFault::Rejected(Rejection::NotWritable));
    let exists = Err(StepFault::Rejected(Rejection::StreamExists));
    assert!(rt; refused == [not_writable, exists, exists]);
    no_wrong(wrong)
}

/// Returns a device with these bytes.
fn device_of(alloc: Global, bytes: Vec<u8>) -> Result<MemDisk, AllocError>
    requires { length bytes.items % 4096 ≡ 0 }
{
    MemDisk::from_bytes(alloc, bytes, CAPACITY, Vec::new(alloc))
}

/// A byte of the body of the last entry, its value, and why the device is not opened. The body is block 18: after its head a byte of
/// its kind, four of its stream, one of the number of its reads, and eight of the read: the version that it had, one that is not there
/// yet, one before the last, and a plain stream.
const BYTES: &[(usize, u8, Option<OpenCause>)] = &[
    (77, 2, None),
    (77, 3, Some(OpenCause::Damaged { block: 18 })),
    (77, 0, Some(OpenCause::Damaged { block: 18 })),
    (68, 0, Some(OpenCause::Damaged { block: 18 })),
];

/// Why a device is not opened if this byte has this value.
fn cause_with(
    alloc: Global,
    bytes: Vec<u8>,
    at: usize,
    value: u8,
) -> Result<Option<OpenCause>, AllocError>
    requires whole { length bytes.items % 4096 ≡ 0 }
    requires at { at < 4096 }
{
    let mut bytes = bytes;
    if let Some(byte) = bytes.get_mut(18 * 4096 + at) {
        *byte = value;
    }
    let disk = device_of(alloc, bytes)?;
    Ok(open_store(alloc, disk).err().map(|fault| fault.cause))
}

fn first_wrong_byte(alloc: Global, whole: &Vec<u8>) -> Result<Option<usize>, AllocError>
    requires { length whole.now.items % 4096 ≡ 0 }
{
    for (row, (at, value, want)) in BYTES.iter().enumerate() {
        if cause_with(alloc, whole.clone()?, *at, *value)? != *want {
            return Ok(Some(row));
        }
    }
    Ok(None)
}

#[test]
fn a_distillate_that_may_not_follow_is_damage(rt: HostRuntime) -> Result<(), Fail> {
    let alloc = rt.alloc();
    let whole = with_output(alloc)?.into_disk().into_bytes();
    no_wrong(first_wrong_byte(alloc, &whole)?)
}
