//! Tests of sights and plans over small histories. The expected plans are worked out by hand.
use crate::fixture::{Pairs, insert, no_wrong};
use btr_base::{Bag, Ranges};
use btr_engine::{Alone, Board, Snapshot};
use btr_hist::{Entry, Kernel, Reads, Spec};
use btr_plan::{Next, next_plan, next_plan_shared, sight};
use std::alloc::{AllocError, Global};
use std::marker::Sync;
use std::test::Fail;
use std::thread::Threads;

/// An output. Changes of its inputs are looked for in slots of one nanosecond.
fn output(id: u128, kernel: Kernel, lead: u64, first: u32, second: Option<u32>) -> Entry {
    Entry::Define {
        id,
        spec: Spec {
            kernel,
            lead,
            grain: 0,
            first,
            second,
        },
    }
}

/// Adds an entry to a board.
fn add(alloc: Global, board: &mut Board, entry: &Entry) -> Result<(), Fail> {
    if board.entries() == u64::MAX {
        return Err("too many entries".into());
    }
    match board.stage(&Alone, alloc, entry, 4) {
        Ok(staged) => {
            board.accept(staged);
            Ok(())
        }
        Err(_) => Err("an entry was refused".into()),
    }
}

/// Adds the entry at this index of a small history.
fn add_at(alloc: Global, board: &mut Board, index: u32) -> Result<(), Fail> {
    let entry = match index {
        0 => Entry::Create { id: 7 },
        1 => output(8, Kernel::Sum, 10, 0, None),
        2 => Entry::Create { id: 9 },
        3 => output(10, Kernel::Minus, 0, 0, Some(2)),
        _ => insert(alloc, 0, &[(0, 10), (10, 20), (20, 30)])?,
    };
    add(alloc, board, &entry)
}

/// Streams 0 and 2 are plain, stream 1 has the sums of stream 0 over 10 ns, and stream 3 has the differences of streams 0 and 2.
/// Stream 0 has one commit, and the others have none.
fn small(alloc: Global) -> Result<Board, Fail> {
    let mut board = Board::empty();
    for index in 0..5 {
        add_at(alloc, &mut board, index)?;
    }
    Ok(board)
}

/// Plans the next commit of an output, and adds it to the board.
fn refresh(alloc: Global, board: &mut Board, stream: u32) -> Result<(), Fail> {
    let snapshot = board.admit()?;
    let Next::Plan(plan) = next_plan(alloc, &snapshot, stream)? else {
        return Err("a plan".into());
    };
    add(alloc, board, plan.entry())
}

/// Whether the points are these pairs.
fn has_points(bag: &Bag, pairs: Pairs<'_>) -> bool {
    bag.as_slice().len() == pairs.len()
        && bag.as_slice().iter().zip(pairs.iter()).all(|(point, pair)| point.time == pair.0
            && point.value == pair.1)
}

/// Whether the ranges are these pairs.
fn has_ranges(ranges: &Ranges, pairs: Pairs<'_>) -> bool {
    ranges.as_slice().len() == pairs.len()
        && ranges
            .as_slice()
            .iter()
            .zip(pairs.iter())
            .all(|(range, pair)| range.from == pair.0 && range.to == pair.1)
}

/// What is to be planned for a stream, in a table.
#[derive(Clone, Copy)]
enum Wanted<'a> {
    NotOutput,

    UpToDate(u64),

    /// The version that the plan follows, what it reads, its cut, and its points.
    Plan(u64, (u64, Option<u64>), Pairs<'a>, Pairs<'a>),
}

/// Whether what is planned for a stream is what is wanted.
fn is_wanted(next: &Next, stream: u32, wanted: Wanted<'_>) -> bool {
    match (next, wanted) {
        (Next::NotOutput, Wanted::NotOutput) => true,
        (Next::UpToDate { version }, Wanted::UpToDate(latest)) => *version == latest,
        (Next::Plan(plan), Wanted::Plan(base, (first, second), cut, added)) => {
            plan.stream() == stream
                && plan.base() == base
                && plan.reads() == Reads { first, second }
                && has_ranges(plan.cut(), cut)
                && has_points(plan.added(), added)
        }
        _ => false,
    }
}

/// What happens before a plan, in a table.
#[derive(Clone, Copy)]
enum Act<'a> {
    Nothing,

    /// Adds points to a stream.
    Insert(u32, Pairs<'a>),

    /// Adds the next commit of an output.
    Refresh(u32),
}

/// Changes a board.
fn change(alloc: Global, board: &mut Board, act: Act<'_>) -> Result<(), Fail> {
    match act {
        Act::Nothing => Ok(()),
        Act::Insert(stream, pairs) => add(alloc, board, &insert(alloc, stream, pairs)?),
        Act::Refresh(stream) => refresh(alloc, board, stream),
    }
}

/// What happens, a stream, and what is then to be planned for it.
type Row<'a> = (Act<'a>, u32, Wanted<'a>);

/// Returns whether that is what is planned with any of these numbers of threads.
fn is_shared<R: Threads + Sync>(
    rt: &R,
    alloc: Global,
    snapshot: &Snapshot,
    stream: u32,
    wanted: Wanted<'_>,
) -> Result<bool, AllocError> {
    for threads in [0, 1, 2, 4, 16] {
        let next = next_plan_shared(rt, alloc, snapshot, stream, threads)?;
        if !is_wanted(&next, stream, wanted) {
            return Ok(false);
        }
    }
    Ok(true)
}

/// Returns whether what is planned for the stream of a row after its act is what is wanted.
fn holds<R: Threads + Sync>(
    rt: &R,
    alloc: Global,
    board: &mut Board,
    row: &Row<'_>,
) -> Result<bool, Fail> {
    let (act, stream, wanted) = row;
    change(alloc, board, *act)?;
    let snapshot = board.admit()?;
    let next = next_plan(alloc, &snapshot, *stream)?;
    let is_shared = is_shared(rt, alloc, &snapshot, *stream, *wanted)?;
    Ok(is_wanted(&next, *stream, *wanted) && is_shared)
}

/// Plays the rows of a table, and returns the number of the first one whose stream has another plan.
fn first_wrong<R: Threads + Sync>(
    rt: &R,
    alloc: Global,
    rows: &[Row<'_>],
) -> Result<Option<usize>, Fail> {
    let mut board = small(alloc)?;
    for (number, row) in rows.iter().enumerate() {
        if !holds(rt, alloc, &mut board, row)? {
            return Ok(Some(number));
        }
    }
    Ok(None)
}

/// Plans before and after they land.
const LANDED: &[Row<'static>] = &[
    (Act::Nothing, 0, Wanted::NotOutput),
    (Act::Nothing, 2, Wanted::NotOutput),
    (Act::Nothing, 4, Wanted::NotOutput),
    (Act::Nothing, u32::MAX, Wanted::NotOutput),
    (
        Act::Nothing,
        1,
        Wanted::Plan(0, (1, None), &[(0, 31)], &[(0, 10), (10, 30), (20, 50)]),
    ),
    (Act::Refresh(1), 1, Wanted::UpToDate(1)),
    (
        Act::Insert(0, &[(5, 1)]),
        1,
        Wanted::Plan(1, (2, None), &[(5, 16)], &[(5, 11), (10, 31)]),
    ),
    (Act::Nothing, 0, Wanted::NotOutput),
    (Act::Refresh(1), 1, Wanted::UpToDate(2)),
];

#[test]
fn plans_before_and_after_they_land(rt: HostRuntime) -> Result<(), Fail> {
    no_wrong(first_wrong(&rt, rt.alloc(), LANDED)?)
}

/// Plans of an output with two inputs.
const TWO_INPUTS: &[Row<'static>] = &[
    (
        Act::Nothing,
        3,
        Wanted::Plan(0, (1, Some(0)), &[(0, 1), (10, 11), (20, 21)], &[]),
    ),
    (Act::Refresh(3), 3, Wanted::UpToDate(1)),
    (
        Act::Insert(2, &[(10, 5), (15, 1)]),
        3,
        Wanted::Plan(1, (1, Some(1)), &[(10, 11), (15, 16)], &[(10, 15)]),
    ),
    (Act::Refresh(3), 3, Wanted::UpToDate(2)),
];

#[test]
fn plans_of_two_inputs(rt: HostRuntime) -> Result<(), Fail> {
    no_wrong(first_wrong(&rt, rt.alloc(), TWO_INPUTS)?)
}

/// A stream, and the version of its sight, if it has one.
const SIGHTS: &[(u32, Option<u64>)] = &[
    (0, None),
    (1, Some(1)),
    (2, None),
    (3, Some(0)),
    (4, None),
];

fn first_wrong_sight(snapshot: &Snapshot) -> Option<usize> {
    for (row, (stream, base)) in SIGHTS.iter().enumerate() {
        if sight(snapshot, *stream).map(|sight| sight.base()) != *base {
            return Some(row);
        }
    }
    None
}

#[test]
fn outputs_alone_have_a_sight(rt: HostRuntime) -> Result<(), Fail> {
    let alloc = rt.alloc();
    let mut board = small(alloc)?;
    refresh(alloc, &mut board, 1)?;
    no_wrong(first_wrong_sight(&board.admit()?))
}
