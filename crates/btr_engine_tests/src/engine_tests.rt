//! Tests of the board and of snapshots.
use crate::fixture::no_wrong;
use btr_base::{Bag, Point, Ranges};
use btr_engine::*;
use btr_hist::{Answer, At, Entry, Query, Rejection, Rows};
use btr_roll::RollStream;
use std::alloc::{AllocError, Global};
use std::test::Fail;

/// Returns a commit of three points to a stream, from a time on.
fn commit(alloc: Global, stream: u32, first: i64) -> Result<Entry, AllocError> {
    let mut points = Vec::new(alloc);
    for index in 0..3u32 {
        points.push(Point {
            time: first.wrapping_add(i64::from(index)),
            value: 1,
        })?;
    }
    Ok(Entry::Commit {
        stream,
        cut: Ranges::none(alloc),
        added: Bag::from_points(points),
    })
}

/// Adds an entry to a board, and returns the receipt.
fn add(alloc: Global, board: &mut Board, entry: &Entry) -> Result<Receipt, PushFault> {
    if board.entries() == u64::MAX {
        return Err(PushFault::Want);
    }
    let staged = board.stage(&Alone, alloc, entry, 4)?;
    Ok(board.accept(staged))
}

/// Returns the board of two streams, of which the second has a commit.
fn small(alloc: Global) -> Result<Board, Fail> {
    let entry = commit(alloc, 1, 0)?;
    let mut board = Board::empty();
    let is_first = add(alloc, &mut board, &Entry::Create { id: 7 }).is_ok();
    let is_second = add(alloc, &mut board, &Entry::Create { id: 8 }).is_ok();
    let is_added = add(alloc, &mut board, &entry).is_ok();
    if is_first && is_second && is_added {
        return Ok(board);
    }
    Err("an entry was refused".into())
}

/// Returns the latest version of a stream and the number of its points.
fn latest_points(
    alloc: Global,
    snapshot: &Snapshot,
    stream: u32,
) -> Result<Option<(u64, usize)>, AllocError> {
    let query = Query::Points {
        stream,
        from: 0,
        to: 100_000,
        at: At::Latest,
    };
    match snapshot.answer(alloc, &query)? {
        Answer::Found {
            version,
            rows: Rows::Points(points),
        } => Ok(Some((version, points.as_slice().len()))),
        _ => Ok(None),
    }
}

/// Adds a commit to stream 1, and returns whether it was accepted while a snapshot answered as before.
fn is_as_before(
    alloc: Global,
    board: &mut Board,
    snapshot: &Snapshot,
    first: i64,
) -> Result<bool, AllocError> {
    let entry = commit(alloc, 1, first)?;
    let is_added = add(alloc, board, &entry).is_ok();
    Ok(is_added && latest_points(alloc, snapshot, 1)? == Some((1, 3)))
}

/// Adds 300 commits, and returns the number of the first one that was refused or changed what a snapshot answers.
fn first_change(
    alloc: Global,
    board: &mut Board,
    snapshot: &Snapshot,
) -> Result<Option<usize>, AllocError> {
    for index in 0..300u32 {
        if !is_as_before(alloc, board, snapshot, 10 + i64::from(index))? {
            return Ok(Some(index as usize));
        }
    }
    Ok(None)
}

/// What a snapshot has of stream 1: its latest version and the number of its points, the entries, and the latest version again.
type Seen = (Option<(u64, usize)>, u64, Option<u64>);

fn seen(alloc: Global, snapshot: &Snapshot) -> Result<Seen, AllocError> {
    let points = latest_points(alloc, snapshot, 1)?;
    Ok((points, snapshot.entries(), snapshot.latest(1)))
}

/// Adds 300 commits beside a snapshot and one that is shared. Returns the number of the first commit that changed the shared one, and
/// what the first snapshot and a later one have.
fn seen_before_and_after(alloc: Global) -> Result<(Option<usize>, Seen, Seen), Fail> {
    let mut board = small(alloc)?;
    let snapshot = board.admit()?;
    let wrong = first_change(alloc, &mut board, &snapshot.share()?)?;
    let before = seen(alloc, &snapshot)?;
    let after = seen(alloc, &board.admit()?)?;
    Ok((wrong, before, after))
}

#[test]
fn a_snapshot_answers_as_before_after_later_commits(rt: HostRuntime) -> Result<(), Fail> {
    let (wrong, before, after) = seen_before_and_after(rt.alloc())?;
    assert!(rt; before == (Some((1, 3)), 3, Some(1)));
    assert!(rt; after == (Some((301, 903)), 303, Some(301)));
    no_wrong(wrong)
}

/// The number of streams in a snapshot, what it finds for three ids, and the latest versions of three streams.
type Streams = (u32, [Option<u32>; 3], [Option<u64>; 3]);

fn streams_of(alloc: Global) -> Result<Streams, Fail> {
    let snapshot = small(alloc)?.admit()?;
    Ok((
        snapshot.streams(),
        [snapshot.find(7), snapshot.find(8), snapshot.find(9)],
        [snapshot.latest(0), snapshot.latest(1), snapshot.latest(2)],
    ))
}

/// The points of a stream that is not there.
fn points_of_none(alloc: Global) -> Result<Option<(u64, usize)>, Fail> {
    let snapshot = small(alloc)?.admit()?;
    Ok(latest_points(alloc, &snapshot, 2)?)
}

#[test]
fn a_snapshot_has_streams_and_versions(rt: HostRuntime) -> Result<(), Fail> {
    let alloc = rt.alloc();
    let (streams, found, latest) = streams_of(alloc)?;
    assert!(rt; streams == 2);
    assert!(rt; found == [Some(0), Some(1), None]);
    assert!(rt; latest == [Some(0), Some(1), None]);
    assert!(rt; points_of_none(alloc)? == None);
    Ok(())
}

/// The numbers of the entries that made the versions 0 of both streams and version 1 of the second, and those of a version and of a stream
/// that are not there.
fn numbers(alloc: Global) -> Result<[Option<u64>; 5], Fail> {
    let board = small(alloc)?;
    Ok([
        board.number(0, 0),
        board.number(1, 0),
        board.number(1, 1),
        board.number(1, 2),
        board.number(2, 0),
    ])
}

#[test]
fn a_board_has_the_number_of_each_entry(rt: HostRuntime) -> Result<(), Fail> {
    assert!(rt; numbers(rt.alloc())? == [Some(1), Some(2), Some(3), None, None]);
    Ok(())
}

/// The id of a plain stream of a roll, the number of its entry, and of its version, if it has one, the number of the entry and the root.
type Rolled = (u128, u64, Option<(u64, u64)>);

/// What a roll has of a plain stream with one version at most.
fn rolled(stream: &RollStream) -> Option<Rolled> {
    let version = match stream.versions.as_slice() {
        [] => None,
        [version] => Some((version.entry, version.root)),
        _ => return None,
    };
    match stream.spec {
        None => Some((stream.id, stream.entry, version)),
        Some(_) => None,
    }
}

/// What the roll of the board has of its two streams, if it has two.
fn rolled_streams(alloc: Global) -> Result<Option<[Option<Rolled>; 2]>, Fail> {
    let board = small(alloc)?;
    let roll = board.roll(alloc)?;
    match roll.streams.as_slice() {
        [first, second] => Ok(Some([rolled(first), rolled(second)])),
        _ => Ok(None),
    }
}

#[test]
fn a_board_has_a_roll_of_its_streams(rt: HostRuntime) -> Result<(), Fail> {
    // the nodes of each entry are staged for the blocks from 4 on, so the leaf of the commit is block 4
    let second = (8, 2, Some((3, 4)));
    assert!(rt; rolled_streams(rt.alloc())? == Some([Some((7, 1, None)), Some(second)]));
    Ok(())
}

/// A stream, a version, and the number of its points, if it is there.
const TREES: &[(u32, u64, Option<u64>)] = &[
    (0, 0, Some(0)),
    (0, 1, None),
    (1, 0, Some(0)),
    (1, 1, Some(3)),
    (1, 2, None),
    (2, 0, None),
    (u32::MAX, u64::MAX, None),
];

fn first_wrong_tree(snapshot: &Snapshot) -> Option<usize> {
    for (row, (stream, version, count)) in TREES.iter().enumerate() {
        if snapshot.tree(*stream, *version).map(|tree| tree.count()) != *count {
            return Some(row);
        }
    }
    None
}

#[test]
fn a_snapshot_has_the_tree_of_each_version(rt: HostRuntime) -> Result<(), Fail> {
    let snapshot = small(rt.alloc())?.admit()?;
    no_wrong(first_wrong_tree(&snapshot))
}

/// Returns the board of as many streams as there may be.
fn full(alloc: Global) -> Result<Board, Fail> {
    let mut board = Board::empty();
    for number in 0..65536u32 {
        let id = u128::from(number) << 64;
        if add(alloc, &mut board, &Entry::Create { id }).is_err() {
            return Err("a stream was refused".into());
        }
    }
    Ok(board)
}

/// Creates three streams again, and returns the number of the first one that is not refused or not found.
fn first_not_found(alloc: Global, board: &mut Board) -> Option<usize> {
    for (row, number) in [0u32, 40_000, 65_535].iter().enumerate() {
        let id = u128::from(*number) << 64;
        let again = add(alloc, board, &Entry::Create { id });
        if again != Err(PushFault::Rejected(Rejection::StreamExists))
            || board.find(id) != Some(*number)
        {
            return Some(row);
        }
    }
    None
}

#[test]
fn the_limit_of_streams_is_kept(rt: HostRuntime) -> Result<(), Fail> {
    let alloc = rt.alloc();
    let mut board = full(alloc)?;
    let wrong = first_not_found(alloc, &mut board);
    let one_more = add(alloc, &mut board, &Entry::Create { id: 1 });
    let counts = (board.streams(), board.entries());
    assert!(rt; one_more == Err(PushFault::Rejected(Rejection::StreamLimit)));
    assert!(rt; counts == (65536, 65536));
    no_wrong(wrong)
}

/// Adds a commit to a stream.
fn add_commit(
    alloc: Global,
    board: &mut Board,
    stream: u32,
) -> Result<Result<Receipt, PushFault>, AllocError> {
    let entry = commit(alloc, stream, 0)?;
    Ok(add(alloc, board, &entry))
}

/// The result of an entry.
type Added = Result<Receipt, PushFault>;

/// Adds a commit to a stream that is not there, and to the last one. Returns the results, and the latest versions of the last two streams.
fn committed_to_the_last(alloc: Global) -> Result<([Added; 2], [Option<u64>; 2]), Fail> {
    let mut board = full(alloc)?;
    let refused = add_commit(alloc, &mut board, 65536)?;
    let accepted = add_commit(alloc, &mut board, 65535)?;
    let latest = [board.latest(65534), board.latest(65535)];
    Ok(([refused, accepted], latest))
}

#[test]
fn the_last_stream_takes_commits(rt: HostRuntime) -> Result<(), Fail> {
    let ([refused, accepted], latest) = committed_to_the_last(rt.alloc())?;
    let receipt = Receipt {
        number: 65537,
        stream: 65535,
        version: 1,
    };
    assert!(rt; refused == Err(PushFault::Rejected(Rejection::NoStream)));
    assert!(rt; accepted == Ok(receipt));
    assert!(rt; latest == [Some(0), Some(1)]);
    Ok(())
}
