//! Inserts into a feed, and the points that it hands out.

use btr_base::{END, FIRST, MAX_COMMIT_POINTS, Point};
use btr_feed::{Feed, FeedFault, Held};
use std::alloc::{AllocError, Global};
use std::test::Fail;

/// A number of points at the times from 0 on, the times of further points, and the answer to their insert.
struct Insert(i64, &'static [i64], Result<Held, FeedFault>);

/// The points of an insert. Each has the same value as its place.
fn points_of(alloc: Global, insert: &Insert) -> Result<Vec<Point>, AllocError> {
    let mut points = Vec::new(alloc);
    for time in 0..insert.0 {
        points.push(Point { time, value: time })?;
    }
    let mut value = insert.0;
    for time in insert.1 {
        points.push(Point { time: *time, value })?;
        value = value.wrapping_add(1);
    }
    Ok(points)
}

/// Whether an insert has its answer.
fn is_answered(alloc: Global, feed: &mut Feed, insert: &Insert) -> Result<bool, AllocError> {
    let points = points_of(alloc, insert)?;
    Ok(feed.insert(&points) == insert.2)
}

/// Makes inserts, and fails with the number of the first one that has another answer.
fn all_answered(alloc: Global, feed: &mut Feed, inserts: &[Insert]) -> Result<(), Fail> {
    for (number, insert) in inserts.iter().enumerate() {
        if !is_answered(alloc, feed, insert)? {
            return Err(Fail::new(format_args!("insert {number}")));
        }
    }
    Ok(())
}

/// Whether points have these times.
fn have_times(points: &[Point], times: &[i64]) -> bool {
    points.len() == times.len()
        && points
            .iter()
            .zip(times)
            .all(|(point, time)| point.time == *time)
}

const INSERTS: &[Insert] = &[
    Insert(0, &[], Ok(Held::Buffered(0))),
    Insert(0, &[30, 10], Ok(Held::Buffered(2))),
    Insert(0, &[10], Ok(Held::Buffered(3))),
    Insert(0, &[40, END, 50], Err(FeedFault::OutOfDomain { time: END })),
    Insert(
        0,
        &[END + 1, FIRST - 1, END],
        Err(FeedFault::OutOfDomain { time: FIRST - 1 }),
    ),
    Insert(
        0,
        &[END + 9, END + 3, END + 5],
        Err(FeedFault::OutOfDomain { time: END + 3 }),
    ),
    Insert(0, &[], Ok(Held::Buffered(3))),
    Insert(0, &[FIRST], Ok(Held::Due(4))),
    Insert(0, &[END - 1, 20], Ok(Held::Due(6))),
    Insert(0, &[], Ok(Held::Due(6))),
];

/// A feed of stream 7 from four points on, after `INSERTS`.
fn fed(alloc: Global) -> Result<Feed, Fail> {
    let mut feed = Feed::new(alloc, 7, 4);
    all_answered(alloc, &mut feed, INSERTS)?;
    Ok(feed)
}

#[test]
fn points_wait_until_they_are_due(rt: HostRuntime) -> Result<(), Fail> {
    let feed = fed(rt.alloc())?;
    assert!(rt; feed.stream() == 7 && feed.threshold() == 4 && feed.len() == 6);
    Ok(())
}

#[test]
fn points_are_taken_and_put_back(rt: HostRuntime) -> Result<(), Fail> {
    let mut feed = fed(rt.alloc())?;
    let points = feed.take();
    assert!(rt; have_times(&points, &[30, 10, 10, FIRST, END - 1, 20]));
    assert!(rt; feed.is_empty());
    feed.put_back(points);
    all_answered(rt.alloc(), &mut feed, &[Insert(0, &[60], Ok(Held::Due(7)))])?;
    assert!(rt; have_times(&feed.take(), &[30, 10, 10, FIRST, END - 1, 20, 60]));
    Ok(())
}

#[test]
fn points_are_discarded(rt: HostRuntime) -> Result<(), Fail> {
    let mut feed = fed(rt.alloc())?;
    drop(feed.take());
    all_answered(
        rt.alloc(),
        &mut feed,
        &[Insert(0, &[1, 2], Ok(Held::Buffered(2)))],
    )?;
    feed.discard();
    all_answered(
        rt.alloc(),
        &mut feed,
        &[Insert(0, &[3], Ok(Held::Buffered(1)))],
    )
}

const UP_TO_A_COMMIT: &[Insert] = &[
    Insert(65535, &[], Ok(Held::Buffered(65535))),
    Insert(0, &[1, 2], Err(FeedFault::TooMany { count: 65537 })),
    Insert(0, &[1, END], Err(FeedFault::OutOfDomain { time: END })),
    Insert(65535, &[], Err(FeedFault::TooMany { count: 131070 })),
    Insert(0, &[1], Ok(Held::Due(65536))),
    Insert(0, &[1], Err(FeedFault::TooMany { count: 65537 })),
    Insert(0, &[], Ok(Held::Due(65536))),
];

#[test]
fn a_feed_holds_one_commit_at_most(rt: HostRuntime) -> Result<(), Fail> {
    let mut feed = Feed::new(rt.alloc(), 0, 65536);
    assert!(rt; MAX_COMMIT_POINTS == 65536);
    all_answered(rt.alloc(), &mut feed, UP_TO_A_COMMIT)?;
    assert!(rt; feed.len() == 65536);
    Ok(())
}
