//! Ranges and nearest points of trees of every shape, against plain lists.

use super::fixture::{Counts, after, points_from, ranges_of};
use btr_base::{Bag, END, FIRST, Point, Range, Toward};
use btr_scan::{append_range, nearest, range};
use btr_tree::{Steps, Tree};
use std::alloc::{AllocError, Global};
use std::test::Fail;

/// A version's tree, and its points as a list.
#[derive(Drop)]
struct Version {
    tree: Tree,
    kept: Bag,
}

/// A commit: the number of points that it adds, with the time of the first and the step between times, the bounds of its cut
/// (none if they are equal), and the number of points that are there after it.
struct Commit(i64, i64, i64, i64, i64, usize);

/// The version after a commit, if it then has as many points as the commit says.
fn next(alloc: Global, old: &Version, commit: &Commit, version: u64) -> Result<Version, Fail> {
    let Commit(count, first, step, from, to, points) = *commit;
    let cut = ranges_of(alloc, &[(from, to)])?;
    let added = Bag::from_points(points_from(alloc, first, step, count, 0)?);
    let kept = old.kept.outside(alloc, &cut)?.merge(alloc, &added)?;
    if kept.as_slice().len() != points {
        return Err("another number of points".into());
    }
    let (tree, _) = after(alloc, &old.tree, &cut, &added, version)?;
    Ok(Version { tree, kept })
}

const COMMITS: &[Commit] = &[
    Commit(1, 0, 1, 0, 0, 1),
    // a full leaf, and nodes of all heights for one point more
    Commit(251, 1, 1, 0, 0, 252),
    Commit(1, 252, 1, 0, 0, 253),
    // nodes of all heights in the next slot of the root too, which begins 2^56 after 0
    Commit(253, 72057594037927937, 1, 0, 0, 506),
    // a point twice
    Commit(1, 0, 1, 0, 0, 507),
    // the end of the one slot and the begin of the other removed, and then so many that a leaf is left
    Commit(0, 0, 0, 100, 72057594037928037, 254),
    Commit(0, 0, 0, 0, 50, 203),
    // all
    Commit(0, 0, 0, FIRST, END, 0),
    // three levels: points 2^48 apart
    Commit(300, 0, 281474976710656, 0, 0, 300),
    // many points at one time, the last of the domain
    Commit(252, END - 1, 0, 0, 0, 552),
    // the first times of the domain, and a gap from 2^54 on
    Commit(3, FIRST, 1, 18014398509481984, 72057594037927937, 362),
];

/// Versions of one stream, with a tree of each shape.
fn versions(alloc: Global) -> Result<Vec<Version>, Fail> {
    let mut all = Vec::new(alloc);
    let mut last = Version {
        tree: Tree::empty(),
        kept: Bag::from_points(Vec::new(alloc)),
    };
    for commit in COMMITS {
        let version = next(alloc, &last, commit, all.len() as u64 + 1)?;
        all.push(last)?;
        last = version;
    }
    all.push(last)?;
    Ok(all)
}

/// Times at the edges of spans, of cuts and of the domain.
const EDGES: [i64; 13] = [
    i64::MIN,
    FIRST,
    0,
    4,
    100,
    253,
    256,
    281474976710656,
    18014398509481984,
    72057594037927936,
    72057594037928190,
    END,
    i64::MAX,
];

/// Appends a time, the one before and the one after.
fn push_around(times: &mut Vec<i64>, time: i64) -> Result<(), AllocError> {
    times.push(time.saturating_sub(1))?;
    times.push(time)?;
    times.push(time.saturating_add(1))?;
    Ok(())
}

/// Times at, before and after edges.
fn around_edges(alloc: Global) -> Result<Vec<i64>, AllocError> {
    let mut times = Vec::new(alloc);
    for time in EDGES {
        push_around(&mut times, time)?;
    }
    Ok(times)
}

/// Times at, before and after edges and points.
fn around_points(alloc: Global, points: &[Point]) -> Result<Vec<i64>, AllocError> {
    let mut times = around_edges(alloc)?;
    for point in points {
        push_around(&mut times, point.time)?;
    }
    Ok(times)
}

/// The points of a list from a time up to, and without, another. It mirrors `within` of btr_base's `Bag`.
fn plain_range(
    alloc: Global,
    points: &[Point],
    from: i64,
    to: i64,
) -> Result<Vec<Point>, AllocError> {
    let mut rows = Vec::new(alloc);
    for point in points {
        if from <= point.time && point.time < to {
            rows.push(*point)?;
        }
    }
    Ok(rows)
}

/// The first point at or after a time of a list in order, or the last one before it. It mirrors btr_base's `Nearest`.
fn plain_nearest(points: &[Point], time: i64, toward: Toward) -> Option<Point> {
    let mut before = None;
    for point in points {
        if point.time >= time {
            return match toward {
                Toward::Forward => Some(*point),
                Toward::Backward => before,
            };
        }
        before = Some(*point);
    }
    match toward {
        Toward::Forward => None,
        Toward::Backward => before,
    }
}

/// Whether the points of a range are those of the list.
fn is_range(alloc: Global, version: &Version, bounds: Range) -> Result<bool, AllocError> {
    let rows = range(alloc, &version.tree, bounds)?;
    let want = plain_range(alloc, version.kept.as_slice(), bounds.from, bounds.to)?;
    Ok(rows == want)
}

/// Whether they are for each two times that are bounds of a range.
fn are_ranges(alloc: Global, version: &Version, times: &[i64]) -> Result<bool, AllocError> {
    for from in times {
        for to in times {
            if let Some(bounds) = Range::new(*from, *to) {
                if !is_range(alloc, version, bounds)? {
                    return Ok(false);
                }
            }
        }
    }
    Ok(true)
}

#[test]
fn ranges_of_every_shape(rt: HostRuntime) -> Result<(), Fail> {
    let times = around_edges(rt.alloc())?;
    for version in &versions(rt.alloc())? {
        assert!(rt; are_ranges(rt.alloc(), version, &times)?);
    }
    Ok(())
}

/// A point that stands in a list before others are appended to it.
const KEPT: Point = Point {
    time: END,
    value: -1,
};

/// The kept point, and after it the points of two ranges, appended one range after the other.
fn appended(
    alloc: Global,
    tree: &Tree,
    first: Range,
    second: Range,
) -> Result<Vec<Point>, AllocError> {
    let mut rows = Vec::new(alloc);
    rows.push(KEPT)?;
    append_range(tree, first, &mut rows)?;
    append_range(tree, second, &mut rows)?;
    Ok(rows)
}

/// Whether the points of the list after the kept one are those of the version.
fn follow_kept(rows: &[Point], version: &Version) -> bool {
    match rows.split_first() {
        Some((kept, others)) => *kept == KEPT && others == version.kept.as_slice(),
        None => false,
    }
}

#[test]
fn ranges_appended(rt: HostRuntime) -> Result<(), Fail> {
    let first = Range::new(FIRST, 253).ok_or("no range")?;
    let second = Range::new(253, END).ok_or("no range")?;
    for version in &versions(rt.alloc())? {
        let rows = appended(rt.alloc(), &version.tree, first, second)?;
        assert!(rt; follow_kept(&rows, version));
    }
    Ok(())
}

/// The number of nodes that are visited for the nearest point, if it is that of the list and they are as few as may be.
fn visited(alloc: Global, version: &Version, time: i64, toward: Toward) -> Option<u64> {
    let mut steps = Steps::<Counts>::new();
    let got = nearest(&version.tree, time, toward, &mut steps);
    let count = steps.count();
    let is_nearest = got == plain_nearest(version.kept.as_slice(), time, toward);
    (is_nearest && count <= 21 && (got.is_none() || count >= 1)).then_some(count)
}

/// The greatest number of nodes that are visited for a nearest point, if each is right.
fn most_visited(alloc: Global, version: &Version) -> Result<Option<u64>, AllocError> {
    let times = around_points(alloc, version.kept.as_slice())?;
    let mut most = 0;
    for time in &times {
        for toward in [Toward::Forward, Toward::Backward] {
            let Some(count) = visited(alloc, version, *time, toward) else {
                return Ok(None);
            };
            most = most.max(count);
        }
    }
    Ok(Some(most))
}

#[test]
fn nearest_of_every_shape(rt: HostRuntime) -> Result<(), Fail> {
    let mut most = 0;
    for version in &versions(rt.alloc())? {
        let count = most_visited(rt.alloc(), version)?;
        most = most.max(count.ok_or("another point or too many nodes")?);
    }
    // down to a bottom span that has none, and down to another in the next slot of the root
    assert!(rt; most == 21);
    Ok(())
}
