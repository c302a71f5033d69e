//! Changes between two versions by their trees, and point by point.

use super::fixture::{Counts, after, have_bounds, points_from, ranges_of};
use btr_base::{Bag, END, FIRST, Point, Range};
use btr_diff::{changes, changes_with_lead};
use btr_tree::{Steps, Tree};
use std::alloc::{AllocError, Global};
use std::test::Fail;

/// One version: its tree and points, and how many nodes its commit wrote.
#[derive(Drop)]
struct Version {
    tree: Tree,
    bag: Bag,
    nodes: u64,
}

/// A commit: the bounds that it cuts (none if they are equal), and the number of points that it adds, with the time and the
/// value of the first and the step between times. Values rise by 1.
struct Commit(i64, i64, i64, i64, i64, i64);

/// The version after a commit.
fn next(alloc: Global, last: &Version, commit: &Commit, version: u64) -> Result<Version, Fail> {
    let Commit(from, to, count, first, step, value) = *commit;
    let cut = ranges_of(alloc, &[(from, to)])?;
    let added = Bag::from_points(points_from(alloc, first, step, count, value)?);
    let bag = last.bag.outside(alloc, &cut)?.merge(alloc, &added)?;
    let (tree, nodes) = after(alloc, &last.tree, &cut, &added, version)?;
    Ok(Version { tree, bag, nodes })
}

/// The versions of a stream, from the empty one on.
fn versions_after(alloc: Global, commits: &[Commit]) -> Result<Vec<Version>, Fail> {
    let mut versions = Vec::new(alloc);
    let mut last = Version {
        tree: Tree::empty(),
        bag: Bag::from_points(Vec::new(alloc)),
        nodes: 0,
    };
    for commit in commits {
        let version = next(alloc, &last, commit, versions.len() as u64 + 1)?;
        versions.push(last)?;
        last = version;
    }
    versions.push(last)?;
    Ok(versions)
}

/// How often a point is in a list.
fn copies(point: &Point, points: &[Point]) -> usize {
    points.iter().filter(|other| *other == point).count()
}

/// Adds the starts of the slots of the points of one list that are in another more or less often.
fn add_changed(
    points: &[Point],
    other: &[Point],
    width: i64,
    starts: &mut Vec<i64>,
) -> Result<(), AllocError> {
    for point in points {
        if copies(point, points) != copies(point, other) {
            let offset = point
                .time
                .wrapping_sub(FIRST)
                .checked_rem(width)
                .unwrap_or(0);
            starts.push(point.time.wrapping_sub(offset))?;
        }
    }
    Ok(())
}

/// The starts of the slots in which two bags differ, point by point.
fn plain_starts(
    alloc: Global,
    old: &[Point],
    new: &[Point],
    width: i64,
) -> Result<Vec<i64>, AllocError> {
    let mut starts = Vec::new(alloc);
    add_changed(old, new, width, &mut starts)?;
    add_changed(new, old, width, &mut starts)?;
    starts.sort_unstable();
    starts.dedup();
    Ok(starts)
}

/// The starts of the slots that ranges are made of.
fn starts_of(alloc: Global, ranges: &[Range], width: i64) -> Result<Vec<i64>, AllocError> {
    let mut starts = Vec::new(alloc);
    for range in ranges {
        let count = range
            .to
            .wrapping_sub(range.from)
            .checked_div(width)
            .unwrap_or(0);
        for i in 0..count {
            starts.push(range.from.wrapping_add(i.wrapping_mul(width)))?;
        }
    }
    Ok(starts)
}

/// The nodes that the commits of versions wrote.
fn nodes_of(versions: &[Version]) -> u64 {
    let mut nodes: u64 = 0;
    for version in versions {
        nodes = nodes.saturating_add(version.nodes);
    }
    nodes
}

/// Whether the changed slots between two versions by their trees are those point by point, after visits of at most this many
/// nodes.
fn are_changed(
    alloc: Global,
    old: &Version,
    new: &Version,
    since: u64,
    p: u8,
    most: u64,
) -> Result<bool, Fail> {
    if p > 62 {
        return Err("slots wider than the domain".into());
    }
    let width = 1 << p;
    let mut steps = Steps::<Counts>::new();
    let found = changes(
        alloc,
        old.tree.uncounted::<Counts>(),
        &new.tree,
        since,
        p,
        &mut steps,
    )?;
    let starts = starts_of(alloc, found.as_slice(), width)?;
    let plain = plain_starts(alloc, old.bag.as_slice(), new.bag.as_slice(), width)?;
    Ok(starts == plain && steps.count() <= most)
}

/// Whether they are for each width.
fn widths_agree(alloc: Global, versions: &[Version], older: usize) -> Result<bool, Fail> {
    let [old, rest @ ..] = versions else {
        return Ok(false);
    };
    let Some(new) = rest.last() else {
        return Ok(true);
    };
    let most = nodes_of(rest).saturating_add(1);
    for p in [0, 2, 10, 62] {
        if !are_changed(alloc, old, new, older as u64, p, most)? {
            return Ok(false);
        }
    }
    Ok(true)
}

/// One leaf, an inner node at each height down to 1, and more of them far away; the same points again, one of them twice, and
/// one moved far away; few points left, in one leaf, then none, and some.
const COMMITS: &[Commit] = &[
    Commit(0, 0, 252, 0, 1, 0),
    Commit(0, 0, 1, 252, 1, 0),
    Commit(0, 0, 260, 1 << 40, 1 << 30, 0),
    Commit(0, 50, 50, 0, 1, 0),
    Commit(0, 0, 1, 7, 1, 7),
    Commit(60, 61, 1, 1 << 50, 1, 60),
    Commit(100, END, 0, 0, 1, 0),
    Commit(FIRST, END, 0, 0, 1, 0),
    Commit(0, 0, 9, 3, 5, 1),
];

/// Whether the changes from each version to the last one are right.
fn older_agree(alloc: Global, versions: &[Version]) -> Result<bool, Fail> {
    for older in 0..versions.len() {
        if !widths_agree(alloc, &versions[older..], older)? {
            return Ok(false);
        }
    }
    Ok(true)
}

#[test]
fn changes_are_those_point_by_point(rt: HostRuntime) -> Result<(), Fail> {
    let versions = versions_after(rt.alloc(), COMMITS)?;
    assert!(rt; versions.len() == 10);
    for newer in 0..versions.len() {
        assert!(rt; older_agree(rt.alloc(), &versions[..=newer])?);
    }
    Ok(())
}

/// Whether the changes between two versions are one range with these bounds.
fn are_one_range(
    alloc: Global,
    old: &Version,
    new: &Version,
    p: u8,
    bounds: (i64, i64),
    steps: &mut Steps<Counts>,
) -> Result<bool, Fail> {
    if p > 62 {
        return Err("slots wider than the domain".into());
    }
    let found = changes(
        alloc,
        old.tree.uncounted::<Counts>(),
        &new.tree,
        1,
        p,
        steps,
    )?;
    Ok(have_bounds(found.as_slice(), &[bounds]))
}

const THREE: &[Commit] = &[
    Commit(0, 0, 5, 0, 1, 0),
    Commit(3, 4, 0, 0, 1, 0),
    Commit(0, 0, 1, 4, 1, 4),
];

#[test]
fn changes_of_three_commits(rt: HostRuntime) -> Result<(), Fail> {
    let versions = versions_after(rt.alloc(), THREE)?;
    let [_, first, second, third] = versions.as_slice() else {
        return Err("four versions".into());
    };
    let mut steps = Steps::<Counts>::new();
    assert!(rt; are_one_range(rt.alloc(), first, third, 2, (0, 8), &mut steps)?);
    assert!(rt; are_one_range(rt.alloc(), first, second, 0, (3, 4), &mut steps)?);
    assert!(rt; steps.count() == 2);
    Ok(())
}

/// In slots of 4 ns the changes after the first commit of `APART` are (0, 4), (8, 16) and (60, 64). Each row is a lead, and these
/// with the lead.
const LED: &[(u64, &[(i64, i64)])] = &[
    (0, &[(0, 4), (8, 16), (60, 64)]),
    (3, &[(0, 7), (8, 19), (60, 67)]),
    (4, &[(0, 20), (60, 68)]),
    (43, &[(0, 59), (60, 107)]),
    (44, &[(0, 108)]),
    (u64::MAX, &[(0, END)]),
];

/// Points at 0 to 19; then none at 1 and at 9, two at 12 and one at 63.
const APART: &[Commit] = &[
    Commit(0, 0, 20, 0, 1, 0),
    Commit(1, 2, 0, 0, 1, 0),
    Commit(9, 10, 0, 0, 1, 0),
    Commit(0, 0, 1, 12, 1, 12),
    Commit(0, 0, 1, 63, 1, 63),
];

#[test]
fn changes_with_leads(rt: HostRuntime) -> Result<(), Fail> {
    let versions = versions_after(rt.alloc(), APART)?;
    let [_, first, .., last] = versions.as_slice() else {
        return Err("six versions".into());
    };
    for (lead, want) in LED {
        let mut steps = Steps::<Counts>::new();
        let found = changes_with_lead(
            rt.alloc(),
            first.tree.uncounted::<Counts>(),
            &last.tree,
            1,
            2,
            *lead,
            &mut steps,
        )?;
        assert!(rt; have_bounds(found.as_slice(), *want));
        assert!(rt; steps.count() == 1);
    }
    Ok(())
}
