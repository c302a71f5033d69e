//! Tables of tests, and trees after commits.

use btr_base::{Bag, Point, Range, Ranges, are_in_domain};
use btr_tree::{Applied, Label, Steps, Tree, TreeCommit};
use std::alloc::{AllocError, Global};
use std::test::Fail;

/// The label of the counters of these tests.
pub(crate) struct Counts;

impl Label for Counts {}

/// The greatest block that the nodes of a commit may begin with: `2^33`.
const MOST_BLOCKS: u64 = 8589934592;

/// Points as pairs of a time and a value, and ranges as pairs of bounds.
pub(crate) type Pairs = &'static [(i64, i64)];

/// Points with equal steps between their times: the first time, the step and the number.
pub(crate) type Runs = &'static [(i64, i64, i64)];

/// A row of a table.
pub(crate) trait Row {
    /// Whether what the row says is so.
    fn holds(&self, alloc: Global) -> Result<bool, Fail>;
}

/// Fails with the number of the first row that does not hold.
pub(crate) fn all_hold<R: Row>(alloc: Global, rows: &[R]) -> Result<(), Fail> {
    for (number, row) in rows.iter().enumerate() {
        if !row.holds(alloc)? {
            return Err(Fail::new(format_args!("row {number}")));
        }
    }
    Ok(())
}

/// The points of these times and values, in this order.
pub(crate) fn points_of(alloc: Global, pairs: &[(i64, i64)]) -> Result<Vec<Point>, AllocError> {
    let mut points = Vec::new(alloc);
    for &(time, value) in pairs {
        points.push(Point { time, value })?;
    }
    Ok(points)
}

/// The bag of the points of these times and values.
pub(crate) fn bag_of(alloc: Global, pairs: &[(i64, i64)]) -> Result<Bag, AllocError> {
    Ok(Bag::from_points(points_of(alloc, pairs)?))
}

/// The bag of the points of runs, each with values from -100 on.
pub(crate) fn bag_of_runs(alloc: Global, runs: &[(i64, i64, i64)]) -> Result<Bag, AllocError> {
    let mut points = Vec::new(alloc);
    for (first, step, count) in runs {
        add_run(&mut points, *first, *step, *count)?;
    }
    Ok(Bag::from_points(points))
}

fn add_run(points: &mut Vec<Point>, first: i64, step: i64, count: i64) -> Result<(), AllocError> {
    for i in 0..count {
        points.push(Point {
            time: first.wrapping_add(i.wrapping_mul(step)),
            value: i.wrapping_sub(100),
        })?;
    }
    Ok(())
}

/// Points `step` apart from a time on, with values that rise by 1.
pub(crate) fn points_from(
    alloc: Global,
    first: i64,
    step: i64,
    count: i64,
    value: i64,
) -> Result<Vec<Point>, AllocError> {
    let mut points = Vec::new(alloc);
    for i in 0..count {
        points.push(Point {
            time: first.wrapping_add(i.wrapping_mul(step)),
            value: value.wrapping_add(i),
        })?;
    }
    Ok(points)
}

/// The times of these ranges. Bounds that are those of no range are left out.
pub(crate) fn ranges_of(alloc: Global, pairs: &[(i64, i64)]) -> Result<Ranges, AllocError> {
    let mut ranges = Ranges::none(alloc);
    for pair in pairs {
        if let Some(range) = Range::new(pair.0, pair.1) {
            ranges.add(range)?;
        }
    }
    Ok(ranges)
}

/// Whether points have these times and values.
pub(crate) fn are_pairs(points: &[Point], pairs: &[(i64, i64)]) -> bool {
    points.len() == pairs.len()
        && points.iter().zip(pairs).all(|(point, pair)| point.time == pair.0
            && point.value == pair.1)
}

/// Whether ranges have these bounds.
pub(crate) fn have_bounds(ranges: &[Range], pairs: &[(i64, i64)]) -> bool {
    ranges.len() == pairs.len()
        && ranges
            .iter()
            .zip(pairs)
            .all(|(range, pair)| range.from == pair.0 && range.to == pair.1)
}

/// The tree after one more commit, and the nodes that it wrote, for the blocks from `first` on.
pub(crate) fn applied(
    alloc: Global,
    tree: &Tree,
    cut: &Ranges,
    added: &Bag,
    version: u64,
    first: u64,
) -> Result<Applied, Fail> {
    if !are_in_domain(added.as_slice()) {
        return Err("a time outside the domain".into());
    }
    if first < 1 || first > MOST_BLOCKS {
        return Err("a block that no commit begins with".into());
    }
    let commit = TreeCommit {
        cut,
        added,
        version,
        first,
    };
    match tree.apply(alloc, &commit, &mut Steps::<Counts>::new()) {
        Ok(applied) => Ok(applied),
        Err(_) => Err("no commit".into()),
    }
}

/// The tree after one more commit, and the number of nodes that it wrote.
pub(crate) fn after(
    alloc: Global,
    tree: &Tree,
    cut: &Ranges,
    added: &Bag,
    version: u64,
) -> Result<(Tree, u64), Fail> {
    let applied = applied(alloc, tree, cut, added, version, 4)?;
    Ok((applied.tree, applied.nodes.len() as u64))
}
