//! The times at which a cut is parted.
ghost use Rattle.std.specs.Prelude.{◌≡◌, ◌+◌, ◌-◌, ◌/◌, ◌<◌, ◌≤◌, length, min, IfOk};

use btr_base::{Range, Ranges};
use btr_tree::{Label, Steps, Tree};
use btr_window::aggregate;
use std::alloc::{AllocError, Global};

/// The least number of points of a part: the time that they take is worth a thread.
const LEAST_POINTS: u64 = 5_000;

/// The greatest number of parts: no more pieces are worked on at once.
const MOST_PARTS: u64 = 64;

/// The label of the counters of walks that count points.
struct CountWalk;

impl Label for CountWalk {}

/// Times that part a cut into as many parts as are worth a thread, at most `threads`, with about the same number of points of the
/// tree. There are none if one part is enough.
///
/// It takes time logarithmic in the points of the tree for each range of the cut, and for each part some sixty times this at most.
/// An `Err` means out of memory.
pub(crate) fn split_times(
    alloc: Global,
    tree: &Tree,
    cut: &Ranges,
    threads: usize,
) -> Result<Vec<i64>, AllocError>
    ensures most { IfOk result (λ times. length times.items < 64) }
    ensures threads { IfOk result (λ times. length times.items ≤ threads - 1) }
{
    let mut times = Vec::new(alloc);
    if part_count(tree.count(), threads) <= 1 {
        return Ok(times);
    }
    let ends = counts(alloc, tree, cut.as_slice())?;
    let all = ends.last().copied().unwrap_or(0);
    let parts = part_count(all, threads);
    for part in 1..parts {
        let place = (all / parts).saturating_mul(part);
        times.push(time_after(tree, cut.as_slice(), &ends, place))?;
    }
    Ok(times)
}

/// How many parts are made of this many points.
fn part_count(points: u64, threads: usize) -> u64
    ensures { result ≡ min (min (points / 5000) 64) threads }
{
    (points / LEAST_POINTS).min(MOST_PARTS).min(threads as u64)
}

/// How many points of the tree lie in the ranges up to each of them.
fn counts(alloc: Global, tree: &Tree, ranges: &[Range]) -> Result<Vec<u64>, AllocError> {
    let mut ends = Vec::with_capacity(alloc, ranges.len())?;
    let mut steps = Steps::<CountWalk>::new();
    let mut all: u64 = 0;
    for range in ranges {
        let part = aggregate(tree, *range, &mut steps);
        all = all.saturating_add(part.count);
        ends.push(all)?;
    }
    Ok(ends)
}

/// A time before which about this many points of the tree lie in the ranges, from how many lie in the ranges up to each of them.
fn time_after(tree: &Tree, ranges: &[Range], ends: &[u64], place: u64) -> i64 {
    let index = ends.partition_point(|end| *end <= place);
    let before = match index.checked_sub(1) {
        Some(last) => ends.get(last).copied().unwrap_or(0),
        None => 0,
    };
    match ranges.get(index) {
        Some(range) => time_in(tree, *range, place.saturating_sub(before)),
        None => 0,
    }
}

/// A time in a range before which about this many points of the tree lie in it, by bisection.
fn time_in(tree: &Tree, range: Range, place: u64) -> i64 {
    let mut steps = Steps::<CountWalk>::new();
    let mut low = range.from;
    let mut high = range.to;
    for _ in 0..62 {
        let middle = low / 2 + high / 2;
        let count = count_between(tree, range.from, middle, &mut steps);
        if count.abs_diff(place) < LEAST_POINTS / 16 {
            return middle;
        }
        if count < place {
            low = middle;
        } else {
            high = middle;
        }
    }
    low
}

/// How many points of the tree lie between two times, and 0 if there is no such range.
fn count_between(tree: &Tree, from: i64, to: i64, steps: &mut Steps<CountWalk>) -> u64 {
    match Range::new(from, to) {
        Some(range) => aggregate(tree, range, steps).count,
        None => 0,
    }
}
