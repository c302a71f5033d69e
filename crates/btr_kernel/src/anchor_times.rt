//! The anchors of an output: the times at which it may have a point.
ghost use Rattle.std.specs.Prelude.{◌≡◌, ◌+◌, ◌<◌, true, false, ◌∷◌, drop, length, slice_index_or, IfOk};
ghost use Rattle.std.specs.List.{filter};
ghost use Rattle.btr_base.specs.Bag.{IsInOrder};
ghost use Rattle.btr_base.specs.Range.{covered};
ghost use Rattle.btr_tree.specs.History.{bag};
ghost use Rattle.btr_tree.specs.Root.{AtEachTree};
ghost use Rattle.btr_hist.specs.Kernel.{anchors as anchors_of};

use crate::gather::gather;
use btr_base::{Point, Ranges};
use btr_tree::Tree;
use std::alloc::{AllocError, Global};

/// Returns the anchors of an output that ranges cover: the distinct times of the points of its first input, in nanoseconds, in
/// order.
///
/// It reads the points of the ranges from the tree and goes over them once. The cost is that of each range's points, and of the
/// nodes on the way to its two ends. It takes memory for these points. An `Err` means out of memory.
pub fn anchors(alloc: Global, first: &Tree, ranges: &Ranges) -> Result<Vec<i64>, AllocError>
    ensures { IfOk result (λ v. AtEachTree first.now (λ h. v.items ≡ filter (covered ranges.now) (anchors_of (bag h)))) }
{
    let points = gather(alloc, first, ranges)?;
    let times = anchors_in(alloc, &points, ranges)?;
    Ok(times)
}

/// The distinct times of points in order that ranges cover. It takes one pass over the points, and for each time a search in the
/// ranges. An `Err` means out of memory.
pub(crate) fn anchors_in(
    alloc: Global,
    points: &[Point],
    ranges: &Ranges,
) -> Result<Vec<i64>, AllocError>
    requires { IsInOrder points.now }
    ensures { IfOk result (λ v. v.items ≡ filter (covered ranges.now) (anchors_of points.now)) }
{
    let mut times = Vec::with_capacity(alloc, points.len())?;
    for i in 0..points.len() {
        let time = points[i].time;
        if is_last_at(points, i) && ranges.covers(time) {
            times.push(time)?;
        }
    }
    Ok(times)
}

/// Whether no point after this one has its time.
fn is_last_at(points: &[Point], i: usize) -> bool
    requires order { IsInOrder points.now }
    requires within { i < length points.now }
    ensures last { (d : _) → result ≡ true
        → anchors_of (drop i points.now) ≡ (slice_index_or points.now i d).time ∷ anchors_of (drop (i + 1) points.now) }
    ensures again { result ≡ false → anchors_of (drop i points.now) ≡ anchors_of (drop (i + 1) points.now) }
{
    match points.get(i + 1) {
        Some(next) => next.time != points[i].time,
        None => true,
    }
}
