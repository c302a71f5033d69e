//! The slots in which two lists of points differ.
ghost use Rattle.std.specs.Prelude.{◌≡◌, ◌<◌, ◌≤◌, ◌-◌, ◌+◌, ◌⊎◌, ◌<ℤ◌, ◌≤ℤ◌, int_lt, not};
ghost use Rattle.std.specs.Prelude.{[], ◌++◌, length, filter, MatchOption, OnOk, IsTrue, ◌↔◌};
ghost use Rattle.btr_base.specs.declared.point.Point.{Point as PointSpec};
ghost use Rattle.btr_base.specs.Bag.{IsInOrder};
ghost use Rattle.btr_base.specs.Point.{AreInDomain};
ghost use Rattle.btr_tree.specs.EachHistory.{points_in as points_of_span};
ghost use Rattle.btr_diff.specs.Comparison.{AddsChangedSlots, IsFirstTime, point_time};

use crate::comparison::Comparison;
use btr_base::{Point, Ranges, Span, points_between, slot_around};
use std::alloc::AllocError;

/// Adds to `out` the aligned slots of `2^p` ns in which two lists of points in order differ, each lengthened by the lead. It goes
/// through both lists once: time by time, and from the first time at which they differ to the end of the slot in one step. If the older
/// list is empty, it jumps over points as [`add_each`] says.
pub(crate) fn compare_points(
    old: &[Point],
    new: &[Point],
    comparison: Comparison,
    out: &mut Ranges,
) -> Result<(), AllocError>
    requires p { comparison.p ≤ 62 }
    requires old_order { IsInOrder old.now }
    requires new_order { IsInOrder new.now }
    requires old_domain { AreInDomain old.now }
    requires new_domain { AreInDomain new.now }
    ensures { OnOk result (AddsChangedSlots comparison out.old out.new old.now new.now) }
{
    if old.is_empty() {
        return add_each(new, comparison, out);
    }
    let mut old_left = old;
    let mut new_left = new;
    while let Some(time) = first_time(old_left, new_left) {
        let (old_here, old_rest) = parted_near(old_left, time + 1);
        let (new_here, new_rest) = parted_near(new_left, time + 1);
        if old_here != new_here {
            let slot = slot_around(time, comparison.p);
            out.add(slot.lengthened(comparison.lead))?;
            let (_, old_later) = parted_near(old_rest, slot.to);
            let (_, new_later) = parted_near(new_rest, slot.to);
            old_left = old_later;
            new_left = new_later;
        } else {
            old_left = old_rest;
            new_left = new_rest;
        }
    }
    Ok(())
}

/// Those of points in order that are in a span. It takes time logarithmic in their number, and no memory.
pub(crate) fn points_in(points: &[Point], span: Span) -> &[Point]
    requires { IsInOrder points.now }
    ensures { result.now ≡ points_of_span span points.now }
{
    points_between(points, span.start, span.end())
}

/// Adds to `out` the slots of `2^p` ns that have a point, each lengthened by the lead: where the older version has no points, each
/// point is a change. It adds the slot of the first point, and then that of the last point before the longer end of the slot, as the
/// slots between add nothing to these two; and so on. So of points that are closer to each other than the lead it looks at few: it
/// takes time logarithmic in the points that it jumps over, and constant time for each other point.
fn add_each(new: &[Point], comparison: Comparison, out: &mut Ranges) -> Result<(), AllocError>
    requires p { comparison.p ≤ 62 }
    requires order { IsInOrder new.now }
    requires domain { AreInDomain new.now }
    ensures { OnOk result (AddsChangedSlots comparison out.old out.new [] new.now) }
{
    let mut left = new;
    while let Some((first, rest)) = left.split_first() {
        let slot = slot_around(first.time, comparison.p);
        let longer = slot.lengthened(comparison.lead);
        out.add(longer)?;
        left = rest;
        if begins_before(rest, longer.to) {
            left = &rest[next_place(rest, slot.to, longer.to)..];
        }
    }
    Ok(())
}

/// Whether there is a first point, and it is before a time.
fn begins_before(points: &[Point], time: i64) -> bool
    ensures { IsTrue result ↔ ((0 < length points.now) × ((d : PointSpec) → point_time points.now 0 d <ℤ time)) }
{
    match points.first() {
        Some(first) => first.time < time,
        None => false,
    }
}

/// Of the points that follow a point whose slot is added, the index of the one to go on with, or their number. It is the last point
/// before the longer end of the slot, or the one after it if that is before the end of the slot. The first point is before the longer
/// end, the caller's condition. It takes time logarithmic in the index.
fn next_place(points: &[Point], slot_end: i64, longer_end: i64) -> usize
    requires order { IsInOrder points.now }
    requires some { 0 < length points.now }
    requires first { (d : PointSpec) → point_time points.now 0 d <ℤ longer_end }
    ensures within { result ≤ length points.now }
    ensures before { (d : PointSpec) → 0 < result → (point_time points.now (result - 1) d <ℤ slot_end) ⊎
        ((result < length points.now) × (point_time points.now result d <ℤ longer_end)) }
    ensures from { (d : PointSpec) → result + 1 < length points.now → longer_end ≤ℤ point_time points.now (result + 1) d }
{
    let last = last_before(points, longer_end);
    if points[last].time < slot_end {
        last + 1
    } else {
        last
    }
}

/// The index of the last point before a time, of points in order of which the first is before it, the caller's condition. It looks
/// at points 1, 3, 7 and so on until one is not before the time, and then searches by halves. So it takes time logarithmic in the
/// index, however many points follow.
// It is not inlined, so that the loop of `add_each` is as fast where no point is jumped over.
#[inline(never)]
fn last_before(points: &[Point], time: i64) -> usize
    requires order { IsInOrder points.now }
    requires some { 0 < length points.now }
    requires first { (d : PointSpec) → point_time points.now 0 d <ℤ time }
    ensures within { result < length points.now }
    ensures before { (d : PointSpec) → point_time points.now result d <ℤ time }
    ensures from { (d : PointSpec) → result + 1 < length points.now → time ≤ℤ point_time points.now (result + 1) d }
{
    let mut low = 0;
    let mut high = 1;
    while high < points.len() && points[high].time < time {
        low = high;
        high = 2 * high + 1;
    }
    let end = high.min(points.len());
    let between = &points[low + 1..end];
    low + between.partition_point(|point| point.time < time)
}

/// Divides points in order at a time: those before it, and those from it on. It walks through the former, one point at a
/// time.
fn parted_near(points: &[Point], time: i64) -> (&[Point], &[Point])
    requires { IsInOrder points.now }
    ensures before { result.0.now ≡ filter (λ p. int_lt p.time time) points.now }
    ensures from { result.1.now ≡ filter (λ p. not (int_lt p.time time)) points.now }
    ensures all { result.0.now ++ result.1.now ≡ points.now }
{
    let place = place_near(points, time);
    (&points[..place], &points[place..])
}

/// The index of the first point that is not before a time, or the number of points. It walks there from the first point.
fn place_near(points: &[Point], time: i64) -> usize
    ensures within { result ≤ length points.now }
    ensures before { (d : PointSpec) → 0 < result → point_time points.now (result - 1) d <ℤ time }
    ensures from { (d : PointSpec) → result < length points.now → time ≤ℤ point_time points.now result d }
{
    let mut place = 0;
    while place < points.len() && points[place].time < time {
        place += 1;
    }
    place
}

/// Returns the first time of two lists of points in order, or `None` if both are empty.
fn first_time(a: &[Point], b: &[Point]) -> Option<i64>
    requires a { IsInOrder a.now }
    requires b { IsInOrder b.now }
    ensures { MatchOption result ((a.now ≡ []) × (b.now ≡ [])) (λ t. IsFirstTime t a.now b.now) }
{
    match (a.first(), b.first()) {
        (None, None) => None,
        (Some(a), None) => Some(a.time),
        (None, Some(b)) => Some(b.time),
        (Some(a), Some(b)) => Some(a.time.min(b.time)),
    }
}
