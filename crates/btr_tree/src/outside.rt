//! What a cut leaves of a span, found without a look into the slots that it misses or covers whole.
ghost use Rattle.std.specs.Prelude.{◌≡◌, ◌<◌, ◌≤◌, ◌+◌, ◌++◌, ◌-◌, ℕ, ℤ, suc, true, length, IfOk, OnOk, ◌≤ℤ◌, ◌<ℤ◌};
ghost use Rattle.btr_base.specs.Bag.{IsInOrder, outside};
ghost use Rattle.btr_base.specs.Range.{IsCut, covered};
ghost use Rattle.btr_tree.specs.History.{bag};
ghost use Rattle.btr_tree.specs.EachHistory.{AtEachHistory, AtEachInner, points_in};
ghost use Rattle.btr_tree.specs.Change.{IsSomeChild, AreSomeSlots, end_of};
ghost use Rattle.btr_tree.specs.Slots.{node_of};

use crate::node::{Child, NodeData};
use crate::slots::Slots;
use btr_base::{FAN_OUT, Point, Range, Span, points_outside, ranges_before, ranges_from};
use std::alloc::{AllocError, Global};

/// Counts the points of a leaf that a cut leaves.
fn count_outside_points(alloc: Global, points: &[Point], cut: &[Range]) -> Result<u64, AllocError>
    requires order { IsInOrder points.now }
    requires cut { IsCut cut.now }
    ensures { IfOk result (λ n. n ≡ length (outside points.now cut.now)) }
{
    let left = points_outside(alloc, points, cut)?;
    Ok(left.len() as u64)
}

/// Counts the points of an inner node that a cut leaves.
#[cycle(count)]
pub(crate) fn count_outside_slots(
    alloc: Global,
    span: Span,
    slots: &Slots,
    cut: &[Range],
) -> Result<u64, AllocError>
    requires some { (below : ℕ) × (span.height ≡ suc below) × AreSomeSlots below span.start slots.now 0 }
    requires cut { IsCut cut.now }
    ensures { IfOk result (λ n. AtEachInner span slots.now (λ h. n ≡ length (outside (points_in span (bag h)) cut.now))) }
{
    let mut left = 0;
    for i in 0..FAN_OUT {
        let slot = slots.slot(i);
        let agg = &slot.agg;
        left += count_outside_slot(alloc, span.slot(i), agg.count, slots.child(i), cut)?;
    }
    Ok(left)
}

/// Counts the points of a slot, which has `count` points and whose node is `child`, that a cut leaves.
#[cycle(count)]
pub(crate) fn count_outside_slot(
    alloc: Global,
    span: Span,
    count: u64,
    child: Child<'_>,
    cut: &[Range],
) -> Result<u64, AllocError>
    requires some { IsSomeChild span.height span.start (node_of child) 0 }
    requires cut { IsCut cut.now }
    ensures { IfOk result (λ n. AtEachHistory span (node_of child.entry) (λ h.
        count ≡ length (points_in span (bag h)) → n ≡ length (outside (points_in span (bag h)) cut.now))) }
{
    let here = ranges_before(ranges_from(cut, span.start), span.end());
    if here.is_empty() {
        return Ok(count);
    }
    if covers_all(here, span) {
        return Ok(0);
    }
    match child.node {
        None => Ok(0),
        Some(node) => match &**node {
            NodeData::Leaf { points, .. } => count_outside_points(alloc, points, here),
            NodeData::Inner { slots, .. } => count_outside_slots(alloc, span, slots, here),
        },
    }
}

/// Appends to `out` the points of a leaf that a cut leaves.
fn gather_outside_points(
    alloc: Global,
    points: &[Point],
    cut: &[Range],
    out: &mut Vec<Point>,
) -> Result<(), AllocError>
    requires order { IsInOrder points.now }
    requires cut { IsCut cut.now }
    ensures { OnOk result (out.new.items ≡ out.old.items ++ outside points.now cut.now) }
{
    let left = points_outside(alloc, points, cut)?;
    out.extend_from_slice(&left)
}

/// Appends to `out` the points of an inner node that a cut leaves.
#[cycle(gather)]
pub(crate) fn gather_outside_slots(
    alloc: Global,
    span: Span,
    slots: &Slots,
    cut: &[Range],
    out: &mut Vec<Point>,
) -> Result<(), AllocError>
    requires some { (below : ℕ) × (span.height ≡ suc below) × AreSomeSlots below span.start slots.now 0 }
    requires cut { IsCut cut.now }
    ensures { OnOk result (AtEachInner span slots.now
        (λ h. out.new.items ≡ out.old.items ++ outside (points_in span (bag h)) cut.now)) }
{
    for i in 0..FAN_OUT {
        gather_outside_slot(alloc, span.slot(i), slots.child(i), cut, out)?;
    }
    Ok(())
}

/// Appends to `out` the points of a slot, whose node is `child`, that a cut leaves.
#[cycle(gather)]
fn gather_outside_slot(
    alloc: Global,
    span: Span,
    child: Child<'_>,
    cut: &[Range],
    out: &mut Vec<Point>,
) -> Result<(), AllocError>
    requires some { IsSomeChild span.height span.start (node_of child) 0 }
    requires cut { IsCut cut.now }
    ensures { OnOk result (AtEachHistory span (node_of child.entry) (λ h.
        out.new.items ≡ out.old.items ++ outside (points_in span (bag h)) cut.now)) }
{
    let here = ranges_before(ranges_from(cut, span.start), span.end());
    if covers_all(here, span) {
        return Ok(());
    }
    match child.node {
        None => Ok(()),
        Some(node) => match &**node {
            NodeData::Leaf { points, .. } => gather_outside_points(alloc, points, here, out),
            NodeData::Inner { slots, .. } => gather_outside_slots(alloc, span, slots, here, out),
        },
    }
}

/// Whether the first range of a cut covers the whole span.
fn covers_all(cut: &[Range], span: Span) -> bool
    ensures { result ≡ true → (t : ℤ) → span.start ≤ℤ t → t <ℤ end_of span → covered cut.now t ≡ true }
{
    match cut.first() {
        Some(range) => range.from <= span.start && span.end() <= range.to,
        None => false,
    }
}
