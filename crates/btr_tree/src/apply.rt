//! A commit, applied to the nodes of a span.
ghost use Rattle.std.specs.Prelude.{◌≡◌, ◌<◌, ◌≤◌, ◌+◌, ◌++◌, ℕ, suc, true, false, not, length, IfOk, IfErr, OnOk};
ghost use Rattle.btr_base.specs.Agg.{agg};
ghost use Rattle.btr_base.specs.Bag.{IsInOrder, outside, sort};
ghost use Rattle.btr_base.specs.Range.{IsCut};
ghost use Rattle.btr_base.specs.declared.limits.TheConstants.{LEAF_POINTS as FEW};
ghost use Rattle.btr_tree.specs.History.{bag, ◌▷◌};
ghost use Rattle.btr_tree.specs.Shape.{IsChild, HasSlots, HasChildren};
ghost use Rattle.btr_tree.specs.EachHistory.{AtEachInner, points_in};
ghost use Rattle.btr_tree.specs.Change.{IsSomeChild, AreSomeSlots, IsSomeSlot, CanApply, IsNewSlot, CountsNodes, is_touched, end_of};
ghost use Rattle.btr_tree.specs.Change.{AppendsNew, AppendsBelow, KeepsStored, AtEachStore};
ghost use Rattle.btr_tree.specs.Change.{AtEachCommit, AtEachTouch, AtEachSlotCommit, AtEachInnerCommit, AtEachInnerTouch};
ghost use Rattle.btr_tree.specs.Crowd.{IsCrowdedFault};
ghost use Rattle.btr_tree.specs.Slots.{linked, node_of};
ghost use Rattle.btr_tree.specs.Stored.{IsLaid, AreLaid};

use crate::aggregate::agg_of_child;
use crate::build::{build, push_inner};
use crate::commit::{OldSlot, SpanCommit};
use crate::fault::TreeFault;
use crate::new_node::NewNode;
use crate::node::{Child, Link, NodeData, Slot};
use crate::outside::{count_outside_slot, count_outside_slots, gather_outside_slots};
use crate::slots::Slots;
use crate::steps::Steps;
use btr_base::{
    FAN_OUT, LEAF_POINTS, Point, Range, Span, merged, parted, points_outside, ranges_before,
    ranges_from,
};
use std::alloc::{AllocError, Global};

/// Applies a commit to a slot and its child. Returns them as they are if the commit does not touch them.
#[cycle(apply)]
pub(crate) fn apply_slot<L>(
    alloc: Global,
    span: Span,
    was: &OldSlot<'_>,
    commit: SpanCommit<'_>,
    nodes: &mut Vec<NewNode>,
    steps: &mut Steps<L>,
) -> Result<(Slot, Link), TreeFault>
    requires some { IsSomeSlot span.height span.start was.now.slot (node_of was.now.child) (length commit.added.now) }
    requires commit { CanApply span commit }
    ensures child { IfOk result (λ r. AtEachSlotCommit span was.now commit.entry (λ above h c.
        IsChild span.height span.start above (c ▷ h) (linked r.1))) }
    ensures slot { IfOk result (λ r. AtEachSlotCommit span was.now commit.entry (IsNewSlot span was.now.slot r.0)) }
    ensures nodes { OnOk result (AtEachSlotCommit span was.now commit.entry
        (AppendsNew span commit.entry nodes.old.items nodes.new.items)) }
    ensures stored { IfOk result (λ r.
        KeepsStored span commit.entry.numbering.first nodes.new.items (node_of was.now.child) (linked r.1)) }
    ensures counted { OnOk result (CountsNodes steps.old steps.new nodes.old.items nodes.new.items) }
    ensures fault { IfErr result (λ e. AtEachSlotCommit span was.now commit.entry (λ above h c.
        IsCrowdedFault span.start (end_of span) (points_in span (bag (c ▷ h))) e)) }
{
    let here = ranges_before(ranges_from(commit.cut, span.start), span.end());
    let part = SpanCommit {
        cut: here,
        added: commit.added,
        numbering: commit.numbering,
    };
    if is_untouched(alloc, span, was, part)? {
        return Ok((was.slot, was.child.share()?));
    }
    let new_child = apply_child(alloc, span, was.child, part, nodes, steps)?;
    let agg = agg_of_child(new_child.seen());
    let slot = Slot {
        agg,
        version: commit.numbering.version,
        child: 0,
    };
    Ok((slot, new_child))
}

/// Whether a commit leaves a slot as it is.
fn is_untouched(
    alloc: Global,
    span: Span,
    was: &OldSlot<'_>,
    commit: SpanCommit<'_>,
) -> Result<bool, AllocError>
    requires some { IsSomeChild span.height span.start (node_of was.now.child) 0 }
    requires cut { IsCut commit.cut.now }
    ensures { IfOk result (λ b. AtEachCommit span (node_of was.now.child) commit.entry (λ above h c.
        was.now.slot.agg ≡ agg (points_in span (bag h)) → b ≡ not (is_touched span h c))) }
{
    if !commit.added.is_empty() {
        return Ok(false);
    }
    let slot = was.slot;
    let agg = slot.agg;
    let left = count_outside_slot(alloc, span, agg.count, was.child, commit.cut)?;
    Ok(left == agg.count)
}

/// Applies a commit that touches the span to its child. `commit` is its part in the span.
#[cycle(apply)]
pub(crate) fn apply_child<L>(
    alloc: Global,
    span: Span,
    child: Child<'_>,
    commit: SpanCommit<'_>,
    nodes: &mut Vec<NewNode>,
    steps: &mut Steps<L>,
) -> Result<Link, TreeFault>
    requires some { IsSomeChild span.height span.start (node_of child) (length commit.added.now) }
    requires commit { CanApply span commit }
    ensures child { IfOk result (λ r. AtEachTouch span (node_of child.entry) commit.entry (λ above h c.
        IsChild span.height span.start above (c ▷ h) (linked r))) }
    ensures nodes { OnOk result (AtEachTouch span (node_of child.entry) commit.entry
        (AppendsNew span commit.entry nodes.old.items nodes.new.items)) }
    ensures stored { IfOk result (λ r.
        KeepsStored span commit.entry.numbering.first nodes.new.items (node_of child.entry) (linked r)) }
    ensures counted { OnOk result (CountsNodes steps.old steps.new nodes.old.items nodes.new.items) }
    ensures fault { IfErr result (λ e. AtEachCommit span (node_of child.entry) commit.entry (λ above h c.
        IsCrowdedFault span.start (end_of span) (points_in span (bag (c ▷ h))) e)) }
{
    match child.node {
        None => build(alloc, span, commit.added, commit.numbering, nodes, steps),
        Some(node) => match &**node {
            NodeData::Leaf { points, .. } => {
                let all = changed(alloc, points, commit.cut, commit.added)?;
                build(alloc, span, &all, commit.numbering, nodes, steps)
            }
            NodeData::Inner { slots, .. } => {
                apply_inner(alloc, span, slots, commit, nodes, steps)
            }
        },
    }
}

/// Returns the points outside a cut together with those that are added, in order.
fn changed(
    alloc: Global,
    points: &[Point],
    cut: &[Range],
    added: &[Point],
) -> Result<Vec<Point>, AllocError>
    requires points { IsInOrder points.now }
    requires cut { IsCut cut.now }
    requires added { IsInOrder added.now }
    ensures { IfOk result (λ v. v.items ≡ sort (outside points.now cut.now ++ added.now)) }
{
    let kept = points_outside(alloc, points, cut)?;
    merged(alloc, &kept, added)
}

/// Applies a commit that touches the span to its inner node, which becomes a leaf, or none, if few points are left.
#[cycle(apply)]
pub(crate) fn apply_inner<L>(
    alloc: Global,
    span: Span,
    slots: &Slots,
    commit: SpanCommit<'_>,
    nodes: &mut Vec<NewNode>,
    steps: &mut Steps<L>,
) -> Result<Link, TreeFault>
    requires some { (below : ℕ) × (span.height ≡ suc below) × AreSomeSlots below span.start slots.now (length commit.added.now) }
    requires commit { CanApply span commit }
    ensures child { IfOk result (λ r. AtEachInnerTouch span slots.now commit.entry (λ above h c.
        IsChild span.height span.start above (c ▷ h) (linked r))) }
    ensures nodes { OnOk result (AtEachInnerTouch span slots.now commit.entry
        (AppendsNew span commit.entry nodes.old.items nodes.new.items)) }
    ensures stored { IfOk result (λ r. AtEachStore span commit.entry.numbering.first slots.now (λ store _.
        IsLaid store commit.entry.numbering.first nodes.new.items span.height span.start (linked r))) }
    ensures counted { OnOk result (CountsNodes steps.old steps.new nodes.old.items nodes.new.items) }
    ensures fault { IfErr result (λ e. AtEachInnerCommit span slots.now commit.entry (λ below h c.
        IsCrowdedFault span.start (end_of span) (points_in span (bag (c ▷ h))) e)) }
{
    if is_few(alloc, span, slots, commit.cut, commit.added)? {
        let all = gathered(alloc, span, slots, commit.cut, commit.added)?;
        return build(alloc, span, &all, commit.numbering, nodes, steps);
    }
    let new_slots = apply_slots(alloc, span, slots, commit, nodes, steps)?;
    Ok(push_inner(alloc, span, commit.numbering, new_slots, nodes, steps)?)
}

/// Whether a commit leaves an inner node so few points that it is none. Its points are counted only if the cut is not empty.
fn is_few(
    alloc: Global,
    span: Span,
    slots: &Slots,
    cut: &[Range],
    added: &[Point],
) -> Result<bool, AllocError>
    requires some { (below : ℕ) × (span.height ≡ suc below) × AreSomeSlots below span.start slots.now (length added.now) }
    requires cut { IsCut cut.now }
    ensures few { IfOk result (λ b. b ≡ true → AtEachInner span slots.now (λ h.
        length (outside (points_in span (bag h)) cut.now) + length added.now ≤ FEW)) }
    ensures many { IfOk result (λ b. b ≡ false → AtEachInner span slots.now (λ h. FEW < length (points_in span (bag h))
        → FEW < length (outside (points_in span (bag h)) cut.now) + length added.now)) }
{
    if cut.is_empty() {
        return Ok(false);
    }
    let left = count_outside_slots(alloc, span, slots, cut)?;
    Ok(left + added.len() as u64 <= LEAF_POINTS as u64)
}

/// Returns the points of an inner node outside a cut together with those that are added, in order.
fn gathered(
    alloc: Global,
    span: Span,
    slots: &Slots,
    cut: &[Range],
    added: &[Point],
) -> Result<Vec<Point>, AllocError>
    requires some { (below : ℕ) × (span.height ≡ suc below) × AreSomeSlots below span.start slots.now 0 }
    requires cut { IsCut cut.now }
    requires added { IsInOrder added.now }
    ensures { IfOk result (λ v. AtEachInner span slots.now (λ h.
        v.items ≡ sort (outside (points_in span (bag h)) cut.now ++ added.now))) }
{
    let mut kept = Vec::new(alloc);
    gather_outside_slots(alloc, span, slots, cut, &mut kept)?;
    merged(alloc, &kept, added)
}

/// Applies a commit to the slots of an inner node that stays one. Returns the new slots and their children.
#[cycle(apply)]
pub(crate) fn apply_slots<L>(
    alloc: Global,
    span: Span,
    slots: &Slots,
    commit: SpanCommit<'_>,
    nodes: &mut Vec<NewNode>,
    steps: &mut Steps<L>,
) -> Result<Slots, TreeFault>
    requires some { (below : ℕ) × (span.height ≡ suc below) × AreSomeSlots below span.start slots.now (length commit.added.now) }
    requires commit { CanApply span commit }
    ensures slots { IfOk result (λ r. AtEachInnerCommit span slots.now commit.entry (λ below h c.
        HasSlots below span.start (c ▷ h) r × HasChildren below span.start (c ▷ h) r)) }
    ensures nodes { OnOk result (AtEachInnerCommit span slots.now commit.entry
        (AppendsBelow span commit.entry nodes.old.items nodes.new.items)) }
    ensures stored { IfOk result (λ r. AtEachStore span commit.entry.numbering.first slots.now (λ store below.
        AreLaid 64 store commit.entry.numbering.first nodes.new.items below span.start r)) }
    ensures counted { OnOk result (CountsNodes steps.old steps.new nodes.old.items nodes.new.items) }
    ensures fault { IfErr result (λ e. AtEachInnerCommit span slots.now commit.entry (λ below h c.
        IsCrowdedFault span.start (end_of span) (points_in span (bag (c ▷ h))) e)) }
{
    let mut new_slots = Slots::new(alloc, slots.base(), slots.len().saturating_add(1))?;
    let mut rest = commit.added;
    for i in 0..FAN_OUT {
        let part = span.slot(i);
        let (here, after) = parted(rest, part.end());
        rest = after;
        if commit.cut.is_empty() && here.is_empty() {
            new_slots.put_from(i, slots)?;
            continue;
        }
        let was = OldSlot {
            slot: slots.slot(i),
            child: slots.child(i),
        };
        let change = SpanCommit {
            cut: commit.cut,
            added: here,
            numbering: commit.numbering,
        };
        let (slot, child) = apply_slot(alloc, part, &was, change, nodes, steps)?;
        new_slots.put(i, slot, child)?;
    }
    Ok(new_slots)
}
