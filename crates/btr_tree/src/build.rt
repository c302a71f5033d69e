//! New nodes of given points.
ghost use Rattle.std.specs.Prelude.{◌≡◌, ◌≤◌, ◌+◌, ◌++◌, ◌∷◌, [], ◌^◌, ℕ, suc, length, min};
ghost use Rattle.std.specs.Prelude.{IfOk, IfErr, OnOk};
ghost use Rattle.btr_base.specs.Agg.{agg};
ghost use Rattle.btr_tree.specs.History.{◌▷◌};
ghost use Rattle.btr_tree.specs.Shape.{IsChild, HasSlots, HasChildren};
ghost use Rattle.btr_tree.specs.Change.{IsLeafOf, IsInnerOf, CanBuild, CountsNodes, AtEachFresh, AtEachSplit};
ghost use Rattle.btr_tree.specs.Change.{AppendsFresh, AppendsSplit, end_of};
ghost use Rattle.btr_tree.specs.Crowd.{HasNoCrowdedSpan, IsCrowdedFault};
ghost use Rattle.btr_tree.specs.Stored.{Store, IsLaid, AreLaid};
ghost use Rattle.btr_tree.specs.Slots.{linked, block_of, first_slots};

use crate::aggregate::agg_of_child;
use crate::commit::Numbering;
use crate::fault::TreeFault;
use crate::new_node::{NewNode, NewPoints, NewSlots};
use crate::node::{Link, NodeData, Slot};
use crate::slots::Slots;
use crate::steps::Steps;
use btr_base::{FAN_OUT, LEAF_POINTS, Point, Span, parted};
use std::alloc::{AllocError, Global};

/// Builds the subtree for `points`, which all lie in `span`. Appends each new node to `nodes`, children
/// before parents. The n-th of them is for the block `numbering.first + n`.
#[cycle(build)]
pub(crate) fn build<L>(
    alloc: Global,
    span: Span,
    points: &[Point],
    numbering: Numbering,
    nodes: &mut Vec<NewNode>,
    steps: &mut Steps<L>,
) -> Result<Link, TreeFault>
    requires points { CanBuild span points.now numbering.first }
    ensures child { IfOk result (λ r. AtEachFresh span numbering.version points.now (λ above h c.
        IsChild span.height span.start above (c ▷ h) (linked r))) }
    ensures nodes { OnOk result (AppendsFresh span numbering.version points.now nodes.old.items nodes.new.items) }
    ensures stored { IfOk result (λ r. (store : Store) → IsLaid store numbering.first nodes.new.items span.height span.start (linked r)) }
    ensures counted { OnOk result (CountsNodes steps.old steps.new nodes.old.items nodes.new.items) }
    ensures room { OnOk result (HasNoCrowdedSpan span.start (end_of span) points.now) }
    ensures fault { IfErr result (λ e. IsCrowdedFault span.start (end_of span) points.now e) }
{
    if points.is_empty() {
        return Ok(Link::none());
    }
    if points.len() <= LEAF_POINTS {
        return Ok(push_leaf(alloc, span, points, numbering, nodes, steps)?);
    }
    if span.height == 0 {
        return Err(TreeFault::Crowded { start: span.start });
    }
    let slots = build_slots(alloc, span, points, numbering, nodes, steps)?;
    Ok(push_inner(alloc, span, numbering, slots, nodes, steps)?)
}

/// Builds the slots of an inner node for `points`, and the children of the slots.
#[cycle(build)]
pub(crate) fn build_slots<L>(
    alloc: Global,
    span: Span,
    points: &[Point],
    numbering: Numbering,
    nodes: &mut Vec<NewNode>,
    steps: &mut Steps<L>,
) -> Result<Slots, TreeFault>
    requires height { 1 ≤ span.height }
    requires points { CanBuild span points.now numbering.first }
    ensures slots { IfOk result (λ r. AtEachSplit span numbering.version points.now (λ below h c.
        HasSlots below span.start (c ▷ h) r × HasChildren below span.start (c ▷ h) r)) }
    ensures nodes { OnOk result (AppendsSplit span numbering.version points.now nodes.old.items nodes.new.items) }
    ensures stored { IfOk result (λ r. (store : Store) (below : ℕ) → span.height ≡ suc below
        → AreLaid 64 store numbering.first nodes.new.items below span.start r) }
    ensures counted { OnOk result (CountsNodes steps.old steps.new nodes.old.items nodes.new.items) }
    ensures room { OnOk result (HasNoCrowdedSpan span.start (end_of span) points.now) }
    ensures fault { IfErr result (λ e. IsCrowdedFault span.start (end_of span) points.now e) }
{
    let mut slots = Slots::new(alloc, numbering.version, 0)?;
    let mut rest = points;
    for i in 0..FAN_OUT {
        let part = span.slot(i);
        let (here, after) = parted(rest, part.end());
        let (slot, child) = build_slot(alloc, part, here, numbering, nodes, steps)?;
        slots.put(i, slot, child)?;
        rest = after;
    }
    Ok(slots)
}

/// Builds the slot for `points`, which all lie in `span`, and its child.
#[cycle(build)]
pub(crate) fn build_slot<L>(
    alloc: Global,
    span: Span,
    points: &[Point],
    numbering: Numbering,
    nodes: &mut Vec<NewNode>,
    steps: &mut Steps<L>,
) -> Result<(Slot, Link), TreeFault>
    requires points { CanBuild span points.now numbering.first }
    ensures slot { IfOk result (λ r. r.0 ≡ record { agg = agg points.now; version = numbering.version; child = 0 }) }
    ensures child { IfOk result (λ r. AtEachFresh span numbering.version points.now (λ above h c.
        IsChild span.height span.start above (c ▷ h) (linked r.1))) }
    ensures nodes { OnOk result (AppendsFresh span numbering.version points.now nodes.old.items nodes.new.items) }
    ensures stored { IfOk result (λ r. (store : Store) → IsLaid store numbering.first nodes.new.items span.height span.start (linked r.1)) }
    ensures counted { OnOk result (CountsNodes steps.old steps.new nodes.old.items nodes.new.items) }
    ensures room { OnOk result (HasNoCrowdedSpan span.start (end_of span) points.now) }
    ensures fault { IfErr result (λ e. IsCrowdedFault span.start (end_of span) points.now e) }
{
    // the proof reads here that the points are fewer than 2^64
    prove!(points.len() <= usize::MAX);
    let child = build(alloc, span, points, numbering, nodes, steps)?;
    let agg = agg_of_child(child.seen());
    let slot = Slot {
        agg,
        version: numbering.version,
        child: 0,
    };
    Ok((slot, child))
}

/// Makes a leaf, and appends it to `nodes`.
fn push_leaf<L>(
    alloc: Global,
    span: Span,
    points: &[Point],
    numbering: Numbering,
    nodes: &mut Vec<NewNode>,
    steps: &mut Steps<L>,
) -> Result<Link, AllocError>
    requires { numbering.first ≤ 2 ^ 62 }
    ensures child { IfOk result (λ r. IsLeafOf numbering.version points.now (linked r)) }
    ensures block { IfOk result (λ r. block_of (linked r) ≡ numbering.first + length nodes.old.items) }
    ensures nodes { OnOk result (nodes.new.items ≡ nodes.old.items
        ++ record { span = span; version = numbering.version; points = points.now; slots = [] } ∷ []) }
    ensures counted { OnOk result (CountsNodes steps.old steps.new nodes.old.items nodes.new.items) }
{
    let version = numbering.version;
    let block = numbering.first + nodes.len() as u64;
    let points = Vec::from_slice(alloc, points)?;
    let link = Link::new(
        alloc,
        NodeData::Leaf {
            block,
            version,
            points,
        },
        steps,
    )?;
    nodes.push(NewNode {
        span,
        version,
        points: NewPoints::of(&link)?,
        slots: NewSlots::none(),
    })?;
    Ok(link)
}

/// Makes an inner node, and appends it to `nodes`.
pub(crate) fn push_inner<L>(
    alloc: Global,
    span: Span,
    numbering: Numbering,
    slots: Slots,
    nodes: &mut Vec<NewNode>,
    steps: &mut Steps<L>,
) -> Result<Link, AllocError>
    requires { numbering.first ≤ 2 ^ 62 }
    ensures child { IfOk result (λ r. IsInnerOf numbering.version slots (linked r)) }
    ensures block { IfOk result (λ r. block_of (linked r) ≡ numbering.first + length nodes.old.items) }
    ensures nodes { OnOk result (nodes.new.items ≡ nodes.old.items
        ++ record { span = span; version = numbering.version; points = []; slots = first_slots 64 slots } ∷ []) }
    ensures counted { OnOk result (CountsNodes steps.old steps.new nodes.old.items nodes.new.items) }
{
    let version = numbering.version;
    let block = numbering.first + nodes.len() as u64;
    let link = inner_node(alloc, block, version, slots, steps)?;
    nodes.push(NewNode {
        span,
        version,
        points: NewPoints::none(),
        slots: NewSlots::of(&link)?,
    })?;
    Ok(link)
}

/// An inner node, which takes no more room than its slots need.
pub(crate) fn inner_node<L>(
    alloc: Global,
    block: u64,
    version: u64,
    slots: Slots,
    steps: &mut Steps<L>,
) -> Result<Link, AllocError>
    ensures child { IfOk result (λ r. IsInnerOf version slots (linked r)) }
    ensures block { IfOk result (λ r. block_of (linked r) ≡ block) }
    ensures counted { OnOk result (steps.new ≡ min (steps.old + 1) 18446744073709551615) }
{
    let mut slots = slots;
    slots.fit();
    Link::new(
        alloc,
        NodeData::Inner {
            block,
            version,
            slots,
        },
        steps,
    )
}
