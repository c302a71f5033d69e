//! Trees that are made of nodes read from a device.
ghost use Rattle.std.specs.Prelude.{◌≡◌, ◌<◌, ◌≤◌, ◌+◌, ◌^◌, length, min, option_map, IfOk, OnOk};
ghost use Rattle.btr_base.specs.Bag.{within};
ghost use Rattle.btr_base.specs.declared.limits.TheConstants.{LEAF_POINTS as FEW};
ghost use Rattle.btr_tree.specs.Change.{end_of};
ghost use Rattle.btr_tree.specs.Opened.{ArePlaces, AreParts, HasParts, IsInnerTree, IsLeafTree};
ghost use Rattle.btr_tree.specs.Opened.{joined_parts, part_node, part_slot, placed_part};
ghost use Rattle.btr_tree.specs.Root.{WasOpened};
ghost use Rattle.btr_tree.specs.Slots.{linked};

use crate::build::inner_node;
use crate::node::{Link, NodeData, Slot};
use crate::slots::Slots;
use crate::steps::Steps;
use crate::tree::Tree;
use btr_base::{Agg, Bag, FAN_OUT, Span};
use std::alloc::{AllocError, Global};

impl Tree {
    /// The tree of a leaf that was read from a block: the points of one span. It counts one step. An `Err` is out of memory.
    pub fn leaf<L>(
        alloc: Global,
        span: Span,
        version: u64,
        block: u64,
        points: &Bag,
        steps: &mut Steps<L>,
    ) -> Result<Tree, AllocError>
        requires some { 0 < length points.now }
        requires few { length points.now ≤ FEW }
        requires inside { within span.start (end_of span) points.now ≡ points.now }
        ensures leaf { IfOk result (IsLeafTree span version block points.now) }
        ensures opened { IfOk result WasOpened }
        ensures steps { OnOk result (steps.new ≡ min (steps.old + 1) 18446744073709551615) }
    {
        let _height = span.height;
        let points = points.as_slice();
        let agg = Agg::of_points(points);
        let points = Vec::from_slice(alloc, points)?;
        let root = Link::new(
            alloc,
            NodeData::Leaf {
                block,
                version,
                points,
            },
            steps,
        )?;
        Ok(Tree { span, root, agg })
    }

    /// The tree of an inner node that was read from a block. `children` are the trees of its slots that have points, each with
    /// the number of its slot, and `versions` are those of its slots. The node shares the trees of its children, and its
    /// aggregates are theirs. It counts one step. An `Err` is out of memory.
    pub fn inner<L>(
        alloc: Global,
        span: Span,
        version: u64,
        block: u64,
        children: &[(u8, Tree)],
        versions: &[u64; 64],
        steps: &mut Steps<L>,
    ) -> Result<Tree, AllocError>
        requires height { 1 ≤ span.height }
        requires parts { AreParts span version children.now versions.now }
        ensures inner { IfOk result (IsInnerTree span version block children.now versions.now) }
        ensures opened { IfOk result WasOpened }
        ensures steps { OnOk result (steps.new ≡ min (steps.old + 1) 18446744073709551615) }
    {
        let _height = span.height;
        let (slots, agg) = slots_of_parts(alloc, children, versions)?;
        let root = inner_node(alloc, block, version, slots, steps)?;
        Ok(Tree { span, root, agg })
    }
}

/// The slots of an inner node with these children, and the aggregate of all.
fn slots_of_parts(
    alloc: Global,
    children: &[(u8, Tree)],
    versions: &[u64; 64],
) -> Result<(Slots, Agg), AllocError>
    requires { (joined_parts 64 children.now).count < 2 ^ 64 }
    ensures slots { IfOk result (λ r. HasParts 64 children.now versions.now r.0) }
    ensures agg { IfOk result (λ r. r.1 ≡ joined_parts 64 children.now) }
{
    let places = places_of(children);
    let mut slots = Slots::new(alloc, base_version(&places, versions), children.len())?;
    let mut agg = Agg::none();
    for i in 0..FAN_OUT {
        let at = usize::from(i);
        let (slot, child) = slot_of_part(part_in(children, places[at]), versions[at])?;
        agg = agg.join(&slot.agg);
        slots.put(i, slot, child)?;
    }
    Ok((slots, agg))
}

/// The place of each slot's child in `children`, counted from 1, or 0 if the slot has none. If several children have one
/// number, it is the place of the first. It takes one pass over `children`, and no memory.
fn places_of(children: &[(u8, Tree)]) -> [usize; 64]
    ensures { ArePlaces children.now result }
{
    let mut places = [0; 64];
    for n in (0..children.len()).rev() {
        let i = usize::from(children[n].0);
        if i < 64 {
            places[i] = n + 1;
        }
    }
    places
}

/// The tree at a place that is counted from 1, or `None` at place 0 and after the last child.
fn part_in(children: &[(u8, Tree)], place: usize) -> Option<&Tree>
    ensures { option_map (λ t. t.now) result ≡ placed_part children.now place }
{
    if place == 0 {
        return None;
    }
    match children.get(place - 1) {
        Some(part) => Some(&part.1),
        None => None,
    }
}

/// The version of the first slot that has no child, or 0 if each has one. Most slots without a child have it.
fn base_version(places: &[usize; 64], versions: &[u64; 64]) -> u64 {
    for i in 0..64 {
        if places[i] == 0 {
            return versions[i];
        }
    }
    0
}

/// The slot of a part with this version, or the empty slot, and the link to its node.
fn slot_of_part(part: Option<&Tree>, version: u64) -> Result<(Slot, Link), AllocError>
    ensures slot { IfOk result (λ r. r.0 ≡ part_slot (option_map (λ t. t.now) part.entry) version) }
    ensures child { IfOk result (λ r. linked r.1 ≡ part_node (option_map (λ t. t.now) part.entry)) }
{
    let Some(tree) = part else {
        let slot = Slot {
            agg: Agg::none(),
            version,
            child: 0,
        };
        return Ok((slot, Link::none()));
    };
    let slot = Slot {
        agg: tree.agg,
        version,
        child: 0,
    };
    Ok((slot, tree.root.seen().share()?))
}
