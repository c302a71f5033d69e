//! The trees of the children of a page's slots.
ghost use Rattle.std.specs.Prelude.{◌≡◌, ◌↔◌, ◌<◌, ◌≤◌, IfOk, IfSome, IfNone, IsTrue, MatchOption, option_map};
ghost use Rattle.btr_base.specs.Span.{slot_of};
ghost use Rattle.btr_pages.specs.Known.{node_at};
ghost use Rattle.btr_pages.specs.Made.{ArePartsTo, HasKnownChild, HaveKnownChildren, IsChildTree, IsKnownChild, versions_of};

use crate::known::Known;
use crate::trees::Trees;
use btr_base::{FAN_OUT, Span};
use btr_node::PageSlot;
use btr_tree::Tree;
use std::alloc::{AllocError, Global};

/// The trees of the children of a span's slots, each with the number of its slot, for a page in this block. `None` is that a slot
/// has a point and the tree of its child was not made, or is not in a lower block. An `Err` is out of memory.
pub(crate) fn parts_of(
    alloc: Global,
    nodes: &Trees,
    block: u64,
    span: Span,
    stream: u32,
    slots: &[PageSlot; 64],
) -> Result<Option<Vec<(u8, Tree)>>, AllocError>
    requires height { 1 ≤ span.height }
    ensures { IfOk result (λ r. MatchOption r (HaveKnownChildren nodes.now block span stream slots.now → ⊥)
        (λ parts. ArePartsTo 64 nodes.now block span stream slots.now parts.items)) }
{
    let mut parts = Vec::new(alloc);
    for i in 0..FAN_OUT {
        let slot = &slots[usize::from(i)];
        if slot.count() > 0 {
            let Some(tree) = part(nodes, block, span.slot(i), stream, slot)? else {
                return Ok(None);
            };
            parts.push((i, tree))?;
        }
    }
    Ok(Some(parts))
}

/// The tree of the child of a slot of the page in a block, if it was made. An `Err` is out of memory.
fn part(
    nodes: &Trees,
    block: u64,
    place: Span,
    stream: u32,
    slot: &PageSlot,
) -> Result<Option<Tree>, AllocError>
    requires some { 0 < slot.now.agg.count }
    ensures { IfOk result (λ r. MatchOption r (HasKnownChild nodes.now block place stream slot.now → ⊥)
        (IsChildTree nodes.now block place stream slot.now)) }
{
    match child(nodes, block, place, stream, slot) {
        None => Ok(None),
        Some(known) => Ok(Some(known.tree.share()?)),
    }
}

/// The child of a slot of the page in a block, if its tree was made.
fn child<'a>(
    nodes: &'a Trees,
    block: u64,
    place: Span,
    stream: u32,
    slot: &PageSlot,
) -> Option<&'a Known>
    ensures is { IfSome result
        (λ k. (node_at nodes.now slot.now.child ≡ Some k.now) × IsKnownChild block place stream slot.now k.now) }
    ensures none { IfNone result (HasKnownChild nodes.now block place stream slot.now → ⊥) }
{
    match nodes.get(slot.child) {
        Some(known) if fits(known, block, place, stream, slot) => Some(known),
        _ => None,
    }
}

/// Whether a tree is that of the child of a slot of the page in a block.
fn fits(known: &Known, block: u64, place: Span, stream: u32, slot: &PageSlot) -> bool
    ensures { IsTrue result ↔ IsKnownChild block place stream slot.now known.now }
{
    let tree = &known.tree;
    slot.child < block
        && known.stream == stream
        && tree.span() == place
        && tree.version() == slot.version
        && known.count == slot.count()
}

/// The versions of slots.
pub(crate) fn versions(slots: &[PageSlot; 64]) -> [u64; 64]
    ensures { result ≡ versions_of slots.now }
{
    let mut versions = [0; 64];
    for i in 0..64 {
        versions[i] = slots[i].version;
    }
    versions
}
