//! Whether a stored node's own fields are those of the node that its span has in a tree.
ghost use Rattle.std.specs.Prelude.{◌≡◌, ◌↔◌, ℕ, ◌<◌, ◌≤◌, ◌+◌, option_map, slice_get, length, Some, IsTrue};
ghost use Rattle.btr_base.specs.Span.{SpanValue};
ghost use Rattle.btr_tree.specs.History.{Past};
ghost use Rattle.btr_tree.specs.Nodes.{up_to};
ghost use Rattle.btr_tree.specs.Packed.{without_address};
ghost use Rattle.btr_tree.specs.Root.{IsTree};
ghost use Rattle.btr_verify.specs.Found.{IsNodeIn};
ghost use Rattle.btr_verify.specs.Judged.{IsOwn};
ghost use Rattle.btr_verify.specs.Same.{stored_node, IsSameNode, AreLeafFields, AreInnerFields, AreStoredSlots};

use crate::finding::find;
use btr_base::{FAN_OUT, Point, Span};
use btr_tree::{Node, Slot, Slots, Steps, Tree};

/// Whether a stored node's own fields are right, by the tree of the stream's version that the node has. `points` are those of a
/// leaf, and `slots` those of an inner node. It takes time linear in their number, visits at most 11 nodes of the tree, and
/// takes no memory.
pub(crate) fn is_own<L>(
    tree: &Tree,
    span: Span,
    version: u64,
    points: &[Point],
    slots: &[Slot],
    steps: &mut Steps<L>,
) -> bool
    ensures own { (h : Past) → IsTree (up_to version h) tree.now
        → IsTrue result ↔ IsOwn h (stored_node span version points.now slots.now) }
    ensures bounded { steps.new ≤ steps.old + 11 }
    ensures never_falls { steps.old ≤ steps.new }
{
    match find(tree, span, steps) {
        None => false,
        Some(node) => is_same_node(node, version, points, slots),
    }
}

/// Whether a stored node is one that was visited: it has the same version, and the same points or the same aggregates and
/// versions of slots. It takes time linear in the points or slots, and no memory.
fn is_same_node(node: Node<'_>, version: u64, points: &[Point], slots: &[Slot]) -> bool
    ensures { (span : SpanValue) (h : Past) → IsNodeIn span h node.entry
        → IsTrue result ↔ IsSameNode span h version points.now slots.now }
{
    match node {
        Node::Leaf {
            version: own,
            points: all,
        } => is_same_leaf(own, all, version, points, slots),
        Node::Inner {
            version: own,
            slots: all,
        } => is_same_inner(own, all, version, points, slots),
    }
}

/// Whether a stored node is a leaf of this version with these points.
fn is_same_leaf(own: u64, all: &[Point], version: u64, points: &[Point], slots: &[Slot]) -> bool
    ensures { IsTrue result ↔ AreLeafFields own all.now version points.now slots.now }
{
    if own != version || !slots.is_empty() {
        return false;
    }
    all == points
}

/// Whether a stored node is an inner node of this version with these slots.
fn is_same_inner(own: u64, all: &Slots, version: u64, points: &[Point], slots: &[Slot]) -> bool
    ensures { IsTrue result ↔ AreInnerFields own all.now version points.now slots.now }
{
    if own != version || !points.is_empty() {
        return false;
    }
    are_same_slots(all, slots)
}

/// Whether stored slots are those of an inner node.
fn are_same_slots(all: &Slots, slots: &[Slot]) -> bool
    ensures { IsTrue result ↔ AreStoredSlots all.now slots.now }
{
    if slots.len() != usize::from(FAN_OUT) {
        return false;
    }
    for i in 0..FAN_OUT {
        if !is_same_slot(&all.slot(i), &slots[usize::from(i)]) {
            return false;
        }
    }
    true
}

/// Whether two slots have the same aggregate and the same version.
fn is_same_slot(one: &Slot, other: &Slot) -> bool
    ensures { IsTrue result ↔ (without_address one.now ≡ without_address other.now) }
{
    one.agg == other.agg && one.version == other.version
}
