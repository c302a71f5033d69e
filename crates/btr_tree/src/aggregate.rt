//! The aggregate of all points of a child.
ghost use Rattle.std.specs.Prelude.{◌≡◌, ◌<◌, ◌≤◌, ◌^◌, ℕ, ℤ, Bool, List};
ghost use Rattle.btr_base.specs.Agg.{agg};
ghost use Rattle.btr_base.specs.declared.point.Point.{Point as PointSpec};
ghost use Rattle.btr_tree.specs.History.{Past, bag};
ghost use Rattle.btr_tree.specs.Nodes.{points_of};
ghost use Rattle.btr_tree.specs.Shape.{IsChild};
ghost use Rattle.btr_tree.specs.Change.{IsCounted, joined_first};
ghost use Rattle.btr_tree.specs.Slots.{node_of, slot_in};

use crate::node::{Child, NodeData};
use crate::slots::Slots;
use btr_base::{Agg, FAN_OUT};

/// Returns the aggregate of a child's points, by its own points or by its slots.
pub(crate) fn agg_of_child(child: Child<'_>) -> Agg
    requires { IsCounted (node_of child) }
    ensures { (height : ℕ) (start : ℤ) (above : List PointSpec → Bool) (h : Past) → IsChild height start above h (node_of child.entry)
        → result ≡ agg (points_of height start (bag h)) }
{
    match child.node {
        None => Agg::none(),
        Some(node) => match &**node {
            NodeData::Leaf { points, .. } => Agg::of_points(points),
            NodeData::Inner { slots, .. } => agg_of_slots(slots),
        },
    }
}

/// Returns the aggregate of all slots.
fn agg_of_slots(slots: &Slots) -> Agg
    requires { (i : ℕ) → i ≤ 64 → (joined_first i (slot_in slots.now)).count < 2 ^ 64 }
    ensures { result ≡ joined_first 64 (slot_in slots.now) }
{
    let mut all = Agg::none();
    for i in 0..FAN_OUT {
        let Some(slot) = slots.kept_slot(i) else {
            continue;
        };
        all = all.join(&slot.agg);
    }
    all
}
