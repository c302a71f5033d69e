//! A visit of a node.
ghost use Rattle.std.specs.Prelude.{ℕ, ℤ, Bool, List};
ghost use Rattle.btr_base.specs.declared.point.Point.{Point};
ghost use Rattle.btr_tree.specs.History.{Past};
ghost use Rattle.btr_tree.specs.Shape.{IsNode, IsNodeData, IsVisit};
ghost use Rattle.btr_tree.specs.Slots.{node_of};

use crate::node::{Child, Node, NodeData};
use crate::steps::Steps;

/// Visits the node of a span, which is one step. Returns `None`, and counts none, if the span has no point. It takes constant
/// time and no memory.
pub fn visit<'a, L>(child: Child<'a>, steps: &mut Steps<L>) -> Option<Node<'a>>
    ensures { IsVisit (node_of child.entry) result steps.old steps.new }
{
    match child.node {
        None => None,
        Some(node) => {
            steps.tick();
            Some(seen(&**node))
        }
    }
}

/// What a walk sees of a node.
fn seen<'a>(node: &'a NodeData) -> Node<'a>
    ensures { (height : ℕ) (start : ℤ) (above : List Point → Bool) (h : Past) → IsNodeData height start above h node.now
        → IsNode height start above h result }
{
    match node {
        NodeData::Leaf {
            version,
            points,
            ..
        } => Node::Leaf {
            version: *version,
            points,
        },
        NodeData::Inner { version, slots, .. } => Node::Inner {
            version: *version,
            slots,
        },
    }
}
