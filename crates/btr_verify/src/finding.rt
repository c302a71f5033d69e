//! The node of a span in a tree.
ghost use Rattle.std.specs.Prelude.{◌+◌, ◌≤◌};
ghost use Rattle.btr_tree.specs.History.{Past};
ghost use Rattle.btr_tree.specs.Root.{AtEachTree};
ghost use Rattle.btr_tree.specs.Slots.{node_of};
ghost use Rattle.btr_verify.specs.Found.{IsFoundIn, LiesIn, IsChildIn};

use btr_base::Span;
use btr_tree::{Child, Node, Steps, Tree, root_span, visit};

/// Finds the node of a span in a tree. Returns `None` exactly if the span is no node of the tree: it has no point, or the span
/// above it is no inner node. It visits one node a height, at most 11, and takes no memory.
pub(crate) fn find<'a, L>(tree: &'a Tree, span: Span, steps: &mut Steps<L>) -> Option<Node<'a>>
    ensures found { AtEachTree tree.now (λ h. IsFoundIn span h result) }
    ensures bounded { steps.new ≤ steps.old + 11 }
    ensures never_falls { steps.old ≤ steps.new }
{
    let _height = span.height;
    find_below(tree.link(), root_span(), span, steps)
}

/// Finds the node of a span in the child of a span in which it lies. It visits at most one node a height.
fn find_below<'a, L>(
    child: Child<'a>,
    at: Span,
    span: Span,
    steps: &mut Steps<L>,
) -> Option<Node<'a>>
    requires { LiesIn span at }
    ensures found { (h : Past) → IsChildIn at (node_of child.entry) h → IsFoundIn span h result }
    ensures bounded { steps.new ≤ steps.old + at.height + 1 }
    ensures never_falls { steps.old ≤ steps.new }
{
    let is_here = at.height == span.height;
    let node = visit(child, steps)?;
    if is_here {
        return Some(node);
    }
    match node {
        Node::Leaf { .. } => None,
        Node::Inner { slots, .. } => {
            let i = at.slot_at(span.start);
            find_below(slots.child(i), at.slot(i), span, steps)
        }
    }
}
