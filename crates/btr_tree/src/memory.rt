//! A tree in memory as a source of nodes.
ghost use Rattle.std.specs.Prelude.{ℕ};

use crate::found::FoundNode;
use crate::link::visit;
use crate::node::{Child, Node, Slot};
use crate::slots::Slots;
use crate::source::NodeSource;
use crate::steps::Steps;
use btr_base::{Point, Span};
use std::convert::Infallible;
use std::marker::PhantomData;

/// A tree in memory as a source of nodes. Its places are links. It has no state, and refuses nothing.
pub struct Memory<'a> {
    links: PhantomData<&'a Slots>,
}

impl<'a> NodeSource for Memory<'a> {
    ghost use Rattle.std.specs.Prelude.{Option};
    ghost use Rattle.btr_tree.specs.declared.node.NodeData.{NodeData};
    ghost use Rattle.btr_tree.specs.Change.{IsSomeChild};
    ghost use Rattle.btr_tree.specs.Leads.{total_of};
    ghost use Rattle.btr_tree.specs.Shape.{IsChild};
    ghost use Rattle.btr_tree.specs.Slots.{node_of, slot_in, child_in};

    type State = ();

    type Place = Child<'a>;

    type Leaf = &'a [Point];

    type Inner = &'a Slots;

    type Fault = Infallible;

    ghost Told = { Unit {0} };

    ghost told = { λ s. tt };

    ghost faults = { λ s. 0 };

    ghost Site = { Option NodeData };

    ghost site = { node_of };

    ghost count = { λ n. (total_of n).count };

    ghost IsAt = { λ t n height start above h. IsChild height start above h n };

    ghost IsThere = { λ t n height start above h. IsChild height start above h n };

    ghost IsSafe = { λ t n height start. IsSomeChild height start n 0 };

    ghost IsCaused = { λ t before after e. ⊥ };

    ghost IsHarmless = { λ e. ⊥ };

    ghost leaf_points = { λ points. points.now };

    ghost inner_slot = { λ slots. slot_in slots.now };

    ghost inner_place = { λ slots. child_in slots.now };

    ghost caused_earlier = { λ t a b c e le never. never };

    fn visit<L>(
        _state: &mut (),
        _span: Span,
        at: Child<'a>,
        steps: &mut Steps<L>,
    ) -> Result<FoundNode<&'a [Point], &'a Slots>, Infallible> {
        match visit(at, steps) {
            None => Ok(FoundNode::Nothing),
            Some(node) => match node {
                Node::Leaf { version, points } => Ok(FoundNode::Leaf { version, points }),
                Node::Inner { version, slots } => Ok(FoundNode::Inner { version, slots }),
            },
        }
    }

    fn points<'b>(leaf: &'b &'a [Point]) -> &'b [Point] {
        leaf
    }

    fn slot(inner: &&'a Slots, i: u8) -> Slot {
        inner.slot(i)
    }

    fn place(inner: &&'a Slots, i: u8) -> Child<'a> {
        inner.child(i)
    }

    fn next_occupied(inner: &&'a Slots, from: u8) -> Option<u8> {
        inner.next_occupied(from)
    }

    fn previous_occupied(inner: &&'a Slots, to: u8) -> Option<u8> {
        inner.previous_occupied(to)
    }
}
