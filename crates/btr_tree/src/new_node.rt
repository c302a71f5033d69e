ghost use Rattle.std.specs.Prelude.{◌≡◌, ◌<◌, [], length, slice_get, IfOk};
ghost use Rattle.btr_tree.specs.NewNodes.{points_of_node, slots_of_node};
ghost use Rattle.btr_tree.specs.Slots.{linked};

use crate::node::{Link, NodeData, Slot};
use btr_base::{FAN_OUT, Point, Span};
use std::alloc::AllocError;
use std::marker::Model;

/// A node that a commit wrote. A leaf has no slots, and an inner node has no points.
#[derive(Drop)]
pub struct NewNode {
    /// The times that it is about.
    pub span: Span,

    /// The commit's version.
    pub version: u64,

    /// The points of a leaf, by time and value.
    pub points: NewPoints,

    /// The 64 slots of an inner node, in order. A slot has the block of its child, or 0 if it has no child.
    pub slots: NewSlots,
}

impl Model for NewNode {
    ghost use Rattle.btr_tree.specs.NewNodes.{NewNodeValue};

    ghost Value = { NewNodeValue };

    ghost view = { λ n. record { span = n.span; version = n.version; points = n.points; slots = n.slots } };
}

/// The points of a node that a commit wrote: those of a leaf, and none of an inner node. It shares the node with the tree.
#[derive(Drop)]
pub struct NewPoints {
    node: Link,
}

impl Model for NewPoints {
    ghost use Rattle.std.specs.Prelude.{List};
    ghost use Rattle.btr_base.specs.declared.point.Point.{Point};
    ghost use Rattle.btr_tree.specs.NewNodes.{points_of_node};
    ghost use Rattle.btr_tree.specs.Slots.{linked};

    ghost Value = { List Point };

    ghost view = { λ p. points_of_node (linked p.node) };
}

impl NewPoints {
    /// The points of no node.
    pub(crate) fn none() -> NewPoints
        ensures { result ≡ [] }
    {
        NewPoints { node: Link::none() }
    }

    /// The points of a node, in constant time.
    pub(crate) fn of(node: &Link) -> Result<NewPoints, AllocError>
        ensures { IfOk result (λ p. p ≡ points_of_node (linked node.now)) }
    {
        Ok(NewPoints {
            node: node.seen().share()?,
        })
    }

    /// The points, in order. It takes constant time and no memory.
    pub fn as_slice(&self) -> &[Point]
        ensures { result.now ≡ self.now }
    {
        match &self.node.node {
            None => &[],
            Some(node) => match &**node {
                NodeData::Leaf { points, .. } => points,
                NodeData::Inner { .. } => &[],
            },
        }
    }
}

/// The slots of a node that a commit wrote: 64 of an inner node, and none of a leaf. It shares the node with the tree.
#[derive(Drop)]
pub struct NewSlots {
    node: Link,
}

impl Model for NewSlots {
    ghost use Rattle.std.specs.Prelude.{List};
    ghost use Rattle.btr_tree.specs.declared.node.Slot.{Slot};
    ghost use Rattle.btr_tree.specs.NewNodes.{slots_of_node};
    ghost use Rattle.btr_tree.specs.Slots.{linked};

    ghost Value = { List Slot };

    ghost view = { λ s. slots_of_node (linked s.node) };
}

impl NewSlots {
    /// The slots of no node.
    pub(crate) fn none() -> NewSlots
        ensures { result ≡ [] }
    {
        NewSlots { node: Link::none() }
    }

    /// The slots of a node, in constant time.
    pub(crate) fn of(node: &Link) -> Result<NewSlots, AllocError>
        ensures { IfOk result (λ s. s ≡ slots_of_node (linked node.now)) }
    {
        Ok(NewSlots {
            node: node.seen().share()?,
        })
    }

    /// How many slots there are: 64, or 0. It takes constant time and no memory.
    pub fn len(&self) -> usize
        ensures { result ≡ length self.now }
    {
        match &self.node.node {
            None => 0,
            Some(node) => match &**node {
                NodeData::Leaf { .. } => 0,
                NodeData::Inner { .. } => usize::from(FAN_OUT),
            },
        }
    }

    /// The slot of a number, or `None` if there are not that many. It takes constant time and no memory.
    pub fn get(&self, i: u8) -> Option<Slot>
        ensures { result ≡ slice_get self.now i }
    {
        match &self.node.node {
            None => None,
            Some(node) => match &**node {
                NodeData::Leaf { .. } => None,
                NodeData::Inner { slots, .. } if i < FAN_OUT => Some(slots.addressed(i)),
                NodeData::Inner { .. } => None,
            },
        }
    }
}
