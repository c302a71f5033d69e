//! Nodes in memory, and what a walk sees of them.
ghost use Rattle.std.specs.Prelude.{◌≡◌, ◌+◌, min, false, IfOk, OnOk, Some, None};
ghost use Rattle.btr_tree.specs.Slots.{linked, node_of, block_of};
ghost use Rattle.btr_tree.specs.Root.{version_of};

use crate::slots::Slots;
use crate::steps::Steps;
use btr_base::{Agg, Point};
use std::alloc::{AllocError, Global};
use std::sync::Arc;

/// What an inner node knows of a slot beside its child.
#[derive(Clone, Copy)]
pub struct Slot {
    /// The aggregate of the slot's points.
    pub agg: Agg,

    /// The version of the newest commit that changed the slot's points, or that made the span above an inner node.
    pub version: u64,

    /// The child's address on the device, or 0 if it has none.
    pub child: u64,
}

/// The node of a span, or none if the span has no point. Versions and threads share the node.
#[cycle(node)]
#[derive(Drop)]
pub(crate) struct Link {
    pub(crate) node: Option<Arc<NodeData, Global>>,
}

/// What a tree keeps of a span that has a point (BTrDB, FAST 2016), and the block of the node on the device.
#[cycle(node)]
#[derive(Drop)]
pub(crate) enum NodeData {
    /// The points, at most 252, by time and value.
    Leaf {
        block: u64,
        version: u64,
        points: Vec<Point>,
    },

    /// More than 252 points, in 64 slots in order of time. A slot has a child if it has a point.
    Inner {
        block: u64,
        version: u64,
        slots: Slots,
    },
}

/// The link to the node of a span, or to none if the span has no point. [`crate::visit`] is the only way from a link to its
/// node.
#[derive(Clone, Copy)]
pub struct Child<'a> {
    pub(crate) node: Option<&'a Arc<NodeData, Global>>,
}

/// A node that was visited.
#[derive(Clone, Copy)]
pub enum Node<'a> {
    /// The points, at most 252, by time and value.
    Leaf { version: u64, points: &'a [Point] },

    /// More than 252 points, in 64 slots in order of time.
    Inner { version: u64, slots: &'a Slots },
}

impl Link {
    /// A link to no node.
    pub(crate) fn none() -> Link
        ensures { linked result ≡ None }
    {
        Link { node: None }
    }

    /// Whether there is a node.
    pub(crate) fn is_some(&self) -> bool
        ensures { result ≡ false → linked self.now ≡ None }
    {
        self.node.is_some()
    }

    /// Makes a node, which is one step. No other call makes a node.
    pub(crate) fn new<L>(
        alloc: Global,
        node: NodeData,
        steps: &mut Steps<L>,
    ) -> Result<Link, AllocError>
        ensures node { IfOk result (λ l. linked l ≡ Some node) }
        ensures counted { OnOk result (steps.new ≡ min (steps.old + 1) 18446744073709551615) }
    {
        let shared = Arc::new(alloc, node)?;
        steps.tick();
        Ok(Link { node: Some(shared) })
    }

    /// The link as a walk sees it.
    pub(crate) fn seen(&self) -> Child<'_>
        ensures { node_of result ≡ linked self.now }
    {
        match &self.node {
            None => Child { node: None },
            Some(node) => Child { node: Some(node) },
        }
    }
}

impl Child<'_> {
    /// The block of the node on the device, or 0 if there is no node.
    pub(crate) fn block(self) -> u64
        ensures { result ≡ block_of (node_of self.entry) }
    {
        match self.node {
            None => 0,
            Some(node) => match &**node {
                NodeData::Leaf { block, .. } => *block,
                NodeData::Inner { block, .. } => *block,
            },
        }
    }

    /// The version of the node, or 0 if there is no node.
    pub(crate) fn version(self) -> u64
        ensures { result ≡ version_of (node_of self.entry) }
    {
        match self.node {
            None => 0,
            Some(node) => match &**node {
                NodeData::Leaf { version, .. } => *version,
                NodeData::Inner { version, .. } => *version,
            },
        }
    }

    /// A link to the same node, in constant time.
    pub(crate) fn share(self) -> Result<Link, AllocError>
        ensures { IfOk result (λ l. linked l ≡ node_of self.entry) }
    {
        match self.node {
            None => Ok(Link { node: None }),
            Some(node) => Ok(Link {
                node: Some(Arc::try_clone(node)?),
            }),
        }
    }
}
