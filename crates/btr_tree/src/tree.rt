ghost use Rattle.std.specs.Prelude.{◌≡◌, ◌⊎◌, None, ◌≤◌, ◌^◌, length, IfOk, IfErr};
ghost use Rattle.btr_base.specs.Agg.{agg};
ghost use Rattle.btr_base.specs.Point.{AreInDomain};
ghost use Rattle.btr_base.specs.declared.limits.TheConstants.{FIRST as FIRST_TIME};
ghost use Rattle.btr_tree.specs.History.{Past, bag, nothing};
ghost use Rattle.btr_tree.specs.Nodes.{above_root};
ghost use Rattle.btr_tree.specs.Shape.{IsChild};
ghost use Rattle.btr_tree.specs.Change.{IsSomeChild};
ghost use Rattle.btr_tree.specs.Slots.{node_of, block_of};
ghost use Rattle.btr_tree.specs.Root.{IsTree, AtEachTree, root_part, version_of};
ghost use Rattle.btr_tree.specs.Applied.{IsAppliedTo, IsApplyFault};

use crate::aggregate::agg_of_child;
use crate::apply::apply_slot;
use crate::commit::{Numbering, OldSlot, SpanCommit, TreeCommit};
use crate::fault::TreeFault;
use crate::new_node::NewNode;
use crate::node::{Child, Link, Slot};
use crate::root::root_span;
use crate::shared::{SHARED_POINTS, build_counted};
use crate::steps::Steps;
use crate::work::Work;
use btr_base::{Agg, MAX_POINTS, ROOT_HEIGHT, Span};
use std::alloc::{AllocError, Global};
use std::marker::{Model, Sync};
use std::thread::Threads;

/// The points of one version of a stream, by time (BTrDB, FAST 2016). Trees of several versions share what they have in
/// common, in any threads. A tree that was made of nodes read from a device may also be the part of a version in one span.
#[derive(Drop)]
pub struct Tree {
    pub(crate) span: Span,
    pub(crate) root: Link,
    pub(crate) agg: Agg,
}

impl Model for Tree {
    ghost use Rattle.std.specs.Coded.{codes};
    ghost use Rattle.btr_tree.specs.contracts.node.NodeData as node_contract;
    ghost use Rattle.btr_tree.specs.Root.{TreeValue, IsSomeTree};
    ghost use Rattle.btr_tree.specs.Slots.{linked};

    ghost Value = { TreeValue };

    ghost coded = { Prim.hlevel (codes, node_contract.the_row.coded) };

    ghost view = { λ t. record { span = t.span; node = linked t.root; total = t.agg } };

    ghost invariant = { λ t. IsSomeTree (record { span = t.span; node = linked t.root; total = t.agg }) };
}

/// A commit that was applied: the new tree, and the nodes that it wrote, children before parents.
#[derive(Drop)]
pub struct Applied {
    pub tree: Tree,
    pub nodes: Vec<NewNode>,
}

impl Tree {
    /// The tree of no commit. It takes no memory.
    pub fn empty() -> Tree
        ensures { IsTree nothing result }
    {
        Tree {
            span: root_span(),
            root: Link::none(),
            agg: Agg::none(),
        }
    }

    /// The same tree once more, in constant time. An `Err` is out of memory.
    pub fn share(&self) -> Result<Tree, AllocError>
        ensures { IfOk result (λ t. t ≡ self.now) }
    {
        Ok(Tree {
            span: self.span,
            root: self.root.seen().share()?,
            agg: self.agg,
        })
    }

    /// How many points there are, in constant time. It takes no memory.
    pub fn count(&self) -> u64
        ensures { AtEachTree self.now (λ h. result ≡ length (bag h)) }
    {
        let agg = &self.agg;
        agg.count
    }

    /// The aggregate of all points, in constant time. It takes no memory.
    pub fn root_agg(&self) -> Agg
        ensures { AtEachTree self.now (λ h. result ≡ agg (bag h)) }
    {
        self.agg
    }

    /// The block of the root on the device, or 0 if there is no point, in constant time. It takes no memory.
    pub fn root(&self) -> u64
        ensures { result ≡ block_of self.now.node }
    {
        self.root.seen().block()
    }

    /// The span, in constant time. It takes no memory.
    pub fn span(&self) -> Span
        ensures { result ≡ self.now.span }
    {
        self.span
    }

    /// The version of the root, or 0 if there is no point, in constant time. It takes no memory.
    pub fn version(&self) -> u64
        ensures { result ≡ version_of self.now.node }
    {
        self.root.seen().version()
    }

    /// The link to the root, whose span is the whole domain, in constant time. It takes no memory. If the tree is the part of a
    /// version in one span, it is the link to no node.
    pub fn link(&self) -> Child<'_>
        ensures child { AtEachTree self.now (λ h. IsChild 10 FIRST_TIME above_root h (node_of result)) }
        ensures some { IsSomeChild 10 FIRST_TIME (node_of result) 0 }
    {
        let (link, _agg) = self.whole();
        link
    }

    /// The root and the aggregate, or those of no point if the span is not the whole domain.
    fn whole(&self) -> (Child<'_>, Agg)
        ensures some { (h : Past) × IsTree h (record { span = root_part; node = node_of result.0; total = result.1 }) }
        ensures same { AtEachTree self.now (λ h. (node_of result.0 ≡ self.now.node) × (result.1 ≡ self.now.total)) }
        ensures either { (node_of result.0 ≡ self.now.node) ⊎ (node_of result.0 ≡ None) }
    {
        if self.span.height < ROOT_HEIGHT {
            return (Child { node: None }, Agg::none());
        }
        (self.root.seen(), self.agg)
    }

    /// Applies a commit: removes the points whose time its `cut` covers, and then adds the points of its `added`. This tree stays as
    /// it is. The new tree shares each node whose span the commit does not touch. The cost is the nodes on the way to each
    /// added point and to each end of a range of the cut, and one merge a leaf.
    ///
    /// Returns the nodes that it wrote, children before parents. They are exactly those nodes of the new tree that have
    /// `version`, if that is at least 1 and above the versions of all commits before. It counts exactly one step for each.
    /// They are at most 11 for each end of a range of the cut, and 11 times 253 for each added point.
    ///
    /// The n-th of them, counted from 0, is for the block `first + n` of the device, and a slot has the block of its child. So
    /// each node has its own block, above those of the nodes below it. If this tree is stored in blocks before `first`, then
    /// the new tree is stored once these nodes are in their blocks.
    ///
    /// Returns `Crowded`, with the first such start, exactly if a bottom span would have more than 252 points. Else returns
    /// `TooManyPoints`, with their number, exactly if there would be more than 2^32 points. `Want` is out of memory, which
    /// may come in place of any answer.
    pub fn apply<L>(
        &self,
        alloc: Global,
        commit: &TreeCommit<'_>,
        steps: &mut Steps<L>,
    ) -> Result<Applied, TreeFault>
        requires added { AreInDomain commit.now.added.now }
        requires first { (1 ≤ commit.now.first) × (commit.now.first ≤ 2 ^ 33) }
        ensures applied { IfOk result (IsAppliedTo self.now commit.now steps.old steps.new) }
        ensures fault { IfErr result (IsApplyFault self.now commit.now) }
    {
        prove!(steps.count() <= u64::MAX);
        let mut nodes = Vec::new(alloc);
        let (link, total) = self.whole();
        let whole = Slot {
            agg: total,
            version: 0,
            child: 0,
        };
        let was = OldSlot {
            slot: whole,
            child: link,
        };
        let part = SpanCommit {
            cut: commit.cut.as_slice(),
            added: commit.added.as_slice(),
            numbering: Numbering {
                version: commit.version,
                first: commit.first,
            },
        };
        let (slot, root) = apply_slot(alloc, root_span(), &was, part, &mut nodes, steps)?;
        let agg = slot.agg;
        if agg.count > MAX_POINTS {
            return Err(TreeFault::TooManyPoints { count: agg.count });
        }
        Ok(Applied {
            tree: Tree {
                span: root_span(),
                root,
                agg,
            },
            nodes,
        })
    }

    /// Returns what [`Tree::apply`] returns. If this tree has no point, and the added points are at least 10,000 and at most 2^32,
    /// then the new tree is made by at most `threads` threads, the calling one among them. Each has a share of the points, by
    /// whole slots. Otherwise the calling thread makes it.
    pub fn apply_shared<R: Threads + Sync, L>(
        &self,
        rt: &R,
        alloc: Global,
        commit: &TreeCommit<'_>,
        threads: usize,
        steps: &mut Steps<L>,
    ) -> Result<Applied, TreeFault>
        requires added { AreInDomain commit.now.added.now }
        requires first { (1 ≤ commit.now.first) × (commit.now.first ≤ 2 ^ 33) }
        ensures applied { IfOk result (IsAppliedTo self.now commit.now steps.old steps.new) }
        ensures fault { IfErr result (IsApplyFault self.now commit.now) }
    {
        let points = commit.added.as_slice();
        let count = points.len();
        if threads < 2
            || count < SHARED_POINTS
            || count as u64 > MAX_POINTS
            || self.root.is_some()
        {
            return self.apply(alloc, commit, steps);
        }
        let span = root_span();
        let work = Work {
            span,
            points,
            numbering: Numbering {
                version: commit.version,
                first: commit.first,
            },
        };
        let built = build_counted(rt, alloc, &work, threads, steps)?;
        let agg = agg_of_child(built.root.seen());
        Ok(Applied {
            tree: Tree {
                span,
                root: built.root,
                agg,
            },
            nodes: built.nodes,
        })
    }
}
