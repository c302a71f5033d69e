//! The tree of the next version of a stream.
ghost use Rattle.std.specs.Prelude.{◌≤◌, List, length, IfOk, IfErr, OnOk};
ghost use Rattle.btr_base.specs.declared.point.Point.{Point as PointSpec};
ghost use Rattle.btr_base.specs.declared.limits.TheConstants.{MAX_POINTS};
ghost use Rattle.btr_base.specs.Bag.{IsInOrder};
ghost use Rattle.btr_base.specs.Point.{AreInDomain};
ghost use Rattle.btr_tree.specs.Root.{IsTreeFault};
ghost use Rattle.btr_hist.specs.Legal.{version_rejection, points_rejection};
ghost use Rattle.btr_streams.specs.Board.{HasPast, AreTrees};
ghost use Rattle.btr_streams.specs.Stage.{PushCause, OfEachStream, IsNextCommit, IsAllowedNext, change_in, WritesNext};

use crate::board::PushFault;
use crate::making::TreeMaker;
use btr_base::MAX_VERSIONS;
use btr_board::Trail;
use btr_hist::Rejection;
use btr_tree::{Label, NewNode, Steps, Tree, TreeCommit, TreeFault};
use std::alloc::Global;

/// The label of the counters of the nodes that a staged commit writes.
struct StageWalk;

impl Label for StageWalk {}

/// The next version of a stream: its tree, the new nodes, and the block of the root, or 0 if it has no point.
#[derive(Drop)]
pub(crate) struct NextVersion {
    pub(crate) tree: Tree,
    pub(crate) nodes: Vec<NewNode>,
    pub(crate) root: u64,
}

/// Returns the tree of the next version of a stream with these trees, if the stream may have the version and its points, and what
/// the version writes. The added points lie in the domain.
pub(crate) fn next_tree<M: TreeMaker>(
    maker: &M,
    alloc: Global,
    trees: &Trail<Tree>,
    commit: &TreeCommit<'_>,
) -> Result<NextVersion, PushFault>
    requires able { M.can_make }
    requires trees { AreTrees trees.now }
    requires commit { IsNextCommit trees.now commit.now }
    ensures next { IfOk result (λ v. IsAllowedNext trees.now (change_in commit.now) v.tree) }
    ensures cause { IfErr result (λ f. OfEachStream trees.now
        (λ h stream. PushCause (version_rejection h stream (change_in commit.now)) f)) }
    ensures grown { IfOk result (λ v. HasPast v.tree) }
    ensures few { OnOk result ((length trees.now ≤ MAX_VERSIONS) × (length commit.now.added.now ≤ MAX_POINTS)) }
    ensures writes { IfOk result (λ v. WritesNext commit.now.first trees.now (change_in commit.now) v.tree v.nodes.items v.root) }
{
    let latest = trees.len() - 1;
    if latest >= MAX_VERSIONS {
        return Err(PushFault::Rejected(Rejection::VersionLimit));
    }
    let Some(last) = trees.get(latest) else {
        unreachable!()
    };
    let mut steps = Steps::<StageWalk>::new();
    match maker.apply(alloc, last, commit, &mut steps) {
        Ok(applied) => {
            let root = applied.tree.root();
            Ok(NextVersion {
                tree: applied.tree,
                nodes: applied.nodes,
                root,
            })
        }
        Err(fault) => Err(push_fault(fault)),
    }
}

/// Converts a fault of the tree.
fn push_fault(fault: TreeFault) -> PushFault
    ensures { (b : List PointSpec) → IsTreeFault b fault → IsInOrder b → AreInDomain b → PushCause (points_rejection b) result }
{
    match fault {
        TreeFault::Crowded { start } => PushFault::Rejected(Rejection::Crowded { start }),
        TreeFault::TooManyPoints { count } => PushFault::Rejected(Rejection::TooManyPoints {
            count,
        }),
        TreeFault::Want => PushFault::Want,
    }
}
