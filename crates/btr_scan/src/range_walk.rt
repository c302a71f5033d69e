//! The points of a range.
ghost use Rattle.std.specs.Prelude.{◌≡◌, ◌++◌, ◌≤◌, IfOk, IfErr, OnOk};
ghost use Rattle.btr_base.specs.Bag.{within};
ghost use Rattle.btr_tree.specs.History.{bag};
ghost use Rattle.btr_tree.specs.Root.{AtEachTree};
ghost use Rattle.btr_tree.specs.Spots.{AtEachRoot, AtEachPossibleRoot, IsHarmlessFault, IsWalkCause};

use crate::span_walk::append_in_place;
use btr_base::{END, FIRST, Point, Range};
use btr_tree::{
    Fetched, Label, Memory, NodeFault, Nodes, Root, Steps, Tree, WalkFault, find_root, root_span,
};
use std::alloc::{AllocError, Global};

/// The label of the counters of walks over a range, on whose nodes no bound is claimed.
struct RangeWalk;

impl Label for RangeWalk {}

/// Returns the points of a version with `from <= time < to`, by time and value (BTrDB's GetRange). Equal points each count.
/// The cost is its points, and the nodes on the way to the two ends of the range. An `Err` is out of memory.
pub fn range(alloc: Global, tree: &Tree, range: Range) -> Result<Vec<Point>, AllocError>
    ensures { IfOk result (λ v. AtEachTree tree.now (λ h. v.items ≡ within range.from range.to (bag h))) }
{
    let mut rows = Vec::new(alloc);
    append_range(tree, range, &mut rows)?;
    Ok(rows)
}

/// Appends the points of a version in a range, as [`range`] returns them. An `Err` is out of memory, and a part of them may
/// have been appended.
pub fn append_range(tree: &Tree, range: Range, rows: &mut Vec<Point>) -> Result<(), AllocError>
    ensures { OnOk result (AtEachTree tree.now (λ h. rows.new.items ≡ rows.old.items ++ within range.from range.to (bag h))) }
{
    let mut steps = Steps::<RangeWalk>::new();
    prove!(FIRST < range.to && range.from < END);
    match append_in_place::<Memory<'_>, RangeWalk>(
        &mut (),
        root_span(),
        tree.link(),
        range,
        rows,
        &mut steps,
    ) {
        Ok(()) => Ok(()),
        Err(WalkFault::Want) => Err(AllocError),
        Err(WalkFault::Refused(never)) => match never {},
    }
}

/// Returns the points of a root's version with `from <= time < to`, by time and value, as [`range`] does for a tree in memory.
/// Equal points each count. It fetches pages one at a time. The cost is its points, one call of `nodes` for each node on the
/// way to them and to the two ends of the range, and one call more for the root.
///
/// `Failed` is a call that failed. `Damaged` names the root's block if that has no page of a root of the stream which is not
/// newer than the version; or the block of a slot's child if that has no page; or else the block whose page has a slot with
/// another span, count, version or stream than the page of its child. It is not returned if all pages of a past's tree are
/// there. An `Ok` is the answer for the whole tree, although pages of it may be lost. `Want` is out of memory.
pub fn range_from<N: Nodes>(
    alloc: Global,
    nodes: &mut N,
    root: Root,
    range: Range,
) -> Result<Vec<Point>, NodeFault>
    ensures rows { N.is_observable → IfOk result (λ v. AtEachPossibleRoot (N.IsPage (N.contents nodes.old)) root (λ h.
        v.items ≡ within range.from range.to (bag h))) }
    ensures sound { N.is_observable → IfErr result (λ e. AtEachRoot (N.IsPage (N.contents nodes.old)) root (λ h. IsHarmlessFault e)) }
    ensures same { N.contents nodes.new ≡ N.contents nodes.old }
    ensures rises { N.faults nodes.old ≤ N.faults nodes.new }
    ensures cause { IfErr result (IsWalkCause N.is_observable root (λ o. N.IsPage (N.contents nodes.old))
        (N.faults nodes.old) (N.faults nodes.new)) }
{
    let at = find_root(nodes, root)?;
    let mut rows = Vec::new(alloc);
    let mut steps = Steps::<RangeWalk>::new();
    prove!(FIRST < range.to && range.from < END);
    match append_in_place::<Fetched<N>, RangeWalk>(
        nodes,
        root_span(),
        at,
        range,
        &mut rows,
        &mut steps,
    ) {
        Ok(()) => Ok(rows),
        Err(WalkFault::Want) => Err(NodeFault::Want),
        Err(WalkFault::Refused(fault)) => Err(fault),
    }
}
