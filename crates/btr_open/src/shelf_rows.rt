//! The answers that are read from fetched nodes, each for the root of a version.
ghost use Rattle.std.specs.Prelude.{◌≡◌, ◌≤◌, ◌^◌, IfOk, IfErr};
ghost use Rattle.btr_base.specs.declared.limits.TheConstants.{FIRST as BEGIN, END as STOP};
ghost use Rattle.btr_base.specs.Agg.{agg_within};
ghost use Rattle.btr_base.specs.Bag.{within};
ghost use Rattle.btr_base.specs.Nearest.{nearest};
ghost use Rattle.btr_base.specs.Windows.{aligned, windows};
ghost use Rattle.btr_base.specs.Changes.{changes};
ghost use Rattle.btr_hist.specs.declared.answer.Answer.TheVariants.{Found};
ghost use Rattle.btr_hist.specs.declared.answer.Rows.TheVariants as row;
ghost use Rattle.btr_hist.specs.declared.answer.Rows.TheVariants.{Ranges};
ghost use Rattle.btr_hist.specs.Answer.{list_of};
ghost use Rattle.btr_tree.specs.History.{bag};
ghost use Rattle.btr_tree.specs.Nodes.{up_to};
ghost use Rattle.btr_tree.specs.Spots.{AtEachRoot, AtEachPossibleRoot, IsHarmlessFault, IsWalkCause};
ghost use Rattle.btr_diff.specs.FetchedRoots.{AtBothRoots, AtBothPossibleRoots as AtBoth, IsCompareCause};

use btr_base::{END, FIRST, Point, Range, Toward};
use btr_diff::changes_from;
use btr_hist::{Answer, CellList, PointList, Reads, Rows};
use btr_scan::{nearest_from, range_from};
use btr_tree::{Label, NodeFault, Nodes, Root, Steps};
use btr_window::{aggregate_from, aligned_from, windows_from};
use std::alloc::{AllocError, Global};

/// The label of the counters of walks that answer questions.
struct ShelfWalk;

impl Label for ShelfWalk {}

/// Answers with the points of a range.
pub(crate) fn points_at<N: Nodes>(
    nodes: &mut N,
    alloc: Global,
    root: Root,
    range: Range,
) -> Result<Answer, NodeFault>
    ensures answer { N.is_observable → IfOk result (λ a. AtEachPossibleRoot (N.IsPage (N.contents nodes.old)) root (λ h.
        a ≡ Found root.version (row.Points (within range.from range.to (bag h))))) }
    ensures sound { N.is_observable → IfErr result (λ e. AtEachRoot (N.IsPage (N.contents nodes.old)) root (λ h. IsHarmlessFault e)) }
    ensures same { N.contents nodes.new ≡ N.contents nodes.old }
    ensures rises { N.faults nodes.old ≤ N.faults nodes.new }
    ensures cause { IfErr result (IsWalkCause N.is_observable root (λ o. N.IsPage (N.contents nodes.old))
        (N.faults nodes.old) (N.faults nodes.new)) }
{
    match range_from(alloc, nodes, root, range) {
        Ok(found) => Ok(Answer::Found {
            version: root.version,
            rows: Rows::Points(PointList::from_points(found)),
        }),
        Err(fault) => Err(fault),
    }
}

/// Answers with the point nearest to a time.
pub(crate) fn nearest_at<N: Nodes>(
    nodes: &mut N,
    alloc: Global,
    root: Root,
    time: i64,
    toward: Toward,
) -> Result<Answer, NodeFault>
    ensures answer { N.is_observable → IfOk result (λ a. AtEachPossibleRoot (N.IsPage (N.contents nodes.old)) root (λ h.
        a ≡ Found root.version (row.Points (list_of (nearest toward time (bag h)))))) }
    ensures sound { N.is_observable → IfErr result (λ e. AtEachRoot (N.IsPage (N.contents nodes.old)) root (λ h. IsHarmlessFault e)) }
    ensures same { N.contents nodes.new ≡ N.contents nodes.old }
    ensures rises { N.faults nodes.old ≤ N.faults nodes.new }
    ensures cause { IfErr result (IsWalkCause N.is_observable root (λ o. N.IsPage (N.contents nodes.old))
        (N.faults nodes.old) (N.faults nodes.new)) }
{
    let mut steps = Steps::<ShelfWalk>::new();
    match nearest_from(nodes, root, time, toward, &mut steps) {
        Ok(point) => point_answer(alloc, root.version, point),
        Err(fault) => Err(fault),
    }
}

/// Answers with the aligned windows that meet a range.
pub(crate) fn aligned_at<N: Nodes>(
    nodes: &mut N,
    alloc: Global,
    root: Root,
    range: Range,
    p: u8,
) -> Result<Answer, NodeFault>
    requires { p ≤ 62 }
    ensures answer { N.is_observable → IfOk result (λ a. AtEachPossibleRoot (N.IsPage (N.contents nodes.old)) root (λ h.
        a ≡ Found root.version (row.Cells (aligned p range.from range.to (bag h))))) }
    ensures sound { N.is_observable → IfErr result (λ e. AtEachRoot (N.IsPage (N.contents nodes.old)) root (λ h. IsHarmlessFault e)) }
    ensures same { N.contents nodes.new ≡ N.contents nodes.old }
    ensures rises { N.faults nodes.old ≤ N.faults nodes.new }
    ensures cause { IfErr result (IsWalkCause N.is_observable root (λ o. N.IsPage (N.contents nodes.old))
        (N.faults nodes.old) (N.faults nodes.new)) }
{
    match aligned_from(alloc, nodes, root, range, p) {
        Ok(found) => Ok(Answer::Found {
            version: root.version,
            rows: Rows::Cells(CellList::from_cells(found)),
        }),
        Err(fault) => Err(fault),
    }
}

/// Answers with the windows of a width, from the start of a range on.
pub(crate) fn windows_at<N: Nodes>(
    nodes: &mut N,
    alloc: Global,
    root: Root,
    range: Range,
    width: u64,
) -> Result<Answer, NodeFault>
    requires some { 1 ≤ width }
    requires most { width ≤ 2 ^ 62 }
    ensures answer { N.is_observable → IfOk result (λ a. AtEachPossibleRoot (N.IsPage (N.contents nodes.old)) root (λ h.
        a ≡ Found root.version (row.Cells (windows width range.from range.to (bag h))))) }
    ensures sound { N.is_observable → IfErr result (λ e. AtEachRoot (N.IsPage (N.contents nodes.old)) root (λ h. IsHarmlessFault e)) }
    ensures same { N.contents nodes.new ≡ N.contents nodes.old }
    ensures rises { N.faults nodes.old ≤ N.faults nodes.new }
    ensures cause { IfErr result (IsWalkCause N.is_observable root (λ o. N.IsPage (N.contents nodes.old))
        (N.faults nodes.old) (N.faults nodes.new)) }
{
    match windows_from(alloc, nodes, root, range, width) {
        Ok(found) => Ok(Answer::Found {
            version: root.version,
            rows: Rows::Cells(CellList::from_cells(found)),
        }),
        Err(fault) => Err(fault),
    }
}

/// Answers with the slots in which two versions differ.
pub(crate) fn changes_at<N: Nodes>(
    nodes: &mut N,
    alloc: Global,
    old: Root,
    new: Root,
    p: u8,
) -> Result<Answer, NodeFault>
    requires { p ≤ 62 }
    ensures answer { N.is_observable → IfOk result (λ a. AtBoth (N.IsPage (N.contents nodes.old)) old new (λ h k.
        h ≡ up_to old.version k → a ≡ Found new.version (Ranges (changes p (bag h) (bag k))))) }
    ensures sound { N.is_observable → IfErr result (λ e. AtBothRoots (N.IsPage (N.contents nodes.old)) old new
        (λ h k. IsHarmlessFault e)) }
    ensures same { N.contents nodes.new ≡ N.contents nodes.old }
    ensures rises { N.faults nodes.old ≤ N.faults nodes.new }
    ensures cause { IfErr result (IsCompareCause N.is_observable old new (λ o. N.IsPage (N.contents nodes.old))
        (N.faults nodes.old) (N.faults nodes.new)) }
{
    let mut steps = Steps::<ShelfWalk>::new();
    match changes_from::<N, ShelfWalk, ShelfWalk>(alloc, nodes, old, new, p, &mut steps) {
        Ok(found) => Ok(Answer::Found {
            version: new.version,
            rows: Rows::Ranges(found),
        }),
        Err(fault) => Err(fault),
    }
}

/// Answers with the aggregate of a whole version, the kind of the stream, and what the version has read.
pub(crate) fn info_at<N: Nodes>(
    nodes: &mut N,
    root: Root,
    output: bool,
    reads: Option<Reads>,
) -> Result<Answer, NodeFault>
    ensures answer { N.is_observable → IfOk result (λ a. AtEachPossibleRoot (N.IsPage (N.contents nodes.old)) root (λ h.
        a ≡ Found root.version (row.Info output (agg_within BEGIN STOP (bag h)) reads))) }
    ensures sound { N.is_observable → IfErr result (λ e. AtEachRoot (N.IsPage (N.contents nodes.old)) root (λ h. IsHarmlessFault e)) }
    ensures same { N.contents nodes.new ≡ N.contents nodes.old }
    ensures rises { N.faults nodes.old ≤ N.faults nodes.new }
    ensures cause { IfErr result (IsWalkCause N.is_observable root (λ o. N.IsPage (N.contents nodes.old))
        (N.faults nodes.old) (N.faults nodes.new)) }
{
    let all = Range {
        from: FIRST,
        to: END,
    };
    let mut steps = Steps::<ShelfWalk>::new();
    match aggregate_from(nodes, root, all, &mut steps) {
        Ok(agg) => Ok(Answer::Found {
            version: root.version,
            rows: Rows::Info { output, agg, reads },
        }),
        Err(fault) => Err(fault),
    }
}

/// Answers with one point or none. It is refused only for memory.
fn point_answer(alloc: Global, version: u64, point: Option<Point>) -> Result<Answer, NodeFault>
    ensures answer { IfOk result (λ a. a ≡ Found version (row.Points (list_of point))) }
    ensures want { IfErr result (λ e. e ≡ NodeFault.Want) }
{
    match list_of(alloc, point) {
        Ok(found) => Ok(Answer::Found {
            version,
            rows: Rows::Points(PointList::from_points(found)),
        }),
        Err(_) => Err(NodeFault::Want),
    }
}

/// One point or none as a list. An `Err` means out of memory.
fn list_of(alloc: Global, point: Option<Point>) -> Result<Vec<Point>, AllocError>
    ensures { IfOk result (λ v. v.items ≡ list_of point) }
{
    let mut points = Vec::new(alloc);
    if let Some(point) = point {
        points.push(point)?;
    }
    Ok(points)
}
