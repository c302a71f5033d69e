//! The aggregates of the windows of a range.
ghost use Rattle.std.specs.Prelude.{◌≡◌, ◌+◌, ◌≤◌, ◌^◌, ◌<◌, IfOk, IfErr, OnOk};
ghost use Rattle.btr_base.specs.Windows.{IsGrid, cells as cells_between, aligned as aligned_of, windows as windows_of};
ghost use Rattle.btr_tree.specs.History.{Past, bag};
ghost use Rattle.btr_tree.specs.Root.{IsTree};
ghost use Rattle.btr_tree.specs.Slots.{IsOccupied};
ghost use Rattle.btr_tree.specs.NodeSource.{AtEachPlace, AtEachSlots, AreSafeSlots, count_in, IfRefused, UsesSource};
ghost use Rattle.btr_tree.specs.NodeSource.{ForPlace, ForSlots, ForSlot};
ghost use Rattle.btr_tree.specs.Spots.{AtEachRoot, AtEachPossibleRoot, IsHarmlessFault, IsWalkCause};
ghost use Rattle.btr_window.specs.Accumulate.{AddsWithin, HaveAtMost, HaveRoom, IsStart, MeetsWindows};
ghost use Rattle.btr_window.specs.RangeEnds.{IsSafeSlot};

use crate::accumulate::{add_part, add_points, start_around};
use crate::inside::is_inside;
use crate::part::{Part, WindowRange};
use crate::whole_windows::whole_windows;
use btr_base::{Cell, END, FIRST, Grid, Range, Span, points_between};
use btr_tree::{
    Fetched, FoundNode, Label, Memory, NodeFault, NodeSource, Nodes, Root, Steps, Tree, WalkFault,
    find_root, root_span,
};
use std::alloc::{AllocError, Global};

/// The label of the counters of walks over windows, on whose nodes no bound is claimed.
struct WindowWalk;

impl Label for WindowWalk {}

/// Returns the aligned windows that meet a range and have a point, in order, each whole: those of `2^p` ns from the
/// first time of the domain on (BTrDB's GetStatisticalRange). `p` is 0 to 62, the caller's condition.
///
/// It costs its windows, and of the tree the nodes in which a window starts or ends, in one walk. An `Err` is out of
/// memory.
pub fn aligned(alloc: Global, tree: &Tree, range: Range, p: u8) -> Result<Vec<Cell>, AllocError>
    requires { p ≤ 62 }
    ensures { IfOk result (λ v. (h : Past) → IsTree h tree.now → v.items ≡ aligned_of p range.from range.to (bag h)) }
{
    let grid = Grid::aligned(p);
    let whole = whole_windows(grid, range);
    cells_of(alloc, tree, grid, whole)
}

/// Returns the windows of a width, in nanoseconds, side by side from the start of a range on, that end at or before its
/// end and have a point, in order. The width is 1 to 2^62, the caller's condition.
///
/// It costs its windows, and of the tree the nodes in which a window starts or ends, in one walk. From one window to
/// the next it adds the width, and divides only after a gap. An `Err` is out of memory.
pub fn windows(
    alloc: Global,
    tree: &Tree,
    range: Range,
    width: u64,
) -> Result<Vec<Cell>, AllocError>
    requires some { 1 ≤ width }
    requires most { width ≤ 2 ^ 62 }
    ensures { IfOk result (λ v. (h : Past) → IsTree h tree.now → v.items ≡ windows_of width range.from range.to (bag h)) }
{
    let grid = Grid {
        first: range.from,
        width,
    };
    let to = grid.begin_of(range.to);
    if to == range.from {
        return Ok(Vec::new(alloc));
    }
    cells_of(
        alloc,
        tree,
        grid,
        Range {
            from: range.from,
            to,
        },
    )
}

/// Returns the windows of a grid with a point in a range that starts and ends where windows do.
fn cells_of(alloc: Global, tree: &Tree, grid: Grid, range: Range) -> Result<Vec<Cell>, AllocError>
    requires grid { IsGrid grid.first grid.width }
    requires begins { IsStart grid range.from }
    requires ends { IsStart grid range.to }
    ensures { IfOk result (λ v. (h : Past) → IsTree h tree.now
        → v.items ≡ cells_between grid.first grid.width range.from range.to (bag h)) }
{
    prove!(FIRST < range.to && range.from < END);
    let mut cells = Vec::new(alloc);
    let mut steps = Steps::<WindowWalk>::new();
    let windows = WindowRange { grid, range };
    match walk_place::<Memory<'_>, WindowWalk>(
        &mut (),
        root_span(),
        tree.link(),
        &windows,
        &mut cells,
        &mut steps,
    ) {
        Ok(()) => Ok(cells),
        Err(WalkFault::Want) => Err(AllocError),
        Err(WalkFault::Refused(never)) => match never {},
    }
}

/// Returns the aligned windows of a root's version that meet a range and have a point, in order, each whole, as [`aligned`]
/// does for a tree in memory. `p` is 0 to 62, the caller's condition.
///
/// It fetches pages one at a time. It costs its windows, one call of `nodes` for each node in which a window starts or ends,
/// in one walk, and one call more for the root.
///
/// `Failed` is a call that failed. `Damaged` names the root's block if that has no page of a root of the stream which is not
/// newer than the version; or the block of a slot's child if that has no page; or else the block whose page has a slot with
/// another span, count, version or stream than the page of its child. It is not returned if all pages of a past's tree are
/// there. An `Ok` is the answer for the whole tree, although pages of it may be lost. `Want` is out of memory.
pub fn aligned_from<N: Nodes>(
    alloc: Global,
    nodes: &mut N,
    root: Root,
    range: Range,
    p: u8,
) -> Result<Vec<Cell>, NodeFault>
    requires { p ≤ 62 }
    ensures cells { N.is_observable → IfOk result (λ v. AtEachPossibleRoot (N.IsPage (N.contents nodes.old)) root (λ h.
        v.items ≡ aligned_of p range.from range.to (bag h))) }
    ensures sound { N.is_observable → IfErr result (λ e. AtEachRoot (N.IsPage (N.contents nodes.old)) root (λ h. IsHarmlessFault e)) }
    ensures same { N.contents nodes.new ≡ N.contents nodes.old }
    ensures rises { N.faults nodes.old ≤ N.faults nodes.new }
    ensures cause { IfErr result (IsWalkCause N.is_observable root (λ o. N.IsPage (N.contents nodes.old))
        (N.faults nodes.old) (N.faults nodes.new)) }
{
    let grid = Grid::aligned(p);
    let whole = whole_windows(grid, range);
    cells_from(alloc, nodes, root, grid, whole)
}

/// Returns the windows of a root's version of a width, in nanoseconds, side by side from the start of a range on, that end at
/// or before its end and have a point, in order, as [`windows`] does for a tree in memory. The width is 1 to 2^62, the
/// caller's condition.
///
/// It fetches pages one at a time. It costs its windows, one call of `nodes` for each node in which a window starts or ends,
/// in one walk, and one call more for the root. If no window fits into the range, it fetches none.
///
/// `Failed` is a call that failed. `Damaged` names the root's block if that has no page of a root of the stream which is not
/// newer than the version; or the block of a slot's child if that has no page; or else the block whose page has a slot with
/// another span, count, version or stream than the page of its child. It is not returned if all pages of a past's tree are
/// there. An `Ok` is the answer for the whole tree, although pages of it may be lost. `Want` is out of memory.
pub fn windows_from<N: Nodes>(
    alloc: Global,
    nodes: &mut N,
    root: Root,
    range: Range,
    width: u64,
) -> Result<Vec<Cell>, NodeFault>
    requires some { 1 ≤ width }
    requires most { width ≤ 2 ^ 62 }
    ensures cells { N.is_observable → IfOk result (λ v. AtEachPossibleRoot (N.IsPage (N.contents nodes.old)) root (λ h.
        v.items ≡ windows_of width range.from range.to (bag h))) }
    ensures sound { N.is_observable → IfErr result (λ e. AtEachRoot (N.IsPage (N.contents nodes.old)) root (λ h. IsHarmlessFault e)) }
    ensures same { N.contents nodes.new ≡ N.contents nodes.old }
    ensures rises { N.faults nodes.old ≤ N.faults nodes.new }
    ensures cause { IfErr result (IsWalkCause N.is_observable root (λ o. N.IsPage (N.contents nodes.old))
        (N.faults nodes.old) (N.faults nodes.new)) }
{
    let grid = Grid {
        first: range.from,
        width,
    };
    let to = grid.begin_of(range.to);
    if to == range.from {
        return Ok(Vec::new(alloc));
    }
    let whole = Range {
        from: range.from,
        to,
    };
    cells_from(alloc, nodes, root, grid, whole)
}

/// Returns the windows of a grid with a point of a root's version in a range that starts and ends where windows do.
fn cells_from<N: Nodes>(
    alloc: Global,
    nodes: &mut N,
    root: Root,
    grid: Grid,
    range: Range,
) -> Result<Vec<Cell>, NodeFault>
    requires grid { IsGrid grid.first grid.width }
    requires begins { IsStart grid range.from }
    requires ends { IsStart grid range.to }
    ensures cells { N.is_observable → IfOk result (λ v. AtEachPossibleRoot (N.IsPage (N.contents nodes.old)) root (λ h.
        v.items ≡ cells_between grid.first grid.width range.from range.to (bag h))) }
    ensures sound { N.is_observable → IfErr result (λ e. AtEachRoot (N.IsPage (N.contents nodes.old)) root (λ h. IsHarmlessFault e)) }
    ensures same { N.contents nodes.new ≡ N.contents nodes.old }
    ensures rises { N.faults nodes.old ≤ N.faults nodes.new }
    ensures cause { IfErr result (IsWalkCause N.is_observable root (λ o. N.IsPage (N.contents nodes.old))
        (N.faults nodes.old) (N.faults nodes.new)) }
{
    let at = find_root(nodes, root)?;
    prove!(FIRST < range.to && range.from < END);
    let mut cells = Vec::new(alloc);
    let mut steps = Steps::<WindowWalk>::new();
    let windows = WindowRange { grid, range };
    match walk_place::<Fetched<N>, WindowWalk>(
        nodes,
        root_span(),
        at,
        &windows,
        &mut cells,
        &mut steps,
    ) {
        Ok(()) => Ok(cells),
        Err(WalkFault::Want) => Err(NodeFault::Want),
        Err(WalkFault::Refused(fault)) => Err(fault),
    }
}

/// Adds to the windows the points of a span in a range that meets it. An `Err` is out of memory, or a refusal of the source,
/// and a part may have been added.
#[cycle(window_walk)]
fn walk_place<S: NodeSource, L>(
    state: &mut S::State,
    span: Span,
    at: S::Place,
    windows: &WindowRange,
    cells: &mut Vec<Cell>,
    steps: &mut Steps<L>,
) -> Result<(), WalkFault<S::Fault>>
    requires safe { S.IsSafe (S.told state.old) (S.site at) span.height span.start }
    requires room { HaveRoom windows.now.grid cells.old.items (S.count (S.site at)) }
    requires meets { MeetsWindows windows.now span }
    ensures cells { OnOk result (ForPlace (S.IsAt (S.told state.old)) (S.site at) span
        (AddsWithin windows.now cells.old.items cells.new.items)) }
    ensures few { OnOk result (HaveAtMost windows.now.grid cells.old.items cells.new.items (S.count (S.site at))) }
    ensures sound { IfErr result (IfRefused (λ e. AtEachPlace (S.IsThere (S.told state.old)) (S.site at) span (λ h. S.IsHarmless e))) }
    ensures uses { UsesSource S.told S.faults (λ t a b. IfRefused (S.IsCaused t a b)) state.old state.new result }
{
    match S::visit(state, span, at, steps) {
        Err(fault) => Err(WalkFault::Refused(fault)),
        Ok(found) => match found {
            FoundNode::Nothing => Ok(()),
            FoundNode::Leaf { points, .. } => {
                let range = windows.range;
                let here = points_between(S::points(&points), range.from, range.to);
                add_points(cells, windows.grid, here)?;
                Ok(())
            }
            FoundNode::Inner { slots, .. } => {
                walk_slots::<S, L>(state, span, &slots, windows, cells, steps)
            }
        },
    }
}

/// Adds to the windows the points of an inner node in a range. It walks from one slot with a point to the next, through those
/// that meet the range.
#[cycle(window_walk)]
fn walk_slots<S: NodeSource, L>(
    state: &mut S::State,
    span: Span,
    slots: &S::Inner,
    windows: &WindowRange,
    cells: &mut Vec<Cell>,
    steps: &mut Steps<L>,
) -> Result<(), WalkFault<S::Fault>>
    requires safe { AreSafeSlots (S.IsSafe (S.told state.old)) S.count (S.inner_place slots.now) (S.inner_slot slots.now) span }
    requires room { HaveRoom windows.now.grid cells.old.items (count_in (S.inner_slot slots.now)) }
    requires meets { MeetsWindows windows.now span }
    ensures cells { OnOk result (ForSlots (S.IsAt (S.told state.old)) (S.inner_place slots.now) (S.inner_slot slots.now) span
        (AddsWithin windows.now cells.old.items cells.new.items)) }
    ensures few { OnOk result (HaveAtMost windows.now.grid cells.old.items cells.new.items (count_in (S.inner_slot slots.now))) }
    ensures sound { IfErr result (IfRefused (λ e. AtEachSlots (S.IsThere (S.told state.old)) (S.inner_place slots.now)
        (S.inner_slot slots.now) span (λ h. S.IsHarmless e))) }
    ensures uses { UsesSource S.told S.faults (λ t a b. IfRefused (S.IsCaused t a b)) state.old state.new result }
{
    let range = windows.range;
    let (first, last) = span.slots_between(range.from, range.to);
    let mut from = first;
    while let Some(i) = S::next_occupied(slots, from) {
        if i > last {
            return Ok(());
        }
        let part = Part {
            span: span.slot(i),
            i,
        };
        walk_slot::<S, L>(state, part, slots, windows, cells, steps)?;
        from = i + 1;
    }
    Ok(())
}

/// Adds to the windows the points of a slot, which has a point, in a range that meets it. It visits no node if the slot is
/// inside the range and one window.
#[cycle(window_walk)]
fn walk_slot<S: NodeSource, L>(
    state: &mut S::State,
    part: Part,
    slots: &S::Inner,
    windows: &WindowRange,
    cells: &mut Vec<Cell>,
    steps: &mut Steps<L>,
) -> Result<(), WalkFault<S::Fault>>
    requires place { (part.i < 64) × IsOccupied (S.inner_slot slots.now) part.i }
    requires safe { IsSafeSlot (S.IsSafe (S.told state.old)) S.count (S.inner_place slots.now part.i) (S.inner_slot slots.now part.i)
        part.span }
    requires room { HaveRoom windows.now.grid cells.old.items (S.inner_slot slots.now part.i).agg.count }
    requires meets { MeetsWindows windows.now part.span }
    ensures cells { OnOk result (ForSlot (S.IsAt (S.told state.old)) (S.inner_place slots.now part.i)
        (S.inner_slot slots.now part.i) part.span
        (AddsWithin windows.now cells.old.items cells.new.items)) }
    ensures few { OnOk result (HaveAtMost windows.now.grid cells.old.items cells.new.items (S.inner_slot slots.now part.i).agg.count) }
    ensures sound { IfErr result (IfRefused (λ e. AtEachPlace (S.IsThere (S.told state.old)) (S.inner_place slots.now part.i) part.span
        (λ h. S.IsHarmless e))) }
    ensures uses { UsesSource S.told S.faults (λ t a b. IfRefused (S.IsCaused t a b)) state.old state.new result }
{
    if is_inside(part.span, windows.range) {
        if let Some(start) = start_around(cells, windows.grid, part.span) {
            let slot = S::slot(slots, part.i);
            add_part(cells, start, &slot.agg)?;
            return Ok(());
        }
    }
    let at = S::place(slots, part.i);
    walk_place::<S, L>(state, part.span, at, windows, cells, steps)
}
