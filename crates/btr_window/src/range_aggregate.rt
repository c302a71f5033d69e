//! The aggregate of a range.
ghost use Rattle.std.specs.Prelude.{◌≡◌, ◌+◌, ◌*◌, ◌<◌, ◌≤◌, ◌^◌, ◌<ℤ◌, IfOk, IfErr, OnOk};
ghost use Rattle.btr_base.specs.Agg.{agg_within};
ghost use Rattle.btr_tree.specs.History.{Past, bag};
ghost use Rattle.btr_tree.specs.Change.{end_of};
ghost use Rattle.btr_tree.specs.Root.{IsTree};
ghost use Rattle.btr_tree.specs.NodeSource.{AtEachPlace, AtEachSlots, AreSafeSlots, count_in, UsesSource, RisesUpTo};
ghost use Rattle.btr_tree.specs.NodeSource.{ForPlace, ForSlots, ForSlot};
ghost use Rattle.btr_tree.specs.Spots.{AtEachRoot, AtEachPossibleRoot, IsHarmlessFault, IsWalkCause};
ghost use Rattle.btr_window.specs.RangeEnds.{AddsRange, ends_inside, IsMet, IsSafeSlot};

use crate::inside::is_inside;
use crate::part::Part;
use btr_base::{Agg, END, FIRST, Range, Span, points_between};
use btr_tree::{
    Fetched, FoundNode, Memory, NodeFault, NodeSource, Nodes, Root, Steps, Tree, find_root,
    root_span,
};

/// Returns the aggregate of the points of a version with `from <= time < to`. It visits at most 21 nodes, each one
/// step: those on the way to the two ends of the range. It takes no memory.
pub fn aggregate<L>(tree: &Tree, range: Range, steps: &mut Steps<L>) -> Agg
    ensures agg { (h : Past) → IsTree h tree.now → result ≡ agg_within range.from range.to (bag h) }
    ensures bounded { steps.new ≤ steps.old + 21 }
    ensures never_falls { steps.old ≤ steps.new }
{
    prove!(FIRST < range.to && range.from < END);
    let mut all = Agg::none();
    match sum_in_place::<Memory<'_>, L>(&mut (), root_span(), tree.link(), range, &mut all, steps) {
        Ok(()) => all,
        Err(never) => match never {},
    }
}

/// Returns the aggregate of the points of a root's version with `from <= time < to`, as [`aggregate`] does for a tree in
/// memory. It fetches pages one at a time. It visits at most 21 nodes, each one step, and before that it fetches the root's
/// page once to find its place, so it makes at most 22 calls of `nodes`. It takes no memory but what those take.
///
/// `Failed` is a call that failed. `Damaged` names the root's block if that has no page of a root of the stream which is not
/// newer than the version; or the block of a slot's child if that has no page; or else the block whose page has a slot with
/// another span, count, version or stream than the page of its child. It is not returned if all pages of a past's tree are
/// there. An `Ok` is the answer for the whole tree, although pages of it may be lost. `Want` is out of memory.
pub fn aggregate_from<N: Nodes, L>(
    nodes: &mut N,
    root: Root,
    range: Range,
    steps: &mut Steps<L>,
) -> Result<Agg, NodeFault>
    ensures agg { N.is_observable → IfOk result (λ r. AtEachPossibleRoot (N.IsPage (N.contents nodes.old)) root (λ h.
        r ≡ agg_within range.from range.to (bag h))) }
    ensures sound { N.is_observable → IfErr result (λ e. AtEachRoot (N.IsPage (N.contents nodes.old)) root (λ h. IsHarmlessFault e)) }
    ensures same { N.contents nodes.new ≡ N.contents nodes.old }
    ensures rises { N.faults nodes.old ≤ N.faults nodes.new }
    ensures cause { IfErr result (IsWalkCause N.is_observable root (λ o. N.IsPage (N.contents nodes.old))
        (N.faults nodes.old) (N.faults nodes.new)) }
    ensures bounded { steps.new ≤ steps.old + 21 }
    ensures never_falls { steps.old ≤ steps.new }
{
    let at = find_root(nodes, root)?;
    prove!(FIRST < range.to && range.from < END);
    let mut all = Agg::none();
    match sum_in_place::<Fetched<N>, L>(nodes, root_span(), at, range, &mut all, steps) {
        Ok(()) => Ok(all),
        Err(fault) => Err(fault),
    }
}

/// Adds to `all` the aggregate of the points of a span in a range that meets it. It visits the node of the span, and below
/// it, for each end of the range inside the span, one node at each height. An `Err` is a refusal of the source, and a part
/// may have been added.
#[cycle(range_aggregate)]
fn sum_in_place<S: NodeSource, L>(
    state: &mut S::State,
    span: Span,
    at: S::Place,
    range: Range,
    all: &mut Agg,
    steps: &mut Steps<L>,
) -> Result<(), S::Fault>
    requires safe { S.IsSafe (S.told state.old) (S.site at) span.height span.start }
    requires room { all.old.count + S.count (S.site at) < 2 ^ 64 }
    requires meets { IsMet span range }
    ensures agg { OnOk result (ForPlace (S.IsAt (S.told state.old)) (S.site at) span
        (AddsRange range all.old all.new)) }
    ensures few { OnOk result (all.new.count ≤ all.old.count + S.count (S.site at)) }
    ensures sound { IfErr result (λ e. AtEachPlace (S.IsThere (S.told state.old)) (S.site at) span (λ h. S.IsHarmless e)) }
    ensures uses { UsesSource S.told S.faults S.IsCaused state.old state.new result }
    ensures bounded { RisesUpTo (1 + span.height * ends_inside span.start (end_of span) range.from range.to) steps.old steps.new }
{
    match S::visit(state, span, at, steps)? {
        FoundNode::Nothing => Ok(()),
        FoundNode::Leaf { points, .. } => {
            let here = points_between(S::points(&points), range.from, range.to);
            *all = all.join(&Agg::of_points(here));
            Ok(())
        }
        FoundNode::Inner { slots, .. } => sum_in_slots::<S, L>(
            state, span, &slots, range, all, steps,
        ),
    }
}

/// Adds to `all` the aggregate of the points of an inner node in a range, slot by slot.
#[cycle(range_aggregate)]
fn sum_in_slots<S: NodeSource, L>(
    state: &mut S::State,
    span: Span,
    slots: &S::Inner,
    range: Range,
    all: &mut Agg,
    steps: &mut Steps<L>,
) -> Result<(), S::Fault>
    requires safe { AreSafeSlots (S.IsSafe (S.told state.old)) S.count (S.inner_place slots.now) (S.inner_slot slots.now) span }
    requires room { all.old.count + count_in (S.inner_slot slots.now) < 2 ^ 64 }
    requires meets { IsMet span range }
    ensures agg { OnOk result (ForSlots (S.IsAt (S.told state.old)) (S.inner_place slots.now) (S.inner_slot slots.now) span
        (AddsRange range all.old all.new)) }
    ensures few { OnOk result (all.new.count ≤ all.old.count + count_in (S.inner_slot slots.now)) }
    ensures sound { IfErr result (λ e. AtEachSlots (S.IsThere (S.told state.old)) (S.inner_place slots.now) (S.inner_slot slots.now)
        span (λ h. S.IsHarmless e)) }
    ensures uses { UsesSource S.told S.faults S.IsCaused state.old state.new result }
    ensures bounded { RisesUpTo (span.height * ends_inside span.start (end_of span) range.from range.to) steps.old steps.new }
{
    let (first, last) = span.slots_between(range.from, range.to);
    for i in first..last + 1 {
        let part = Part {
            span: span.slot(i),
            i,
        };
        sum_in_slot::<S, L>(state, part, slots, range, all, steps)?;
    }
    Ok(())
}

/// Adds to `all` the aggregate of the points of a slot in a range. It visits no node if the slot has no point or is inside
/// the range.
#[cycle(range_aggregate)]
fn sum_in_slot<S: NodeSource, L>(
    state: &mut S::State,
    part: Part,
    slots: &S::Inner,
    range: Range,
    all: &mut Agg,
    steps: &mut Steps<L>,
) -> Result<(), S::Fault>
    requires safe { (part.i < 64) × IsSafeSlot (S.IsSafe (S.told state.old)) S.count (S.inner_place slots.now part.i)
        (S.inner_slot slots.now part.i) part.span }
    requires room { all.old.count + (S.inner_slot slots.now part.i).agg.count < 2 ^ 64 }
    requires meets { IsMet part.span range }
    ensures agg { OnOk result (ForSlot (S.IsAt (S.told state.old)) (S.inner_place slots.now part.i)
        (S.inner_slot slots.now part.i) part.span (AddsRange range all.old all.new)) }
    ensures few { OnOk result (all.new.count ≤ all.old.count + (S.inner_slot slots.now part.i).agg.count) }
    ensures sound { IfErr result (λ e. AtEachPlace (S.IsThere (S.told state.old)) (S.inner_place slots.now part.i) part.span
        (λ h. S.IsHarmless e)) }
    ensures uses { UsesSource S.told S.faults S.IsCaused state.old state.new result }
    ensures bounded { RisesUpTo ((part.span.height + 1) * ends_inside part.span.start (end_of part.span) range.from range.to)
        steps.old steps.new }
{
    let agg = S::slot(slots, part.i).agg;
    if agg.count == 0 || is_inside(part.span, range) {
        *all = all.join(&agg);
        return Ok(());
    }
    sum_in_place::<S, L>(state, part.span, S::place(slots, part.i), range, all, steps)
}
