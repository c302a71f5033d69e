//! The point nearest to a time.
ghost use Rattle.std.specs.Prelude.{◌≡◌, ◌+◌, ◌*◌, ◌≤◌, IfOk, IfErr};
ghost use Rattle.btr_base.specs.Nearest.{nearest as nearest_in};
ghost use Rattle.btr_tree.specs.History.{bag};
ghost use Rattle.btr_tree.specs.EachHistory.{points_in};
ghost use Rattle.btr_tree.specs.Root.{AtEachTree};
ghost use Rattle.btr_tree.specs.NodeSource.{AtEachPlace, UsesSource, RisesUpTo};
ghost use Rattle.btr_tree.specs.Spots.{AtEachRoot, AtEachPossibleRoot, IsHarmlessFault, IsWalkCause};

use crate::backward::previous_in_span;
use crate::forward::next_in_span;
use btr_base::{Point, Span, Toward};
use btr_tree::{
    Fetched, Memory, NodeFault, NodeSource, Nodes, Root, Steps, Tree, find_root, root_span,
};

/// Returns the point of a version that is nearest to a time in one direction, in nanoseconds (BTrDB's GetNearestValue).
/// Forward this is the first point at or after the time, backward the last point before it, by time and value. Returns `None`
/// if there is no such point. Any `i64` may be asked. It visits at most 21 nodes, each of which is one step, and takes no
/// memory.
pub fn nearest<L>(tree: &Tree, time: i64, toward: Toward, steps: &mut Steps<L>) -> Option<Point>
    ensures point { AtEachTree tree.now (λ h. result ≡ nearest_in toward time (bag h)) }
    ensures bounded { steps.new ≤ steps.old + 21 }
    ensures never_falls { steps.old ≤ steps.new }
{
    match nearest_in_place::<Memory<'_>, L>(
        &mut (),
        root_span(),
        tree.link(),
        time,
        toward,
        steps,
    ) {
        Ok(point) => point,
        Err(never) => match never {},
    }
}

/// Returns the point of a root's version that is nearest to a time in one direction, in nanoseconds, as [`nearest`] does for a
/// tree in memory. It fetches pages one at a time. It visits at most 21 nodes, each of which is one step, and before that it
/// fetches the root's page once to find its place, so it makes at most 22 calls of `nodes`. It takes no memory but what those
/// take.
///
/// `Failed` is a call that failed. `Damaged` names the root's block if that has no page of a root of the stream which is not
/// newer than the version; or the block of a slot's child if that has no page; or else the block whose page has a slot with
/// another span, count, version or stream than the page of its child. It is not returned if all pages of a past's tree are
/// there. An `Ok` is the answer for the whole tree, although pages of it may be lost. `Want` is out of memory.
pub fn nearest_from<N: Nodes, L>(
    nodes: &mut N,
    root: Root,
    time: i64,
    toward: Toward,
    steps: &mut Steps<L>,
) -> Result<Option<Point>, NodeFault>
    ensures point { N.is_observable → IfOk result (λ r. AtEachPossibleRoot (N.IsPage (N.contents nodes.old)) root (λ h.
        r ≡ nearest_in toward time (bag h))) }
    ensures sound { N.is_observable → IfErr result (λ e. AtEachRoot (N.IsPage (N.contents nodes.old)) root (λ h. IsHarmlessFault e)) }
    ensures same { N.contents nodes.new ≡ N.contents nodes.old }
    ensures rises { N.faults nodes.old ≤ N.faults nodes.new }
    ensures cause { IfErr result (IsWalkCause N.is_observable root (λ o. N.IsPage (N.contents nodes.old))
        (N.faults nodes.old) (N.faults nodes.new)) }
    ensures bounded { steps.new ≤ steps.old + 21 }
    ensures never_falls { steps.old ≤ steps.new }
{
    let at = find_root(nodes, root)?;
    nearest_in_place::<Fetched<N>, L>(nodes, root_span(), at, time, toward, steps)
}

/// Returns the point of a span that is nearest to a time in one direction, as [`nearest`] does for the span of a root. The span
/// is that of a place of any source. It visits at most two nodes a height, and one, each of which is one step, and takes no
/// memory but what the source takes. An `Err` is a refusal of the source.
pub fn nearest_in_place<S: NodeSource, L>(
    state: &mut S::State,
    span: Span,
    at: S::Place,
    time: i64,
    toward: Toward,
    steps: &mut Steps<L>,
) -> Result<Option<Point>, S::Fault>
    requires safe { S.IsSafe (S.told state.old) (S.site at) span.height span.start }
    ensures point { IfOk result (λ r. AtEachPlace (S.IsAt (S.told state.old)) (S.site at) span (λ h.
        r ≡ nearest_in toward time (points_in span (bag h)))) }
    ensures sound { IfErr result (λ e. AtEachPlace (S.IsThere (S.told state.old)) (S.site at) span (λ h. S.IsHarmless e)) }
    ensures uses { UsesSource S.told S.faults S.IsCaused state.old state.new result }
    ensures bounded { RisesUpTo (2 * span.height + 1) steps.old steps.new }
{
    let mut found = None;
    match toward {
        Toward::Forward => next_in_span::<S, L>(state, span, at, time, &mut found, steps)?,
        Toward::Backward => previous_in_span::<S, L>(state, span, at, time, &mut found, steps)?,
    }
    Ok(found)
}
