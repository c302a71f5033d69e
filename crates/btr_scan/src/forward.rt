//! The first point at or after a time.
ghost use Rattle.std.specs.Prelude.{◌≡◌, ◌+◌, ◌*◌, ◌<◌, ◌≤◌, ℕ, ℤ, ◌≤ℤ◌, ◌<ℤ◌, slice_get, None, OnOk, IfErr, IsNone, IsSome};
ghost use Rattle.btr_base.specs.Nearest.{nearest as nearest_in};
ghost use Rattle.btr_base.specs.declared.toward.Toward.TheVariants.{Forward as FORWARD};
ghost use Rattle.btr_tree.specs.History.{bag};
ghost use Rattle.btr_tree.specs.EachHistory.{points_in};
ghost use Rattle.btr_tree.specs.Change.{end_of};
ghost use Rattle.btr_tree.specs.Slots.{AreEmpty};
ghost use Rattle.btr_tree.specs.NodeSource.{AtEachPlace, AtEachSlots, AreSafeSlots, UsesSource, RisesUpTo};
ghost use Rattle.btr_scan.specs.FirstLast.{first_within, first_from_slot};

use btr_base::{Point, Span, parted};
use btr_tree::{FoundNode, NodeSource, Steps};

/// Writes the first point of a span at or after a time to `found`, or nothing if there is none. It visits at most two nodes a
/// height, and one. An `Err` is a refusal of the source.
pub(crate) fn next_in_span<S: NodeSource, L>(
    state: &mut S::State,
    span: Span,
    at: S::Place,
    time: i64,
    found: &mut Option<Point>,
    steps: &mut Steps<L>,
) -> Result<(), S::Fault>
    requires safe { S.IsSafe (S.told state.old) (S.site at) span.height span.start }
    requires empty { found.old ≡ None }
    ensures point { OnOk result (AtEachPlace (S.IsAt (S.told state.old)) (S.site at) span (λ h.
        found.new ≡ nearest_in FORWARD time (points_in span (bag h)))) }
    ensures sound { IfErr result (λ e. AtEachPlace (S.IsThere (S.told state.old)) (S.site at) span (λ h. S.IsHarmless e)) }
    ensures uses { UsesSource S.told S.faults S.IsCaused state.old state.new result }
    ensures bounded { RisesUpTo (2 * span.height + 1) steps.old steps.new }
{
    if time >= span.end() {
        return Ok(());
    }
    if time < span.start {
        return first_in_place::<S, L>(state, span, at, found, steps);
    }
    next_in_place::<S, L>(state, span, at, time, found, steps)
}

/// Writes the first point of a span at or after a time of the span to `found`, or nothing if there is none. It visits at most
/// two nodes a height, and at most one if it finds none.
#[cycle(next)]
fn next_in_place<S: NodeSource, L>(
    state: &mut S::State,
    span: Span,
    at: S::Place,
    time: i64,
    found: &mut Option<Point>,
    steps: &mut Steps<L>,
) -> Result<(), S::Fault>
    requires safe { S.IsSafe (S.told state.old) (S.site at) span.height span.start }
    requires inside { (span.start ≤ℤ time) × (time <ℤ end_of span) }
    requires empty { found.old ≡ None }
    ensures point { OnOk result (AtEachPlace (S.IsAt (S.told state.old)) (S.site at) span (λ h.
        found.new ≡ first_within time (end_of span) (bag h))) }
    ensures sound { IfErr result (λ e. AtEachPlace (S.IsThere (S.told state.old)) (S.site at) span (λ h. S.IsHarmless e)) }
    ensures uses { UsesSource S.told S.faults S.IsCaused state.old state.new result }
    ensures bounded { RisesUpTo (2 * span.height + 1) steps.old steps.new }
    ensures none { OnOk result (IsNone found.new → steps.new ≤ steps.old + span.height + 1) }
{
    match S::visit(state, span, at, steps)? {
        FoundNode::Nothing => Ok(()),
        FoundNode::Leaf { points, .. } => {
            let (_, after) = parted(S::points(&points), time);
            *found = first_of(after);
            Ok(())
        }
        FoundNode::Inner { slots, .. } => next_in_slots::<S, L>(
            state, span, &slots, time, found, steps,
        ),
    }
}

/// Writes the first point of an inner node at or after a time of its span to `found`: of the slot that the time lies in, or else
/// of the slots after that one. It writes nothing if there is none.
#[cycle(next)]
fn next_in_slots<S: NodeSource, L>(
    state: &mut S::State,
    span: Span,
    slots: &S::Inner,
    time: i64,
    found: &mut Option<Point>,
    steps: &mut Steps<L>,
) -> Result<(), S::Fault>
    requires safe { AreSafeSlots (S.IsSafe (S.told state.old)) S.count (S.inner_place slots.now) (S.inner_slot slots.now) span }
    requires inside { (span.start ≤ℤ time) × (time <ℤ end_of span) }
    requires empty { found.old ≡ None }
    ensures point { OnOk result (AtEachSlots (S.IsAt (S.told state.old)) (S.inner_place slots.now) (S.inner_slot slots.now) span (λ h.
        found.new ≡ first_within time (end_of span) (bag h))) }
    ensures sound { IfErr result (λ e. AtEachSlots (S.IsThere (S.told state.old)) (S.inner_place slots.now) (S.inner_slot slots.now)
        span (λ h. S.IsHarmless e)) }
    ensures uses { UsesSource S.told S.faults S.IsCaused state.old state.new result }
    ensures bounded { RisesUpTo (2 * span.height) steps.old steps.new }
    ensures none { OnOk result (IsNone found.new → steps.new ≤ steps.old + span.height) }
{
    let i = span.slot_at(time);
    next_in_place::<S, L>(state, span.slot(i), S::place(slots, i), time, found, steps)?;
    match found {
        Some(_) => Ok(()),
        None => first_in_slots::<S, L>(state, span, slots, i + 1, found, steps),
    }
}

/// Writes the first point of a span to `found`, or nothing if there is none. It visits at most one node a height, and one.
#[cycle(first)]
fn first_in_place<S: NodeSource, L>(
    state: &mut S::State,
    span: Span,
    at: S::Place,
    found: &mut Option<Point>,
    steps: &mut Steps<L>,
) -> Result<(), S::Fault>
    requires safe { S.IsSafe (S.told state.old) (S.site at) span.height span.start }
    requires empty { found.old ≡ None }
    ensures point { OnOk result (AtEachPlace (S.IsAt (S.told state.old)) (S.site at) span (λ h.
        found.new ≡ first_within span.start (end_of span) (bag h))) }
    ensures some { OnOk result (0 < S.count (S.site at) → IsSome found.new) }
    ensures sound { IfErr result (λ e. AtEachPlace (S.IsThere (S.told state.old)) (S.site at) span (λ h. S.IsHarmless e)) }
    ensures uses { UsesSource S.told S.faults S.IsCaused state.old state.new result }
    ensures bounded { RisesUpTo (span.height + 1) steps.old steps.new }
{
    match S::visit(state, span, at, steps)? {
        FoundNode::Nothing => Ok(()),
        FoundNode::Leaf { points, .. } => {
            *found = first_of(S::points(&points));
            Ok(())
        }
        FoundNode::Inner { slots, .. } => first_in_slots::<S, L>(
            state, span, &slots, 0, found, steps,
        ),
    }
}

/// Writes the first point of the slots of an inner node with a number of at least `from` to `found`, or nothing if there is
/// none. It visits no node if it finds none.
#[cycle(first)]
fn first_in_slots<S: NodeSource, L>(
    state: &mut S::State,
    span: Span,
    slots: &S::Inner,
    from: u8,
    found: &mut Option<Point>,
    steps: &mut Steps<L>,
) -> Result<(), S::Fault>
    requires safe { AreSafeSlots (S.IsSafe (S.told state.old)) S.count (S.inner_place slots.now) (S.inner_slot slots.now) span }
    requires place { from ≤ 64 }
    requires empty { found.old ≡ None }
    ensures point { OnOk result (AtEachSlots (S.IsAt (S.told state.old)) (S.inner_place slots.now) (S.inner_slot slots.now) span (λ h.
        found.new ≡ first_from_slot span from (bag h))) }
    ensures none { OnOk result (IsNone found.new → (steps.new ≡ steps.old) × AreEmpty (S.inner_slot slots.now) from 64) }
    ensures sound { IfErr result (λ e. AtEachSlots (S.IsThere (S.told state.old)) (S.inner_place slots.now) (S.inner_slot slots.now)
        span (λ h. S.IsHarmless e)) }
    ensures uses { UsesSource S.told S.faults S.IsCaused state.old state.new result }
    ensures bounded { RisesUpTo span.height steps.old steps.new }
{
    match S::next_occupied(slots, from) {
        None => Ok(()),
        Some(i) => first_in_place::<S, L>(state, span.slot(i), S::place(slots, i), found, steps),
    }
}

/// Returns the first point of a list.
fn first_of(points: &[Point]) -> Option<Point>
    ensures { result ≡ slice_get points.now 0 }
{
    points.first().copied()
}
