//! The last point before a time.
ghost use Rattle.std.specs.Prelude.{◌≡◌, ◌+◌, ◌*◌, ◌<◌, ◌≤◌, ℕ, ℤ, ◌≤ℤ◌, ◌<ℤ◌, None, OnOk, IfErr, IsNone, IsSome};
ghost use Rattle.std.specs.List.{last_or};
ghost use Rattle.btr_base.specs.Nearest.{nearest as nearest_in};
ghost use Rattle.btr_base.specs.declared.toward.Toward.TheVariants.{Backward as BACKWARD};
ghost use Rattle.btr_tree.specs.History.{bag};
ghost use Rattle.btr_tree.specs.EachHistory.{points_in};
ghost use Rattle.btr_tree.specs.Change.{end_of};
ghost use Rattle.btr_tree.specs.Slots.{AreEmpty};
ghost use Rattle.btr_tree.specs.NodeSource.{AtEachPlace, AtEachSlots, AreSafeSlots, UsesSource, RisesUpTo};
ghost use Rattle.btr_scan.specs.FirstLast.{last_within, last_before_slot};

use btr_base::{FAN_OUT, Point, Span, parted};
use btr_tree::{FoundNode, NodeSource, Steps};

/// Writes the last point of a span before a time to `found`, or nothing if there is none. It visits at most two nodes a height,
/// and one. An `Err` is a refusal of the source.
pub(crate) fn previous_in_span<S: NodeSource, L>(
    state: &mut S::State,
    span: Span,
    at: S::Place,
    time: i64,
    found: &mut Option<Point>,
    steps: &mut Steps<L>,
) -> Result<(), S::Fault>
    requires safe { S.IsSafe (S.told state.old) (S.site at) span.height span.start }
    requires empty { found.old ≡ None }
    ensures point { OnOk result (AtEachPlace (S.IsAt (S.told state.old)) (S.site at) span (λ h.
        found.new ≡ nearest_in BACKWARD time (points_in span (bag h)))) }
    ensures sound { IfErr result (λ e. AtEachPlace (S.IsThere (S.told state.old)) (S.site at) span (λ h. S.IsHarmless e)) }
    ensures uses { UsesSource S.told S.faults S.IsCaused state.old state.new result }
    ensures bounded { RisesUpTo (2 * span.height + 1) steps.old steps.new }
{
    if time <= span.start {
        return Ok(());
    }
    if time >= span.end() {
        return last_in_place::<S, L>(state, span, at, found, steps);
    }
    previous_in_place::<S, L>(state, span, at, time, found, steps)
}

/// Writes the last point of a span before a time, which is above the span's start and at most its end, to `found`, or nothing if
/// there is none. It visits at most two nodes a height, and at most one if it finds none.
#[cycle(previous)]
fn previous_in_place<S: NodeSource, L>(
    state: &mut S::State,
    span: Span,
    at: S::Place,
    time: i64,
    found: &mut Option<Point>,
    steps: &mut Steps<L>,
) -> Result<(), S::Fault>
    requires safe { S.IsSafe (S.told state.old) (S.site at) span.height span.start }
    requires inside { (span.start <ℤ time) × (time ≤ℤ end_of span) }
    requires empty { found.old ≡ None }
    ensures point { OnOk result (AtEachPlace (S.IsAt (S.told state.old)) (S.site at) span (λ h.
        found.new ≡ last_within span.start time (bag h))) }
    ensures sound { IfErr result (λ e. AtEachPlace (S.IsThere (S.told state.old)) (S.site at) span (λ h. S.IsHarmless e)) }
    ensures uses { UsesSource S.told S.faults S.IsCaused state.old state.new result }
    ensures bounded { RisesUpTo (2 * span.height + 1) steps.old steps.new }
    ensures none { OnOk result (IsNone found.new → steps.new ≤ steps.old + span.height + 1) }
{
    match S::visit(state, span, at, steps)? {
        FoundNode::Nothing => Ok(()),
        FoundNode::Leaf { points, .. } => {
            let (before, _) = parted(S::points(&points), time);
            *found = last_of(before);
            Ok(())
        }
        FoundNode::Inner { slots, .. } => previous_in_slots::<S, L>(
            state, span, &slots, time, found, steps,
        ),
    }
}

/// Writes the last point of an inner node before a time to `found`: of the last slot that begins before the time, or else of the
/// slots before that one. It writes nothing if there is none.
#[cycle(previous)]
fn previous_in_slots<S: NodeSource, L>(
    state: &mut S::State,
    span: Span,
    slots: &S::Inner,
    time: i64,
    found: &mut Option<Point>,
    steps: &mut Steps<L>,
) -> Result<(), S::Fault>
    requires safe { AreSafeSlots (S.IsSafe (S.told state.old)) S.count (S.inner_place slots.now) (S.inner_slot slots.now) span }
    requires inside { (span.start <ℤ time) × (time ≤ℤ end_of span) }
    requires empty { found.old ≡ None }
    ensures point { OnOk result (AtEachSlots (S.IsAt (S.told state.old)) (S.inner_place slots.now) (S.inner_slot slots.now) span (λ h.
        found.new ≡ last_within span.start time (bag h))) }
    ensures sound { IfErr result (λ e. AtEachSlots (S.IsThere (S.told state.old)) (S.inner_place slots.now) (S.inner_slot slots.now)
        span (λ h. S.IsHarmless e)) }
    ensures uses { UsesSource S.told S.faults S.IsCaused state.old state.new result }
    ensures bounded { RisesUpTo (2 * span.height) steps.old steps.new }
    ensures none { OnOk result (IsNone found.new → steps.new ≤ steps.old + span.height) }
{
    let (_, i) = span.slots_between(span.start, time);
    previous_in_place::<S, L>(state, span.slot(i), S::place(slots, i), time, found, steps)?;
    match found {
        Some(_) => Ok(()),
        None => last_in_slots::<S, L>(state, span, slots, i, found, steps),
    }
}

/// Writes the last point of a span to `found`, or nothing if there is none. It visits at most one node a height, and one.
#[cycle(last)]
fn last_in_place<S: NodeSource, L>(
    state: &mut S::State,
    span: Span,
    at: S::Place,
    found: &mut Option<Point>,
    steps: &mut Steps<L>,
) -> Result<(), S::Fault>
    requires safe { S.IsSafe (S.told state.old) (S.site at) span.height span.start }
    requires empty { found.old ≡ None }
    ensures point { OnOk result (AtEachPlace (S.IsAt (S.told state.old)) (S.site at) span (λ h.
        found.new ≡ last_within span.start (end_of span) (bag h))) }
    ensures some { OnOk result (0 < S.count (S.site at) → IsSome found.new) }
    ensures sound { IfErr result (λ e. AtEachPlace (S.IsThere (S.told state.old)) (S.site at) span (λ h. S.IsHarmless e)) }
    ensures uses { UsesSource S.told S.faults S.IsCaused state.old state.new result }
    ensures bounded { RisesUpTo (span.height + 1) steps.old steps.new }
{
    match S::visit(state, span, at, steps)? {
        FoundNode::Nothing => Ok(()),
        FoundNode::Leaf { points, .. } => {
            *found = last_of(S::points(&points));
            Ok(())
        }
        FoundNode::Inner { slots, .. } => last_in_slots::<S, L>(
            state, span, &slots, FAN_OUT, found, steps,
        ),
    }
}

/// Writes the last point of the slots of an inner node with a number below `to` to `found`, or nothing if there is none. It
/// visits no node if it finds none.
#[cycle(last)]
fn last_in_slots<S: NodeSource, L>(
    state: &mut S::State,
    span: Span,
    slots: &S::Inner,
    to: u8,
    found: &mut Option<Point>,
    steps: &mut Steps<L>,
) -> Result<(), S::Fault>
    requires safe { AreSafeSlots (S.IsSafe (S.told state.old)) S.count (S.inner_place slots.now) (S.inner_slot slots.now) span }
    requires place { to ≤ 64 }
    requires empty { found.old ≡ None }
    ensures point { OnOk result (AtEachSlots (S.IsAt (S.told state.old)) (S.inner_place slots.now) (S.inner_slot slots.now) span (λ h.
        found.new ≡ last_before_slot span to (bag h))) }
    ensures none { OnOk result (IsNone found.new → (steps.new ≡ steps.old) × AreEmpty (S.inner_slot slots.now) 0 to) }
    ensures sound { IfErr result (λ e. AtEachSlots (S.IsThere (S.told state.old)) (S.inner_place slots.now) (S.inner_slot slots.now)
        span (λ h. S.IsHarmless e)) }
    ensures uses { UsesSource S.told S.faults S.IsCaused state.old state.new result }
    ensures bounded { RisesUpTo span.height steps.old steps.new }
{
    match S::previous_occupied(slots, to) {
        None => Ok(()),
        Some(i) => last_in_place::<S, L>(state, span.slot(i), S::place(slots, i), found, steps),
    }
}

/// Returns the last point of a list.
fn last_of(points: &[Point]) -> Option<Point>
    ensures { result ≡ last_or None points.now }
{
    points.last().copied()
}
