//! The points of a span of the older tree.
ghost use Rattle.std.specs.Prelude.{◌≡◌, ◌++◌, IfErr, OnOk};
ghost use Rattle.btr_tree.specs.History.{bag};
ghost use Rattle.btr_tree.specs.EachHistory.{points_in};
ghost use Rattle.btr_tree.specs.Change.{end_of};
ghost use Rattle.btr_tree.specs.NodeSource.{AtEachPlace, AtEachSlots, AreSafeSlots, IfRefused, UsesSource};
ghost use Rattle.btr_diff.specs.Comparison.{AreReady, CountsOlder, IsInside, IsPlace, AreSlotsOf, IsSafePlace};

use btr_base::{Point, Span};
use btr_tree::{FoundNode, NodeSource, Steps, WalkFault};

/// Appends the points of a span to `points`, in order. It costs the nodes and points of the span.
#[cycle(gathering)]
fn gather_place<S: NodeSource, M>(
    state: &mut S::State,
    span: Span,
    at: S::Place,
    points: &mut Vec<Point>,
    older: &mut Steps<M>,
) -> Result<(), WalkFault<S::Fault>>
    requires safe { IsSafePlace (S.IsSafe (S.told state.old)) span (S.site at) }
    requires ready { AreReady span.start points.old.items }
    ensures ready { OnOk result (AreReady (end_of span) points.new.items) }
    ensures points { OnOk result (AtEachPlace (S.IsAt (S.told state.old)) (S.site at) span (λ h.
        points.new.items ≡ points.old.items ++ points_in span (bag h))) }
    ensures sound { IfErr result (IfRefused (λ e. AtEachPlace (S.IsThere (S.told state.old)) (S.site at) span (λ h. S.IsHarmless e))) }
    ensures uses { UsesSource S.told S.faults (λ t a b. IfRefused (S.IsCaused t a b)) state.old state.new result }
    ensures older { CountsOlder 0 span (S.IsAt (S.told state.old)) (IsPlace (S.site at)) older.old older.new result }
{
    match S::visit(state, span, at, older) {
        Err(fault) => Err(WalkFault::Refused(fault)),
        Ok(found) => match found {
            FoundNode::Nothing => Ok(()),
            FoundNode::Leaf { points: here, .. } => {
                points.extend_from_slice(S::points(&here))?;
                Ok(())
            }
            FoundNode::Inner { slots, .. } => gather_slots::<S, M>(
                state, span, &slots, points, older,
            ),
        },
    }
}

/// Appends the points of the slots of an inner node to `points`, in order. It goes from one slot that has a point to the next.
#[cycle(gathering)]
pub(crate) fn gather_slots<S: NodeSource, M>(
    state: &mut S::State,
    span: Span,
    slots: &S::Inner,
    points: &mut Vec<Point>,
    older: &mut Steps<M>,
) -> Result<(), WalkFault<S::Fault>>
    requires inside { IsInside span.height span.start }
    requires safe { AreSafeSlots (S.IsSafe (S.told state.old)) S.count (S.inner_place slots.now) (S.inner_slot slots.now) span }
    requires ready { AreReady span.start points.old.items }
    ensures ready { OnOk result (AreReady (end_of span) points.new.items) }
    ensures points { OnOk result (AtEachSlots (S.IsAt (S.told state.old)) (S.inner_place slots.now) (S.inner_slot slots.now) span (λ h.
        points.new.items ≡ points.old.items ++ points_in span (bag h))) }
    ensures sound { IfErr result (IfRefused (λ e. AtEachSlots (S.IsThere (S.told state.old)) (S.inner_place slots.now)
        (S.inner_slot slots.now) span (λ h. S.IsHarmless e))) }
    ensures uses { UsesSource S.told S.faults (λ t a b. IfRefused (S.IsCaused t a b)) state.old state.new result }
    ensures older { CountsOlder 1 span (S.IsAt (S.told state.old)) (AreSlotsOf (S.inner_place slots.now) (S.inner_slot slots.now))
        older.old older.new result }
{
    let mut from = 0;
    while let Some(i) = S::next_occupied(slots, from) {
        gather_place::<S, M>(state, span.slot(i), S::place(slots, i), points, older)?;
        from = i + 1;
    }
    Ok(())
}
