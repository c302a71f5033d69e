//! The points of a span in a range, over any source of nodes.
ghost use Rattle.std.specs.Prelude.{◌≤◌, ◌<ℤ◌, IfErr, OnOk};
ghost use Rattle.btr_tree.specs.Change.{end_of};
ghost use Rattle.btr_tree.specs.NodeSource.{AtEachPlace, AtEachSlots, AreSafeSlots, IfRefused, UsesSource};
ghost use Rattle.btr_scan.specs.Rows.{AppendsRange};

use btr_base::{Point, Range, Span, points_between};
use btr_tree::{FoundNode, NodeSource, Steps, WalkFault};

/// Appends the points of a span whose times are in a range that meets it, by time and value. The span is that of a place of
/// any source. The cost is its points, and the nodes on the way to the two ends of the range, each of which is one step. An
/// `Err` is out of memory, or a refusal of the source, and a part of them may have been appended.
#[cycle(walk)]
pub fn append_in_place<S: NodeSource, L>(
    state: &mut S::State,
    span: Span,
    at: S::Place,
    range: Range,
    rows: &mut Vec<Point>,
    steps: &mut Steps<L>,
) -> Result<(), WalkFault<S::Fault>>
    requires safe { S.IsSafe (S.told state.old) (S.site at) span.height span.start }
    requires meets { (range.from <ℤ end_of span) × (span.start <ℤ range.to) }
    ensures rows { OnOk result (AtEachPlace (S.IsAt (S.told state.old)) (S.site at) span
        (AppendsRange span range rows.old.items rows.new.items)) }
    ensures sound { IfErr result (IfRefused (λ e. AtEachPlace (S.IsThere (S.told state.old)) (S.site at) span (λ h. S.IsHarmless e))) }
    ensures uses { UsesSource S.told S.faults (λ t a b. IfRefused (S.IsCaused t a b)) state.old state.new result }
    ensures never_falls { steps.old ≤ steps.new }
{
    match S::visit(state, span, at, steps) {
        Err(fault) => Err(WalkFault::Refused(fault)),
        Ok(found) => match found {
            FoundNode::Nothing => Ok(()),
            FoundNode::Leaf { points, .. } => {
                rows.extend_from_slice(points_between(S::points(&points), range.from, range.to))?;
                Ok(())
            }
            FoundNode::Inner { slots, .. } => append_in_slots::<S, L>(
                state, span, &slots, range, rows, steps,
            ),
        },
    }
}

/// Appends the points of an inner node whose times are in a range. It walks from one slot with a point to the next, through
/// those that meet the range.
#[cycle(walk)]
fn append_in_slots<S: NodeSource, L>(
    state: &mut S::State,
    span: Span,
    slots: &S::Inner,
    range: Range,
    rows: &mut Vec<Point>,
    steps: &mut Steps<L>,
) -> Result<(), WalkFault<S::Fault>>
    requires safe { AreSafeSlots (S.IsSafe (S.told state.old)) S.count (S.inner_place slots.now) (S.inner_slot slots.now) span }
    requires meets { (range.from <ℤ end_of span) × (span.start <ℤ range.to) }
    ensures rows { OnOk result (AtEachSlots (S.IsAt (S.told state.old)) (S.inner_place slots.now) (S.inner_slot slots.now) span
        (AppendsRange span range rows.old.items rows.new.items)) }
    ensures sound { IfErr result (IfRefused (λ e. AtEachSlots (S.IsThere (S.told state.old)) (S.inner_place slots.now)
        (S.inner_slot slots.now) span (λ h. S.IsHarmless e))) }
    ensures uses { UsesSource S.told S.faults (λ t a b. IfRefused (S.IsCaused t a b)) state.old state.new result }
    ensures never_falls { steps.old ≤ steps.new }
{
    let (first, last) = span.slots_between(range.from, range.to);
    let mut from = first;
    while let Some(i) = S::next_occupied(slots, from) {
        if i > last {
            return Ok(());
        }
        append_in_place::<S, L>(state, span.slot(i), S::place(slots, i), range, rows, steps)?;
        from = i + 1;
    }
    Ok(())
}
