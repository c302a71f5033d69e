//! The walk over the newer tree beside the points of one leaf of the older tree, or beside no points.
ghost use Rattle.std.specs.Prelude.{◌<◌, IfErr, OnOk};
ghost use Rattle.btr_tree.specs.NodeSource.{AtEachPlace, AtEachSlots, AreSafeSlots, IfRefused, UsesSource};
ghost use Rattle.btr_diff.specs.Comparison.{Compares, CountsNewer, CountsSlot};
ghost use Rattle.btr_diff.specs.Comparison.{ArePointsOf, IncludesPointsOf, AreSlotsOf, IsSlotOf, IsTask, ArePoints};

use crate::comparison::Task;
use crate::newer_slot::{NewerSlot, newer_slot};
use crate::points::{compare_points, points_in};
use btr_base::{FAN_OUT, Point, Ranges};
use btr_tree::{FoundNode, NodeSource, Steps, WalkFault};

/// Compares the points of the older tree with an inner node of the newer one, slot by slot. A slot whose version is not above `since`
/// is passed.
#[cycle(leaf_walk)]
pub(crate) fn compare_points_with_slots<S: NodeSource, L>(
    state: &mut S::State,
    task: Task,
    old: &[Point],
    new: &S::Inner,
    changed: &mut Ranges,
    steps: &mut Steps<L>,
) -> Result<(), WalkFault<S::Fault>>
    requires task { IsTask task }
    requires old { ArePoints old.now }
    requires new { AreSafeSlots (S.IsSafe (S.told state.old)) S.count (S.inner_place new.now) (S.inner_slot new.now) task.span }
    ensures adds { OnOk result (Compares task (S.IsAt (S.told state.old)) (ArePointsOf old.now)
        (AreSlotsOf (S.inner_place new.now) (S.inner_slot new.now)) changed.old changed.new) }
    ensures sound { IfErr result (IfRefused (λ e. AtEachSlots (S.IsThere (S.told state.old)) (S.inner_place new.now) (S.inner_slot new.now)
        task.span (λ h. S.IsHarmless e))) }
    ensures uses { UsesSource S.told S.faults (λ t a b. IfRefused (S.IsCaused t a b)) state.old state.new result }
    ensures newer { CountsNewer task (S.IsAt (S.told state.old)) (AreSlotsOf (S.inner_place new.now) (S.inner_slot new.now))
        steps.old steps.new }
{
    for i in 0..FAN_OUT {
        let slot = newer_slot::<S>(new, i);
        if slot.version <= task.by.since {
            continue;
        }
        let here = Task {
            span: task.span.slot(i),
            by: task.by,
        };
        compare_points_with_slot::<S, L>(state, here, old, slot, changed, steps)?;
    }
    Ok(())
}

/// Compares those of the points that are in one slot with the newer tree. The version of the slot is above `since`, the caller's
/// condition. It visits the newer node, and below it those that are newer, if the slot has a point.
#[cycle(leaf_walk)]
fn compare_points_with_slot<S: NodeSource, L>(
    state: &mut S::State,
    task: Task,
    old: &[Point],
    new: NewerSlot<S::Place>,
    changed: &mut Ranges,
    steps: &mut Steps<L>,
) -> Result<(), WalkFault<S::Fault>>
    requires task { IsTask task }
    requires old { ArePoints old.now }
    requires new { S.IsSafe (S.told state.old) (S.site new.place) task.span.height task.span.start }
    requires newer { task.by.since < new.version }
    ensures adds { OnOk result (Compares task (S.IsAt (S.told state.old)) (IncludesPointsOf old.now)
        (IsSlotOf new.version new.count (S.site new.place)) changed.old changed.new) }
    ensures sound { IfErr result (IfRefused (λ e. AtEachPlace (S.IsThere (S.told state.old)) (S.site new.place) task.span
        (λ h. S.IsHarmless e))) }
    ensures uses { UsesSource S.told S.faults (λ t a b. IfRefused (S.IsCaused t a b)) state.old state.new result }
    ensures newer { CountsSlot task (S.IsAt (S.told state.old)) new.version new.count (S.site new.place) steps.old steps.new }
{
    let here = points_in(old, task.span);
    if new.count == 0 {
        compare_points(here, &[], task.by, changed)?;
        return Ok(());
    }
    match S::visit(state, task.span, new.place, steps) {
        Err(fault) => Err(WalkFault::Refused(fault)),
        Ok(found) => match found {
            FoundNode::Nothing => {
                compare_points(here, &[], task.by, changed)?;
                Ok(())
            }
            FoundNode::Leaf { points, .. } => {
                compare_points(here, S::points(&points), task.by, changed)?;
                Ok(())
            }
            FoundNode::Inner { slots, .. } => compare_points_with_slots::<S, L>(
                state, task, here, &slots, changed, steps,
            ),
        },
    }
}
