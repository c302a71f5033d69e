//! The walk over the newer tree beside the older one, into the spans whose node or slot has a newer version.
ghost use Rattle.std.specs.Prelude.{ℕ, OnOk};
ghost use Rattle.btr_tree.specs.NodeSource.{AreSafeSlots, IfRefused, IsSafeFound, UsesSource};
ghost use Rattle.btr_diff.specs.Comparison.{Compares, ComparesSlots, IsSound, IsSoundSlots, CountsNewer, CountsOlder, CountsSlot};
ghost use Rattle.btr_diff.specs.Comparison.{ArePoints, ArePointsOf, IsPlace, IsFoundOf, IsSlotOf, AreSlotsOf, IsTask, IsNewerSlot};

use crate::comparison::{Findings, Task};
use crate::gathering::gather_slots;
use crate::leaf_walk::compare_points_with_slots;
use crate::newer_slot::{NewerSlot, newer_slot};
use crate::points::compare_points;
use btr_base::{FAN_OUT, Point};
use btr_tree::{FoundNode, NodeSource, Steps, WalkFault};

/// Compares the older tree with what was found of the newer one.
#[cycle(tree_walk)]
pub(crate) fn compare_found<S: NodeSource, M, L>(
    state: &mut S::State,
    task: Task,
    old: S::Place,
    new: FoundNode<S::Leaf, S::Inner>,
    findings: &mut Findings<M>,
    steps: &mut Steps<L>,
) -> Result<(), WalkFault<S::Fault>>
    requires task { IsTask task }
    requires old { S.IsSafe (S.told state.old) (S.site old) task.span.height task.span.start }
    requires new { (most : ℕ) × IsSafeFound (S.IsSafe (S.told state.old)) S.count S.leaf_points S.inner_slot S.inner_place most
        task.span new }
    ensures adds { OnOk result (Compares task (S.IsAt (S.told state.old)) (IsPlace (S.site old))
        (IsFoundOf S.leaf_points S.inner_slot S.inner_place new) findings.old.changed findings.new.changed) }
    ensures sound { IsSound task (S.IsThere (S.told state.old)) (IsPlace (S.site old))
        (IsFoundOf S.leaf_points S.inner_slot S.inner_place new) S.IsHarmless result }
    ensures uses { UsesSource S.told S.faults (λ t a b. IfRefused (S.IsCaused t a b)) state.old state.new result }
    ensures newer { CountsNewer task (S.IsAt (S.told state.old)) (IsFoundOf S.leaf_points S.inner_slot S.inner_place new)
        steps.old steps.new }
    ensures older { CountsOlder 0 task.span (S.IsAt (S.told state.old)) (IsPlace (S.site old))
        findings.old.older findings.new.older result }
{
    match new {
        FoundNode::Nothing => compare_with_points::<S, M>(state, task, old, &[], findings),
        FoundNode::Leaf { points, .. } => {
            compare_with_points::<S, M>(state, task, old, S::points(&points), findings)
        }
        FoundNode::Inner { slots, .. } => {
            compare_with_slots::<S, M, L>(state, task, old, &slots, findings, steps)
        }
    }
}

/// Compares the older tree with the slots of an inner node of the newer one.
#[cycle(tree_walk)]
fn compare_with_slots<S: NodeSource, M, L>(
    state: &mut S::State,
    task: Task,
    old: S::Place,
    new: &S::Inner,
    findings: &mut Findings<M>,
    steps: &mut Steps<L>,
) -> Result<(), WalkFault<S::Fault>>
    requires task { IsTask task }
    requires old { S.IsSafe (S.told state.old) (S.site old) task.span.height task.span.start }
    requires new { AreSafeSlots (S.IsSafe (S.told state.old)) S.count (S.inner_place new.now) (S.inner_slot new.now) task.span }
    ensures adds { OnOk result (Compares task (S.IsAt (S.told state.old)) (IsPlace (S.site old))
        (AreSlotsOf (S.inner_place new.now) (S.inner_slot new.now)) findings.old.changed findings.new.changed) }
    ensures sound { IsSound task (S.IsThere (S.told state.old)) (IsPlace (S.site old))
        (AreSlotsOf (S.inner_place new.now) (S.inner_slot new.now)) S.IsHarmless result }
    ensures uses { UsesSource S.told S.faults (λ t a b. IfRefused (S.IsCaused t a b)) state.old state.new result }
    ensures newer { CountsNewer task (S.IsAt (S.told state.old)) (AreSlotsOf (S.inner_place new.now) (S.inner_slot new.now))
        steps.old steps.new }
    ensures older { CountsOlder 0 task.span (S.IsAt (S.told state.old)) (IsPlace (S.site old))
        findings.old.older findings.new.older result }
{
    match S::visit(state, task.span, old, &mut findings.older) {
        Err(fault) => Err(WalkFault::Refused(fault)),
        Ok(found) => match found {
            FoundNode::Nothing => compare_points_with_slots::<S, L>(
                state,
                task,
                &[],
                new,
                &mut findings.changed,
                steps,
            ),
            FoundNode::Leaf { points, .. } => {
                let here = S::points(&points);
                let changed = &mut findings.changed;
                compare_points_with_slots::<S, L>(state, task, here, new, changed, steps)
            }
            FoundNode::Inner { slots, .. } => {
                compare_slots::<S, M, L>(state, task, &slots, new, findings, steps)
            }
        },
    }
}

/// Compares two inner nodes slot by slot. A slot whose version is not above `since` is passed.
#[cycle(tree_walk)]
fn compare_slots<S: NodeSource, M, L>(
    state: &mut S::State,
    task: Task,
    old: &S::Inner,
    new: &S::Inner,
    findings: &mut Findings<M>,
    steps: &mut Steps<L>,
) -> Result<(), WalkFault<S::Fault>>
    requires task { IsTask task }
    requires old { AreSafeSlots (S.IsSafe (S.told state.old)) S.count (S.inner_place old.now) (S.inner_slot old.now) task.span }
    requires new { AreSafeSlots (S.IsSafe (S.told state.old)) S.count (S.inner_place new.now) (S.inner_slot new.now) task.span }
    ensures adds { OnOk result (ComparesSlots task (S.IsAt (S.told state.old)) S.inner_place S.inner_slot old.now new.now
        findings.old.changed findings.new.changed) }
    ensures sound { IsSoundSlots task (S.IsThere (S.told state.old)) S.inner_place S.inner_slot old.now new.now S.IsHarmless result }
    ensures uses { UsesSource S.told S.faults (λ t a b. IfRefused (S.IsCaused t a b)) state.old state.new result }
    ensures newer { CountsNewer task (S.IsAt (S.told state.old)) (AreSlotsOf (S.inner_place new.now) (S.inner_slot new.now))
        steps.old steps.new }
    ensures older { CountsOlder 1 task.span (S.IsAt (S.told state.old)) (AreSlotsOf (S.inner_place old.now) (S.inner_slot old.now))
        findings.old.older findings.new.older result }
{
    for i in 0..FAN_OUT {
        let slot = newer_slot::<S>(new, i);
        if slot.version <= task.by.since {
            continue;
        }
        let here = Task {
            span: task.span.slot(i),
            by: task.by,
        };
        let place = S::place(old, i);
        compare_slot::<S, M, L>(state, here, place, slot, findings, steps)?;
    }
    Ok(())
}

/// Compares the trees in one slot, whose version is above `since`, the caller's condition. It visits the newer node, and below it
/// those that are newer, if the slot has a point.
#[cycle(tree_walk)]
fn compare_slot<S: NodeSource, M, L>(
    state: &mut S::State,
    task: Task,
    old: S::Place,
    new: NewerSlot<S::Place>,
    findings: &mut Findings<M>,
    steps: &mut Steps<L>,
) -> Result<(), WalkFault<S::Fault>>
    requires task { IsTask task }
    requires old { S.IsSafe (S.told state.old) (S.site old) task.span.height task.span.start }
    requires new { IsNewerSlot (S.IsSafe (S.told state.old)) task new.version (S.site new.place) }
    ensures adds { OnOk result (Compares task (S.IsAt (S.told state.old)) (IsPlace (S.site old))
        (IsSlotOf new.version new.count (S.site new.place)) findings.old.changed findings.new.changed) }
    ensures sound { IsSound task (S.IsThere (S.told state.old)) (IsPlace (S.site old))
        (IsSlotOf new.version new.count (S.site new.place)) S.IsHarmless result }
    ensures uses { UsesSource S.told S.faults (λ t a b. IfRefused (S.IsCaused t a b)) state.old state.new result }
    ensures newer { CountsSlot task (S.IsAt (S.told state.old)) new.version new.count (S.site new.place) steps.old steps.new }
    ensures older { CountsOlder 0 task.span (S.IsAt (S.told state.old)) (IsPlace (S.site old))
        findings.old.older findings.new.older result }
{
    if new.count == 0 {
        return compare_with_points::<S, M>(state, task, old, &[], findings);
    }
    match S::visit(state, task.span, new.place, steps) {
        Err(fault) => Err(WalkFault::Refused(fault)),
        Ok(found) => compare_found::<S, M, L>(state, task, old, found, findings, steps),
    }
}

/// Adds the slots in which the points of a span in the older tree differ from `new`.
fn compare_with_points<S: NodeSource, M>(
    state: &mut S::State,
    task: Task,
    old: S::Place,
    new: &[Point],
    findings: &mut Findings<M>,
) -> Result<(), WalkFault<S::Fault>>
    requires task { IsTask task }
    requires old { S.IsSafe (S.told state.old) (S.site old) task.span.height task.span.start }
    requires new { ArePoints new.now }
    ensures adds { OnOk result (Compares task (S.IsAt (S.told state.old)) (IsPlace (S.site old)) (ArePointsOf new.now)
        findings.old.changed findings.new.changed) }
    ensures sound { IsSound task (S.IsThere (S.told state.old)) (IsPlace (S.site old)) (ArePointsOf new.now) S.IsHarmless result }
    ensures uses { UsesSource S.told S.faults (λ t a b. IfRefused (S.IsCaused t a b)) state.old state.new result }
    ensures older { CountsOlder 0 task.span (S.IsAt (S.told state.old)) (IsPlace (S.site old))
        findings.old.older findings.new.older result }
{
    let by = task.by;
    match S::visit(state, task.span, old, &mut findings.older) {
        Err(fault) => Err(WalkFault::Refused(fault)),
        Ok(found) => match found {
            FoundNode::Nothing => {
                compare_points(&[], new, by, &mut findings.changed)?;
                Ok(())
            }
            FoundNode::Leaf { points, .. } => {
                compare_points(S::points(&points), new, by, &mut findings.changed)?;
                Ok(())
            }
            FoundNode::Inner { slots, .. } => {
                let mut points = Vec::new(by.alloc);
                let older = &mut findings.older;
                gather_slots::<S, M>(state, task.span, &slots, &mut points, older)?;
                compare_points(&points, new, by, &mut findings.changed)?;
                Ok(())
            }
        },
    }
}
