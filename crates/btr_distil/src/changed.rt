//! The times at which an output may differ after its inputs have changed.
ghost use Rattle.std.specs.Prelude.{◌≡◌, true, List, IfOk};
ghost use Rattle.btr_base.specs.declared.point.Point.{Point};
ghost use Rattle.btr_hist.specs.Kernel.{is_good};
ghost use Rattle.btr_hist.specs.Distil.{Inputs, affected as affected_of};
ghost use Rattle.btr_distil.specs.Sight.{IsInput, SeesSecond, IsSightOf, widened_changes};

use crate::sight::Sight;
use btr_base::Ranges;
use btr_diff::{changes, changes_with_lead};
use btr_hist::{Kernel, Spec};
use btr_tree::{Label, Steps, Tree};
use std::alloc::{AllocError, Global};

/// The label of the counters of walks over inputs.
struct InputWalk;

impl Label for InputWalk {}

/// The times at which the output may differ: where an input differs, widened.
pub(crate) fn affected(alloc: Global, sight: &Sight<'_>) -> Result<Ranges, AllocError>
    ensures { IfOk result (λ r. (old new : Inputs) → IsSightOf sight.now old new → r ≡ affected_of sight.now.spec old new) }
{
    let since = sight.old_reads.first;
    let first = changed(alloc, sight.old_first, sight.new_first, since, &sight.spec)?;
    let second = changed_second(alloc, sight)?;
    let all = first.union(alloc, &second)?;
    Ok(all)
}

/// The slots in which the second input differs, widened: none if there is no second input.
fn changed_second(alloc: Global, sight: &Sight<'_>) -> Result<Ranges, AllocError>
    ensures { IfOk result (λ r. (before after : List Point) → SeesSecond sight.now before after
        → r ≡ widened_changes sight.now.spec before after) }
{
    let since = sight.old_reads.second;
    match (since, sight.old_second, sight.new_second) {
        (Some(since), Some(old), Some(new)) => changed(alloc, old, new, since, &sight.spec),
        _ => Ok(Ranges::none(alloc)),
    }
}

/// The slots of `2^grain` ns in which an input differs, widened: with the times after each for as long as the kernel looks back, or
/// the aligned windows that they meet, if the kernel is one of windows. It visits the parts of the new tree that are newer than
/// `since`.
fn changed(
    alloc: Global,
    old: &Tree,
    new: &Tree,
    since: u64,
    spec: &Spec,
) -> Result<Ranges, AllocError>
    requires { is_good spec.now ≡ true }
    ensures { IfOk result (λ r. (before after : List Point) → IsInput since old.now new.now before after
        → r ≡ widened_changes spec.now before after) }
{
    let mut steps = Steps::<InputWalk>::new();
    let older = old.uncounted::<InputWalk>();
    let grain = spec.grain;
    match spec.kernel {
        // the changed slots of the greater of both widths are the windows that the changed slots meet
        Kernel::Cell { p, .. } => changes(alloc, older, new, since, grain.max(p), &mut steps),
        _ => {
            let lead = spec.lead;
            changes_with_lead(alloc, older, new, since, grain, lead, &mut steps)
        }
    }
}
