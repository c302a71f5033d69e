//! The test of a distillate: whether it is the one that the definition gives.
ghost use Rattle.std.specs.Prelude.{◌≡◌, ◌↔◌, true, List, None, IfOk, IsTrue};
ghost use Rattle.btr_hist.specs.declared.entry.Entry.{Entry as EntrySpec};
ghost use Rattle.btr_hist.specs.Legal.{rejection, IsDistillate, IsComputed};
ghost use Rattle.btr_streams.specs.Snapshot.{IsSnapshotOf};
ghost use Rattle.btr_distil.specs.Plan.{change};
ghost use Rattle.btr_plan.specs.Sight.{TakesReads};

use crate::sighting::sight_to;
use btr_base::{Bag, Ranges};
use btr_distil::{Plan, plan_anew};
use btr_hist::{Entry, Reads};
use btr_streams::Snapshot;
use std::alloc::{AllocError, Global};

/// Returns whether an entry is what the definition gives. It computes the cut and the points of a distillate anew, from the versions
/// of the inputs that the distillate says it has read, and compares them. Any other entry is always what the definition gives. The
/// entry is one that may follow the history of the snapshot.
///
/// A distillate costs what [`plan_anew`] does, in time and in memory, and one pass over its cut and points. Any other entry takes
/// constant time. An `Err` means out of memory.
pub fn is_computed(alloc: Global, snapshot: &Snapshot, entry: &Entry) -> Result<bool, AllocError>
    ensures { (h : List EntrySpec) → IsSnapshotOf h snapshot.now → rejection h entry.now ≡ None
        → IfOk result (λ is. IsTrue is ↔ IsComputed h entry.now) }
{
    match entry {
        Entry::Distillate {
            stream,
            cut,
            added,
            reads,
        } => is_distillate(alloc, snapshot, *stream, cut, added, *reads),
        Entry::Create { .. } | Entry::Commit { .. } | Entry::Define { .. } | Entry::Retire { .. } =>
            Ok(true),
    }
}

/// Returns whether this cut and these points are the distillate that brings an output from what its latest version has read to
/// these versions, which its next version may read. It costs what [`is_computed`] does.
fn is_distillate(
    alloc: Global,
    snapshot: &Snapshot,
    stream: u32,
    cut: &Ranges,
    added: &Bag,
    reads: Reads,
) -> Result<bool, AllocError>
    ensures { (h : List EntrySpec) → IsSnapshotOf h snapshot.now → TakesReads h stream reads
        → IfOk result (λ is. IsTrue is ↔ IsDistillate h stream (record { cut = cut.now; added = added.now }) reads) }
{
    let Some(sight) = sight_to(snapshot, stream, reads) else {
        return Ok(false);
    };
    let plan = plan_anew(alloc, &sight)?;
    Ok(has_change(&plan, cut, added))
}

/// Returns whether a plan has this cut and these points. It takes one pass over both, and no memory.
fn has_change(plan: &Plan, cut: &Ranges, added: &Bag) -> bool
    ensures { IsTrue result ↔ (change plan.now ≡ record { cut = cut.now; added = added.now }) }
{
    let same_cut = plan.cut().as_slice() == cut.as_slice();
    let same_points = plan.added().as_slice() == added.as_slice();
    same_cut && same_points
}
