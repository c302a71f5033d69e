//! What is planned for a stream.
ghost use Rattle.std.specs.Prelude.{◌≡◌, ◌↔◌, ℕ, List, IfOk, IsNone, IfSome};
ghost use Rattle.btr_hist.specs.declared.entry.Entry.{Entry as EntrySpec};
ghost use Rattle.btr_hist.specs.Legal.{Follows};
ghost use Rattle.btr_streams.specs.Snapshot.{IsSnapshotOf};
ghost use Rattle.btr_distil.specs.Plan.{IsPlanFor, IsDistillateOf};
ghost use Rattle.btr_plan.specs.Next.{IsNext};
ghost use Rattle.btr_plan.specs.Sight.{IsSightAfter};

use crate::sighting::sight;
use btr_distil::{Plan, Sight, plan, plan_shared};
use btr_streams::Snapshot;
use std::alloc::{AllocError, Global};
use std::marker::Sync;
use std::thread::Threads;

/// What is planned for a stream.
#[derive(Drop)]
pub enum Next {
    /// Nothing, since the stream is no output, or there is no such stream.
    NotOutput,

    /// Nothing, since the output has read the latest versions of its inputs. This is its latest version.
    UpToDate { version: u64 },

    /// The next commit of the output, which reads the latest versions of its inputs.
    Plan(Plan),
}

/// Returns what is planned for a stream after the history of a snapshot.
///
/// The stream and its inputs are found in logarithmic time. A plan costs what [`plan`] does, which follows the changes of the inputs
/// since the versions that the output has read. An `Err` means out of memory.
pub fn next_plan(alloc: Global, snapshot: &Snapshot, stream: u32) -> Result<Next, AllocError>
    ensures { (h : List EntrySpec) → IsSnapshotOf h snapshot.now → IfOk result (IsNext h stream) }
{
    let Some(sight) = sight(snapshot, stream) else {
        return Ok(Next::NotOutput);
    };
    let plan = plan(alloc, &sight)?;
    Ok(next_of(&sight, plan))
}

/// Returns what [`next_plan`] does. At most `threads` threads work on the plan at once, the calling one among them; 0 are 1. It costs
/// what [`plan_shared`] does.
pub fn next_plan_shared<R: Threads + Sync>(
    rt: &R,
    alloc: Global,
    snapshot: &Snapshot,
    stream: u32,
    threads: usize,
) -> Result<Next, AllocError>
    ensures { (h : List EntrySpec) → IsSnapshotOf h snapshot.now → IfOk result (IsNext h stream) }
{
    let Some(sight) = sight(snapshot, stream) else {
        return Ok(Next::NotOutput);
    };
    let plan = plan_shared(rt, alloc, &sight, threads)?;
    Ok(next_of(&sight, plan))
}

/// Returns what is planned for the output of a sight, if that is its plan.
fn next_of(sight: &Sight<'_>, plan: Option<Plan>) -> Next
    requires none { IsNone plan ↔ (sight.now.old_reads ≡ sight.now.new_reads) }
    requires made { IfSome plan (IsPlanFor sight.now) }
    requires distillate { IfSome plan (IsDistillateOf sight.now) }
    ensures { (h : List EntrySpec) (stream : ℕ) → Follows h → IsSightAfter h stream sight.now → IsNext h stream result }
{
    match plan {
        None => Next::UpToDate {
            version: sight.base(),
        },
        Some(plan) => Next::Plan(plan),
    }
}
