//! The next commit of an output.
ghost use Rattle.std.specs.Prelude.{◌≡◌, ◌↔◌, IsNone, IsTrue, IfOk, IfSome, filter};
ghost use Rattle.btr_base.specs.Range.{covered};
ghost use Rattle.btr_hist.specs.Distil.{output_points};
ghost use Rattle.btr_kernel.specs.Sources.{AtEachInputs};
ghost use Rattle.btr_distil.specs.Plan.{IsPlanFor, IsDistillateOf, IsMapped};

use crate::cells::cells_over;
use crate::changed::affected;
use crate::commit::Plan;
use crate::shared::output_shared;
use crate::sight::Sight;
use btr_base::{Bag, Point, Ranges};
use btr_hist::{Entry, Kernel};
use btr_kernel::run_over;
use std::alloc::{AllocError, Global};
use std::marker::Sync;
use std::thread::Threads;

/// The commit that brings an output up to date, or `None` if the versions to be read are those that it has read. It removes the
/// output's points at the times at which the output may differ, and adds those that it has there over the new inputs.
///
/// The cost follows the change. It visits the nodes of the new trees that are newer than what was read, and the parts of the old
/// trees in their spans. Then it reads the points of the new inputs at the times that may differ, and for as long before each of
/// those ranges as the kernel looks back, and computes the points there. It takes memory for these points and ranges. If the kernel is
/// one of aligned windows, it does not read the points of whole windows: that step costs the windows in those ranges, and of the new
/// tree the nodes in which one of them starts or ends. An `Err` means out of memory.
pub fn plan(alloc: Global, sight: &Sight<'_>) -> Result<Option<Plan>, AllocError>
    ensures none { IfOk result (λ p. IsNone p ↔ (sight.now.old_reads ≡ sight.now.new_reads)) }
    ensures made { IfOk result (λ p. IfSome p (IsPlanFor sight.now)) }
    ensures distillate { IfOk result (λ p. IfSome p (IsDistillateOf sight.now)) }
    ensures mapped { IfOk result (λ p. IfSome p (IsMapped sight.now)) }
{
    if is_current(sight) {
        return Ok(None);
    }
    Ok(Some(plan_anew(alloc, sight)?))
}

/// The commit that brings an output from the versions of its inputs that it has read to those that are to be read, also if they are
/// the same. The cost is that of [`plan`], and so is the memory that it takes. An `Err` means out of memory.
pub fn plan_anew(alloc: Global, sight: &Sight<'_>) -> Result<Plan, AllocError>
    ensures made { IfOk result (IsPlanFor sight.now) }
    ensures distillate { IfOk result (IsDistillateOf sight.now) }
    ensures mapped { IfOk result (IsMapped sight.now) }
{
    let cut = affected(alloc, sight)?;
    let added = output_over(alloc, sight, &cut)?;
    Ok(planned(sight, cut, added))
}

/// Returns what [`plan`] returns, and computes the points in several threads: the cut is parted by time, and each part is computed
/// by itself. `threads` is the greatest number of threads that work on it at once, the calling one among them.
///
/// If `threads` is at most 1, or the first input has fewer than 10,000 points in the cut, it starts no thread. Otherwise each part
/// has about the same number of points. The cost is that of `plan`, and for each part that of reading once more the points for as
/// long before it as the kernel looks back. Before that it counts points, in time logarithmic in the points of the input for each
/// range of the cut, and for each part some sixty times this at most. After that the calling thread appends the points of the parts,
/// in time linear in their number. It takes memory for the added points twice. A kernel of aligned windows is treated alike, also if
/// its windows are few: its points are parted by the starts of their windows, and a part may end inside a window, which is then read
/// by each of the two parts. An `Err` means out of memory, in any of the threads.
pub fn plan_shared<R: Threads + Sync>(
    rt: &R,
    alloc: Global,
    sight: &Sight<'_>,
    threads: usize,
) -> Result<Option<Plan>, AllocError>
    ensures none { IfOk result (λ p. IsNone p ↔ (sight.now.old_reads ≡ sight.now.new_reads)) }
    ensures made { IfOk result (λ p. IfSome p (IsPlanFor sight.now)) }
    ensures distillate { IfOk result (λ p. IfSome p (IsDistillateOf sight.now)) }
    ensures mapped { IfOk result (λ p. IfSome p (IsMapped sight.now)) }
{
    if is_current(sight) {
        return Ok(None);
    }
    let cut = affected(alloc, sight)?;
    let added = output_shared(rt, alloc, sight, &cut, threads)?;
    Ok(Some(planned(sight, cut, added)))
}

/// Whether the output has read the versions that are to be read.
fn is_current(sight: &Sight<'_>) -> bool
    ensures { IsTrue result ↔ (sight.now.old_reads ≡ sight.now.new_reads) }
{
    sight.old_reads == sight.new_reads
}

/// The plan that removes the points of the cut, and adds these. It takes no memory.
fn planned(sight: &Sight<'_>, cut: Ranges, added: Bag) -> Plan
    ensures { result ≡ record {
      stream = sight.now.stream;
      base = sight.now.base;
      reads = sight.now.new_reads;
      cut = cut;
      added = added;
    } }
{
    Plan {
        base: sight.base,
        entry: Entry::Distillate {
            stream: sight.stream,
            cut,
            added,
            reads: sight.new_reads,
        },
    }
}

/// The points of the output over the new inputs at the times of the ranges as a bag, computed by the calling thread.
pub(crate) fn output_over(
    alloc: Global,
    sight: &Sight<'_>,
    ranges: &Ranges,
) -> Result<Bag, AllocError>
    ensures { IfOk result (λ b. AtEachInputs sight.now.new_first sight.now.new_second (λ i.
        b ≡ filter (λ p. covered ranges.now p.time) (output_points sight.now.spec i))) }
{
    let points = points_over(alloc, sight, ranges)?;
    Ok(Bag::from_points(points))
}

/// The points of the output over the new inputs at the times of the ranges, by the kind of its kernel. An `Err` means out of memory.
fn points_over(alloc: Global, sight: &Sight<'_>, ranges: &Ranges) -> Result<Vec<Point>, AllocError>
    ensures { IfOk result (λ v. AtEachInputs sight.now.new_first sight.now.new_second (λ i.
        v.items ≡ filter (λ p. covered ranges.now p.time) (output_points sight.now.spec i))) }
{
    match sight.spec.kernel {
        Kernel::Cell { which, p } => cells_over(alloc, which, p, sight.new_first, ranges),
        _ => run_over(
            alloc,
            &sight.spec,
            sight.new_first,
            sight.new_second,
            ranges,
        ),
    }
}
