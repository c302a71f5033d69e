//! The points of an output in some ranges of time, and at one time.
ghost use Rattle.std.specs.Prelude.{◌≡◌, ◌↔◌, ℤ, true, IfOk, IsSome};
ghost use Rattle.std.specs.List.{filter};
ghost use Rattle.std.specs.Ordering.{int_eq};
ghost use Rattle.std.specs.Option.{option_map, option_to_list, is_some};
ghost use Rattle.btr_base.specs.Changes.{points_at};
ghost use Rattle.btr_base.specs.Point.{InDomain};
ghost use Rattle.btr_base.specs.Range.{covered};
ghost use Rattle.btr_hist.specs.Kernel.{is_good};
ghost use Rattle.btr_hist.specs.Distil.{kernel_points};
ghost use Rattle.btr_kernel.specs.Sources.{AtEachInputs};

use crate::anchor_times::anchors_in;
use crate::gather::{gather, gather_second, with_past};
use crate::sweep::swept;
use btr_base::{END, FIRST, Point, Range, Ranges};
use btr_hist::Spec;
use btr_tree::Tree;
use std::alloc::{AllocError, Global};

/// Returns the points of an output whose times ranges cover, from the trees of its inputs: at each distinct time of the first
/// input the value, if there is one. A kernel of aligned windows has no value at such a time, and gives no points here.
///
/// It reads from the trees the points of the ranges, each begun as much earlier as the kernel looks back, and no others. Then it
/// goes over them once. The cost is that of reading, and time linear in the points read, whatever the lead. An `Err` means out of
/// memory. This is the step of DISTIL (SmartGridComm 2015) that computes a distiller's output from the changed input.
pub fn run_over(
    alloc: Global,
    spec: &Spec,
    first: &Tree,
    second: Option<&Tree>,
    ranges: &Ranges,
) -> Result<Vec<Point>, AllocError>
    requires good { is_good spec.now ≡ true }
    requires second { is_some spec.now.second ≡ is_some second }
    ensures { IfOk result (λ v. AtEachInputs first.now (option_map (λ t. t.now) second.entry) (λ i.
        v.items ≡ filter (λ p. covered ranges.now p.time) (kernel_points spec.now i))) }
{
    let past = with_past(alloc, ranges, spec.lead)?;
    let points = gather(alloc, first, &past)?;
    let others = gather_second(alloc, second, &past)?;
    let times = anchors_in(alloc, &points, ranges)?;
    let made = swept(alloc, spec, &times, &points, &others)?;
    Ok(made)
}

/// Returns the point of an output at a time, in nanoseconds, from the trees of its inputs. It returns `None` if the first input has
/// no point at the time, or the kernel has no value there, and so at each time outside the domain, and always for a kernel of aligned
/// windows.
///
/// It reads from the trees the points of the time and those before it for as long as the kernel looks back. The cost is that of
/// reading, and time linear in the points read. For many times, one call of [`run_over`] costs less than a call for each time. An
/// `Err` means out of memory.
pub fn point_at(
    alloc: Global,
    spec: &Spec,
    first: &Tree,
    second: Option<&Tree>,
    t: i64,
) -> Result<Option<Point>, AllocError>
    requires good { is_good spec.now ≡ true }
    requires second { is_some spec.now.second ≡ is_some second }
    ensures { IfOk result (λ o. AtEachInputs first.now (option_map (λ t. t.now) second.entry) (λ i.
        option_to_list o ≡ points_at t (kernel_points spec.now i))) }
{
    let time = only(alloc, t)?;
    let points = run_over(alloc, spec, first, second, &time)?;
    Ok(points.first().copied())
}

/// The range of one time, or no range if the time is outside the domain.
fn only(alloc: Global, t: i64) -> Result<Ranges, AllocError>
    ensures { IfOk result (λ r. (u : ℤ) → InDomain u → covered r u ≡ int_eq u t) }
{
    let mut ranges = Ranges::none(alloc);
    if FIRST <= t && t < END {
        ranges.add(Range { from: t, to: t + 1 })?;
    }
    Ok(ranges)
}
