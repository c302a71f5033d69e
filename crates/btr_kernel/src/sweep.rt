//! One sweep over the anchors of an output.
ghost use Rattle.std.specs.Prelude.{◌≡◌, ◌<◌, true, IfOk, OnOk};
ghost use Rattle.std.specs.List.{AllByRecursion};
ghost use Rattle.std.specs.Option.{option_and_then};
ghost use Rattle.btr_base.specs.Bag.{IsInOrder};
ghost use Rattle.btr_hist.specs.Kernel.{is_good, stored as stored_of};
ghost use Rattle.btr_hist.specs.Distil.{value_of, points_from};
ghost use Rattle.btr_kernel.specs.Total.{of_total as of_total_of};
ghost use Rattle.btr_kernel.specs.Swept.{IsSweep, IsAnchor};

use crate::eval_at::eval;
use crate::numbers::{is_total, of_total, stored};
use crate::sliding::Sliding;
use crate::window::Window;
use btr_base::{Agg, Point};
use btr_hist::{Kernel, Spec};
use std::alloc::{AllocError, Global};

/// The windows of the last anchor in the points of both inputs, and the aggregates of the first.
#[derive(Drop)]
pub(crate) struct Sweep {
    pub(crate) first: Window,
    pub(crate) second: Window,
    pub(crate) sliding: Sliding,
}

impl Sweep {
    /// The sweep before the first anchor. It takes no memory.
    fn new(alloc: Global) -> Sweep
        ensures { (a b : _) → IsSweep a b result }
    {
        Sweep {
            first: Window::before_all(),
            second: Window::before_all(),
            sliding: Sliding::new(alloc),
        }
    }

    /// The value at an anchor, if there is one. It takes constant time on average if anchors rise from call to call. An `Err`
    /// means out of memory.
    fn value(
        &mut self,
        spec: &Spec,
        t: i64,
        first: &[Point],
        second: &[Point],
    ) -> Result<Option<i64>, AllocError>
        requires good { is_good spec.now ≡ true }
        requires first { IsInOrder first.now }
        requires second { IsInOrder second.now }
        requires anchor { IsAnchor first.now t }
        requires sweep { IsSweep first.now second.now self.old }
        ensures value { IfOk result (λ v. v ≡ value_of spec.now (record { first = first.now; second = second.now }) t) }
        ensures sweep { OnOk result (IsSweep first.now second.now self.new) }
    {
        self.first = self.first.moved_to(first, spec.lead, t);
        if is_total(spec.kernel) {
            let all = self.sliding.total(first, self.first.from, self.first.to)?;
            return Ok(total_value(spec.kernel, &all));
        }
        self.second = self.second.moved_to(second, spec.lead, t);
        Ok(eval(
            spec,
            t,
            self.first.points(first),
            self.second.points(second),
        ))
    }
}

/// The value of a kernel that looks at the aggregate of the first input's window alone.
fn total_value(kernel: Kernel, all: &Agg) -> Option<i64>
    requires { 0 < all.now.count }
    ensures { result ≡ option_and_then stored_of (of_total_of kernel all.now) }
{
    stored(of_total(kernel, all)?)
}

/// The points of an output at some anchors, which rise, from the points of its inputs. It takes time linear in the anchors and
/// the points, whatever the lead. An `Err` means out of memory.
pub(crate) fn swept(
    alloc: Global,
    spec: &Spec,
    times: &[i64],
    first: &[Point],
    second: &[Point],
) -> Result<Vec<Point>, AllocError>
    requires good { is_good spec.now ≡ true }
    requires first { IsInOrder first.now }
    requires second { IsInOrder second.now }
    requires anchors { AllByRecursion (IsAnchor first.now) times.now }
    ensures { IfOk result (λ v. v.items ≡ points_from (value_of spec.now (record { first = first.now; second = second.now })) times.now) }
{
    let mut sweep = Sweep::new(alloc);
    let mut made = Vec::with_capacity(alloc, times.len())?;
    for time in times {
        match sweep.value(spec, *time, first, second)? {
            Some(value) => made.push(Point { time: *time, value })?,
            None => {}
        }
    }
    Ok(made)
}
