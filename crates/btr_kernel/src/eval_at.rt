//! A kernel at one anchor.
ghost use Rattle.std.specs.Prelude.{◌≡◌, true};
ghost use Rattle.btr_hist.specs.Kernel.{is_good, divides_well, computed as computed_of, value as value_by};
ghost use Rattle.btr_kernel.specs.Window.{AreUntil, HasPointAt};

use crate::latest::{latest, value_at, value_before};
use crate::numbers::{gap, of_total, scaled, stored, turned};
use btr_base::{Agg, Point};
use btr_hist::{Kernel, Spec};

/// The value of a spec's kernel at an anchor `t`, in nanoseconds, if there is one. `first` and `second` are the windows of the
/// inputs that end with `t`, and `second` is empty if there is no second input. A value that is no `i64` is none. A kernel of
/// aligned windows, [`Kernel::Cell`], has no value at an anchor.
///
/// `Sum`, `Mean`, `Least`, `Greatest` and `Count` take time linear in the points of the first window. `Delta` takes time linear
/// in the points at `t`, and the others constant time. It takes no memory. The kernels are in the manner of DISTIL
/// (SmartGridComm 2015).
pub fn eval(spec: &Spec, t: i64, first: &[Point], second: &[Point]) -> Option<i64>
    requires good { is_good spec.now ≡ true }
    requires first { AreUntil t first.now }
    requires second { AreUntil t second.now }
    requires anchor { HasPointAt t first.now }
    ensures { result ≡ value_by spec.now.kernel t first.now second.now }
{
    stored(computed(spec.kernel, t, first, second)?)
}

/// What a kernel computes at an anchor.
fn computed(kernel: Kernel, t: i64, first: &[Point], second: &[Point]) -> Option<i128>
    requires divides { divides_well kernel ≡ true }
    requires first { AreUntil t first.now }
    requires second { AreUntil t second.now }
    requires anchor { HasPointAt t first.now }
    ensures { result ≡ computed_of kernel t first.now second.now }
{
    match kernel {
        Kernel::Affine { a, b, d } => Some(scaled(a, b, d, value_at(first, t)?)),
        Kernel::Delta => gap(value_at(first, t), value_before(first, t)),
        Kernel::Minus => gap(value_at(first, t), value_at(second, t)),
        Kernel::Angle => Some(turned(gap(value_at(first, t), value_at(second, t))?)),
        Kernel::Hold => gap(value_at(first, t), latest(second, t)),
        Kernel::Sum | Kernel::Mean | Kernel::Least | Kernel::Greatest | Kernel::Count => {
            of_total(kernel, &Agg::of_points(first))
        }
        Kernel::Cell { .. } => None,
    }
}
