//! The law of kernels.
ghost use Rattle.std.specs.Prelude.{◌≡◌, ℕ, ℤ, Bool, true, Option};
ghost use Rattle.btr_hist.specs.Kernel.{is_good, window, value as value_by};
ghost use Rattle.btr_hist.specs.Distil.{Inputs, IsLocal, value_of as kernel_value};
ghost use Rattle.btr_kernel.specs.Window.{AreUntil, HasPointAt};

use crate::eval_at::eval;
use btr_base::Point;
use btr_hist::Spec;

/// What computes a value at an anchor from the windows of its inputs: the points from some time before the anchor up to it.
///
/// The law is that it looks at nothing else. That distillates are right follows from this law, whatever the kernel computes: a
/// change of an input can change the output only at the times whose windows contain the change.
pub trait Eval {
    /// How far the windows reach back, in nanoseconds.
    ghost lead: { Self → ℕ };

    /// It may be evaluated.
    ghost is_valid: { Self → Bool };

    /// The value at a time, by the points of the inputs.
    ghost value_in: { Self → Inputs → ℤ → Option ℤ };

    /// The value at an anchor `t`, in nanoseconds, if there is one. `first` and `second` are the windows of the inputs that end
    /// with `t`, and `second` is empty if there is no second input. It takes no memory.
    fn value(&self, t: i64, first: &[Point], second: &[Point]) -> Option<i64>
        requires valid { is_valid self.now ≡ true }
        requires first { AreUntil t first.now }
        requires second { AreUntil t second.now }
        requires anchor { HasPointAt t first.now }
        ensures { (i : Inputs) → window (lead self.now) t i.first ≡ first.now → window (lead self.now) t i.second ≡ second.now
            → result ≡ value_in self.now i t };

    /// The value at a time depends on the windows that end with it alone.
    ghost local: { (e : Self) → IsLocal (lead e) (value_in e) };
}

/// The kernels of [`Kernel`].
impl Eval for Spec {
    ghost lead = { λ s. s.lead };

    ghost is_valid = { is_good };

    ghost value_in = { kernel_value };

    ghost local = { λ s t i j first second k. value_by s.kernel t (first k) (second k) };

    fn value(&self, t: i64, first: &[Point], second: &[Point]) -> Option<i64> {
        eval(self, t, first, second)
    }
}
