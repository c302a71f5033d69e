//! Values at the end of a window.
ghost use Rattle.std.specs.Prelude.{◌≡◌, pos, ◌+ℤ◌};
ghost use Rattle.std.specs.List.{last_or};
ghost use Rattle.std.specs.Option.{option_map};
ghost use Rattle.btr_base.specs.Bag.{IsInOrder};
ghost use Rattle.btr_hist.specs.Kernel.{value_at as value_at_of, value_before as value_before_of};
ghost use Rattle.btr_kernel.specs.Window.{AreUntil};

use crate::places::place_behind;
use btr_base::Point;

/// The greatest value at a time that no point is after. It takes constant time.
pub(crate) fn value_at(points: &[Point], t: i64) -> Option<i64>
    requires { AreUntil t points.now }
    ensures { result ≡ value_at_of t points.now }
{
    let last = points.last()?;
    if last.time == t {
        return Some(last.value);
    }
    None
}

/// The greatest value at the last time before a time. It takes time linear in the number of points that are not before it.
pub(crate) fn value_before(points: &[Point], t: i64) -> Option<i64>
    requires { IsInOrder points.now }
    ensures { result ≡ value_before_of t points.now }
{
    let place = place_behind(points, points.len(), t);
    last_value(&points[..place])
}

/// The greatest value at the last time, if no point is after a time. It takes constant time.
pub(crate) fn latest(points: &[Point], t: i64) -> Option<i64>
    requires { AreUntil t points.now }
    ensures { result ≡ value_before_of (t +ℤ pos 1) points.now }
{
    last_value(points)
}

/// The value of the last point. It takes constant time.
fn last_value(points: &[Point]) -> Option<i64>
    ensures { result ≡ option_map (λ p. p.value) (last_or None points.now) }
{
    Some(points.last()?.value)
}
