//! Places in points that are in order.
ghost use Rattle.std.specs.Prelude.{◌≡◌, ◌≤◌, length, min};
ghost use Rattle.btr_base.specs.Bag.{IsInOrder};
ghost use Rattle.btr_kernel.specs.Places.{place_of};

use btr_base::Point;

/// The index of the first point that is not before a time, or the number of points. It walks there from another index, one
/// point at a time.
pub(crate) fn place_near(points: &[Point], near: usize, time: i64) -> usize
    requires order { IsInOrder points.now }
    requires near { near ≤ length points.now }
    ensures { result ≡ place_of time points.now }
{
    place_ahead(points, place_behind(points, near, time), time)
}

/// The index of the first point that is not before a time, or `from` if that is less. It walks backward from there.
pub(crate) fn place_behind(points: &[Point], from: usize, time: i64) -> usize
    requires order { IsInOrder points.now }
    requires from { from ≤ length points.now }
    ensures { result ≡ min from (place_of time points.now) }
{
    let mut place = from;
    while place > 0 && points[place - 1].time >= time {
        place -= 1;
    }
    place
}

/// The index of the first point that is not before a time, or the number of points. It walks forward to it.
fn place_ahead(points: &[Point], from: usize, time: i64) -> usize
    requires order { IsInOrder points.now }
    requires from { from ≤ place_of time points.now }
    ensures { result ≡ place_of time points.now }
{
    let mut place = from;
    while place < points.len() && points[place].time < time {
        place += 1;
    }
    place
}
