//! The first crowded bottom span.
ghost use Rattle.std.specs.Prelude.{◌≡◌, ◌<◌, length, drop, slice_index_or};
ghost use Rattle.std.specs.Ordering.{int_eq};
ghost use Rattle.btr_base.specs.declared.point.Point.{Point as PointSpec};
ghost use Rattle.btr_base.specs.Bag.{IsInOrder};
ghost use Rattle.btr_base.specs.Crowded.{bottom_start, is_crowded, crowded};

use btr_base::{BOTTOM_WIDTH, LEAF_POINTS, Point};

/// The start of the first bottom span that holds more than [`LEAF_POINTS`] points, in nanoseconds, if there is one. It takes
/// time linear in the number of points, and no memory.
pub fn first_crowded(points: &[Point]) -> Option<i64>
    requires { IsInOrder points.now }
    ensures { result ≡ crowded points.now }
{
    for (index, point) in points.iter().enumerate() {
        if is_crowded_from(points, index) {
            return Some(bottom_start(point.time));
        }
    }
    None
}

/// Whether too many of the points from this index on lie in the bottom span of the first of them. Points of one bottom span
/// are neighbours in a list in order.
fn is_crowded_from(points: &[Point], index: usize) -> bool
    requires order { IsInOrder points.now }
    requires within { index < length points.now }
    ensures { (d : PointSpec) → result ≡ is_crowded (drop index points.now) (bottom_start (slice_index_or points.now index d).time) }
{
    let last = index + LEAF_POINTS;
    last < points.len() && share_bottom(&points[index], &points[last])
}

/// Whether two points lie in the same bottom span.
fn share_bottom(a: &Point, b: &Point) -> bool
    ensures { result ≡ int_eq (bottom_start a.now.time) (bottom_start b.now.time) }
{
    bottom_start(a.time) == bottom_start(b.time)
}

/// The start of the bottom span of a time.
fn bottom_start(time: i64) -> i64
    ensures { result ≡ bottom_start time }
{
    time - time.rem_euclid(BOTTOM_WIDTH as i64)
}
