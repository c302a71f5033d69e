//! The times of points that a store cannot hold.
ghost use Rattle.std.specs.Prelude.{◌≡◌};
ghost use Rattle.std.specs.Int.{int_min};
ghost use Rattle.std.specs.Option.{option_map_or};
ghost use Rattle.btr_feed.specs.Feed.{least_time_outside};

use btr_base::Point;

/// Returns the least time outside the domain of these points, in nanoseconds, or `None` if all lie in it. It takes one pass,
/// and no memory.
pub(crate) fn least_time_outside(points: &[Point]) -> Option<i64>
    ensures { result ≡ least_time_outside points.now }
{
    let mut least = None;
    for point in points {
        if !point.is_in_domain() {
            least = Some(lesser(least, point.time));
        }
    }
    least
}

/// Returns the lesser of the two times, or the second if there is no first.
fn lesser(least: Option<i64>, time: i64) -> i64
    ensures { result ≡ option_map_or (λ t. int_min t time) least time }
{
    match least {
        Some(least) => least.min(time),
        None => time,
    }
}
