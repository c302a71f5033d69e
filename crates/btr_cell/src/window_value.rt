//! The value of a window.
ghost use Rattle.std.specs.Prelude.{◌≡◌, ◌≤◌, ◌<◌, pos};
ghost use Rattle.std.specs.Int.{int_div_euclid};
ghost use Rattle.btr_hist.specs.Kernel.{aggregate_value, cell_value, stored as stored_of};

use btr_base::Agg;

/// The value of a window whose points have this aggregate, by number: 1 the sum, 2 the mean, rounded toward minus infinity, 3 the
/// least value, 4 the greatest value, 5 the count. It is exact. It is `None` if there is no point, or if it is no `i64`.
///
/// `which` is 1 to 5, the caller's condition. It takes constant time and no memory.
pub fn value(which: u8, agg: &Agg) -> Option<i64>
    requires { (1 ≤ which) × (which ≤ 5) }
    ensures { result ≡ cell_value which agg.now }
{
    if agg.count == 0 {
        return None;
    }
    stored(exact(which, agg)?)
}

/// The number that an aggregate of some point says.
fn exact(which: u8, agg: &Agg) -> Option<i128>
    requires { 0 < agg.now.count }
    ensures { result ≡ aggregate_value which agg.now }
{
    match which {
        1 => Some(agg.sum),
        2 => Some(mean(agg.sum, agg.count)),
        3 => agg.ends.map(|ends| i128::from(ends.0)),
        4 => agg.ends.map(|ends| i128::from(ends.1)),
        5 => Some(i128::from(agg.count)),
        _ => None,
    }
}

/// `floor(sum / count)`.
fn mean(sum: i128, count: u64) -> i128
    requires { 0 < count }
    ensures { result ≡ int_div_euclid sum (pos count) }
{
    sum.div_euclid(i128::from(count))
}

/// The number, if it is an `i64`.
fn stored(number: i128) -> Option<i64>
    ensures { result ≡ stored_of number }
{
    if number < i128::from(i64::MIN) || number > i128::from(i64::MAX) {
        return None;
    }
    Some(number as i64)
}
