//! The arithmetic of kernels, exact in 128 bits.
ghost use Rattle.std.specs.Prelude.{◌≡◌, ◌<◌, pos, negsuc, ◌+ℤ◌, ◌*ℤ◌, ◌≤ℤ◌, IfSome};
ghost use Rattle.std.specs.Int.{int_div_euclid};
ghost use Rattle.btr_hist.specs.Kernel.{difference, turned as turned_of, stored as stored_of};
ghost use Rattle.btr_kernel.specs.Total.{is_total as is_total_kernel, of_total as of_total_of};

use btr_base::Agg;
use btr_hist::Kernel;

/// `floor((a * x + b) / d)`.
pub(crate) fn scaled(a: i64, b: i64, d: i64, x: i64) -> i128
    requires { pos 1 ≤ℤ d }
    ensures { result ≡ int_div_euclid ((a *ℤ x) +ℤ b) d }
{
    let sum = product(a, x) + i128::from(b);
    floor(sum, d)
}

/// The product of two numbers.
fn product(a: i64, x: i64) -> i128
    ensures product { result ≡ a *ℤ x }
    ensures low { negsuc 85070591730234615865843651857942052863 ≤ℤ result }
    ensures high { result ≤ℤ pos 85070591730234615865843651857942052864 }
{
    i128::from(a) * i128::from(x)
}

/// `floor(n / d)`.
fn floor(n: i128, d: i64) -> i128
    requires { pos 1 ≤ℤ d }
    ensures { result ≡ int_div_euclid n d }
{
    n.div_euclid(i128::from(d))
}

/// The first less the second, if both are there.
pub(crate) fn gap(x: Option<i64>, y: Option<i64>) -> Option<i128>
    ensures difference { result ≡ difference x y }
    ensures low { IfSome result (λ r. negsuc 18446744073709551615 ≤ℤ r) }
    ensures high { IfSome result (λ r. r ≤ℤ pos 18446744073709551615) }
{
    match (x, y) {
        (Some(x), Some(y)) => Some(i128::from(x) - i128::from(y)),
        _ => None,
    }
}

/// An angle in thousandths of a degree, turned into the range from -180 degrees up to, and without, 180 degrees.
pub(crate) fn turned(r: i128) -> i128
    requires low { negsuc 18446744073709551615 ≤ℤ r }
    requires high { r ≤ℤ pos 18446744073709551615 }
    ensures { result ≡ turned_of r }
{
    (r + 180_000).rem_euclid(360_000) - 180_000
}

/// The value, if it is an `i64`.
pub(crate) fn stored(value: i128) -> Option<i64>
    ensures { result ≡ stored_of value }
{
    if value < i128::from(i64::MIN) || value > i128::from(i64::MAX) {
        return None;
    }
    Some(value as i64)
}

/// `floor(sum / count)`. It divides in 64 bits if both numbers fit, which is faster than a division in 128 bits.
fn mean(sum: i128, count: u64) -> i128
    requires { 0 < count }
    ensures { result ≡ int_div_euclid sum (pos count) }
{
    match (i64::try_from(sum), i64::try_from(count)) {
        (Ok(short_sum), Ok(short_count)) => i128::from(short_sum.div_euclid(short_count)),
        _ => sum.div_euclid(i128::from(count)),
    }
}

/// Whether the kernel looks at the aggregate of the first input's window alone.
pub(crate) fn is_total(kernel: Kernel) -> bool
    ensures { result ≡ is_total_kernel kernel }
{
    match kernel {
        Kernel::Sum | Kernel::Mean | Kernel::Least | Kernel::Greatest | Kernel::Count => true,
        Kernel::Affine { .. }
        | Kernel::Delta
        | Kernel::Minus
        | Kernel::Angle
        | Kernel::Hold
        | Kernel::Cell { .. } => false,
    }
}

/// What a kernel computes from the aggregate of the first input's window, if it looks at that alone.
pub(crate) fn of_total(kernel: Kernel, all: &Agg) -> Option<i128>
    requires { 0 < all.now.count }
    ensures { result ≡ of_total_of kernel all.now }
{
    match kernel {
        Kernel::Sum => Some(all.sum),
        Kernel::Mean => Some(mean(all.sum, all.count)),
        Kernel::Least => all.ends.map(|ends| i128::from(ends.0)),
        Kernel::Greatest => all.ends.map(|ends| i128::from(ends.1)),
        Kernel::Count => Some(i128::from(all.count)),
        Kernel::Affine { .. }
        | Kernel::Delta
        | Kernel::Minus
        | Kernel::Angle
        | Kernel::Hold
        | Kernel::Cell { .. } => None,
    }
}
