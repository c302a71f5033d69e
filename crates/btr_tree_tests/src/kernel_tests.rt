ghost use Rattle.std.specs.Prelude.{◌≡◌, true};
ghost use Rattle.btr_kernel.specs.Window.{AreUntil, HasPointAt};

use super::fixture::{Pairs, Row, after, all_hold, are_pairs, points_of, ranges_of};
use btr_base::{Bag, END, FIRST, Point, Ranges};
use btr_hist::{Kernel, Spec};
use btr_kernel::{Eval, anchors, point_at, run_over};
use btr_tree::Tree;
use std::alloc::{AllocError, Global};
use std::test::Fail;

fn tree_of(alloc: Global, points: &[Point]) -> Result<Tree, Fail> {
    let added = Bag::from_points(Vec::from_slice(alloc, points)?);
    let none = Ranges::none(alloc);
    let (tree, _) = after(alloc, &Tree::empty(), &none, &added, 1)?;
    Ok(tree)
}

fn spec_of(kernel: Kernel, lead: u64) -> Spec {
    Spec {
        kernel,
        lead,
        grain: 0,
        first: 0,
        second: kernel.has_second().then_some(1),
    }
}

/// The points of an output in ranges, by `run_over`.
fn swept(
    alloc: Global,
    spec: &Spec,
    first: &[Point],
    second: &[Point],
    ranges: &Ranges,
) -> Result<Vec<Point>, Fail> {
    if !spec.is_good() {
        return Err("no good spec".into());
    }
    let a = tree_of(alloc, first)?;
    let made = match spec.second {
        Some(_) => run_over(alloc, spec, &a, Some(&tree_of(alloc, second)?), ranges)?,
        None => run_over(alloc, spec, &a, None, ranges)?,
    };
    Ok(made)
}

/// The point of an output at a time, by `point_at`.
fn point_of(
    alloc: Global,
    spec: &Spec,
    first: &[Point],
    second: &[Point],
    t: i64,
) -> Result<Option<Point>, Fail> {
    if !spec.is_good() {
        return Err("no good spec".into());
    }
    let a = tree_of(alloc, first)?;
    let point = match spec.second {
        Some(_) => point_at(alloc, spec, &a, Some(&tree_of(alloc, second)?), t)?,
        None => point_at(alloc, spec, &a, None, t)?,
    };
    Ok(point)
}

// ---- the plain program: each anchor from the whole lists

/// Whether a point lies in the window that ends with a time.
fn is_in_window(point: &Point, t: i64, lead: u64) -> bool {
    let back = i128::from(t).wrapping_sub(i128::from(point.time));
    0 <= back && back <= i128::from(lead)
}

/// The greatest value at a time.
fn greatest_at(points: &[Point], t: i64) -> Option<i128> {
    let mut greatest = None;
    for point in points {
        if point.time == t {
            let value = i128::from(point.value);
            greatest = Some(greatest.map_or(value, |other: i128| other.max(value)));
        }
    }
    greatest
}

/// The greatest value at the last time of a window, with or without the time that it ends with.
fn last_in_window(points: &[Point], t: i64, lead: u64, with_end: bool) -> Option<i128> {
    let mut last = None;
    for point in points {
        if is_in_window(point, t, lead) && (with_end || point.time < t) {
            let time = point.time;
            last = Some(last.map_or(time, |other: i64| other.max(time)));
        }
    }
    greatest_at(points, last?)
}

/// The sum, the count, the least and the greatest value of a window.
fn window_numbers(points: &[Point], t: i64, lead: u64) -> (i128, i128, i128, i128) {
    let mut sum = 0i128;
    let mut count = 0i128;
    let mut least = i128::MAX;
    let mut greatest = i128::MIN;
    for point in points {
        if is_in_window(point, t, lead) {
            let value = i128::from(point.value);
            sum = sum.wrapping_add(value);
            count = count.wrapping_add(1);
            least = least.min(value);
            greatest = greatest.max(value);
        }
    }
    (sum, count, least, greatest)
}

fn floor(n: i128, d: i128) -> Option<i128> {
    let quotient = n.checked_div(d)?;
    if n.wrapping_sub(quotient.wrapping_mul(d)) < 0 {
        return Some(quotient.wrapping_sub(1));
    }
    Some(quotient)
}

fn plain_value(spec: &Spec, t: i64, first: &[Point], second: &[Point]) -> Option<i64> {
    let x = greatest_at(first, t)?;
    let (sum, count, least, greatest) = window_numbers(first, t, spec.lead);
    let value = match spec.kernel {
        Kernel::Affine { a, b, d } => {
            let scaled = i128::from(a).wrapping_mul(x).wrapping_add(i128::from(b));
            floor(scaled, i128::from(d))?
        }
        Kernel::Sum => sum,
        Kernel::Mean => floor(sum, count)?,
        Kernel::Least => least,
        Kernel::Greatest => greatest,
        Kernel::Count => count,
        Kernel::Delta => x.wrapping_sub(last_in_window(first, t, spec.lead, false)?),
        Kernel::Minus => x.wrapping_sub(greatest_at(second, t)?),
        Kernel::Angle => {
            let shifted = x
                .wrapping_sub(greatest_at(second, t)?)
                .wrapping_add(180_000);
            let turns = floor(shifted, 360_000)?;
            shifted
                .wrapping_sub(turns.wrapping_mul(360_000))
                .wrapping_sub(180_000)
        }
        Kernel::Hold => x.wrapping_sub(last_in_window(second, t, spec.lead, true)?),
        Kernel::Cell { .. } => return None,
    };
    i64::try_from(value).ok()
}

/// The points of an output in ranges, from the points of its inputs, of which the first are in order.
fn plain_points(
    alloc: Global,
    spec: &Spec,
    first: &[Point],
    second: &[Point],
    ranges: &Ranges,
) -> Result<Vec<Point>, AllocError> {
    let mut made = Vec::new(alloc);
    let mut last = None;
    for point in first {
        let t = point.time;
        if last != Some(t) && ranges.covers(t) {
            if let Some(value) = plain_value(spec, t, first, second) {
                made.push(Point { time: t, value })?;
            }
        }
        last = Some(t);
    }
    Ok(made)
}

/// Points in order, with times from `from` on in steps of at most 2 ns, of which some are equal, and values from -9 to 9.
fn some_points(alloc: Global, seed: u64, from: i64, count: u64) -> Result<Vec<Point>, AllocError> {
    let mut points = Vec::new(alloc);
    let mut state = seed;
    let mut time = from;
    for _ in 0..count {
        state = state
            .wrapping_mul(6_364_136_223_846_793_005)
            .wrapping_add(1_442_695_040_888_963_407);
        time = time.wrapping_add(((state >> 33) % 3) as i64);
        let value = ((state >> 40) % 19) as i64;
        points.push(Point {
            time,
            value: value.wrapping_sub(9),
        })?;
    }
    Ok(Bag::from_points(points).into_points())
}

/// Each kernel of anchors once.
const KERNELS: [Kernel; 10] = [
    Kernel::Affine { a: -3, b: 1, d: 2 },
    Kernel::Sum,
    Kernel::Mean,
    Kernel::Least,
    Kernel::Greatest,
    Kernel::Count,
    Kernel::Delta,
    Kernel::Minus,
    Kernel::Angle,
    Kernel::Hold,
];

/// Whether `run_over` and the plain program give the same points.
fn agree(
    alloc: Global,
    spec: &Spec,
    first: &[Point],
    second: &[Point],
    ranges: &Ranges,
) -> Result<bool, Fail> {
    let got = swept(alloc, spec, first, second, ranges)?;
    let want = plain_points(alloc, spec, first, second, ranges)?;
    Ok(got == want)
}

/// Whether they do for each kernel with a lead, of two streams and of one stream as both inputs.
fn kernels_agree(
    alloc: Global,
    lead: u64,
    first: &[Point],
    second: &[Point],
    ranges: &Ranges,
) -> Result<bool, Fail> {
    for kernel in KERNELS {
        let spec = spec_of(kernel, lead);
        if !agree(alloc, &spec, first, second, ranges)?
            || !agree(alloc, &spec, first, first, ranges)?
        {
            return Ok(false);
        }
    }
    Ok(true)
}

/// A lead, and ranges in which the points of two streams are swept.
struct Sweep(u64, Pairs);

impl Row for Sweep {
    fn holds(&self, alloc: Global) -> Result<bool, Fail> {
        let first = some_points(alloc, 1, -20, 60)?;
        let second = some_points(alloc, 2, -25, 50)?;
        let ranges = ranges_of(alloc, self.1)?;
        kernels_agree(alloc, self.0, &first, &second, &ranges)
    }
}

const TWO: Pairs = &[(0, 1), (7, 20)];

const FOUR: Pairs = &[(-20, -19), (-17, -10), (3, 4), (25, 90)];

const SWEPT: &[Sweep] = &[
    Sweep(0, &[(FIRST, END)]),
    Sweep(1, &[(FIRST, END)]),
    Sweep(2, &[(FIRST, END)]),
    Sweep(5, &[(FIRST, END)]),
    Sweep(17, &[(FIRST, END)]),
    Sweep(LONG, &[(FIRST, END)]),
    Sweep(0, TWO),
    Sweep(1, TWO),
    Sweep(2, TWO),
    Sweep(5, TWO),
    Sweep(17, TWO),
    Sweep(LONG, TWO),
    Sweep(0, FOUR),
    Sweep(1, FOUR),
    Sweep(2, FOUR),
    Sweep(5, FOUR),
    Sweep(17, FOUR),
    Sweep(LONG, FOUR),
    Sweep(0, &[]),
    Sweep(1, &[]),
    Sweep(2, &[]),
    Sweep(5, &[]),
    Sweep(17, &[]),
    Sweep(LONG, &[]),
];

#[test]
fn as_the_plain_program(rt: HostRuntime) -> Result<(), Fail> {
    all_hold(rt.alloc(), SWEPT)
}

const MOST: i64 = i64::MAX;

const LEAST: i64 = i64::MIN;

const LAST: i64 = END - 1;

const LONG: u64 = 1_152_921_504_606_846_976;

/// A kernel with a lead, the points of its inputs, and those of its output.
struct Case(Kernel, u64, Pairs, Pairs, Pairs);

impl Row for Case {
    fn holds(&self, alloc: Global) -> Result<bool, Fail> {
        let first = points_of(alloc, self.2)?;
        let second = points_of(alloc, self.3)?;
        let all = ranges_of(alloc, &[(FIRST, END)])?;
        let got = swept(alloc, &spec_of(self.0, self.1), &first, &second, &all)?;
        Ok(are_pairs(&got, self.4))
    }
}

const CASES: &[Case] = &[
    // floors round toward minus infinity
    Case(
        Kernel::Affine { a: 1, b: 0, d: 2 },
        0,
        &[(5, -7)],
        &[],
        &[(5, -4)],
    ),
    Case(
        Kernel::Affine { a: 1, b: 0, d: 2 },
        0,
        &[(5, 7)],
        &[],
        &[(5, 3)],
    ),
    Case(
        Kernel::Affine {
            a: LEAST,
            b: LEAST,
            d: MOST,
        },
        0,
        &[(5, LEAST), (6, 1)],
        &[],
        &[(6, -3)],
    ),
    Case(
        Kernel::Affine {
            a: LEAST,
            b: 0,
            d: MOST,
        },
        0,
        &[(5, MOST)],
        &[],
        &[(5, LEAST)],
    ),
    Case(
        Kernel::Affine {
            a: MOST,
            b: MOST,
            d: 1,
        },
        0,
        &[(5, MOST), (6, 0)],
        &[],
        &[(6, MOST)],
    ),
    Case(
        Kernel::Mean,
        1,
        &[(5, -1), (6, -2)],
        &[],
        &[(5, -1), (6, -2)],
    ),
    Case(Kernel::Mean, 0, &[(5, -3), (5, -4)], &[], &[(5, -4)]),
    Case(
        Kernel::Mean,
        0,
        &[(5, LEAST), (6, LEAST), (6, 0)],
        &[],
        &[(5, LEAST), (6, -4611686018427387904)],
    ),
    // the mean of values whose sum is no i64
    Case(Kernel::Mean, 0, &[(5, MOST), (5, MOST)], &[], &[(5, MOST)]),
    Case(
        Kernel::Mean,
        0,
        &[(5, LEAST), (5, LEAST), (5, LEAST)],
        &[],
        &[(5, LEAST)],
    ),
    Case(
        Kernel::Mean,
        0,
        &[(5, MOST), (5, 1), (6, MOST), (6, MOST), (6, 2)],
        &[],
        &[(5, 4611686018427387904), (6, 6148914691236517205)],
    ),
    Case(
        Kernel::Mean,
        0,
        &[(5, LEAST), (5, LEAST), (5, -1)],
        &[],
        &[(5, -6148914691236517206)],
    ),
    // a kernel of aligned windows has no value at an anchor
    Case(
        Kernel::Cell { which: 5, p: 0 },
        0,
        &[(5, 1), (6, 2)],
        &[],
        &[],
    ),
    // a sum that is no i64 gives no point
    Case(Kernel::Sum, 0, &[(5, MOST), (5, MOST)], &[], &[]),
    Case(
        Kernel::Sum,
        1,
        &[(5, MOST), (6, 1), (7, 1)],
        &[],
        &[(5, MOST), (7, 2)],
    ),
    Case(
        Kernel::Sum,
        1,
        &[(5, LEAST), (6, -1), (7, 0)],
        &[],
        &[(5, LEAST), (7, -1)],
    ),
    Case(
        Kernel::Sum,
        1,
        &[(5, LEAST), (6, MOST)],
        &[],
        &[(5, LEAST), (6, -1)],
    ),
    // the begin of the window belongs to it
    Case(
        Kernel::Count,
        2,
        &[(1, 0), (2, 0), (3, 0), (4, 0)],
        &[],
        &[(1, 1), (2, 2), (3, 3), (4, 3)],
    ),
    Case(
        Kernel::Delta,
        1,
        &[(0, 5), (3, 7), (4, -2)],
        &[],
        &[(4, -9)],
    ),
    // the greatest value of the time before
    Case(
        Kernel::Delta,
        4,
        &[(0, 5), (0, 9), (3, 7), (3, 8)],
        &[],
        &[(3, -1)],
    ),
    Case(
        Kernel::Delta,
        1,
        &[(0, LEAST), (1, 0), (2, MOST)],
        &[],
        &[(2, MOST)],
    ),
    Case(
        Kernel::Minus,
        9,
        &[(5, 1), (5, 4), (6, 2)],
        &[(4, 9), (5, -1), (5, 3)],
        &[(5, 1)],
    ),
    Case(
        Kernel::Angle,
        0,
        &[(1, 340_000)],
        &[(1, 0)],
        &[(1, -20_000)],
    ),
    Case(
        Kernel::Angle,
        0,
        &[(1, 180_000)],
        &[(1, 0)],
        &[(1, -180_000)],
    ),
    Case(
        Kernel::Angle,
        0,
        &[(1, 0)],
        &[(1, 180_000)],
        &[(1, -180_000)],
    ),
    Case(
        Kernel::Angle,
        0,
        &[(1, MOST)],
        &[(1, LEAST)],
        &[(1, 111_615)],
    ),
    Case(
        Kernel::Hold,
        10,
        &[(100, 50)],
        &[(95, 20), (97, 21)],
        &[(100, 29)],
    ),
    Case(Kernel::Hold, 2, &[(100, 50)], &[(95, 20), (97, 21)], &[]),
    Case(
        Kernel::Hold,
        3,
        &[(100, 50)],
        &[(95, 20), (97, 21)],
        &[(100, 29)],
    ),
    Case(
        Kernel::Hold,
        3,
        &[(100, 50)],
        &[(97, 20), (97, 23), (100, 1)],
        &[(100, 49)],
    ),
    // the ends of the domain, and the longest lead
    Case(
        Kernel::Count,
        LONG,
        &[(FIRST, 1), (0, 2), (1, 3), (LAST, 4)],
        &[],
        &[(FIRST, 1), (0, 2), (1, 2), (LAST, 1)],
    ),
    Case(
        Kernel::Least,
        LONG,
        &[(FIRST, 1), (LAST, 4)],
        &[],
        &[(FIRST, 1), (LAST, 4)],
    ),
    Case(
        Kernel::Greatest,
        LONG,
        &[(FIRST, 7), (0, 4)],
        &[],
        &[(FIRST, 7), (0, 7)],
    ),
    Case(
        Kernel::Delta,
        LONG,
        &[(FIRST, 7), (0, 4), (LAST, 1)],
        &[],
        &[(0, -3)],
    ),
    Case(
        Kernel::Hold,
        LONG,
        &[(FIRST, 7), (0, 4), (LAST, 1)],
        &[(FIRST, 1)],
        &[(FIRST, 6), (0, 3)],
    ),
    Case(
        Kernel::Minus,
        LONG,
        &[(FIRST, 7), (LAST, 1)],
        &[(LAST, 3)],
        &[(LAST, -2)],
    ),
];

#[test]
fn values_by_hand(rt: HostRuntime) -> Result<(), Fail> {
    all_hold(rt.alloc(), CASES)
}

/// The points of a first input, ranges, and the anchors that they cover.
struct Anchors(Pairs, Pairs, &'static [i64]);

impl Row for Anchors {
    fn holds(&self, alloc: Global) -> Result<bool, Fail> {
        let first = tree_of(alloc, &points_of(alloc, self.0)?)?;
        let times = anchors(alloc, &first, &ranges_of(alloc, self.1)?)?;
        Ok(times.as_slice() == self.2)
    }
}

/// Points of which some have the same time, and one stands twice.
const SOME: Pairs = &[
    (0, 4),
    (4, 1),
    (5, 1),
    (7, 2),
    (7, 1),
    (9, 3),
    (9, 3),
    (12, 0),
];

const ANCHORS: &[Anchors] = &[
    Anchors(SOME, &[(FIRST, END)], &[0, 4, 5, 7, 9, 12]),
    // the end of a range is not in it
    Anchors(SOME, &[(0, 5), (7, 9)], &[0, 4, 7]),
    Anchors(SOME, &[(9, 10)], &[9]),
    // no time, and times between points
    Anchors(SOME, &[], &[]),
    Anchors(SOME, &[(1, 4), (10, 12)], &[]),
    Anchors(&[], &[(FIRST, END)], &[]),
    // the ends of the domain
    Anchors(
        &[(FIRST, 1), (FIRST, 2), (0, 3), (LAST, 4), (LAST, 5)],
        &[(FIRST, FIRST + 1), (LAST, END)],
        &[FIRST, LAST],
    ),
];

#[test]
fn anchors_by_hand(rt: HostRuntime) -> Result<(), Fail> {
    all_hold(rt.alloc(), ANCHORS)
}

/// A kernel with a lead, the points of its inputs, a time, and the value of the output there, if there is a point.
struct At(Kernel, u64, Pairs, Pairs, i64, Option<i64>);

impl Row for At {
    fn holds(&self, alloc: Global) -> Result<bool, Fail> {
        let first = points_of(alloc, self.2)?;
        let second = points_of(alloc, self.3)?;
        let spec = spec_of(self.0, self.1);
        let got = point_of(alloc, &spec, &first, &second, self.4)?;
        let want = self.5.map(|value| Point {
            time: self.4,
            value,
        });
        Ok(got == want)
    }
}

/// Points at both ends of the domain, and two between.
const ENDS: Pairs = &[(FIRST, 1), (0, 2), (1, 3), (LAST, 4)];

const POINTS: &[At] = &[
    // the window begins at the time of a point
    At(
        Kernel::Sum,
        3,
        &[(1, 20), (4, 22), (5, 1)],
        &[],
        4,
        Some(42),
    ),
    At(
        Kernel::Sum,
        2,
        &[(1, 20), (4, 22), (5, 1)],
        &[],
        4,
        Some(22),
    ),
    // a time with several points
    At(Kernel::Count, 3, SOME, &[], 9, Some(4)),
    // none between anchors, before the first and after the last
    At(Kernel::Sum, 3, SOME, &[], 6, None),
    At(Kernel::Sum, 3, SOME, &[], -1, None),
    At(Kernel::Sum, 3, SOME, &[], 13, None),
    At(Kernel::Sum, 3, &[], &[], 0, None),
    // none at an anchor at which the kernel has no value
    At(Kernel::Delta, 1, SOME, &[], 5, Some(0)),
    At(Kernel::Delta, 1, SOME, &[], 7, None),
    At(Kernel::Sum, 0, &[(5, MOST), (5, MOST)], &[], 5, None),
    // the greatest values of both inputs
    At(
        Kernel::Minus,
        0,
        SOME,
        &[(7, -6), (7, -4), (8, 9)],
        7,
        Some(6),
    ),
    At(Kernel::Minus, 0, SOME, &[(7, -6), (7, -4), (8, 9)], 9, None),
    // a point of the second input alone is no anchor
    At(Kernel::Hold, 2, SOME, &[(7, -6), (8, 9)], 8, None),
    At(Kernel::Hold, 2, SOME, &[(7, -6), (8, 9)], 9, Some(-6)),
    At(Kernel::Hold, 2, SOME, &[(7, -6), (8, 9)], 5, None),
    // the ends of the domain, and times outside it
    At(Kernel::Count, LONG, ENDS, &[], FIRST, Some(1)),
    At(Kernel::Count, LONG, ENDS, &[], 0, Some(2)),
    At(Kernel::Count, LONG, ENDS, &[], 1, Some(2)),
    At(Kernel::Count, LONG, ENDS, &[], LAST, Some(1)),
    At(Kernel::Count, LONG, ENDS, &[], END, None),
    At(Kernel::Count, LONG, ENDS, &[], FIRST - 1, None),
    At(Kernel::Count, LONG, ENDS, &[], LEAST, None),
    At(Kernel::Count, LONG, ENDS, &[], MOST, None),
];

#[test]
fn points_by_hand(rt: HostRuntime) -> Result<(), Fail> {
    all_hold(rt.alloc(), POINTS)
}

/// The value of any kernel, through the law.
fn value_of<E: Eval>(kernel: &E, t: i64, first: &[Point]) -> Option<i64>
    requires valid { E.is_valid kernel.now ≡ true }
    requires first { AreUntil t first.now }
    requires anchor { HasPointAt t first.now }
{
    kernel.value(t, first, &[])
}

#[test]
fn one_value(rt: HostRuntime) -> Result<(), Fail> {
    let spec = spec_of(Kernel::Sum, 3);
    if !spec.is_good() {
        return Err("no good spec".into());
    }
    let first = [Point { time: 1, value: 20 }, Point { time: 4, value: 22 }];
    assert!(rt; value_of(&spec, 4, &first) == Some(42));
    Ok(())
}
