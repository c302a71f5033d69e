//! Ranges, bags, aggregates, grids, spans and decimal numbers by hand.

use super::fixture::{Row, all_hold};
use btr_base::{
    Agg, Bag, Cell, END, FIRST, Grid, Point, Range, Ranges, Span, are_in_domain, limits_are_these,
    negative, read_decimal, read_signed_decimal, slot_around,
};
use std::alloc::{AllocError, Global};
use std::test::Fail;

/// Points as pairs of a time and a value, and ranges as pairs of bounds.
type Pairs = &'static [(i64, i64)];

fn ranges_of(alloc: Global, pairs: &[(i64, i64)]) -> Result<Ranges, Fail> {
    let mut ranges = Ranges::none(alloc);
    for (from, to) in pairs {
        ranges.add(Range::new(*from, *to).ok_or("a range")?)?;
    }
    Ok(ranges)
}

/// Whether ranges have these bounds.
fn have_bounds(ranges: &Ranges, pairs: &[(i64, i64)]) -> bool {
    let ranges = ranges.as_slice();
    ranges.len() == pairs.len()
        && ranges
            .iter()
            .zip(pairs)
            .all(|(range, pair)| range.from == pair.0 && range.to == pair.1)
}

fn bag_of(alloc: Global, pairs: &[(i64, i64)]) -> Result<Bag, AllocError> {
    let mut points = Vec::new(alloc);
    for (time, value) in pairs {
        points.push(Point {
            time: *time,
            value: *value,
        })?;
    }
    Ok(Bag::from_points(points))
}

/// Whether points have these times and values.
fn are_pairs(points: &[Point], pairs: &[(i64, i64)]) -> bool {
    points.len() == pairs.len()
        && points.iter().zip(pairs).all(|(point, pair)| point.time == pair.0
            && point.value == pair.1)
}

/// Two bounds, and whether they are those of a range.
struct Bounds(i64, i64, bool);

impl Row for Bounds {
    fn holds(&self, _alloc: Global) -> Result<bool, Fail> {
        Ok(match Range::new(self.0, self.1) {
            Some(range) => self.2 && range.from == self.0 && range.to == self.1,
            None => !self.2,
        })
    }
}

const BOUNDS: &[Bounds] = &[
    Bounds(FIRST, END, true),
    Bounds(FIRST, FIRST + 1, true),
    Bounds(END - 1, END, true),
    Bounds(0, 1, true),
    Bounds(FIRST - 1, 0, false),
    Bounds(0, END + 1, false),
    Bounds(END, END + 1, false),
    Bounds(5, 5, false),
    Bounds(FIRST, FIRST, false),
    Bounds(END, END, false),
    Bounds(6, 5, false),
    Bounds(i64::MIN, i64::MAX, false),
];

#[test]
fn bounds_of_a_range(rt: HostRuntime) -> Result<(), Fail> {
    assert!(rt; FIRST == -1152921504606846976);
    assert!(rt; END == 3458764513820540928);
    all_hold(rt.alloc(), BOUNDS)
}

/// A range that is added to three others, and the ranges after it.
struct Added((i64, i64), Pairs);

impl Row for Added {
    fn holds(&self, alloc: Global) -> Result<bool, Fail> {
        let mut ranges = ranges_of(alloc, &[(0, 10), (20, 30), (40, 50)])?;
        ranges.add(Range::new(self.0.0, self.0.1).ok_or("a range")?)?;
        Ok(have_bounds(&ranges, self.1))
    }
}

const ADDED: &[Added] = &[
    Added((60, 70), &[(0, 10), (20, 30), (40, 50), (60, 70)]),
    Added((50, 60), &[(0, 10), (20, 30), (40, 60)]),
    Added((51, 60), &[(0, 10), (20, 30), (40, 50), (51, 60)]),
    Added((45, 60), &[(0, 10), (20, 30), (40, 60)]),
    Added((20, 30), &[(0, 10), (20, 30), (40, 50)]),
    Added((22, 28), &[(0, 10), (20, 30), (40, 50)]),
    Added((12, 15), &[(0, 10), (12, 15), (20, 30), (40, 50)]),
    Added((10, 15), &[(0, 15), (20, 30), (40, 50)]),
    Added((15, 20), &[(0, 10), (15, 30), (40, 50)]),
    Added((10, 20), &[(0, 30), (40, 50)]),
    Added((5, 45), &[(0, 50)]),
    Added((-5, 60), &[(-5, 60)]),
    Added((-9, -5), &[(-9, -5), (0, 10), (20, 30), (40, 50)]),
    Added((-9, 0), &[(-9, 10), (20, 30), (40, 50)]),
    Added((-9, 25), &[(-9, 30), (40, 50)]),
    Added((FIRST, END), &[(FIRST, END)]),
];

#[test]
fn ranges_that_are_added(rt: HostRuntime) -> Result<(), Fail> {
    all_hold(rt.alloc(), ADDED)
}

const COVERING: Pairs = &[(FIRST, -9), (0, 10), (20, 21), (30, END)];

/// A time, and whether `COVERING` covers it.
const COVERED: &[(i64, bool)] = &[
    (i64::MIN, false),
    (FIRST - 1, false),
    (FIRST, true),
    (-10, true),
    (-9, false),
    (-1, false),
    (0, true),
    (9, true),
    (10, false),
    (19, false),
    (20, true),
    (21, false),
    (29, false),
    (30, true),
    (END - 1, true),
    (END, false),
    (i64::MAX, false),
];

/// The first row of `COVERED` that does not hold.
fn first_wrong_time(ranges: &Ranges) -> Option<i64> {
    for (time, want) in COVERED {
        if ranges.covers(*time) != *want {
            return Some(*time);
        }
    }
    None
}

#[test]
fn times_that_are_covered(rt: HostRuntime) -> Result<(), Fail> {
    let ranges = ranges_of(rt.alloc(), COVERING)?;
    assert!(rt; first_wrong_time(&ranges).is_none());
    assert!(rt; !Ranges::none(rt.alloc()).covers(0));
    Ok(())
}

/// A lead, ranges, and the times of the ranges when each is lengthened by the lead.
struct Led(u64, Pairs, Pairs);

impl Row for Led {
    fn holds(&self, alloc: Global) -> Result<bool, Fail> {
        let mut longer = Ranges::none(alloc);
        for range in ranges_of(alloc, self.1)?.as_slice() {
            longer.add(range.lengthened(self.0))?;
        }
        Ok(have_bounds(&longer, self.2))
    }
}

const THREE: Pairs = &[(0, 10), (20, 30), (END - 100, END - 50)];

const LED: &[Led] = &[
    Led(0, THREE, &[(0, 10), (20, 30), (END - 100, END - 50)]),
    Led(5, THREE, &[(0, 15), (20, 35), (END - 100, END - 45)]),
    Led(9, THREE, &[(0, 19), (20, 39), (END - 100, END - 41)]),
    Led(10, THREE, &[(0, 40), (END - 100, END - 40)]),
    Led(15, THREE, &[(0, 45), (END - 100, END - 35)]),
    Led(51, THREE, &[(0, 81), (END - 100, END)]),
    // 2^60
    Led(
        1152921504606846976,
        THREE,
        &[(0, 1152921504606847006), (END - 100, END)],
    ),
    Led(u64::MAX, THREE, &[(0, END)]),
    Led(u64::MAX, &[(FIRST, FIRST + 1)], &[(FIRST, END)]),
];

#[test]
fn ranges_lengthened_by_a_lead(rt: HostRuntime) -> Result<(), Fail> {
    all_hold(rt.alloc(), LED)
}

/// Ranges that are united with two others, from either side, and the ranges of all times.
struct United(Pairs, Pairs);

impl Row for United {
    fn holds(&self, alloc: Global) -> Result<bool, Fail> {
        let ranges = ranges_of(alloc, &[(0, 10), (20, 30)])?;
        let others = ranges_of(alloc, self.0)?;
        let all = ranges.union(alloc, &others)?;
        let back = others.union(alloc, &ranges)?;
        Ok(have_bounds(&all, self.1) && have_bounds(&back, self.1))
    }
}

const UNITED: &[United] = &[
    United(&[], &[(0, 10), (20, 30)]),
    United(&[(20, 30)], &[(0, 10), (20, 30)]),
    United(&[(5, 25)], &[(0, 30)]),
    United(&[(10, 20)], &[(0, 30)]),
    United(&[(11, 19)], &[(0, 10), (11, 19), (20, 30)]),
    United(&[(-9, 0), (30, 40)], &[(-9, 10), (20, 40)]),
    United(
        &[(-9, -5), (12, 15), (40, 50), (60, 70)],
        &[(-9, -5), (0, 10), (12, 15), (20, 30), (40, 50), (60, 70)],
    ),
    United(&[(FIRST, END)], &[(FIRST, END)]),
];

#[test]
fn times_of_both(rt: HostRuntime) -> Result<(), Fail> {
    all_hold(rt.alloc(), UNITED)
}

const UNSORTED: Pairs = &[
    (3, 1),
    (i64::MAX, 0),
    (3, -1),
    (i64::MIN, i64::MAX),
    (2, 9),
    (3, 1),
];

const SORTED: Pairs = &[
    (i64::MIN, i64::MAX),
    (2, 9),
    (3, -1),
    (3, 1),
    (3, 1),
    (i64::MAX, 0),
];

#[test]
fn points_in_a_bag(rt: HostRuntime) -> Result<(), Fail> {
    let bag = bag_of(rt.alloc(), UNSORTED)?;
    assert!(rt; are_pairs(bag.as_slice(), SORTED));
    let copy = bag.copy(rt.alloc())?;
    assert!(rt; are_pairs(&copy.into_points(), SORTED));
    assert!(rt; bag_of(rt.alloc(), &[])?.into_points().len() == 0);
    Ok(())
}

/// Points before and after a cut.
const POINTS: Pairs = &[
    (-1, 0),
    (0, 1),
    (0, 1),
    (9, 2),
    (10, 3),
    (10, 3),
    (15, 4),
    (20, 5),
    (30, 6),
];

/// A cut, and the points of `POINTS` outside it.
struct Left(Pairs, Pairs);

impl Row for Left {
    fn holds(&self, alloc: Global) -> Result<bool, Fail> {
        let bag = bag_of(alloc, POINTS)?;
        let cut = ranges_of(alloc, self.0)?;
        let left = bag.outside(alloc, &cut)?;
        Ok(are_pairs(left.as_slice(), self.1))
    }
}

const LEFT: &[Left] = &[
    Left(
        &[(0, 10), (20, 30)],
        &[(-1, 0), (10, 3), (10, 3), (15, 4), (30, 6)],
    ),
    Left(
        &[(10, 11)],
        &[(-1, 0), (0, 1), (0, 1), (9, 2), (15, 4), (20, 5), (30, 6)],
    ),
    Left(&[(FIRST, END)], &[]),
    Left(&[(-9, -5), (-4, -1), (40, 50)], POINTS),
];

#[test]
fn points_outside_ranges(rt: HostRuntime) -> Result<(), Fail> {
    all_hold(rt.alloc(), LEFT)
}

/// The points of two bags, and those of both, merged and appended.
struct Merged(Pairs, Pairs, Pairs);

impl Row for Merged {
    fn holds(&self, alloc: Global) -> Result<bool, Fail> {
        let mut a = bag_of(alloc, self.0)?;
        let b = bag_of(alloc, self.1)?;
        let both = a.merge(alloc, &b)?;
        a.reserve(self.1.len())?;
        a.append(&b)?;
        Ok(are_pairs(both.as_slice(), self.2) && are_pairs(a.as_slice(), self.2))
    }
}

const MERGED: &[Merged] = &[
    Merged(
        &[(1, 5), (3, 0)],
        &[(1, 4), (1, 5), (4, 0)],
        &[(1, 4), (1, 5), (1, 5), (3, 0), (4, 0)],
    ),
    Merged(
        &[(5, 0), (6, 0)],
        &[(1, 0), (5, 0)],
        &[(1, 0), (5, 0), (5, 0), (6, 0)],
    ),
    Merged(
        &[(1, 0), (2, 5)],
        &[(2, 5), (3, 0)],
        &[(1, 0), (2, 5), (2, 5), (3, 0)],
    ),
    Merged(
        &[(1, 0), (2, 5)],
        &[(2, 4), (3, 0)],
        &[(1, 0), (2, 4), (2, 5), (3, 0)],
    ),
    Merged(&[(1, 0)], &[], &[(1, 0)]),
    Merged(&[], &[(1, 0)], &[(1, 0)]),
    Merged(&[], &[], &[]),
];

#[test]
fn points_of_both(rt: HostRuntime) -> Result<(), Fail> {
    all_hold(rt.alloc(), MERGED)
}

/// Values, and the aggregate of points with these values.
struct Aggregated(&'static [i64], u64, i128, (i64, i64));

impl Row for Aggregated {
    fn holds(&self, alloc: Global) -> Result<bool, Fail> {
        let mut points = Vec::new(alloc);
        for value in self.0 {
            points.push(Point {
                time: 0,
                value: *value,
            })?;
        }
        let agg = Agg::of_points(&points);
        Ok((agg.count, agg.sum, agg.ends) == (self.1, self.2, Some(self.3)))
    }
}

const AGGREGATED: &[Aggregated] = &[
    Aggregated(&[5, 7, -2], 3, 10, (-2, 7)),
    Aggregated(&[4], 1, 4, (4, 4)),
    Aggregated(
        &[i64::MAX, i64::MAX],
        2,
        18446744073709551614,
        (i64::MAX, i64::MAX),
    ),
    Aggregated(&[i64::MIN, i64::MAX, 0], 3, -1, (i64::MIN, i64::MAX)),
];

#[test]
fn aggregates_of_values(rt: HostRuntime) -> Result<(), Fail> {
    all_hold(rt.alloc(), AGGREGATED)
}

#[test]
fn aggregates_of_no_value_and_of_two(rt: HostRuntime) {
    assert!(rt; Agg::of_points(&[]) == Agg::none());
    let both = Cell {
        start: 0,
        agg: Agg::of(5).join(&Agg::of(-2)),
    };
    assert!(rt; (both.agg.count, both.agg.sum, both.agg.ends) == (2, 3, Some((-2, 5))));
}

/// A time, and whether it lies in the domain.
struct Timed(i64, bool);

impl Row for Timed {
    fn holds(&self, _alloc: Global) -> Result<bool, Fail> {
        let point = Point {
            time: self.0,
            value: 0,
        };
        let inside = Point { time: 0, value: 0 };
        Ok(point.is_in_domain() == self.1 && are_in_domain(&[inside, point]) == self.1)
    }
}

const TIMED: &[Timed] = &[
    Timed(i64::MIN, false),
    Timed(FIRST - 1, false),
    Timed(FIRST, true),
    Timed(0, true),
    Timed(END - 1, true),
    Timed(END, false),
];

#[test]
fn times_of_the_domain(rt: HostRuntime) -> Result<(), Fail> {
    limits_are_these();
    all_hold(rt.alloc(), TIMED)
}

/// A time, and the number and begin of its window: windows 3 ns wide, the first from 5 on.
struct Windowed(i64, u64, i64);

impl Row for Windowed {
    fn holds(&self, _alloc: Global) -> Result<bool, Fail> {
        if self.0 < 5 {
            return Ok(false);
        }
        let grid = Grid { first: 5, width: 3 };
        Ok(grid.number_of(self.0) == self.1 && grid.begin_of(self.0) == self.2)
    }
}

const WINDOWED: &[Windowed] = &[
    Windowed(5, 0, 5),
    Windowed(7, 0, 5),
    Windowed(8, 1, 8),
    Windowed(20, 5, 20),
    Windowed(22, 5, 20),
];

#[test]
fn windows_of_times(rt: HostRuntime) -> Result<(), Fail> {
    let grid = Grid { first: 5, width: 3 };
    assert!(rt; (grid.start_of(2), grid.end_of(2)) == (11, 14));
    let slots = Grid {
        first: FIRST,
        width: 8,
    };
    assert!(rt; Grid::aligned(3) == slots);
    all_hold(rt.alloc(), WINDOWED)
}

/// A time, the exponent of a width, and the bounds of the slot of that width around the time.
struct Slotted(i64, u8, i64, i64);

impl Row for Slotted {
    fn holds(&self, _alloc: Global) -> Result<bool, Fail> {
        if self.0 < FIRST || self.0 >= END || self.1 > 62 {
            return Ok(false);
        }
        let slot = slot_around(self.0, self.1);
        Ok(slot.from == self.2 && slot.to == self.3)
    }
}

const SLOTTED: &[Slotted] = &[
    Slotted(7, 2, 4, 8),
    Slotted(-1, 3, -8, 0),
    Slotted(5, 0, 5, 6),
    Slotted(0, 62, FIRST, END),
];

#[test]
fn slots_of_times(rt: HostRuntime) -> Result<(), Fail> {
    all_hold(rt.alloc(), SLOTTED)
}

/// A time, a height, and the start of the span of that height around the time.
struct Spanned(i64, u8, i64);

impl Row for Spanned {
    fn holds(&self, _alloc: Global) -> Result<bool, Fail> {
        if self.0 < FIRST || self.0 >= END || self.1 > 10 {
            return Ok(false);
        }
        let span = Span::of(self.0, self.1);
        Ok(span.start == self.2 && span.height == self.1)
    }
}

const SPANNED: &[Spanned] = &[
    Spanned(FIRST, 0, FIRST),
    Spanned(FIRST + 3, 0, FIRST),
    Spanned(FIRST + 4, 0, FIRST + 4),
    Spanned(-1, 0, -4),
    Spanned(0, 0, 0),
    Spanned(255, 1, 0),
    Spanned(256, 1, 256),
    Spanned(-1, 1, -256),
    Spanned(END - 1, 10, FIRST),
    Spanned(END - 1, 0, END - 4),
    Spanned(END - 1, 9, END - 72057594037927936),
];

#[test]
fn spans_of_times(rt: HostRuntime) -> Result<(), Fail> {
    all_hold(rt.alloc(), SPANNED)
}

/// A time, the height of its span, the number of a slot of that span, and the start of the slot.
struct Parted(i64, u8, u8, i64);

impl Row for Parted {
    fn holds(&self, _alloc: Global) -> Result<bool, Fail> {
        let Parted(time, height, i, start) = *self;
        if time < FIRST || time >= END || height < 1 || height > 10 || i >= 64 {
            return Ok(false);
        }
        let slot = Span::of(time, height).slot(i);
        Ok(slot.start == start && slot.height == height - 1)
    }
}

const PARTED: &[Parted] = &[
    Parted(0, 1, 0, 0),
    Parted(0, 1, 63, 252),
    Parted(5000, 2, 1, 256),
    Parted(0, 10, 0, FIRST),
    Parted(0, 10, 16, 0),
    Parted(0, 10, 63, END - 72057594037927936),
];

#[test]
fn slots_of_spans(rt: HostRuntime) -> Result<(), Fail> {
    all_hold(rt.alloc(), PARTED)
}

/// A text, the number up to 255 that it writes, and the number within `i64`.
struct Decimal(&'static str, Option<u64>, Option<i64>);

impl Row for Decimal {
    fn holds(&self, _alloc: Global) -> Result<bool, Fail> {
        let text = self.0.as_bytes();
        Ok(read_decimal(text, 255) == self.1 && read_signed_decimal(text) == self.2)
    }
}

const DECIMALS: &[Decimal] = &[
    Decimal("0", Some(0), Some(0)),
    Decimal("007", Some(7), Some(7)),
    Decimal("255", Some(255), Some(255)),
    Decimal("256", None, Some(256)),
    Decimal("-1", None, Some(-1)),
    Decimal("-0", None, Some(0)),
    Decimal("+1", None, None),
    Decimal("", None, None),
    Decimal("-", None, None),
    Decimal("--1", None, None),
    Decimal("1-", None, None),
    Decimal("1 ", None, None),
    Decimal("1a", None, None),
    Decimal("9223372036854775807", None, Some(i64::MAX)),
    Decimal("9223372036854775808", None, None),
    Decimal("-9223372036854775808", None, Some(i64::MIN)),
    Decimal("-9223372036854775809", None, None),
    Decimal("18446744073709551616", None, None),
];

#[test]
fn numbers_in_text(rt: HostRuntime) -> Result<(), Fail> {
    assert!(rt; negative(1 << 63) == i64::MIN);
    all_hold(rt.alloc(), DECIMALS)
}
