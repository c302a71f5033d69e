//! Windows and aggregates of trees of every shape, against plain lists, and by hand.

use super::fixture::{Counts, Pairs, Row, after, all_hold, bag_of, ranges_of};
use btr_base::{Bag, Cell, END, FIRST, MAX_WIDTH, Point, Range, Ranges};
use btr_tree::{Steps, Tree};
use btr_window::{aggregate, aligned, windows};
use std::alloc::{AllocError, Global};
use std::test::Fail;

/// A row: the start of a window, the number of its points, and the sum, the least and the greatest of their values.
#[derive(Clone, Copy, PartialEq)]
struct Window(i128, u64, i128, i64, i64);

impl Window {
    /// The row of one point.
    fn of(start: i128, value: i64) -> Window {
        Window(start, 1, i128::from(value), value, value)
    }

    /// The row with one more value.
    fn with(self, value: i64) -> Window {
        let Window(start, count, sum, least, greatest) = self;
        Window(
            start,
            count.saturating_add(1),
            sum.wrapping_add(i128::from(value)),
            least.min(value),
            greatest.max(value),
        )
    }
}

/// Points of one tree: how many, the time of the first and the step between two, and the bounds that are cut afterwards (none
/// if they are equal). Values are from -8 to 8.
struct Shape(i64, i64, i64, i64, i64);

fn points_of(alloc: Global, shape: &Shape) -> Result<Bag, AllocError> {
    let mut points = Vec::new(alloc);
    for i in 0..shape.0 {
        points.push(Point {
            time: shape.1.wrapping_add(i.wrapping_mul(shape.2)),
            value: (i.wrapping_mul(31) % 17).wrapping_sub(8),
        })?;
    }
    Ok(Bag::from_points(points))
}

/// The tree of a shape, after its cut.
fn tree_of(alloc: Global, added: &Bag, cut: &Ranges) -> Result<Tree, Fail> {
    let (whole, _) = after(alloc, &Tree::empty(), &Ranges::none(alloc), added, 1)?;
    let none = Bag::from_points(Vec::new(alloc));
    let (tree, _) = after(alloc, &whole, cut, &none, 2)?;
    Ok(tree)
}

/// The rows of windows.
fn rows_of(alloc: Global, cells: &[Cell]) -> Result<Vec<Window>, Fail> {
    let mut rows = Vec::new(alloc);
    for cell in cells {
        let agg = cell.agg;
        let (least, greatest) = agg.ends.ok_or("a point")?;
        rows.push(Window(i128::from(cell.start), agg.count, agg.sum, least, greatest))?;
    }
    Ok(rows)
}

/// The rows of the windows from a first time on that start at `low` or later and end at `high` or earlier: point by
/// point.
fn plain_rows(
    alloc: Global,
    points: &[Point],
    first: i64,
    width: u64,
    low: i128,
    high: i128,
) -> Result<Vec<Window>, AllocError> {
    let width = i128::from(width);
    let mut rows: Vec<Window> = Vec::new(alloc);
    for point in points {
        let offset = i128::from(point.time).wrapping_sub(i128::from(first));
        let number = offset.checked_div(width).unwrap_or(0);
        let start = i128::from(first).wrapping_add(number.wrapping_mul(width));
        if offset < 0 || start < low || start.wrapping_add(width) > high {
            continue;
        }
        let mut row = Window::of(start, point.value);
        if let Some(last) = rows.pop() {
            if last.0 == start {
                row = last.with(point.value);
            } else {
                rows.push(last)?;
            }
        }
        rows.push(row)?;
    }
    Ok(rows)
}

/// Whether the aggregate of a range is that of its points, one by one, and visits at most 21 nodes.
fn aggregate_agrees(alloc: Global, tree: &Tree, points: &[Point], range: Range) -> bool {
    let mut steps = Steps::<Counts>::new();
    let agg = aggregate(tree, range, &mut steps);
    let mut all: Option<Window> = None;
    for point in points {
        if range.from <= point.time && point.time < range.to {
            all = match all {
                None => Some(Window::of(0, point.value)),
                Some(row) => Some(row.with(point.value)),
            };
        }
    }
    let same = match all {
        None => agg.count == 0 && agg.sum == 0 && agg.ends == None,
        Some(Window(_, count, sum, least, greatest)) => {
            agg.count == count && agg.sum == sum && agg.ends == Some((least, greatest))
        }
    };
    same && steps.count() <= 21
}

/// Whether the aligned windows of a range are those of its points, one by one.
fn aligned_agree(
    alloc: Global,
    tree: &Tree,
    points: &[Point],
    range: Range,
    p: u8,
) -> Result<bool, Fail> {
    let p = p.min(62);
    let width = 1u64 << u32::from(p);
    let around = i128::from(width).wrapping_sub(1);
    let low = i128::from(range.from).wrapping_sub(around);
    let high = i128::from(range.to).wrapping_add(around);
    let rows = rows_of(alloc, &aligned(alloc, tree, range, p)?)?;
    Ok(rows == plain_rows(alloc, points, FIRST, width, low, high)?)
}

/// Whether the windows of a width are.
fn windows_agree(
    alloc: Global,
    tree: &Tree,
    points: &[Point],
    range: Range,
    width: u64,
) -> Result<bool, Fail> {
    let width = width.clamp(1, 4611686018427387904);
    let low = i128::from(range.from);
    let high = i128::from(range.to);
    let rows = rows_of(alloc, &windows(alloc, tree, range, width)?)?;
    Ok(rows == plain_rows(alloc, points, range.from, width, low, high)?)
}

/// Whether the aggregate and all windows of a range are.
fn range_agrees(alloc: Global, tree: &Tree, points: &[Point], range: Range) -> Result<bool, Fail> {
    let mut same = aggregate_agrees(alloc, tree, points, range);
    for p in [0u8, 2, 5, 33, 62] {
        same = same && aligned_agree(alloc, tree, points, range, p)?;
    }
    for width in [1u64, 3, 4, 1000, MAX_WIDTH] {
        same = same && windows_agree(alloc, tree, points, range, width)?;
    }
    Ok(same)
}

/// Whether they are for each range of a few bounds.
fn ranges_agree(alloc: Global, tree: &Tree, points: &[Point]) -> Result<bool, Fail> {
    for from in [FIRST, -41, 0, 3, 5, 99, 252, END - 1] {
        for to in [FIRST + 1, 1, 6, 101, 253, 299, 5000, END] {
            if let Some(range) = Range::new(from, to) {
                if !range_agrees(alloc, tree, points, range)? {
                    return Ok(false);
                }
            }
        }
    }
    Ok(true)
}

impl Row for Shape {
    fn holds(&self, alloc: Global) -> Result<bool, Fail> {
        let added = points_of(alloc, self)?;
        let cut = ranges_of(alloc, &[(self.3, self.4)])?;
        let tree = tree_of(alloc, &added, &cut)?;
        let kept = added.outside(alloc, &cut)?;
        ranges_agree(alloc, &tree, kept.as_slice())
    }
}

const SHAPES: &[Shape] = &[
    Shape(0, 0, 1, 0, 0),
    Shape(5, 3, 1, 0, 0),
    Shape(252, 0, 1, 0, 0),
    Shape(253, 0, 1, 0, 0),
    Shape(400, -40, 13, 0, 0),
    Shape(300, 0, 1, 100, 200),
    Shape(300, 0, 1, FIRST, END),
    Shape(252, 5, 0, 0, 0),
    Shape(2, FIRST, 4611686018427387903, 0, 0),
    Shape(256, FIRST, 18014398509481984, 0, 0),
];

#[test]
fn trees_of_every_shape(rt: HostRuntime) -> Result<(), Fail> {
    all_hold(rt.alloc(), SHAPES)
}

/// The tree of points by their times and values.
fn tree_by_hand(alloc: Global, pairs: &[(i64, i64)]) -> Result<Tree, Fail> {
    let added = bag_of(alloc, pairs)?;
    let (tree, _) = after(alloc, &Tree::empty(), &Ranges::none(alloc), &added, 1)?;
    Ok(tree)
}

/// Windows of 2^p ns, or of a width.
enum Asked {
    Aligned(u8),
    Windows(u64),
}

/// Points, the bounds of a range, its windows, and their rows.
struct ByHand(Pairs, i64, i64, Asked, &'static [Window]);

impl Row for ByHand {
    fn holds(&self, alloc: Global) -> Result<bool, Fail> {
        let range = Range::new(self.1, self.2).ok_or("a range")?;
        let tree = tree_by_hand(alloc, self.0)?;
        let cells = match self.3 {
            Asked::Aligned(p) => aligned(alloc, &tree, range, p.min(62))?,
            Asked::Windows(width) => {
                windows(alloc, &tree, range, width.clamp(1, 4611686018427387904))?
            }
        };
        Ok(rows_of(alloc, &cells)?.as_slice() == self.4)
    }
}

const POINTS: Pairs = &[(0, 5), (3, 7), (4, -2)];

const BY_HAND: &[ByHand] = &[
    ByHand(
        POINTS,
        0,
        8,
        Asked::Aligned(2),
        &[Window(0, 2, 12, 5, 7), Window(4, 1, -2, -2, -2)],
    ),
    // a window from 7 on would end after the range
    ByHand(
        POINTS,
        1,
        8,
        Asked::Windows(3),
        &[Window(1, 1, 7, 7, 7), Window(4, 1, -2, -2, -2)],
    ),
    // a sum above the greatest value
    ByHand(
        &[(0, i64::MAX), (1, i64::MAX)],
        0,
        1,
        Asked::Aligned(62),
        &[Window(
            -1152921504606846976,
            2,
            18446744073709551614,
            i64::MAX,
            i64::MAX,
        )],
    ),
];

#[test]
fn rows_by_hand(rt: HostRuntime) -> Result<(), Fail> {
    all_hold(rt.alloc(), BY_HAND)
}

#[test]
fn an_aggregate_by_hand(rt: HostRuntime) -> Result<(), Fail> {
    let tree = tree_by_hand(rt.alloc(), POINTS)?;
    let range = Range::new(1, 8).ok_or("a range")?;
    let mut steps = Steps::<Counts>::new();
    assert!(rt; aggregate(&tree, range, &mut steps).sum == 5);
    assert!(rt; steps.count() == 1);
    Ok(())
}
