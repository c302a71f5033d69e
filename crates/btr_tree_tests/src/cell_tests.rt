//! Kernels of aligned windows: values, windows and outputs by hand, and a plan by several threads.

use super::fixture::{Pairs, Row, after, all_hold, are_pairs, have_bounds, points_of, ranges_of};
use btr_base::{Agg, Bag, END, FIRST, Point, Ranges};
use btr_cell::{value, widen};
use btr_distil::{InputTrees, Plan, Sight, plan, plan_shared};
use btr_hist::{Kernel, Reads, Spec};
use btr_tree::Tree;
use std::alloc::{AllocError, Global};
use std::marker::Sync;
use std::test::Fail;
use std::thread::Threads;

// ---- by hand

const MOST: i64 = i64::MAX;

const LEAST: i64 = i64::MIN;

/// Values of the points of a window, and what `which` from 1 to 5 gives: the sum, the mean, the least, the greatest, the count.
struct Values(&'static [i64], [Option<i64>; 5]);

impl Row for Values {
    fn holds(&self, alloc: Global) -> Result<bool, Fail> {
        let mut points = Vec::new(alloc);
        for &value in self.0 {
            points.push(Point { time: 0, value })?;
        }
        let agg = Agg::of_points(&points);
        let wanted = self.1;
        Ok(
            value(1, &agg) == wanted[0]
                && value(2, &agg) == wanted[1]
                && value(3, &agg) == wanted[2]
                && value(4, &agg) == wanted[3]
                && value(5, &agg) == wanted[4],
        )
    }
}

const VALUES: &[Values] = &[
    // an empty window has no value
    Values(&[], [None, None, None, None, None]),
    Values(&[7], [Some(7), Some(7), Some(7), Some(7), Some(1)]),
    // the mean rounds toward minus infinity
    Values(&[-3, -4], [Some(-7), Some(-4), Some(-4), Some(-3), Some(2)]),
    Values(&[3, 4], [Some(7), Some(3), Some(3), Some(4), Some(2)]),
    Values(
        &[-7, 3, 3],
        [Some(-1), Some(-1), Some(-7), Some(3), Some(3)],
    ),
    // a sum that is no i64 is none, and its mean is one
    Values(
        &[MOST, MOST],
        [None, Some(MOST), Some(MOST), Some(MOST), Some(2)],
    ),
    Values(
        &[LEAST, LEAST, -1],
        [
            None,
            Some(-6148914691236517206),
            Some(LEAST),
            Some(-1),
            Some(3),
        ],
    ),
    Values(
        &[LEAST, MOST],
        [Some(-1), Some(-1), Some(LEAST), Some(MOST), Some(2)],
    ),
];

#[test]
fn values_by_hand(rt: HostRuntime) -> Result<(), Fail> {
    all_hold(rt.alloc(), VALUES)
}

/// The exponent of a width, ranges, and the windows that they meet.
struct Widened(u8, Pairs, Pairs);

impl Row for Widened {
    fn holds(&self, alloc: Global) -> Result<bool, Fail> {
        if self.0 > 62 {
            return Err("no width".into());
        }
        let windows = widen(alloc, &ranges_of(alloc, self.1)?, self.0)?;
        Ok(have_bounds(windows.as_slice(), self.2))
    }
}

const WIDENED: &[Widened] = &[
    Widened(3, &[], &[]),
    Widened(0, &[(-3, 2), (5, 6)], &[(-3, 2), (5, 6)]),
    // the end of a range is not in it
    Widened(2, &[(0, 4)], &[(0, 4)]),
    Widened(2, &[(0, 5)], &[(0, 8)]),
    Widened(2, &[(-1, 0), (3, 4), (9, 10)], &[(-4, 4), (8, 12)]),
    // several ranges in one window
    Widened(4, &[(1, 2), (5, 6), (15, 17)], &[(0, 32)]),
    // the ends of the domain, and the window that is the whole domain
    Widened(
        2,
        &[(FIRST, FIRST + 1), (END - 1, END)],
        &[(FIRST, FIRST + 4), (END - 4, END)],
    ),
    Widened(62, &[(5, 6)], &[(FIRST, END)]),
];

#[test]
fn windows_by_hand(rt: HostRuntime) -> Result<(), Fail> {
    all_hold(rt.alloc(), WIDENED)
}

// ---- plans

/// Points with times from `from` on in steps of at most 6 ns, of which some are equal, and values from -9 to 9.
fn some_points(alloc: Global, seed: u64, from: i64, count: u64) -> Result<Bag, AllocError> {
    let mut points = Vec::new(alloc);
    let mut state = seed;
    let mut time = from;
    for _ in 0..count {
        state = state
            .wrapping_mul(6_364_136_223_846_793_005)
            .wrapping_add(1_442_695_040_888_963_407);
        time = time.wrapping_add(((state >> 33) % 7) as i64);
        let value = ((state >> 40) % 19) as i64;
        points.push(Point {
            time,
            value: value.wrapping_sub(9),
        })?;
    }
    Ok(Bag::from_points(points))
}

fn spec_of(which: u8, p: u8, grain: u8) -> Spec {
    Spec {
        kernel: Kernel::Cell { which, p },
        lead: 0,
        grain,
        first: 0,
        second: None,
    }
}

/// The sight of an output of stream 7, at its version 3, from a version of a stream to another.
fn sight_of<'a>(spec: Spec, old: &'a Tree, new: &'a Tree, read: u64) -> Result<Sight<'a>, Fail> {
    if !spec.is_good() || spec.second.is_some() {
        return Err("no good spec".into());
    }
    let before = InputTrees {
        reads: Reads {
            first: read,
            second: None,
        },
        first: old,
        second: None,
    };
    let after = InputTrees {
        reads: Reads {
            first: read.wrapping_add(1),
            second: None,
        },
        first: new,
        second: None,
    };
    Ok(Sight::new(spec, 7, 3, before, after))
}

/// A kernel of windows, the points of its input, and those of its output over all time.
struct Output(u8, u8, Pairs, Pairs);

/// The tree of these points at version 1.
fn tree_of(alloc: Global, points: &Bag) -> Result<Tree, Fail> {
    let none = Ranges::none(alloc);
    let (tree, _) = after(alloc, &Tree::empty(), &none, points, 1)?;
    Ok(tree)
}

/// The plan that brings an output of this spec from nothing to a tree.
fn first_plan(alloc: Global, spec: Spec, tree: &Tree) -> Result<Option<Plan>, Fail> {
    let empty = Tree::empty();
    let sight = sight_of(spec, &empty, tree, 0)?;
    Ok(plan(alloc, &sight)?)
}

impl Row for Output {
    fn holds(&self, alloc: Global) -> Result<bool, Fail> {
        let points = Bag::from_points(points_of(alloc, self.2)?);
        let tree = tree_of(alloc, &points)?;
        let made = first_plan(alloc, spec_of(self.0, self.1, 0), &tree)?;
        let wanted = self.3;
        Ok(match &made {
            None => false,
            Some(plan) => are_pairs(plan.added().as_slice(), wanted),
        })
    }
}

const OUTPUTS: &[Output] = &[
    // each point in a window of its own, and all in one
    Output(
        1,
        0,
        &[(-1, 4), (0, 5), (0, -7), (9, 1)],
        &[(-1, 4), (0, -2), (9, 1)],
    ),
    Output(1, 62, &[(-1, 4), (0, 5), (0, -7), (9, 1)], &[(FIRST, 3)]),
    // windows without points give none
    Output(
        5,
        2,
        &[(-1, 4), (0, 5), (3, -7), (9, 1)],
        &[(-4, 1), (0, 2), (8, 1)],
    ),
    Output(
        2,
        2,
        &[(0, -3), (3, -4), (4, 7), (7, 0)],
        &[(0, -4), (4, 3)],
    ),
    // a sum that is no i64 gives no point
    Output(1, 2, &[(0, MOST), (1, MOST), (4, MOST)], &[(4, MOST)]),
    // the ends of the domain
    Output(
        3,
        4,
        &[(FIRST, 2), (FIRST + 15, 1), (END - 1, 6)],
        &[(FIRST, 1), (END - 16, 6)],
    ),
];

#[test]
fn outputs_by_hand(rt: HostRuntime) -> Result<(), Fail> {
    all_hold(rt.alloc(), OUTPUTS)
}

/// The plan of the counts of windows from nothing to a tree, made by four threads.
fn shared_plan<R: Threads + Sync>(
    rt: &R,
    alloc: Global,
    tree: &Tree,
) -> Result<Option<Plan>, Fail> {
    let empty = Tree::empty();
    let sight = sight_of(spec_of(5, 12, 0), &empty, tree, 0)?;
    Ok(plan_shared(rt, alloc, &sight, 4)?)
}

/// Whether both plans are there and the same, and the sum of the values that they add.
fn compared(one: &Option<Plan>, several: &Option<Plan>) -> (bool, i64) {
    match (one, several) {
        (Some(one), Some(several)) => {
            let same = one.cut().as_slice() == several.cut().as_slice()
                && one.added().as_slice() == several.added().as_slice();
            let mut sum = 0i64;
            for point in one.added().as_slice() {
                sum = sum.wrapping_add(point.value);
            }
            (same, sum)
        }
        _ => (false, 0),
    }
}

/// Whether the plan of the counts of windows over many points is the same with several threads as with one, and how many points they count.
fn shared_cells<R: Threads + Sync>(rt: &R, alloc: Global) -> Result<(bool, i64), Fail> {
    let points = some_points(alloc, 3, 0, 20_000)?;
    let tree = tree_of(alloc, &points)?;
    let one = first_plan(alloc, spec_of(5, 12, 0), &tree)?;
    let several = shared_plan(rt, alloc, &tree)?;
    Ok(compared(&one, &several))
}

#[test]
fn plans_of_many_windows_are_the_same_with_threads(rt: HostRuntime) -> Result<(), Fail> {
    assert!(rt; shared_cells(&rt, rt.alloc())? == (true, 20_000));
    Ok(())
}
