//! Plans of distillates by hand, and the entries that they are.

use super::fixture::{
    Pairs, Row, after, all_hold, are_pairs, bag_of, have_bounds, points_from, ranges_of,
};
use btr_base::{Bag, END, FIRST, Point, Ranges};
use btr_distil::{InputTrees, Plan, Sight, plan, plan_shared};
use btr_hist::{Entry, Kernel, Reads, Spec};
use btr_tree::Tree;
use std::alloc::Global;
use std::marker::Sync;
use std::test::Fail;
use std::thread::Threads;

/// The cut of a commit, and the points that it adds.
struct Commit(Pairs, Pairs);

/// The versions of the inputs that were read: that of the first, and that of the second if there is one.
type Versions = (u64, Option<u64>);

/// The tree after one more commit.
fn next_tree(alloc: Global, last: &Tree, commit: &Commit, version: u64) -> Result<Tree, Fail> {
    let cut = ranges_of(alloc, commit.0)?;
    let added = bag_of(alloc, commit.1)?;
    let (tree, _) = after(alloc, last, &cut, &added, version)?;
    Ok(tree)
}

/// The trees of the versions of a stream, from the empty one on.
fn trees_of(alloc: Global, commits: &[Commit]) -> Result<Vec<Tree>, Fail> {
    let mut trees = Vec::new(alloc);
    let mut last = Tree::empty();
    for commit in commits {
        let next = next_tree(alloc, &last, commit, trees.len() as u64 + 1)?;
        trees.push(last)?;
        last = next;
    }
    trees.push(last)?;
    Ok(trees)
}

/// Stream 0 is (0, 10), (10, 20), (20, 30), then with (5, 1), then without the time 10. Stream 1 is (0, 3), then with (10, 5).
/// Stream 2 is at both ends of the domain, then has one point more at each.
const STREAMS: &[&[Commit]] = &[
    &[
        Commit(&[], &[(0, 10), (10, 20), (20, 30)]),
        Commit(&[], &[(5, 1)]),
        Commit(&[(10, 11)], &[]),
    ],
    &[Commit(&[], &[(0, 3)]), Commit(&[], &[(10, 5)])],
    &[
        Commit(&[], &[(FIRST + 3, 1), (END - 4, 2)]),
        Commit(&[], &[(FIRST, 5), (END - 1, 6)]),
    ],
];

/// The trees of the versions of each stream.
fn streams(alloc: Global) -> Result<Vec<Vec<Tree>>, Fail> {
    let mut streams = Vec::new(alloc);
    for commits in STREAMS {
        streams.push(trees_of(alloc, commits)?)?;
    }
    Ok(streams)
}

/// The tree of the version of a stream that was read.
fn tree_at<'a>(trees: &'a [Vec<Tree>], stream: u32, version: u64) -> Result<&'a Tree, Fail> {
    let versions = trees.get(stream as usize).ok_or("a stream")?;
    let tree = versions.get(version as usize).ok_or("a version")?;
    Ok(tree)
}

/// The tree of the version of a second input that was read, if there is one.
fn second_at<'a>(
    trees: &'a [Vec<Tree>],
    stream: Option<u32>,
    version: Option<u64>,
) -> Result<Option<&'a Tree>, Fail> {
    match (stream, version) {
        (Some(stream), Some(version)) => Ok(Some(tree_at(trees, stream, version)?)),
        _ => Ok(None),
    }
}

fn reads_of(versions: Versions) -> Reads {
    Reads {
        first: versions.0,
        second: versions.1,
    }
}

/// The trees of the first input before and after, and those of the second.
type Inputs<'a> = (&'a Tree, &'a Tree, Option<&'a Tree>, Option<&'a Tree>);

/// The sight of an output of stream 7, at its version 3.
fn sight_over(spec: Spec, old: Reads, new: Reads, inputs: Inputs<'_>) -> Result<Sight<'_>, Fail> {
    let (old_first, new_first, old_second, new_second) = inputs;
    let has_second = spec.second.is_some();
    if !spec.is_good()
        || old.second.is_some() != has_second
        || new.second.is_some() != has_second
        || old_second.is_some() != has_second
        || new_second.is_some() != has_second
    {
        return Err("no spec with its inputs".into());
    }
    let read = InputTrees {
        reads: old,
        first: old_first,
        second: old_second,
    };
    let to_read = InputTrees {
        reads: new,
        first: new_first,
        second: new_second,
    };
    let sight = Sight::new(spec, 7, 3, read, to_read);
    if sight.base() != 3 {
        return Err("another version of the output".into());
    }
    Ok(sight)
}

/// The sight of an output of stream 7, at its version 3, from the versions that it had read to others.
fn sight_of(
    trees: &[Vec<Tree>],
    spec: Spec,
    old: Versions,
    new: Versions,
) -> Result<Sight<'_>, Fail> {
    let inputs = (
        tree_at(trees, spec.first, old.0)?,
        tree_at(trees, spec.first, new.0)?,
        second_at(trees, spec.second, old.1)?,
        second_at(trees, spec.second, new.1)?,
    );
    sight_over(spec, reads_of(old), reads_of(new), inputs)
}

/// The plan for an output of stream 7, after its version 3, from the versions that it had read to others.
fn planned(alloc: Global, spec: Spec, old: Versions, new: Versions) -> Result<Option<Plan>, Fail> {
    let trees = streams(alloc)?;
    Ok(plan(alloc, &sight_of(&trees, spec, old, new)?)?)
}

const SUM: Spec = Spec {
    kernel: Kernel::Sum,
    lead: 10,
    grain: 0,
    first: 0,
    second: None,
};

const WIDE_SUM: Spec = Spec {
    kernel: Kernel::Sum,
    lead: 10,
    grain: 4,
    first: 0,
    second: None,
};

const MINUS: Spec = Spec {
    kernel: Kernel::Minus,
    lead: 0,
    grain: 0,
    first: 0,
    second: Some(1),
};

/// Of one stream as both inputs.
const OWN: Spec = Spec {
    kernel: Kernel::Minus,
    lead: 0,
    grain: 0,
    first: 0,
    second: Some(0),
};

const HOLD: Spec = Spec {
    kernel: Kernel::Hold,
    lead: 10,
    grain: 0,
    first: 0,
    second: Some(0),
};

/// Of the stream at the ends of the domain.
const ENDS: Spec = Spec {
    kernel: Kernel::Count,
    lead: 10,
    grain: 0,
    first: 2,
    second: None,
};

/// The sums of windows of 16 ns.
const CELLS: Spec = Spec {
    kernel: Kernel::Cell { which: 1, p: 4 },
    lead: 0,
    grain: 0,
    first: 0,
    second: None,
};

/// The counts of windows of 4 ns, of the stream at the ends of the domain.
const END_CELLS: Spec = Spec {
    kernel: Kernel::Cell { which: 5, p: 2 },
    lead: 0,
    grain: 0,
    first: 2,
    second: None,
};

/// The greatest values of windows of 1 ns, looked for in slots of 16 ns.
const FINE_CELLS: Spec = Spec {
    kernel: Kernel::Cell { which: 4, p: 0 },
    lead: 0,
    grain: 4,
    first: 0,
    second: None,
};

/// A spec, the versions that were read before, those that are read, and the cut and the points of the plan.
struct PlanOf(Spec, Versions, Versions, Pairs, Pairs);

impl PlanOf {
    /// Whether this is the plan of the row.
    fn is(&self, plan: &Option<Plan>) -> bool {
        match plan {
            None => false,
            Some(plan) => {
                have_bounds(plan.cut().as_slice(), self.3)
                    && are_pairs(plan.added().as_slice(), self.4)
                    && plan.reads() == reads_of(self.2)
            }
        }
    }
}

impl Row for PlanOf {
    fn holds(&self, alloc: Global) -> Result<bool, Fail> {
        Ok(self.is(&planned(alloc, self.0, self.1, self.2)?))
    }
}

const PLANNED: &[PlanOf] = &[
    // nothing was read before
    PlanOf(
        SUM,
        (0, None),
        (1, None),
        &[(0, 31)],
        &[(0, 10), (10, 30), (20, 50)],
    ),
    PlanOf(SUM, (1, None), (2, None), &[(5, 16)], &[(5, 11), (10, 31)]),
    // over both commits at once
    PlanOf(SUM, (1, None), (3, None), &[(5, 21)], &[(5, 11), (20, 30)]),
    // wider slots
    PlanOf(
        WIDE_SUM,
        (1, None),
        (2, None),
        &[(0, 26)],
        &[(0, 10), (5, 11), (10, 31), (20, 50)],
    ),
    // the second input alone
    PlanOf(MINUS, (1, Some(1)), (1, Some(2)), &[(10, 11)], &[(10, 15)]),
    // both inputs: the commits of the first are at 5 and 10, that of the second at 10
    PlanOf(MINUS, (1, Some(1)), (3, Some(2)), &[(5, 6), (10, 11)], &[]),
    PlanOf(
        MINUS,
        (0, Some(0)),
        (2, Some(2)),
        &[(0, 1), (5, 6), (10, 11), (20, 21)],
        &[(0, 7), (10, 15)],
    ),
    // one stream as both inputs
    PlanOf(OWN, (1, Some(1)), (2, Some(2)), &[(5, 6)], &[(5, 0)]),
    PlanOf(
        HOLD,
        (1, Some(1)),
        (2, Some(2)),
        &[(5, 16)],
        &[(5, 0), (10, 0)],
    ),
    // the same stream, but only what the second input reads is later
    PlanOf(
        HOLD,
        (1, Some(1)),
        (1, Some(3)),
        &[(5, 21)],
        &[(10, 19), (20, 0)],
    ),
    // at the ends of the domain
    PlanOf(
        ENDS,
        (1, None),
        (2, None),
        &[(FIRST, FIRST + 11), (END - 1, END)],
        &[(FIRST, 1), (FIRST + 3, 2), (END - 1, 2)],
    ),
    // aligned windows: each that a change meets, whole
    PlanOf(
        CELLS,
        (0, None),
        (1, None),
        &[(0, 32)],
        &[(0, 30), (16, 30)],
    ),
    PlanOf(CELLS, (1, None), (2, None), &[(0, 16)], &[(0, 31)]),
    PlanOf(CELLS, (1, None), (3, None), &[(0, 16)], &[(0, 11)]),
    PlanOf(
        END_CELLS,
        (1, None),
        (2, None),
        &[(FIRST, FIRST + 4), (END - 4, END)],
        &[(FIRST, 2), (END - 4, 2)],
    ),
    // windows that are narrower than the slots
    PlanOf(
        FINE_CELLS,
        (1, None),
        (2, None),
        &[(0, 16)],
        &[(0, 10), (5, 1), (10, 20)],
    ),
];

#[test]
fn plans_of_small_changes(rt: HostRuntime) -> Result<(), Fail> {
    all_hold(rt.alloc(), PLANNED)
}

/// A spec, the versions that were read before and those that are read, and whether there is a plan.
struct IsPlanned(Spec, Versions, Versions, bool);

impl Row for IsPlanned {
    fn holds(&self, alloc: Global) -> Result<bool, Fail> {
        Ok(planned(alloc, self.0, self.1, self.2)?.is_some() == self.3)
    }
}

const IS_PLANNED: &[IsPlanned] = &[
    IsPlanned(SUM, (2, None), (2, None), false),
    IsPlanned(MINUS, (1, Some(1)), (1, Some(1)), false),
    IsPlanned(MINUS, (1, Some(1)), (2, Some(1)), true),
];

#[test]
fn nothing_is_planned_if_nothing_is_new(rt: HostRuntime) -> Result<(), Fail> {
    all_hold(rt.alloc(), IS_PLANNED)
}

/// Whether an entry is the distillate of stream 7 with the second version of the sum.
fn is_second_sum(entry: &Entry) -> bool {
    match entry {
        Entry::Distillate {
            stream,
            cut,
            added,
            reads,
        } => {
            *stream == 7
                && *reads == reads_of((2, None))
                && have_bounds(cut.as_slice(), &[(5, 16)])
                && are_pairs(added.as_slice(), &[(5, 11), (10, 31)])
        }
        _ => false,
    }
}

#[test]
fn plans_are_entries(rt: HostRuntime) -> Result<(), Fail> {
    let plan = planned(rt.alloc(), SUM, (1, None), (2, None))?.ok_or("a plan")?;
    assert!(rt; (plan.stream(), plan.base()) == (7, 3));
    assert!(rt; is_second_sum(plan.entry()));
    assert!(rt; is_second_sum(&plan.into_entry()));
    Ok(())
}

/// How many threads may work on a plan.
const THREADS: [usize; 5] = [0, 1, 2, 4, 16];

/// Whether the plan of a row is the same with any number of threads.
fn is_shared<R: Threads + Sync>(rt: &R, alloc: Global, row: &PlanOf) -> Result<bool, Fail> {
    let trees = streams(alloc)?;
    let sight = sight_of(&trees, row.0, row.1, row.2)?;
    for threads in THREADS {
        if !row.is(&plan_shared(rt, alloc, &sight, threads)?) {
            return Ok(false);
        }
    }
    Ok(true)
}

/// The number of the first row whose plan is another one with some number of threads.
fn first_not_shared<R: Threads + Sync>(rt: &R, alloc: Global) -> Result<Option<usize>, Fail> {
    for (number, row) in PLANNED.iter().enumerate() {
        if !is_shared(rt, alloc, row)? {
            return Ok(Some(number));
        }
    }
    Ok(None)
}

#[test]
fn plans_of_small_changes_are_the_same_with_threads(rt: HostRuntime) -> Result<(), Fail> {
    match first_not_shared(&rt, rt.alloc())? {
        None => Ok(()),
        Some(number) => Err(Fail::new(format_args!("row {number}"))),
    }
}

/// Two trees of a long stream: one with the points (10 * i, i) for i from 0 to 29,999, and one that has also (10 * i + 5, 1) for i from
/// 5,000 to 24,999.
fn long_stream(alloc: Global) -> Result<(Tree, Tree), Fail> {
    let early = Bag::from_points(points_from(alloc, 0, 10, 30_000, 0)?);
    let mut late = points_from(alloc, 50_005, 10, 20_000, 1)?;
    for point in late.iter_mut() {
        point.value = 1;
    }
    let none = Ranges::none(alloc);
    let (first, _) = after(alloc, &Tree::empty(), &none, &early, 1)?;
    let (second, _) = after(alloc, &first, &none, &Bag::from_points(late), 2)?;
    Ok((first, second))
}

/// Whether this is a sum of the first tree at 10 * i: of i - 1 and i, and of 0 alone if i is 0.
fn is_early_sum(point: &Point) -> bool {
    let i = point.time / 10;
    point.time % 10 == 0 && point.value == i.wrapping_mul(2).wrapping_sub(1).max(0)
}

/// Whether this is a sum of the second tree, after the first late point. At 10 * i it is that of i - 1, 1 and i; at 10 * i + 5 that of 1, i
/// and 1, and of i and 1 alone if it is at the first late point.
fn is_late_sum(point: &Point) -> bool {
    let i = point.time / 10;
    if point.time % 10 == 0 {
        point.value == i.wrapping_mul(2)
    } else {
        point.value == i.wrapping_add(if i == 5_000 { 1 } else { 2 })
    }
}

/// Whether the plan over the first tree has a sum for each point.
fn are_early_sums(plan: &Option<Plan>) -> bool {
    match plan {
        None => false,
        Some(plan) => {
            let added = plan.added().as_slice();
            have_bounds(plan.cut().as_slice(), &[(0, 300_001)])
                && added.len() == 30_000
                && added.iter().all(|point| is_early_sum(point))
        }
    }
}

/// Whether the plan over the second tree has a sum for each point from the first late one to 10 ns after the last.
fn are_late_sums(plan: &Option<Plan>) -> bool {
    match plan {
        None => false,
        Some(plan) => {
            let added = plan.added().as_slice();
            have_bounds(plan.cut().as_slice(), &[(50_005, 250_006)])
                && added.len() == 40_000
                && added.iter().all(|point| is_late_sum(point))
        }
    }
}

/// Whether two plans have the same cut and the same points.
fn are_same(plan: &Option<Plan>, other: &Option<Plan>) -> bool {
    match (plan, other) {
        (Some(plan), Some(other)) => {
            plan.cut().as_slice() == other.cut().as_slice()
                && plan.added().as_slice() == other.added().as_slice()
        }
        _ => false,
    }
}

/// Whether this is the plan of a sight with any number of threads.
fn is_plan_with_threads<R: Threads + Sync>(
    rt: &R,
    alloc: Global,
    sight: &Sight<'_>,
    wanted: &Option<Plan>,
) -> Result<bool, Fail> {
    for threads in THREADS {
        if !are_same(&plan_shared(rt, alloc, sight, threads)?, wanted) {
            return Ok(false);
        }
    }
    Ok(true)
}

/// A sight of the sums over a long stream from its beginning, and one over its late points.
fn long_sums<'a>(
    none: &'a Tree,
    first: &'a Tree,
    second: &'a Tree,
) -> Result<(Sight<'a>, Sight<'a>), Fail> {
    let versions = (
        reads_of((0, None)),
        reads_of((1, None)),
        reads_of((2, None)),
    );
    let early = sight_over(SUM, versions.0, versions.1, (none, first, None, None))?;
    let late = sight_over(SUM, versions.1, versions.2, (first, second, None, None))?;
    Ok((early, late))
}

#[test]
fn plans_of_many_points_are_the_same_with_threads(rt: HostRuntime) -> Result<(), Fail> {
    let alloc = rt.alloc();
    let (first, second) = long_stream(alloc)?;
    let none = Tree::empty();
    let (early, late) = long_sums(&none, &first, &second)?;
    let sums = plan(alloc, &early)?;
    assert!(rt; are_early_sums(&sums) && is_plan_with_threads(&rt, alloc, &early, &sums)?);
    let sums = plan(alloc, &late)?;
    assert!(rt; are_late_sums(&sums) && is_plan_with_threads(&rt, alloc, &late, &sums)?);
    Ok(())
}

/// Whether the plan of an output of two inputs has the same points with any number of threads, and how many.
fn held_with_threads<R: Threads + Sync>(rt: &R, alloc: Global) -> Result<(bool, usize), Fail> {
    let (first, second) = long_stream(alloc)?;
    let none = Tree::empty();
    let (old, new) = (reads_of((0, Some(0))), reads_of((2, Some(1))));
    let inputs = (&none, &second, Some(&none), Some(&first));
    let sight = sight_over(HOLD, old, new, inputs)?;
    let wanted = plan(alloc, &sight)?;
    let count = wanted
        .as_ref()
        .map_or(0, |plan| plan.added().as_slice().len());
    Ok((is_plan_with_threads(rt, alloc, &sight, &wanted)?, count))
}

/// The first input has 50,000 points, and the second one has a point at most 10 ns before each.
#[test]
fn plans_of_two_long_inputs_are_the_same_with_threads(rt: HostRuntime) -> Result<(), Fail> {
    assert!(rt; held_with_threads(&rt, rt.alloc())? == (true, 50_000));
    Ok(())
}
