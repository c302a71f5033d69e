//! Commits of one stream. After each, the tree is compared with the nodes that a plain program derives from the definitions.
//!
//! The plain program keeps the commits, and the points before each, as lists. It shares no code with the tree. Its functions
//! mirror the definitions in `specs/`: `is_inner`, `is_node`, `touches`, `node_version` and `slot_version` those of `Nodes`,
//! `slots_of`, `node_of` and `derive_nodes` those of `NewNodes`, `is_as_derived` `IsTree` of `Root`, and `summary_in` the
//! aggregate in btr_base's `Agg`.
ghost use Rattle.std.specs.Prelude.{◌≡◌, ◌-◌};

use super::fixture::{Counts, bag_of_runs};
use btr_base::{Bag, END, FIRST, Point, Range, Ranges, are_in_domain};
use btr_tree::{
    Applied, Child, NewNode, NewSlots, Node, Slot, Slots, Steps, Tree, TreeCommit, TreeFault, visit,
};
use std::alloc::{AllocError, Global};
use std::marker::Sync;
use std::test::Fail;
use std::thread;
use std::thread::Threads;

/// The greatest number of points of a leaf.
const MOST: usize = 252;

/// The whole domain.
const WHOLE: Part = Part {
    start: FIRST,
    height: 10,
    width: 4611686018427387904,
};

/// The start of a slot of the root.
const FAR: i64 = 1441151880758558720;

/// The start of the slot after it.
const NEXT: i64 = 1513209474796486656;

/// One 256th of the width of a slot of the root.
const STRIDE: i64 = 281474976710656;

/// The times of a span.
#[derive(Clone, Copy)]
struct Part {
    start: i64,
    height: u8,
    width: i64,
}

/// The aggregate of the points of a part.
#[derive(Clone, Copy, PartialEq)]
struct Summary {
    count: u64,
    sum: i128,
    ends: Option<(i64, i64)>,
}

/// A slot of an inner node.
#[derive(Clone, Copy, PartialEq)]
struct PlainSlot {
    summary: Summary,
    version: u64,
    child: u64,
}

/// A node with its span.
#[derive(Drop, PartialEq)]
pub(crate) struct PlainNode {
    start: i64,
    height: u8,
    version: u64,
    points: Vec<Point>,
    slots: Vec<PlainSlot>,
}

/// The tree of a version, with its points and all its nodes by the plain program.
#[derive(Drop)]
struct Version {
    tree: Tree,
    points: Bag,
    nodes: Vec<PlainNode>,
}

/// A commit, and the version that it found.
#[derive(Drop)]
struct Commit {
    version: u64,
    cut: Ranges,
    added: Bag,
    before: Version,
}

/// The `i`-th of the 64 slots of a part.
fn slot_of(part: Part, i: i64) -> Part
    ensures { result.height ≡ part.height - 1 }
{
    let width = part.width / 64;
    Part {
        start: part.start.wrapping_add(i.wrapping_mul(width)),
        height: part.height.saturating_sub(1),
        width,
    }
}

fn is_in(part: Part, time: i64) -> bool {
    part.start <= time && time.wrapping_sub(part.start) < part.width
}

/// The points of a part.
fn points_in(alloc: Global, points: &[Point], part: Part) -> Result<Vec<Point>, AllocError> {
    let mut inside = Vec::new(alloc);
    for point in points {
        if is_in(part, point.time) {
            inside.push(*point)?;
        }
    }
    Ok(inside)
}

/// How many points a part has.
fn count_in(points: &[Point], part: Part) -> usize {
    let mut count = 0_usize;
    for point in points {
        if is_in(part, point.time) {
            count = count.saturating_add(1);
        }
    }
    count
}

/// The aggregate of the points of a part.
fn summary_in(points: &[Point], part: Part) -> Summary {
    let mut summary = Summary {
        count: 0,
        sum: 0,
        ends: None,
    };
    for point in points {
        if is_in(part, point.time) {
            summary = with_value(summary, point.value);
        }
    }
    summary
}

/// An aggregate with one point more.
fn with_value(summary: Summary, value: i64) -> Summary {
    let ends = match summary.ends {
        Some((least, greatest)) => (least.min(value), greatest.max(value)),
        None => (value, value),
    };
    Summary {
        count: summary.count.saturating_add(1),
        sum: summary.sum.wrapping_add(i128::from(value)),
        ends: Some(ends),
    }
}

/// Whether a part has more points than a leaf.
fn is_inner(points: &[Point], part: Part) -> bool {
    count_in(points, part) > MOST
}

/// Whether a part is a node: it has a point, and it is the whole domain or the one above it is an inner node.
fn is_node(points: &[Point], above: Option<Part>, part: Part) -> bool {
    let is_part = match above {
        Some(above) => is_inner(points, above),
        None => true,
    };
    is_part && count_in(points, part) > 0
}

/// Whether a commit adds a point in a part, or its cut covers one that is there.
fn touches(commit: &Commit, part: Part) -> bool {
    let points = commit.before.points.as_slice();
    count_in(commit.added.as_slice(), part) > 0
        || points.iter().any(|point| is_in(part, point.time) && is_cut(&commit.cut, point.time))
}

fn is_cut(cut: &Ranges, time: i64) -> bool {
    cut.as_slice()
        .iter()
        .any(|range| range.from <= time && time < range.to)
}

/// The version of the newest commit that touches a part, or before which the part was no node.
fn node_version(commits: &[Commit], above: Option<Part>, part: Part) -> u64 {
    for commit in commits.iter().rev() {
        if touches(commit, part) || !is_node(commit.before.points.as_slice(), above, part) {
            return commit.version;
        }
    }
    0
}

/// The version of the newest commit that touches a part, or before which the one above it was no inner node.
fn slot_version(commits: &[Commit], above: Part, part: Part) -> u64 {
    for commit in commits.iter().rev() {
        if touches(commit, part) || !is_inner(commit.before.points.as_slice(), above) {
            return commit.version;
        }
    }
    0
}

/// The 64 slots of a part.
fn slots_of(
    alloc: Global,
    commits: &[Commit],
    points: &[Point],
    part: Part,
) -> Result<Vec<PlainSlot>, AllocError> {
    let mut slots = Vec::new(alloc);
    for i in 0..64 {
        let slot = slot_of(part, i);
        slots.push(PlainSlot {
            summary: summary_in(points, slot),
            version: slot_version(commits, part, slot),
            child: 0,
        })?;
    }
    Ok(slots)
}

/// The node of a part: its points if they are few, else its slots.
fn node_of(
    alloc: Global,
    commits: &[Commit],
    points: &[Point],
    above: Option<Part>,
    part: Part,
) -> Result<PlainNode, AllocError> {
    let version = node_version(commits, above, part);
    let (points, slots) = if is_inner(points, part) {
        (Vec::new(alloc), slots_of(alloc, commits, points, part)?)
    } else {
        (points_in(alloc, points, part)?, Vec::new(alloc))
    };
    Ok(PlainNode {
        start: part.start,
        height: part.height,
        version,
        points,
        slots,
    })
}

/// Appends the nodes of a part, children before parents and in order of time.
fn derive_nodes(
    alloc: Global,
    commits: &[Commit],
    points: &[Point],
    above: Option<Part>,
    part: Part,
    nodes: &mut Vec<PlainNode>,
) -> Result<(), AllocError> {
    if part.height > 0 && is_inner(points, part) {
        for i in 0..64 {
            derive_nodes(alloc, commits, points, Some(part), slot_of(part, i), nodes)?;
        }
    }
    if is_node(points, above, part) {
        nodes.push(node_of(alloc, commits, points, above, part)?)?;
    }
    Ok(())
}

fn plain_slot(slot: Slot) -> PlainSlot {
    let agg = &slot.agg;
    PlainSlot {
        summary: Summary {
            count: agg.count,
            sum: agg.sum,
            ends: agg.ends,
        },
        version: slot.version,
        child: slot.child,
    }
}

/// The slots of a node that was visited.
fn plain_slots(alloc: Global, slots: &Slots) -> Result<Vec<PlainSlot>, AllocError> {
    let mut all = Vec::new(alloc);
    for i in 0..64 {
        all.push(plain_slot(slots.slot(i)))?;
    }
    Ok(all)
}

/// The slots of a node that was written, without the blocks of their children. There is none after the last.
fn written_slots(alloc: Global, slots: &NewSlots) -> Result<Vec<PlainSlot>, AllocError> {
    let mut all = Vec::new(alloc);
    for i in 0..66 {
        if let Some(slot) = slots.get(i) {
            all.push(PlainSlot {
                child: 0,
                ..plain_slot(slot)
            })?;
        }
    }
    if all.len() != slots.len() {
        all.clear();
    }
    Ok(all)
}

fn plain_node(alloc: Global, node: &NewNode) -> Result<PlainNode, AllocError> {
    let span = &node.span;
    Ok(PlainNode {
        start: span.start,
        height: span.height,
        version: node.version,
        points: Vec::from_slice(alloc, node.points.as_slice())?,
        slots: written_slots(alloc, &node.slots)?,
    })
}

/// Whether the nodes that were written are those of a version, in their order.
fn are_those_of(
    alloc: Global,
    written: &[NewNode],
    nodes: &[PlainNode],
    version: u64,
) -> Result<bool, AllocError> {
    let mut i = 0_usize;
    for node in nodes {
        if node.version == version {
            let Some(next) = written.get(i) else {
                return Ok(false);
            };
            if plain_node(alloc, next)? != *node {
                return Ok(false);
            }
            i = i.saturating_add(1);
        }
    }
    Ok(i == written.len())
}

/// Appends the nodes of a link, children before parents and in order of time. It goes to each slot that both searches find.
fn walk(
    alloc: Global,
    child: Child<'_>,
    part: Part,
    nodes: &mut Vec<PlainNode>,
) -> Result<(), AllocError> {
    let mut steps = Steps::<Counts>::new();
    let Some(node) = visit(child, &mut steps) else {
        return Ok(());
    };
    let (version, points, slots) = match node {
        Node::Leaf { version, points } => (
            version,
            Vec::from_slice(alloc, points)?,
            Vec::new(alloc),
        ),
        Node::Inner { version, slots } => {
            for i in 0..64_u8 {
                let is_found = slots.next_occupied(i) == Some(i)
                    && slots.previous_occupied(i + 1) == Some(i);
                if is_found && part.height > 0 {
                    walk(alloc, slots.child(i), slot_of(part, i64::from(i)), nodes)?;
                }
            }
            (version, Vec::new(alloc), plain_slots(alloc, slots)?)
        }
    };
    nodes.push(PlainNode {
        start: part.start,
        height: part.height,
        version,
        points,
        slots,
    })?;
    Ok(())
}

/// All nodes of a tree, in the order of a walk.
pub(crate) fn nodes_in(alloc: Global, tree: &Tree) -> Result<Vec<PlainNode>, AllocError> {
    let mut nodes = Vec::new(alloc);
    walk(alloc, tree.link(), WHOLE, &mut nodes)?;
    Ok(nodes)
}

/// Whether a tree has the totals and the nodes that the plain program derives.
fn is_as_derived(alloc: Global, version: &Version) -> Result<bool, AllocError> {
    let tree = &version.tree;
    let points = version.points.as_slice();
    let agg = tree.root_agg();
    let total = Summary {
        count: agg.count,
        sum: agg.sum,
        ends: agg.ends,
    };
    let nodes = nodes_in(alloc, tree)?;
    Ok(
        tree.count() == points.len() as u64
            && total == summary_in(points, WHOLE)
            && nodes == version.nodes,
    )
}

fn cut_of(alloc: Global, bounds: &[(i64, i64)]) -> Result<Ranges, Fail> {
    let mut cut = Ranges::none(alloc);
    for (from, to) in bounds {
        cut.add(Range::new(*from, *to).ok_or("no range")?)?;
    }
    Ok(cut)
}

/// The tree after a commit, with the nodes that it wrote, each of which it counted as one step.
fn applied_to(
    alloc: Global,
    tree: &Tree,
    cut: &Ranges,
    added: &Bag,
    version: u64,
) -> Result<Result<Applied, TreeFault>, Fail> {
    if !are_in_domain(added.as_slice()) {
        return Err("a time outside the domain".into());
    }
    let commit = TreeCommit {
        cut,
        added,
        version,
        first: 4,
    };
    let mut steps = Steps::<Counts>::new();
    let applied = tree.apply(alloc, &commit, &mut steps);
    if let Ok(applied) = &applied {
        if steps.count() != applied.nodes.len() as u64 {
            return Err("another number of steps".into());
        }
    }
    Ok(applied)
}

/// The numbers of points and of written nodes after a commit, or the start of the crowded span.
type Outcome = Result<(u64, usize), i64>;

/// A commit of the table: its version, the points that it adds, the bounds of its cut, and its outcome, found by hand.
struct Case(
    u64,
    &'static [(i64, i64, i64)],
    &'static [(i64, i64)],
    Outcome,
);

fn outcome_of(applied: &Result<Applied, TreeFault>) -> Option<Outcome> {
    match applied {
        Ok(applied) => Some(Ok((applied.tree.count(), applied.nodes.len()))),
        Err(TreeFault::Crowded { start }) => Some(Err(*start)),
        Err(_) => None,
    }
}

/// The version after the last of the commits, or `None` if it wrote other nodes than those of its version.
fn next_version(
    alloc: Global,
    commits: &[Commit],
    applied: Applied,
) -> Result<Option<Version>, AllocError> {
    let Some(commit) = commits.last() else {
        return Ok(None);
    };
    let points = commit
        .before
        .points
        .outside(alloc, &commit.cut)?
        .merge(alloc, &commit.added)?;
    let mut nodes = Vec::new(alloc);
    derive_nodes(alloc, commits, points.as_slice(), None, WHOLE, &mut nodes)?;
    let Applied {
        tree,
        nodes: written,
    } = applied;
    if !are_those_of(alloc, &written, &nodes, commit.version)? {
        return Ok(None);
    }
    Ok(Some(Version {
        tree,
        points,
        nodes,
    }))
}

/// The commits of a stream, and its last version.
#[derive(Drop)]
struct Stream {
    commits: Vec<Commit>,
    last: Version,
}

/// The stream after one more commit, if it wrote the nodes of its version.
fn committed(
    alloc: Global,
    stream: Stream,
    version: u64,
    cut: Ranges,
    added: Bag,
    applied: Applied,
) -> Result<Stream, Fail> {
    let Stream { mut commits, last } = stream;
    commits.push(Commit {
        version,
        cut,
        added,
        before: last,
    })?;
    let last = next_version(alloc, &commits, applied)?.ok_or("other nodes")?;
    Ok(Stream { commits, last })
}

/// The stream after a commit of the table, if it has the outcome that was found by hand.
fn after(alloc: Global, stream: Stream, case: &Case) -> Result<Stream, Fail> {
    let added = bag_of_runs(alloc, case.1)?;
    let cut = cut_of(alloc, case.2)?;
    let applied = applied_to(alloc, &stream.last.tree, &cut, &added, case.0)?;
    if outcome_of(&applied) != Some(case.3) {
        return Err(Fail::new(format_args!("another outcome at version {}", case.0)));
    }
    match applied {
        Ok(applied) => committed(alloc, stream, case.0, cut, added, applied),
        Err(_) => Ok(stream),
    }
}

/// Whether all versions of a stream are as the plain program derives them.
fn are_as_derived(alloc: Global, stream: &Stream) -> Result<bool, AllocError> {
    for commit in &stream.commits {
        if !is_as_derived(alloc, &commit.before)? {
            return Ok(false);
        }
    }
    is_as_derived(alloc, &stream.last)
}

const CASES: &[Case] = &[
    // one point, a full leaf, and one point more, in another slot: an inner node with two leaves
    Case(1, &[(0, 0, 1)], &[], Ok((1, 1))),
    Case(2, &[(4, 4, 251)], &[], Ok((252, 1))),
    Case(3, &[(FIRST, 0, 1)], &[], Ok((253, 3))),
    // a cut that covers no point, and a commit of nothing
    Case(5, &[], &[(2000, 3000), (1, 4)], Ok((253, 0))),
    Case(6, &[], &[], Ok((253, 0))),
    // 252 points are left, in a leaf again
    Case(7, &[], &[(FIRST, -1)], Ok((252, 1))),
    // one crowded bottom span, and two
    Case(8, &[(1, 0, 252)], &[], Err(0)),
    Case(8, &[(1000, 0, 260), (-7, 0, 253)], &[], Err(-8)),
    // 253 points within 16 ns, up to the last time of the domain: nodes of all heights, and two bottom spans
    Case(
        8,
        &[(END - 16, 0, 128), (END - 1, 0, 125)],
        &[],
        Ok((505, 13)),
    ),
    // 25 more bottom spans, of which one goes again and two lose a point: their node of 256 ns stays an inner one
    Case(9, &[(END - 200, 1, 100)], &[], Ok((605, 35))),
    Case(
        10,
        &[],
        &[(END - 196, END - 192), (END - 189, END - 187)],
        Ok((599, 12)),
    ),
    // points cut and put again
    Case(11, &[(0, 0, 1), (4, 0, 1)], &[(0, 8)], Ok((599, 2))),
    // a point twice more: 254 in the slot, whose leaves are 256 ns wide; and 252 again
    Case(12, &[(0, 0, 1), (0, 0, 1)], &[], Ok((601, 13))),
    Case(13, &[], &[(1000, 1005)], Ok((599, 2))),
    // the first times of the domain
    Case(14, &[(FIRST, 1, 3)], &[], Ok((602, 2))),
    // three levels: 256 points in one slot of the root and 44 in the next; and then 10 and 41, in leaves
    Case(15, &[(FAR, STRIDE, 300)], &[], Ok((902, 67))),
    Case(
        16,
        &[],
        &[(FAR + 10 * STRIDE, NEXT + 3 * STRIDE)],
        Ok((653, 3)),
    ),
    // all cut; and once more, for 253 points within 256 ns
    Case(17, &[], &[(FIRST, END)], Ok((0, 0))),
    Case(18, &[(END - 1, 0, 1)], &[], Ok((1, 1))),
    Case(19, &[(0, 1, 253)], &[(FIRST, END)], Ok((253, 74))),
    // other values at the same times
    Case(20, &[(8, 1, 4)], &[(8, 12)], Ok((253, 11))),
    // nodes of all heights go for one leaf, beside a new one
    Case(21, &[(-1, 0, 1)], &[(0, 1)], Ok((253, 3))),
    // a bottom span that the cut makes room in, and then one point too many
    Case(22, &[(1, 0, 252)], &[(0, 4)], Ok((502, 74))),
    Case(23, &[(2, 0, 1)], &[], Err(0)),
    // the greatest version
    Case(u64::MAX, &[(2, 0, 1)], &[(1, 2)], Ok((251, 1))),
];

#[test]
fn commits_of_one_stream(rt: HostRuntime) -> Result<(), Fail> {
    let mut stream = Stream {
        commits: Vec::new(rt.alloc()),
        last: Version {
            tree: Tree::empty(),
            points: Bag::from_points(Vec::new(rt.alloc())),
            nodes: Vec::new(rt.alloc()),
        },
    };
    for case in CASES {
        stream = after(rt.alloc(), stream, case)?;
        assert!(rt; are_as_derived(rt.alloc(), &stream)?);
    }
    Ok(())
}

/// The blocks of the children of a node that was written, with the numbers of their slots.
fn blocks_in(alloc: Global, node: &NewNode) -> Result<Vec<(u8, u64)>, AllocError> {
    let mut blocks = Vec::new(alloc);
    for i in 0..64 {
        match node.slots.get(i) {
            Some(slot) if slot.child != 0 => blocks.push((i, slot.child))?,
            _ => {}
        }
    }
    Ok(blocks)
}

#[test]
fn blocks_of_new_nodes(rt: HostRuntime) -> Result<(), Fail> {
    let alloc = rt.alloc();
    let none = Ranges::none(alloc);
    // two leaves and their root, in blocks 4, 5 and 6; and then a leaf more and the root, in blocks 4 and 5 of a second count
    let first = bag_of_runs(alloc, &[(FIRST, 0, 1), (0, 4, 252)])?;
    let Ok(one) = applied_to(alloc, &Tree::empty(), &none, &first, 1)? else {
        return Err("no commit".into());
    };
    let second = bag_of_runs(alloc, &[(FIRST, 0, 1)])?;
    let Ok(two) = applied_to(alloc, &one.tree, &none, &second, 2)? else {
        return Err("no commit".into());
    };
    assert!(rt; one.nodes.len() == 3 && two.nodes.len() == 2);
    let reported = blocks_in(alloc, &one.nodes[2])?;
    assert!(rt; reported.as_slice() == [(0, 4), (16, 5)].as_slice());
    let reported = blocks_in(alloc, &two.nodes[1])?;
    assert!(rt; reported.as_slice() == [(0, 4), (16, 5)].as_slice());
    let reported = blocks_in(alloc, &two.nodes[0])?;
    assert!(rt; reported.is_empty());
    Ok(())
}

/// The tree of 253 points within one slot.
fn tall_tree(alloc: Global) -> Result<Tree, Fail> {
    let none = Ranges::none(alloc);
    let added = bag_of_runs(alloc, &[(0, 1, 253)])?;
    match applied_to(alloc, &Tree::empty(), &none, &added, 1)? {
        Ok(applied) => Ok(applied.tree),
        Err(_) => Err("no commit".into()),
    }
}

#[test]
fn one_tree_in_two_threads(rt: HostRuntime) -> Result<(), Fail> {
    let alloc = rt.alloc();
    let one = tall_tree(alloc)?;
    let other = one.share()?;
    let (here, there) = thread::join(
        &rt,
        || (one.count(), nodes_in(alloc, &one)),
        move || (other.count(), nodes_in(alloc, &other)),
    );
    assert!(rt; (here.0, there.0) == (253, 253));
    let nodes = here.1?;
    assert!(rt; nodes.len() == 74);
    assert!(rt; nodes == there.1?);
    Ok(())
}

/// Whether two commits wrote the same nodes, for the same blocks, and have the same tree.
fn are_alike(alloc: Global, one: &Applied, other: &Applied) -> Result<bool, AllocError> {
    if one.nodes.len() != other.nodes.len() {
        return Ok(false);
    }
    for (mine, theirs) in one.nodes.iter().zip(&other.nodes) {
        let are_same = plain_node(alloc, mine)? == plain_node(alloc, theirs)?
            && blocks_in(alloc, mine)? == blocks_in(alloc, theirs)?;
        if !are_same {
            return Ok(false);
        }
    }
    Ok(
        one.tree.count() == other.tree.count()
            && nodes_in(alloc, &one.tree)? == nodes_in(alloc, &other.tree)?,
    )
}

/// Whether a first commit of these points writes the same nodes with any number of threads, each of which it counts as one step.
fn is_shared_alike<R: Threads + Sync>(rt: &R, alloc: Global, added: &Bag) -> Result<bool, Fail> {
    let none = Ranges::none(alloc);
    let Ok(alone) = applied_to(alloc, &Tree::empty(), &none, added, 3)? else {
        return Err("no commit".into());
    };
    for threads in [1, 2, 4, 7] {
        if !are_in_domain(added.as_slice()) {
            return Err("a time outside the domain".into());
        }
        let mut steps = Steps::<Counts>::new();
        let empty = Tree::empty();
        let commit = TreeCommit {
            cut: &none,
            added,
            version: 3,
            first: 4,
        };
        let shared = empty.apply_shared(rt, alloc, &commit, threads, &mut steps);
        let Ok(shared) = shared else {
            return Err("no commit by threads".into());
        };
        let is_counted = steps.count() == shared.nodes.len() as u64;
        if !is_counted || !are_alike(alloc, &alone, &shared)? {
            return Ok(false);
        }
    }
    Ok(true)
}

#[test]
fn equal_steps_by_any_number_of_threads(rt: HostRuntime) -> Result<(), Fail> {
    let alloc = rt.alloc();
    let added = bag_of_runs(alloc, &[(0, 1000, 40000)])?;
    assert!(rt; is_shared_alike(&rt, alloc, &added)?);
    Ok(())
}

#[test]
fn two_far_clusters_by_any_number_of_threads(rt: HostRuntime) -> Result<(), Fail> {
    let alloc = rt.alloc();
    let added = bag_of_runs(alloc, &[(FIRST, 4, 12000), (FAR, 1000, 15000)])?;
    assert!(rt; is_shared_alike(&rt, alloc, &added)?);
    Ok(())
}
