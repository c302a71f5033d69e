//! New nodes of given points, built by several threads.
ghost use Rattle.std.specs.Prelude.{◌≡◌, ◌<◌, ◌≤◌, ◌+◌, ◌++◌, length, IfOk, IfErr};
ghost use Rattle.std.specs.Thread.{IsSync};
ghost use Rattle.btr_base.specs.Bag.{IsInOrder};
ghost use Rattle.btr_tree.specs.Change.{end_of};
ghost use Rattle.btr_tree.specs.Crowd.{IsCrowdedFault};
ghost use Rattle.btr_tree.specs.Slots.{linked, base_of, IsFilled};
ghost use Rattle.btr_tree.specs.Shared.{IsPartWork, IsBuiltPart, CountsAll, IsPartFault, AreJoined};
ghost use Rattle.btr_tree.specs.Shared.{CanBuildAll, CanBuildPart, CanBuildHalves, IsBuiltFor, IsPartFor, IsFrontFor, IsBackFor};
ghost use Rattle.btr_tree.specs.Shared.{IsFaultFor, IsFaultOfHalves};

use crate::aggregate::agg_of_child;
use crate::build::{build, push_inner};
use crate::commit::Numbering;
use crate::fault::TreeFault;
use crate::new_node::NewNode;
use crate::node::{Link, Slot};
use crate::node_count::count_slots;
use crate::slots::Slots;
use crate::steps::{Fork, Forked, Steps};
use crate::work::{Halves, PartWork, Work};
use btr_base::{FAN_OUT, Point, Span, parted};
use std::alloc::{AllocError, Global};
use std::marker::Sync;
use std::thread::{Threads, join};

/// The fewest points that are built by several threads.
pub(crate) const SHARED_POINTS: usize = 10_000;

/// The fewest points of a half that is built at once with the other.
const HALF_POINTS: usize = 5_000;

/// The root of a span, and the nodes built for it, children before parents.
#[derive(Drop)]
pub(crate) struct Built {
    pub(crate) root: Link,
    pub(crate) nodes: Vec<NewNode>,
}

/// Some slots of a span with their children, and the nodes built for them, children before parents.
#[derive(Drop)]
pub(crate) struct Part {
    slots: Slots,
    nodes: Vec<NewNode>,
}

/// Builds the subtree for the points of `work` by at most `threads` threads, the calling one among them. It counts each node with
/// the caller's counter.
pub(crate) fn build_counted<R: Threads + Sync, L>(
    rt: &R,
    alloc: Global,
    work: &Work<'_>,
    threads: usize,
    steps: &mut Steps<L>,
) -> Result<Built, TreeFault>
    requires { CanBuildAll work.now }
    ensures built { IfOk result (λ r. IsBuiltFor work.now (linked r.root) r.nodes.items) }
    ensures counted { IfOk result (λ r. CountsAll steps.old steps.new r.nodes.items) }
    ensures fault { IfErr result (λ e. IsCrowdedFault work.now.span.start (end_of work.now.span) work.now.points.now e) }
{
    let mut fork = Fork::new();
    let counter = &mut fork.steps;
    let built = build_shared(rt, alloc, work, threads, counter);
    steps.join(fork);
    built
}

/// Builds the subtree for the points of `work`, as [`build_counted`] says, with the counter of a fork.
#[cycle(shared)]
fn build_shared<R: Threads + Sync>(
    rt: &R,
    alloc: Global,
    work: &Work<'_>,
    threads: usize,
    steps: &mut Steps<Forked>,
) -> Result<Built, TreeFault>
    requires { CanBuildAll work.now }
    ensures built { IfOk result (λ r. IsBuiltFor work.now (linked r.root) r.nodes.items) }
    ensures counted { IfOk result (λ r. CountsAll steps.old steps.new r.nodes.items) }
    ensures fault { IfErr result (λ e. IsCrowdedFault work.now.span.start (end_of work.now.span) work.now.points.now e) }
{
    let span = work.span;
    if threads < 2 || work.points.len() < SHARED_POINTS || span.height == 0 {
        return build_alone(alloc, work, steps);
    }
    let all = PartWork {
        span,
        from: 0,
        to: FAN_OUT,
        points: work.points,
        numbering: work.numbering,
    };
    let part = build_part(rt, alloc, &all, threads, steps)?;
    let mut nodes = part.nodes;
    let root = push_inner(alloc, span, work.numbering, part.slots, &mut nodes, steps)?;
    Ok(Built { root, nodes })
}

/// Builds the subtree for the points of `work` by the calling thread.
fn build_alone(
    alloc: Global,
    work: &Work<'_>,
    steps: &mut Steps<Forked>,
) -> Result<Built, TreeFault>
    requires { CanBuildAll work.now }
    ensures built { IfOk result (λ r. IsBuiltFor work.now (linked r.root) r.nodes.items) }
    ensures counted { IfOk result (λ r. CountsAll steps.old steps.new r.nodes.items) }
    ensures fault { IfErr result (λ e. IsCrowdedFault work.now.span.start (end_of work.now.span) work.now.points.now e) }
{
    prove!(steps.count() <= u64::MAX);
    let mut nodes = Vec::new(alloc);
    let root = build(
        alloc,
        work.span,
        work.points,
        work.numbering,
        &mut nodes,
        steps,
    )?;
    Ok(Built { root, nodes })
}

/// Builds some slots of a span, and their children.
#[cycle(shared)]
fn build_part<R: Threads + Sync>(
    rt: &R,
    alloc: Global,
    work: &PartWork<'_>,
    threads: usize,
    steps: &mut Steps<Forked>,
) -> Result<Part, TreeFault>
    requires { CanBuildPart work.now }
    ensures part { IfOk result (λ r. IsPartFor work.now r.slots r.nodes.items) }
    ensures counted { IfOk result (λ r. CountsAll steps.old steps.new r.nodes.items) }
    ensures fault { IfErr result (λ e. IsFaultFor work.now e) }
{
    let span = work.span;
    let from = work.from;
    let to = work.to;
    if to - from == 1 {
        let all = Work {
            span,
            points: work.points,
            numbering: work.numbering,
        };
        return build_one(rt, alloc, &all, from, threads, steps);
    }
    let mid = middle(span, from, to, work.points);
    let (front, back) = parted(work.points, span.slot(mid).start);
    let halves = Halves {
        span,
        from,
        mid,
        to,
        front,
        back,
        numbering: work.numbering,
    };
    let (low, high) = build_two(rt, alloc, &halves, threads, steps)?;
    Ok(joined(mid, to, low, high)?)
}

/// Builds one slot of a span and its child. The points of `work` all lie in the slot.
#[cycle(shared)]
fn build_one<R: Threads + Sync>(
    rt: &R,
    alloc: Global,
    work: &Work<'_>,
    i: u8,
    threads: usize,
    steps: &mut Steps<Forked>,
) -> Result<Part, TreeFault>
    requires { IsPartWork work.now.span i (i + 1) work.now.points.now work.now.numbering.first }
    ensures part { IfOk result (λ r. IsBuiltPart work.now.span i (i + 1) work.now.numbering.version work.now.numbering.first
        work.now.points.now r.slots r.nodes.items) }
    ensures counted { IfOk result (λ r. CountsAll steps.old steps.new r.nodes.items) }
    ensures fault { IfErr result (λ e. IsPartFault work.now.span i (i + 1) work.now.points.now e) }
{
    let numbering = work.numbering;
    let version = numbering.version;
    let part = work.span.slot(i);
    let inside = Work {
        span: part,
        points: work.points,
        numbering,
    };
    let built = build_shared(rt, alloc, &inside, threads, steps)?;
    let slot = Slot {
        agg: agg_of_child(built.root.seen()),
        version,
        child: 0,
    };
    let mut slots = Slots::new(alloc, version, 1)?;
    slots.put(i, slot, built.root)?;
    Ok(Part {
        slots,
        nodes: built.nodes,
    })
}

/// Builds two parts: at once if each has points enough, or else one after the other, each with all threads.
#[cycle(shared)]
fn build_two<R: Threads + Sync>(
    rt: &R,
    alloc: Global,
    halves: &Halves<'_>,
    threads: usize,
    steps: &mut Steps<Forked>,
) -> Result<(Part, Part), TreeFault>
    requires { CanBuildHalves halves.now }
    ensures front { IfOk result (λ r. IsFrontFor halves.now r.0.slots r.0.nodes.items) }
    ensures back { IfOk result (λ r. IsBackFor halves.now (length r.0.nodes.items) r.1.slots r.1.nodes.items) }
    ensures counted { IfOk result (λ r. CountsAll steps.old steps.new (r.0.nodes.items ++ r.1.nodes.items)) }
    ensures fault { IfErr result (λ e. IsFaultOfHalves halves.now e) }
{
    // the proof reads here that the height is at most 10
    let span = halves.span;
    let _height = span.height;
    if threads >= 2 && halves.front.len() >= HALF_POINTS && halves.back.len() >= HALF_POINTS {
        return build_at_once(rt, alloc, halves, threads, steps);
    }
    let before = PartWork {
        span,
        from: halves.from,
        to: halves.mid,
        points: halves.front,
        numbering: halves.numbering,
    };
    let low = build_part(rt, alloc, &before, threads, steps)?;
    let after = PartWork {
        span,
        from: halves.mid,
        to: halves.to,
        points: halves.back,
        numbering: Numbering {
            version: halves.numbering.version,
            first: halves.numbering.first + low.nodes.len() as u64,
        },
    };
    let high = build_part(rt, alloc, &after, threads, steps)?;
    Ok((low, high))
}

/// Builds two parts at once. Each has threads by its share of the points.
#[cycle(shared)]
fn build_at_once<R: Threads + Sync>(
    rt: &R,
    alloc: Global,
    halves: &Halves<'_>,
    threads: usize,
    steps: &mut Steps<Forked>,
) -> Result<(Part, Part), TreeFault>
    requires halves { CanBuildHalves halves.now }
    requires many { (2 ≤ threads) × (252 < length halves.now.front.now) }
    ensures front { IfOk result (λ r. IsFrontFor halves.now r.0.slots r.0.nodes.items) }
    ensures back { IfOk result (λ r. IsBackFor halves.now (length r.0.nodes.items) r.1.slots r.1.nodes.items) }
    ensures counted { IfOk result (λ r. CountsAll steps.old steps.new (r.0.nodes.items ++ r.1.nodes.items)) }
    ensures fault { IfErr result (λ e. IsFaultOfHalves halves.now e) }
{
    let span = halves.span;
    let _height = span.height;
    let before = PartWork {
        span,
        from: halves.from,
        to: halves.mid,
        points: halves.front,
        numbering: halves.numbering,
    };
    let count = count_slots(before.span, before.from, before.to, before.points);
    let after = PartWork {
        span,
        from: halves.mid,
        to: halves.to,
        points: halves.back,
        numbering: Numbering {
            version: halves.numbering.version,
            first: halves.numbering.first + count,
        },
    };
    let mine = share_of(before.points.len(), after.points.len(), threads);
    let others = threads - mine;
    let build_front = || -> (Result<Part, TreeFault>, Fork)
        requires { IsSync R.row × CanBuildPart before }
        ensures part { IfOk result.0 (λ r. IsPartFor before.entry r.slots r.nodes.items) }
        ensures counted { IfOk result.0 (λ r. CountsAll 0 result.1.steps r.nodes.items) }
        ensures fault { IfErr result.0 (λ e. IsFaultFor before.entry e) }
    { build_forked(rt, alloc, &before, mine) };
    let build_back = || -> (Result<Part, TreeFault>, Fork)
        requires { IsSync R.row × CanBuildPart after }
        ensures part { IfOk result.0 (λ r. IsPartFor after.entry r.slots r.nodes.items) }
        ensures counted { IfOk result.0 (λ r. CountsAll 0 result.1.steps r.nodes.items) }
        ensures fault { IfErr result.0 (λ e. IsFaultFor after.entry e) }
    { build_forked(rt, alloc, &after, others) };
    let ((a, one), (b, other)) = join(rt, build_front, build_back);
    steps.join(one);
    steps.join(other);
    let low = a?;
    let high = b?;
    Ok((low, high))
}

/// Builds a part, as [`build_part`] does, with a fork of its own, which it returns after an error too.
#[cycle(shared)]
fn build_forked<R: Threads + Sync>(
    rt: &R,
    alloc: Global,
    work: &PartWork<'_>,
    threads: usize,
) -> (Result<Part, TreeFault>, Fork)
    requires { CanBuildPart work.now }
    ensures part { IfOk result.0 (λ r. IsPartFor work.now r.slots r.nodes.items) }
    ensures counted { IfOk result.0 (λ r. CountsAll 0 result.1.steps r.nodes.items) }
    ensures fault { IfErr result.0 (λ e. IsFaultFor work.now e) }
{
    let mut fork = Fork::new();
    let counter = &mut fork.steps;
    let part = build_part(rt, alloc, work, threads, counter);
    (part, fork)
}

/// Puts two parts together, of which the second begins where the first ends.
fn joined(mid: u8, to: u8, front: Part, back: Part) -> Result<Part, AllocError>
    requires place { (mid ≤ to) × (to ≤ 64) }
    requires filled { IsFilled mid front.slots }
    requires base { base_of front.slots ≡ base_of back.slots }
    ensures slots { IfOk result (λ r. AreJoined mid to front.slots back.slots r.slots) }
    ensures nodes { IfOk result (λ r. r.nodes.items ≡ front.nodes.items ++ back.nodes.items) }
{
    let mut slots = front.slots;
    for i in mid..to {
        slots.put_from(i, &back.slots)?;
    }
    let mut nodes = front.nodes;
    let mut rest = back.nodes;
    nodes.append(&mut rest)?;
    Ok(Part { slots, nodes })
}

/// The slot at whose start the slots of a span from one up to, and without, another are divided: the last one with at most half of
/// the points before it, or else the first.
fn middle(span: Span, from: u8, to: u8, points: &[Point]) -> u8
    requires height { 1 ≤ span.height }
    requires slots { from + 1 < to }
    requires place { to ≤ 64 }
    requires order { IsInOrder points.now }
    ensures { (from < result) × (result < to) }
{
    let mut mid = from + 1;
    for i in from + 1..to {
        let (before, _) = parted(points, span.slot(i).start);
        if before.len() <= points.len() / 2 {
            mid = i;
        }
    }
    mid
}

/// How many of the threads build the first of two parts: at least one, and not all.
fn share_of(front: usize, back: usize, threads: usize) -> usize
    requires { 2 ≤ threads }
    ensures { (1 ≤ result) × (result < threads) }
{
    let quota = front.saturating_add(back) / threads;
    if quota == 0 {
        return 1;
    }
    let share = front.saturating_add(quota / 2) / quota;
    share.clamp(1, threads - 1)
}
