//! Walks over fetched pages, against the same walks over trees in memory.

use super::shelf::{Commit, Question, Roots, Stream, Version, disk_of, held_of, stream_of};
use btr_base::{END, FIRST, Toward};
use btr_disk::MemDisk;
use btr_shelf::DiskNodes;
use btr_tree::Nodes;
use std::alloc::{AllocError, Global};
use std::test::Fail;
use std::thread::{Threads, join};

// ---- a stream of trees of every shape

/// The start of a slot of the root.
pub(crate) const FAR: i64 = 144115188075855872;

/// One 256th of the width of a slot of the root.
const STRIDE: i64 = 281474976710656;

const COMMITS: &[Commit] = &[
    // a full leaf; nodes of all heights for one point more; and nothing
    Commit(&[(0, 1, 252)], &[]),
    Commit(&[(252, 1, 1)], &[]),
    Commit(&[], &[]),
    // nodes of three heights in other slots of the root
    Commit(&[(FAR, STRIDE, 300)], &[]),
    // points twice, and a gap from within a bottom span to within a span far away
    Commit(&[(7, 0, 2), (8, 1, 4)], &[(101, FAR + 5 * STRIDE)]),
    // none, and then a leaf in each slot of the root
    Commit(&[], &[(FIRST, END)]),
    Commit(&[(FIRST, 18014398509481984, 256)], &[]),
    // a leaf of two points
    Commit(&[(END - 1, 0, 1)], &[(FIRST, 5), (6, END)]),
    Commit(&[(5, 0, 1)], &[]),
];

/// Times at the edges of spans, of cuts and of the domain.
const EDGES: [i64; 8] = [FIRST, 0, 6, 100, 256, FAR, FAR + 5 * STRIDE + 1, END];

/// The bounds of the ranges between edges.
fn bounds(alloc: Global) -> Result<Vec<(i64, i64)>, AllocError> {
    let mut all = Vec::new(alloc);
    for from in EDGES {
        for to in EDGES {
            if from < to {
                all.push((from, to))?;
            }
        }
    }
    Ok(all)
}

// ---- questions

/// One of the six calls.
#[derive(Clone, Copy)]
enum Call {
    Points,
    Nearest,
    Aggregate,
    Aligned,
    Windows,
    Changes,
}

const CALLS: [Call; 6] = [
    Call::Points,
    Call::Nearest,
    Call::Aggregate,
    Call::Aligned,
    Call::Windows,
    Call::Changes,
];

/// Appends what a call is asked at a range.
fn push_at(call: Call, from: i64, to: i64, all: &mut Vec<Question>) -> Result<(), AllocError> {
    match call {
        Call::Points => all.push(Question::Points(from, to))?,
        Call::Aggregate => all.push(Question::Aggregate(from, to))?,
        Call::Aligned => push_aligned(from, to, all)?,
        Call::Windows => push_windows(from, to, all)?,
        Call::Nearest | Call::Changes => {}
    }
    Ok(())
}

fn push_aligned(from: i64, to: i64, all: &mut Vec<Question>) -> Result<(), AllocError> {
    for p in [0, 10, 48, 56, 62] {
        all.push(Question::Aligned(from, to, p))?;
    }
    Ok(())
}

/// Appends windows of a few widths, and of those of which one, two or three fit into the range.
fn push_windows(from: i64, to: i64, all: &mut Vec<Question>) -> Result<(), AllocError> {
    let whole = to.abs_diff(from);
    for width in [1, 1000, whole / 3, whole / 2, whole] {
        all.push(Question::Windows(from, to, width))?;
    }
    Ok(())
}

/// Appends the points nearest to a time, and to those beside it.
fn push_nearest(time: i64, all: &mut Vec<Question>) -> Result<(), AllocError> {
    for near in [time.saturating_sub(1), time, time.saturating_add(1)] {
        all.push(Question::Nearest(near, Toward::Forward))?;
        all.push(Question::Nearest(near, Toward::Backward))?;
    }
    Ok(())
}

/// What a call is asked of each version.
fn questions_of(alloc: Global, call: Call) -> Result<Vec<Question>, AllocError> {
    let mut all = Vec::new(alloc);
    for (from, to) in &bounds(alloc)? {
        push_at(call, *from, *to, &mut all)?;
    }
    match call {
        Call::Nearest => {
            for time in EDGES {
                push_nearest(time, &mut all)?;
            }
        }
        Call::Changes => {
            for p in [0, 10, 48] {
                all.push(Question::Changes(p))?;
            }
        }
        _ => {}
    }
    Ok(all)
}

// ---- answers

/// How many questions were asked, how many had the same answer after the same steps by pages as by trees, and how many of those
/// answers were not empty.
#[derive(Clone, Copy, PartialEq)]
pub(crate) struct Tally {
    asked: u64,
    same: u64,
    full: u64,
}

impl Tally {
    pub(crate) fn new() -> Tally {
        Tally {
            asked: 0,
            same: 0,
            full: 0,
        }
    }

    /// Whether all answers were the same, and at least this many were not empty.
    pub(crate) fn agrees(&self, full: u64) -> bool {
        self.same == self.asked && self.full >= full
    }

    fn add(&mut self, is_same: bool, is_full: bool) {
        self.asked = self.asked.saturating_add(1);
        if is_same {
            self.same = self.same.saturating_add(1);
        }
        if is_same && is_full {
            self.full = self.full.saturating_add(1);
        }
    }
}

/// Asks a question of a version, and of an older one, by their trees and by pages.
pub(crate) fn ask<N: Nodes>(
    alloc: Global,
    nodes: &mut N,
    old: &Version,
    new: &Version,
    question: Question,
    tally: &mut Tally,
) -> Result<(), AllocError> {
    let by_trees = question.of_trees(alloc, old, new)?;
    let roots = Roots {
        old: old.root,
        new: new.root,
    };
    let is_same = match question.of_pages(alloc, nodes, roots) {
        Ok(by_pages) => by_pages == by_trees,
        Err(_) => false,
    };
    tally.add(is_same, !by_trees.answer.is_empty());
    Ok(())
}

/// Asks a question of a version. A question of changes is asked of it and each version before it.
fn ask_of_version<N: Nodes>(
    alloc: Global,
    nodes: &mut N,
    older: &[Version],
    new: &Version,
    question: Question,
    tally: &mut Tally,
) -> Result<(), AllocError> {
    if let Question::Changes(_) = question {
        for old in older {
            ask(alloc, nodes, old, new, question, tally)?;
        }
    }
    ask(alloc, nodes, new, new, question, tally)
}

/// Asks a question of each version.
fn ask_each<N: Nodes>(
    alloc: Global,
    nodes: &mut N,
    versions: &[Version],
    question: Question,
    tally: &mut Tally,
) -> Result<(), AllocError> {
    for (number, new) in versions.iter().enumerate() {
        ask_of_version(alloc, nodes, &versions[..number], new, question, tally)?;
    }
    Ok(())
}

/// Asks each question of each version.
fn ask_all<N: Nodes>(
    alloc: Global,
    nodes: &mut N,
    versions: &[Version],
    questions: &[Question],
) -> Result<Tally, AllocError> {
    let mut tally = Tally::new();
    for question in questions {
        ask_each(alloc, nodes, versions, *question, &mut tally)?;
    }
    Ok(tally)
}

/// Asks each question of each version by pages in memory.
fn ask_held(alloc: Global, stream: &Stream, questions: &[Question]) -> Result<Tally, AllocError> {
    let mut nodes = held_of(alloc, &stream.blocks)?;
    ask_all(alloc, &mut nodes, &stream.versions, questions)
}

/// A device of the blocks of a stream, with room for many reads.
fn device_of(alloc: Global, stream: &Stream) -> Result<MemDisk, Fail> {
    disk_of(alloc, &stream.blocks, 1048576, 0, &[])
}

/// Asks each question of each version by the pages of a device.
fn ask_disk(
    alloc: Global,
    stream: &Stream,
    disk: MemDisk,
    questions: &[Question],
) -> Result<Tally, AllocError> {
    let mut nodes = DiskNodes::new(disk);
    ask_all(alloc, &mut nodes, &stream.versions, questions)
}

/// Whether a call has the same answers, after the same steps, by trees, by pages in memory and by the pages of a device, and at least
/// this many of them are not empty.
fn agrees(alloc: Global, call: Call, full: u64) -> Result<bool, Fail> {
    let stream = stream_of(alloc, COMMITS)?;
    let questions = questions_of(alloc, call)?;
    let held = ask_held(alloc, &stream, &questions)?;
    let disk = ask_disk(alloc, &stream, device_of(alloc, &stream)?, &questions)?;
    Ok(held.agrees(full) && disk.agrees(full))
}

#[test]
fn ranges_by_pages_are_those_by_trees(rt: HostRuntime) -> Result<(), Fail> {
    assert!(rt; agrees(rt.alloc(), Call::Points, 100)?);
    Ok(())
}

#[test]
fn nearest_points_by_pages_are_those_by_trees(rt: HostRuntime) -> Result<(), Fail> {
    assert!(rt; agrees(rt.alloc(), Call::Nearest, 100)?);
    Ok(())
}

#[test]
fn aggregates_by_pages_are_those_by_trees(rt: HostRuntime) -> Result<(), Fail> {
    assert!(rt; agrees(rt.alloc(), Call::Aggregate, 100)?);
    Ok(())
}

#[test]
fn aligned_windows_by_pages_are_those_by_trees(rt: HostRuntime) -> Result<(), Fail> {
    assert!(rt; agrees(rt.alloc(), Call::Aligned, 100)?);
    Ok(())
}

#[test]
fn windows_by_pages_are_those_by_trees(rt: HostRuntime) -> Result<(), Fail> {
    assert!(rt; agrees(rt.alloc(), Call::Windows, 100)?);
    Ok(())
}

#[test]
fn changes_by_pages_are_those_by_trees(rt: HostRuntime) -> Result<(), Fail> {
    assert!(rt; agrees(rt.alloc(), Call::Changes, 100)?);
    Ok(())
}

// ---- two threads

/// What each version is asked by two threads: each third question of each call.
fn third_questions(alloc: Global) -> Result<Vec<Question>, AllocError> {
    let mut all = Vec::new(alloc);
    for call in CALLS {
        push_third(&questions_of(alloc, call)?, &mut all)?;
    }
    Ok(all)
}

/// Appends each third question of a list.
fn push_third(questions: &[Question], all: &mut Vec<Question>) -> Result<(), AllocError> {
    for question in questions.iter().step_by(3) {
        all.push(*question)?;
    }
    Ok(())
}

/// What two threads find that ask the same at once.
type InTwo = (Result<Tally, AllocError>, Result<Tally, AllocError>);

/// Asks each question of each version by two threads, each with a device of its own.
fn ask_in_two<R: Threads>(
    rt: &R,
    alloc: Global,
    stream: &Stream,
    disks: (MemDisk, MemDisk),
    questions: &[Question],
) -> InTwo {
    let (here, there) = disks;
    join(
        rt,
        move || ask_disk(alloc, stream, here, questions),
        move || ask_disk(alloc, stream, there, questions),
    )
}

#[test]
fn two_threads_ask_the_same(rt: HostRuntime) -> Result<(), Fail> {
    let stream = stream_of(rt.alloc(), COMMITS)?;
    let questions = third_questions(rt.alloc())?;
    let disks = (
        device_of(rt.alloc(), &stream)?,
        device_of(rt.alloc(), &stream)?,
    );
    let (here, there) = ask_in_two(&rt, rt.alloc(), &stream, disks, &questions);
    assert!(rt; here?.agrees(300));
    assert!(rt; there?.agrees(300));
    Ok(())
}
