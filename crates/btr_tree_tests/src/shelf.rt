//! Versions of a stream whose nodes are in blocks, and what is asked of them: by their trees, and by pages that are fetched.

use super::fixture::{Counts, Pairs, Runs, applied, bag_of_runs, ranges_of};
use super::pages_tests::block_of;
use btr_base::{Agg, Cell, END, FIRST, Point, Range, Toward};
use btr_diff::{changes, changes_from};
use btr_disk::{Capacity, MemDisk};
use btr_node::{PAGE, decode};
use btr_scan::{nearest, nearest_from, range, range_from};
use btr_shelf::HeldNodes;
use btr_tree::{NodeFault, Nodes, Root, Steps, Tree};
use btr_window::{aggregate, aggregate_from, aligned, aligned_from, windows, windows_from};
use std::alloc::{AllocError, Global};
use std::test::Fail;

/// The stream of the pages.
pub(crate) const STREAM: u32 = 258;

/// A block.
pub(crate) type Block = [u8; PAGE];

/// A version of a stream: its tree, and its root in the blocks.
#[derive(Drop)]
pub(crate) struct Version {
    pub(crate) tree: Tree,
    pub(crate) root: Root,
}

/// The versions of a stream, from the empty one on, and the blocks that their nodes are in, from block 4 on.
#[derive(Drop)]
pub(crate) struct Stream {
    pub(crate) versions: Vec<Version>,
    pub(crate) blocks: Vec<Block>,
}

/// A commit: the runs of points that it adds, and the bounds of its cut.
pub(crate) struct Commit(pub(crate) Runs, pub(crate) Pairs);

/// The version of this number with this tree.
fn version_of(tree: Tree, version: u64) -> Version {
    let root = Root {
        block: tree.root(),
        stream: STREAM,
        version,
    };
    Version { tree, root }
}

impl Stream {
    /// The stream of no commit, in four blocks without a page.
    fn empty(alloc: Global) -> Result<Stream, AllocError> {
        let mut versions = Vec::new(alloc);
        versions.push(version_of(Tree::empty(), 0))?;
        let mut blocks = Vec::new(alloc);
        for _ in 0..4 {
            blocks.push([0; PAGE])?;
        }
        Ok(Stream { versions, blocks })
    }

    /// Adds a version, and the blocks of the nodes that its commit wrote.
    fn add(&mut self, alloc: Global, commit: &Commit) -> Result<(), Fail> {
        let added = bag_of_runs(alloc, commit.0)?;
        let cut = ranges_of(alloc, commit.1)?;
        let number = self.versions.len() as u64;
        let last = self.versions.last().ok_or("no version")?;
        let first = self.blocks.len() as u64;
        let applied = applied(alloc, &last.tree, &cut, &added, number, first)?;
        for node in &applied.nodes {
            self.blocks.push(block_of(node, STREAM))?;
        }
        self.versions.push(version_of(applied.tree, number))?;
        Ok(())
    }
}

/// The stream after these commits.
pub(crate) fn stream_of(alloc: Global, commits: &[Commit]) -> Result<Stream, Fail> {
    let mut stream = Stream::empty(alloc)?;
    for commit in commits {
        stream.add(alloc, commit)?;
    }
    Ok(stream)
}

/// 253 points from 0 on in blocks 4 to 77, of which 4 to 67 are bottom spans and 77 is the root. Then the points from 8 to 11 again,
/// in blocks 78 to 88, of which 78 is the bottom span and 88 is the root.
pub(crate) const TALL: &[Commit] = &[
    Commit(&[(0, 1, 253)], &[]),
    Commit(&[(8, 1, 4)], &[(8, 12)]),
];

/// The pages of blocks, in memory.
pub(crate) fn held_of(alloc: Global, blocks: &[Block]) -> Result<HeldNodes, AllocError> {
    let mut nodes = HeldNodes::new(alloc);
    for (number, block) in blocks.iter().enumerate() {
        if let Some(page) = decode(block) {
            nodes.put(number as u64, page)?;
        }
    }
    Ok(nodes)
}

/// The bytes of blocks.
pub(crate) fn bytes_of(alloc: Global, blocks: &[Block]) -> Result<Vec<u8>, AllocError> {
    let mut bytes = Vec::new(alloc);
    for block in blocks {
        bytes.extend_from_slice(block)?;
    }
    Ok(bytes)
}

/// A device of blocks, with room for this number of calls and of written blocks. The calls in the list fail.
pub(crate) fn disk_of(
    alloc: Global,
    blocks: &[Block],
    calls: usize,
    writes: usize,
    failing: &[u64],
) -> Result<MemDisk, Fail> {
    let bytes = bytes_of(alloc, blocks)?;
    if bytes.len() % PAGE != 0 || writes > 4096 {
        return Err("no device".into());
    }
    let capacity = Capacity {
        calls,
        blocks: writes,
    };
    let failing = Vec::from_slice(alloc, failing)?;
    Ok(MemDisk::from_bytes(alloc, bytes, capacity, failing)?)
}

/// The roots of two versions, of which the older one is for a comparison.
#[derive(Clone, Copy)]
pub(crate) struct Roots {
    pub(crate) old: Root,
    pub(crate) new: Root,
}

/// The roots of two versions of a stream.
pub(crate) fn roots_of(stream: &Stream, old: usize, new: usize) -> Option<Roots> {
    Some(Roots {
        old: stream.versions.get(old)?.root,
        new: stream.versions.get(new)?.root,
    })
}

/// What is asked of a version. A range is asked as its bounds.
#[derive(Clone, Copy)]
pub(crate) enum Question {
    /// The points of a range.
    Points(i64, i64),

    /// The point nearest to a time.
    Nearest(i64, Toward),

    /// The aggregate of a range.
    Aggregate(i64, i64),

    /// The windows of `2^p` ns that meet a range.
    Aligned(i64, i64, u8),

    /// The windows of a width in a range.
    Windows(i64, i64, u64),

    /// The slots of `2^p` ns that changed since an older version.
    Changes(u8),
}

/// The range of bounds, or the whole domain if they are those of no range.
fn range_of(from: i64, to: i64) -> Range {
    match Range::new(from, to) {
        Some(range) => range,
        None => Range {
            from: FIRST,
            to: END,
        },
    }
}

/// What is answered.
#[derive(Drop, PartialEq)]
pub(crate) enum Answer {
    Points(Vec<Point>),
    Nearest(Option<Point>),
    Aggregate(Agg),
    Windows(Vec<Cell>),
    Changes(Vec<Range>),
}

impl Answer {
    /// Whether it has no point, no window and no change.
    pub(crate) fn is_empty(&self) -> bool {
        match self {
            Answer::Points(points) => points.is_empty(),
            Answer::Nearest(point) => point.is_none(),
            Answer::Aggregate(agg) => agg.count == 0,
            Answer::Windows(cells) => cells.is_empty(),
            Answer::Changes(ranges) => ranges.is_empty(),
        }
    }
}

/// An answer, and the steps that were counted for it.
#[derive(Drop, PartialEq)]
pub(crate) struct Answered {
    pub(crate) answer: Answer,
    pub(crate) steps: u64,
}

impl Question {
    /// The answer by the trees of two versions.
    pub(crate) fn of_trees(
        self,
        alloc: Global,
        old: &Version,
        new: &Version,
    ) -> Result<Answered, AllocError> {
        let tree = &new.tree;
        let mut steps = Steps::<Counts>::new();
        let answer = match self {
            Question::Points(from, to) => {
                Answer::Points(range(alloc, tree, range_of(from, to))?)
            }
            Question::Nearest(time, toward) => {
                Answer::Nearest(nearest(tree, time, toward, &mut steps))
            }
            Question::Aggregate(from, to) => {
                Answer::Aggregate(aggregate(tree, range_of(from, to), &mut steps))
            }
            Question::Aligned(from, to, p) => {
                Answer::Windows(aligned(alloc, tree, range_of(from, to), p.min(62))?)
            }
            Question::Windows(from, to, width) => {
                let width = width.clamp(1, 4611686018427387904);
                Answer::Windows(windows(alloc, tree, range_of(from, to), width)?)
            }
            Question::Changes(p) => {
                let since = old.root.version;
                let old = old.tree.uncounted::<Counts>();
                let changed = changes(alloc, old, tree, since, p.min(62), &mut steps)?;
                Answer::Changes(Vec::from_slice(alloc, changed.as_slice())?)
            }
        };
        Ok(Answered {
            answer,
            steps: steps.count(),
        })
    }

    /// The answer by fetched pages.
    pub(crate) fn of_pages<N: Nodes>(
        self,
        alloc: Global,
        nodes: &mut N,
        roots: Roots,
    ) -> Result<Answered, NodeFault> {
        let root = roots.new;
        let mut steps = Steps::<Counts>::new();
        let answer = match self {
            Question::Points(from, to) => {
                Answer::Points(range_from(alloc, nodes, root, range_of(from, to))?)
            }
            Question::Nearest(time, toward) => {
                Answer::Nearest(nearest_from(nodes, root, time, toward, &mut steps)?)
            }
            Question::Aggregate(from, to) => {
                Answer::Aggregate(aggregate_from(nodes, root, range_of(from, to), &mut steps)?)
            }
            Question::Aligned(from, to, p) => {
                let range = range_of(from, to);
                Answer::Windows(aligned_from(alloc, nodes, root, range, p.min(62))?)
            }
            Question::Windows(from, to, width) => {
                let range = range_of(from, to);
                let width = width.clamp(1, 4611686018427387904);
                Answer::Windows(windows_from(alloc, nodes, root, range, width)?)
            }
            Question::Changes(p) => {
                Answer::Changes(changed_runs(alloc, nodes, roots, p, &mut steps)?)
            }
        };
        Ok(Answered {
            answer,
            steps: steps.count(),
        })
    }
}

/// The changed slots between two roots, as a list.
fn changed_runs<N: Nodes>(
    alloc: Global,
    nodes: &mut N,
    roots: Roots,
    p: u8,
    steps: &mut Steps<Counts>,
) -> Result<Vec<Range>, NodeFault> {
    let Roots { old, new } = roots;
    let changed = changes_from::<N, Counts, Counts>(alloc, nodes, old, new, p.min(62), steps)?;
    match Vec::from_slice(alloc, changed.as_slice()) {
        Ok(runs) => Ok(runs),
        Err(_) => Err(NodeFault::Want),
    }
}
