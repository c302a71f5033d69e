//! Pages of what commits wrote, read back in the order of their blocks, and pages that do not fit the pages before them.
ghost use Rattle.std.specs.Prelude.{◌<◌, ◌≤◌, ℕ, IsSome};
ghost use Rattle.btr_pages.specs.Known.{node_at};

use super::fixture::{Counts, Pairs, Row, Runs, all_hold, applied, bag_of, bag_of_runs, ranges_of};
use super::tree_tests::nodes_in;
use btr_base::{Agg, END, FIRST, LEAF_POINTS, MAX_POINTS, Point, Range, Ranges};
use btr_node::{NodePage, PAGE, PageSlot, decode, spell};
use btr_pages::{Trees, fill_page};
use btr_scan::range;
use btr_tree::{NewNode, Steps, Tree};
use std::alloc::Global;
use std::test::Fail;

/// The stream of the pages.
const STREAM: u32 = 258;

/// The trees of pages that are read in the order of their blocks, and the block of the next page.
#[derive(Drop)]
struct Reader {
    nodes: Trees,
    next: u64,
    ghost begun: { 1 ≤ next },
    ghost below: { (k : ℕ) → IsSome (node_at nodes k) → k < next },
}

impl Reader {
    /// No trees, and the first page in block 4.
    fn new(alloc: Global) -> Reader {
        Reader {
            nodes: Trees::new(alloc),
            next: 4,
        }
    }

    /// Leaves the next block without a page.
    fn skip(&mut self) -> Result<(), Fail> {
        self.next = self.next.checked_add(1).ok_or("no block")?;
        Ok(())
    }

    /// Writes a page into the next block, and reads it. Returns whether its tree was made.
    fn read(&mut self, alloc: Global, page: &NodePage) -> Result<bool, Fail> {
        let mut bytes = [0; PAGE];
        spell(page, &mut bytes);
        let Some(found) = decode(&bytes) else {
            return Err("a damaged block".into());
        };
        if found != *page {
            return Err("another page".into());
        }
        let block = self.next;
        self.next = block.checked_add(1).ok_or("no block")?;
        let mut steps = Steps::<Counts>::new();
        let is_made = self.nodes.add(alloc, block, &found, &mut steps)?;
        if self.nodes.get(block).is_some() != is_made {
            return Err("a tree that was made and is not found, or the other way round".into());
        }
        Ok(is_made)
    }
}

// ---- what commits wrote

/// The block that is filled with the page of a node of a stream.
pub(crate) fn block_of(node: &NewNode, stream: u32) -> [u8; PAGE] {
    let mut block = [7; PAGE];
    fill_page(&mut block, node, stream);
    block
}

/// The page of a node of a stream, read from the block that is filled with it. If that is no page, it is one that keeps no table.
fn page_of(node: &NewNode, stream: u32) -> NodePage {
    match decode(&block_of(node, stream)) {
        Some(page) => page,
        None => NodePage::Leaf {
            start: 0,
            height: 0,
            stream: 0,
            version: 0,
            count: 0,
            points: [Point { time: 0, value: 0 }; LEAF_POINTS],
        },
    }
}

/// A commit: the runs of points that it adds, the bounds of its cut, and the numbers of points after it and of nodes that it
/// wrote, found by hand.
struct Commit(Runs, Pairs, u64, usize);

/// The commits of a stream.
struct Stream(u32, &'static [Commit]);

impl Row for Stream {
    fn holds(&self, alloc: Global) -> Result<bool, Fail> {
        let mut reader = Reader::new(alloc);
        let mut tree = Tree::empty();
        for (i, commit) in self.1.iter().enumerate() {
            let version = (i as u64).saturating_add(1);
            tree = next_tree(alloc, &mut reader, &tree, self.0, commit, version)?;
            if !is_read_back(alloc, &reader.nodes, &tree, self.0)? {
                return Ok(false);
            }
        }
        Ok(true)
    }
}

/// The tree after a commit whose nodes were written and read back.
fn next_tree(
    alloc: Global,
    reader: &mut Reader,
    tree: &Tree,
    stream: u32,
    commit: &Commit,
    version: u64,
) -> Result<Tree, Fail> {
    let added = bag_of_runs(alloc, commit.0)?;
    let cut = ranges_of(alloc, commit.1)?;
    let applied = applied(alloc, tree, &cut, &added, version, reader.next)?;
    let tree = applied.tree;
    if (tree.count(), applied.nodes.len()) != (commit.2, commit.3) {
        return Err("another number of points or nodes".into());
    }
    if !are_read(alloc, reader, &applied.nodes, stream)? {
        return Err("a page that was refused".into());
    }
    Ok(tree)
}

/// Whether the trees of the pages of all nodes are made.
fn are_read(
    alloc: Global,
    reader: &mut Reader,
    nodes: &[NewNode],
    stream: u32,
) -> Result<bool, Fail> {
    for node in nodes {
        if !reader.read(alloc, &page_of(node, stream))? {
            return Ok(false);
        }
    }
    Ok(true)
}

/// Whether the tree of the page in the root's block is the tree in memory. If there is no point, there is no such page.
fn is_read_back(alloc: Global, nodes: &Trees, tree: &Tree, stream: u32) -> Result<bool, Fail> {
    let Some(known) = nodes.get(tree.root()) else {
        return Ok(tree.root() == 0 && tree.count() == 0);
    };
    let is_here = known.block() == tree.root() && known.stream() == stream;
    Ok(is_here && are_same(alloc, known.tree(), tree)?)
}

/// Whether two trees have the same root, totals and points, and the same nodes.
fn are_same(alloc: Global, one: &Tree, other: &Tree) -> Result<bool, Fail> {
    let all = Range::new(FIRST, END).ok_or("no range")?;
    Ok(
        one.root() == other.root()
            && one.version() == other.version()
            && one.count() == other.count()
            && one.root_agg() == other.root_agg()
            && range(alloc, one, all)? == range(alloc, other, all)?
            && nodes_in(alloc, one)? == nodes_in(alloc, other)?,
    )
}

/// A point in the first slot of the root, and a full leaf in the 17th.
const TWO: Runs = &[(FIRST, 0, 1), (0, 4, 252)];

/// 253 points within 256 ns: nodes of all heights, of which the bottom spans are 64.
const TALL: Runs = &[(0, 1, 253)];

const STREAMS: &[Stream] = &[
    Stream(
        0,
        &[
            // two leaves and their root; one more point in the first slot; and then 250 points, in a leaf
            Commit(TWO, &[], 253, 3),
            Commit(&[(FIRST, 0, 1)], &[], 254, 2),
            Commit(&[], &[(0, 16)], 250, 1),
        ],
    ),
    Stream(
        u32::MAX,
        &[
            Commit(&[(END - 1, 0, 1)], &[], 1, 1),
            // a commit of nothing
            Commit(&[], &[], 1, 0),
            Commit(TALL, &[(FIRST, END)], 253, 74),
            // one bottom span changes
            Commit(&[(8, 1, 4)], &[(8, 12)], 253, 11),
            // nodes of all heights go for one leaf, beside a new one
            Commit(&[(-1, 0, 1)], &[(0, 1)], 253, 3),
            // all cut, and a leaf again
            Commit(&[], &[(FIRST, END)], 0, 0),
            Commit(&[(7, 0, 252)], &[], 252, 1),
        ],
    ),
];

#[test]
fn commits_are_read_back(rt: HostRuntime) -> Result<(), Fail> {
    all_hold(rt.alloc(), STREAMS)
}

// ---- pages that do not fit the pages before them

/// What is changed of a page.
#[derive(Clone, Copy)]
pub(crate) enum Change {
    /// The version is one more.
    Version,

    /// The stream is the next one.
    Stream,

    /// The height is one less.
    Height,

    /// The last point of a leaf is left out, or the first slot of an inner node has one point more.
    Count,

    /// The first two slots have changed places.
    Moved,

    /// The child of the first slot is in this block.
    Child(u64),

    /// The block has no page.
    Gone,
}

/// A page after a change, or `None` for no page.
pub(crate) fn changed(page: &NodePage, change: Change) -> Option<NodePage> {
    let mut page = *page;
    match change {
        Change::Version => match &mut page {
            NodePage::Leaf { version, .. } | NodePage::Inner { version, .. } => {
                *version = version.wrapping_add(1);
            }
        },
        Change::Stream => match &mut page {
            NodePage::Leaf { stream, .. } | NodePage::Inner { stream, .. } => {
                *stream = stream.wrapping_add(1);
            }
        },
        Change::Height => match &mut page {
            NodePage::Leaf { height, .. } | NodePage::Inner { height, .. } => {
                *height = height.wrapping_sub(1);
            }
        },
        Change::Count => {
            drop_last(&mut page);
            add_one(&mut page);
        }
        Change::Moved => {
            if let NodePage::Inner { slots, .. } = &mut page {
                slots.swap(0, 1);
            }
        }
        Change::Child(block) => {
            if let NodePage::Inner { slots, .. } = &mut page {
                slots[0].child = block;
            }
        }
        Change::Gone => return None,
    }
    Some(page)
}

/// Takes the last point of a leaf out of its page.
fn drop_last(page: &mut NodePage) {
    let mut last = LEAF_POINTS;
    if let NodePage::Leaf { count, .. } = page {
        *count = count.wrapping_sub(1);
        last = *count as usize;
    }
    if let NodePage::Leaf { points, .. } = page {
        if let Some(place) = points.get_mut(last) {
            *place = Point { time: 0, value: 0 };
        }
    }
}

/// Adds a point to the first slot of an inner node's page, which has one.
fn add_one(page: &mut NodePage) {
    if let NodePage::Inner { slots, .. } = page {
        let agg = slots[0].agg;
        let Some((least, _)) = agg.ends else {
            return;
        };
        if agg.count >= MAX_POINTS {
            return;
        }
        slots[0].agg = agg.join(&Agg::of(least));
    }
    if let NodePage::Inner { count, .. } = page {
        *count = count.wrapping_add(1);
    }
}

/// The runs of points of a commit, the number of one of the pages that it wrote, what is changed of that page, and the number of
/// the page that is then refused. The pages before are taken, and page 0 is in block 4. If the refused page is the changed one, the
/// page as it was is taken in the next block.
struct Wrong(Runs, usize, Change, usize);

impl Row for Wrong {
    fn holds(&self, alloc: Global) -> Result<bool, Fail> {
        let mut reader = Reader::new(alloc);
        for (number, node) in written(alloc, self.0)?.iter().enumerate() {
            let page = page_of(node, STREAM);
            let is_taken = self.is_taken(alloc, &mut reader, number, &page)?;
            if number == self.3 {
                return Ok(!is_taken && (number != self.1 || reader.read(alloc, &page)?));
            }
            if !is_taken {
                return Ok(false);
            }
        }
        Ok(false)
    }
}

impl Wrong {
    /// Whether a page, or what it was changed into, is taken in the next block.
    fn is_taken(
        &self,
        alloc: Global,
        reader: &mut Reader,
        number: usize,
        page: &NodePage,
    ) -> Result<bool, Fail> {
        if number != self.1 {
            return reader.read(alloc, page);
        }
        match changed(page, self.2) {
            Some(page) => reader.read(alloc, &page),
            None => {
                reader.skip()?;
                Ok(true)
            }
        }
    }
}

/// The nodes that the first commit of a stream writes, for the blocks from 4 on.
fn written(alloc: Global, runs: Runs) -> Result<Vec<NewNode>, Fail> {
    let added = bag_of_runs(alloc, runs)?;
    let none = Ranges::none(alloc);
    let applied = applied(alloc, &Tree::empty(), &none, &added, 1, 4)?;
    Ok(applied.nodes)
}

const WRONG: &[Wrong] = &[
    // a child of another version, count, stream or span
    Wrong(TWO, 0, Change::Version, 2),
    Wrong(TWO, 1, Change::Version, 2),
    Wrong(TWO, 1, Change::Count, 2),
    Wrong(TWO, 0, Change::Stream, 2),
    Wrong(TWO, 2, Change::Stream, 2),
    Wrong(TWO, 0, Change::Height, 2),
    Wrong(TWO, 2, Change::Moved, 2),
    // the child of another slot
    Wrong(TWO, 2, Change::Child(5), 2),
    // a block before the first page, blocks whose page was lost, the page's own block, and blocks to come
    Wrong(TWO, 2, Change::Child(3), 2),
    Wrong(TWO, 0, Change::Gone, 2),
    Wrong(TWO, 1, Change::Gone, 2),
    Wrong(TWO, 2, Change::Child(6), 2),
    Wrong(TWO, 2, Change::Child(7), 2),
    Wrong(TWO, 2, Change::Child(u64::MAX), 2),
    // a bottom span among 64, and its node
    Wrong(TALL, 0, Change::Version, 64),
    Wrong(TALL, 63, Change::Stream, 64),
    Wrong(TALL, 10, Change::Gone, 64),
    Wrong(TALL, 64, Change::Stream, 64),
    Wrong(TALL, 64, Change::Moved, 64),
    Wrong(TALL, 64, Change::Child(68), 64),
    // an inner node below another
    Wrong(TALL, 64, Change::Version, 65),
    Wrong(TALL, 65, Change::Child(67), 65),
    Wrong(TALL, 65, Change::Child(69), 65),
    Wrong(TALL, 72, Change::Gone, 73),
];

#[test]
fn wrong_pages_are_refused(rt: HostRuntime) -> Result<(), Fail> {
    all_hold(rt.alloc(), WRONG)
}

// ---- pages by hand

/// The points of a leaf.
const HELD: [Point; 3] = [
    Point { time: 0, value: 5 },
    Point { time: 3, value: 7 },
    Point { time: 4, value: -2 },
];

/// The page of a leaf with three points.
fn leaf() -> NodePage {
    let mut points = [Point { time: 0, value: 0 }; LEAF_POINTS];
    for (i, point) in HELD.iter().enumerate() {
        points[i] = *point;
    }
    NodePage::Leaf {
        start: FIRST,
        height: 10,
        stream: STREAM,
        version: 9,
        count: 3,
        points,
    }
}

/// The first bytes of its page. All others are zeros.
const LEAF: [u8; 112] = [
    0x42, 0x54, 0x52, 0x2d, 0x4c, 0x45, 0x41, 0x46, // BTR-LEAF
    0xf0, 0, 0, 0, 0, 0, 0, 0, // start
    0, 0, 0, 10, 0, 0, 1, 2, // height and stream
    0, 0, 0, 0, 0, 0, 0, 9, // version
    0, 0, 0, 0, 0, 0, 0, 3, // count
    0, 0, 0, 0, 0, 0, 0, 0, 0, 0, 0, 0, 0, 0, 0, 0, 0, 0, 0, 0, 0, 0, 0, 0, // no field
    0, 0, 0, 0, 0, 0, 0, 0, 0, 0, 0, 0, 0, 0, 0, 5, // a point
    0, 0, 0, 0, 0, 0, 0, 3, 0, 0, 0, 0, 0, 0, 0, 7, // a point
    0, 0, 0, 0, 0, 0, 0, 4, 0xff, 0xff, 0xff, 0xff, 0xff, 0xff, 0xff, 0xfe, // a point
];

/// Whether a block has these bytes, and zeros after them.
fn begins_with(block: &[u8; PAGE], bytes: &[u8]) -> bool {
    match block.strip_prefix(bytes) {
        Some(rest) => rest.iter().all(|byte| *byte == 0),
        None => false,
    }
}

#[test]
fn page_of_a_leaf(rt: HostRuntime) -> Result<(), Fail> {
    let alloc = rt.alloc();
    let added = bag_of(alloc, &[(4, -2), (0, 5), (3, 7)])?;
    let none = Ranges::none(alloc);
    let applied = applied(alloc, &Tree::empty(), &none, &added, 9, 4)?;
    let nodes = &applied.nodes;
    assert!(rt; nodes.len() == 1 && page_of(&nodes[0], STREAM) == leaf());
    assert!(rt; begins_with(&block_of(&nodes[0], STREAM), &LEAF));
    Ok(())
}

/// The numbers of a slot: the count, the sum, the least and the greatest value, the version and the child.
type Numbers = (u64, i128, Option<(i64, i64)>, u64, u64);

/// The numbers of a slot of the root of `TWO`.
fn numbers_at(i: usize) -> Numbers {
    match i {
        0 => (1, -100, Some((-100, -100)), 1, 4),
        16 => (252, 6426, Some((-100, 151)), 1, 5),
        _ => (0, 0, None, 1, 0),
    }
}

fn numbers_of(slot: &PageSlot) -> Numbers {
    let agg = &slot.agg;
    (agg.count, agg.sum, agg.ends, slot.version, slot.child)
}

/// Whether the page is that of the root of `TWO`.
fn is_root(page: &NodePage) -> bool {
    match page {
        NodePage::Leaf { .. } => false,
        NodePage::Inner {
            start,
            height,
            stream,
            version,
            count,
            slots,
        } => {
            (*start, *height, *stream, *version, *count) == (FIRST, 10, STREAM, 1, 253)
                && slots
                    .iter()
                    .enumerate()
                    .all(|(i, slot)| numbers_of(slot) == numbers_at(i))
        }
    }
}

#[test]
fn page_of_an_inner_node(rt: HostRuntime) -> Result<(), Fail> {
    let alloc = rt.alloc();
    let nodes = written(alloc, TWO)?;
    assert!(rt; nodes.len() == 3 && is_root(&page_of(&nodes[2], STREAM)));
    Ok(())
}
