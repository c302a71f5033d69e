//! Tests of openings of devices whose pages, roots or heads were changed: which block is named.

use crate::fixture::{
    MemEngine, Row, calls_of_opening, first_other, first_wrong, mark, no_wrong, opened, step,
};
use btr_base::{Bag, Point, Range, Ranges};
use btr_disk::{Capacity, MemDisk};
use btr_hist::Entry;
use btr_super::format;
use std::alloc::{AllocError, Global};
use std::test::Fail;

const CAPACITY: Capacity = Capacity {
    calls: 64,
    blocks: 160,
};

/// The width of a slot of the root, in nanoseconds. Time 0 is the first one of slot 16.
const SLOT: i64 = 72057594037927936;

/// Returns an engine of an empty store of 32 blocks.
fn empty_store(alloc: Global) -> Result<MemEngine, Fail> {
    let mut disk = MemDisk::new(alloc, 64, CAPACITY, Vec::new(alloc))?;
    if format(&mut disk, 32).is_err() {
        return Err("no store was made".into());
    }
    opened(alloc, disk)
}

/// Returns a commit of `count` points of value 0 to a stream, one every nanosecond from a time on.
fn insert(alloc: Global, stream: u32, from: i64, count: u32) -> Result<Entry, AllocError> {
    let mut points = Vec::new(alloc);
    for index in 0..count {
        points.push(Point {
            time: from.wrapping_add(i64::from(index)),
            value: 0,
        })?;
    }
    Ok(Entry::Commit {
        stream,
        cut: Ranges::none(alloc),
        added: Bag::from_points(points),
    })
}

/// Adds two streams. Their extents have the gates 4 and 6.
fn with_streams(alloc: Global) -> Result<MemEngine, Fail> {
    let mut engine = empty_store(alloc)?;
    step(alloc, &mut engine, &Entry::Create { id: 7 })?;
    step(alloc, &mut engine, &Entry::Create { id: 8 })?;
    Ok(engine)
}

/// Adds two commits to stream 0. The first has gate 8, body 9 and leaf 10, the root of version 1. The second has gate 11, body 12, the
/// leaves 13 and 14 of the slots 16 and 17, and the root 15 of version 2.
fn with_inner_root(alloc: Global) -> Result<MemEngine, Fail> {
    let mut engine = with_streams(alloc)?;
    step(alloc, &mut engine, &insert(alloc, 0, 0, 3)?)?;
    step(alloc, &mut engine, &insert(alloc, 0, SLOT, 250)?)?;
    Ok(engine)
}

/// Adds one commit to stream 1, of one point: gate 16, body 17, and the leaf 18, its root. The tail is 19.
fn five_entries(alloc: Global) -> Result<MemEngine, Fail> {
    let mut engine = with_inner_root(alloc)?;
    step(alloc, &mut engine, &insert(alloc, 1, 5, 1)?)?;
    Ok(engine)
}

/// The bytes of the device with these five entries.
fn whole_device(alloc: Global) -> Result<Vec<u8>, Fail> {
    Ok(five_entries(alloc)?.into_disk().into_bytes())
}

/// Adds a checkpoint: gate 19, body 20. The tail is 21, and superblock B names the checkpoint.
fn marked_engine(alloc: Global) -> Result<MemEngine, Fail> {
    let mut engine = five_entries(alloc)?;
    mark(alloc, &mut engine, 5)?;
    Ok(engine)
}

/// The bytes of the device with a checkpoint of these five entries.
fn marked_device(alloc: Global) -> Result<Vec<u8>, Fail> {
    Ok(marked_engine(alloc)?.into_disk().into_bytes())
}

/// The fields of pages. Offsets of a page: 0 mark, 8 start, 16 height, 20 stream, 24 version, 32 count, 40 zeros, 64 places or slots. A
/// slot has 56 bytes: 0 count, 8 sum, 24 least, 32 greatest, 40 version, 48 child. Slot 16 begins at 960, slot 17 at 1016.
const PAGES: &[Row] = &[
    (&[], None),
    (&[(13, 0, 0)], Some(13)),
    (&[(13, 4, 78)], Some(13)),
    (&[(13, 15, 1)], Some(13)),
    (&[(13, 19, 11)], Some(13)),
    (&[(13, 31, 0)], Some(13)),
    (&[(13, 39, 2)], Some(13)),
    (&[(13, 40, 1)], Some(13)),
    (&[(13, 71, 2)], Some(13)),
    (&[(13, 4095, 1)], Some(13)),
    (&[(14, 0, 0)], Some(14)),
    (&[(15, 19, 0)], Some(15)),
    (&[(15, 39, 254)], Some(15)),
    (&[(15, 71, 1)], Some(15)),
    (&[(15, 967, 4)], Some(15)),
    (&[(15, 975, 255)], Some(15)),
    (&[(15, 1007, 3)], Some(15)),
    (&[(15, 4095, 1)], Some(15)),
];

/// Children. The leaf 13 as one of another height, stream and version; two counts of the root's slots that have the same sum; another
/// version of a slot; a child that is a later block, its parent, a block outside the store, the leaf of another slot, and an earlier root.
const CHILDREN: &[Row] = &[
    (&[(13, 19, 8)], Some(15)),
    (&[(13, 23, 1)], Some(15)),
    (&[(13, 31, 1)], Some(15)),
    (&[(15, 967, 4), (15, 1023, 249)], Some(15)),
    (&[(15, 1007, 1)], Some(15)),
    (&[(15, 1015, 18)], Some(15)),
    (&[(15, 1015, 15)], Some(15)),
    (&[(15, 1015, 200)], Some(15)),
    (&[(15, 1015, 14)], Some(15)),
    (&[(15, 1015, 10)], Some(15)),
];

/// Roots, at offset 55 of a body. That of a stream's first entry that is not 0; one that is 0 with points; one that is a leaf below the
/// root, a body, a gate, a later block, and the root of another stream; one whose page has a later version; and one that is no page.
const ROOTS: &[Row] = &[
    (&[(5, 55, 10)], Some(5)),
    (&[(7, 55, 18)], Some(7)),
    (&[(9, 55, 0)], Some(9)),
    (&[(12, 55, 0)], Some(12)),
    (&[(12, 55, 14)], Some(12)),
    (&[(12, 55, 9)], Some(12)),
    (&[(12, 55, 11)], Some(12)),
    (&[(12, 55, 16)], Some(12)),
    (&[(12, 55, 18)], Some(12)),
    (&[(17, 55, 15)], Some(17)),
    (&[(17, 55, 10)], Some(17)),
    (&[(18, 31, 2)], Some(17)),
    (&[(18, 23, 0)], Some(17)),
    (&[(18, 0, 0)], Some(18)),
    (&[(12, 55, 14), (14, 0, 0)], Some(14)),
    (&[(12, 55, 0), (13, 0, 0)], Some(12)),
];

/// Heads: n at offset 31 and m at offset 47. One node block too few, one too many, which is the gate after them, and n or m alone; and
/// a commit without node blocks and root, as devices of an earlier format have it. Then the format at offset 15, above that of the
/// superblock, that of a seal, and not above, which is not that of the entry.
const HEADS: &[Row] = &[
    (&[(12, 31, 3), (12, 47, 2)], Some(12)),
    (&[(12, 31, 5), (12, 47, 4)], Some(16)),
    (&[(12, 47, 2)], Some(12)),
    (&[(12, 31, 3)], Some(12)),
    (&[(9, 31, 1), (9, 47, 0), (9, 55, 0)], Some(9)),
    (&[(12, 15, 2)], Some(12)),
    (&[(12, 15, 4)], Some(12)),
    (&[(1, 11, 2)], None),
    (&[(1, 11, 2), (12, 15, 2)], Some(12)),
];

/// What an opening does not test: a root of an earlier version, and a value of a leaf.
const UNTESTED: &[Row] = &[(&[(12, 55, 10)], None), (&[(18, 79, 1)], None)];

/// A child that is a block without a page is named by its parent, if the parent is a page of an entry that is read.
const NO_CHILD: &[Row] = &[(&[(15, 1015, 12)], Some(15)), (&[(15, 1015, 1)], Some(15))];

/// The first row that is wrong.
fn first_wrong_of(alloc: Global, rows: &[Row]) -> Result<Option<usize>, Fail> {
    let whole = whole_device(alloc)?;
    first_wrong(alloc, &whole, rows)
}

#[test]
fn each_field_of_a_page_counts(rt: HostRuntime) -> Result<(), Fail> {
    no_wrong(first_wrong_of(rt.alloc(), PAGES)?)
}

#[test]
fn a_wrong_child_is_named_by_its_parent(rt: HostRuntime) -> Result<(), Fail> {
    no_wrong(first_wrong_of(rt.alloc(), CHILDREN)?)
}

#[test]
fn a_wrong_root_is_named_by_the_body(rt: HostRuntime) -> Result<(), Fail> {
    no_wrong(first_wrong_of(rt.alloc(), ROOTS)?)
}

#[test]
fn node_blocks_are_as_many_as_the_head_says(rt: HostRuntime) -> Result<(), Fail> {
    no_wrong(first_wrong_of(rt.alloc(), HEADS)?)
}

#[test]
fn what_no_rule_forbids_is_opened(rt: HostRuntime) -> Result<(), Fail> {
    no_wrong(first_wrong_of(rt.alloc(), UNTESTED)?)
}

#[test]
fn a_child_without_a_page_is_named_by_its_parent(rt: HostRuntime) -> Result<(), Fail> {
    no_wrong(first_wrong_of(rt.alloc(), NO_CHILD)?)
}

/// A sync, a read of the superblocks, and one of the log. After a checkpoint also one of the blocks below it, which have the pages.
#[test]
fn an_opening_reads_many_extents_in_one_call(rt: HostRuntime) -> Result<(), Fail> {
    let alloc = rt.alloc();
    assert!(rt; calls_of_opening(alloc, whole_device(alloc)?)? == (5, 3));
    assert!(rt; calls_of_opening(alloc, marked_device(alloc)?)? == (5, 4));
    Ok(())
}

// ---- below a checkpoint

/// The first row that is wrong, on the device with a checkpoint.
fn first_wrong_below(alloc: Global, rows: &[Row]) -> Result<Option<usize>, Fail> {
    let whole = marked_device(alloc)?;
    first_wrong(alloc, &whole, rows)
}

/// A child that is a block without a page is named itself if its parent is below the checkpoint: a body, a gate, and superblock A.
const NO_PAGE: &[Row] = &[
    (&[(15, 1015, 12)], Some(12)),
    (&[(15, 1015, 11)], Some(11)),
    (&[(15, 1015, 1)], Some(1)),
];

#[test]
fn a_page_below_a_checkpoint_is_named(rt: HostRuntime) -> Result<(), Fail> {
    let alloc = rt.alloc();
    no_wrong(first_wrong_below(alloc, PAGES)?)?;
    no_wrong(first_wrong_below(alloc, CHILDREN)?)?;
    no_wrong(first_wrong_below(alloc, NO_PAGE)?)
}

/// Roots in the content of the checkpoint. Those of the versions of stream 0 end at the offsets 116 and 132, that of stream 1 at 181. The
/// content is named for the root of a later version, a leaf below a root, the root of another stream, and the gate of the checkpoint. A
/// body without a page is named itself. The root of an earlier version, and none, are not seen. Then pages that are other roots.
const VERSIONS: &[Row] = &[
    (&[(20, 116, 15)], Some(20)),
    (&[(20, 116, 13)], Some(20)),
    (&[(20, 116, 18)], Some(20)),
    (&[(20, 116, 19)], Some(20)),
    (&[(20, 116, 9)], Some(9)),
    (&[(20, 116, 0)], None),
    (&[(20, 132, 10)], None),
    (&[(20, 132, 14)], Some(20)),
    (&[(20, 132, 0)], None),
    (&[(20, 181, 10)], Some(20)),
    (&[(20, 181, 17)], Some(17)),
    (&[(10, 31, 2)], Some(20)),
    (&[(10, 23, 1)], Some(20)),
    (&[(10, 0, 0)], Some(10)),
    (&[(15, 31, 3)], Some(20)),
    (&[(15, 31, 1)], Some(15)),
    (&[(18, 23, 0)], Some(20)),
    (&[(18, 31, 2)], Some(20)),
    (&[(20, 132, 10), (15, 0, 0), (13, 0, 0)], None),
    (&[(20, 132, 0), (14, 31, 1), (20, 116, 0)], None),
];

#[test]
fn a_version_of_a_checkpoint_has_its_own_root(rt: HostRuntime) -> Result<(), Fail> {
    no_wrong(first_wrong_below(rt.alloc(), VERSIONS)?)
}

/// Changes of the entries before the checkpoint: numbers, kinds, contents and roots.
const ENTRIES: &[Row] = &[
    (&[(5, 23, 2)], None),
    (&[(7, 11, 2)], None),
    (&[(9, 64, 7), (9, 69, 1)], None),
    (&[(12, 55, 0), (12, 47, 0)], None),
    (&[(17, 4095, 1), (16, 0, 0)], None),
];

#[test]
fn an_entry_before_a_checkpoint_is_not_read(rt: HostRuntime) -> Result<(), Fail> {
    let alloc = rt.alloc();
    let whole = marked_device(alloc)?;
    no_wrong(first_other(alloc, &whole, ENTRIES, 0, None)?)?;
    no_wrong(first_other(alloc, &whole, HEADS, 0, None)?)
}

// ---- after a checkpoint

/// Returns a commit to stream 1 that cuts times of no point.
fn empty_cut(alloc: Global) -> Result<Entry, Fail> {
    let mut cut = Ranges::none(alloc);
    cut.add(Range::new(1000, 2000).ok_or("no range")?)?;
    Ok(Entry::Commit {
        stream: 1,
        cut,
        added: Bag::from_points(Vec::new(alloc)),
    })
}

/// Adds two commits to the device with a checkpoint. The first adds a point to slot 17 of stream 0: gate 21, body 22, the leaf 23, and the
/// root 24 of version 3, whose slot 16 has the child 13. The second adds no node to stream 1: gate 25, body 26, and the root 18. The tail
/// is 27.
fn seven_entries(alloc: Global) -> Result<Vec<u8>, Fail> {
    let mut engine = marked_engine(alloc)?;
    step(
        alloc,
        &mut engine,
        &insert(alloc, 0, SLOT.wrapping_add(1000), 1)?,
    )?;
    step(alloc, &mut engine, &empty_cut(alloc)?)?;
    Ok(engine.into_disk().into_bytes())
}

/// The entries after the checkpoint, and pages below it. Roots: a leaf below a root, roots of two earlier versions, one of another stream,
/// a body below the checkpoint, none, and a later block. Children of slot 16: a body, an earlier root, the leaf of another slot, a root of
/// another stream, the parent, and the new leaf; then the version of the slot, its count, and the child of slot 17. Two pages that are
/// none. Roots of the second commit: a body, a root of another stream, none, and a later block.
const LATER: &[Row] = &[
    (&[], None),
    (&[(22, 55, 23)], Some(22)),
    (&[(22, 55, 15)], None),
    (&[(22, 55, 10)], None),
    (&[(22, 55, 18)], Some(22)),
    (&[(22, 55, 12)], Some(22)),
    (&[(22, 55, 0)], Some(22)),
    (&[(22, 55, 26)], Some(22)),
    (&[(24, 1015, 12)], Some(24)),
    (&[(24, 1015, 10)], Some(24)),
    (&[(24, 1015, 14)], Some(24)),
    (&[(24, 1015, 18)], Some(24)),
    (&[(24, 1015, 24)], Some(24)),
    (&[(24, 1015, 23)], Some(24)),
    (&[(24, 1007, 1)], Some(24)),
    (&[(24, 967, 4), (24, 1023, 250)], Some(24)),
    (&[(24, 1071, 14)], Some(24)),
    (&[(23, 0, 0)], Some(23)),
    (&[(24, 0, 0)], Some(24)),
    (&[(26, 55, 17)], Some(26)),
    (&[(26, 55, 15)], Some(26)),
    (&[(26, 55, 0)], None),
    (&[(26, 55, 26)], Some(26)),
    (&[(13, 0, 0), (23, 0, 0)], Some(13)),
    (&[(22, 23, 5)], Some(22)),
    (&[(22, 68, 2)], Some(22)),
];

/// The checkpoint has no root 15, or no root 18: then pages below it are read for an entry after it alone. What is wrong with them is
/// found there: a child is named by its parent, and a root by the body. Pages to which nothing leads are not read.
const FIRST_READ_LATER: &[Row] = &[
    (&[(20, 132, 0)], None),
    (&[(20, 132, 0), (13, 0, 0)], Some(24)),
    (&[(20, 132, 0), (13, 31, 1)], Some(24)),
    (&[(20, 132, 0), (13, 23, 1)], Some(24)),
    (&[(20, 132, 0), (14, 0, 0), (15, 0, 0)], None),
    (&[(20, 132, 0), (22, 55, 15)], None),
    (&[(20, 132, 0), (22, 55, 15), (14, 0, 0)], Some(22)),
    (&[(20, 132, 0), (22, 55, 15), (15, 0, 0)], Some(22)),
    (&[(20, 132, 0), (22, 55, 15), (15, 1015, 12)], Some(22)),
    (&[(20, 181, 0)], None),
    (&[(20, 181, 0), (18, 0, 0)], Some(26)),
    (&[(20, 181, 0), (18, 23, 0)], Some(26)),
    (&[(20, 181, 0), (18, 31, 3)], Some(26)),
    (&[(20, 181, 0), (18, 31, 2)], None),
];

#[test]
fn entries_after_a_checkpoint_lead_to_pages_below_it(rt: HostRuntime) -> Result<(), Fail> {
    let alloc = rt.alloc();
    let whole = seven_entries(alloc)?;
    no_wrong(first_wrong(alloc, &whole, LATER)?)?;
    no_wrong(first_wrong(alloc, &whole, FIRST_READ_LATER)?)
}

// ---- deeper trees

/// The width of a slot of a span of height 9, in nanoseconds.
const DEEP: i64 = 1125899906842624;

/// The device with a stream and two commits to it, both in slot 16 of the root, and a checkpoint. The first commit has gate 6, body 7 and
/// leaf 8. The second has gate 9, body 10, the leaves 11 and 12, the node 13 of slot 16, whose slots 0 and 1 they are, and the root 14. The
/// checkpoint has gate 15 and body 16.
fn deep_device(alloc: Global) -> Result<Vec<u8>, Fail> {
    let mut engine = empty_store(alloc)?;
    step(alloc, &mut engine, &Entry::Create { id: 7 })?;
    for (from, count) in [(0, 3), (DEEP, 250)] {
        step(alloc, &mut engine, &insert(alloc, 0, from, count)?)?;
    }
    mark(alloc, &mut engine, 3)?;
    Ok(engine.into_disk().into_bytes())
}

/// Pages two steps below a root of the checkpoint. A block without a page is named itself: a leaf, the node, and a body as the child of its
/// slot 0. A page that is not that of its slot is named by its parent: a leaf of another version or stream, an earlier root, the other
/// leaf, and the node itself as that child; and the node of another stream, height or count.
const DEEPER: &[Row] = &[
    (&[], None),
    (&[(11, 0, 0)], Some(11)),
    (&[(12, 4095, 1)], Some(12)),
    (&[(13, 0, 0)], Some(13)),
    (&[(13, 119, 10)], Some(10)),
    (&[(11, 31, 1)], Some(13)),
    (&[(12, 23, 1)], Some(13)),
    (&[(13, 119, 8)], Some(13)),
    (&[(13, 119, 12)], Some(13)),
    (&[(13, 119, 13)], Some(13)),
    (&[(13, 111, 1)], Some(13)),
    (&[(13, 23, 1)], Some(14)),
    (&[(13, 31, 3)], Some(14)),
    (&[(14, 1015, 11)], Some(14)),
    (&[(14, 0, 0)], Some(14)),
];

#[test]
fn pages_deep_below_a_checkpoint_are_tested(rt: HostRuntime) -> Result<(), Fail> {
    let alloc = rt.alloc();
    let whole = deep_device(alloc)?;
    no_wrong(first_wrong(alloc, &whole, DEEPER)?)
}
