//! Pages of nodes, byte by byte, and blocks that are no page.

use super::fixture::{Row, all_hold};
use btr_base::{Agg, FIRST, LEAF_POINTS, Point};
use btr_node::{NodePage, PAGE, PageSlot, SLOTS, decode, no_two_pages_have_the_same_bytes, spell};
use std::alloc::Global;
use std::test::Fail;

/// Bytes from a place on.
struct At(usize, &'static [u8]);

/// The fields of the leaf that is the whole domain, of stream 0 at version 1, with three points.
const LEAF_FIELDS: [u8; 40] = [
    0x42, 0x54, 0x52, 0x2d, 0x4c, 0x45, 0x41, 0x46, // BTR-LEAF
    0xf0, 0, 0, 0, 0, 0, 0, 0, // start
    0, 0, 0, 10, 0, 0, 0, 0, // height and stream
    0, 0, 0, 0, 0, 0, 0, 1, // version
    0, 0, 0, 0, 0, 0, 0, 3, // count
];

/// Its points.
const THREE_POINTS: [u8; 48] = [
    0, 0, 0, 0, 0, 0, 0, 0, 0, 0, 0, 0, 0, 0, 0, 5, //
    0, 0, 0, 0, 0, 0, 0, 3, 0, 0, 0, 0, 0, 0, 0, 7, //
    0, 0, 0, 0, 0, 0, 0, 4, 0xff, 0xff, 0xff, 0xff, 0xff, 0xff, 0xff, 0xfe,
];

const LEAF: &[At] = &[At(0, &LEAF_FIELDS), At(64, &THREE_POINTS)];

/// The fields of the inner node from time 0 on, of height 1, of stream 258 at version 9, with 253 points.
const INNER_FIELDS: [u8; 40] = [
    0x42, 0x54, 0x52, 0x2d, 0x4e, 0x4f, 0x44, 0x45, // BTR-NODE
    0, 0, 0, 0, 0, 0, 0, 0, // start
    0, 0, 0, 1, 0, 0, 1, 2, // height and stream
    0, 0, 0, 0, 0, 0, 0, 9, // version
    0, 0, 0, 0, 0, 0, 0, 253, // count
];

/// Its first slot: 252 points of the value -1, version 9, child 7. Its second slot: no point, version 8.
const FIRST_SLOTS: [u8; 112] = [
    0, 0, 0, 0, 0, 0, 0, 252, // count
    0xff, 0xff, 0xff, 0xff, 0xff, 0xff, 0xff, 0xff, 0xff, 0xff, 0xff, 0xff, 0xff, 0xff, 0xff, 0x04, // sum
    0xff, 0xff, 0xff, 0xff, 0xff, 0xff, 0xff, 0xff, // least
    0xff, 0xff, 0xff, 0xff, 0xff, 0xff, 0xff, 0xff, // greatest
    0, 0, 0, 0, 0, 0, 0, 9, 0, 0, 0, 0, 0, 0, 0, 7, // version and child
    0, 0, 0, 0, 0, 0, 0, 0, // count
    0, 0, 0, 0, 0, 0, 0, 0, 0, 0, 0, 0, 0, 0, 0, 0, // sum
    0, 0, 0, 0, 0, 0, 0, 0, 0, 0, 0, 0, 0, 0, 0, 0, // least and greatest
    0, 0, 0, 0, 0, 0, 0, 8, 0, 0, 0, 0, 0, 0, 0, 0, // version and child
];

/// Its last slot: one point of the value 5, version 3, child 258.
const LAST_SLOT: [u8; 56] = [
    0, 0, 0, 0, 0, 0, 0, 1, // count
    0, 0, 0, 0, 0, 0, 0, 0, 0, 0, 0, 0, 0, 0, 0, 5, // sum
    0, 0, 0, 0, 0, 0, 0, 5, 0, 0, 0, 0, 0, 0, 0, 5, // least and greatest
    0, 0, 0, 0, 0, 0, 0, 3, 0, 0, 0, 0, 0, 0, 1, 2, // version and child
];

const INNER: &[At] = &[
    At(0, &INNER_FIELDS),
    At(64, &FIRST_SLOTS),
    At(3592, &LAST_SLOT),
];

/// The same without its last slot.
const WITHOUT_LAST: &[At] = &[At(0, &INNER_FIELDS), At(64, &FIRST_SLOTS)];

/// The block with these bytes, and zeros in all other places.
fn block(parts: &[At]) -> Result<[u8; PAGE], Fail> {
    let mut bytes = [0; PAGE];
    for part in parts {
        for (i, byte) in part.1.iter().enumerate() {
            let place = part.0.saturating_add(i);
            *bytes.get_mut(place).ok_or("a place")? = *byte;
        }
    }
    Ok(bytes)
}

/// The leaf with the bytes `LEAF`.
fn leaf() -> NodePage {
    let mut points = [Point { time: 0, value: 0 }; LEAF_POINTS];
    points[0] = Point { time: 0, value: 5 };
    points[1] = Point { time: 3, value: 7 };
    points[2] = Point { time: 4, value: -2 };
    NodePage::Leaf {
        start: FIRST,
        height: 10,
        stream: 0,
        version: 1,
        count: 3,
        points,
    }
}

#[test]
fn leaf_has_its_bytes(rt: HostRuntime) -> Result<(), Fail> {
    let want = block(LEAF)?;
    let page = leaf();
    let mut bytes = [7; PAGE];
    spell(&page, &mut bytes);
    assert!(rt; bytes == want);
    assert!(rt; decode(&want) == Some(page));
    no_two_pages_have_the_same_bytes();
    Ok(())
}

/// A slot of no points, at this version.
fn empty(version: u64) -> PageSlot {
    PageSlot {
        agg: Agg::none(),
        version,
        child: 0,
    }
}

/// The aggregate of 252 points of the value -1.
fn agg_of_many() -> Agg {
    Agg::of_points(&[Point { time: 0, value: -1 }; LEAF_POINTS])
}

/// The inner node with the bytes `INNER`.
fn inner() -> NodePage {
    let mut slots = [empty(0); SLOTS];
    slots[0] = PageSlot {
        agg: agg_of_many(),
        version: 9,
        child: 7,
    };
    slots[1] = empty(8);
    slots[63] = PageSlot {
        agg: Agg::of(5),
        version: 3,
        child: 258,
    };
    NodePage::Inner {
        start: 0,
        height: 1,
        stream: 258,
        version: 9,
        count: 253,
        slots,
    }
}

#[test]
fn inner_node_has_its_bytes(rt: HostRuntime) -> Result<(), Fail> {
    let want = block(INNER)?;
    let page = inner();
    let mut bytes = [7; PAGE];
    spell(&page, &mut bytes);
    assert!(rt; bytes == want);
    assert!(rt; decode(&want) == Some(page));
    Ok(())
}

#[test]
fn leaf_has_its_fields(rt: HostRuntime) -> Result<(), Fail> {
    let page = decode(&block(LEAF)?).ok_or("a page")?;
    let header = page.header();
    assert!(rt; header.start == FIRST && header.height == 10);
    assert!(rt; header.stream == 0 && header.version == 1 && header.count == 3);
    let span = page.span();
    assert!(rt; span.start == FIRST && span.height == 10);
    assert!(rt; page.slots().len() == 0);
    Ok(())
}

#[test]
fn inner_node_has_its_fields(rt: HostRuntime) -> Result<(), Fail> {
    let page = decode(&block(INNER)?).ok_or("a page")?;
    let header = page.header();
    assert!(rt; header.start == 0 && header.height == 1);
    assert!(rt; header.stream == 258 && header.version == 9 && header.count == 253);
    let span = page.span();
    assert!(rt; span.start == 0 && span.height == 1);
    let slots = page.slots();
    assert!(rt; slots.len() == 64);
    assert!(rt; slots[0].count() == 252 && slots[1].count() == 0 && slots[63].count() == 1);
    Ok(())
}

/// A block, the places of those of its bytes that are other ones, and whether it is then a page.
struct Changed(&'static [At], &'static [(usize, u8)], bool);

impl Row for Changed {
    fn holds(&self, _alloc: Global) -> Result<bool, Fail> {
        let mut bytes = block(self.0)?;
        for (place, byte) in self.1 {
            *bytes.get_mut(*place).ok_or("a place")? = *byte;
        }
        Ok(decode(&bytes).is_some() == self.2)
    }
}

const LEAVES: &[Changed] = &[
    Changed(LEAF, &[], true),
    // any stream, and the greatest version
    Changed(
        LEAF,
        &[(20, 0xff), (28, 0xff), (29, 0xff), (30, 0xff), (31, 0xff)],
        true,
    ),
    // the times 0, 2 and 3 in the span of 4 ns from 0 on
    Changed(LEAF, &[(8, 0), (19, 0), (87, 2), (103, 3)], true),
    // a point twice
    Changed(LEAF, &[(87, 0), (95, 5)], true),
];

#[test]
fn leaves_at_the_bounds_are_read(rt: HostRuntime) -> Result<(), Fail> {
    all_hold(rt.alloc(), LEAVES)
}

const NO_LEAVES: &[Changed] = &[
    // another mark
    Changed(LEAF, &[(7, 0x47)], false),
    Changed(LEAF, &[(4, 0x4e)], false),
    // a start that is not aligned, one that is the domain's end, and a height of 11
    Changed(LEAF, &[(15, 4)], false),
    Changed(LEAF, &[(8, 0x30)], false),
    Changed(LEAF, &[(19, 11)], false),
    // the versions 0 and 2^32
    Changed(LEAF, &[(31, 0)], false),
    Changed(LEAF, &[(27, 1), (31, 0)], false),
    // no point, and more points than places
    Changed(&[At(0, &LEAF_FIELDS)], &[(39, 0)], false),
    Changed(LEAF, &[(39, 253)], false),
    // bytes that are not zero after the count
    Changed(LEAF, &[(40, 1)], false),
    Changed(LEAF, &[(63, 1)], false),
    // points out of order, by time and by value
    Changed(LEAF, &[(71, 5)], false),
    Changed(LEAF, &[(87, 0), (95, 4)], false),
    // a point at the end of the span, and one before its start
    Changed(LEAF, &[(8, 0), (19, 0)], false),
    Changed(LEAF, &[(8, 0), (15, 4), (19, 0)], false),
    // places after the points that are not zero
    Changed(LEAF, &[(39, 2)], false),
    Changed(LEAF, &[(4087, 1)], false),
    Changed(LEAF, &[(4095, 1)], false),
];

#[test]
fn leaves_outside_the_table_are_refused(rt: HostRuntime) -> Result<(), Fail> {
    all_hold(rt.alloc(), NO_LEAVES)
}

const INNER_NODES: &[Changed] = &[
    Changed(INNER, &[], true),
    // a slot without points has the node's version
    Changed(INNER, &[(167, 9)], true),
    // 2^32 points
    Changed(
        WITHOUT_LAST,
        &[
            (35, 1),
            (39, 0),
            (67, 1),
            (71, 0),
            (84, 0),
            (85, 0),
            (86, 0),
            (87, 0),
        ],
        true,
    ),
];

#[test]
fn inner_nodes_at_the_bounds_are_read(rt: HostRuntime) -> Result<(), Fail> {
    all_hold(rt.alloc(), INNER_NODES)
}

const NO_INNER_NODES: &[Changed] = &[
    // another mark
    Changed(INNER, &[(4, 0x4c)], false),
    Changed(INNER, &[(0, 0)], false),
    // a start that is not aligned, and a height of 0
    Changed(INNER, &[(15, 4)], false),
    Changed(INNER, &[(19, 0)], false),
    // the version 2^32
    Changed(INNER, &[(27, 1)], false),
    // 252 points, and one more than 2^32
    Changed(WITHOUT_LAST, &[(39, 252)], false),
    Changed(
        INNER,
        &[
            (35, 1),
            (39, 1),
            (67, 1),
            (71, 0),
            (84, 0),
            (85, 0),
            (86, 0),
            (87, 0),
        ],
        false,
    ),
    // counts of the slots that add up to another one
    Changed(INNER, &[(39, 254)], false),
    Changed(WITHOUT_LAST, &[], false),
    // bytes that are not zero after the count and after the slots
    Changed(INNER, &[(40, 1)], false),
    Changed(INNER, &[(3648, 1)], false),
    Changed(INNER, &[(4095, 1)], false),
];

#[test]
fn inner_nodes_outside_the_table_are_refused(rt: HostRuntime) -> Result<(), Fail> {
    all_hold(rt.alloc(), NO_INNER_NODES)
}

const NO_SLOTS: &[Changed] = &[
    // a slot without points with a sum, a least value, a greatest value, a child, and a version above the node's
    Changed(INNER, &[(143, 1)], false),
    Changed(INNER, &[(151, 1)], false),
    Changed(INNER, &[(159, 1)], false),
    Changed(INNER, &[(175, 1)], false),
    Changed(INNER, &[(167, 10)], false),
    // a slot with points at version 0, above the node's version, and without a child
    Changed(INNER, &[(111, 0)], false),
    Changed(INNER, &[(111, 10)], false),
    Changed(INNER, &[(119, 0)], false),
    // a least value above the greatest, and sums below and above what the count allows
    Changed(INNER, &[(3623, 6)], false),
    Changed(INNER, &[(3615, 4)], false),
    Changed(INNER, &[(3615, 6)], false),
];

#[test]
fn slots_outside_the_table_are_refused(rt: HostRuntime) -> Result<(), Fail> {
    all_hold(rt.alloc(), NO_SLOTS)
}
