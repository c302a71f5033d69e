//! Walks over the pages of a device: which pages they read, and what they return if a byte has changed or a read fails.

use super::damage_tests::QUESTIONS;
use super::shelf::{Answer, Block, Question, Roots, Stream, TALL, disk_of, roots_of, stream_of};
use super::shelf_tests::{Tally, ask};
use btr_base::{END, FIRST, Point, Toward};
use btr_disk::{Disk, MemDisk};
use btr_node::PAGE;
use btr_shelf::DiskNodes;
use btr_tree::{NodeFault, Nodes};
use std::alloc::Global;
use std::test::Fail;

// ---- the pages that are read

/// A question of a version of `TALL` and an older one, and the numbers of pages that a device reads and of steps for it, found by
/// hand.
struct Read(usize, usize, Question, u64, u64);

const READ: &[Read] = &[
    // one page at each height
    Read(0, 1, Question::Points(40, 44), 11, 0),
    Read(0, 1, Question::Nearest(41, Toward::Forward), 11, 11),
    Read(0, 1, Question::Nearest(43, Toward::Backward), 11, 11),
    Read(0, 1, Question::Aggregate(41, 43), 11, 11),
    Read(0, 1, Question::Aligned(40, 44, 0), 11, 0),
    Read(0, 1, Question::Windows(40, 44, 1), 11, 0),
    // all pages
    Read(0, 1, Question::Points(FIRST, END), 74, 0),
    Read(0, 1, Question::Changes(0), 74, 74),
    // none below the lowest node of the times
    Read(0, 1, Question::Points(500, 600), 9, 0),
    Read(0, 1, Question::Nearest(1000, Toward::Forward), 9, 9),
    // two bottom spans
    Read(0, 1, Question::Aggregate(2, 250), 12, 12),
    // no bottom span, and the root alone
    Read(0, 1, Question::Aligned(40, 44, 2), 10, 0),
    Read(0, 1, Question::Windows(0, 252, 4), 10, 0),
    Read(0, 1, Question::Aggregate(FIRST, END), 1, 1),
    Read(0, 1, Question::Aligned(FIRST, END, 56), 1, 0),
    Read(0, 1, Question::Nearest(0, Toward::Backward), 1, 1),
    Read(0, 1, Question::Nearest(END, Toward::Forward), 1, 0),
    // no window fits
    Read(0, 1, Question::Windows(0, 4, 5), 0, 0),
    // both roots twice, the newer one without a page between, and then the 10 newer nodes below and the 10 older ones beside them
    Read(1, 2, Question::Changes(0), 23, 11),
    // a version without points
    Read(0, 0, Question::Points(FIRST, END), 0, 0),
];

/// The number of pages that a device reads for a question of two roots, and the number of steps.
fn read_for(
    alloc: Global,
    blocks: &[Block],
    roots: Roots,
    question: Question,
) -> Result<(u64, u64), Fail> {
    let mut nodes = DiskNodes::new(disk_of(alloc, blocks, 128, 0, &[])?);
    let answered = question.of_pages(alloc, &mut nodes, roots);
    let reads = nodes.into_disk().calls();
    match answered {
        Ok(answered) => Ok((reads, answered.steps)),
        Err(_) => Err("no answer".into()),
    }
}

#[test]
fn pages_read_by_hand(rt: HostRuntime) -> Result<(), Fail> {
    let stream = stream_of(rt.alloc(), TALL)?;
    for Read(old, new, question, reads, steps) in READ {
        let roots = roots_of(&stream, *old, *new).ok_or("no version")?;
        let found = read_for(rt.alloc(), &stream.blocks, roots, *question)?;
        assert!(rt; found == (*reads, *steps));
    }
    Ok(())
}

// ---- blocks with another byte

/// What is returned for the points from 40 to 44 if a byte of a block has changed.
#[derive(Clone, Copy, PartialEq)]
enum Outcome {
    /// The block with this number is named.
    Named(u64),

    /// The points are answered, of which the one with this index has another value by these bits.
    Points(usize, i64),

    /// The points are answered as they were.
    Same,
}

/// The points from 40 to 44.
const FOUR: [Point; 4] = [
    Point {
        time: 40,
        value: -60,
    },
    Point {
        time: 41,
        value: -59,
    },
    Point {
        time: 42,
        value: -58,
    },
    Point {
        time: 43,
        value: -57,
    },
];

/// The block of a leaf with the points from 40 to 44.
const LEAF: usize = 14;

/// The block of the inner node whose slot 10 leads to that leaf.
const INNER: usize = 68;

/// The highest bit of a byte among those of a number of eight bytes, the highest byte first, by the byte's place.
fn bit_of(place: usize) -> u64 {
    let byte = place % 8;
    0x8000000000000000 >> (8 * byte as u32)
}

/// What is returned if a byte of the leaf in block 14, below block 68, has its highest bit changed. A page has no checksum, so a changed
/// value is returned. The four points are in the bytes from 64 to 127. The span is four times wide, so no changed time lies in it.
fn of_leaf(at: usize) -> Outcome {
    match at {
        // the stream, and the lower half of the version
        20..=23 | 28..=31 => Outcome::Named(68),
        // a value
        64..=127 if at % 16 >= 8 => Outcome::Points((at - 64) / 16, bit_of(at).cast_signed()),
        _ => Outcome::Named(14),
    }
}

/// What is returned if a byte of the inner node in block 68, below block 69, has its highest bit changed. Slot 9 is in the bytes from 568
/// to 623, and slot 10, whose child is the leaf in block 14, is in those from 624 to 679.
fn of_inner(at: usize) -> Outcome {
    match at {
        // another start that is one of its height; the stream; the lower half of the version
        9..=14 | 20..=23 | 28..=31 => Outcome::Named(69),
        // the child of the slot before
        616..=623 => Outcome::Same,
        // a lower least value, and a higher greatest value
        649..=656 => Outcome::Same,
        // the child
        672..=679 => Outcome::Named(14 ^ bit_of(at)),
        _ => Outcome::Named(68),
    }
}

/// What is returned for the points from 40 to 44.
fn outcome_for<N: Nodes>(alloc: Global, nodes: &mut N, roots: Roots) -> Option<Outcome> {
    match Question::Points(40, 44).of_pages(alloc, nodes, roots) {
        Ok(answered) => match &answered.answer {
            Answer::Points(points) => difference(points),
            _ => None,
        },
        Err(NodeFault::Damaged { block }) => Some(Outcome::Named(block)),
        Err(_) => None,
    }
}

/// How points differ from those four. Returns `None` if they differ in more than one value.
fn difference(points: &[Point]) -> Option<Outcome> {
    let mut found = Outcome::Same;
    if points.len() != FOUR.len() {
        return None;
    }
    for (index, (point, old)) in points.iter().zip(&FOUR).enumerate() {
        if point.time != old.time || (point.value != old.value && found != Outcome::Same) {
            return None;
        }
        if point.value != old.value {
            found = Outcome::Points(index, point.value ^ old.value);
        }
    }
    Some(found)
}

/// Writes a block with the highest bit of a byte changed. Returns the device, and what is then returned for the points from 40 to 44.
fn outcome_of_byte(
    alloc: Global,
    disk: MemDisk,
    roots: Roots,
    block: u64,
    bytes: &Block,
    at: usize,
) -> Result<(MemDisk, Option<Outcome>), Fail> {
    let mut disk = disk;
    let mut bytes = *bytes;
    let byte = bytes.get_mut(at).ok_or("no byte")?;
    *byte = *byte ^ 0x80;
    if block >= disk.blocks() || disk.write(block, &bytes).is_err() {
        return Err("no write".into());
    }
    let mut nodes = DiskNodes::new(disk);
    let found = outcome_for(alloc, &mut nodes, roots);
    Ok((nodes.into_disk(), found))
}

/// The first byte of a block after whose change something else is returned than is wanted: of the header, of a part, and of each 61st
/// byte of the rest. The block is that of the leaf, or that of the inner node above it.
fn first_other(
    alloc: Global,
    block: usize,
    part: (usize, usize),
    rest: usize,
) -> Result<Option<usize>, Fail> {
    let stream = stream_of(alloc, TALL)?;
    let roots = roots_of(&stream, 0, 1).ok_or("no version")?;
    let bytes = stream.blocks.get(block).ok_or("no block")?;
    let mut disk = disk_of(alloc, &stream.blocks, 4096, 256, &[])?;
    for at in (0..64)
        .chain(part.0..part.1)
        .chain((rest..PAGE).step_by(61))
    {
        let (same, found) = outcome_of_byte(alloc, disk, roots, block as u64, bytes, at)?;
        let want = if block == LEAF {
            of_leaf(at)
        } else {
            of_inner(at)
        };
        if found != Some(want) {
            return Ok(Some(at));
        }
        disk = same;
    }
    Ok(None)
}

#[test]
fn bytes_of_a_leaf_that_changed(rt: HostRuntime) -> Result<(), Fail> {
    assert!(rt; first_other(rt.alloc(), LEAF, (64, 160), 160)? == None);
    Ok(())
}

#[test]
fn bytes_of_an_inner_node_that_changed(rt: HostRuntime) -> Result<(), Fail> {
    assert!(rt; first_other(rt.alloc(), INNER, (616, 680), 3648)? == None);
    Ok(())
}

// ---- reads that fail

/// Whether a question fails if the read with this number fails, and has the right answer if it is asked again.
fn fails_once(alloc: Global, stream: &Stream, question: Question, read: u64) -> Result<bool, Fail> {
    let [old, new, ..] = stream.versions.as_slice() else {
        return Err("no version".into());
    };
    let roots = Roots {
        old: old.root,
        new: new.root,
    };
    let mut nodes = DiskNodes::new(disk_of(alloc, &stream.blocks, 256, 0, &[read])?);
    let has_failed = match question.of_pages(alloc, &mut nodes, roots) {
        Err(fault) => fault == NodeFault::Failed,
        Ok(_) => false,
    };
    let mut tally = Tally::new();
    ask(alloc, &mut nodes, old, new, question, &mut tally)?;
    Ok(has_failed && tally.agrees(1) && nodes.into_disk().faults() == 1)
}

/// Whether a question fails if any one of these reads fails, and then has the right answer.
fn fails_at_each(
    alloc: Global,
    stream: &Stream,
    question: Question,
    reads: &[u64],
) -> Result<bool, Fail> {
    for read in reads {
        if !fails_once(alloc, stream, question, *read)? {
            return Ok(false);
        }
    }
    Ok(true)
}

/// Each question reads one page at each height, and then a bottom span.
#[test]
fn after_a_failed_read_the_answer_is_right(rt: HostRuntime) -> Result<(), Fail> {
    let stream = stream_of(rt.alloc(), TALL)?;
    for question in QUESTIONS {
        assert!(rt; fails_at_each(rt.alloc(), &stream, *question, &[0, 1, 5, 10])?);
    }
    // a comparison with the version of no points reads 74 pages
    assert!(rt; fails_at_each(rt.alloc(), &stream, Question::Changes(0), &[37, 73])?);
    Ok(())
}
