//! Openings of devices with checkpoints that were changed: which block is named, which changes are not seen, and what is read.
ghost use Rattle.std.specs.Prelude.{◌≤◌};

use crate::fixture::{
    Change, MemEngine, Row, calls_of_opening, changed, damaged, device_of, first_other,
    first_wrong, insert, mark, no_wrong, opened, put_piece, step, two_entries,
};
use btr_base::{Bag, Point, Ranges};
use btr_disk::{Capacity, MemDisk};
use btr_engine::Snapshot;
use btr_hist::{Answer, At, Entry, Kernel, Query, Reads, Rows, Spec};
use btr_super::format;
use std::alloc::{AllocError, Global};
use std::test::Fail;

// ---- a stream and an output

/// The spec of an output: at each time of stream 0 the sum of the values of the last ten nanoseconds.
const SPEC: Spec = Spec {
    kernel: Kernel::Sum,
    lead: 10,
    grain: 0,
    first: 0,
    second: None,
};

/// The id of the output, which differs from that of the stream in its last byte.
const OUTPUT: u128 = 0x11111111_1111_4111_8111_111111111112;

/// Returns a distillate of stream 1 of one point that has read version 1 of its input.
fn distillate(alloc: Global) -> Result<Entry, AllocError> {
    let mut points = Vec::new(alloc);
    points.push(Point { time: 0, value: 5 })?;
    Ok(Entry::Distillate {
        stream: 1,
        cut: Ranges::none(alloc),
        added: Bag::from_points(points),
        reads: Reads {
            first: 1,
            second: None,
        },
    })
}

/// Adds an output with one version to two entries. Its extents have the gates 9 and 11, the leaf is block 13, and the tail is 14.
fn with_output(alloc: Global) -> Result<MemEngine, Fail> {
    let mut engine = two_entries(alloc, 32, &[])?;
    let define = Entry::Define {
        id: OUTPUT,
        spec: SPEC,
    };
    step(alloc, &mut engine, &define)?;
    let entry = distillate(alloc)?;
    step(alloc, &mut engine, &entry)?;
    Ok(engine)
}

/// The bytes of the device after this many checkpoints of these four entries. The first has the gate 14 and the body 15, and the superblock
/// B names it, with seq 2 and tail 16. The second has the gate 16 and the body 17, and the superblock A names it, with seq 3 and tail 18.
fn marked(alloc: Global, count: u32) -> Result<Vec<u8>, Fail> {
    let mut engine = with_output(alloc)?;
    for _ in 0..count {
        mark(alloc, &mut engine, 4)?;
    }
    Ok(engine.into_disk().into_bytes())
}

/// The first row that is wrong, on the device after this many checkpoints.
fn first_wrong_after(alloc: Global, count: u32, rows: &[Row]) -> Result<Option<usize>, Fail> {
    let whole = marked(alloc, count)?;
    first_wrong(alloc, &whole, rows)
}

// ---- the checkpoint at which the reading starts

/// The head, after the mark: kind, format, number, n, L, m, root and zeros.
///
/// An extent of an entry, in the second row of one and in the third of two blocks, is no checkpoint: the superblock is named. So it is if
/// the gate after the content is not its tail, as after 4222 or 61566 bytes; after 65662 bytes there is no room for a gate. Five entries
/// can be before the gate 14, as far as the format says, and six cannot; three did not make what the content says. In format 2 it
/// would have the first version of each stream, also if the superblock has that format.
const HEADS: &[Row] = &[
    (&[(15, 0, 0)], Some(15)),
    (&[(15, 11, 1)], Some(3)),
    (&[(15, 11, 1), (15, 31, 2), (15, 47, 1)], Some(3)),
    (&[(15, 11, 0)], Some(15)),
    (&[(15, 11, 3)], Some(15)),
    (&[(15, 8, 1)], Some(15)),
    (&[(15, 15, 0)], Some(15)),
    (&[(15, 15, 2)], Some(15)),
    (&[(3, 11, 2), (15, 15, 2)], Some(15)),
    (&[(3, 11, 2), (15, 15, 3)], Some(15)),
    (&[(15, 23, 0)], Some(15)),
    (&[(15, 23, 3)], Some(15)),
    (&[(15, 23, 5)], None),
    (&[(15, 23, 6)], Some(15)),
    (&[(15, 16, 255)], Some(15)),
    (&[(15, 31, 0)], Some(15)),
    (&[(15, 31, 2)], Some(15)),
    (&[(15, 24, 255)], Some(15)),
    (&[(15, 39, 125)], Some(15)),
    (&[(15, 39, 127)], Some(15)),
    (&[(15, 39, 0)], Some(15)),
    (&[(15, 32, 255)], Some(15)),
    (&[(15, 31, 2), (15, 38, 16)], Some(3)),
    (&[(15, 31, 2), (15, 38, 16), (3, 39, 17)], Some(15)),
    (&[(15, 31, 16), (15, 38, 240)], Some(3)),
    (&[(15, 31, 17), (15, 37, 1)], Some(15)),
    (&[(15, 47, 1)], Some(15)),
    (&[(15, 31, 2), (15, 47, 1)], Some(15)),
    (&[(15, 55, 8)], Some(15)),
    (&[(15, 48, 1)], Some(15)),
    (&[(15, 56, 1)], Some(15)),
    (&[(15, 63, 1)], Some(15)),
];

/// The content: the number of streams; of stream 0 the id, the entry, the kind, the versions; the entry of its version. Of stream 1 the
/// same, and between the kind and the versions the kernel, the lead, the grain, the number of inputs and the input; after the root the
/// number of reads and the read. Then the first zero after the content, and the last one.
///
/// A change that keeps the grammar is not seen: another id, another entry from 1 to the number in the head, another kernel, lead or grain,
/// and another version of the input that was read.
const CONTENTS: &[Row] = &[
    (&[(15, 67, 0)], Some(15)),
    (&[(15, 67, 1)], Some(15)),
    (&[(15, 67, 3)], Some(15)),
    (&[(15, 64, 1)], Some(15)),
    (&[(15, 83, 0x10)], None),
    (&[(15, 83, 0x12)], Some(15)),
    (&[(15, 91, 0)], Some(15)),
    (&[(15, 91, 2)], None),
    (&[(15, 91, 4)], None),
    (&[(15, 91, 5)], Some(15)),
    (&[(15, 84, 255)], Some(15)),
    (&[(15, 92, 1)], Some(15)),
    (&[(15, 92, 2)], Some(15)),
    (&[(15, 100, 0)], Some(15)),
    (&[(15, 100, 2)], Some(15)),
    (&[(15, 96, 1)], Some(15)),
    (&[(15, 108, 0)], Some(15)),
    (&[(15, 108, 1)], None),
    (&[(15, 108, 3)], None),
    (&[(15, 108, 5)], Some(15)),
    (&[(15, 132, 0x11)], Some(15)),
    (&[(15, 132, 0x13)], None),
    (&[(15, 140, 0)], Some(15)),
    (&[(15, 140, 4)], None),
    (&[(15, 140, 5)], Some(15)),
    (&[(15, 141, 0)], Some(15)),
    (&[(15, 141, 2)], Some(15)),
    (&[(15, 142, 0)], Some(15)),
    (&[(15, 142, 1)], Some(15)),
    (&[(15, 142, 3)], None),
    (&[(15, 142, 8)], Some(15)),
    (&[(15, 142, 11)], Some(15)),
    (&[(15, 150, 11)], None),
    (&[(15, 143, 16)], Some(15)),
    (&[(15, 151, 62)], None),
    (&[(15, 151, 63)], Some(15)),
    (&[(15, 152, 0)], Some(15)),
    (&[(15, 152, 2)], Some(15)),
    (&[(15, 156, 1)], Some(15)),
    (&[(15, 156, 2)], Some(15)),
    (&[(15, 164, 0)], Some(15)),
    (&[(15, 164, 2)], Some(15)),
    (&[(15, 172, 0)], Some(15)),
    (&[(15, 172, 3)], None),
    (&[(15, 172, 5)], Some(15)),
    (&[(15, 181, 0)], Some(15)),
    (&[(15, 181, 2)], Some(15)),
    (&[(15, 189, 0)], None),
    (&[(15, 189, 2)], Some(15)),
    (&[(15, 182, 255)], Some(15)),
    (&[(15, 190, 1)], Some(15)),
    (&[(15, 4095, 1)], Some(15)),
];

/// The roots of the versions of both streams.
///
/// 0 may be the root of each version. The content is named if a root is that of another stream, or the gate of the checkpoint, or a block
/// after it, inside the store or not. A root that is a block without a page is named itself, also if it is before the log.
const ROOTS: &[Row] = &[
    (&[(15, 116, 0)], None),
    (&[(15, 116, 13)], Some(15)),
    (&[(15, 116, 14)], Some(15)),
    (&[(15, 116, 15)], Some(15)),
    (&[(15, 116, 31)], Some(15)),
    (&[(15, 116, 200)], Some(15)),
    (&[(15, 109, 1)], Some(15)),
    (&[(15, 116, 3)], Some(3)),
    (&[(15, 116, 4)], Some(4)),
    (&[(15, 116, 7)], Some(7)),
    (&[(15, 116, 12)], Some(12)),
    (&[(15, 180, 0)], None),
    (&[(15, 180, 8)], Some(15)),
    (&[(15, 180, 14)], Some(15)),
    (&[(15, 180, 9)], Some(9)),
];

/// What is before the checkpoint. Gates and bodies of entries are not read. Of the leaves 8 and 13, which are the roots of the versions,
/// each field counts: the leaf is named if it is no page, and the content of the checkpoint if it is the page of another root.
const BEFORE: &[Row] = &[
    (&[(4, 0, 0)], None),
    (&[(5, 0, 0), (5, 64, 9)], None),
    (&[(6, 0, 0), (7, 23, 9), (7, 55, 31)], None),
    (&[(9, 0, 0), (10, 31, 200), (10, 4095, 1)], None),
    (&[(11, 3, 3), (12, 0, 0), (12, 47, 9)], None),
    (&[(8, 0, 0)], Some(8)),
    (&[(8, 15, 1)], Some(8)),
    (&[(8, 19, 9)], Some(8)),
    (&[(8, 39, 2)], Some(8)),
    (&[(8, 4095, 1)], Some(8)),
    (&[(8, 23, 1)], Some(15)),
    (&[(8, 31, 2)], Some(15)),
    (&[(13, 31, 0)], Some(13)),
    (&[(13, 23, 0)], Some(15)),
    (&[(13, 31, 2)], Some(15)),
    (&[(8, 0, 0), (15, 116, 0)], None),
];

#[test]
fn each_field_of_the_head_of_a_checkpoint_counts(rt: HostRuntime) -> Result<(), Fail> {
    no_wrong(first_wrong_after(rt.alloc(), 1, HEADS)?)
}

#[test]
fn a_checkpoint_that_keeps_the_grammar_is_taken(rt: HostRuntime) -> Result<(), Fail> {
    no_wrong(first_wrong_after(rt.alloc(), 1, CONTENTS)?)
}

#[test]
fn a_root_of_a_checkpoint_is_that_of_its_version(rt: HostRuntime) -> Result<(), Fail> {
    no_wrong(first_wrong_after(rt.alloc(), 1, ROOTS)?)
}

#[test]
fn the_pages_before_a_checkpoint_count_alone(rt: HostRuntime) -> Result<(), Fail> {
    no_wrong(first_wrong_after(rt.alloc(), 1, BEFORE)?)
}

/// Contents of 40 bytes that claim more than they have: 4294967295 streams; 65536 streams, the most that there can be; one stream with
/// 4294967295 versions, the most, and with 18446744073709551615; and 4294967295 streams, of which the first has as many versions. The last
/// one is the content of no stream, and 36 bytes after it.
const CLAIMS: &[[u8; 40]] = &[
    *b"\xff\xff\xff\xff\0\0\0\0\0\0\0\0\0\0\0\0\0\0\0\0\0\0\0\0\0\0\0\0\0\0\0\0\0\0\0\0\0\0\0\0",
    *b"\0\x01\0\0\0\0\0\0\0\0\0\0\0\0\0\0\0\0\0\0\0\0\0\0\0\0\0\x01\0\0\0\0\0\0\0\0\0\0\0\0",
    *b"\0\0\0\x01\0\0\0\0\0\0\0\0\0\0\0\0\0\0\0\x07\0\0\0\0\0\0\0\x01\0\0\0\0\0\xff\xff\xff\xff\0\0\0",
    *b"\0\0\0\x01\0\0\0\0\0\0\0\0\0\0\0\0\0\0\0\x07\0\0\0\0\0\0\0\x01\0\xff\xff\xff\xff\xff\xff\xff\xff\0\0\0",
    *b"\xff\xff\xff\xff\0\0\0\0\0\0\0\0\0\0\0\0\0\0\0\x07\0\0\0\0\0\0\0\x01\0\0\0\0\0\xff\xff\xff\xff\0\0\0",
    *b"\0\0\0\0\0\0\0\0\0\0\0\0\0\0\0\0\0\0\0\0\0\0\0\0\0\0\0\0\0\0\0\0\0\0\0\0\0\0\0\0",
];

/// The content of the checkpoint in body 15 with L 40 is this one.
fn with_content(alloc: Global, whole: &Vec<u8>, content: &[u8]) -> Result<Vec<u8>, AllocError> {
    let mut bytes = changed(alloc, whole, &[(15, 39, 40)], 0)?;
    put_piece(&mut bytes, 15, 64, &[0; 126]);
    put_piece(&mut bytes, 15, 64, content);
    Ok(bytes)
}

/// The first content that does not damage the checkpoint.
fn first_taken(alloc: Global, whole: &Vec<u8>) -> Result<Option<usize>, Fail> {
    for (number, content) in CLAIMS.iter().enumerate() {
        if damaged(alloc, with_content(alloc, whole, content)?)? != Some(15) {
            return Ok(Some(number));
        }
    }
    Ok(None)
}

#[test]
fn a_content_has_what_it_claims(rt: HostRuntime) -> Result<(), Fail> {
    let alloc = rt.alloc();
    let whole = marked(alloc, 1)?;
    no_wrong(first_taken(alloc, &whole)?)
}

// ---- superblocks

/// The superblock B, which is chosen: seq 2, tail 16 and checkpoint 14. No checkpoint; gates of entries, a leaf, bodies and the tail as
/// checkpoint; tails that are not the gate after it. Format 2 may have a log of format 1.
const SUPERBLOCKS: &[Row] = &[
    (&[(3, 11, 2)], None),
    (&[(3, 47, 0)], Some(3)),
    (&[(3, 47, 0), (3, 39, 4)], Some(3)),
    (&[(3, 47, 3)], Some(3)),
    (&[(3, 47, 4)], Some(3)),
    (&[(3, 47, 4), (3, 39, 6)], Some(3)),
    (&[(3, 47, 5)], Some(3)),
    (&[(3, 47, 11)], Some(3)),
    (&[(3, 47, 11), (3, 39, 14)], Some(3)),
    (&[(3, 47, 13)], Some(3)),
    (&[(3, 47, 15)], Some(3)),
    (&[(3, 47, 16)], Some(3)),
    (&[(3, 40, 1)], Some(3)),
    (&[(3, 39, 14)], Some(3)),
    (&[(3, 39, 15)], Some(3)),
    (&[(3, 39, 17)], Some(3)),
    (&[(3, 39, 31)], Some(3)),
    (&[(3, 39, 32)], Some(3)),
    (&[(3, 32, 1)], Some(3)),
];

/// Numbers of superblocks, and gates. Equal numbers are damage, and 13 is the greatest number with tail 16.
///
/// If the gate of B is closed, A is chosen, and the log is read from block 4: entries count, and the checkpoint is read over. If the gate
/// of A is closed, B stays. A checkpoint that is cut off leaves the superblock that names it wrong. What A says of a checkpoint is not
/// tested, but its table is.
const GATES: &[Row] = &[
    (&[(3, 23, 0)], Some(3)),
    (&[(3, 23, 1)], Some(3)),
    (&[(1, 23, 2)], Some(1)),
    (&[(1, 23, 2), (1, 39, 5), (1, 47, 4)], Some(3)),
    (&[(3, 23, 13)], None),
    (&[(3, 23, 14)], Some(3)),
    (&[(2, 0, 0)], None),
    (&[(2, 0, 0), (10, 0, 0)], Some(10)),
    (&[(2, 0, 0), (8, 0, 0)], Some(8)),
    (&[(2, 0, 0), (9, 0, 0)], None),
    (&[(2, 0, 0), (14, 0, 0)], None),
    (&[(2, 0, 0), (14, 0, 0), (15, 0, 0)], None),
    (&[(0, 0, 0)], None),
    (&[(0, 0, 0), (3, 47, 0), (3, 39, 4), (3, 23, 1)], None),
    (
        &[(0, 0, 0), (3, 47, 0), (3, 39, 4), (3, 23, 1), (7, 0, 0)],
        Some(7),
    ),
    (&[(14, 0, 0)], Some(3)),
    (&[(14, 7, 0), (15, 0, 0)], Some(3)),
    (&[(16, 7, 9), (17, 0, 9)], None),
    (&[(1, 47, 11), (1, 39, 12)], None),
    (&[(1, 8, 1)], Some(1)),
    (&[(1, 8, 1), (3, 8, 1)], Some(1)),
];

#[test]
fn a_superblock_names_a_checkpoint_and_the_gate_after_it(rt: HostRuntime) -> Result<(), Fail> {
    no_wrong(first_wrong_after(rt.alloc(), 1, SUPERBLOCKS)?)
}

#[test]
fn the_superblock_that_is_chosen_says_where_the_reading_starts(
    rt: HostRuntime,
) -> Result<(), Fail> {
    no_wrong(first_wrong_after(rt.alloc(), 1, GATES)?)
}

// ---- a checkpoint after the start

/// The bytes of the device after this many checkpoints, with these changes.
fn marked_but(alloc: Global, count: u32, changes: &[Change]) -> Result<Vec<u8>, Fail> {
    let whole = marked(alloc, count)?;
    Ok(changed(alloc, &whole, changes, 0)?)
}

/// The first row of each table of a checkpoint's fields whose changes, this many blocks later, do not damage this block.
fn first_passed_over(
    alloc: Global,
    whole: &Vec<u8>,
    later: usize,
    block: u64,
) -> Result<[Option<usize>; 3], Fail> {
    Ok([
        first_other(alloc, whole, HEADS, later, Some(block))?,
        first_other(alloc, whole, CONTENTS, later, Some(block))?,
        first_other(alloc, whole, ROOTS, later, Some(block))?,
    ])
}

/// The superblock B is closed, so the log is read from block 4: each change of the checkpoint is seen, also one that keeps the grammar.
#[test]
fn a_checkpoint_has_what_the_entries_before_it_say(rt: HostRuntime) -> Result<(), Fail> {
    let alloc = rt.alloc();
    let whole = marked_but(alloc, 1, &[(2, 0, 0)])?;
    assert!(rt; first_passed_over(alloc, &whole, 0, 15)? == [None, None, None]);
    Ok(())
}

/// The superblock A is closed, so the log is read from the first checkpoint on: each change of the second is seen.
#[test]
fn a_checkpoint_has_what_the_checkpoint_before_it_says(rt: HostRuntime) -> Result<(), Fail> {
    let alloc = rt.alloc();
    let whole = marked_but(alloc, 2, &[(0, 0, 0)])?;
    assert!(rt; first_passed_over(alloc, &whole, 2, 17)? == [None, None, None]);
    Ok(())
}

/// Two checkpoints: A is chosen, with seq 3, tail 18 and checkpoint 16. The first checkpoint is not read. A may name it in place of the
/// second, and B names it if A is closed: then the second has to agree with it. What B says of a checkpoint is not tested. Last, superblock
/// A is closed and B names no checkpoint.
const TWICE: &[Row] = &[
    (&[], None),
    (&[(15, 0, 0), (15, 116, 13)], None),
    (&[(14, 0, 0)], None),
    (&[(17, 116, 13)], Some(17)),
    (&[(15, 116, 13), (17, 116, 13)], Some(17)),
    (&[(16, 0, 0)], Some(1)),
    (&[(17, 0, 0)], Some(17)),
    (&[(1, 47, 14)], Some(1)),
    (&[(1, 47, 14), (1, 39, 16)], None),
    (&[(1, 47, 14), (1, 39, 16), (15, 83, 0x10)], Some(17)),
    (&[(1, 47, 11)], Some(1)),
    (&[(1, 47, 11), (17, 0, 0)], Some(1)),
    (&[(1, 39, 17)], Some(1)),
    (&[(3, 23, 3)], Some(3)),
    (&[(3, 47, 11)], None),
    (&[(3, 39, 17)], None),
    (&[(3, 39, 14)], Some(3)),
    (&[(0, 0, 0)], None),
    (&[(0, 0, 0), (16, 0, 0), (17, 0, 0)], None),
    (&[(0, 0, 0), (15, 83, 0x10)], Some(17)),
    (&[(0, 0, 0), (15, 83, 0x10), (17, 83, 0x10)], None),
    (&[(0, 0, 0), (15, 23, 5)], Some(17)),
    (&[(0, 0, 0), (15, 23, 5), (17, 23, 5)], None),
    (&[(0, 0, 0), (15, 116, 0)], Some(17)),
    (&[(0, 0, 0), (15, 116, 0), (17, 116, 0)], None),
    (&[(0, 0, 0), (15, 83, 0x12), (17, 83, 0x10)], Some(15)),
    (&[(0, 0, 0), (3, 47, 0), (3, 39, 4), (3, 23, 1)], None),
    (
        &[
            (0, 0, 0),
            (3, 47, 0),
            (3, 39, 4),
            (3, 23, 1),
            (17, 83, 0x10),
        ],
        Some(17),
    ),
    (
        &[
            (0, 0, 0),
            (3, 47, 0),
            (3, 39, 4),
            (3, 23, 1),
            (15, 83, 0x10),
            (17, 83, 0x10),
        ],
        Some(15),
    ),
];

#[test]
fn the_reading_starts_at_the_checkpoint_that_is_named(rt: HostRuntime) -> Result<(), Fail> {
    no_wrong(first_wrong_after(rt.alloc(), 2, TWICE)?)
}

// ---- many entries

/// Returns an engine of an empty store of this many blocks, on a device that keeps a record of many calls.
fn large_store(alloc: Global, blocks: usize) -> Result<MemEngine, Fail>
    requires { (8 ≤ blocks) × (blocks ≤ 1024) }
{
    let capacity = Capacity {
        calls: 640,
        blocks: 640,
    };
    let mut disk = MemDisk::new(alloc, blocks, capacity, Vec::new(alloc))?;
    if format(&mut disk, blocks as u64).is_err() {
        return Err("no store was made".into());
    }
    opened(alloc, disk)
}

/// Adds this many streams. Each extent has two blocks.
fn create(alloc: Global, engine: &mut MemEngine, count: u32) -> Result<(), Fail> {
    for number in 0..count {
        let id = u128::from(number);
        step(alloc, engine, &Entry::Create { id })?;
    }
    Ok(())
}

/// Returns an engine of 130 streams, and no points. Their extents have the gates 4 to 262, and the tail is 264.
fn many_streams(alloc: Global) -> Result<MemEngine, Fail> {
    let mut engine = large_store(alloc, 272)?;
    create(alloc, &mut engine, 130)?;
    Ok(engine)
}

/// The bytes of that store with a checkpoint: gate 264, and a content of 4294 bytes in the blocks 265 and 266.
fn many_marked(alloc: Global) -> Result<Vec<u8>, Fail> {
    let mut engine = many_streams(alloc)?;
    mark(alloc, &mut engine, 130)?;
    Ok(engine.into_disk().into_bytes())
}

/// The bytes, but for the blocks from one up to another, in which all bits are set.
fn with_ones(bytes: Vec<u8>, from: usize, to: usize) -> Vec<u8> {
    let mut bytes = bytes;
    for block in from..to {
        put_piece(&mut bytes, block, 0, &[255; 4096]);
    }
    bytes
}

/// The number of entries and the calls of an opening: without a checkpoint; with one; and with one after damage to all entries.
fn calls_of_openings(alloc: Global) -> Result<[(u64, u64); 3], Fail> {
    let unmarked = many_streams(alloc)?.into_disk().into_bytes();
    let marked = many_marked(alloc)?;
    let without = with_ones(marked.as_slice().to_vec(alloc)?, 4, 264);
    Ok([
        calls_of_opening(alloc, unmarked)?,
        calls_of_opening(alloc, marked)?,
        calls_of_opening(alloc, without)?,
    ])
}

/// An opening makes a sync, reads the superblocks, and then the log in pieces of 256 blocks: from block 4 in two pieces, or from block 264
/// in one, which has eight blocks. There is no page to be read.
#[test]
fn what_is_before_a_checkpoint_is_not_read(rt: HostRuntime) -> Result<(), Fail> {
    assert!(rt; calls_of_openings(rt.alloc())? == [(130, 4), (130, 3), (130, 3)]);
    Ok(())
}

/// Adds 16 commits of one point each to a stream. Each extent has three blocks, and the last one is its leaf.
fn commit(alloc: Global, engine: &mut MemEngine, stream: u32) -> Result<(), Fail> {
    for time in 0..16i64 {
        let entry = insert(alloc, stream, &[(time, 1)])?;
        step(alloc, engine, &entry)?;
    }
    Ok(())
}

/// Returns an engine of 115 streams, of which the last one has 16 versions. Those of version 1 to 16 have the gates 234, 237 and so on up
/// to 279, and the roots 236, 239 and so on up to 281. The tail is 282.
fn many_versions(alloc: Global) -> Result<MemEngine, Fail> {
    let mut engine = large_store(alloc, 300)?;
    create(alloc, &mut engine, 115)?;
    commit(alloc, &mut engine, 114)?;
    Ok(engine)
}

/// The bytes of that store with a checkpoint: gate 282, and a content of 4055 bytes in the blocks 283 and 284. The bytes of a root of a
/// version begin at offset 3871 for version 1 and 16 bytes later for each later one: those of the root of version 15 at offset 4095 of
/// block 283, and those of version 16 at offset 15 of block 284.
fn versions_marked(alloc: Global) -> Result<Vec<u8>, Fail> {
    let mut engine = many_versions(alloc)?;
    mark(alloc, &mut engine, 131)?;
    Ok(engine.into_disk().into_bytes())
}

/// Roots of the versions 15 and 16. The block is named in which the address begins, or the root itself if it has no page. Then the first
/// zero after the content.
const ADDRESSES: &[Row] = &[
    (&[], None),
    (&[(284, 6, 0x1a)], Some(283)),
    (&[(284, 6, 0x19)], Some(283)),
    (&[(283, 4095, 1)], Some(283)),
    (&[(284, 6, 0x17)], Some(279)),
    (&[(284, 6, 0x13)], None),
    (&[(284, 22, 0x1a)], Some(284)),
    (&[(284, 15, 1)], Some(284)),
    (&[(284, 22, 0x18)], Some(280)),
    (&[(284, 21, 0), (284, 22, 8)], Some(8)),
    (&[(284, 22, 0x16)], None),
    (&[(284, 23, 1)], Some(283)),
];

#[test]
fn a_wrong_root_is_named_by_the_block_of_its_address(rt: HostRuntime) -> Result<(), Fail> {
    let alloc = rt.alloc();
    let whole = versions_marked(alloc)?;
    no_wrong(first_wrong(alloc, &whole, ADDRESSES)?)
}

/// The number of points of a version of stream 114.
fn count_at(alloc: Global, snapshot: &Snapshot, number: u64) -> Result<Option<u64>, AllocError> {
    let query = Query::Points {
        stream: 114,
        from: 0,
        to: 16,
        at: At::Number(number),
    };
    match snapshot.answer(alloc, &query)? {
        Answer::Found {
            version,
            rows: Rows::Points(points),
        } if version == number => Ok(Some(points.as_slice().len() as u64)),
        _ => Ok(None),
    }
}

/// The first version of stream 114 whose number of points is not that of the version.
fn first_wrong_version(alloc: Global, snapshot: &Snapshot) -> Result<Option<usize>, AllocError> {
    for version in 0..17usize {
        if count_at(alloc, snapshot, version as u64)? != Some(version as u64) {
            return Ok(Some(version));
        }
    }
    Ok(None)
}

/// Returns a snapshot of that store, opened from its checkpoint.
fn versions_opened(alloc: Global) -> Result<Snapshot, Fail> {
    let bytes = versions_marked(alloc)?;
    let engine = opened(alloc, device_of(alloc, bytes, 16)?)?;
    Ok(engine.admit()?)
}

/// The pages below the checkpoint are read in runs of 256 blocks: after a sync, the superblocks and the blocks from the gate 282 on come
/// the blocks 0 to 255, which have the first root, and the blocks 256 to 281.
#[test]
fn each_version_is_read_from_its_root(rt: HostRuntime) -> Result<(), Fail> {
    let alloc = rt.alloc();
    assert!(rt; calls_of_opening(alloc, versions_marked(alloc)?)? == (131, 5));
    let snapshot = versions_opened(alloc)?;
    no_wrong(first_wrong_version(alloc, &snapshot)?)
}
