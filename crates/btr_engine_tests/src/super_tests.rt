//! Stores that are made on a device in memory, and the superblock that is chosen there.
ghost use Rattle.std.specs.Prelude.{◌≡◌, ◌*◌, ◌%◌, ◌≤◌, IfOk, length};

use crate::fixture::no_wrong;
use btr_disk::{Capacity, Disk, MemDisk};
use btr_super::*;
use std::alloc::{AllocError, Global};
use std::test::Fail;

const CAPACITY: Capacity = Capacity {
    calls: 16,
    blocks: 16,
};

/// The superblock of a store of eight blocks that has no entry.
const FIRST: Super = Super {
    seq: 1,
    side: 0,
    blocks: 8,
    tail: 4,
    checkpoint: 0,
    format: 1,
};

/// The bytes of `blocks` blocks, all of this value.
fn filled(alloc: Global, blocks: usize, value: u8) -> Result<Vec<u8>, AllocError>
    requires { blocks ≤ 16 }
    ensures { IfOk result (λ bytes. length bytes.items ≡ 4096 * blocks) }
{
    vec![in alloc; value; 4096 * blocks]
}

/// The bytes of a device of eight blocks of aa after a store was made on it.
fn formatted(alloc: Global) -> Result<Vec<u8>, AllocError>
    ensures { IfOk result (λ bytes. length bytes.items ≡ 32768) }
{
    let bytes = filled(alloc, 8, 0xaa)?;
    let mut disk = MemDisk::from_bytes(alloc, bytes, CAPACITY, Vec::new(alloc))?;
    let _ = format(&mut disk, 8);
    Ok(disk.into_bytes())
}

/// These bytes, but for a piece from `at` on, if it has room there.
fn with_piece(mut bytes: Vec<u8>, at: usize, piece: &[u8]) -> Vec<u8>
    ensures { length result.items ≡ length bytes.items }
{
    if at <= bytes.len() && piece.len() <= bytes.len() - at {
        bytes[at..at + piece.len()].copy_from_slice(piece);
    }
    bytes
}

/// The bytes of a device that has the same superblock on both sides.
fn twice(alloc: Global) -> Result<Vec<u8>, AllocError>
    ensures { IfOk result (λ bytes. length bytes.items ≡ 32768) }
{
    let mut side = formatted(alloc)?;
    side.truncate(8192);
    Ok(with_piece(formatted(alloc)?, 8192, &side))
}

/// What is chosen on a device of these bytes.
fn chosen(alloc: Global, bytes: Vec<u8>) -> Result<Result<Super, ChooseFault>, AllocError>
    requires { length bytes.items % 4096 ≡ 0 }
{
    let mut disk = MemDisk::from_bytes(alloc, bytes, CAPACITY, Vec::new(alloc))?;
    Ok(choose(&mut disk))
}

/// What is chosen on a device, and what a format gave.
type Chosen = Result<Super, ChooseFault>;

type Formatted = Result<(), FormatFault>;

/// Chooses on an empty device of nine blocks, makes a store of eight, chooses, makes a store of nine, and chooses again. Returns what was
/// chosen, what the formats gave, and the calls of the device after the first choice and each format.
fn made_twice(alloc: Global) -> Result<([Chosen; 3], [Formatted; 2], [u64; 3]), AllocError> {
    let mut disk = MemDisk::new(alloc, 9, CAPACITY, Vec::new(alloc))?;
    let empty = choose(&mut disk);
    let chosen_calls = disk.calls();
    let made = format(&mut disk, 8);
    let made_calls = disk.calls();
    let first = choose(&mut disk);
    let refused = format(&mut disk, 9);
    let refused_calls = disk.calls();
    let second = choose(&mut disk);
    Ok((
        [empty, first, second],
        [made, refused],
        [chosen_calls, made_calls, refused_calls],
    ))
}

#[test]
fn a_store_is_made_and_chosen(rt: HostRuntime) -> Result<(), Fail> {
    let (chosen, made, calls) = made_twice(rt.alloc())?;
    // another store is refused, with the gate's block, and the first one stays
    assert!(rt; chosen == [Err(ChooseFault::NotAStore), Ok(FIRST), Ok(FIRST)]);
    assert!(rt; made == [Ok(()), Err(FormatFault::Occupied { block: 0 })]);
    assert!(rt; calls == [1, 9, 13]);
    Ok(())
}

/// What a format of this many blocks gave on a device, and the calls of the device.
fn format_on(disk: MemDisk, blocks: u64) -> (Formatted, u64)
    requires { (8 ≤ blocks) × (blocks ≤ 16) }
{
    let mut disk = disk;
    let outcome = format(&mut disk, blocks);
    (outcome, disk.calls())
}

#[test]
fn a_device_that_is_too_small_is_not_called(rt: HostRuntime) -> Result<(), Fail> {
    let alloc = rt.alloc();
    let disk = MemDisk::new(alloc, 8, CAPACITY, Vec::new(alloc))?;
    let (outcome, calls) = format_on(disk, 9);
    let wanted = FormatFault::TooSmall {
        asked: 9,
        blocks: 8,
    };
    assert!(rt; outcome == Err(wanted));
    assert!(rt; calls == 0);
    Ok(())
}

/// The pieces of a new store, on a device of zeros: its gate, and in the block after it the mark, the format,
/// the number, the blocks and the tail.
const PIECES: [(usize, [u8; 8]); 6] = [
    (0, *b"BTR-GATE"),
    (4096, *b"BTR-SUPR"),
    (4104, [0, 0, 0, 1, 0, 0, 0, 0]),
    (4112, [0, 0, 0, 0, 0, 0, 0, 1]),
    (4120, [0, 0, 0, 0, 0, 0, 0, 8]),
    (4128, [0, 0, 0, 0, 0, 0, 0, 4]),
];

/// The bytes of a new store, by hand.
fn by_hand(alloc: Global) -> Result<Vec<u8>, AllocError> {
    let zeros = filled(alloc, 2, 0)?;
    let mut want = with_piece(filled(alloc, 8, 0xaa)?, 0, &zeros);
    for (at, piece) in PIECES {
        want = with_piece(want, at, &piece);
    }
    Ok(with_piece(want, 16384, &filled(alloc, 1, 0)?))
}

#[test]
fn the_bytes_of_a_new_store(rt: HostRuntime) -> Result<(), Fail> {
    let alloc = rt.alloc();
    let want = by_hand(alloc)?;
    assert!(rt; formatted(alloc)?.as_slice() == want.as_slice());
    Ok(())
}

/// A byte of the body, and a value with which the body breaks the table.
const BREAKS: [(u16, u8); 23] = [
    (0, b'X'),
    (7, b'X'),
    (8, 1),
    (11, 0),
    (11, 4),
    (12, 1),
    (15, 1),
    (16, 1),
    (23, 0),
    (23, 2),
    (27, 1),
    (31, 7),
    (31, 9),
    (39, 3),
    (39, 5),
    (39, 8),
    (40, 1),
    (47, 1),
    (47, 4),
    (48, 1),
    (55, 1),
    (55, 2),
    (4095, 1),
];

/// What is chosen if a byte of the body has this value.
fn chosen_with(alloc: Global, at: u16, value: u8) -> Result<Chosen, AllocError> {
    let bytes = with_piece(formatted(alloc)?, 4096 + at as usize, &[value]);
    chosen(alloc, bytes)
}

fn first_unbroken(alloc: Global) -> Result<Option<usize>, AllocError> {
    for (row, (at, value)) in BREAKS.iter().enumerate() {
        if chosen_with(alloc, *at, *value)? != Err(ChooseFault::Damaged { block: 1 }) {
            return Ok(Some(row));
        }
    }
    Ok(None)
}

#[test]
fn each_byte_of_a_body_counts(rt: HostRuntime) -> Result<(), Fail> {
    no_wrong(first_unbroken(rt.alloc())?)
}

/// The tail, the checkpoint and the number of a superblock of eight blocks, and whether it keeps the table: a checkpoint is from block 4 on
/// and below the tail, which is a block of the store, and the number is at most the tail less 3.
const STARTS: [(u8, u8, u8, bool); 14] = [
    (4, 0, 1, true),
    (4, 0, 2, false),
    (6, 0, 1, false),
    (5, 4, 1, true),
    (5, 4, 2, true),
    (5, 4, 3, false),
    (7, 4, 4, true),
    (7, 4, 5, false),
    (7, 6, 1, true),
    (8, 6, 1, false),
    (6, 6, 1, false),
    (6, 7, 1, false),
    (7, 3, 1, false),
    (4, 4, 1, false),
];

/// What is chosen if the superblock has this tail, checkpoint and number.
fn chosen_start(alloc: Global, tail: u8, checkpoint: u8, seq: u8) -> Result<Chosen, AllocError> {
    let bytes = with_piece(formatted(alloc)?, 4096 + 39, &[tail]);
    let bytes = with_piece(bytes, 4096 + 47, &[checkpoint]);
    chosen(alloc, with_piece(bytes, 4096 + 23, &[seq]))
}

/// What is to be chosen then.
fn wanted_start(tail: u8, checkpoint: u8, seq: u8, keeps: bool) -> Chosen {
    if !keeps {
        return Err(ChooseFault::Damaged { block: 1 });
    }
    Ok(Super {
        seq: u64::from(seq),
        side: 0,
        blocks: 8,
        tail: u64::from(tail),
        checkpoint: u64::from(checkpoint),
        format: 1,
    })
}

fn first_wrong_start(alloc: Global) -> Result<Option<usize>, AllocError> {
    for (row, (tail, checkpoint, seq, keeps)) in STARTS.iter().enumerate() {
        let want = wanted_start(*tail, *checkpoint, *seq, *keeps);
        if chosen_start(alloc, *tail, *checkpoint, *seq)? != want {
            return Ok(Some(row));
        }
    }
    Ok(None)
}

#[test]
fn a_superblock_says_where_the_reading_starts(rt: HostRuntime) -> Result<(), Fail> {
    no_wrong(first_wrong_start(rt.alloc())?)
}

/// The format of a superblock of eight blocks with tail 4, its number, and that at offset 48; and whether it keeps the table: the number
/// is at most the format, and that at offset 48 is 1 in format 4, which is that of a sealed store, and else 0.
const FORMATS: [(u8, u8, u8, bool); 15] = [
    (1, 2, 0, false),
    (2, 1, 0, true),
    (2, 2, 0, true),
    (2, 3, 0, false),
    (2, 1, 1, false),
    (3, 1, 0, true),
    (3, 3, 0, true),
    (3, 4, 0, false),
    (3, 3, 1, false),
    (4, 1, 1, true),
    (4, 4, 1, true),
    (4, 5, 1, false),
    (4, 4, 0, false),
    (4, 4, 2, false),
    (5, 1, 1, false),
];

/// What is chosen if the superblock has this format, this number, and this one at offset 48.
fn chosen_format(alloc: Global, format: u8, seq: u8, seal: u8) -> Result<Chosen, AllocError> {
    let bytes = with_piece(formatted(alloc)?, 4096 + 11, &[format]);
    let bytes = with_piece(bytes, 4096 + 55, &[seal]);
    chosen(alloc, with_piece(bytes, 4096 + 23, &[seq]))
}

/// What is to be chosen then.
fn wanted_format(format: u8, seq: u8, keeps: bool) -> Chosen {
    if !keeps {
        return Err(ChooseFault::Damaged { block: 1 });
    }
    Ok(Super {
        seq: u64::from(seq),
        side: 0,
        blocks: 8,
        tail: 4,
        checkpoint: 0,
        format: u32::from(format),
    })
}

fn first_wrong_format(alloc: Global) -> Result<Option<usize>, AllocError> {
    for (row, (format, seq, seal, keeps)) in FORMATS.iter().enumerate() {
        if chosen_format(alloc, *format, *seq, *seal)? != wanted_format(*format, *seq, *keeps) {
            return Ok(Some(row));
        }
    }
    Ok(None)
}

#[test]
fn superblocks_of_four_formats_keep_the_table(rt: HostRuntime) -> Result<(), Fail> {
    no_wrong(first_wrong_format(rt.alloc())?)
}

const SECOND: Super = Super {
    seq: 1,
    side: 1,
    blocks: 8,
    tail: 4,
    checkpoint: 0,
    format: 1,
};

/// A byte of a device that has the same superblock on both sides, and what is chosen if it is 0.
const SIDES: [(usize, Chosen); 7] = [
    (0, Ok(SECOND)),
    (7, Ok(SECOND)),
    (8, Err(ChooseFault::Damaged { block: 3 })),
    (8192, Ok(FIRST)),
    (8199, Ok(FIRST)),
    (4096, Err(ChooseFault::Damaged { block: 1 })),
    (12288, Err(ChooseFault::Damaged { block: 3 })),
];

/// What is chosen if a byte of a device that has the same superblock on both sides is 0.
fn chosen_without(alloc: Global, at: usize) -> Result<Chosen, AllocError> {
    let bytes = with_piece(twice(alloc)?, at, &[0]);
    chosen(alloc, bytes)
}

fn first_wrong_side(alloc: Global) -> Result<Option<usize>, AllocError> {
    for (row, (at, want)) in SIDES.iter().enumerate() {
        if chosen_without(alloc, *at)? != *want {
            return Ok(Some(row));
        }
    }
    Ok(None)
}

#[test]
fn the_sides_of_a_device(rt: HostRuntime) -> Result<(), Fail> {
    no_wrong(first_wrong_side(rt.alloc())?)
}

/// The blocks of a device whose superblock is on the second side, and what is chosen there.
const SIZES: [(u8, Chosen); 5] = [
    (0, Err(ChooseFault::NotAStore)),
    (2, Err(ChooseFault::NotAStore)),
    (3, Err(ChooseFault::Damaged { block: 3 })),
    (7, Err(ChooseFault::Damaged { block: 3 })),
    (8, Ok(SECOND)),
];

/// What is chosen on the first blocks of a device whose superblock is on the second side.
fn chosen_of(alloc: Global, blocks: u8) -> Result<Chosen, AllocError> {
    let mut bytes = with_piece(twice(alloc)?, 0, &[0]);
    bytes.truncate(4096 * blocks as usize);
    chosen(alloc, bytes)
}

fn first_wrong_size(alloc: Global) -> Result<Option<usize>, AllocError> {
    for (row, (blocks, want)) in SIZES.iter().enumerate() {
        if chosen_of(alloc, *blocks)? != *want {
            return Ok(Some(row));
        }
    }
    Ok(None)
}

#[test]
fn a_device_has_its_blocks_alone(rt: HostRuntime) -> Result<(), Fail> {
    no_wrong(first_wrong_size(rt.alloc())?)
}

#[test]
fn a_store_on_the_second_side_is_not_overwritten(rt: HostRuntime) -> Result<(), Fail> {
    let alloc = rt.alloc();
    let bytes = with_piece(twice(alloc)?, 0, &[0]);
    let disk = MemDisk::from_bytes(alloc, bytes, CAPACITY, Vec::new(alloc))?;
    let (outcome, calls) = format_on(disk, 8);
    assert!(rt; outcome == Err(FormatFault::Occupied { block: 2 }));
    assert!(rt; calls == 3);
    Ok(())
}

/// A call that fails, the calls of the device in the end, and what is then chosen. There is a store only if the last write was made.
const FAILING: [(u64, u64, Chosen); 8] = [
    (0, 1, Err(ChooseFault::NotAStore)),
    (1, 2, Err(ChooseFault::NotAStore)),
    (2, 3, Err(ChooseFault::NotAStore)),
    (3, 4, Err(ChooseFault::NotAStore)),
    (4, 5, Err(ChooseFault::NotAStore)),
    (5, 6, Err(ChooseFault::NotAStore)),
    (6, 7, Err(ChooseFault::NotAStore)),
    (7, 8, Ok(FIRST)),
];

/// What a format gave on a device whose call fails, the calls of the device, and what is chosen there.
fn failed_at(alloc: Global, call: u64) -> Result<(Formatted, u64, Chosen), AllocError> {
    let bytes = filled(alloc, 8, 0xaa)?;
    let mut disk = MemDisk::from_bytes(alloc, bytes, CAPACITY, vec![in alloc; call]?)?;
    let outcome = format(&mut disk, 8);
    let calls = disk.calls();
    Ok((outcome, calls, choose(&mut disk)))
}

fn first_wrong_failure(alloc: Global) -> Result<Option<usize>, AllocError> {
    for (row, (call, calls, want)) in FAILING.iter().enumerate() {
        if failed_at(alloc, *call)? != (Err(FormatFault::Fault), *calls, *want) {
            return Ok(Some(row));
        }
    }
    Ok(None)
}

#[test]
fn each_call_may_fail(rt: HostRuntime) -> Result<(), Fail> {
    no_wrong(first_wrong_failure(rt.alloc())?)
}

#[test]
fn a_failed_read_is_a_fault(rt: HostRuntime) -> Result<(), Fail> {
    let alloc = rt.alloc();
    let mut disk = MemDisk::new(alloc, 8, CAPACITY, vec![in alloc; 0]?)?;
    let outcome = choose(&mut disk);
    let faults = disk.faults();
    assert!(rt; outcome == Err(ChooseFault::Fault));
    assert!(rt; faults == 1);
    Ok(())
}
