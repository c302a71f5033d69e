//! Checkpoints on a device in memory: the bytes that they write, what is answered after them, and what a failure leaves of them.
ghost use Rattle.std.specs.Prelude.{◌≤◌};

use crate::fixture::{
    ID, Marked, MemEngine, empty_store, insert, mark, no_wrong, opened, put_piece, two_entries,
};
use btr_base::Point;
use btr_disk::{Fill, MemDisk};
use btr_engine::{Receipt, Snapshot, StepFault};
use btr_hist::{Answer, At, Query, Rows};
use btr_super::{ChooseFault, Super, choose};
use std::alloc::{AllocError, Global};
use std::test::Fail;

/// Returns an engine of two entries and this many checkpoints of them. The first checkpoint makes the calls 19 to 27 of the device, the
/// second the calls 28 to 38.
fn marked(alloc: Global, blocks: usize, failing: &[u64], count: u32) -> Result<MemEngine, Fail>
    requires { (8 ≤ blocks) × (blocks ≤ 64) }
{
    let mut engine = two_entries(alloc, blocks, failing)?;
    for _ in 0..count {
        mark(alloc, &mut engine, 2)?;
    }
    Ok(engine)
}

// ---- what is written

/// The superblock after this many checkpoints of a store of 64 blocks.
const fn superblock(seq: u64, side: u8, checkpoint: u64, tail: u64) -> Super {
    Super {
        seq,
        side,
        blocks: 64,
        tail,
        checkpoint,
        format: 1,
    }
}

/// What is chosen on a device, and the number of its calls before.
fn chosen_on(disk: MemDisk) -> (Result<Super, ChooseFault>, u64) {
    let mut disk = disk;
    let calls = disk.calls();
    (choose(&mut disk), calls)
}

/// What is chosen after this many checkpoints, and the number of calls before.
fn chosen_after(alloc: Global, count: u32) -> Result<(Result<Super, ChooseFault>, u64), Fail> {
    Ok(chosen_on(marked(alloc, 64, &[], count)?.into_disk()))
}

#[test]
fn a_checkpoint_is_named_by_the_superblock_on_the_other_side(rt: HostRuntime) -> Result<(), Fail> {
    let alloc = rt.alloc();
    assert!(rt; chosen_after(alloc, 0)? == (Ok(superblock(1, 0, 0, 4)), 19));
    assert!(rt; chosen_after(alloc, 1)? == (Ok(superblock(2, 1, 9, 11)), 28));
    assert!(rt; chosen_after(alloc, 2)? == (Ok(superblock(3, 0, 11, 13)), 39));
    Ok(())
}

/// Bytes of a device: their block, their offset there, and what they are.
type Piece = (usize, usize, &'static [u8]);

/// The superblock B and the gate 9.
const FIRST: &[Piece] = &[
    (2, 0, b"BTR-GATE"),
    (3, 0, b"BTR-SUPR"),
    (3, 8, &[0, 0, 0, 1, 0, 0, 0, 0]),
    (3, 16, &[0, 0, 0, 0, 0, 0, 0, 2]),
    (3, 24, &[0, 0, 0, 0, 0, 0, 0, 64]),
    (3, 32, &[0, 0, 0, 0, 0, 0, 0, 11]),
    (3, 40, &[0, 0, 0, 0, 0, 0, 0, 9]),
    (9, 0, b"BTR-GATE"),
];

/// The superblock A, of which three fields are new, and the gate 11.
const SECOND: &[Piece] = &[
    (1, 16, &[0, 0, 0, 0, 0, 0, 0, 3]),
    (1, 32, &[0, 0, 0, 0, 0, 0, 0, 13]),
    (1, 40, &[0, 0, 0, 0, 0, 0, 0, 11]),
    (11, 0, b"BTR-GATE"),
];

/// The body of either checkpoint, in one block: the head, with kind 2, format 1, number 2, n 1 and L 53; one stream: its id, its entry 1, a
/// plain one, with one version; of version 1 the entry 2 and the root 8.
const BODY: &[(usize, &[u8])] = &[
    (0, b"BTR-BODY"),
    (8, &[0, 0, 0, 2, 0, 0, 0, 1]),
    (16, &[0, 0, 0, 0, 0, 0, 0, 2]),
    (24, &[0, 0, 0, 0, 0, 0, 0, 1]),
    (32, &[0, 0, 0, 0, 0, 0, 0, 53]),
    (64, &[0, 0, 0, 1]),
    (68, &[0x11, 0x11, 0x11, 0x11, 0x11, 0x11, 0x41, 0x11]),
    (76, &[0x81, 0x11, 0x11, 0x11, 0x11, 0x11, 0x11, 0x11]),
    (84, &[0, 0, 0, 0, 0, 0, 0, 1]),
    (92, &[0]),
    (93, &[0, 0, 0, 0, 0, 0, 0, 1]),
    (101, &[0, 0, 0, 0, 0, 0, 0, 2]),
    (109, &[0, 0, 0, 0, 0, 0, 0, 8]),
];

/// Returns these bytes, but for these pieces, and with the body in a block.
fn with_checkpoint(bytes: Vec<u8>, pieces: &[Piece], block: usize) -> Vec<u8> {
    let mut bytes = bytes;
    for (block, offset, piece) in pieces {
        put_piece(&mut bytes, *block, *offset, piece);
    }
    for (offset, piece) in BODY {
        put_piece(&mut bytes, block, *offset, piece);
    }
    bytes
}

/// The bytes of the device after this many checkpoints.
fn bytes_after(alloc: Global, count: u32) -> Result<Vec<u8>, Fail> {
    Ok(marked(alloc, 64, &[], count)?.into_disk().into_bytes())
}

#[test]
fn a_checkpoint_writes_these_bytes_alone(rt: HostRuntime) -> Result<(), Fail> {
    let alloc = rt.alloc();
    let first = with_checkpoint(bytes_after(alloc, 0)?, FIRST, 10);
    assert!(rt; bytes_after(alloc, 1)?.as_slice() == first.as_slice());
    let second = with_checkpoint(first, SECOND, 12);
    assert!(rt; bytes_after(alloc, 2)?.as_slice() == second.as_slice());
    Ok(())
}

// ---- what is answered

/// The points of the commit.
const POINTS: [Point; 3] = [
    Point { time: 0, value: 5 },
    Point { time: 3, value: 7 },
    Point { time: 4, value: -2 },
];

/// Whether version 1 of the stream has the points of the commit.
fn has_points(alloc: Global, snapshot: &Snapshot) -> Result<bool, AllocError> {
    let query = Query::Points {
        stream: 0,
        from: 0,
        to: 5,
        at: At::Number(1),
    };
    match snapshot.answer(alloc, &query)? {
        Answer::Found {
            version: 1,
            rows: Rows::Points(points),
        } => Ok(points.as_slice() == POINTS.as_slice()),
        _ => Ok(false),
    }
}

/// What an engine has: the number of its entries, the stream of the id and its latest version, and whether its points are those of the
/// commit.
type Seen = (u64, Option<u32>, Option<u64>, bool);

/// What an engine of the two entries has.
const SEEN: Seen = (2, Some(0), Some(1), true);

fn seen(alloc: Global, engine: &MemEngine) -> Result<Seen, AllocError> {
    let snapshot = engine.admit()?;
    let has_points = has_points(alloc, &snapshot)?;
    Ok((
        engine.entries(),
        snapshot.find(ID),
        snapshot.latest(0),
        has_points,
    ))
}

/// What an engine has after this many checkpoints, and what it has when it is opened again.
fn seen_after(alloc: Global, count: u32) -> Result<(Seen, Seen), Fail> {
    let engine = marked(alloc, 16, &[], count)?;
    let before = seen(alloc, &engine)?;
    let engine = opened(alloc, engine.into_disk())?;
    let after = seen(alloc, &engine)?;
    Ok((before, after))
}

#[test]
fn answers_are_the_same_after_checkpoints(rt: HostRuntime) -> Result<(), Fail> {
    let alloc = rt.alloc();
    assert!(rt; seen_after(alloc, 1)? == (SEEN, SEEN));
    assert!(rt; seen_after(alloc, 2)? == (SEEN, SEEN));
    Ok(())
}

/// Adds a commit of one point.
fn step_one(
    alloc: Global,
    engine: &mut MemEngine,
) -> Result<Result<Receipt, StepFault>, AllocError> {
    let entry = insert(alloc, 0, &[(9, 9)])?;
    Ok(engine.step(alloc, &entry))
}

/// An engine of a store with this many checkpoints that was opened again and then had a commit and a checkpoint, and what these returned.
fn went_on(
    alloc: Global,
    count: u32,
) -> Result<(MemEngine, Result<Receipt, StepFault>, Marked), Fail> {
    let disk = marked(alloc, 64, &[], count)?.into_disk();
    let mut engine = opened(alloc, disk)?;
    let stepped = step_one(alloc, &mut engine)?;
    let marked = engine.checkpoint(alloc);
    Ok((engine, stepped, marked))
}

/// What the commit and the checkpoint return, and what is chosen then.
type Later = (
    Result<Receipt, StepFault>,
    Marked,
    Result<Super, ChooseFault>,
);

fn later(alloc: Global, count: u32) -> Result<Later, Fail> {
    let (engine, stepped, marked) = went_on(alloc, count)?;
    let (chosen, _) = chosen_on(engine.into_disk());
    Ok((stepped, marked, chosen))
}

/// What the engine has when it is opened once more.
fn seen_later(alloc: Global, count: u32) -> Result<Seen, Fail> {
    let (engine, _, _) = went_on(alloc, count)?;
    let engine = opened(alloc, engine.into_disk())?;
    Ok(seen(alloc, &engine)?)
}

#[test]
fn entries_and_checkpoints_go_on_after_a_checkpoint(rt: HostRuntime) -> Result<(), Fail> {
    let alloc = rt.alloc();
    let receipt = Receipt {
        number: 3,
        stream: 0,
        version: 2,
    };
    // after one checkpoint the commit has the gate 11, its head and a leaf; the second checkpoint has the gate 14, and A names it
    let first = (Ok(receipt), Ok(3), Ok(superblock(3, 0, 14, 16)));
    assert!(rt; later(alloc, 1)? == first);
    // after two the gates are 13 and 16, and B names the third checkpoint
    let second = (Ok(receipt), Ok(3), Ok(superblock(4, 1, 16, 18)));
    assert!(rt; later(alloc, 2)? == second);
    Ok(())
}

#[test]
fn versions_are_the_same_after_later_checkpoints(rt: HostRuntime) -> Result<(), Fail> {
    let alloc = rt.alloc();
    let wanted = (3, Some(0), Some(2), true);
    assert!(rt; seen_later(alloc, 1)? == wanted);
    assert!(rt; seen_later(alloc, 2)? == wanted);
    Ok(())
}

/// What a checkpoint of an empty store returns, and the entries of the engine when it is opened again.
fn marked_empty(alloc: Global) -> Result<(Marked, u64), Fail> {
    let mut engine = empty_store(alloc, 8, &[])?;
    let marked = engine.checkpoint(alloc);
    let engine = opened(alloc, engine.into_disk())?;
    Ok((marked, engine.entries()))
}

#[test]
fn a_store_without_entries_has_a_checkpoint(rt: HostRuntime) -> Result<(), Fail> {
    assert!(rt; marked_empty(rt.alloc())? == (Ok(0), 0));
    Ok(())
}

// ---- what is refused

/// What a checkpoint returns on a store of ten blocks, whether the engine is then stopped, and the calls of the device.
fn full(alloc: Global) -> Result<(Marked, bool, u64), Fail> {
    let mut engine = two_entries(alloc, 10, &[])?;
    let refused = engine.checkpoint(alloc);
    let is_stopped = engine.stopped();
    Ok((refused, is_stopped, engine.into_disk().calls()))
}

#[test]
fn a_checkpoint_that_does_not_fit_is_refused(rt: HostRuntime) -> Result<(), Fail> {
    let refused = Err(StepFault::DeviceFull { need: 2, left: 0 });
    assert!(rt; full(rt.alloc())? == (refused, false, 19));
    Ok(())
}

/// How many checkpoints there are before one in which a call of the device fails, and the number of the call: each of the nine calls of
/// the first checkpoint, and of the eleven of the second.
const FAILING: &[(u32, u64)] = &[
    (0, 19),
    (0, 20),
    (0, 21),
    (0, 22),
    (0, 23),
    (0, 24),
    (0, 25),
    (0, 26),
    (0, 27),
    (1, 28),
    (1, 29),
    (1, 30),
    (1, 31),
    (1, 32),
    (1, 33),
    (1, 34),
    (1, 35),
    (1, 36),
    (1, 37),
    (1, 38),
];

/// What an engine returns for two checkpoints and a commit.
type Attempts = (Marked, Marked, Result<Receipt, StepFault>);

/// What it returns if the device fails in the first of them.
const FAILED: Attempts = (
    Err(StepFault::DeviceFault),
    Err(StepFault::Stopped { entries: 2 }),
    Err(StepFault::Stopped { entries: 2 }),
);

fn attempts(alloc: Global, engine: &mut MemEngine) -> Result<Attempts, AllocError> {
    let first = engine.checkpoint(alloc);
    let second = engine.checkpoint(alloc);
    let stepped = step_one(alloc, engine)?;
    Ok((first, second, stepped))
}

/// What a crash leaves of blocks that were not synced.
const FILLS: &[Fill] = &[
    Fill::Written,
    Fill::Kept,
    Fill::Zeros,
    Fill::Ones,
    Fill::Gates,
];

/// Whether an image of a device has the two entries, and takes a checkpoint.
fn goes_on(alloc: Global, image: MemDisk) -> Result<bool, Fail> {
    let mut engine = opened(alloc, image)?;
    let before = seen(alloc, &engine)?;
    let marked = engine.checkpoint(alloc);
    Ok(before == SEEN && marked == Ok(2))
}

/// Whether each image of a device has the two entries, and takes a checkpoint.
fn each_goes_on(alloc: Global, disk: &MemDisk) -> Result<bool, Fail> {
    for fill in FILLS {
        if !goes_on(alloc, disk.image(alloc, *fill)?)? {
            return Ok(false);
        }
    }
    Ok(true)
}

/// Whether an engine whose device fails at a call stops, makes no further call, and loses no entry.
fn stops_at(alloc: Global, before: u32, call: u64) -> Result<bool, Fail> {
    let mut engine = marked(alloc, 16, &[call], before)?;
    let attempts = attempts(alloc, &mut engine)?;
    let is_stopped = engine.stopped();
    let disk = engine.into_disk();
    let is_counted = disk.calls() == call.saturating_add(1) && disk.faults() == 1;
    Ok(attempts == FAILED && is_stopped && is_counted && each_goes_on(alloc, &disk)?)
}

fn first_unsafe(alloc: Global) -> Result<Option<usize>, Fail> {
    for (row, (before, call)) in FAILING.iter().enumerate() {
        if !stops_at(alloc, *before, *call)? {
            return Ok(Some(row));
        }
    }
    Ok(None)
}

#[test]
fn each_call_of_a_checkpoint_may_fail(rt: HostRuntime) -> Result<(), Fail> {
    no_wrong(first_unsafe(rt.alloc())?)
}

// ---- seals

/// The superblock after a seal that follows this checkpoint or none.
const fn sealed_superblock(seq: u64, side: u8, checkpoint: u64, tail: u64) -> Super {
    Super {
        format: 4,
        ..superblock(seq, side, checkpoint, tail)
    }
}

/// What is chosen after this many checkpoints and a seal, and the number of calls before.
fn chosen_sealed(alloc: Global, count: u32) -> Result<(Result<Super, ChooseFault>, u64), Fail> {
    let mut engine = marked(alloc, 64, &[], count)?;
    if engine.seal(alloc) != Ok(2) {
        return Err("a seal was refused, or is of other entries".into());
    }
    Ok(chosen_on(engine.into_disk()))
}

#[test]
fn a_seal_is_in_the_superblock_that_names_its_checkpoint(rt: HostRuntime) -> Result<(), Fail> {
    let alloc = rt.alloc();
    assert!(rt; chosen_sealed(alloc, 0)? == (Ok(sealed_superblock(2, 1, 9, 11)), 28));
    assert!(rt; chosen_sealed(alloc, 1)? == (Ok(sealed_superblock(3, 0, 11, 13)), 39));
    Ok(())
}

/// Whether an engine says that it is sealed, and what a commit, a checkpoint and a seal return.
type Tries = (bool, Result<Receipt, StepFault>, Marked, Marked);

/// What a sealed engine says.
const SEALED: Tries = (
    true,
    Err(StepFault::Sealed),
    Err(StepFault::Sealed),
    Err(StepFault::Sealed),
);

fn tries(alloc: Global, engine: &mut MemEngine) -> Result<Tries, AllocError> {
    let is_sealed = engine.sealed();
    let stepped = step_one(alloc, engine)?;
    let checkpoint = engine.checkpoint(alloc);
    Ok((is_sealed, stepped, checkpoint, engine.seal(alloc)))
}

/// Whether an engine is not sealed, and then sealed, what it then says, and what it says when it is opened again.
fn sealed_twice(alloc: Global) -> Result<(bool, Tries, Tries, bool), Fail> {
    let mut engine = two_entries(alloc, 16, &[])?;
    let was_open = !engine.sealed() && engine.seal(alloc) == Ok(2);
    let first = tries(alloc, &mut engine)?;
    let mut again = opened(alloc, engine.into_disk())?;
    let second = tries(alloc, &mut again)?;
    Ok((was_open, first, second, seen(alloc, &again)? == SEEN))
}

#[test]
fn a_sealed_engine_takes_nothing_more(rt: HostRuntime) -> Result<(), Fail> {
    assert!(rt; sealed_twice(rt.alloc())? == (true, SEALED, SEALED, true));
    Ok(())
}

/// Whether an image of a device has the two entries, and is sealed then: by another seal, or already.
fn is_sealed_at_last(alloc: Global, image: MemDisk) -> Result<bool, Fail> {
    let mut engine = opened(alloc, image)?;
    let before = seen(alloc, &engine)?;
    let was_sealed = engine.sealed();
    let again = engine.seal(alloc);
    let is_told = (was_sealed && again == Err(StepFault::Sealed))
        || (!was_sealed && again == Ok(2));
    Ok(before == SEEN && is_told && engine.sealed())
}

/// Whether each image of a device has the two entries, and is sealed then.
fn each_is_sealed_at_last(alloc: Global, disk: &MemDisk) -> Result<bool, Fail> {
    for fill in FILLS {
        if !is_sealed_at_last(alloc, disk.image(alloc, *fill)?)? {
            return Ok(false);
        }
    }
    Ok(true)
}

/// What an engine returns for a seal and a commit, if the device fails in the seal.
const FAILED_SEAL: (Marked, Result<Receipt, StepFault>) = (
    Err(StepFault::DeviceFault),
    Err(StepFault::Stopped { entries: 2 }),
);

/// Whether an engine whose device fails at a call of a seal stops, and loses no entry.
fn stops_seal_at(alloc: Global, before: u32, call: u64) -> Result<bool, Fail> {
    let mut engine = marked(alloc, 16, &[call], before)?;
    let sealed = engine.seal(alloc);
    let told = (sealed, step_one(alloc, &mut engine)?);
    let is_open = engine.stopped() && !engine.sealed();
    let disk = engine.into_disk();
    Ok(told == FAILED_SEAL && is_open && each_is_sealed_at_last(alloc, &disk)?)
}

fn first_unsafe_seal(alloc: Global) -> Result<Option<usize>, Fail> {
    for (row, (before, call)) in FAILING.iter().enumerate() {
        if !stops_seal_at(alloc, *before, *call)? {
            return Ok(Some(row));
        }
    }
    Ok(None)
}

#[test]
fn each_call_of_a_seal_may_fail(rt: HostRuntime) -> Result<(), Fail> {
    no_wrong(first_unsafe_seal(rt.alloc())?)
}
