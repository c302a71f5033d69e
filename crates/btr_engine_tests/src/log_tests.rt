//! The log over a device in memory.
ghost use Rattle.std.specs.Prelude.{◌≡◌, ◌<◌, ◌≤◌, ◌^◌, ◌++◌, length, IfOk};
ghost use Rattle.btr_log.specs.Head.{content_blocks, IsHead};
ghost use Rattle.btr_log.specs.Extents.{IsBody};
ghost use Rattle.btr_log.specs.Log.{log_blocks};
ghost use Rattle.btr_log.specs.Append.{IsAppendRun};

use crate::fixture::no_wrong;
use btr_disk::bytes::put;
use btr_disk::{
    BLOCK, Capacity, Disk, GATE_MARK, HeldBlocks, MemDisk, NoBlocks, Parts, is_open_gate,
};
use btr_log::laws::is_same_head;
use btr_log::*;
use std::alloc::{AllocError, Global};
use std::test::Fail;

const CAPACITY: Capacity = Capacity {
    calls: 32,
    blocks: 64,
};

/// The head of an entry with the number 1 and 5 bytes of content, written out by hand.
const ENTRY: [u8; HEAD_BYTES] = [
    0x42, 0x54, 0x52, 0x2d, 0x42, 0x4f, 0x44, 0x59, 0, 0, 0, 1, 0, 0, 0, 1, 0, 0, 0, 0, 0, 0, 0, 1,
    0, 0, 0, 0, 0, 0, 0, 1, 0, 0, 0, 0, 0, 0, 0, 5, 0, 0, 0, 0, 0, 0, 0, 0, 0, 0, 0, 0, 0, 0, 0, 0,
    0, 0, 0, 0, 0, 0, 0, 0,
];

#[test]
fn a_head_is_spelled_as_by_hand(rt: HostRuntime) {
    let head = Head {
        kind: 1,
        format: 1,
        number: 1,
        n: 1,
        length: 5,
        nodes: 0,
        root: 0,
    };
    assert!(rt; Head::for_entry(1, 1, 5, 0, 0) == head);
    let mut bytes = [7; HEAD_BYTES];
    head.encode(&mut bytes);
    assert!(rt; bytes == ENTRY);
    assert!(rt; Head::decode(&ENTRY) == Some(head));
    assert!(rt; is_same_head(&head, &head));
}

/// The head of a checkpoint after 2 entries, with 53 bytes of content, written out by hand.
const CHECKPOINT: [u8; HEAD_BYTES] = [
    0x42, 0x54, 0x52, 0x2d, 0x42, 0x4f, 0x44, 0x59, 0, 0, 0, 2, 0, 0, 0, 1, 0, 0, 0, 0, 0, 0, 0, 2,
    0, 0, 0, 0, 0, 0, 0, 1, 0, 0, 0, 0, 0, 0, 0, 53, 0, 0, 0, 0, 0, 0, 0, 0, 0, 0, 0, 0, 0, 0, 0,
    0, 0, 0, 0, 0, 0, 0, 0, 0,
];

#[test]
fn a_head_of_a_checkpoint_is_spelled_as_by_hand(rt: HostRuntime) {
    let head = Head {
        kind: 2,
        format: 1,
        number: 2,
        n: 1,
        length: 53,
        nodes: 0,
        root: 0,
    };
    assert!(rt; Head::for_checkpoint(1, 2, 53) == head);
    let mut bytes = [7; HEAD_BYTES];
    head.encode(&mut bytes);
    assert!(rt; bytes == CHECKPOINT);
    assert!(rt; Head::decode(&CHECKPOINT) == Some(head));
}

/// A body with this head, and sevens after it.
fn body_of(alloc: Global, head: &Head) -> Result<Vec<u8>, AllocError>
    requires head { IsHead head.now }
    requires few { head.now.n ≤ 2 ^ 20 }
    ensures { IfOk result (λ body. IsBody body.items head.now) }
{
    let mut bytes = [0; HEAD_BYTES];
    head.encode(&mut bytes);
    let mut body = vec![in alloc; 7; BLOCK * head.n as usize]?;
    put(&mut body, 0, &bytes);
    Ok(body)
}

/// A body with this head, and a block of zeros.
fn run_of(alloc: Global, head: &Head) -> Result<Parts, AllocError>
    requires head { IsHead head.now }
    requires few { head.now.n ≤ 2 ^ 20 }
    ensures { IfOk result (λ run. IsAppendRun run) }
{
    let mut run = Parts::of(alloc, body_of(alloc, head)?)?;
    run.push(vec![in alloc; 0; BLOCK]?)?;
    Ok(run)
}

/// A body with this head, and apart from it a block of zeros.
fn run_in_two(alloc: Global, head: &Head) -> Result<(Parts, Vec<u8>), AllocError>
    requires head { IsHead head.now }
    requires few { head.now.n ≤ 2 ^ 20 }
    ensures run { IfOk result (λ r. IsAppendRun (r.0 ++ r.1.items)) }
    ensures block { IfOk result (λ r. length r.1.items ≡ 4096) }
{
    let prefix = Parts::of(alloc, body_of(alloc, head)?)?;
    let zeros = vec![in alloc; 0; BLOCK]?;
    Ok((prefix, zeros))
}

/// The head of an entry with this number and a content of `length` bytes.
fn entry(number: u64, n: u64, length: u64) -> Head
    requires number { 1 ≤ number }
    requires blocks { n ≡ content_blocks length }
    ensures head { IsHead result }
    ensures blocks { result.n ≡ n }
{
    Head {
        kind: 1,
        format: 1,
        number,
        n,
        length,
        nodes: 0,
        root: 0,
    }
}

/// A log of `blocks` blocks on a device of zeros, empty from block 4 on.
fn log_of(alloc: Global, blocks: u64, failing: Vec<u64>) -> Result<Log<MemDisk>, AllocError>
    requires some { 5 ≤ blocks }
    requires few { blocks ≤ 2 ^ 10 }
    ensures { IfOk result (λ log. log_blocks log ≡ blocks) }
{
    let disk = MemDisk::new(alloc, blocks as usize, CAPACITY, failing)?;
    Ok(Log::at(disk, 4, blocks, 0))
}

/// What a log says: its tail, its room, its extents, and whether it is stopped.
type State = (u64, u64, u64, bool);

fn state_of(log: &Log<MemDisk>) -> State {
    (log.tail(), log.room(), log.extents(), log.stopped())
}

/// Appends a body with this head.
fn append(alloc: Global, log: &mut Log<MemDisk>, head: &Head) -> Result<(), Fail>
    requires head { IsHead head.now }
    requires few { head.now.n ≤ 2 ^ 20 }
    ensures { log_blocks log.new ≡ log_blocks log.old }
{
    match log.append(&run_of(alloc, head)?, &NoBlocks) {
        Ok(()) => Ok(()),
        Err(_) => Err("it was not appended".into()),
    }
}

/// A log of 16 blocks with a body of one block, and what it says.
fn one_appended(alloc: Global) -> Result<(Log<MemDisk>, State), Fail>
    ensures { IfOk result (λ r. log_blocks r.0 ≡ 16) }
{
    let mut log = log_of(alloc, 16, Vec::new(alloc))?;
    append(alloc, &mut log, &entry(1, 1, 4032))?;
    let state = state_of(&log);
    Ok((log, state))
}

/// The log with a second body, of two blocks, and what it says.
fn two_appended(alloc: Global) -> Result<(Log<MemDisk>, State), Fail>
    ensures { IfOk result (λ r. log_blocks r.0 ≡ 16) }
{
    let (mut log, _) = one_appended(alloc)?;
    append(alloc, &mut log, &entry(2, 2, 4033))?;
    let state = state_of(&log);
    Ok((log, state))
}

#[test]
fn an_append_moves_the_tail(rt: HostRuntime) -> Result<(), Fail> {
    let alloc = rt.alloc();
    let (_, first) = one_appended(alloc)?;
    let (_, second) = two_appended(alloc)?;
    assert!(rt; first == (6, 9, 1, false));
    assert!(rt; second == (9, 6, 2, false));
    Ok(())
}

/// What a log says whose holder has stopped it after a failed call, and what an append gives then.
fn stopped_by_its_holder(alloc: Global) -> Result<(State, Result<(), AppendFault>), Fail> {
    let mut log = log_of(alloc, 16, vec![in alloc; 0]?)?;
    if log.disk.sync().is_err() {
        log.stop();
    }
    let appended = log.append(&run_of(alloc, &entry(1, 1, 4032))?, &NoBlocks);
    Ok((state_of(&log), appended))
}

#[test]
fn a_log_is_stopped_by_its_holder(rt: HostRuntime) -> Result<(), Fail> {
    let (state, appended) = stopped_by_its_holder(rt.alloc())?;
    assert!(rt; state == (4, 11, 0, true));
    assert!(rt; appended == Err(AppendFault::Stopped { extents: 0 }));
    Ok(())
}

/// Whether the bytes are as many as the head says, the first is that of the mark, and the last is 7.
fn is_body_of(bytes: &[u8], head: &Head) -> bool
    requires { head.now.n ≤ 2 ^ 20 }
{
    bytes.len() as u64 == 4096 * head.n && matches!(bytes, [b'B', .., 7])
}

/// Whether an extent with this head is at a gate, and this gate follows.
fn is_extent(
    alloc: Global,
    log: &mut Log<MemDisk>,
    gate: u64,
    wanted: &Head,
    following: u64,
) -> bool
    requires gate { gate < log_blocks log.old }
    requires few { wanted.now.n ≤ 2 ^ 20 }
    ensures { log_blocks log.new ≡ log_blocks log.old }
{
    match log.read_extent(alloc, gate) {
        Ok(Found::Extent { head, body, next }) => {
            let is_whole = is_body_of(&body, wanted);
            is_whole && head == *wanted && next == following
        }
        _ => false,
    }
}

/// Whether a gate is closed.
fn is_closed(alloc: Global, log: &mut Log<MemDisk>, gate: u64) -> bool
    requires gate { gate < log_blocks log.old }
    ensures { log_blocks log.new ≡ log_blocks log.old }
{
    matches!(log.read_extent(alloc, gate), Ok(Found::Closed))
}

/// Whether the two bodies are found, and two closed gates after them; the calls of the device, and its faults.
fn found_in_two(alloc: Global) -> Result<([bool; 4], u64, u64), Fail> {
    let (mut log, _) = two_appended(alloc)?;
    let found = [
        is_extent(alloc, &mut log, 4, &entry(1, 1, 4032), 6),
        is_extent(alloc, &mut log, 6, &entry(2, 2, 4033), 9),
        is_closed(alloc, &mut log, 9),
        is_closed(alloc, &mut log, 15),
    ];
    let disk = log.into_disk();
    Ok((found, disk.calls(), disk.faults()))
}

#[test]
fn what_is_appended_is_found(rt: HostRuntime) -> Result<(), Fail> {
    let (found, calls, faults) = found_in_two(rt.alloc())?;
    assert!(rt; found == [true, true, true, true]);
    // four calls for each append, one to find a body of one block or none, and two for the other
    assert!(rt; calls == 13);
    assert!(rt; faults == 0);
    Ok(())
}

/// Whether the first gate and the gate at the tail are open on the device.
fn open_gates(alloc: Global) -> Result<(bool, bool), Fail> {
    let (log, _) = two_appended(alloc)?;
    let bytes = log.into_disk().into_bytes();
    let first = is_open_gate(&bytes[BLOCK * 4..]);
    let last = is_open_gate(&bytes[BLOCK * 9..]);
    Ok((first, last))
}

#[test]
fn the_gate_at_the_tail_is_closed(rt: HostRuntime) -> Result<(), Fail> {
    assert!(rt; open_gates(rt.alloc())? == (true, false));
    Ok(())
}

/// Appends a body of two blocks, with the block of zeros from a source, to a log of this many blocks. Returns what the append gave, what
/// the log says, and the calls of the device.
fn two_blocks_in(
    alloc: Global,
    blocks: u64,
) -> Result<(Result<(), AppendFault>, State, u64), AllocError>
    requires some { 5 ≤ blocks }
    requires few { blocks ≤ 2 ^ 10 }
{
    let (prefix, zeros) = run_in_two(alloc, &entry(1, 2, 5000))?;
    let mut log = log_of(alloc, blocks, Vec::new(alloc))?;
    let appended = log.append(&prefix, &HeldBlocks::new(&zeros));
    let state = state_of(&log);
    Ok((appended, state, log.into_disk().calls()))
}

#[test]
fn an_append_needs_its_blocks_and_one_more(rt: HostRuntime) -> Result<(), Fail> {
    let alloc = rt.alloc();
    // gates at 4 and 7, and the body between
    let (fits, state, _) = two_blocks_in(alloc, 8)?;
    assert!(rt; fits == Ok(()));
    assert!(rt; state.1 == 0);
    let (full, state, calls) = two_blocks_in(alloc, 7)?;
    assert!(rt; full == Err(AppendFault::Full { need: 3, left: 2 }));
    assert!(rt; (state.0, state.3, calls) == (4, false, 0));
    Ok(())
}

/// Appends twice to a log whose device fails at a call. Returns what both gave, whether the log was stopped between, what it says, and
/// the calls of the device.
fn appended_twice(
    alloc: Global,
    call: u64,
) -> Result<([Result<(), AppendFault>; 2], bool, State, u64), AllocError> {
    let run = run_of(alloc, &entry(1, 1, 0))?;
    let mut log = log_of(alloc, 8, vec![in alloc; call]?)?;
    let first = log.append(&run, &NoBlocks);
    let is_stopped = log.stopped();
    let second = log.append(&run, &NoBlocks);
    let state = state_of(&log);
    Ok(([first, second], is_stopped, state, log.into_disk().calls()))
}

/// A call that fails, and the calls of the device in the end.
const FAILING: &[(u64, u64)] = &[(0, 1), (1, 2), (2, 3), (3, 4)];

/// Whether a log is stopped by a failed call.
fn stops(alloc: Global, call: u64, calls: u64) -> Result<bool, AllocError> {
    let (appended, is_stopped, state, called) = appended_twice(alloc, call)?;
    let wanted = [
        Err(AppendFault::Fault),
        Err(AppendFault::Stopped { extents: 0 }),
    ];
    Ok(appended == wanted && is_stopped && state.0 == 4 && called == calls)
}

fn first_that_goes_on(alloc: Global) -> Result<Option<usize>, AllocError> {
    for (row, (call, calls)) in FAILING.iter().enumerate() {
        if !stops(alloc, *call, *calls)? {
            return Ok(Some(row));
        }
    }
    Ok(None)
}

#[test]
fn a_log_whose_device_failed_is_stopped(rt: HostRuntime) -> Result<(), Fail> {
    no_wrong(first_that_goes_on(rt.alloc())?)
}

/// Eight blocks of zeros, but for an open gate and the bytes after it.
fn image_of(alloc: Global, gate: usize, head: &[u8]) -> Result<Vec<u8>, AllocError>
    requires gate { gate ≤ 6 }
    requires head { length head.now ≤ 4096 }
    ensures { IfOk result (λ bytes. length bytes.items ≡ 32768) }
{
    let mut bytes = vec![in alloc; 0; 8 * BLOCK]?;
    open_at(&mut bytes, gate, head);
    Ok(bytes)
}

fn open_at(bytes: &mut [u8], gate: usize, head: &[u8])
    requires gate { gate ≤ 6 }
    requires head { length head.now ≤ 4096 }
    requires blocks { length bytes.old ≡ 32768 }
{
    put(bytes, BLOCK * gate, &GATE_MARK);
    put(bytes, BLOCK * (gate + 1), head);
}

/// What is found at a gate of such an image.
fn found_at(
    alloc: Global,
    gate: usize,
    head: &[u8],
    asked: u64,
) -> Result<Result<Found, ExtentFault>, AllocError>
    requires gate { gate ≤ 6 }
    requires head { length head.now ≤ 4096 }
    requires asked { asked < 8 }
{
    let bytes = image_of(alloc, gate, head)?;
    let disk = MemDisk::from_bytes(alloc, bytes, CAPACITY, Vec::new(alloc))?;
    Ok(Log::at(disk, 4, 8, 0).read_extent(alloc, asked))
}

/// What is found at a gate, in short.
#[derive(Clone, Copy, PartialEq, Eq)]
enum Seen {
    /// The block that breaks the format.
    Damaged(u64),

    /// The gate that follows the extent.
    Extent(u64),

    Else,
}

/// What is seen at a gate of such an image.
fn seen_at(alloc: Global, gate: usize, head: &[u8], asked: u64) -> Result<Seen, AllocError>
    requires gate { gate ≤ 6 }
    requires head { length head.now ≤ 4096 }
    requires asked { asked < 8 }
{
    Ok(match found_at(alloc, gate, head, asked)? {
        Err(ExtentFault::Damaged { block }) => Seen::Damaged(block),
        Ok(Found::Extent { next, .. }) => Seen::Extent(next),
        _ => Seen::Else,
    })
}

/// The head by hand with another byte at `at`.
fn changed(at: usize, value: u8) -> [u8; HEAD_BYTES] {
    let mut head = ENTRY;
    if let Some(byte) = head.get_mut(at) {
        *byte = value;
    }
    head
}

/// A byte of the head by hand, its value, and what is seen.
const BYTES: &[(usize, u8, Seen)] = &[
    // a mark, a kind that is none, no checkpoint's number 0 as an entry's, formats, a number, n too
    // small and too great, a length that asks for two blocks, a node block, and a byte that is to be 0
    (0, b'b', Seen::Damaged(5)),
    (7, b'y', Seen::Damaged(5)),
    (8, 1, Seen::Damaged(5)),
    (11, 0, Seen::Damaged(5)),
    (11, 3, Seen::Damaged(5)),
    (15, 0, Seen::Damaged(5)),
    (15, 5, Seen::Damaged(5)),
    (23, 0, Seen::Damaged(5)),
    (31, 0, Seen::Damaged(5)),
    (31, 2, Seen::Damaged(5)),
    (24, 0xff, Seen::Damaged(5)),
    (38, 0x10, Seen::Damaged(5)),
    (47, 1, Seen::Damaged(5)),
    (56, 1, Seen::Damaged(5)),
    (63, 1, Seen::Damaged(5)),
    // formats 2 to 4, another length in one block, and another root
    (15, 2, Seen::Extent(6)),
    (15, 3, Seen::Extent(6)),
    (15, 4, Seen::Extent(6)),
    (38, 15, Seen::Extent(6)),
    (39, 0, Seen::Extent(6)),
    (55, 9, Seen::Extent(6)),
];

fn first_unseen(alloc: Global) -> Result<Option<usize>, AllocError> {
    for (row, (at, value, wanted)) in BYTES.iter().enumerate() {
        if seen_at(alloc, 4, &changed(*at, *value), 4)? != *wanted {
            return Ok(Some(row));
        }
    }
    Ok(None)
}

#[test]
fn a_head_with_one_wrong_byte_is_damaged(rt: HostRuntime) -> Result<(), Fail> {
    no_wrong(first_unseen(rt.alloc())?)
}

/// Whether heads are read: of a checkpoint, of one with the number 0, of one with a root, and of one with a node block; and of an entry
/// with a node block.
fn are_heads() -> [bool; 5] {
    let mut head = changed(11, 2);
    let plain = Head::decode(&head).is_some();
    head[23] = 0;
    let first = Head::decode(&head).is_some();
    head[55] = 1;
    let rooted = Head::decode(&head).is_some();
    head[55] = 0;
    head[31] = 2;
    head[47] = 1;
    let with_node = Head::decode(&head).is_some();
    head[11] = 1;
    head[23] = 1;
    [
        plain,
        first,
        rooted,
        with_node,
        Head::decode(&head).is_some(),
    ]
}

#[test]
fn a_checkpoint_has_no_nodes_and_no_root(rt: HostRuntime) {
    assert!(rt; are_heads() == [true, true, false, false, true]);
}

#[test]
fn an_extent_has_room_for_the_next_gate(rt: HostRuntime) -> Result<(), Fail> {
    let alloc = rt.alloc();
    // gate 6, body 7, and no block 8
    assert!(rt; seen_at(alloc, 6, &ENTRY, 6)? == Seen::Damaged(7));
    assert!(rt; seen_at(alloc, 5, &ENTRY, 5)? == Seen::Extent(7));
    // an open gate at the last block
    assert!(rt; seen_at(alloc, 6, &GATE_MARK, 7)? == Seen::Damaged(7));
    Ok(())
}
