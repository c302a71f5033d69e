//! Runs of `checkpoint`: what they write, refuse and leave.
ghost use Rattle.std.specs.Prelude.{◌≡◌, ◌%◌, length, IfOk};

use super::device::{has_bytes, turned, written};
use super::fixture::{
    FOURTH_POINT, STORE, TWO_ENTRIES, device_of, empty_device, no_wrong, play, play_failing,
    play_parts, run_on, run_words, store_of,
};
use btr_disk::MemDisk;
use btr_io::{MemSink, MemSource};
use std::sync::Wait;
use std::test::Fail;
use std::thread::Threads;

/// A checkpoint of the two entries.
const CHECKPOINT: &str = "\
$ checkpoint
< checkpoint 2
= 0
";

/// The points of the stream that they make.
const QUESTIONS: &str = "\
$ ask
> range U 0 5 1
> streams
< ok 1 3
< 0 5
< 3 7
< 4 -2
< ok 2 1
< 11111111-1111-4111-8111-111111111111 1 plain
= 0
";

#[test]
fn answers_are_the_same_after_each_checkpoint(rt: HostRuntime) -> Result<(), Fail> {
    let once = [STORE, TWO_ENTRIES, CHECKPOINT, QUESTIONS];
    play_parts(&rt, &once)?;
    let twice = [STORE, TWO_ENTRIES, CHECKPOINT, CHECKPOINT, QUESTIONS];
    play_parts(&rt, &twice)
}

/// Three versions before a checkpoint and two after it. The last one has the points of the third.
const VERSIONS: &str = "\
$ live
> create U
> insert U 0 5 3 7 4 -2
> delete U 3 4
> insert U 4 -2
< ok 0 0
< ok 1 0
< ok 2 0
< ok 3 0
= 0
$ checkpoint
< checkpoint 4
= 0
$ live
> insert U 9 1
> delete U 9 10
> create U
< ok 4 0
< ok 5 0
< no exists
= 1
";

/// Questions about each version.
const OF_VERSIONS: &str = "\
$ ask
> info U 0
> range U 0 10 1
> range U 0 10 2
> range U 0 10 3
> range U 0 10 4
> range U 0 10 5
> changes U 1 3 2
> changes U 3 5 0
> range U 0 10 6
< ok 0 1
< plain 0 0
< ok 1 3
< 0 5
< 3 7
< 4 -2
< ok 2 2
< 0 5
< 4 -2
< ok 3 3
< 0 5
< 4 -2
< 4 -2
< ok 4 4
< 0 5
< 4 -2
< 4 -2
< 9 1
< ok 5 3
< 0 5
< 4 -2
< 4 -2
< ok 3 1
< 0 8
< ok 5 0
< no version 6 5
= 1
";

/// A checkpoint of all entries.
const OF_ALL: &str = "\
$ checkpoint
< checkpoint 6
= 0
";

#[test]
fn each_version_is_the_same_after_each_checkpoint(rt: HostRuntime) -> Result<(), Fail> {
    let some = [STORE, VERSIONS, OF_VERSIONS];
    play_parts(&rt, &some)?;
    let all = [STORE, VERSIONS, OF_ALL, OF_VERSIONS, OF_ALL, OF_VERSIONS];
    play_parts(&rt, &all)
}

const NO_STORE: &str = "\
$ checkpoint
< no store
= 6
";

const EMPTY: &str = "\
$ checkpoint
< checkpoint 0
= 0
$ ask
> streams
< ok 0 0
= 0
";

#[test]
fn an_empty_store_has_a_checkpoint_and_no_store_has_none(rt: HostRuntime) -> Result<(), Fail> {
    play_parts(
        &rt,
        &[NO_STORE, STORE, EMPTY, TWO_ENTRIES, CHECKPOINT, QUESTIONS],
    )
}

const TEN_BLOCKS: &str = "\
$ format --blocks 10
< formatted 10
= 0
";

const FULL: &str = "\
$ checkpoint
< no full 2 0
= 8
";

#[test]
fn a_checkpoint_that_does_not_fit_is_refused(rt: HostRuntime) -> Result<(), Fail> {
    play_parts(&rt, &[TEN_BLOCKS, TWO_ENTRIES, FULL, QUESTIONS])
}

const NO_USAGE: &str = "\
$ checkpoint 1
< no usage
= 2
$ checkpoint --blocks 64
< no usage
= 2
$ checkpoints
< no usage
= 2
";

#[test]
fn a_checkpoint_has_no_further_words(rt: HostRuntime) -> Result<(), Fail> {
    play(&rt, &[], NO_USAGE)
}

/// An output that is defined before a checkpoint, and computed before it.
const OUTPUT: &str = "\
$ live
> create V
> insert V 0 10 10 20 20 30
> distiller W sum 10 0 V
> refresh W
< ok 0 0
< ok 1 0
< ok 0 0
< ok 1 0
= 0
$ checkpoint
< checkpoint 4
= 0
";

/// A checkpoint after a second version of the output, and what both versions are.
const OF_OUTPUT: &str = "\
$ checkpoint
< checkpoint 6
= 0
$ ask
> info W 1
> info W 2
< ok 1 2
< output 3 90 10 50
< reads 1
< ok 2 2
< output 4 102 10 50
< reads 2
= 0
";

#[test]
fn outputs_go_on_after_a_checkpoint(rt: HostRuntime) -> Result<(), Fail> {
    play_parts(&rt, &[STORE, OUTPUT, FOURTH_POINT, OF_OUTPUT])
}

/// Two checkpoints of the two entries, of which one cannot be written.
const FAILING: &str = "\
$ checkpoint
< no device
= 5
$ ask
> range U 0 5 1
< ok 1 3
< 0 5
< 3 7
< 4 -2
= 0
$ checkpoint
< checkpoint 2
= 0
$ ask
> range U 3 4 1
< ok 1 1
< 3 7
= 0
";

/// The calls of the first checkpoint: three of the opening and nine of the checkpoint. The format made the calls 0 to 7, and the run of
/// the entries the calls 8 to 18.
const CALLS: &[u64] = &[19, 20, 21, 22, 23, 24, 25, 26, 27, 28, 29, 30];

#[test]
fn each_call_of_a_checkpoint_may_fail(rt: HostRuntime) -> Result<(), Fail> {
    for call in CALLS {
        play_failing(&rt, &[*call], &[STORE, TWO_ENTRIES, FAILING])?;
    }
    Ok(())
}

/// The superblock B, the gate 9, and the body of a checkpoint of the two entries, written by hand: the address and the bytes. The body has
/// one stream, which entry 1 made, with one version, which entry 2 made and whose root is block 8.
const FIRST: &[(usize, &[u8])] = &[
    (2 * 4096, b"BTR-GATE"),
    (
        3 * 4096,
        b"BTR-SUPR\0\0\0\x01\0\0\0\0\0\0\0\0\0\0\0\x02\0\0\0\0\0\0\0\x40\0\0\0\0\0\0\0\x0b\0\0\0\0\0\0\0\x09",
    ),
    (9 * 4096, b"BTR-GATE"),
    (
        10 * 4096,
        b"BTR-BODY\0\0\0\x02\0\0\0\x01\0\0\0\0\0\0\0\x02\0\0\0\0\0\0\0\x01\0\0\0\0\0\0\0\x35",
    ),
    (
        10 * 4096 + 64,
        b"\0\0\0\x01\x11\x11\x11\x11\x11\x11\x41\x11\x81\x11\x11\x11\x11\x11\x11\x11\0\0\0\0\0\0\0\x01\0\
          \0\0\0\0\0\0\0\x01\0\0\0\0\0\0\0\x02\0\0\0\0\0\0\0\x08",
    ),
];

/// The superblock A, the gate 11, and the body of a second checkpoint.
const SECOND: &[(usize, &[u8])] = &[
    (
        4096,
        b"BTR-SUPR\0\0\0\x01\0\0\0\0\0\0\0\0\0\0\0\x03\0\0\0\0\0\0\0\x40\0\0\0\0\0\0\0\x0d\0\0\0\0\0\0\0\x0b",
    ),
    (11 * 4096, b"BTR-GATE"),
    (
        12 * 4096,
        b"BTR-BODY\0\0\0\x02\0\0\0\x01\0\0\0\0\0\0\0\x02\0\0\0\0\0\0\0\x01\0\0\0\0\0\0\0\x35",
    ),
    (
        12 * 4096 + 64,
        b"\0\0\0\x01\x11\x11\x11\x11\x11\x11\x41\x11\x81\x11\x11\x11\x11\x11\x11\x11\0\0\0\0\0\0\0\x01\0\
          \0\0\0\0\0\0\0\x01\0\0\0\0\0\0\0\x02\0\0\0\0\0\0\0\x08",
    ),
];

/// Adds a checkpoint to two entries. Returns the device.
pub(super) fn marked(rt: &(impl AllocGlobal + Threads + Wait + Sync)) -> Result<MemDisk, Fail> {
    Ok(run_on(rt, "checkpoint", b"", written(rt)?)?.disk)
}

/// Adds two checkpoints to two entries. Returns the device.
fn marked_twice(rt: &(impl AllocGlobal + Threads + Wait + Sync)) -> Result<MemDisk, Fail> {
    Ok(run_on(rt, "checkpoint", b"", marked(rt)?)?.disk)
}

#[test]
fn the_bytes_of_a_checkpoint_are_those_of_its_format(rt: HostRuntime) -> Result<(), Fail> {
    // 19 calls to make the entries, three to open, and nine for the first checkpoint
    assert!(rt; has_bytes(&rt, marked(&rt)?, &[FIRST])? == (31, true));
    // then four to open: a sync, the superblocks, the log from block 9 on, and the blocks below it; and eleven for the second checkpoint
    assert!(rt; has_bytes(&rt, marked_twice(&rt)?, &[FIRST, SECOND])? == (46, true));
    Ok(())
}

/// Returns the bytes of the device with a checkpoint.
fn marked_bytes(rt: &(impl AllocGlobal + Threads + Wait + Sync)) -> Result<Vec<u8>, Fail>
    ensures { IfOk result (λ bytes. length bytes.items % 4096 ≡ 0) }
{
    Ok(marked(rt)?.into_bytes())
}

/// A byte of which a bit is turned, and the text and the status of another checkpoint. Of the content: its mark, the kind, the number, the
/// root and a zero after it; its id, of which any will do. Of the superblock B: the tail, the checkpoint, and its seq, which is 3 then. The
/// gate of B, without which A counts; the gate 9, without which there is no checkpoint; and the gate 11, which stays closed. Of the entries
/// before it: gates and bodies, which are not read; the leaf, which is no page then; and its stream and version, with which it is another
/// root.
const TURNED: &[(usize, &str, u8)] = &[
    (10 * 4096, "no damaged 10\n", 7),
    (10 * 4096 + 11, "no damaged 10\n", 7),
    (10 * 4096 + 23, "no damaged 10\n", 7),
    (10 * 4096 + 116, "no damaged 10\n", 7),
    (10 * 4096 + 4095, "no damaged 10\n", 7),
    (10 * 4096 + 83, "checkpoint 2\n", 0),
    (3 * 4096 + 39, "no damaged 3\n", 7),
    (3 * 4096 + 47, "no damaged 3\n", 7),
    (3 * 4096 + 23, "checkpoint 2\n", 0),
    (2 * 4096, "checkpoint 2\n", 0),
    (9 * 4096, "no damaged 3\n", 7),
    (11 * 4096, "checkpoint 2\n", 0),
    (4 * 4096, "checkpoint 2\n", 0),
    (5 * 4096, "checkpoint 2\n", 0),
    (7 * 4096 + 23, "checkpoint 2\n", 0),
    (7 * 4096 + 4095, "checkpoint 2\n", 0),
    (8 * 4096, "no damaged 8\n", 7),
    (8 * 4096 + 39, "no damaged 8\n", 7),
    (8 * 4096 + 23, "no damaged 10\n", 7),
    (8 * 4096 + 30, "no damaged 10\n", 7),
];

fn first_wrong_byte(
    rt: &(impl AllocGlobal + Threads + Wait + Sync),
    whole: &Vec<u8>,
) -> Result<Option<usize>, Fail>
    requires { length whole.now.items % 4096 ≡ 0 }
{
    for (row, (at, text, status)) in TURNED.iter().enumerate() {
        let bytes = turned(whole.clone()?, *at);
        let ran = run_on(rt, "checkpoint", b"", device_of(rt.alloc(), bytes)?)?;
        if !ran.gave(text, *status) {
            return Ok(Some(row));
        }
    }
    Ok(None)
}

#[test]
fn a_wrong_checkpoint_or_superblock_is_damage(rt: HostRuntime) -> Result<(), Fail> {
    let whole = marked_bytes(&rt)?;
    no_wrong(first_wrong_byte(&rt, &whole)?)
}

/// Adds a checkpoint while the sink fails at its first call. Returns the status, and the text that a question then gives.
fn unwritten(rt: &(impl AllocGlobal + Threads + Wait + Sync)) -> Result<(u8, bool), Fail> {
    let alloc = rt.alloc();
    let mut source = MemSource::new(Vec::new(alloc), 7, Vec::new(alloc));
    let mut sink = MemSink::new(alloc, 100, 100, vec![in alloc; 0]?)?;
    let (status, disk) = run_words(rt, "checkpoint", &mut source, &mut sink, written(rt)?)?;
    let (calls, is_written) = has_bytes(rt, disk, &[FIRST])?;
    Ok((status, calls == 31 && is_written))
}

#[test]
fn a_checkpoint_is_there_if_the_sink_fails(rt: HostRuntime) -> Result<(), Fail> {
    assert!(rt; unwritten(&rt)? == (4, true));
    Ok(())
}

/// Runs a checkpoint with a source whose first call fails. Returns whether it writes what it writes otherwise.
fn reads_nothing(rt: &(impl AllocGlobal + Threads + Wait + Sync)) -> Result<bool, Fail> {
    let alloc = rt.alloc();
    let mut source = MemSource::new(Vec::new(alloc), 7, vec![in alloc; 0]?);
    let mut sink = MemSink::new(alloc, 100, 100, Vec::new(alloc))?;
    let (status, _) = run_words(
        rt,
        "checkpoint",
        &mut source,
        &mut sink,
        store_of(rt, "64")?,
    )?;
    Ok(status == 0 && sink.written() == b"checkpoint 0\n".as_slice())
}

/// Runs a checkpoint on a device that has no store. Returns the status and the calls of the device.
fn refused(rt: &(impl AllocGlobal + Threads + Wait + Sync)) -> Result<(u8, u64), Fail> {
    let ran = run_on(rt, "checkpoint", b"", empty_device(rt.alloc(), &[])?)?;
    Ok((ran.status, ran.disk.calls()))
}

#[test]
fn a_checkpoint_reads_no_input(rt: HostRuntime) -> Result<(), Fail> {
    assert!(rt; reads_nothing(&rt)?);
    // a sync and a read of the superblocks
    assert!(rt; refused(&rt)? == (6, 2));
    Ok(())
}
