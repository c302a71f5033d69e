//! Runs of `ship` and `hear`: the frames of a store, and the store that takes them.
ghost use Rattle.std.specs.Prelude.{◌≡◌, ◌%◌, length, IfOk};

use super::checkpoints::marked;
use super::device::{has_bytes, turned, written};
use super::fixture::{Ran, device_of, empty_device, no_wrong, play, run_on, run_words, store_of};
use super::seals::sealed;
use super::stops::images_go_on;
use btr_disk::{Disk, FuseDisk, MemDisk};
use btr_io::{MemSink, MemSource};
use btr_top::{Outcome, run};
use std::alloc::{AllocError, Global};
use std::sync::Wait;
use std::test::Fail;
use std::thread::Threads;

// ---- frames, byte by byte

/// The first 20 bytes of the frame of entry 1: the mark, its number, and the number of its bytes, which is 17.
const HEAD_1: &[u8] = b"BTRF\0\0\0\0\0\0\0\x01\0\0\0\0\0\0\0\x11";

/// The entry that makes the stream `U`.
const CREATE: &[u8] = b"\x01\x11\x11\x11\x11\x11\x11\x41\x11\x81\x11\x11\x11\x11\x11\x11\x11";

/// The first 20 bytes of the frame of entry 2, which has 69 bytes.
const HEAD_2: &[u8] = b"BTRF\0\0\0\0\0\0\0\x02\0\0\0\0\0\0\0\x45";

/// The first 43 bytes of the commit of (0, 5), (3, 7) and (4, -2): its fields, the first point, and six bytes of a time.
const COMMIT: &[u8] = b"\x02\0\0\0\0\0\0\0\0\0\0\0\0\0\0\0\0\0\0\0\x03\
    \0\0\0\0\0\0\0\0\0\0\0\0\0\0\0\x05\0\0\0\0\0\0";

/// The other 26 bytes of that commit.
const COMMIT_END: &[u8] =
    b"\0\x03\0\0\0\0\0\0\0\x07\0\0\0\0\0\0\0\x04\xff\xff\xff\xff\xff\xff\xff\xfe";

/// A head of entry 2 in a frame of 17 bytes.
const OTHER_HEAD_2: &[u8] = b"BTRF\0\0\0\0\0\0\0\x02\0\0\0\0\0\0\0\x11";

/// Frames without bytes: of entry 0, of entry 1, and of the greatest number.
const EMPTY_0: &[u8] = b"BTRF\0\0\0\0\0\0\0\0\0\0\0\0\0\0\0\0";

const EMPTY_1: &[u8] = b"BTRF\0\0\0\0\0\0\0\x01\0\0\0\0\0\0\0\0";

const EMPTY_LAST: &[u8] = b"BTRF\xff\xff\xff\xff\xff\xff\xff\xff\0\0\0\0\0\0\0\0";

/// A head that asks for the greatest number of bytes.
const LONG_1: &[u8] = b"BTRF\0\0\0\0\0\0\0\x01\xff\xff\xff\xff\xff\xff\xff\xff";

/// What `ship` writes if the device fails before the first frame.
const LINE: &[u8] = b"no device\n";

/// A byte that begins no frame.
const BYTE: &[u8] = b"x";

/// Bytes, one piece after another.
type Pieces<'a> = &'a [&'a [u8]];

const NOTHING: Pieces<'static> = &[];

const FIRST: Pieces<'static> = &[HEAD_1, CREATE];

const SECOND: Pieces<'static> = &[HEAD_2, COMMIT, COMMIT_END];

const ALL: Pieces<'static> = &[HEAD_1, CREATE, HEAD_2, COMMIT, COMMIT_END];

const NO_DEVICE: Pieces<'static> = &[LINE];

/// Returns all bytes of these pieces.
fn joined(alloc: Global, pieces: Pieces<'_>) -> Result<Vec<u8>, AllocError> {
    let mut bytes = Vec::new(alloc);
    for piece in pieces {
        bytes.extend_from_slice(piece)?;
    }
    Ok(bytes)
}

// ---- what a store ships

/// Whether a run of these words on a device, with no input, writes these bytes and ends with this status.
fn writes(
    rt: &(impl AllocGlobal + Threads + Wait + Sync),
    words: &str,
    disk: MemDisk,
    pieces: Pieces<'_>,
    status: u8,
) -> Result<bool, Fail> {
    let wanted = joined(rt.alloc(), pieces)?;
    let ran = run_on(rt, words, b"", disk)?;
    Ok(ran.status == status && ran.text.as_slice() == wanted.as_slice())
}

/// Words, and the frames of the store of two entries that are written.
const FRAMES: &[(&str, Pieces<'static>)] = &[
    ("ship 1", ALL),
    ("ship 2", SECOND),
    ("ship 3", NOTHING),
    ("ship 18446744073709551615", NOTHING),
];

fn first_wrong_frames(
    rt: &(impl AllocGlobal + Threads + Wait + Sync),
) -> Result<Option<usize>, Fail> {
    for (row, (words, pieces)) in FRAMES.iter().enumerate() {
        if !writes(rt, words, written(rt)?, pieces, 0)? {
            return Ok(Some(row));
        }
    }
    Ok(None)
}

#[test]
fn a_store_ships_the_frames_of_its_entries(rt: HostRuntime) -> Result<(), Fail> {
    no_wrong(first_wrong_frames(&rt)?)
}

#[test]
fn a_checkpoint_is_not_shipped(rt: HostRuntime) -> Result<(), Fail> {
    assert!(rt; writes(&rt, "ship 1", marked(&rt)?, ALL, 0)?);
    assert!(rt; writes(&rt, "ship 3", marked(&rt)?, NOTHING, 0)?);
    Ok(())
}

/// Ships a device with the bytes of one that was written. Returns the device.
fn shipped(rt: &(impl AllocGlobal + Threads + Wait + Sync)) -> Result<MemDisk, Fail> {
    let disk = device_of(rt.alloc(), written(rt)?.into_bytes())?;
    Ok(run_on(rt, "ship 1", b"", disk)?.disk)
}

#[test]
fn shipping_makes_six_calls_and_writes_nothing(rt: HostRuntime) -> Result<(), Fail> {
    // a sync, the superblocks, the first extent, two of the second one, which has a page, and the closed gate after it
    assert!(rt; has_bytes(&rt, shipped(&rt)?, &[])? == (6, true));
    Ok(())
}

/// The lines of three damaged blocks.
const DAMAGED_1: &[u8] = b"no damaged 1\n";

const DAMAGED_5: &[u8] = b"no damaged 5\n";

const DAMAGED_7: &[u8] = b"no damaged 7\n";

/// A byte of which a bit is turned, words, what they write, and the status: the body of the superblock; the mark of the first entry, and
/// that of the second, behind a frame and before all frames; the gate of the second entry, without which there is one; its page, which is
/// not looked at. A store that is damaged takes no frames.
const DAMAGED: &[(usize, &str, Pieces<'static>, u8)] = &[
    (4096, "ship 1", &[DAMAGED_1], 7),
    (5 * 4096, "ship 1", &[DAMAGED_5], 7),
    (7 * 4096, "ship 1", FIRST, 7),
    (7 * 4096, "ship 2", &[DAMAGED_7], 7),
    (6 * 4096, "ship 1", FIRST, 0),
    (8 * 4096, "ship 1", ALL, 0),
    (7 * 4096, "hear", &[DAMAGED_7], 7),
];

/// Whether these words on a device with these bytes write this and end so.
fn writes_on(
    rt: &(impl AllocGlobal + Threads + Wait + Sync),
    bytes: Vec<u8>,
    words: &str,
    pieces: Pieces<'_>,
    status: u8,
) -> Result<bool, Fail>
    requires { length bytes.items % 4096 ≡ 0 }
{
    let disk = device_of(rt.alloc(), bytes)?;
    writes(rt, words, disk, pieces, status)
}

fn first_wrong_damage(
    rt: &(impl AllocGlobal + Threads + Wait + Sync),
    whole: &Vec<u8>,
) -> Result<Option<usize>, Fail>
    requires { length whole.now.items % 4096 ≡ 0 }
{
    for (row, (at, words, pieces, status)) in DAMAGED.iter().enumerate() {
        let bytes = turned(whole.clone()?, *at);
        if !writes_on(rt, bytes, words, pieces, *status)? {
            return Ok(Some(row));
        }
    }
    Ok(None)
}

/// Returns the bytes of the device with two entries.
fn written_bytes(rt: &(impl AllocGlobal + Threads + Wait + Sync)) -> Result<Vec<u8>, Fail>
    ensures { IfOk result (λ bytes. length bytes.items % 4096 ≡ 0) }
{
    Ok(written(rt)?.into_bytes())
}

#[test]
fn damage_after_a_frame_has_no_line(rt: HostRuntime) -> Result<(), Fail> {
    let whole = written_bytes(&rt)?;
    no_wrong(first_wrong_damage(&rt, &whole)?)
}

/// Makes the store of two entries on a device on which this call fails.
fn failing_leader(
    rt: &(impl AllocGlobal + Threads + Wait + Sync),
    call: u64,
) -> Result<MemDisk, Fail> {
    let empty = empty_device(rt.alloc(), &[call])?;
    let made = run_on(rt, "format --blocks 64", b"", empty)?;
    let script = b"create U\ninsert U 0 5 3 7 4 -2\n";
    Ok(run_on(rt, "live", script, made.disk)?.disk)
}

/// A call of the device that fails, words, and what is written: the line of a failure, or the frames before it. The format made the calls 0
/// to 7, and the run of the entries the calls 8 to 18. The six calls of `ship` follow.
const FAILED_SHIPPING: &[(u64, &str, Pieces<'static>)] = &[
    (19, "ship 1", NO_DEVICE),
    (20, "ship 1", NO_DEVICE),
    (21, "ship 1", NO_DEVICE),
    (22, "ship 1", FIRST),
    (23, "ship 1", FIRST),
    (24, "ship 1", ALL),
    (22, "ship 2", NO_DEVICE),
    (23, "ship 2", NO_DEVICE),
    (24, "ship 2", SECOND),
    (24, "ship 3", NO_DEVICE),
];

fn first_wrong_call(
    rt: &(impl AllocGlobal + Threads + Wait + Sync),
) -> Result<Option<usize>, Fail> {
    for (row, (call, words, pieces)) in FAILED_SHIPPING.iter().enumerate() {
        if !writes(rt, words, failing_leader(rt, *call)?, pieces, 5)? {
            return Ok(Some(row));
        }
    }
    Ok(None)
}

#[test]
fn each_call_of_a_ship_may_fail(rt: HostRuntime) -> Result<(), Fail> {
    no_wrong(first_wrong_call(&rt)?)
}

/// A call of a sink that takes 20 bytes a call which fails, and what is written then: the first call, one in each frame, the one between
/// the frames, and the flush after them.
const FAILED_SINK: &[(u64, Pieces<'static>)] = &[
    (0, NOTHING),
    (1, &[HEAD_1]),
    (2, FIRST),
    (3, &[HEAD_1, CREATE, HEAD_2]),
    (7, ALL),
];

/// Makes a sink that takes 20 bytes a call, and of which this call fails.
fn failing_sink(alloc: Global, call: u64) -> Result<MemSink, AllocError> {
    MemSink::new(alloc, 1000, 20, vec![in alloc; call]?)
}

/// Ships the store of two entries to a sink of which a call fails. Returns the status and what was written.
fn shipped_to(
    rt: &(impl AllocGlobal + Threads + Wait + Sync),
    call: u64,
) -> Result<(u8, Vec<u8>), Fail> {
    let alloc = rt.alloc();
    let mut source = MemSource::new(Vec::new(alloc), 7, Vec::new(alloc));
    let mut sink = failing_sink(alloc, call)?;
    let (status, _) = run_words(rt, "ship 1", &mut source, &mut sink, written(rt)?)?;
    Ok((status, sink.written().to_vec(alloc)?))
}

fn first_wrong_sink(
    rt: &(impl AllocGlobal + Threads + Wait + Sync),
) -> Result<Option<usize>, Fail> {
    for (row, (call, pieces)) in FAILED_SINK.iter().enumerate() {
        let wanted = joined(rt.alloc(), pieces)?;
        let (status, text) = shipped_to(rt, *call)?;
        if status != 4 || text.as_slice() != wanted.as_slice() {
            return Ok(Some(row));
        }
    }
    Ok(None)
}

#[test]
fn a_sink_that_fails_has_a_prefix_of_the_frames(rt: HostRuntime) -> Result<(), Fail> {
    no_wrong(first_wrong_sink(&rt)?)
}

// ---- what a follower takes

/// Makes a source of these bytes, of which the listed calls fail, and an empty sink.
fn ends_of(
    alloc: Global,
    pieces: Pieces<'_>,
    failing: &[u64],
) -> Result<(MemSource, MemSink), AllocError> {
    let source = MemSource::new(joined(alloc, pieces)?, 7, failing.to_vec(alloc)?);
    let sink = MemSink::new(alloc, 1000, 11, Vec::new(alloc))?;
    Ok((source, sink))
}

/// Has the store of a device hear these bytes.
fn heard(
    rt: &(impl AllocGlobal + Threads + Wait + Sync),
    pieces: Pieces<'_>,
    disk: MemDisk,
) -> Result<Ran, Fail> {
    let alloc = rt.alloc();
    let (mut source, mut sink) = ends_of(alloc, pieces, &[])?;
    let (status, disk) = run_words(rt, "hear", &mut source, &mut sink, disk)?;
    let text = sink.written().to_vec(alloc)?;
    Ok(Ran { text, status, disk })
}

/// Has an empty store hear all frames, twice. Returns whether it says so, and the device.
fn heard_twice(rt: &(impl AllocGlobal + Threads + Wait + Sync)) -> Result<(bool, MemDisk), Fail> {
    let first = heard(rt, ALL, store_of(rt, "64")?)?;
    let are_taken = first.gave("heard 2 stale 0 early 0 bad 0 rest 0\n", 0);
    let again = heard(rt, ALL, first.disk)?;
    let are_stale = again.gave("heard 0 stale 2 early 0 bad 0 rest 0\n", 0);
    Ok((are_taken && are_stale, again.disk))
}

#[test]
fn a_follower_takes_each_frame_once(rt: HostRuntime) -> Result<(), Fail> {
    let (is_said, disk) = heard_twice(&rt)?;
    let asked = run_on(&rt, "ask", b"range U 0 5 1\n", disk)?;
    assert!(rt; is_said && asked.gave("ok 1 3\n0 5\n3 7\n4 -2\n", 0));
    Ok(())
}

#[test]
fn a_follower_has_the_bytes_of_its_leader(rt: HostRuntime) -> Result<(), Fail> {
    let ran = heard(&rt, ALL, store_of(&rt, "64")?)?;
    // eight calls to format, three to open, and four for each entry
    assert!(rt; has_bytes(&rt, ran.disk, &[])? == (19, true));
    Ok(())
}

#[test]
fn a_follower_ships_what_it_heard(rt: HostRuntime) -> Result<(), Fail> {
    let (_, disk) = heard_twice(&rt)?;
    assert!(rt; writes(&rt, "ship 1", disk, ALL, 0)?);
    Ok(())
}

/// Bytes that an empty store hears, its line, and the status.
const LINES: &[(Pieces<'static>, &str, u8)] = &[
    (NOTHING, "heard 0 stale 0 early 0 bad 0 rest 0\n", 0),
    // the second frame alone, and the first 100 bytes of both
    (SECOND, "heard 0 stale 0 early 1 bad 0 rest 0\n", 1),
    (
        &[HEAD_1, CREATE, HEAD_2, COMMIT],
        "heard 1 stale 0 early 0 bad 0 rest 63\n",
        1,
    ),
    // a frame that comes twice, and one that comes too early and again
    (
        &[HEAD_1, CREATE, HEAD_1, CREATE],
        "heard 1 stale 1 early 0 bad 0 rest 0\n",
        0,
    ),
    (
        &[
            HEAD_2, COMMIT, COMMIT_END, HEAD_1, CREATE, HEAD_2, COMMIT, COMMIT_END,
        ],
        "heard 2 stale 0 early 1 bad 0 rest 0\n",
        1,
    ),
    // numbers that no next entry has
    (&[EMPTY_0], "heard 0 stale 1 early 0 bad 0 rest 0\n", 0),
    (&[EMPTY_LAST], "heard 0 stale 0 early 1 bad 0 rest 0\n", 1),
    // no entry, and then the first one
    (
        &[EMPTY_1, HEAD_1, CREATE],
        "heard 1 stale 0 early 0 bad 1 rest 0\n",
        1,
    ),
    // the stream is there
    (
        &[HEAD_1, CREATE, OTHER_HEAD_2, CREATE],
        "heard 1 stale 0 early 0 bad 1 rest 0\n",
        1,
    ),
    // bytes that begin no whole frame: a line, a number of bytes that are not there, and a byte before the mark
    (
        &[HEAD_1, CREATE, LINE],
        "heard 1 stale 0 early 0 bad 0 rest 10\n",
        1,
    ),
    (
        &[LONG_1, CREATE],
        "heard 0 stale 0 early 0 bad 0 rest 37\n",
        1,
    ),
    (
        &[BYTE, HEAD_1, CREATE],
        "heard 0 stale 0 early 0 bad 0 rest 38\n",
        1,
    ),
];

fn first_wrong_line(
    rt: &(impl AllocGlobal + Threads + Wait + Sync),
) -> Result<Option<usize>, Fail> {
    for (row, (pieces, line, status)) in LINES.iter().enumerate() {
        let ran = heard(rt, pieces, store_of(rt, "64")?)?;
        if !ran.gave(line, *status) {
            return Ok(Some(row));
        }
    }
    Ok(None)
}

#[test]
fn each_frame_is_counted_by_its_answer(rt: HostRuntime) -> Result<(), Fail> {
    no_wrong(first_wrong_line(&rt)?)
}

/// Bytes that a sealed store hears, its line, and the status. The store is empty.
const SEALED_EMPTY: &[(Pieces<'static>, &str, u8)] = &[
    (NOTHING, "heard 0 stale 0 early 0 bad 0 rest 0\n", 0),
    (ALL, "no sealed\n", 1),
    (SECOND, "heard 0 stale 0 early 1 bad 0 rest 0\n", 1),
    (&[EMPTY_0], "heard 0 stale 1 early 0 bad 0 rest 0\n", 0),
    // no entry: no step is reached
    (&[EMPTY_1], "heard 0 stale 0 early 0 bad 1 rest 0\n", 1),
    (&[EMPTY_1, HEAD_1, CREATE], "no sealed\n", 1),
];

fn first_wrong_sealed(
    rt: &(impl AllocGlobal + Threads + Wait + Sync),
) -> Result<Option<usize>, Fail> {
    for (row, (pieces, line, status)) in SEALED_EMPTY.iter().enumerate() {
        let empty = run_on(rt, "seal", b"", store_of(rt, "64")?)?;
        if !heard(rt, pieces, empty.disk)?.gave(line, *status) {
            return Ok(Some(row));
        }
    }
    Ok(None)
}

#[test]
fn a_sealed_follower_takes_no_frame(rt: HostRuntime) -> Result<(), Fail> {
    no_wrong(first_wrong_sealed(&rt)?)
}

#[test]
fn a_sealed_follower_has_what_it_heard(rt: HostRuntime) -> Result<(), Fail> {
    let ran = heard(&rt, ALL, sealed(&rt)?)?;
    assert!(rt; ran.gave("heard 0 stale 2 early 0 bad 0 rest 0\n", 0));
    assert!(rt; writes(&rt, "ship 1", ran.disk, ALL, 0)?);
    Ok(())
}

/// Ships a store with an output of the sums 10, 30 and 50, in its fourth entry. Returns the frames.
fn output_frames(rt: &(impl AllocGlobal + Threads + Wait + Sync)) -> Result<Vec<u8>, Fail> {
    let script = b"create V\ninsert V 0 10 10 20 20 30\ndistiller W sum 10 0 V\nrefresh W\n";
    let made = run_on(rt, "live", script, store_of(rt, "64")?)?;
    Ok(run_on(rt, "ship 1", b"", made.disk)?.text)
}

/// Has an empty store hear these frames with 51 as the last sum, and then as they are. Returns whether it says so, and the device.
fn heard_sums(
    rt: &(impl AllocGlobal + Threads + Wait + Sync),
    right: &Vec<u8>,
) -> Result<(bool, MemDisk), Fail> {
    let mut wrong = right.clone()?;
    wrong.pop();
    let first = heard(
        rt,
        &[wrong.as_slice(), b"\x33".as_slice()],
        store_of(rt, "64")?,
    )?;
    let is_bad = first.gave("heard 3 stale 0 early 0 bad 1 rest 0\n", 1);
    let second = heard(rt, &[right.as_slice()], first.disk)?;
    let is_taken = second.gave("heard 1 stale 3 early 0 bad 0 rest 0\n", 0);
    Ok((is_bad && is_taken, second.disk))
}

#[test]
fn a_version_of_an_output_is_computed_anew(rt: HostRuntime) -> Result<(), Fail> {
    let frames = output_frames(&rt)?;
    let (is_said, disk) = heard_sums(&rt, &frames)?;
    let asked = run_on(&rt, "ask", b"range W 0 100 latest\n", disk)?;
    assert!(rt; is_said && asked.gave("ok 1 3\n0 10\n10 30\n20 50\n", 0));
    Ok(())
}

#[test]
fn a_full_follower_keeps_the_entries_before(rt: HostRuntime) -> Result<(), Fail> {
    let ran = heard(&rt, ALL, store_of(&rt, "8")?)?;
    let is_full = ran.gave("no full 3 1\n", 8);
    let checked = run_on(&rt, "check", b"", ran.disk)?;
    assert!(rt; is_full && checked.gave("stands 1\n", 0));
    Ok(())
}

/// Runs on a device that has no store, and words that are no command.
const REFUSED: &str = "\
$ ship 1
< no store
= 6
$ hear
< no store
= 6
$ ship
< no usage
= 2
$ ship 0
< no usage
= 2
$ ship 18446744073709551616
< no usage
= 2
$ ship 1 1
< no usage
= 2
$ hear 1
< no usage
= 2
";

#[test]
fn a_device_without_a_store_is_refused(rt: HostRuntime) -> Result<(), Fail> {
    play(&rt, &[], REFUSED)
}

/// Runs words on an empty store with a source of all frames of which a call fails. Returns what the run gave.
fn run_unread(
    rt: &(impl AllocGlobal + Threads + Wait + Sync),
    words: &str,
    call: u64,
) -> Result<Ran, Fail> {
    let alloc = rt.alloc();
    let (mut source, mut sink) = ends_of(alloc, ALL, &[call])?;
    let (status, disk) = run_words(rt, words, &mut source, &mut sink, store_of(rt, "64")?)?;
    let text = sink.written().to_vec(alloc)?;
    Ok(Ran { text, status, disk })
}

#[test]
fn a_source_that_fails_leaves_the_device_without_a_call(rt: HostRuntime) -> Result<(), Fail> {
    let first = run_unread(&rt, "hear", 0)?;
    // in the second frame
    let later = run_unread(&rt, "hear", 9)?;
    assert!(rt; first.gave("no source\n", 3) && first.disk.calls() == 8);
    assert!(rt; later.gave("no source\n", 3) && later.disk.calls() == 8);
    Ok(())
}

#[test]
fn a_ship_reads_no_input(rt: HostRuntime) -> Result<(), Fail> {
    assert!(rt; run_unread(&rt, "ship 1", 0)?.gave("", 0));
    Ok(())
}

/// Has an empty store hear all frames while the sink fails. Returns the status and the device.
fn heard_unsaid(rt: &(impl AllocGlobal + Threads + Wait + Sync)) -> Result<(u8, MemDisk), Fail> {
    let alloc = rt.alloc();
    let (mut source, _) = ends_of(alloc, ALL, &[])?;
    let mut sink = failing_sink(alloc, 0)?;
    run_words(rt, "hear", &mut source, &mut sink, store_of(rt, "64")?)
}

#[test]
fn frames_are_taken_though_the_sink_fails(rt: HostRuntime) -> Result<(), Fail> {
    let (status, disk) = heard_unsaid(&rt)?;
    assert!(rt; status == 4);
    assert!(rt; run_on(&rt, "check", b"", disk)?.gave("stands 2\n", 0));
    Ok(())
}

// ---- a device that fails in a `hear`, or stops

/// A call of the device that fails in a `hear` of all frames, and the line of a second one. After the eight calls of the format come three
/// to open, and four for each entry: an entry whose last sync failed is there.
const FAILED_HEARING: &[(u64, &str)] = &[
    (8, "heard 2 stale 0 early 0 bad 0 rest 0\n"),
    (9, "heard 2 stale 0 early 0 bad 0 rest 0\n"),
    (10, "heard 2 stale 0 early 0 bad 0 rest 0\n"),
    (11, "heard 2 stale 0 early 0 bad 0 rest 0\n"),
    (12, "heard 2 stale 0 early 0 bad 0 rest 0\n"),
    (13, "heard 2 stale 0 early 0 bad 0 rest 0\n"),
    (14, "heard 1 stale 1 early 0 bad 0 rest 0\n"),
    (15, "heard 1 stale 1 early 0 bad 0 rest 0\n"),
    (16, "heard 1 stale 1 early 0 bad 0 rest 0\n"),
    (17, "heard 1 stale 1 early 0 bad 0 rest 0\n"),
    (18, "heard 0 stale 2 early 0 bad 0 rest 0\n"),
];

/// Whether a `hear` says that this call failed, and a second one says this.
fn is_heard_again(
    rt: &(impl AllocGlobal + Threads + Wait + Sync),
    call: u64,
    line: &str,
) -> Result<bool, Fail> {
    let empty = empty_device(rt.alloc(), &[call])?;
    let made = run_on(rt, "format --blocks 64", b"", empty)?;
    let failed = heard(rt, ALL, made.disk)?;
    let is_failed = failed.gave("no device\n", 5);
    Ok(is_failed && heard(rt, ALL, failed.disk)?.gave(line, 0))
}

fn first_wrong_failure(
    rt: &(impl AllocGlobal + Threads + Wait + Sync),
) -> Result<Option<usize>, Fail> {
    for (row, (call, line)) in FAILED_HEARING.iter().enumerate() {
        if !is_heard_again(rt, *call, line)? {
            return Ok(Some(row));
        }
    }
    Ok(None)
}

#[test]
fn each_call_of_a_hear_may_fail(rt: HostRuntime) -> Result<(), Fail> {
    no_wrong(first_wrong_failure(&rt)?)
}

/// The calls of the device in a `hear` of all frames on an empty store: three to open, and four for each entry.
const CALLS: u64 = 11;

/// Has an empty store hear all frames on a device that stops after this many calls. Returns the status and the device.
fn stopped_hear(
    rt: &(impl AllocGlobal + Threads + Wait + Sync),
    calls: u64,
) -> Result<(u8, MemDisk), Fail> {
    let alloc = rt.alloc();
    let (mut source, mut sink) = ends_of(alloc, ALL, &[])?;
    let words = vec![in alloc; "hear".to_string(alloc)?]?;
    let fuse = FuseDisk::new(store_of(rt, "64")?, calls);
    let Outcome { status, disk, .. } = run(rt, alloc, &words, &mut source, &mut sink, fuse);
    Ok((status, disk.into_disk()))
}

/// Whether each store that such a stop may leave has the entries whose calls were made, or one more, and goes on.
fn is_good_stop(rt: &(impl AllocGlobal + Threads + Wait + Sync), calls: u64) -> Result<bool, Fail> {
    let (status, disk) = stopped_hear(rt, calls)?;
    if (status == 0) != (calls >= CALLS) {
        return Ok(false);
    }
    images_go_on(rt, &disk, calls.saturating_sub(3) / 4)
}

fn first_wrong_stop(
    rt: &(impl AllocGlobal + Threads + Wait + Sync),
) -> Result<Option<usize>, Fail> {
    for calls in 0..CALLS + 1 {
        if !is_good_stop(rt, calls)? {
            return Ok(Some(calls as usize));
        }
    }
    Ok(None)
}

#[test]
fn a_stop_in_a_hear_keeps_the_entries_that_were_taken(rt: HostRuntime) -> Result<(), Fail> {
    no_wrong(first_wrong_stop(&rt)?)
}
