//! Sources and sinks that fail, inputs that are long, and lines that are no text.
use super::fixture::{empty_device, no_wrong, run_on, run_words, store_of, with_ids};
use btr_disk::{Disk, MemDisk};
use btr_io::{MemSink, MemSource};
use std::alloc::{AllocError, Global};
use std::sync::Wait;
use std::test::Fail;
use std::thread::Threads;

/// The calls of the source that fail, those of the sink, the status, and what is written.
const FAILING: &[(&[u64], &[u64], u8, &str)] = &[
    (&[0], &[], 3, "no source\n"),
    (&[1], &[], 3, "no source\n"),
    (&[], &[0], 4, ""),
    (&[], &[1], 4, "ok 0"),
    // the flush, after four writes
    (&[], &[4], 4, "ok 0 0\nok 0 0\n"),
];

/// Returns a source of two lines. Its listed calls fail.
fn source_of(alloc: Global, failing: &[u64]) -> Result<MemSource, AllocError> {
    let input = with_ids(alloc, b"create U\nrange U 0 1 0\n")?;
    Ok(MemSource::new(input, 7, failing.to_vec(alloc)?))
}

/// Runs two lines with a source and a sink whose listed calls fail. Returns whether the status and what is written are these.
fn gives(
    rt: &(impl AllocGlobal + Threads + Wait + Sync),
    source_fails: &[u64],
    sink_fails: &[u64],
    wanted: u8,
    written: &str,
) -> Result<bool, Fail> {
    let alloc = rt.alloc();
    let disk = store_of(rt, "64")?;
    let mut source = source_of(alloc, source_fails)?;
    let mut sink = MemSink::new(alloc, 100, 4, sink_fails.to_vec(alloc)?)?;
    let (status, _) = run_words(rt, "live", &mut source, &mut sink, disk)?;
    Ok(status == wanted && sink.written() == written.as_bytes())
}

fn first_wrong_failure(
    rt: &(impl AllocGlobal + Threads + Wait + Sync),
) -> Result<Option<usize>, Fail> {
    for (row, (source, sink, status, written)) in FAILING.iter().enumerate() {
        if !gives(rt, source, sink, *status, written)? {
            return Ok(Some(row));
        }
    }
    Ok(None)
}

#[test]
fn a_stream_that_fails_has_its_status(rt: HostRuntime) -> Result<(), Fail> {
    no_wrong(first_wrong_failure(&rt)?)
}

/// Runs an input of more than 268435456 bytes. Returns the status, whether the reply says so, and the calls of the device.
fn run_long(
    rt: &(impl AllocGlobal + Threads + Wait + Sync),
    disk: MemDisk,
) -> Result<(u8, bool, u64), Fail> {
    let alloc = rt.alloc();
    let mut source = MemSource::new(vec![in alloc; b' '; 268435457]?, 1 << 20, Vec::new(alloc));
    let mut sink = MemSink::new(alloc, 100, 100, Vec::new(alloc))?;
    let (status, disk) = run_words(rt, "live", &mut source, &mut sink, disk)?;
    let is_long = sink.written() == b"no long 268435456\n".as_slice();
    Ok((status, is_long, disk.calls()))
}

#[test]
fn an_input_over_the_limit_is_refused(rt: HostRuntime) -> Result<(), Fail> {
    let disk = store_of(&rt, "64")?;
    assert!(rt; run_long(&rt, disk)? == (10, true, 8));
    Ok(())
}

/// Runs words on an empty device. Returns the status and the calls of the device.
fn called(rt: &(impl AllocGlobal + Threads + Wait + Sync), words: &str) -> Result<(u8, u64), Fail> {
    let ran = run_on(rt, words, b"", empty_device(rt.alloc(), &[])?)?;
    Ok((ran.status, ran.disk.calls()))
}

#[test]
fn words_that_are_no_command_make_no_call(rt: HostRuntime) -> Result<(), Fail> {
    assert!(rt; called(&rt, "format --blocks 9 9")? == (2, 0));
    assert!(rt; called(&rt, "format --blocks 65")? == (8, 0));
    Ok(())
}

/// Runs a script on a store of this many blocks. Returns whether it gives this text and status.
fn says(
    rt: &(impl AllocGlobal + Threads + Wait + Sync),
    script: &[u8],
    blocks: &str,
    text: &str,
    status: u8,
) -> Result<bool, Fail> {
    let ran = run_on(rt, "live", script, store_of(rt, blocks)?)?;
    Ok(ran.gave(text, status))
}

/// Lines of all kinds.
const ALL_KINDS: &[u8] = b"create U\r\n\r\n\n   \n# a note\n#\xff\n @0 range U 0 5 latest";

#[test]
fn lines_of_all_kinds_are_read(rt: HostRuntime) -> Result<(), Fail> {
    let other = b"create U\n\xff\nrange  U 0   5 latest \n".as_slice();
    assert!(rt; says(&rt, ALL_KINDS, "64", "ok 0 0\nok 0 0\n", 0)?);
    assert!(rt; says(&rt, other, "64", "ok 0 0\nno line\nok 0 0\n", 1)?);
    Ok(())
}

/// Writes the script that inserts a number of points, each at its own time or all at time 0, with the values from 0 on.
fn script_of(alloc: Global, points: u64, step: u64, rest: &str) -> Result<String, AllocError> {
    let mut script = String::new(alloc);
    script.push_str("create U\ninsert U")?;
    for value in 0..points {
        script.push_str(format!(in alloc; " {} {value}", step.saturating_mul(value))?.as_str())?;
    }
    script.push_str(rest)?;
    Ok(script)
}

/// The replies to a full span of 4 ns: one point more is refused, and version 1 stays readable after a delete.
const CROWDED: &str = "\
ok 0 0
ok 1 0
no crowded 0
ok 1 1
plain 252 31626 0 251
ok 2 0
ok 2 1
plain 0 0
ok 1 1
plain 252 31626 0 251
";

/// An insert of points: their number, the nanoseconds between them, the lines after it, the blocks of the store, the text, and the
/// status.
type Insert<'a> = (u64, u64, &'a str, &'a str, &'a str, u8);

const INSERTS: &[Insert<'static>] = &[
    (
        252,
        0,
        "\ninsert U 0 0\ninfo U latest\ndelete U 0 1\ninfo U latest\ninfo U 1\n",
        "64",
        CROWDED,
        1,
    ),
    // 1000 points need 30 blocks: 4 of the entry, 16 leaves of 256 ns, 9 inner nodes above them, and the next gate; the create needs 2,
    // and a point alone 3
    (
        1000,
        4,
        "\ninsert U 0 5\n",
        "36",
        "ok 0 0\nno full 30 29\nok 1 0\n",
        8,
    ),
    // one point more needs 12 blocks: its entry, a leaf, the 9 nodes above it, and the next gate
    (
        1000,
        4,
        "\ninsert U 0 5\n",
        "37",
        "ok 0 0\nok 1 0\nno full 12 0\n",
        8,
    ),
    // a commit has at most 65536 points; they need 257 blocks of the entry, 1024 leaves of 256 ns, 16 and 8 inner nodes, and the gate
    (65536, 4, "\n", "64", "ok 0 0\nno full 1306 57\n", 8),
    (65537, 4, "\n", "64", "ok 0 0\nno many 65537\n", 1),
];

/// Returns whether an insert gives its text and status.
fn is_inserted(
    rt: &(impl AllocGlobal + Threads + Wait + Sync),
    (points, step, rest, blocks, text, status): Insert<'_>,
) -> Result<bool, Fail> {
    let script = script_of(rt.alloc(), points, step, rest)?;
    says(rt, script.as_bytes(), blocks, text, status)
}

fn first_wrong_insert(
    rt: &(impl AllocGlobal + Threads + Wait + Sync),
) -> Result<Option<usize>, Fail> {
    for (row, insert) in INSERTS.iter().enumerate() {
        if !is_inserted(rt, *insert)? {
            return Ok(Some(row));
        }
    }
    Ok(None)
}

#[test]
fn inserts_of_many_points_have_their_bounds(rt: HostRuntime) -> Result<(), Fail> {
    no_wrong(first_wrong_insert(&rt)?)
}
