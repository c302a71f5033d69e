//! Scripts in lanes beside each other, with rounds and without them.
use super::fixture::{
    STORE, empty_device, no_wrong, play, play_parts, run_beside, run_on, store_of, with_ids,
};
use btr_disk::MemDisk;
use btr_text::read_unsigned;
use std::alloc::{AllocError, Global};
use std::sync::Wait;
use std::test::Fail;
use std::thread::Threads;

// lanes that do not touch what the others do; a lane is named by one of eight words, and in `ask` by none; a lane has feeds of its own
const LANES: &str = "\
$ format --blocks 64
< formatted 64
= 0
$ live
> create U
> create V
< ok 0 0
< ok 0 0
= 0
$ live --batch 3
> @7 insert U 1 1
> feed V 1 1
> @8 create W
> @0 feed V 2 2
> @7 range U 0 9 latest
> @3 create W
> @7 feed V 3 3
> @
> feed V 4 4
> @00 create W
> @7 create
> @3 range W 0 9 latest
> range V 0 9 latest
< ok 1 0
< held 1
< no line
< held 2
< ok 1 1
< 1 1
< ok 0 0
< held 1
< no line
< ok 1 0
< no line
< no line
< ok 0 0
< ok 1 3
< 1 1
< 2 2
< 4 4
= 1
$ ask
> range U 0 9 latest
> @0 range U 0 9 latest
> @3 range U 0 9 latest
> @8 range U 0 9 latest
< ok 1 1
< 1 1
< no line
< no line
< no line
= 1
";

// a run with rounds that defines an output
const DEFINED: &str = "\
$ live --materialize
> create V
> insert V 0 10 10 20 20 30
> distiller W sum 10 0 V
< ok 0 0
< ok 1 0
< ok 0 0
";

// the output is up to date in the end, with one version
const ROUNDS: &str = "\
= 0
$ ask
> info W latest
< ok 1 2
< output 3 90 10 50
< reads 1
= 0
$ live --materialize --batch 2
= 0
$ ask
> info W latest
< ok 1 2
< output 3 90 10 50
< reads 1
= 0
";

// a store with room for three entries: a stream and an output that are made need two blocks of the nine each, and three points need
// three, one of them for their leaf
const SMALL_STORE: &str = "\
$ format --blocks 14
< formatted 14
= 0
";

// the rounds find no room for the points of the output: they need three blocks, and two are left
const FULL_ROUNDS: &str = "\
< materialize W no full 3 2
= 8
";

#[test]
fn lanes_have_their_own_lines(rt: HostRuntime) -> Result<(), Fail> {
    play(&rt, &[], LANES)
}

#[test]
fn rounds_refresh_outputs_up_to_date(rt: HostRuntime) -> Result<(), Fail> {
    play_parts(&rt, &[STORE, DEFINED, ROUNDS])?;
    play_parts(&rt, &[SMALL_STORE, DEFINED, FULL_ROUNDS])
}

/// Returns the version of a line `ok VERSION COUNT`.
fn version_of(line: &str) -> Option<u64> {
    let rest = line.strip_prefix("ok ")?;
    let word = rest.split(' ').next()?;
    read_unsigned(word.as_bytes())
}

/// Returns a script in which each of eight lanes writes to one stream and reads it.
fn eight_lanes(alloc: Global) -> Result<String, AllocError> {
    let mut script = String::new(alloc);
    for lane in 0..8u32 {
        let lines = format!(in alloc; "@{lane} insert U {lane} 1\n@{lane} info U latest\n")?;
        script.push_str(lines.as_str())?;
    }
    Ok(script)
}

/// Returns the version of each line of a text, if it has one.
pub(super) fn versions_in(alloc: Global, text: &[u8]) -> Result<Vec<Option<u64>>, AllocError> {
    let mut versions = Vec::new(alloc);
    let text = String::from_utf8_lossy(alloc, text)?;
    for line in text.split('\n') {
        versions.push(version_of(line))?;
    }
    Ok(versions)
}

/// Returns how many lanes made a version and read it or a later one. A lane has three lines, the last of which has no version.
fn good_lanes(versions: &[Option<u64>]) -> u32 {
    let mut lanes = 0u32;
    for lane in versions.chunks(3) {
        if let [Some(made), Some(read), None] = lane
            && made <= read
        {
            lanes = lanes.saturating_add(1);
        }
    }
    lanes
}

/// Runs eight lanes on a store of one stream. Returns the device, the number of good lanes, the number of lines and the status.
fn run_eight(
    rt: &(impl AllocGlobal + Threads + Wait + Sync),
) -> Result<(MemDisk, (u32, usize, u8)), Fail> {
    let alloc = rt.alloc();
    let made = run_on(rt, "live", b"create U\n", store_of(rt, "64")?)?;
    let ran = run_on(rt, "live", eight_lanes(alloc)?.as_bytes(), made.disk)?;
    let versions = versions_in(alloc, &ran.text)?;
    let found = (good_lanes(&versions), versions.len(), ran.status);
    Ok((ran.disk, found))
}

/// Eight lanes write to one stream: each then reads at least its own version, and there are eight in the end.
#[test]
fn eight_lanes_write_to_one_stream(rt: HostRuntime) -> Result<(), Fail> {
    let (disk, found) = run_eight(&rt)?;
    let asked = run_on(&rt, "ask", b"info U latest\n", disk)?;
    assert!(rt; found == (8, 25, 0));
    assert!(rt; asked.gave("ok 8 1\nplain 8 8 1 1\n", 0));
    Ok(())
}

/// Words, and the turn that begins before the first lane runs.
const MEETINGS: &[(&str, u32)] = &[
    ("live", 1),
    ("live --materialize", 1),
    ("live --materialize", 8),
];

/// Returns whether a turn begins before the first lane runs, and the run gives the replies of both lanes.
fn runs_beside(
    rt: &(impl AllocGlobal + Threads + Wait + Sync),
    words: &str,
    other: u32,
) -> Result<bool, Fail> {
    let script = b"create U\n@1 create V\n".as_slice();
    let (ran, is_beside) = run_beside(rt, other, words, script, store_of(rt, "64")?)?;
    Ok(is_beside && ran.gave("ok 0 0\nok 0 0\n", 0))
}

fn first_not_beside(
    rt: &(impl AllocGlobal + Threads + Wait + Sync),
) -> Result<Option<usize>, Fail> {
    for (row, (words, other)) in MEETINGS.iter().enumerate() {
        if !runs_beside(rt, words, *other)? {
            return Ok(Some(row));
        }
    }
    Ok(None)
}

/// A second lane, and the rounds, begin before the first lane runs.
#[test]
fn lanes_and_rounds_run_beside_each_other(rt: HostRuntime) -> Result<(), Fail> {
    no_wrong(first_not_beside(&rt)?)
}

/// Runs words on a device. Returns the status, and whether one of two texts is written.
fn writes_either(
    rt: &(impl AllocGlobal + Threads + Wait + Sync),
    words: &str,
    input: &[u8],
    disk: MemDisk,
    first: &[u8],
    second: &[u8],
) -> Result<(u8, bool), Fail> {
    let alloc = rt.alloc();
    let ran = run_on(rt, words, input, disk)?;
    let is_first = ran.text.as_slice() == with_ids(alloc, first)?.as_slice();
    let is_second = ran.text.as_slice() == with_ids(alloc, second)?.as_slice();
    Ok((ran.status, is_first || is_second))
}

/// Returns a device with a store of 64 blocks, one of whose calls fails. After the eight calls of the format come three to open, and four
/// for each entry.
fn failing_store(
    rt: &(impl AllocGlobal + Threads + Wait + Sync),
    call: u64,
) -> Result<MemDisk, Fail> {
    let empty = empty_device(rt.alloc(), &[call])?;
    Ok(run_on(rt, "format --blocks 64", b"", empty)?.disk)
}

/// A script of two lanes, each of which makes a stream.
const TWO_LANES: &[u8] = b"create U\n@1 create V\n";

/// Of two lanes one commits, and the other finds the device full.
#[test]
fn a_full_device_refuses_one_of_two_lanes(rt: HostRuntime) -> Result<(), Fail> {
    let first = b"ok 0 0\nno full 2 1\n".as_slice();
    let second = b"no full 2 1\nok 0 0\n".as_slice();
    let disk = store_of(&rt, "8")?;
    assert!(rt; writes_either(&rt, "live", TWO_LANES, disk, first, second)? == (8, true));
    Ok(())
}

/// The device fails in the step of one of two lanes.
#[test]
fn a_device_fails_for_one_of_two_lanes(rt: HostRuntime) -> Result<(), Fail> {
    let first = b"no device\nno stopped 0\n".as_slice();
    let second = b"no stopped 0\nno device\n".as_slice();
    let disk = failing_store(&rt, 11)?;
    assert!(rt; writes_either(&rt, "live", TWO_LANES, disk, first, second)? == (5, true));
    Ok(())
}

/// A script that defines an output.
const OUTPUT: &[u8] = b"create V\ninsert V 0 10 10 20 20 30\ndistiller W sum 10 0 V\n";

/// The device fails when a round lands the points of an output, beside the lanes or after them.
#[test]
fn a_device_that_fails_in_a_round_has_its_status(rt: HostRuntime) -> Result<(), Fail> {
    let words = "live --materialize";
    let first = b"ok 0 0\nok 1 0\nok 0 0\nmaterialize W no stopped 3\n".as_slice();
    let second = b"ok 0 0\nok 1 0\nok 0 0\nmaterialize W no device\n".as_slice();
    let disk = failing_store(&rt, 23)?;
    assert!(rt; writes_either(&rt, words, OUTPUT, disk, first, second)? == (5, true));
    Ok(())
}
