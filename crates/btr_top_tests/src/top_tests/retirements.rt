//! Retired versions: transcripts in the form of the document on commands, the bytes that they leave, and a stop in each call of a first
//! retirement.
ghost use Rattle.std.specs.Prelude.{◌≡◌, ◌%◌, length, IfOk};

use super::device::{turned, written};
use super::fixture::{STORE, device_of, no_wrong, play_parts, run_on, store_of, with_piece};
use super::stops::{images_go_on, stopped_live};
use btr_disk::{Disk, MemDisk};
use std::sync::Wait;
use std::test::Fail;
use std::thread::Threads;

/// Three versions of a stream, of which the first one is retired.
const FIRST: &str = "\
$ live
> create U
> insert U 0 5 3 7 4 -2
> delete U 3 4
> insert U 4 -2
> changes U 1 3 2
> changes U 1 2 0
> retire U 2
> range U 0 5 1
> range U 0 5 2
> changes U 1 3 2
> retire U 2
> retire U 4
> range U 0 5 4
< ok 0 0
< ok 1 0
< ok 2 0
< ok 3 0
< ok 3 1
< 0 8
< ok 2 1
< 3 4
< ok 0 0
< no retired 1 2
< ok 2 2
< 0 5
< 4 -2
< no retired 1 2
< no first 2 2 3
< no first 4 2 3
< no version 4 3
= 1
";

/// Each question about a retired version, what is asked first of those that have several reasons, and the latest version.
const QUESTIONS: &str = "\
$ ask
> range U 0 5 1
> nearest U 4 prev 1
> aligned U 0 5 1 1
> windows U 0 5 1 1
> info U 0
> changes U 0 3 2
> changes U 3 1 2
> changes U 1 4 2
> range U 5 0 1
> range U 0 5 2
> changes U 2 3 2
> range U 4 5 latest
> retire U 3
> streams
< no retired 1 2
< no retired 1 2
< no retired 1 2
< no retired 1 2
< no retired 0 2
< no retired 0 2
< no retired 1 2
< no version 4 3
< no retired 1 2
< ok 2 2
< 0 5
< 4 -2
< ok 3 1
< 4 8
< ok 3 2
< 4 -2
< 4 -2
< no line
< ok 5 1
< U 3 plain
= 1
";

/// A checkpoint of these entries, and the store checked.
const MARKED: &str = "\
$ checkpoint
< checkpoint 5
= 0
$ check
< stands 5
= 0
";

/// More versions are retired after it, and then all but the latest.
const MORE: &str = "\
$ live
> retire U 2
> retire U 3
> insert U 9 1
> retire U 4
> range U 0 10 3
> range U 9 10 latest
> retire U 5
< no first 2 2 3
< ok 0 0
< ok 4 0
< ok 0 0
< no retired 3 4
< ok 4 1
< 9 1
< no first 5 4 4
= 1
$ check
< stands 8
= 0
$ checkpoint
< checkpoint 8
= 0
$ ask
> range U 0 10 3
< no retired 3 4
= 1
";

#[test]
fn retired_versions_cannot_be_asked(rt: HostRuntime) -> Result<(), Fail> {
    play_parts(&rt, &[STORE, FIRST, QUESTIONS, MARKED, QUESTIONS, MORE])
}

/// An output that has read version 1, and then version 2 of its input.
const HELD: &str = "\
$ live
> create V
> insert V 0 10 10 20 20 30
> distiller W sum 10 0 V
> refresh W
> insert V 5 1
> retire V 2
> refresh W
> retire V 2
< ok 0 0
< ok 1 0
< ok 0 0
< ok 1 0
< ok 2 0
< no held 33333333-3333-4333-8333-333333333333 1
< ok 2 0
< ok 0 0
= 1
";

/// Outputs without a version hold each version of their inputs; of two outputs that of the least number is named. An output may be
/// retired, and goes on.
const OUTPUTS: &str = "\
$ live
> distiller X sum 0 0 V
> retire V 2
> insert V 7 7
> retire V 3
> refresh X
> retire V 3
> refresh W
> retire V 3
> retire X 1
> retire X 0
> retire W 3
> range W 0 30 2
> insert V 8 8
> refresh X
> range X 8 9 2
< ok 0 0
< no first 2 2 2
< ok 3 0
< no held 33333333-3333-4333-8333-333333333333 2
< ok 1 0
< no held 33333333-3333-4333-8333-333333333333 2
< ok 3 0
< ok 0 0
< ok 0 0
< no first 0 1 1
< ok 0 0
< no retired 2 3
< ok 4 0
< ok 2 0
< ok 2 1
< 8 8
= 1
$ checkpoint
< checkpoint 16
= 0
$ live
> retire V 4
> retire U 1
> retire U
> retire V -1
> retire V 1 1
> retire V 18446744073709551615
> retire V 0
< no held 33333333-3333-4333-8333-333333333333 3
< no stream
< no line
< no line
< no line
< no first 18446744073709551615 3 4
< no first 0 3 4
= 1
$ check
< stands 16
= 0
";

#[test]
fn an_output_holds_what_it_has_read_last(rt: HostRuntime) -> Result<(), Fail> {
    play_parts(&rt, &[STORE, HELD, OUTPUTS])
}

/// The superblock B and the extent of the retirement, by hand: the address and the bytes. The gate 15 and the body 16 follow the extents
/// of a create, of an insert, of a delete, and of an insert.
const BYTES: &[(usize, &[u8])] = &[
    (0, b"BTR-GATE"),
    (
        4096,
        b"BTR-SUPR\0\0\0\x01\0\0\0\0\0\0\0\0\0\0\0\x01\0\0\0\0\0\0\0\x40\0\0\0\0\0\0\0\x04\0\0\0\0\0\0\0\0",
    ),
    (2 * 4096, b"BTR-GATE"),
    (
        3 * 4096,
        b"BTR-SUPR\0\0\0\x02\0\0\0\0\0\0\0\0\0\0\0\x02\0\0\0\0\0\0\0\x40\0\0\0\0\0\0\0\x04\0\0\0\0\0\0\0\0\0\0\0\0\0\0\0\0",
    ),
    (12 * 4096, b"BTR-GATE"),
    (13 * 4096, b"BTR-BODY\0\0\0\x01\0\0\0\x01\0\0\0\0\0\0\0\x04"),
    (15 * 4096, b"BTR-GATE"),
    (
        16 * 4096,
        b"BTR-BODY\0\0\0\x01\0\0\0\x02\0\0\0\0\0\0\0\x05\0\0\0\0\0\0\0\x01\0\0\0\0\0\0\0\x0d\
          \0\0\0\0\0\0\0\0\0\0\0\0\0\0\0\0\0\0\0\0\0\0\0\0\x05\0\0\0\0\0\0\0\0\0\0\0\x02\0\0\0",
    ),
    (17 * 4096, b"\0\0\0\0\0\0\0\0"),
];

/// Whether each of these pieces stands at its address.
fn have_pieces(bytes: &[u8], pieces: &[(usize, &[u8])]) -> bool {
    for (at, piece) in pieces {
        match bytes.get(*at..) {
            None => return false,
            Some(rest) => {
                if !rest.starts_with(piece) {
                    return false;
                }
            }
        }
    }
    true
}

/// Retires a version of a stream of three versions. Returns the device.
fn retired(rt: &(impl AllocGlobal + Threads + Wait + Sync)) -> Result<MemDisk, Fail> {
    let script = b"create U\ninsert U 0 5 3 7 4 -2\ndelete U 3 4\ninsert U 4 -2\nretire U 2\n";
    Ok(run_on(rt, "live", script, store_of(rt, "64")?)?.disk)
}

/// Returns the number of calls of the device, and whether it has the bytes by hand.
fn calls_and_bytes(rt: &(impl AllocGlobal + Threads + Wait + Sync)) -> Result<(u64, bool), Fail> {
    let disk = retired(rt)?;
    let calls = disk.calls();
    Ok((calls, have_pieces(&disk.into_bytes(), BYTES)))
}

#[test]
fn the_bytes_of_a_retirement_are_those_of_its_format(rt: HostRuntime) -> Result<(), Fail> {
    // eight calls to format, three to open, four for each of four entries, and nine for the first retirement
    assert!(rt; calls_and_bytes(&rt)? == (36, true));
    Ok(())
}

/// Returns the bytes of the device with a retirement.
fn retired_bytes(rt: &(impl AllocGlobal + Threads + Wait + Sync)) -> Result<Vec<u8>, Fail>
    ensures { IfOk result (λ bytes. length bytes.items % 4096 ≡ 0) }
{
    Ok(retired(rt)?.into_bytes())
}

/// Whether runs of these words on a device of these bytes give this text and status.
fn says(
    rt: &(impl AllocGlobal + Threads + Wait + Sync),
    words: &str,
    bytes: Vec<u8>,
    text: &str,
    status: u8,
) -> Result<bool, Fail>
    requires { length bytes.items % 4096 ≡ 0 }
{
    let ran = run_on(rt, words, b"", device_of(rt.alloc(), bytes)?)?;
    Ok(ran.gave(text, status))
}

/// The byte of the format in the head of the retirement, which is then 3, and the gate of the superblock B, without which A counts.
const TURNED: &[(usize, &str)] = &[
    (16 * 4096 + 15, "no damaged 16\n"),
    (2 * 4096, "no damaged 16\n"),
];

fn first_wrong_byte(
    rt: &(impl AllocGlobal + Threads + Wait + Sync),
    words: &str,
    whole: &Vec<u8>,
) -> Result<Option<usize>, Fail>
    requires { length whole.now.items % 4096 ≡ 0 }
{
    for (row, (at, text)) in TURNED.iter().enumerate() {
        if !says(rt, words, turned(whole.clone()?, *at), text, 7)? {
            return Ok(Some(row));
        }
    }
    Ok(None)
}

#[test]
fn a_format_that_is_too_high_is_damage(rt: HostRuntime) -> Result<(), Fail> {
    let whole = retired_bytes(&rt)?;
    no_wrong(first_wrong_byte(&rt, "ask", &whole)?)?;
    no_wrong(first_wrong_byte(&rt, "check", &whole)?)?;
    // a superblock of no format; one of format 1 with the seq of one that was raised; and a retirement in a head of format 1
    let higher = with_piece(whole.clone()?, 3 * 4096 + 11, b"\x04");
    assert!(rt; says(&rt, "check", higher, "no damaged 3\n", 7)?);
    let lower = with_piece(whole.clone()?, 3 * 4096 + 11, b"\x01");
    assert!(rt; says(&rt, "check", lower, "no damaged 3\n", 7)?);
    let head = with_piece(whole, 16 * 4096 + 15, b"\x01");
    assert!(rt; says(&rt, "check", head, "no damaged 16\n", 7)?);
    Ok(())
}

/// Returns the bytes of a store of two entries in format 1 whose superblock has this format.
fn higher_bytes(
    rt: &(impl AllocGlobal + Threads + Wait + Sync),
    format: u8,
) -> Result<Vec<u8>, Fail>
    ensures { IfOk result (λ bytes. length bytes.items % 4096 ≡ 0) }
{
    Ok(with_piece(written(rt)?.into_bytes(), 4096 + 11, &[format]))
}

/// Whether a store of two entries in format 1 stands, and has a checkpoint, if its superblock has this format.
fn may_be_higher(
    rt: &(impl AllocGlobal + Threads + Wait + Sync),
    format: u8,
) -> Result<bool, Fail> {
    let bytes = higher_bytes(rt, format)?;
    let stands = says(rt, "check", bytes.clone()?, "stands 2\n", 0)?;
    Ok(stands && says(rt, "checkpoint", bytes, "checkpoint 2\n", 0)?)
}

#[test]
fn a_store_of_a_higher_format_may_have_no_entry_of_it(rt: HostRuntime) -> Result<(), Fail> {
    assert!(rt; may_be_higher(&rt, 2)?);
    assert!(rt; may_be_higher(&rt, 3)?);
    Ok(())
}

/// The lines of a run with the first retirement of a store.
const SCRIPT: &[u8] = b"create U\ninsert U 0 5\ninsert U 1 6\nretire U 2\ninsert U 2 7\n";

/// The calls of a run of five entries of which one raises the superblock: three to open, four for each of the others, and nine for it.
const CALLS: u64 = 3 + 4 * 4 + 9;

/// Whether the stores that a stop after this many calls may leave have the entries that were acknowledged, or one more, and go on.
fn is_good_stop(
    rt: &(impl AllocGlobal + Threads + Wait + Sync),
    script: &[u8],
    calls: u64,
) -> Result<bool, Fail> {
    let (is_whole, acknowledged, disk) = stopped_live(rt, script, calls)?;
    Ok(is_whole == (calls >= CALLS) && images_go_on(rt, &disk, acknowledged)?)
}

/// Returns the first number of calls after which a stop is wrong, in a run of five entries of which one raises the superblock.
pub(super) fn first_wrong_stop(
    rt: &(impl AllocGlobal + Threads + Wait + Sync),
    script: &[u8],
) -> Result<Option<usize>, Fail> {
    for calls in 0..CALLS + 1 {
        if !is_good_stop(rt, script, calls)? {
            return Ok(Some(calls as usize));
        }
    }
    Ok(None)
}

#[test]
fn a_stop_in_a_first_retirement_keeps_what_was_acknowledged(rt: HostRuntime) -> Result<(), Fail> {
    no_wrong(first_wrong_stop(&rt, SCRIPT)?)
}
