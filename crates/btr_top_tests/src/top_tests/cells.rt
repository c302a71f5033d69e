//! Outputs of aligned windows: transcripts in the form of the document on commands, the bytes that they leave, and a stop in each call of
//! the definition of a first one.
ghost use Rattle.std.specs.Prelude.{◌≡◌, ◌%◌, length, IfOk};

use super::device::has_bytes;
use super::fixture::{
    STORE, TWO_ENTRIES, device_of, no_wrong, play_parts, run_on, store_of, with_piece,
};
use super::retirements::first_wrong_stop;
use btr_disk::{Disk, MemDisk};
use std::sync::Wait;
use std::test::Fail;
use std::thread::Threads;

/// The sum of each window of four nanoseconds, brought up to date twice.
const SUMS: &str = "\
$ live
> create V
> insert V 0 5 3 7 4 -2
> cell W sum 2 0 V
> refresh W
> range W 0 8 1
< ok 0 0
< ok 1 0
< ok 0 0
< ok 1 0
< ok 1 2
< 0 12
< 4 -2
= 0
$ live
> delete V 3 4
> refresh W
> range W 0 8 2
> changes W 1 2 0
> cell X sum 63 0 V
> cell X mean 2 63 V
> cell W mean 2 0 V
> insert W 0 1
> info W 2
< ok 2 0
< ok 2 0
< ok 2 2
< 0 5
< 4 -2
< ok 2 1
< 0 1
< no spec
< no spec
< no exists
< no output
< ok 2 2
< output 2 3 -2 5
< reads 2
= 1
$ check
< stands 6
= 0
";

/// Each value of a window, windows before time 0, and outputs of both kinds on each other.
const BOTH_KINDS: &str = "\
$ live
> insert V -3 -8 -1 -5 16 9
> cell 00000000-0000-4000-8000-00000000000a mean 2 5 V
> cell 00000000-0000-4000-8000-00000000000b least 2 0 V
> cell 00000000-0000-4000-8000-00000000000c greatest 2 0 V
> cell 00000000-0000-4000-8000-00000000000d count 62 0 V
> distiller 00000000-0000-4000-8000-00000000000e sum 4 0 00000000-0000-4000-8000-00000000000a
> cell 00000000-0000-4000-8000-00000000000f sum 3 0 00000000-0000-4000-8000-00000000000e
< ok 3 0
< ok 0 0
< ok 0 0
< ok 0 0
< ok 0 0
< ok 0 0
< ok 0 0
= 0
$ distil
< 33333333-3333-4333-8333-333333333333 3 3
< 00000000-0000-4000-8000-00000000000a 1 3
< 00000000-0000-4000-8000-00000000000b 1 3
< 00000000-0000-4000-8000-00000000000c 1 3
< 00000000-0000-4000-8000-00000000000d 1 3
< 00000000-0000-4000-8000-00000000000e 1 1
< 00000000-0000-4000-8000-00000000000f 1 1
= 0
$ ask
> range W -8 20 latest
> range 00000000-0000-4000-8000-00000000000a -8 20 latest
> range 00000000-0000-4000-8000-00000000000b -8 20 latest
> range 00000000-0000-4000-8000-00000000000c -8 20 latest
> nearest 00000000-0000-4000-8000-00000000000d 0 prev latest
> range 00000000-0000-4000-8000-00000000000e -8 20 latest
> range 00000000-0000-4000-8000-00000000000f -8 20 latest
> cell X sum 2 0 V
< ok 3 4
< -4 -13
< 0 5
< 4 -2
< 16 9
< ok 1 4
< -4 -7
< 0 5
< 4 -2
< 16 9
< ok 1 4
< -4 -8
< 0 5
< 4 -2
< 16 9
< ok 1 4
< -4 -5
< 0 5
< 4 -2
< 16 9
< ok 1 1
< -1152921504606846976 5
< ok 1 4
< -4 -7
< 0 -2
< 4 3
< 16 9
< ok 1 3
< -8 -7
< 0 1
< 16 9
< no line
= 1
$ checkpoint
< checkpoint 20
= 0
$ check
< stands 20
= 0
";

#[test]
fn windows_have_their_values(rt: HostRuntime) -> Result<(), Fail> {
    play_parts(&rt, &[STORE, SUMS, BOTH_KINDS])
}

/// A window of negative times, one whose sum is no `i64`, and one with a single point.
const POINTS: &str = "\
$ live
> create U
> insert U -3 -1 -2 -2 0 9223372036854775807 1 9223372036854775807 8 5
< ok 0 0
< ok 1 0
= 0
";

/// Three of the five values of a window.
const VALUES: &str = "\
$ live
> cell V sum 2 0 U
> cell W mean 2 1 U
> cell X least 2 2 U
> refresh V
> refresh W
> refresh X
> range V -8 16 1
> range W -8 16 1
> range X -8 16 1
< ok 0 0
< ok 0 0
< ok 0 0
< ok 1 0
< ok 1 0
< ok 1 0
< ok 1 2
< -4 -3
< 8 5
< ok 1 3
< -4 -2
< 0 9223372036854775807
< 8 5
< ok 1 3
< -4 -2
< 0 9223372036854775807
< 8 5
= 0
";

/// The other two, and one window of the whole domain.
const MORE_VALUES: &str = "\
$ live
> cell V greatest 2 3 U
> cell W count 2 62 U
> cell X count 62 62 U
> refresh V
> refresh W
> refresh X
> range V -8 16 1
> range W -8 16 1
> range X -1152921504606846976 3458764513820540928 1
< ok 0 0
< ok 0 0
< ok 0 0
< ok 1 0
< ok 1 0
< ok 1 0
< ok 1 3
< -4 -1
< 0 9223372036854775807
< 8 5
< ok 1 3
< -4 2
< 0 2
< 8 1
< ok 1 1
< -1152921504606846976 5
= 0
$ check
< stands 8
= 0
";

#[test]
fn each_value_of_a_window_is_there_if_it_is_an_i64(rt: HostRuntime) -> Result<(), Fail> {
    play_parts(&rt, &[STORE, POINTS, VALUES])?;
    play_parts(&rt, &[STORE, POINTS, MORE_VALUES])
}

/// Windows of an output, and an output of these windows. A late point changes all.
const CHAIN: &str = "\
$ live
> distiller V affine 2 0 1 0 0 U
> cell W sum 2 0 V
> distiller X sum 4 0 W
> refresh V
> refresh W
> refresh X
> range W 0 8 1
> range X 0 8 1
> insert U 1 1
< ok 0 0
< ok 0 0
< ok 0 0
< ok 1 0
< ok 1 0
< ok 1 0
< ok 1 2
< 0 24
< 4 -4
< ok 1 2
< 0 24
< 4 20
< ok 2 0
= 0
$ distil --workers 2
< V 2 2
< W 2 2
< X 2 2
= 0
$ ask
> range W 0 8 latest
> range X 0 8 latest
< ok 2 2
< 0 26
< 4 -4
< ok 2 2
< 0 26
< 4 22
= 0
$ check
< stands 12
= 0
";

#[test]
fn windows_stand_on_outputs_and_outputs_on_windows(rt: HostRuntime) -> Result<(), Fail> {
    play_parts(&rt, &[STORE, TWO_ENTRIES, CHAIN])
}

/// Inputs that are not there, and numbers that no output of windows has.
const REFUSED: &str = "\
$ live
> cell W sum 2 0 V
> create V
> cell W sum 63 0 V
> cell W sum 2 63 V
> cell W sum 256 0 V
> cell W sum 2 256 V
> cell W total 2 0 V
> cell W sum 2 0 V V
> distiller W cell 2 0 V
> cell V sum 2 0 V
> cell W sum 62 62 V
> cell W sum 2 0 V
> streams
< no stream
< ok 0 0
< no spec
< no spec
< no line
< no line
< no line
< no line
< no line
< no exists
< ok 0 0
< no exists
< ok 2 2
< V 0 plain
< W 0 output
= 1
$ ask
> cell X sum 2 0 V
< no line
= 1
";

#[test]
fn lines_of_windows_are_refused(rt: HostRuntime) -> Result<(), Fail> {
    play_parts(&rt, &[STORE, REFUSED])
}

/// A store with a retirement, to which an output of windows is added.
const RETIRED: &str = "\
$ live
> insert U 4 -2
> retire U 2
> cell W count 0 0 U
> refresh W
> range W 0 9 1
> range U 0 5 1
> insert U 5 5
> retire U 3
> refresh W
> retire U 3
< ok 2 0
< ok 0 0
< ok 0 0
< ok 1 0
< ok 1 3
< 0 1
< 3 1
< 4 2
< no retired 1 2
< ok 3 0
< no held W 2
< ok 2 0
< ok 0 0
= 1
$ checkpoint
< checkpoint 9
= 0
";

/// What is asked of it after a checkpoint.
const RETIRED_AFTER: &str = "\
$ ask
> range W 0 9 latest
> range U 0 5 2
< ok 2 4
< 0 1
< 3 1
< 4 2
< 5 1
< no retired 2 3
= 1
$ check
< stands 9
= 0
";

#[test]
fn a_store_may_have_retirements_and_windows(rt: HostRuntime) -> Result<(), Fail> {
    play_parts(&rt, &[STORE, TWO_ENTRIES, RETIRED, RETIRED_AFTER])
}

/// What a definition of windows, two distillates and a delete add to the bytes of two entries, by hand: the superblock B in format 3, the
/// extents of these four, and the leaves of three versions. The head of the definition has format 3, and the others format 1. The cut of
/// the second distillate is the window from 0 to 4.
const BYTES: &[(usize, &[u8])] = &[
    (2 * 4096, b"BTR-GATE"),
    (
        3 * 4096,
        b"BTR-SUPR\0\0\0\x03\0\0\0\0\0\0\0\0\0\0\0\x02\0\0\0\0\0\0\0\x40\0\0\0\0\0\0\0\x04\0\0\0\0\0\0\0\0",
    ),
    (9 * 4096, b"BTR-GATE"),
    (
        10 * 4096,
        b"BTR-BODY\0\0\0\x01\0\0\0\x03\0\0\0\0\0\0\0\x03\0\0\0\0\0\0\0\x01\0\0\0\0\0\0\0\x22",
    ),
    (
        10 * 4096 + 64,
        b"\x03\x33\x33\x33\x33\x33\x33\x43\x33\x83\x33\x33\x33\x33\x33\x33\x33\x0b\x01\x02\0\0\0\0\0\0\0\0\0\
          \x01\0\0\0\0",
    ),
    (11 * 4096, b"BTR-GATE"),
    (
        12 * 4096,
        b"BTR-BODY\0\0\0\x01\0\0\0\x01\0\0\0\0\0\0\0\x04\0\0\0\0\0\0\0\x02\0\0\0\0\0\0\0\x4e\
          \0\0\0\0\0\0\0\x01\0\0\0\0\0\0\0\x0d",
    ),
    (
        12 * 4096 + 64,
        b"\x04\0\0\0\x01\x01\0\0\0\0\0\0\0\x01\0\0\0\0\0\0\0\x01\0\0\0\0\0\0\0\0\0\0\0\0\0\0\0\x08\
          \0\0\0\0\0\0\0\x02\0\0\0\0\0\0\0\0\0\0\0\0\0\0\0\x0c\
          \0\0\0\0\0\0\0\x04\xff\xff\xff\xff\xff\xff\xff\xfe",
    ),
    (
        13 * 4096,
        b"BTR-LEAF\xf0\0\0\0\0\0\0\0\0\0\0\x0a\0\0\0\x01\0\0\0\0\0\0\0\x01\0\0\0\0\0\0\0\x02",
    ),
    (
        13 * 4096 + 64,
        b"\0\0\0\0\0\0\0\0\0\0\0\0\0\0\0\x0c\0\0\0\0\0\0\0\x04\xff\xff\xff\xff\xff\xff\xff\xfe",
    ),
    (14 * 4096, b"BTR-GATE"),
    (
        15 * 4096,
        b"BTR-BODY\0\0\0\x01\0\0\0\x01\0\0\0\0\0\0\0\x05\0\0\0\0\0\0\0\x02\0\0\0\0\0\0\0\x25\
          \0\0\0\0\0\0\0\x01\0\0\0\0\0\0\0\x10",
    ),
    (
        15 * 4096 + 64,
        b"\x02\0\0\0\0\0\0\0\0\0\0\0\x01\0\0\0\0\0\0\0\x03\0\0\0\0\0\0\0\x04\0\0\0\0\0\0\0\0",
    ),
    (
        16 * 4096,
        b"BTR-LEAF\xf0\0\0\0\0\0\0\0\0\0\0\x0a\0\0\0\0\0\0\0\0\0\0\0\x02\0\0\0\0\0\0\0\x02",
    ),
    (
        16 * 4096 + 64,
        b"\0\0\0\0\0\0\0\0\0\0\0\0\0\0\0\x05\0\0\0\0\0\0\0\x04\xff\xff\xff\xff\xff\xff\xff\xfe",
    ),
    (17 * 4096, b"BTR-GATE"),
    (
        18 * 4096,
        b"BTR-BODY\0\0\0\x01\0\0\0\x01\0\0\0\0\0\0\0\x06\0\0\0\0\0\0\0\x02\0\0\0\0\0\0\0\x3e\
          \0\0\0\0\0\0\0\x01\0\0\0\0\0\0\0\x13",
    ),
    (
        18 * 4096 + 64,
        b"\x04\0\0\0\x01\x01\0\0\0\0\0\0\0\x02\0\0\0\0\0\0\0\x01\0\0\0\0\0\0\0\0\0\0\0\0\0\0\0\x04\
          \0\0\0\0\0\0\0\x01\0\0\0\0\0\0\0\0\0\0\0\0\0\0\0\x05",
    ),
    (
        19 * 4096,
        b"BTR-LEAF\xf0\0\0\0\0\0\0\0\0\0\0\x0a\0\0\0\x01\0\0\0\0\0\0\0\x02\0\0\0\0\0\0\0\x02",
    ),
    (
        19 * 4096 + 64,
        b"\0\0\0\0\0\0\0\0\0\0\0\0\0\0\0\x05\0\0\0\0\0\0\0\x04\xff\xff\xff\xff\xff\xff\xff\xfe",
    ),
];

/// What a checkpoint adds to these: the superblock A, which names it, and its extent in format 3.
const CHECKPOINT: &[(usize, &[u8])] = &[
    (
        4096,
        b"BTR-SUPR\0\0\0\x03\0\0\0\0\0\0\0\0\0\0\0\x03\0\0\0\0\0\0\0\x40\0\0\0\0\0\0\0\x16\0\0\0\0\0\0\0\x14",
    ),
    (20 * 4096, b"BTR-GATE"),
    (
        21 * 4096,
        b"BTR-BODY\0\0\0\x02\0\0\0\x03\0\0\0\0\0\0\0\x06\0\0\0\0\0\0\0\x01\0\0\0\0\0\0\0\xb9",
    ),
    (
        21 * 4096 + 64,
        b"\0\0\0\x02\x11\x11\x11\x11\x11\x11\x41\x11\x81\x11\x11\x11\x11\x11\x11\x11\
          \0\0\0\0\0\0\0\x01\0\0\0\0\0\0\0\0\x02\0\0\0\0\0\0\0\0\0\0\0\0\0\0\0\x02\0\0\0\0\0\0\0\x08\
          \0\0\0\0\0\0\0\x05\0\0\0\0\0\0\0\x10\
          \x33\x33\x33\x33\x33\x33\x43\x33\x83\x33\x33\x33\x33\x33\x33\x33\
          \0\0\0\0\0\0\0\x03\x01\x0b\x01\x02\0\0\0\0\0\0\0\0\0\x01\0\0\0\0\0\0\0\0\0\0\0\x02\0\0\0\0\0\0\0\0\
          \0\0\0\0\0\0\0\x04\0\0\0\0\0\0\0\x0d\x01\0\0\0\0\0\0\0\x01\
          \0\0\0\0\0\0\0\x06\0\0\0\0\0\0\0\x13\x01\0\0\0\0\0\0\0\x02",
    ),
];

/// Makes an output of windows, and brings it up to date twice. Returns the device.
fn defined(rt: &(impl AllocGlobal + Threads + Wait + Sync)) -> Result<MemDisk, Fail> {
    let script =
        b"create U\ninsert U 0 5 3 7 4 -2\ncell W sum 2 0 U\nrefresh W\ndelete U 3 4\nrefresh W\n";
    Ok(run_on(rt, "live", script, store_of(rt, "64")?)?.disk)
}

/// Returns the device with a checkpoint.
fn marked(rt: &(impl AllocGlobal + Threads + Wait + Sync)) -> Result<MemDisk, Fail> {
    Ok(run_on(rt, "checkpoint", b"", defined(rt)?)?.disk)
}

#[test]
fn the_bytes_of_windows_are_those_of_their_format(rt: HostRuntime) -> Result<(), Fail> {
    // eight calls to format, three to open, four for each of five entries, and nine for the first definition of windows
    assert!(rt; has_bytes(&rt, defined(&rt)?, &[BYTES])? == (40, true));
    assert!(rt; has_bytes(&rt, marked(&rt)?, &[BYTES, CHECKPOINT])?.1);
    Ok(())
}

/// A byte that has another value, what is then said, and whether a checkpoint is named: the format of the superblock, below that of the
/// definition and above the greatest one; of the head of the definition, below its own; and of the head of the checkpoint, below that of
/// the definition.
const CHANGED: &[(usize, u8, &str, bool)] = &[
    (3 * 4096 + 11, 2, "no damaged 10\n", false),
    (3 * 4096 + 11, 4, "no damaged 3\n", false),
    (10 * 4096 + 15, 1, "no damaged 10\n", false),
    (10 * 4096 + 15, 2, "no damaged 10\n", false),
    (21 * 4096 + 15, 1, "no damaged 21\n", true),
    (21 * 4096 + 15, 2, "no damaged 21\n", true),
];

/// Whether a run of these words on a device of these bytes gives this text and status 7.
fn is_damaged(
    rt: &(impl AllocGlobal + Threads + Wait + Sync),
    words: &str,
    bytes: Vec<u8>,
    text: &str,
) -> Result<bool, Fail>
    requires { length bytes.items % 4096 ≡ 0 }
{
    let ran = run_on(rt, words, b"", device_of(rt.alloc(), bytes)?)?;
    Ok(ran.gave(text, 7))
}

/// Returns the bytes of the device, with a checkpoint or without.
fn bytes_of(
    rt: &(impl AllocGlobal + Threads + Wait + Sync),
    with_checkpoint: bool,
) -> Result<Vec<u8>, Fail>
    ensures { IfOk result (λ bytes. length bytes.items % 4096 ≡ 0) }
{
    if with_checkpoint {
        return Ok(marked(rt)?.into_bytes());
    }
    Ok(defined(rt)?.into_bytes())
}

/// Returns the first row that is wrong in a run of these words.
fn first_wrong_format(
    rt: &(impl AllocGlobal + Threads + Wait + Sync),
    words: &str,
) -> Result<Option<usize>, Fail> {
    for (row, (at, byte, text, with_checkpoint)) in CHANGED.iter().enumerate() {
        let bytes = with_piece(bytes_of(rt, *with_checkpoint)?, *at, &[*byte]);
        if !is_damaged(rt, words, bytes, text)? {
            return Ok(Some(row));
        }
    }
    Ok(None)
}

#[test]
fn windows_in_another_format_are_damage(rt: HostRuntime) -> Result<(), Fail> {
    no_wrong(first_wrong_format(&rt, "ask")?)?;
    no_wrong(first_wrong_format(&rt, "check")?)
}

/// The lines of a run with the first definition of windows of a store.
const SCRIPT: &[u8] = b"create U\ninsert U 0 5\ncell W sum 2 0 U\ninsert U 1 6\nrefresh W\n";

#[test]
fn a_stop_in_a_first_definition_of_windows_keeps_what_was_acknowledged(
    rt: HostRuntime,
) -> Result<(), Fail> {
    no_wrong(first_wrong_stop(&rt, SCRIPT)?)
}
