//! Runs of `check`: what they say of stores, and that they write nothing.
ghost use Rattle.std.specs.Prelude.{◌≡◌, ◌%◌, length, IfOk};

use super::checkpoints::marked;
use super::device::{has_bytes, turned, written};
use super::fixture::{
    STORE, TWO_ENTRIES, device_of, empty_device, no_wrong, play, play_failing, play_parts, run_on,
    run_words, store_of, with_piece,
};
use btr_disk::MemDisk;
use btr_io::{MemSink, MemSource};
use std::sync::Wait;
use std::test::Fail;
use std::thread::Threads;

const NO_STORE: &str = "\
$ check
< no store
= 6
";

const EMPTY: &str = "\
$ check
< stands 0
= 0
";

/// Versions with points and without, a version that shares its root with an earlier one, an output, and checkpoints between them.
const ENTRIES: &str = "\
$ live
> create U
> insert U 0 5 3 7 4 -2
> delete U 100 101
> delete U 0 5
< ok 0 0
< ok 1 0
< ok 2 0
< ok 3 0
= 0
$ check
< stands 4
= 0
$ checkpoint
< checkpoint 4
= 0
$ live
> insert U 0 10 10 20 20 30
> distiller W sum 10 0 U
> refresh W
> insert U 5 1
> refresh W
< ok 4 0
< ok 0 0
< ok 1 0
< ok 5 0
< ok 2 0
= 0
$ checkpoint
< checkpoint 9
= 0
$ check
< stands 9
= 0
$ ask
> range W 0 100 latest
< ok 2 4
< 0 10
< 5 11
< 10 31
< 20 50
= 0
";

#[test]
fn a_store_of_this_program_stands(rt: HostRuntime) -> Result<(), Fail> {
    play_parts(&rt, &[NO_STORE, STORE, EMPTY, ENTRIES])
}

const NO_USAGE: &str = "\
$ check 1
< no usage
= 2
$ check --workers 2
< no usage
= 2
$ checks
< no usage
= 2
";

#[test]
fn a_check_has_no_further_words(rt: HostRuntime) -> Result<(), Fail> {
    play(&rt, &[], NO_USAGE)
}

/// A check of the two entries that fails, and then one that does not.
const FAILING: &str = "\
$ check
< no device
= 5
$ check
< stands 2
= 0
";

/// The calls of the first check: a read of the superblocks, one of the log, and one of the pages. The format made the calls 0 to 7, and the
/// run of the entries the calls 8 to 18.
const CALLS: &[u64] = &[19, 20, 21];

#[test]
fn each_call_of_a_check_may_fail(rt: HostRuntime) -> Result<(), Fail> {
    for call in CALLS {
        play_failing(&rt, &[*call], &[STORE, TWO_ENTRIES, FAILING])?;
    }
    Ok(())
}

/// Checks a device with the bytes of one that was written. Returns the device.
fn checked(rt: &(impl AllocGlobal + Threads + Wait + Sync)) -> Result<MemDisk, Fail> {
    let disk = device_of(rt.alloc(), written(rt)?.into_bytes())?;
    Ok(run_on(rt, "check", b"", disk)?.disk)
}

#[test]
fn a_check_makes_three_calls_and_writes_nothing(rt: HostRuntime) -> Result<(), Fail> {
    assert!(rt; has_bytes(&rt, checked(&rt)?, &[])? == (3, true));
    Ok(())
}

/// Whether a check of a device with these bytes gives this text and status.
fn says(
    rt: &(impl AllocGlobal + Threads + Wait + Sync),
    bytes: Vec<u8>,
    text: &str,
    status: u8,
) -> Result<bool, Fail>
    requires { length bytes.items % 4096 ≡ 0 }
{
    let ran = run_on(rt, "check", b"", device_of(rt.alloc(), bytes)?)?;
    Ok(ran.gave(text, status))
}

/// Returns the first row of a table that is wrong. A row has the address of a byte, and what a check says if a bit of that byte is turned.
fn first_wrong_byte(
    rt: &(impl AllocGlobal + Threads + Wait + Sync),
    whole: &Vec<u8>,
    rows: &[(usize, &str, u8)],
) -> Result<Option<usize>, Fail>
    requires { length whole.now.items % 4096 ≡ 0 }
{
    for (row, (at, text, status)) in rows.iter().enumerate() {
        if !says(rt, turned(whole.clone()?, *at), text, *status)? {
            return Ok(Some(row));
        }
    }
    Ok(None)
}

/// The gate of the superblock, without which there is no store; its mark and its tail. The gate of the second entry, without which there is
/// one entry; the mark of the entry, its number, its kind, and the byte after it. A value of the entry, which its leaf does not have then;
/// of the leaf its mark, its stream and its version, without which it is no root of the entry; its count; a time, a value, and a place
/// without a point.
const TURNED: &[(usize, &str, u8)] = &[
    (0, "no store\n", 6),
    (4096, "no damaged 1\n", 7),
    (4096 + 39, "no damaged 1\n", 7),
    (6 * 4096, "stands 1\n", 0),
    (7 * 4096, "no damaged 7\n", 7),
    (7 * 4096 + 23, "no damaged 7\n", 7),
    (7 * 4096 + 64, "no damaged 7\n", 7),
    (7 * 4096 + 4095, "no damaged 7\n", 7),
    (7 * 4096 + 100, "no damaged 8\n", 7),
    (8 * 4096, "no damaged 8\n", 7),
    (8 * 4096 + 23, "no damaged 7\n", 7),
    (8 * 4096 + 30, "no damaged 7\n", 7),
    (8 * 4096 + 39, "no damaged 8\n", 7),
    (8 * 4096 + 71, "no damaged 8\n", 7),
    (8 * 4096 + 79, "no damaged 8\n", 7),
    (8 * 4096 + 4095, "no damaged 8\n", 7),
    (9 * 4096, "stands 2\n", 0),
];

/// Returns the bytes of the device with two entries.
fn written_bytes(rt: &(impl AllocGlobal + Threads + Wait + Sync)) -> Result<Vec<u8>, Fail>
    ensures { IfOk result (λ bytes. length bytes.items % 4096 ≡ 0) }
{
    Ok(written(rt)?.into_bytes())
}

#[test]
fn a_changed_byte_is_named_by_its_block(rt: HostRuntime) -> Result<(), Fail> {
    let whole = written_bytes(&rt)?;
    no_wrong(first_wrong_byte(&rt, &whole, TURNED)?)
}

/// The two entries of [`TURNED`] with a checkpoint after them: the gate 9, the body 10, and the superblock B, which names it. The bytes
/// are: of the body its number and a byte of an id, which are then not those of the entries; of the superblock its tail and its
/// checkpoint; the gate of B, without which A counts; the gates of the log, without which it has no such checkpoint.
const TURNED_MARKED: &[(usize, &str, u8)] = &[
    (10 * 4096 + 23, "no damaged 10\n", 7),
    (10 * 4096 + 83, "no damaged 10\n", 7),
    (3 * 4096 + 39, "no damaged 3\n", 7),
    (3 * 4096 + 47, "no damaged 3\n", 7),
    (2 * 4096, "stands 2\n", 0),
    (4 * 4096, "no damaged 3\n", 7),
    (6 * 4096, "no damaged 3\n", 7),
    (9 * 4096, "no damaged 3\n", 7),
    (11 * 4096, "stands 2\n", 0),
    (5 * 4096, "no damaged 5\n", 7),
    (7 * 4096 + 100, "no damaged 8\n", 7),
    (8 * 4096 + 79, "no damaged 8\n", 7),
];

/// Returns the bytes of the device with two entries and a checkpoint.
fn marked_bytes(rt: &(impl AllocGlobal + Threads + Wait + Sync)) -> Result<Vec<u8>, Fail>
    ensures { IfOk result (λ bytes. length bytes.items % 4096 ≡ 0) }
{
    Ok(marked(rt)?.into_bytes())
}

#[test]
fn the_log_before_a_checkpoint_is_checked_too(rt: HostRuntime) -> Result<(), Fail> {
    let whole = marked_bytes(&rt)?;
    no_wrong(first_wrong_byte(&rt, &whole, TURNED_MARKED)?)
}

/// Makes a store of three versions: a leaf in block 8, one in block 11, and one in block 14. Returns the bytes.
fn three_versions(rt: &(impl AllocGlobal + Threads + Wait + Sync)) -> Result<Vec<u8>, Fail>
    ensures { IfOk result (λ bytes. length bytes.items % 4096 ≡ 0) }
{
    let script = b"create U\ninsert U 0 5 3 7\ninsert U 4 -2\ninsert U 9 9\n";
    let made = run_on(rt, "live", script, store_of(rt, "64")?)?;
    Ok(made.disk.into_bytes())
}

#[test]
fn a_root_of_another_version_is_named(rt: HostRuntime) -> Result<(), Fail> {
    let whole = three_versions(&rt)?;
    // the entry in block 13 says that its root is block 11, which an opening does not see
    let other = with_piece(whole, 13 * 4096 + 55, b"\x0b");
    assert!(rt; says(&rt, other, "no damaged 11\n", 7)?);
    Ok(())
}

/// Makes a store of an output with one version: the distillate is in block 12, and its leaf in block 13. Returns the bytes.
fn one_output(rt: &(impl AllocGlobal + Threads + Wait + Sync)) -> Result<Vec<u8>, Fail>
    ensures { IfOk result (λ bytes. length bytes.items % 4096 ≡ 0) }
{
    let script = b"create V\ninsert V 0 10 10 20 20 30\ndistiller W sum 10 0 V\nrefresh W\n";
    let made = run_on(rt, "live", script, store_of(rt, "64")?)?;
    Ok(made.disk.into_bytes())
}

#[test]
fn a_distillate_is_computed_anew(rt: HostRuntime) -> Result<(), Fail> {
    let whole = one_output(&rt)?;
    // the last sum is 51 and not 50, in the entry and in its leaf
    let entry = with_piece(whole, 12 * 4096 + 157, b"\x33");
    let both = with_piece(entry, 13 * 4096 + 111, b"\x33");
    assert!(rt; says(&rt, both, "no damaged 12\n", 7)?);
    Ok(())
}

/// Checks an empty store with a source whose first call fails. Returns whether it says what it says otherwise.
fn reads_nothing(rt: &(impl AllocGlobal + Threads + Wait + Sync)) -> Result<bool, Fail> {
    let alloc = rt.alloc();
    let mut source = MemSource::new(Vec::new(alloc), 7, vec![in alloc; 0]?);
    let mut sink = MemSink::new(alloc, 100, 100, Vec::new(alloc))?;
    let (status, _) = run_words(rt, "check", &mut source, &mut sink, store_of(rt, "64")?)?;
    Ok(status == 0 && sink.written() == b"stands 0\n".as_slice())
}

/// Checks an empty store while the sink fails at its first call. Returns the status.
fn unwritten(rt: &(impl AllocGlobal + Threads + Wait + Sync)) -> Result<u8, Fail> {
    let alloc = rt.alloc();
    let mut source = MemSource::new(Vec::new(alloc), 7, Vec::new(alloc));
    let mut sink = MemSink::new(alloc, 100, 100, vec![in alloc; 0]?)?;
    let (status, _) = run_words(rt, "check", &mut source, &mut sink, store_of(rt, "64")?)?;
    Ok(status)
}

/// Checks a device that has no store. Returns the status and the calls of the device.
fn refused(rt: &(impl AllocGlobal + Threads + Wait + Sync)) -> Result<(u8, u64), Fail> {
    let ran = run_on(rt, "check", b"", empty_device(rt.alloc(), &[])?)?;
    Ok((ran.status, ran.disk.calls()))
}

#[test]
fn a_check_reads_no_input(rt: HostRuntime) -> Result<(), Fail> {
    assert!(rt; reads_nothing(&rt)?);
    assert!(rt; unwritten(&rt)? == 4);
    // one read, of the superblocks
    assert!(rt; refused(&rt)? == (6, 1));
    Ok(())
}
