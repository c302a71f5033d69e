//! Runs of `seal`: what they write and leave, what each command answers on a sealed store, and a stop or a fault in each call.
ghost use Rattle.std.specs.Prelude.{◌≡◌, ◌%◌, length, IfOk};

use super::checkpoints::marked;
use super::device::{has_bytes, written};
use super::fixture::{
    STORE, TWO_ENTRIES, device_of, no_wrong, play, play_failing, play_parts, run_on, store_of,
    with_piece,
};
use super::stops::FILLS;
use btr_disk::{Disk, FuseDisk, MemDisk};
use btr_io::{MemSink, MemSource};
use btr_top::{Outcome, run};
use std::sync::Wait;
use std::test::Fail;
use std::thread::Threads;

/// A seal of the two entries.
pub(super) const SEAL: &str = "\
$ seal
< sealed 2
= 0
";

/// A line that is refused, a question, and a check.
const AFTER: &str = "\
$ live
> insert U 9 9
< no sealed
= 1
$ ask
> aligned U 0 8 2 1
< ok 1 2
< 0 2 12 5 7
< 4 1 -2 -2 -2
= 0
$ ask --cold
> aligned U 0 8 2 1
< ok 1 2
< 0 2 12 5 7
< 4 1 -2 -2 -2
= 0
$ check
< stands 2
= 0
";

#[test]
fn a_sealed_store_answers_and_takes_no_entry(rt: HostRuntime) -> Result<(), Fail> {
    play_parts(&rt, &[STORE, TWO_ENTRIES, SEAL, AFTER])
}

/// Commands that would write.
const COMMANDS: &str = "\
$ seal
< no sealed
= 1
$ checkpoint
< no sealed
= 1
$ load
> U,9,1
> X,1,1
> X,2,2
< 11111111-1111-4111-8111-111111111111 rows 1 1: no sealed
< 11111111-1111-4111-8111-111111111111 1 0
< 44444444-4444-4444-8444-444444444444 rows 2 3: no sealed
< loaded 0 refused 3
= 1
$ live --group 1
> feed U 9 9
> flush U
< no sealed
< no empty
= 1
$ distil
= 0
$ format --blocks 64
< no occupied
= 6
$ check
< stands 2
= 0
";

#[test]
fn each_command_is_refused_by_a_sealed_store(rt: HostRuntime) -> Result<(), Fail> {
    play_parts(&rt, &[STORE, TWO_ENTRIES, SEAL, COMMANDS])
}

/// An output that is not up to date, and a seal.
pub(super) const OUTPUT: &str = "\
$ live
> create U
> insert U 0 5 3 7 4 -2
> create V
> insert V 0 10 10 20 20 30
> distiller W sum 10 0 V
> refresh W
> insert V 5 1
< ok 0 0
< ok 1 0
< ok 0 0
< ok 1 0
< ok 0 0
< ok 1 0
< ok 2 0
= 0
$ seal
< sealed 7
= 0
";

/// Each line. `sealed` comes first of the causes of a commit; what is tested before a commit comes before it.
const LINES: &str = "\
$ live
> create X
> create U
> insert U 9 9
> insert W 9 9
> insert X 9 9
> delete U 3 4
> delete U 4 3
> feed U 9 9
> feed W 9 9
> flush U
> flush U
> discard U
> flush U
> flush V
> distiller X sum 1 0 U
> distiller X sum 1 0 X
> cell X sum 2 0 U
> refresh W
> refresh U
> retire U 1
> retire U 9
> seal
> range U 0 5 1
< no sealed
< no sealed
< no sealed
< no sealed
< no stream
< no sealed
< no range
< held 1
< no output
< no sealed
< no sealed
< held 0
< no empty
< no empty
< no sealed
< no stream
< no sealed
< no sealed
< no plain
< no sealed
< no sealed
< no line
< ok 1 3
< 0 5
< 3 7
< 4 -2
= 1
$ distil
< 33333333-3333-4333-8333-333333333333 no sealed
= 1
$ live --materialize
> @1 insert U 9 9
> @2 create X
< no sealed
< no sealed
< materialize 33333333-3333-4333-8333-333333333333 no sealed
= 1
$ check
< stands 7
= 0
";

#[test]
fn each_line_is_refused_by_a_sealed_store(rt: HostRuntime) -> Result<(), Fail> {
    play_parts(&rt, &[STORE, OUTPUT, LINES])
}

const NO_STORE: &str = "\
$ seal
< no store
= 6
$ seal 1
< no usage
= 2
$ format --blocks 64
< formatted 64
= 0
$ seal
< sealed 0
= 0
$ ask
> streams
< ok 0 0
= 0
$ live
> create U
< no sealed
= 1
$ check
< stands 0
= 0
";

const TEN_BLOCKS: &str = "\
$ format --blocks 10
< formatted 10
= 0
";

const FULL: &str = "\
$ seal
< no full 2 0
= 8
$ check
< stands 2
= 0
";

#[test]
fn a_seal_is_refused_as_a_checkpoint_is(rt: HostRuntime) -> Result<(), Fail> {
    play(&rt, &[], NO_STORE)?;
    play_parts(&rt, &[TEN_BLOCKS, TWO_ENTRIES, FULL])
}

// ---- the bytes

/// The superblock B, the gate 9, and the body of the checkpoint of a seal of the two entries, written by hand: the address and the bytes.
/// The superblock has format 4 and the number 1 at offset 48. The body has one stream, which entry 1 made, with one version and none that
/// is retired. Entry 2 made the version, whose root is block 8.
const BYTES: &[(usize, &[u8])] = &[
    (2 * 4096, b"BTR-GATE"),
    (
        3 * 4096,
        b"BTR-SUPR\0\0\0\x04\0\0\0\0\0\0\0\0\0\0\0\x02\0\0\0\0\0\0\0\x40\0\0\0\0\0\0\0\x0b\0\0\0\0\0\0\0\x09\0\0\0\0\0\0\0\x01",
    ),
    (9 * 4096, b"BTR-GATE"),
    (
        10 * 4096,
        b"BTR-BODY\0\0\0\x02\0\0\0\x04\0\0\0\0\0\0\0\x02\0\0\0\0\0\0\0\x01\0\0\0\0\0\0\0\x3d",
    ),
    (
        10 * 4096 + 64,
        b"\0\0\0\x01\x11\x11\x11\x11\x11\x11\x41\x11\x81\x11\x11\x11\x11\x11\x11\x11\0\0\0\0\0\0\0\x01\0\
          \0\0\0\0\0\0\0\x01\0\0\0\0\0\0\0\0\0\0\0\0\0\0\0\x02\0\0\0\0\0\0\0\x08",
    ),
];

/// Seals a store of two entries. Returns the device.
pub(super) fn sealed(rt: &(impl AllocGlobal + Threads + Wait + Sync)) -> Result<MemDisk, Fail> {
    Ok(run_on(rt, "seal", b"", written(rt)?)?.disk)
}

#[test]
fn the_bytes_of_a_seal_are_those_of_its_format(rt: HostRuntime) -> Result<(), Fail> {
    // 19 calls to make the entries, three to open, and nine for the seal
    assert!(rt; has_bytes(&rt, sealed(&rt)?, &[BYTES])? == (31, true));
    Ok(())
}

/// Returns the bytes of a sealed device.
pub(super) fn sealed_bytes(rt: &(impl AllocGlobal + Threads + Wait + Sync)) -> Result<Vec<u8>, Fail>
    ensures { IfOk result (λ bytes. length bytes.items % 4096 ≡ 0) }
{
    Ok(sealed(rt)?.into_bytes())
}

/// A piece that is put into a sealed device, and the text and the status of an insert and of a check then: the number at offset 48 of each
/// superblock, which is 1 in format 4 alone; formats above and below; the gate at the tail, which has to be closed; an entry before the
/// checkpoint with the format of a seal; and the gate of B, without which the store is not sealed, and reads past the checkpoint.
const CHANGED: &[(usize, &[u8], &str, u8, &str, u8)] = &[
    (
        3 * 4096 + 55,
        &[0],
        "no damaged 3\n",
        7,
        "no damaged 3\n",
        7,
    ),
    (
        3 * 4096 + 55,
        &[2],
        "no damaged 3\n",
        7,
        "no damaged 3\n",
        7,
    ),
    (
        3 * 4096 + 48,
        &[1],
        "no damaged 3\n",
        7,
        "no damaged 3\n",
        7,
    ),
    (
        3 * 4096 + 11,
        &[1],
        "no damaged 3\n",
        7,
        "no damaged 3\n",
        7,
    ),
    (
        3 * 4096 + 11,
        &[3],
        "no damaged 3\n",
        7,
        "no damaged 3\n",
        7,
    ),
    (
        3 * 4096 + 11,
        &[5],
        "no damaged 3\n",
        7,
        "no damaged 3\n",
        7,
    ),
    (4096 + 55, &[1], "no damaged 1\n", 7, "no damaged 1\n", 7),
    (
        11 * 4096,
        b"BTR-GATE",
        "no damaged 11\n",
        7,
        "no damaged 11\n",
        7,
    ),
    (5 * 4096 + 15, &[4], "no sealed\n", 1, "no damaged 5\n", 7),
    (10 * 4096 + 15, &[3], "no sealed\n", 1, "stands 2\n", 0),
    (2 * 4096, &[0], "ok 2 0\n", 0, "stands 3\n", 0),
];

fn first_wrong_piece(
    rt: &(impl AllocGlobal + Threads + Wait + Sync),
    whole: &Vec<u8>,
) -> Result<Option<usize>, Fail>
    requires { length whole.now.items % 4096 ≡ 0 }
{
    for (row, (at, piece, text, status, checked, end)) in CHANGED.iter().enumerate() {
        let bytes = with_piece(whole.clone()?, *at, piece);
        let ran = run_on(rt, "live", b"insert U 9 9\n", device_of(rt.alloc(), bytes)?)?;
        let is_said = ran.gave(text, *status);
        if !is_said || !run_on(rt, "check", b"", ran.disk)?.gave(checked, *end) {
            return Ok(Some(row));
        }
    }
    Ok(None)
}

#[test]
fn each_byte_of_a_seal_counts(rt: HostRuntime) -> Result<(), Fail> {
    let whole = sealed_bytes(&rt)?;
    no_wrong(first_wrong_piece(&rt, &whole)?)
}

/// Returns an empty store whose superblock is that of a sealed one without a checkpoint, and with these bytes at its first gate.
pub(super) fn sealed_by_hand(
    rt: &(impl AllocGlobal + Threads + Wait + Sync),
    gate: &[u8],
) -> Result<MemDisk, Fail> {
    let bytes = store_of(rt, "64")?.into_bytes();
    let bytes = with_piece(bytes, 4096 + 11, &[4]);
    let bytes = with_piece(bytes, 4096 + 55, &[1]);
    Ok(device_of(rt.alloc(), with_piece(bytes, 4 * 4096, gate))?)
}

#[test]
fn a_sealed_store_without_a_checkpoint_is_empty(rt: HostRuntime) -> Result<(), Fail> {
    let ran = run_on(
        &rt,
        "live",
        b"streams\ncreate U\n",
        sealed_by_hand(&rt, b"")?,
    )?;
    assert!(rt; ran.gave("ok 0 0\nno sealed\n", 1));
    let open = run_on(&rt, "ask", b"streams\n", sealed_by_hand(&rt, b"BTR-GATE")?)?;
    assert!(rt; open.gave("no damaged 4\n", 7));
    Ok(())
}

/// Returns the bytes of a store with a checkpoint and an entry after it, whose superblock says that it is sealed.
fn going_on(rt: &(impl AllocGlobal + Threads + Wait + Sync)) -> Result<MemDisk, Fail> {
    let ran = run_on(rt, "live", b"insert U 9 9\n", marked(rt)?)?;
    let bytes = with_piece(ran.disk.into_bytes(), 3 * 4096 + 11, &[4]);
    Ok(device_of(rt.alloc(), with_piece(bytes, 3 * 4096 + 55, &[1]))?)
}

#[test]
fn a_sealed_log_that_goes_on_is_damaged_at_its_tail(rt: HostRuntime) -> Result<(), Fail> {
    let asked = run_on(&rt, "ask", b"streams\n", going_on(&rt)?)?;
    assert!(rt; asked.gave("no damaged 11\n", 7));
    let checked = run_on(&rt, "check", b"", going_on(&rt)?)?;
    assert!(rt; checked.gave("no damaged 11\n", 7));
    Ok(())
}

// ---- stops and faults

/// The calls of a seal of the two entries: three of the opening and nine of the seal.
const CALLS: u64 = 12;

/// The calls before the write of the gate of the superblock. A stop in that write may leave the gate open.
const GATE_CALLS: u64 = 10;

/// Whether a store has the two entries, and is sealed or not, by what another seal says. Before the gate of its superblock was written it
/// is not, and after all calls it is.
fn is_kept(
    rt: &(impl AllocGlobal + Threads + Wait + Sync),
    disk: MemDisk,
    calls: u64,
) -> Result<bool, Fail> {
    let checked = run_on(rt, "check", b"", disk)?;
    let stands = checked.gave("stands 2\n", 0);
    let again = run_on(rt, "seal", b"", checked.disk)?;
    let is_open = again.gave("sealed 2\n", 0) && calls < CALLS;
    let is_sealed = again.gave("no sealed\n", 1) && calls >= GATE_CALLS;
    let after = run_on(rt, "live", b"insert U 9 9\n", again.disk)?;
    Ok(stands && (is_open || is_sealed) && after.gave("no sealed\n", 1))
}

/// Seals a store of two entries on a device that stops after this many calls.
fn stopped_seal(
    rt: &(impl AllocGlobal + Threads + Wait + Sync),
    calls: u64,
) -> Result<(u8, MemDisk), Fail> {
    let alloc = rt.alloc();
    let mut source = MemSource::new(Vec::new(alloc), 7, Vec::new(alloc));
    let mut sink = MemSink::new(alloc, 100, 100, Vec::new(alloc))?;
    let words = vec![in alloc; "seal".to_string(alloc)?]?;
    let fuse = FuseDisk::new(written(rt)?, calls);
    let Outcome { status, disk, .. } = run(rt, alloc, &words, &mut source, &mut sink, fuse);
    Ok((status, disk.into_disk()))
}

/// Whether each store that a stop after this many calls may leave has the two entries.
fn stops_well(rt: &(impl AllocGlobal + Threads + Wait + Sync), calls: u64) -> Result<bool, Fail> {
    let (status, disk) = stopped_seal(rt, calls)?;
    for fill in FILLS {
        if !is_kept(rt, disk.image(rt.alloc(), fill)?, calls)? {
            return Ok(false);
        }
    }
    Ok((status == 0) == (calls >= CALLS))
}

fn first_wrong_stop(
    rt: &(impl AllocGlobal + Threads + Wait + Sync),
) -> Result<Option<usize>, Fail> {
    for calls in 0..CALLS + 1 {
        if !stops_well(rt, calls)? {
            return Ok(Some(calls as usize));
        }
    }
    Ok(None)
}

#[test]
fn a_stop_in_a_seal_leaves_the_store_sealed_or_not(rt: HostRuntime) -> Result<(), Fail> {
    no_wrong(first_wrong_stop(&rt)?)
}

/// A seal in which a call of the device fails, and what is answered then.
const FAILING: &str = "\
$ seal
< no device
= 5
$ ask
> range U 3 4 1
< ok 1 1
< 3 7
= 0
$ check
< stands 2
= 0
";

#[test]
fn each_call_of_a_seal_may_fail(rt: HostRuntime) -> Result<(), Fail> {
    // the format made the calls 0 to 7, and the run of the entries the calls 8 to 18
    for call in 19..19 + CALLS {
        play_failing(&rt, &[call], &[STORE, TWO_ENTRIES, FAILING])?;
    }
    Ok(())
}
