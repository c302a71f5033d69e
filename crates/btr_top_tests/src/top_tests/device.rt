//! The bytes of a device: those that a script writes, and those that are refused.
ghost use Rattle.std.specs.Prelude.{◌≡◌, ◌%◌, length, IfOk};

use super::fixture::{device_of, no_wrong, run_on, store_of, with_piece};
use btr_disk::{Disk, MemDisk};
use std::sync::Wait;
use std::test::Fail;
use std::thread::Threads;

/// Returns the bytes of a store of two streams.
fn two_streams(rt: &(impl AllocGlobal + Threads + Wait + Sync)) -> Result<Vec<u8>, Fail>
    ensures { IfOk result (λ bytes. length bytes.items % 4096 ≡ 0) }
{
    let made = run_on(rt, "live", b"create U\ncreate V\n", store_of(rt, "64")?)?;
    Ok(made.disk.into_bytes())
}

/// Returns whether a question on a device of these bytes gives this text and status.
fn says(
    rt: &(impl AllocGlobal + Threads + Wait + Sync),
    question: &[u8],
    bytes: Vec<u8>,
    text: &str,
    status: u8,
) -> Result<bool, Fail>
    requires { length bytes.items % 4096 ≡ 0 }
{
    let ran = run_on(rt, "ask", question, device_of(rt.alloc(), bytes)?)?;
    Ok(ran.gave(text, status))
}

/// Returns the bytes with one bit of a byte turned.
pub(super) fn turned(bytes: Vec<u8>, at: usize) -> Vec<u8>
    ensures { length result.items ≡ length bytes.items }
{
    let byte = bytes.get(at).copied().unwrap_or(0);
    with_piece(bytes, at, &[byte ^ 1])
}

/// A byte that is changed, and the text and the status of a question: the superblock; the second entry's mark, number and kind; a byte
/// after it; and the gate after it, which stays closed.
const TURNED: &[(usize, &str, u8)] = &[
    (4096, "no damaged 1\n", 7),
    (7 * 4096, "no damaged 7\n", 7),
    (7 * 4096 + 23, "no damaged 7\n", 7),
    (7 * 4096 + 64, "no damaged 7\n", 7),
    (7 * 4096 + 4095, "no damaged 7\n", 7),
    (8 * 4096, "ok 0 0\n", 0),
];

fn first_wrong_byte(
    rt: &(impl AllocGlobal + Threads + Wait + Sync),
    whole: &Vec<u8>,
) -> Result<Option<usize>, Fail>
    requires { length whole.now.items % 4096 ≡ 0 }
{
    for (row, (at, text, status)) in TURNED.iter().enumerate() {
        let bytes = turned(whole.clone()?, *at);
        if !says(rt, b"range V 0 1 latest\n", bytes, text, *status)? {
            return Ok(Some(row));
        }
    }
    Ok(None)
}

#[test]
fn a_device_that_is_no_store_is_refused(rt: HostRuntime) -> Result<(), Fail> {
    let whole = two_streams(&rt)?;
    no_wrong(first_wrong_byte(&rt, &whole)?)
}

#[test]
fn an_entry_that_may_not_follow_is_damage(rt: HostRuntime) -> Result<(), Fail> {
    // the second entry creates the first one's stream again
    let bytes = with_piece(two_streams(&rt)?, 7 * 4096 + 64, CREATE);
    assert!(rt; says(&rt, b"range U 0 1 latest\n", bytes, "no damaged 7\n", 7)?);
    Ok(())
}

/// The bytes of an entry that creates a stream.
const CREATE: &[u8] = b"\x01\x11\x11\x11\x11\x11\x11\x41\x11\x81\x11\x11\x11\x11\x11\x11\x11";

/// The bytes of open gates, of a superblock's body, of the bodies of two entries and of a leaf, written by hand: the address and
/// the bytes. All else is zeros.
///
/// The second entry's body has two blocks: one of its content, and one of its node, the root in block 8. The page of that node has its
/// span's first time and height, the stream, the version and the number of its points, and then the points.
const BYTES: [(usize, &[u8]); 10] = [
    (0, b"BTR-GATE"),
    (
        4096,
        b"BTR-SUPR\0\0\0\x01\0\0\0\0\0\0\0\0\0\0\0\x01\0\0\0\0\0\0\0\x40\0\0\0\0\0\0\0\x04",
    ),
    (4 * 4096, b"BTR-GATE"),
    (
        5 * 4096,
        b"BTR-BODY\0\0\0\x01\0\0\0\x01\0\0\0\0\0\0\0\x01\0\0\0\0\0\0\0\x01\0\0\0\0\0\0\0\x11",
    ),
    (
        5 * 4096 + 64,
        b"\x01\x11\x11\x11\x11\x11\x11\x41\x11\x81\x11\x11\x11\x11\x11\x11\x11",
    ),
    (6 * 4096, b"BTR-GATE"),
    (
        7 * 4096,
        b"BTR-BODY\0\0\0\x01\0\0\0\x01\0\0\0\0\0\0\0\x02\0\0\0\0\0\0\0\x02\0\0\0\0\0\0\0\x45\
          \0\0\0\0\0\0\0\x01\0\0\0\0\0\0\0\x08",
    ),
    (
        7 * 4096 + 64,
        b"\x02\0\0\0\0\0\0\0\0\0\0\0\0\0\0\0\0\0\0\0\x03\0\0\0\0\0\0\0\0\0\0\0\0\0\0\0\x05\
          \0\0\0\0\0\0\0\x03\0\0\0\0\0\0\0\x07\0\0\0\0\0\0\0\x04\xff\xff\xff\xff\xff\xff\xff\xfe",
    ),
    (
        8 * 4096,
        b"BTR-LEAF\xf0\0\0\0\0\0\0\0\0\0\0\x0a\0\0\0\0\0\0\0\0\0\0\0\x01\0\0\0\0\0\0\0\x03",
    ),
    (
        8 * 4096 + 64,
        b"\0\0\0\0\0\0\0\0\0\0\0\0\0\0\0\x05\0\0\0\0\0\0\0\x03\0\0\0\0\0\0\0\x07\
          \0\0\0\0\0\0\0\x04\xff\xff\xff\xff\xff\xff\xff\xfe",
    ),
];

/// Bytes with their addresses.
type Pieces<'a> = &'a [(usize, &'a [u8])];

/// Returns the bytes, but for these pieces.
fn with_pieces(bytes: Vec<u8>, pieces: Pieces<'_>) -> Vec<u8> {
    let mut bytes = bytes;
    for (at, piece) in pieces {
        bytes = with_piece(bytes, *at, piece);
    }
    bytes
}

/// Returns the bytes of the device, by hand, with more pieces after those of the two entries.
fn by_hand(rt: &impl AllocGlobal, more: &[Pieces<'_>]) -> Result<Vec<u8>, Fail> {
    let mut want = with_pieces(vec![in rt.alloc(); 0; 64 * 4096]?, &BYTES);
    for pieces in more {
        want = with_pieces(want, pieces);
    }
    Ok(want)
}

/// Returns the number of calls of a device, and whether its bytes are those by hand, with more pieces after those of the two entries.
pub(super) fn has_bytes(
    rt: &impl AllocGlobal,
    disk: MemDisk,
    more: &[Pieces<'_>],
) -> Result<(u64, bool), Fail> {
    let want = by_hand(rt, more)?;
    let calls = disk.calls();
    Ok((calls, disk.into_bytes().as_slice() == want.as_slice()))
}

/// Writes one entry of each of two kinds. Returns the device.
pub(super) fn written(rt: &(impl AllocGlobal + Threads + Wait + Sync)) -> Result<MemDisk, Fail> {
    let script = b"create U\ninsert U 0 5 3 7 4 -2\n";
    Ok(run_on(rt, "live", script, store_of(rt, "64")?)?.disk)
}

/// Asks a device with the bytes of one that was written. Returns the device.
fn asked(rt: &(impl AllocGlobal + Threads + Wait + Sync)) -> Result<MemDisk, Fail> {
    let disk = device_of(rt.alloc(), written(rt)?.into_bytes())?;
    Ok(run_on(rt, "ask", b"create V\nrange U 0 5 latest\n", disk)?.disk)
}

#[test]
fn the_bytes_of_the_device_are_those_of_its_format(rt: HostRuntime) -> Result<(), Fail> {
    // eight calls to format, three to open, and four for each entry
    assert!(rt; has_bytes(&rt, written(&rt)?, &[])? == (19, true));
    // questions write nothing; a sync, a read of the superblocks, and a read of the log, which is less than 1 MiB, are all
    assert!(rt; has_bytes(&rt, asked(&rt)?, &[])? == (3, true));
    Ok(())
}
