//! Samples on stores in memory. The expected values are worked out by hand.
ghost use Rattle.std.specs.Prelude.{◌≤◌, ◌^◌};

use btr_disk::{Capacity, MemDisk};
use btr_jobs::{NoPace, System};
use btr_store::*;
use btr_super::format;
use std::alloc::Global;
use std::marker::Sync;
use std::sync::Wait;
use std::test::Fail;
use std::thread::Threads;

/// The number of blocks of a device.
const BLOCKS: usize = 128;

/// Returns a device with an empty store of this many blocks.
fn formatted(alloc: Global, blocks: u64) -> Result<MemDisk, Fail>
    requires { (8 ≤ blocks) × (blocks ≤ 2 ^ 32) }
{
    let capacity = Capacity {
        calls: 4 * BLOCKS,
        blocks: 2 * BLOCKS,
    };
    let mut disk = MemDisk::new(alloc, BLOCKS, capacity, Vec::new(alloc))?;
    match format(&mut disk, blocks) {
        Ok(()) => Ok(disk),
        Err(_) => Err("no store was made".into()),
    }
}

/// Makes a sample. Returns the device, the number with which the program ends, and the lines.
fn sampled<R: Threads + Wait + Sync>(
    rt: &R,
    alloc: Global,
    disk: MemDisk,
    number: u32,
    streams: u32,
    points: u32,
) -> Result<(MemDisk, u8, Vec<u8>), Fail> {
    match sample_store(System { rt, alloc }, number, streams, points, &NoPace, disk) {
        Ok(Worked { said, disk, .. }) => {
            let Transcript { status, text } = said?;
            Ok((disk, status.code(), text))
        }
        Err(_) => Err("it was not opened".into()),
    }
}

/// The lines of a sample of one stream, and of an output.
const FILLED: &[u8] = b"00000000-0000-0000-0000-000000000001 1 3 -306 -892 756\n\
    00000000-0000-0001-0000-000000000001 1 3 55 -170 293\n";

/// Makes a sample twice on one device. Returns whether the texts are those of a store that is filled and of one that is used, and the
/// numbers with which the program ends.
fn sampled_twice<R: Threads + Wait + Sync>(
    rt: &R,
    alloc: Global,
) -> Result<([bool; 2], [u8; 2]), Fail> {
    let (disk, filled, text) = sampled(rt, alloc, formatted(alloc, 64)?, 1, 1, 3)?;
    let is_filled = text.as_slice() == FILLED;
    let (_disk, used, text) = sampled(rt, alloc, disk, 1, 1, 3)?;
    let is_used = text.as_slice() == b"no used 4\n".as_slice();
    Ok(([is_filled, is_used], [filled, used]))
}

#[test]
fn an_empty_store_is_filled_and_a_used_one_is_left(rt: HostRuntime) -> Result<(), Fail> {
    let (texts, statuses) = sampled_twice(&rt, rt.alloc())?;
    assert!(rt; texts == [true, true]);
    assert!(rt; statuses == [0, 1]);
    Ok(())
}

/// The lines of a sample that does not fit. A stream or an output that is made needs two blocks: its entry and the gate after it. A
/// batch of a point needs three, with the leaf of the point.
const FULL: &[u8] = b"00000000-0000-0000-0000-000000000001 rows 1 1: no full 3 0\n\
    00000000-0000-0000-0000-000000000002 rows 2 2: no full 3 0\n\
    00000000-0000-0000-0000-000000000003 rows 3 3: no full 2 0\n\
    00000000-0000-0001-0000-000000000001 no full 2 0\n\
    00000000-0000-0001-0000-000000000002 no full 2 0\n\
    00000000-0000-0001-0000-000000000003 no stream\n\
    00000000-0000-0000-0000-000000000001 0 0 0\n\
    00000000-0000-0000-0000-000000000002 0 0 0\n";

/// Makes a sample that does not fit. Returns whether the text is that, and the number with which the program ends.
fn sampled_on_a_full_device<R: Threads + Wait + Sync>(
    rt: &R,
    alloc: Global,
) -> Result<(bool, u8), Fail> {
    let (_disk, status, text) = sampled(rt, alloc, formatted(alloc, 9)?, 1, 3, 1)?;
    Ok((text.as_slice() == FULL, status))
}

/// The device of 9 blocks has four for entries, so two entries fit: they are the creates of two streams. The third stream is not there,
/// so its output has no input.
#[test]
fn what_does_not_fit_is_named(rt: HostRuntime) -> Result<(), Fail> {
    assert!(rt; sampled_on_a_full_device(&rt, rt.alloc())? == (true, 8));
    Ok(())
}
