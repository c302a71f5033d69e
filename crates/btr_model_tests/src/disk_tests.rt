//! The calls of the device in memory and of the fuse, and each generic function over them.
ghost use Rattle.std.specs.Prelude.{◌≡◌, ◌*◌, ◌<◌, IfOk, length};

use btr_disk::laws::{sync_and_write, write_elsewhere, write_sync_read, write_two, write_unsynced};
use btr_disk::{
    BLOCK, Capacity, Disk, Fill, FuseDisk, HeldBlocks, MemDisk, NoBlocks, Parts, publish,
};
use std::alloc::{AllocError, Global};
use std::process::Abort;
use std::test::Fail;

const CAPACITY: Capacity = Capacity {
    calls: 8,
    blocks: 8,
};

/// A block of one value.
fn block(alloc: Global, value: u8) -> Result<Vec<u8>, AllocError>
    ensures { IfOk result (λ bytes. length bytes.items ≡ 4096) }
{
    vec![in alloc; value; BLOCK]
}

/// A device of eight blocks of zeros.
fn disk(alloc: Global, failing: Vec<u64>) -> Result<MemDisk, AllocError>
    ensures { IfOk result (λ disk. ⟦<MemDisk as Disk>⟧.size disk ≡ 8) }
{
    MemDisk::new(alloc, 8, CAPACITY, failing)
}

/// The bytes of a device at some addresses, and how many it has.
fn bytes_of(disk: MemDisk, at: [usize; 3]) -> (usize, [Option<u8>; 3]) {
    let bytes = disk.into_bytes();
    let [first, second, third] = at;
    let found = [
        bytes.get(first).copied(),
        bytes.get(second).copied(),
        bytes.get(third).copied(),
    ];
    (bytes.len(), found)
}

#[test]
fn what_is_written_is_read(rt: HostRuntime) -> Result<(), Fail> {
    let alloc = rt.alloc();
    let mut disk = disk(alloc, Vec::new(alloc))?;
    let mut buf = block(alloc, 0)?;
    let seven = block(alloc, 7)?;
    let is_done = write_sync_read(&mut disk, 3, &seven, &mut buf).is_ok();
    let read = buf[4095];
    assert!(rt; (is_done, read) == (true, 7));
    assert!(rt; (disk.blocks(), disk.calls(), disk.faults()) == (8, 3, 0));
    assert!(rt; bytes_of(disk, [12287, 12288, 16384]) == (32768, [Some(0), Some(7), Some(0)]));
    Ok(())
}

/// Two blocks in parts of 10, 4086 and 4096 bytes: ones, twos and threes.
fn three_parts(alloc: Global) -> Result<Parts, AllocError>
    ensures { IfOk result (λ parts. length parts ≡ 8192) }
{
    let mut parts = Parts::of(alloc, vec![in alloc; 1; 10]?)?;
    parts.push(vec![in alloc; 2; 4086]?)?;
    parts.push(vec![in alloc; 3; 4096]?)?;
    Ok(parts)
}

#[test]
fn parts_are_written_one_after_the_other(rt: HostRuntime) -> Result<(), Fail> {
    let alloc = rt.alloc();
    let mut disk = disk(alloc, Vec::new(alloc))?;
    let parts = three_parts(alloc)?;
    let is_written = disk.write_parts(3, &parts, &NoBlocks).is_ok();
    assert!(rt; (is_written, disk.calls(), disk.faults()) == (true, 1, 0));
    let mut buf = vec![in alloc; 9; 8192]?;
    let is_read = disk.read(3, &mut buf).is_ok();
    let read = (buf[0], buf[9], buf[10], buf[4095], buf[4096], buf[8191]);
    assert!(rt; (is_read, read) == (true, (1, 1, 2, 2, 3, 3)));
    assert!(rt; bytes_of(disk, [12287, 20479, 20480]) == (32768, [Some(0), Some(3), Some(0)]));
    Ok(())
}

/// Blocks of which the byte at address k is k / 16 % 251: no two blocks of the first fifteen are alike.
pub(crate) fn counted(alloc: Global, blocks: usize) -> Result<Vec<u8>, AllocError>
    requires { blocks < 1000 }
    ensures { IfOk result (λ bytes. length bytes.items ≡ 4096 * blocks) }
{
    let mut bytes = vec![in alloc; 0; BLOCK * blocks]?;
    for k in 0..bytes.len() {
        bytes[k] = (k / 16 % 251) as u8;
    }
    Ok(bytes)
}

/// Writes two blocks in parts and then three of a source at block 2. Returns whether that is one call which succeeded, and what the device
/// has then.
fn written_from_a_source(alloc: Global) -> Result<(bool, Vec<u8>), AllocError>
    ensures { IfOk result (λ r. length r.1.items ≡ 32768) }
{
    let capacity = Capacity {
        calls: 1,
        blocks: 5,
    };
    let mut disk = MemDisk::new(alloc, 8, capacity, Vec::new(alloc))?;
    let parts = three_parts(alloc)?;
    let blocks = counted(alloc, 3)?;
    let is_written = disk
        .write_parts(2, &parts, &HeldBlocks::new(&blocks))
        .is_ok();
    let is_one_call = disk.calls() == 1;
    Ok((is_written && is_one_call, disk.into_bytes()))
}

#[test]
fn blocks_of_a_source_are_written_after_the_prefix(rt: HostRuntime) -> Result<(), Fail> {
    let alloc = rt.alloc();
    let (is_written, bytes) = written_from_a_source(alloc)?;
    assert!(rt; is_written);
    let ends = (bytes[8191], bytes[8192], bytes[16383], bytes[28672]);
    assert!(rt; ends == (0, 1, 3, 0));
    assert!(rt; &bytes[16384..28672] == counted(alloc, 3)?.as_slice());
    Ok(())
}

#[test]
fn parts_are_joined_in_order(rt: HostRuntime) -> Result<(), Fail> {
    let alloc = rt.alloc();
    let none = Parts::none(alloc);
    assert!(rt; (none.len(), none.as_slices().len()) == (0, 0));
    let parts = three_parts(alloc)?;
    let lengths = match parts.as_slices() {
        [first, second, third] => Some((first.len(), second.len(), third.len())),
        _ => None,
    };
    assert!(rt; (parts.len(), lengths) == (8192, Some((10, 4086, 4096))));
    Ok(())
}

#[test]
fn the_calls_of_the_list_fail(rt: HostRuntime) -> Result<(), Fail> {
    let alloc = rt.alloc();
    let mut disk = disk(alloc, vec![in alloc; 0, 2]?)?;
    let seven = block(alloc, 7)?;
    let mut buf = block(alloc, 9)?;
    // The failed write changed nothing that is read.
    let fails = disk.write(1, &seven).is_err() && disk.faults() == 1;
    let reads = disk.read(1, &mut buf).is_ok() && buf[0] == 0;
    let is_unsynced = disk.sync().is_err() && disk.faults() == 2;
    let is_synced = disk.write(1, &seven).is_ok() && disk.sync().is_ok();
    let reads_again = disk.read(1, &mut buf).is_ok() && buf[0] == 7;
    assert!(rt; (fails, reads, is_unsynced) == (true, true, true));
    assert!(rt; (is_synced, reads_again) == (true, true));
    assert!(rt; (disk.faults(), disk.calls()) == (2, 6));
    Ok(())
}

#[test]
fn a_call_beyond_the_capacity_fails(rt: HostRuntime) -> Result<(), Fail> {
    let alloc = rt.alloc();
    let capacity = Capacity {
        calls: 4,
        blocks: 1,
    };
    let bytes = vec![in alloc; 1; 8192]?;
    let mut disk = MemDisk::from_bytes(alloc, bytes, capacity, Vec::new(alloc))?;
    let seven = block(alloc, 7)?;
    let mut buf = block(alloc, 0)?;
    let fits = disk.write(0, &seven).is_ok();
    // A second block is beyond the capacity, and so is each later call.
    let writes = disk.write(1, &seven).is_ok();
    let reads = disk.read(1, &mut buf).is_ok();
    let syncs = disk.sync().is_ok();
    let read = buf[0];
    assert!(rt; (fits, writes, reads, syncs, read) == (true, false, false, false, 0));
    assert!(rt; (disk.faults(), disk.calls()) == (3, 4));
    Ok(())
}

#[test]
fn the_laws_hold_of_a_device_in_memory(rt: HostRuntime) -> Result<(), Fail> {
    let alloc = rt.alloc();
    let mut disk = disk(alloc, Vec::new(alloc))?;
    let seven = block(alloc, 7)?;
    assert!(rt; write_two(&mut disk, 1, &seven, 2, &seven).is_ok());
    assert!(rt; sync_and_write(&mut disk, 3, &seven).is_ok());
    assert!(rt; write_elsewhere(&mut disk, 3, &seven).is_ok());
    assert!(rt; disk.calls() == 5);
    Ok(())
}

#[test]
fn an_unsynced_block_is_old_or_new_or_neither(rt: HostRuntime) -> Result<(), Fail> {
    let alloc = rt.alloc();
    let mut disk = disk(alloc, Vec::new(alloc))?;
    assert!(rt; write_unsynced(&mut disk, 5, &block(alloc, 7)?).is_ok());
    assert!(rt; disk.sync().is_ok());
    Ok(())
}

/// Publishes a body of two blocks, of which a source makes the second, at block 1 with its gate at block 0, on a device at which the
/// calls of the list fail. Returns the first byte of each of the three blocks, and the number of faults.
fn published(rt: &impl Abort, alloc: Global, failing: Vec<u64>) -> Result<(u8, u8, u8, u64), Fail> {
    let mut disk = disk(alloc, failing)?;
    let prefix = Parts::of(alloc, block(alloc, 3)?)?;
    let rest = block(alloc, 4)?;
    let outcome = publish(
        &mut disk,
        1,
        &prefix,
        &HeldBlocks::new(&rest),
        0,
        &block(alloc, 2)?,
    );
    let faults = disk.faults();
    assert!(rt; outcome.is_ok() == (faults == 0));
    let bytes = disk.into_bytes();
    assert!(rt; bytes.len() == 32768);
    Ok((bytes[0], bytes[4096], bytes[8192], faults))
}

/// The number of a call that fails, and what is published then.
const PUBLISHED: [(u64, (u8, u8, u8, u64)); 5] = [
    (0, (0, 0, 0, 1)),
    (1, (0, 3, 4, 1)),
    (2, (0, 3, 4, 1)),
    (3, (2, 3, 4, 1)),
    (4, (2, 3, 4, 0)),
];

#[test]
fn a_body_is_published_before_its_gate(rt: HostRuntime) -> Result<(), Fail> {
    let alloc = rt.alloc();
    for (call, want) in PUBLISHED {
        assert!(rt; published(&rt, alloc, vec![in alloc; call]?)? == want);
    }
    Ok(())
}

/// A fuse that passes two calls on, over a device of eight blocks of zeros.
fn fuse(alloc: Global) -> Result<FuseDisk<MemDisk>, AllocError>
    ensures { IfOk result (λ fuse. ⟦<FuseDisk<MemDisk> as Disk>⟧.size fuse ≡ 8) }
{
    Ok(FuseDisk::new(disk(alloc, Vec::new(alloc))?, 2))
}

/// The first byte of block 1, and the number of calls and of faults of the other device, after a write, a sync
/// and then a failing read and sync, and a write of `last` that fails if `writes`.
fn after_the_fuse(
    alloc: Global,
    last: u8,
    writes: bool,
) -> Result<(bool, Option<u8>, u64, u64), AllocError> {
    let mut fuse = fuse(alloc)?;
    let mut buf = block(alloc, 9)?;
    let passed = fuse.write(1, &block(alloc, 7)?).is_ok() && fuse.sync().is_ok();
    let withheld = fuse.read(1, &mut buf).is_err() && fuse.sync().is_err() && buf[0] == 9;
    let cut_off = !writes || fuse.write(1, &block(alloc, last)?).is_err();
    let disk = fuse.into_disk();
    let calls = disk.calls();
    let faults = disk.faults();
    let bytes = disk.into_bytes();
    Ok((
        passed && withheld && cut_off,
        bytes.get(4096).copied(),
        calls,
        faults,
    ))
}

#[test]
fn a_fuse_passes_its_calls_and_then_fails(rt: HostRuntime) -> Result<(), Fail> {
    let alloc = rt.alloc();
    assert!(rt; after_the_fuse(alloc, 5, false)? == (true, Some(7), 2, 0));
    // A write that fails reaches the other device.
    assert!(rt; after_the_fuse(alloc, 5, true)? == (true, Some(5), 3, 0));
    Ok(())
}

/// The first byte of each of blocks 1, 2 and 4, and the number of calls and of faults of the other device, after a write of parts and a
/// block of sixes at block 1, a sync, and the same write at block 2, which fails.
fn parts_after_the_fuse(alloc: Global) -> Result<(bool, [Option<u8>; 3], u64, u64), AllocError> {
    let mut fuse = fuse(alloc)?;
    let parts = three_parts(alloc)?;
    let six = block(alloc, 6)?;
    let rest = HeldBlocks::new(&six);
    let passed = fuse.write_parts(1, &parts, &rest).is_ok() && fuse.sync().is_ok();
    let cut_off = fuse.write_parts(2, &parts, &rest).is_err();
    let disk = fuse.into_disk();
    let calls = disk.calls();
    let faults = disk.faults();
    let (_, found) = bytes_of(disk, [4096, 8192, 16384]);
    Ok((passed && cut_off, found, calls, faults))
}

#[test]
fn a_write_of_parts_is_one_call_of_the_fuse(rt: HostRuntime) -> Result<(), Fail> {
    let found = parts_after_the_fuse(rt.alloc())?;
    // The write that fails reaches the other device.
    assert!(rt; found == (true, [Some(1), Some(1), Some(6)], 3, 0));
    Ok(())
}

/// A device whose block 2 has threes that are synced, and then sevens that are not.
fn unsynced(alloc: Global) -> Result<MemDisk, AllocError>
    ensures { IfOk result (λ disk. ⟦<MemDisk as Disk>⟧.size disk ≡ 8) }
{
    let three = block(alloc, 3)?;
    let seven = block(alloc, 7)?;
    let mut disk = disk(alloc, Vec::new(alloc))?;
    let _ = disk.write(2, &three);
    let _ = disk.sync();
    let _ = disk.write(2, &seven);
    Ok(disk)
}

/// The byte before block 2, its first and its last, of the image of that device.
fn unsynced_image(alloc: Global, fill: Fill) -> Result<(u8, u8, u8), AllocError> {
    let bytes = unsynced(alloc)?.image(alloc, fill)?.into_bytes();
    Ok((bytes[8191], bytes[8192], bytes[12287]))
}

#[test]
fn an_image_has_its_fill_where_a_write_is_unsynced(rt: HostRuntime) -> Result<(), Fail> {
    let alloc = rt.alloc();
    assert!(rt; unsynced_image(alloc, Fill::Written)? == (0, 7, 7));
    assert!(rt; unsynced_image(alloc, Fill::Kept)? == (0, 3, 3));
    assert!(rt; unsynced_image(alloc, Fill::Zeros)? == (0, 0, 0));
    assert!(rt; unsynced_image(alloc, Fill::Ones)? == (0, 255, 255));
    assert!(rt; unsynced_image(alloc, Fill::Gates)? == (0, 66, 255));
    Ok(())
}

/// The first byte of each of two blocks of ones, of the image after a write of sevens to each. There is room
/// to remember the first of them.
fn torn_image(alloc: Global, fill: Fill) -> Result<(u8, u8), AllocError> {
    let capacity = Capacity {
        calls: 4,
        blocks: 1,
    };
    let seven = block(alloc, 7)?;
    let bytes = vec![in alloc; 1; 8192]?;
    let mut disk = MemDisk::from_bytes(alloc, bytes, capacity, Vec::new(alloc))?;
    let _ = disk.write(0, &seven);
    let _ = disk.write(1, &seven);
    let bytes = disk.image(alloc, fill)?.into_bytes();
    Ok((bytes[0], bytes[4096]))
}

#[test]
fn an_image_has_its_fill_where_a_write_had_no_room(rt: HostRuntime) -> Result<(), Fail> {
    let alloc = rt.alloc();
    assert!(rt; torn_image(alloc, Fill::Written)? == (7, 1));
    assert!(rt; torn_image(alloc, Fill::Kept)? == (1, 1));
    assert!(rt; torn_image(alloc, Fill::Ones)? == (255, 255));
    Ok(())
}

/// The byte before block 1, its first and its last, of the image of what is under a fuse that passed a write of
/// sevens and a sync on, and then cut a write of fives off.
fn cut_off_image(alloc: Global, fill: Fill) -> Result<(u8, u8, u8), AllocError> {
    let seven = block(alloc, 7)?;
    let five = block(alloc, 5)?;
    let mut fuse = fuse(alloc)?;
    let _ = fuse.write(1, &seven);
    let _ = fuse.sync();
    let _ = fuse.write(1, &five);
    let bytes = fuse.into_disk().image(alloc, fill)?.into_bytes();
    Ok((bytes[4095], bytes[4096], bytes[8191]))
}

#[test]
fn a_write_that_the_fuse_cut_off_is_unsynced(rt: HostRuntime) -> Result<(), Fail> {
    let alloc = rt.alloc();
    assert!(rt; cut_off_image(alloc, Fill::Written)? == (0, 5, 5));
    assert!(rt; cut_off_image(alloc, Fill::Kept)? == (0, 7, 7));
    assert!(rt; cut_off_image(alloc, Fill::Ones)? == (0, 255, 255));
    Ok(())
}
