//! Superblocks that are replaced on a device in memory.
ghost use Rattle.std.specs.Prelude.{◌≡◌, ◌*◌, ◌≤◌};
ghost use Rattle.btr_super.specs.Super.{IsSuper};

use btr_disk::{Capacity, MemDisk};
use btr_super::*;
use std::alloc::{AllocError, Global};
use std::test::Fail;

const CAPACITY: Capacity = Capacity {
    calls: 32,
    blocks: 16,
};

/// The superblocks of a store of 16 blocks after its first checkpoint and after its second.
const SECOND: Super = Super {
    seq: 2,
    side: 1,
    blocks: 16,
    tail: 11,
    checkpoint: 9,
    format: 1,
};

const THIRD: Super = Super {
    seq: 3,
    side: 0,
    blocks: 16,
    tail: 13,
    checkpoint: 11,
    format: 1,
};

/// What was chosen, and the calls of the device.
type Step = (Result<Super, ChooseFault>, u64);

/// Replaces the superblock, and chooses.
fn replaced(disk: MemDisk, next: Super) -> (MemDisk, Step)
    requires { IsSuper (⟦<MemDisk as btr_disk::Disk>⟧.size disk) next }
    ensures { ⟦<MemDisk as btr_disk::Disk>⟧.size result.0 ≡ ⟦<MemDisk as btr_disk::Disk>⟧.size disk }
{
    let mut disk = disk;
    let before = disk.calls();
    let _ = replace(&mut disk, &next);
    let calls = disk.calls().saturating_sub(before);
    let chosen = choose(&mut disk);
    (disk, (chosen, calls))
}

/// Replaces twice the superblock of a new store.
fn replaced_twice(alloc: Global) -> Result<(Step, Step, Vec<u8>), AllocError> {
    let mut disk = MemDisk::new(alloc, 16, CAPACITY, Vec::new(alloc))?;
    let _ = format(&mut disk, 16);
    let (disk, first) = replaced(disk, SECOND);
    let (disk, second) = replaced(disk, THIRD);
    Ok((first, second, disk.into_bytes()))
}

#[test]
fn a_replaced_superblock_is_chosen(rt: HostRuntime) -> Result<(), Fail> {
    let (first, second, bytes) = replaced_twice(rt.alloc())?;
    assert!(rt; first == (Ok(SECOND), 5));
    assert!(rt; second == (Ok(THIRD), 7));
    Ok(())
}
