//! The pages of a device.
ghost use Rattle.std.specs.Prelude.{◌≡◌, ℕ, ◌+◌, ◌*◌, ◌<◌, ◌≤◌, IfOk, IfErr, OnOk, Some, length, slice_index};
ghost use Rattle.btr_disk.specs.Bytes.{Same};
ghost use Rattle.btr_disk.specs.Causes.{KeepsCounts};
ghost use Rattle.btr_disk.specs.Moments.{WroteNothing};
ghost use Rattle.btr_shelf.specs.DeviceBlocks.{HasEach, ReadCause};

use btr_disk::Disk;
use btr_node::{NodePage, PAGE, decode};
use btr_tree::{NodeFault, Nodes};
use std::snapshot::Snapshot;

/// The pages of a device, each read in one call when it is asked for. The block that was read last is kept, and is not read again.
///
/// It owns its handle of the device, and the count of faults is that of the handle. So threads that have a handle each read a
/// device side by side. It takes no memory, and returns no `Want`. What it tells of is the device as it was when this was made: it only
/// reads.
#[derive(Drop)]
pub struct DiskNodes<D: Disk> {
    disk: D,

    /// The block that was read last, if there is one.
    held: Option<u64>,

    /// Its bytes.
    bytes: [u8; PAGE],

    /// The device as it was when this was made. It takes no bytes.
    start: Snapshot<D>,
    ghost kept: { D.is_observable → (block k : ℕ) → held ≡ Some block → k < 4096
        → D.contents disk (4096 * block + k) ≡ slice_index bytes k },
    ghost counts: { KeepsCounts D.size D.calls D.faults start.value disk },
    ghost stays: { D.is_observable → Same (D.contents start.value) (D.contents disk) },
    ghost nothing: { ∥ (D.is_observable → WroteNothing D.calls D.contents D.images_now D.images_since start.value disk) ∥₁ },
}

impl<D: Disk> DiskNodes<D> {
    /// The pages of a device. It makes no call of the device.
    pub fn new(disk: D) -> DiskNodes<D>
        ensures observable { D.is_observable → ⟦<DiskNodes<D> as Nodes>⟧.is_observable }
        ensures disk { result.disk ≡ disk }
        ensures start { result.start.value ≡ disk }
    {
        let start = Snapshot::of(&disk);
        DiskNodes {
            disk,
            held: None,
            bytes: [0; PAGE],
            start,
        }
    }

    /// Returns the device, which has only been read since this was made. It makes no call of the device.
    pub fn into_disk(self) -> D
        ensures disk { result ≡ self.disk }
        ensures counts { KeepsCounts D.size D.calls D.faults self.start.value result }
        ensures nothing { ∥ (D.is_observable → WroteNothing D.calls D.contents D.images_now D.images_since self.start.value result) ∥₁ }
    {
        self.disk
    }

    /// Makes the bytes those of a block, in one call of the device at most.
    fn hold(&mut self, block: u64) -> Result<(), NodeFault>
        requires inside { block < D.size self.old.disk }
        ensures start { self.new.start ≡ self.old.start }
        ensures held { D.is_observable → OnOk result (HasEach (D.contents self.new.disk) (4096 * block) self.new.bytes) }
        ensures long { length self.new.bytes ≡ 4096 }
        ensures once { D.calls self.new.disk ≤ D.calls self.old.disk + 1 }
        ensures rises { D.faults self.old.disk ≤ D.faults self.new.disk }
        ensures cause { IfErr result (ReadCause (D.faults self.old.disk) (D.faults self.new.disk)) }
    {
        if self.held == Some(block) {
            return Ok(());
        }
        self.held = None;
        match self.disk.read(block, &mut self.bytes) {
            Err(_) => Err(NodeFault::Failed),
            Ok(()) => {
                self.held = Some(block);
                Ok(())
            }
        }
    }
}

impl<D: Disk> Nodes for DiskNodes<D> {
    ghost use Rattle.btr_shelf.specs.DeviceBlocks.{IsBlockPage, IsNoWant, told_blocks};
    ghost use Rattle.btr_node.specs.Page.{Keeps, Fits};
    ghost use Rattle.btr_tree.specs.Spots.{IsNodeCause};
    ghost use Rattle.btr_shelf.specs.PageLaws.{one_block_page};

    ghost is_observable = { D.is_observable };

    ghost Contents = { D };

    ghost contents = { λ n. n.start.value };

    ghost IsPage = { λ d. IsBlockPage (told_blocks D.contents D.size d) };

    ghost faults = { λ n. D.faults n.disk };

    ghost one_page = { λ d. one_block_page (told_blocks D.contents D.size d) };

    fn node(&mut self, block: u64) -> Result<NodePage, NodeFault>
        ensures keeps { IfOk result (λ page. Keeps page) }
        ensures fits { IfOk result (λ page. Fits page) }
        ensures page { D.is_observable → IfOk result (λ page. IsBlockPage (told_blocks D.contents D.size self.old.start.value) block page) }
        ensures same { self.new.start.value ≡ self.old.start.value }
        ensures rises { D.faults self.old.disk ≤ D.faults self.new.disk }
        ensures cause { IfErr result (IsNodeCause D.is_observable (IsBlockPage (told_blocks D.contents D.size self.old.start.value)) block
            (D.faults self.old.disk) (D.faults self.new.disk)) }
        ensures no_want { IfErr result IsNoWant }
        ensures once { D.calls self.new.disk ≤ D.calls self.old.disk + 1 }
    {
        if block >= self.disk.blocks() {
            return Err(NodeFault::Damaged { block });
        }
        self.hold(block)?;
        match decode(&self.bytes) {
            Some(page) => Ok(page),
            None => Err(NodeFault::Damaged { block }),
        }
    }
}
