//! Shipping: the frames of the entries of a store at rest.
ghost use Rattle.std.specs.Prelude.{◌≡◌, ◌<◌, ℕ, IfErr, IfOk, OnOk, OnErr};
ghost use Rattle.btr_disk.specs.Images.{Only};
ghost use Rattle.btr_log.specs.Reads.{OnlyReads};
ghost use Rattle.btr_super.specs.Super.{IsSuper};
ghost use Rattle.btr_super.specs.Choose.{IsChosen};
ghost use Rattle.btr_open.specs.Opening.{KeepsDisk};
ghost use Rattle.btr_follow.specs.Shipping.{ShipsStore, StopsStore, ShipsDurable, ShipsHeld, ShipCause};
ghost use Rattle.btr_follow.specs.Shipping.{ChoiceCause, GateCause, IsShipStart, CountsShipped};

use crate::sending::{Part, send_log};
use btr_disk::{Disk, Failed};
use btr_io::{Failed as SinkFailed, Sink};
use btr_log::{ExtentFault, Found, find_extent};
use btr_super::{ChooseFault, LOG_START, Super, choose};
use std::alloc::{AllocError, Global};

/// Why not all frames were written.
#[derive(Clone, Copy, PartialEq, Eq)]
pub enum ShipFault {
    /// Neither superblock has an open gate: the device holds no store.
    NotAStore,

    /// This block breaks the format: the body of an open superblock, or the first block of the log that keeps it from being read further.
    Damaged { block: u64 },

    /// The device failed.
    Fault,

    /// The sink failed.
    SinkFault,

    /// There was not enough memory.
    Want,
}

/// Writes the frames of all entries of a store with number at least `from` to a sink, in order, and returns their number. It does not
/// flush the sink.
///
/// The first call of the device is a sync, so that each entry that is shipped is durable. All later calls are reads: of the superblocks,
/// of the checkpoint that the chosen one names, and of each extent of the log: from the gate after the checkpoint on, if all entries
/// before it have numbers below `from`, and else from its first gate. An entry is written before the next one is read. Nothing is tested
/// but what has to be read: the chosen superblock, the gates, and the heads of the extents. A checkpoint that cannot be read is passed
/// over. After an `Err` the sink took a prefix of the frames.
///
/// It makes two calls of the device for each extent. The time is linear in what is read, and the memory is that of its largest extent.
pub fn ship<D: Disk, K: Sink>(
    alloc: Global,
    disk: &mut D,
    from: u64,
    sink: &mut K,
) -> Result<u64, ShipFault>
    ensures kept { KeepsDisk ⟦<D as Disk>⟧ disk.old disk.new }
    // A crash leaves what was read, unless nothing was written to the sink: no entry that was shipped is lost.
    ensures durable { D.is_observable → ShipsDurable ⟦<D as Disk>⟧ ⟦<K as Sink>⟧ disk.new sink.old sink.new result }
    // Whatever the device has, the frames are those of the log, or a prefix of them.
    ensures log { D.is_observable → IfOk result (ShipsStore ⟦<D as Disk>⟧ ⟦<K as Sink>⟧ from disk.old sink.old sink.new) }
    ensures part { D.is_observable → OnErr result (StopsStore ⟦<D as Disk>⟧ ⟦<K as Sink>⟧ from disk.old sink.old sink.new) }
    // If the device holds a history, they are those of its entries, and no block is damaged.
    ensures history { ShipsHeld ⟦<D as Disk>⟧ ⟦<K as Sink>⟧ from disk.old sink.old sink.new result }
    ensures cause { IfErr result (ShipCause ⟦<D as Disk>⟧ ⟦<K as Sink>⟧ from disk.old disk.new sink.old sink.new) }
{
    let mut frames = 0;
    ship_counted(alloc, disk, from, sink, &mut frames)
}

/// Ships a store, as [`ship`] does. `frames` is the number of whole frames that were written, also if the rest is not. If there is none,
/// and the sink did not fail, the sink was not called.
pub fn ship_counted<D: Disk, K: Sink>(
    alloc: Global,
    disk: &mut D,
    from: u64,
    sink: &mut K,
    frames: &mut u64,
) -> Result<u64, ShipFault>
    ensures kept { KeepsDisk ⟦<D as Disk>⟧ disk.old disk.new }
    // A crash leaves what was read, unless nothing was written to the sink: no entry that was shipped is lost.
    ensures durable { D.is_observable → ShipsDurable ⟦<D as Disk>⟧ ⟦<K as Sink>⟧ disk.new sink.old sink.new result }
    // Whatever the device has, the frames are those of the log, or a prefix of them.
    ensures log { D.is_observable → IfOk result (ShipsStore ⟦<D as Disk>⟧ ⟦<K as Sink>⟧ from disk.old sink.old sink.new) }
    ensures part { D.is_observable → OnErr result (StopsStore ⟦<D as Disk>⟧ ⟦<K as Sink>⟧ from disk.old sink.old sink.new) }
    // If the device holds a history, they are those of its entries, and no block is damaged.
    ensures history { ShipsHeld ⟦<D as Disk>⟧ ⟦<K as Sink>⟧ from disk.old sink.old sink.new result }
    ensures cause { IfErr result (ShipCause ⟦<D as Disk>⟧ ⟦<K as Sink>⟧ from disk.old disk.new sink.old sink.new) }
    // How many frames were written.
    ensures counts { CountsShipped ⟦<D as Disk>⟧ ⟦<K as Sink>⟧ from disk.old sink.old sink.new frames.new result }
{
    *frames = 0;
    let found = read_super(disk)?;
    let start = start_gate(alloc, disk, &found, from)?;
    let part = Part {
        blocks: found.blocks,
        start,
        from,
    };
    send_log(alloc, disk, part, sink, frames)
}

/// Syncs the device and chooses its superblock.
fn read_super<D: Disk>(disk: &mut D) -> Result<Super, ShipFault>
    ensures kept { KeepsDisk ⟦<D as Disk>⟧ disk.old disk.new }
    ensures durable { D.is_observable → OnOk result (Only (D.contents disk.new) (D.images_now disk.new)) }
    ensures table { IfOk result (IsSuper (D.size disk.old)) }
    ensures chosen { D.is_observable → IfOk result (IsChosen (D.size disk.old) (D.contents disk.old)) }
    ensures cause { IfErr result (ChoiceCause ⟦<D as Disk>⟧ disk.old disk.new) }
{
    disk.sync()?;
    match choose(disk) {
        Ok(found) => Ok(found),
        Err(fault) => Err(fault_of_choice(fault)),
    }
}

/// Returns the gate from which the log of a superblock is read: the one after its checkpoint, if all entries before that have numbers
/// below `from`, and else the first gate of the log.
fn start_gate<D: Disk>(
    alloc: Global,
    disk: &mut D,
    found: &Super,
    from: u64,
) -> Result<u64, ShipFault>
    requires table { IsSuper (D.size disk.old) found.now }
    ensures reads { OnlyReads ⟦<D as Disk>⟧ disk.old disk.new }
    ensures below { IfOk result (λ gate. gate < found.now.blocks) }
    ensures begins { D.is_observable → IfOk result (IsShipStart (D.contents disk.old) found.now from) }
    ensures cause { IfErr result (GateCause ⟦<D as Disk>⟧ disk.old disk.new) }
{
    if found.checkpoint == 0 {
        return Ok(LOG_START);
    }
    match find_extent(alloc, disk, found.blocks, found.checkpoint) {
        Ok(Found::Extent { head, next, .. }) => {
            if head.kind == 2 && head.number < from && next == found.tail {
                return Ok(next);
            }
            Ok(LOG_START)
        }
        Ok(Found::Closed) | Err(ExtentFault::Damaged { .. }) => Ok(LOG_START),
        Err(ExtentFault::Fault) => Err(ShipFault::Fault),
        Err(ExtentFault::Want) => Err(ShipFault::Want),
    }
}

/// Converts a fault of the choice of a superblock.
fn fault_of_choice(fault: ChooseFault) -> ShipFault
    ensures none { fault ≡ ChooseFault.NotAStore → result ≡ ShipFault.NotAStore }
    ensures damaged { (block : ℕ) → fault ≡ ChooseFault.Damaged block → result ≡ ShipFault.Damaged block }
    ensures fault { fault ≡ ChooseFault.Fault → result ≡ ShipFault.Fault }
{
    match fault {
        ChooseFault::NotAStore => ShipFault::NotAStore,
        ChooseFault::Damaged { block } => ShipFault::Damaged { block },
        ChooseFault::Fault => ShipFault::Fault,
    }
}

impl From<AllocError> for ShipFault {
    ghost use Rattle.std.specs.Prelude.{◌≡◌};
    ghost use Rattle.btr_follow.specs.declared.shipping.ShipFault.TheVariants.{Want};

    ghost from_gives = { λ _ e. e ≡ Want };

    fn from(_error: AllocError) -> ShipFault {
        ShipFault::Want
    }
}

impl From<Failed> for ShipFault {
    ghost use Rattle.std.specs.Prelude.{◌≡◌};
    ghost use Rattle.btr_follow.specs.declared.shipping.ShipFault.TheVariants.{Fault};

    ghost from_gives = { λ _ e. e ≡ Fault };

    fn from(_failed: Failed) -> ShipFault {
        ShipFault::Fault
    }
}

impl From<SinkFailed> for ShipFault {
    ghost use Rattle.std.specs.Prelude.{◌≡◌};
    ghost use Rattle.btr_follow.specs.declared.shipping.ShipFault.TheVariants.{SinkFault};

    ghost from_gives = { λ _ e. e ≡ SinkFault };

    fn from(_failed: SinkFailed) -> ShipFault {
        ShipFault::SinkFault
    }
}

impl From<ExtentFault> for ShipFault {
    ghost use Rattle.std.specs.Prelude.{◌≡◌};
    ghost use Rattle.btr_follow.specs.Shipping.{fault_of_extent};

    ghost from_gives = { λ f e. e ≡ fault_of_extent f };

    fn from(fault: ExtentFault) -> ShipFault {
        match fault {
            ExtentFault::Damaged { block } => ShipFault::Damaged { block },
            ExtentFault::Fault => ShipFault::Fault,
            ExtentFault::Want => ShipFault::Want,
        }
    }
}
