//! The command `ship`, which writes the frames of a store's entries.
ghost use Rattle.std.specs.Prelude.{◌≡◌, ◌≤◌, Err};
ghost use Rattle.btr_top.specs.Command.{IsKept};
ghost use Rattle.btr_top.specs.Ship.{ShipEnds, ending_of_ship};

use crate::command::CommandResult;
use crate::ending::Ending;
use crate::remains::RunRemains;
use btr_disk::Disk;
use btr_follow::{ShipFault, ship_counted};
use btr_io::Sink;
use std::alloc::Global;

/// `ship`: writes the frames of all entries with number at least `from` to the sink, while it reads the device. It reads no input, and
/// writes nothing on the device. If it fails before the first frame, it ends with a line, and after that without one.
///
/// It costs what [`btr_follow::ship`] costs.
pub(crate) fn run_ship<K: Sink, D: Disk>(
    alloc: Global,
    from: u64,
    sink: &mut K,
    disk: D,
) -> CommandResult<D>
    ensures size { D.size result.disk ≡ D.size disk }
    ensures cause { ShipEnds ⟦<K as Sink>⟧ ⟦<D as Disk>⟧ from sink.old sink.new disk result.disk result.ending }
    ensures kept { IsKept ⟦<D as Disk>⟧ disk result.disk }
    ensures later { K.faults sink.old ≤ K.faults sink.new }
{
    let mut disk = disk;
    let mut frames = 0;
    let shipped = ship_counted(alloc, &mut disk, from, sink, &mut frames);
    CommandResult {
        ending: ending_of(frames, shipped),
        disk,
        remains: RunRemains::Nothing,
    }
}

/// Returns how a `ship` ends with this result that wrote so many whole frames.
fn ending_of(frames: u64, shipped: Result<u64, ShipFault>) -> Ending
    ensures { result ≡ ending_of_ship frames shipped }
{
    match shipped {
        Ok(frames) => Ending::Shipped { frames },
        Err(fault) if frames > 0 => Ending::CutShort { fault },
        Err(fault) => ending_of_fault(fault),
    }
}

/// Returns how a `ship` ends that wrote no frame for this fault.
fn ending_of_fault(fault: ShipFault) -> Ending
    ensures { result ≡ ending_of_ship 0 (Err fault) }
{
    match fault {
        ShipFault::NotAStore => Ending::NoStore,
        ShipFault::Damaged { block } => Ending::Damaged { block },
        ShipFault::Fault => Ending::NoDevice,
        ShipFault::SinkFault => Ending::CutShort { fault },
        ShipFault::Want => Ending::OutOfMemory,
    }
}
