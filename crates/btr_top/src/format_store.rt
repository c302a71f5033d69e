//! The command `format`, which makes an empty store.
ghost use Rattle.std.specs.Prelude.{◌≡◌, ℕ, ◌^◌, ◌≤◌};
ghost use Rattle.btr_top.specs.Format.{FormatCause, FormatLeaves};

use crate::ending::Ending;
use btr_disk::Disk;
use btr_super::{FormatFault, format};

/// `format --blocks N`: makes an empty store of N blocks. It makes at most eight calls of the device and takes no
/// memory.
pub(crate) fn format_store<D: Disk>(disk: &mut D, blocks: u64) -> Ending
    requires least { 8 ≤ blocks }
    requires greatest { blocks ≤ 2 ^ 32 }
    ensures size { D.size disk.new ≡ D.size disk.old }
    ensures cause { FormatCause ⟦<D as Disk>⟧ blocks disk.old disk.new result }
    ensures moments { D.is_observable → FormatLeaves ⟦<D as Disk>⟧ blocks disk.old disk.new }
{
    match format(disk, blocks) {
        Ok(()) => Ending::Formatted { blocks },
        Err(FormatFault::Occupied { .. }) => Ending::Occupied,
        Err(FormatFault::TooSmall { asked, blocks: has }) => Ending::TooSmall {
            asked,
            blocks: has,
        },
        Err(FormatFault::Fault) => Ending::NoDevice,
    }
}
