//! The gates on which all else on a device depends are written anew.
ghost use Rattle.std.specs.Prelude.{◌≡◌, ◌*◌, ◌<◌, [], ◌∷◌, OnErr, OnOk};
ghost use Rattle.btr_disk.specs.Bytes.{Same};
ghost use Rattle.btr_disk.specs.Causes.{HasCause, KeepsCounts};
ghost use Rattle.btr_host.specs.Renewed.{Renews, RenewsBlock, RenewsInPart, TearsAtMost};

use crate::log_end::last_gate;
use btr_disk::{BLOCK, Disk, Failed, is_open_gate};

/// Writes the gates of both superblocks and that of the last extent of the log anew, each with the bytes that a read of it returns. If no
/// superblock counts, nothing is written, and if the log has no extent after the newest checkpoint, no gate of it.
///
/// After a sync that failed a read may return what never reached the disk. A run writes nothing after a call that failed, and opens a gate
/// only after the body that follows it was synced. So of all blocks that an opening looks at only these three can be such. After the next
/// sync that succeeds the disk has them as they are read, and what is added to the log then is found again. PostgreSQL writes the last page
/// of its log anew in the same way.
///
/// If it fails, some of these blocks may be written, and all others are as before.
///
/// It makes at most six calls of the device beside those of [`last_gate`], and takes no memory.
pub fn renew_gates<D: Disk>(disk: &mut D) -> Result<(), Failed>
    ensures counts { KeepsCounts D.size D.calls D.faults disk.old disk.new }
    ensures same { D.is_observable → OnOk result (Same (D.contents disk.old) (D.contents disk.new)) }
    ensures renewed { D.is_observable
        → OnOk result (Renews (D.size disk.old) (D.contents disk.old) (D.images_now disk.old) (D.images_now disk.new)) }
    ensures failed { D.is_observable → OnErr result
        (RenewsInPart (D.size disk.old) (D.contents disk.old) (D.contents disk.new) (D.images_now disk.old) (D.images_now disk.new)) }
    ensures cause { HasCause (D.faults disk.old) (D.faults disk.new) result }
{
    let Some(gate) = last_gate(disk)? else {
        return Ok(());
    };
    renew(disk, 0, true)?;
    renew(disk, 2, true)?;
    renew(disk, gate, false)
}

/// Writes a block anew with the bytes that it has. One that is a closed gate is written only if `also_closed` says so.
fn renew<D: Disk>(disk: &mut D, block: u64, also_closed: bool) -> Result<(), Failed>
    requires { block < D.size disk.old }
    ensures counts { KeepsCounts D.size D.calls D.faults disk.old disk.new }
    ensures same { D.is_observable → OnOk result (Same (D.contents disk.old) (D.contents disk.new)) }
    ensures images { D.is_observable
        → OnOk result (RenewsBlock also_closed block (D.contents disk.old) (D.images_now disk.old) (D.images_now disk.new)) }
    ensures at_most { D.is_observable
        → TearsAtMost (block ∷ []) (D.contents disk.old) (D.contents disk.new) (D.images_now disk.old) (D.images_now disk.new) }
    ensures cause { HasCause (D.faults disk.old) (D.faults disk.new) result }
{
    let mut bytes = [0; BLOCK];
    disk.read(block, &mut bytes)?;
    if !also_closed && !is_open_gate(&bytes) {
        return Ok(());
    }
    disk.write(block, &bytes)
}
