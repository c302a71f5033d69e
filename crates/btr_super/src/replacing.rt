//! Replacing the superblock that counts by one on the other side.
ghost use Rattle.std.specs.Prelude.{◌≡◌, ◌+◌, ◌*◌, ◌<◌, length, OnOk};
ghost use Rattle.btr_disk.specs.Bytes.{SameBut};
ghost use Rattle.btr_disk.specs.Causes.{CountsCalls, HasCause};
ghost use Rattle.btr_disk.specs.Gate.{IsClosed};
ghost use Rattle.btr_disk.specs.Moments.{Leaves};
ghost use Rattle.btr_super.specs.declared.replacing.ReplaceFault.TheVariants.{Fault};
ghost use Rattle.btr_super.specs.Super.{IsSuper};
ghost use Rattle.btr_super.specs.Replace.{HasOnePrefix, CountsEither, IsClosing, WritesBlock};
ghost use Rattle.btr_super.specs.Replace.{StoresDurably, ChoosesNext, LeavesReplacing};

use crate::codec::encode;
use crate::gates::read_gate;
use crate::superblock::Super;
use btr_disk::{BLOCK, Disk, Failed, open_gate};

/// Why a superblock was not replaced.
#[derive(Clone, Copy, PartialEq, Eq)]
pub enum ReplaceFault {
    /// The device failed. A crash leaves the old superblock or the next one.
    Fault,
}

impl From<Failed> for ReplaceFault {
    ghost from_gives = { λ _ e. e ≡ Fault };

    fn from(_: Failed) -> Self {
        ReplaceFault::Fault
    }
}

/// Writes one block, which the device has, and syncs.
fn write_block<D: Disk>(device: &mut D, block: u64, bytes: &[u8]) -> Result<(), Failed>
    requires inside { block < D.size device.old }
    requires one_block { length bytes.now ≡ 4096 }
    ensures size { D.size device.new ≡ D.size device.old }
    ensures calls { CountsCalls 2 (D.calls device.old) (D.calls device.new) result }
    ensures cause { HasCause (D.faults device.old) (D.faults device.new) result }
    ensures writes { D.is_observable
        → WritesBlock D.calls D.contents D.images_now D.images_since block bytes.now device.old device.new result }
{
    device.write(block, bytes)?;
    device.sync()
}

/// Closes this gate, which the device has: if it is open, writes it as zeros and syncs.
///
/// A closed gate is not written, because a crash in a write may leave any bytes in the block, also an open gate.
fn close_gate<D: Disk>(device: &mut D, block: u64) -> Result<(), Failed>
    requires { block < D.size device.old }
    ensures size { D.size device.new ≡ D.size device.old }
    ensures calls { CountsEither 1 3 (D.calls device.old) (D.calls device.new) result }
    ensures cause { HasCause (D.faults device.old) (D.faults device.new) result }
    ensures closed { D.is_observable → OnOk result (IsClosed (D.contents device.new) block) }
    ensures elsewhere { D.is_observable → SameBut (4096 * block) 4096 (D.contents device.old) (D.contents device.new) }
    ensures prefix { D.is_observable → HasOnePrefix (D.contents device.old) (D.images_now device.old)
        → OnOk result (HasOnePrefix (D.contents device.new) (D.images_now device.new)) }
    ensures moments { D.is_observable
        → Leaves D.calls D.images_since device.old device.new (IsClosing block (D.contents device.old) (D.images_now device.old)) }
{
    let opened = read_gate(device, block)?;
    if opened {
        write_block(device, block, &[0; BLOCK])?;
    }
    Ok(())
}

/// Replaces the superblock that is chosen by `next`, which is on the other side and has a greater number.
///
/// A crash at any moment leaves the old superblock chosen or `next`, if blocks 0 to 3 were the same in each image before the call. After
/// `Ok` it is `next`, durably. All blocks but the two of the side of `next` stay as they are.
///
/// It reads the gate of that side. If it is open, it writes it as zeros and syncs. Then it writes the body and syncs, and writes the open
/// gate and syncs: five calls or seven. It stops at the first that fails. It allocates no memory.
pub fn replace<D: Disk>(device: &mut D, next: &Super) -> Result<(), ReplaceFault>
    requires { IsSuper (D.size device.old) next.now }
    ensures size { D.size device.new ≡ D.size device.old }
    ensures calls { CountsEither 5 7 (D.calls device.old) (D.calls device.new) result }
    ensures cause { HasCause (D.faults device.old) (D.faults device.new) result }
    ensures elsewhere { D.is_observable → SameBut (8192 * next.now.side) 8192 (D.contents device.old) (D.contents device.new) }
    ensures stored { D.is_observable → StoresDurably D.contents D.images_now next.now device.new result }
    ensures replaced { D.is_observable
        → ChoosesNext D.size D.contents D.images_now next.now device.old device.new result }
    ensures moments { D.is_observable
        → LeavesReplacing D.size D.calls D.contents D.images_now D.images_since next.now device.old device.new }
{
    let gate = 2 * next.side as u64;
    close_gate(device, gate)?;
    write_block(device, gate + 1, &encode(next))?;
    write_block(device, gate, &open_gate())?;
    Ok(())
}
