//! Reading the gates of the superblocks from a device.
ghost use Rattle.std.specs.Prelude.{◌≡◌, ◌↔◌, ◌<◌, ◌≤◌, IsTrue, IfOk, OnOk};
ghost use Rattle.btr_disk.specs.Images.{Only};
ghost use Rattle.btr_disk.specs.Moments.{WroteNothing};
ghost use Rattle.btr_disk.specs.Causes.{CountsCalls, HasCause, Rose};
ghost use Rattle.btr_disk.specs.Gate.{IsOpen};
ghost use Rattle.btr_disk.specs.Moments.{IsUnwritten};

use btr_disk::{BLOCK, Disk, Failed, is_open_gate};

/// Whether this block, which the device has, is an open gate.
pub(crate) fn read_gate<D: Disk>(device: &mut D, block: u64) -> Result<bool, Failed>
    requires { block < D.size device.old }
    ensures size { D.size device.new ≡ D.size device.old }
    ensures calls { CountsCalls 1 (D.calls device.old) (D.calls device.new) result }
    ensures called { Rose (D.calls device.old) (D.calls device.new) }
    ensures cause { HasCause (D.faults device.old) (D.faults device.new) result }
    ensures gate { D.is_observable → IfOk result (λ yes. IsTrue yes ↔ IsOpen (D.contents device.old) block) }
    ensures nothing { D.is_observable → WroteNothing D.calls D.contents D.images_now D.images_since device.old device.new }
{
    let mut bytes = [0; BLOCK];
    device.read(block, &mut bytes)?;
    Ok(is_open_gate(&bytes))
}

/// Syncs, and then reads whether each superblock's gate is open.
pub(crate) fn read_gates<D: Disk>(device: &mut D) -> Result<(bool, bool), Failed>
    requires { 4 ≤ D.size device.old }
    ensures size { D.size device.new ≡ D.size device.old }
    ensures calls { CountsCalls 3 (D.calls device.old) (D.calls device.new) result }
    ensures cause { HasCause (D.faults device.old) (D.faults device.new) result }
    ensures first { D.is_observable → IfOk result (λ yes. IsTrue yes.0 ↔ IsOpen (D.contents device.old) 0) }
    ensures second { D.is_observable → IfOk result (λ yes. IsTrue yes.1 ↔ IsOpen (D.contents device.old) 2) }
    ensures synced { D.is_observable → OnOk result (Only (D.contents device.old) (D.images_now device.new)) }
    ensures unwritten { D.is_observable → IsUnwritten D.calls D.contents D.images_now D.images_since device.old device.new }
{
    device.sync()?;
    let first = read_gate(device, 0)?;
    let second = read_gate(device, 2)?;
    Ok((first, second))
}
