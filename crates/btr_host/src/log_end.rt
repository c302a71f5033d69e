//! The gate of the last extent of a log, found by the gates and the heads alone.
ghost use Rattle.std.specs.Prelude.{◌≡◌, ◌+◌, ◌*◌, ◌<◌, ◌≤◌, ◌^◌, ℕ, length, take, drop, IfOk, IfSome, IsNone};
ghost use Rattle.btr_disk.specs.Bytes.{Image, Has};
ghost use Rattle.btr_disk.specs.Causes.{KeepsCounts, HasCause};
ghost use Rattle.btr_disk.specs.Moments.{WroteNothing};
ghost use Rattle.btr_log.specs.Head.{Spells, IsNoHead};
ghost use Rattle.btr_host.specs.LogEnd.{IsNextGate, IsLastGate, IsLastGateOf};

use btr_disk::{BLOCK, Disk, Failed, is_open_gate};
use btr_log::{HEAD_BYTES, Head};
use btr_super::{ChooseFault, choose};

/// Returns the gate of the last extent of the log on a device, or the gate at which the log begins if it has none. It is found by the
/// superblock that counts, and from there by each open gate and the head after it. `None` means that no superblock counts.
///
/// It writes nothing, and takes no memory. It makes one call of the device, and one more for each extent after the newest checkpoint, each
/// of which reads two blocks.
pub fn last_gate<D: Disk>(disk: &mut D) -> Result<Option<u64>, Failed>
    ensures counts { KeepsCounts D.size D.calls D.faults disk.old disk.new }
    ensures unwritten { D.is_observable → WroteNothing D.calls D.contents D.images_now D.images_since disk.old disk.new }
    ensures inside { IfOk result (λ o. IfSome o (λ gate. (gate < D.size disk.old) × (8 ≤ D.size disk.old))) }
    ensures last { D.is_observable → IfOk result (IsLastGateOf (D.size disk.old) (D.contents disk.old)) }
    ensures cause { HasCause (D.faults disk.old) (D.faults disk.new) result }
{
    match choose(disk) {
        Ok(found) => Ok(Some(last_from(disk, found.tail, found.blocks)?)),
        Err(ChooseFault::Fault) => Err(Failed),
        Err(ChooseFault::NotAStore | ChooseFault::Damaged { .. }) => Ok(None),
    }
}

/// Returns the gate of the last extent of a log of `blocks` blocks that begins at this gate.
fn last_from<D: Disk>(disk: &mut D, start: u64, blocks: u64) -> Result<u64, Failed>
    requires start { start < blocks }
    requires blocks { blocks ≤ D.size disk.old }
    requires addressable { blocks ≤ 2 ^ 32 }
    ensures counts { KeepsCounts D.size D.calls D.faults disk.old disk.new }
    ensures unwritten { D.is_observable → WroteNothing D.calls D.contents D.images_now D.images_since disk.old disk.new }
    ensures inside { IfOk result (λ gate. gate < blocks) }
    ensures last { D.is_observable → IfOk result (IsLastGate (D.contents disk.old) blocks start) }
    ensures cause { HasCause (D.faults disk.old) (D.faults disk.new) result }
{
    let mut last = start;
    let mut gate = start;
    while let Some(next) = next_gate(disk, gate, blocks)? {
        last = gate;
        gate = next;
    }
    Ok(last)
}

/// Returns the gate to which this one leads, if there is room for one after that.
fn next_gate<D: Disk>(disk: &mut D, gate: u64, blocks: u64) -> Result<Option<u64>, Failed>
    requires gate { gate < blocks }
    requires blocks { blocks ≤ D.size disk.old }
    requires addressable { blocks ≤ 2 ^ 32 }
    ensures counts { KeepsCounts D.size D.calls D.faults disk.old disk.new }
    ensures unwritten { D.is_observable → WroteNothing D.calls D.contents D.images_now D.images_since disk.old disk.new }
    ensures inside { IfOk result (λ o. IfSome o (λ next. (gate < next) × (next < blocks))) }
    ensures next { D.is_observable → IfOk result (IsNextGate (D.contents disk.old) blocks gate) }
    ensures cause { HasCause (D.faults disk.old) (D.faults disk.new) result }
{
    if gate + 1 == blocks {
        return Ok(None);
    }
    let mut bytes = [0; 2 * BLOCK];
    disk.read(gate, &mut bytes)?;
    Ok(gate_after(&bytes, gate, blocks))
}

/// Returns the gate to which this one leads, from its block and the one after it.
fn gate_after(bytes: &[u8], gate: u64, blocks: u64) -> Option<u64>
    requires size { length bytes.now ≡ 8192 }
    requires inside { gate + 1 < blocks }
    requires addressable { blocks ≤ 2 ^ 32 }
    ensures inside { IfSome result (λ next. (gate < next) × (next < blocks)) }
    ensures next { (image : Image) → Has image (4096 * gate) bytes.now → IsNextGate image blocks gate result }
{
    if !is_open_gate(bytes) {
        return None;
    }
    let Some(head) = head_after(bytes) else {
        return None;
    };
    if head.n < blocks - 1 - gate {
        Some(gate + head.n + 1)
    } else {
        None
    }
}

/// Returns the head with which the second of two blocks begins.
fn head_after(bytes: &[u8]) -> Option<Head>
    requires { length bytes.now ≡ 8192 }
    ensures found { IfSome result (Spells (take 64 (drop 4096 bytes.now))) }
    ensures none { IsNone result → IsNoHead (take 64 (drop 4096 bytes.now)) }
{
    let mut head = [0; HEAD_BYTES];
    head.copy_from_slice(&bytes[BLOCK..BLOCK + HEAD_BYTES]);
    Head::decode(&head)
}
