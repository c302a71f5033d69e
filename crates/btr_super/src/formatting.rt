//! Making a store that has no entry.
ghost use Rattle.std.specs.Prelude.{◌≡◌, ◌≢◌, ◌↔◌, ℕ, ◌*◌, ◌<◌, ◌≤◌, OnOk};
ghost use Rattle.btr_disk.specs.Bytes.{Has, SameBut};
ghost use Rattle.btr_disk.specs.Images.{Only};
ghost use Rattle.btr_disk.specs.Moments.{IsUnwritten, Leaves};
ghost use Rattle.btr_disk.specs.Causes.{CountsCalls, HasCause, UsesDevice};
ghost use Rattle.btr_disk.specs.Gate.{gate_block};
ghost use Rattle.btr_super.specs.declared.formatting.FormatFault.TheVariants.{Fault};
ghost use Rattle.btr_super.specs.Format.{IsStoreSize, IsTooSmall, IsOccupied, HasBodies, SameButBodies, WritesStore};
ghost use Rattle.btr_super.specs.Format.{MakesStore, LeavesFormatting};

use crate::codec::encode;
use crate::gates::read_gates;
use crate::superblock::{FORMAT, LOG_START, Super};
use btr_disk::{BLOCK, Disk, Failed, open_gate};

/// Why a device was not formatted.
#[derive(Clone, Copy, PartialEq, Eq)]
pub enum FormatFault {
    /// A superblock's gate is open: there is a store on the device. Nothing was written.
    Occupied {
        /// The gate's block: 0 or 2.
        block: u64,
    },

    /// The device has fewer blocks than were asked for. It was not called.
    TooSmall {
        /// The number of blocks that were asked for.
        asked: u64,

        /// The number of blocks of the device.
        blocks: u64,
    },

    /// The device failed.
    Fault,
}

impl From<Failed> for FormatFault {
    ghost from_gives = { λ _ e. e ≡ Fault };

    fn from(_: Failed) -> Self {
        FormatFault::Fault
    }
}

/// Writes the first superblock's body and the log's first gate, and syncs.
fn write_bodies<D: Disk>(device: &mut D, blocks: u64) -> Result<(), Failed>
    requires { 8 ≤ D.size device.old }
    ensures size { D.size device.new ≡ D.size device.old }
    ensures calls { CountsCalls 3 (D.calls device.old) (D.calls device.new) result }
    ensures cause { HasCause (D.faults device.old) (D.faults device.new) result }
    ensures stored { D.is_observable → OnOk result (HasBodies blocks (D.contents device.new)) }
    ensures elsewhere { D.is_observable → SameButBodies (D.contents device.old) (D.contents device.new) }
    ensures synced { D.is_observable → OnOk result (Only (D.contents device.new) (D.images_now device.new)) }
    ensures moments { D.is_observable → Only (D.contents device.old) (D.images_now device.old)
        → Leaves D.calls D.images_since device.old device.new (SameButBodies (D.contents device.old)) }
{
    let first = Super {
        seq: 1,
        side: 0,
        blocks,
        tail: LOG_START,
        checkpoint: 0,
        format: FORMAT,
    };
    device.write(1, &encode(&first))?;
    device.write(LOG_START, &[0; BLOCK])?;
    device.sync()
}

/// Opens the first superblock's gate, and syncs.
fn open_first_gate<D: Disk>(device: &mut D) -> Result<(), Failed>
    requires { 8 ≤ D.size device.old }
    ensures size { D.size device.new ≡ D.size device.old }
    ensures calls { CountsCalls 2 (D.calls device.old) (D.calls device.new) result }
    ensures cause { HasCause (D.faults device.old) (D.faults device.new) result }
    ensures gate { D.is_observable → OnOk result (Has (D.contents device.new) (4096 * 0) gate_block) }
    ensures elsewhere { D.is_observable → SameBut (4096 * 0) 4096 (D.contents device.old) (D.contents device.new) }
    ensures synced { D.is_observable → OnOk result (Only (D.contents device.new) (D.images_now device.new)) }
    ensures moments { D.is_observable → Only (D.contents device.old) (D.images_now device.old)
        → Leaves D.calls D.images_since device.old device.new (SameBut (4096 * 0) 4096 (D.contents device.old)) }
{
    device.write(0, &open_gate())?;
    device.sync()
}

/// Writes the store that has no entry, on a device whose gates are closed.
fn write_store<D: Disk>(device: &mut D, blocks: u64) -> Result<(), Failed>
    requires blocks { IsStoreSize blocks }
    requires inside { blocks ≤ D.size device.old }
    ensures size { D.size device.new ≡ D.size device.old }
    ensures calls { CountsCalls 5 (D.calls device.old) (D.calls device.new) result }
    ensures cause { HasCause (D.faults device.old) (D.faults device.new) result }
    ensures writes { D.is_observable
        → WritesStore D.size D.calls D.contents D.images_now D.images_since blocks device.old device.new result }
{
    write_bodies(device, blocks)?;
    open_first_gate(device)
}

/// Makes a store of `blocks` blocks that has no entry.
///
/// The store has the first `blocks` blocks of the device. A crash at any moment leaves no open gate of a
/// superblock, or the whole store.
///
/// It makes eight calls: sync, read blocks 0 and 2, write blocks 1 and 4, sync, write block 0, sync. It stops
/// at the first that fails, and after the reads if a gate is open. It allocates no memory.
pub fn format<D: Disk>(device: &mut D, blocks: u64) -> Result<(), FormatFault>
    requires { IsStoreSize blocks }
    ensures counts { UsesDevice 8 D.size D.calls D.faults device.old device.new result (result ≡ Err FormatFault.Fault) }
    ensures too_small { (asked has : ℕ)
        → (result ≡ Err (FormatFault.TooSmall asked has)) ↔ IsTooSmall (D.size device.old) blocks asked has }
    ensures uncalled { D.size device.old < blocks → device.new ≡ device.old }
    ensures occupied { D.is_observable → blocks ≤ D.size device.old → result ≢ Err FormatFault.Fault
        → (at : ℕ) → (result ≡ Err (FormatFault.Occupied at)) ↔ IsOccupied (D.contents device.old) at }
    ensures refused { D.is_observable → (block : ℕ) → result ≡ Err (FormatFault.Occupied block)
        → IsUnwritten D.calls D.contents D.images_now D.images_since device.old device.new }
    ensures made { D.is_observable → MakesStore D.size D.contents D.images_now blocks device.old device.new result }
    ensures moments { D.is_observable
        → LeavesFormatting D.size D.calls D.contents D.images_now D.images_since blocks device.old device.new }
{
    let has = device.blocks();
    if blocks > has {
        return Err(FormatFault::TooSmall {
            asked: blocks,
            blocks: has,
        });
    }
    let (first, second) = read_gates(device)?;
    if first {
        return Err(FormatFault::Occupied { block: 0 });
    }
    if second {
        return Err(FormatFault::Occupied { block: 2 });
    }
    write_store(device, blocks)?;
    Ok(())
}
