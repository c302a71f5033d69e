//! What follows from the contracts of a device, each as the contract of a small function over any device.
ghost use Rattle.std.specs.Prelude.{◌≡◌, ◌*◌, ℕ, length, OnOk};
ghost use Rattle.btr_disk.specs.Bytes.{Has, IsBlockRange, IsOutside};
ghost use Rattle.btr_disk.specs.Images.{Only, AllHave, DifferIn, IsUnsynced, MayTearTwice, TornTwice};
ghost use Rattle.btr_disk.specs.Causes.{HasCause};

use crate::{Disk, Failed};

/// Two writes without a sync between them leave one unsynced set: the images are exactly those from
/// before with any bytes in the blocks of both.
pub fn write_two<D: Disk>(
    device: &mut D,
    first: u64,
    bytes: &[u8],
    second: u64,
    others: &[u8],
) -> Result<(), Failed>
    requires first { IsBlockRange (D.size device.old) first (length bytes.now) }
    requires second { IsBlockRange (D.size device.old) second (length others.now) }
    ensures size { D.size device.new ≡ D.size device.old }
    ensures cause { HasCause (D.faults device.old) (D.faults device.new) result }
    ensures torn { D.is_observable
        → TornTwice (4096 * first) (length bytes.now) (4096 * second) (length others.now)
        (D.images_now device.old) (D.images_now device.new) }
    ensures unsynced { D.is_observable
        → OnOk result (MayTearTwice (4096 * first) (length bytes.now) (4096 * second) (length others.now)
        (D.images_now device.old) (D.images_now device.new)) }
{
    device.write(first, bytes)?;
    device.write(second, others)
}

/// A write leaves each address outside its blocks as it is in every image, also if it fails.
pub fn write_elsewhere<D: Disk>(device: &mut D, first: u64, bytes: &[u8]) -> Result<(), Failed>
    requires { IsBlockRange (D.size device.old) first (length bytes.now) }
    ensures size { D.size device.new ≡ D.size device.old }
    ensures cause { HasCause (D.faults device.old) (D.faults device.new) result }
    ensures written { D.is_observable → OnOk result (Has (D.contents device.new) (4096 * first) bytes.now) }
    ensures elsewhere { D.is_observable → (k byte : ℕ) → IsOutside (4096 * first) (length bytes.now) k
        → AllHave k byte (D.images_now device.old) → AllHave k byte (D.images_now device.new) }
{
    device.write(first, bytes)
}

/// After a sync and one write the images differ in the written blocks alone.
pub fn sync_and_write<D: Disk>(device: &mut D, first: u64, bytes: &[u8]) -> Result<(), Failed>
    requires { IsBlockRange (D.size device.old) first (length bytes.now) }
    ensures size { D.size device.new ≡ D.size device.old }
    ensures cause { HasCause (D.faults device.old) (D.faults device.new) result }
    ensures differ { D.is_observable
        → OnOk result (DifferIn (4096 * first) (length bytes.now) (D.contents device.old) (D.images_now device.new)) }
{
    device.sync()?;
    device.write(first, bytes)
}

/// Until a sync, a crash may leave a written block as it was, as a read returns it, or with bytes that are
/// neither. This holds also if the write fails.
pub fn write_unsynced<D: Disk>(device: &mut D, first: u64, bytes: &[u8]) -> Result<(), Failed>
    requires { IsBlockRange (D.size device.old) first (length bytes.now) }
    ensures size { D.size device.new ≡ D.size device.old }
    ensures cause { HasCause (D.faults device.old) (D.faults device.new) result }
    ensures unsynced { D.is_observable
        → IsUnsynced (4096 * first) (length bytes.now) (D.contents device.old) (D.contents device.new) (D.images_now device.new) }
{
    device.write(first, bytes)
}

/// What was written is what is read, and after the sync it is what a crash leaves.
///
/// Writes, syncs, and reads the same blocks into `buf`, which is as long as `bytes`.
pub fn write_sync_read<D: Disk>(
    device: &mut D,
    first: u64,
    bytes: &[u8],
    buf: &mut [u8],
) -> Result<(), Failed>
    requires run { IsBlockRange (D.size device.old) first (length bytes.now) }
    requires length { length buf.old ≡ length bytes.now }
    ensures size { D.size device.new ≡ D.size device.old }
    ensures cause { HasCause (D.faults device.old) (D.faults device.new) result }
    ensures read { D.is_observable → OnOk result (buf.new ≡ bytes.now) }
    ensures synced { D.is_observable → OnOk result (Only (D.contents device.new) (D.images_now device.new)) }
{
    device.write(first, bytes)?;
    device.sync()?;
    device.read(first, buf)
}
