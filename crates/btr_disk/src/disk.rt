//! The block device, and what each of its calls does to what a read returns and to what a crash may leave.
ghost use Rattle.std.specs.Prelude.{◌≡◌, ◌*◌, ◌≤◌, ℕ, ◌++◌, length, OnOk, OnErr};
ghost use Rattle.btr_disk.specs.Bytes.{Image, Same, AreBytes, IsBlockRange};
ghost use Rattle.btr_disk.specs.Images.{Only, SameImages};
ghost use Rattle.btr_disk.specs.Moments.{Elapses};
ghost use Rattle.btr_disk.specs.Calls.{ReadsBytes, WritesBytes};
ghost use Rattle.btr_disk.specs.Causes.{Counted, HasCause};

use crate::{BlockSource, Parts};

/// Bytes in a block.
pub const BLOCK: usize = 4096;

/// A call of the device failed. The count of faults rose in that call, so the cause lies outside.
#[derive(Clone, Copy)]
pub struct Failed;

/// A device of blocks of 4096 bytes.
///
/// The caller passes a buffer that is a whole positive number of blocks inside the device. No call
/// allocates memory, but a source may start threads. Each call is counted, and so is each failure.
///
/// A device whose type is observable promises what a read returns and what a crash may leave. After a
/// write, whether it succeeds or fails, a crash may leave any bytes in the written blocks. A sync
/// that succeeds ends this: a crash then leaves what a read returns. A sync that fails changes nothing.
pub trait Disk {
    /// Whether the contracts of this type speak of contents and images.
    ghost is_observable: { Type 0 };

    /// The number of blocks.
    ghost size: { Self → ℕ };

    /// What a read returns, by the address of the byte.
    ghost contents: { Self → Image };

    /// What a crash may leave now.
    ghost images_now: { Self → Image → Type 0 };

    /// What a crash may have left at some moment from this call number on, also inside a call.
    ghost images_since: { Self → ℕ → Image → Type 0 };

    /// The number of calls of `read`, `write`, `write_parts` and `sync`, failed ones included.
    ghost calls: { Self → ℕ };

    /// The number of calls that failed.
    ghost faults: { Self → ℕ };

    /// The number of blocks.
    fn blocks(&self) -> u64
        ensures { result ≡ size self.now };

    /// Reads the blocks from `first` on into `buf`, which is whole blocks inside the device.
    ///
    /// A read changes nothing on the device, whether it succeeds or fails.
    fn read(&mut self, first: u64, buf: &mut [u8]) -> Result<(), Failed>
        requires { IsBlockRange (size self.old) first (length buf.old) }
        ensures size { size self.new ≡ size self.old }
        ensures calls { Counted (calls self.old) (calls self.new) }
        ensures cause { HasCause (faults self.old) (faults self.new) result }
        ensures reads { is_observable
            → ReadsBytes calls contents images_now images_since (4096 * first) buf.new self.old self.new result };

    /// Writes `bytes`, which are whole blocks inside the device, at block `first`.
    ///
    /// Until a sync succeeds a crash may leave any bytes in these blocks, also if the write fails. If it
    /// fails, a read of these blocks may give any bytes too. All other blocks are as before.
    fn write(&mut self, first: u64, bytes: &[u8]) -> Result<(), Failed>
        requires { IsBlockRange (size self.old) first (length bytes.now) }
        ensures size { size self.new ≡ size self.old }
        ensures calls { Counted (calls self.old) (calls self.new) }
        ensures cause { HasCause (faults self.old) (faults self.new) result }
        ensures writes { is_observable
            → WritesBytes calls contents images_now images_since (4096 * first) bytes.now self.old self.new result };

    /// Writes `prefix` and then the blocks of `rest` as [`Disk::write`] does, in one call.
    fn write_parts<S: BlockSource>(
        &mut self,
        first: u64,
        prefix: &Parts,
        rest: &S,
    ) -> Result<(), Failed>
        requires able { S.can_work }
        requires range { IsBlockRange (size self.old) first (length (prefix.now ++ S.bytes rest.now)) }
        ensures size { size self.new ≡ size self.old }
        ensures calls { Counted (calls self.old) (calls self.new) }
        ensures cause { HasCause (faults self.old) (faults self.new) result }
        ensures writes { is_observable
            → WritesBytes calls contents images_now images_since (4096 * first) (prefix.now ++ S.bytes rest.now) self.old self.new result };

    /// After a sync that succeeds a crash leaves what a read returns. A sync that fails changes nothing.
    fn sync(&mut self) -> Result<(), Failed>
        ensures size { size self.new ≡ size self.old }
        ensures calls { Counted (calls self.old) (calls self.new) }
        ensures cause { HasCause (faults self.old) (faults self.new) result }
        ensures contents { is_observable → Same (contents self.old) (contents self.new) }
        ensures synced { is_observable → OnOk result (Only (contents self.new) (images_now self.new)) }
        ensures unsynced { is_observable → OnErr result (SameImages (images_now self.old) (images_now self.new)) }
        ensures time { is_observable → Elapses (calls self.old) (images_since self.old) (images_since self.new) (images_now self.new) };

    /// An image holds bytes.
    ghost image_bytes: { is_observable → (d : Self) (c : Image) → images_now d c → AreBytes c };

    /// A device as it reads is one of its images.
    ghost reads_as_image: { is_observable → (d : Self) → images_now d (contents d) };

    /// An image now is one since any call number up to now.
    ghost counts_now: { is_observable → (d : Self) (t : ℕ) (c : Image) → t ≤ calls d → images_now d c → images_since d t c };

    /// Since this moment there is no other.
    ghost only_now: { is_observable → (d : Self) (c : Image) → images_since d (calls d) c → images_now d c };

    /// A later start has no more images than an earlier one.
    ghost fewer_later: { is_observable → (d : Self) (s t : ℕ) (c : Image) → s ≤ t → t ≤ calls d → images_since d t c → images_since d s c };
}
