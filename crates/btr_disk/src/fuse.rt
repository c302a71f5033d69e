//! A device that fails after a number of calls, for tests.
ghost use Rattle.std.specs.Prelude.{◌≡◌, ◌+◌, ◌<◌, ℕ, length};

use crate::memory::fault;
use crate::{BlockSource, Disk, Failed, Parts};

/// A device that passes a number of calls on to another device, and then fails each call, as at a stop.
///
/// A read or a sync after these calls fails and does not reach the other device. A write after them reaches
/// the other device and fails all the same, so its blocks are unsynced: it is a write that was under way at
/// the stop. Each call and each fault is counted. A call that is not made to fail has the result and the
/// effect that it has on the other device.
#[derive(Drop)]
pub struct FuseDisk<D: Disk> {
    disk: D,
    /// The number of calls that the fuse will not fail.
    left: u64,
    /// The number of calls that the fuse failed.
    failed: u64,
    /// The number of those that did not reach the other device.
    withheld: u64,
    ghost spent: { 0 < left → withheld ≡ 0 },
}

impl<D: Disk> FuseDisk<D> {
    ghost use Rattle.std.specs.Prelude.{◌≡◌};
    ghost use Rattle.btr_disk.specs.Images.{SameImages};

    /// Passes the first `calls` calls on to `disk`. Takes no memory.
    pub fn new(disk: D, calls: u64) -> FuseDisk<D>
        ensures observable { D.is_observable → ⟦<FuseDisk<D> as Disk>⟧.is_observable }
        ensures disk { result.disk ≡ disk }
        ensures left { result.left ≡ calls }
        ensures failed { result.failed ≡ 0 }
        ensures withheld { result.withheld ≡ 0 }
    {
        FuseDisk {
            disk,
            left: calls,
            failed: 0,
            withheld: 0,
        }
    }

    /// The other device. What a crash may leave of it is what it may leave of the fuse.
    pub fn into_disk(self) -> D
        ensures disk { result ≡ self.disk }
        ensures contents { D.contents result ≡ ⟦<FuseDisk<D> as Disk>⟧.contents self }
        ensures images { SameImages (⟦<FuseDisk<D> as Disk>⟧.images_now self) (D.images_now result) }
    {
        self.disk
    }
}

impl<D: Disk> Disk for FuseDisk<D> {
    ghost use Rattle.std.specs.Prelude.{◌*◌, ◌++◌, IsErr, OnOk, OnErr};
    ghost use Rattle.btr_disk.specs.Bytes.{IsBlockRange, Same};
    ghost use Rattle.btr_disk.specs.Images.{Only, SameImages};
    ghost use Rattle.btr_disk.specs.Moments.{Elapses};
    ghost use Rattle.btr_disk.specs.Calls.{ReadsBytes, WritesBytes};
    ghost use Rattle.btr_disk.specs.Causes.{Counted, HasCause};
    ghost use Rattle.btr_disk.specs.Fuse.{WithholdsIfSpent, CutsOffIfSpent};
    ghost use Rattle.btr_disk.specs.Fuse.{fuse_calls, fuse_faults, fuse_contents, fuse_images, fuse_since};
    ghost use Rattle.btr_disk.specs.FuseLaws.{fuse_counts_now, fuse_only_now, fuse_fewer_later};

    ghost is_observable = { D.is_observable };

    ghost size = { λ fuse. D.size fuse.disk };

    ghost contents = { λ fuse. fuse_contents fuse };

    ghost images_now = { λ fuse. fuse_images fuse };

    ghost images_since = { λ fuse. fuse_since fuse };

    ghost calls = { λ fuse. fuse_calls fuse };

    ghost faults = { λ fuse. fuse_faults fuse };

    ghost image_bytes = { λ is_observable fuse. D.image_bytes is_observable fuse.disk };

    ghost reads_as_image = { λ is_observable fuse. D.reads_as_image is_observable fuse.disk };

    ghost counts_now = { λ is_observable fuse t c le left.
        fuse_counts_now fuse t c (λ a. D.counts_now is_observable fuse.disk a c) left };

    ghost only_now = { λ is_observable fuse c left. fuse_only_now fuse c (D.only_now is_observable fuse.disk c) left };

    ghost fewer_later = { λ is_observable fuse s t c le _ left.
        fuse_fewer_later fuse s t c le (λ a b. D.fewer_later is_observable fuse.disk a b c) left };

    fn blocks(&self) -> u64 {
        self.disk.blocks()
    }

    /// The clauses of the trait, and one more: which calls are withheld.
    fn read(&mut self, first: u64, buf: &mut [u8]) -> Result<(), Failed>
        requires { IsBlockRange (D.size self.old.disk) first (length buf.old) }
        ensures size { D.size self.new.disk ≡ D.size self.old.disk }
        ensures calls { Counted (fuse_calls self.old) (fuse_calls self.new) }
        ensures cause { HasCause (fuse_faults self.old) (fuse_faults self.new) result }
        ensures reads { D.is_observable
            → ReadsBytes fuse_calls fuse_contents fuse_images fuse_since (4096 * first) buf.new self.old self.new result }
        ensures withheld { WithholdsIfSpent self.old self.new (IsErr result × (buf.new ≡ buf.old)) }
    {
        if self.left == 0 {
            self.withheld = self.withheld.saturating_add(1);
            return Err(fault(&mut self.failed));
        }
        self.left -= 1;
        self.disk.read(first, buf)
    }

    /// The clauses of the trait, and one more: which calls reach the other device and fail.
    fn write(&mut self, first: u64, bytes: &[u8]) -> Result<(), Failed>
        requires { IsBlockRange (D.size self.old.disk) first (length bytes.now) }
        ensures size { D.size self.new.disk ≡ D.size self.old.disk }
        ensures calls { Counted (fuse_calls self.old) (fuse_calls self.new) }
        ensures cause { HasCause (fuse_faults self.old) (fuse_faults self.new) result }
        ensures writes { D.is_observable
            → WritesBytes fuse_calls fuse_contents fuse_images fuse_since (4096 * first) bytes.now self.old self.new result }
        ensures cut_off { CutsOffIfSpent self.old self.new (IsErr result) }
    {
        if self.left == 0 {
            let _ = self.disk.write(first, bytes);
            return Err(fault(&mut self.failed));
        }
        self.left -= 1;
        self.disk.write(first, bytes)
    }

    /// The clauses of the trait, and one more: which calls reach the other device and fail.
    fn write_parts<S: BlockSource>(
        &mut self,
        first: u64,
        prefix: &Parts,
        rest: &S,
    ) -> Result<(), Failed>
        requires able { S.can_work }
        requires range { IsBlockRange (D.size self.old.disk) first (length (prefix.now ++ S.bytes rest.now)) }
        ensures size { D.size self.new.disk ≡ D.size self.old.disk }
        ensures calls { Counted (fuse_calls self.old) (fuse_calls self.new) }
        ensures cause { HasCause (fuse_faults self.old) (fuse_faults self.new) result }
        ensures writes { D.is_observable
            → WritesBytes fuse_calls fuse_contents fuse_images fuse_since (4096 * first) (prefix.now ++ S.bytes rest.now)
            self.old self.new result }
        ensures cut_off { CutsOffIfSpent self.old self.new (IsErr result) }
    {
        if self.left == 0 {
            let _ = self.disk.write_parts(first, prefix, rest);
            return Err(fault(&mut self.failed));
        }
        self.left -= 1;
        self.disk.write_parts(first, prefix, rest)
    }

    /// The clauses of the trait, and one more: which calls are withheld.
    fn sync(&mut self) -> Result<(), Failed>
        ensures size { D.size self.new.disk ≡ D.size self.old.disk }
        ensures calls { Counted (fuse_calls self.old) (fuse_calls self.new) }
        ensures cause { HasCause (fuse_faults self.old) (fuse_faults self.new) result }
        ensures contents { D.is_observable → Same (D.contents self.old.disk) (D.contents self.new.disk) }
        ensures synced { D.is_observable → OnOk result (Only (D.contents self.new.disk) (D.images_now self.new.disk)) }
        ensures unsynced { D.is_observable → OnErr result (SameImages (D.images_now self.old.disk) (D.images_now self.new.disk)) }
        ensures time { D.is_observable
            → Elapses (fuse_calls self.old) (fuse_since self.old) (fuse_since self.new) (D.images_now self.new.disk) }
        ensures withheld { WithholdsIfSpent self.old self.new (IsErr result) }
    {
        if self.left == 0 {
            self.withheld = self.withheld.saturating_add(1);
            return Err(fault(&mut self.failed));
        }
        self.left -= 1;
        self.disk.sync()
    }
}
