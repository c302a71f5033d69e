//! A device in memory, for tests.
ghost use Rattle.std.specs.Prelude.{◌≡◌, ◌+◌, ◌-◌, min, ◌*◌, ◌/◌, ◌%◌, ◌<◌, ◌≤◌, ◌^◌, ℕ, true, length, IfOk, IsErr, slice_index};
ghost use Rattle.std.specs.List.{flat_map};
ghost use Rattle.btr_disk.specs.Bytes.{AreBytes, Has, SameBut};
ghost use Rattle.btr_disk.specs.CallRecord.{contents_of, newest_first};
ghost use Rattle.btr_disk.specs.Replay.{is_replayable};
ghost use Rattle.btr_disk.specs.Images.{Only};
ghost use Rattle.btr_disk.specs.Causes.{Counted};

use crate::call_record::{Call, CallRecord};
use crate::{BLOCK, BlockSource, Blocks, Disk, Failed, Fill, Parts};
use std::alloc::{AllocError, Global};

/// How much a [`MemDisk`] can remember.
#[derive(Clone, Copy)]
pub struct Capacity {
    /// The number of calls.
    pub calls: usize,

    /// The number of blocks that are written, at most 2^32.
    pub blocks: usize,
}

/// A device in memory whose contracts say what it holds.
///
/// The calls whose numbers are in its list fail; the first call is number 0. The first call beyond its
/// capacity fails too, and so does each call after it; no other call fails. A write that fails
/// leaves the contents as they are and its blocks unsynced.
///
/// It remembers its calls and the bytes that writes replaced, so what a crash at any moment may leave
/// follows from what it holds. A read or write costs the bytes that it copies and the length of the list.
#[derive(Drop)]
pub struct MemDisk {
    bytes: Vec<u8>,
    made: CallRecord,
    failing: Vec<u64>,
    faults: u64,
    ghost are_bytes: { (k : ℕ) → slice_index bytes.items k < 256 },
    ghost whole_blocks: { length bytes.items ≡ 4096 * length made.torn.flags.items },
    ghost replayable: { is_replayable (newest_first made) (length made.replaced.items) (length bytes.items) ≡ true },
}

impl MemDisk {
    ghost use Rattle.std.specs.Prelude.{[], OnOk, OnErr};
    ghost use Rattle.btr_disk.specs.Bytes.{IsBlockRange};
    ghost use Rattle.btr_disk.specs.Causes.{HasCause};
    ghost use Rattle.btr_disk.specs.Images.{Tears};
    ghost use Rattle.btr_disk.specs.Moments.{Elapses};
    ghost use Rattle.btr_disk.specs.CallRecord.{call_count};
    ghost use Rattle.btr_disk.specs.Fill.{HasFill};
    ghost use Rattle.btr_disk.specs.Memory.{is_listed, images_of, since_of, FailsAsListed, IsUnusedDisk, RecordsWrite};

    /// A device of `blocks` blocks of zeros, at most 2^32, on which no call was made.
    ///
    /// The calls whose numbers are in `failing` will fail. The error means out of memory.
    pub fn new(
        alloc: Global,
        blocks: usize,
        capacity: Capacity,
        failing: Vec<u64>,
    ) -> Result<MemDisk, AllocError>
        requires blocks { blocks ≤ 2 ^ 32 }
        requires capacity { capacity.blocks ≤ 2 ^ 32 }
        ensures observable { ⟦<MemDisk as Disk>⟧.is_observable }
        ensures size { IfOk result (λ disk. ⟦<MemDisk as Disk>⟧.size disk ≡ blocks) }
        ensures zeros { IfOk result (λ disk. (k : ℕ) → ⟦<MemDisk as Disk>⟧.contents disk k ≡ 0) }
        ensures settled { IfOk result (λ disk. Only (⟦<MemDisk as Disk>⟧.contents disk) (⟦<MemDisk as Disk>⟧.images_now disk)) }
        ensures unused { IfOk result (IsUnusedDisk failing.items capacity.calls capacity.blocks) }
    {
        MemDisk::from_bytes(alloc, vec![in alloc; 0; blocks * BLOCK]?, capacity, failing)
    }

    /// A device that holds these bytes, which are whole blocks, and on which no call was made.
    ///
    /// The calls whose numbers are in `failing` will fail. The error means out of memory.
    pub fn from_bytes(
        alloc: Global,
        bytes: Vec<u8>,
        capacity: Capacity,
        failing: Vec<u64>,
    ) -> Result<MemDisk, AllocError>
        requires whole { length bytes.items % 4096 ≡ 0 }
        requires capacity { capacity.blocks ≤ 2 ^ 32 }
        ensures observable { ⟦<MemDisk as Disk>⟧.is_observable }
        ensures size { IfOk result (λ disk. 4096 * ⟦<MemDisk as Disk>⟧.size disk ≡ length bytes.items) }
        ensures contents { IfOk result (λ disk. (k : ℕ) → ⟦<MemDisk as Disk>⟧.contents disk k ≡ slice_index bytes.items k) }
        ensures settled { IfOk result (λ disk. Only (⟦<MemDisk as Disk>⟧.contents disk) (⟦<MemDisk as Disk>⟧.images_now disk)) }
        ensures unused { IfOk result (IsUnusedDisk failing.items capacity.calls capacity.blocks) }
    {
        let blocks = bytes.len() / BLOCK;
        Ok(MemDisk {
            bytes,
            made: CallRecord::new(alloc, capacity, blocks)?,
            failing,
            faults: 0,
        })
    }

    /// What a crash at this moment may leave, as a device of its own.
    ///
    /// At each address where a crash may leave any byte it has that of `fill`. For `Fill::Kept` it reads as
    /// this device did at its last sync that succeeded, or when it was made. No call was made of it, and
    /// none is listed to fail. It can remember as much as this device. The error means out of memory. The
    /// cost is that of copying the device, and of what was written since the last sync.
    pub fn image(&self, alloc: Global, fill: Fill) -> Result<MemDisk, AllocError>
        ensures observable { ⟦<MemDisk as Disk>⟧.is_observable }
        ensures size { IfOk result (λ image. ⟦<MemDisk as Disk>⟧.size image ≡ ⟦<MemDisk as Disk>⟧.size self.now) }
        ensures image { IfOk result (λ image. ⟦<MemDisk as Disk>⟧.images_now self.now (⟦<MemDisk as Disk>⟧.contents image)) }
        ensures fill { IfOk result (λ image. HasFill fill (⟦<MemDisk as Disk>⟧.contents self.now) self.now.made
            (length self.now.bytes.items) (⟦<MemDisk as Disk>⟧.contents image)) }
        ensures settled { IfOk result (λ image. Only (⟦<MemDisk as Disk>⟧.contents image) (⟦<MemDisk as Disk>⟧.images_now image)) }
        ensures unused { IfOk result (IsUnusedDisk [] self.now.made.capacity.calls self.now.made.capacity.blocks) }
    {
        let bytes = self.filled(alloc, fill)?;
        MemDisk::from_bytes(alloc, bytes, self.made.capacity(), Vec::new(alloc))
    }

    /// The bytes of that image.
    fn filled(&self, alloc: Global, fill: Fill) -> Result<Vec<u8>, AllocError>
        ensures length { IfOk result (λ bytes. length bytes.items ≡ length self.now.bytes.items) }
        ensures image { IfOk result (λ bytes. images_of self.now (contents_of bytes.items)) }
        ensures fill { IfOk result (λ bytes. HasFill fill (contents_of self.now.bytes.items) self.now.made
            (length self.now.bytes.items) (contents_of bytes.items)) }
    {
        let mut bytes = Vec::with_capacity(alloc, self.bytes.len())?;
        bytes.extend_from_slice(&self.bytes)?;
        self.made.leave(&mut bytes, fill);
        Ok(bytes)
    }

    /// The bytes that a read of all blocks returns.
    pub fn into_bytes(self) -> Vec<u8>
        ensures length { length result.items ≡ 4096 * ⟦<MemDisk as Disk>⟧.size self }
        ensures bytes { (k : ℕ) → slice_index result.items k ≡ ⟦<MemDisk as Disk>⟧.contents self k }
    {
        let MemDisk { bytes, .. } = self;
        bytes
    }

    /// The number of calls that were made, up to the greatest that a u64 holds.
    pub fn calls(&self) -> u64
        ensures { result ≡ min (⟦<MemDisk as Disk>⟧.calls self.now) (2 ^ 64 - 1) }
    {
        self.made.count()
    }

    /// The number of calls that failed.
    pub fn faults(&self) -> u64
        ensures { result ≡ ⟦<MemDisk as Disk>⟧.faults self.now }
    {
        self.faults
    }

    /// Whether the number of the next call is in the list.
    fn fails_now(&self) -> bool
        ensures { result ≡ is_listed self.now }
    {
        self.failing.contains(&(self.made.recorded() as u64))
    }

    /// Takes a write of `count` bytes at block `first` into the record, before they replace what is there. An `Err` means that the
    /// write fails; then its blocks are unsynced.
    fn begin_write(&mut self, first: u64, count: usize) -> Result<(), Failed>
        requires { IsBlockRange (length self.old.bytes.items / 4096) first count }
        ensures bytes { self.new.bytes.items ≡ self.old.bytes.items }
        ensures calls { Counted (call_count self.old.made) (call_count self.new.made) }
        ensures cause { HasCause self.old.faults self.new.faults result }
        ensures fails { FailsAsListed count self.old self.new (IsErr result) }
        ensures recorded { OnOk result (RecordsWrite (4096 * first) count self.old self.new) }
        ensures images { OnErr result (Tears (4096 * first) count (images_of self.old) (images_of self.new)) }
        ensures time { OnErr result
            (Elapses (call_count self.old.made) (since_of self.old) (since_of self.new) (images_of self.new)) }
    {
        let at = BLOCK * first as usize;
        let fails = self.fails_now();
        let call = Call::Wrote(at, count);
        if !self.made.note(call, &self.bytes[at..at + count]) {
            self.made.tear(first as usize, count / BLOCK);
            return Err(fault(&mut self.faults));
        }
        if fails {
            return Err(fault(&mut self.faults));
        }
        Ok(())
    }
}

/// Counts a fault.
pub(crate) fn fault(faults: &mut u64) -> Failed
    ensures { Counted faults.old faults.new }
{
    *faults = faults.saturating_add(1);
    Failed
}

/// Writes `bytes` at the address `at`.
fn overwrite(file: &mut Vec<u8>, at: usize, bytes: &[u8])
    requires { at + length bytes.now ≤ length file.old.items }
    ensures length { length file.new.items ≡ length file.old.items }
    ensures written { Has (contents_of file.new.items) at bytes.now }
    ensures elsewhere { SameBut at (length bytes.now) (contents_of file.old.items) (contents_of file.new.items) }
    ensures are_bytes { AreBytes (contents_of file.new.items) }
{
    file[at..at + bytes.len()].copy_from_slice(bytes);
}

/// Writes the parts at the address `at`, one after the other.
fn overwrite_parts(file: &mut Vec<u8>, at: usize, parts: &[Vec<u8>])
    requires { at + length (flat_map (λ p. p.items) parts.now) ≤ length file.old.items }
    ensures length { length file.new.items ≡ length file.old.items }
    ensures written { Has (contents_of file.new.items) at (flat_map (λ p. p.items) parts.now) }
    ensures elsewhere { SameBut at (length (flat_map (λ p. p.items) parts.now)) (contents_of file.old.items) (contents_of file.new.items) }
    ensures are_bytes { AreBytes (contents_of file.new.items) }
{
    let mut place = at;
    for part in parts {
        overwrite(file, place, part);
        place += part.len();
    }
}

/// Writes the blocks at the address `at`, where it makes them.
fn overwrite_blocks<B: Blocks>(file: &mut Vec<u8>, at: usize, rest: &B)
    requires { at + length (B.bytes rest.now) ≤ length file.old.items }
    ensures length { length file.new.items ≡ length file.old.items }
    ensures written { Has (contents_of file.new.items) at (B.bytes rest.now) }
    ensures elsewhere { SameBut at (length (B.bytes rest.now)) (contents_of file.old.items) (contents_of file.new.items) }
    ensures are_bytes { AreBytes (contents_of file.new.items) }
{
    let end = at + BLOCK * rest.blocks();
    rest.fill(0, &mut file[at..end]);
}

impl Disk for MemDisk {
    ghost use Rattle.std.specs.Prelude.{◌≡◌, ◌*◌, ◌/◌, ◌%◌, ◌++◌, length, refl, IsErr, OnOk, OnErr};
    ghost use Rattle.btr_disk.specs.Bytes.{IsBlockRange, Same};
    ghost use Rattle.btr_disk.specs.Images.{Only, SameImages};
    ghost use Rattle.btr_disk.specs.Moments.{Elapses};
    ghost use Rattle.btr_disk.specs.Calls.{ReadsBytes, WritesBytes};
    ghost use Rattle.btr_disk.specs.Causes.{Counted, HasCause};
    ghost use Rattle.btr_disk.specs.CallRecord.{newest_first};
    ghost use Rattle.btr_disk.specs.Memory.{memory_calls, memory_contents, images_of, since_of, FailsAsListed};
    ghost use Rattle.btr_disk.specs.RecordLaws.{counts_now_of, only_now_of, fewer_later_of};

    ghost is_observable = { Unit {0} };

    ghost size = { λ disk. length disk.bytes.items / 4096 };

    ghost contents = { λ disk. memory_contents disk };

    ghost images_now = { λ disk. images_of disk };

    ghost images_since = { λ disk. since_of disk };

    ghost calls = { λ disk. memory_calls disk };

    ghost faults = { λ disk. disk.faults };

    ghost image_bytes = { λ _ disk c left. left.bytes };

    ghost reads_as_image = { λ _ disk. record { bytes = disk.are_bytes; synced = λ k no whole. refl } };

    ghost counts_now = { λ _ disk t c le left. counts_now_of (memory_contents disk) disk.made t c left };

    ghost only_now = { λ _ disk c left. only_now_of (memory_contents disk) disk.made c left };

    ghost fewer_later = { λ _ disk s t c earlier le left. fewer_later_of (memory_contents disk) disk.made s t c earlier left };

    fn blocks(&self) -> u64 {
        (self.bytes.len() / BLOCK) as u64
    }

    /// The clauses of the trait, and one more: which calls fail, and that this list and the capacity stay.
    fn read(&mut self, first: u64, buf: &mut [u8]) -> Result<(), Failed>
        requires { IsBlockRange (length self.old.bytes.items / 4096) first (length buf.old) }
        ensures size { length self.new.bytes.items / 4096 ≡ length self.old.bytes.items / 4096 }
        ensures calls { Counted (memory_calls self.old) (memory_calls self.new) }
        ensures cause { HasCause self.old.faults self.new.faults result }
        ensures fails { FailsAsListed 0 self.old self.new (IsErr result) }
        ensures reads { ReadsBytes memory_calls memory_contents images_of since_of (4096 * first) buf.new self.old self.new result }
    {
        let at = BLOCK * first as usize;
        let fails = self.fails_now();
        if !self.made.note(Call::Nothing, &[]) {
            return Err(fault(&mut self.faults));
        }
        if fails {
            return Err(fault(&mut self.faults));
        }
        buf.copy_from_slice(&self.bytes[at..at + buf.len()]);
        Ok(())
    }

    /// The clauses of the trait, and one more: which calls fail, and that this list and the capacity stay.
    fn write(&mut self, first: u64, bytes: &[u8]) -> Result<(), Failed>
        requires { IsBlockRange (length self.old.bytes.items / 4096) first (length bytes.now) }
        ensures size { length self.new.bytes.items / 4096 ≡ length self.old.bytes.items / 4096 }
        ensures calls { Counted (memory_calls self.old) (memory_calls self.new) }
        ensures cause { HasCause self.old.faults self.new.faults result }
        ensures fails { FailsAsListed (length bytes.now) self.old self.new (IsErr result) }
        ensures writes { WritesBytes memory_calls memory_contents images_of since_of (4096 * first) bytes.now self.old self.new result }
    {
        self.begin_write(first, bytes.len())?;
        overwrite(&mut self.bytes, BLOCK * first as usize, bytes);
        Ok(())
    }

    /// The clauses of the trait, and one more: which calls fail, and that this list and the capacity stay.
    fn write_parts<S: BlockSource>(
        &mut self,
        first: u64,
        prefix: &Parts,
        rest: &S,
    ) -> Result<(), Failed>
        requires able { S.can_work }
        requires range { IsBlockRange (length self.old.bytes.items / 4096) first (length (prefix.now ++ S.bytes rest.now)) }
        ensures size { length self.new.bytes.items / 4096 ≡ length self.old.bytes.items / 4096 }
        ensures calls { Counted (memory_calls self.old) (memory_calls self.new) }
        ensures cause { HasCause self.old.faults self.new.faults result }
        ensures fails { FailsAsListed (length (prefix.now ++ S.bytes rest.now)) self.old self.new (IsErr result) }
        ensures writes { WritesBytes memory_calls memory_contents images_of since_of
            (4096 * first) (prefix.now ++ S.bytes rest.now) self.old self.new result }
    {
        let at = BLOCK * first as usize;
        self.begin_write(first, prefix.len() + BLOCK * rest.blocks())?;
        overwrite_parts(&mut self.bytes, at, prefix.as_slices());
        overwrite_blocks(&mut self.bytes, at + prefix.len(), rest);
        Ok(())
    }

    /// The clauses of the trait, and one more: which calls fail, and that this list and the capacity stay.
    fn sync(&mut self) -> Result<(), Failed>
        ensures size { length self.new.bytes.items / 4096 ≡ length self.old.bytes.items / 4096 }
        ensures calls { Counted (memory_calls self.old) (memory_calls self.new) }
        ensures cause { HasCause self.old.faults self.new.faults result }
        ensures fails { FailsAsListed 0 self.old self.new (IsErr result) }
        ensures contents { Same (memory_contents self.old) (memory_contents self.new) }
        ensures synced { OnOk result (Only (memory_contents self.new) (images_of self.new)) }
        ensures unsynced { OnErr result (SameImages (images_of self.old) (images_of self.new)) }
        ensures time { Elapses (memory_calls self.old) (since_of self.old) (since_of self.new) (images_of self.new) }
    {
        if self.fails_now() {
            self.made.note(Call::Nothing, &[]);
            return Err(fault(&mut self.faults));
        }
        if !self.made.note(Call::Synced, &[]) {
            return Err(fault(&mut self.faults));
        }
        Ok(())
    }
}
