//! Blocks that are made when they are wanted, and where several threads may write them.
ghost use Rattle.std.specs.Prelude.{◌≡◌, ◌*◌, ◌+◌, ◌%◌, ◌^◌, ◌<◌, ◌≤◌, ℕ, List, length, take, drop, IsTrue, IsFalse};
ghost use Rattle.btr_disk.specs.Put.{HasBlocks, HasBlocksFrom};

use std::marker::Sync;

/// Where a source has its blocks written, after a prefix that the sink has itself. Several threads may call it at once.
pub trait BlockSink {
    /// The number of blocks that it has room for after its prefix.
    ghost room: { Self → ℕ };

    /// The length of its prefix in bytes.
    ghost prefix_size: { Self → ℕ };

    /// What has come about once its prefix is written.
    ghost has_prefix: { Self → Type 0 };

    /// What has come about once the block of this number, of those after the prefix, is written with these bytes.
    ghost has_block: { Self → ℕ → List ℕ → Type 0 };

    /// What has come about once a call of it has returned false.
    ghost has_failed: { Self → Type 0 };

    /// The length of the prefix in bytes, in constant time. Threads that share the work go by it.
    fn prefix_len(&self) -> usize
        ensures { result ≡ prefix_size self.now };

    /// Writes the prefix, and returns whether it was written.
    fn put_prefix(&self) -> bool
        ensures written { IsTrue result → has_prefix self.now }
        ensures failed { IsFalse result → has_failed self.now };

    /// Writes whole blocks, the first of which has the number `first`, and returns whether they were written. It takes no memory.
    fn put(&self, first: usize, blocks: &[u8]) -> bool
        requires whole { length blocks.now % 4096 ≡ 0 }
        requires room { 4096 * first + length blocks.now ≤ 4096 * room self.now }
        ensures written { IsTrue result → HasBlocksFrom (has_block self.now) first blocks.now }
        ensures failed { IsFalse result → has_failed self.now };
}

/// Whole blocks that are made when they are wanted.
pub trait Blocks {
    /// The bytes of the blocks.
    ghost bytes: { Self → List ℕ };

    /// The number of blocks, in constant time.
    fn blocks(&self) -> usize
        ensures whole { length (bytes self.now) ≡ 4096 * result }
        ensures few { result < 2 ^ 63 };

    /// Fills `to`, which is whole blocks, with the bytes from block `first` on. It takes no memory.
    fn fill(&self, first: usize, to: &mut [u8])
        requires whole { length to.old % 4096 ≡ 0 }
        requires inside { 4096 * first + length to.old ≤ length (bytes self.now) }
        ensures { to.new ≡ take (length to.old) (drop (4096 * first) (bytes self.now)) };
}

/// Blocks, and who has them written: the calling thread, or several threads.
pub trait BlockSource: Blocks {
    /// What its threads need.
    ghost can_work: { Type 0 };

    /// Has the sink write its prefix and each of the blocks, and returns whether all of it was written. It returns false only if a call
    /// of the sink did.
    fn write_to(&self, sink: &(dyn BlockSink + Sync)) -> bool
        requires able { can_work }
        requires room { length (Self.bytes self.now) ≤ 4096 * room sink.now }
        ensures prefix { IsTrue result → has_prefix sink.now }
        ensures blocks { IsTrue result → HasBlocks (has_block sink.now) (Self.bytes self.now) }
        ensures failed { IsFalse result → has_failed sink.now };
}

/// A source of no blocks. The calling thread has the prefix written.
#[derive(Drop)]
pub struct NoBlocks;

impl Blocks for NoBlocks {
    ghost use Rattle.std.specs.Prelude.{[]};

    ghost bytes = { λ _. [] };

    fn blocks(&self) -> usize {
        0
    }

    fn fill(&self, _first: usize, _to: &mut [u8]) {}
}

impl BlockSource for NoBlocks {
    ghost use Rattle.std.specs.Prelude.{⊤};

    ghost can_work = { ⊤ };

    fn write_to(&self, sink: &(dyn BlockSink + Sync)) -> bool {
        sink.put_prefix()
    }
}
