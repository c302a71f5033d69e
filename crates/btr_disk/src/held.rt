//! Blocks that are in memory, for tests.
ghost use Rattle.std.specs.Prelude.{◌≡◌, ◌%◌, length};

use crate::{BLOCK, BlockSink, BlockSource, Blocks, write_alone};
use std::marker::Sync;

/// A source of blocks that are in memory. The calling thread has them written.
#[derive(Drop)]
pub struct HeldBlocks<'a> {
    bytes: &'a [u8],
    ghost whole: { length bytes.now % 4096 ≡ 0 },
}

impl<'a> HeldBlocks<'a> {
    /// The blocks with these bytes, which are whole blocks. They are not copied.
    pub fn new(bytes: &'a [u8]) -> HeldBlocks<'a>
        requires { length bytes.now % 4096 ≡ 0 }
        ensures { ⟦<HeldBlocks<'a> as Blocks>⟧.bytes result ≡ bytes.now }
    {
        HeldBlocks { bytes }
    }
}

impl Blocks for HeldBlocks<'_> {
    ghost bytes = { λ held. held.bytes.now };

    fn blocks(&self) -> usize {
        self.bytes.len() / BLOCK
    }

    fn fill(&self, first: usize, to: &mut [u8]) {
        let at = first * BLOCK;
        to.copy_from_slice(&self.bytes[at..at + to.len()]);
    }
}

impl BlockSource for HeldBlocks<'_> {
    ghost use Rattle.std.specs.Prelude.{⊤};

    ghost can_work = { ⊤ };

    fn write_to(&self, sink: &(dyn BlockSink + Sync)) -> bool {
        write_alone(self, sink)
    }
}
