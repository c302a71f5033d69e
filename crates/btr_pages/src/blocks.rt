//! The pages that blocks are, one after another.
ghost use Rattle.std.specs.Prelude.{◌≡◌, ◌≢◌, ℕ, ◌+◌, ◌%◌, ◌/◌, ◌^◌, ◌<◌, ◌≤◌, length, take, drop};
ghost use Rattle.std.specs.Prelude.{true, false, Ok, Some, None, IsSome};
ghost use Rattle.btr_pages.specs.Blocks.{AllWereAdded, IsDamagedBlock};
ghost use Rattle.btr_pages.specs.Known.{node_at};
ghost use Rattle.btr_pages.specs.Made.{IsAddedPage, IsDamagedPage};

use crate::trees::Trees;
use btr_node::{PAGE, decode};
use btr_tree::Steps;
use std::alloc::{AllocError, Global};

impl Trees {
    /// Makes the trees of the pages that blocks are, one in each block from `first` on, and adds them. Returns the first block
    /// that is damaged, if there is one: no page, or a page that does not fit those before it, as [`Trees::add`] says. Then the
    /// pages of all blocks before it were added.
    ///
    /// All blocks are above those that have a tree. The cost is the blocks, and those between the highest one that had a tree and
    /// `first`. An `Err` is out of memory, and the pages of some of the blocks were added.
    pub fn add_blocks<L>(
        &mut self,
        alloc: Global,
        first: u64,
        bytes: &[u8],
        steps: &mut Steps<L>,
    ) -> Result<Option<u64>, AllocError>
        requires whole { length bytes.now % 4096 ≡ 0 }
        requires some { 1 ≤ first }
        requires room { first + length bytes.now / 4096 < 2 ^ 64 }
        requires above { (k : ℕ) → IsSome (node_at self.old k) → k < first }
        ensures added { result ≡ Ok None → AllWereAdded self.old self.new first bytes.now }
        ensures damaged { (block : ℕ) → result ≡ Ok (Some block) → IsDamagedBlock self.old self.new first bytes.now block }
        ensures above { (k : ℕ) → IsSome (node_at self.new k) → k < first + length bytes.now / 4096 }
    {
        for i in 0..bytes.len() / PAGE {
            let block = first + i as u64;
            if !self.add_block(alloc, block, block_at(bytes, PAGE * i), steps)? {
                return Ok(Some(block));
            }
        }
        Ok(None)
    }

    /// Makes the tree of the page that a block is, and adds it. Returns `false`, and adds nothing, exactly if the block is damaged.
    /// An `Err` is out of memory, and nothing was added.
    fn add_block<L>(
        &mut self,
        alloc: Global,
        block: u64,
        bytes: &[u8; PAGE],
        steps: &mut Steps<L>,
    ) -> Result<bool, AllocError>
        requires some { 1 ≤ block }
        requires above { (k : ℕ) → IsSome (node_at self.old k) → k < block }
        ensures added { result ≡ Ok true → IsAddedPage self.old self.new block bytes.now }
        ensures damaged { result ≡ Ok false → IsDamagedPage self.old block bytes.now }
        ensures kept { result ≢ Ok true → self.new ≡ self.old }
        ensures above { (k : ℕ) → IsSome (node_at self.new k) → k < block + 1 }
    {
        match &decode(bytes) {
            None => Ok(false),
            Some(page) => self.add(alloc, block, page, steps),
        }
    }
}

/// Returns the block of bytes from the index `at` on. It is not copied.
pub fn block_at(bytes: &[u8], at: usize) -> &[u8; PAGE]
    requires { at + 4096 ≤ length bytes.now }
    ensures { result.now ≡ take 4096 (drop at bytes.now) }
{
    match bytes[at..].first_chunk::<PAGE>() {
        Some(block) => block,
        None => unreachable!(),
    }
}
