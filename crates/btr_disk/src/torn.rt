//! The blocks of a device that writes tore which were counted alone.
ghost use Rattle.std.specs.Prelude.{◌≡◌, ◌+◌, ◌≤◌, ℕ, Some, true, slice_get, length, IfOk};
ghost use Rattle.btr_disk.specs.Torn.{Tore};

use crate::Fill;
use crate::image::fill_torn;
use std::alloc::{AllocError, Global};

/// A flag for each block of a device: whether a crash may leave any bytes there.
#[derive(Drop)]
pub(crate) struct TornBlocks {
    flags: Vec<bool>,
}

impl TornBlocks {
    ghost use Rattle.std.specs.Prelude.{◌*◌};
    ghost use Rattle.btr_disk.specs.Torn.{IsTornAt};
    ghost use Rattle.btr_disk.specs.Fill.{FillsWhere};

    /// No torn block, of `blocks` blocks.
    pub(crate) fn new(alloc: Global, blocks: usize) -> Result<TornBlocks, AllocError>
        ensures blocks { IfOk result (λ torn. length torn.flags.items ≡ blocks) }
        ensures none { IfOk result (λ torn. (k : ℕ) → slice_get torn.flags.items k ≡ Some true → ⊥) }
    {
        Ok(TornBlocks {
            flags: vec![in alloc; false; blocks]?,
        })
    }

    /// Marks `count` blocks from `first` on as torn.
    pub(crate) fn tear(&mut self, first: usize, count: usize)
        requires { first + count ≤ length self.old.flags.items }
        ensures { Tore first count self.old.flags.items self.new.flags.items }
    {
        self.flags[first..first + count].fill(true);
    }

    /// Fills the torn blocks.
    pub(crate) fn fill(&self, bytes: &mut [u8], fill: Fill)
        requires { length bytes.old ≡ 4096 * length self.now.flags.items }
        ensures { FillsWhere fill (IsTornAt self.now.flags.items) bytes.old bytes.new }
    {
        fill_torn(bytes, &self.flags, fill);
    }
}
