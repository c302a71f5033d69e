//! The table from blocks to the numbers of their trees.
ghost use Rattle.std.specs.Prelude.{◌≡◌, ℕ, ◌+◌, ◌<◌, IfOk, slice_index, vec_len};
ghost use Rattle.btr_pages.specs.Made.{table_number};

use std::alloc::AllocError;

/// The number of the tree of a block, counted from 1, or 0 for none.
pub(crate) fn number_of(table: &[u32], block: u64) -> usize
    ensures { result ≡ table_number table.now block }
{
    match table.get(block as usize) {
        None => 0,
        Some(number) => *number as usize,
    }
}

/// The number of the tree that follows `len` others. An `Err` means that the number has more than 32 bits, which counts as out of
/// memory.
pub(crate) fn next_number(len: usize) -> Result<u32, AllocError>
    ensures { IfOk result (λ n. n ≡ len + 1) }
{
    if len >= u32::MAX as usize {
        return Err(AllocError);
    }
    Ok(len as u32 + 1)
}

/// Makes the table long enough for a place. An `Err` is out of memory.
pub(crate) fn lengthen(table: &mut Vec<u32>, place: usize) -> Result<(), AllocError>
    ensures long { IfOk result (λ u. place < vec_len table.new) }
    ensures same { (k : ℕ) → slice_index table.new.items k ≡ slice_index table.old.items k }
{
    if place < table.len() {
        return Ok(());
    }
    if place == usize::MAX {
        return Err(AllocError);
    }
    table.resize(place + 1, 0)
}
