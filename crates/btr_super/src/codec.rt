//! The codec of a superblock's body: from superblock to block and back, and the table that it keeps.
ghost use Rattle.std.specs.Prelude.{◌≡◌, ◌↔◌, ◌≤◌, length, IsTrue, IfSome};
ghost use Rattle.btr_super.specs.declared.superblock.Super.{Super};
ghost use Rattle.btr_super.specs.Super.{super_bytes, seal_word, IsLogStart, IsSuper, FitsFields};

use crate::superblock::{
    FORMAT, LOG_START, MAX_BLOCKS, MIN_BLOCKS, SEALED_FORMAT, SUPER_MARK, Super,
};
use btr_disk::BLOCK;
use btr_disk::bytes::{put, u32_at, u64_at};

/// The body of a superblock.
pub(crate) fn encode(s: &Super) -> [u8; BLOCK]
    ensures { result ≡ super_bytes s.now }
{
    let mut block = [0; BLOCK];
    put(&mut block, 0, &SUPER_MARK);
    put(&mut block, 8, &s.format.to_be_bytes());
    put(&mut block, 16, &s.seq.to_be_bytes());
    put(&mut block, 24, &s.blocks.to_be_bytes());
    put(&mut block, 32, &s.tail.to_be_bytes());
    put(&mut block, 40, &s.checkpoint.to_be_bytes());
    put(&mut block, 48, &seal_word(s).to_be_bytes());
    block
}

/// The number in a superblock's body that says whether the store is sealed.
fn seal_word(s: &Super) -> u64
    ensures { result ≡ seal_word s.now }
{
    if s.is_sealed() { 1 } else { 0 }
}

/// The superblock of this side that a block spells. A superblock has one spelling, and a block that differs
/// from it spells none.
pub(crate) fn decode(block: &[u8], side: u8) -> Option<Super>
    requires { length block.now ≡ 4096 }
    ensures found { IfSome result (λ s. (s.side ≡ side) × (block.now ≡ super_bytes s)) }
    ensures only { (s : Super) → s.side ≡ side → FitsFields s → block.now ≡ super_bytes s → result ≡ Some s }
{
    let read = Super {
        seq: u64_at(block, 16),
        side,
        blocks: u64_at(block, 24),
        tail: u64_at(block, 32),
        checkpoint: u64_at(block, 40),
        format: u32_at(block, 8),
    };
    if block == encode(&read).as_slice() {
        Some(read)
    } else {
        None
    }
}

/// Whether a superblock keeps the table, on a device of `size` blocks.
pub(crate) fn keeps_table(s: &Super, size: u64) -> bool
    requires { s.now.side ≤ 1 }
    ensures { IsTrue result ↔ IsSuper size s.now }
{
    FORMAT <= s.format
        && s.format <= SEALED_FORMAT
        && MIN_BLOCKS <= s.blocks
        && s.blocks <= MAX_BLOCKS
        && s.blocks <= size
        && LOG_START <= s.tail
        && s.tail < s.blocks
        && is_start(s.checkpoint, s.tail)
        && 1 <= s.seq
        && s.seq <= s.tail - LOG_START + s.format as u64
}

/// Whether the log is read from its beginning, or from a gate after that of a checkpoint.
fn is_start(checkpoint: u64, tail: u64) -> bool
    ensures { IsTrue result ↔ IsLogStart checkpoint tail }
{
    (checkpoint == 0 && tail == LOG_START) || (LOG_START <= checkpoint && checkpoint < tail)
}
