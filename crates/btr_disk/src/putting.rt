//! How a source has its blocks written: by the calling thread alone, or by several threads.
ghost use Rattle.std.specs.Prelude.{◌≡◌, ◌*◌, ◌+◌, ◌/◌, ◌%◌, ◌^◌, ◌<◌, ◌≤◌, ℕ, length, IsTrue, IsFalse};
ghost use Rattle.btr_disk.specs.Put.{HasBlocks, HasBlocksBetween, HasPortion};

use crate::{BLOCK, BlockSink, Blocks};
use std::cmp::min;
use std::marker::Sync;
use std::thread::{Threads, for_each_mut};

/// The number of blocks that a thread makes before it has them written.
const PIECE: usize = 32;

/// How many bytes of a prefix take about as long as a block: a prefix is only written, and a block is made too.
const BYTES_FOR_BLOCK: usize = 2 * BLOCK;

/// The greatest number of portions in which threads have the blocks of a source written.
const PORTIONS: usize = 64;

/// Has the sink write its prefix and each block of the source, by the calling thread. It takes no memory, and 128 KiB of the stack.
/// Returns whether all of it was written, and false only if a call of the sink returned false.
pub fn write_alone<B: Blocks>(source: &B, sink: &(dyn BlockSink + Sync)) -> bool
    requires room { length (B.bytes source.now) ≤ 4096 * room sink.now }
    ensures prefix { IsTrue result → has_prefix sink.now }
    ensures blocks { IsTrue result → HasBlocks (has_block sink.now) (B.bytes source.now) }
    ensures failed { IsFalse result → has_failed sink.now }
{
    sink.put_prefix() && put_part(source, 0, source.blocks(), sink)
}

/// Has the sink write its prefix and each block of the source, by at most `threads` threads at once, the calling one among them, or
/// by the calling one alone if there is no block. It takes no memory but what starts the threads, and 128 KiB of the stack of each.
/// Returns whether all of it was written, and false only if a call of the sink returned false.
pub fn write_by_threads<R: Threads + Sync, B: Blocks + Sync>(
    rt: &R,
    source: &B,
    threads: usize,
    sink: &(dyn BlockSink + Sync),
) -> bool
    requires room { length (B.bytes source.now) ≤ 4096 * room sink.now }
    ensures prefix { IsTrue result → has_prefix sink.now }
    ensures blocks { IsTrue result → HasBlocks (has_block sink.now) (B.bytes source.now) }
    ensures failed { IsFalse result → has_failed sink.now }
{
    let blocks = source.blocks();
    if blocks == 0 {
        return sink.put_prefix();
    }
    let weight = sink.prefix_len() / BYTES_FOR_BLOCK;
    let portions = min(threads, blocks).clamp(1, PORTIONS);
    let each = (weight + blocks).div_ceil(portions);
    let mut marks = [false; PORTIONS];
    mark_portions(rt, source, weight, each, &mut marks[..portions], sink)
}

/// Has as many portions of `each` blocks written as there are marks, each by a thread of its own. The prefix is in the first portion, and
/// counts for `weight` blocks before all others. Marks the portions that were written, and returns whether all of them were.
fn mark_portions<R: Threads + Sync, B: Blocks + Sync>(
    rt: &R,
    source: &B,
    weight: usize,
    each: usize,
    marks: &mut [bool],
    sink: &(dyn BlockSink + Sync),
) -> bool
    requires some { 0 < length marks.old }
    requires weight { weight < 2 ^ 63 }
    requires room { length (B.bytes source.now) ≤ 4096 * room sink.now }
    ensures prefix { IsTrue result → has_prefix sink.now }
    ensures portions { IsTrue result → (i : ℕ) → i < length marks.old
        → HasPortion (has_block sink.now) weight (each * i) (each * i + each) (B.bytes source.now) }
    ensures failed { IsFalse result → has_failed sink.now }
{
    let portion = move |i: usize, mark: &mut bool|
        requires { (weight < 2 ^ 63) × (length (B.bytes source.now) ≤ 4096 * room sink.now) }
        ensures prefix { IsTrue mark.exit.now → i ≡ 0 → has_prefix sink.entry.now }
        ensures blocks { IsTrue mark.exit.now
            → HasPortion (has_block sink.entry.now) weight (each * i) (each * i + each) (B.bytes source.entry.now) }
        ensures failed { IsFalse mark.exit.now → has_failed sink.entry.now }
    { *mark = write_portion(source, i, weight, each, sink) };
    for_each_mut(rt, marks, marks.len(), &portion);
    !marks.contains(&false)
}

/// Has a portion written by the calling thread: `each` blocks from number `each * i` on, or as many as there are, where the prefix counts
/// for `weight` blocks before all others. The prefix is in the first portion. Returns whether all of it was written.
fn write_portion<B: Blocks>(
    source: &B,
    i: usize,
    weight: usize,
    each: usize,
    sink: &(dyn BlockSink + Sync),
) -> bool
    requires weight { weight < 2 ^ 63 }
    requires room { length (B.bytes source.now) ≤ 4096 * room sink.now }
    ensures prefix { IsTrue result → i ≡ 0 → has_prefix sink.now }
    ensures blocks { IsTrue result → HasPortion (has_block sink.now) weight (each * i) (each * i + each) (B.bytes source.now) }
    ensures failed { IsFalse result → has_failed sink.now }
{
    if i == 0 && !sink.put_prefix() {
        return false;
    }
    let blocks = source.blocks();
    let first = each.saturating_mul(i);
    let end = first.saturating_add(each);
    let from = min(first.saturating_sub(weight), blocks);
    let to = min(end.saturating_sub(weight), blocks);
    put_part(source, from, to, sink)
}

/// Makes the blocks from number `from` on, below `to`, and has them written, [`PIECE`] at a time. Returns whether they were written.
fn put_part<B: Blocks>(source: &B, from: usize, to: usize, sink: &(dyn BlockSink + Sync)) -> bool
    requires order { from ≤ to }
    requires inside { 4096 * to ≤ length (B.bytes source.now) }
    requires room { length (B.bytes source.now) ≤ 4096 * room sink.now }
    ensures written { IsTrue result → HasBlocksBetween (has_block sink.now) from to (B.bytes source.now) }
    ensures failed { IsFalse result → has_failed sink.now }
{
    if from == to {
        return true;
    }
    let mut bytes = [0; PIECE * BLOCK];
    let mut at = from;
    while at < to {
        let count = min(PIECE, to - at);
        if !put_piece(source, at, &mut bytes[..count * BLOCK], sink) {
            return false;
        }
        at += count;
    }
    true
}

/// Makes the blocks from number `first` on in `piece`, as many as fill it, and has them written. Returns whether they were written.
fn put_piece<B: Blocks>(
    source: &B,
    first: usize,
    piece: &mut [u8],
    sink: &(dyn BlockSink + Sync),
) -> bool
    requires whole { length piece.old % 4096 ≡ 0 }
    requires inside { 4096 * first + length piece.old ≤ length (B.bytes source.now) }
    requires room { length (B.bytes source.now) ≤ 4096 * room sink.now }
    ensures written { IsTrue result → HasBlocksBetween (has_block sink.now) first (first + length piece.old / 4096) (B.bytes source.now) }
    ensures failed { IsFalse result → has_failed sink.now }
{
    source.fill(first, piece);
    sink.put(first, piece)
}
