//! The block of the first node that an entry writes, by the length of its content.
ghost use Rattle.std.specs.Prelude.{◌≡◌, ◌+◌, ◌*◌, ◌^◌, ◌≤◌, length};
ghost use Rattle.btr_log.specs.Head.{content_blocks};
ghost use Rattle.btr_engine.specs.Travel.{IsFirstNode};

use btr_base::{Bag, Ranges};
use btr_entry::reads_length;
use btr_hist::Entry;
use btr_log::blocks_of_content;

/// The most ranges, and the most points, of an entry that is not refused for their number.
const MOST_ITEMS: usize = 1 << 34;

/// Returns the block of the first node that an entry writes, if the gate before its extent is block `tail`. Of an entry that has too
/// many ranges or points it is some block, since such an entry is refused. It takes constant time and no memory.
pub(crate) fn first_node(tail: u64, entry: &Entry) -> u64
    requires tail { tail ≤ 2 ^ 32 }
    ensures block { IsFirstNode tail entry.now result }
    ensures low { (1 ≤ result) × (result ≤ 2 ^ 33) }
{
    match entry {
        Entry::Create { .. } | Entry::Define { .. } | Entry::Retire { .. } => tail + 1,
        Entry::Commit { cut, added, .. } => block_after(tail, 21 + items_length(cut, added)),
        Entry::Distillate {
            cut,
            added,
            reads,
            ..
        } => block_after(tail, 21 + reads_length(reads) + items_length(cut, added)),
    }
}

/// Returns the number of bytes of the ranges and of the points of an entry, of which it counts no more than the most of each.
fn items_length(cut: &Ranges, added: &Bag) -> u64
    ensures length { length cut.now ≤ 2 ^ 34 → length added.now ≤ 2 ^ 34
        → result ≡ 16 * (length cut.now + length added.now) }
    ensures few { result ≤ 2 ^ 39 }
{
    let ranges = cut.as_slice().len().min(MOST_ITEMS);
    let points = added.as_slice().len().min(MOST_ITEMS);
    16 * (ranges as u64 + points as u64)
}

/// Returns the first block after the gate `tail` and a content of this many bytes.
fn block_after(tail: u64, length: u64) -> u64
    requires tail { tail ≤ 2 ^ 32 }
    requires length { length ≤ 2 ^ 40 }
    ensures block { result ≡ tail + 1 + content_blocks length }
    ensures low { (1 ≤ result) × (result ≤ 2 ^ 33) }
{
    tail + 1 + blocks_of_content(length)
}
