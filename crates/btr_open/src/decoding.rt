//! The entry that the bytes of an extent hold.
ghost use Rattle.std.specs.Prelude.{◌≡◌, ◌≤◌, ◌↔◌, IfOk, IfSome, IfNone, IsTrue, EachIndex, slice_index};
ghost use Rattle.btr_log.specs.Extents.{IsBody};
ghost use Rattle.btr_open.specs.Content.{HasContent, HasNoContent, MayHaveNodes, node_blocks_of};

use btr_disk::BLOCK;
use btr_entry::{decode, format_of};
use btr_hist::Entry;
use btr_log::{HEAD_BYTES, Head, blocks_of_content};
use std::alloc::{AllocError, Global};

/// Returns the entry whose content with this number, at least 1, the bytes of a body begin with, or `None` if there is no such
/// entry. The node blocks of the body follow the content. The bytes begin with the head and are as many blocks as it says: this is
/// the caller's condition.
///
/// The bytes are the content of an entry only if the head has the entry's format, and no node blocks if it is a retirement, and all bytes
/// after its spelling, up to the end of the last block of the content, are zeros.
pub fn decode_extent(
    alloc: Global,
    body: &[u8],
    head: &Head,
    number: u64,
) -> Result<Option<Entry>, AllocError>
    requires body { IsBody body.now head.now }
    requires number { 1 ≤ number }
    ensures found { IfOk result (λ o. IfSome o (λ e. HasContent number e head.now.root (node_blocks_of head.now body.now) body.now)) }
    ensures none { IfOk result (λ o. IfNone o (HasNoContent number body.now)) }
{
    if !is_entry_head(head, number) {
        return Ok(None);
    }
    let end = HEAD_BYTES + head.length as usize;
    let stop = blocks_of_content(head.length) as usize * BLOCK;
    if !are_zeros(&body[end..stop]) {
        return Ok(None);
    }
    let Some(entry) = decode(alloc, &body[HEAD_BYTES..end])? else {
        return Ok(None);
    };
    if head.format != format_of(&entry) {
        return Ok(None);
    }
    if !may_have_nodes(&entry, head.nodes) {
        return Ok(None);
    }
    Ok(Some(entry))
}

/// Returns whether the extent of an entry may have this many node blocks. That of a retirement has none.
fn may_have_nodes(entry: &Entry, nodes: u64) -> bool
    ensures { IsTrue result ↔ MayHaveNodes entry.now nodes }
{
    match entry {
        Entry::Retire { .. } => nodes == 0,
        Entry::Create { .. } | Entry::Define { .. } => true,
        Entry::Commit { .. } | Entry::Distillate { .. } => true,
    }
}

/// Returns whether the head is one of an entry with this number, whatever its content, its node blocks and its root are.
fn is_entry_head(head: &Head, number: u64) -> bool
    ensures { IsTrue result ↔ ((head.now.kind ≡ 1) × (head.now.number ≡ number)) }
{
    head.kind == 1 && head.number == number
}

/// Returns whether each byte is 0.
pub(crate) fn are_zeros(bytes: &[u8]) -> bool
    ensures { IsTrue result ↔ EachIndex bytes.now (λ k. slice_index bytes.now k ≡ 0) }
{
    bytes.iter().all(|b| *b == 0)
}
