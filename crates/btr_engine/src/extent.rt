//! The bytes of the extent of an entry, and of that of a checkpoint.
ghost use Rattle.std.specs.Prelude.{◌≡◌, ◌+◌, ◌*◌, ◌^◌, ◌<◌, ◌≤◌, true, ◌++◌, length, IfOk, OnOk};
ghost use Rattle.std.specs.List.{flat_map};
ghost use Rattle.btr_disk.specs.Gate.{zeros};
ghost use Rattle.btr_log.specs.Head.{content_blocks, head_bytes, IsHead};
ghost use Rattle.btr_log.specs.Append.{IsAppendRun};
ghost use Rattle.btr_node.specs.Page.{page_bytes};
ghost use Rattle.btr_pages.specs.Pages.{pages_of};
ghost use Rattle.btr_entry.specs.Grammar.{spelling, IsSpelled, IsWithinBounds};
ghost use Rattle.btr_roll.specs.Roll.{IsRollWithinBounds};
ghost use Rattle.btr_engine.specs.Body.{padding, extent_bytes};
ghost use Rattle.btr_engine.specs.Streamed.{streamed_bytes};
ghost use Rattle.btr_engine.specs.Mark.{body_of_roll};
ghost use Rattle.btr_engine.specs.Travel.{MakesExtent};

use crate::maker::Maker;
use crate::streamed::fill_blocks;
use btr_disk::{BLOCK, Parts};
use btr_entry::{append_before_points, append_entry, format_of, spelling_length};
use btr_hist::Entry;
use btr_log::{HEAD_BYTES, Head, blocks_of_content};
use btr_roll::{Roll, encode_roll};
use btr_streams::Staged;
use btr_tree::NewNode;
use std::alloc::{AllocError, Global};

/// The least number of nodes whose pages several threads stream.
const LEAST_NODES: usize = 512;

/// The least number of nodes whose pages one thread streams. The memory for fewer is often at hand, left from an extent before.
const LEAST_NODES_ALONE: usize = 4096;

/// The most nodes whose pages are streamed: more than a device has blocks.
const MOST_NODES: usize = 1 << 40;

/// What is made of an extent before it is written.
#[derive(Drop)]
pub(crate) struct Extent {
    /// The bytes, up to those that are made while they are written.
    pub(crate) prefix: Parts,

    /// Whether the pages, and the block of zeros after them, are made while they are written.
    pub(crate) is_streamed: bool,
}

/// Returns the body of an entry that was staged, followed by one block of zeros: with the number of its receipt, its root, and the pages of
/// its nodes. It takes time linear in the entry and the nodes, and memory for what it returns alone. If there are many nodes, it makes what
/// stands before the pages in the parts of `maker`, and leaves the pages and the block of zeros for later.
pub(crate) fn encode_extent<M: Maker>(
    maker: &M,
    alloc: Global,
    entry: &Entry,
    staged: &Staged,
) -> Result<Extent, AllocError>
    requires able { M.can_make }
    requires bounds { IsWithinBounds entry.now }
    requires number { 1 ≤ staged.now.receipt.number }
    ensures bytes { IfOk result (λ x. MakesExtent staged.now entry.now x.prefix x.is_streamed) }
    ensures few { IfOk result (λ x. x.is_streamed ≡ true → length staged.now.nodes.items < 2 ^ 62) }
    ensures spelled { OnOk result (IsSpelled entry.now) }
    ensures low { OnOk result (staged.now.root < 2 ^ 64) }
    ensures room { OnOk result (content_blocks (length (spelling entry.now)) + length staged.now.nodes.items < 2 ^ 64) }
{
    let receipt = staged.receipt;
    let nodes = &staged.nodes;
    let head = Head::for_entry(
        format_of(entry),
        receipt.number,
        spelling_length(entry),
        nodes.len() as u64,
        staged.root,
    );
    if nodes.len() < least_nodes(maker) || nodes.len() > MOST_NODES {
        let prefix = in_one_part(alloc, &head, entry, receipt.stream, nodes)?;
        return Ok(Extent {
            prefix,
            is_streamed: false,
        });
    }
    let prefix = before_pages(maker, alloc, &head, entry)?;
    Ok(Extent {
        prefix,
        is_streamed: true,
    })
}

/// The least number of nodes whose pages are streamed.
fn least_nodes<M: Maker>(maker: &M) -> usize {
    if maker.threads() < 2 {
        LEAST_NODES_ALONE
    } else {
        LEAST_NODES
    }
}

/// Returns a head, the spelling of an entry, zeros up to the end of its last block, the pages of nodes, and one block of zeros, in one
/// part.
fn in_one_part(
    alloc: Global,
    head: &Head,
    entry: &Entry,
    stream: u32,
    nodes: &[NewNode],
) -> Result<Parts, AllocError>
    requires head { IsHead head.now }
    requires bounds { IsWithinBounds entry.now }
    ensures bytes { IfOk result (λ p. p ≡ extent_bytes head.now (spelling entry.now) (pages_of stream nodes.now)) }
    ensures spelled { OnOk result (IsSpelled entry.now) }
{
    let mut extent = Vec::with_capacity(alloc, bytes_of(head.n)?)?;
    put_head(&mut extent, head)?;
    append_entry(&mut extent, entry)?;
    fill_up(&mut extent, spelling_length(entry))?;
    put_pages(&mut extent, stream, nodes)?;
    Parts::of(alloc, extent)
}

/// Returns a head, the spelling of an entry, and zeros up to the end of its last block, in parts that `maker` makes.
fn before_pages<M: Maker>(
    maker: &M,
    alloc: Global,
    head: &Head,
    entry: &Entry,
) -> Result<Parts, AllocError>
    requires able { M.can_make }
    requires head { IsHead head.now }
    requires bounds { IsWithinBounds entry.now }
    ensures bytes { IfOk result (λ p. p ≡ head_bytes head.now ++ (spelling entry.now ++ zeros (padding (length (spelling entry.now))))) }
    ensures spelled { OnOk result (IsSpelled entry.now) }
{
    let mut prefix = Vec::new(alloc);
    put_head(&mut prefix, head)?;
    let points = append_before_points(&mut prefix, entry)?;
    let mut extent = Parts::of(alloc, prefix)?;
    extent.append(maker.points(alloc, points)?)?;
    extent.push(zeros_after(alloc, spelling_length(entry))?)?;
    Ok(extent)
}

/// Returns the body, in this format, of a checkpoint with these streams after this number of entries, followed by one block of zeros, in
/// one part. It takes time linear in the streams and versions, and memory for the content beside what it returns.
pub(crate) fn encode_checkpoint(
    alloc: Global,
    format: u32,
    roll: &Roll,
    entries: u64,
) -> Result<Parts, AllocError>
    requires known { (1 ≤ format) × (format ≤ 4) }
    requires bounds { IsRollWithinBounds roll.now }
    ensures bytes { IfOk result (λ p. p ≡ body_of_roll format entries roll.now ++ zeros 4096) }
    ensures run { IfOk result (λ p. IsAppendRun p) }
{
    let content = encode_roll(alloc, format, roll)?;
    let head = Head::for_checkpoint(format, entries, content.len() as u64);
    let mut extent = Vec::with_capacity(alloc, bytes_of(head.n)?)?;
    put_head(&mut extent, &head)?;
    extent.extend_from_slice(&content)?;
    fill_up(&mut extent, content.len() as u64)?;
    extent.extend_from_slice(&[0; BLOCK])?;
    Parts::of(alloc, extent)
}

/// Returns the number of bytes of a body of this many blocks and of the block after it. An `Err` is that no memory has this many.
fn bytes_of(blocks: u64) -> Result<usize, AllocError>
    ensures { IfOk result (λ n. n ≡ 4096 * blocks + 4096) }
{
    let Some(length) = (blocks as usize).checked_mul(BLOCK) else {
        return Err(AllocError);
    };
    length.checked_add(BLOCK).ok_or(AllocError)
}

/// Appends a head. An `Err` is out of memory.
fn put_head(extent: &mut Vec<u8>, head: &Head) -> Result<(), AllocError>
    requires { IsHead head.now }
    ensures { OnOk result (extent.new.items ≡ extent.old.items ++ head_bytes head.now) }
{
    let mut bytes = [0; HEAD_BYTES];
    head.encode(&mut bytes);
    extent.extend_from_slice(&bytes)
}

/// Appends zeros to a head with a content of this length, up to the end of the last block of the content. An `Err` is out of memory.
fn fill_up(extent: &mut Vec<u8>, content: u64) -> Result<(), AllocError>
    requires long { length extent.old.items ≡ 64 + content }
    requires few { 4096 * content_blocks content < 2 ^ 64 }
    ensures { OnOk result (extent.new.items ≡ extent.old.items ++ zeros (padding content)) }
{
    extent.resize(blocks_of_content(content) as usize * BLOCK, 0)?;
    Ok(())
}

/// Returns the zeros that follow a content of this length, up to the end of its last block. An `Err` is out of memory.
fn zeros_after(alloc: Global, content: u64) -> Result<Vec<u8>, AllocError>
    requires { 4096 * content_blocks content < 2 ^ 64 }
    ensures { IfOk result (λ v. v.items ≡ zeros (padding content)) }
{
    let length = blocks_of_content(content) * BLOCK as u64 - HEAD_BYTES as u64 - content;
    let mut bytes = Vec::new(alloc);
    bytes.resize(length as usize, 0)?;
    Ok(bytes)
}

/// Appends the pages of nodes of a stream, one in each block, and one block of zeros. An `Err` is out of memory.
fn put_pages(extent: &mut Vec<u8>, stream: u32, nodes: &[NewNode]) -> Result<(), AllocError>
    ensures { OnOk result (extent.new.items ≡ extent.old.items ++ streamed_bytes true stream nodes.now) }
{
    let begin = extent.len();
    let Some(end) = begin.checked_add(bytes_of(nodes.len() as u64)?) else {
        return Err(AllocError);
    };
    extent.resize(end, 0)?;
    fill_blocks(&mut extent[begin..], nodes, stream, 0);
    Ok(())
}
