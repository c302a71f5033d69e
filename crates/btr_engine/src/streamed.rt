//! The blocks of an extent that are made while they are written.
ghost use Rattle.std.specs.Prelude.{◌≡◌, ◌+◌, ◌*◌, ◌%◌, ◌<◌, ◌^◌, ◌≤◌, ◌++◌, true, length, take, drop, option_map};
ghost use Rattle.btr_engine.specs.Streamed.{node_block, streamed_bytes};

use crate::maker::Maker;
use btr_disk::{BLOCK, BlockSink, BlockSource, Blocks};
use btr_pages::fill_page;
use btr_tree::NewNode;
use std::marker::Sync;

/// The pages of nodes of a stream, one in each block, and one block of zeros after them; or no blocks, if they were made before.
#[derive(Drop)]
pub struct StreamedPages<'a> {
    pub(crate) stream: u32,
    pub(crate) nodes: &'a [NewNode],
    pub(crate) is_streamed: bool,
    ghost few: { length nodes.now < 2 ^ 62 },
}

impl Blocks for StreamedPages<'_> {
    ghost use Rattle.btr_engine.specs.Streamed.{streamed_bytes};

    ghost bytes = { λ pages. streamed_bytes pages.is_streamed pages.stream pages.nodes.now };

    fn blocks(&self) -> usize {
        if self.is_streamed {
            self.nodes.len() + 1
        } else {
            0
        }
    }

    fn fill(&self, first: usize, to: &mut [u8]) {
        fill_blocks(to, self.nodes, self.stream, first);
    }
}

/// Fills `to`, which is whole blocks, with those from block `first` on of the pages of nodes of a stream, one in each block, and of one
/// block of zeros after them.
pub(crate) fn fill_blocks(to: &mut [u8], nodes: &[NewNode], stream: u32, first: usize)
    requires whole { length to.old % 4096 ≡ 0 }
    requires inside { 4096 * first + length to.old ≤ length (streamed_bytes true stream nodes.now) }
    requires few { length nodes.now < 2 ^ 62 }
    ensures { to.new ≡ take (length to.old) (drop (4096 * first) (streamed_bytes true stream nodes.now)) }
{
    for i in 0..to.len() / BLOCK {
        fill_first(&mut to[i * BLOCK..], nodes.get(first + i), stream);
    }
}

/// Fills the first block of `to` with the page of a node of a stream, or with zeros if there is none.
fn fill_first(to: &mut [u8], node: Option<&NewNode>, stream: u32)
    requires { 4096 ≤ length to.old }
    ensures { to.new ≡ node_block stream (option_map (λ n. n.now) node.entry) ++ drop 4096 to.old }
{
    if let Some(block) = to.first_chunk_mut::<BLOCK>() {
        fill_block(block, node, stream);
    }
}

/// Fills a block with the page of a node of a stream, or with zeros if there is none.
fn fill_block(to: &mut [u8; BLOCK], node: Option<&NewNode>, stream: u32)
    ensures { to.new ≡ node_block stream (option_map (λ n. n.now) node.entry) }
{
    match node {
        Some(node) => fill_page(to, node, stream),
        None => to.fill(0),
    }
}

/// Streamed pages, and who makes them.
#[derive(Drop)]
pub(crate) struct PageSource<'m, 'n, M> {
    pub(crate) maker: &'m M,
    pub(crate) pages: StreamedPages<'n>,
}

impl<M: Maker> Blocks for PageSource<'_, '_, M> {
    ghost use Rattle.btr_engine.specs.Streamed.{streamed_bytes};

    ghost bytes = { λ b. streamed_bytes b.pages.is_streamed b.pages.stream b.pages.nodes.now };

    fn blocks(&self) -> usize {
        self.pages.blocks()
    }

    fn fill(&self, first: usize, to: &mut [u8]) {
        self.pages.fill(first, to);
    }
}

/// The threads of the maker make the blocks.
impl<M: Maker> BlockSource for PageSource<'_, '_, M> {
    ghost can_work = { M.can_make };

    fn write_to(&self, sink: &(dyn BlockSink + Sync)) -> bool {
        self.maker.write_streamed(&self.pages, sink)
    }
}
