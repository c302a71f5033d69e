//! What an opening has read so far, and the reading of the body of one extent more.
ghost use Rattle.std.specs.Prelude.{◌≡◌, ◌≢◌, ◌+◌, ◌-◌, ◌^◌, ◌<◌, ◌≤◌, IfOk, IfSome, IfNone, List, []};
ghost use Rattle.btr_log.specs.Extents.{IsBody, need};
ghost use Rattle.btr_tree.specs.Root.{TreeValue};
ghost use Rattle.btr_streams.specs.Board.{HasPast, IsBoardOf};
ghost use Rattle.btr_streams.specs.Stage.{HasRoomFor};
ghost use Rattle.btr_open.specs.Content.{node_blocks_of};
ghost use Rattle.btr_open.specs.Loading.{AddsTree, HasNothingNext, BreaksEntry, BreaksNext, HasAdded, HasJudged, HasMarked, IsNextEntry};
ghost use Rattle.btr_open.specs.Loading.{IsTreeOfRoot};
ghost use Rattle.btr_open.specs.Reading.{WasReadTo};

use crate::checkpoint::is_checkpoint;
use crate::decoding::decode_extent;
use crate::judge::Judge;
use crate::roots::wrong_root;
use btr_disk::BLOCK;
use btr_engine::Board;
use btr_entry::format_of;
use btr_hist::Entry;
use btr_log::{Head, blocks_of_content};
use btr_pages::Trees;
use btr_tree::{Label, Steps};
use std::alloc::{AllocError, Global};

/// The label of the counter of the nodes that an opening makes.
pub(crate) struct OpenWalk;

impl Label for OpenWalk {}

/// What was read of a log: the board of its entries, and the trees of its pages.
#[derive(Drop)]
pub(crate) struct Loader {
    pub(crate) board: Board,
    pub(crate) nodes: Trees,
    pub(crate) steps: Steps<OpenWalk>,

    /// The least format that a checkpoint may have: the greatest format of an entry that was read, or 1 if there is none.
    pub(crate) least: u32,
}

impl Loader {
    /// Nothing was read. It takes no memory.
    pub(crate) fn empty(alloc: Global) -> Loader
        ensures board { IsBoardOf [] result.board }
        ensures nodes { result.nodes ≡ [] }
        ensures least { result.least ≡ 1 }
    {
        Loader {
            board: Board::empty(),
            nodes: Trees::new(alloc),
            steps: Steps::new(),
            least: 1,
        }
    }

    /// Tests the body of a checkpoint after the gate at this block. If it is that of a checkpoint of what was read, the judge marks it;
    /// else its first block is returned. An `Err` is out of memory.
    pub(crate) fn pass<J: Judge>(
        &self,
        alloc: Global,
        judge: &mut J,
        head: &Head,
        body: &[u8],
        gate: u64,
    ) -> Result<Option<u64>, AllocError>
        requires body { IsBody body.now head.now }
        requires kind { head.now.kind ≡ 2 }
        requires few { self.now.board.entries < 2 ^ 64 - 1 }
        requires room { gate + need body.now < 2 ^ 33 }
        ensures marked { IfOk result (λ o. IfNone o (HasMarked ⟦<J as Judge>⟧ gate body.now self.now judge.old judge.new)) }
        ensures damaged { IfOk result (λ o. IfSome o (HasNothingNext gate body.now self.now)) }
    {
        if is_checkpoint(alloc, &self.board, self.least, head, body)? {
            let next = gate + head.n + 1;
            judge.mark(alloc, gate, next)?;
            Ok(None)
        } else {
            Ok(Some(gate + 1))
        }
    }

    /// Adds the entry and the pages of the body after the gate at this block, which is not that of a checkpoint. Returns the first
    /// block of the body that breaks the format, if there is one; an entry that the judge does not let follow breaks it in the first
    /// block of its body. An `Err` is out of memory. After both the loader may have some of the pages.
    pub(crate) fn add<J: Judge>(
        &mut self,
        alloc: Global,
        judge: &mut J,
        head: &Head,
        body: &[u8],
        gate: u64,
    ) -> Result<Option<u64>, AllocError>
        requires body { IsBody body.now head.now }
        requires kind { head.now.kind ≢ 2 }
        requires few { self.old.board.entries < 2 ^ 64 - 1 }
        requires room { gate + need body.now < 2 ^ 33 }
        requires read { WasReadTo gate self.old }
        ensures added { IfOk result (λ o. IfNone o (HasJudged ⟦<J as Judge>⟧ gate body.now self.old self.new judge.old judge.new)) }
        ensures damaged { IfOk result (λ o. IfSome o
            (BreaksNext ⟦<J as Judge>⟧ gate body.now (node_blocks_of head.now body.now) head.now.root self.old judge.old)) }
    {
        let number = self.board.entries() + 1;
        let Some(entry) = decode_extent(alloc, body, head, number)? else {
            return Ok(Some(gate + 1));
        };
        if self.board.refusal(&entry).is_some() {
            return Ok(Some(gate + 1));
        }
        if judge.judge(alloc, &entry, head.root)? {
            self.add_entry(alloc, &entry, head, body, gate)
        } else {
            Ok(Some(gate + 1))
        }
    }

    /// Adds an entry that may follow, and the pages of its body. Returns the first block of the body that breaks the format, if there
    /// is one. An `Err` is out of memory.
    fn add_entry(
        &mut self,
        alloc: Global,
        entry: &Entry,
        head: &Head,
        body: &[u8],
        gate: u64,
    ) -> Result<Option<u64>, AllocError>
        requires body { IsBody body.now head.now }
        requires few { self.old.board.entries < 2 ^ 64 - 1 }
        requires room { gate + need body.now < 2 ^ 33 }
        requires next { IsNextEntry self.old entry.now head.now body.now }
        requires read { WasReadTo gate self.old }
        ensures added { IfOk result (λ o. IfNone o (HasAdded gate body.now entry.now head.now.root self.old self.new)) }
        ensures damaged { IfOk result (λ o. IfSome o
            (BreaksEntry gate body.now (node_blocks_of head.now body.now) entry.now head.now.root self.old)) }
    {
        let content = blocks_of_content(head.length);
        let first = gate + 1 + content;
        let pages = node_blocks(head, body);
        let wrong = wrong_root(self, entry, head.root, gate, first, pages);
        if let Some(block) = wrong {
            return Ok(Some(block));
        }
        let damaged = self.nodes.add_blocks(alloc, first, pages, &mut self.steps)?;
        if let Some(block) = damaged {
            return Ok(Some(block));
        }
        self.add_tree(alloc, entry, head.root)?;
        Ok(None)
    }

    /// Adds an entry that may follow and whose pages were added. Its version has the tree of this root.
    fn add_tree(&mut self, alloc: Global, entry: &Entry, root: u64) -> Result<(), AllocError>
        requires few { self.old.board.entries < 2 ^ 64 - 1 }
        requires may { HasRoomFor self.old.board entry.now }
        requires past { (t : TreeValue) → IsTreeOfRoot self.old.nodes root t → HasPast t }
        ensures { IfOk result (λ u. AddsTree self.old entry.now root self.new) }
    {
        let tree = self.nodes.tree(root)?;
        let staged = self.board.stage_read(alloc, entry, tree)?;
        self.board.accept(staged);
        self.least = self.least.max(format_of(entry));
        Ok(())
    }
}

/// The node blocks of a body, after its content.
pub(crate) fn node_blocks<'a>(head: &Head, body: &'a [u8]) -> &'a [u8]
    requires body { IsBody body.now head.now }
    ensures { result.now ≡ node_blocks_of head.now body.now }
{
    &body[blocks_of_content(head.length) as usize * BLOCK..]
}
