//! The staging of an entry: the next board, if the entry may follow, and what the entry writes.
ghost use Rattle.std.specs.Prelude.{◌≡◌, ◌+◌, ◌-◌, ◌^◌, ◌<◌, ◌≤◌, List, [], ◌∷◌, ◌++◌, length, IfOk, IfErr, OnOk, Some, None};
ghost use Rattle.btr_base.specs.declared.limits.TheConstants.{MAX_POINTS};
ghost use Rattle.btr_hist.specs.declared.entry.Entry.{Entry as EntrySpec};
ghost use Rattle.btr_hist.specs.declared.entry.Entry.TheVariants as entry;
ghost use Rattle.btr_hist.specs.Legal.{version_rejection, rejection};
ghost use Rattle.btr_entry.specs.Grammar.{IsWithinBounds};
ghost use Rattle.btr_streams.specs.Board.{IsBoardOf, HasStreamsOf, HasPast};
ghost use Rattle.btr_streams.specs.Outline.{outline_of, refusal};
ghost use Rattle.btr_streams.specs.Stage.{PushCause, IsReceipt, IsStagedEntry, IsNumbered, IsNextBoard, IsNewVersion, IsBoardWith};
ghost use Rattle.btr_streams.specs.Stage.{change, change_in, HasRoomFor, IsTreeAfter, ReadsEntry};
ghost use Rattle.btr_streams.specs.Stage.{WritesCommit, WritesStream, WritesOn, WritesEntry};

use crate::board::{Board, PushFault, Receipt, Staged, Stream};
use crate::making::TreeMaker;
use crate::next_board::{NextBoard, without_nodes};
use crate::next_tree::next_tree;
use btr_base::{Bag, Ranges};
use btr_hist::{Entry, Reads, Rejection, Spec, change_rejection, distillate_change_rejection};
use btr_tree::{Tree, TreeCommit};
use std::alloc::{AllocError, Global};

/// What a version is made with: who makes its tree, the memory, and the block of its first node.
#[derive(Drop)]
struct Making<'a, M> {
    maker: &'a M,
    alloc: Global,
    first: u64,
}

/// A version that is to be made of a stream: the number of the stream and what is kept of it, the commit that makes the version, and the
/// versions that it has read, or none if the stream is plain.
#[derive(Drop)]
struct NewVersion<'a> {
    stream: usize,
    kept: &'a Stream,
    commit: TreeCommit<'a>,
    read: Option<Reads>,
}

impl Board {
    /// Makes the next board, with an entry more, if the entry may follow. This board stays as it is.
    ///
    /// All tests come before memory is taken, except those of the points that the stream would have. A new stream costs
    /// logarithmic time. A commit costs logarithmic time, and the nodes of the stream's tree that it touches: all other nodes
    /// are shared with the versions before. A retirement costs what [`Board::refusal`] costs of it.
    ///
    /// Of a distillate the stream and the reads are tested, and that its stream may have the points. That its cut and its points
    /// are those of the definition is not tested here: it follows for those that are planned.
    ///
    /// The nodes that the entry writes are for the blocks from `first` on. They are made by `maker`.
    pub fn stage<M: TreeMaker>(
        &self,
        maker: &M,
        alloc: Global,
        entry: &Entry,
        first: u64,
    ) -> Result<Staged, PushFault>
        requires able { M.can_make }
        requires few { self.now.entries < 2 ^ 64 - 1 }
        requires first { (1 ≤ first) × (first ≤ 2 ^ 33) }
        ensures staged { (h : List EntrySpec) → IsBoardOf h self.now → IfOk result (IsStagedEntry h entry.now) }
        ensures cause { (h : List EntrySpec) → IsBoardOf h self.now → IfErr result (PushCause (rejection h entry.now)) }
        ensures numbered { IfOk result (IsNumbered self.now) }
        ensures bounds { OnOk result (IsWithinBounds entry.now) }
        ensures writes { IfOk result (WritesEntry self.now entry.now first) }
    {
        let next = self.next_board(maker, alloc, entry, first)?;
        let receipt = receipt_of(self, entry);
        Ok(Staged {
            next: next.board,
            receipt,
            nodes: next.nodes,
            root: next.root,
        })
    }

    /// Makes the next board, with an entry more whose new version has this tree. An entry that makes no version does not take the
    /// tree. This board stays as it is.
    ///
    /// The caller has called [`Board::refusal`], which returned `None`: this call makes no test. The tree is not compared with the
    /// points. The staged entry has no nodes to write, since the tree is stored already, and the root is that of the tree.
    ///
    /// It costs logarithmic time. An `Err` is out of memory.
    pub fn stage_read(&self, alloc: Global, entry: &Entry, tree: Tree) -> Result<Staged, AllocError>
        requires few { self.now.entries < 2 ^ 64 - 1 }
        requires room { HasRoomFor self.now entry.now }
        requires past { HasPast tree }
        ensures streams { (h : List EntrySpec) → HasStreamsOf h self.now → refusal (outline_of h) entry.now ≡ None
            → IfOk result (λ s. HasStreamsOf (h ++ entry.now ∷ []) s.next) }
        ensures of { (h : List EntrySpec) → IsBoardOf h self.now → rejection h entry.now ≡ None → IsTreeAfter h entry.now tree
            → IfOk result (λ s. IsBoardOf (h ++ entry.now ∷ []) s.next) }
        ensures receipt { (h : List EntrySpec) → IsBoardOf h self.now → rejection h entry.now ≡ None
            → IfOk result (λ s. IsReceipt h entry.now s.receipt) }
        ensures numbered { IfOk result (IsNumbered self.now) }
        ensures kept { IfOk result (ReadsEntry self.now entry.now tree) }
    {
        let next = self.read_board(alloc, entry, tree)?;
        let receipt = receipt_of(self, entry);
        Ok(Staged {
            next: next.board,
            receipt,
            nodes: next.nodes,
            root: next.root,
        })
    }

    /// Makes the next board, with an entry more, if the entry may follow.
    fn next_board<M: TreeMaker>(
        &self,
        maker: &M,
        alloc: Global,
        entry: &Entry,
        first: u64,
    ) -> Result<NextBoard, PushFault>
        requires able { M.can_make }
        requires few { self.now.entries < 2 ^ 64 - 1 }
        requires first { (1 ≤ first) × (first ≤ 2 ^ 33) }
        ensures next { (h : List EntrySpec) → IsBoardOf h self.now → IfOk result (λ n. IsNextBoard h entry.now n.board) }
        ensures cause { (h : List EntrySpec) → IsBoardOf h self.now → IfErr result (PushCause (rejection h entry.now)) }
        ensures counted { IfOk result (λ n. n.board.entries ≡ self.now.entries + 1) }
        ensures bounds { OnOk result (IsWithinBounds entry.now) }
        ensures writes { IfOk result (λ n. WritesOn self.now entry.now first n.board n.nodes.items n.root) }
    {
        let with = Making {
            maker,
            alloc,
            first,
        };
        match entry {
            Entry::Create { id } => self.stage_stream(alloc, *id),
            Entry::Define { id, spec } => self.stage_output(alloc, *id, spec),
            Entry::Commit { stream, cut, added } => {
                self.stage_commit(&with, *stream, cut, added)
            }
            Entry::Distillate {
                stream,
                cut,
                added,
                reads,
            } => self.stage_distillate(&with, *stream, cut, added, reads),
            Entry::Retire { stream, first } => self.stage_retirement(alloc, *stream, *first),
        }
    }

    /// Makes the next board with a new plain stream, if the stream may follow.
    fn stage_stream(&self, alloc: Global, id: u128) -> Result<NextBoard, PushFault>
        requires few { self.now.entries < 2 ^ 64 - 1 }
        ensures next { (h : List EntrySpec) → IsBoardOf h self.now → IfOk result (λ n. IsNextBoard h (entry.Create id) n.board) }
        ensures cause { (h : List EntrySpec) → IsBoardOf h self.now → IfErr result (PushCause (rejection h (entry.Create id))) }
        ensures counted { IfOk result (λ n. n.board.entries ≡ self.now.entries + 1) }
        ensures writes { IfOk result (λ n. WritesStream self.now id None n.board n.nodes.items n.root) }
    {
        if let Some(why) = self.create_rejection(id) {
            return Err(PushFault::Rejected(why));
        }
        let board = self.with_stream(alloc, id, None)?;
        Ok(without_nodes(alloc, board))
    }

    /// Makes the next board with a new output, if the output may follow.
    fn stage_output(&self, alloc: Global, id: u128, spec: &Spec) -> Result<NextBoard, PushFault>
        requires few { self.now.entries < 2 ^ 64 - 1 }
        ensures next { (h : List EntrySpec) → IsBoardOf h self.now → IfOk result (λ n. IsNextBoard h (entry.Define id spec.now) n.board) }
        ensures cause { (h : List EntrySpec) → IsBoardOf h self.now → IfErr result (PushCause (rejection h (entry.Define id spec.now))) }
        ensures counted { IfOk result (λ n. n.board.entries ≡ self.now.entries + 1) }
        ensures bounds { OnOk result (IsWithinBounds (entry.Define id spec.now)) }
        ensures writes { IfOk result (λ n. WritesStream self.now id (Some spec.now) n.board n.nodes.items n.root) }
    {
        if let Some(why) = self.define_rejection(id, spec) {
            return Err(PushFault::Rejected(why));
        }
        let board = self.with_stream(alloc, id, Some(*spec))?;
        Ok(without_nodes(alloc, board))
    }

    /// Makes the next board with a user's commit, if the commit may follow.
    fn stage_commit<M: TreeMaker>(
        &self,
        with: &Making<'_, M>,
        stream: u32,
        cut: &Ranges,
        added: &Bag,
    ) -> Result<NextBoard, PushFault>
        requires able { M.can_make }
        requires few { self.now.entries < 2 ^ 64 - 1 }
        requires first { (1 ≤ with.now.first) × (with.now.first ≤ 2 ^ 33) }
        ensures next { (h : List EntrySpec) → IsBoardOf h self.now
            → IfOk result (λ n. IsNextBoard h (entry.Commit stream cut.now added.now) n.board) }
        ensures cause { (h : List EntrySpec) → IsBoardOf h self.now
            → IfErr result (PushCause (rejection h (entry.Commit stream cut.now added.now))) }
        ensures counted { IfOk result (λ n. n.board.entries ≡ self.now.entries + 1) }
        ensures bounds { OnOk result (IsWithinBounds (entry.Commit stream cut.now added.now)) }
        ensures writes { IfOk result (λ n. WritesOn self.now (entry.Commit stream cut.now added.now) with.now.first
            n.board n.nodes.items n.root) }
    {
        let place = stream as usize;
        let Some(kept) = self.streams.get(place) else {
            return Err(PushFault::Rejected(Rejection::NoStream));
        };
        if kept.spec.is_some() {
            return Err(PushFault::Rejected(Rejection::NotWritable));
        }
        if let Some(why) = change_rejection(cut, added) {
            return Err(PushFault::Rejected(why));
        }
        self.stage_version(
            with,
            &NewVersion {
                stream: place,
                kept,
                commit: next_commit(kept, cut, added, with.first),
                read: None,
            },
        )
    }

    /// Makes the next board with a distillate, if the distillate may follow, whatever the kernel is.
    fn stage_distillate<M: TreeMaker>(
        &self,
        with: &Making<'_, M>,
        stream: u32,
        cut: &Ranges,
        added: &Bag,
        reads: &Reads,
    ) -> Result<NextBoard, PushFault>
        requires able { M.can_make }
        requires few { self.now.entries < 2 ^ 64 - 1 }
        requires first { (1 ≤ with.now.first) × (with.now.first ≤ 2 ^ 33) }
        ensures next { (h : List EntrySpec) → IsBoardOf h self.now
            → IfOk result (λ n. IsNextBoard h (entry.Distillate stream cut.now added.now reads.now) n.board) }
        ensures cause { (h : List EntrySpec) → IsBoardOf h self.now
            → IfErr result (PushCause (rejection h (entry.Distillate stream cut.now added.now reads.now))) }
        ensures counted { IfOk result (λ n. n.board.entries ≡ self.now.entries + 1) }
        ensures bounds { OnOk result (IsWithinBounds (entry.Distillate stream cut.now added.now reads.now)) }
        ensures writes { IfOk result (λ n. WritesOn self.now (entry.Distillate stream cut.now added.now reads.now) with.now.first
            n.board n.nodes.items n.root) }
    {
        let place = stream as usize;
        let Some(kept) = self.streams.get(place) else {
            return Err(PushFault::Rejected(Rejection::NoStream));
        };
        if !self.takes_reads(kept, reads) {
            return Err(PushFault::Rejected(Rejection::NotWritable));
        }
        if let Some(why) = distillate_change_rejection(cut, added) {
            return Err(PushFault::Rejected(why));
        }
        self.stage_version(
            with,
            &NewVersion {
                stream: place,
                kept,
                commit: next_commit(kept, cut, added, with.first),
                read: Some(*reads),
            },
        )
    }

    /// Makes the next board with a version more of a stream, if the stream may have it. All tests that look at no points have passed but
    /// that of the number of versions.
    fn stage_version<M: TreeMaker>(
        &self,
        with: &Making<'_, M>,
        new: &NewVersion<'_>,
    ) -> Result<NextBoard, PushFault>
        requires able { M.can_make }
        requires few { self.now.entries < 2 ^ 64 - 1 }
        requires new { IsNewVersion self.now new.now }
        ensures next { (h : List EntrySpec) → IsBoardOf h self.now → IfOk result (λ n. IsBoardWith h new.now n.board) }
        ensures cause { (h : List EntrySpec) → IsBoardOf h self.now
            → IfErr result (PushCause (version_rejection h new.now.stream (change_in new.now.commit))) }
        ensures counted { IfOk result (λ n. n.board.entries ≡ self.now.entries + 1) }
        ensures points { OnOk result (length new.now.commit.added.now ≤ MAX_POINTS) }
        ensures writes { IfOk result (λ n. WritesCommit self.now new.now.commit.first new.now.stream (change_in new.now.commit)
            new.now.read n.board n.nodes.items n.root) }
    {
        let kept = new.kept;
        let next = next_tree(with.maker, with.alloc, &kept.trees, &new.commit)?;
        let board = self.with_version(with.alloc, new.stream, kept, next.tree, new.read)?;
        Ok(NextBoard {
            board,
            nodes: next.nodes,
            root: next.root,
        })
    }
}

/// Returns the commit of these ranges and points as a tree takes it: for the version after those of a stream, and with its first node for
/// this block.
fn next_commit<'a>(kept: &Stream, cut: &'a Ranges, added: &'a Bag, first: u64) -> TreeCommit<'a>
    ensures version { result.version ≡ length kept.now.trees }
    ensures first { result.first ≡ first }
    ensures change { change_in result ≡ change cut.now added.now }
{
    TreeCommit {
        cut,
        added,
        version: kept.trees.len() as u64,
        first,
    }
}

/// Returns the receipt of an entry that may follow the history of a board.
fn receipt_of(board: &Board, entry: &Entry) -> Receipt
    requires few { board.now.entries < 2 ^ 64 - 1 }
    ensures number { result.number ≡ board.now.entries + 1 }
    ensures of { (h : List EntrySpec) → IsBoardOf h board.now → rejection h entry.now ≡ None → IsReceipt h entry.now result }
{
    let number = board.entries() + 1;
    match entry {
        Entry::Create { .. } | Entry::Define { .. } => Receipt {
            number,
            stream: board.streams(),
            version: 0,
        },
        Entry::Commit { stream, .. } | Entry::Distillate { stream, .. } => Receipt {
            number,
            stream: *stream,
            version: board.latest(*stream).unwrap_or(0) + 1,
        },
        Entry::Retire { stream, .. } => Receipt {
            number,
            stream: *stream,
            version: 0,
        },
    }
}
