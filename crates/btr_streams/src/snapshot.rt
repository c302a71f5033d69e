//! The snapshot: a store at one moment, which later entries do not change.
ghost use Rattle.std.specs.Prelude.{◌≡◌, List, length, IfOk, MatchOption};
ghost use Rattle.btr_hist.specs.declared.entry.Entry.{Entry as EntrySpec};
ghost use Rattle.btr_hist.specs.History.{ids, stream_of, spec_of, read_by};
ghost use Rattle.btr_hist.specs.Answer.{answer};
ghost use Rattle.btr_streams.specs.Board.{HasVersion, IsTreeOf, latest_of};
ghost use Rattle.btr_streams.specs.Snapshot.{IsSnapshotOf};

use crate::board::Board;
use btr_hist::{Answer, Query, Reads, Spec};
use btr_tree::Tree;
use std::alloc::{AllocError, Global};

/// A store as it was at one moment. It answers from the entries of that moment for good, in any thread, whatever is added to
/// the store later. It shares its trees with the store, and calls no device.
#[derive(Drop)]
pub struct Snapshot {
    pub(crate) board: Board,
}

impl Snapshot {
    /// Returns the snapshot of a board, in constant time. An `Err` means out of memory.
    pub(crate) fn of(board: &Board) -> Result<Snapshot, AllocError>
        ensures { IfOk result (λ s. s.board ≡ board.now) }
    {
        Ok(Snapshot {
            board: board.share()?,
        })
    }

    /// Returns the same snapshot once more, in constant time. An `Err` means out of memory.
    pub fn share(&self) -> Result<Snapshot, AllocError>
        ensures { IfOk result (λ s. s ≡ self.now) }
    {
        Snapshot::of(&self.board)
    }

    /// Returns the number of entries, in constant time. It takes no memory.
    pub fn entries(&self) -> u64
        ensures { (h : List EntrySpec) → IsSnapshotOf h self.now → result ≡ length h }
    {
        self.board.entries()
    }

    /// Returns the number of streams, in constant time. It takes no memory.
    pub fn streams(&self) -> u32
        ensures { (h : List EntrySpec) → IsSnapshotOf h self.now → result ≡ length (ids h) }
    {
        self.board.streams()
    }

    /// Returns the number of the stream with this id, if there is one: the first in order of creation. It takes logarithmic
    /// time and no memory.
    pub fn find(&self, id: u128) -> Option<u32>
        ensures { (h : List EntrySpec) → IsSnapshotOf h self.now → result ≡ stream_of h id }
    {
        self.board.find(id)
    }

    /// Returns the latest version of a stream, which is the number of its commits, or `None` if there is no such stream. It
    /// takes logarithmic time and no memory.
    pub fn latest(&self, stream: u32) -> Option<u64>
        ensures { (h : List EntrySpec) → IsSnapshotOf h self.now → result ≡ latest_of h stream }
    {
        self.board.latest(stream)
    }

    /// Returns the tree of a version of a stream, or `None` if there is no such stream or version. The tree has the points
    /// that the stream's commits up to the version leave. A retired version has its tree: outputs may still be computed from it. It
    /// takes logarithmic time and no memory.
    pub fn tree(&self, stream: u32, version: u64) -> Option<&Tree>
        ensures { (h : List EntrySpec) → IsSnapshotOf h self.now
            → MatchOption result (HasVersion h stream version → ⊥) (λ t. IsTreeOf h stream version t.now) }
    {
        self.board.tree(stream, version)
    }

    /// Returns the spec of an output. A plain stream, and a number that is not that of a stream, have none. It takes logarithmic
    /// time and no memory.
    pub fn spec(&self, stream: u32) -> Option<Spec>
        ensures { (h : List EntrySpec) → IsSnapshotOf h self.now → result ≡ spec_of h stream }
    {
        self.board.spec(stream)
    }

    /// Returns the versions of its inputs that a version of an output was computed from. Version 0, a version of a plain stream,
    /// and one that the stream does not have, have none. It takes logarithmic time and no memory.
    pub fn reads(&self, stream: u32, version: u64) -> Option<Reads>
        ensures { (h : List EntrySpec) → IsSnapshotOf h self.now → result ≡ read_by h stream version }
    {
        self.board.reads(stream, version)
    }

    /// Answers a question. It costs the nodes of the tree that the question needs, and its rows. The list of all streams costs
    /// their number. An `Err` means out of memory.
    pub fn answer(&self, alloc: Global, query: &Query) -> Result<Answer, AllocError>
        ensures { (h : List EntrySpec) → IsSnapshotOf h self.now → IfOk result (λ a. a ≡ answer h query.now) }
    {
        self.board.answer(alloc, query)
    }
}
