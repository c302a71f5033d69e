//! The board: what an engine keeps of a history in memory, for its calls and questions.
ghost use Rattle.std.specs.Prelude.{◌≡◌, ◌+◌, ◌-◌, ◌^◌, ◌<◌, ◌≤◌, List, [], length, slice_get};
ghost use Rattle.std.specs.Prelude.{IfOk, IfSome, IsNone, MatchOption, option_map};
ghost use Rattle.btr_hist.specs.declared.entry.Entry.{Entry as EntrySpec};
ghost use Rattle.btr_hist.specs.History.{ids, stream_of, spec_of, read_by};
ghost use Rattle.btr_streams.specs.Past.{stream_numbers};
ghost use Rattle.btr_streams.specs.Board.{IsBoardOf, HasStreamsOf, HasVersion, IsTreeOf, latest_of, read_at, versions_in};
ghost use Rattle.btr_streams.specs.Snapshot.{IsSnapshotOf};

use crate::snapshot::Snapshot;
use btr_board::{Index, Trail};
use btr_hist::{Reads, Rejection, Spec};
use btr_tree::{NewNode, Tree};
use std::alloc::AllocError;
use std::marker::Model;

/// Why an entry was not staged. The board is as before.
#[derive(Clone, Copy, PartialEq, Eq)]
pub enum PushFault {
    /// The entry may not follow the history.
    Rejected(Rejection),

    /// There was not enough memory.
    Want,
}

/// A stream: its id, the trees of all its versions, from version 0 on, and if it is an output its spec and what its versions have
/// read, from version 1 on. A plain stream has no reads. And the numbers of the entries that made the versions, from version 0 on,
/// and the first version that is not retired, 0 if none is. The trees of retired versions are kept.
#[derive(Drop)]
pub(crate) struct Stream {
    pub(crate) id: u128,
    pub(crate) spec: Option<Spec>,
    pub(crate) trees: Trail<Tree>,
    pub(crate) reads: Trail<Reads>,
    pub(crate) numbers: Trail<u64>,
    pub(crate) earliest: u64,
}

impl Model for Stream {
    ghost use Rattle.std.specs.Coded.{codes};
    ghost use Rattle.btr_tree.specs.contracts.tree.Tree as tree_contract;
    ghost use Rattle.btr_streams.specs.Board.{Versions};

    ghost Value = { Versions };

    ghost coded = { Prim.hlevel (codes, tree_contract.the_row.coded) };

    ghost view = { λ s. record {
      id = s.id;
      spec = s.spec;
      trees = s.trees;
      reads = s.reads;
      numbers = s.numbers;
      earliest = s.earliest;
    } };
}

/// What a history's answers and tests need: of each stream the id, the spec, the tree of each version, what it has read, the number
/// of the entry that made it, and the first version that is not retired; and the number of entries. The entries themselves are not kept.
/// Each of them is accepted after those before it.
///
/// A board is a value: [`Board::stage`] makes the next board and shares with this one all that does not change.
#[derive(Drop)]
pub struct Board {
    pub(crate) streams: Trail<Stream>,

    /// The readers of each stream: the numbers of the outputs that have it as an input, in order of creation, each once.
    pub(crate) readers: Trail<Trail<u32>>,
    pub(crate) numbers: Index,
    pub(crate) entries: u64,
}

impl Model for Board {
    ghost use Rattle.std.specs.Coded.{codes};
    ghost use Rattle.btr_board.specs.Numbers.{number_of};
    ghost use Rattle.btr_tree.specs.contracts.tree.Tree as tree_contract;
    ghost use Rattle.btr_streams.specs.Board.{Kept, IsWellFormed};

    ghost Value = { Kept };

    ghost coded = { Prim.hlevel (codes, tree_contract.the_row.coded) };

    ghost view = { λ b. record { streams = b.streams; entries = b.entries } };

    ghost invariant = { λ b. IsWellFormed b.streams (number_of b.numbers) b.readers };
}

/// The receipt of an entry that was accepted. On a device the entry is durable.
#[derive(Clone, Copy, PartialEq, Eq)]
pub struct Receipt {
    /// The number of entries, with this one.
    pub number: u64,

    /// The number of its stream.
    pub stream: u32,

    /// The version of the stream that the entry made, 0 for a new stream and for a retirement.
    pub version: u64,
}

/// An entry that may follow the history of a board: the next board, the receipt, and what it writes. All its memory is taken.
#[derive(Drop)]
pub struct Staged {
    pub(crate) next: Board,

    /// The receipt of the entry.
    pub receipt: Receipt,

    /// The new nodes of its stream's tree, children before parents. An entry that makes no version has none.
    pub nodes: Vec<NewNode>,

    /// The block of the root of its stream's new tree, or 0 if there is none.
    pub root: u64,
}

impl Board {
    /// Returns the board of no entries. It takes no memory.
    pub fn empty() -> Board
        ensures { IsBoardOf [] result }
    {
        Board {
            streams: Trail::empty(),
            readers: Trail::empty(),
            numbers: Index::empty(),
            entries: 0,
        }
    }

    /// Returns the same board once more, in constant time. An `Err` means out of memory.
    pub fn share(&self) -> Result<Board, AllocError>
        ensures { IfOk result (λ b. b ≡ self.now) }
    {
        Ok(Board {
            streams: self.streams.share()?,
            readers: self.readers.share()?,
            numbers: self.numbers.share()?,
            entries: self.entries,
        })
    }

    /// Returns a snapshot of the history, in constant time. It answers questions, also in another thread while the board goes on.
    /// An `Err` means out of memory.
    pub fn admit(&self) -> Result<Snapshot, AllocError>
        ensures { (h : List EntrySpec) → IsBoardOf h self.now → IfOk result (IsSnapshotOf h) }
    {
        Snapshot::of(self)
    }

    /// Replaces this board by a staged one, and returns the receipt of its entry. The nodes are dropped. It takes no memory.
    pub fn accept(&mut self, staged: Staged) -> Receipt
        ensures next { self.new ≡ staged.next }
        ensures receipt { result ≡ staged.receipt }
    {
        let Staged { next, receipt, .. } = staged;
        *self = next;
        receipt
    }

    /// Returns the number of the stream with this id, if there is one: the first in order of creation. It costs logarithmic
    /// time and takes no memory.
    pub fn find(&self, id: u128) -> Option<u32>
        ensures of { (h : List EntrySpec) → IsBoardOf h self.now → result ≡ stream_of h id }
        ensures below { IfSome result (λ number. number < length self.now.streams) }
    {
        self.numbers.find(id)
    }

    /// Returns the id of a stream, or `None` if there is no such stream. It costs logarithmic time and takes no memory.
    pub fn id(&self, stream: u32) -> Option<u128>
        ensures { (h : List EntrySpec) → IsBoardOf h self.now → result ≡ slice_get (ids h) stream }
    {
        let kept = self.streams.get(stream as usize)?;
        Some(kept.id)
    }

    /// Returns the number of streams, in constant time. It takes no memory.
    pub fn streams(&self) -> u32
        ensures of { (h : List EntrySpec) → IsBoardOf h self.now → result ≡ length (ids h) }
        ensures kept { result ≡ length self.now.streams }
    {
        self.streams.len() as u32
    }

    /// Returns the latest version of a stream, which is the number of its commits, or `None` if there is no such stream. It
    /// costs logarithmic time and takes no memory.
    pub fn latest(&self, stream: u32) -> Option<u64>
        ensures of { (h : List EntrySpec) → IsBoardOf h self.now → result ≡ latest_of h stream }
        ensures known { (h : List EntrySpec) → HasStreamsOf h self.now → result ≡ latest_of h stream }
        ensures kept { result ≡ option_map (λ s. length s.trees - 1) (slice_get self.now.streams stream) }
        ensures few { IfSome result (λ version. version < 2 ^ 32) }
        ensures counted { IfSome result (λ version. versions_in self.now.streams stream ≡ version + 1) }
    {
        let kept = self.streams.get(stream as usize)?;
        Some((kept.trees.len() - 1) as u64)
    }

    /// Returns the tree of a version of a stream, or `None` if there is no such stream or version. A retired version has its tree.
    /// It costs logarithmic time and takes no memory.
    pub fn tree(&self, stream: u32, version: u64) -> Option<&Tree>
        ensures past { IsNone result → versions_in self.now.streams stream ≤ version }
        ensures of { (h : List EntrySpec) → IsBoardOf h self.now
            → MatchOption result (HasVersion h stream version → ⊥) (λ t. IsTreeOf h stream version t.now) }
    {
        let kept = self.streams.get(stream as usize)?;
        kept.trees.get(version as usize)
    }

    /// Returns the spec of an output. A plain stream, and a number that is not that of a stream, have none. It costs logarithmic
    /// time and takes no memory.
    pub fn spec(&self, stream: u32) -> Option<Spec>
        ensures { (h : List EntrySpec) → IsBoardOf h self.now → result ≡ spec_of h stream }
    {
        let kept = self.streams.get(stream as usize)?;
        kept.spec
    }

    /// Returns the versions of its inputs that a version of an output was computed from. Version 0, a version of a plain stream,
    /// and one that the stream does not have, have none. It costs logarithmic time and takes no memory.
    pub fn reads(&self, stream: u32, version: u64) -> Option<Reads>
        ensures { (h : List EntrySpec) → IsBoardOf h self.now → result ≡ read_by h stream version }
    {
        let kept = self.streams.get(stream as usize)?;
        read_at(&kept.reads, version)
    }

    /// Returns the number of the entry that made a version of a stream, counted from 1, or `None` if there is no such stream or
    /// version. Version 0 is made with the stream. It costs logarithmic time and takes no memory.
    pub fn number(&self, stream: u32, version: u64) -> Option<u64>
        ensures { (h : List EntrySpec) → IsBoardOf h self.now → result ≡ slice_get (stream_numbers h stream) version }
    {
        let kept = self.streams.get(stream as usize)?;
        kept.numbers.get(version as usize).copied()
    }

    /// Returns the number of entries, in constant time. It takes no memory.
    pub fn entries(&self) -> u64
        ensures { result ≡ self.now.entries }
    {
        self.entries
    }
}

/// Returns what a version has read, if the versions from 1 on have read these.
pub(crate) fn read_at(reads: &Trail<Reads>, version: u64) -> Option<Reads>
    ensures { result ≡ read_at reads.now version }
{
    if version == 0 {
        return None;
    }
    reads.get((version - 1) as usize).copied()
}

impl From<AllocError> for PushFault {
    ghost use Rattle.std.specs.Prelude.{◌≡◌};
    ghost use Rattle.btr_streams.specs.declared.board.PushFault.TheVariants.{Want};

    ghost from_gives = { λ _ e. e ≡ Want };

    fn from(_error: AllocError) -> PushFault {
        PushFault::Want
    }
}
