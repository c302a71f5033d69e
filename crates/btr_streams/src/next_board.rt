//! The next board: one stream more, or one version more of a stream.
ghost use Rattle.std.specs.Prelude.{◌≡◌, ◌+◌, ◌-◌, ◌^◌, ◌<◌, ◌≤◌, List, [], ◌∷◌, ◌++◌, length};
ghost use Rattle.btr_base.specs.declared.limits.TheConstants.{MAX_STREAMS, MAX_VERSIONS};
ghost use Rattle.std.specs.Prelude.{slice_get, slice_set, IfOk, IfSome, Some, None};
ghost use Rattle.std.specs.Option.{is_some, option_to_list};
ghost use Rattle.btr_tree.specs.History.{nothing};
ghost use Rattle.btr_tree.specs.Root.{TreeValue, IsTree};
ghost use Rattle.btr_hist.specs.declared.entry.Entry.{Entry as EntrySpec};
ghost use Rattle.btr_hist.specs.declared.entry.Entry.TheVariants as entry;
ghost use Rattle.btr_hist.specs.Legal.{rejection};
ghost use Rattle.btr_streams.specs.Readers.{AreInputsBelow};
ghost use Rattle.btr_streams.specs.Board.{IsBoardOf, HasPast, HasGoodSpec, place_of, ids_of};
ghost use Rattle.btr_streams.specs.Stage.{MakesStream, MakesNext};
ghost use Rattle.btr_streams.specs.Stage.{HasRoomFor, HasRoomForVersion, ReadsVersion, ReadsOn};
ghost use Rattle.btr_streams.specs.Stage.{with_version, new_stream};
ghost use Rattle.btr_streams.specs.Stage.{AddsStream};

use crate::board::{Board, Stream};
use crate::readers::with_stream_read;
use btr_board::Trail;
use btr_hist::{Entry, Reads, Spec};
use btr_tree::{NewNode, Tree};
use std::alloc::{AllocError, Global};

/// The next board, and what its last entry writes: the new nodes of its stream's tree, and the block of the root. An entry that
/// makes no version has no nodes, and its root is 0.
#[derive(Drop)]
pub(crate) struct NextBoard {
    pub(crate) board: Board,
    pub(crate) nodes: Vec<NewNode>,
    pub(crate) root: u64,
}

impl Board {
    /// Makes the next board, with an entry more whose new version has this tree. No test is made.
    pub(crate) fn read_board(
        &self,
        alloc: Global,
        entry: &Entry,
        tree: Tree,
    ) -> Result<NextBoard, AllocError>
        requires few { self.now.entries < 2 ^ 64 - 1 }
        requires past { HasPast tree }
        requires room { HasRoomFor self.now entry.now }
        ensures counted { IfOk result (λ n. n.board.entries ≡ self.now.entries + 1) }
        ensures kept { IfOk result (λ n. ReadsOn self.now entry.now tree n.board n.nodes.items n.root) }
    {
        match entry {
            Entry::Create { id } => {
                Ok(without_nodes(alloc, self.with_stream(alloc, *id, None)?))
            }
            Entry::Define { id, spec } => {
                Ok(without_nodes(alloc, self.with_stream(alloc, *id, Some(*spec))?))
            }
            Entry::Commit { stream, .. } => self.read_version(alloc, *stream, tree, None),
            Entry::Distillate { stream, reads, .. } => {
                self.read_version(alloc, *stream, tree, Some(*reads))
            }
            Entry::Retire { stream, first } => {
                Ok(without_nodes(alloc, self.with_earliest(alloc, *stream, *first)?))
            }
        }
    }

    /// Makes the next board with one version more of a stream, which has this tree and has read these versions, or none if the
    /// stream is plain.
    pub(crate) fn read_version(
        &self,
        alloc: Global,
        stream: u32,
        tree: Tree,
        read: Option<Reads>,
    ) -> Result<NextBoard, AllocError>
        requires few { self.now.entries < 2 ^ 64 - 1 }
        requires past { HasPast tree }
        requires room { HasRoomForVersion self.now stream (is_some read) }
        ensures counted { IfOk result (λ n. n.board.entries ≡ self.now.entries + 1) }
        ensures kept { IfOk result (λ n. ReadsVersion self.now stream read tree n.board n.nodes.items n.root) }
    {
        let place = stream as usize;
        let Some(kept) = self.streams.get(place) else {
            unreachable!()
        };
        let root = tree.root();
        let board = self.with_version(alloc, place, kept, tree, read)?;
        Ok(NextBoard {
            board,
            nodes: Vec::new(alloc),
            root,
        })
    }

    /// Makes the next board with a new stream: an output of this spec, or a plain stream.
    pub(crate) fn with_stream(
        &self,
        alloc: Global,
        id: u128,
        spec: Option<Spec>,
    ) -> Result<Board, AllocError>
        requires few { self.now.entries < 2 ^ 64 - 1 }
        requires room { length self.now.streams < MAX_STREAMS }
        requires fresh { place_of (ids_of self.now.streams) id ≡ None }
        requires good { HasGoodSpec spec }
        requires inputs { IfSome spec (AreInputsBelow (length self.now.streams)) }
        ensures next { (h : List EntrySpec) (e : EntrySpec) → IsBoardOf h self.now → MakesStream e id spec → rejection h e ≡ None
            → IfOk result (IsBoardOf (h ++ e ∷ [])) }
        ensures counted { IfOk result (λ b. b.entries ≡ self.now.entries + 1) }
        ensures adds { IfOk result (AddsStream self.now id spec) }
    {
        let number = self.streams.len() as u32;
        let first = first_version(alloc, id, spec, self.entries + 1)?;
        let streams = self.streams.push(alloc, first)?;
        let readers = with_stream_read(alloc, &self.readers, number, spec)?;
        let numbers = self.numbers.insert(alloc, id, number)?;
        Ok(Board {
            streams,
            readers,
            numbers,
            entries: self.entries + 1,
        })
    }

    /// Makes the next board with one version more of the stream at a place, which is `kept`: it has this tree, and has read these
    /// versions. A version of a plain stream has read none.
    pub(crate) fn with_version(
        &self,
        alloc: Global,
        place: usize,
        kept: &Stream,
        tree: Tree,
        read: Option<Reads>,
    ) -> Result<Board, AllocError>
        requires few { self.now.entries < 2 ^ 64 - 1 }
        requires there { slice_get self.now.streams place ≡ Some kept.now }
        requires room { length kept.now.trees ≤ MAX_VERSIONS }
        requires grown { HasPast tree }
        requires of_kind { is_some read ≡ is_some kept.now.spec }
        ensures next { (h : List EntrySpec) (e : EntrySpec) → IsBoardOf h self.now → MakesNext h e place read tree
            → IfOk result (IsBoardOf (h ++ e ∷ [])) }
        ensures counted { IfOk result (λ b. b.entries ≡ self.now.entries + 1) }
        ensures streams { IfOk result (λ b. b.streams
            ≡ slice_set self.now.streams place (with_version kept.now tree read (self.now.entries + 1))) }
    {
        let next = next_stream(alloc, kept, tree, read, self.entries + 1)?;
        let streams = self.streams.set(alloc, place, next)?;
        let readers = self.readers.share()?;
        let numbers = self.numbers.share()?;
        Ok(Board {
            streams,
            readers,
            numbers,
            entries: self.entries + 1,
        })
    }
}

/// Returns a board whose last entry writes no node.
pub(crate) fn without_nodes(alloc: Global, board: Board) -> NextBoard
    ensures board { result.board ≡ board }
    ensures nodes { result.nodes.items ≡ [] }
    ensures root { result.root ≡ 0 }
{
    NextBoard {
        board,
        nodes: Vec::new(alloc),
        root: 0,
    }
}

/// Returns a stream at version 0, made by the entry of this number: an output of this spec, or a plain stream.
pub(crate) fn first_version(
    alloc: Global,
    id: u128,
    spec: Option<Spec>,
    number: u64,
) -> Result<Stream, AllocError>
    ensures { IfOk result (λ s. (t : TreeValue) × IsTree nothing t × (s ≡ new_stream id spec t number)) }
{
    let no_trees = Trail::empty();
    let trees = no_trees.push(alloc, Tree::empty())?;
    let no_numbers = Trail::empty();
    let numbers = no_numbers.push(alloc, number)?;
    Ok(Stream {
        id,
        spec,
        trees,
        reads: Trail::empty(),
        numbers,
        earliest: 0,
    })
}

/// Returns a stream with one version more, which has this tree, has read these versions, if any, and is made by the entry of this
/// number.
pub(crate) fn next_stream(
    alloc: Global,
    kept: &Stream,
    tree: Tree,
    read: Option<Reads>,
    number: u64,
) -> Result<Stream, AllocError>
    ensures { IfOk result (λ s. s ≡ with_version kept.now tree read number) }
{
    let trees = kept.trees.push(alloc, tree)?;
    let reads = next_reads(alloc, &kept.reads, read)?;
    let numbers = kept.numbers.push(alloc, number)?;
    Ok(Stream {
        id: kept.id,
        spec: kept.spec,
        trees,
        reads,
        numbers,
        earliest: kept.earliest,
    })
}

/// Returns the reads with one more, if there is one.
pub(crate) fn next_reads(
    alloc: Global,
    reads: &Trail<Reads>,
    read: Option<Reads>,
) -> Result<Trail<Reads>, AllocError>
    ensures { IfOk result (λ t. t ≡ reads.now ++ option_to_list read) }
{
    match read {
        Some(read) => reads.push(alloc, read),
        None => reads.share(),
    }
}
