//! The board of a roll: what an opening makes of the content of a checkpoint and of the trees that it has read.
ghost use Rattle.std.specs.Prelude.{◌≡◌, ℕ, ◌∷◌, ◌++◌, ◌<◌, List, [], length, map, IfOk, IfSome, None};
ghost use Rattle.std.specs.Option.{option_to_list};
ghost use Rattle.btr_base.specs.declared.limits.TheConstants.{MAX_STREAMS};
ghost use Rattle.btr_roll.specs.Roll.{IsRoll, StreamFits, reads_of_versions};
ghost use Rattle.btr_streams.specs.Readers.{AreInputsBelow};
ghost use Rattle.btr_streams.specs.Board.{place_of, ids_of};
ghost use Rattle.btr_streams.specs.Restoring.{restored_stream, restored_streams, FitTrees, AllFitTrees};

use crate::board::{Board, Stream};
use crate::readers::with_stream_read;
use btr_board::{Index, Trail};
use btr_hist::Reads;
use btr_roll::{Roll, RollStream, RollVersion};
use btr_tree::Tree;
use std::alloc::{AllocError, Global};

impl Board {
    /// Returns the board with the streams of a roll, whose versions have these trees, and with this number of entries. There is one
    /// list of trees for each stream, in the order of the roll, and each begins with the tree of version 0.
    ///
    /// The caller has read the trees of the roots that the roll says, and knows the number of entries. Neither is tested here.
    ///
    /// It costs time and memory linear in the numbers of streams and of versions, and a logarithm for each of them. An `Err` means
    /// out of memory.
    pub fn restored(
        alloc: Global,
        roll: &Roll,
        trees: Vec<Vec<Tree>>,
        entries: u64,
    ) -> Result<Board, AllocError>
        requires roll { (format : ℕ) × IsRoll format roll.now }
        requires trees { AllFitTrees roll.now (map (λ v. v.items) trees.items) }
        ensures { IfOk result (λ b. b ≡ record {
          streams = restored_streams roll.now (map (λ v. v.items) trees.items);
          entries = entries;
        }) }
    {
        let mut board = Board {
            streams: Trail::empty(),
            readers: Trail::empty(),
            numbers: Index::empty(),
            entries,
        };
        for trees in trees {
            let Some(stream) = roll.streams.get(board.streams.len()) else {
                unreachable!()
            };
            board = board.with_restored(alloc, stream, trees)?;
        }
        Ok(board)
    }

    /// Returns the board with one stream more, which is that of a roll, and whose versions have these trees. The number of entries
    /// stays as it is.
    fn with_restored(
        &self,
        alloc: Global,
        stream: &RollStream,
        trees: Vec<Tree>,
    ) -> Result<Board, AllocError>
        requires room { length self.now.streams < MAX_STREAMS }
        requires fresh { place_of (ids_of self.now.streams) stream.now.id ≡ None }
        requires inputs { IfSome stream.now.spec (AreInputsBelow (length self.now.streams)) }
        requires fits { (format : ℕ) × StreamFits format stream.now }
        requires trees { FitTrees stream.now trees.items }
        ensures { IfOk result (λ b. b ≡ record {
          streams = self.now.streams ++ restored_stream stream.now trees.items ∷ [];
          entries = self.now.entries;
        }) }
    {
        let number = self.streams.len() as u32;
        let next = restored_stream(alloc, stream, trees)?;
        let streams = self.streams.push(alloc, next)?;
        let readers = with_stream_read(alloc, &self.readers, number, stream.spec)?;
        let numbers = self.numbers.insert(alloc, stream.id, number)?;
        Ok(Board {
            streams,
            readers,
            numbers,
            entries: self.entries,
        })
    }
}

/// Returns a stream of a roll as a board keeps it. Its versions have these trees.
fn restored_stream(
    alloc: Global,
    stream: &RollStream,
    trees: Vec<Tree>,
) -> Result<Stream, AllocError>
    ensures { IfOk result (λ s. s ≡ restored_stream stream.now trees.items) }
{
    Ok(Stream {
        id: stream.id,
        spec: stream.spec,
        trees: trail_of(alloc, trees)?,
        reads: restored_reads(alloc, &stream.versions)?,
        numbers: restored_numbers(alloc, stream.entry, &stream.versions)?,
        earliest: stream.first,
    })
}

/// Returns the trees as a trail.
fn trail_of(alloc: Global, trees: Vec<Tree>) -> Result<Trail<Tree>, AllocError>
    ensures { IfOk result (λ t. t ≡ trees.items) }
{
    let mut trail = Trail::empty();
    for tree in trees {
        trail = trail.push(alloc, tree)?;
    }
    Ok(trail)
}

/// Returns what the versions have read, of those that have.
fn restored_reads(alloc: Global, versions: &[RollVersion]) -> Result<Trail<Reads>, AllocError>
    ensures { IfOk result (λ t. t ≡ reads_of_versions versions.now) }
{
    let mut reads = Trail::empty();
    for version in versions {
        reads = with_read(alloc, reads, version.reads)?;
    }
    Ok(reads)
}

/// Returns the reads with one more, if there is one.
fn with_read(
    alloc: Global,
    reads: Trail<Reads>,
    read: Option<Reads>,
) -> Result<Trail<Reads>, AllocError>
    ensures { IfOk result (λ t. t ≡ reads ++ option_to_list read) }
{
    match read {
        Some(read) => reads.push(alloc, read),
        None => Ok(reads),
    }
}

/// Returns the numbers of the entries that made the versions, with that of version 0 before them.
fn restored_numbers(
    alloc: Global,
    first: u64,
    versions: &[RollVersion],
) -> Result<Trail<u64>, AllocError>
    ensures { IfOk result (λ t. t ≡ first ∷ map (λ v. v.entry) versions.now) }
{
    let none = Trail::empty();
    let mut numbers = none.push(alloc, first)?;
    for version in versions {
        numbers = numbers.push(alloc, version.entry)?;
    }
    Ok(numbers)
}
