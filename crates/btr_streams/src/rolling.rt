//! What a checkpoint of a board has.
ghost use Rattle.std.specs.Prelude.{◌≡◌, ◌≤◌, length, get_or, slice_get, IfOk, IsNone, Some};
ghost use Rattle.btr_tree.specs.Root.{TreeValue};
ghost use Rattle.btr_roll.specs.Roll.{IsRollWithinBounds};
ghost use Rattle.btr_streams.specs.Rolling.{rolled, kept_stream, kept_version};

use crate::board::{Board, Stream, read_at};
use btr_board::Trail;
use btr_roll::{Roll, RollStream, RollVersion};
use std::alloc::{AllocError, Global};

impl Board {
    /// Returns the streams with all their versions, which is what a checkpoint of this board has: `encode_roll` gives its bytes.
    /// The time and the memory are linear in the numbers of streams and of versions. Each version costs at most three lookups in
    /// the lists of its stream, of logarithmic time. An `Err` means out of memory.
    pub fn roll(&self, alloc: Global) -> Result<Roll, AllocError>
        ensures is { IfOk result (λ r. r ≡ rolled self.now) }
        ensures bounds { IfOk result (λ r. IsRollWithinBounds r) }
    {
        let mut streams = Vec::with_capacity(alloc, self.streams.len())?;
        for place in 0..self.streams.len() {
            let Some(kept) = self.streams.get(place) else {
                unreachable!()
            };
            streams.push(roll_stream(alloc, kept)?)?;
        }
        Ok(Roll { streams })
    }
}

/// Returns a stream with its first version that is not retired, and its versions from version 1 on.
fn roll_stream(alloc: Global, kept: &Stream) -> Result<RollStream, AllocError>
    ensures { IfOk result (λ s. s ≡ kept_stream kept.now) }
{
    let mut versions = Vec::with_capacity(alloc, kept.trees.len())?;
    for version in 1..kept.trees.len() {
        let Some(rolled) = roll_version(kept, version) else {
            unreachable!()
        };
        versions.push(rolled)?;
    }
    Ok(RollStream {
        id: kept.id,
        entry: number_at(&kept.numbers, 0),
        spec: kept.spec,
        first: kept.earliest,
        versions,
    })
}

/// Returns a version of a stream, if there is one of this number.
fn roll_version(kept: &Stream, version: usize) -> Option<RollVersion>
    ensures past { IsNone result → length kept.now.trees ≤ version }
    ensures there { (t : TreeValue) → slice_get kept.now.trees version ≡ Some t → result ≡ Some (kept_version kept.now version t) }
{
    let tree = kept.trees.get(version)?;
    Some(RollVersion {
        entry: number_at(&kept.numbers, version),
        root: tree.root(),
        reads: read_at(&kept.reads, version as u64),
    })
}

/// Returns the number at a place, or 0 if there is none.
fn number_at(numbers: &Trail<u64>, place: usize) -> u64
    ensures { result ≡ get_or numbers.now place 0 }
{
    match numbers.get(place) {
        Some(number) => *number,
        None => 0,
    }
}
