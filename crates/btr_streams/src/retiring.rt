//! A retirement: why versions of a stream may not be retired, and the next board with another first version of a stream.
ghost use Rattle.std.specs.Prelude.{◌≡◌, ◌+◌, ◌-◌, ◌^◌, ◌<◌, List, length, IfOk, IfErr, IsNone, OnOk};
ghost use Rattle.btr_hist.specs.declared.entry.Entry.{Entry as EntrySpec};
ghost use Rattle.btr_hist.specs.declared.entry.Entry.TheVariants as entry;
ghost use Rattle.btr_hist.specs.Legal.{first_some, rejection};
ghost use Rattle.btr_entry.specs.Grammar.{IsWithinBounds};
ghost use Rattle.btr_streams.specs.Board.{IsBoardOf, IsGrown};
ghost use Rattle.btr_streams.specs.Rolling.{rolled, kept_stream};
ghost use Rattle.btr_streams.specs.Outline.{outline_in, outlined_in_roll, held_in, held_in_all, held_by_in, retire_refusal};
ghost use Rattle.btr_streams.specs.Stage.{PushCause, IsNextBoard, HasRoomForFirst, SetsEarliest, WritesRetirement, with_earliest};

use crate::board::{Board, PushFault, Stream};
use crate::next_board::{NextBoard, without_nodes};
use crate::refusing::latest_reads;
use btr_hist::{Rejection, least_read};
use std::alloc::{AllocError, Global};

impl Board {
    /// Makes the next board with the versions of a stream before the first retired, if they may be.
    pub(crate) fn stage_retirement(
        &self,
        alloc: Global,
        stream: u32,
        first: u64,
    ) -> Result<NextBoard, PushFault>
        requires few { self.now.entries < 2 ^ 64 - 1 }
        ensures next { (h : List EntrySpec) → IsBoardOf h self.now → IfOk result (λ n. IsNextBoard h (entry.Retire stream first) n.board) }
        ensures cause { (h : List EntrySpec) → IsBoardOf h self.now → IfErr result (PushCause (rejection h (entry.Retire stream first))) }
        ensures counted { IfOk result (λ n. n.board.entries ≡ self.now.entries + 1) }
        ensures bounds { OnOk result (IsWithinBounds (entry.Retire stream first)) }
        ensures writes { IfOk result (λ n. WritesRetirement self.now stream first n.board n.nodes.items n.root) }
    {
        if let Some(why) = self.retire_refusal(stream, first) {
            return Err(PushFault::Rejected(why));
        }
        let board = self.with_earliest(alloc, stream, first)?;
        Ok(without_nodes(alloc, board))
    }

    /// Makes the next board with the versions of a stream before the first retired. Only the path to the stream is made anew.
    pub(crate) fn with_earliest(
        &self,
        alloc: Global,
        stream: u32,
        first: u64,
    ) -> Result<Board, AllocError>
        requires few { self.now.entries < 2 ^ 64 - 1 }
        requires room { HasRoomForFirst self.now stream first }
        ensures counted { IfOk result (λ b. b.entries ≡ self.now.entries + 1) }
        ensures sets { IfOk result (SetsEarliest self.now stream first) }
    {
        let place = stream as usize;
        let Some(kept) = self.streams.get(place) else {
            unreachable!()
        };
        let next = retired_stream(kept, first)?;
        let streams = self.streams.set(alloc, place, next)?;
        let readers = self.readers.share()?;
        let numbers = self.numbers.share()?;
        Ok(Board {
            streams,
            readers,
            numbers,
            entries: self.entries + 1,
        })
    }

    /// Returns why the versions of a stream before the first may not be retired, or `None` if they may.
    pub(crate) fn retire_refusal(&self, stream: u32, first: u64) -> Option<Rejection>
        ensures rolled { result ≡ retire_refusal (outline_in (rolled self.now)) stream first }
        ensures room { IsNone result → HasRoomForFirst self.now stream first }
        ensures some { IsNone result → 0 < first }
    {
        let Some(kept) = self.streams.get(stream as usize) else {
            return Some(Rejection::NoStream);
        };
        let latest = (kept.trees.len() - 1) as u64;
        if first <= kept.earliest || latest < first {
            return Some(Rejection::BadFirst {
                first,
                present: kept.earliest,
                latest,
            });
        }
        self.held(stream, first)
    }

    /// Returns why the output of the least number that holds versions of a stream before the first holds them, or `None`. It looks at
    /// the readers of the stream alone, in logarithmic time for each.
    pub(crate) fn held(&self, stream: u32, first: u64) -> Option<Rejection>
        requires there { stream < length self.now.streams }
        ensures { result ≡ first_some (held_in_all stream first 0 (outline_in (rolled self.now))) }
    {
        let Some(readers) = self.readers.get(stream as usize) else {
            unreachable!()
        };
        for place in 0..readers.len() {
            let Some(output) = readers.get(place) else {
                unreachable!()
            };
            let found = self.held_by_output(stream, first, *output);
            if found.is_some() {
                return found;
            }
        }
        None
    }

    /// Returns why the stream of this number, if there is one, holds the versions of another stream before the first, or `None`.
    pub(crate) fn held_by_output(&self, stream: u32, first: u64, output: u32) -> Option<Rejection>
        ensures { result ≡ held_by_in (outline_in (rolled self.now)) stream first output }
    {
        match self.streams.get(output as usize) {
            Some(kept) => held_by(kept, stream, first, output),
            None => None,
        }
    }
}

/// Returns why a stream of this number holds the versions of another stream before the first, or `None`: it is an output, and its
/// latest version was computed from one of them.
pub(crate) fn held_by(kept: &Stream, stream: u32, first: u64, output: u32) -> Option<Rejection>
    ensures { IsGrown kept.now
        → result ≡ held_in stream first output kept.now.spec (outlined_in_roll (kept_stream kept.now)).reads }
{
    let spec = kept.spec?;
    let version = least_read(stream, &spec, &latest_reads(kept, &spec))?;
    if version < first {
        Some(Rejection::Held { output, version })
    } else {
        None
    }
}

/// Returns a stream with its versions before the first retired. It takes constant time.
pub(crate) fn retired_stream(kept: &Stream, first: u64) -> Result<Stream, AllocError>
    ensures { IfOk result (λ s. s ≡ with_earliest kept.now first) }
{
    Ok(Stream {
        id: kept.id,
        spec: kept.spec,
        trees: kept.trees.share()?,
        reads: kept.reads.share()?,
        numbers: kept.numbers.share()?,
        earliest: first,
    })
}
