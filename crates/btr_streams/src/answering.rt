//! The answers to questions, which a board reads from the trees of its streams.
ghost use Rattle.std.specs.Prelude.{◌≡◌, ◌<◌, ◌≤◌, ◌^◌, List, length, slice_get, IfOk, IsNone, MatchOption, Some, Option};
ghost use Rattle.btr_base.specs.Range.{RangeValue};
ghost use Rattle.btr_hist.specs.declared.entry.Entry.{Entry as EntrySpec};
ghost use Rattle.btr_hist.specs.declared.query.Query.TheVariants as ask;
ghost use Rattle.btr_hist.specs.History.{ids};
ghost use Rattle.btr_hist.specs.Answer.{answer, rows_from};
ghost use Rattle.btr_streams.specs.declared.asking.Wanted.TheVariants as want;
ghost use Rattle.btr_streams.specs.Board.{IsBoardOf, IsTreeOf, versions_in};
ghost use Rattle.btr_streams.specs.Wanted.{answer_to, MayBeRead};

use crate::asking::{StreamFacts, Wanted, test_query};
use crate::board::Board;
use btr_base::{Range, Toward};
use btr_diff::changes;
use btr_hist::{Answer, CellList, PointList, Query, Reads, Rows, StreamList, StreamRow};
use btr_scan::{nearest, range};
use btr_tree::{Label, Steps, Tree};
use btr_window::{aligned, windows};
use std::alloc::{AllocError, Global};

/// The label of the counters of walks that answer questions.
struct AnswerWalk;

impl Label for AnswerWalk {}

impl StreamFacts for Board {
    ghost use Rattle.btr_streams.specs.Board.{IsBoardOf, versions_in};

    ghost IsOf = { IsBoardOf };

    ghost versions = { λ b. versions_in b.streams };

    fn latest_version(&self, stream: u32) -> Option<u64> {
        self.latest(stream)
    }

    fn earliest_version(&self, stream: u32) -> u64 {
        match self.streams.get(stream as usize) {
            Some(kept) => kept.earliest,
            None => 0,
        }
    }

    fn is_output(&self, stream: u32) -> bool {
        self.spec(stream).is_some()
    }

    fn versions_read(&self, stream: u32, version: u64) -> Option<Reads> {
        self.reads(stream, version)
    }
}

impl Board {
    /// Answers a question. It costs the nodes of the tree that the question needs, and its rows. The list of all streams costs
    /// their number. An `Err` means out of memory.
    pub fn answer(&self, alloc: Global, query: &Query) -> Result<Answer, AllocError>
        ensures { (h : List EntrySpec) → IsBoardOf h self.now → IfOk result (λ a. a ≡ answer h query.now) }
    {
        match test_query(self, query) {
            Ok(wanted) => self.read(alloc, wanted),
            Err(refusal) => Ok(Answer::Refused(refusal)),
        }
    }

    /// Answers with what is wanted.
    fn read(&self, alloc: Global, wanted: Wanted) -> Result<Answer, AllocError>
        requires { MayBeRead (versions_in self.now.streams) wanted }
        ensures { (h : List EntrySpec) → IsBoardOf h self.now → IfOk result (λ a. a ≡ answer_to h wanted) }
    {
        match wanted {
            Wanted::Points {
                stream,
                version,
                range,
            } => self.points(alloc, stream, version, range),
            Wanted::Nearest {
                stream,
                version,
                time,
                toward,
            } => self.nearest(alloc, stream, version, time, toward),
            Wanted::Aligned {
                stream,
                version,
                range,
                p,
            } => self.aligned(alloc, stream, version, range, p),
            Wanted::Windows {
                stream,
                version,
                range,
                width,
            } => self.windows(alloc, stream, version, range, width),
            Wanted::Changes {
                stream,
                old,
                new,
                p,
            } => self.changes(alloc, stream, old, new, p),
            Wanted::Info {
                stream,
                version,
                output,
                reads,
            } => Ok(self.info(stream, version, output, reads)),
            Wanted::Streams => self.all_streams(alloc),
        }
    }

    /// Answers with the points of a range.
    fn points(
        &self,
        alloc: Global,
        stream: u32,
        version: u64,
        between: Range,
    ) -> Result<Answer, AllocError>
        requires { version < versions_in self.now.streams stream }
        ensures { (h : List EntrySpec) → IsBoardOf h self.now → IfOk result (λ a. a ≡ answer_to h (want.Points stream version between)) }
    {
        let found = range(alloc, self.tree_of(stream, version), between)?;
        Ok(Answer::Found {
            version,
            rows: Rows::Points(PointList::from_points(found)),
        })
    }

    /// Answers with the point nearest to a time.
    fn nearest(
        &self,
        alloc: Global,
        stream: u32,
        version: u64,
        time: i64,
        toward: Toward,
    ) -> Result<Answer, AllocError>
        requires { version < versions_in self.now.streams stream }
        ensures { (h : List EntrySpec) → IsBoardOf h self.now
            → IfOk result (λ a. a ≡ answer_to h (want.Nearest stream version time toward)) }
    {
        let mut steps = Steps::<AnswerWalk>::new();
        let mut found = Vec::new(alloc);
        if let Some(point) = nearest(self.tree_of(stream, version), time, toward, &mut steps) {
            found.push(point)?;
        }
        Ok(Answer::Found {
            version,
            rows: Rows::Points(PointList::from_points(found)),
        })
    }

    /// Answers with the aligned windows that meet a range.
    fn aligned(
        &self,
        alloc: Global,
        stream: u32,
        version: u64,
        between: Range,
        p: u8,
    ) -> Result<Answer, AllocError>
        requires there { version < versions_in self.now.streams stream }
        requires power { p ≤ 62 }
        ensures { (h : List EntrySpec) → IsBoardOf h self.now
            → IfOk result (λ a. a ≡ answer_to h (want.Aligned stream version between p)) }
    {
        let found = aligned(alloc, self.tree_of(stream, version), between, p)?;
        Ok(Answer::Found {
            version,
            rows: Rows::Cells(CellList::from_cells(found)),
        })
    }

    /// Answers with the windows of a width, from the start of a range on.
    fn windows(
        &self,
        alloc: Global,
        stream: u32,
        version: u64,
        between: Range,
        width: u64,
    ) -> Result<Answer, AllocError>
        requires there { version < versions_in self.now.streams stream }
        requires some { 1 ≤ width }
        requires most { width ≤ 2 ^ 62 }
        ensures { (h : List EntrySpec) → IsBoardOf h self.now
            → IfOk result (λ a. a ≡ answer_to h (want.Windows stream version between width)) }
    {
        let found = windows(alloc, self.tree_of(stream, version), between, width)?;
        Ok(Answer::Found {
            version,
            rows: Rows::Cells(CellList::from_cells(found)),
        })
    }

    /// Answers with the slots in which two versions differ.
    fn changes(
        &self,
        alloc: Global,
        stream: u32,
        old: u64,
        new: u64,
        p: u8,
    ) -> Result<Answer, AllocError>
        requires there { new < versions_in self.now.streams stream }
        requires order { old ≤ new }
        requires power { p ≤ 62 }
        ensures { (h : List EntrySpec) → IsBoardOf h self.now → IfOk result (λ a. a ≡ answer_to h (want.Changes stream old new p)) }
    {
        let mut steps = Steps::<AnswerWalk>::new();
        let older = self.tree_of(stream, old);
        let newer = self.tree_of(stream, new);
        let older = older.uncounted::<AnswerWalk>();
        let found = changes(alloc, older, newer, old, p, &mut steps)?;
        Ok(Answer::Found {
            version: new,
            rows: Rows::Ranges(found),
        })
    }

    /// Answers with the aggregate of a whole version, the kind of the stream, and what the version has read.
    fn info(&self, stream: u32, version: u64, output: bool, reads: Option<Reads>) -> Answer
        requires { version < versions_in self.now.streams stream }
        ensures { (h : List EntrySpec) → IsBoardOf h self.now → result ≡ answer_to h (want.Info stream version output reads) }
    {
        Answer::Found {
            version,
            rows: Rows::Info {
                output,
                agg: self.tree_of(stream, version).root_agg(),
                reads,
            },
        }
    }

    /// Answers with all streams, in order of creation.
    fn all_streams(&self, alloc: Global) -> Result<Answer, AllocError>
        ensures { (h : List EntrySpec) → IsBoardOf h self.now → IfOk result (λ a. a ≡ answer h ask.Streams) }
    {
        let mut rows = Vec::with_capacity(alloc, self.streams.len())?;
        for place in 0..self.streams.len() {
            let Some(row) = self.row(place) else {
                unreachable!()
            };
            rows.push(row)?;
        }
        Ok(Answer::Found {
            version: self.entries(),
            rows: Rows::Streams(StreamList::from_rows(rows)),
        })
    }

    /// Returns the row of the stream with this number, if there is one.
    fn row(&self, place: usize) -> Option<StreamRow>
        ensures past { IsNone result → length self.now.streams ≤ place }
        ensures row { (h : List EntrySpec) → IsBoardOf h self.now
            → MatchOption result (length (ids h) ≤ place) (λ r. slice_get (rows_from h 0 (ids h)) place ≡ Some r) }
    {
        let kept = self.streams.get(place)?;
        Some(StreamRow {
            id: kept.id,
            latest: (kept.trees.len() - 1) as u64,
            output: kept.spec.is_some(),
        })
    }

    /// Returns the tree of a version that the stream has. It costs logarithmic time and takes no memory.
    fn tree_of(&self, stream: u32, version: u64) -> &Tree
        requires { version < versions_in self.now.streams stream }
        ensures { (h : List EntrySpec) → IsBoardOf h self.now → IsTreeOf h stream version result.now }
    {
        match self.tree(stream, version) {
            Some(tree) => tree,
            None => unreachable!(),
        }
    }
}
