//! Questions, each answered from a snapshot.
ghost use Rattle.std.specs.Prelude.{List, Some};
ghost use Rattle.btr_hist.specs.History.{stream_of};
ghost use Rattle.btr_hist.specs.Query.{of_stream};
ghost use Rattle.btr_hist.specs.declared.entry.Entry.{Entry as EntrySpec};
ghost use Rattle.btr_streams.specs.Snapshot.{IsSnapshotOf};
ghost use Rattle.btr_live.specs.Meaning.{Asks, on_stream, question};
ghost use Rattle.btr_live.specs.Serving.{IsAnswerOrNoMemory};

use btr_engine::Snapshot;
use btr_hall::FoundStream;
use btr_hist::{Answer, Query, StreamQuery};
use btr_text::{Line, LineReply, Reason};
use std::alloc::Global;

/// Answers a line that is a question, from a snapshot. Any other line fits no form here. It costs the nodes of the tree that the question
/// needs, and its rows. If memory runs out, the reply says so.
pub fn answer_question(alloc: Global, snapshot: &Snapshot, line: Option<Line>) -> LineReply
    ensures { (h : List EntrySpec) → IsSnapshotOf h snapshot.now → IsAnswerOrNoMemory h (question h line) result }
{
    let Some(line) = line else {
        return LineReply::No(Reason::Line);
    };
    match line {
        Line::Ask { id, query } => answer_stream(alloc, snapshot, id, query),
        Line::Streams => answer(alloc, snapshot, &Query::Streams),
        Line::Create { .. } | Line::Insert { .. } | Line::Delete { .. } => {
            LineReply::No(Reason::Line)
        }
        Line::Feed { .. } | Line::Flush { .. } | Line::Discard { .. } => {
            LineReply::No(Reason::Line)
        }
        Line::Distiller { .. } | Line::Refresh { .. } | Line::Retire { .. } => {
            LineReply::No(Reason::Line)
        }
    }
}

/// Answers a question about the stream with this id from a snapshot.
pub(crate) fn answer_stream(
    alloc: Global,
    snapshot: &Snapshot,
    id: u128,
    query: StreamQuery,
) -> LineReply
    ensures { (h : List EntrySpec) → IsSnapshotOf h snapshot.now
        → IsAnswerOrNoMemory h (on_stream (stream_of h id) (λ stream. Asks (of_stream query stream))) result }
{
    match snapshot.find(id) {
        None => LineReply::No(Reason::Stream),
        Some(stream) => answer(alloc, snapshot, &query.of(stream)),
    }
}

/// Answers a question from a snapshot.
pub(crate) fn answer(alloc: Global, snapshot: &Snapshot, query: &Query) -> LineReply
    ensures { (h : List EntrySpec) → IsSnapshotOf h snapshot.now → IsAnswerOrNoMemory h (Asks query.now) result }
{
    match snapshot.answer(alloc, query) {
        Ok(Answer::Found { version, rows }) => LineReply::Found { version, rows },
        Ok(Answer::Refused(refusal)) => LineReply::No(Reason::of_refusal(refusal)),
        Err(_) => LineReply::No(Reason::Memory),
    }
}
