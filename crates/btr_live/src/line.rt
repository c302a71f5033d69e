//! One line of a lane: what it asks for is done in turns of the lane's session, and it has its reply.
ghost use Rattle.std.specs.Prelude.{◌≡◌, ℕ, [], ◌∷◌, false, Some, IfOk};
ghost use Rattle.btr_base.specs.Range.{RangeValue};
ghost use Rattle.btr_hist.specs.declared.entry.Entry.TheVariants.{Commit as CommitSpec, Retire as RetireSpec};
ghost use Rattle.btr_hist.specs.History.{stream_of};
ghost use Rattle.btr_hist.specs.Query.{of_stream};
ghost use Rattle.btr_hall.specs.Found.{IsFound};
ghost use Rattle.btr_hall.specs.Commit.{is_distillate};
ghost use Rattle.btr_jobs.specs.Jobs.{IsAt};
ghost use Rattle.btr_live.specs.Meaning.{Asks, Commits, delete, on_stream};
ghost use Rattle.btr_live.specs.Serving.{AsksFor, Knows, RepliesIn, ServesIn, ServesLine, holding_output, reply_with};

use crate::distill_line::{define, refresh};
use crate::feed_line::{discard, feed, flush};
use crate::feeds::Feeds;
use crate::question::{answer, answer_stream};
use crate::reasons::reason_of_step;
use btr_base::{Bag, Range, Ranges};
use btr_disk::Disk;
use btr_engine::{Receipt, StepFault};
use btr_hall::{FoundStream, Hall, Session};
use btr_hist::{Entry, Query, Rejection, StreamQuery};
use btr_jobs::System;
use btr_text::{Line, LineReply, Reason};
use std::alloc::{AllocError, Global};
use std::marker::Sync;
use std::sync::Wait;
use std::thread::Threads;

/// Does what a line asks for, and returns the reply.
pub(crate) fn answer_line<R: Threads + Wait + Sync, D: Disk>(
    system: System<'_, R>,
    hall: &Hall<D>,
    session: &mut Session<D>,
    feeds: &mut Feeds,
    line: Option<Line>,
) -> LineReply
    requires at { IsAt hall.now session.old }
    ensures at { IsAt hall.now session.new }
    ensures line { ServesLine hall.now session.old session.new feeds.old feeds.new line result }
    ensures batch { feeds.new.batch ≡ feeds.old.batch }
{
    match line {
        Some(Line::Create { id }) => commit(system, hall, session, &Entry::Create { id }),
        Some(Line::Insert { id, added }) => insert(system, hall, session, id, added),
        Some(Line::Delete { id, from, to }) => delete(system, hall, session, id, from, to),
        Some(Line::Feed { id, added }) => feed(system, hall, session, feeds, id, &added),
        Some(Line::Flush { id }) => flush(system, hall, session, feeds, id),
        Some(Line::Discard { id }) => discard(system.rt, hall, session, feeds, id),
        Some(
            Line::Distiller {
                id,
                kernel,
                lead,
                grain,
                first,
                second,
            },
        ) => {
            define(
                system, hall, session, id, kernel, lead, grain, first, second,
            )
        }
        Some(Line::Refresh { id }) => refresh(system, hall, session, id),
        Some(Line::Retire { id, first }) => retire(system, hall, session, id, first),
        Some(Line::Ask { id, query }) => ask_stream(system, hall, session, id, query),
        Some(Line::Streams) => ask(system, hall, session, &Query::Streams),
        None => LineReply::No(Reason::Line),
    }
}

/// Commits points to the stream with this id.
fn insert<R: Threads + Wait + Sync, D: Disk>(
    system: System<'_, R>,
    hall: &Hall<D>,
    session: &mut Session<D>,
    id: u128,
    added: Bag,
) -> LineReply
    requires at { IsAt hall.now session.old }
    ensures at { IsAt hall.now session.new }
    ensures serves { ServesIn hall.now session.old session.new
        (AsksFor (λ h. on_stream (stream_of h id) (λ stream. Commits (CommitSpec stream [] added)))) result }
{
    match session.find(system.rt, hall, id) {
        None => LineReply::No(Reason::Stream),
        Some(FoundStream { stream, .. }) => {
            let cut = Ranges::none(system.alloc);
            commit(system, hall, session, &Entry::Commit { stream, cut, added })
        }
    }
}

/// Retires the versions of the stream with this id before the first.
fn retire<R: Threads + Wait + Sync, D: Disk>(
    system: System<'_, R>,
    hall: &Hall<D>,
    session: &mut Session<D>,
    id: u128,
    first: u64,
) -> LineReply
    requires at { IsAt hall.now session.old }
    ensures at { IsAt hall.now session.new }
    ensures serves { ServesIn hall.now session.old session.new
        (AsksFor (λ h. on_stream (stream_of h id) (λ stream. Commits (RetireSpec stream first)))) result }
{
    match session.find(system.rt, hall, id) {
        None => LineReply::No(Reason::Stream),
        Some(FoundStream { stream, .. }) => {
            commit(system, hall, session, &Entry::Retire { stream, first })
        }
    }
}

/// Commits the removal of the points of a range from the stream with this id.
fn delete<R: Threads + Wait + Sync, D: Disk>(
    system: System<'_, R>,
    hall: &Hall<D>,
    session: &mut Session<D>,
    id: u128,
    from: i64,
    to: i64,
) -> LineReply
    requires at { IsAt hall.now session.old }
    ensures at { IsAt hall.now session.new }
    ensures serves { ServesIn hall.now session.old session.new
        (AsksFor (λ h. on_stream (stream_of h id) (λ stream. delete stream from to))) result }
{
    match session.find(system.rt, hall, id) {
        None => LineReply::No(Reason::Stream),
        Some(found) => match Range::new(from, to) {
            None => LineReply::No(Reason::Range),
            Some(range) => delete_range(system, hall, session, found, range),
        },
    }
}

/// Commits the removal of the points of a range from a stream that was found.
fn delete_range<R: Threads + Wait + Sync, D: Disk>(
    system: System<'_, R>,
    hall: &Hall<D>,
    session: &mut Session<D>,
    found: FoundStream,
    range: Range,
) -> LineReply
    requires at { IsAt hall.now session.old }
    requires found { Knows hall.now session.old (λ h. (id : ℕ) × IsFound h id (Some found)) }
    ensures at { IsAt hall.now session.new }
    ensures replies { RepliesIn hall.now session.old session.new (Commits (CommitSpec found.stream (range ∷ []) [])) result }
{
    match one_range(system.alloc, range) {
        Ok(cut) => {
            let (stream, added) = (found.stream, Bag::from_points(Vec::new(system.alloc)));
            commit(system, hall, session, &Entry::Commit { stream, cut, added })
        }
        Err(_) => refuse_range(system.rt, hall, session, found),
    }
}

/// Refuses to remove the points of a range, since there is no memory for a list of it. What a commit tests before it takes memory is
/// tested all the same: whether the store is stopped or sealed, and whether the stream is an output.
fn refuse_range<R: Wait, D: Disk>(
    rt: &R,
    hall: &Hall<D>,
    session: &mut Session<D>,
    found: FoundStream,
) -> LineReply
    requires at { IsAt hall.now session.old }
    requires found { Knows hall.now session.old (λ h. (id : ℕ) × IsFound h id (Some found)) }
    ensures at { IsAt hall.now session.new }
    ensures replies { (range : RangeValue)
        → RepliesIn hall.now session.old session.new (Commits (CommitSpec found.stream (range ∷ []) [])) result }
{
    let sealed = session.sealed(rt, hall);
    if let Some(entries) = session.stopped(rt, hall) {
        return LineReply::No(Reason::Stopped { entries });
    }
    if sealed {
        return LineReply::No(Reason::Sealed);
    }
    match found.spec {
        Some(_) => LineReply::No(Reason::Output),
        None => LineReply::No(Reason::Memory),
    }
}

/// Returns the ranges of a commit that removes one range.
fn one_range(alloc: Global, range: Range) -> Result<Ranges, AllocError>
    ensures { IfOk result (λ r. r ≡ range ∷ []) }
{
    let mut ranges = Vec::new(alloc);
    ranges.push(range)?;
    match Ranges::from_ranges(ranges) {
        Some(cut) => Ok(cut),
        None => Err(AllocError),
    }
}

/// Commits an entry, which is no distillate. If an output holds the version that the entry would retire, it takes one more turn, which
/// looks up the id of that output.
pub(crate) fn commit<R: Threads + Wait + Sync, D: Disk>(
    system: System<'_, R>,
    hall: &Hall<D>,
    session: &mut Session<D>,
    entry: &Entry,
) -> LineReply
    requires at { IsAt hall.now session.old }
    requires user { is_distillate entry.now ≡ false }
    ensures at { IsAt hall.now session.new }
    ensures replies { RepliesIn hall.now session.old session.new (Commits entry.now) result }
{
    let result = session.commit(system.rt, system.alloc, hall, entry);
    match holding_output(&result) {
        None => reply_with(result, 0),
        Some(output) => {
            let id = session.id(system.rt, hall, output).unwrap_or(0);
            reply_with(result, id)
        }
    }
}

/// The number of the output that holds a version which the entry would retire, by the result of its turn.
fn holding_output(step: &Result<Receipt, StepFault>) -> Option<u32>
    ensures { result ≡ holding_output step.now }
{
    match step {
        Err(StepFault::Rejected(Rejection::Held { output, .. })) => Some(*output),
        Ok(_) | Err(_) => None,
    }
}

/// The reply to an entry, by the result of its turn. If its rejection names an output, `id` is the id of that.
fn reply_with(step: Result<Receipt, StepFault>, id: u128) -> LineReply
    ensures { result ≡ reply_with id step }
{
    match step {
        Ok(receipt) => LineReply::Done {
            version: receipt.version,
        },
        Err(fault) => LineReply::No(reason_of_step(fault, id)),
    }
}

/// Answers a question about the stream with this id: one admission, and then an answer from its snapshot, after the turn. Without
/// memory for the snapshot it is still tested whether the stream exists.
fn ask_stream<R: Wait, D: Disk>(
    system: System<'_, R>,
    hall: &Hall<D>,
    session: &mut Session<D>,
    id: u128,
    query: StreamQuery,
) -> LineReply
    requires at { IsAt hall.now session.old }
    ensures at { IsAt hall.now session.new }
    ensures serves { ServesIn hall.now session.old session.new
        (AsksFor (λ h. on_stream (stream_of h id) (λ stream. Asks (of_stream query stream)))) result }
{
    match session.admit(system.rt, hall) {
        Ok(snapshot) => answer_stream(system.alloc, &snapshot, id, query),
        Err(_) => match session.find(system.rt, hall, id) {
            None => LineReply::No(Reason::Stream),
            Some(_) => LineReply::No(Reason::Memory),
        },
    }
}

/// Answers a question from a snapshot that is taken in a turn.
fn ask<R: Wait, D: Disk>(
    system: System<'_, R>,
    hall: &Hall<D>,
    session: &mut Session<D>,
    query: &Query,
) -> LineReply
    requires at { IsAt hall.now session.old }
    ensures at { IsAt hall.now session.new }
    ensures serves { ServesIn hall.now session.old session.new (AsksFor (λ h. Asks query.now)) result }
{
    match session.admit(system.rt, hall) {
        Ok(snapshot) => answer(system.alloc, &snapshot, query),
        Err(_) => LineReply::No(Reason::Memory),
    }
}
