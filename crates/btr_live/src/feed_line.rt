//! The lines of feeds: points wait until they are a commit of the size that was asked for.
ghost use Rattle.std.specs.Prelude.{◌≡◌, ◌<◌, ◌≤◌, [], length, Some};
ghost use Rattle.btr_base.specs.Bag.{sort};
ghost use Rattle.btr_base.specs.Point.{AreInDomain};
ghost use Rattle.btr_base.specs.declared.limits.TheConstants.{MAX_COMMIT_POINTS};
ghost use Rattle.btr_text.specs.declared.script.Line.TheVariants as lines;
ghost use Rattle.btr_jobs.specs.Jobs.{IsAt};
ghost use Rattle.btr_live.specs.Feeds.{added_of, KeepsFeeds, waiting_of};
ghost use Rattle.btr_live.specs.Meaning.{Meaning, insert_points, reason_of_fault};
ghost use Rattle.btr_live.specs.Replies.{left_over};
ghost use Rattle.btr_live.specs.Serving.{AddsPoints, RepliesIn, ServesLine};

use crate::feeds::Feeds;
use crate::line::commit;
use btr_base::{Bag, Point, Ranges};
use btr_disk::Disk;
use btr_feed::{FeedFault, Held};
use btr_hall::{FoundStream, Hall, Session};
use btr_hist::Entry;
use btr_jobs::System;
use btr_text::{LineReply, Reason};
use std::alloc::Global;
use std::marker::Sync;
use std::sync::Wait;
use std::thread::Threads;

/// `feed ID T V ..`: adds points to the feed of the stream with this id, and commits all if they are then due. An output takes none.
pub(crate) fn feed<R: Threads + Wait + Sync, D: Disk>(
    system: System<'_, R>,
    hall: &Hall<D>,
    session: &mut Session<D>,
    feeds: &mut Feeds,
    id: u128,
    added: &Bag,
) -> LineReply
    requires at { IsAt hall.now session.old }
    ensures at { IsAt hall.now session.new }
    ensures line { ServesLine hall.now session.old session.new feeds.old feeds.new (Some (lines.Feed id added.now)) result }
    ensures batch { feeds.new.batch ≡ feeds.old.batch }
{
    match session.find(system.rt, hall, id) {
        None => LineReply::No(Reason::Stream),
        Some(found) => match found.spec {
            Some(_) => LineReply::No(Reason::Output),
            None => {
                let stream = found.stream;
                feed_stream(system, hall, session, feeds, stream, added.as_slice())
            }
        },
    }
}

/// Adds points to the feed of a stream, and commits all if they are then due.
fn feed_stream<R: Threads + Wait + Sync, D: Disk>(
    system: System<'_, R>,
    hall: &Hall<D>,
    session: &mut Session<D>,
    feeds: &mut Feeds,
    stream: u32,
    points: &[Point],
) -> LineReply
    requires at { IsAt hall.now session.old }
    ensures at { IsAt hall.now session.new }
    ensures replies { (m : Meaning) × AddsPoints feeds.old.batch (waiting_of feeds.old) stream points.now m result (waiting_of feeds.new)
        × RepliesIn hall.now session.old session.new m result }
    ensures batch { feeds.new.batch ≡ feeds.old.batch }
{
    match feeds.insert(stream, points) {
        Ok(Held::Buffered(count)) => LineReply::Held { count },
        Ok(Held::Due(_)) => commit_feed(system, hall, session, feeds, stream),
        Err(fault) => LineReply::No(reason_of(fault)),
    }
}

/// Returns the reason of a line whose points the feed does not accept.
fn reason_of(fault: FeedFault) -> Reason
    ensures { result ≡ reason_of_fault fault }
{
    match fault {
        FeedFault::OutOfDomain { time } => Reason::Domain { time },
        FeedFault::TooMany { count } => Reason::Many { count },
        FeedFault::Want => Reason::Memory,
    }
}

/// `flush ID`: commits the points that wait for the stream with this id.
pub(crate) fn flush<R: Threads + Wait + Sync, D: Disk>(
    system: System<'_, R>,
    hall: &Hall<D>,
    session: &mut Session<D>,
    feeds: &mut Feeds,
    id: u128,
) -> LineReply
    requires at { IsAt hall.now session.old }
    ensures at { IsAt hall.now session.new }
    ensures line { ServesLine hall.now session.old session.new feeds.old feeds.new (Some (lines.Flush id)) result }
    ensures batch { feeds.new.batch ≡ feeds.old.batch }
{
    match session.find(system.rt, hall, id) {
        None => LineReply::No(Reason::Stream),
        Some(found) => match found.spec {
            Some(_) => LineReply::No(Reason::Output),
            None => {
                if feeds.is_empty(found.stream) {
                    LineReply::No(Reason::Empty)
                } else {
                    commit_feed(system, hall, session, feeds, found.stream)
                }
            }
        },
    }
}

/// `discard ID`: drops the points that wait for the stream with this id. It takes no memory.
pub(crate) fn discard<R: Wait, D: Disk>(
    rt: &R,
    hall: &Hall<D>,
    session: &mut Session<D>,
    feeds: &mut Feeds,
    id: u128,
) -> LineReply
    requires at { IsAt hall.now session.old }
    ensures at { IsAt hall.now session.new }
    ensures line { ServesLine hall.now session.old session.new feeds.old feeds.new (Some (lines.Discard id)) result }
    ensures batch { feeds.new.batch ≡ feeds.old.batch }
{
    match session.find(rt, hall, id) {
        None => LineReply::No(Reason::Stream),
        Some(FoundStream { stream, .. }) => {
            feeds.discard(stream);
            LineReply::Held { count: 0 }
        }
    }
}

/// Commits the points that wait for a stream, as one insert. It sorts them, and so takes time n log n. If the commit is
/// refused, they wait still, in order.
fn commit_feed<R: Threads + Wait + Sync, D: Disk>(
    system: System<'_, R>,
    hall: &Hall<D>,
    session: &mut Session<D>,
    feeds: &mut Feeds,
    stream: u32,
) -> LineReply
    requires at { IsAt hall.now session.old }
    requires there { stream < length feeds.old.feeds }
    ensures at { IsAt hall.now session.new }
    ensures replies { RepliesIn hall.now session.old session.new (insert_points stream (waiting_of feeds.old stream)) result }
    ensures waiting { KeepsFeeds (left_over (waiting_of feeds.old stream) result) stream feeds.old feeds.new }
{
    let points = feeds.take(stream);
    let entry = Entry::Commit {
        stream,
        cut: Ranges::none(system.alloc),
        added: Bag::from_points(points),
    };
    let reply = commit(system, hall, session, &entry);
    keep_refused(feeds, stream, added_of(system.alloc, entry), &reply);
    reply
}

/// Returns the points that an entry adds. It takes no memory.
fn added_of(alloc: Global, entry: Entry) -> Bag
    ensures { result ≡ added_of entry }
{
    match entry {
        Entry::Create { .. } | Entry::Define { .. } | Entry::Retire { .. } => {
            Bag::from_points(Vec::new(alloc))
        }
        Entry::Commit { added, .. } => added,
        Entry::Distillate { added, .. } => added,
    }
}

/// Keeps the points of a commit that had this reply, if it was refused. It takes no memory.
fn keep_refused(feeds: &mut Feeds, stream: u32, points: Bag, reply: &LineReply)
    requires there { stream < length feeds.old.feeds }
    requires empty { waiting_of feeds.old stream ≡ [] }
    requires in_domain { AreInDomain points }
    requires most { length points ≤ MAX_COMMIT_POINTS }
    requires in_order { sort points ≡ points }
    ensures { KeepsFeeds (left_over points reply.now) stream feeds.old feeds.new }
{
    match reply {
        LineReply::Done { .. } => {}
        LineReply::Held { .. }
        | LineReply::Ticket { .. }
        | LineReply::Found { .. }
        | LineReply::No(_) => {
            feeds.put_back(stream, points.into_points());
        }
    }
}
