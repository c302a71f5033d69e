//! One line of a lane whose points wait in shared buffers.
ghost use Rattle.std.specs.Prelude.{◌≡◌, List, None, Some};
ghost use Rattle.btr_hist.specs.declared.entry.Entry.{Entry as EntrySpec};
ghost use Rattle.btr_text.specs.declared.script.Line.TheVariants as lines;
ghost use Rattle.btr_jobs.specs.Jobs.{IsAt};
ghost use Rattle.btr_live.specs.SharedLines.{reason_of_offer, reply_of_flush, reply_of_offer, reply_of_outcome};
ghost use Rattle.btr_live.specs.Feeds.{fed, none_waiting};
ghost use Rattle.btr_live.specs.Serving.{LineAsks, ServesIn, ServesShared, SharesIn};

use crate::feeds::Feeds;
use crate::line::answer_line;
use crate::reasons::reason_of_step;
use btr_base::Bag;
use btr_disk::Disk;
use btr_hall::{Flushed, Groups, Hall, OfferFault, Offered, Outcome, Session};
use btr_jobs::System;
use btr_text::{Line, LineReply, Reason};
use std::alloc::AllocError;
use std::marker::Sync;
use std::sync::Wait;
use std::thread::Threads;

/// Does what a line asks for, and returns the reply.
pub(crate) fn answer_shared_line<R: Threads + Wait + Sync, D: Disk, G: Groups>(
    system: System<'_, R>,
    hall: &Hall<D>,
    session: &mut Session<D>,
    groups: &mut G,
    line: Option<Line>,
) -> LineReply
    requires at { IsAt hall.now session.old }
    ensures at { IsAt hall.now session.new }
    ensures later { G.later groups.old groups.new }
    ensures groups { G.has_group groups.new ≡ G.has_group groups.old }
    ensures threshold { G.threshold groups.new ≡ G.threshold groups.old }
    ensures line { ServesShared ⟦<G as Groups>⟧ hall.now session.old session.new groups.old groups.new line result }
{
    match line {
        None => answer_alone(system, hall, session, None),
        Some(line) => match line {
            Line::Feed { id, added } => offer(system, hall, session, groups, id, &added),
            Line::Flush { id } => lead(system, hall, session, groups, id),
            Line::Discard { .. } => LineReply::No(Reason::Line),
            line => answer_alone(system, hall, session, Some(line)),
        },
    }
}

/// Does what a line asks for that is none of feeds, and returns the reply.
fn answer_alone<R: Threads + Wait + Sync, D: Disk>(
    system: System<'_, R>,
    hall: &Hall<D>,
    session: &mut Session<D>,
    line: Option<Line>,
) -> LineReply
    requires at { IsAt hall.now session.old }
    requires other { (h : List EntrySpec) → fed h none_waiting line ≡ None }
    ensures at { IsAt hall.now session.new }
    ensures serves { ServesIn hall.now session.old session.new (LineAsks 1 none_waiting line result none_waiting) result }
{
    let mut feeds = Feeds::new(system.alloc, 1);
    answer_line(system, hall, session, &mut feeds, line)
}

/// `feed ID T V ..`: puts points into the buffer of the stream with this id. An output has none.
fn offer<R: Threads + Wait + Sync, D: Disk, G: Groups>(
    system: System<'_, R>,
    hall: &Hall<D>,
    session: &mut Session<D>,
    groups: &mut G,
    id: u128,
    added: &Bag,
) -> LineReply
    requires at { IsAt hall.now session.old }
    ensures at { IsAt hall.now session.new }
    ensures later { G.later groups.old groups.new }
    ensures groups { G.has_group groups.new ≡ G.has_group groups.old }
    ensures threshold { G.threshold groups.new ≡ G.threshold groups.old }
    ensures shares { SharesIn ⟦<G as Groups>⟧ hall.now session.old session.new groups.old groups.new
        (Some (lines.Feed id added.now)) result }
{
    match session.find(system.rt, hall, id) {
        None => LineReply::No(Reason::Stream),
        Some(found) => match found.spec {
            Some(_) => LineReply::No(Reason::Output),
            None => {
                if groups.has(found.stream) {
                    let points = added.as_slice();
                    reply_of_offer(groups.offer(system.rt, system.alloc, found.stream, points))
                } else {
                    LineReply::No(Reason::Group)
                }
            }
        },
    }
}

/// `flush ID`: commits the points that wait in the buffer of the stream with this id.
fn lead<R: Threads + Wait + Sync, D: Disk, G: Groups>(
    system: System<'_, R>,
    hall: &Hall<D>,
    session: &mut Session<D>,
    groups: &mut G,
    id: u128,
) -> LineReply
    requires at { IsAt hall.now session.old }
    ensures at { IsAt hall.now session.new }
    ensures later { G.later groups.old groups.new }
    ensures groups { G.has_group groups.new ≡ G.has_group groups.old }
    ensures threshold { G.threshold groups.new ≡ G.threshold groups.old }
    ensures shares { SharesIn ⟦<G as Groups>⟧ hall.now session.old session.new groups.old groups.new (Some (lines.Flush id)) result }
{
    match session.find(system.rt, hall, id) {
        None => LineReply::No(Reason::Stream),
        Some(found) => match found.spec {
            Some(_) => LineReply::No(Reason::Output),
            None => {
                if groups.has(found.stream) {
                    reply_of_flush(groups.flush(system.rt, system.alloc, found.stream))
                } else {
                    LineReply::No(Reason::Group)
                }
            }
        },
    }
}

/// The reply to a line that gave points.
fn reply_of_offer(offered: Result<Offered, OfferFault>) -> LineReply
    ensures { result ≡ reply_of_offer offered }
{
    match offered {
        Ok(Offered { ticket, led: None }) => LineReply::Ticket { ticket },
        Ok(
            Offered {
                led: Some(outcome),
                ..
            },
        ) => reply_of_outcome(outcome),
        Err(fault) => LineReply::No(reason_of_offer(fault)),
    }
}

/// The reason of a line whose points a buffer does not accept.
fn reason_of_offer(fault: OfferFault) -> Reason
    ensures { result ≡ reason_of_offer fault }
{
    match fault {
        OfferFault::OutOfDomain { time } => Reason::Domain { time },
        OfferFault::Empty => Reason::Empty,
        OfferFault::TooMany { count } => Reason::Many { count },
        OfferFault::Spent => Reason::Spent,
        OfferFault::Want => Reason::Memory,
    }
}

/// The reply to a line that committed what waited.
fn reply_of_flush(flushed: Result<Flushed, AllocError>) -> LineReply
    ensures { result ≡ reply_of_flush flushed }
{
    match flushed {
        Ok(Flushed::Busy) => LineReply::No(Reason::Busy),
        Ok(Flushed::Nothing) => LineReply::No(Reason::Empty),
        Ok(Flushed::Led(outcome)) => reply_of_outcome(outcome),
        Err(_) => LineReply::No(Reason::Memory),
    }
}

/// The reply to a line that led a batch with this outcome.
fn reply_of_outcome(outcome: Outcome) -> LineReply
    ensures { result ≡ reply_of_outcome outcome }
{
    match outcome {
        Outcome::Stored(receipt) => LineReply::Done {
            version: receipt.version,
        },
        Outcome::Refused(fault) => LineReply::No(reason_of_step(fault, 0)),
    }
}
