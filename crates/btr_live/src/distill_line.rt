//! The lines of outputs: two define an output, and one brings it up to date.
ghost use Rattle.std.specs.Prelude.{◌≡◌, ℕ, Some};
ghost use Rattle.btr_hist.specs.declared.entry.Entry.TheVariants.{Define as DefineSpec};
ghost use Rattle.btr_hist.specs.History.{stream_of};
ghost use Rattle.btr_text.specs.declared.script.Line.TheVariants as lines;
ghost use Rattle.btr_jobs.specs.Jobs.{IsAt};
ghost use Rattle.btr_live.specs.Feeds.{Waiting};
ghost use Rattle.btr_live.specs.Meaning.{Commits, define, on_stream};
ghost use Rattle.btr_live.specs.Replies.{Means};
ghost use Rattle.btr_live.specs.Serving.{AsksFor, RefreshAsks, ServesIn, reply_of_refreshed};

use crate::line::commit;
use crate::reasons::reason_of_landing;
use btr_disk::Disk;
use btr_hall::{FoundStream, Hall, Session};
use btr_hist::{Entry, Kernel, Spec};
use btr_jobs::System;
use btr_text::{LineReply, Reason};
use btr_work::{Refreshed, refresh_output};
use std::marker::Sync;
use std::sync::Wait;
use std::thread::Threads;

/// `distiller ID KERNEL LEAD GRAIN ID [ID]`: defines an output, whose inputs are the streams with the ids `first` and `second`. A line
/// `cell ID WHICH P GRAIN ID` comes here too, with a kernel of aligned windows, a lead of 0 and one input.
pub(crate) fn define<R: Threads + Wait + Sync, D: Disk>(
    system: System<'_, R>,
    hall: &Hall<D>,
    session: &mut Session<D>,
    id: u128,
    kernel: Kernel,
    lead: u64,
    grain: u8,
    first: u128,
    second: Option<u128>,
) -> LineReply
    requires at { IsAt hall.now session.old }
    ensures at { IsAt hall.now session.new }
    ensures serves { ServesIn hall.now session.old session.new (AsksFor (λ h. define h id kernel lead grain first second)) result }
{
    match session.find(system.rt, hall, first) {
        None => LineReply::No(Reason::Stream),
        Some(FoundStream { stream, .. }) => {
            let spec = Spec {
                kernel,
                lead,
                grain,
                first: stream,
                second: None,
            };
            match second {
                None => commit(system, hall, session, &Entry::Define { id, spec }),
                Some(second) => define_of_two(system, hall, session, id, spec, second),
            }
        }
    }
}

/// Defines an output with one more input, the stream with the id `second`.
fn define_of_two<R: Threads + Wait + Sync, D: Disk>(
    system: System<'_, R>,
    hall: &Hall<D>,
    session: &mut Session<D>,
    id: u128,
    spec: Spec,
    second: u128,
) -> LineReply
    requires at { IsAt hall.now session.old }
    ensures at { IsAt hall.now session.new }
    ensures serves { ServesIn hall.now session.old session.new
        (AsksFor (λ h. on_stream (stream_of h second) (λ s. Commits (DefineSpec id (record spec { second = Some s }))))) result }
{
    match session.find(system.rt, hall, second) {
        None => LineReply::No(Reason::Stream),
        Some(FoundStream { stream, .. }) => {
            let spec = Spec {
                second: Some(stream),
                ..spec
            };
            commit(system, hall, session, &Entry::Define { id, spec })
        }
    }
}

/// `refresh ID`: brings the output with this id up to date.
pub(crate) fn refresh<R: Threads + Wait + Sync, D: Disk>(
    system: System<'_, R>,
    hall: &Hall<D>,
    session: &mut Session<D>,
    id: u128,
) -> LineReply
    requires at { IsAt hall.now session.old }
    ensures at { IsAt hall.now session.new }
    ensures serves { (batch : ℕ) (w : Waiting)
        → ServesIn hall.now session.old session.new (λ h m. Means batch h w (Some (lines.Refresh id)) m) result }
{
    match session.find(system.rt, hall, id) {
        None => LineReply::No(Reason::Stream),
        Some(found) => match found.spec {
            None => LineReply::No(Reason::Plain),
            Some(_) => refresh_stream(system, hall, session, found.stream),
        },
    }
}

/// Brings an output up to date, and returns the reply. Its cost follows what has changed in the inputs since the latest version of the
/// output.
fn refresh_stream<R: Threads + Wait + Sync, D: Disk>(
    system: System<'_, R>,
    hall: &Hall<D>,
    session: &mut Session<D>,
    stream: u32,
) -> LineReply
    requires at { IsAt hall.now session.old }
    ensures at { IsAt hall.now session.new }
    ensures serves { ServesIn hall.now session.old session.new (RefreshAsks stream) result }
{
    let refreshed = refresh_output(system, hall, session, stream, 1);
    reply_of_refreshed(refreshed)
}

/// The reply to a refresh, by what became of the output.
fn reply_of_refreshed(refreshed: Refreshed) -> LineReply
    ensures { result ≡ reply_of_refreshed refreshed }
{
    match refreshed {
        Refreshed::Landed { version } | Refreshed::Current { version } => LineReply::Done {
            version,
        },
        Refreshed::Refused(fault) => LineReply::No(reason_of_landing(fault)),
    }
}
