//! A store is opened, its lines are answered one at a time, and it is closed.
ghost use Rattle.std.specs.Prelude.{◌≡◌, ◌≤◌, IfErr, IfOk, OnErr};
ghost use Rattle.btr_base.specs.declared.limits.TheConstants.{MAX_COMMIT_POINTS};
ghost use Rattle.btr_open.specs.Opening.{IsNotOpened};
ghost use Rattle.btr_serve.specs.Serves.{WasServed};

use crate::course::Course;
use crate::store_desk::StoreDesk;
use btr_disk::Disk;
use btr_io::{Sink, Source};
use btr_jobs::System;
use btr_live::{Feeds, one_session_is_the_model};
use btr_open::OpenFault;
use btr_store::{Status, Transcript, Worked, close_hall, open_hall};
use btr_talk::{TalkEnd, Talked, talk};
use std::marker::Sync;
use std::sync::Wait;
use std::thread::Threads;

/// How the serving of a store ended.
pub struct Served<S, K, D: Disk> {
    /// Why the talk ended.
    pub end: TalkEnd,

    /// The work on the store. Its transcript has the greatest status of the replies, and no text.
    pub worked: Worked<D>,

    /// The moments of the talk.
    pub course: Course<S, K, D>,
}

/// Opens the store on a device, answers the lines of a source until it ends, and closes the store. The lines are those of an input of
/// [`btr_text::read_questions`], and each may ask for what a line of `live` asks for. Points that are fed are due with `batch` points.
/// Each line is done, its reply is written and passed on, and then the next line is looked at: see [`btr_talk::talk`]. A line has at
/// most `limit` bytes.
///
/// When the first byte of a reply is written, what the line did is durable: a crash from then on leaves a history with it. The replies
/// are the model's, one after another.
///
/// It costs the reading of the store, and then for each line what it asks for. It waits as long as the source does, so it may never
/// return. If the store is not opened, nothing was read or written.
pub fn serve_store<R: Threads + Wait + Sync, S: Source, K: Sink, D: Disk>(
    system: System<'_, R>,
    batch: u32,
    limit: u64,
    source: &mut S,
    sink: &mut K,
    disk: D,
) -> Result<Served<S, K, D>, OpenFault<D>>
    requires batch { (1 ≤ batch) × (batch ≤ MAX_COMMIT_POINTS) }
    ensures serves { IfOk result
        (WasServed ⟦<D as Disk>⟧ ⟦<S as Source>⟧ ⟦<K as Sink>⟧ batch limit source.old source.new sink.old sink.new disk) }
    ensures refused { IfErr result (IsNotOpened ⟦<D as Disk>⟧ disk) }
    ensures unread { OnErr result (source.new ≡ source.old) }
    ensures unwritten { OnErr result (sink.new ≡ sink.old) }
{
    // what holds of all lines of one session
    one_session_is_the_model();
    let alloc = system.alloc;
    let (hall, session) = open_hall(alloc, disk)?;
    let mut desk = StoreDesk {
        alloc,
        hall,
        session,
        feeds: Feeds::new(alloc, batch),
        status: Status::Done,
    };
    let Talked {
        end,
        moments,
        asked,
    } = talk(system.rt, alloc, &mut desk, source, sink, limit);
    let StoreDesk {
        alloc: _,
        hall,
        session,
        feeds: _feeds,
        status,
    } = desk;
    let said = Ok(Transcript {
        status,
        text: Vec::new(alloc),
    });
    Ok(Served {
        end,
        worked: close_hall(hall, session, said),
        course: Course { moments, asked },
    })
}
