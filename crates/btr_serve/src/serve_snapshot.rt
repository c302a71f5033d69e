//! A store is opened, questions are answered one at a time from it, and its device is handed back.
ghost use Rattle.std.specs.Prelude.{◌≡◌, List, IfErr, IfOk, OnErr};
ghost use Rattle.btr_hist.specs.declared.entry.Entry.{Entry as EntrySpec};
ghost use Rattle.btr_engine.specs.Engine.{IsEngineOf};
ghost use Rattle.btr_streams.specs.Snapshot.{IsSnapshotOf};
ghost use Rattle.btr_open.specs.Opening.{IsNotOpened, IsOpenedEngine, KeepsDisk};
ghost use Rattle.btr_serve.specs.ServesQuestions.{ServesQuestions};

use crate::question_desk::QuestionDesk;
use btr_disk::Disk;
use btr_engine::{Engine, Remains, Snapshot};
use btr_io::{Sink, Source};
use btr_jobs::System;
use btr_lines::Moments;
use btr_open::{OpenCause, OpenFault, open_store};
use btr_store::Status;
use btr_talk::{TalkEnd, Talked, talk};
use std::alloc::Global;
use std::marker::Sync;
use std::sync::Wait;
use std::thread::Threads;

/// How the serving of questions ended.
#[derive(Drop)]
pub struct ServedQuestions<S, K, D> {
    /// Why the talk ended.
    pub end: TalkEnd,

    /// The greatest status of the replies.
    pub status: Status,

    /// The device, as the opening left it.
    pub disk: D,

    /// What the store leaves in memory.
    pub remains: Remains,

    /// The source and the sink, right before each call of the source. They have no bytes.
    pub asked: Moments<S, K>,
}

/// Opens the store on a device, takes a snapshot of it, and answers the lines of a source from that until it ends. The lines are those of
/// an input of [`btr_text::read_questions`]; only questions are answered. Each is answered, its reply is written and passed on, and then
/// the next line is looked at: see [`btr_talk::talk`]. A line has at most `limit` bytes. The device is called only to open the store, and
/// only read.
///
/// It costs the reading of the store, and then for each line what it asks. It waits as long as the source does, so it may never return.
/// If the store is not opened, or there is no memory for a snapshot, nothing was read or written.
pub fn serve_questions<R: Threads + Wait + Sync, S: Source, K: Sink, D: Disk>(
    system: System<'_, R>,
    limit: u64,
    source: &mut S,
    sink: &mut K,
    disk: D,
) -> Result<ServedQuestions<S, K, D>, OpenFault<D>>
    ensures serves { IfOk result (λ s.
        ServesQuestions ⟦<D as Disk>⟧ ⟦<S as Source>⟧ ⟦<K as Sink>⟧ limit source.old source.new sink.old sink.new disk s.disk
        s.end s.status s.asked.items) }
    ensures kept { IfOk result (λ s. KeepsDisk ⟦<D as Disk>⟧ disk s.disk) }
    ensures refused { IfErr result (IsNotOpened ⟦<D as Disk>⟧ disk) }
    ensures unread { OnErr result (source.new ≡ source.old) }
    ensures unwritten { OnErr result (sink.new ≡ sink.old) }
{
    let alloc = system.alloc;
    let (engine, snapshot) = open_snapshot(alloc, disk)?;
    let mut desk = QuestionDesk {
        alloc,
        snapshot,
        status: Status::Done,
    };
    let Talked { end, asked, .. } = talk(system.rt, alloc, &mut desk, source, sink, limit);
    let (disk, remains) = engine.into_parts();
    Ok(ServedQuestions {
        end,
        status: desk.status,
        disk,
        remains,
        asked,
    })
}

/// Opens the store on a device, and takes a snapshot of it. The fault also says that memory ran out if there is none for the snapshot.
fn open_snapshot<D: Disk>(alloc: Global, disk: D) -> Result<(Engine<D>, Snapshot), OpenFault<D>>
    ensures opened { IfOk result (λ r. IsOpenedEngine ⟦<D as Disk>⟧ disk r.0) }
    ensures snapshot { IfOk result (λ r. (h : List EntrySpec) → IsEngineOf h r.0 → IsSnapshotOf h r.1) }
    ensures refused { IfErr result (IsNotOpened ⟦<D as Disk>⟧ disk) }
{
    let engine = open_store(alloc, disk)?;
    match engine.admit() {
        Ok(snapshot) => Ok((engine, snapshot)),
        Err(_) => Err(OpenFault {
            cause: OpenCause::Want,
            disk: engine.into_disk(),
        }),
    }
}
