//! The command `serve`, which answers each line of its input at once.
ghost use Rattle.std.specs.Prelude.{◌≡◌, ◌≤◌, false, IfOk};
ghost use Rattle.btr_base.specs.declared.limits.TheConstants.{MAX_COMMIT_POINTS};
ghost use Rattle.btr_store.specs.declared.status.Status.TheVariants.{DeviceFault};
ghost use Rattle.btr_serve.specs.Serves.{HasStatus};
ghost use Rattle.btr_top.specs.Command.{IsKept};
ghost use Rattle.btr_top.specs.Serve.{Said as SaidSpec, ServeCause, ServeReadCause, ending_of_talk};

use crate::command::{CommandResult, MAX_INPUT, ending_of, open_refusal, unsaid};
use crate::ending::Ending;
use crate::remains::RunRemains;
use btr_disk::Disk;
use btr_io::{Sink, Source};
use btr_jobs::System;
use btr_serve::{Course, Served, ServedQuestions, serve_questions, serve_store};
use btr_store::{Status, Transcript, Worked};
use btr_talk::TalkEnd;
use std::alloc::{AllocError, Global};
use std::marker::Sync;
use std::sync::Wait;
use std::thread::Threads;

/// `serve [--batch B]`: opens the store, and then reads the lines of the source one at a time: each is done, its reply is written and
/// passed on, and then the next line is looked at. The status at the end is the greatest of the replies. Points that wait in a feed at
/// the end are dropped. If a line has more than [`MAX_INPUT`] bytes, it ends there. The moments of the talk are put into `course`.
pub(crate) fn run_serve<R: Threads + Wait + Sync, S: Source, K: Sink, D: Disk>(
    system: System<'_, R>,
    batch: u32,
    source: &mut S,
    sink: &mut K,
    disk: D,
    course: &mut Course<S, K, D>,
) -> CommandResult<D>
    requires batch { (1 ≤ batch) × (batch ≤ MAX_COMMIT_POINTS) }
    ensures size { D.size result.disk ≡ D.size disk }
    ensures cause { ServeCause ⟦<D as Disk>⟧ ⟦<S as Source>⟧ ⟦<K as Sink>⟧ batch source.old source.new sink.old sink.new disk result.disk
        course.new result.ending }
    ensures later { K.faults sink.old ≤ K.faults sink.new }
{
    match serve_store(system, batch, MAX_INPUT, source, sink, disk) {
        Ok(served) => served_result(served, course),
        Err(fault) => open_refusal(fault),
    }
}

/// Returns how a run ends that served a store, and hands on its moments.
fn served_result<S, K, D: Disk>(
    served: Served<S, K, D>,
    course: &mut Course<S, K, D>,
) -> CommandResult<D>
    ensures disk { result.disk ≡ served.worked.disk }
    ensures ending { result.ending ≡ ending_of_talk served.end served.worked.said served.worked.failed }
    ensures course { course.new ≡ served.course }
{
    let Served {
        end,
        worked: Worked {
            said,
            failed,
            disk,
            remains,
        },
        course: noted,
    } = served;
    *course = noted;
    CommandResult {
        ending: ending_of_talk(end, said, failed),
        disk,
        remains: RunRemains::Store(remains),
    }
}

/// `serve --read`: opens the store, and answers the questions of the source one at a time from one snapshot of it: each is answered, its
/// reply is written and passed on, and then the next line is looked at. The device is not called after the opening. If a line has more
/// than [`MAX_INPUT`] bytes, it ends there. The moments right before the calls of the source are put into `course`.
pub(crate) fn run_serve_read<R: Threads + Wait + Sync, S: Source, K: Sink, D: Disk>(
    system: System<'_, R>,
    source: &mut S,
    sink: &mut K,
    disk: D,
    course: &mut Course<S, K, D>,
) -> CommandResult<D>
    ensures size { D.size result.disk ≡ D.size disk }
    ensures cause { ServeReadCause ⟦<D as Disk>⟧ ⟦<S as Source>⟧ ⟦<K as Sink>⟧ source.old source.new sink.old sink.new disk result.disk
        course.new result.ending }
    ensures later { K.faults sink.old ≤ K.faults sink.new }
    ensures kept { IsKept ⟦<D as Disk>⟧ disk result.disk }
{
    match serve_questions(system, MAX_INPUT, source, sink, disk) {
        Ok(served) => answered_result(system.alloc, served, course),
        Err(fault) => open_refusal(fault),
    }
}

/// Returns how a run ends that served questions, and hands on its moments.
fn answered_result<S, K, D: Disk>(
    alloc: Global,
    served: ServedQuestions<S, K, D>,
    course: &mut Course<S, K, D>,
) -> CommandResult<D>
    ensures disk { result.disk ≡ served.disk }
    ensures ending { (said : SaidSpec) × (result.ending ≡ ending_of_talk served.end said false) × IfOk said (HasStatus served.status)
        × IfOk said (λ t. t.status ≡ DeviceFault → ⊥) }
    ensures asked { course.new.asked.items ≡ served.asked.items }
{
    let ServedQuestions {
        end,
        status,
        disk,
        remains,
        asked,
    } = served;
    course.asked = asked;
    CommandResult {
        ending: ending_of_talk(end, said_of_questions(alloc, status), false),
        disk,
        remains: RunRemains::Store(remains),
    }
}

/// Returns a transcript of this status without text. No reply to a question says that the device failed. If the status said so, memory
/// would seem to have run out: so the status is right on each device.
fn said_of_questions(alloc: Global, status: Status) -> Result<Transcript, AllocError>
    ensures says { IfOk result (HasStatus status) }
    ensures no_fault { IfOk result (λ t. t.status ≡ DeviceFault → ⊥) }
{
    if status == Status::DeviceFault {
        return Err(AllocError);
    }
    Ok(Transcript {
        status,
        text: Vec::new(alloc),
    })
}

/// Returns how a run ends whose talk ended so, and of whose work this is said.
fn ending_of_talk(end: TalkEnd, said: Result<Transcript, AllocError>, failed: bool) -> Ending
    ensures { result ≡ ending_of_talk end said failed }
{
    match end {
        TalkEnd::Ended => ending_of(said, failed),
        TalkEnd::NoSource => Ending::NoSource,
        TalkEnd::TooLong => Ending::TooLong,
        TalkEnd::NoSink => Ending::NoSink,
        TalkEnd::OutOfMemory => unsaid(failed),
    }
}
