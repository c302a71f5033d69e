//! The command `live`, which runs the lines of a script in lanes on the store of a device.
ghost use Rattle.std.specs.Prelude.{◌≡◌, ◌+◌, IfErr, IfOk};
ghost use Rattle.btr_io.specs.Bytes.{Gives};
ghost use Rattle.btr_text.specs.Input.{HaveLanes, script_of};
ghost use Rattle.btr_top.specs.declared.command.TheConstants.{MAX_INPUT};
ghost use Rattle.btr_open.specs.Opening.{IsNotOpened};
ghost use Rattle.btr_store.specs.Work.{DoesRightly, IfHolds, IsPlainWork};
ghost use Rattle.btr_store.specs.Live.{SaysSomeScript};
ghost use Rattle.btr_top.specs.Live.{FeedsFit, LiveCause, RunsScriptOn, ScriptCause};

use crate::command::{CommandResult, open_refusal, read_input, work_result};
use crate::ending::Ending;
use crate::remains::RunRemains;
use btr_disk::Disk;
use btr_io::Source;
use btr_jobs::{Pace, System};
use btr_live::lanes;
use btr_open::OpenFault;
use btr_store::{Worked, live_store, share_store};
use btr_text::{ScriptLine, read_script};
use std::sync::Wait;
use std::thread::Threads;

/// Where the points wait that lines feed.
#[derive(Clone, Copy)]
pub(crate) enum FeedKind {
    /// In feeds of each lane, which are due with `batch` points.
    Own { batch: u32 },

    /// In a buffer of each stream that all lanes share, which is committed with `threshold` points.
    Shared { threshold: u32 },
}

/// `live [--batch B | --group B] [--materialize]`: reads the source to its end, opens the store, and runs the lines that were read: those
/// of a lane one by one, and the lanes beside each other. It does not call the device before all lines are read. Points that wait in a
/// feed at the end are dropped.
///
/// With `materialize` rounds run beside the lanes, each of which brings all outputs up to date, and a last round after them.
pub(crate) fn run_live<R: Threads + Wait + Sync, S: Source, D: Disk + Send, P: Pace + Sync>(
    system: System<'_, R>,
    feeds: FeedKind,
    materialize: bool,
    source: &mut S,
    disk: D,
    pace: &P,
) -> CommandResult<D>
    requires feeds { FeedsFit feeds }
    ensures size { D.size result.disk ≡ D.size disk }
    ensures input { S.is_observable → Gives (MAX_INPUT + 1) (S.left source.old) (S.left source.new) }
    ensures cause { LiveCause ⟦<S as Source>⟧ ⟦<D as Disk>⟧ feeds materialize source.old source.new disk result.disk result.ending }
{
    match read_input(system.alloc, source) {
        Ok(input) => run_script(system, feeds, materialize, &input, disk, pace),
        Err(ending) => CommandResult {
            ending,
            disk,
            remains: RunRemains::Nothing,
        },
    }
}

/// Reads the lines of an input, and runs them on the store of a device.
fn run_script<R: Threads + Wait + Sync, D: Disk + Send, P: Pace + Sync>(
    system: System<'_, R>,
    feeds: FeedKind,
    materialize: bool,
    input: &[u8],
    disk: D,
    pace: &P,
) -> CommandResult<D>
    requires feeds { FeedsFit feeds }
    ensures size { D.size result.disk ≡ D.size disk }
    ensures cause { ScriptCause ⟦<D as Disk>⟧ feeds materialize (script_of input.now) disk result.disk result.ending }
{
    match read_script(system.alloc, input) {
        Ok(script) => run_lines(system, feeds, materialize, script.into_lines(), disk, pace),
        Err(_) => CommandResult {
            ending: Ending::OutOfMemory,
            disk,
            remains: RunRemains::Nothing,
        },
    }
}

/// Runs lines on the store of a device.
fn run_lines<R: Threads + Wait + Sync, D: Disk + Send, P: Pace + Sync>(
    system: System<'_, R>,
    feeds: FeedKind,
    materialize: bool,
    lines: Vec<ScriptLine>,
    disk: D,
    pace: &P,
) -> CommandResult<D>
    requires feeds { FeedsFit feeds }
    requires lanes { HaveLanes lines.items }
    ensures size { D.size result.disk ≡ D.size disk }
    ensures cause { ScriptCause ⟦<D as Disk>⟧ feeds materialize lines.items disk result.disk result.ending }
{
    match work_lines(system, feeds, materialize, lines, disk, pace) {
        Ok(worked) => work_result(worked),
        Err(fault) => open_refusal(fault),
    }
}

/// Does what lines ask for on the store of a device.
fn work_lines<R: Threads + Wait + Sync, D: Disk + Send, P: Pace + Sync>(
    system: System<'_, R>,
    feeds: FeedKind,
    materialize: bool,
    lines: Vec<ScriptLine>,
    disk: D,
    pace: &P,
) -> Result<Worked<D>, OpenFault<D>>
    requires feeds { FeedsFit feeds }
    requires lanes { HaveLanes lines.items }
    ensures plain { IfOk result (λ w. IsPlainWork ⟦<D as Disk>⟧ disk w.said w.failed w.disk) }
    ensures says { IfOk result (λ w. IfOk w.said (SaysSomeScript materialize lines.items)) }
    ensures done { IfOk result (λ w. IfHolds ⟦<D as Disk>⟧ disk (DoesRightly ⟦<D as Disk>⟧
        (RunsScriptOn feeds materialize lines.items w.said) w.failed disk w.disk)) }
    ensures refused { IfErr result (IsNotOpened ⟦<D as Disk>⟧ disk) }
{
    match feeds {
        FeedKind::Own { batch } => live_store(system, batch, materialize, lines, disk, pace),
        FeedKind::Shared { threshold } => {
            share_store(system, threshold, materialize, lines, disk, pace)
        }
    }
}
