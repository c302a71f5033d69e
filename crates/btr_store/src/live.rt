//! The work of `live`: a script runs on a store.
ghost use Rattle.std.specs.Prelude.{◌≡◌, ◌+◌, ◌≤◌, false, IfErr, IfOk};
ghost use Rattle.btr_base.specs.declared.limits.TheConstants.{MAX_COMMIT_POINTS};
ghost use Rattle.btr_engine.specs.Engine.{is_stopped};
ghost use Rattle.btr_text.specs.Input.{HaveLanes};
ghost use Rattle.btr_open.specs.Opening.{IsNotOpened};
ghost use Rattle.btr_hall.specs.Session.{IsAlone, opening_of};
ghost use Rattle.btr_jobs.specs.Jobs.{IsAt, Does};
ghost use Rattle.btr_store.specs.Work.{DoesRightly, IfHolds, IsPlainWork};
ghost use Rattle.btr_store.specs.Live.{LivesStore, SaysSomeScript};
ghost use Rattle.btr_store.specs.LiveLines.{Lives};

use crate::live_lines::say_live;
use crate::transcript::Transcript;
use crate::work::{Worked, close_hall, open_hall};
use btr_disk::Disk;
use btr_hall::{Hall, Session};
use btr_jobs::{Pace, System};
use btr_live::{lanes, last_is_current, one_lane_is_the_model, runs_are_one_history};
use btr_open::OpenFault;
use btr_text::ScriptLine;
use std::alloc::AllocError;
use std::sync::Wait;
use std::thread::Threads;

/// Opens the store on a device, runs the lines of a script on it, and closes the store. The lines of a lane run in order, the lanes beside
/// each other, and a feed is due with `batch` points. With `materialize` rounds run beside the lanes, each of which brings each output up
/// to date once, and a last round after them. It says a reply for each line, in the order of the script, and then a line for each output
/// that the last round refused. The turns of `pace` are those of [`btr_live::lanes`].
///
/// All lanes and rounds make one history, and each reply is the model's at a beginning of it. A script in one lane without rounds has the
/// model's replies, one line after another. If the device does not fail, each output that the last round did not refuse is up to date.
///
/// It costs the reading of the store, time linear in the script, and what its lines and rounds need. If there is no memory for the
/// replies, no line ran; if there is none for their text, all lines ran.
///
/// What is said of histories holds if the device can be observed and held one when it was opened. On each device there is a reply for each
/// line, and then the lines of a last round, if one was wanted. On each device the store was sound when it was opened, if the device can be
/// observed; and if the status or `failed` says that the device failed, its count of faults rose.
pub fn live_store<R: Threads + Wait + Sync, D: Disk + Send, P: Pace + Sync>(
    system: System<'_, R>,
    batch: u32,
    materialize: bool,
    lines: Vec<ScriptLine>,
    disk: D,
    pace: &P,
) -> Result<Worked<D>, OpenFault<D>>
    requires batch { (1 ≤ batch) × (batch ≤ MAX_COMMIT_POINTS) }
    requires lanes { HaveLanes lines.items }
    ensures plain { IfOk result (λ w. IsPlainWork ⟦<D as Disk>⟧ disk w.said w.failed w.disk) }
    ensures says { IfOk result (λ w. IfOk w.said (SaysSomeScript materialize lines.items)) }
    ensures done { IfOk result (λ w. IfHolds ⟦<D as Disk>⟧ disk (DoesRightly ⟦<D as Disk>⟧
        (λ start log own. LivesStore batch materialize lines.items start log w.said own) w.failed disk w.disk)) }
    ensures refused { IfErr result (IsNotOpened ⟦<D as Disk>⟧ disk) }
{
    // what holds of all scripts that ran alone
    runs_are_one_history();
    one_lane_is_the_model();
    last_is_current();
    let (hall, mut session) = open_hall(system.alloc, disk)?;
    let said = live(system, &hall, &mut session, lines, batch, materialize, pace);
    Ok(close_hall(hall, session, said))
}

/// Runs lines at a hall, and says their replies and what the last round refused. An `Err` means out of memory.
fn live<R: Threads + Wait + Sync, D: Disk + Send, P: Pace + Sync>(
    system: System<'_, R>,
    hall: &Hall<D>,
    session: &mut Session<D>,
    lines: Vec<ScriptLine>,
    batch: u32,
    materialize: bool,
    pace: &P,
) -> Result<Transcript, AllocError>
    requires runs { is_stopped (opening_of hall.now) ≡ false }
    requires at { IsAt hall.now session.old }
    requires alone { IsAlone session.old }
    requires script { HaveLanes lines.items × (1 ≤ batch) × (batch ≤ MAX_COMMIT_POINTS) }
    ensures at { IsAt hall.now session.new }
    ensures alone { IsAlone session.new }
    ensures says { IfOk result (SaysSomeScript materialize lines.items) }
    ensures does { Does hall.now session.old session.new
        (λ start log low own. Lives batch materialize lines.items start log low result own) }
{
    match lanes(system, hall, session, lines, batch, materialize, pace) {
        Ok(report) => say_live(system, hall, session, &report),
        Err(error) => Err(error),
    }
}
