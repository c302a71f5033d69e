//! The begin and the end of work on a store: it is opened and has a hall, and the hall is closed.
ghost use Rattle.std.specs.Prelude.{◌≡◌, true, List, Ok, IfErr, IfOk};
ghost use Rattle.std.specs.Option.{is_some};
ghost use Rattle.btr_hist.specs.declared.entry.Entry.{Entry as EntrySpec};
ghost use Rattle.btr_engine.specs.Engine.{device, is_home};
ghost use Rattle.btr_open.specs.declared.opening.OpenCause.TheVariants.{Want};
ghost use Rattle.btr_open.specs.Opening.{IsNotOpened, IsOpenedEngine, KeepsDisk};
ghost use Rattle.btr_hall.specs.Session.{Begins, IsAlone, engine_of, opening_of};
ghost use Rattle.btr_jobs.specs.States.{log_seen};
ghost use Rattle.btr_jobs.specs.Jobs.{IsAt};
ghost use Rattle.btr_store.specs.declared.status.Status.TheVariants.{DeviceFault};
ghost use Rattle.btr_store.specs.Work.{IsPlainWork};
ghost use Rattle.btr_store.specs.Closing.{BeginsOn, WorkedAt};

use crate::status::Status;
use crate::transcript::Transcript;
use btr_disk::Disk;
use btr_engine::{Engine, Remains};
use btr_hall::{Hall, Session};
use btr_open::{OpenCause, OpenFault, open_store};
use std::alloc::{AllocError, Global};

/// What work on a store says, the device, and what the store leaves in memory.
#[derive(Drop)]
pub struct Worked<D> {
    /// The lines that say what was done. An `Err` means that there was no memory to do all of it, or for the lines.
    pub said: Result<Transcript, AllocError>,

    /// Whether the device failed in a step, after which the store took no entry. If nothing is said then, the failure counts more than
    /// the memory.
    pub failed: bool,

    /// The device, as the calls left it.
    pub disk: D,

    /// What the store leaves in memory.
    pub remains: Remains,
}

/// Opens the store on a device, and makes a hall of it. Returns the hall and its only session. Nothing is written. The fault also says
/// that memory ran out if there is none for the hall.
///
/// It costs the reading of the store. What is done at the hall until [`close_hall`] takes it is work on the device.
pub fn open_hall<D: Disk>(alloc: Global, disk: D) -> Result<(Hall<D>, Session<D>), OpenFault<D>>
    ensures begun { IfOk result (λ r. BeginsOn ⟦<D as Disk>⟧ disk r.0 r.1) }
    ensures refused { IfErr result (IsNotOpened ⟦<D as Disk>⟧ disk) }
{
    let engine = open_store(alloc, disk)?;
    begin_hall(alloc, engine)
}

/// Makes a hall of an engine that was opened.
fn begin_hall<D: Disk>(
    alloc: Global,
    engine: Engine<D>,
) -> Result<(Hall<D>, Session<D>), OpenFault<D>>
    requires home { is_home engine ≡ true }
    ensures begun { IfOk result (λ r. Begins engine r.0 r.1) }
    ensures cause { IfErr result (λ fault. fault.cause ≡ Want) }
    ensures kept { (old : D) → IsOpenedEngine ⟦<D as Disk>⟧ old engine → IfErr result (λ fault. KeepsDisk ⟦<D as Disk>⟧ old fault.disk) }
{
    match Hall::begin(alloc, engine) {
        Ok((hall, session)) => Ok((hall, session)),
        Err((engine, _)) => Err(OpenFault {
            cause: OpenCause::Want,
            disk: engine.into_disk(),
        }),
    }
}

/// Closes a hall whose only session is this one, takes the device out, and returns what is said of the work. It takes constant time and no
/// memory, and does not call the device. What the store leaves in memory is handed back beside the device, and not freed.
///
/// What is said is handed on, and beside it whether the device failed in a step. But if the status says that the device failed, and no
/// step failed, it is that memory ran out: then the status is right on each device. It never comes on a device that held a history.
///
/// If the hall was opened by [`open_hall`], its contract says what the work at the hall left on the device, also after a crash at any
/// moment.
pub fn close_hall<D: Disk>(
    hall: Hall<D>,
    session: Session<D>,
    said: Result<Transcript, AllocError>,
) -> Worked<D>
    requires at { IsAt hall session }
    requires alone { IsAlone session }
    ensures said { IfOk result.said (λ t. said ≡ Ok t) }
    ensures disk { result.disk ≡ device (engine_of hall session) }
    ensures failed { (old : D) → IsOpenedEngine ⟦<D as Disk>⟧ old (opening_of hall) → (h : List EntrySpec)
        → result.failed ≡ is_some (log_seen h session).failed }
    ensures plain { (old : D) → IsOpenedEngine ⟦<D as Disk>⟧ old (opening_of hall)
        → IsPlainWork ⟦<D as Disk>⟧ old result.said result.failed result.disk }
    ensures works { (old : D) → IsOpenedEngine ⟦<D as Disk>⟧ old (opening_of hall) → WorkedAt ⟦<D as Disk>⟧ old hall session result.disk }
{
    let engine = hall.close(session);
    let failed = engine.stopped();
    let (disk, remains) = engine.into_parts();
    Worked {
        said: confirmed(said, failed),
        failed,
        disk,
        remains,
    }
}

/// Returns what is said, unless its status says that the device failed and it did not.
fn confirmed(said: Result<Transcript, AllocError>, failed: bool) -> Result<Transcript, AllocError>
    ensures said { IfOk result (λ t. said ≡ Ok t) }
    ensures failed { IfOk result (λ t. t.status ≡ DeviceFault → failed ≡ true) }
{
    let transcript = said?;
    if transcript.status == Status::DeviceFault && !failed {
        return Err(AllocError);
    }
    Ok(transcript)
}
