//! The work of `sample`: an empty store is filled with the points of a generator, and with an output for each stream.
ghost use Rattle.std.specs.Prelude.{◌≡◌, ℕ, List, [], ◌∷◌, length, IfErr, IfOk};
ghost use Rattle.btr_hist.specs.declared.entry.Entry.{Entry as EntrySpec};
ghost use Rattle.btr_engine.specs.Engine.{IsEngineOf};
ghost use Rattle.btr_open.specs.Opening.{IsNotOpened};
ghost use Rattle.btr_hall.specs.Trace.{history_of};
ghost use Rattle.btr_hall.specs.Session.{IsAlone, opening_of, seen_of};
ghost use Rattle.btr_jobs.specs.Jobs.{IsAt, Does};
ghost use Rattle.btr_store.specs.declared.report_line.ReportLine.TheVariants as lines;
ghost use Rattle.btr_store.specs.Work.{DoesRightly, IfHolds, IsPlainWork};
ghost use Rattle.btr_store.specs.Transcript.{SaysLines};
ghost use Rattle.btr_store.specs.Streams.{Stays};
ghost use Rattle.btr_store.specs.Sample.{IsFilledInPart, Samples, SaysSomeSample, rows_of_sample};
ghost use Rattle.btr_store.specs.SampleLaw.{SamplesStore};
ghost use Rattle.btr_store.specs.SampleLines.{SaysFilled, SaysSomeFilled};

use crate::define::{DefinedOutput, define_outputs};
use crate::report_line::ReportLine;
use crate::sample_lines::filled_lines;
use crate::transcript::Transcript;
use crate::work::{Worked, close_hall, open_hall};
use btr_disk::Disk;
use btr_hall::{Hall, Session};
use btr_jobs::{Pace, System};
use btr_load::{Loaded, load};
use btr_open::OpenFault;
use btr_rows::{RowList, read_rows, sample_csv};
use btr_work::{Report, bring_current};
use std::alloc::{AllocError, Global};
use std::sync::Wait;
use std::thread::Threads;

/// The number of workers that load the rows and that bring the outputs up to date.
const WORKERS: u8 = 4;

/// The number of points in a batch.
const BATCH: u32 = 4096;

/// Which sample a store is filled with.
#[derive(Clone, Copy)]
struct SampleParameters {
    /// The number with which the generator begins.
    number: u32,

    /// How many streams there are.
    streams: u32,

    /// How many points each stream has.
    points: u32,
}

/// What was done to an empty store.
#[derive(Drop)]
pub(crate) struct Filled {
    /// What became of the rows.
    pub(crate) loaded: Loaded,

    /// The outputs, in the order of their streams.
    pub(crate) outputs: Vec<DefinedOutput>,

    /// What became of the outputs when they were brought up to date.
    pub(crate) report: Report,
}

/// Opens the store on a device, fills it with a sample if it is empty, and closes it. If it has an entry, it says only that the store
/// is used, and nothing is added.
///
/// A sample is `points` points for each of `streams` streams, from a generator that begins with `number`. They are loaded as rows,
/// and an output is defined for each stream: the mean of the last 1,000 ns. Then each output is brought up to date. It says a line
/// for each refused row, refused batch and refused output, and last one for each stream with its version and the aggregate of its
/// points. The streams are shared among at most 4 workers. The turns of `pace` are those of the load, and then those of the outputs.
///
/// If the device does not fail, the store has just what was not refused, and each output without a refusal is up to date in the end. If
/// the memory suffices too, the streams and the outputs are those that one worker leaves. If there is also room for the sample, no line
/// says that the device was full. A store that has an entry needs no room.
///
/// It costs the reading of the store, time and memory linear in the points, and what the entries need. If there is no memory for the
/// lines, or for a part of the work, what was done before stays.
///
/// What is said of histories holds if the device can be observed and held one when it was opened. On each device the lines say that the
/// store is used, or what was done to it. On each device the store was sound when it was opened, if the device can be observed; and if the
/// status or `failed` says that the device failed, its count of faults rose.
pub fn sample_store<R: Threads + Wait + Sync, D: Disk + Send, P: Pace + Sync>(
    system: System<'_, R>,
    number: u32,
    streams: u32,
    points: u32,
    pace: &P,
    disk: D,
) -> Result<Worked<D>, OpenFault<D>>
    ensures plain { IfOk result (λ w. IsPlainWork ⟦<D as Disk>⟧ disk w.said w.failed w.disk) }
    ensures says { IfOk result (λ w. IfOk w.said (SaysSomeSample streams)) }
    ensures done { IfOk result (λ w. IfHolds ⟦<D as Disk>⟧ disk (DoesRightly ⟦<D as Disk>⟧
        (λ start log own. SamplesStore number streams points start log w.said own) w.failed disk w.disk)) }
    ensures refused { IfErr result (IsNotOpened ⟦<D as Disk>⟧ disk) }
{
    let (hall, mut session) = open_hall(system.alloc, disk)?;
    let parameters = SampleParameters {
        number,
        streams,
        points,
    };
    let said = sample(system, &hall, &mut session, parameters, pace);
    Ok(close_hall(hall, session, said))
}

/// Fills the store if it is empty, and says what was done. An `Err` means out of memory.
fn sample<R: Threads + Wait + Sync, D: Disk + Send, P: Pace + Sync>(
    system: System<'_, R>,
    hall: &Hall<D>,
    session: &mut Session<D>,
    parameters: SampleParameters,
    pace: &P,
) -> Result<Transcript, AllocError>
    requires at { IsAt hall.now session.old }
    requires alone { IsAlone session.old }
    ensures at { IsAt hall.now session.new }
    ensures alone { IsAlone session.new }
    ensures says { IfOk result (SaysSomeSample parameters.streams) }
    ensures does { Does hall.now session.old session.new
        (λ start log low own. Samples parameters.number parameters.streams parameters.points start log low result own) }
{
    let snapshot = session.admit(system.rt, hall)?;
    match snapshot.entries() {
        0 => {
            let filled = fill(system, hall, session, parameters, pace)?;
            say_filled(system, hall, session, &filled)
        }
        entries => used_line(system.alloc, entries),
    }
}

/// Says that the store has this number of entries. An `Err` means out of memory.
fn used_line(alloc: Global, entries: u64) -> Result<Transcript, AllocError>
    ensures { IfOk result (SaysLines (lines.Used entries ∷ [])) }
{
    let mut transcript = Transcript::new(alloc);
    transcript.add(&ReportLine::Used { entries })?;
    Ok(transcript)
}

/// Loads the rows of a sample, defines its outputs, and brings them up to date. An `Err` means out of memory.
fn fill<R: Threads + Wait + Sync, D: Disk + Send, P: Pace + Sync>(
    system: System<'_, R>,
    hall: &Hall<D>,
    session: &mut Session<D>,
    parameters: SampleParameters,
    pace: &P,
) -> Result<Filled, AllocError>
    requires at { IsAt hall.now session.old }
    requires alone { IsAlone session.old }
    ensures at { IsAt hall.now session.new }
    ensures alone { IsAlone session.new }
    ensures each { IfOk result (λ filled. length filled.outputs.items ≡ parameters.streams) }
    ensures does { Does hall.now session.old session.new
        (λ start log low own. IsFilledInPart parameters.number parameters.streams parameters.points start log low result own) }
{
    let rows = sample_rows(system.alloc, parameters)?;
    let loaded = load(system, hall, session, rows, BATCH, WORKERS, pace)?;
    let outputs = define_outputs(system, hall, session, parameters.streams)?;
    let report = bring_current(system, hall, session, WORKERS, pace)?;
    Ok(Filled {
        loaded,
        outputs,
        report,
    })
}

/// Returns the rows of a sample, as they are read from its text. An `Err` means out of memory.
fn sample_rows(alloc: Global, parameters: SampleParameters) -> Result<RowList, AllocError>
    ensures { IfOk result (λ rows. rows ≡ rows_of_sample parameters.number parameters.streams parameters.points) }
{
    let text = sample_csv(
        alloc,
        parameters.number,
        parameters.streams,
        parameters.points,
    )?;
    read_rows(alloc, text.as_slice())
}

/// Says what was done to a store, and what its streams are now. An `Err` means out of memory.
fn say_filled<R: Wait, D: Disk>(
    system: System<'_, R>,
    hall: &Hall<D>,
    session: &mut Session<D>,
    filled: &Filled,
) -> Result<Transcript, AllocError>
    requires at { IsAt hall.now session.old }
    requires alone { IsAlone session.old }
    ensures at { IsAt hall.now session.new }
    ensures stays { Stays session.old session.new }
    ensures some { IfOk result (SaysSomeFilled filled.now) }
    ensures says { (h : List EntrySpec) → IsEngineOf h (opening_of hall.now)
        → IfOk result (SaysFilled (history_of h (seen_of session.old)) filled.now) }
{
    let snapshot = session.admit(system.rt, hall)?;
    filled_lines(system.alloc, &snapshot, filled)
}
