//! The whole run of a command.
ghost use Rattle.std.specs.Prelude.{◌≡◌, ℕ, ◌+◌, ◌≤◌, ◌^◌, map, string_bytes, Some};
ghost use Rattle.btr_io.specs.Bytes.{Gives};
ghost use Rattle.btr_words.specs.declared.command.Command.TheVariants.{Format};
ghost use Rattle.btr_top.specs.declared.command.TheConstants.{MAX_INPUT};
ghost use Rattle.btr_words.specs.Words.{command_of, IsInBounds};
ghost use Rattle.btr_top.specs.Format.{FormatCause, FormatLeaves};
ghost use Rattle.btr_top.specs.Run.{IsReader, KeepsDevice, ReadsAtOnce, RunCause, Runs, WritesAtEnd};

use crate::ask::run_ask;
use crate::check::run_check;
use crate::checkpoint::{CheckpointKind, run_checkpoint};
use crate::cold::run_ask_cold;
use crate::command::CommandResult;
use crate::distil::run_distil;
use crate::ending::{Ending, show};
use crate::format_store::format_store;
use crate::hear::run_hear;
use crate::live::{FeedKind, run_live};
use crate::load::run_load;
use crate::remains::RunRemains;
use crate::sample::run_sample;
use crate::serve::{run_serve, run_serve_read};
use crate::ship::run_ship;
use btr_disk::Disk;
use btr_io::{Sink, Source};
use btr_jobs::{NoPace, Pace, System};
use btr_open::{held_is_sound, one_history_is_held};
use btr_serve::Course;
use btr_words::{Command, read_words};
use std::alloc::Global;
use std::sync::Wait;
use std::thread::Threads;

/// What a run gives back.
#[derive(Drop)]
pub struct Outcome<S, K, D: Disk> {
    /// The status with which the program ends.
    pub status: u8,

    /// The device, as the run's calls left it.
    pub disk: D,

    /// What the run leaves in memory.
    pub remains: RunRemains,

    /// The moments of the talk of `serve`, which have no bytes. For any other command there are none.
    pub course: Course<S, K, D>,
}

/// What a run takes of the system, and who learns of the turns of its threads.
#[derive(Drop)]
struct Paced<'a, R, P> {
    system: System<'a, R>,
    pace: &'a P,
}

/// Runs the command that the words say: it works on the device, and writes the text of its ending to the sink. `load`, `live`, `ask` and
/// `hear` read the source to its end first, and `serve` reads it line by line: it writes a reply before it looks at the next line. The
/// others read nothing. `ship` writes to the sink while it reads the device. `live`, `load`, `distil` and `sample` start threads by `rt`,
/// and a session waits by it for its turns at the store.
///
/// It is [`run_paced`] with a pace that does nothing.
pub fn run<R: Threads + Wait + Sync, S: Source, K: Sink, D: Disk + Send>(
    rt: &R,
    alloc: Global,
    words: &[String],
    source: &mut S,
    sink: &mut K,
    disk: D,
) -> Outcome<S, K, D>
    ensures runs { Runs ⟦<S as Source>⟧ ⟦<K as Sink>⟧ ⟦<D as Disk>⟧ (command_of (map string_bytes words.now))
        source.old source.new sink.old sink.new disk result.disk result.course result.status }
{
    let system = System { rt, alloc };
    run_paced(system, words, source, sink, disk, &NoPace)
}

/// Runs the command that the words say, as [`run`] does. `pace` learns of the turns of the threads: the lanes of a `live`, 0 to 7, and 8
/// for the rounds beside them; the streams of a `load`, the outputs of a `distil`, and both of a `sample`.
pub fn run_paced<R: Threads + Wait + Sync, S: Source, K: Sink, D: Disk + Send, P: Pace + Sync>(
    system: System<'_, R>,
    words: &[String],
    source: &mut S,
    sink: &mut K,
    disk: D,
    pace: &P,
) -> Outcome<S, K, D>
    ensures runs { Runs ⟦<S as Source>⟧ ⟦<K as Sink>⟧ ⟦<D as Disk>⟧ (command_of (map string_bytes words.now))
        source.old source.new sink.old sink.new disk result.disk result.course result.status }
{
    let mut course = Course::new();
    let paced = Paced { system, pace };
    let CommandResult {
        ending,
        disk,
        remains,
    } = dispatch(&paced, words, source, sink, disk, &mut course);
    let status = show(system.alloc, sink, &ending);
    // so a device that holds a history is not refused as one without a store, or as a damaged one
    held_is_sound();
    // and what it holds is one history
    one_history_is_held();
    Outcome {
        status,
        disk,
        remains,
        course,
    }
}

/// Does what the words say.
fn dispatch<R: Threads + Wait + Sync, S: Source, K: Sink, D: Disk + Send, P: Pace + Sync>(
    paced: &Paced<'_, R, P>,
    words: &[String],
    source: &mut S,
    sink: &mut K,
    disk: D,
    course: &mut Course<S, K, D>,
) -> CommandResult<D>
    ensures size { D.size result.disk ≡ D.size disk }
    ensures input { ReadsAtOnce (command_of (map string_bytes words.now)) → S.is_observable
        → Gives (MAX_INPUT + 1) (S.left source.old) (S.left source.new) }
    ensures cause { RunCause ⟦<S as Source>⟧ ⟦<K as Sink>⟧ ⟦<D as Disk>⟧ (command_of (map string_bytes words.now))
        source.old source.new sink.old sink.new disk result.disk course.new result.ending }
    ensures at_end { WritesAtEnd (command_of (map string_bytes words.now)) → sink.new ≡ sink.old }
    ensures later { K.faults sink.old ≤ K.faults sink.new }
    ensures format_leaves { D.is_observable → (blocks : ℕ) → command_of (map string_bytes words.now) ≡ Some (Format blocks)
        → FormatLeaves ⟦<D as Disk>⟧ blocks disk result.disk }
    ensures kept { IsReader (command_of (map string_bytes words.now))
        → KeepsDevice ⟦<D as Disk>⟧ (command_of (map string_bytes words.now)) disk result.disk }
{
    match read_words(paced.system.alloc, words) {
        Ok(Some(command)) => run_one(paced, command, source, sink, disk, course),
        Ok(None) => undone(Ending::Usage, disk),
        Err(_) => undone(Ending::OutOfMemory, disk),
    }
}

/// Ends so, with nothing done.
fn undone<D: Disk>(ending: Ending, disk: D) -> CommandResult<D>
    ensures ending { result.ending ≡ ending }
    ensures disk { result.disk ≡ disk }
{
    CommandResult {
        ending,
        disk,
        remains: RunRemains::Nothing,
    }
}

/// Does a command.
fn run_one<R: Threads + Wait + Sync, S: Source, K: Sink, D: Disk + Send, P: Pace + Sync>(
    paced: &Paced<'_, R, P>,
    command: Command,
    source: &mut S,
    sink: &mut K,
    disk: D,
    course: &mut Course<S, K, D>,
) -> CommandResult<D>
    requires { IsInBounds command }
    ensures size { D.size result.disk ≡ D.size disk }
    ensures input { ReadsAtOnce (Some command) → S.is_observable → Gives (MAX_INPUT + 1) (S.left source.old) (S.left source.new) }
    ensures cause { RunCause ⟦<S as Source>⟧ ⟦<K as Sink>⟧ ⟦<D as Disk>⟧ (Some command)
        source.old source.new sink.old sink.new disk result.disk course.new result.ending }
    ensures at_end { WritesAtEnd (Some command) → sink.new ≡ sink.old }
    ensures later { K.faults sink.old ≤ K.faults sink.new }
    ensures format_leaves { D.is_observable → (blocks : ℕ) → command ≡ Format blocks
        → FormatLeaves ⟦<D as Disk>⟧ blocks disk result.disk }
    ensures kept { IsReader (Some command) → KeepsDevice ⟦<D as Disk>⟧ (Some command) disk result.disk }
{
    let (system, pace) = (paced.system, paced.pace);
    let alloc = system.alloc;
    match command {
        Command::Format { blocks } => make_store(disk, blocks),
        Command::Live { batch, materialize } => {
            let feeds = FeedKind::Own { batch };
            run_live(system, feeds, materialize, source, disk, pace)
        }
        Command::LiveGroups {
            threshold,
            materialize,
        } => {
            let feeds = FeedKind::Shared { threshold };
            run_live(system, feeds, materialize, source, disk, pace)
        }
        Command::Serve { batch } => run_serve(system, batch, source, sink, disk, course),
        Command::ServeRead => run_serve_read(system, source, sink, disk, course),
        Command::Ask { cold: false } => run_ask(alloc, source, disk),
        Command::Ask { cold: true } => run_ask_cold(alloc, source, disk),
        Command::Load { workers, batch } => run_load(system, workers, batch, source, disk, pace),
        Command::Distil { workers } => run_distil(system, workers, disk, pace),
        Command::Sample {
            number,
            streams,
            points,
        } => run_sample(system, number, streams, points, disk, pace),
        Command::Checkpoint => run_checkpoint(CheckpointKind::Plain, alloc, disk),
        Command::Seal => run_checkpoint(CheckpointKind::Seal, alloc, disk),
        Command::Check => run_check(alloc, disk),
        Command::Ship { from } => run_ship(alloc, from, sink, disk),
        Command::Hear => run_hear(alloc, source, disk),
    }
}

/// Makes an empty store of this many blocks.
fn make_store<D: Disk>(disk: D, blocks: u64) -> CommandResult<D>
    requires least { 8 ≤ blocks }
    requires greatest { blocks ≤ 2 ^ 32 }
    ensures size { D.size result.disk ≡ D.size disk }
    ensures cause { FormatCause ⟦<D as Disk>⟧ blocks disk result.disk result.ending }
    ensures format_leaves { D.is_observable → FormatLeaves ⟦<D as Disk>⟧ blocks disk result.disk }
{
    let mut disk = disk;
    let ending = format_store(&mut disk, blocks);
    CommandResult {
        ending,
        disk,
        remains: RunRemains::Nothing,
    }
}
