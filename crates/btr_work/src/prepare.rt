//! What is made ready before outputs are brought up to date, so that no memory is taken for it later.
ghost use Rattle.std.specs.Prelude.{◌≡◌, ◌≤◌, ◌*◌, max, List, [], ◌∷◌, ◌++◌, length, map, IfOk, OnOk};
ghost use Rattle.btr_hist.specs.declared.entry.Entry.{Entry as EntrySpec};
ghost use Rattle.btr_hist.specs.History.{ids};
ghost use Rattle.btr_streams.specs.Snapshot.{IsSnapshotOf};
ghost use Rattle.btr_work.specs.Levels.{outputs, outputs_from};
ghost use Rattle.btr_work.specs.Refreshing.{IsPrepared, outputs_in, groups_in, blank_line};

use crate::leveling::levels;
use crate::refreshing::OutputJob;
use crate::report::{RefreshLine, Refreshed};
use btr_engine::Snapshot;
use btr_hall::LandFault;
use btr_hist::Spec;
use std::alloc::{AllocError, Global};

/// The work that is to be done, and the report that is to be filled in.
#[derive(Drop)]
pub(crate) struct Work {
    pub(crate) levels: Vec<Level>,

    /// A line for each output.
    pub(crate) lines: Vec<RefreshLine>,

    /// A result for each stream, also for those that are no outputs.
    pub(crate) results: Vec<Refreshed>,
}

/// The jobs of a level, and the numbers of their turns.
#[derive(Drop)]
pub(crate) struct Level {
    pub(crate) jobs: Vec<OutputJob>,
    pub(crate) turns: Vec<u32>,
}

/// The streams of a store: a line for each output, and for each stream a result and the number of outputs before it.
#[derive(Drop)]
struct PreparedStreams {
    lines: Vec<RefreshLine>,
    results: Vec<Refreshed>,
    turns: Vec<u32>,
}

/// What became of an output for which nothing was done: as if there had been no memory.
const NOTHING: Refreshed = Refreshed::Refused(LandFault::Want);

/// Makes the work for the outputs of a snapshot, for this many workers. An `Err` means out of memory.
pub(crate) fn prepare(alloc: Global, snapshot: &Snapshot, workers: u8) -> Result<Work, AllocError>
    ensures { (h : List EntrySpec) → IsSnapshotOf h snapshot.now → IfOk result (IsPrepared h) }
{
    let groups = levels(alloc, snapshot)?;
    let PreparedStreams {
        lines,
        results,
        turns,
    } = streams_of(alloc, snapshot)?;
    let levels = levels_of(alloc, &groups, &turns, workers)?;
    Ok(Work {
        levels,
        lines,
        results,
    })
}

/// Makes the lines and results of all streams.
fn streams_of(alloc: Global, snapshot: &Snapshot) -> Result<PreparedStreams, AllocError>
    ensures lines { (h : List EntrySpec) → IsSnapshotOf h snapshot.now → IfOk result (λ s. s.lines.items ≡ map blank_line (outputs h)) }
    ensures results { (h : List EntrySpec) → IsSnapshotOf h snapshot.now → IfOk result (λ s. length s.results.items ≡ length (ids h)) }
{
    let mut lines = Vec::new(alloc);
    let mut results = Vec::new(alloc);
    let mut turns = Vec::new(alloc);
    for stream in 0..snapshot.streams() {
        turns.push(lines.len() as u32)?;
        results.push(NOTHING)?;
        push_line(&mut lines, stream, snapshot.spec(stream))?;
    }
    Ok(PreparedStreams {
        lines,
        results,
        turns,
    })
}

/// Adds the line of a stream, if it is an output.
fn push_line(
    lines: &mut Vec<RefreshLine>,
    stream: u32,
    kind: Option<Spec>,
) -> Result<(), AllocError>
    ensures { OnOk result (lines.new.items ≡ lines.old.items ++ map blank_line (outputs_from stream (kind ∷ []))) }
{
    if kind.is_some() {
        lines.push(RefreshLine {
            output: stream,
            result: NOTHING,
        })?;
    }
    Ok(())
}

/// Makes the jobs of all levels, if these are their outputs, and these are the numbers of the turns of all streams.
fn levels_of(
    alloc: Global,
    groups: &[Vec<u32>],
    turns: &[u32],
    workers: u8,
) -> Result<Vec<Level>, AllocError>
    ensures { IfOk result (λ v. groups_in v.items ≡ map (λ g. g.items) groups.now) }
{
    let mut levels = Vec::new(alloc);
    for group in groups {
        levels.push(level_of(alloc, group, turns, workers)?)?;
    }
    Ok(levels)
}

/// Makes the jobs of a level.
fn level_of(alloc: Global, group: &[u32], turns: &[u32], workers: u8) -> Result<Level, AllocError>
    ensures { IfOk result (λ l. outputs_in l.jobs.items ≡ group.now) }
{
    let mut level = Level {
        jobs: Vec::new(alloc),
        turns: Vec::new(alloc),
    };
    let threads = threads_each(workers, group.len());
    for output in group {
        level.jobs.push(OutputJob {
            output: *output,
            threads,
            result: NOTHING,
        })?;
        level.turns.push(turn_of(turns, *output))?;
    }
    Ok(level)
}

/// Returns how many threads each of this many outputs has, if each is brought up to date by a worker of its own: an equal share of the
/// workers, rounded down, and at least one thread.
fn threads_each(workers: u8, outputs: usize) -> usize
    ensures some { 1 ≤ result }
    ensures few { result * outputs ≤ max workers outputs }
{
    let workers = usize::from(workers);
    if workers <= outputs || outputs == 0 {
        return 1;
    }
    workers / outputs
}

/// Returns the number of the turn of a stream.
fn turn_of(turns: &[u32], stream: u32) -> u32 {
    match turns.get(stream as usize) {
        None => 0,
        Some(turn) => *turn,
    }
}
