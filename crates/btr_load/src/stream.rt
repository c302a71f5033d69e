//! The commits of one stream: a job for one worker.
ghost use Rattle.std.specs.Prelude.{◌≡◌, map, IfOk};
ghost use Rattle.btr_jobs.specs.Jobs.{IsAt, Does};
ghost use Rattle.btr_load.specs.Batches.{batch_entry, last_version};
ghost use Rattle.btr_load.specs.Work.{OneBatchDid, AllBatchesDid};

use crate::outcome::RowsOutcome;
use btr_base::{Bag, Point, Ranges};
use btr_disk::Disk;
use btr_engine::{Receipt, StepFault};
use btr_hall::{Hall, Session};
use btr_hist::Entry;
use btr_jobs::{Job, System};
use btr_rows::{NumberedPoint, StreamRows};
use std::alloc::{AllocError, Global};
use std::marker::{Send, Sync};
use std::sync::Wait;
use std::thread::Threads;

/// The rows of one stream, and what became of them.
#[derive(Drop)]
pub struct LoadedStream {
    /// The id, and the points with the numbers of their rows.
    pub rows: StreamRows,

    /// The number of points of each batch. The last batch has what is left.
    pub batch: u32,

    /// What became of the points.
    pub outcome: RowsOutcome,
}

impl Job for LoadedStream {
    ghost use Rattle.btr_load.specs.Work.{CommitsStream};
    ghost use Rattle.btr_load.specs.WorkLaws.{works_lasts, works_lowers};

    ghost did = { CommitsStream };

    ghost keeps = { λ was now. Unit {0} };

    fn run<R: Threads + Wait + Sync, D: Disk + Send>(
        &mut self,
        system: System<'_, R>,
        hall: &Hall<D>,
        session: &mut Session<D>,
    ) {
        let points = self.rows.points();
        if let RowsOutcome::Committed {
            stream,
            results,
            latest,
        } = &mut self.outcome
        {
            commit_batches(
                system,
                hall,
                session,
                *stream,
                self.batch,
                points,
                &mut results.list,
            );
            *latest = version_after(*latest, &results.list);
        }
    }

    ghost lasts = { works_lasts };

    ghost lowers = { works_lowers };
}

/// Commits the batches of a stream, in order, and sets the result of each. A refused batch does not stop later ones.
fn commit_batches<R: Threads + Wait + Sync, D: Disk>(
    system: System<'_, R>,
    hall: &Hall<D>,
    session: &mut Session<D>,
    stream: u32,
    batch: u32,
    points: &[NumberedPoint],
    results: &mut [Result<Receipt, StepFault>],
)
    requires at { IsAt hall.now session.old }
    ensures at { IsAt hall.now session.new }
    ensures does { Does hall.now session.old session.new
        (λ start log low own. AllBatchesDid start log low stream batch points.now results.old results.new own) }
{
    let mut rest = points;
    for i in 0..results.len() {
        let size = (batch as usize).min(rest.len());
        let (here, after) = rest.split_at(size);
        results[i] = commit_batch(system, hall, session, stream, here);
        rest = after;
    }
}

/// Commits a batch: one entry, which adds its points.
fn commit_batch<R: Threads + Wait + Sync, D: Disk>(
    system: System<'_, R>,
    hall: &Hall<D>,
    session: &mut Session<D>,
    stream: u32,
    batch: &[NumberedPoint],
) -> Result<Receipt, StepFault>
    requires at { IsAt hall.now session.old }
    ensures at { IsAt hall.now session.new }
    ensures does { Does hall.now session.old session.new
        (λ start log low own. OneBatchDid start log low stream batch.now result own) }
{
    let entry = batch_entry(system.alloc, stream, batch)?;
    session.commit(system.rt, system.alloc, hall, &entry)
}

/// Makes the entry of a batch. It sorts a copy of the points. An `Err` means out of memory.
fn batch_entry(alloc: Global, stream: u32, batch: &[NumberedPoint]) -> Result<Entry, AllocError>
    ensures { IfOk result (λ e. e ≡ batch_entry stream batch.now) }
{
    let points = points_of(alloc, batch)?;
    Ok(Entry::Commit {
        stream,
        cut: Ranges::none(alloc),
        added: Bag::from_points(points),
    })
}

/// Copies the points of a batch. An `Err` means out of memory.
fn points_of(alloc: Global, batch: &[NumberedPoint]) -> Result<Vec<Point>, AllocError>
    ensures { IfOk result (λ v. v.items ≡ map (λ b. b.point) batch.now) }
{
    let mut points = Vec::with_capacity(alloc, batch.len())?;
    for numbered in batch {
        points.push(numbered.point)?;
    }
    Ok(points)
}

/// Returns the version of the last accepted batch, or the version before if none was accepted.
fn version_after(version: u64, results: &[Result<Receipt, StepFault>]) -> u64
    ensures { result ≡ last_version version results.now }
{
    let mut version = version;
    for result in results {
        if let Ok(receipt) = result {
            version = receipt.version;
        }
    }
    version
}
