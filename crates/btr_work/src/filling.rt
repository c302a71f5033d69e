//! The report is filled in from the jobs that were done.
ghost use Rattle.std.specs.Prelude.{◌≡◌, map, slice_set};
ghost use Rattle.btr_work.specs.Refreshing.{noted, noted_all, result_at, filled, jobs_in};

use crate::prepare::{Level, Work};
use crate::refreshing::OutputJob;
use crate::report::{RefreshLine, Refreshed, Report};
use btr_hall::LandFault;

/// Makes the report of work that was done. It takes no memory.
pub(crate) fn report_of(work: Work) -> Report
    ensures { result ≡ map (filled (noted_all work.results.items (jobs_in work.levels.items))) work.lines.items }
{
    let Work {
        levels,
        mut lines,
        mut results,
    } = work;
    note_all(&mut results, &levels);
    fill(&mut lines, &results);
    Report::from_lines(lines)
}

/// Notes the results of all jobs.
fn note_all(results: &mut [Refreshed], levels: &[Level])
    ensures { results.new ≡ noted_all results.old (jobs_in levels.now) }
{
    for level in levels {
        note(results, &level.jobs);
    }
}

/// Notes the results of jobs.
fn note(results: &mut [Refreshed], jobs: &[OutputJob])
    ensures { results.new ≡ noted results.old jobs.now }
{
    for job in jobs {
        put(results, job);
    }
}

/// Puts the result of a job in its place.
fn put(results: &mut [Refreshed], job: &OutputJob)
    ensures { results.new ≡ slice_set results.old job.now.output job.now.result }
{
    let place = job.output as usize;
    if place < results.len() {
        results[place] = job.result;
    }
}

/// Fills in the results of all lines.
fn fill(lines: &mut [RefreshLine], results: &[Refreshed])
    ensures { lines.new ≡ map (filled results.now) lines.old }
{
    for line in lines.iter_mut() {
        line.result = result_at(results, line.output);
    }
}

/// Returns the result of an output.
fn result_at(results: &[Refreshed], output: u32) -> Refreshed
    ensures { result ≡ result_at results.now output }
{
    match results.get(output as usize) {
        None => Refreshed::Refused(LandFault::Want),
        Some(result) => *result,
    }
}
