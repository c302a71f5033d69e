//! The answer to each question, by filters and folds over all entries.
ghost use Rattle.std.specs.Prelude.{◌≡◌, Bool, List, [], ◌&&◌, nat_le, max, length, true, MatchResult, IfOk};
ghost use Rattle.btr_base.specs.Bag.{IsInOrder, within};
ghost use Rattle.btr_base.specs.Nearest.{nearest};
ghost use Rattle.btr_hist.specs.declared.query.Query.TheVariants.{Points as AskPoints, Nearest as AskNearest, Aligned as AskAligned};
ghost use Rattle.btr_hist.specs.declared.query.Query.TheVariants.{Windows as AskWindows, Changes as AskChanges, Info as AskInfo};
ghost use Rattle.btr_hist.specs.declared.query.Query.TheVariants.{Streams as AskStreams};
ghost use Rattle.btr_hist.specs.History.{ids, is_output};
ghost use Rattle.btr_hist.specs.Answer.{answer, version_of, is_range, is_power, is_width, rows_from, list_of};
ghost use Rattle.btr_hist.specs.Asked.{IsAsked};

use crate::answer::{Answer, CellList, PointList, Refusal, Rows, StreamList, StreamRow};
use crate::cells::{aligned_cells, whole_cells};
use crate::changed::changed_ranges;
use crate::entry::Entry;
use crate::query::{At, Query, VersionAsked};
use crate::walks::{earliest_of, latest_of, points_of_version, read_by, spec_of, stream_count};
use btr_base::{Agg, END, FIRST, MAX_EXPONENT, MAX_WIDTH, Point, Toward, parted, points_between};
use std::alloc::{AllocError, Global};

/// The answer to a question. It costs the whole history. An `Err` means out of memory.
pub(crate) fn answer_of(
    alloc: Global,
    entries: &[Entry],
    query: &Query,
) -> Result<Answer, AllocError>
    ensures { IfOk result (λ a. a ≡ answer entries.now query.now) }
{
    match *query {
        Query::Points {
            stream,
            from,
            to,
            at,
        } => points_answer(alloc, entries, VersionAsked { stream, at }, from, to),
        Query::Nearest {
            stream,
            time,
            toward,
            at,
        } => nearest_answer(alloc, entries, VersionAsked { stream, at }, time, toward),
        Query::Aligned {
            stream,
            from,
            to,
            p,
            at,
        } => aligned_answer(alloc, entries, VersionAsked { stream, at }, from, to, p),
        Query::Windows {
            stream,
            from,
            to,
            width,
            at,
        } => windows_answer(alloc, entries, VersionAsked { stream, at }, from, to, width),
        Query::Changes {
            stream,
            old,
            new,
            p,
        } => changes_answer(alloc, entries, stream, old, new, p),
        Query::Info { stream, at } => info_answer(alloc, entries, VersionAsked { stream, at }),
        Query::Streams => streams_answer(alloc, entries),
    }
}

/// The version that is asked for, or the reason of a refusal. `good` says whether the other numbers of the question are good.
fn version_asked(entries: &[Entry], asked: VersionAsked, good: bool) -> Result<u64, Refusal>
    ensures { IsAsked entries.now asked.stream (version_of entries.now asked.stream asked.at)
        (version_of entries.now asked.stream asked.at) good result }
{
    let VersionAsked { stream, at } = asked;
    let latest = latest_of(entries, stream as usize) as u64;
    let version = match at {
        At::Number(number) => number,
        At::Latest => latest,
    };
    versions_asked(entries, stream, version, version, good)
}

/// The greater of two versions that are asked for, or the reason of a refusal. `good` says whether the other numbers of the question
/// are good.
fn versions_asked(
    entries: &[Entry],
    stream: u32,
    least: u64,
    version: u64,
    good: bool,
) -> Result<u64, Refusal>
    ensures { IsAsked entries.now stream least version good result }
{
    if stream as usize >= stream_count(entries) {
        return Err(Refusal::NoStream);
    }
    let latest = latest_of(entries, stream as usize) as u64;
    if version > latest {
        return Err(Refusal::NoVersion {
            asked: version,
            latest,
        });
    }
    let first = earliest_of(entries, stream);
    if least < first {
        return Err(Refusal::Retired {
            asked: least,
            first,
        });
    }
    if good {
        Ok(version)
    } else {
        Err(Refusal::BadRange)
    }
}

/// The answer to a question for points. An `Err` means out of memory.
fn points_answer(
    alloc: Global,
    entries: &[Entry],
    asked: VersionAsked,
    from: i64,
    to: i64,
) -> Result<Answer, AllocError>
    ensures { IfOk result (λ a. a ≡ answer entries.now (AskPoints asked.stream from to asked.at)) }
{
    let version = match version_asked(entries, asked, is_range(from, to)) {
        Ok(version) => version,
        Err(refusal) => return Ok(Answer::Refused(refusal)),
    };
    let bag = points_of_version(alloc, entries, asked.stream, version)?;
    let points = Vec::from_slice(alloc, points_between(bag.as_slice(), from, to))?;
    Ok(Answer::Found {
        version,
        rows: Rows::Points(PointList::from_points(points)),
    })
}

/// The answer to a question for the nearest point. An `Err` means out of memory.
fn nearest_answer(
    alloc: Global,
    entries: &[Entry],
    asked: VersionAsked,
    time: i64,
    toward: Toward,
) -> Result<Answer, AllocError>
    ensures { IfOk result (λ a. a ≡ answer entries.now (AskNearest asked.stream time toward asked.at)) }
{
    let version = match version_asked(entries, asked, true) {
        Ok(version) => version,
        Err(refusal) => return Ok(Answer::Refused(refusal)),
    };
    let bag = points_of_version(alloc, entries, asked.stream, version)?;
    let points = list_of(alloc, nearest_point(bag.as_slice(), time, toward))?;
    Ok(Answer::Found {
        version,
        rows: Rows::Points(PointList::from_points(points)),
    })
}

/// The answer to a question for aligned windows. An `Err` means out of memory.
fn aligned_answer(
    alloc: Global,
    entries: &[Entry],
    asked: VersionAsked,
    from: i64,
    to: i64,
    p: u8,
) -> Result<Answer, AllocError>
    ensures { IfOk result (λ a. a ≡ answer entries.now (AskAligned asked.stream from to p asked.at)) }
{
    let version = match version_asked(entries, asked, can_align(from, to, p)) {
        Ok(version) => version,
        Err(refusal) => return Ok(Answer::Refused(refusal)),
    };
    let bag = points_of_version(alloc, entries, asked.stream, version)?;
    let cells = aligned_cells(alloc, bag.as_slice(), from, to, p)?;
    Ok(Answer::Found {
        version,
        rows: Rows::Cells(CellList::from_cells(cells)),
    })
}

/// The answer to a question for windows of any width. An `Err` means out of memory.
fn windows_answer(
    alloc: Global,
    entries: &[Entry],
    asked: VersionAsked,
    from: i64,
    to: i64,
    width: u64,
) -> Result<Answer, AllocError>
    ensures { IfOk result (λ a. a ≡ answer entries.now (AskWindows asked.stream from to width asked.at)) }
{
    let version = match version_asked(entries, asked, can_divide(from, to, width)) {
        Ok(version) => version,
        Err(refusal) => return Ok(Answer::Refused(refusal)),
    };
    let bag = points_of_version(alloc, entries, asked.stream, version)?;
    let cells = whole_cells(alloc, bag.as_slice(), from, to, width)?;
    Ok(Answer::Found {
        version,
        rows: Rows::Cells(CellList::from_cells(cells)),
    })
}

/// The answer to a question for the changes from one version to another. An `Err` means out of memory.
fn changes_answer(
    alloc: Global,
    entries: &[Entry],
    stream: u32,
    old: u64,
    new: u64,
    p: u8,
) -> Result<Answer, AllocError>
    ensures { IfOk result (λ a. a ≡ answer entries.now (AskChanges stream old new p)) }
{
    let good = can_compare(old, new, p);
    let version = match versions_asked(entries, stream, old.min(new), old.max(new), good) {
        Ok(version) => version,
        Err(refusal) => return Ok(Answer::Refused(refusal)),
    };
    let before = points_of_version(alloc, entries, stream, old)?;
    let after = points_of_version(alloc, entries, stream, version)?;
    let ranges = changed_ranges(alloc, before.as_slice(), after.as_slice(), p)?;
    Ok(Answer::Found {
        version,
        rows: Rows::Ranges(ranges),
    })
}

/// The answer to a question for a version as a whole. An `Err` means out of memory.
fn info_answer(alloc: Global, entries: &[Entry], asked: VersionAsked) -> Result<Answer, AllocError>
    ensures { IfOk result (λ a. a ≡ answer entries.now (AskInfo asked.stream asked.at)) }
{
    let version = match version_asked(entries, asked, true) {
        Ok(version) => version,
        Err(refusal) => return Ok(Answer::Refused(refusal)),
    };
    let bag = points_of_version(alloc, entries, asked.stream, version)?;
    Ok(Answer::Found {
        version,
        rows: Rows::Info {
            output: is_output(entries, asked.stream as usize),
            agg: Agg::of_points(points_between(bag.as_slice(), FIRST, END)),
            reads: read_by(entries, asked.stream, version),
        },
    })
}

/// The answer to a question for all streams. An `Err` means out of memory.
fn streams_answer(alloc: Global, entries: &[Entry]) -> Result<Answer, AllocError>
    ensures { IfOk result (λ a. a ≡ answer entries.now AskStreams) }
{
    let rows = stream_rows(alloc, entries)?;
    Ok(Answer::Found {
        version: entries.len() as u64,
        rows: Rows::Streams(StreamList::from_rows(rows)),
    })
}

/// All streams, each with its latest version and its kind. An `Err` means out of memory.
fn stream_rows(alloc: Global, entries: &[Entry]) -> Result<Vec<StreamRow>, AllocError>
    ensures { IfOk result (λ v. v.items ≡ rows_from entries.now 0 (ids entries.now)) }
{
    let mut rows = Vec::new(alloc);
    let mut number = 0;
    for entry in entries {
        if let Some(id) = entry.new_id() {
            rows.push(StreamRow {
                id,
                latest: latest_of(entries, number) as u64,
                output: is_output(entries, number),
            })?;
            number += 1;
        }
    }
    Ok(rows)
}

/// Whether the stream is an output.
fn is_output(entries: &[Entry], stream: usize) -> bool
    ensures { result ≡ is_output entries.now stream }
{
    spec_of(entries, stream).is_some()
}

/// The point of a list in order that is nearest to a time, in nanoseconds.
fn nearest_point(points: &[Point], time: i64, toward: Toward) -> Option<Point>
    requires { IsInOrder points.now }
    ensures { result ≡ nearest toward time points.now }
{
    let (before, from) = parted(points, time);
    match toward {
        Toward::Forward => from.first().copied(),
        Toward::Backward => before.last().copied(),
    }
}

/// One point or none as a list.
fn list_of(alloc: Global, point: Option<Point>) -> Result<Vec<Point>, AllocError>
    ensures { IfOk result (λ v. v.items ≡ list_of point) }
{
    let mut points = Vec::new(alloc);
    if let Some(point) = point {
        points.push(point)?;
    }
    Ok(points)
}

/// Whether the bounds are those of a range, which is not empty and lies in the domain.
fn is_range(from: i64, to: i64) -> bool
    ensures { result ≡ is_range from to }
{
    FIRST <= from && from < to && to <= END
}

/// Whether aligned windows of `2^p` ns that meet the range can be asked for.
fn can_align(from: i64, to: i64, p: u8) -> bool
    ensures { result ≡ (is_range from to && is_power p) }
{
    is_range(from, to) && p <= MAX_EXPONENT
}

/// Whether windows of this width in the range can be asked for, in nanoseconds.
fn can_divide(from: i64, to: i64, width: u64) -> bool
    ensures { result ≡ (is_range from to && is_width width) }
{
    is_range(from, to) && 1 <= width && width <= MAX_WIDTH
}

/// Whether the changes from one version to another in slots of `2^p` ns can be asked for.
fn can_compare(old: u64, new: u64, p: u8) -> bool
    ensures { result ≡ (nat_le old new && is_power p) }
{
    old <= new && p <= MAX_EXPONENT
}
