//! Histories as tables of what is put into them, and rows on the rejection of one more entry.

use crate::fixture::Row;
use btr_base::{Bag, Point, Range, Ranges};
use btr_hist::{Entry, History, Reads, Rejection, Spec};
use std::alloc::{AllocError, Global};
use std::test::Fail;

/// Points as pairs of a time and a value, and ranges as pairs of bounds.
pub(super) type Pairs = &'static [(i64, i64)];

/// The points of an entry.
pub(super) enum Added {
    /// Points by their times and values.
    Points(Pairs),
    /// For each time and count, `count` points at that time, with the values from 0 on.
    Runs(&'static [(i64, u32)]),
}

/// An entry.
pub(super) enum Put {
    Create(u128),
    Define(u128, Spec),
    Commit(u32, Pairs, Added),
    Distillate(u32, Pairs, Added, Reads),
    Retire(u32, u64),
}

/// The entries of a history, in tables.
pub(super) type Past = &'static [&'static [Put]];

/// The points of these times and values.
pub(super) fn bag_of(alloc: Global, pairs: &[(i64, i64)]) -> Result<Bag, AllocError> {
    let mut points = Vec::new(alloc);
    for (time, value) in pairs {
        points.push(Point {
            time: *time,
            value: *value,
        })?;
    }
    Ok(Bag::from_points(points))
}

/// For each time and count, `count` points at that time, with the values from 0 on.
pub(super) fn runs(alloc: Global, runs: &[(i64, u32)]) -> Result<Bag, AllocError> {
    let mut points = Vec::new(alloc);
    for (time, count) in runs {
        push_run(&mut points, *time, *count)?;
    }
    Ok(Bag::from_points(points))
}

/// Adds `count` points at one time, with the values from 0 on.
fn push_run(points: &mut Vec<Point>, time: i64, count: u32) -> Result<(), AllocError> {
    for value in 0..count {
        points.push(Point {
            time,
            value: i64::from(value),
        })?;
    }
    Ok(())
}

fn added_of(alloc: Global, added: &Added) -> Result<Bag, AllocError> {
    match added {
        Added::Points(pairs) => bag_of(alloc, pairs),
        Added::Runs(counts) => runs(alloc, counts),
    }
}

/// These ranges.
pub(super) fn cut_of(alloc: Global, pairs: &[(i64, i64)]) -> Result<Ranges, Fail> {
    let mut ranges = Ranges::none(alloc);
    for (from, to) in pairs {
        ranges.add(Range::new(*from, *to).ok_or("no range")?)?;
    }
    Ok(ranges)
}

/// The entry of a row.
pub(super) fn entry_of(alloc: Global, put: &Put) -> Result<Entry, Fail> {
    match put {
        Put::Create(id) => Ok(Entry::Create { id: *id }),
        Put::Define(id, spec) => Ok(Entry::Define {
            id: *id,
            spec: *spec,
        }),
        Put::Commit(stream, pairs, added) => Ok(Entry::Commit {
            stream: *stream,
            cut: cut_of(alloc, pairs)?,
            added: added_of(alloc, added)?,
        }),
        Put::Distillate(stream, pairs, added, reads) => Ok(Entry::Distillate {
            stream: *stream,
            cut: cut_of(alloc, pairs)?,
            added: added_of(alloc, added)?,
            reads: *reads,
        }),
        Put::Retire(stream, first) => Ok(Entry::Retire {
            stream: *stream,
            first: *first,
        }),
    }
}

/// Adds the entries of a table.
fn push_all(alloc: Global, history: &mut History, puts: &[Put]) -> Result<(), Fail> {
    for put in puts {
        history.push(entry_of(alloc, put)?)?;
    }
    Ok(())
}

/// The history of the entries of tables, one after another.
pub(super) fn history_of(alloc: Global, past: &[&[Put]]) -> Result<History, Fail> {
    let mut history = History::empty(alloc);
    for puts in past {
        push_all(alloc, &mut history, puts)?;
    }
    Ok(history)
}

/// Whether an entry is rejected for this reason, or allowed if there is none.
pub(super) fn is_rejected(
    alloc: Global,
    history: History,
    entry: Entry,
    want: Option<Rejection>,
) -> Result<bool, AllocError> {
    Ok(history.rejection(alloc, &entry)? == want)
}

/// A history, one more entry, and the reason why it is rejected, or none if it is allowed.
pub(super) struct Next(
    pub(super) Past,
    pub(super) Put,
    pub(super) Option<Rejection>,
);

impl Row for Next {
    fn holds(&self, alloc: Global) -> Result<bool, Fail> {
        let history = history_of(alloc, self.0)?;
        let entry = entry_of(alloc, &self.1)?;
        Ok(is_rejected(alloc, history, entry, self.2)?)
    }
}

/// A stream with 252 points at time 0 and one at time 8, and a stream with none.
pub(super) const TWO_STREAMS: Past = &[&[
    Put::Create(1),
    Put::Create(2),
    Put::Commit(0, &[], Added::Runs(&[(0, 252), (8, 1)])),
]];
