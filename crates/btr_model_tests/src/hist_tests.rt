//! Worked examples of the model, and rejections: each cause, each boundary, and two causes at once. The limits of versions, of
//! points of a version and of ranges of a distillate are too great to be reached here.

mod distillers;
mod histories;
mod questions;
mod retirements;

use self::histories::{Added, Next, Put, TWO_STREAMS, history_of, is_rejected, runs};
use super::fixture::{Row, all_hold};
use btr_base::{END, FIRST, Range, Ranges};
use btr_hist::{
    Entry, History, PointList, Rejection, distillates_are_allowed, distillates_are_right,
    first_crowded, kernels_are_local, latest_versions_are_not_retired, legal_histories_are_right,
    old_versions_stay, outputs_read_no_retired_version, points_lie_in_the_domain,
    prefixes_are_legal, the_machine_stays_legal, versions_hold_what_was_put_in,
};
use std::alloc::Global;
use std::test::Fail;

const COMMITS: &[Next] = &[
    // one point, and equal points
    Next(
        TWO_STREAMS,
        Put::Commit(0, &[], Added::Runs(&[(4, 1)])),
        None,
    ),
    Next(
        TWO_STREAMS,
        Put::Commit(0, &[], Added::Runs(&[(4, 1), (4, 1)])),
        None,
    ),
    // no such stream; and empty; and outside
    Next(
        TWO_STREAMS,
        Put::Commit(2, &[], Added::Runs(&[(4, 1)])),
        Some(Rejection::NoStream),
    ),
    Next(
        TWO_STREAMS,
        Put::Commit(2, &[], Added::Runs(&[])),
        Some(Rejection::NoStream),
    ),
    Next(
        TWO_STREAMS,
        Put::Commit(2, &[], Added::Runs(&[(END, 1)])),
        Some(Rejection::NoStream),
    ),
    // empty
    Next(
        TWO_STREAMS,
        Put::Commit(0, &[], Added::Runs(&[])),
        Some(Rejection::Empty),
    ),
    // the first and the last time, and those before and after
    Next(
        TWO_STREAMS,
        Put::Commit(0, &[], Added::Runs(&[(FIRST, 1)])),
        None,
    ),
    Next(
        TWO_STREAMS,
        Put::Commit(0, &[], Added::Runs(&[(3458764513820540927, 1)])),
        None,
    ),
    Next(
        TWO_STREAMS,
        Put::Commit(0, &[], Added::Runs(&[(-1152921504606846977, 1)])),
        Some(Rejection::OutOfDomain {
            time: -1152921504606846977,
        }),
    ),
    Next(
        TWO_STREAMS,
        Put::Commit(0, &[], Added::Runs(&[(3458764513820540928, 1)])),
        Some(Rejection::OutOfDomain {
            time: 3458764513820540928,
        }),
    ),
    // the least of several
    Next(
        TWO_STREAMS,
        Put::Commit(
            0,
            &[],
            Added::Runs(&[(i64::MAX, 1), (0, 1), (i64::MIN, 1), (END, 1)]),
        ),
        Some(Rejection::OutOfDomain { time: i64::MIN }),
    ),
    // outside and too many; too many and crowded
    Next(
        TWO_STREAMS,
        Put::Commit(0, &[], Added::Runs(&[(END, 65537)])),
        Some(Rejection::OutOfDomain { time: END }),
    ),
    Next(
        TWO_STREAMS,
        Put::Commit(0, &[], Added::Runs(&[(4, 65537)])),
        Some(Rejection::TooMany { count: 65537 }),
    ),
];

#[test]
fn commits_that_are_rejected(rt: HostRuntime) -> Result<(), Fail> {
    all_hold(rt.alloc(), COMMITS)
}

/// A stream of `TWO_STREAMS`, points that are added to it, and the start of the span that is crowded then.
struct Crowd(u32, &'static [(i64, u32)], Option<i64>);

impl Row for Crowd {
    fn holds(&self, alloc: Global) -> Result<bool, Fail> {
        let history = history_of(alloc, TWO_STREAMS)?;
        let entry = Entry::Commit {
            stream: self.0,
            cut: Ranges::none(alloc),
            added: runs(alloc, self.1)?,
        };
        let want = self.2.map(|start| Rejection::Crowded { start });
        Ok(is_rejected(alloc, history, entry, want)?)
    }
}

const CROWDS: &[Crowd] = &[
    // 252, 253, and 253 in two spans
    Crowd(0, &[(4, 126), (7, 126)], None),
    Crowd(0, &[(4, 126), (7, 127)], Some(4)),
    Crowd(0, &[(7, 126), (12, 127)], None),
    // with those before, and in another stream
    Crowd(0, &[(3, 1)], Some(0)),
    Crowd(1, &[(0, 252)], None),
    // as many as may be
    Crowd(0, &[(4, 65536)], Some(4)),
    // at other times
    Crowd(0, &[(-1, 253)], Some(-4)),
    Crowd(0, &[(-4, 253)], Some(-4)),
    Crowd(0, &[(-5, 253)], Some(-8)),
    Crowd(0, &[(FIRST, 253)], Some(FIRST)),
    Crowd(0, &[(3458764513820540927, 253)], Some(3458764513820540924)),
    // the first of two
    Crowd(0, &[(8, 252), (-1, 253)], Some(-4)),
];

#[test]
fn crowded_commits(rt: HostRuntime) -> Result<(), Fail> {
    all_hold(rt.alloc(), CROWDS)
}

const AFTER_A_CUT: &[Next] = &[
    Next(
        TWO_STREAMS,
        Put::Commit(0, &[(0, 1)], Added::Runs(&[])),
        None,
    ),
    Next(
        TWO_STREAMS,
        Put::Commit(0, &[(0, 1)], Added::Runs(&[(3, 252)])),
        None,
    ),
];

#[test]
fn points_that_a_cut_removes_do_not_crowd(rt: HostRuntime) -> Result<(), Fail> {
    all_hold(rt.alloc(), AFTER_A_CUT)
}

/// `count` ranges, of one nanosecond in every two from 100 on.
fn many_ranges(alloc: Global, count: u32) -> Result<Ranges, Fail> {
    let mut ranges = Ranges::none(alloc);
    for i in 0..count {
        let from = 100 + 2 * i64::from(i);
        ranges.add(Range::new(from, from + 1).ok_or("no range")?)?;
    }
    Ok(ranges)
}

/// The number of ranges and the points of a commit to the first of `TWO_STREAMS`, and the number that is too great.
struct Many(u32, &'static [(i64, u32)], Option<u64>);

impl Row for Many {
    fn holds(&self, alloc: Global) -> Result<bool, Fail> {
        let history = history_of(alloc, TWO_STREAMS)?;
        let entry = Entry::Commit {
            stream: 0,
            cut: many_ranges(alloc, self.0)?,
            added: runs(alloc, self.1)?,
        };
        let want = self.2.map(|count| Rejection::TooMany { count });
        Ok(is_rejected(alloc, history, entry, want)?)
    }
}

const MANY: &[Many] = &[
    Many(65536, &[], None),
    Many(65537, &[], Some(65537)),
    Many(65537, &[(4, 65538)], Some(65538)),
    Many(65538, &[(4, 65537)], Some(65538)),
];

#[test]
fn many_ranges_are_rejected(rt: HostRuntime) -> Result<(), Fail> {
    all_hold(rt.alloc(), MANY)
}

const IDS: &[Next] = &[
    Next(TWO_STREAMS, Put::Create(1), Some(Rejection::StreamExists)),
    Next(TWO_STREAMS, Put::Create(2), Some(Rejection::StreamExists)),
    Next(TWO_STREAMS, Put::Create(3), None),
];

#[test]
fn an_id_is_taken_once(rt: HostRuntime) -> Result<(), Fail> {
    all_hold(rt.alloc(), IDS)
}

/// A history of this many streams, with the ids from 0 on.
fn streams(alloc: Global, count: u32) -> Result<History, Fail> {
    let mut history = History::empty(alloc);
    for id in 0..count {
        history.push(Entry::Create { id: u128::from(id) })?;
    }
    Ok(history)
}

/// A number of streams with the ids from 0 on, the id of one more, and the reason why it is rejected.
struct OneMore(u32, u128, Option<Rejection>);

impl Row for OneMore {
    fn holds(&self, alloc: Global) -> Result<bool, Fail> {
        let history = streams(alloc, self.0)?;
        let entry = Entry::Create { id: self.1 };
        Ok(is_rejected(alloc, history, entry, self.2)?)
    }
}

const UP_TO_THE_LIMIT: &[OneMore] = &[
    OneMore(65535, 65535, None),
    OneMore(65536, 0, Some(Rejection::StreamExists)),
    OneMore(65536, 65535, Some(Rejection::StreamExists)),
    OneMore(65536, 65536, Some(Rejection::StreamLimit)),
];

#[test]
fn streams_up_to_the_limit(rt: HostRuntime) -> Result<(), Fail> {
    all_hold(rt.alloc(), UP_TO_THE_LIMIT)
}

/// Whether the streams with the ids 1, 2 and 3 have these numbers.
fn are_found(
    history: &History,
    first: Option<usize>,
    second: Option<usize>,
    third: Option<usize>,
) -> bool {
    history.find(1) == first && history.find(2) == second && history.find(3) == third
}

#[test]
fn streams_are_found_by_their_ids(rt: HostRuntime) -> Result<(), Fail> {
    let mut history = history_of(rt.alloc(), TWO_STREAMS)?;
    assert!(rt; are_found(&history, Some(0), Some(1), None));
    history.push(Entry::Create { id: 3 })?;
    assert!(rt; are_found(&history, Some(0), Some(1), Some(2)));
    assert!(rt; history.pop().is_some());
    assert!(rt; are_found(&history, Some(0), Some(1), None));
    Ok(())
}

#[test]
fn streams_and_their_versions_are_counted(rt: HostRuntime) -> Result<(), Fail> {
    let history = history_of(rt.alloc(), TWO_STREAMS)?;
    assert!(rt; (history.latest(0), history.latest(1), history.streams()) == (1, 0, 2));
    Ok(())
}

#[test]
fn crowded_points_and_lists_of_points(rt: HostRuntime) -> Result<(), Fail> {
    let crowd = runs(rt.alloc(), &[(0, 1), (9, 253)])?;
    assert!(rt; first_crowded(crowd.as_slice()) == Some(8));
    let list = PointList::from_points(crowd.into_points());
    assert!(rt; list.as_slice().len() == 254);
    assert!(rt; list.into_points().len() == 254);
    Ok(())
}

#[test]
fn the_laws_of_histories_are_called() {
    old_versions_stay();
    versions_hold_what_was_put_in();
    kernels_are_local();
    distillates_are_right();
    legal_histories_are_right();
    distillates_are_allowed();
    prefixes_are_legal();
    points_lie_in_the_domain();
    the_machine_stays_legal();
    latest_versions_are_not_retired();
    outputs_read_no_retired_version();
}
