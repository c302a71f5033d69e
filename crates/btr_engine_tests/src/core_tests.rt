//! Tests of the machine: events of several actors in tables, each with the reply that it has to get.
use crate::fixture::{Pairs, insert, no_wrong};
use btr_base::{Bag, Point, Ranges};
use btr_core::*;
use btr_hist::{Answer, At, Entry, Kernel, Query, Reads, Refusal, Rejection, Rows, Spec};
use std::alloc::{AllocError, Global};
use std::test::Fail;

/// What an actor does, in a table.
#[derive(Clone, Copy)]
enum Act<'a> {
    /// Creates a stream with this id.
    Create(u128),

    /// Adds points to a stream.
    Insert(u32, Pairs<'a>),

    /// Defines an output with this id: the sum of the points of stream 0 in the last 10 ns.
    Sum(u128),

    /// Commits a distillate of no ranges and no points of a stream, which reads version 1.
    Distil(u32),

    /// Retires the versions of a stream before this one.
    Retire(u32, u64),

    Admit,

    /// Asks for the points of the latest version of a stream between 0 and 100.
    Points(u32),

    /// Asks for the aggregate of the latest version of a stream, and what it has read.
    Info(u32),

    /// Asks for all streams.
    Streams,

    Plan(u32),
    Land,
}

/// The reply that an actor has to get, in a table.
#[derive(Clone, Copy)]
enum Wanted<'a> {
    /// The number of the entry, its stream, and the version that it made.
    Accepted(u64, u32, u64),

    Rejected(Rejection),
    Admitted(u64),

    /// A version, and its points.
    Points(u64, Pairs<'a>),

    /// A version, the count and the sum of its points, the least and the greatest value, and the version of the input that it has
    /// read.
    Info(u64, (u64, i128), (i64, i64), Option<u64>),

    /// The number of entries and the number of streams.
    Streams(u64, usize),

    Refused(Refusal),
    Planned(bool),
    NotOutput,
    Superseded(u64),
    NoPlan,
}

/// An actor, what it does, and the reply.
type Row<'a> = (u16, Act<'a>, Wanted<'a>);

/// Returns a distillate of no ranges and no points.
fn distillate(alloc: Global, stream: u32) -> Entry {
    Entry::Distillate {
        stream,
        cut: Ranges::none(alloc),
        added: Bag::from_points(Vec::new(alloc)),
        reads: Reads {
            first: 1,
            second: None,
        },
    }
}

/// Returns an output of the sums of stream 0 over 10 ns.
fn sum(id: u128) -> Entry {
    Entry::Define {
        id,
        spec: Spec {
            kernel: Kernel::Sum,
            lead: 10,
            grain: 0,
            first: 0,
            second: None,
        },
    }
}

fn what(alloc: Global, act: Act<'_>) -> Result<What, AllocError> {
    Ok(match act {
        Act::Create(id) => What::Commit(Entry::Create { id }),
        Act::Insert(stream, pairs) => What::Commit(insert(alloc, stream, pairs)?),
        Act::Sum(id) => What::Commit(sum(id)),
        Act::Distil(stream) => What::Commit(distillate(alloc, stream)),
        Act::Retire(stream, first) => What::Commit(Entry::Retire { stream, first }),
        Act::Admit => What::Admit,
        Act::Points(stream) => What::Ask(Query::Points {
            stream,
            from: 0,
            to: 100,
            at: At::Latest,
        }),
        Act::Info(stream) => What::Ask(Query::Info {
            stream,
            at: At::Latest,
        }),
        Act::Streams => What::Ask(Query::Streams),
        Act::Plan(stream) => What::Plan(stream),
        Act::Land => What::Land,
    })
}

/// Returns whether the points are these pairs.
fn same_points(points: &[Point], pairs: Pairs<'_>) -> bool {
    if points.len() != pairs.len() {
        return false;
    }
    for (point, pair) in points.iter().zip(pairs.iter()) {
        if point.time != pair.0 || point.value != pair.1 {
            return false;
        }
    }
    true
}

/// Returns whether the rows are the wanted ones, of the wanted version.
fn same_rows(version: u64, rows: &Rows, wanted: &Wanted<'_>) -> bool {
    match (rows, wanted) {
        (Rows::Points(points), Wanted::Points(number, pairs)) => {
            version == *number && same_points(points.as_slice(), pairs)
        }
        (Rows::Info { agg, reads, .. }, Wanted::Info(number, sums, ends, read)) => {
            version == *number
                && (agg.count, agg.sum) == *sums
                && agg.ends == Some(*ends)
                && first_of(reads) == *read
        }
        (Rows::Streams(streams), Wanted::Streams(number, count)) => {
            version == *number && streams.as_slice().len() == *count
        }
        _ => false,
    }
}

/// Returns the version of the first input.
fn first_of(reads: &Option<Reads>) -> Option<u64> {
    match reads {
        Some(reads) => Some(reads.first),
        None => None,
    }
}

/// Returns whether the answer is the wanted one.
fn answers(answer: &Answer, wanted: &Wanted<'_>) -> bool {
    match answer {
        Answer::Found { version, rows } => same_rows(*version, rows, wanted),
        Answer::Refused(why) => match wanted {
            Wanted::Refused(refusal) => *why == *refusal,
            _ => false,
        },
    }
}

/// Returns whether the reply is the wanted one.
fn replies(reply: &Reply, wanted: &Wanted<'_>) -> bool {
    match (reply, wanted) {
        (Reply::Accepted(receipt), Wanted::Accepted(number, stream, version)) => {
            receipt.number == *number && receipt.stream == *stream && receipt.version == *version
        }
        (Reply::Rejected(why), Wanted::Rejected(rejection)) => *why == *rejection,
        (Reply::Admitted(entries), Wanted::Admitted(number)) => *entries == *number,
        (Reply::Answered(answer), _) => answers(answer, wanted),
        (Reply::Planned(made), Wanted::Planned(is_made)) => *made == *is_made,
        (Reply::Superseded { version }, Wanted::Superseded(latest)) => *version == *latest,
        (Reply::NotOutput, Wanted::NotOutput) => true,
        (Reply::NoPlan, Wanted::NoPlan) => true,
        _ => false,
    }
}

/// Returns the events of a table.
fn events_of(alloc: Global, rows: &[Row<'_>]) -> Result<Vec<Event>, AllocError> {
    let mut events = Vec::new(alloc);
    for (actor, act, _) in rows {
        events.push(Event {
            actor: *actor,
            what: what(alloc, *act)?,
        })?;
    }
    Ok(events)
}

/// Plays the events of a table, and returns the number of the first row whose reply is another one, or that has none.
fn first_wrong(alloc: Global, rows: &[Row<'_>]) -> Result<Option<usize>, Fail> {
    let got = run(alloc, &events_of(alloc, rows)?)?;
    if got.len() != rows.len() {
        return Err("one reply for each event".into());
    }
    for (place, (reply, (_, _, wanted))) in got.iter().zip(rows.iter()).enumerate() {
        if !replies(reply, wanted) {
            return Ok(Some(place));
        }
    }
    Ok(None)
}

/// Actors that are admitted, and one that is not.
const ADMITTED: &[Row<'static>] = &[
    (1, Act::Create(7), Wanted::Accepted(1, 0, 0)),
    (1, Act::Insert(0, &[(0, 1)]), Wanted::Accepted(2, 0, 1)),
    (2, Act::Admit, Wanted::Admitted(2)),
    (1, Act::Insert(0, &[(5, 2)]), Wanted::Accepted(3, 0, 2)),
    (2, Act::Info(0), Wanted::Info(1, (1, 1), (1, 1), None)),
    (2, Act::Admit, Wanted::Admitted(3)),
    (2, Act::Info(0), Wanted::Info(2, (2, 3), (1, 2), None)),
    (3, Act::Streams, Wanted::Streams(0, 0)),
    (3, Act::Info(0), Wanted::Refused(Refusal::NoStream)),
    (2, Act::Streams, Wanted::Streams(3, 1)),
    (2, Act::Plan(0), Wanted::NotOutput),
    (3, Act::Plan(0), Wanted::NotOutput),
    (2, Act::Land, Wanted::NoPlan),
    (3, Act::Land, Wanted::NoPlan),
    (
        u16::MAX,
        Act::Create(7),
        Wanted::Rejected(Rejection::StreamExists),
    ),
    (
        0,
        Act::Insert(1, &[(5, 2)]),
        Wanted::Rejected(Rejection::NoStream),
    ),
    (0, Act::Distil(0), Wanted::Rejected(Rejection::NotWritable)),
    (0, Act::Admit, Wanted::Admitted(3)),
];

#[test]
fn an_actor_sees_what_it_was_admitted_to(rt: HostRuntime) -> Result<(), Fail> {
    no_wrong(first_wrong(rt.alloc(), ADMITTED)?)
}

/// An actor whose plan lands between two retirements of its input by another one.
const RETIRED: &[Row<'static>] = &[
    (1, Act::Create(7), Wanted::Accepted(1, 0, 0)),
    (
        1,
        Act::Insert(0, &[(0, 10), (10, 20), (20, 30)]),
        Wanted::Accepted(2, 0, 1),
    ),
    (1, Act::Sum(8), Wanted::Accepted(3, 1, 0)),
    (2, Act::Admit, Wanted::Admitted(3)),
    (2, Act::Plan(1), Wanted::Planned(true)),
    (1, Act::Insert(0, &[(5, 1)]), Wanted::Accepted(4, 0, 2)),
    (
        1,
        Act::Retire(0, 2),
        Wanted::Rejected(Rejection::Held {
            output: 1,
            version: 0,
        }),
    ),
    (2, Act::Land, Wanted::Accepted(5, 1, 1)),
    (
        1,
        Act::Retire(0, 2),
        Wanted::Rejected(Rejection::Held {
            output: 1,
            version: 1,
        }),
    ),
    (1, Act::Admit, Wanted::Admitted(5)),
    (1, Act::Plan(1), Wanted::Planned(true)),
    (1, Act::Land, Wanted::Accepted(6, 1, 2)),
    (
        1,
        Act::Retire(0, 3),
        Wanted::Rejected(Rejection::BadFirst {
            first: 3,
            present: 0,
            latest: 2,
        }),
    ),
    (1, Act::Retire(0, 2), Wanted::Accepted(7, 0, 0)),
    (1, Act::Retire(2, 1), Wanted::Rejected(Rejection::NoStream)),
    (2, Act::Info(0), Wanted::Info(1, (3, 60), (10, 30), None)),
    (2, Act::Admit, Wanted::Admitted(7)),
    (2, Act::Info(0), Wanted::Info(2, (4, 61), (1, 30), None)),
];

#[test]
fn a_version_that_an_output_has_read_last_is_not_retired(rt: HostRuntime) -> Result<(), Fail> {
    no_wrong(first_wrong(rt.alloc(), RETIRED)?)
}

/// Two actors with a plan of the same output.
const TWO_PLANS: &[Row<'static>] = &[
    (1, Act::Create(7), Wanted::Accepted(1, 0, 0)),
    (
        1,
        Act::Insert(0, &[(0, 10), (10, 20), (20, 30)]),
        Wanted::Accepted(2, 0, 1),
    ),
    (1, Act::Sum(8), Wanted::Accepted(3, 1, 0)),
    (1, Act::Admit, Wanted::Admitted(3)),
    (1, Act::Plan(1), Wanted::Planned(true)),
    (1, Act::Land, Wanted::Accepted(4, 1, 1)),
    (1, Act::Insert(0, &[(5, 1)]), Wanted::Accepted(5, 0, 2)),
    (1, Act::Admit, Wanted::Admitted(5)),
    (1, Act::Plan(1), Wanted::Planned(true)),
    (2, Act::Admit, Wanted::Admitted(5)),
    (2, Act::Plan(1), Wanted::Planned(true)),
    (1, Act::Land, Wanted::Accepted(6, 1, 2)),
    (2, Act::Land, Wanted::Superseded(2)),
    (2, Act::Land, Wanted::NoPlan),
    // what is up to date needs no plan, and the one that there was is kept
    (2, Act::Plan(1), Wanted::Planned(true)),
    (2, Act::Admit, Wanted::Admitted(6)),
    (2, Act::Plan(1), Wanted::Planned(false)),
    (
        2,
        Act::Info(1),
        Wanted::Info(2, (4, 102), (10, 50), Some(2)),
    ),
    (
        2,
        Act::Points(1),
        Wanted::Points(2, &[(0, 10), (5, 11), (10, 31), (20, 50)]),
    ),
    (2, Act::Land, Wanted::Superseded(2)),
    (2, Act::Land, Wanted::NoPlan),
    (
        2,
        Act::Insert(1, &[(5, 1)]),
        Wanted::Rejected(Rejection::NotWritable),
    ),
    (2, Act::Distil(1), Wanted::Rejected(Rejection::NotWritable)),
];

#[test]
fn one_of_two_plans_lands(rt: HostRuntime) -> Result<(), Fail> {
    no_wrong(first_wrong(rt.alloc(), TWO_PLANS)?)
}

/// A plan that lands after a change of its input.
const OWN_READS: &[Row<'static>] = &[
    (1, Act::Create(7), Wanted::Accepted(1, 0, 0)),
    (
        1,
        Act::Insert(0, &[(0, 10), (10, 20), (20, 30)]),
        Wanted::Accepted(2, 0, 1),
    ),
    (1, Act::Sum(8), Wanted::Accepted(3, 1, 0)),
    (1, Act::Admit, Wanted::Admitted(3)),
    (1, Act::Plan(1), Wanted::Planned(true)),
    (2, Act::Insert(0, &[(5, 1)]), Wanted::Accepted(4, 0, 2)),
    (1, Act::Land, Wanted::Accepted(5, 1, 1)),
    (3, Act::Admit, Wanted::Admitted(5)),
    (3, Act::Info(1), Wanted::Info(1, (3, 90), (10, 50), Some(1))),
    (
        3,
        Act::Points(1),
        Wanted::Points(1, &[(0, 10), (10, 30), (20, 50)]),
    ),
    (1, Act::Admit, Wanted::Admitted(5)),
    (1, Act::Plan(1), Wanted::Planned(true)),
    (1, Act::Land, Wanted::Accepted(6, 1, 2)),
    (3, Act::Admit, Wanted::Admitted(6)),
    (
        3,
        Act::Info(1),
        Wanted::Info(2, (4, 102), (10, 50), Some(2)),
    ),
    (
        3,
        Act::Points(1),
        Wanted::Points(2, &[(0, 10), (5, 11), (10, 31), (20, 50)]),
    ),
];

#[test]
fn a_plan_lands_with_its_own_reads(rt: HostRuntime) -> Result<(), Fail> {
    no_wrong(first_wrong(rt.alloc(), OWN_READS)?)
}
