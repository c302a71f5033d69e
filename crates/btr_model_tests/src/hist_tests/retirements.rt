//! Retirements: the worked examples, rejections with their boundaries and their order, and what is answered of retired versions.

use super::histories::{Added, Past, Put, history_of, is_rejected};
use super::questions::{Ask, Asked};
use crate::fixture::{Row, all_hold};
use btr_hist::{At, Entry, Kernel, Reads, Rejection, Spec};
use std::alloc::Global;
use std::test::Fail;

/// The first stream as it is.
const COPY: Spec = Spec {
    kernel: Kernel::Least,
    lead: 0,
    grain: 0,
    first: 0,
    second: None,
};

/// The first stream less itself.
const ITSELF: Spec = Spec {
    kernel: Kernel::Minus,
    lead: 0,
    grain: 0,
    first: 0,
    second: Some(0),
};

/// What an output has read: version 1 or 2 of its input, and the versions 1 and 3, or 3 and 1, of its two inputs.
const READ_1: Reads = Reads {
    first: 1,
    second: None,
};

const READ_2: Reads = Reads {
    first: 2,
    second: None,
};

const READ_1_3: Reads = Reads {
    first: 1,
    second: Some(3),
};

const READ_3_1: Reads = Reads {
    first: 3,
    second: Some(1),
};

/// A stream with three versions.
const THREE: &[Put] = &[
    Put::Create(10),
    Put::Commit(0, &[], Added::Points(&[(0, 5), (3, 7), (4, -2)])),
    Put::Commit(0, &[(3, 4)], Added::Points(&[])),
    Put::Commit(0, &[], Added::Points(&[(9, 1)])),
];

/// The versions of it before version 2 are retired.
const RETIRED: Past = &[THREE, &[Put::Retire(0, 2)]];

/// And then those before version 3.
const TWICE: Past = &[THREE, &[Put::Retire(0, 2), Put::Retire(0, 3)]];

const ANSWERS: &[Asked] = &[
    Asked(
        RETIRED,
        Ask::Points(0, 0, 5, At::Number(1)),
        "retired 1, first 2",
    ),
    Asked(
        RETIRED,
        Ask::Points(0, 0, 5, At::Number(0)),
        "retired 0, first 2",
    ),
    Asked(RETIRED, Ask::Points(0, 0, 5, At::Number(2)), "2 0:5 4:-2"),
    Asked(RETIRED, Ask::Points(0, 0, 5, At::Latest), "3 0:5 4:-2"),
    // of the changes the lesser version is looked at, and the greater one before it
    Asked(RETIRED, Ask::Changes(1, 3, 2), "retired 1, first 2"),
    Asked(RETIRED, Ask::Changes(3, 1, 2), "retired 1, first 2"),
    Asked(RETIRED, Ask::Changes(2, 3, 0), "3 9..10"),
    Asked(RETIRED, Ask::Changes(1, 4, 2), "no version 4, latest 3"),
    // before a bad range, and after a version that is not there
    Asked(
        RETIRED,
        Ask::Points(0, 5, 5, At::Number(1)),
        "retired 1, first 2",
    ),
    Asked(
        RETIRED,
        Ask::Points(0, 5, 5, At::Number(4)),
        "no version 4, latest 3",
    ),
    Asked(RETIRED, Ask::Info(0, At::Number(1)), "retired 1, first 2"),
    Asked(RETIRED, Ask::Streams, "5 10:3"),
    // the last retirement counts
    Asked(TWICE, Ask::Info(0, At::Number(2)), "retired 2, first 3"),
];

#[test]
fn answers_of_retired_versions(rt: HostRuntime) -> Result<(), Fail> {
    all_hold(rt.alloc(), ANSWERS)
}

/// Why a retirement is rejected, if it is.
enum Why {
    Allowed,
    NoStream,
    /// The first to be left, the first now and the latest.
    BadFirst(u64, u64, u64),
    /// The output, and the version that it has read.
    Held(u32, u64),
}

/// A history, a stream and the first version to be left, and why the retirement is rejected.
struct Left(Past, u32, u64, Why);

fn rejection_of(why: &Why) -> Option<Rejection> {
    match *why {
        Why::Allowed => None,
        Why::NoStream => Some(Rejection::NoStream),
        Why::BadFirst(first, present, latest) => Some(Rejection::BadFirst {
            first,
            present,
            latest,
        }),
        Why::Held(output, version) => Some(Rejection::Held { output, version }),
    }
}

impl Row for Left {
    fn holds(&self, alloc: Global) -> Result<bool, Fail> {
        let history = history_of(alloc, self.0)?;
        let entry = Entry::Retire {
            stream: self.1,
            first: self.2,
        };
        Ok(is_rejected(alloc, history, entry, rejection_of(&self.3))?)
    }
}

const FIRSTS: &[Left] = &[
    Left(&[THREE], 0, 1, Why::Allowed),
    Left(&[THREE], 0, 3, Why::Allowed),
    Left(&[THREE], 0, 0, Why::BadFirst(0, 0, 3)),
    Left(&[THREE], 0, 4, Why::BadFirst(4, 0, 3)),
    Left(&[THREE], 1, 4, Why::NoStream),
    Left(RETIRED, 0, 2, Why::BadFirst(2, 2, 3)),
    Left(RETIRED, 0, 4, Why::BadFirst(4, 2, 3)),
    Left(RETIRED, 0, 3, Why::Allowed),
    Left(TWICE, 0, 3, Why::BadFirst(3, 3, 3)),
];

#[test]
fn firsts_that_are_rejected(rt: HostRuntime) -> Result<(), Fail> {
    all_hold(rt.alloc(), FIRSTS)
}

/// An output of the stream that was never refreshed, one that has read version 1, and the same after it has read version 2.
const NEW_OUTPUT: Past = &[THREE, &[Put::Define(11, COPY)]];

const REFRESH_1: &[Put] = &[
    Put::Define(11, COPY),
    Put::Distillate(1, &[], Added::Points(&[(0, 5)]), READ_1),
];

const ONE_READ: Past = &[THREE, REFRESH_1];

const REFRESH_2: &[Put] = &[Put::Distillate(1, &[], Added::Points(&[]), READ_2)];

const BOTH_READ: Past = &[THREE, REFRESH_1, REFRESH_2];

/// An output of one stream twice, which has read its versions 1 and 3, or 3 and 1.
const OF_ITSELF: Past = &[
    THREE,
    &[
        Put::Define(11, ITSELF),
        Put::Distillate(1, &[], Added::Points(&[]), READ_1_3),
    ],
];

const OF_ITSELF_TURNED: Past = &[
    THREE,
    &[
        Put::Define(11, ITSELF),
        Put::Distillate(1, &[], Added::Points(&[]), READ_3_1),
    ],
];

/// Two outputs that hold the stream, of which the second has read less.
const TWO_HOLD: Past = &[THREE, REFRESH_1, &[Put::Define(12, COPY)]];

/// An output of an output.
const OF_AN_OUTPUT: Past = &[
    THREE,
    REFRESH_1,
    &[Put::Define(
        12,
        Spec {
            kernel: Kernel::Least,
            lead: 0,
            grain: 0,
            first: 1,
            second: None,
        },
    )],
];

const HELD: &[Left] = &[
    Left(NEW_OUTPUT, 0, 1, Why::Held(1, 0)),
    Left(ONE_READ, 0, 1, Why::Allowed),
    Left(ONE_READ, 0, 2, Why::Held(1, 1)),
    Left(BOTH_READ, 0, 2, Why::Allowed),
    Left(BOTH_READ, 0, 3, Why::Held(1, 2)),
    Left(OF_ITSELF, 0, 2, Why::Held(1, 1)),
    Left(OF_ITSELF_TURNED, 0, 2, Why::Held(1, 1)),
    Left(OF_ITSELF, 0, 1, Why::Allowed),
    // the output of the least number; a first that is not there comes before it
    Left(TWO_HOLD, 0, 2, Why::Held(1, 1)),
    Left(TWO_HOLD, 0, 1, Why::Held(2, 0)),
    Left(TWO_HOLD, 0, 4, Why::BadFirst(4, 0, 3)),
    // outputs may be retired, and are held by their own outputs
    Left(ONE_READ, 1, 1, Why::Allowed),
    Left(OF_AN_OUTPUT, 1, 1, Why::Held(2, 0)),
];

#[test]
fn retirements_that_outputs_hold(rt: HostRuntime) -> Result<(), Fail> {
    all_hold(rt.alloc(), HELD)
}

#[test]
fn a_retirement_is_no_version(rt: HostRuntime) -> Result<(), Fail> {
    let history = history_of(rt.alloc(), TWICE)?;
    assert!(rt; (history.entries(), history.latest(0), history.earliest(0)) == (6, 3, 3));
    assert!(rt; history.earliest(1) == 0);
    let entry = Entry::Retire {
        stream: 7,
        first: 4,
    };
    assert!(rt; (entry.first(7), entry.first(6)) == (Some(4), None));
    assert!(rt; entry.change(7).is_none() && entry.read(7).is_none());
    Ok(())
}
