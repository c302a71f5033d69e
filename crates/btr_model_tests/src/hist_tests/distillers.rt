//! Outputs and distillates: the worked example, rejections with their boundaries and their order, and what is answered of outputs.

use super::histories::{
    Added, Next, Past, Put, TWO_STREAMS, bag_of, cut_of, entry_of, history_of, is_rejected, runs,
};
use super::questions::{Ask, Asked};
use super::{many_ranges, streams};
use crate::fixture::{Row, all_hold};
use btr_base::{END, FIRST, Ranges};
use btr_hist::{At, Entry, History, Kernel, Reads, Rejection, Spec, distillate_change_rejection};
use std::alloc::Global;
use std::test::Fail;

/// The sum of the first stream's points of the last 10 ns.
const SUM_OF_THE_LAST: Spec = Spec {
    kernel: Kernel::Sum,
    lead: 10,
    grain: 0,
    first: 0,
    second: None,
};

/// The first stream less the second, at the times that both have.
const DIFFERENCE: Spec = Spec {
    kernel: Kernel::Minus,
    lead: 0,
    grain: 0,
    first: 0,
    second: Some(1),
};

/// What an output has read: the versions 1 and 2 of its input, and 2 and 1 of its two inputs.
const FIRST_READ: Reads = Reads {
    first: 1,
    second: None,
};

const SECOND_READ: Reads = Reads {
    first: 2,
    second: None,
};

const BOTH_READ: Reads = Reads {
    first: 2,
    second: Some(1),
};

/// The worked example: a stream, an output of its sums, and twice points and their distillate.
const EXAMPLE: &[Put] = &[
    Put::Create(10),
    Put::Define(11, SUM_OF_THE_LAST),
    Put::Commit(0, &[], Added::Points(&[(0, 10), (10, 20), (20, 30)])),
    Put::Distillate(
        1,
        &[(0, 31)],
        Added::Points(&[(0, 10), (10, 30), (20, 50)]),
        FIRST_READ,
    ),
    Put::Commit(0, &[], Added::Points(&[(5, 1)])),
    Put::Distillate(
        1,
        &[(5, 16)],
        Added::Points(&[(5, 11), (10, 31)]),
        SECOND_READ,
    ),
];

const WORKED: Past = &[EXAMPLE];

/// Fails with the first entry of the worked example that is rejected.
fn each_is_allowed(alloc: Global) -> Result<(), Fail> {
    let mut history = History::empty(alloc);
    for put in EXAMPLE {
        let entry = entry_of(alloc, put)?;
        if history.rejection(alloc, &entry)?.is_some() {
            return Err("a rejected entry".into());
        }
        history.push(entry)?;
    }
    Ok(())
}

const ANSWERS: &[Asked] = &[
    Asked(WORKED, Ask::Points(1, FIRST, END, At::Number(0)), "0"),
    Asked(
        WORKED,
        Ask::Points(1, FIRST, END, At::Number(1)),
        "1 0:10 10:30 20:50",
    ),
    Asked(
        WORKED,
        Ask::Points(1, FIRST, END, At::Latest),
        "2 0:10 5:11 10:31 20:50",
    ),
    Asked(WORKED, Ask::Info(1, At::Number(0)), "0 output(0 0)"),
    Asked(
        WORKED,
        Ask::Info(1, At::Number(1)),
        "1 output of 1(3 90 10 50)",
    ),
    Asked(
        WORKED,
        Ask::Info(1, At::Latest),
        "2 output of 2(4 102 10 50)",
    ),
    Asked(WORKED, Ask::Info(0, At::Latest), "2(4 61 1 30)"),
    Asked(
        WORKED,
        Ask::Info(1, At::Number(3)),
        "no version 3, latest 2",
    ),
    Asked(WORKED, Ask::Streams, "6 10:2 11:2 output"),
    Asked(
        TWO_OUTPUTS,
        Ask::Info(2, At::Latest),
        "1 output of 2 and 1(0 0)",
    ),
    Asked(TWO_OUTPUTS, Ask::Streams, "8 10:2 11:2 output 12:1 output"),
];

#[test]
fn the_worked_example_of_an_output(rt: HostRuntime) -> Result<(), Fail> {
    each_is_allowed(rt.alloc())?;
    all_hold(rt.alloc(), ANSWERS)
}

/// The worked example, and an output of the stream and its sums.
const TWO_OUTPUTS: Past = &[
    EXAMPLE,
    &[
        Put::Define(12, DIFFERENCE),
        Put::Distillate(2, &[], Added::Points(&[]), BOTH_READ),
    ],
];

/// A stream of `TWO_OUTPUTS` and its spec.
struct Output(u32, Option<Spec>);

impl Row for Output {
    fn holds(&self, alloc: Global) -> Result<bool, Fail> {
        let history = history_of(alloc, TWO_OUTPUTS)?;
        Ok(history.spec(self.0) == self.1)
    }
}

const OUTPUTS: &[Output] = &[
    Output(0, None),
    Output(1, Some(SUM_OF_THE_LAST)),
    Output(2, Some(DIFFERENCE)),
    Output(3, None),
];

#[test]
fn what_outputs_are(rt: HostRuntime) -> Result<(), Fail> {
    all_hold(rt.alloc(), OUTPUTS)
}

/// A stream of `TWO_OUTPUTS`, a version, and what it has read.
struct Read(u32, u64, Option<Reads>);

impl Row for Read {
    fn holds(&self, alloc: Global) -> Result<bool, Fail> {
        let history = history_of(alloc, TWO_OUTPUTS)?;
        Ok(history.reads(self.0, self.1) == self.2)
    }
}

const READ: &[Read] = &[
    Read(0, 0, None),
    Read(0, 1, None),
    Read(0, 2, None),
    Read(1, 0, None),
    Read(1, 1, Some(FIRST_READ)),
    Read(1, 2, Some(SECOND_READ)),
    Read(1, 3, None),
    Read(2, 1, Some(BOTH_READ)),
    Read(3, 0, None),
    Read(3, 1, None),
];

#[test]
fn what_outputs_have_read(rt: HostRuntime) -> Result<(), Fail> {
    all_hold(rt.alloc(), READ)
}

/// The inputs and the grain of a sum over 10 ns, or of a difference.
enum Inputs {
    Sum(u32, Option<u32>, u8),
    Minus(u32, Option<u32>),
}

fn spec_of(inputs: &Inputs) -> Spec {
    match *inputs {
        Inputs::Sum(first, second, grain) => Spec {
            kernel: Kernel::Sum,
            lead: 10,
            grain,
            first,
            second,
        },
        Inputs::Minus(first, second) => Spec {
            kernel: Kernel::Minus,
            lead: 0,
            grain: 0,
            first,
            second,
        },
    }
}

/// The id and the inputs of an output that follows `TWO_STREAMS`, and the reason why it is rejected.
struct Defined(u128, Inputs, Option<Rejection>);

impl Row for Defined {
    fn holds(&self, alloc: Global) -> Result<bool, Fail> {
        let history = history_of(alloc, TWO_STREAMS)?;
        let entry = Entry::Define {
            id: self.0,
            spec: spec_of(&self.1),
        };
        Ok(is_rejected(alloc, history, entry, self.2)?)
    }
}

const DEFINED: &[Defined] = &[
    // one input, the last stream, and itself
    Defined(3, Inputs::Sum(0, None, 0), None),
    Defined(3, Inputs::Sum(1, None, 0), None),
    Defined(3, Inputs::Sum(2, None, 0), Some(Rejection::NoStream)),
    // two inputs, one stream twice, itself second, and itself first of two
    Defined(3, Inputs::Minus(0, Some(1)), None),
    Defined(3, Inputs::Minus(1, Some(1)), None),
    Defined(3, Inputs::Minus(0, Some(2)), Some(Rejection::NoStream)),
    Defined(3, Inputs::Minus(2, Some(0)), Some(Rejection::NoStream)),
    // no input and a taken id; no second input, a taken id and a bad spec
    Defined(1, Inputs::Sum(2, None, 0), Some(Rejection::NoStream)),
    Defined(1, Inputs::Sum(0, Some(2), 63), Some(Rejection::NoStream)),
    // a taken id; and a bad spec too
    Defined(1, Inputs::Sum(0, None, 0), Some(Rejection::StreamExists)),
    Defined(2, Inputs::Sum(0, None, 63), Some(Rejection::StreamExists)),
    // too coarse, an input too many, and an input too few
    Defined(3, Inputs::Sum(0, None, 63), Some(Rejection::BadSpec)),
    Defined(3, Inputs::Sum(0, Some(0), 0), Some(Rejection::BadSpec)),
    Defined(3, Inputs::Minus(0, None), Some(Rejection::BadSpec)),
];

#[test]
fn outputs_that_are_rejected(rt: HostRuntime) -> Result<(), Fail> {
    all_hold(rt.alloc(), DEFINED)
}

/// A history of 65535 streams with the ids from 0 on, and of an output with the id 65535 if there is to be one.
fn many_streams(alloc: Global, has_output: bool) -> Result<History, Fail> {
    let mut history = streams(alloc, 65535)?;
    if has_output {
        history.push(Entry::Define {
            id: 65535,
            spec: spec_of(&Inputs::Minus(0, Some(65534))),
        })?;
    }
    Ok(history)
}

/// Whether the last stream is there, the id and the inputs of an output that follows, and the reason why it is rejected.
struct AtTheLimit(bool, u128, Inputs, Option<Rejection>);

impl Row for AtTheLimit {
    fn holds(&self, alloc: Global) -> Result<bool, Fail> {
        let history = many_streams(alloc, self.0)?;
        let entry = Entry::Define {
            id: self.1,
            spec: spec_of(&self.2),
        };
        Ok(is_rejected(alloc, history, entry, self.3)?)
    }
}

const AT_THE_LIMIT: &[AtTheLimit] = &[
    AtTheLimit(false, 65535, Inputs::Minus(0, Some(65534)), None),
    AtTheLimit(
        true,
        65536,
        Inputs::Minus(0, Some(65534)),
        Some(Rejection::StreamLimit),
    ),
    AtTheLimit(
        true,
        65536,
        Inputs::Minus(0, None),
        Some(Rejection::StreamLimit),
    ),
    AtTheLimit(
        true,
        65535,
        Inputs::Minus(0, None),
        Some(Rejection::StreamExists),
    ),
    AtTheLimit(
        true,
        65536,
        Inputs::Minus(65536, None),
        Some(Rejection::NoStream),
    ),
];

#[test]
fn outputs_up_to_the_limit_of_streams(rt: HostRuntime) -> Result<(), Fail> {
    all_hold(rt.alloc(), AT_THE_LIMIT)
}

/// The kernel, the lead, the grain and the second input of a spec, and whether it is good.
struct Good(Kernel, u64, u8, Option<u32>, bool);

impl Row for Good {
    fn holds(&self, _alloc: Global) -> Result<bool, Fail> {
        let spec = Spec {
            kernel: self.0,
            lead: self.1,
            grain: self.2,
            first: 0,
            second: self.3,
        };
        Ok(spec.is_good() == self.4)
    }
}

const GOOD: &[Good] = &[
    Good(Kernel::Sum, 1152921504606846976, 62, None, true),
    Good(Kernel::Sum, 1152921504606846977, 62, None, false),
    Good(Kernel::Sum, 1152921504606846976, 63, None, false),
    Good(Kernel::Sum, 0, 0, None, true),
    Good(Kernel::Sum, 0, 0, Some(0), false),
    Good(Kernel::Mean, 0, 0, None, true),
    Good(Kernel::Least, 0, 0, None, true),
    Good(Kernel::Greatest, 0, 0, None, true),
    Good(Kernel::Count, 0, 0, None, true),
    Good(Kernel::Delta, 0, 0, None, true),
    Good(Kernel::Delta, 0, 0, Some(0), false),
    Good(Kernel::Minus, 0, 0, None, false),
    Good(Kernel::Minus, 0, 0, Some(0), true),
    Good(Kernel::Minus, 0, 63, Some(0), false),
    Good(Kernel::Angle, 0, 0, None, false),
    Good(Kernel::Angle, 0, 0, Some(0), true),
    Good(Kernel::Hold, 0, 0, None, false),
    Good(Kernel::Hold, 0, 0, Some(0), true),
    Good(Kernel::Affine { a: 1, b: 0, d: 1 }, 0, 0, None, true),
    Good(Kernel::Affine { a: 1, b: 0, d: 0 }, 0, 0, None, false),
    Good(Kernel::Affine { a: 1, b: 0, d: -1 }, 0, 0, None, false),
    Good(Kernel::Affine { a: 1, b: 0, d: 1 }, 0, 0, Some(0), false),
];

#[test]
fn specs_that_are_good(rt: HostRuntime) -> Result<(), Fail> {
    all_hold(rt.alloc(), GOOD)
}

const COMMITS: &[Next] = &[
    // to a plain stream
    Next(WORKED, Put::Commit(0, &[], Added::Runs(&[(4, 1)])), None),
    // to an output: points; none; and outside
    Next(
        WORKED,
        Put::Commit(1, &[], Added::Runs(&[(4, 1)])),
        Some(Rejection::NotWritable),
    ),
    Next(
        WORKED,
        Put::Commit(1, &[], Added::Runs(&[])),
        Some(Rejection::NotWritable),
    ),
    Next(
        WORKED,
        Put::Commit(1, &[], Added::Runs(&[(END, 1)])),
        Some(Rejection::NotWritable),
    ),
    // outside, to a plain stream and to none
    Next(
        WORKED,
        Put::Commit(0, &[], Added::Runs(&[(END, 1)])),
        Some(Rejection::OutOfDomain { time: END }),
    ),
    Next(
        WORKED,
        Put::Commit(2, &[], Added::Runs(&[(END, 1)])),
        Some(Rejection::NoStream),
    ),
];

#[test]
fn users_do_not_commit_to_outputs(rt: HostRuntime) -> Result<(), Fail> {
    all_hold(rt.alloc(), COMMITS)
}

/// The worked example, and two outputs of the stream and its sums, of which the first has a version.
const FOUR_STREAMS: Past = &[
    EXAMPLE,
    &[
        Put::Define(12, DIFFERENCE),
        Put::Define(13, DIFFERENCE),
        Put::Distillate(
            2,
            &[],
            Added::Points(&[]),
            Reads {
                first: 1,
                second: Some(1),
            },
        ),
    ],
];

/// A stream of `FOUR_STREAMS`, the versions that a distillate of it has read, and whether it may follow.
struct MayRead(u32, u64, Option<u64>, bool);

impl Row for MayRead {
    fn holds(&self, alloc: Global) -> Result<bool, Fail> {
        let history = history_of(alloc, FOUR_STREAMS)?;
        let reads = Reads {
            first: self.1,
            second: self.2,
        };
        let entry = Entry::Distillate {
            stream: self.0,
            cut: cut_of(alloc, &[(0, 1)])?,
            added: bag_of(alloc, &[(0, 1)])?,
            reads,
        };
        let want = (!self.3).then_some(Rejection::NotWritable);
        Ok(is_rejected(alloc, history, entry, want)?)
    }
}

const MAY_READ: &[MayRead] = &[
    // the same; the first falls; the first is not there; a second without an input; a plain stream
    MayRead(1, 2, None, true),
    MayRead(1, 1, None, false),
    MayRead(1, 3, None, false),
    MayRead(1, 2, Some(0), false),
    MayRead(0, 0, None, false),
    // two; the same two; only the first rises; only the second rises
    MayRead(2, 2, Some(2), true),
    MayRead(2, 1, Some(1), true),
    MayRead(2, 2, Some(1), true),
    MayRead(2, 1, Some(2), true),
    // the first of two falls; the second falls; the first of two is not there; the second is not there; no second
    MayRead(2, 0, Some(2), false),
    MayRead(2, 2, Some(0), false),
    MayRead(2, 3, Some(2), false),
    MayRead(2, 2, Some(3), false),
    MayRead(2, 2, None, false),
    // at first: version 0 of each; no second; too late
    MayRead(3, 0, Some(0), true),
    MayRead(3, 0, None, false),
    MayRead(3, 3, Some(0), false),
];

#[test]
fn reads_that_are_rejected(rt: HostRuntime) -> Result<(), Fail> {
    all_hold(rt.alloc(), MAY_READ)
}

const DISTILLATES: &[Next] = &[
    // no change
    Next(
        WORKED,
        Put::Distillate(1, &[], Added::Runs(&[]), SECOND_READ),
        None,
    ),
    // outside; and reads that fall; and a plain stream; and no stream
    Next(
        WORKED,
        Put::Distillate(1, &[], Added::Runs(&[(END, 1)]), SECOND_READ),
        Some(Rejection::OutOfDomain { time: END }),
    ),
    Next(
        WORKED,
        Put::Distillate(1, &[], Added::Runs(&[(END, 1)]), FIRST_READ),
        Some(Rejection::NotWritable),
    ),
    Next(
        WORKED,
        Put::Distillate(0, &[], Added::Runs(&[(END, 1)]), SECOND_READ),
        Some(Rejection::NotWritable),
    ),
    Next(
        WORKED,
        Put::Distillate(2, &[], Added::Runs(&[(END, 1)]), FIRST_READ),
        Some(Rejection::NoStream),
    ),
    // outside and crowded
    Next(
        WORKED,
        Put::Distillate(1, &[], Added::Runs(&[(END, 253)]), SECOND_READ),
        Some(Rejection::OutOfDomain { time: END }),
    ),
    // as many as a leaf has; one more; more than a user may add
    Next(
        WORKED,
        Put::Distillate(1, &[], Added::Runs(&[(40, 252)]), SECOND_READ),
        None,
    ),
    Next(
        WORKED,
        Put::Distillate(1, &[], Added::Runs(&[(40, 253)]), SECOND_READ),
        Some(Rejection::Crowded { start: 40 }),
    ),
    Next(
        WORKED,
        Put::Distillate(1, &[], Added::Runs(&[(40, 65537)]), SECOND_READ),
        Some(Rejection::Crowded { start: 40 }),
    ),
];

#[test]
fn distillates_that_are_rejected(rt: HostRuntime) -> Result<(), Fail> {
    all_hold(rt.alloc(), DISTILLATES)
}

/// Points that a distillate adds, with 65537 ranges and with none, and the reason why the change is rejected.
struct Change(&'static [(i64, u32)], Option<Rejection>);

impl Row for Change {
    fn holds(&self, alloc: Global) -> Result<bool, Fail> {
        let ranges = many_ranges(alloc, 65537)?;
        let added = runs(alloc, self.0)?;
        let with_ranges = distillate_change_rejection(&ranges, &added);
        let without = distillate_change_rejection(&Ranges::none(alloc), &added);
        Ok(with_ranges == self.1 && without == self.1)
    }
}

const CHANGES: &[Change] = &[
    Change(&[], None),
    Change(&[(40, 65537)], None),
    Change(
        &[(END, 65537), (FIRST - 1, 1)],
        Some(Rejection::OutOfDomain { time: FIRST - 1 }),
    ),
];

#[test]
fn a_distillate_may_change_more_than_a_user(rt: HostRuntime) -> Result<(), Fail> {
    all_hold(rt.alloc(), CHANGES)
}
