//! Replies as users read them.
use crate::fixture::{Row, all_hold};
use btr_base::{Agg, Cell, Point, Range, Ranges};
use btr_hist::{CellList, PointList, Reads, Refusal, Rejection, Rows, StreamList, StreamRow};
use btr_text::{LineReply, Reason, write_reply};
use std::alloc::{AllocError, Global};
use std::test::Fail;

/// A reason, and the reply with it.
struct Refused(Reason, &'static str);

impl Row for Refused {
    fn holds(&self, alloc: Global) -> Result<bool, Fail> {
        let mut out = Vec::new(alloc);
        write_reply(&LineReply::No(self.0), &mut out)?;
        Ok(out.as_slice() == self.1.as_bytes())
    }
}

const REFUSED: &[Refused] = &[
    Refused(Reason::Line, "no line\n"),
    Refused(Reason::Stream, "no stream\n"),
    Refused(Reason::Range, "no range\n"),
    Refused(
        Reason::Version {
            asked: 7,
            latest: 3,
        },
        "no version 7 3\n",
    ),
    Refused(Reason::Retired { asked: 1, first: 2 }, "no retired 1 2\n"),
    Refused(Reason::Exists, "no exists\n"),
    Refused(Reason::Output, "no output\n"),
    Refused(Reason::Plain, "no plain\n"),
    Refused(
        Reason::Domain {
            time: -1152921504606846977,
        },
        "no domain -1152921504606846977\n",
    ),
    Refused(Reason::Empty, "no empty\n"),
    Refused(Reason::Many { count: 65537 }, "no many 65537\n"),
    Refused(Reason::Streams, "no streams 65536\n"),
    Refused(Reason::Versions, "no versions 4294967295\n"),
    Refused(Reason::Spec, "no spec\n"),
    Refused(
        Reason::First {
            first: 4,
            present: 2,
            latest: 3,
        },
        "no first 4 2 3\n",
    ),
    Refused(
        Reason::Held {
            id: 0x33333333_3333_4333_8333_333333333333,
            version: 1,
        },
        "no held 33333333-3333-4333-8333-333333333333 1\n",
    ),
    Refused(Reason::Crowded { start: -4 }, "no crowded -4\n"),
    Refused(
        Reason::Points { count: 4294967297 },
        "no points 4294967297\n",
    ),
    Refused(Reason::Memory, "no memory\n"),
    Refused(Reason::Full { need: 9, left: 2 }, "no full 9 2\n"),
    Refused(Reason::Device, "no device\n"),
    Refused(Reason::Damaged { block: 8 }, "no damaged 8\n"),
    Refused(
        Reason::Stopped {
            entries: 18446744073709551615,
        },
        "no stopped 18446744073709551615\n",
    ),
    Refused(Reason::Superseded { version: 3 }, "no superseded 3\n"),
    Refused(Reason::Group, "no group\n"),
    Refused(Reason::Busy, "no busy\n"),
    Refused(Reason::Spent, "no spent\n"),
];

#[test]
fn each_refusal_has_its_words(rt: HostRuntime) -> Result<(), Fail> {
    all_hold(rt.alloc(), REFUSED)
}

/// Why an entry is rejected, and the reason of the reply.
struct Rejected(Rejection, Reason);

impl Row for Rejected {
    fn holds(&self, _alloc: Global) -> Result<bool, Fail> {
        Ok(Reason::of_rejection(self.0, 7) == self.1)
    }
}

const REJECTED: &[Rejected] = &[
    Rejected(Rejection::NoStream, Reason::Stream),
    Rejected(Rejection::StreamExists, Reason::Exists),
    Rejected(Rejection::NotWritable, Reason::Output),
    Rejected(
        Rejection::OutOfDomain { time: -5 },
        Reason::Domain { time: -5 },
    ),
    Rejected(Rejection::Empty, Reason::Empty),
    Rejected(Rejection::TooMany { count: 5 }, Reason::Many { count: 5 }),
    Rejected(Rejection::StreamLimit, Reason::Streams),
    Rejected(Rejection::VersionLimit, Reason::Versions),
    Rejected(Rejection::BadSpec, Reason::Spec),
    Rejected(
        Rejection::BadFirst {
            first: 4,
            present: 2,
            latest: 3,
        },
        Reason::First {
            first: 4,
            present: 2,
            latest: 3,
        },
    ),
    Rejected(
        Rejection::Held {
            output: 2,
            version: 1,
        },
        Reason::Held { id: 7, version: 1 },
    ),
    Rejected(
        Rejection::Crowded { start: -8 },
        Reason::Crowded { start: -8 },
    ),
    Rejected(
        Rejection::TooManyPoints { count: 6 },
        Reason::Points { count: 6 },
    ),
];

#[test]
fn each_rejection_has_its_reason(rt: HostRuntime) -> Result<(), Fail> {
    all_hold(rt.alloc(), REJECTED)
}

#[test]
fn each_refusal_has_its_reason(rt: HostRuntime) {
    let version = Refusal::NoVersion {
        asked: 2,
        latest: 1,
    };
    let reason = Reason::Version {
        asked: 2,
        latest: 1,
    };
    assert!(rt; Reason::of_refusal(Refusal::NoStream) == Reason::Stream);
    assert!(rt; Reason::of_refusal(version) == reason);
    let retired = Refusal::Retired { asked: 1, first: 2 };
    assert!(rt; Reason::of_refusal(Refusal::BadRange) == Reason::Range);
    assert!(rt; Reason::of_refusal(retired) == Reason::Retired { asked: 1, first: 2 });
}

/// A reply.
enum Say {
    Done(u64),
    /// A version and its points.
    Found(u64, &'static [Point]),
    NoLine,
    Held(u32),
    Ticket(u64),
}

/// Appends a reply.
fn push_reply(alloc: Global, out: &mut Vec<u8>, say: &Say) -> Result<(), AllocError> {
    let reply = match say {
        Say::Done(version) => LineReply::Done { version: *version },
        Say::Found(version, points) => LineReply::Found {
            version: *version,
            rows: Rows::Points(PointList::from_points(Vec::from_slice(alloc, points)?)),
        },
        Say::NoLine => LineReply::No(Reason::Line),
        Say::Held(count) => LineReply::Held { count: *count },
        Say::Ticket(ticket) => LineReply::Ticket { ticket: *ticket },
    };
    write_reply(&reply, out)
}

const REPLIES: &[Say] = &[
    Say::Done(0),
    Say::Done(12),
    Say::Found(
        3,
        &[
            Point {
                time: -9223372036854775808,
                value: 0,
            },
            Point {
                time: 1000,
                value: -25,
            },
        ],
    ),
    Say::Found(1, &[]),
    Say::NoLine,
    Say::Held(65535),
    Say::Ticket(0),
    Say::Ticket(18446744073709551615),
];

#[test]
fn replies_follow_one_another(rt: HostRuntime) -> Result<(), Fail> {
    let mut out = Vec::new(rt.alloc());
    for say in REPLIES {
        push_reply(rt.alloc(), &mut out, say)?;
    }
    let want = b"ok 0 0\nok 12 0\nok 3 2\n-9223372036854775808 0\n1000 -25\nok 1 0\nno line\n\
        held 65535\nheld 0\nheld 18446744073709551615\n";
    assert!(rt; out.as_slice() == want.as_slice());
    Ok(())
}

/// Whether the reply with these rows at version 1 has this text.
fn is_written(alloc: Global, rows: Rows, want: &str) -> Result<bool, AllocError> {
    let mut out = Vec::new(alloc);
    write_reply(&LineReply::Found { version: 1, rows }, &mut out)?;
    Ok(out.as_slice() == want.as_bytes())
}

#[test]
fn windows_are_written(rt: HostRuntime) -> Result<(), Fail> {
    let cells = Vec::from_slice(
        rt.alloc(),
        &[
            Cell {
                start: 0,
                agg: Agg {
                    count: 2,
                    sum: 12,
                    ends: Some((5, 7)),
                },
            },
            Cell {
                start: 4,
                agg: Agg::of(-2),
            },
        ],
    )?;
    assert!(rt;
        is_written(
            rt.alloc(),
            Rows::Cells(CellList::from_cells(cells)),
            "ok 1 2\n0 2 12 5 7\n4 1 -2 -2 -2\n"
        )?
    );
    assert!(rt;
        is_written(
            rt.alloc(),
            Rows::Cells(CellList::from_cells(Vec::new(rt.alloc()))),
            "ok 1 0\n"
        )?
    );
    Ok(())
}

/// Returns the rows of a version of a plain stream with this aggregate.
fn plain(agg: Agg) -> Rows {
    Rows::Info {
        output: false,
        agg,
        reads: None,
    }
}

#[test]
fn aggregates_of_versions_are_written(rt: HostRuntime) -> Result<(), Fail> {
    let agg = Agg {
        count: 252,
        sum: 31626,
        ends: Some((0, 251)),
    };
    assert!(rt; is_written(rt.alloc(), plain(agg), "ok 1 1\nplain 252 31626 0 251\n")?);
    assert!(rt; is_written(rt.alloc(), plain(Agg::none()), "ok 1 1\nplain 0 0\n")?);
    let greatest = Agg::of(i64::MAX);
    assert!(rt;
        is_written(
            rt.alloc(),
            plain(greatest.join(&greatest)),
            "ok 1 1\nplain 2 18446744073709551614 9223372036854775807 9223372036854775807\n"
        )?
    );
    let least = Agg::of(i64::MIN);
    assert!(rt;
        is_written(
            rt.alloc(),
            plain(least.join(&least)),
            "ok 1 1\nplain 2 -18446744073709551616 -9223372036854775808 -9223372036854775808\n"
        )?
    );
    Ok(())
}

#[test]
fn versions_of_outputs_are_written_with_their_reads(rt: HostRuntime) -> Result<(), Fail> {
    assert!(rt;
        is_written(
            rt.alloc(),
            Rows::Info {
                output: true,
                agg: Agg {
                    count: 3,
                    sum: 90,
                    ends: Some((10, 50)),
                },
                reads: Some(Reads {
                    first: 1,
                    second: None,
                }),
            },
            "ok 1 2\noutput 3 90 10 50\nreads 1\n"
        )?
    );
    assert!(rt;
        is_written(
            rt.alloc(),
            Rows::Info {
                output: true,
                agg: Agg::none(),
                reads: Some(Reads {
                    first: 4294967295,
                    second: Some(7),
                }),
            },
            "ok 1 2\noutput 0 0\nreads 4294967295 7\n"
        )?
    );
    assert!(rt;
        is_written(
            rt.alloc(),
            Rows::Info {
                output: true,
                agg: Agg::none(),
                reads: None,
            },
            "ok 1 1\noutput 0 0\n"
        )?
    );
    Ok(())
}

#[test]
fn ranges_and_streams_are_written(rt: HostRuntime) -> Result<(), Fail> {
    let mut ranges = Ranges::none(rt.alloc());
    ranges.add(Range::new(-8, -4).ok_or("no range")?)?;
    ranges.add(Range::new(0, 8).ok_or("no range")?)?;
    assert!(rt; is_written(rt.alloc(), Rows::Ranges(ranges), "ok 1 2\n-8 -4\n0 8\n")?);
    let rows = Vec::from_slice(
        rt.alloc(),
        &[
            StreamRow {
                id: 0x11111111_1111_4111_8111_111111111111,
                latest: 1,
                output: false,
            },
            StreamRow {
                id: 0xABCDEF,
                latest: 18446744073709551615,
                output: true,
            },
        ],
    )?;
    assert!(rt;
        is_written(
            rt.alloc(),
            Rows::Streams(StreamList::from_rows(rows)),
            "ok 1 2\n11111111-1111-4111-8111-111111111111 1 plain\n\
         00000000-0000-0000-0000-000000abcdef 18446744073709551615 output\n"
        )?
    );
    Ok(())
}
