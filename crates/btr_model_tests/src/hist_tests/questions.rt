//! The answer to each kind of question, and refusals.

use super::histories::{Added, Past, Put, history_of};
use crate::fixture::{Row, all_hold};
use btr_base::{Agg, Cell, END, FIRST, Point, Range, Toward};
use btr_hist::{
    Answer, At, CellList, Query, Reads, Refusal, Rows, StreamList, StreamQuery, StreamRow,
};
use std::alloc::{AllocError, Global};
use std::test::Fail;

/// A question, of the first stream where none is named.
pub(super) enum Ask {
    /// The points of a stream in a range.
    Points(u32, i64, i64, At),
    /// The nearest point of a version.
    Nearest(i64, Toward, u64),
    /// The windows of 2^p ns of version 1 in a range.
    Aligned(i64, i64, u8),
    /// The windows of a width of version 1 in a range.
    Windows(i64, i64, u64),
    /// The changes between two versions.
    Changes(u64, u64, u8),
    /// A version of a stream as a whole.
    Info(u32, At),
    Streams,
}

fn query_of(ask: &Ask) -> Query {
    let stream = 0;
    match *ask {
        Ask::Points(stream, from, to, at) => Query::Points {
            stream,
            from,
            to,
            at,
        },
        Ask::Nearest(time, toward, version) => Query::Nearest {
            stream,
            time,
            toward,
            at: At::Number(version),
        },
        Ask::Aligned(from, to, p) => Query::Aligned {
            stream,
            from,
            to,
            p,
            at: At::Number(1),
        },
        Ask::Windows(from, to, width) => Query::Windows {
            stream,
            from,
            to,
            width,
            at: At::Number(1),
        },
        Ask::Changes(old, new, p) => Query::Changes {
            stream,
            old,
            new,
            p,
        },
        Ask::Info(stream, at) => Query::Info { stream, at },
        Ask::Streams => Query::Streams,
    }
}

/// A history, a question, and the answer as `shown` writes it.
pub(super) struct Asked(pub(super) Past, pub(super) Ask, pub(super) &'static str);

impl Row for Asked {
    fn holds(&self, alloc: Global) -> Result<bool, Fail> {
        let history = history_of(alloc, self.0)?;
        let answer = history.answer(alloc, &query_of(&self.1))?;
        Ok(shown(alloc, &answer)?.as_str() == self.2)
    }
}

/// The version, and then each row: a point as `time:value`, a window as `start:(count sum least greatest)`, a range as
/// `from..to`, a stream as `id:latest`; of an output the word `output`, and the versions that it has read.
fn shown(alloc: Global, answer: &Answer) -> Result<String, AllocError> {
    let mut text = String::new(alloc);
    match answer {
        Answer::Found { version, rows } => {
            write!(text, "{version}")?;
            show_rows(&mut text, rows)?;
        }
        Answer::Refused(refusal) => show_refusal(&mut text, *refusal)?,
    }
    Ok(text)
}

fn show_refusal(text: &mut String, refusal: Refusal) -> Result<(), AllocError> {
    match refusal {
        Refusal::NoStream => text.push_str("no stream"),
        Refusal::NoVersion { asked, latest } => write!(text, "no version {asked}, latest {latest}"),
        Refusal::Retired { asked, first } => write!(text, "retired {asked}, first {first}"),
        Refusal::BadRange => text.push_str("bad range"),
    }
}

fn show_rows(text: &mut String, rows: &Rows) -> Result<(), AllocError> {
    match rows {
        Rows::Points(points) => show_points(text, points.as_slice()),
        Rows::Cells(cells) => show_cells(text, cells.as_slice()),
        Rows::Ranges(ranges) => show_ranges(text, ranges.as_slice()),
        Rows::Info { output, agg, reads } => {
            show_output(text, *output, *reads)?;
            show_agg(text, agg)
        }
        Rows::Streams(streams) => show_streams(text, streams.as_slice()),
    }
}

fn show_points(text: &mut String, points: &[Point]) -> Result<(), AllocError> {
    for point in points {
        write!(text, " {}:{}", point.time, point.value)?;
    }
    Ok(())
}

fn show_cells(text: &mut String, cells: &[Cell]) -> Result<(), AllocError> {
    for cell in cells {
        write!(text, " {}:", cell.start)?;
        show_agg(text, &cell.agg)?;
    }
    Ok(())
}

fn show_ranges(text: &mut String, ranges: &[Range]) -> Result<(), AllocError> {
    for range in ranges {
        write!(text, " {}..{}", range.from, range.to)?;
    }
    Ok(())
}

fn show_streams(text: &mut String, streams: &[StreamRow]) -> Result<(), AllocError> {
    for row in streams {
        write!(text, " {}:{}", row.id, row.latest)?;
        show_output(text, row.output, None)?;
    }
    Ok(())
}

fn show_output(text: &mut String, output: bool, reads: Option<Reads>) -> Result<(), AllocError> {
    if output {
        text.push_str(" output")?;
    }
    match reads {
        None => Ok(()),
        Some(
            Reads {
                first,
                second: None,
            },
        ) => write!(text, " of {first}"),
        Some(
            Reads {
                first,
                second: Some(second),
            },
        ) => write!(text, " of {first} and {second}"),
    }
}

fn show_agg(text: &mut String, agg: &Agg) -> Result<(), AllocError> {
    let count = agg.count;
    let sum = agg.sum;
    match agg.ends {
        None => write!(text, "({count} {sum})"),
        Some((least, greatest)) => write!(text, "({count} {sum} {least} {greatest})"),
    }
}

/// The entries of the first worked example: a stream, and three points.
const WORKED: Past = &[&[
    Put::Create(1),
    Put::Commit(0, &[], Added::Points(&[(4, -2), (0, 5), (3, 7)])),
]];

const WORKED_CREATE: Past = &[&[Put::Create(1)]];

const EXAMPLES: &[Asked] = &[
    Asked(&[], Ask::Points(0, 0, 5, At::Latest), "no stream"),
    Asked(WORKED_CREATE, Ask::Points(0, 0, 5, At::Latest), "0"),
    Asked(
        WORKED,
        Ask::Points(0, 0, 5, At::Number(1)),
        "1 0:5 3:7 4:-2",
    ),
    Asked(WORKED, Ask::Points(0, 0, 4, At::Latest), "1 0:5 3:7"),
    Asked(WORKED, Ask::Points(0, 0, 5, At::Number(0)), "0"),
    Asked(
        WORKED,
        Ask::Points(0, 5, 0, At::Number(2)),
        "no version 2, latest 1",
    ),
    Asked(WORKED, Ask::Points(0, 5, 5, At::Number(1)), "bad range"),
];

#[test]
fn the_worked_examples(rt: HostRuntime) -> Result<(), Fail> {
    all_hold(rt.alloc(), EXAMPLES)
}

/// Two streams, of which the first gets points, one of them twice, and then another in place of this one.
const REPLACED: Past = &[&[
    Put::Create(1),
    Put::Create(2),
    Put::Commit(0, &[], Added::Points(&[(1, 1), (1, 1), (2, 2)])),
    Put::Commit(1, &[], Added::Points(&[(7, 7)])),
    Put::Commit(0, &[(1, 2)], Added::Points(&[(1, 3)])),
]];

const VERSIONS: &[Asked] = &[
    Asked(
        REPLACED,
        Ask::Points(0, 0, 9, At::Number(1)),
        "1 1:1 1:1 2:2",
    ),
    Asked(REPLACED, Ask::Points(0, 0, 9, At::Latest), "2 1:3 2:2"),
];

#[test]
fn cut_points_stay_in_earlier_versions(rt: HostRuntime) -> Result<(), Fail> {
    all_hold(rt.alloc(), VERSIONS)
}

/// Two streams, of which the first has three versions: the points 0 5, 3 7 and 4 -2; without 3 7; and with 4 -2 twice.
const THREE: Past = &[&[
    Put::Create(10),
    Put::Create(11),
    Put::Commit(0, &[], Added::Points(&[(4, -2), (0, 5), (3, 7)])),
    Put::Commit(0, &[(3, 4)], Added::Points(&[])),
    Put::Commit(0, &[], Added::Points(&[(4, -2)])),
]];

const NEAREST: &[Asked] = &[
    Asked(THREE, Ask::Nearest(4, Toward::Backward, 1), "1 3:7"),
    Asked(THREE, Ask::Nearest(4, Toward::Forward, 1), "1 4:-2"),
    Asked(THREE, Ask::Nearest(5, Toward::Forward, 1), "1"),
    Asked(THREE, Ask::Nearest(0, Toward::Backward, 1), "1"),
    Asked(THREE, Ask::Nearest(i64::MAX, Toward::Backward, 3), "3 4:-2"),
    Asked(THREE, Ask::Nearest(i64::MIN, Toward::Forward, 3), "3 0:5"),
    Asked(THREE, Ask::Nearest(0, Toward::Forward, 0), "0"),
    Asked(
        THREE,
        Ask::Nearest(0, Toward::Forward, 4),
        "no version 4, latest 3",
    ),
];

#[test]
fn the_nearest_point(rt: HostRuntime) -> Result<(), Fail> {
    all_hold(rt.alloc(), NEAREST)
}

const WHOLE: &str = "1 -1152921504606846976:(3 10 -2 7)";

const WINDOWS: &[Asked] = &[
    Asked(
        THREE,
        Ask::Aligned(0, 8, 2),
        "1 0:(2 12 5 7) 4:(1 -2 -2 -2)",
    ),
    Asked(THREE, Ask::Aligned(2, 4, 2), "1 0:(2 12 5 7)"),
    Asked(THREE, Ask::Aligned(3, 5, 1), "1 2:(1 7 7 7) 4:(1 -2 -2 -2)"),
    Asked(
        THREE,
        Ask::Aligned(0, 8, 0),
        "1 0:(1 5 5 5) 3:(1 7 7 7) 4:(1 -2 -2 -2)",
    ),
    Asked(THREE, Ask::Aligned(8, 9, 2), "1"),
    Asked(THREE, Ask::Aligned(8, 9, 62), WHOLE),
    Asked(THREE, Ask::Windows(1, 8, 3), "1 1:(1 7 7 7) 4:(1 -2 -2 -2)"),
    Asked(THREE, Ask::Windows(0, 5, 3), "1 0:(1 5 5 5)"),
    Asked(THREE, Ask::Windows(0, 2, 3), "1"),
    Asked(THREE, Ask::Windows(FIRST, END, 4611686018427387904), WHOLE),
    Asked(THREE, Ask::Aligned(0, 8, 63), "bad range"),
    Asked(THREE, Ask::Aligned(8, 8, 2), "bad range"),
    Asked(THREE, Ask::Aligned(FIRST - 1, 8, 2), "bad range"),
    Asked(THREE, Ask::Windows(0, 8, 0), "bad range"),
    Asked(THREE, Ask::Windows(0, 8, 4611686018427387905), "bad range"),
    Asked(THREE, Ask::Windows(0, END + 1, 3), "bad range"),
];

#[test]
fn windows_of_a_version(rt: HostRuntime) -> Result<(), Fail> {
    all_hold(rt.alloc(), WINDOWS)
}

const CHANGES: &[Asked] = &[
    Asked(THREE, Ask::Changes(1, 3, 2), "3 0..8"),
    Asked(THREE, Ask::Changes(1, 2, 0), "2 3..4"),
    Asked(THREE, Ask::Changes(2, 3, 0), "3 4..5"),
    Asked(THREE, Ask::Changes(1, 3, 0), "3 3..5"),
    Asked(THREE, Ask::Changes(0, 1, 1), "1 0..6"),
    Asked(THREE, Ask::Changes(0, 1, 0), "1 0..1 3..5"),
    Asked(THREE, Ask::Changes(2, 2, 0), "2"),
    Asked(
        THREE,
        Ask::Changes(0, 1, 62),
        "1 -1152921504606846976..3458764513820540928",
    ),
    Asked(THREE, Ask::Changes(3, 1, 2), "bad range"),
    Asked(THREE, Ask::Changes(1, 3, 63), "bad range"),
    Asked(THREE, Ask::Changes(0, 9, 2), "no version 9, latest 3"),
    Asked(THREE, Ask::Changes(9, 0, 2), "no version 9, latest 3"),
];

#[test]
fn changes_between_two_versions(rt: HostRuntime) -> Result<(), Fail> {
    all_hold(rt.alloc(), CHANGES)
}

const WHOLE_VERSIONS: &[Asked] = &[
    Asked(THREE, Ask::Info(0, At::Number(1)), "1(3 10 -2 7)"),
    Asked(THREE, Ask::Info(0, At::Number(2)), "2(2 3 -2 5)"),
    Asked(THREE, Ask::Info(0, At::Latest), "3(3 1 -2 5)"),
    Asked(THREE, Ask::Info(0, At::Number(0)), "0(0 0)"),
    Asked(THREE, Ask::Info(1, At::Latest), "0(0 0)"),
    Asked(THREE, Ask::Info(1, At::Number(1)), "no version 1, latest 0"),
    Asked(THREE, Ask::Info(2, At::Latest), "no stream"),
    Asked(THREE, Ask::Streams, "5 10:3 11:0"),
    // of a history without streams
    Asked(&[], Ask::Streams, "0"),
    Asked(&[], Ask::Changes(1, 0, 63), "no stream"),
];

#[test]
fn a_version_as_a_whole_and_all_streams(rt: HostRuntime) -> Result<(), Fail> {
    all_hold(rt.alloc(), WHOLE_VERSIONS)
}

#[test]
fn the_lists_of_an_answer(rt: HostRuntime) -> Result<(), Fail> {
    let row = StreamRow {
        id: 7,
        latest: 9,
        output: true,
    };
    let streams = StreamList::from_rows(Vec::from_slice(rt.alloc(), &[row])?);
    assert!(rt; streams.as_slice() == [row].as_slice());
    let cells = CellList::from_cells(Vec::new(rt.alloc()));
    assert!(rt; cells.as_slice().len() == 0);
    let info = Query::Info {
        stream: 7,
        at: At::Latest,
    };
    assert!(rt; StreamQuery::Info { at: At::Latest }.of(7) == info);
    Ok(())
}
