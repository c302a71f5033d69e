//! Lines as users read them.
use btr_base::Agg;
use btr_hist::Reads;
use btr_rows::RowReason;
use btr_store::{ReportLine, RowRefusal, write_line};
use btr_text::Reason;
use std::alloc::{AllocError, Global};
use std::test::Fail;

const ONES: u128 = 0x11111111_1111_4111_8111_111111111111;

const MIXED: u128 = 0xABCDEF01_2345_6789_ABCD_EF0123456789;

/// The text of lines.
fn text_of(alloc: Global, lines: &[ReportLine]) -> Result<Vec<u8>, AllocError> {
    let mut out = Vec::new(alloc);
    for line in lines {
        write_line(line, &mut out)?;
    }
    Ok(out)
}

/// The text of each line on rows.
fn text_of_rows(alloc: Global) -> Result<Vec<u8>, AllocError> {
    text_of(
        alloc,
        &[
            ReportLine::RowRefused {
                number: 2,
                reason: RowRefusal::Row(RowReason::Id),
            },
            ReportLine::RowRefused {
                number: 1,
                reason: RowRefusal::Row(RowReason::Fields),
            },
            ReportLine::RowRefused {
                number: 10,
                reason: RowRefusal::Row(RowReason::Time),
            },
            ReportLine::RowRefused {
                number: 18446744073709551615,
                reason: RowRefusal::Row(RowReason::Value),
            },
            ReportLine::RowRefused {
                number: 3,
                reason: RowRefusal::Row(RowReason::Domain {
                    time: -1152921504606846977,
                }),
            },
            ReportLine::RowRefused {
                number: 4,
                reason: RowRefusal::Output,
            },
            ReportLine::BatchRefused {
                id: ONES,
                first: 7,
                last: 4102,
                reason: Reason::Crowded { start: -4 },
            },
            ReportLine::BatchRefused {
                id: ONES,
                first: 7,
                last: 4102,
                reason: Reason::Full { need: 5, left: 2 },
            },
            ReportLine::BatchRefused {
                id: ONES,
                first: 7,
                last: 4102,
                reason: Reason::Memory,
            },
            ReportLine::StreamLoaded {
                id: ONES,
                version: 1,
                points: 3,
            },
            ReportLine::Loaded {
                good: 3,
                refused: 2,
            },
        ],
    )
}

const TEXT_OF_ROWS: &[u8] =
    b"row 2: no id\nrow 1: no fields\nrow 10: no time\nrow 18446744073709551615: no value\n\
        row 3: no domain -1152921504606846977\nrow 4: no output\n\
        11111111-1111-4111-8111-111111111111 rows 7 4102: no crowded -4\n\
        11111111-1111-4111-8111-111111111111 rows 7 4102: no full 5 2\n\
        11111111-1111-4111-8111-111111111111 rows 7 4102: no memory\n\
        11111111-1111-4111-8111-111111111111 1 3\nloaded 3 refused 2\n";

#[test]
fn each_line_of_rows_has_its_words(rt: HostRuntime) -> Result<(), Fail> {
    assert!(rt; text_of_rows(rt.alloc())?.as_slice() == TEXT_OF_ROWS);
    Ok(())
}

/// The text of each line on outputs and samples.
fn text_of_outputs(alloc: Global) -> Result<Vec<u8>, AllocError> {
    text_of(
        alloc,
        &[
            ReportLine::OutputCurrent {
                id: MIXED,
                version: 2,
                reads: Reads {
                    first: 1,
                    second: None,
                },
            },
            ReportLine::OutputCurrent {
                id: ONES,
                version: 4294967295,
                reads: Reads {
                    first: 1,
                    second: Some(3),
                },
            },
            ReportLine::OutputRefused {
                id: ONES,
                reason: Reason::Superseded { version: 9 },
            },
            ReportLine::RoundRefused {
                id: ONES,
                reason: Reason::Crowded { start: -4 },
            },
            ReportLine::RoundRefused {
                id: MIXED,
                reason: Reason::Device,
            },
            ReportLine::Used { entries: 6 },
            ReportLine::StreamSummary {
                id: 1,
                version: 1,
                agg: Agg::of(-306).join(&Agg::of(170)),
            },
            ReportLine::StreamSummary {
                id: 0,
                version: 0,
                agg: Agg::none(),
            },
        ],
    )
}

const TEXT_OF_OUTPUTS: &[u8] = b"abcdef01-2345-6789-abcd-ef0123456789 2 1\n\
        11111111-1111-4111-8111-111111111111 4294967295 1 3\n\
        11111111-1111-4111-8111-111111111111 no superseded 9\n\
        materialize 11111111-1111-4111-8111-111111111111 no crowded -4\n\
        materialize abcdef01-2345-6789-abcd-ef0123456789 no device\nno used 6\n\
        00000000-0000-0000-0000-000000000001 1 2 -136 -306 170\n\
        00000000-0000-0000-0000-000000000000 0 0 0\n";

#[test]
fn each_line_of_outputs_and_samples_has_its_words(rt: HostRuntime) -> Result<(), Fail> {
    assert!(rt; text_of_outputs(rt.alloc())?.as_slice() == TEXT_OF_OUTPUTS);
    Ok(())
}
