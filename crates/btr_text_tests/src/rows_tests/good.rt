//! Rows that are read, and their streams.
use super::fixture::{Text, U, V, are_points, are_refused, is_list, read};
use crate::fixture::{Row, all_hold};
use btr_rows::{RowList, RowReason};
use std::alloc::Global;
use std::test::Fail;

const TEXTS: &[Text] = &[Text(
    "<U>,0,5\nnonsense,1,1\n<U>,2\n\"<U>\",\"3\",\"7\"\n<U>,4,-2",
    &[(1, 0, 5), (4, 3, 7), (5, 4, -2)],
    &[(2, RowReason::Id), (3, RowReason::Fields)],
)];

#[test]
fn rows_of_one_stream_and_refused_rows(rt: HostRuntime) -> Result<(), Fail> {
    all_hold(rt.alloc(), TEXTS)
}

const IDS: &[Text] = &[
    Text(
        "11111111-1111-4111-8111-111111111111,3,7\n",
        &[(1, 3, 7)],
        &[],
    ),
    Text("11111111111141118111111111111111,3,7\n", &[(1, 3, 7)], &[]),
    Text(
        "urn:uuid:11111111-1111-4111-8111-111111111111,3,7\n",
        &[(1, 3, 7)],
        &[],
    ),
    Text(
        "URN:UUID:11111111-1111-4111-8111-111111111111,3,7\n",
        &[(1, 3, 7)],
        &[],
    ),
    Text(
        "{11111111-1111-4111-8111-111111111111},3,7\n",
        &[(1, 3, 7)],
        &[],
    ),
];

#[test]
fn an_id_in_each_form(rt: HostRuntime) -> Result<(), Fail> {
    all_hold(rt.alloc(), IDS)
}

/// Whether a list has one stream, with this id and this point.
fn has_one_point(list: &RowList, id: u128, point: (u64, i64, i64)) -> bool {
    match list.streams() {
        [stream] => stream.id() == id && are_points(stream.points(), &[point]),
        _ => false,
    }
}

#[test]
fn an_id_in_mixed_letters(rt: HostRuntime) -> Result<(), Fail> {
    let list = read(rt.alloc(), "ABCDEF01-2345-6789-abcd-EF0123456789,3,7")?;
    assert!(rt; has_one_point(&list, 0xabcdef0123456789abcdef0123456789, (1, 3, 7)));
    Ok(())
}

/// The texts of a time and of a value, plain and in quotes, and both numbers.
struct Numbers(&'static str, &'static str, i64, i64);

impl Row for Numbers {
    fn holds(&self, alloc: Global) -> Result<bool, Fail> {
        let time = self.0;
        let value = self.1;
        let plain = read(alloc, &format!(in alloc; "<U>,{time},{value}\n")?)?;
        let quoted = read(alloc, &format!(in alloc; "<U>,\"{time}\",\"{value}\"")?)?;
        let point = (1, self.2, self.3);
        Ok(is_list(&plain, &[point], &[]) && is_list(&quoted, &[point], &[]))
    }
}

const NUMBERS: &[Numbers] = &[
    Numbers("0", "0", 0, 0),
    Numbers("-0", "-0", 0, 0),
    Numbers("007", "-007", 7, -7),
    Numbers(
        "00000000000000000000000000000000000012",
        "-00000000000000000000000000000000000034",
        12,
        -34,
    ),
    Numbers(
        "-1152921504606846976",
        "9223372036854775807",
        -1152921504606846976,
        9223372036854775807,
    ),
    Numbers(
        "3458764513820540927",
        "-9223372036854775808",
        3458764513820540927,
        i64::MIN,
    ),
    Numbers(
        "922337203685477579",
        "9223372036854775799",
        922337203685477579,
        9223372036854775799,
    ),
    Numbers(
        "922337203685477580",
        "-9223372036854775800",
        922337203685477580,
        -9223372036854775800,
    ),
];

#[test]
fn times_and_values_up_to_their_bounds(rt: HostRuntime) -> Result<(), Fail> {
    all_hold(rt.alloc(), NUMBERS)
}

/// Rows of two streams, of which some are refused.
const TWO_STREAMS: &str = "<U>,+1,0\n<V>,9,1\n<U>,5,2\n<V>,8,3\n<V>,x,4\n\"<U>\",4,5\n<V>,8,3\n";

/// Whether a list has the stream `<V>` before `<U>`, with the points of `TWO_STREAMS`.
fn has_both_streams(list: &RowList) -> bool {
    match list.streams() {
        [first, second] => {
            first.id() == V
                && are_points(first.points(), &[(2, 9, 1), (4, 8, 3), (7, 8, 3)])
                && second.id() == U
                && are_points(second.points(), &[(3, 5, 2), (6, 4, 5)])
        }
        _ => false,
    }
}

#[test]
fn streams_are_in_the_order_of_their_first_rows(rt: HostRuntime) -> Result<(), Fail> {
    let list = read(rt.alloc(), TWO_STREAMS)?;
    assert!(rt;
        are_refused(
            list.refused(),
            &[(1, RowReason::Time), (5, RowReason::Time)]
        )
    );
    assert!(rt; has_both_streams(&list));
    let (streams, refusals) = list.into_parts();
    assert!(rt; (streams.len(), refusals.len()) == (2, 2));
    Ok(())
}
