//! Rows that are refused, each for its first reason.
use super::fixture::{Text, each_is_refused, is_list, is_refused};
use crate::fixture::{Row, all_hold};
use btr_rows::{RowReason, read_rows};
use std::alloc::{AllocError, Global};
use std::test::Fail;

const FIELDS: &[Text] = &[
    Text("\"<U>,0,5\n<V>,1,6\n", &[], &[(1, RowReason::Fields)]),
    Text("<U>,0,5,6\n", &[], &[(1, RowReason::Fields)]),
    Text("<U>,\"0\"\n", &[], &[(1, RowReason::Fields)]),
];

#[test]
fn rows_without_three_fields(rt: HostRuntime) -> Result<(), Fail> {
    each_is_refused(
        rt.alloc(),
        RowReason::Fields,
        "<U>\n\
         <U>,0\n\
         <U>,0,5,\n\
         <U>,0,5,6\n\
         nonsense,+1\n\
         nonsense,x,y,z\n\
         ,\n\
         ,,,\n\
         \"<U>,0,5\"\n\
         \"<U>,0,5",
    )?;
    all_hold(rt.alloc(), FIELDS)
}

#[test]
fn rows_without_an_id(rt: HostRuntime) -> Result<(), Fail> {
    each_is_refused(
        rt.alloc(),
        RowReason::Id,
        "id,time,value\n\
         ,,\n\
         5,0,5\n\
         \x20<U>,0,5\n\
         <U> ,0,5\n\
         1111111111114111811111111111111,0,5\n\
         111111111111411181111111111111111,0,5\n\
         1111111111114111811111111111111g,0,5\n\
         11111111-1111-4111-8111-11111111111,0,5\n\
         11111111-1111-4111-81111-11111111111,0,5\n\
         111111111-111-4111-8111-111111111111,0,5\n\
         11111111-1111-4111-8111-11111111111g,0,5\n\
         11111111-1111-4111-8111-11111111111/,0,5\n\
         11111111+1111+4111+8111+111111111111,0,5\n\
         {11111111111141118111111111111111},0,5\n\
         (11111111-1111-4111-8111-111111111111),0,5\n\
         uuid:11111111-1111-4111-8111-111111111111,0,5\n\
         urn:uuid:11111111111141118111111111111111,0,5\n\
         \"<U>\"\"\",0,5\n\
         \"<U>\"x,0,5\n\
         <U>\",0,5\n\
         nonsense,+1,+1",
    )
}

/// Texts that are no numbers, in lines.
const NO_NUMBERS: &str = "\n-\n--5\n5-\n+5\n5.0\n1e3\n0x1\n 5\n5 \nfive\n5\"\n\"5\"\"\"\n\
        9223372036854775808\n-9223372036854775809\n18446744073709551621\n\
        99999999999999999999999999999999999999\n-99999999999999999999999999999999999999";

/// A text in which `<N>` is short for a text that is no number, and the reason why its row is refused.
const WITHOUT_NUMBERS: &[(&str, RowReason)] = &[
    ("<U>,<N>,5\n", RowReason::Time),
    ("<U>,<N>,<N>\n", RowReason::Time),
    ("<U>,5,<N>\n", RowReason::Value),
    ("<U>,9223372036854775807,<N>", RowReason::Value),
];

/// Whether a text with this number is refused for this reason.
fn is_refused_with(
    alloc: Global,
    number: &str,
    text: &str,
    reason: RowReason,
) -> Result<bool, AllocError> {
    let text = text.replace(alloc, "<N>", number)?;
    is_refused(alloc, reason, text.as_str())
}

/// Whether each text of `WITHOUT_NUMBERS` with this number is refused.
fn are_refused_with(alloc: Global, number: &str) -> Result<bool, AllocError> {
    for (text, reason) in WITHOUT_NUMBERS {
        if !is_refused_with(alloc, number, text, *reason)? {
            return Ok(false);
        }
    }
    Ok(true)
}

#[test]
fn rows_without_a_time_or_a_value(rt: HostRuntime) -> Result<(), Fail> {
    for number in NO_NUMBERS.split('\n') {
        if !are_refused_with(rt.alloc(), number)? {
            return Err(Fail::new(format_args!("with {number}")));
        }
    }
    Ok(())
}

const OUTSIDE: &[Text] = &[
    Text(
        "<U>,-1152921504606846977,5\n",
        &[],
        &[(
            1,
            RowReason::Domain {
                time: -1152921504606846977,
            },
        )],
    ),
    Text(
        "<U>,3458764513820540928,5\n",
        &[],
        &[(
            1,
            RowReason::Domain {
                time: 3458764513820540928,
            },
        )],
    ),
    Text(
        "<U>,9223372036854775807,5\n",
        &[],
        &[(1, RowReason::Domain { time: i64::MAX })],
    ),
    Text(
        "<U>,-9223372036854775808,5\n",
        &[],
        &[(1, RowReason::Domain { time: i64::MIN })],
    ),
    Text(
        "\"<U>\",\"3458764513820540928\",\"5\"",
        &[],
        &[(
            1,
            RowReason::Domain {
                time: 3458764513820540928,
            },
        )],
    ),
];

#[test]
fn times_outside_the_domain(rt: HostRuntime) -> Result<(), Fail> {
    all_hold(rt.alloc(), OUTSIDE)
}

/// Bytes that are one row, and the reason why it is refused.
struct Bytes(&'static [u8], RowReason);

impl Row for Bytes {
    fn holds(&self, alloc: Global) -> Result<bool, Fail> {
        let list = read_rows(alloc, self.0)?;
        Ok(is_list(&list, &[], &[(1, self.1)]))
    }
}

const BYTES: &[Bytes] = &[
    Bytes(
        b"\xff1111111-1111-4111-8111-111111111111,0,5\n",
        RowReason::Id,
    ),
    Bytes(
        b"11111111-1111-4111-8111-11111111111\xc3\xa9,0,5\n",
        RowReason::Id,
    ),
    Bytes(
        b"11111111-1111-4111-8111-111111111111,\xff,5\n",
        RowReason::Time,
    ),
    Bytes(
        b"11111111-1111-4111-8111-111111111111,5\xb2,5\n",
        RowReason::Time,
    ),
    Bytes(
        b"11111111-1111-4111-8111-111111111111,0,\x80",
        RowReason::Value,
    ),
    Bytes(
        b"\"11111111-1111-4111-8111-111111111111\",0,\"5\xff\"\n",
        RowReason::Value,
    ),
];

#[test]
fn bytes_that_are_not_text(rt: HostRuntime) -> Result<(), Fail> {
    all_hold(rt.alloc(), BYTES)
}

const HEADER: &[Text] = &[Text(
    "id,time,value\n<U>,0,5\n",
    &[(2, 0, 5)],
    &[(1, RowReason::Id)],
)];

#[test]
fn a_header_is_one_refused_row(rt: HostRuntime) -> Result<(), Fail> {
    all_hold(rt.alloc(), HEADER)
}
