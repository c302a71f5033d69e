//! How the text is cut into records.
use super::fixture::{Points, Text, U, are_refused, is_list, read};
use crate::fixture::all_hold;
use btr_rows::{NumberedPoint, RowList, RowReason, read_rows};
use std::alloc::{AllocError, Global};
use std::test::Fail;

const TWO: Points = &[(1, 0, 5), (2, 1, 6)];

const LINES: &[Text] = &[
    Text("", &[], &[]),
    Text("\n", &[], &[]),
    Text("\r\n\r\n", &[], &[]),
    Text("\r", &[], &[]),
    Text("\n\n\n", &[], &[]),
    Text("<U>,0,5\n<U>,1,6\n", TWO, &[]),
    Text("<U>,0,5\n<U>,1,6", TWO, &[]),
    Text("<U>,0,5\r\n<U>,1,6\r\n", TWO, &[]),
    Text("<U>,0,5\r\n<U>,1,6", TWO, &[]),
    Text("<U>,0,5\r<U>,1,6\r", TWO, &[]),
    Text("\n\n<U>,0,5\n\r\n\n<U>,1,6\n\n", TWO, &[]),
    Text("\r\n\"<U>\",0,5\n\n\n<U>,1,\"6\"\r\n\r\n", TWO, &[]),
    Text("<U>,0,5\n\n\"<U>\",1,6", TWO, &[]),
    Text("\"<U>\",\"0\",\"5\"\n<U>,1,6\n", TWO, &[]),
];

#[test]
fn the_ends_of_lines(rt: HostRuntime) -> Result<(), Fail> {
    all_hold(rt.alloc(), LINES)
}

const QUOTES: &[Text] = &[
    Text(
        "<U>,\"1\n\",5\n<U>,2,\"5\n<U>,3,7\n",
        &[],
        &[(1, RowReason::Time), (2, RowReason::Value)],
    ),
    Text(
        "\"<U>\",1,5\nx\n<U>,2,\"6\",\n<U>,3,\"7\"",
        &[(1, 1, 5), (4, 3, 7)],
        &[(2, RowReason::Fields), (3, RowReason::Fields)],
    ),
];

#[test]
fn fields_in_quotes(rt: HostRuntime) -> Result<(), Fail> {
    all_hold(rt.alloc(), QUOTES)
}

const MARKS: &[Text] = &[
    Text("\u{feff}<U>,0,5\n", &[(1, 0, 5)], &[]),
    Text("\u{feff}\"<U>\",0,5\n", &[(1, 0, 5)], &[]),
    Text("\u{feff}", &[], &[]),
    Text("\u{feff}\u{feff}<U>,0,5\n", &[], &[(1, RowReason::Id)]),
    Text(
        "<U>,0,5\n\u{feff}<U>,1,6\n\u{feff}\"<U>\",2,7\n",
        &[(1, 0, 5)],
        &[(2, RowReason::Id), (3, RowReason::Id)],
    ),
];

#[test]
fn a_byte_order_mark_counts_at_the_start_alone(rt: HostRuntime) -> Result<(), Fail> {
    all_hold(rt.alloc(), MARKS)
}

/// 1000 rows in quotes, with the times from 0 on and the values from 0 downwards.
fn long_text(alloc: Global) -> Result<String, AllocError> {
    let mut text = String::new(alloc);
    for number in 0..1000u32 {
        write!(text, "\"<U>\",\"{number}\",-{number}\n")?;
    }
    Ok(text)
}

/// Whether points have the times from 0 on, the values from 0 downwards and the numbers from 1 on.
fn are_numbered(points: &[NumberedPoint]) -> bool {
    let mut number = 0i64;
    for found in points {
        if found.point.time != number || found.point.value != number.wrapping_neg() {
            return false;
        }
        number = number.wrapping_add(1);
        if i128::from(found.number) != i128::from(number) {
            return false;
        }
    }
    true
}

/// Whether a list has the rows of the long text.
fn is_long(list: &RowList) -> bool {
    match list.streams() {
        [stream] => {
            stream.id() == U && stream.points().len() == 1000 && are_numbered(stream.points())
        }
        _ => false,
    }
}

#[test]
fn a_long_text_in_quotes(rt: HostRuntime) -> Result<(), Fail> {
    let text = long_text(rt.alloc())?;
    let list = read(rt.alloc(), text.as_str())?;
    assert!(rt; list.refused().len() == 0);
    assert!(rt; is_long(&list));
    Ok(())
}

/// The rows of a text in which `<D>` is short for 20000 digits.
fn read_long(alloc: Global, text: &str) -> Result<RowList, AllocError> {
    let digits = "0".repeat(alloc, 20000)?;
    let text = text.replace(alloc, "<D>", digits.as_str())?;
    read(alloc, text.as_str())
}

#[test]
fn a_long_field(rt: HostRuntime) -> Result<(), Fail> {
    let plain = read_long(rt.alloc(), "<U>,<D>3,-<D>7\n")?;
    assert!(rt; is_list(&plain, &[(1, 3, -7)], &[]));
    let quoted = read_long(rt.alloc(), "<U>,\"<D>3\",\"-<D>7\"\n")?;
    assert!(rt; is_list(&quoted, &[(1, 3, -7)], &[]));
    let none = read_long(rt.alloc(), "<D>")?;
    assert!(rt; are_refused(none.refused(), &[(1, RowReason::Fields)]));
    Ok(())
}
