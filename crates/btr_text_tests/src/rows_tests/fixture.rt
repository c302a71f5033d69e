//! Reads the text of a test. In it, the words `<U>` and `<V>` are short for the two ids.
use crate::fixture::Row;
use btr_rows::{NumberedPoint, RefusedRow, RowList, RowReason, read_rows};
use std::alloc::{AllocError, Global};
use std::test::Fail;

/// The ids that `<U>` and `<V>` are short for.
pub(super) const U: u128 = 0x11111111111141118111111111111111;

pub(super) const V: u128 = 0x22222222222242228222222222222222;

/// Points, each with the number of its row, its time and its value.
pub(super) type Points = &'static [(u64, i64, i64)];

/// The numbers of refused rows, and the reasons.
pub(super) type Refused = &'static [(u64, RowReason)];

fn with_ids(alloc: Global, text: &str) -> Result<String, AllocError> {
    let text = text.replace(alloc, "<U>", "11111111-1111-4111-8111-111111111111")?;
    Ok(text.replace(alloc, "<V>", "22222222-2222-4222-8222-222222222222")?)
}

/// Returns the rows of a text.
pub(super) fn read(alloc: Global, text: &str) -> Result<RowList, AllocError> {
    let text = with_ids(alloc, text)?;
    read_rows(alloc, text.as_bytes())
}

/// Whether points have these numbers, times and values.
pub(super) fn are_points(points: &[NumberedPoint], want: &[(u64, i64, i64)]) -> bool {
    points.len() == want.len()
        && points.iter().zip(want).all(|(found, want)| (
            found.number,
            found.point.time,
            found.point.value,
        ) == *want)
}

/// Whether refused rows have these numbers and reasons.
pub(super) fn are_refused(rows: &[RefusedRow], want: &[(u64, RowReason)]) -> bool {
    rows.len() == want.len()
        && rows
            .iter()
            .zip(want)
            .all(|(row, want)| row.number == want.0 && row.reason == want.1)
}

/// Whether a list has these points of the stream `<U>` and no other, and these refused rows.
pub(super) fn is_list(
    list: &RowList,
    points: &[(u64, i64, i64)],
    refused: &[(u64, RowReason)],
) -> bool {
    let has_points = match list.streams() {
        [] => points.is_empty(),
        [stream] => stream.id() == U && are_points(stream.points(), points),
        _ => false,
    };
    has_points && are_refused(list.refused(), refused)
}

/// A text, the points of the stream `<U>` in it, and the refused rows.
pub(super) struct Text(
    pub(super) &'static str,
    pub(super) Points,
    pub(super) Refused,
);

impl Row for Text {
    fn holds(&self, alloc: Global) -> Result<bool, Fail> {
        let list = read(alloc, self.0)?;
        Ok(is_list(&list, self.1, self.2))
    }
}

/// Fails with the first line of this text that, as an input of its own, is not one row that is refused for this reason.
pub(super) fn each_is_refused(alloc: Global, reason: RowReason, lines: &str) -> Result<(), Fail> {
    for line in lines.split('\n') {
        if !is_refused(alloc, reason, line)? {
            return Err(Fail::new(format_args!("{line}")));
        }
    }
    Ok(())
}

/// Whether this text is one row, which is refused for this reason.
pub(super) fn is_refused(alloc: Global, reason: RowReason, text: &str) -> Result<bool, AllocError> {
    let list = read(alloc, text)?;
    Ok(is_list(&list, &[], &[(1, reason)]))
}
