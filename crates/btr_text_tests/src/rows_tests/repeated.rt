//! Rows that begin with the ids of rows before them.
use super::fixture::{Text, are_points};
use crate::fixture::{Row, all_hold};
use btr_rows::{RowList, RowReason, StreamRows, read_rows};
use std::alloc::{AllocError, Global};
use std::test::Fail;

/// The text of an id, and the id.
struct Known(&'static str, u128);

/// Ids of which each differs from others in one digit: the last one, the first one, or one in the middle.
const IDS: [Known; 9] = [
    Known(
        "5a0000f1-0000-4000-8000-0000000000aa",
        0x5a0000f10000400080000000000000aa,
    ),
    Known(
        "5a0000f1-0000-4000-8000-0000000000ab",
        0x5a0000f10000400080000000000000ab,
    ),
    Known(
        "5a0000f1-0000-4000-9000-0000000000aa",
        0x5a0000f10000400090000000000000aa,
    ),
    Known(
        "4a0000f1-0000-4000-8000-0000000000aa",
        0x4a0000f10000400080000000000000aa,
    ),
    Known(
        "5a0000f1-0000-4000-8000-0000000010aa",
        0x5a0000f10000400080000000000010aa,
    ),
    Known(
        "5a0000f1-1000-4000-8000-0000000000aa",
        0x5a0000f11000400080000000000000aa,
    ),
    Known(
        "5a0000f1-0000-4000-8001-0000000000aa",
        0x5a0000f10000400080010000000000aa,
    ),
    Known(
        "4a0000f1-0000-4000-8000-0000000000ab",
        0x4a0000f10000400080000000000000ab,
    ),
    Known(
        "5a0000f1-0000-4000-8000-1000000000aa",
        0x5a0000f10000400080001000000000aa,
    ),
];

/// Three rows of each of the first `streams` ids, one after another. The values are the numbers of the rows.
fn in_turns(alloc: Global, streams: usize) -> Result<String, AllocError> {
    let mut text = String::new(alloc);
    let mut number = 0u64;
    for time in 0..3u8 {
        for known in IDS.iter().take(streams) {
            number = number.wrapping_add(1);
            write!(text, "{},{time},{number}\n", known.0)?;
        }
    }
    Ok(text)
}

/// Whether a stream has this id, and three points in rows of these numbers.
fn is_stream(stream: &StreamRows, id: u128, rows: [u32; 3]) -> bool {
    let [a, b, c] = rows;
    stream.id() == id
        && are_points(
            stream.points(),
            &[
                (u64::from(a), 0, i64::from(a)),
                (u64::from(b), 1, i64::from(b)),
                (u64::from(c), 2, i64::from(c)),
            ],
        )
}

/// A number of streams.
struct Turns(u32);

impl Row for Turns {
    fn holds(&self, alloc: Global) -> Result<bool, Fail> {
        let text = in_turns(alloc, self.0 as usize)?;
        let list = read_rows(alloc, text.as_bytes())?;
        Ok(has_turns(&list, self.0))
    }
}

/// Whether a list has the rows of this number of streams in turns.
fn has_turns(list: &RowList, streams: u32) -> bool {
    let mut first = 0u32;
    for (stream, known) in list.streams().iter().zip(&IDS) {
        first = first.wrapping_add(1);
        let second = first.wrapping_add(streams);
        if !is_stream(
            stream,
            known.1,
            [first, second, second.wrapping_add(streams)],
        ) {
            return false;
        }
    }
    first == streams && list.streams().len() == streams as usize && list.refused().is_empty()
}

#[test]
fn ids_in_turns(rt: HostRuntime) -> Result<(), Fail> {
    all_hold(rt.alloc(), &[Turns(1), Turns(3), Turns(5), Turns(9)])
}

const TEXTS: &[Text] = &[
    Text(
        "<U>,0,1\n11111111111141118111111111111111,1,2\n<U>,2,3\nurn:uuid:<U>,3,4\n{<U>},4,5\n<U>,5,6",
        &[
            (1, 0, 1),
            (2, 1, 2),
            (3, 2, 3),
            (4, 3, 4),
            (5, 4, 5),
            (6, 5, 6),
        ],
        &[],
    ),
    Text(
        "11111111-1111-4111-8111-11111111111g,0,1\n<U>,1,2\n11111111-1111-4111-8111-11111111111g,2,3\n\
         11111111-1111-4111-81111-11111111111,3,4\n<U>,4,5\n<U>0,5,6\n11111111-1111-4111-8111-11111111111,6,7\n<U>,7,8",
        &[(2, 1, 2), (5, 4, 5), (8, 7, 8)],
        &[
            (1, RowReason::Id),
            (3, RowReason::Id),
            (4, RowReason::Id),
            (6, RowReason::Id),
            (7, RowReason::Id),
        ],
    ),
];

#[test]
fn an_id_between_its_other_forms_and_texts_that_are_none(rt: HostRuntime) -> Result<(), Fail> {
    all_hold(rt.alloc(), TEXTS)
}

/// Rows of one id, in small letters, in large ones and in both.
const LETTERS: &str = "abcdef01-2345-4789-8bcd-ef0123456789,0,1\n\
    ABCDEF01-2345-4789-8BCD-EF0123456789,1,2\n\
    abcdef01-2345-4789-8BCD-ef0123456789,2,3\n\
    {ABCDEF01-2345-4789-8BCD-EF0123456789},3,4\n\
    abcdef01-2345-4789-8bcd-ef0123456789,4,5\n";

/// Whether a list has these rows.
fn has_letters(list: &RowList) -> bool {
    let points = &[(1, 0, 1), (2, 1, 2), (3, 2, 3), (4, 3, 4), (5, 4, 5)];
    match list.streams() {
        [stream] => {
            stream.id() == 0xabcdef01234547898bcdef0123456789 && are_points(stream.points(), points)
        }
        _ => false,
    }
}

#[test]
fn an_id_in_small_and_in_large_letters(rt: HostRuntime) -> Result<(), Fail> {
    let list = read_rows(rt.alloc(), LETTERS.as_bytes())?;
    assert!(rt; list.refused().is_empty());
    assert!(rt; has_letters(&list));
    Ok(())
}
