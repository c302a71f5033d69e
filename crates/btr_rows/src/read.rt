ghost use Rattle.std.specs.Prelude.{◌≡◌, IfOk};
ghost use Rattle.btr_rows.specs.Rows.{rows_of};
ghost use Rattle.btr_rows.specs.Streams.{list_of};

use crate::builder::Builder;
use crate::ids::KnownIds;
use crate::list::RowList;
use crate::plain::plain_row;
use crate::quoted::read_records;
use std::alloc::{AllocError, Global};

/// Reads the rows of a CSV input: the points by their streams, and the refused rows. It takes time linear in the input, and for
/// each row logarithmic in the number of streams; memory of 24 bytes for each row, and twice that while a list of them grows. The
/// text itself is not kept. An `Err` means out of memory.
///
/// A record is fields with commas between them, and ends at a line feed, a carriage return or both (RFC 4180). In a field in quotes
/// commas and line ends are bytes of the field, and two quotes are one. Quotes that are not closed reach to the end of the input. A
/// blank line is no record. A byte order mark at the start is no part of the input. There is no header.
///
/// Records count from 1. One is a row if it has three fields: the text of a UUID in any of its forms (RFC 9562), a time and a value.
/// These two are decimal digits within `i64`, with or without a minus in front, and the time is one of the domain. Any other
/// record is refused for the first [reason] that holds. A row that is equal to another counts as well.
///
/// [reason]: crate::RowReason
pub fn read_rows(alloc: Global, bytes: &[u8]) -> Result<RowList, AllocError>
    ensures { IfOk result (λ l. l ≡ list_of (rows_of bytes.now)) }
{
    let mut rows = Builder::new(alloc);
    let mut known = KnownIds::new();
    let mut rest = bytes;
    while let Some((said, after)) = plain_row(rest, &mut known) {
        rows.add(alloc, said)?;
        rest = after;
    }
    read_records(alloc, rest, &mut rows)?;
    Ok(rows.into_list())
}
