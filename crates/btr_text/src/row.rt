ghost use Rattle.std.specs.Prelude.{◌≡◌, ◌≤◌, ℕ, List, ◌∷◌, ◌++◌, length, take, flat_map, OnOk, OnErr};
ghost use Rattle.btr_text.specs.Text.{line_text, id_text, agg_words, point_row, cell_row, range_row, stream_row};
ghost use Rattle.btr_text.specs.Text.{kind_word, info_row, reads_text, info_count, row_count, rows_text};

use crate::text::append_line;
use btr_base::{Agg, Cell, Point, Range};
use btr_hist::{Reads, Rows, StreamRow};
use itoa::Buffer;
use std::alloc::AllocError;
use uuid::Uuid;

/// Returns the number of rows.
pub fn row_count(rows: &Rows) -> usize
    ensures { result ≡ row_count rows.now }
{
    match rows {
        Rows::Points(points) => points.as_slice().len(),
        Rows::Cells(cells) => cells.as_slice().len(),
        Rows::Ranges(ranges) => ranges.as_slice().len(),
        Rows::Info { reads, .. } => info_count(*reads),
        Rows::Streams(streams) => streams.as_slice().len(),
    }
}

/// Appends the rows, one after another. An `Err` may leave a part of them.
pub fn append_rows(out: &mut Vec<u8>, rows: &Rows) -> Result<(), AllocError>
    ensures ok { OnOk result (out.new.items ≡ out.old.items ++ rows_text rows.now) }
    ensures err { OnErr result (take (length out.old.items) out.new.items ≡ out.old.items) }
{
    match rows {
        Rows::Points(points) => append_each(out, points.as_slice()),
        Rows::Cells(cells) => append_each(out, cells.as_slice()),
        Rows::Ranges(ranges) => append_each(out, ranges.as_slice()),
        Rows::Info { output, agg, reads } => append_info(out, *output, agg, *reads),
        Rows::Streams(streams) => append_each(out, streams.as_slice()),
    }
}

/// A value that a reply shows as one line, after its first line.
trait Row {
    ghost row_text: { Self → List ℕ };

    /// Appends the row. An `Err` may leave a part of it.
    fn append(&self, out: &mut Vec<u8>) -> Result<(), AllocError>
        ensures ok { OnOk result (out.new.items ≡ out.old.items ++ row_text self.now) }
        ensures err { OnErr result (take (length out.old.items) out.new.items ≡ out.old.items) };
}

/// Appends rows, one after another. An `Err` may leave a part of them.
fn append_each<R: Row>(out: &mut Vec<u8>, rows: &[R]) -> Result<(), AllocError>
    ensures ok { OnOk result (out.new.items ≡ out.old.items ++ flat_map R.row_text rows.now) }
    ensures err { OnErr result (take (length out.old.items) out.new.items ≡ out.old.items) }
{
    for row in rows {
        row.append(out)?;
    }
    Ok(())
}

impl Row for Point {
    ghost row_text = { point_row };

    fn append(&self, out: &mut Vec<u8>) -> Result<(), AllocError> {
        let mut time = Buffer::new();
        let mut value = Buffer::new();
        append_line(
            out,
            time.format(self.time).as_bytes(),
            &[value.format(self.value).as_bytes()],
        )
    }
}

impl Row for Cell {
    ghost row_text = { cell_row };

    fn append(&self, out: &mut Vec<u8>) -> Result<(), AllocError> {
        let mut start = Buffer::new();
        append_agg(out, start.format(self.start).as_bytes(), &self.agg)
    }
}

impl Row for Range {
    ghost row_text = { range_row };

    fn append(&self, out: &mut Vec<u8>) -> Result<(), AllocError> {
        let mut from = Buffer::new();
        let mut to = Buffer::new();
        append_line(
            out,
            from.format(self.from).as_bytes(),
            &[to.format(self.to).as_bytes()],
        )
    }
}

impl Row for StreamRow {
    ghost row_text = { stream_row };

    fn append(&self, out: &mut Vec<u8>) -> Result<(), AllocError> {
        let mut id = Uuid::encode_buffer();
        let mut latest = Buffer::new();
        append_line(
            out,
            id_text(self.id, &mut id).as_bytes(),
            &[
                latest.format(self.latest).as_bytes(),
                kind_word(self.output),
            ],
        )
    }
}

/// Returns the number of rows of a version with these reads.
fn info_count(reads: Option<Reads>) -> usize
    ensures { result ≡ info_count reads }
{
    match reads {
        None => 1,
        Some(_) => 2,
    }
}

/// Returns the word of a kind of streams.
fn kind_word(output: bool) -> &'static [u8]
    ensures { result.now ≡ kind_word output }
{
    if output { b"output" } else { b"plain" }
}

/// Appends the rows of a version: the kind of the stream and the aggregate, and the reads, if there are any. An `Err` may
/// leave a part of them.
fn append_info(
    out: &mut Vec<u8>,
    output: bool,
    agg: &Agg,
    reads: Option<Reads>,
) -> Result<(), AllocError>
    ensures ok { OnOk result (out.new.items ≡ out.old.items ++ (info_row output agg.now ++ reads_text reads)) }
    ensures err { OnErr result (take (length out.old.items) out.new.items ≡ out.old.items) }
{
    append_agg(out, kind_word(output), agg)?;
    append_reads(out, reads)
}

/// Appends the row of the versions that a version was computed from, if there are any. An `Err` may leave a part of it.
fn append_reads(out: &mut Vec<u8>, reads: Option<Reads>) -> Result<(), AllocError>
    ensures ok { OnOk result (out.new.items ≡ out.old.items ++ reads_text reads) }
    ensures err { OnErr result (take (length out.old.items) out.new.items ≡ out.old.items) }
{
    let Some(reads) = reads else {
        return Ok(());
    };
    let mut first = Buffer::new();
    let first = first.format(reads.first).as_bytes();
    match reads.second {
        None => append_line(out, b"reads", &[first]),
        Some(version) => {
            let mut second = Buffer::new();
            append_line(out, b"reads", &[first, second.format(version).as_bytes()])
        }
    }
}

/// Writes the text of an id (RFC 9562) into the buffer, hyphenated and in lower case, and returns it: 36 bytes.
pub fn id_text(id: u128, buffer: &mut [u8]) -> &str
    requires { 36 ≤ length buffer.old }
    ensures { result.now ≡ id_text id }
{
    Uuid::from_u128(id).hyphenated().encode_lower(buffer)
}

/// Appends a line of a word and an aggregate: the number of points and their sum, then the least and the greatest value if there is a
/// point. It takes time linear in the line. An `Err` means out of memory, and may leave a part of the line.
pub fn append_agg(out: &mut Vec<u8>, first: &[u8], agg: &Agg) -> Result<(), AllocError>
    ensures ok { OnOk result (out.new.items ≡ out.old.items ++ line_text (first.now ∷ agg_words agg.now)) }
    ensures err { OnErr result (take (length out.old.items) out.new.items ≡ out.old.items) }
{
    let mut count = Buffer::new();
    let mut sum = Buffer::new();
    let count = count.format(agg.count).as_bytes();
    let sum = sum.format(agg.sum).as_bytes();
    match agg.ends {
        None => append_line(out, first, &[count, sum]),
        Some((least, greatest)) => {
            let mut low = Buffer::new();
            let mut high = Buffer::new();
            append_line(
                out,
                first,
                &[
                    count,
                    sum,
                    low.format(least).as_bytes(),
                    high.format(greatest).as_bytes(),
                ],
            )
        }
    }
}
