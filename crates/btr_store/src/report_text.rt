ghost use Rattle.std.specs.Prelude.{◌≡◌, [], ◌∷◌, ◌++◌, length, take, map, flat_map, codes, decimal, OnOk, OnErr};
ghost use Rattle.btr_text.specs.Text.{line_text, id_text, agg_words, reason_words};
ghost use Rattle.btr_text.specs.declared.word.TheConstants.{SPACE};
ghost use Rattle.btr_store.specs.Report.{marked, reads_words, report_text, row_words};

use crate::report_line::{ReportLine, RowRefusal};
use btr_base::Agg;
use btr_hist::Reads;
use btr_rows::RowReason;
use btr_text::{Reason, append_agg, append_line, append_reason, id_text};
use itoa::Buffer;
use std::alloc::AllocError;
use uuid::Uuid;

/// Appends the text of a line to `out`, with the line feed that ends it. One space separates two words. Numbers are plain decimal, and an
/// id is hyphenated and in lower case. It takes time linear in the line, which has at most about 200 bytes, and the memory that `out`
/// needs to grow. An `Err` means out of memory, and leaves `out` as it was.
pub fn write_line(line: &ReportLine, out: &mut Vec<u8>) -> Result<(), AllocError>
    ensures ok { OnOk result (out.new.items ≡ out.old.items ++ report_text line.now) }
    ensures err { OnErr result (out.new.items ≡ out.old.items) }
{
    let before = out.len();
    let done = append_report(out, line);
    if done.is_err() {
        out.truncate(before);
    }
    done
}

/// Appends the text of a line. An `Err` may leave a part of it.
fn append_report(out: &mut Vec<u8>, line: &ReportLine) -> Result<(), AllocError>
    ensures ok { OnOk result (out.new.items ≡ out.old.items ++ report_text line.now) }
    ensures err { OnErr result (take (length out.old.items) out.new.items ≡ out.old.items) }
{
    match line {
        ReportLine::RowRefused { number, reason } => append_row(out, *number, *reason),
        ReportLine::BatchRefused {
            id,
            first,
            last,
            reason,
        } => append_batch(out, *id, *first, *last, *reason),
        ReportLine::StreamLoaded {
            id,
            version,
            points,
        } => append_stream(out, *id, *version, *points),
        ReportLine::Loaded { good, refused } => append_loaded(out, *good, *refused),
        ReportLine::OutputCurrent { id, version, reads } => append_output(
            out, *id, *version, *reads,
        ),
        ReportLine::OutputRefused { id, reason } => append_refused(out, *id, *reason),
        ReportLine::RoundRefused { id, reason } => append_round(out, *id, *reason),
        ReportLine::Used { entries } => append_used(out, *entries),
        ReportLine::StreamSummary { id, version, agg } => append_summary(out, *id, *version, agg),
    }
}

/// Appends the line of a row that was refused. An `Err` may leave a part of it.
fn append_row(out: &mut Vec<u8>, number: u64, reason: RowRefusal) -> Result<(), AllocError>
    ensures ok { OnOk result (out.new.items ≡ out.old.items
        ++ line_text (codes "row" ∷ marked number ∷ codes "no" ∷ row_words reason)) }
    ensures err { OnErr result (take (length out.old.items) out.new.items ≡ out.old.items) }
{
    append_word(out, b"row")?;
    append_mark(out, number)?;
    append_row_reason(out, reason)
}

/// Appends the end of the line of a row that was refused. An `Err` may leave a part of it.
fn append_row_reason(out: &mut Vec<u8>, reason: RowRefusal) -> Result<(), AllocError>
    ensures ok { OnOk result (out.new.items ≡ out.old.items ++ line_text (codes "no" ∷ row_words reason)) }
    ensures err { OnErr result (take (length out.old.items) out.new.items ≡ out.old.items) }
{
    match reason {
        RowRefusal::Row(RowReason::Fields) => append_line(out, b"no", &[b"fields"]),
        RowRefusal::Row(RowReason::Id) => append_line(out, b"no", &[b"id"]),
        RowRefusal::Row(RowReason::Time) => append_line(out, b"no", &[b"time"]),
        RowRefusal::Row(RowReason::Value) => append_line(out, b"no", &[b"value"]),
        RowRefusal::Row(RowReason::Domain { time }) => {
            let mut text = Buffer::new();
            append_line(out, b"no", &[b"domain", text.format(time).as_bytes()])
        }
        RowRefusal::Output => append_line(out, b"no", &[b"output"]),
    }
}

/// Appends the line of a batch that was refused. An `Err` may leave a part of it.
fn append_batch(
    out: &mut Vec<u8>,
    id: u128,
    first: u64,
    last: u64,
    reason: Reason,
) -> Result<(), AllocError>
    ensures ok { OnOk result (out.new.items ≡ out.old.items
        ++ line_text (id_text id ∷ codes "rows" ∷ decimal first ∷ marked last ∷ codes "no" ∷ reason_words reason)) }
    ensures err { OnErr result (take (length out.old.items) out.new.items ≡ out.old.items) }
{
    append_id(out, id)?;
    append_word(out, b"rows")?;
    append_number(out, first)?;
    append_mark(out, last)?;
    append_reason(out, reason)
}

/// Appends the line of a stream into which points were put. An `Err` may leave a part of it.
fn append_stream(out: &mut Vec<u8>, id: u128, version: u64, points: u64) -> Result<(), AllocError>
    ensures ok { OnOk result (out.new.items ≡ out.old.items ++ line_text (id_text id ∷ decimal version ∷ decimal points ∷ [])) }
    ensures err { OnErr result (take (length out.old.items) out.new.items ≡ out.old.items) }
{
    let mut first = Buffer::new();
    let mut second = Buffer::new();
    append_id(out, id)?;
    append_line(
        out,
        first.format(version).as_bytes(),
        &[second.format(points).as_bytes()],
    )
}

/// Appends the line of all rows. An `Err` may leave a part of it.
fn append_loaded(out: &mut Vec<u8>, good: u64, refused: u64) -> Result<(), AllocError>
    ensures ok { OnOk result (out.new.items ≡ out.old.items
        ++ line_text (codes "loaded" ∷ decimal good ∷ codes "refused" ∷ decimal refused ∷ [])) }
    ensures err { OnErr result (take (length out.old.items) out.new.items ≡ out.old.items) }
{
    let mut first = Buffer::new();
    let mut second = Buffer::new();
    append_line(
        out,
        b"loaded",
        &[
            first.format(good).as_bytes(),
            b"refused",
            second.format(refused).as_bytes(),
        ],
    )
}

/// Appends the line of an output that is up to date. An `Err` may leave a part of it.
fn append_output(out: &mut Vec<u8>, id: u128, version: u64, reads: Reads) -> Result<(), AllocError>
    ensures ok { OnOk result (out.new.items ≡ out.old.items ++ line_text (id_text id ∷ decimal version ∷ reads_words reads)) }
    ensures err { OnErr result (take (length out.old.items) out.new.items ≡ out.old.items) }
{
    append_id(out, id)?;
    append_reads(out, version, reads)
}

/// Appends the end of the line of an output that is up to date. An `Err` may leave a part of it.
fn append_reads(out: &mut Vec<u8>, version: u64, reads: Reads) -> Result<(), AllocError>
    ensures ok { OnOk result (out.new.items ≡ out.old.items ++ line_text (decimal version ∷ reads_words reads)) }
    ensures err { OnErr result (take (length out.old.items) out.new.items ≡ out.old.items) }
{
    let mut text = Buffer::new();
    let mut first = Buffer::new();
    let text = text.format(version).as_bytes();
    let first = first.format(reads.first).as_bytes();
    match reads.second {
        None => append_line(out, text, &[first]),
        Some(second) => {
            let mut buffer = Buffer::new();
            append_line(out, text, &[first, buffer.format(second).as_bytes()])
        }
    }
}

/// Appends the line of an output that was refused. An `Err` may leave a part of it.
fn append_refused(out: &mut Vec<u8>, id: u128, reason: Reason) -> Result<(), AllocError>
    ensures ok { OnOk result (out.new.items ≡ out.old.items ++ line_text (id_text id ∷ codes "no" ∷ reason_words reason)) }
    ensures err { OnErr result (take (length out.old.items) out.new.items ≡ out.old.items) }
{
    append_id(out, id)?;
    append_reason(out, reason)
}

/// Appends the line of an output that the last round could not bring up to date. An `Err` may leave a part of it.
fn append_round(out: &mut Vec<u8>, id: u128, reason: Reason) -> Result<(), AllocError>
    ensures ok { OnOk result (out.new.items ≡ out.old.items
        ++ line_text (codes "materialize" ∷ id_text id ∷ codes "no" ∷ reason_words reason)) }
    ensures err { OnErr result (take (length out.old.items) out.new.items ≡ out.old.items) }
{
    append_word(out, b"materialize")?;
    append_refused(out, id, reason)
}

/// Appends the line of a store that is not empty. An `Err` may leave a part of it.
fn append_used(out: &mut Vec<u8>, entries: u64) -> Result<(), AllocError>
    ensures ok { OnOk result (out.new.items ≡ out.old.items ++ line_text (codes "no" ∷ codes "used" ∷ decimal entries ∷ [])) }
    ensures err { OnErr result (take (length out.old.items) out.new.items ≡ out.old.items) }
{
    let mut text = Buffer::new();
    append_line(out, b"no", &[b"used", text.format(entries).as_bytes()])
}

/// Appends the line of a version of a stream. An `Err` may leave a part of it.
fn append_summary(out: &mut Vec<u8>, id: u128, version: u64, agg: &Agg) -> Result<(), AllocError>
    ensures ok { OnOk result (out.new.items ≡ out.old.items ++ line_text (id_text id ∷ decimal version ∷ agg_words agg.now)) }
    ensures err { OnErr result (take (length out.old.items) out.new.items ≡ out.old.items) }
{
    let mut text = Buffer::new();
    append_id(out, id)?;
    append_agg(out, text.format(version).as_bytes(), agg)
}

/// Appends an id and a space. An `Err` may leave a part of it.
fn append_id(out: &mut Vec<u8>, id: u128) -> Result<(), AllocError>
    ensures ok { OnOk result (out.new.items ≡ out.old.items ++ (id_text id ++ SPACE ∷ [])) }
    ensures err { OnErr result (take (length out.old.items) out.new.items ≡ out.old.items) }
{
    let mut buffer = Uuid::encode_buffer();
    append_word(out, id_text(id, &mut buffer).as_bytes())
}

/// Appends a number and a space. An `Err` may leave a part of it.
fn append_number(out: &mut Vec<u8>, number: u64) -> Result<(), AllocError>
    ensures ok { OnOk result (out.new.items ≡ out.old.items ++ (decimal number ++ SPACE ∷ [])) }
    ensures err { OnErr result (take (length out.old.items) out.new.items ≡ out.old.items) }
{
    let mut buffer = Buffer::new();
    append_word(out, buffer.format(number).as_bytes())
}

/// Appends a number with a colon, and a space. An `Err` may leave a part of it.
fn append_mark(out: &mut Vec<u8>, number: u64) -> Result<(), AllocError>
    ensures ok { OnOk result (out.new.items ≡ out.old.items ++ (marked number ++ SPACE ∷ [])) }
    ensures err { OnErr result (take (length out.old.items) out.new.items ≡ out.old.items) }
{
    let mut buffer = Buffer::new();
    out.extend_from_slice(buffer.format(number).as_bytes())?;
    append_word(out, b":")
}

/// Appends a word and a space. An `Err` may leave a part of it.
fn append_word(out: &mut Vec<u8>, word: &[u8]) -> Result<(), AllocError>
    ensures ok { OnOk result (out.new.items ≡ out.old.items ++ (word.now ++ SPACE ∷ [])) }
    ensures err { OnErr result (take (length out.old.items) out.new.items ≡ out.old.items) }
{
    out.extend_from_slice(word)?;
    out.push(b' ')?;
    Ok(())
}
