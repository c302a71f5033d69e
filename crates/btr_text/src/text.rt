ghost use Rattle.std.specs.Prelude.{◌≡◌, [], ◌∷◌, ◌++◌, length, take, map, flat_map, codes, decimal, OnOk, OnErr};
ghost use Rattle.std.specs.List.{join_with_byte};
ghost use Rattle.btr_text.specs.Text.{text, line_text, ok_text, held_text, id_text, reason_words};

use crate::reply::{LineReply, Reason};
use crate::row::{append_rows, id_text, row_count};
use crate::word::{LINE_FEED, SPACE};
use btr_base::{MAX_STREAMS, MAX_VERSIONS};
use itoa::{Buffer, Integer};
use std::alloc::AllocError;
use uuid::Uuid;

/// Appends the text of a reply to `out`. It takes time linear in the text, and the memory that `out` needs to grow.
/// An `Err` means out of memory, and leaves `out` as it was.
///
/// A reply is `ok VERSION ROWS` and its rows, `held COUNT`, `held TICKET`, or `no WORD` with numbers, or with an id and a number. A row is
/// `TIME VALUE` for a point, `START COUNT SUM LEAST GREATEST` for a window, `FROM TO` for a changed range, and `ID LATEST KIND` for a
/// stream. All points of a version have the row `KIND COUNT SUM [LEAST GREATEST]`, and those of a version that was computed from others a
/// second row `reads VERSION [VERSION]`, the versions of the inputs. A kind is `plain` or `output`. Each line ends with a line feed, and
/// one space separates two words. Numbers are plain decimal. An id is hyphenated and in lower case (RFC 9562).
pub fn write_reply(reply: &LineReply, out: &mut Vec<u8>) -> Result<(), AllocError>
    ensures ok { OnOk result (out.new.items ≡ out.old.items ++ text reply.now) }
    ensures err { OnErr result (out.new.items ≡ out.old.items) }
{
    let before = out.len();
    let done = append_reply(reply, out);
    if done.is_err() {
        out.truncate(before);
    }
    done
}

/// Appends the text of a reply. An `Err` may leave a part of it.
fn append_reply(reply: &LineReply, out: &mut Vec<u8>) -> Result<(), AllocError>
    ensures ok { OnOk result (out.new.items ≡ out.old.items ++ text reply.now) }
    ensures err { OnErr result (take (length out.old.items) out.new.items ≡ out.old.items) }
{
    match reply {
        LineReply::Done { version } => append_ok(out, *version, 0),
        LineReply::Held { count } => append_held(out, u64::from(*count)),
        LineReply::Ticket { ticket } => append_held(out, *ticket),
        LineReply::Found { version, rows } => {
            append_ok(out, *version, row_count(rows))?;
            append_rows(out, rows)
        }
        LineReply::No(reason) => append_reason(out, *reason),
    }
}

/// Appends the first line of a reply that is no refusal. An `Err` may leave a part of it.
fn append_ok(out: &mut Vec<u8>, version: u64, rows: usize) -> Result<(), AllocError>
    ensures ok { OnOk result (out.new.items ≡ out.old.items ++ ok_text version rows) }
    ensures err { OnErr result (take (length out.old.items) out.new.items ≡ out.old.items) }
{
    let mut first = Buffer::new();
    let mut second = Buffer::new();
    append_line(
        out,
        b"ok",
        &[
            first.format(version).as_bytes(),
            second.format(rows).as_bytes(),
        ],
    )
}

/// Appends the line of points that wait: their number, or their ticket. An `Err` may leave a part of it.
fn append_held(out: &mut Vec<u8>, number: u64) -> Result<(), AllocError>
    ensures ok { OnOk result (out.new.items ≡ out.old.items ++ held_text number) }
    ensures err { OnErr result (take (length out.old.items) out.new.items ≡ out.old.items) }
{
    let mut text = Buffer::new();
    append_line(out, b"held", &[text.format(number).as_bytes()])
}

/// Appends the line of a refusal: `no`, a word and numbers. It takes time linear in the line. An `Err` means out of memory, and may
/// leave a part of the line.
pub fn append_reason(out: &mut Vec<u8>, reason: Reason) -> Result<(), AllocError>
    ensures ok { OnOk result (out.new.items ≡ out.old.items ++ line_text (codes "no" ∷ reason_words reason)) }
    ensures err { OnErr result (take (length out.old.items) out.new.items ≡ out.old.items) }
{
    match reason {
        Reason::Line => append_refusal(out, b"line"),
        Reason::Stream => append_refusal(out, b"stream"),
        Reason::Range => append_refusal(out, b"range"),
        Reason::Version { asked, latest } => append_refusal2(out, b"version", asked, latest),
        Reason::Retired { asked, first } => append_refusal2(out, b"retired", asked, first),
        Reason::Exists => append_refusal(out, b"exists"),
        Reason::Output => append_refusal(out, b"output"),
        Reason::Plain => append_refusal(out, b"plain"),
        Reason::Domain { time } => append_refusal1(out, b"domain", time),
        Reason::Empty => append_refusal(out, b"empty"),
        Reason::Many { count } => append_refusal1(out, b"many", count),
        Reason::Streams => append_refusal1(out, b"streams", MAX_STREAMS),
        Reason::Versions => append_refusal1(out, b"versions", MAX_VERSIONS),
        Reason::Spec => append_refusal(out, b"spec"),
        Reason::First {
            first,
            present,
            latest,
        } => append_first(out, first, present, latest),
        Reason::Held { id, version } => append_holder(out, id, version),
        Reason::Crowded { start } => append_refusal1(out, b"crowded", start),
        Reason::Points { count } => append_refusal1(out, b"points", count),
        Reason::Memory => append_refusal(out, b"memory"),
        Reason::Full { need, left } => append_refusal2(out, b"full", need, left),
        Reason::Device => append_refusal(out, b"device"),
        Reason::Damaged { block } => append_refusal1(out, b"damaged", block),
        Reason::Stopped { entries } => append_refusal1(out, b"stopped", entries),
        Reason::Sealed => append_refusal(out, b"sealed"),
        Reason::Superseded { version } => append_refusal1(out, b"superseded", version),
        Reason::Group => append_refusal(out, b"group"),
        Reason::Busy => append_refusal(out, b"busy"),
        Reason::Spent => append_refusal(out, b"spent"),
    }
}

/// Appends a refusal of one word. An `Err` may leave a part of it.
fn append_refusal(out: &mut Vec<u8>, word: &[u8]) -> Result<(), AllocError>
    ensures ok { OnOk result (out.new.items ≡ out.old.items ++ line_text (codes "no" ∷ word.now ∷ [])) }
    ensures err { OnErr result (take (length out.old.items) out.new.items ≡ out.old.items) }
{
    append_line(out, b"no", &[word])
}

/// Appends a refusal of a word and a number. An `Err` may leave a part of it.
fn append_refusal1<I: Integer>(out: &mut Vec<u8>, word: &[u8], number: I) -> Result<(), AllocError>
    ensures ok { OnOk result (out.new.items ≡ out.old.items ++ line_text (codes "no" ∷ word.now ∷ I.text number ∷ [])) }
    ensures err { OnErr result (take (length out.old.items) out.new.items ≡ out.old.items) }
{
    let mut text = Buffer::new();
    append_line(out, b"no", &[word, text.format(number).as_bytes()])
}

/// Appends a refusal of a word and two numbers. An `Err` may leave a part of it.
fn append_refusal2(out: &mut Vec<u8>, word: &[u8], a: u64, b: u64) -> Result<(), AllocError>
    ensures ok { OnOk result (out.new.items ≡ out.old.items ++ line_text (codes "no" ∷ word.now ∷ decimal a ∷ decimal b ∷ [])) }
    ensures err { OnErr result (take (length out.old.items) out.new.items ≡ out.old.items) }
{
    let mut first = Buffer::new();
    let mut second = Buffer::new();
    append_line(
        out,
        b"no",
        &[
            word,
            first.format(a).as_bytes(),
            second.format(b).as_bytes(),
        ],
    )
}

/// Appends the refusal of a retirement whose first version is not allowed. An `Err` may leave a part of it.
fn append_first(out: &mut Vec<u8>, first: u64, present: u64, latest: u64) -> Result<(), AllocError>
    ensures ok { OnOk result (out.new.items
        ≡ out.old.items ++ line_text (codes "no" ∷ codes "first" ∷ decimal first ∷ decimal present ∷ decimal latest ∷ [])) }
    ensures err { OnErr result (take (length out.old.items) out.new.items ≡ out.old.items) }
{
    let mut a = Buffer::new();
    let mut b = Buffer::new();
    let mut c = Buffer::new();
    append_line(
        out,
        b"no",
        &[
            b"first",
            a.format(first).as_bytes(),
            b.format(present).as_bytes(),
            c.format(latest).as_bytes(),
        ],
    )
}

/// Appends the refusal of a retirement of the version that an output has read last: the id of the output, and the version. An `Err`
/// may leave a part of it.
fn append_holder(out: &mut Vec<u8>, id: u128, version: u64) -> Result<(), AllocError>
    ensures ok { OnOk result (out.new.items
        ≡ out.old.items ++ line_text (codes "no" ∷ codes "held" ∷ id_text id ∷ decimal version ∷ [])) }
    ensures err { OnErr result (take (length out.old.items) out.new.items ≡ out.old.items) }
{
    let mut buffer = Uuid::encode_buffer();
    let mut text = Buffer::new();
    append_line(
        out,
        b"no",
        &[
            b"held",
            id_text(id, &mut buffer).as_bytes(),
            text.format(version).as_bytes(),
        ],
    )
}

/// Appends a line: words with one space between each two, then a line feed. It takes time linear in the line. An `Err` means out of
/// memory, and may leave a part of the line.
pub fn append_line(out: &mut Vec<u8>, first: &[u8], rest: &[&[u8]]) -> Result<(), AllocError>
    ensures ok { OnOk result (out.new.items ≡ out.old.items ++ line_text (first.now ∷ map (λ w. w.now) rest.now)) }
    ensures err { OnErr result (take (length out.old.items) out.new.items ≡ out.old.items) }
{
    out.extend_from_slice(first)?;
    append_words(out, rest)?;
    out.push(LINE_FEED)?;
    Ok(())
}

/// Appends a space and a word for each of these words. An `Err` may leave a part of them.
fn append_words(out: &mut Vec<u8>, words: &[&[u8]]) -> Result<(), AllocError>
    ensures ok { OnOk result (out.new.items ≡ out.old.items ++ flat_map (λ w. SPACE ∷ w.now) words.now) }
    ensures err { OnErr result (take (length out.old.items) out.new.items ≡ out.old.items) }
{
    for word in words {
        append_word(out, word)?;
    }
    Ok(())
}

/// Appends a space and a word. An `Err` may leave a part of it.
fn append_word(out: &mut Vec<u8>, word: &[u8]) -> Result<(), AllocError>
    ensures ok { OnOk result (out.new.items ≡ out.old.items ++ SPACE ∷ word.now) }
    ensures err { OnErr result (take (length out.old.items) out.new.items ≡ out.old.items) }
{
    out.push(SPACE)?;
    out.extend_from_slice(word)
}
