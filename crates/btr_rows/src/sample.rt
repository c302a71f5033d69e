ghost use Rattle.std.specs.Prelude.{◌≡◌, ◌+◌, ◌<◌, ◌^◌, ◌++◌, ◌≤◌, ℕ, [], ◌∷◌, length, OnOk, IfOk};
ghost use Rattle.btr_rows.specs.Sample.{row_id_text, instant_rows, next_state, sample_row, sample_text, sample_time, sample_value};
ghost use Rattle.btr_rows.specs.Sample.{state_at};

use crate::plain::{COMMA, LINE_FEED};
use itoa::Buffer;
use std::alloc::{AllocError, Global};
use uuid::Uuid;

/// Writes the rows of a sample, as CSV text that [`read_rows`] reads: `points` rows for each of `streams` streams. It takes time and
/// memory linear in the text, up to 75 bytes for each row. An `Err` means out of memory.
///
/// The streams have the ids 1, 2 and so on. A point is at 10^9 ns for the first instant and 1,000 ns later for each next one, and up to
/// 999 ns after that; its value is from -1,000 to 1,000. A linear congruential generator that begins with `number` gives both. The
/// rows of an instant follow each other, one for each stream.
///
/// [`read_rows`]: crate::read_rows
pub fn sample_csv(
    alloc: Global,
    number: u32,
    streams: u32,
    points: u32,
) -> Result<Vec<u8>, AllocError>
    ensures { IfOk result (λ text. text.items ≡ sample_text number streams points) }
{
    let mut out = Vec::new(alloc);
    let mut state = u64::from(number);
    for instant in 0..points {
        state = append_instant(&mut out, streams, instant, state)?;
    }
    Ok(out)
}

/// Appends the rows of an instant, and returns the state of the generator after them. An `Err` may leave a part of them.
fn append_instant(
    out: &mut Vec<u8>,
    streams: u32,
    instant: u32,
    state: u64,
) -> Result<u64, AllocError>
    requires { state < 2 ^ 32 }
    ensures bound { IfOk result (λ next. next < 2 ^ 32) }
    ensures state { (number n : ℕ) → state ≡ state_at number n → IfOk result (λ next. next ≡ state_at number (n + streams)) }
    ensures rows { (number n : ℕ) → state ≡ state_at number n
        → OnOk result (out.new.items ≡ out.old.items ++ instant_rows number streams instant n) }
{
    let mut state = state;
    for stream in 0..streams {
        state = next_state(state);
        append_row(out, stream, instant, state / 65536)?;
    }
    Ok(state)
}

/// Returns the state of the generator after `state`.
fn next_state(state: u64) -> u64
    requires { state < 2 ^ 32 }
    ensures value { result ≡ next_state state }
    ensures bound { result < 2 ^ 32 }
{
    (1103515245 * state + 12345) % (1 << 31)
}

/// Appends a row of a stream. An `Err` may leave a part of it.
fn append_row(out: &mut Vec<u8>, stream: u32, instant: u32, drawn: u64) -> Result<(), AllocError>
    ensures { OnOk result (out.new.items ≡ out.old.items ++ sample_row stream instant drawn) }
{
    let mut id = Uuid::encode_buffer();
    let mut time = Buffer::new();
    let mut value = Buffer::new();
    append_field(
        out,
        id_text(u128::from(stream) + 1, &mut id).as_bytes(),
        COMMA,
    )?;
    append_field(
        out,
        time.format(sample_time(instant, drawn)).as_bytes(),
        COMMA,
    )?;
    append_field(out, value.format(sample_value(drawn)).as_bytes(), LINE_FEED)
}

/// Appends a field and the byte after it. An `Err` may leave a part of them.
fn append_field(out: &mut Vec<u8>, field: &[u8], end: u8) -> Result<(), AllocError>
    ensures { OnOk result (out.new.items ≡ out.old.items ++ field.now ++ end ∷ []) }
{
    out.extend_from_slice(field)?;
    out.push(end)?;
    Ok(())
}

/// Returns the time of a point, in nanoseconds.
fn sample_time(instant: u32, drawn: u64) -> u64
    ensures { result ≡ sample_time instant drawn }
{
    1_000_000_000 + 1000 * u64::from(instant) + drawn % 1000
}

/// Returns the value of a point.
fn sample_value(drawn: u64) -> i64
    ensures { result ≡ sample_value drawn }
{
    (drawn % 2001) as i64 - 1000
}

/// Writes the text of an id into the buffer: hyphenated, in lower case.
fn id_text(id: u128, buffer: &mut [u8]) -> &str
    requires { 36 ≤ length buffer.old }
    ensures { result.now ≡ row_id_text id }
{
    Uuid::from_u128(id).hyphenated().encode_lower(buffer)
}
