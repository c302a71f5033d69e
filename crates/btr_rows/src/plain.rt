ghost use Rattle.std.specs.Prelude.{◌≡◌, ◌≢◌, ◌≤◌, ◌<◌, ◌==◌, ◌-◌, ◌^◌, ℕ, pos, true, Some, IfSome};
ghost use Rattle.std.specs.Prelude.{List, ◌∷◌, length, take, drop, slice_index};
ghost use Rattle.std.specs.List.{prefix_len};
ghost use Rattle.std.specs.Char.{is_ascii_digit};
ghost use Rattle.btr_base.specs.Decimal.{number_up_to, signed_of};
ghost use Rattle.btr_rows.specs.Field.{row_id_of};
ghost use Rattle.btr_rows.specs.Row.{row_of};
ghost use Rattle.btr_rows.specs.Rows.{records_of};
ghost use Rattle.btr_rows.specs.Reading.{ends_field, ends_line, field_size};

use crate::field::read_id;
use crate::ids::{ID_LENGTH, KnownIds};
use crate::record::row_from;
use crate::row::{Row, RowReason};
use btr_base::{MINUS, negative, read_signed_decimal};

/// The byte between two fields.
pub const COMMA: u8 = b',';

/// The bytes that end a line.
pub const CARRIAGE_RETURN: u8 = b'\r';

pub const LINE_FEED: u8 = b'\n';

/// The byte around a field in quotes.
const QUOTE: u8 = b'"';

/// The first byte of a byte order mark.
const MARK: u8 = 0xEF;

/// A number to which one more digit can be added: ten times it, and 9, is within `i64`.
const MOST_BEFORE_DIGIT: u64 = 922337203685477579;

/// Reads the first record of a text, if it has three fields and none of them begins with a quote. Returns what it says, and
/// the text from the end of its line on. A text that may begin with a byte order mark is not read.
pub fn plain_row<'a>(
    text: &'a [u8],
    known: &mut KnownIds,
) -> Option<(Result<Row, RowReason>, &'a [u8])>
    ensures row { IfSome result (λ r. (fields : List (List ℕ)) × (r.0 ≡ row_of fields)
        × (records_of text.now ≡ fields ∷ records_of r.1.now)) }
    ensures shorter { IfSome result (λ r. length r.1.now < length text.now) }
{
    if begins_with(text, MARK) {
        return None;
    }
    let (id, rest) = id_field(after_line_ends(text), known)?;
    let (time, rest) = number_field(after_comma(rest)?)?;
    let (value, rest) = number_field(after_comma(rest)?)?;
    if begins_with(rest, COMMA) {
        return None;
    }
    Some((row_from(id, time, value), rest))
}

/// Reads the id that a text begins with, up to the end of its first field. Returns `None` if the text begins with a quote.
fn id_field<'a>(text: &'a [u8], known: &mut KnownIds) -> Option<(Option<u128>, &'a [u8])>
    ensures quote { IfSome result (λ r. slice_index text.now 0 ≢ QUOTE) }
    ensures value { IfSome result (λ r. r.0 ≡ row_id_of (take (field_size text.now) text.now)) }
    ensures rest { IfSome result (λ r. r.1.now ≡ drop (field_size text.now) text.now) }
{
    if let Some((id, rest)) = usual_id(text, known) {
        return Some((Some(id), rest));
    }
    if begins_with(text, QUOTE) {
        return None;
    }
    let (field, rest) = text.split_at(field_length(text));
    Some((read_id(field), rest))
}

/// Reads the id that a text begins with, if it is in its usual form and a comma follows it.
fn usual_id<'a>(text: &'a [u8], known: &mut KnownIds) -> Option<(u128, &'a [u8])>
    ensures quote { IfSome result (λ r. slice_index text.now 0 ≢ QUOTE) }
    ensures value { IfSome result (λ r. row_id_of (take (field_size text.now) text.now) ≡ Some r.0) }
    ensures rest { IfSome result (λ r. r.1.now ≡ drop (field_size text.now) text.now) }
{
    let (front, rest) = text.split_first_chunk::<ID_LENGTH>()?;
    if !begins_with(rest, COMMA) {
        return None;
    }
    Some((known.read(front)?, rest))
}

/// Reads the number that a text begins with, up to the end of its first field. Returns `None` if the text begins with a quote.
fn number_field(text: &[u8]) -> Option<(Option<i64>, &[u8])>
    ensures quote { IfSome result (λ r. slice_index text.now 0 ≢ QUOTE) }
    ensures value { IfSome result (λ r. r.0 ≡ signed_of (take (field_size text.now) text.now)) }
    ensures rest { IfSome result (λ r. r.1.now ≡ drop (field_size text.now) text.now) }
{
    if begins_with(text, QUOTE) {
        return None;
    }
    if let Some((number, rest)) = short_number(text) {
        return Some((Some(number), rest));
    }
    let (field, rest) = text.split_at(field_length(text));
    Some((read_signed_decimal(field), rest))
}

/// Reads the number that a text begins with, if it is within `i64` by a good margin and another byte ends its field.
fn short_number(text: &[u8]) -> Option<(i64, &[u8])>
    ensures value { IfSome result (λ r. Some r.0 ≡ signed_of (take (field_size text.now) text.now)) }
    ensures rest { IfSome result (λ r. r.1.now ≡ drop (field_size text.now) text.now) }
{
    match text.split_first() {
        Some((first, digits)) if *first == MINUS => {
            let (number, rest) = short_digits(digits)?;
            Some((negative(number), rest))
        }
        _ => {
            let (number, rest) = short_digits(text)?;
            Some((positive(number), rest))
        }
    }
}

/// Returns `size`.
fn positive(size: u64) -> i64
    requires { size < 2 ^ 63 }
    ensures { result ≡ pos size }
{
    size as i64
}

/// Reads the digits that a text begins with, if there is one and a byte that ends a field follows them.
fn short_digits(text: &[u8]) -> Option<(u64, &[u8])>
    ensures value { IfSome result (λ r. (most : ℕ) → 2 ^ 63 - 1 ≤ most
        → number_up_to most (take (field_size text.now) text.now) ≡ Some r.0) }
    ensures bound { IfSome result (λ r. r.0 ≤ 2 ^ 63 - 1) }
    ensures digit { IfSome result (λ r. is_ascii_digit (slice_index text.now 0) ≡ true) }
    ensures rest { IfSome result (λ r. r.1.now ≡ drop (field_size text.now) text.now) }
{
    let mut number = 0;
    for (index, byte) in text.iter().enumerate() {
        if !byte.is_ascii_digit() {
            if index == 0 || !ends_field(*byte) {
                return None;
            }
            let (_, rest) = text.split_at(index);
            return Some((number, rest));
        }
        if number > MOST_BEFORE_DIGIT {
            return None;
        }
        number = number * 10 + (*byte - b'0') as u64;
    }
    None
}

/// Returns whether a text begins with this byte.
fn begins_with(text: &[u8], byte: u8) -> bool
    requires { 0 < byte }
    ensures { result ≡ (slice_index text.now 0 == byte) }
{
    match text.first() {
        Some(first) => *first == byte,
        None => false,
    }
}

/// Returns the text after a comma at its start.
fn after_comma(text: &[u8]) -> Option<&[u8]>
    ensures { IfSome result (λ rest. text.now ≡ COMMA ∷ rest.now) }
{
    match text.split_first() {
        Some((first, rest)) if *first == COMMA => Some(rest),
        _ => None,
    }
}

/// Returns the text without the line ends at its start.
fn after_line_ends(text: &[u8]) -> &[u8]
    ensures rest { result.now ≡ drop (prefix_len ends_line text.now) text.now }
    ensures shorter { length result.now ≤ length text.now }
{
    let (_, rest) = text.split_at(line_ends(text));
    rest
}

/// Returns the number of line ends at the start of a text.
fn line_ends(text: &[u8]) -> usize
    ensures count { result ≡ prefix_len ends_line text.now }
    ensures within { result ≤ length text.now }
{
    for (index, byte) in text.iter().enumerate() {
        if *byte != CARRIAGE_RETURN && *byte != LINE_FEED {
            return index;
        }
    }
    text.len()
}

/// Returns the number of bytes before the end of the first field.
fn field_length(text: &[u8]) -> usize
    ensures size { result ≡ field_size text.now }
    ensures within { result ≤ length text.now }
{
    for (index, byte) in text.iter().enumerate() {
        if ends_field(*byte) {
            return index;
        }
    }
    text.len()
}

/// Returns whether a byte ends a field without quotes.
fn ends_field(byte: u8) -> bool
    ensures { result ≡ ends_field byte }
{
    byte == COMMA || byte == CARRIAGE_RETURN || byte == LINE_FEED
}
