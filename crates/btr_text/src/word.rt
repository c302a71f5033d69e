ghost use Rattle.std.specs.Prelude.{◌≡◌, ◌<◌, ◌≤◌, ◌==◌, not, [], ◌∷◌, length, MatchOption, IfSome};
ghost use Rattle.std.specs.List.{prefix_len};
ghost use Rattle.btr_text.specs.Word.{words_of, unsigned_of, power_of, toward_of, id_of, at_of, lane_of};

use btr_base::{Toward, read_decimal};
use btr_hist::At;
use uuid::Uuid;

/// The byte that ends a line.
pub const LINE_FEED: u8 = b'\n';

/// The byte that separates words.
pub const SPACE: u8 = b' ';

/// The byte before the number of a lane.
pub const LANE_MARK: u8 = b'@';

/// Returns the first word and the rest of the line after it, or `None` if the line has no word.
pub fn next_word(line: &[u8]) -> Option<(&[u8], &[u8])>
    ensures words { MatchOption result (words_of line.now ≡ []) (λ r. words_of line.now ≡ r.0.now ∷ words_of r.1.now) }
    ensures shorter { IfSome result (λ r. length r.1.now < length line.now) }
{
    let (_, line) = line.split_at(leading_spaces(line));
    let end = word_length(line);
    if end == 0 {
        return None;
    }
    Some(line.split_at(end))
}

/// Returns the number of spaces at the start of a line.
fn leading_spaces(line: &[u8]) -> usize
    ensures count { result ≡ prefix_len (λ b. b == SPACE) line.now }
    ensures within { result ≤ length line.now }
{
    for (index, byte) in line.iter().enumerate() {
        if *byte != SPACE {
            return index;
        }
    }
    line.len()
}

/// Returns the number of bytes before the first space.
fn word_length(line: &[u8]) -> usize
    ensures count { result ≡ prefix_len (λ b. not (b == SPACE)) line.now }
    ensures within { result ≤ length line.now }
{
    for (index, byte) in line.iter().enumerate() {
        if *byte == SPACE {
            return index;
        }
    }
    line.len()
}

/// Reads a number within `u64`: decimal digits and nothing else.
pub fn read_unsigned(word: &[u8]) -> Option<u64>
    ensures { result ≡ unsigned_of word.now }
{
    read_decimal(word, u64::MAX)
}

/// Reads the exponent of a power of two: decimal digits, at most 255.
pub fn read_power(word: &[u8]) -> Option<u8>
    ensures { result ≡ power_of word.now }
{
    Some(read_decimal(word, 255)? as u8)
}

/// Reads a direction: `next` is forward, `prev` is backward.
pub fn read_toward(word: &[u8]) -> Option<Toward>
    ensures { result ≡ toward_of word.now }
{
    if word == b"next".as_slice() {
        Some(Toward::Forward)
    } else if word == b"prev".as_slice() {
        Some(Toward::Backward)
    } else {
        None
    }
}

/// Reads the id of a stream: the text of a UUID in any of its forms (RFC 9562).
pub fn read_id(word: &[u8]) -> Option<u128>
    ensures { result ≡ id_of word.now }
{
    match Uuid::try_parse_ascii(word) {
        Ok(uuid) => Some(uuid.as_u128()),
        Err(_) => None,
    }
}

/// Reads a version: its number, or `latest`.
pub fn read_at(word: &[u8]) -> Option<At>
    ensures { result ≡ at_of word.now }
{
    if word == b"latest".as_slice() {
        return Some(At::Latest);
    }
    Some(At::Number(read_unsigned(word)?))
}

/// Reads the name of a lane: `@` and one digit from 0 to 7.
pub fn read_lane(word: &[u8]) -> Option<u8>
    ensures { result ≡ lane_of word.now }
{
    let (mark, number) = word.split_first()?;
    if *mark != LANE_MARK || number.len() != 1 {
        return None;
    }
    Some(read_decimal(number, 7)? as u8)
}
