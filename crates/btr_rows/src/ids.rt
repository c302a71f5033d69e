//! The ids that rows begin with. Most rows repeat the id of a row shortly before them, and it takes less time to compare its text
//! than to read it.
ghost use Rattle.std.specs.Prelude.{◌≡◌, ◌+◌, ◌<◌, ◌≤◌, nat_lt, true, Some, IfSome};
ghost use Rattle.std.specs.List.{list_all};
ghost use Rattle.btr_rows.specs.declared.plain.TheConstants.{COMMA};
ghost use Rattle.btr_rows.specs.Field.{row_id_of};

use crate::field::read_id;
use crate::plain::COMMA;

/// The number of bytes of an id in its usual form: 32 digits and 4 hyphens.
pub const ID_LENGTH: usize = 36;

/// The number of places for known ids.
const PLACES: usize = 256;

/// 2^64 divided by the golden ratio, for Fibonacci hashing: words that follow each other get places far from each other.
const GOLDEN: u64 = 0x9E3779B97F4A7C15;

/// The text of an id, and the id.
#[derive(Clone, Copy)]
struct KnownId {
    text: [u8; ID_LENGTH],
    id: u128,
    ghost is_id: { row_id_of text ≡ Some id },
    ghost is_above: { list_all (λ b. nat_lt COMMA b) text ≡ true },
}

/// Ids that were read, with their texts, in about 20 KB. A text has one place, at which a later one replaces it.
#[derive(Drop)]
pub struct KnownIds {
    places: [Option<KnownId>; PLACES],
}

impl KnownIds {
    /// Returns a table without an id.
    pub fn new() -> KnownIds {
        KnownIds {
            places: [None; PLACES],
        }
    }

    /// Reads an id of which all bytes are greater than a comma. It is not read again if its text is known.
    pub fn read(&mut self, text: &[u8; ID_LENGTH]) -> Option<u128>
        ensures id { IfSome result (λ id. row_id_of text.now ≡ Some id) }
        ensures above { IfSome result (λ _. list_all (λ b. nat_lt COMMA b) text.now ≡ true) }
    {
        let place = place_of(text);
        if let Some(known) = &self.places[place] {
            if known.text == *text {
                return Some(known.id);
            }
        }
        let known = known_id(text)?;
        self.places[place] = Some(known);
        Some(known.id)
    }
}

/// Reads an id of which all bytes are greater than a comma.
fn known_id(text: &[u8; ID_LENGTH]) -> Option<KnownId>
    ensures { IfSome result (λ k. k.text ≡ text.now) }
{
    if !are_above_comma(text) {
        return None;
    }
    let id = read_id(text)?;
    Some(KnownId { text: *text, id })
}

/// Returns whether all bytes are greater than a comma, as digits, letters and hyphens are. It reads all of them, so that the
/// compiler can compare many at once.
fn are_above_comma(bytes: &[u8]) -> bool
    ensures { result ≡ list_all (λ b. nat_lt COMMA b) bytes.now }
{
    let mut all = true;
    for byte in bytes {
        all &= *byte > COMMA;
    }
    all
}

/// Returns the place of a text, by its first and its last bytes.
fn place_of(text: &[u8; ID_LENGTH]) -> usize
    ensures { result < PLACES }
{
    let mixed = word_at(text, 0) ^ word_at(text, ID_LENGTH - 8);
    (mixed.wrapping_mul(GOLDEN) >> 56) as usize
}

/// Returns eight bytes from the index `at` on, as a number.
fn word_at(text: &[u8; ID_LENGTH], at: usize) -> u64
    requires { at + 8 ≤ ID_LENGTH }
{
    let mut word = [0; 8];
    word.copy_from_slice(&text[at..at + 8]);
    u64::from_be_bytes(word)
}
