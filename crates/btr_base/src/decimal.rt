//! Whole numbers as decimal text.
ghost use Rattle.std.specs.Prelude.{◌≡◌, ◌≤◌, ◌^◌, pos, neg_ℤ, IfSome};
ghost use Rattle.btr_base.specs.Decimal.{number_up_to, signed_of, next_number};

/// The byte before the digits of a number below 0.
pub const MINUS: u8 = b'-';

/// Reads a whole number from 0 to `most`: decimal digits and nothing else; zeros may lead. Returns `None` if the text has no
/// digit or another byte, or if the number is above `most`. It takes time linear in the text, and no memory.
pub fn read_decimal(text: &[u8], most: u64) -> Option<u64>
    ensures number { result ≡ number_up_to most text.now }
    ensures within { IfSome result (λ n. n ≤ most) }
{
    if text.is_empty() {
        return None;
    }
    let mut number = 0;
    for digit in text {
        number = next_number(number, *digit, most)?;
    }
    Some(number)
}

/// Returns the number with one more digit. Returns `None` if the byte is no digit or the result is above `most`.
fn next_number(number: u64, digit: u8, most: u64) -> Option<u64>
    ensures { result ≡ next_number number digit most }
{
    if !digit.is_ascii_digit() {
        return None;
    }
    let next = number.checked_mul(10)?.checked_add((digit - b'0') as u64)?;
    if next > most {
        return None;
    }
    Some(next)
}

/// Reads a whole number within `i64`: decimal digits, with or without a minus in front; no plus. Returns `None` if the text is
/// anything else or the number is outside `i64`. It takes time linear in the text, and no memory.
pub fn read_signed_decimal(text: &[u8]) -> Option<i64>
    ensures { result ≡ signed_of text.now }
{
    let (first, rest) = text.split_first()?;
    if *first == MINUS {
        Some(negative(read_decimal(rest, 1 << 63)?))
    } else {
        Some(read_decimal(text, i64::MAX as u64)? as i64)
    }
}

/// Returns minus `size`.
pub fn negative(size: u64) -> i64
    requires { size ≤ 2 ^ 63 }
    ensures { result ≡ neg_ℤ (pos size) }
{
    if size == 1 << 63 {
        i64::MIN
    } else {
        -(size as i64)
    }
}
