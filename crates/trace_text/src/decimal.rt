//! Numbers in decimal, most of which have few digits.

ghost use Rattle.std.specs.Prelude.{◌≡◌, ◌<◌, ◌≤◌, length, take, Some, IfSome};
ghost use Rattle.net_base.specs.Number.{number_up_to};
ghost use Rattle.trace_text.specs.Views.{digits_value};

use net_base::read_number;

// Every number of so many digits fits 64 bits.
const DIGITS_FIT: usize = 19;

/// The number that a word spells in decimal, without a sign and without a leading zero.
#[inline(always)]
pub(crate) fn read_decimal(word: &[u8], most: u64) -> Option<u64>
    ensures { result ≡ number_up_to most word.now }
{
    if word.len() <= DIGITS_FIT {
        decimal_of(word, digits_value(word)?, most)
    } else {
        read_number(word, most)
    }
}

/// The same of digits, by the number that they spell.
#[inline(always)]
pub(crate) fn decimal_of(digits: &[u8], value: u64, most: u64) -> Option<u64>
    requires { digits_value digits.now ≡ Some value }
    ensures { result ≡ number_up_to most digits.now }
{
    match digits {
        [] | [b'0', _, ..] => None,
        _ if value <= most => Some(value),
        _ => None,
    }
}

#[inline(always)]
fn digits_value(digits: &[u8]) -> Option<u64>
    requires { length digits.now < 20 }
    ensures { result ≡ digits_value digits.now }
{
    let mut value: u64 = 0;
    for digit in digits {
        if !digit.is_ascii_digit() {
            return None;
        }
        value = value * 10 + u64::from(*digit - b'0');
    }
    Some(value)
}

/// How many digits stand at the front, at most 20, and the number that they spell. None where it has no room.
pub(crate) fn digits_at(bytes: &[u8]) -> Option<(usize, u64)>
    ensures within { IfSome result (λ found. found.0 ≤ length bytes.now) }
    ensures value { IfSome result (λ found. digits_value (take found.0 bytes.now) ≡ Some found.1) }
{
    let (count, value) = front_number(bytes);
    if count < DIGITS_FIT {
        return Some((count, value));
    }
    with_next(bytes, count, value)
}

// The digits at the front, up to 19, and the number that they spell.
fn front_number(bytes: &[u8]) -> (usize, u64)
    ensures within { result.0 ≤ length bytes.now }
    ensures value { digits_value (take result.0 bytes.now) ≡ Some result.1 }
{
    let count = bytes.len().min(DIGITS_FIT);
    let mut value: u64 = 0;
    for i in 0..count {
        let digit = bytes[i];
        if !digit.is_ascii_digit() {
            return (i, value);
        }
        value = value * 10 + u64::from(digit - b'0');
    }
    (count, value)
}

// The same with one digit more, if one follows. None where its number has no room.
fn with_next(bytes: &[u8], count: usize, value: u64) -> Option<(usize, u64)>
    requires within { count ≤ length bytes.now }
    requires value { digits_value (take count bytes.now) ≡ Some value }
    ensures within { IfSome result (λ found. found.0 ≤ length bytes.now) }
    ensures value { IfSome result (λ found. digits_value (take found.0 bytes.now) ≡ Some found.1) }
{
    match &bytes[count..] {
        [digit, ..] if digit.is_ascii_digit() => {
            let value = value
                .checked_mul(10)?
                .checked_add(u64::from(*digit - b'0'))?;
            Some((count + 1, value))
        }
        _ => Some((count, value)),
    }
}
