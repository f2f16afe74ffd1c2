//! Bytes and their digits in lower case. No loop here has a way out or a table, so a compiler may take many at once.

ghost use Rattle.std.specs.Prelude.{◌≡◌, ◌*◌, ◌<◌, length, true, Some, Ok, slice_index};
ghost use Rattle.std.specs.List.{list_all};
ghost use Rattle.hex.specs.Hex.{decode_pairs, encode_lower, hex_digit_value, lower_digits};
ghost use Rattle.trace_text.specs.Events.{is_lower_digit};

/// Whether all of these are digits in lower case.
pub(crate) fn are_lower_digits(word: &[u8]) -> bool
    ensures { result ≡ list_all is_lower_digit word.now }
{
    let mut lower = true;
    for digit in word {
        lower &= is_lower_digit(*digit);
    }
    lower
}

pub(crate) fn is_lower_digit(digit: u8) -> bool
    ensures { result ≡ is_lower_digit digit }
{
    matches!(digit, b'0'..=b'9' | b'a'..=b'f')
}

/// The bytes that digits spell.
pub(crate) fn decode_lower(digits: &[u8], bytes: &mut [u8])
    requires twice { length digits.now ≡ 2 * length bytes.old }
    requires lower { list_all is_lower_digit digits.now ≡ true }
    ensures { decode_pairs 0 digits.now ≡ Ok bytes.new }
{
    'bytes: for i in 0..bytes.len() {
        bytes[i] = digit_value(digits[2 * i]) * 16 + digit_value(digits[2 * i + 1]);
    }
}

// A letter has a bit above the low six, and a decimal digit has none.
fn digit_value(digit: u8) -> u8
    requires { is_lower_digit digit ≡ true }
    ensures value { hex_digit_value digit ≡ Some result }
    ensures within { result < 16 }
{
    digit % 16 + digit / 64 * 9
}

/// The digits of bytes.
pub(crate) fn encode_lower(bytes: &[u8], digits: &mut [u8])
    requires twice { length digits.old ≡ 2 * length bytes.now }
    ensures { digits.new ≡ encode_lower bytes.now }
{
    'bytes: for i in 0..bytes.len() {
        digits[2 * i] = lower_digit(bytes[i] / 16);
        digits[2 * i + 1] = lower_digit(bytes[i] % 16);
    }
}

fn lower_digit(value: u8) -> u8
    requires { value < 16 }
    ensures { result ≡ slice_index lower_digits value }
{
    if value < 10 {
        b'0' + value
    } else {
        b'a' - 10 + value
    }
}
