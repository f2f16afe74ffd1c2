ghost use Rattle.std.specs.Prelude.{◌≡◌, ◌+◌, ◌*◌, ◌-◌, ◌<◌, ◌≤◌, IsTrue, IfSome, IfNone, true};
ghost use Rattle.net_base.specs.Number.{is_digit, number_up_to, digits_up_to};

/// The number that a word spells in decimal, without a sign and without a leading zero.
pub fn read_number(word: &[u8], most: u64) -> Option<u64>
    ensures { result ≡ number_up_to most word.now }
{
    match word {
        [] => None,
        [b'0', _, ..] => None,
        _ => digits_value(word, most),
    }
}

// The value of digits, where it is at most a number.
fn digits_value(digits: &[u8], most: u64) -> Option<u64>
    ensures { result ≡ digits_up_to most digits.now }
{
    let mut value: u64 = 0;
    for digit in digits {
        match next_value(value, *digit, most) {
            Some(next) => value = next,
            None => return None,
        }
    }
    Some(value)
}

// The value with one more digit behind it.
fn next_value(value: u64, digit: u8, most: u64) -> Option<u64>
    ensures digit { IfSome result (λ n. is_digit digit ≡ true) }
    ensures value { IfSome result (λ n. n ≡ value * 10 + (digit - 48)) }
    ensures within { IfSome result (λ n. n ≤ most) }
    ensures none { IfNone result (is_digit digit ≡ true → most < value * 10 + (digit - 48)) }
{
    if !digit.is_ascii_digit() {
        return None;
    }
    let next = u128::from(value) * 10 + u128::from(digit - b'0');
    if next > u128::from(most) {
        return None;
    }
    Some(next as u64)
}
