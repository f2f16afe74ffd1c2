ghost use Rattle.std.specs.Prelude.{◌≡◌, ◌==◌, ◌<◌, ◌≤◌, ◌↔◌, true, [], ◌∷◌, position, length, Some, IsTrue, IfSome, IfNone};
ghost use Rattle.std.specs.List.{list_all};
ghost use Rattle.std.specs.Option.{option_map};
ghost use Rattle.trace_text.specs.Events.{is_lower_digit};
ghost use Rattle.trace_text.specs.Views.{digits_value, first_of};
ghost use Rattle.trace_text.specs.Words.{pieces_of, cut_at};

use crate::decimal::digits_at;
use crate::lower_hex::{are_lower_digits, is_lower_digit};
use memchr::memchr;
use std::marker::Model;

// Fewer bytes are looked at one after another, as `memchr` does too by a call of its own.
const MANY: usize = 32;

// Where there are more, so many of the first ones are looked at before `memchr` is called.
const NEAR: usize = 16;

/// What stands between the separators of some bytes, but for the pieces that were taken.
#[derive(Drop)]
pub struct Pieces<'a> {
    separator: u8,
    // nothing once the last piece was taken
    rest: Option<&'a [u8]>,
}

impl<'a> Model for Pieces<'a> {
    ghost use Rattle.std.specs.Prelude.{ℕ, List};
    ghost use Rattle.trace_text.specs.Views.{pieces_left};

    ghost Value = { List (List ℕ) };

    ghost view = { λ p. pieces_left p.separator p.rest };
}

impl<'a> Pieces<'a> {
    pub fn new(separator: u8, bytes: &'a [u8]) -> Self
        ensures { result ≡ pieces_of separator bytes.now }
    {
        Pieces {
            separator,
            rest: Some(bytes),
        }
    }

    pub fn is_empty(&self) -> bool
        ensures { IsTrue result ↔ (self.now ≡ []) }
    {
        self.rest.is_none()
    }

    /// The next piece, where one is left.
    pub fn first(&self) -> Option<&'a [u8]>
        ensures { option_map (λ piece. piece.now) result ≡ first_of self.now }
    {
        let bytes = self.rest?;
        match cut_once(bytes, self.separator) {
            None => Some(bytes),
            Some((piece, _)) => Some(piece),
        }
    }

    /// Takes the next piece, where one is left.
    pub fn take(&mut self) -> Option<&'a [u8]>
        ensures taken { IfSome result (λ piece. self.old ≡ piece.now ∷ self.new) }
        ensures none { IfNone result (self.old ≡ []) }
        ensures stays_empty { IfNone result (self.new ≡ []) }
    {
        let bytes = self.rest?;
        match cut_once(bytes, self.separator) {
            None => {
                self.rest = None;
                Some(bytes)
            }
            Some((piece, rest)) => {
                self.rest = Some(rest);
                Some(piece)
            }
        }
    }

    /// Takes the next piece where it is digits, with the number that they spell. None where it is not, or the number has no
    /// room, and where the separator is a digit.
    pub fn take_digits(&mut self) -> Option<(&'a [u8], u64)>
        ensures taken { IfSome result (λ found. self.old ≡ found.0.now ∷ self.new) }
        ensures value { IfSome result (λ found. digits_value found.0.now ≡ Some found.1) }
        ensures none { IfNone result (self.new ≡ self.old) }
    {
        let bytes = self.rest?;
        if self.separator.is_ascii_digit() {
            return None;
        }
        let (count, value) = digits_at(bytes)?;
        let (digits, rest) = bytes.split_at(count);
        match rest.split_first() {
            None => {
                self.rest = None;
                Some((digits, value))
            }
            Some((next, after)) if *next == self.separator => {
                self.rest = Some(after);
                Some((digits, value))
            }
            _ => None,
        }
    }

    /// Takes all that is left where it is digits of hexadecimal numbers in lower case, of which the separator is none.
    pub fn take_lower(&mut self) -> Option<&'a [u8]>
        ensures taken { IfSome result (λ digits. self.old ≡ digits.now ∷ []) }
        ensures lower { IfSome result (λ digits. list_all is_lower_digit digits.now ≡ true) }
        ensures left { IfSome result (λ digits. self.new ≡ []) }
        ensures none { IfNone result (self.new ≡ self.old) }
    {
        let bytes = self.rest?;
        if is_lower_digit(self.separator) || !are_lower_digits(bytes) {
            return None;
        }
        self.rest = None;
        Some(bytes)
    }
}

/// What stands before and after the first separator, where there is one.
#[inline(always)]
pub fn cut_once(bytes: &[u8], separator: u8) -> Option<(&[u8], &[u8])>
    ensures { option_map (λ parts. (parts.0.now, parts.1.now)) result ≡ cut_at separator bytes.now }
{
    let place = place_of(bytes, separator)?;
    Some((&bytes[..place], &bytes[place + 1..]))
}

fn place_of(bytes: &[u8], separator: u8) -> Option<usize>
    ensures value { result ≡ position (λ c. c == separator) bytes.now }
    ensures within { IfSome result (λ place. place < length bytes.now) }
{
    if bytes.len() < MANY {
        place_near(bytes, separator)
    } else {
        place_among_many(bytes, separator)
    }
}

fn place_near(bytes: &[u8], separator: u8) -> Option<usize>
    ensures value { result ≡ position (λ c. c == separator) bytes.now }
    ensures within { IfSome result (λ place. place < length bytes.now) }
{
    bytes.iter().position(|byte| *byte == separator)
}

// Most words are short, whatever stands behind them.
fn place_among_many(bytes: &[u8], separator: u8) -> Option<usize>
    requires { 16 ≤ length bytes.now }
    ensures value { result ≡ position (λ c. c == separator) bytes.now }
    ensures within { IfSome result (λ place. place < length bytes.now) }
{
    let (near, far) = bytes.split_at(NEAR);
    match place_near(near, separator) {
        Some(place) => Some(place),
        None => Some(NEAR + place_far(far, separator)?),
    }
}

fn place_far(bytes: &[u8], separator: u8) -> Option<usize>
    ensures value { result ≡ position (λ c. c == separator) bytes.now }
    ensures within { IfSome result (λ place. place < length bytes.now) }
{
    memchr(separator, bytes)
}
