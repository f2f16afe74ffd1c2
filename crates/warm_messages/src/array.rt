ghost use Rattle.std.specs.Prelude.{◌≡◌, ◌++◌, length, IfSome, OnOk, option_map};
ghost use Rattle.warm_messages.specs.Reading.{behind_break, opening_at, ending_at};
ghost use Rattle.warm_messages.specs.Writing.{written_number, written_numbers, written_opening};

use cbor_items::{ARRAY, BREAK, NUMBER, split_head, write_head};
use net_base::{Octets, OutOfMemory};

/// How many elements an array has.
#[derive(Clone, Copy, PartialEq, Eq)]
pub(crate) enum Length {
    /// As many as its head says.
    Of(u64),
    /// As many as stand before a break.
    ToBreak,
}

impl Length {
    /// The bytes behind the array, where it ends after so many elements.
    pub(crate) fn end(self, count: u64, bytes: &[u8]) -> Option<&[u8]>
        ensures { ending_at self count bytes.now ≡ option_map (λ rest. rest.now) result }
    {
        match self {
            Length::Of(number) => (number == count).then_some(bytes),
            Length::ToBreak => behind_break(bytes),
        }
    }
}

fn behind_break(bytes: &[u8]) -> Option<&[u8]>
    ensures { behind_break bytes.now ≡ option_map (λ rest. rest.now) result }
{
    match bytes {
        [BREAK, rest @ ..] => Some(rest),
        _ => None,
    }
}

/// The length of the array at the front of the bytes, and the bytes behind its head.
#[tactic(auto, unfolding(crate::specs::Reading::opening_at))]
pub(crate) fn open_array(bytes: &[u8]) -> Option<(Length, &[u8])>
    ensures { opening_at bytes.now ≡ option_map (λ read. (read.0, read.1.now)) result }
{
    let (head, rest) = split_head(bytes).ok()?;
    if head.major != ARRAY {
        return None;
    }
    let length = if head.indefinite {
        Length::ToBreak
    } else {
        Length::Of(head.value)
    };
    Some((length, rest))
}

pub(crate) fn write_opening(out: &mut Octets, count: u64) -> Result<(), OutOfMemory>
    ensures { OnOk result (out.new ≡ out.old ++ written_opening count) }
{
    write_head(out, ARRAY, count)
}

pub(crate) fn write_number(out: &mut Octets, number: u64) -> Result<(), OutOfMemory>
    ensures { OnOk result (out.new ≡ out.old ++ written_number number) }
{
    write_head(out, NUMBER, number)
}

/// Appends an array of numbers.
pub(crate) fn write_numbers(out: &mut Octets, numbers: &[u64]) -> Result<(), OutOfMemory>
    ensures { OnOk result (out.new ≡ out.old ++ written_numbers numbers.now) }
{
    write_opening(out, numbers.len() as u64)?;
    for number in numbers {
        write_number(out, *number)?;
    }
    Ok(())
}
