//! The parts of a message at the front of bytes, each with the bytes behind it.

ghost use Rattle.std.specs.Prelude.{◌≡◌};
ghost use Rattle.cbor_items.specs.Front.{Finds};
ghost use Rattle.hs_message.specs.Reading.{definite_array_at, flag_at, bit_at, sharing_at, text_at, item_at, tag_at, noted_at};

use crate::tag::Tag;
use cbor_items::{
    ARRAY, Absent, FALSE, Scan, TEXT, TRUE, first_item, split_definite, split_number,
};

/// The bytes behind the head of a definite array of so many elements.
#[tactic(auto, unfolding(crate::specs::Reading::definite_array_at))]
pub(crate) fn split_array(count: u64, bytes: &[u8]) -> Result<&[u8], Absent>
    ensures { Finds (λ rest. rest.now) result (definite_array_at count bytes.now) }
{
    let (found, rest) = split_definite(ARRAY, bytes)?;
    if found == count {
        Ok(rest)
    } else {
        Err(Absent)
    }
}

/// The simple value true or false.
#[tactic(auto, unfolding(crate::specs::Reading::flag_at))]
pub(crate) fn split_flag(bytes: &[u8]) -> Result<(bool, &[u8]), Absent>
    ensures { Finds (λ read. (read.0, read.1.now)) result (flag_at bytes.now) }
{
    match bytes {
        [FALSE, rest @ ..] => Ok((false, rest)),
        [TRUE, rest @ ..] => Ok((true, rest)),
        _ => Err(Absent),
    }
}

/// The number 0 or 1.
#[tactic(auto, unfolding(crate::specs::Reading::bit_at))]
fn split_bit(bytes: &[u8]) -> Result<(bool, &[u8]), Absent>
    ensures { Finds (λ read. (read.0, read.1.now)) result (bit_at bytes.now) }
{
    let (number, rest) = split_number(bytes)?;
    match number {
        0 => Ok((false, rest)),
        1 => Ok((true, rest)),
        _ => Err(Absent),
    }
}

/// Whether a node takes part in peer sharing: a flag, or the number 0 or 1.
pub(crate) fn split_sharing(bytes: &[u8]) -> Result<(bool, &[u8]), Absent>
    ensures { Finds (λ read. (read.0, read.1.now)) result (sharing_at bytes.now) }
{
    match split_flag(bytes) {
        Ok(read) => Ok(read),
        Err(_) => split_bit(bytes),
    }
}

/// A definite text string.
#[tactic(auto, unfolding(crate::specs::Reading::text_at))]
fn split_text(bytes: &[u8]) -> Result<(&[u8], &[u8]), Absent>
    ensures { Finds (λ read. (read.0.now, read.1.now)) result (text_at bytes.now) }
{
    let (length, rest) = split_definite(TEXT, bytes)?;
    match usize::try_from(length) {
        Ok(length) if length <= rest.len() => Ok(rest.split_at(length)),
        _ => Err(Absent),
    }
}

/// Any one item.
pub(crate) fn split_item(bytes: &[u8]) -> Result<(&[u8], &[u8]), Absent>
    ensures { Finds (λ read. (read.0.now, read.1.now)) result (item_at bytes.now) }
{
    match first_item(bytes) {
        Scan::Whole(size) => Ok(bytes.split_at(size)),
        _ => Err(Absent),
    }
}

/// How a definite array begins whose first element is a number.
#[tactic(auto, unfolding(crate::specs::Reading::tag_at))]
pub(crate) fn split_tag(bytes: &[u8]) -> Result<(Tag, &[u8]), Absent>
    ensures { Finds (λ read. (read.0, read.1.now)) result (tag_at bytes.now) }
{
    let (elements, rest) = split_definite(ARRAY, bytes)?;
    let (number, rest) = split_number(rest)?;
    Ok((Tag { elements, number }, rest))
}

/// A version, and a text.
#[tactic(auto, unfolding(crate::specs::Reading::noted_at))]
pub(crate) fn split_noted(bytes: &[u8]) -> Result<((u64, &[u8]), &[u8]), Absent>
    ensures { Finds (λ read. ((read.0.0, read.0.1.now), read.1.now)) result (noted_at bytes.now) }
{
    let (version, rest) = split_number(bytes)?;
    let (text, rest) = split_text(rest)?;
    Ok(((version, text), rest))
}
