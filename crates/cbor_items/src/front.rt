//! What stands at the front of bytes, with the bytes behind it.

ghost use Rattle.std.specs.Prelude.{◌≡◌};
ghost use Rattle.cbor_items.specs.Front.{Finds, any_head_at, definite_at, number_at};

use crate::initial::NUMBER;
use crate::{Head, read_head};

/// Nothing of the kind stands at the front of the bytes.
#[derive(Clone, Copy, PartialEq, Eq)]
pub struct Absent;

/// The head at the front of the bytes (RFC 8949, section 3), and the bytes behind it.
pub fn split_head(bytes: &[u8]) -> Result<(Head, &[u8]), Absent>
    ensures { Finds (λ read. (read.0, read.1.now)) result (any_head_at bytes.now) }
{
    match read_head(bytes) {
        Some(head) => {
            let (_, rest) = bytes.split_at(head.size);
            Ok((head, rest))
        }
        None => Err(Absent),
    }
}

/// The value of a definite head of a major type, and the bytes behind it.
#[inline(always)]
pub fn split_definite(major: u8, bytes: &[u8]) -> Result<(u64, &[u8]), Absent>
    ensures { Finds (λ read. (read.0, read.1.now)) result (definite_at major bytes.now) }
{
    match bytes {
        [initial, rest @ ..] if *initial % 32 < 24 => {
            if *initial / 32 == major {
                Ok((u64::from(*initial % 32), rest))
            } else {
                Err(Absent)
            }
        }
        _ => split_any_definite(major, bytes),
    }
}

// The same, however many bytes the head has.
#[inline(never)]
#[tactic(auto, unfolding(crate::specs::Front::definite_at))]
fn split_any_definite(major: u8, bytes: &[u8]) -> Result<(u64, &[u8]), Absent>
    ensures { Finds (λ read. (read.0, read.1.now)) result (definite_at major bytes.now) }
{
    let (head, rest) = split_head(bytes)?;
    if head.major == major && !head.indefinite {
        Ok((head.value, rest))
    } else {
        Err(Absent)
    }
}

/// The unsigned number (RFC 8949, section 3.1, major type 0) at the front of the bytes, and the bytes behind it.
#[inline(always)]
pub fn split_number(bytes: &[u8]) -> Result<(u64, &[u8]), Absent>
    ensures { Finds (λ read. (read.0, read.1.now)) result (number_at bytes.now) }
{
    split_definite(NUMBER, bytes)
}
