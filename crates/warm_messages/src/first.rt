ghost use Rattle.std.specs.Prelude.{◌≡◌, ℕ, MatchOption};
ghost use Rattle.cbor_items.specs.Item.{IsItem, level_limit};
ghost use Rattle.warm_messages.specs.First.{HasFirstNumber, first_number_of, item_number_of};

use crate::array::open_array;
use cbor_items::{Scan, first_item, split_number};

/// The first element of the item that the bytes are, all of them. None exactly where they are no whole item, or one that is no
/// array, definite or indefinite, whose first element is an unsigned number.
#[tactic(auto, unfolding(crate::specs::First::first_number_of))]
pub fn first_number(bytes: &[u8]) -> Option<u64>
    ensures value { result ≡ first_number_of bytes.now }
    ensures spelled { MatchOption result ((n : ℕ) → HasFirstNumber n bytes.now → ⊥) (λ n. HasFirstNumber n bytes.now) }
{
    if first_item(bytes) != Scan::Whole(bytes.len()) {
        return None;
    }
    item_number(bytes)
}

/// The first element of an item that is known to be whole, as those are that a cutter gives. It is not scanned: what stands behind
/// the first element is not looked at.
#[tactic(auto, unfolding(crate::specs::First::item_number_of))]
pub fn item_number(item: &[u8]) -> Option<u64>
    ensures value { result ≡ item_number_of item.now }
    ensures spelled { IsItem level_limit item.now → MatchOption result ((n : ℕ) → HasFirstNumber n item.now → ⊥) (λ n. HasFirstNumber n item.now) }
{
    let (_, rest) = open_array(item)?;
    let (number, _) = split_number(rest).ok()?;
    Some(number)
}
