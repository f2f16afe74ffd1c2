ghost use Rattle.std.specs.Prelude.{◌≡◌, ◌<◌, ◌++◌, ◌∷◌, [], length, option_map};
ghost use Rattle.cbor_items.specs.Front.{whole};
ghost use Rattle.warm_messages.specs.Reading.{numbers_at};

use crate::array::open_array;
use cbor_items::split_number;
use std::marker::Model;

// No message has an array of more numbers.
const MOST: usize = 8;

/// A few numbers. Contracts see the list of them.
#[derive(Drop)]
pub(crate) struct Numbers {
    items: [u64; MOST],
    count: usize,
}

impl Model for Numbers {
    ghost use Rattle.std.specs.Prelude.{List, ℕ, ◌≤◌, take};

    ghost Value = { List ℕ };

    ghost view = { λ n. take n.count n.items };

    ghost invariant = { λ n. n.count ≤ 8 };
}

impl Numbers {
    fn new() -> Self
        ensures { result ≡ [] }
    {
        Numbers {
            items: [0; MOST],
            count: 0,
        }
    }

    fn push(&mut self, number: u64)
        requires { length self.old < 8 }
        ensures { self.new ≡ self.old ++ number ∷ [] }
    {
        self.items[self.count] = number;
        self.count += 1;
    }

    pub(crate) fn as_slice(&self) -> &[u64]
        ensures { result.now ≡ self.now }
    {
        &self.items[..self.count]
    }
}

/// The numbers of the array at the front of the bytes, where they are eight at most, and the bytes behind it.
#[tactic(auto, unfolding(crate::specs::Reading::numbers_at))]
pub(crate) fn split_numbers(bytes: &[u8]) -> Option<(Numbers, &[u8])>
    ensures { numbers_at bytes.now ≡ option_map (λ read. (read.0, read.1.now)) result }
{
    let (length, mut rest) = open_array(bytes)?;
    let mut numbers = Numbers::new();
    for count in 0..MOST {
        if let Some(behind) = length.end(count as u64, rest) {
            return Some((numbers, behind));
        }
        let (number, after) = split_number(rest).ok()?;
        numbers.push(number);
        rest = after;
    }
    let behind = length.end(MOST as u64, rest)?;
    Some((numbers, behind))
}

/// The numbers of the array that the bytes are.
pub(crate) fn only_numbers(bytes: &[u8]) -> Option<Numbers>
    ensures { result ≡ whole (numbers_at bytes.now) }
{
    let (numbers, rest) = split_numbers(bytes)?;
    rest.is_empty().then_some(numbers)
}
