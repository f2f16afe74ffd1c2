ghost use Rattle.std.specs.Prelude.{◌≡◌, ◌%◌, ◌^◌};
ghost use Rattle.least_tree.specs.Keys.{key};

const WORD: u128 = 18_446_744_073_709_551_616;

/// Two numbers as one. Such keys are in order of the first, and those of one first in order of the second.
#[inline(always)]
pub fn key(first: u64, second: u64) -> u128
    ensures { result ≡ key first second }
{
    u128::from(first) * WORD + u128::from(second)
}

/// The second of the two.
#[inline(always)]
pub fn second(key: u128) -> u64
    ensures { result ≡ key % 2 ^ 64 }
{
    (key % WORD) as u64
}
