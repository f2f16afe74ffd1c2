ghost use Rattle.std.specs.Prelude.{◌≡◌};
ghost use Rattle.net_base.specs.Number.{number_up_to};

use crate::decimal::read_decimal;

/// The magic that a word spells: a number of 32 bits.
pub fn read_magic(word: &[u8]) -> Option<u32>
    ensures { result ≡ number_up_to 4_294_967_295 word.now }
{
    u32::try_from(read_decimal(word, u64::from(u32::MAX))?).ok()
}
