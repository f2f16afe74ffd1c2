ghost use Rattle.std.specs.Prelude.{◌≡◌};
ghost use Rattle.pick_policy.specs.Scores.{score_of, ranked_score_of};

use net_base::Addr;
use pick_policy::{Picker, RankedPicker};

/// What an engine picks by.
#[derive(Drop)]
pub struct Pickers {
    pub picker: Picker,
    pub ranked: RankedPicker,
}

/// The score of an address under a word.
pub fn score(addr: Addr, word: u64) -> u64
    ensures { result ≡ score_of word addr }
{
    addr.key().wrapping_add(word)
}

/// The score of an address that failed so often: the failures come first.
pub fn ranked_score(addr: Addr, failures: u64, word: u64) -> u64
    ensures { result ≡ ranked_score_of word failures addr }
{
    failures.min(65_535) * 281_474_976_710_656 + addr.key().wrapping_add(word) % 281_474_976_710_656
}
