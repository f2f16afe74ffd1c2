ghost use Rattle.std.specs.Prelude.{◌<◌};

use rand_core::SeedableRng;
use rand_core::utils::NextWord;
use rand_pcg::Pcg64;

/// Whatever is left to chance.
#[derive(Drop)]
pub(crate) struct Draws {
    generator: Pcg64,
}

impl Draws {
    pub(crate) fn new(seed: u64) -> Draws {
        Draws {
            generator: Pcg64::seed_from_u64(seed),
        }
    }

    pub(crate) fn word(&mut self) -> u64 {
        self.generator.next_word()
    }

    /// A number below another one.
    pub(crate) fn below(&mut self, bound: u64) -> u64
        requires { 0 < bound }
        ensures { result < bound }
    {
        self.word() % bound
    }

    /// A number from one to another.
    pub(crate) fn between(&mut self, least: u64, most: u64) -> u64 {
        match most.saturating_sub(least).checked_add(1) {
            Some(span) => least.saturating_add(self.below(span)),
            None => self.word(),
        }
    }

    /// True in so many of a thousand draws.
    pub(crate) fn chance(&mut self, share: u64) -> bool {
        share > 0 && self.below(1_000) < share
    }

    /// A place in a list of so many, where it has any.
    pub(crate) fn place(&mut self, count: usize) -> Option<usize> {
        if count == 0 {
            return None;
        }
        Some(self.below(count as u64) as usize)
    }
}
