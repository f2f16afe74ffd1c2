ghost use Rattle.std.specs.Prelude.{◌≡◌, ℕ, ◌≤◌, map, IfOk};
ghost use Rattle.std.specs.List.{IsDistinct};
ghost use Rattle.net_base.specs.Address.{same_address};
ghost use Rattle.net_base.specs.declared.address.Addr.{Addr};
ghost use Rattle.pick_policy.specs.Ordered.{ranked_under};
ghost use Rattle.pick_policy.specs.Picks.{ranked};
ghost use Rattle.pick_policy.specs.Scores.{ranked_score_of};

use crate::Rated;
use crate::scored::{Scored, least};
use crate::short_list::{FEW, ShortList};
use net_base::{Addr, AddrList, OutOfMemory};
use std::alloc::{AllocError, Global};

/// A closure that rates an address and its failures under a word.
pub type RankedScore = Box<dyn Fn(Addr, u64, u64) -> u64>;

/// Picks by a score that a closure gives: the failures, at most 65,535 of them, and within them the key of the
/// address plus a word, wrapping at 48 bits.
#[derive(Drop)]
pub struct RankedPicker {
    score: RankedScore,
    ghost callable: { RankedScore.IsAlwaysCallable score },
    ghost scoring: { (addr : Addr) (failures word given : ℕ) → RankedScore.post score addr failures word given → given ≡ ranked_score_of word failures addr },
}

impl RankedPicker {
    /// Takes no memory.
    pub fn new(score: RankedScore) -> RankedPicker
        requires callable { RankedScore.IsAlwaysCallable score }
        requires scoring { (addr : Addr) (failures word given : ℕ) → RankedScore.post score addr failures word given → given ≡ ranked_score_of word failures addr }
    {
        RankedPicker { score }
    }

    /// The addresses of the `k` candidates of least score under the word, the least first; of one score those of
    /// least address.
    /// All of them where there are fewer.
    pub fn pick(
        &self,
        alloc: Global,
        cands: &[Rated],
        k: usize,
        word: u64,
    ) -> Result<AddrList, OutOfMemory>
        requires { IsDistinct same_address (map (λ r. r.addr) cands.now) }
        ensures { IfOk result (λ picks. picks ≡ ranked cands.now k word) }
    {
        if k == 0 {
            return Ok(AddrList::new(alloc));
        }
        if k <= FEW && k < cands.len() / 4 {
            return self.pick_few(alloc, cands, k, word);
        }
        let mut scored = self.scores(alloc, cands, word)?;
        least(alloc, &mut scored, k)
    }

    fn pick_few(
        &self,
        alloc: Global,
        cands: &[Rated],
        k: usize,
        word: u64,
    ) -> Result<AddrList, OutOfMemory>
        requires few { k ≤ 32 }
        requires distinct { IsDistinct same_address (map (λ r. r.addr) cands.now) }
        ensures { IfOk result (λ picks. picks ≡ ranked cands.now k word) }
    {
        let mut list = ShortList::new(alloc, k)?;
        for candidate in cands {
            list.offer(self.scored(*candidate, word))?;
        }
        list.addresses(alloc)
    }

    fn scores(&self, alloc: Global, cands: &[Rated], word: u64) -> Result<Vec<Scored>, AllocError>
        ensures { IfOk result (λ scored. scored.items ≡ map (ranked_under word) cands.now) }
    {
        let mut scored = Vec::with_capacity(alloc, cands.len())?;
        for rated in cands {
            scored.push(self.scored(*rated, word))?;
        }
        Ok(scored)
    }

    fn scored(&self, rated: Rated, word: u64) -> Scored
        ensures { result ≡ ranked_under word rated }
    {
        Scored {
            score: (self.score)(rated.addr, rated.failures, word),
            addr: rated.addr,
        }
    }
}
