ghost use Rattle.std.specs.Prelude.{◌≡◌, ℕ, ◌≤◌, map, IfOk};
ghost use Rattle.std.specs.List.{IsDistinct};
ghost use Rattle.net_base.specs.Address.{same_address};
ghost use Rattle.net_base.specs.declared.address.Addr.{Addr};
ghost use Rattle.pick_policy.specs.Ordered.{scored_under};
ghost use Rattle.pick_policy.specs.Picks.{picked};
ghost use Rattle.pick_policy.specs.Scores.{score_of};

use crate::scored::{Scored, least};
use crate::short_list::{FEW, ShortList};
use net_base::{Addr, AddrList, OutOfMemory};
use std::alloc::{AllocError, Global};

/// A closure that scores an address under a word.
pub type Score = Box<dyn Fn(Addr, u64) -> u64>;

/// Picks by a score that a closure gives: the key of the address plus a word, wrapping at 64 bits.
#[derive(Drop)]
pub struct Picker {
    score: Score,
    ghost callable: { Score.IsAlwaysCallable score },
    ghost scoring: { (addr : Addr) (word given : ℕ) → Score.post score addr word given → given ≡ score_of word addr },
}

impl Picker {
    /// Takes no memory.
    pub fn new(score: Score) -> Picker
        requires callable { Score.IsAlwaysCallable score }
        requires scoring { (addr : Addr) (word given : ℕ) → Score.post score addr word given → given ≡ score_of word addr }
    {
        Picker { score }
    }

    /// The `k` candidates of least score under the word, the least first; of one score those of least address.
    /// All of them where there are fewer.
    pub fn pick(
        &self,
        alloc: Global,
        cands: &[Addr],
        k: usize,
        word: u64,
    ) -> Result<AddrList, OutOfMemory>
        requires { IsDistinct same_address cands.now }
        ensures { IfOk result (λ picks. picks ≡ picked cands.now k word) }
    {
        if k == 0 {
            return Ok(AddrList::new(alloc));
        }
        if k <= FEW && k < cands.len() / 4 {
            return self.pick_few(alloc, cands, k, word);
        }
        let mut scored = self.scores(alloc, cands, word)?;
        least(alloc, &mut scored, k)
    }

    fn pick_few(
        &self,
        alloc: Global,
        cands: &[Addr],
        k: usize,
        word: u64,
    ) -> Result<AddrList, OutOfMemory>
        requires few { k ≤ 32 }
        requires distinct { IsDistinct same_address cands.now }
        ensures { IfOk result (λ picks. picks ≡ picked cands.now k word) }
    {
        let mut list = ShortList::new(alloc, k)?;
        for addr in cands {
            list.offer(self.scored(*addr, word))?;
        }
        list.addresses(alloc)
    }

    fn scores(&self, alloc: Global, cands: &[Addr], word: u64) -> Result<Vec<Scored>, AllocError>
        ensures { IfOk result (λ scored. scored.items ≡ map (scored_under word) cands.now) }
    {
        let mut scored = Vec::with_capacity(alloc, cands.len())?;
        for addr in cands {
            scored.push(self.scored(*addr, word))?;
        }
        Ok(scored)
    }

    fn scored(&self, addr: Addr, word: u64) -> Scored
        ensures { result ≡ scored_under word addr }
    {
        Scored {
            score: (self.score)(addr, word),
            addr,
        }
    }
}
