ghost use Rattle.std.specs.Prelude.{◌≡◌, ℕ, ◌≤◌, true, List, [], ◌∷◌, ◌++◌, length, map, IfOk, OnOk};
ghost use Rattle.pick_policy.specs.Kept.{HasLeast, AreWithOther, IsFullBelow, place_of, with_one};
ghost use Rattle.pick_policy.specs.declared.scored.Scored.{Scored};

use crate::scored::{Scored, addresses};
use net_base::{AddrList, OutOfMemory};
use std::alloc::{AllocError, Global};

// How many are picked from a short list at most, where the candidates are four times as many. More would enter a longer one,
// and each would move more of it.
pub const FEW: usize = 32;

// The least of those that came, the least first, and at most so many.
#[derive(Drop)]
pub struct ShortList {
    least: Vec<Scored>,
    most: usize,
}

impl ShortList {
    pub fn new(alloc: Global, most: usize) -> Result<ShortList, AllocError>
        requires { most ≤ 32 }
        ensures { IfOk result (λ list. HasLeast most [] list) }
    {
        // one more stands there until the last is dropped
        let least = Vec::with_capacity(alloc, most + 1)?;
        Ok(ShortList { least, most })
    }

    // One more comes. The last is looked at first, since most that come are above it.
    #[inline(always)]
    pub fn offer(&mut self, scored: Scored) -> Result<(), AllocError>
        ensures { (k : ℕ) (came : List Scored) → AreWithOther scored came → HasLeast k came self.old
            → OnOk result (HasLeast k (came ++ scored ∷ []) self.new) }
    {
        if self.is_full_below(&scored) {
            return Ok(());
        }
        self.insert(scored)
    }

    #[inline(always)]
    fn is_full_below(&self, scored: &Scored) -> bool
        ensures { result ≡ true → IsFullBelow scored.now self.now }
    {
        match self.least.last() {
            Some(last) => self.least.len() == self.most && last.is_before(scored),
            None => false,
        }
    }

    fn insert(&mut self, scored: Scored) -> Result<(), AllocError>
        ensures most { self.new.most ≡ self.old.most }
        ensures least { OnOk result (self.new.least.items ≡ with_one self.old.most scored self.old.least.items) }
    {
        let place = self.place_of(&scored);
        self.least.insert(place, scored)?;
        self.least.truncate(self.most);
        Ok(())
    }

    // How many stand before the first that is not below it.
    fn place_of(&self, scored: &Scored) -> usize
        ensures value { result ≡ place_of scored.now self.now.least.items }
        ensures bound { result ≤ length self.now.least.items }
    {
        let above = self.least.iter().position(|kept| !kept.is_before(scored));
        above.unwrap_or(self.least.len())
    }

    pub fn addresses(&self, alloc: Global) -> Result<AddrList, OutOfMemory>
        ensures { IfOk result (λ picks. picks ≡ map (λ s. s.addr) self.now.least.items) }
    {
        Ok(AddrList::from_vec(addresses(alloc, &self.least)?))
    }
}
