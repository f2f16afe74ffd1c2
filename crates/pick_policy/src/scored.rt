ghost use Rattle.std.specs.Prelude.{◌≡◌, map, length, IfOk};
ghost use Rattle.std.specs.List.{IsDistinct};
ghost use Rattle.net_base.specs.Address.{same_address};
ghost use Rattle.pick_policy.specs.Least.{least_by};
ghost use Rattle.pick_policy.specs.Ordered.{scored_below};

use net_base::{Addr, AddrList, OutOfMemory};
use std::alloc::{AllocError, Global};

// A candidate by its score. Ordered by the score and then the address.
#[derive(Clone, Copy, PartialEq, Eq, PartialOrd, Ord)]
pub struct Scored {
    pub score: u64,
    pub addr: Addr,
}

impl Scored {
    pub fn is_before(&self, other: &Scored) -> bool
        ensures { result ≡ scored_below self.now other.now }
    {
        // what the derived comparison says too, in fewer instructions
        self.score < other.score || (self.score == other.score && self.addr.is_before(&other.addr))
    }
}

// The addresses of the least k. Where there are more, the others are only set apart, and not sorted.
pub fn least(alloc: Global, scored: &mut [Scored], k: usize) -> Result<AddrList, OutOfMemory>
    requires { IsDistinct same_address (map (λ s. s.addr) scored.old) }
    ensures { IfOk result (λ picks. picks ≡ map (λ s. s.addr) (least_by scored_below k scored.old)) }
{
    if k < scored.len() {
        let (front, _, _) = scored.select_nth_unstable(k);
        return in_order(alloc, front);
    }
    in_order(alloc, scored)
}

// The addresses of all, the least first.
fn in_order(alloc: Global, scored: &mut [Scored]) -> Result<AddrList, OutOfMemory>
    requires { IsDistinct same_address (map (λ s. s.addr) scored.old) }
    ensures { IfOk result (λ picks. picks ≡ map (λ s. s.addr) (least_by scored_below (length scored.old) scored.old)) }
{
    scored.sort_unstable();
    Ok(AddrList::from_vec(addresses(alloc, scored)?))
}

pub fn addresses(alloc: Global, scored: &[Scored]) -> Result<Vec<Addr>, AllocError>
    ensures { IfOk result (λ picks. picks.items ≡ map (λ s. s.addr) scored.now) }
{
    scored.iter().map(|s| s.addr).collect(alloc)
}
