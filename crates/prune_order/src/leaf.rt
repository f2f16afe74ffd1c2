ghost use Rattle.std.specs.Prelude.{◌≡◌, ◌≤◌, ◌<◌, length, IfSome};
ghost use Rattle.std.specs.List.{prefix_len};
ghost use Rattle.prune_order.specs.Kept.{AreRising, IsOfWord};
ghost use Rattle.prune_order.specs.Numbers.{number_in};
ghost use Rattle.prune_order.specs.Leaves.{standing_by, is_there};
ghost use Rattle.timer_queue.specs.Timers.{cid_below};

use least_tree::NONE;
use net_base::Cid;
use timer_queue::place_from;

// How a connection that came stands.
#[derive(Clone, Copy, PartialEq, Eq)]
pub enum Standing {
    Gone,
    // It may not be pruned.
    Kept,
    // By its rank.
    MayGo(u8),
}

// A connection that came.
#[derive(Clone, Copy, PartialEq, Eq)]
pub struct Leaf {
    pub cid: Cid,
    pub standing: Standing,
}

// How one stands that has a rank or none.
pub fn standing_by(rank: Option<u8>) -> Standing
    ensures { result ≡ standing_by rank }
{
    match rank {
        Some(rank) => Standing::MayGo(rank),
        None => Standing::Kept,
    }
}

// Whether it has not gone.
pub fn is_there(leaf: &Leaf) -> bool
    ensures { result ≡ is_there leaf.now.standing }
{
    match leaf.standing {
        Standing::Gone => false,
        Standing::Kept | Standing::MayGo(_) => true,
    }
}

// Its rank as a number, where it may go.
pub fn number_in(leaf: &Leaf) -> u128
    ensures value { result ≡ number_in leaf.now }
    ensures word { IsOfWord leaf.now }
{
    match leaf.standing {
        Standing::Gone | Standing::Kept => NONE,
        Standing::MayGo(rank) => u128::from(rank),
    }
}

// How many have a lower id.
pub fn place_of(leaves: &[Leaf], cid: Cid) -> usize
    requires { AreRising leaves.now }
    ensures value { result ≡ prefix_len (λ l. cid_below l.cid cid) leaves.now }
    ensures bound { result ≤ length leaves.now }
{
    match place_by_last(leaves, cid) {
        Some(place) => place,
        None => leaves.partition_point(|leaf| leaf.cid < cid),
    }
}

// The same of an id that has a leaf, where each id between it and the last one has.
fn place_by_last(leaves: &[Leaf], cid: Cid) -> Option<usize>
    requires { AreRising leaves.now }
    ensures { IfSome result (λ place. place ≡ prefix_len (λ l. cid_below l.cid cid) leaves.now × place < length leaves.now) }
{
    let last = leaves.last()?;
    let place = place_from(leaves.len(), last.cid, cid)?;
    let leaf = leaves.get(place)?;
    if leaf.cid == cid { Some(place) } else { None }
}
