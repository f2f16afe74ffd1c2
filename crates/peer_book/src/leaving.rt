ghost use Rattle.std.specs.Prelude.{◌≡◌, is_some, slice_get, IfOk};
ghost use Rattle.net_base.specs.declared.address.Addr.{Addr};
ghost use Rattle.peer_book.specs.Addresses.{has_address};
ghost use Rattle.peer_book.specs.Leaving.{others_than};
ghost use Rattle.peer_book.specs.Order.{IsRising, found_at};

use crate::merge::in_order;
use crate::newcomers::note;
use crate::place::place_of;
use net_base::{Addr, OutOfMemory, Peer};
use std::alloc::{AllocError, Global};
use std::collections::BTreeSet;

// Some addresses in order, none twice.
pub fn gathered(alloc: Global, addrs: &[Addr]) -> Result<Vec<Addr>, OutOfMemory>
    ensures rising { IfOk result (λ list. IsRising (λ a. a) list.items) }
    ensures same { IfOk result (λ list. (addr : Addr) → has_address addr list.items ≡ has_address addr addrs.now) }
{
    let mut sorted = BTreeSet::new(alloc);
    for addr in addrs {
        note(&mut sorted, *addr)?;
    }
    Ok(in_order(alloc, &sorted)?)
}

// The peers at other addresses than some.
pub fn others_than(alloc: Global, peers: &[Peer], addrs: &[Addr]) -> Result<Vec<Peer>, AllocError>
    requires { IsRising (λ a. a) addrs.now }
    ensures { IfOk result (λ left. left.items ≡ others_than addrs.now peers.now) }
{
    peers
        .iter()
        .filter(|peer| !has(addrs, peer.addr))
        .copied()
        .collect(alloc)
}

// Whether an address is one of some in order.
fn has(addrs: &[Addr], addr: Addr) -> bool
    requires { IsRising (λ a. a) addrs.now }
    ensures { result ≡ has_address addr addrs.now }
{
    is_at(addrs, place_of(addrs, &addr), addr)
}

// Whether an address stands at a place.
fn is_at(addrs: &[Addr], place: usize, addr: Addr) -> bool
    ensures { result ≡ is_some (found_at (λ a. a) addr (slice_get addrs.now place)) }
{
    match addrs.get(place) {
        Some(other) => other.is_same(&addr),
        None => false,
    }
}
