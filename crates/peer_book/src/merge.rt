ghost use Rattle.std.specs.Prelude.{◌≡◌, IfOk};
ghost use Rattle.peer_book.specs.Book.{listed_at, new_peer};
ghost use Rattle.peer_book.specs.Newcomers.{with_all_new, AreNew};
ghost use Rattle.peer_book.specs.Order.{IsRising};

use crate::place::place_among;
use net_base::{Addr, Peer, Temp};
use std::alloc::{AllocError, Global};
use std::collections::BTreeSet;

// A peer of which nothing is known yet.
pub fn fresh(addr: Addr, big: bool) -> Peer
    ensures { result ≡ new_peer big addr }
{
    Peer {
        addr,
        big,
        temp: Temp::Cold,
        failures: 0,
        not_before: 0,
        share_next: 0,
    }
}

// The peers with a new one at each of some addresses.
pub fn merged(
    alloc: Global,
    peers: &[Peer],
    addrs: &[Addr],
    big: bool,
) -> Result<Vec<Peer>, AllocError>
    requires rising { IsRising (λ p. p.addr) peers.now }
    requires new { AreNew addrs.now peers.now }
    ensures { IfOk result (λ all. all.items ≡ with_all_new big addrs.now peers.now) }
{
    let mut all = Vec::with_capacity(alloc, peers.len() + addrs.len())?;
    let mut rest = peers;
    for addr in addrs {
        let (below, above) = rest.split_at(place_among(rest, addr));
        all.extend_from_slice(below)?;
        all.push(fresh(*addr, big))?;
        rest = above;
    }
    all.extend_from_slice(rest)?;
    Ok(all)
}

// The addresses of those of a temperature.
pub fn row_at(alloc: Global, peers: &[Peer], temp: Temp) -> Result<Vec<Addr>, AllocError>
    ensures { IfOk result (λ row. row.items ≡ listed_at temp peers.now) }
{
    peers
        .iter()
        .filter(|p| p.temp == temp)
        .map(|p| p.addr)
        .collect(alloc)
}

// The addresses of a set.
pub fn in_order(alloc: Global, addrs: &BTreeSet<Addr>) -> Result<Vec<Addr>, AllocError>
    ensures { IfOk result (λ list. list.items ≡ addrs.now.keys) }
{
    addrs.iter().copied().collect(alloc)
}
