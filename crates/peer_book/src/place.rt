ghost use Rattle.std.specs.Prelude.{◌≡◌, slice_get, Some, IsSome};
ghost use Rattle.std.specs.List.{prefix_len};
ghost use Rattle.net_base.specs.Address.{address_below};
ghost use Rattle.peer_book.specs.Book.{peer_at, Stands};
ghost use Rattle.peer_book.specs.Order.{IsRising, found_at};

use chunked_list::ChunkedList;
use net_base::{Addr, Peer};

// How many addresses of a rising list are below one. Here and below it is copied before the search: what is compared at each
// step then stands in registers.
pub fn place_of(addrs: &[Addr], addr: &Addr) -> usize
    requires { IsRising (λ a. a) addrs.now }
    ensures { result ≡ prefix_len (λ a. address_below a addr.now) addrs.now }
{
    let than = *addr;
    addrs.partition_point(|a| a.is_before(&than))
}

// The same of a list in chunks, where a place is tried first.
pub fn place_in(addrs: &ChunkedList<Addr>, near: usize, addr: &Addr) -> usize
    requires { IsRising (λ a. a) addrs.now }
    ensures { result ≡ prefix_len (λ a. address_below a addr.now) addrs.now }
{
    let than = *addr;
    addrs.partition_point_near(near, |a| a.is_before(&than))
}

// How many peers of a slice have an address below one.
pub fn place_among(peers: &[Peer], addr: &Addr) -> usize
    requires { IsRising (λ p. p.addr) peers.now }
    ensures { result ≡ prefix_len (λ p. address_below p.addr addr.now) peers.now }
{
    let than = *addr;
    peers.partition_point(|p| p.addr.is_before(&than))
}

// How many peers have an address below one.
pub fn place_of_peer(peers: &ChunkedList<Peer>, addr: &Addr) -> usize
    requires { IsRising (λ p. p.addr) peers.now }
    ensures { result ≡ prefix_len (λ p. address_below p.addr addr.now) peers.now }
{
    let than = *addr;
    peers.partition_point(|p| p.addr.is_before(&than))
}

// The same, where a place is tried first.
pub fn place_of_peer_near(peers: &ChunkedList<Peer>, near: usize, addr: &Addr) -> usize
    requires { IsRising (λ p. p.addr) peers.now }
    ensures { result ≡ prefix_len (λ p. address_below p.addr addr.now) peers.now }
{
    let than = *addr;
    peers.partition_point_near(near, |p| p.addr.is_before(&than))
}

// The peer with an address.
pub fn peer_with(peers: &ChunkedList<Peer>, addr: &Addr) -> Option<Peer>
    requires { IsRising (λ p. p.addr) peers.now }
    ensures { result ≡ peer_at addr.now peers.now }
{
    peer_there(peers, place_of_peer(peers, addr), addr)
}

// The place of an address that is there, and its peer. A place is tried first.
pub fn place_and_peer(peers: &ChunkedList<Peer>, near: usize, addr: &Addr) -> (usize, Peer)
    requires rising { IsRising (λ p. p.addr) peers.now }
    requires there { IsSome (peer_at addr.now peers.now) }
    ensures peer { peer_at addr.now peers.now ≡ Some result.1 }
    ensures here { result.1.addr ≡ addr.now }
    ensures stands { Stands result.0 result.1 peers.now }
{
    let place = place_of_peer_near(peers, near, addr);
    let peer = peer_there(peers, place, addr).unwrap();
    (place, peer)
}

// The peer at a place, where it has an address.
pub fn peer_there(peers: &ChunkedList<Peer>, place: usize, addr: &Addr) -> Option<Peer>
    ensures { result ≡ found_at (λ p. p.addr) addr.now (slice_get peers.now place) }
{
    let peer = peers.get(place)?;
    peer.addr.is_same(addr).then_some(*peer)
}
