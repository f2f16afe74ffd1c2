ghost use Rattle.std.specs.Prelude.{◌≡◌, ◌&&◌, not, IfOk};
ghost use Rattle.root_groups.specs.Cleaned.{is_listed};
ghost use Rattle.share_rounds.specs.Rounds.{fits_version, is_new, room_for, fresh_of};

use crate::keep::keep_where;
use net_base::{Addr, AddrList, Ip, OutOfMemory};
use peer_book::{MOST_PEERS, PeerBook};
use std::alloc::Global;
use warm_messages::PeerItems;

/// Of the addresses that a peer told, in their order, those that are taken as ordinary peers: each that is neither the own one,
/// nor in the book, nor taken before, while fewer ordinary peers are known than the target and the book isn't full. In traces
/// of version 1 no IPv6 address is taken.
pub fn fresh(
    alloc: Global,
    book: &PeerBook,
    own: Addr,
    answer: &PeerItems,
    target: u64,
    version: u64,
) -> Result<AddrList, OutOfMemory>
    ensures { IfOk result (λ taken. taken ≡ fresh_of own target version book.now answer.now) }
{
    let room = room_for(book, target);
    let mut taken = AddrList::new(alloc);
    let mut near = 0;
    for addr in answer.as_slice() {
        if taken.as_slice().len() as u64 >= room {
            return Ok(taken);
        }
        let may = is_new_beside(taken.as_slice(), book, &mut near, own, version, *addr);
        keep_where(&mut taken, may, *addr)?;
    }
    Ok(taken)
}

// How many more peers there may be.
fn room_for(book: &PeerBook, target: u64) -> u64
    ensures { result ≡ room_for target book.now }
{
    let room = MOST_PEERS - book.len() as u64;
    target.saturating_sub(book.known()).min(room)
}

// An address is new, and was not taken before.
fn is_new_beside(
    taken: &[Addr],
    book: &PeerBook,
    near: &mut usize,
    own: Addr,
    version: u64,
    addr: Addr,
) -> bool
    ensures { result ≡ (is_new own version book.now addr && not (is_listed addr taken.now)) }
{
    is_new(book, near, own, version, addr) && !is_listed(addr, taken)
}

fn is_new(book: &PeerBook, near: &mut usize, own: Addr, version: u64, addr: Addr) -> bool
    ensures { result ≡ is_new own version book.now addr }
{
    fits_version(version, addr) && !addr.is_same(&own) && !book.has_near(near, addr)
}

fn fits_version(version: u64, addr: Addr) -> bool
    ensures { result ≡ fits_version version addr }
{
    version != 1 || matches!(addr.ip, Ip::V4(_))
}

fn is_listed(addr: Addr, addrs: &[Addr]) -> bool
    ensures { result ≡ is_listed addr addrs.now }
{
    addrs.iter().any(|other| addr.is_same(other))
}
