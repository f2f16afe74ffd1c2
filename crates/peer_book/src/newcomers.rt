ghost use Rattle.std.specs.Prelude.{◌≡◌, ◌++◌, ◌∷◌, ◌||◌, [], not, is_some, IfOk, OnOk, if◌then◌else◌};
ghost use Rattle.peer_book.specs.Addresses.{has_address, with_address};
ghost use Rattle.peer_book.specs.Book.{peer_at, newcomers, all_entered};
ghost use Rattle.peer_book.specs.Kept.{IsKept};
ghost use Rattle.peer_book.specs.Newcomers.{with_all_new, AreNew, room_for};
ghost use Rattle.peer_book.specs.Order.{IsRising};

use crate::book::MOST_PEERS;
use crate::kept::Kept;
use crate::place::peer_with;
use chunked_list::ChunkedList;
use net_base::{Addr, AddrList, OutOfMemory, Peer};
use std::alloc::Global;
use std::collections::BTreeSet;

// The addresses that come in, in the order in which they were given, and the same in address order.
#[derive(Drop)]
pub struct Newcomers {
    pub given: AddrList,
    pub sorted: BTreeSet<Addr>,
}

impl Newcomers {
    // Those of some addresses that come in, of a class of which at most so many are to be known.
    pub fn find(
        alloc: Global,
        kept: &Kept,
        big: bool,
        addrs: &[Addr],
        most: u64,
    ) -> Result<Newcomers, OutOfMemory>
        requires { IsKept kept.now }
        ensures given { IfOk result (λ new. new.given ≡ newcomers most big addrs.now kept.now.peers) }
        ensures entered { IfOk result (λ new. with_all_new big new.sorted.keys kept.now.peers ≡ all_entered most big addrs.now kept.now.peers) }
        ensures new { IfOk result (λ new. AreNew new.sorted.keys kept.now.peers) }
    {
        let room = room_for(kept, big, most);
        let mut given = AddrList::new(alloc);
        let mut sorted = BTreeSet::new(alloc);
        for addr in addrs {
            if given.as_slice().len() as u64 >= room {
                break;
            }
            take_in(&mut given, &mut sorted, &kept.peers, *addr)?;
        }
        Ok(Newcomers { given, sorted })
    }
}

// How many more may come in.
fn room_for(kept: &Kept, big: bool, most: u64) -> u64
    requires { IsKept kept.now }
    ensures { result ≡ room_for most big kept.now.peers }
{
    let known = kept.known(big);
    let room = MOST_PEERS - kept.peers.len() as u64;
    most.saturating_sub(known).min(room)
}

// Takes an address in that is neither in the book nor taken in already.
fn take_in(
    given: &mut AddrList,
    sorted: &mut BTreeSet<Addr>,
    peers: &ChunkedList<Peer>,
    addr: Addr,
) -> Result<(), OutOfMemory>
    requires { IsRising (λ p. p.addr) peers.now }
    ensures given { OnOk result (given.new ≡ (if is_some (peer_at addr peers.now) || has_address addr sorted.old.keys then given.old else given.old ++ addr ∷ [])) }
    ensures sorted { OnOk result (sorted.new.keys ≡ (if is_some (peer_at addr peers.now) || has_address addr sorted.old.keys then sorted.old.keys else with_address addr sorted.old.keys)) }
{
    if peer_with(peers, &addr).is_some() || !note(sorted, addr)? {
        return Ok(());
    }
    given.push(addr)?;
    Ok(())
}

// Whether an address is noted that wasn't yet.
pub fn note(sorted: &mut BTreeSet<Addr>, addr: Addr) -> Result<bool, OutOfMemory>
    ensures new { IfOk result (λ new. new ≡ not (has_address addr sorted.old.keys)) }
    ensures keys { OnOk result (sorted.new.keys ≡ (if has_address addr sorted.old.keys then sorted.old.keys else with_address addr sorted.old.keys)) }
{
    Ok(sorted.insert(addr)?)
}
