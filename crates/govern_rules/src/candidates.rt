ghost use Rattle.std.specs.Prelude.{◌≡◌, ℕ, true, [], List, ◌++◌, filter, IfOk, OnOk};
ghost use Rattle.std.specs.List.{IsDistinct};
ghost use Rattle.std.specs.List.Sorted.{IsPermutation};
ghost use Rattle.net_base.specs.Address.{same_address};
ghost use Rattle.peer_book.specs.Book.{addresses_of, listed_at};
ghost use Rattle.govern_rules.specs.Search.{suits, lookups};
ghost use Rattle.govern_rules.specs.Tasks.{may_be_given};
ghost use Rattle.govern_rules.specs.declared.link.Link.{Link};

use crate::found::Found;
use crate::nearby::Nearby;
use crate::search::Search;
use crate::task::Task;
use crate::walk::Walk;
use net_base::{Addr, Peer, Temp};
use peer_book::PeerBook;
use std::alloc::{AllocError, Global};

// The peers of the book that suit. Warm and hot ones are found by their rows. Most peers are cold, so cold ones are
// found by a walk through the book, which costs less than a look-up of each.
pub fn candidates<'a>(
    alloc: Global,
    search: &Search,
    book: &'a PeerBook,
) -> Result<Found<'a>, AllocError>
    ensures value { IfOk result (λ cands. IsPermutation (filter (suits search.now) book.now) cands) }
    ensures apart { IfOk result (λ cands. IsDistinct same_address (addresses_of cands)) }
{
    if book.is_empty() {
        return Ok(Found::new(alloc));
    }
    match search.task {
        Task::Asking(_) => established(alloc, search, book),
        Task::Forgetting | Task::Promoting => known(alloc, search, book),
        Task::Releasing | Task::Activating => listed(alloc, search, Temp::Warm, book),
        Task::Deactivating => listed(alloc, search, Temp::Hot, book),
    }
}

// Whether nobody has a temperature at which a peer is given a task.
pub fn has_nobody(task: Task, book: &PeerBook) -> bool
    ensures { result ≡ true → (moment : ℕ) (links : List Link) → filter (may_be_given task moment links) book.now ≡ [] }
{
    match task {
        Task::Asking(_) => book.listed(Temp::Warm).is_empty() && book.listed(Temp::Hot).is_empty(),
        Task::Forgetting | Task::Promoting => book.listed(Temp::Cold).is_empty(),
        Task::Releasing | Task::Activating => book.listed(Temp::Warm).is_empty(),
        Task::Deactivating => book.listed(Temp::Hot).is_empty(),
    }
}

// Those of all peers that suit, of those that stand together at a time. Their links are passed beside them.
fn known<'a>(alloc: Global, search: &Search, book: &'a PeerBook) -> Result<Found<'a>, AllocError>
    ensures { IfOk result (λ cands. cands ≡ filter (suits search.now) book.now) }
{
    let mut cands = Found::new(alloc);
    let mut walk = search.view.links.walk();
    let mut place = 0;
    while place < book.len() {
        let run = book.run_from(place);
        take_in(&mut cands, search, &mut walk, run)?;
        place += run.len();
    }
    Ok(cands)
}

// Those of a temperature that suit.
fn listed<'a>(
    alloc: Global,
    search: &Search,
    temp: Temp,
    book: &'a PeerBook,
) -> Result<Found<'a>, AllocError>
    ensures { IfOk result (λ cands. cands ≡ filter (suits search.now) (lookups book.now (listed_at temp book.now))) }
{
    let addrs = book.listed(temp).to_vec(alloc)?;
    found(alloc, search, &addrs, book)
}

// The warm ones, and then the hot ones.
fn established<'a>(
    alloc: Global,
    search: &Search,
    book: &'a PeerBook,
) -> Result<Found<'a>, AllocError>
    ensures { IfOk result (λ cands. cands
        ≡ filter (suits search.now) (lookups book.now (listed_at Temp.Warm book.now)) ++ filter (suits search.now) (lookups book.now (listed_at Temp.Hot book.now))) }
{
    let mut cands = listed(alloc, search, Temp::Warm, book)?;
    let hot = listed(alloc, search, Temp::Hot, book)?;
    cands.extend(&hot)?;
    Ok(cands)
}

// Those of some peers that suit.
pub fn among<'a>(alloc: Global, search: &Search, peers: &'a [Peer]) -> Result<Found<'a>, AllocError>
    ensures { IfOk result (λ cands. cands ≡ filter (suits search.now) peers.now) }
{
    let mut cands = Found::new(alloc);
    for peer in peers {
        if search.suits(peer) {
            cands.push(peer)?;
        }
    }
    Ok(cands)
}

// Those of some peers that suit, behind others.
fn take_in<'a>(
    cands: &mut Found<'a>,
    search: &Search,
    walk: &mut Walk,
    peers: &'a [Peer],
) -> Result<(), AllocError>
    requires { walk.old ≡ search.now.view.now.links }
    ensures same { walk.new ≡ walk.old }
    ensures cands { OnOk result (cands.new ≡ cands.old ++ filter (suits search.now) peers.now) }
{
    for peer in peers {
        if search.suits_beside(peer, walk) {
            cands.push(peer)?;
        }
    }
    Ok(())
}

// Those with some addresses that suit. Peers and links are passed beside the addresses.
fn found<'a>(
    alloc: Global,
    search: &Search,
    addrs: &[Addr],
    book: &'a PeerBook,
) -> Result<Found<'a>, AllocError>
    ensures { IfOk result (λ cands. cands ≡ filter (suits search.now) (lookups book.now addrs.now)) }
{
    let mut cands = Found::new(alloc);
    let mut walk = search.view.links.walk();
    let mut nearby = Nearby::new(book);
    for addr in addrs {
        take_in(&mut cands, search, &mut walk, nearby.at(addr))?;
    }
    Ok(cands)
}
