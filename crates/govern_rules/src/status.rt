ghost use Rattle.std.specs.Prelude.{◌≡◌, false};
ghost use Rattle.govern_rules.specs.Statuses.{has_status, count_with};
ghost use Rattle.peer_book.specs.Book.{is_of};

use crate::LinkList;
use crate::mark::Mark;
use net_base::{Peer, Temp};

// What the members of a group are counted by.
#[derive(Clone, Copy)]
pub enum Status {
    EstablishedOrPending,
    HotOrOwesOn2,
    Hot,
}

// How many ordinary ones of some peers have a status.
pub fn count_with(status: Status, peers: &[Peer], links: &LinkList) -> u64
    ensures { result ≡ count_with status false links.now peers.now }
{
    let count = peers
        .iter()
        .filter(|peer| is_of(false, peer) && has_status(status, links, peer))
        .count();
    count as u64
}

pub fn is_of(big: bool, peer: &Peer) -> bool
    ensures { result ≡ is_of big peer.now }
{
    if big { peer.big } else { !peer.big }
}

fn has_status(status: Status, links: &LinkList, peer: &Peer) -> bool
    ensures { result ≡ has_status status links.now peer.now }
{
    match status {
        Status::EstablishedOrPending => is_established_or_pending(links, peer),
        Status::HotOrOwesOn2 => is_hot_or_owes_on_2(links, peer),
        Status::Hot => peer.temp == Temp::Hot,
    }
}

fn is_established_or_pending(links: &LinkList, peer: &Peer) -> bool
    ensures { result ≡ has_status Status.EstablishedOrPending links.now peer.now }
{
    peer.temp != Temp::Cold || links.some(&peer.addr, Mark::Pending)
}

fn is_hot_or_owes_on_2(links: &LinkList, peer: &Peer) -> bool
    ensures { result ≡ has_status Status.HotOrOwesOn2 links.now peer.now }
{
    peer.temp == Temp::Hot || links.some(&peer.addr, Mark::Owes2)
}
