ghost use Rattle.std.specs.Prelude.{◌≡◌, ◌++◌, ◌∷◌, [], map, IfOk, OnOk};
ghost use Rattle.peer_book.specs.Book.{addresses_of};
ghost use Rattle.govern_rules.specs.Orders.{rated_of};

use net_base::{Addr, Peer};
use pick_policy::Rated;
use std::alloc::{AllocError, Global};
use std::marker::Model;

// Peers of the book that suit. They are lent by it, since a peer is wide and only its address is taken of most. Contracts see
// the list of them.
#[derive(Drop)]
pub struct Found<'a> {
    peers: Vec<&'a Peer>,
}

impl<'a> Model for Found<'a> {
    ghost use Rattle.std.specs.Prelude.{List, map};
    ghost use Rattle.net_base.specs.declared.peer.Peer.{Peer};

    ghost Value = { List Peer };

    ghost view = { λ f. map (λ p. p.now) f.peers.items };
}

impl<'a> Found<'a> {
    pub fn new(alloc: Global) -> Found<'a>
        ensures { result ≡ [] }
    {
        Found {
            peers: Vec::new(alloc),
        }
    }

    // With room for so many.
    pub fn with_room(alloc: Global, room: usize) -> Result<Found<'a>, AllocError>
        ensures { IfOk result (λ found. found ≡ []) }
    {
        let peers = Vec::with_capacity(alloc, room)?;
        Ok(Found { peers })
    }

    pub fn push(&mut self, peer: &'a Peer) -> Result<(), AllocError>
        ensures { OnOk result (self.new ≡ self.old ++ peer.now ∷ []) }
    {
        self.peers.push(peer)?;
        Ok(())
    }

    // Puts others behind them.
    pub fn extend(&mut self, others: &Found<'a>) -> Result<(), AllocError>
        ensures { OnOk result (self.new ≡ self.old ++ others.now) }
    {
        self.peers.extend_from_slice(&others.peers)
    }

    pub fn addresses(&self, alloc: Global) -> Result<Vec<Addr>, AllocError>
        ensures { IfOk result (λ addrs. addrs.items ≡ addresses_of self.now) }
    {
        let mut addrs = Vec::with_capacity(alloc, self.peers.len())?;
        for peer in &self.peers {
            addrs.push(peer.addr)?;
        }
        Ok(addrs)
    }

    pub fn rated(&self, alloc: Global) -> Result<Vec<Rated>, AllocError>
        ensures { IfOk result (λ rated. rated.items ≡ map rated_of self.now) }
    {
        let mut rated = Vec::with_capacity(alloc, self.peers.len())?;
        for peer in &self.peers {
            rated.push(rated_of(peer))?;
        }
        Ok(rated)
    }
}

fn rated_of(peer: &Peer) -> Rated
    ensures { result ≡ rated_of peer.now }
{
    Rated {
        addr: peer.addr,
        failures: peer.failures,
    }
}
