ghost use Rattle.std.specs.Prelude.{◌≡◌, ◌<◌, ◌++◌, [], length, None, OnOk, OnErr};
ghost use Rattle.std.specs.List.{prefix_len};
ghost use Rattle.net_base.specs.Address.{address_below};
ghost use Rattle.peer_book.specs.Book.{peer_at, Stands, with_peer, without_peer, with_new, most_peers, known_of, entry_below, all_entered, newcomers};
ghost use Rattle.peer_book.specs.Leaving.{others_than};
ghost use Rattle.peer_book.specs.Newcomers.{with_all_new, AreNew};
ghost use Rattle.peer_book.specs.Order.{IsRising};

use crate::Added;
use crate::book::MOST_PEERS;
use crate::leaving::others_than;
use crate::merge::{fresh, in_order, merged, row_at};
use crate::place::{peer_there, place_and_peer, place_of_peer_near};
use crate::row::Row;
use crate::rows::Rows;
use crate::tally::Tally;
use chunked_list::ChunkedList;
use net_base::{Addr, AddrList, OutOfMemory, Peer, Temp};
use std::alloc::Global;
use std::collections::BTreeSet;

// The peers in address order, and what is kept beside them.
#[derive(Drop)]
pub struct Kept {
    pub peers: ChunkedList<Peer>,
    pub rows: Rows,
    pub tally: Tally,
    // where a peer came in last, or went: a guess of where the next one does
    pub near: usize,
}

impl Kept {
    ghost use Rattle.peer_book.specs.Kept.{IsKept};

    pub fn new(alloc: Global) -> Kept
        ensures kept { IsKept result }
        ensures peers { result.peers ≡ [] }
    {
        Kept {
            peers: ChunkedList::new(alloc),
            rows: Rows::new(alloc),
            tally: Tally::new(),
            near: 0,
        }
    }

    pub fn alloc(&self) -> Global {
        *self.rows.cold.rest.allocator()
    }

    // Puts a peer in, and sets memory aside for what may become of it. A refusal changes nothing.
    pub fn put(&mut self, peer: Peer) -> Result<(), OutOfMemory>
        requires kept { IsKept self.old }
        requires limited { length self.old.peers < most_peers }
        requires absent { peer_at peer.addr self.old.peers ≡ None }
        ensures kept { IsKept self.new }
        ensures put { OnOk result (self.new.peers ≡ with_new peer self.old.peers) }
        ensures unchanged { OnErr result (self.new.peers ≡ self.old.peers) }
    {
        let place = place_of_peer_near(&self.peers, self.near, &peer.addr);
        self.put_at(place, peer)
    }

    // The same, where its place is known.
    fn put_at(&mut self, place: usize, peer: Peer) -> Result<(), OutOfMemory>
        requires kept { IsKept self.old }
        requires limited { length self.old.peers < most_peers }
        requires absent { peer_at peer.addr self.old.peers ≡ None }
        requires place { place ≡ prefix_len (λ p. address_below p.addr peer.addr) self.old.peers }
        ensures kept { IsKept self.new }
        ensures put { OnOk result (self.new.peers ≡ with_new peer self.old.peers) }
        ensures unchanged { OnErr result (self.new.peers ≡ self.old.peers) }
    {
        self.rows.reserve(self.peers.len() + 1)?;
        self.peers.insert(place, peer)?;
        self.rows.insert(peer.temp, peer.addr);
        self.tally.enter(&peer);
        self.near = place + 1;
        Ok(())
    }

    // Puts new peers of a class in, all at once. A refusal changes nothing, and where there are none no memory is asked for.
    pub fn put_all(&mut self, big: bool, addrs: &BTreeSet<Addr>) -> Result<(), OutOfMemory>
        requires kept { IsKept self.old }
        requires new { AreNew addrs.now.keys self.old.peers }
        ensures kept { IsKept self.new }
        ensures put { OnOk result (self.new.peers ≡ with_all_new big addrs.now.keys self.old.peers) }
        ensures unchanged { OnErr result (self.new.peers ≡ self.old.peers) }
    {
        if addrs.is_empty() {
            return Ok(());
        }
        let alloc = self.alloc();
        let addrs = in_order(alloc, addrs)?;
        self.merge(alloc, big, &addrs)
    }

    // Addresses of a class come in one after another, each while fewer than so many of the class are known. Those that are new
    // are put behind others. Where memory is refused for one of them, those before it are taken out again.
    pub fn enter_each(
        &mut self,
        big: bool,
        addrs: &[Addr],
        most: u64,
        new: &mut AddrList,
    ) -> Result<(), OutOfMemory>
        requires kept { IsKept self.old }
        ensures kept { IsKept self.new }
        ensures entered { OnOk result (self.new.peers ≡ all_entered most big addrs.now self.old.peers) }
        ensures new { OnOk result (new.new ≡ new.old ++ newcomers most big addrs.now self.old.peers) }
        ensures unchanged { OnErr result (self.new.peers ≡ self.old.peers) }
    {
        let Some((first, others)) = addrs.split_first() else {
            return Ok(());
        };
        let place = place_of_peer_near(&self.peers, self.near, first);
        if self.entry(big, most, place, first) != Added::New {
            return self.enter_each(big, others, most, new);
        }
        new.push(*first)?;
        self.put_at(place, fresh(*first, big))?;
        match self.enter_each(big, others, most, new) {
            Ok(()) => Ok(()),
            Err(refusal) => {
                let (place, peer) = place_and_peer(&self.peers, self.near, first);
                self.take_out(place, peer);
                Err(refusal)
            }
        }
    }

    // What is said to an address that is to come in, of which the place is known.
    fn entry(&self, big: bool, most: u64, place: usize, addr: &Addr) -> Added
        requires kept { IsKept self.now }
        requires place { place ≡ prefix_len (λ p. address_below p.addr addr.now) self.now.peers }
        ensures { result ≡ entry_below most big addr.now self.now.peers }
    {
        if self.known(big) >= most {
            return Added::Full;
        }
        if peer_there(&self.peers, place, addr).is_some() {
            return Added::Present;
        }
        if self.peers.len() as u64 >= MOST_PEERS {
            return Added::Full;
        }
        Added::New
    }

    // How many of a class are known.
    pub fn known(&self, big: bool) -> u64
        requires { IsKept self.now }
        ensures { result ≡ known_of big self.now.peers }
    {
        if big {
            self.tally.big.known
        } else {
            self.tally.ordinary.known
        }
    }

    fn merge(&mut self, alloc: Global, big: bool, addrs: &[Addr]) -> Result<(), OutOfMemory>
        requires kept { IsKept self.old }
        requires new { AreNew addrs.now self.old.peers }
        ensures kept { IsKept self.new }
        ensures put { OnOk result (self.new.peers ≡ with_all_new big addrs.now self.old.peers) }
        ensures unchanged { OnErr result (self.new.peers ≡ self.old.peers) }
    {
        let all = merged(alloc, &self.peers.to_vec(alloc)?, addrs, big)?;
        let peers = ChunkedList::from_slice(alloc, &all)?;
        let cold = Row::of(alloc, &row_at(alloc, &all, Temp::Cold)?)?;
        self.rows.renew_cold(cold, all.len())?;
        self.tally.enter_cold(big, addrs.len() as u64);
        self.peers = peers;
        Ok(())
    }

    pub fn take_out(&mut self, place: usize, peer: Peer)
        requires kept { IsKept self.old }
        requires stands { Stands place peer self.old.peers }
        ensures kept { IsKept self.new }
        ensures peers { self.new.peers ≡ without_peer peer.addr self.old.peers }
    {
        self.rows.remove(peer.temp, peer.addr);
        self.tally.leave(&peer);
        self.peers.remove(place);
        self.near = place;
    }

    // Takes out all peers at some addresses, which stand in order. A refusal changes nothing.
    pub fn take_all_out(&mut self, addrs: &[Addr]) -> Result<(), OutOfMemory>
        requires kept { IsKept self.old }
        requires rising { IsRising (λ a. a) addrs.now }
        ensures kept { IsKept self.new }
        ensures left { OnOk result (self.new.peers ≡ others_than addrs.now self.old.peers) }
        ensures unchanged { OnErr result (self.new.peers ≡ self.old.peers) }
    {
        let alloc = self.alloc();
        let left = others_than(alloc, &self.peers.to_vec(alloc)?, addrs)?;
        let peers = ChunkedList::from_slice(alloc, &left)?;
        let rows = Rows::of(alloc, &left)?;
        let tally = Tally::of(&left);
        self.peers = peers;
        self.rows = rows;
        self.tally = tally;
        Ok(())
    }

    // Puts a peer back that is of another class or temperature.
    pub fn replace(&mut self, place: usize, old: Peer, new: Peer)
        requires kept { IsKept self.old }
        requires stands { Stands place old self.old.peers }
        requires same { new.addr ≡ old.addr }
        ensures kept { IsKept self.new }
        ensures peers { self.new.peers ≡ with_peer new self.old.peers }
    {
        self.rows.turn(old.addr, old.temp, new.temp);
        self.tally.leave(&old);
        self.tally.enter(&new);
        self.peers.replace(place, new);
    }

    // Puts a peer back that is still listed and counted as it was.
    pub fn amend(&mut self, place: usize, old: Peer, new: Peer)
        requires kept { IsKept self.old }
        requires stands { Stands place old self.old.peers }
        requires same { new.addr ≡ old.addr }
        requires listed { new.temp ≡ old.temp }
        requires counted { new.big ≡ old.big }
        ensures kept { IsKept self.new }
        ensures peers { self.new.peers ≡ with_peer new self.old.peers }
    {
        self.peers.replace(place, new);
    }

    // Puts a peer back that is of another class and still listed as it was.
    pub fn reclass(&mut self, place: usize, old: Peer, new: Peer)
        requires kept { IsKept self.old }
        requires stands { Stands place old self.old.peers }
        requires same { new.addr ≡ old.addr }
        requires listed { new.temp ≡ old.temp }
        ensures kept { IsKept self.new }
        ensures peers { self.new.peers ≡ with_peer new self.old.peers }
    {
        self.tally.leave(&old);
        self.tally.enter(&new);
        self.peers.replace(place, new);
    }
}
