ghost use Rattle.std.specs.Prelude.{◌≡◌, ◌<◌, ◌≤◌, ◌^◌, [], nat_eq, take, drop, length, slice_get, is_some, IsSome, IfSome, IsSomeAnd, IfOk, OnOk, OnErr, false, true};
ghost use Rattle.std.specs.List.{prefix_len};
ghost use Rattle.net_base.specs.Address.{address_below};
ghost use Rattle.net_base.specs.Peer.{failed_peer};
ghost use Rattle.peer_book.specs.Book.{peer_at, with_peer, without_peer, without_all, new_peer, newcomers, all_entered, entered, entry_of, known_of, established_of, active_of, listed_at, most_peers};
ghost use Rattle.peer_book.specs.Order.{IsRising, found_at};

use crate::kept::Kept;
use crate::leaving::gathered;
use crate::merge::fresh;
use crate::newcomers::Newcomers;
use crate::place::{peer_there, peer_with, place_and_peer, place_of_peer, place_of_peer_near};
use crate::{Added, Listed};
use net_base::{Addr, AddrList, OutOfMemory, Peer, Temp, backoff_delay};
use std::alloc::Global;
use std::marker::Model;

/// How many peers there may be, of both classes.
pub const MOST_PEERS: u64 = 20_000;

// So many addresses come in one after another, since all peers are gone through where they come in at once.
const FEW: usize = 16;

/// The peers that a node knows, in address order.
#[derive(Drop)]
pub struct PeerBook {
    kept: Kept,
}

impl Model for PeerBook {
    ghost use Rattle.std.specs.Prelude.{List};
    ghost use Rattle.net_base.specs.declared.peer.Peer.{Peer};
    ghost use Rattle.peer_book.specs.Kept.{IsKept};

    ghost Value = { List Peer };

    ghost view = { λ b. b.kept.peers };

    ghost invariant = { λ b. IsKept b.kept };
}

impl PeerBook {
    /// No peers yet. Takes no memory.
    pub fn new(alloc: Global) -> PeerBook
        ensures { result ≡ [] }
    {
        PeerBook {
            kept: Kept::new(alloc),
        }
    }

    /// How many peers there are.
    pub fn len(&self) -> usize
        ensures value { result ≡ length self.now }
        ensures ordered { IsRising (λ p. p.addr) self.now }
        ensures limited { length self.now ≤ most_peers }
    {
        self.kept.peers.len()
    }

    pub fn is_empty(&self) -> bool
        ensures value { result ≡ nat_eq (length self.now) 0 }
        ensures ordered { IsRising (λ p. p.addr) self.now }
    {
        self.kept.peers.is_empty()
    }

    /// The peers in address order, from a place on, that stand together in memory: so a walk takes many at a time. None
    /// where there are fewer.
    pub fn run_from(&self, place: usize) -> &[Peer]
        ensures front { result.now ≡ take (length result.now) (drop place self.now) }
        ensures some { place < length self.now → 0 < length result.now }
    {
        self.kept.peers.run_from(place)
    }

    /// The peers from the place of an address on that stand together in memory. The first of them has the address, where a
    /// peer has it: so whoever asks for addresses that rise finds many by one search.
    pub fn run_at(&self, addr: Addr) -> &[Peer]
        ensures front { result.now ≡ take (length result.now) (drop (prefix_len (λ p. address_below p.addr addr) self.now) self.now) }
        ensures first { found_at (λ p. p.addr) addr (slice_get result.now 0) ≡ peer_at addr self.now }
        ensures ordered { IsRising (λ p. p.addr) self.now }
    {
        self.kept
            .peers
            .run_from(place_of_peer(&self.kept.peers, &addr))
    }

    /// The peer with an address.
    pub fn get(&self, addr: Addr) -> Option<Peer>
        ensures { result ≡ peer_at addr self.now }
    {
        peer_with(&self.kept.peers, &addr)
    }

    /// Whether a peer has an address. A place is tried first, and that of the address is told for the next look: so whoever
    /// asks for addresses that stand close together searches once.
    pub fn has_near(&self, near: &mut usize, addr: Addr) -> bool
        ensures { result ≡ is_some (peer_at addr self.now) }
    {
        let place = place_of_peer_near(&self.kept.peers, *near, &addr);
        *near = place;
        peer_there(&self.kept.peers, place, &addr).is_some()
    }

    /// How many ordinary peers are known.
    pub fn known(&self) -> u64
        ensures { result ≡ known_of false self.now }
    {
        self.kept.tally.ordinary.known
    }

    /// How many ordinary peers are warm or hot.
    pub fn established(&self) -> u64
        ensures { result ≡ established_of false self.now }
    {
        self.kept.tally.ordinary.established
    }

    /// How many ordinary peers are hot.
    pub fn active(&self) -> u64
        ensures { result ≡ active_of false self.now }
    {
        self.kept.tally.ordinary.active
    }

    /// How many big ledger peers are known.
    pub fn big_known(&self) -> u64
        ensures { result ≡ known_of true self.now }
    {
        self.kept.tally.big.known
    }

    /// How many big ledger peers are warm or hot.
    pub fn big_established(&self) -> u64
        ensures { result ≡ established_of true self.now }
    {
        self.kept.tally.big.established
    }

    /// How many big ledger peers are hot.
    pub fn big_active(&self) -> u64
        ensures { result ≡ active_of true self.now }
    {
        self.kept.tally.big.active
    }

    /// The addresses of the peers of a temperature, of both classes, in address order.
    pub fn listed(&self, temp: Temp) -> Listed<'_>
        ensures value { result ≡ listed_at temp self.now }
        ensures rising { IsRising (λ a. a) result }
    {
        Listed::of(self.kept.rows.list(temp))
    }

    /// A copy of that list.
    pub fn of_temp(&self, temp: Temp) -> Result<AddrList, OutOfMemory>
        ensures { IfOk result (λ addrs. addrs ≡ listed_at temp self.now) }
    {
        let alloc = self.kept.alloc();
        Ok(AddrList::from_vec(self.listed(temp).to_vec(alloc)?))
    }

    /// Makes an address known as that of an ordinary peer. Later changes of the peer take no memory, and memory is
    /// asked for only where the address comes in.
    pub fn add(&mut self, addr: Addr) -> Result<Added, OutOfMemory>
        ensures answer { IfOk result (λ added. added ≡ entry_of addr self.old) }
        ensures entered { OnOk result (self.new ≡ entered (new_peer false addr) self.old) }
        ensures unchanged { OnErr result (self.new ≡ self.old) }
        ensures only_new { OnErr result (entry_of addr self.old ≡ Added.New) }
    {
        self.enter(fresh(addr, false))
    }

    /// Makes an address known as that of a big ledger peer. Memory is asked for as by `add`.
    pub fn add_big(&mut self, addr: Addr) -> Result<Added, OutOfMemory>
        ensures answer { IfOk result (λ added. added ≡ entry_of addr self.old) }
        ensures entered { OnOk result (self.new ≡ entered (new_peer true addr) self.old) }
        ensures unchanged { OnErr result (self.new ≡ self.old) }
        ensures only_new { OnErr result (entry_of addr self.old ≡ Added.New) }
    {
        self.enter(fresh(addr, true))
    }

    /// Makes addresses known one after another as those of peers of one class, each while fewer than `most` peers of that
    /// class are known. Gives those of them that were new, in their order. Later changes of the peers take no memory.
    /// A refusal changes nothing.
    pub fn add_all(&mut self, big: bool, addrs: &[Addr], most: u64) -> Result<AddrList, OutOfMemory>
        ensures new { IfOk result (λ new. new ≡ newcomers most big addrs.now self.old) }
        ensures entered { OnOk result (self.new ≡ all_entered most big addrs.now self.old) }
        ensures unchanged { OnErr result (self.new ≡ self.old) }
    {
        let alloc = self.kept.alloc();
        if addrs.len() <= FEW {
            let mut new = AddrList::new(alloc);
            self.kept.enter_each(big, addrs, most, &mut new)?;
            return Ok(new);
        }
        let Newcomers { given, sorted } = Newcomers::find(alloc, &self.kept, big, addrs, most)?;
        self.kept.put_all(big, &sorted)?;
        Ok(given)
    }

    /// The peer with the address is cold, and goes.
    pub fn forget(&mut self, addr: Addr)
        requires { IsSomeAnd (peer_at addr self.old) (λ peer. peer.temp ≡ Temp.Cold) }
        ensures { self.new ≡ without_peer addr self.old }
    {
        let (place, peer) = place_and_peer(&self.kept.peers, self.kept.near, &addr);
        self.kept.take_out(place, peer);
    }

    /// The peers with some addresses go, all by one look at each peer. Addresses of nobody are passed over. A refusal
    /// changes nothing.
    pub fn forget_all(&mut self, addrs: &[Addr]) -> Result<(), OutOfMemory>
        ensures gone { OnOk result (self.new ≡ without_all addrs.now self.old) }
        ensures unchanged { OnErr result (self.new ≡ self.old) }
    {
        let alloc = self.kept.alloc();
        let addrs = gathered(alloc, addrs)?;
        self.kept.take_all_out(&addrs)?;
        Ok(())
    }

    /// Sets the temperature of a peer.
    pub fn set_temp(&mut self, addr: Addr, temp: Temp)
        requires { IsSome (peer_at addr self.old) }
        ensures { IfSome (peer_at addr self.old) (λ peer. self.new ≡ with_peer (record peer { temp = temp }) self.old) }
    {
        let (place, peer) = place_and_peer(&self.kept.peers, 0, &addr);
        self.kept.replace(place, peer, Peer { temp, ..peer });
    }

    /// A peer was connected: it is warm, and its failures are forgotten.
    pub fn succeed(&mut self, addr: Addr)
        requires { IsSome (peer_at addr self.old) }
        ensures { IfSome (peer_at addr self.old) (λ peer. self.new ≡ with_peer (record peer { temp = Temp.Warm; failures = 0 }) self.old) }
    {
        let (place, peer) = place_and_peer(&self.kept.peers, 0, &addr);
        self.kept.replace(
            place,
            peer,
            Peer {
                temp: Temp::Warm,
                failures: 0,
                ..peer
            },
        );
    }

    /// A peer failed: it is cold, and left alone for the back-off.
    pub fn fail(&mut self, addr: Addr, now: u64, base: u64)
        requires there { IsSome (peer_at addr self.old) }
        requires moment { now ≤ 2 ^ 48 }
        requires interval { base ≤ 86_400_000 }
        ensures { IfSome (peer_at addr self.old) (λ peer. self.new ≡ with_peer (failed_peer now base peer) self.old) }
    {
        let (place, peer) = place_and_peer(&self.kept.peers, 0, &addr);
        self.kept.replace(place, peer, failed(peer, now, base));
    }

    /// A peer was asked for addresses, and is not asked again before a moment.
    pub fn asked(&mut self, addr: Addr, next: u64)
        requires { IsSome (peer_at addr self.old) }
        ensures { IfSome (peer_at addr self.old) (λ peer. self.new ≡ with_peer (record peer { share_next = next }) self.old) }
    {
        let (place, peer) = place_and_peer(&self.kept.peers, 0, &addr);
        self.kept.amend(
            place,
            peer,
            Peer {
                share_next: next,
                ..peer
            },
        );
    }

    /// A peer is an ordinary one from now on.
    pub fn make_ordinary(&mut self, addr: Addr)
        requires { IsSome (peer_at addr self.old) }
        ensures { IfSome (peer_at addr self.old) (λ peer. self.new ≡ with_peer (record peer { big = false }) self.old) }
    {
        let (place, peer) = place_and_peer(&self.kept.peers, 0, &addr);
        self.kept.reclass(place, peer, Peer { big: false, ..peer });
    }

    fn enter(&mut self, peer: Peer) -> Result<Added, OutOfMemory>
        ensures answer { IfOk result (λ added. added ≡ entry_of peer.addr self.old) }
        ensures entered { OnOk result (self.new ≡ entered peer self.old) }
        ensures unchanged { OnErr result (self.new ≡ self.old) }
        ensures only_new { OnErr result (entry_of peer.addr self.old ≡ Added.New) }
    {
        if self.get(peer.addr).is_some() {
            return Ok(Added::Present);
        }
        if self.kept.peers.len() as u64 >= MOST_PEERS {
            return Ok(Added::Full);
        }
        self.kept.put(peer)?;
        Ok(Added::New)
    }
}

fn failed(peer: Peer, now: u64, base: u64) -> Peer
    requires moment { now ≤ 2 ^ 48 }
    requires interval { base ≤ 86_400_000 }
    ensures { result ≡ failed_peer now base peer }
{
    let failures = peer.failures.saturating_add(1).min(65_535);
    Peer {
        temp: Temp::Cold,
        failures,
        not_before: now + backoff_delay(base, failures),
        ..peer
    }
}
