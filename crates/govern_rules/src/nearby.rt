ghost use Rattle.std.specs.Prelude.{◌≡◌, List, is_some, slice_get};
ghost use Rattle.std.specs.Option.{option_to_list};
ghost use Rattle.net_base.specs.declared.peer.Peer.{Peer};
ghost use Rattle.peer_book.specs.Book.{peer_at};
ghost use Rattle.peer_book.specs.Order.{found_at};
ghost use Rattle.govern_rules.specs.Marks.{is_class, is_class_at};
ghost use Rattle.govern_rules.specs.Walks.{AreKnown};

use crate::status::is_of;
use net_base::{Addr, Peer};
use peer_book::PeerBook;
use std::marker::Model;

// The peers of the book near the one that was asked for last. While the addresses that are asked for rise, only one of many
// is searched for.
#[derive(Drop)]
pub struct Nearby<'a> {
    book: &'a PeerBook,
    // some that stand together
    run: &'a [Peer],
}

impl<'a> Model for Nearby<'a> {
    ghost use Rattle.std.specs.Prelude.{List};
    ghost use Rattle.net_base.specs.declared.peer.Peer.{Peer};
    ghost use Rattle.govern_rules.specs.Walks.{AreKnown};

    ghost Value = { List Peer };

    ghost view = { λ n. n.book.now };

    ghost invariant = { λ n. AreKnown n.run.now n.book.now };
}

impl<'a> Nearby<'a> {
    pub fn new(book: &'a PeerBook) -> Nearby<'a>
        ensures { result ≡ book.now }
    {
        Nearby { book, run: &[] }
    }

    // The peer with an address, alone. None where there is none.
    pub fn at(&mut self, addr: &Addr) -> &'a [Peer]
        ensures value { result.now ≡ option_to_list (peer_at addr.now self.old) }
        ensures same { self.new ≡ self.old }
    {
        let run = come_to(self.book, self.run, addr);
        self.run = run;
        first_at(run, addr)
    }

    // Whether there is a peer of a class with an address.
    pub fn has(&mut self, big: bool, addr: &Addr) -> bool
        ensures value { result ≡ is_class_at big addr.now self.old }
        ensures same { self.new ≡ self.old }
    {
        let run = come_to(self.book, self.run, addr);
        self.run = run;
        starts_with_class(big, addr, run)
    }
}

// Peers that stand together. The first of them has an address, where a peer has it.
fn come_to<'a>(book: &'a PeerBook, run: &'a [Peer], addr: &Addr) -> &'a [Peer]
    requires { AreKnown run.now book.now }
    ensures known { AreKnown result.now book.now }
    ensures first { found_at (λ p. p.addr) addr.now (slice_get result.now 0) ≡ peer_at addr.now book.now }
{
    let ahead = passed(run, addr);
    if starts_at(ahead, addr) {
        ahead
    } else {
        book.run_at(*addr)
    }
}

// The peers from the first one on that has no address below one. None are looked at where the last of them has one.
fn passed<'a>(run: &'a [Peer], addr: &Addr) -> &'a [Peer]
    ensures { (book : List Peer) → AreKnown run.now book → AreKnown result.now book }
{
    if ends_below(run, addr) {
        return &[];
    }
    let mut rest = run;
    while let Some((peer, after)) = rest.split_first() {
        if !peer.addr.is_before(addr) {
            return rest;
        }
        rest = after;
    }
    rest
}

// Whether the last of some peers has an address below one.
fn ends_below(run: &[Peer], addr: &Addr) -> bool {
    match run.last() {
        Some(peer) => peer.addr.is_before(addr),
        None => false,
    }
}

// Whether the first of some peers has an address.
fn starts_at(run: &[Peer], addr: &Addr) -> bool
    ensures { result ≡ is_some (found_at (λ p. p.addr) addr.now (slice_get run.now 0)) }
{
    match run.first() {
        Some(peer) => peer.addr.is_same(addr),
        None => false,
    }
}

// The first of some peers alone, where it has an address.
fn first_at<'a>(run: &'a [Peer], addr: &Addr) -> &'a [Peer]
    ensures { result.now ≡ option_to_list (found_at (λ p. p.addr) addr.now (slice_get run.now 0)) }
{
    if !starts_at(run, addr) {
        return &[];
    }
    let (first, _) = run.split_at(1);
    first
}

// Whether the first of some peers has an address and is of a class.
fn starts_with_class(big: bool, addr: &Addr, run: &[Peer]) -> bool
    ensures { result ≡ is_class big (found_at (λ p. p.addr) addr.now (slice_get run.now 0)) }
{
    match run.first() {
        Some(peer) => peer.addr.is_same(addr) && is_of(big, peer),
        None => false,
    }
}
