ghost use Rattle.std.specs.Prelude.{◌≡◌, ◌<◌, drop, length};
ghost use Rattle.std.specs.List.{list_any, prefix_len};
ghost use Rattle.net_base.specs.declared.address.Addr.{Addr};
ghost use Rattle.govern_rules.specs.Lent.{AreLent};
ghost use Rattle.govern_rules.specs.Links.{some_link};
ghost use Rattle.govern_rules.specs.Marks.{has_mark};
ghost use Rattle.govern_rules.specs.SortedLinks.{AreNotBelow, IsInOrder, is_below, links_of};
ghost use Rattle.govern_rules.specs.Walks.{IsRunFrom, IsSpot};

use crate::Link;
use crate::mark::{Mark, has_mark};
use crate::spot::Spot;
use crate::walk::Walk;
use chunked_list::ChunkedList;
use net_base::Addr;
use std::marker::Model;

/// Links in order of address and then id, lent by what keeps them. Contracts see the list of them.
#[derive(Drop)]
pub struct LinkList<'a> {
    all: &'a ChunkedList<Link>,
    // those by which rules count, or all
    counted: &'a ChunkedList<Link>,
}

impl<'a> Model for LinkList<'a> {
    ghost use Rattle.std.specs.Prelude.{List};
    ghost use Rattle.govern_rules.specs.Lent.{AreLent};
    ghost use Rattle.govern_rules.specs.declared.link.Link.{Link};

    ghost Value = { List Link };

    ghost view = { λ l. l.all.now };

    ghost invariant = { λ l. AreLent l.all.now l.counted.now };
}

impl<'a> LinkList<'a> {
    /// Links that stand in order, and those among them by which rules count, or all of them again. Nothing is looked at.
    pub fn lent(all: &'a ChunkedList<Link>, counted: &'a ChunkedList<Link>) -> LinkList<'a>
        requires { AreLent all.now counted.now }
        ensures { result ≡ all.now }
    {
        LinkList { all, counted }
    }

    // A walk past them, before all of them.
    pub(crate) fn walk(&self) -> Walk<'a>
        ensures { result ≡ self.now }
    {
        Walk::new(self.all)
    }

    // Where the links of an address begin, or would.
    pub(crate) fn spot_of(&self, addr: &Addr) -> Spot<'a>
        ensures { IsSpot addr.now self.now result.place result.run.now }
    {
        Spot {
            place: start_of(self.all, addr),
            run: &[],
        }
    }

    // Some link of an address has a mark, where they begin there.
    #[inline(always)]
    pub(crate) fn some_at(&self, spot: Spot, addr: &Addr, mark: Mark) -> bool
        requires { IsSpot addr.now self.now spot.place spot.run.now }
        ensures { result ≡ list_any (has_mark mark) (links_of addr.now self.now) }
    {
        some_at(self.all, spot, addr, mark)
    }

    // Some link of an address has a mark.
    pub(crate) fn some(&self, addr: &Addr, mark: Mark) -> bool
        ensures { result ≡ some_link (has_mark mark) self.now addr.now }
    {
        self.some_at(self.spot_of(addr), addr, mark)
    }

    // Links that are enough to see who has a mark: few, where rules count by it.
    pub(crate) fn marked(&self, mark: Mark) -> &ChunkedList<Link>
        ensures ordered { IsInOrder result.now }
        ensures same { (addr : Addr) → some_link (has_mark mark) result.now addr ≡ some_link (has_mark mark) self.now addr }
    {
        match mark {
            Mark::Pending | Mark::Owes2 | Mark::Owes10 => self.counted,
            Mark::Entry | Mark::Acquirable | Mark::OwesReply | Mark::CanShare => self.all,
        }
    }
}

// How many links have an address below one.
pub fn start_of(links: &ChunkedList<Link>, addr: &Addr) -> usize
    requires { IsInOrder links.now }
    ensures { result ≡ prefix_len (is_below addr.now) links.now }
{
    links.partition_point(|link| link.addr.is_before(addr))
}

// Some link of an address has a mark, where they begin there. Those at hand are not looked for.
#[inline(always)]
fn some_at(links: &ChunkedList<Link>, spot: Spot, addr: &Addr, mark: Mark) -> bool
    requires ordered { IsInOrder links.now }
    requires spot { IsSpot addr.now links.now spot.place spot.run.now }
    ensures { result ≡ list_any (has_mark mark) (links_of addr.now links.now) }
{
    for link in spot.run {
        if !link.addr.is_same(addr) {
            return false;
        }
        if has_mark(mark, link) {
            return true;
        }
    }
    let count = links.len();
    let next = spot.place + spot.run.len();
    if next == count {
        return false;
    }
    some_from(links, next, addr, mark)
}

// Some of the links from a place on that have an address has a mark. None of them has an address below it.
pub fn some_from(links: &ChunkedList<Link>, start: usize, addr: &Addr, mark: Mark) -> bool
    requires ordered { IsInOrder links.now }
    requires above { AreNotBelow addr.now (drop start links.now) }
    ensures { result ≡ list_any (has_mark mark) (links_of addr.now (drop start links.now)) }
{
    let mut place = start;
    while place < links.len() {
        let link = links.at(place);
        if !link.addr.is_same(addr) {
            return false;
        }
        if has_mark(mark, link) {
            return true;
        }
        place += 1;
    }
    false
}

// The links from a place on that stand together. Those at hand are not looked for.
#[inline(always)]
pub fn at_hand<'a>(links: &'a ChunkedList<Link>, rest: &'a [Link], place: usize) -> &'a [Link]
    requires { IsRunFrom place links.now rest.now }
    ensures front { IsRunFrom place links.now result.now }
    ensures some { place < length links.now → 0 < length result.now }
{
    if rest.is_empty() {
        links.run_from(place)
    } else {
        rest
    }
}
