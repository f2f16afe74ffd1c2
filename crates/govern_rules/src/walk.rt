ghost use Rattle.std.specs.Prelude.{◌≡◌, ◌<◌, ◌-◌, [], true, None, length, slice_get, IfSome};
ghost use Rattle.std.specs.List.{prefix_len};
ghost use Rattle.govern_rules.specs.SortedLinks.{IsInOrder, is_below, links_of};
ghost use Rattle.govern_rules.specs.Walks.{IsRunFrom, IsSpot, is_beyond, is_before_at, is_below_at, has_address_at};

use crate::Link;
use crate::links::{at_hand, start_of};
use crate::spot::Spot;
use chunked_list::ChunkedList;
use net_base::Addr;
use std::marker::Model;

// A walk past links in order, beside one through peers. While the addresses that are asked for rise it goes on, and it
// searches only where it would have to pass many.
#[derive(Drop)]
pub struct Walk<'a> {
    links: &'a ChunkedList<Link>,
    // what was come to last
    last: Option<Addr>,
    // how many links were passed. None of them has an address above that
    place: usize,
    // those from there on that stand together
    run: &'a [Link],
}

impl<'a> Model for Walk<'a> {
    ghost use Rattle.std.specs.Prelude.{List};
    ghost use Rattle.govern_rules.specs.Walks.{HasCome};
    ghost use Rattle.govern_rules.specs.declared.link.Link.{Link};

    ghost Value = { List Link };

    ghost view = { λ w. w.links.now };

    ghost invariant = { λ w. HasCome w.links.now w.last w.place w.run.now };
}

impl<'a> Walk<'a> {
    // Before all of some links.
    pub fn new(links: &'a ChunkedList<Link>) -> Walk<'a>
        requires { IsInOrder links.now }
        ensures { result ≡ links.now }
    {
        Walk {
            links,
            last: None,
            place: 0,
            run: links.run_from(0),
        }
    }

    // Where the links of an address begin. None where it has no link.
    #[inline(always)]
    pub fn come_to(&mut self, addr: &Addr) -> Option<Spot<'a>>
        ensures same { self.new ≡ self.old }
        ensures there { IfSome result (λ spot. IsSpot addr.now self.old spot.place spot.run.now) }
        ensures none { result ≡ None → links_of addr.now self.old ≡ [] }
    {
        if self.has_passed(addr) {
            return None;
        }
        let count = self.links.len();
        if self.place < count && starts_at(self.run, addr) && is_beyond(addr, &self.last) {
            let place = self.place;
            let run = self.run;
            let (_, rest) = run.split_at(1);
            let next = at_hand(self.links, rest, place + 1);
            self.last = Some(*addr);
            self.place = place + 1;
            self.run = next;
            return Some(Spot { place, run });
        }
        self.go_to(addr)
    }

    // The same, however far that is.
    fn go_to(&mut self, addr: &Addr) -> Option<Spot<'a>>
        ensures same { self.new ≡ self.old }
        ensures there { IfSome result (λ spot. IsSpot addr.now self.old spot.place spot.run.now) }
        ensures none { result ≡ None → links_of addr.now self.old ≡ [] }
    {
        let place = self.place_of(addr);
        let run = self.run_from(place);
        if place == self.links.len() || !starts_at(run, addr) {
            self.last = Some(*addr);
            self.place = place;
            self.run = run;
            return None;
        }
        let next = self.run_from(place + 1);
        self.last = Some(*addr);
        self.place = place + 1;
        self.run = next;
        Some(Spot { place, run })
    }

    // Whether an address is below that of the first link at hand, and above all that was passed: so it has no link, and the
    // walk stays where it is.
    fn has_passed(&self, addr: &Addr) -> bool
        ensures { result ≡ true → links_of addr.now self.now ≡ [] }
    {
        is_before_first(addr, self.run) && is_beyond(addr, &self.last)
    }

    // How many links have an address below one.
    fn place_of(&self, addr: &Addr) -> usize
        ensures { result ≡ prefix_len (is_below addr.now) self.now }
    {
        if !is_beyond(addr, &self.last) || ends_below(self.run, addr) {
            return start_of(self.links, addr);
        }
        if self.place == self.links.len() {
            return self.place;
        }
        self.place + below_in(self.run, addr)
    }

    // The links from a place on that stand together. Those at hand are not looked for.
    fn run_from(&self, place: usize) -> &'a [Link]
        ensures front { IsRunFrom place self.now result.now }
        ensures some { place < length self.now → 0 < length result.now }
    {
        match place.checked_sub(self.place) {
            Some(passed) if passed < self.run.len() => {
                let (_, run) = self.run.split_at(passed);
                run
            }
            _ => self.links.run_from(place),
        }
    }
}

// Whether an address is below that of the first of some links, or there is none.
fn is_before_first(addr: &Addr, run: &[Link]) -> bool
    ensures { result ≡ is_before_at addr.now (slice_get run.now 0) }
{
    match run.first() {
        Some(link) => addr.is_before(&link.addr),
        None => true,
    }
}

// Whether an address is above the one that was come to last.
fn is_beyond(addr: &Addr, last: &Option<Addr>) -> bool
    ensures { result ≡ is_beyond addr.now last.now }
{
    match last {
        Some(last) => last.is_before(addr),
        None => true,
    }
}

// Whether the last of some links has an address below one.
fn ends_below(run: &[Link], addr: &Addr) -> bool
    ensures { result ≡ is_below_at addr.now (slice_get run.now (length run.now - 1)) }
{
    match run.last() {
        Some(link) => link.addr.is_before(addr),
        None => false,
    }
}

// How many links before the first other one have an address below one.
fn below_in(run: &[Link], addr: &Addr) -> usize
    ensures { result ≡ prefix_len (is_below addr.now) run.now }
{
    let mut passed = 0;
    for link in run {
        if !link.addr.is_before(addr) {
            return passed;
        }
        passed += 1;
    }
    passed
}

// Whether the first of some links has an address.
fn starts_at(run: &[Link], addr: &Addr) -> bool
    ensures { result ≡ has_address_at addr.now (slice_get run.now 0) }
{
    match run.first() {
        Some(link) => link.addr.is_same(addr),
        None => false,
    }
}
