ghost use Rattle.std.specs.Prelude.{◌≡◌, ◌+◌, ◌-◌, ◌<◌, ◌^◌, drop, length, slice_get, slice_index_or};
ghost use Rattle.std.specs.List.{IsDistinct, list_any};
ghost use Rattle.net_base.specs.Address.{same_address};
ghost use Rattle.peer_book.specs.Book.{addresses_of};
ghost use Rattle.govern_rules.specs.ClassRules.{count_of};
ghost use Rattle.govern_rules.specs.Links.{some_link};
ghost use Rattle.govern_rules.specs.Marks.{has_mark, counts};
ghost use Rattle.govern_rules.specs.SortedLinks.{AreNotBelow, IsInOrder, links_of};
ghost use Rattle.govern_rules.specs.Walks.{IsRunFrom, has_other_address_at};
ghost use Rattle.govern_rules.specs.declared.link.Link.{Link};

use crate::links::{at_hand, some_from};
use crate::mark::{Mark, has_mark};
use crate::nearby::Nearby;
use crate::{Link, View};
use chunked_list::ChunkedList;
use net_base::Addr;
use peer_book::PeerBook;

// What is left of a number without the peers of a class that have a link with a mark. They are counted only where
// that can matter.
pub fn without_marked(number: u64, mark: Mark, big: bool, view: &View, book: &PeerBook) -> u64
    ensures { result ≡ number - count_of big (some_link (has_mark mark) view.now.links) book.now }
{
    let nobody = book.is_empty();
    if number == 0 || nobody {
        return number;
    }
    number.saturating_sub(count_marked(mark, big, view.links.marked(mark), book))
}

// How many peers of a class have a link with a mark. Of each address the last such link counts. The peers are passed beside
// the links.
fn count_marked(mark: Mark, big: bool, links: &ChunkedList<Link>, book: &PeerBook) -> u64
    requires ordered { IsInOrder links.now }
    requires distinct { IsDistinct same_address (addresses_of book.now) }
    ensures { result ≡ count_of big (some_link (has_mark mark) links.now) book.now }
{
    let mut nearby = Nearby::new(book);
    let mut rest: &[Link] = &[];
    let mut count = 0;
    for place in 0..links.len() {
        let run = at_hand(links, rest, place);
        let (_, after) = run.split_at(1);
        count += u64::from(counts(mark, big, links, place, &run[0], after, &mut nearby));
        rest = after;
    }
    count
}

// Whether the link at a place is the last of its address with a mark, and the peer there is of a class. Those behind it that
// stand together are at hand.
fn counts(
    mark: Mark,
    big: bool,
    links: &ChunkedList<Link>,
    place: usize,
    link: &Link,
    after: &[Link],
    nearby: &mut Nearby,
) -> bool
    requires ordered { IsInOrder links.now }
    requires there { place < length links.now }
    requires few { place + 1 < 2 ^ 64 }
    requires link { link.now ≡ slice_index_or links.now place link.now }
    requires after { IsRunFrom (place + 1) links.now after.now }
    ensures value { (d : Link) → result ≡ counts mark big (slice_index_or links.now place d) (drop (place + 1) links.now) nearby.old }
    ensures same { nearby.new ≡ nearby.old }
{
    has_mark(mark, link)
        && !some_behind(links, place + 1, after, &link.addr, mark)
        && nearby.has(big, &link.addr)
}

// Some of the links from a place on that have an address has a mark. None of them has an address below it, and those that
// stand together are at hand.
fn some_behind(
    links: &ChunkedList<Link>,
    start: usize,
    run: &[Link],
    addr: &Addr,
    mark: Mark,
) -> bool
    requires ordered { IsInOrder links.now }
    requires above { AreNotBelow addr.now (drop start links.now) }
    requires run { IsRunFrom start links.now run.now }
    ensures { result ≡ list_any (has_mark mark) (links_of addr.now (drop start links.now)) }
{
    if starts_elsewhere(run, addr) {
        return false;
    }
    some_from(links, start, addr, mark)
}

// Whether the first of some links has another address.
fn starts_elsewhere(run: &[Link], addr: &Addr) -> bool
    ensures { result ≡ has_other_address_at addr.now (slice_get run.now 0) }
{
    match run.first() {
        Some(link) => !link.addr.is_same(addr),
        None => false,
    }
}
