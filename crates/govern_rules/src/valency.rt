ghost use Rattle.std.specs.Prelude.{◌≡◌, ◌++◌, ◌-◌, false, IfOk};
ghost use Rattle.std.specs.List.{IsDistinct, flat_map};
ghost use Rattle.net_base.specs.Address.{same_address};
ghost use Rattle.peer_book.specs.Book.{addresses_of};
ghost use Rattle.govern_rules.specs.Members.{valency_task, valency_temp, valency_number, valency_orders};
ghost use Rattle.govern_rules.specs.Search.{lookups};
ghost use Rattle.govern_rules.specs.Statuses.{count_with};

use crate::candidates::among;
use crate::nearby::Nearby;
use crate::orders::ordinary_orders;
use crate::search::Search;
use crate::status::{Status, count_with};
use crate::task::Task;
use crate::whom::Whom;
use crate::{LinkList, Order, View};
use net_base::{Addr, Group, OutOfMemory, Peer, Temp};
use peer_book::PeerBook;
use pick_policy::Picker;
use root_groups::Groups;
use std::alloc::Global;

// How a rule keeps a group at its valencies.
#[derive(Clone, Copy)]
pub enum Valency {
    // members are promoted up to the warm valency
    WarmUp,
    // members are activated up to the hot valency
    HotUp,
    // members are deactivated down to the hot valency
    HotDown,
}

// The orders for all groups, one group after the other, behind other orders. Where nobody is known, or nobody has the
// temperature that is asked for, no group is looked at.
#[inline(always)]
pub fn groups_orders(
    alloc: Global,
    valency: Valency,
    view: &View,
    book: &PeerBook,
    groups: &Groups,
    picker: &Picker,
    mut orders: Vec<Order>,
) -> Result<Vec<Order>, OutOfMemory>
    ensures { IfOk result (λ all. all.items
        ≡ orders.items ++ flat_map (valency_orders valency view.now book.now) groups.now) }
{
    if book.is_empty() {
        return Ok(orders);
    }
    if book.listed(temp_of(valency)).is_empty() {
        return Ok(orders);
    }
    for group in groups.list().as_slice() {
        let more = group_orders(alloc, valency, view, group, book, picker)?;
        orders.extend_from_slice(&more)?;
    }
    Ok(orders)
}

// The peers with some addresses.
fn look_up(alloc: Global, addrs: &[Addr], book: &PeerBook) -> Result<Vec<Peer>, OutOfMemory>
    ensures { IfOk result (λ known. known.items ≡ lookups book.now addrs.now) }
{
    let mut known = Vec::new(alloc);
    for addr in addrs {
        if let Some(peer) = book.get(*addr) {
            known.push(peer)?;
        }
    }
    Ok(known)
}

// Where a group has its valency its members are counted and nothing more.
#[inline(always)]
fn group_orders(
    alloc: Global,
    valency: Valency,
    view: &View,
    group: &Group,
    book: &PeerBook,
    picker: &Picker,
) -> Result<Vec<Order>, OutOfMemory>
    requires members { IsDistinct same_address group.now.members }
    requires peers { IsDistinct same_address (addresses_of book.now) }
    ensures { IfOk result (λ orders. orders.items
        ≡ valency_orders valency view.now book.now group.now) }
{
    let number = number_of(valency, group, &view.links, book);
    if number == 0 {
        return Ok(Vec::new(alloc));
    }
    let known = look_up(alloc, group.members.as_slice(), book)?;
    let task = task_of(valency);
    let search = Search {
        big: false,
        task,
        whom: Whom::Everybody,
        view,
    };
    let cands = among(alloc, &search, &known)?;
    ordinary_orders(alloc, task, number, view.word, &cands, picker)
}

// Of what temperature those are that a rule picks from.
fn temp_of(valency: Valency) -> Temp
    ensures { result ≡ valency_temp valency }
{
    match valency {
        Valency::WarmUp => Temp::Cold,
        Valency::HotUp => Temp::Warm,
        Valency::HotDown => Temp::Hot,
    }
}

fn task_of(valency: Valency) -> Task
    ensures { result ≡ valency_task valency }
{
    match valency {
        Valency::WarmUp => Task::Promoting,
        Valency::HotUp => Task::Activating,
        Valency::HotDown => Task::Deactivating,
    }
}

// By how many members the valency is missed.
#[inline(always)]
fn number_of(valency: Valency, group: &Group, links: &LinkList, book: &PeerBook) -> u64
    ensures { result ≡ valency_number valency group.now links.now (lookups book.now group.now.members) }
{
    let members = group.members.as_slice();
    match valency {
        Valency::WarmUp => {
            let status = Status::EstablishedOrPending;
            missing_among(group.warm, status, members, links, book)
        }
        Valency::HotUp => {
            let status = Status::HotOrOwesOn2;
            missing_among(group.hot, status, members, links, book)
        }
        Valency::HotDown => {
            let hot = count_among(Status::Hot, members, links, book);
            hot.saturating_sub(group.hot)
        }
    }
}

// How many of those that are wanted are missing among ordinary peers with some addresses that have a status. Once none is, the
// others are not looked at.
#[inline(always)]
fn missing_among(
    wanted: u64,
    status: Status,
    addrs: &[Addr],
    links: &LinkList,
    book: &PeerBook,
) -> u64
    ensures { result ≡ wanted - count_with status false links.now (lookups book.now addrs.now) }
{
    let mut nearby = Nearby::new(book);
    let mut missing = wanted;
    for addr in addrs {
        if missing > 0 {
            missing = missing.saturating_sub(count_with(status, nearby.at(addr), links));
        }
    }
    missing
}

// How many ordinary peers with some addresses have a status. They are counted where they stand in the book.
fn count_among(status: Status, addrs: &[Addr], links: &LinkList, book: &PeerBook) -> u64
    ensures { result ≡ count_with status false links.now (lookups book.now addrs.now) }
{
    let mut nearby = Nearby::new(book);
    let mut count = 0;
    for addr in addrs {
        count += count_with(status, nearby.at(addr), links);
    }
    count
}
