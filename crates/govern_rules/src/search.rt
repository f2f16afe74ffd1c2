ghost use Rattle.std.specs.Prelude.{◌≡◌, ◌&&◌, [], true};
ghost use Rattle.peer_book.specs.Book.{is_of};
ghost use Rattle.govern_rules.specs.Search.{is_ready, is_free, is_unlinked_or_acquirable, say, seen, suits};
ghost use Rattle.govern_rules.specs.SortedLinks.{links_of};
ghost use Rattle.govern_rules.specs.Walks.{IsSpot};
ghost use Rattle.govern_rules.specs.Whom.{is_meant};

use crate::mark::Mark;
use crate::seen::Seen;
use crate::spot::Spot;
use crate::status::is_of;
use crate::task::Task;
use crate::walk::Walk;
use crate::whom::Whom;
use crate::{LinkList, View};
use net_base::{Addr, Peer, Temp};

// Which peers a rule picks from.
#[derive(Clone, Copy)]
pub struct Search<'a> {
    pub big: bool,
    pub task: Task,
    pub whom: Whom<'a>,
    pub view: &'a View<'a>,
}

impl Search<'_> {
    // Whether a peer is one of them. What costs least to see is looked at first.
    pub fn suits(&self, peer: &Peer) -> bool
        ensures { result ≡ suits self.now peer.now }
    {
        is_of(self.big, peer)
            && is_ready(self.task, self.view.moment, peer)
            && self.whom.is_meant(&peer.addr)
            && is_free(self.task, &self.view.links, &peer.addr)
    }

    // The same beside a walk past the links, which comes to those of the peer.
    pub fn suits_beside(&self, peer: &Peer, walk: &mut Walk) -> bool
        requires { walk.old ≡ self.now.view.now.links }
        ensures value { result ≡ suits self.now peer.now }
        ensures same { walk.new ≡ walk.old }
    {
        is_of(self.big, peer)
            && is_ready(self.task, self.view.moment, peer)
            && self.whom.is_meant(&peer.addr)
            && is_free_beside(self.task, &self.view.links, walk, &peer.addr)
    }

    // What is seen of a peer where peers are promoted, beside such a walk.
    #[inline(always)]
    pub fn look(&self, peer: &Peer, walk: &mut Walk) -> Seen
        requires promoting { self.now.task ≡ Task.Promoting }
        requires walk { walk.old ≡ self.now.view.now.links }
        ensures value { result ≡ seen self.now peer.now }
        ensures same { walk.new ≡ walk.old }
    {
        if !is_of(self.big, peer) {
            return Seen::Neither;
        }
        match walk.come_to(&peer.addr) {
            Some(spot) => self.look_at(peer, spot),
            None => self.look_alone(peer),
        }
    }

    // The same of one of the class whose links begin there.
    #[inline(always)]
    fn look_at(&self, peer: &Peer, spot: Spot) -> Seen
        requires promoting { self.now.task ≡ Task.Promoting }
        requires class { is_of self.now.big peer.now ≡ true }
        requires spot { IsSpot peer.now.addr self.now.view.now.links spot.place spot.run.now }
        ensures { result ≡ seen self.now peer.now }
    {
        if self.view.links.some_at(spot, &peer.addr, Mark::Pending) {
            return Seen::OnItsWay;
        }
        if self.is_ready_to_go(peer)
            && is_unlinked_or_acquirable(&self.view.links, spot, &peer.addr)
        {
            return Seen::Suits;
        }
        Seen::Neither
    }

    // The same of one of the class without links.
    fn look_alone(&self, peer: &Peer) -> Seen
        requires promoting { self.now.task ≡ Task.Promoting }
        requires class { is_of self.now.big peer.now ≡ true }
        requires alone { links_of peer.now.addr self.now.view.now.links ≡ [] }
        ensures { result ≡ seen self.now peer.now }
    {
        if self.is_ready_to_go(peer) {
            return Seen::Suits;
        }
        Seen::Neither
    }

    // What is asked of the peer itself, where peers are promoted.
    #[inline(always)]
    fn is_ready_to_go(&self, peer: &Peer) -> bool
        ensures { result ≡ (is_ready Task.Promoting self.now.view.now.moment peer.now && is_meant self.now.whom peer.now.addr) }
    {
        is_ready(Task::Promoting, self.view.moment, peer) && self.whom.is_meant(&peer.addr)
    }
}

// What is asked of the peer itself.
fn is_ready(task: Task, moment: u64, peer: &Peer) -> bool
    ensures { result ≡ is_ready task moment peer.now }
{
    match task {
        Task::Asking(_) => peer.temp != Temp::Cold && peer.share_next <= moment,
        Task::Forgetting => peer.temp == Temp::Cold,
        Task::Promoting => peer.temp == Temp::Cold && peer.not_before <= moment,
        Task::Releasing | Task::Activating => peer.temp == Temp::Warm,
        Task::Deactivating => peer.temp == Temp::Hot,
    }
}

// What is asked of the links of its address.
fn is_free(task: Task, links: &LinkList, addr: &Addr) -> bool
    ensures { result ≡ is_free task (say (links_of addr.now links.now)) }
{
    is_free_at(task, links, links.spot_of(addr), addr)
}

// The same beside a walk past the links.
fn is_free_beside(task: Task, links: &LinkList, walk: &mut Walk, addr: &Addr) -> bool
    requires { walk.old ≡ links.now }
    ensures value { result ≡ is_free task (say (links_of addr.now links.now)) }
    ensures same { walk.new ≡ walk.old }
{
    match walk.come_to(addr) {
        Some(spot) => is_free_at(task, links, spot, addr),
        None => is_free_alone(task),
    }
}

// The same of an address without links.
fn is_free_alone(task: Task) -> bool
    ensures { result ≡ is_free task (say []) }
{
    match task {
        Task::Asking(_) => false,
        Task::Forgetting
        | Task::Promoting
        | Task::Releasing
        | Task::Activating
        | Task::Deactivating => true,
    }
}

// The same where they begin there.
#[inline(always)]
fn is_free_at(task: Task, links: &LinkList, spot: Spot, addr: &Addr) -> bool
    requires { IsSpot addr.now links.now spot.place spot.run.now }
    ensures { result ≡ is_free task (say (links_of addr.now links.now)) }
{
    match task {
        Task::Asking(_) => links.some_at(spot, addr, Mark::CanShare),
        Task::Forgetting => !links.some_at(spot, addr, Mark::Pending),
        Task::Promoting => may_be_promoted(links, spot, addr),
        Task::Releasing => !links.some_at(spot, addr, Mark::OwesReply),
        Task::Activating => !links.some_at(spot, addr, Mark::Owes2),
        Task::Deactivating => true,
    }
}

fn may_be_promoted(links: &LinkList, spot: Spot, addr: &Addr) -> bool
    requires { IsSpot addr.now links.now spot.place spot.run.now }
    ensures { result ≡ is_free Task.Promoting (say (links_of addr.now links.now)) }
{
    !links.some_at(spot, addr, Mark::Pending) && is_unlinked_or_acquirable(links, spot, addr)
}

fn is_unlinked_or_acquirable(links: &LinkList, spot: Spot, addr: &Addr) -> bool
    requires { IsSpot addr.now links.now spot.place spot.run.now }
    ensures { result ≡ is_unlinked_or_acquirable (say (links_of addr.now links.now)) }
{
    !links.some_at(spot, addr, Mark::Entry) || links.some_at(spot, addr, Mark::Acquirable)
}
