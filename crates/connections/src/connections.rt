ghost use Rattle.std.specs.Prelude.{◌≡◌, Some, IfSome, map};
ghost use Rattle.std.specs.Option.{option_copied, option_map};
ghost use Rattle.conn_state.specs.Counted.{counted};
ghost use Rattle.net_base.specs.Bounds.{AreSound};
ghost use Rattle.conn_state.specs.Use.{live_at};
ghost use Rattle.conn_table.specs.Finds.{newest};
ghost use Rattle.conn_table.specs.Index.{last_at, placed_of};
ghost use Rattle.conn_table.specs.Rosters.{IsKept, facts_kept};
ghost use Rattle.links.specs.Link.{place_of};
ghost use Rattle.links.specs.Rows.{AreInOrder};
ghost use Rattle.connections.specs.Standing.{none_standing, facts_in, entry_with, live_entry, used_entry, if_used};

mod moves;
mod overview;
mod talking;

use crate::kept::Kept;
use chunked_list::ChunkedList;
use conn_table::{Recent, Roster};
use links::Links;
use net_base::{Addr, Cid, Facts, Settings};
use prune_order::PruneOrder;
use std::alloc::Global;
use std::marker::Model;
use timer_queue::TimerQueue;

/// The connections that stand, with what is read and owed of each, in order of id, their deadlines as timers, and what
/// the rules see of them.
pub struct Connections {
    alloc: Global,
    kept: Kept,
    timers: TimerQueue,
    links: Links,
}

impl Model for Connections {
    ghost use Rattle.connections.specs.Kept.{IsWhole, standing};
    ghost use Rattle.connections.specs.Standing.{Standing};
    ghost use Rattle.connections.specs.Linked.{IsLinked};
    ghost use Rattle.connections.specs.Timed.{IsTimed};

    ghost Value = { Standing };

    ghost view = { λ c. standing c.kept };

    ghost invariant = { λ c. IsWhole c.kept × (IsTimed (standing c.kept) c.timers × IsLinked (standing c.kept) c.links) };
}

// By hand, so that it is a function, and not said anew in each function that may let them go.
impl Drop for Connections {
    fn drop(self) {
        let Connections {
            alloc: _,
            kept: _,
            timers: _,
            links: _,
        } = self;
    }
}

impl Connections {
    /// No connection yet, and no id given. Takes no memory.
    pub fn new(alloc: Global, settings: &Settings) -> Connections
        requires { AreSound settings.now }
        ensures { result ≡ none_standing settings.now }
    {
        Connections {
            alloc,
            kept: Kept {
                settings: *settings,
                roster: Roster::new(alloc),
                talks: ChunkedList::new(alloc),
                order: PruneOrder::new(alloc),
            },
            timers: TimerQueue::new(alloc),
            links: Links::new(alloc),
        }
    }

    /// The settings that they were made with.
    pub fn settings(&self) -> &Settings
        ensures value { result.now ≡ self.now.settings }
        ensures sound { AreSound result.now }
    {
        &self.kept.settings
    }

    /// How many connections the limits count.
    pub fn counted(&self) -> u64
        ensures { result ≡ counted (facts_in self.now) }
    {
        self.kept.roster.counted
    }

    /// What is known of the connection with an id. None where there is none.
    pub fn facts(&self, cid: Cid) -> Option<&Facts>
        ensures { option_copied result ≡ option_map (λ e. e.facts) (entry_with cid.0 self.now) }
    {
        self.kept.roster.facts(cid)
    }

    /// The same, so that the next look for the connection is short.
    pub fn look_up(&mut self, cid: Cid) -> Option<Facts>
        ensures found { result ≡ option_map (λ e. e.facts) (entry_with cid.0 self.old) }
        ensures same { self.new ≡ self.old }
    {
        let place = self.kept.roster.place_of(cid);
        self.kept.roster.recent = Some(Recent { cid, place });
        self.kept.roster.facts(cid).copied()
    }

    /// The live connection of an address, so that one more of the address is let in after a short search. None where there is
    /// none.
    pub fn live(&mut self, addr: Addr) -> Option<Facts>
        ensures value { result ≡ option_map (λ e. e.facts) (live_entry addr self.old) }
        ensures by_id { IfSome (live_entry addr self.old) (λ e. entry_with e.facts.cid.0 self.old ≡ Some e) }
        ensures same { self.new ≡ self.old }
    {
        live_in(&mut self.links, &self.kept.roster, addr)
    }

    /// The same, where this node uses it.
    pub fn used(&mut self, addr: Addr) -> Option<Facts>
        ensures value { result ≡ option_map (λ e. e.facts) (used_entry addr self.old) }
        ensures by_id { IfSome (used_entry addr self.old) (λ e. entry_with e.facts.cid.0 self.old ≡ Some e) }
        ensures same { self.new ≡ self.old }
    {
        if_used(live_in(&mut self.links, &self.kept.roster, addr))
    }
}

// The live connection of an address, whose last link tells which it may be.
fn live_in(links: &mut Links, roster: &Roster, addr: Addr) -> Option<Facts>
    requires kept { IsKept roster.now }
    requires last { AreInOrder links.old → last_at addr (map place_of links.old) ≡ option_map placed_of (newest addr (facts_kept roster.now)) }
    ensures value { result ≡ live_at addr (facts_kept roster.now) }
    ensures same { links.new ≡ links.old }
{
    let last = links.last_at(addr)?;
    let place = roster.if_live(last)?;
    Some(*roster.at(place))
}

// A connection that was found, where it is in local use.
fn if_used(found: Option<Facts>) -> Option<Facts>
    ensures { result ≡ if_used found }
{
    let facts = found?;
    facts.local.then_some(facts)
}
