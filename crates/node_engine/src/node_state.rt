ghost use Rattle.std.specs.Prelude.{◌≡◌, ◌≤◌, ◌+◌, ◌^◌, map, OnOk};
ghost use Rattle.laws.specs.Steady.{IsSteady};
ghost use Rattle.machine.specs.Deadlines.{deadlines};
ghost use Rattle.machine.specs.Machine.{start_of};
ghost use Rattle.machine.specs.Peers.{peer_at};
ghost use Rattle.machine.specs.Step.{step};
ghost use Rattle.net_base.specs.Bounds.{AreSound};
ghost use Rattle.net_base.specs.Limits.{IsWithinLimits};
ghost use Rattle.node_engine.specs.Blank.{blank};
ghost use Rattle.node_engine.specs.State.{Does};
ghost use Rattle.node_engine.specs.Tally.{tally_of};
ghost use Rattle.timer_queue.specs.Queue.{IsOrderly};
ghost use Rattle.timer_queue.specs.Timers.{HaveSame};

mod events;
mod governor;
mod moves;

use crate::Tally;
use connections::Connections;
use mux_segment::PackedItems;
use net_base::{ActionList, Addr, Event, Ip, OutOfMemory, Peer, Settings};
use peers::Peers;
use pick_policy::{Picker, RankedPicker};
use std::alloc::Global;
use std::marker::Model;
use timer_queue::TimerQueue;

/// What a node knows. Contracts see the machine's record.
pub struct NodeState {
    alloc: Global,
    moment: u64,
    peers: Peers,
    connections: Connections,
    // memory in which the items of an event stand
    memory: PackedItems,
}

impl Model for NodeState {
    ghost use Rattle.std.specs.Prelude.{◌≤◌, ◌^◌};
    ghost use Rattle.machine.specs.Machine.{Machine};
    ghost use Rattle.node_engine.specs.State.{machine_of};

    ghost Value = { Machine };

    ghost view = { λ s. machine_of s.moment s.peers s.connections };

    ghost invariant = { λ s. s.moment ≤ 2 ^ 48 };
}

// By hand, so that it is a function, and not said anew wherever a state is let go.
impl Drop for NodeState {
    fn drop(self) {
        let NodeState {
            alloc: _,
            moment: _,
            peers: _,
            connections: _,
            memory: _,
        } = self;
    }
}

impl NodeState {
    /// Nothing has happened yet.
    pub(crate) fn new(alloc: Global, settings: &Settings) -> NodeState
        requires { AreSound settings.now }
        ensures { result ≡ start_of settings.now }
    {
        NodeState {
            alloc,
            moment: 0,
            peers: Peers::new(alloc),
            connections: Connections::new(alloc, settings),
            memory: PackedItems::new(alloc),
        }
    }

    /// All that is known is given up, and the settings with it. Takes no memory.
    pub(crate) fn forget(&mut self)
        ensures { self.new ≡ blank }
    {
        let nowhere = Addr {
            ip: Ip::V4(0),
            port: 0,
        };
        *self = NodeState::new(self.alloc, &Settings::usual(nowhere));
    }

    /// What happens to the node, with what it does about it behind the actions before.
    pub(crate) fn respond(
        &mut self,
        event: &Event,
        picker: &Picker,
        ranked: &RankedPicker,
        actions: &mut ActionList,
    ) -> Result<(), OutOfMemory>
        requires steady { IsSteady self.old }
        requires few_ids { self.old.next_id + 60000 ≤ 2 ^ 48 }
        requires few_jobs { self.old.roots.next_job ≤ 2 ^ 48 }
        requires within { IsWithinLimits event.now }
        ensures { OnOk result (Does (step self.old event.now) actions.old self.new actions.new) }
    {
        match event {
            Event::Now(moment) => self.clock_shows(*moment, actions),
            Event::Govern(word) => self.govern(*word, picker, ranked, actions),
            Event::Accepted(addr) => self.accept(*addr, actions),
            Event::Dialed(cid, opened) => self.dial_ends(*cid, *opened, actions),
            Event::Bytes(cid, bytes) => self.bytes_come_in(*cid, bytes.as_slice(), actions),
            Event::Closed(cid) => self.close(*cid, actions),
            Event::Aims(targets) => {
                self.peers.set_targets(*targets);
                Ok(())
            }
            Event::Locals(groups) => self.locals_are(groups, actions),
            Event::Roots(job, answer) => self.roots_answer(*job, answer, actions),
            Event::BigAims(targets) => {
                self.peers.set_big_targets(*targets);
                Ok(())
            }
            Event::Bigs(addrs) => self.bigs_are(addrs.as_slice(), actions),
        }
    }

    /// The moment that the clock showed last.
    pub(crate) fn moment(&self) -> u64
        ensures value { result ≡ self.now.now }
        ensures bound { result ≤ 2 ^ 48 }
    {
        self.moment
    }

    /// The timers: the deadlines of all connections.
    pub(crate) fn timers(&self) -> &TimerQueue
        ensures enrolled { result.now.enrolled ≡ map (λ e. e.facts.cid) self.now.connections }
        ensures timers { HaveSame result.now.timers (deadlines self.now) }
        ensures orderly { IsOrderly result.now }
    {
        self.connections.timers()
    }

    /// What is known of a peer. None where there is none with the address.
    pub(crate) fn peer(&self, addr: Addr) -> Option<Peer>
        ensures { result ≡ peer_at addr self.now }
    {
        self.peers.book().get(addr)
    }

    /// How many peers and connections there are.
    pub(crate) fn tally(&self) -> Tally
        ensures { result ≡ tally_of self.now }
    {
        let book = self.peers.book();
        Tally {
            known: book.known(),
            established: book.established(),
            active: book.active(),
            counted: self.connections.counted(),
            big_known: book.big_known(),
            big_established: book.big_established(),
            big_active: book.big_active(),
        }
    }
}
