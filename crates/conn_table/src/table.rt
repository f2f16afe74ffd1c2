ghost use Rattle.std.specs.Prelude.{◌≡◌, ◌+◌, ◌<◌, ◌^◌, None, Some, length, slice_get, IsSome, IsSomeAnd, IfOk, OnOk, OnErr};
ghost use Rattle.std.specs.Option.{option_map};
ghost use Rattle.conn_state.specs.Counted.{counted};
ghost use Rattle.conn_state.specs.State.{facts_of};
ghost use Rattle.conn_state.specs.Use.{facts_at, live_at};
ghost use Rattle.conn_table.specs.Answers.{any_at, any_acquirable, is_leased, lease_of, may_acquire};
ghost use Rattle.conn_table.specs.Calls.{CanAdmit, CanDial, CanConnect, CanNegotiate, CanRelease, CanStart, CanStop, CanEndGrace, CanDrop, CanDropLeased};
ghost use Rattle.conn_table.specs.Calls.{after_admit, after_dial, after_connect, after_negotiate, after_acquire_at, after_release, after_awake, after_idle, after_grace, after_drop};
ghost use Rattle.conn_table.specs.Calls.{next_id, negotiated_lease, acquire_at, grace_end_at};
ghost use Rattle.conn_table.specs.Index.{index_of, placed_of, IsRising};
ghost use Rattle.conn_table.specs.Finds.{id_place, StandsAt};
ghost use Rattle.conn_table.specs.Rosters.{OnlyLastLives};
ghost use Rattle.conn_table.specs.Conditions.{CanStep, after_step};
ghost use Rattle.conn_table.specs.Table.{empty_table, with_entered, with_moved, IdsRise};
ghost use Rattle.net_base.specs.Bounds.{AreSound};

use crate::roster::Roster;
use crate::step::Step;
use crate::{Acquire, GraceEnd, LocalLease, Placed, PlacedList};
use conn_state::facts::{is_acquirable, is_outbound};
use conn_state::names::name_of;
use conn_state::{ConnState, ReservedOutbound, Unnegotiated};
use net_base::{Addr, Agreed, Cid, Facts, OutOfMemory, Settings};
use std::alloc::Global;
use std::marker::Model;

/// The connections that stand, in order of id. Contracts see them as a list, with the settings and with the number
/// of ids that were given.
#[derive(Drop)]
pub struct ConnTable {
    settings: Settings,
    roster: Roster,
    // by address and then id
    index: PlacedList,
}

impl Model for ConnTable {
    ghost use Rattle.conn_table.specs.Rosters.{IsSettled, facts_kept};
    ghost use Rattle.conn_table.specs.Table.{Table};

    ghost Value = { Table };

    ghost view = { λ t. record { settings = t.settings; facts = facts_kept t.roster; given = t.roster.given } };

    ghost invariant = { λ t. IsSettled t.settings t.roster t.index };
}

impl ConnTable {
    /// No connection yet, and no id given. Takes no memory.
    pub fn new(alloc: Global, settings: &Settings) -> ConnTable
        requires { AreSound settings.now }
        ensures { result ≡ empty_table settings.now }
    {
        ConnTable {
            settings: *settings,
            roster: Roster::new(alloc),
            index: PlacedList::new(alloc),
        }
    }

    /// Lets in a peer that connected at a moment, under the next id. Its handshake may take as long as the settings
    /// say. A refusal changes nothing. Later moves of the connection take no memory.
    pub fn admit(&mut self, addr: Addr, now: u64) -> Result<Cid, OutOfMemory>
        requires { CanAdmit addr now self.old }
        ensures id { IfOk result (λ cid. cid ≡ next_id self.old) }
        ensures ok { OnOk result (self.new ≡ after_admit addr now self.old) }
        ensures err { OnErr result (self.new ≡ self.old) }
    {
        let cid = Cid(self.roster.given + 1);
        let until = now + self.settings.handshake;
        let state = Unnegotiated::accepted(cid, addr, until);
        self.enter(ConnState::Unnegotiated(state))?;
        Ok(cid)
    }

    /// This side begins to dial an address, under the next id. A refusal changes nothing. Later moves of the connection
    /// take no memory.
    pub fn dial(&mut self, addr: Addr) -> Result<Cid, OutOfMemory>
        requires { CanDial addr self.old }
        ensures id { IfOk result (λ cid. cid ≡ next_id self.old) }
        ensures ok { OnOk result (self.new ≡ after_dial addr self.old) }
        ensures err { OnErr result (self.new ≡ self.old) }
    {
        let cid = Cid(self.roster.given + 1);
        let state = ReservedOutbound::new(cid, addr);
        self.enter(ConnState::ReservedOutbound(state))?;
        Ok(cid)
    }

    /// The dialed socket is open, and the handshake begins.
    pub fn connected(&mut self, cid: Cid, now: u64)
        requires { CanConnect cid.0 now self.old }
        ensures { self.new ≡ after_connect cid.0 now self.old }
    {
        let until = now + self.settings.handshake;
        self.turn(cid, Step::Connected(until));
    }

    /// The handshake is over. A lease comes with a connection that this side dialed.
    pub fn negotiated(&mut self, cid: Cid, agreed: Agreed, now: u64) -> Option<LocalLease>
        requires { CanNegotiate cid.0 now self.old }
        ensures lease { result ≡ negotiated_lease cid.0 self.old }
        ensures table { self.new ≡ after_negotiate cid.0 agreed now self.old }
    {
        let until = now + self.settings.idle;
        let facts = self.turn(cid, Step::Negotiated(agreed, until));
        lease_by(&facts)
    }

    /// Takes the connection of an address into local use, where it may be.
    pub fn acquire(&mut self, addr: Addr) -> Acquire
        ensures answer { result ≡ acquire_at addr self.old }
        ensures table { self.new ≡ after_acquire_at addr self.old }
        ensures leased { is_leased result ≡ any_acquirable addr self.old.facts }
        ensures last_lives { OnlyLastLives self.old.facts }
    {
        match self.live(addr) {
            None => Acquire::NoSuch,
            Some(place) => self.acquire_at(addr, place),
        }
    }

    /// This side uses a connection no more.
    pub fn release(&mut self, lease: LocalLease, now: u64)
        requires { CanRelease lease.0 now self.old }
        ensures { self.new ≡ after_release lease.0 now self.old }
    {
        let until = now + self.settings.idle;
        self.turn(lease.cid(), Step::Release(until));
    }

    /// The other side starts the responder of a protocol.
    pub fn awake(&mut self, cid: Cid, protocol: u16)
        requires { CanStart cid.0 protocol self.old }
        ensures { self.new ≡ after_awake cid.0 protocol self.old }
    {
        self.turn(cid, Step::Awake(protocol));
    }

    /// The responder of a protocol stops.
    pub fn idle(&mut self, cid: Cid, protocol: u16, now: u64)
        requires { CanStop cid.0 protocol now self.old }
        ensures { self.new ≡ after_idle cid.0 protocol now self.old }
    {
        let until = now + self.settings.idle;
        self.turn(cid, Step::Idle(protocol, until));
    }

    /// The grace of a connection is over. Where it is in no use, this side closes it.
    pub fn grace_over(&mut self, cid: Cid, now: u64) -> GraceEnd
        requires { CanEndGrace cid.0 now self.old }
        ensures answer { Some result ≡ grace_end_at cid.0 self.old }
        ensures table { self.new ≡ after_grace cid.0 now self.old }
    {
        let until = now + self.settings.timewait;
        let facts = self.turn(cid, Step::GraceOver(until));
        if facts.local {
            GraceEnd::Expired
        } else {
            GraceEnd::Closing
        }
    }

    /// A connection goes.
    pub fn drop_conn(&mut self, cid: Cid)
        requires { CanDrop cid.0 self.old }
        ensures { self.new ≡ after_drop cid.0 self.old }
    {
        self.remove(cid);
    }

    /// A connection in local use goes.
    pub fn drop_leased(&mut self, lease: LocalLease)
        requires { CanDropLeased lease.0 self.old }
        ensures { self.new ≡ after_drop lease.0 self.old }
    {
        self.remove(lease.cid());
    }

    /// What is known of the connection with an id. None where there is none.
    pub fn facts(&self, cid: Cid) -> Option<Facts>
        ensures { result ≡ facts_at cid.0 self.now.facts }
    {
        self.roster.facts(cid).copied()
    }

    /// The id of the live connection with an address. None where there is none.
    pub fn live_of(&self, addr: Addr) -> Option<Cid>
        ensures value { result ≡ option_map (λ f. f.cid) (live_at addr self.now.facts) }
        ensures last_lives { OnlyLastLives self.now.facts }
    {
        let place = self.live(addr)?;
        Some(self.roster.at(place).cid)
    }

    /// Whether some connection has an address, closed or not.
    pub fn any_of(&self, addr: Addr) -> bool
        ensures { result ≡ any_at addr self.now.facts }
    {
        self.index.last_at(addr).is_some()
    }

    /// How many connections the limits count.
    pub fn counted(&self) -> u64
        ensures { result ≡ counted self.now.facts }
    {
        self.roster.counted
    }

    /// How many ids were given. They are given from 1 on.
    pub fn given(&self) -> u64
        ensures value { result ≡ self.now.given }
        ensures ids { IdsRise 0 self.now.given self.now.facts }
    {
        self.roster.given
    }

    /// The address and id of every connection, in order of address and then id.
    pub fn index(&self) -> &PlacedList
        ensures value { result.now ≡ index_of self.now.facts }
        ensures rising { IsRising result.now }
    {
        &self.index
    }

    /// The settings that the table was made with.
    pub fn settings(&self) -> &Settings
        ensures value { result.now ≡ self.now.settings }
        ensures sound { AreSound result.now }
    {
        &self.settings
    }

    /// How many connections stand.
    pub fn len(&self) -> usize
        ensures { result ≡ length self.now.facts }
    {
        self.roster.states.len()
    }

    /// What is known of the connection at a place, from 0, in order of id.
    pub fn at(&self, place: usize) -> Facts
        requires { place < length self.now.facts }
        ensures { slice_get self.now.facts place ≡ Some result }
    {
        *self.roster.at(place)
    }

    /// How many connections have a lower id. The one with the id stands at that place, where there is one.
    pub fn place_of(&self, cid: Cid) -> usize
        ensures { result ≡ id_place cid.0 self.now.facts }
    {
        self.roster.place_of(cid)
    }

    // Where the live connection of an address stands.
    fn live(&self, addr: Addr) -> Option<usize>
        ensures value { StandsAt self.now.facts (live_at addr self.now.facts) result }
        ensures only { may_acquire (live_at addr self.now.facts) ≡ any_acquirable addr self.now.facts }
        ensures last_lives { OnlyLastLives self.now.facts }
    {
        let last = self.index.last_at(addr)?;
        self.roster.if_live(last)
    }

    // Takes in a connection under the next id. A refusal changes nothing.
    fn enter(&mut self, state: ConnState) -> Result<(), OutOfMemory>
        requires next { (facts_of state).cid.0 ≡ self.old.given + 1 }
        requires few { self.old.given < 2 ^ 48 }
        requires alone { live_at (facts_of state).addr self.old.facts ≡ None }
        ensures ok { OnOk result (self.new ≡ with_entered (facts_of state) self.old) }
        ensures err { OnErr result (self.new ≡ self.old) }
    {
        let placed = placed(state.as_facts());
        self.index.insert(placed)?;
        match self.roster.enter(state) {
            Ok(()) => Ok(()),
            Err(refused) => {
                self.index.remove(placed);
                Err(refused)
            }
        }
    }

    // The connection with an id makes a move that it has. The answer is what was known of it before.
    fn turn(&mut self, cid: Cid, step: Step) -> Facts
        requires { IsSomeAnd (facts_at cid.0 self.old.facts) (CanStep step) }
        ensures was { facts_at cid.0 self.old.facts ≡ Some result }
        ensures table { self.new ≡ with_moved cid.0 (after_step step) self.old }
    {
        self.roster.turn(cid, step)
    }

    // A connection that stands goes.
    fn remove(&mut self, cid: Cid)
        requires { IsSome (facts_at cid.0 self.old.facts) }
        ensures { self.new ≡ after_drop cid.0 self.old }
    {
        let facts = self.roster.remove(cid);
        self.index.remove(placed(&facts));
    }

    // Takes the live connection of an address, which stands at a place, into use.
    fn acquire_at(&mut self, addr: Addr, place: usize) -> Acquire
        requires { StandsAt self.old.facts (live_at addr self.old.facts) (Some place) }
        ensures answer { result ≡ acquire_at addr self.old }
        ensures table { self.new ≡ after_acquire_at addr self.old }
    {
        let facts = self.roster.at(place);
        if !is_acquirable(facts) {
            return Acquire::NotReusable(name_of(facts));
        }
        let cid = facts.cid;
        self.turn(cid, Step::Acquire);
        Acquire::Leased(LocalLease::new(cid))
    }
}

// A lease comes with an outbound connection.
fn lease_by(facts: &Facts) -> Option<LocalLease>
    ensures { result ≡ lease_of facts.now }
{
    if is_outbound(facts) {
        Some(LocalLease::new(facts.cid))
    } else {
        None
    }
}

fn placed(facts: &Facts) -> Placed
    ensures { result ≡ placed_of facts.now }
{
    Placed {
        addr: facts.addr,
        cid: facts.cid,
    }
}
