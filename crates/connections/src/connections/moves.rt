ghost use Rattle.std.specs.Prelude.{◌≡◌, ◌≤◌, ◌+◌, ◌^◌, false, true, None, IsSomeAnd, IsSome, IfSome, IfOk, OnOk, OnErr};
ghost use Rattle.conn_state.specs.Moves.{accepted, dialing};
ghost use Rattle.conn_state.specs.Names.{name_of};
ghost use Rattle.conn_state.specs.State.{facts_of};
ghost use Rattle.conn_state.specs.Use.{live_at};
ghost use Rattle.conn_table.specs.Answers.{any_at};
ghost use Rattle.conn_table.specs.Conditions.{CanStep};
ghost use Rattle.timer_queue.specs.Queue.{IsOrderly, with_enrolled};
ghost use Rattle.links.specs.Link.{place_of};
ghost use Rattle.machine.specs.Govern.{link_of};
ghost use Rattle.net_base.specs.Shared.{nothing_undecoded};
ghost use Rattle.links.specs.Rows.{stands_at, with_new};
ghost use Rattle.connections.specs.Linked.{IsRelinked};
ghost use Rattle.connections.specs.Standing.{entry_with, live_entry, facts_in, come, gone, Turns};
ghost use Rattle.connections.specs.Steps.{closes, stepped};

use super::Connections;
use crate::kept::rerank;
use crate::link::link_of;
use crate::replies::Replies;
use crate::sight::sight_of;
use crate::talk::unread_at;
use crate::timed::{retime, retime_by};
use conn_state::names::name_of;
use conn_state::{ConnState, ReservedOutbound, Unnegotiated};
use conn_table::{Placed, Step};
use govern_rules::Link;
use links::{Links, place_of};
use net_base::{Addr, Cid, Facts, OutOfMemory, StateName};
use timer_queue::TimerQueue;

impl Connections {
    /// Lets in a peer that connected at a moment, under the next id. Its handshake may take as long as the settings say. A
    /// refusal changes nothing.
    pub fn admit(&mut self, addr: Addr, now: u64) -> Result<Cid, OutOfMemory>
        requires no_live { live_entry addr self.old ≡ None }
        requires few_ids { self.old.next_id ≤ 2 ^ 48 }
        requires moment { now ≤ 2 ^ 48 }
        ensures id { IfOk result (λ cid. cid.0 ≡ self.old.next_id) }
        ensures ok { OnOk result
            (self.new ≡ come (accepted self.old.next_id addr (now + self.old.settings.handshake)) self.old) }
        ensures err { OnErr result (self.new ≡ self.old) }
    {
        let cid = self.next_id();
        let until = now + self.kept.settings.handshake;
        let state = Unnegotiated::accepted(cid, addr, until);
        self.enter(ConnState::Unnegotiated(state))?;
        Ok(cid)
    }

    /// This node begins to dial an address, under the next id. A refusal changes nothing.
    pub fn dial(&mut self, addr: Addr) -> Result<Cid, OutOfMemory>
        requires none { any_at addr (facts_in self.old) ≡ false }
        requires few_ids { self.old.next_id ≤ 2 ^ 48 }
        ensures id { IfOk result (λ cid. cid.0 ≡ self.old.next_id) }
        ensures ok { OnOk result (self.new ≡ come (dialing self.old.next_id addr) self.old) }
        ensures err { OnErr result (self.new ≡ self.old) }
    {
        let cid = self.next_id();
        let state = ReservedOutbound::new(cid, addr);
        self.enter(ConnState::ReservedOutbound(state))?;
        Ok(cid)
    }

    /// A connection makes a move that it has. The answer is its name then. Where this side closes it by that, what came in and is not decoded is dropped.
    pub fn turn(&mut self, cid: Cid, step: Step) -> StateName
        requires { IsSomeAnd (entry_with cid.0 self.old) (λ e. CanStep step e.facts) }
        ensures turns { Turns cid.0 (stepped step) self.old self.new }
        ensures name { IfSome (entry_with cid.0 self.new) (λ e. result ≡ name_of e.facts) }
    {
        let place = self.kept.roster.place_of(cid);
        let was = self.kept.roster.turn_at(place, step);
        unread_at(&mut self.kept.talks, place, self.alloc, closes(step, &was));
        let is = self.kept.roster.at(place);
        let replies = &self.kept.talks.at(place).replies;
        rerank(&mut self.kept.order, &was, is);
        retime_by(step, &mut self.timers, &was, is, replies);
        relink(&mut self.links, &was, is, replies);
        name_of(is)
    }

    /// A connection goes.
    pub fn remove(&mut self, cid: Cid)
        requires { IsSome (entry_with cid.0 self.old) }
        ensures { self.new ≡ gone cid.0 self.old }
    {
        let place = self.kept.roster.place_of(cid);
        let Facts { addr, .. } = self.kept.roster.remove_at(place);
        self.kept.talks.remove(place);
        self.links.leave(Placed { addr, cid });
        self.timers.leave(cid);
        self.kept.order.leave(cid);
    }

    // The id that the next connection is given.
    fn next_id(&self) -> Cid
        requires { self.now.next_id ≤ 2 ^ 48 }
        ensures { result.0 ≡ self.now.next_id }
    {
        Cid(self.kept.roster.given + 1)
    }

    // One more connection, under the next id, of which nothing is read or owed yet. A refusal changes nothing.
    #[inline(always)]
    fn enter(&mut self, state: ConnState) -> Result<(), OutOfMemory>
        requires next { (facts_of state).cid.0 ≡ self.old.next_id }
        requires few { self.old.next_id ≤ 2 ^ 48 }
        requires alone { live_at (facts_of state).addr (facts_in self.old) ≡ None }
        ensures ok { OnOk result (self.new ≡ come (facts_of state) self.old) }
        ensures err { OnErr result (self.new ≡ self.old) }
    {
        let facts = state.facts();
        let nothing_owed = Replies::new();
        enroll(
            &mut self.timers,
            &mut self.links,
            link_of(&facts, &nothing_owed),
        )?;
        match self.kept.enter(self.alloc, state) {
            Ok(()) => {
                retime(&mut self.timers, &facts, &nothing_owed);
                Ok(())
            }
            Err(refusal) => {
                self.timers.leave(facts.cid);
                self.links.leave(Placed {
                    addr: facts.addr,
                    cid: facts.cid,
                });
                Err(refusal)
            }
        }
    }
}

// What the rules see of a connection is its link. Most moves leave what was seen of it before, and then no link is looked for.
#[inline(always)]
fn relink(links: &mut Links, was: &Facts, is: &Facts, replies: &Replies)
    requires { stands_at (place_of (link_of (record { facts = is.now; undecoded = nothing_undecoded; owed = replies.now }))) links.old ≡ true }
    ensures { IsRelinked (record { facts = was.now; undecoded = nothing_undecoded; owed = replies.now })
        (record { facts = is.now; undecoded = nothing_undecoded; owed = replies.now }) links.old links.new }
{
    if sight_of(was, replies) == sight_of(is, replies) {
        return;
    }
    links.set(link_of(is, replies));
}

// Whether this side closes a connection by a step.
fn closes(step: Step, facts: &Facts) -> bool
    ensures { result ≡ closes step facts.now }
{
    match step {
        Step::GraceOver(_) => !facts.local,
        Step::Connected(_)
        | Step::Negotiated(..)
        | Step::Acquire
        | Step::Release(_)
        | Step::Awake(_)
        | Step::Idle(..) => false,
    }
}

// One more connection has room for its timers, and a link. A refusal changes nothing.
fn enroll(timers: &mut TimerQueue, links: &mut Links, link: Link) -> Result<(), OutOfMemory>
    requires { stands_at (place_of link) links.old ≡ false }
    ensures timers { OnOk result (timers.new ≡ with_enrolled link.cid timers.old) }
    ensures links { OnOk result (links.new ≡ with_new link links.old) }
    ensures timers_stay { OnErr result (timers.new ≡ timers.old) }
    ensures links_stay { OnErr result (links.new ≡ links.old) }
    ensures orderly { OnOk result (IsOrderly timers.new) }
{
    links.enroll(link)?;
    let enrolled = timers.enroll(link.cid);
    if enrolled.is_err() {
        links.leave(place_of(&link));
    }
    enrolled
}
