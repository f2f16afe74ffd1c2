ghost use Rattle.std.specs.Prelude.{◌≡◌, ◌+◌, ◌++◌, ◌∷◌, ◌≤◌, ◌^◌, [], true, None, IfSome, IsSome, OnOk, OnErr};
ghost use Rattle.accept_gate.specs.Prune.{rank_of};
ghost use Rattle.conn_state.specs.State.{facts_of};
ghost use Rattle.conn_state.specs.Use.{live_at};
ghost use Rattle.conn_table.specs.Finds.{id_place};
ghost use Rattle.conn_table.specs.Rosters.{facts_kept};
ghost use Rattle.connections.specs.Linked.{IsLinked, IsLinkedBut, IsLinkedIf, sight_of};
ghost use Rattle.connections.specs.Ordered.{reranked};
ghost use Rattle.connections.specs.Standing.{come, entry_with};
ghost use Rattle.connections.specs.Timed.{IsTimed, IsTimedBut};
ghost use Rattle.prune_order.specs.Order.{stands};

use crate::link::link_of;
use crate::sight::{Sight, sight_of};
use crate::talk::Talk;
use crate::timed::retime;
use accept_gate::rank;
use chunked_list::ChunkedList;
use conn_state::ConnState;
use conn_table::Roster;
use links::Links;
use net_base::{Cid, Facts, OutOfMemory, Settings};
use prune_order::PruneOrder;
use std::alloc::Global;
use timer_queue::TimerQueue;

// What is kept of the connections that stand. Their timers and links follow it.
#[derive(Drop)]
pub struct Kept {
    pub settings: Settings,
    pub roster: Roster,
    // one for each connection of the roster, in the same order
    pub talks: ChunkedList<Talk>,
    // which of them goes first where there are too many
    pub order: PruneOrder,
}

impl Kept {
    ghost use Rattle.connections.specs.Kept.{IsWhole, standing};

    // One more connection, of which nothing is read or owed yet. A refusal changes nothing.
    pub fn enter(&mut self, alloc: Global, state: ConnState) -> Result<(), OutOfMemory>
        requires whole { IsWhole self.old }
        requires next { (facts_of state).cid.0 ≡ self.old.roster.given + 1 }
        requires few { self.old.roster.given + 1 ≤ 2 ^ 48 }
        requires alone { live_at (facts_of state).addr (facts_kept self.old.roster) ≡ None }
        ensures whole { IsWhole self.new }
        ensures ok { OnOk result (standing self.new ≡ come (facts_of state) (standing self.old)) }
        ensures err { OnErr result (standing self.new ≡ standing self.old) }
    {
        let cid = state.as_facts().cid;
        let rank = rank(state.as_facts());
        self.order.make_room()?;
        let place = self.talks.len();
        self.talks.push(Talk::new(alloc))?;
        let entered = self.roster.enter(state);
        if entered.is_err() {
            self.talks.remove(place);
        } else {
            self.order.come(cid, rank);
        }
        entered
    }

    // What the rules see of a connection that stands at a place.
    #[inline(always)]
    pub fn sight(&self, cid: Cid, place: usize) -> Sight
        requires whole { IsWhole self.now }
        requires place { place ≡ id_place cid.0 (facts_kept self.now.roster) }
        requires stands { IsSome (entry_with cid.0 (standing self.now)) }
        ensures { IfSome (entry_with cid.0 (standing self.now)) (λ e. result ≡ sight_of e) }
    {
        let facts = self.roster.at(place);
        let talk = self.talks.at(place);
        sight_of(facts, &talk.replies)
    }

    // The deadlines of a connection are its timers, and what the rules see of it is its link. Most moves leave what was seen of
    // it before, and then no link is looked for.
    #[inline(always)]
    pub fn follow(
        &self,
        cid: Cid,
        place: usize,
        seen: Sight,
        timers: &mut TimerQueue,
        links: &mut Links,
    )
        requires whole { IsWhole self.now }
        requires place { place ≡ id_place cid.0 (facts_kept self.now.roster) }
        requires timed { IsTimedBut cid (standing self.now) timers.old }
        requires linked { IsLinkedBut cid (standing self.now) links.old }
        requires stays { IsLinkedIf seen cid (standing self.now) links.old }
        ensures timed { IsTimed (standing self.now) timers.new }
        ensures linked { IsLinked (standing self.now) links.new }
    {
        let facts = self.roster.at(place);
        let talk = self.talks.at(place);
        retime(timers, facts, &talk.replies);
        if sight_of(facts, &talk.replies) == seen {
            return;
        }
        links.set(link_of(facts, &talk.replies));
    }
}

// Where a connection that moved has another rank than before, it is told in which order it goes now. Most moves leave its
// rank, and then nothing is looked for.
pub fn rerank(order: &mut PruneOrder, was: &Facts, is: &Facts)
    requires { stands was.now.cid order.old.rows ≡ true }
    ensures rows { order.new.rows ≡ reranked was.now.cid (rank_of was.now) (rank_of is.now) order.old.rows }
    ensures last { order.new.last ≡ order.old.last }
{
    let old = rank(was);
    let new = rank(is);
    if old != new {
        order.turn(was.cid, new);
    }
}
