ghost use Rattle.std.specs.Prelude.{◌≡◌, true, IfOk, OnOk};
ghost use Rattle.conn_state.specs.Use.{is_greeting};
ghost use Rattle.hs_decide.specs.Answers.{CanAnswer};
ghost use Rattle.hs_receive.specs.Receiving.{receives, CanBeAnswered};
ghost use Rattle.machine.specs.Greeting.{role_of, judged, decided};
ghost use Rattle.machine.specs.Own.{own_info};
ghost use Rattle.mux_segment.specs.Lent.{lent};
ghost use Rattle.node_engine.specs.Greets.{CanJudge, CanFollow, greeted_as};
ghost use Rattle.node_engine.specs.State.{DoesTo, IsKnown};

use crate::NodeState;
use crate::own::own_info;
use conn_table::Step;
use hs_decide::{Role, Verdict, answer};
use hs_receive::{Received, receive};
use mux_segment::{LentItem, RESPONDER};
use net_base::protocol::HANDSHAKE;
use net_base::{ActionList, CloseCause, Facts, FaultKind, OutOfMemory, Provenance};

impl NodeState {
    /// What an item comes to in the handshake of a connection.
    pub(crate) fn received(
        &self,
        facts: &Facts,
        item: &LentItem<'_>,
    ) -> Result<Received, OutOfMemory>
        ensures received { IfOk result (λ received. received
            ≡ receives Received.Fault Received.Decided (role_of facts.now.provenance) (own_info self.now.settings) (lent item.now)) }
        ensures answerable { IfOk result CanBeAnswered }
        ensures may { IfOk result (λ received. CanFollow received facts.now) }
    {
        let own = own_info(self.connections.settings());
        receive(self.alloc, role_of(facts.provenance), &own, item)
    }

    /// What an item came to in the handshake is carried out.
    pub(crate) fn greet_as(
        &mut self,
        facts: &Facts,
        received: Received,
        actions: &mut ActionList,
    ) -> Result<(), OutOfMemory>
        requires known { IsKnown facts.now self.old }
        requires greeting { is_greeting facts.now ≡ true }
        requires answerable { CanBeAnswered received }
        requires may { CanFollow received facts.now }
        ensures { OnOk result (DoesTo facts.now.cid.0 (greeted_as received) actions.old self.old self.new actions.new) }
    {
        match received {
            Received::Decided(verdict) => self.decide(facts, verdict, actions),
            Received::Fault(kind) => self.end(facts, CloseCause::Fault(kind), actions),
        }
    }

    // A verdict is told where it has an answer, and carried out.
    fn decide(
        &mut self,
        facts: &Facts,
        verdict: Verdict,
        actions: &mut ActionList,
    ) -> Result<(), OutOfMemory>
        requires known { IsKnown facts.now self.old }
        requires greeting { is_greeting facts.now ≡ true }
        requires answerable { CanAnswer verdict }
        requires may { CanJudge verdict facts.now }
        ensures { OnOk result (DoesTo facts.now.cid.0 (decided verdict) actions.old self.old self.new actions.new) }
    {
        let own = own_info(self.connections.settings());
        let Some(octets) = answer(self.alloc, &verdict, &own)? else {
            return self.follow_verdict(facts, verdict, actions);
        };
        self.send(facts.cid, RESPONDER, HANDSHAKE, octets.as_slice(), actions)?;
        self.follow_verdict(facts, verdict, actions)
    }

    // A verdict is carried out.
    fn follow_verdict(
        &mut self,
        facts: &Facts,
        verdict: Verdict,
        actions: &mut ActionList,
    ) -> Result<(), OutOfMemory>
        requires known { IsKnown facts.now self.old }
        requires greeting { is_greeting facts.now ≡ true }
        requires may { CanJudge verdict facts.now }
        ensures { OnOk result (DoesTo facts.now.cid.0 (judged verdict) actions.old self.old self.new actions.new) }
    {
        match verdict {
            // the connection is kept for the other side
            Verdict::Accept(agreed) => {
                let until = self.idle_end();
                self.turn(facts, Step::Negotiated(agreed, until), actions)
            }
            // who dialed uses it at once
            Verdict::Agree(agreed) => {
                let until = self.idle_end();
                self.come_into_use(facts, Step::Negotiated(agreed, until), actions)
            }
            Verdict::Refuse(_) | Verdict::Refused => {
                self.end(facts, CloseCause::Refused, actions)
            }
            Verdict::Query => self.end(facts, CloseCause::Query, actions),
            Verdict::Wrong => self.end(facts, CloseCause::Fault(FaultKind::Protocol), actions),
        }
    }
}

// Who was dialed accepts, and who dialed awaits an answer.
fn role_of(provenance: Provenance) -> Role
    ensures { result ≡ role_of provenance }
{
    match provenance {
        Provenance::FromRemote => Role::Acceptor,
        Provenance::FromLocal => Role::Dialer,
    }
}
