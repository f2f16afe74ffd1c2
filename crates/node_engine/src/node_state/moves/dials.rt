ghost use Rattle.std.specs.Prelude.{◌≡◌, ◌≤◌, ◌^◌, true, false, OnOk};
ghost use Rattle.conn_state.specs.Use.{is_dialing};
ghost use Rattle.conn_table.specs.Answers.{any_at};
ghost use Rattle.machine.specs.Connections.{dial, dial_opens};
ghost use Rattle.machine.specs.Machine.{facts_of};
ghost use Rattle.node_engine.specs.State.{Does, DoesTo, IsKnown};

use crate::NodeState;
use crate::own::own_info;
use conn_table::Step;
use hs_decide::proposal;
use mux_segment::INITIATOR;
use net_base::protocol::HANDSHAKE;
use net_base::{Action, ActionList, Addr, Facts, OutOfMemory, StateName};

impl NodeState {
    /// An address is dialed, under the next id.
    pub(crate) fn dial(&mut self, addr: Addr, actions: &mut ActionList) -> Result<(), OutOfMemory>
        requires none { any_at addr (facts_of self.old) ≡ false }
        requires few_ids { self.old.next_id ≤ 2 ^ 48 }
        ensures { OnOk result (Does (dial addr self.old) actions.old self.new actions.new) }
    {
        let cid = self.connections.dial(addr)?;
        actions.push(Action::Dial(cid, addr))?;
        actions.push(Action::State(cid, StateName::ReservedOutbound))
    }

    /// The socket is open: the handshake begins with this node's proposal.
    pub(crate) fn dial_opens(
        &mut self,
        facts: &Facts,
        actions: &mut ActionList,
    ) -> Result<(), OutOfMemory>
        requires known { IsKnown facts.now self.old }
        requires dialing { is_dialing facts.now ≡ true }
        ensures { OnOk result (DoesTo facts.now.cid.0 dial_opens actions.old self.old self.new actions.new) }
    {
        let until = self.moment + self.connections.settings().handshake;
        self.turn(facts, Step::Connected(until), actions)?;
        let payload = proposal(self.alloc, &own_info(self.connections.settings()))?;
        self.send(facts.cid, INITIATOR, HANDSHAKE, payload.as_slice(), actions)
    }
}
