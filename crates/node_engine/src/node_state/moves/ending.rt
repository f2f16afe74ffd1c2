ghost use Rattle.std.specs.Prelude.{OnOk};
ghost use Rattle.machine.specs.Connections.{ending, entry_goes, lost, vanishes};
ghost use Rattle.node_engine.specs.State.{Does, DoesTo, IsKnown};

use crate::NodeState;
use conn_state::facts::is_pending;
use net_base::{Action, ActionList, CloseCause, Facts, OutOfMemory, StateName};

impl NodeState {
    /// This node ends a connection for a cause.
    pub(crate) fn end(
        &mut self,
        facts: &Facts,
        cause: CloseCause,
        actions: &mut ActionList,
    ) -> Result<(), OutOfMemory>
        requires { IsKnown facts.now self.old }
        ensures { OnOk result (DoesTo facts.now.cid.0 (ending cause) actions.old self.old self.new actions.new) }
    {
        actions.push(Action::Close(facts.cid, cause))?;
        self.let_go(facts, actions)?;
        match cause {
            CloseCause::Overwritten => Ok(()),
            _ => self.lose(facts, actions),
        }
    }

    /// A connection goes without this node's doing.
    pub(crate) fn vanish(
        &mut self,
        facts: &Facts,
        actions: &mut ActionList,
    ) -> Result<(), OutOfMemory>
        requires { IsKnown facts.now self.old }
        ensures { OnOk result (DoesTo facts.now.cid.0 vanishes actions.old self.old self.new actions.new) }
    {
        self.let_go(facts, actions)?;
        self.lose(facts, actions)
    }

    /// A connection goes.
    pub(crate) fn let_go(
        &mut self,
        facts: &Facts,
        actions: &mut ActionList,
    ) -> Result<(), OutOfMemory>
        requires { IsKnown facts.now self.old }
        ensures { OnOk result (DoesTo facts.now.cid.0 entry_goes actions.old self.old self.new actions.new) }
    {
        self.connections.remove(facts.cid);
        actions.push(Action::State(facts.cid, StateName::Terminated))
    }

    // The peer of a connection that went has failed where this node used it or was on its way to it.
    fn lose(&mut self, facts: &Facts, actions: &mut ActionList) -> Result<(), OutOfMemory>
        ensures { OnOk result (Does (lost facts.now self.old) actions.old self.new actions.new) }
    {
        if facts.local || is_pending(facts) {
            self.peer_fails(facts.addr, actions)
        } else {
            Ok(())
        }
    }
}
