ghost use Rattle.std.specs.Prelude.{OnOk};
ghost use Rattle.machine.specs.Events.{dial_ends};
ghost use Rattle.node_engine.specs.State.{Does};

use crate::NodeState;
use conn_state::facts::is_dialing;
use net_base::{ActionList, Cid, OutOfMemory};

impl NodeState {
    /// A dial of this node's has ended. An answer to one that is no longer awaited changes nothing.
    pub(crate) fn dial_ends(
        &mut self,
        cid: Cid,
        opened: bool,
        actions: &mut ActionList,
    ) -> Result<(), OutOfMemory>
        ensures { OnOk result (Does (dial_ends cid opened self.old) actions.old self.new actions.new) }
    {
        match self.look_up(cid) {
            Some(facts) if !is_dialing(&facts) => Ok(()),
            Some(facts) if opened => self.dial_opens(&facts, actions),
            Some(facts) => self.vanish(&facts, actions),
            None => Ok(()),
        }
    }
}
