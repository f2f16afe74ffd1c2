ghost use Rattle.std.specs.Prelude.{OnOk};
ghost use Rattle.machine.specs.Events.{peer_closes};
ghost use Rattle.node_engine.specs.State.{Does};

use crate::NodeState;
use conn_state::facts::is_live;
use net_base::{ActionList, Cid, OutOfMemory};

impl NodeState {
    /// The other side has closed.
    pub(crate) fn close(&mut self, cid: Cid, actions: &mut ActionList) -> Result<(), OutOfMemory>
        ensures { OnOk result (Does (peer_closes cid self.old) actions.old self.new actions.new) }
    {
        match self.look_up(cid) {
            Some(facts) if is_live(&facts) => self.vanish(&facts, actions),
            Some(_) | None => Ok(()),
        }
    }
}
