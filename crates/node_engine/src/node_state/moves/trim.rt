ghost use Rattle.std.specs.Prelude.{OnOk};
ghost use Rattle.machine.specs.Connections.{trim};
ghost use Rattle.node_engine.specs.State.{Does};

use crate::NodeState;
use net_base::{ActionList, Cid, CloseCause, OutOfMemory};

impl NodeState {
    /// Where more connections are counted than the hard limit, one of them goes: the first of those that may, else
    /// the one that moved.
    pub(crate) fn trim(&mut self, moved: Cid, actions: &mut ActionList) -> Result<(), OutOfMemory>
        ensures { OnOk result (Does (trim moved self.old) actions.old self.new actions.new) }
    {
        if self.connections.counted() <= self.connections.settings().hard {
            return Ok(());
        }
        let cid = self.connections.prune_choice().unwrap_or(moved);
        match self.found(cid) {
            Some(facts) => self.end(&facts, CloseCause::Pruned, actions),
            None => Ok(()),
        }
    }
}
