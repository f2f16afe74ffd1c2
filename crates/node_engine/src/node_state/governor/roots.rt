ghost use Rattle.std.specs.Prelude.{◌≤◌, ◌^◌, OnOk};
ghost use Rattle.machine.specs.Govern.{asks_roots};
ghost use Rattle.node_engine.specs.State.{Does};

use crate::NodeState;
use net_base::{Action, ActionList, OutOfMemory};

impl NodeState {
    /// The public root peers are asked for, where there are too few.
    pub(crate) fn ask_roots(&mut self, actions: &mut ActionList) -> Result<(), OutOfMemory>
        requires { self.old.roots.next_job ≤ 2 ^ 48 }
        ensures { OnOk result (Does (asks_roots self.old) actions.old self.new actions.new) }
    {
        match self.peers.ask_roots(self.moment) {
            Some(job) => actions.push(Action::AskRoots(job)),
            None => Ok(()),
        }
    }
}
