ghost use Rattle.std.specs.Prelude.{◌≡◌, true, OnOk};
ghost use Rattle.conn_table.specs.Answers.{is_due};
ghost use Rattle.machine.specs.Connections.{grace_over};
ghost use Rattle.node_engine.specs.State.{DoesTo, IsKnown};

use crate::NodeState;
use conn_table::Step;
use net_base::{Action, ActionList, CloseCause, Facts, OutOfMemory};

impl NodeState {
    /// The grace of a connection is over. In local use it goes on; otherwise it is unused, and closed.
    pub(crate) fn grace_over(
        &mut self,
        facts: &Facts,
        actions: &mut ActionList,
    ) -> Result<(), OutOfMemory>
        requires known { IsKnown facts.now self.old }
        requires over { is_due self.old.now facts.now.grace ≡ true }
        ensures { OnOk result (DoesTo facts.now.cid.0 grace_over actions.old self.old self.new actions.new) }
    {
        let until = self.moment + self.connections.settings().timewait;
        let step = Step::GraceOver(until);
        if facts.local {
            return self.turn(facts, step, actions);
        }
        actions.push(Action::Close(facts.cid, CloseCause::Unused))?;
        self.turn(facts, step, actions)
    }
}
