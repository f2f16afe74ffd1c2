ghost use Rattle.std.specs.Prelude.{◌≡◌, ◌≤◌, ◌^◌, OnOk, Some};
ghost use Rattle.laws.specs.Sound.{IsOrderly};
ghost use Rattle.machine.specs.Deadlines.{due, fires, fire_all};
ghost use Rattle.machine.specs.Events.{clock_shows};
ghost use Rattle.node_engine.specs.State.{Does};

use crate::NodeState;
use net_base::{ActionList, CloseCause, Deadline, FaultKind, Kind, OutOfMemory};

impl NodeState {
    /// The clock shows a moment. Where it is a later one, all that is due by then happens.
    pub(crate) fn clock_shows(
        &mut self,
        moment: u64,
        actions: &mut ActionList,
    ) -> Result<(), OutOfMemory>
        requires orderly { IsOrderly self.old }
        requires bound { moment ≤ 2 ^ 48 }
        ensures { OnOk result (Does (clock_shows moment self.old) actions.old self.new actions.new) }
    {
        if moment <= self.moment {
            return Ok(());
        }
        self.moment = moment;
        self.fire_all(actions)
    }

    // All deadlines that are due fire, the least one first.
    fn fire_all(&mut self, actions: &mut ActionList) -> Result<(), OutOfMemory>
        requires { IsOrderly self.old }
        ensures { OnOk result (Does (fire_all self.old) actions.old self.new actions.new) }
    {
        while let Some(deadline) = self.connections.due(self.moment) {
            self.fire(deadline, actions)?;
        }
        Ok(())
    }

    // The deadline fires that is the next one, by its kind.
    fn fire(&mut self, deadline: Deadline, actions: &mut ActionList) -> Result<(), OutOfMemory>
        requires orderly { IsOrderly self.old }
        requires next { due self.old ≡ Some deadline }
        ensures { OnOk result (Does (fires deadline self.old) actions.old self.new actions.new) }
    {
        let Some(facts) = self.found(deadline.cid) else {
            return Ok(());
        };
        match deadline.kind {
            Kind::Handshake => {
                self.end(&facts, CloseCause::Fault(FaultKind::HandshakeWait), actions)
            }
            Kind::Grace => self.grace_over(&facts, actions),
            Kind::TimeWait => self.let_go(&facts, actions),
            Kind::Reply2 | Kind::Reply8 | Kind::Reply10 => {
                self.end(&facts, CloseCause::Fault(FaultKind::ReplyWait), actions)
            }
        }
    }
}
