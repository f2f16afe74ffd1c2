ghost use Rattle.std.specs.Prelude.{◌≡◌, ◌+◌, ◌++◌, true, IsSome, IfSome, OnOk};
ghost use Rattle.conn_table.specs.Conditions.{CanStep};
ghost use Rattle.connections.specs.Steps.{stepped};
ghost use Rattle.machine.specs.Connections.{entry_turns};
ghost use Rattle.machine.specs.Machine.{entry_at};
ghost use Rattle.machine.specs.Replies.{owing, paid, is_owed_on};
ghost use Rattle.node_engine.specs.State.{DoesSilently, DoesTo, IsKnown, told_name};

use crate::NodeState;
use conn_state::names::name_of;
use conn_table::Step;
use net_base::{Action, ActionList, Cid, Facts, OutOfMemory, StateName};

impl NodeState {
    /// A connection makes a move that it has, and its name is told where it is another one then.
    pub(crate) fn turn(
        &mut self,
        facts: &Facts,
        step: Step,
        actions: &mut ActionList,
    ) -> Result<(), OutOfMemory>
        requires known { IsKnown facts.now self.old }
        requires can { CanStep step facts.now }
        ensures { OnOk result (DoesTo facts.now.cid.0 (λ e. entry_turns e (stepped step e)) actions.old self.old self.new actions.new) }
    {
        let name = self.connections.turn(facts.cid, step);
        tell_name(facts, name, actions)
    }

    /// Until when a connection that nobody uses from now on is kept.
    pub(crate) fn idle_end(&self) -> u64
        ensures { result ≡ self.now.now + self.now.settings.idle }
    {
        self.moment + self.connections.settings().idle
    }

    /// A reply on a protocol comes to be owed from now on, for what was asked. Nothing is told of that.
    pub(crate) fn owe(&mut self, cid: Cid, protocol: u16, asked: u64)
        requires stands { IsSome (entry_at cid.0 self.old) }
        requires asked_on { is_owed_on protocol ≡ true }
        ensures { IfSome (entry_at cid.0 self.old)
            (λ e. DoesSilently (entry_turns e (owing protocol asked self.old e) self.old) self.new) }
    {
        self.connections.owe(cid, protocol, asked, self.moment);
    }

    /// The reply on a protocol is there. Nothing is told of that.
    pub(crate) fn pay(&mut self, cid: Cid, protocol: u16)
        requires { IsSome (entry_at cid.0 self.old) }
        ensures { IfSome (entry_at cid.0 self.old)
            (λ e. DoesSilently (entry_turns e (paid protocol e) self.old) self.new) }
    {
        self.connections.pay(cid, protocol);
    }
}

/// The name of a connection is told where it is another one than before.
pub(crate) fn tell_name(
    old: &Facts,
    name: StateName,
    actions: &mut ActionList,
) -> Result<(), OutOfMemory>
    ensures { OnOk result (actions.new ≡ actions.old ++ told_name old.now name) }
{
    if name_of(old) == name {
        return Ok(());
    }
    actions.push(Action::State(old.cid, name))
}
