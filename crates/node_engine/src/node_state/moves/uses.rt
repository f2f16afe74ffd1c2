ghost use Rattle.std.specs.Prelude.{◌≡◌, true, false, IsSome, IfSome, OnOk};
ghost use Rattle.conn_state.specs.Names.{name_of};
ghost use Rattle.conn_state.specs.Protocols.{has_responder};
ghost use Rattle.conn_table.specs.Conditions.{CanAwake, CanStep, after_step};
ghost use Rattle.machine.specs.Connections.{is_used, says_done, release, awake};
ghost use Rattle.machine.specs.Machine.{entry_at};
ghost use Rattle.machine.specs.Replies.{sends_as_initiator};
ghost use Rattle.connections.specs.Steps.{closes};
ghost use Rattle.node_engine.specs.State.{Does, DoesTo, IsKnown, is_used_from};
ghost use Rattle.warm_messages.specs.Writing.{written_alive};

use super::turns::tell_name;
use crate::NodeState;
use conn_state::facts::is_sharing;
use conn_table::Step;
use mux_segment::INITIATOR;
use net_base::protocol::{KEEP_ALIVE, PEER_SHARING};
use net_base::{ActionList, Cid, Facts, OutOfMemory, StateName, Temp};
use warm_messages::{Alive, SHARE_DONE, write_alive};

impl NodeState {
    /// A connection comes into this node's use by a move that it has.
    pub(crate) fn come_into_use(
        &mut self,
        facts: &Facts,
        step: Step,
        actions: &mut ActionList,
    ) -> Result<(), OutOfMemory>
        requires known { IsKnown facts.now self.old }
        requires can { CanStep step facts.now }
        requires stays { closes step facts.now ≡ false }
        ensures { OnOk result (DoesTo facts.now.cid.0 (λ e. is_used (after_step step e.facts) e) actions.old self.old self.new actions.new) }
    {
        let name = self.connections.turn(facts.cid, step);
        self.greet_use(facts, name, actions)
    }

    /// This node gives a connection out of its use.
    pub(crate) fn release(
        &mut self,
        facts: &Facts,
        actions: &mut ActionList,
    ) -> Result<(), OutOfMemory>
        requires known { IsKnown facts.now self.old }
        requires used { facts.now.local ≡ true }
        ensures { OnOk result (DoesTo facts.now.cid.0 release actions.old self.old self.new actions.new) }
    {
        self.say_done(facts, actions)?;
        let until = self.idle_end();
        self.turn(facts, Step::Release(until), actions)?;
        self.peer_becomes(Temp::Cold, facts.addr, actions)?;
        self.trim(facts.cid, actions)
    }

    /// The other side begins a protocol.
    pub(crate) fn awake(
        &mut self,
        facts: &Facts,
        protocol: u16,
        actions: &mut ActionList,
    ) -> Result<(), OutOfMemory>
        requires known { IsKnown facts.now self.old }
        requires responder { has_responder protocol ≡ true }
        requires may { CanAwake protocol facts.now }
        ensures { OnOk result (DoesTo facts.now.cid.0 (awake protocol) actions.old self.old self.new actions.new) }
    {
        self.turn(facts, Step::Awake(protocol), actions)?;
        self.trim(facts.cid, actions)
    }

    // A connection has come into this node's use under a name: that is told, its peer is warm, and a keep-alive is sent, to
    // which a reply is owed.
    fn greet_use(
        &mut self,
        before: &Facts,
        name: StateName,
        actions: &mut ActionList,
    ) -> Result<(), OutOfMemory>
        requires there { IsSome (entry_at before.now.cid.0 self.old) }
        requires name { IfSome (entry_at before.now.cid.0 self.old) (λ e. name ≡ name_of e.facts) }
        ensures { OnOk result (DoesTo before.now.cid.0 (is_used_from before.now) actions.old self.old self.new actions.new) }
    {
        let cookie = (before.cid.0 % 65_536) as u16;
        tell_name(before, name, actions)?;
        self.owe(before.cid, KEEP_ALIVE, u64::from(cookie));
        self.peer_succeeds(before.addr, actions)?;
        self.keep_alive(before.cid, Alive::Ask(cookie), actions)
    }

    // A message on keep-alive, from side 0.
    fn keep_alive(
        &self,
        cid: Cid,
        message: Alive,
        actions: &mut ActionList,
    ) -> Result<(), OutOfMemory>
        ensures { OnOk result (Does (sends_as_initiator cid 8 (written_alive message) self.now) actions.old self.now actions.new) }
    {
        let payload = write_alive(self.alloc, &message)?;
        self.send(cid, INITIATOR, KEEP_ALIVE, payload.as_slice(), actions)
    }

    // The protocols that this node began are done: peer sharing, where it was agreed, and keep-alive.
    fn say_done(&self, facts: &Facts, actions: &mut ActionList) -> Result<(), OutOfMemory>
        ensures { OnOk result (Does (says_done facts.now self.now) actions.old self.now actions.new) }
    {
        if is_sharing(facts) {
            self.send(facts.cid, INITIATOR, PEER_SHARING, &SHARE_DONE, actions)?;
        }
        self.keep_alive(facts.cid, Alive::Done, actions)
    }
}
