ghost use Rattle.std.specs.Prelude.{OnOk};
ghost use Rattle.laws.specs.OrderNeeds.{MayCarry, MayAll};
ghost use Rattle.machine.specs.Effect.{for_each};
ghost use Rattle.machine.specs.Govern.{asks_peer, activates, deactivates, carries_out};
ghost use Rattle.node_engine.specs.State.{Does, DoesTo, IsKnown};

use crate::NodeState;
use conn_table::Step;
use govern_rules::Order;
use mux_segment::INITIATOR;
use net_base::protocol::{CHAIN_SYNC, PEER_SHARING};
use net_base::{Action, ActionList, Facts, OutOfMemory, PeerNote, Temp};
use warm_messages::{CHAIN_SYNC_DONE, FIND_INTERSECT, write_request};

impl NodeState {
    /// Orders are carried out, one after the other.
    pub(crate) fn carry_out_all(
        &mut self,
        orders: &[Order],
        actions: &mut ActionList,
    ) -> Result<(), OutOfMemory>
        requires { MayAll orders.now self.old }
        ensures { OnOk result (Does (for_each carries_out orders.now self.old) actions.old self.new actions.new) }
    {
        for order in orders {
            self.carry_out(*order, actions)?;
        }
        Ok(())
    }

    // An order to ask, to release, to activate or to deactivate is for the connection of its address that is in local use.
    fn carry_out(&mut self, order: Order, actions: &mut ActionList) -> Result<(), OutOfMemory>
        requires { MayCarry order self.old }
        ensures { OnOk result (Does (carries_out order self.old) actions.old self.new actions.new) }
    {
        match order {
            Order::Ask(addr, number) => match self.used(addr) {
                Some(facts) => self.ask_peer(&facts, number, actions),
                None => Ok(()),
            },
            Order::Forget(addr) => {
                self.peers.forget(addr);
                actions.push(Action::Peer(addr, PeerNote::Forgotten))
            }
            // a connection that can be taken into use is; else the address is dialed
            Order::Promote(addr) => match self.live(addr) {
                Some(facts) => self.come_into_use(&facts, Step::Acquire, actions),
                None => self.dial(addr, actions),
            },
            Order::Release(addr) => match self.used(addr) {
                Some(facts) => self.release(&facts, actions),
                None => Ok(()),
            },
            Order::Activate(addr) => match self.used(addr) {
                Some(facts) => self.activate(&facts, actions),
                None => Ok(()),
            },
            Order::Deactivate(addr) => match self.used(addr) {
                Some(facts) => self.deactivate(&facts, actions),
                None => Ok(()),
            },
        }
    }

    // A peer is asked for addresses, and not again for a while.
    fn ask_peer(
        &mut self,
        facts: &Facts,
        number: u64,
        actions: &mut ActionList,
    ) -> Result<(), OutOfMemory>
        requires { IsKnown facts.now self.old }
        ensures { OnOk result (DoesTo facts.now.cid.0 (asks_peer number) actions.old self.old self.new actions.new) }
    {
        let request = write_request(self.alloc, number)?;
        self.send(
            facts.cid,
            INITIATOR,
            PEER_SHARING,
            request.as_slice(),
            actions,
        )?;
        self.owe(facts.cid, PEER_SHARING, number);
        let next = self.moment + self.connections.settings().sharegap;
        self.peer_was_asked(next, facts.addr);
        Ok(())
    }

    // A warm peer is asked where the chains meet; it is hot once it has answered.
    fn activate(&mut self, facts: &Facts, actions: &mut ActionList) -> Result<(), OutOfMemory>
        requires { IsKnown facts.now self.old }
        ensures { OnOk result (DoesTo facts.now.cid.0 activates actions.old self.old self.new actions.new) }
    {
        self.send(facts.cid, INITIATOR, CHAIN_SYNC, &FIND_INTERSECT, actions)?;
        self.owe(facts.cid, CHAIN_SYNC, 0);
        Ok(())
    }

    // A hot peer is told that chain-sync is done, and is warm.
    fn deactivate(&mut self, facts: &Facts, actions: &mut ActionList) -> Result<(), OutOfMemory>
        requires { IsKnown facts.now self.old }
        ensures { OnOk result (DoesTo facts.now.cid.0 deactivates actions.old self.old self.new actions.new) }
    {
        self.send(facts.cid, INITIATOR, CHAIN_SYNC, &CHAIN_SYNC_DONE, actions)?;
        self.peer_becomes(Temp::Warm, facts.addr, actions)
    }
}
