ghost use Rattle.std.specs.Prelude.{◌≡◌, Some, IsSome, IfSome, OnOk, IfOk, true, drop};
ghost use Rattle.conn_state.specs.Use.{is_greeting};
ghost use Rattle.hs_receive.specs.Receiving.{kind_of, CanBeAnswered};
ghost use Rattle.machine.specs.Connections.{entry_turns};
ghost use Rattle.machine.specs.Effect.{on_connection, for_each};
ghost use Rattle.machine.specs.Machine.{entry_at};
ghost use Rattle.machine.specs.Stream.{handled, handles, faulted, feeds, bytes_come_in};
ghost use Rattle.connections.specs.Standing.{fed_of, fed_entry};
ghost use Rattle.mux_segment.specs.Lent.{lent};
ghost use Rattle.node_engine.specs.Greets.{CanFollow, feeds_as};
ghost use Rattle.node_engine.specs.State.{Does, DoesTo, DoesSilently, IsKnown};
ghost use Rattle.connections.specs.Talks.{IsFed};

use crate::NodeState;
use connections::Decoded;
use hs_receive::{Received, kind_of};
use mux_segment::{CutFault, LentItem, PackedItems};
use net_base::{ActionList, Cid, CloseCause, Facts, OutOfMemory, Phase};
use std::mem;

// Memory of more items than these is given up once they were handled.
const FEW: usize = 64;

impl NodeState {
    /// Bytes come in on a connection. Nothing comes in on a socket that is not open.
    pub(crate) fn bytes_come_in(
        &mut self,
        cid: Cid,
        bytes: &[u8],
        actions: &mut ActionList,
    ) -> Result<(), OutOfMemory>
        ensures { OnOk result (Does (bytes_come_in cid bytes.now self.old) actions.old self.new actions.new) }
    {
        let Some(facts) = self.look_up(cid) else {
            return Ok(());
        };
        match facts.phase {
            Phase::Greeting(_) => self.feed_greeting(&facts, bytes, actions),
            Phase::Negotiated => self.feed_all(cid, bytes, actions),
            Phase::Dialing | Phase::Closing(_) => Ok(()),
        }
    }

    // New bytes of a stream in the handshake. Its first item is judged before anything behind it is looked at, where that is
    // easily seen.
    fn feed_greeting(
        &mut self,
        facts: &Facts,
        bytes: &[u8],
        actions: &mut ActionList,
    ) -> Result<(), OutOfMemory>
        requires known { IsKnown facts.now self.old }
        requires greeting { is_greeting facts.now ≡ true }
        ensures { OnOk result
            (DoesTo facts.now.cid.0 (feeds bytes.now) actions.old self.old self.new actions.new) }
    {
        let Some(item) = self.connections.first(facts.cid, bytes) else {
            return self.feed_all(facts.cid, bytes, actions);
        };
        let received = self.received(facts, &item)?;
        match received {
            // where that ends the connection, the rest is not taken
            Received::Fault(kind) => self.end(facts, CloseCause::Fault(kind), actions),
            Received::Decided(_) => self.feed_behind(facts, received, bytes, actions),
        }
    }

    // All is taken, and what the first item came to is carried out before the others are handled.
    fn feed_behind(
        &mut self,
        facts: &Facts,
        received: Received,
        bytes: &[u8],
        actions: &mut ActionList,
    ) -> Result<(), OutOfMemory>
        requires known { IsKnown facts.now self.old }
        requires greeting { is_greeting facts.now ≡ true }
        requires answerable { CanBeAnswered received }
        requires may { CanFollow received facts.now }
        ensures { OnOk result
            (DoesTo facts.now.cid.0 (feeds_as received bytes.now) actions.old self.old self.new actions.new) }
    {
        let fed = self.decode(facts.cid, bytes)?;
        self.greet_as(facts, received, actions)?;
        self.handle_from(facts.cid, &fed.items, 1, actions)?;
        let fault = self.give_back(fed);
        self.fail_by(facts.cid, fault, actions)
    }

    // Each item is handled before the next one, and a fault of the stream after the items before it.
    fn feed_all(
        &mut self,
        cid: Cid,
        bytes: &[u8],
        actions: &mut ActionList,
    ) -> Result<(), OutOfMemory>
        requires { IsSome (entry_at cid.0 self.old) }
        ensures { OnOk result
            (DoesTo cid.0 (feeds bytes.now) actions.old self.old self.new actions.new) }
    {
        let fed = self.decode(cid, bytes)?;
        self.handle_from(cid, &fed.items, 0, actions)?;
        let fault = self.give_back(fed);
        self.fail_by(cid, fault, actions)
    }

    // The new bytes follow those that are not decoded yet.
    fn decode(&mut self, cid: Cid, bytes: &[u8]) -> Result<Decoded, OutOfMemory>
        requires { IsSome (entry_at cid.0 self.old) }
        ensures turns { OnOk result (IfSome (entry_at cid.0 self.old)
            (λ e. DoesSilently (entry_turns e (fed_entry bytes.now e) self.old) self.new)) }
        ensures gives { IfOk result (λ fed. IfSome (entry_at cid.0 self.old) (λ e. IsFed (fed_of bytes.now e) fed)) }
    {
        let memory = mem::replace(&mut self.memory, PackedItems::new(self.alloc));
        self.connections.feed(cid, bytes, memory)
    }

    // What bytes gave whose items were handled: the fault behind them. The memory of few items is kept for the next event.
    fn give_back(&mut self, fed: Decoded) -> Option<CutFault>
        ensures fault { result ≡ fed.fault }
        ensures same { self.new ≡ self.old }
    {
        let Decoded { items, fault } = fed;
        if items.len() <= FEW {
            self.memory = items;
        }
        fault
    }

    // Items come in, one after another, from a place on. Where the connection has ended, nothing more is handled.
    fn handle_from(
        &mut self,
        cid: Cid,
        items: &PackedItems,
        from: usize,
        actions: &mut ActionList,
    ) -> Result<(), OutOfMemory>
        ensures { OnOk result (Does (for_each (handles cid) (drop from items.now) self.old) actions.old self.new actions.new) }
    {
        for place in from..items.len() {
            let Some(facts) = self.found(cid) else {
                return Ok(());
            };
            self.handle_in_phase(&facts, &items.at(place), actions)?;
        }
        Ok(())
    }

    // What comes in is handled by how far the connection has come.
    fn handle_in_phase(
        &mut self,
        facts: &Facts,
        item: &LentItem<'_>,
        actions: &mut ActionList,
    ) -> Result<(), OutOfMemory>
        requires { IsKnown facts.now self.old }
        ensures { OnOk result
            (DoesTo facts.now.cid.0 (handled (lent item.now)) actions.old self.old self.new actions.new) }
    {
        match facts.phase {
            Phase::Greeting(_) => {
                let received = self.received(facts, item)?;
                self.greet_as(facts, received, actions)
            }
            Phase::Negotiated => self.talk(facts, item, actions),
            Phase::Dialing | Phase::Closing(_) => Ok(()),
        }
    }

    // A fault of the stream, where there is one.
    fn fail_by(
        &mut self,
        cid: Cid,
        fault: Option<CutFault>,
        actions: &mut ActionList,
    ) -> Result<(), OutOfMemory>
        ensures { OnOk result
            (Does (on_connection cid (faulted fault) self.old) actions.old self.new actions.new) }
    {
        let Some(fault) = fault else {
            return Ok(());
        };
        match self.found(cid) {
            Some(facts) => self.end(&facts, CloseCause::Fault(kind_of(fault)), actions),
            None => Ok(()),
        }
    }
}
