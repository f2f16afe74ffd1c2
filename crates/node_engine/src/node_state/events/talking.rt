ghost use Rattle.std.specs.Prelude.{◌≡◌, true, false, Ok, OnOk, IfOk};
ghost use Rattle.conn_state.specs.Protocols.{has_responder};
ghost use Rattle.conn_state.specs.Shapes.{serves_remote};
ghost use Rattle.conn_state.specs.Use.{is_negotiated, runs};
ghost use Rattle.machine.specs.Talking.{served_peers, replies, serves, asked_as, talks};
ghost use Rattle.mux_segment.specs.Lent.{lent};
ghost use Rattle.node_engine.specs.State.{DoesTo, IsKnown};
ghost use Rattle.remote_watch.specs.declared.reply.Reply.TheVariants.{Nothing};

use crate::NodeState;
use conn_state::facts::{is_sharing, serves_remote};
use conn_state::responders::runs;
use conn_table::Step;
use mux_segment::{INITIATOR, LentItem, RESPONDER};
use net_base::{ActionList, Addr, AddrList, CloseCause, Facts, FaultKind, OutOfMemory};
use remote_watch::{Reply, Seen, reply_bytes, watch};

impl NodeState {
    /// An item comes in on a connection whose handshake is done.
    pub(crate) fn talk(
        &mut self,
        facts: &Facts,
        item: &LentItem<'_>,
        actions: &mut ActionList,
    ) -> Result<(), OutOfMemory>
        requires known { IsKnown facts.now self.old }
        requires negotiated { is_negotiated facts.now ≡ true }
        ensures { OnOk result (DoesTo facts.now.cid.0 (talks (lent item.now)) actions.old self.old self.new actions.new) }
    {
        if item.side != INITIATOR {
            return self.take_answer(facts, item, actions);
        }
        match watch(self.alloc, item.id, is_sharing(facts), item.body) {
            Ok(seen) => self.take_request(facts, item.id, seen, actions),
            Err(refusal) => self.end(facts, CloseCause::Fault(refusal.fault()?), actions),
        }
    }

    // What the other side asks is understood.
    fn take_request(
        &mut self,
        facts: &Facts,
        protocol: u16,
        seen: Seen,
        actions: &mut ActionList,
    ) -> Result<(), OutOfMemory>
        requires known { IsKnown facts.now self.old }
        requires negotiated { is_negotiated facts.now ≡ true }
        requires responder { has_responder protocol ≡ true }
        ensures { OnOk result (DoesTo facts.now.cid.0 (asked_as (Ok seen) protocol) actions.old self.old self.new actions.new) }
    {
        // nothing is taken from the other side where this node alone may begin protocols
        if !serves_remote(facts) {
            return self.end(facts, CloseCause::Fault(FaultKind::Protocol), actions);
        }
        if runs(protocol, facts.running) {
            self.serve(facts, protocol, seen, actions)
        } else {
            self.begin(facts, protocol, seen, actions)
        }
    }

    // A protocol that does not run starts with its first item. That may end the connection.
    fn begin(
        &mut self,
        facts: &Facts,
        protocol: u16,
        seen: Seen,
        actions: &mut ActionList,
    ) -> Result<(), OutOfMemory>
        requires known { IsKnown facts.now self.old }
        requires negotiated { is_negotiated facts.now ≡ true }
        requires serves { serves_remote facts.now ≡ true }
        requires responder { has_responder protocol ≡ true }
        requires stands_still { runs protocol facts.now.running ≡ false }
        ensures { OnOk result (DoesTo facts.now.cid.0 (asked_as (Ok seen) protocol) actions.old self.old self.new actions.new) }
    {
        self.awake(facts, protocol, actions)?;
        match self.found(facts.cid) {
            Some(facts) => self.serve(&facts, protocol, seen, actions),
            None => Ok(()),
        }
    }

    // The reply is sent, and the protocol that is done stops.
    fn serve(
        &mut self,
        facts: &Facts,
        protocol: u16,
        seen: Seen,
        actions: &mut ActionList,
    ) -> Result<(), OutOfMemory>
        requires known { IsKnown facts.now self.old }
        requires responder { has_responder protocol ≡ true }
        requires runs { runs protocol facts.now.running ≡ true }
        ensures { OnOk result (DoesTo facts.now.cid.0 (serves seen protocol) actions.old self.old self.new actions.new) }
    {
        self.reply(facts, protocol, seen.reply, actions)?;
        if seen.done {
            let until = self.idle_end();
            self.turn(facts, Step::Idle(protocol, until), actions)
        } else {
            Ok(())
        }
    }

    // A reply is sent, where there is one.
    fn reply(
        &mut self,
        facts: &Facts,
        protocol: u16,
        reply: Reply,
        actions: &mut ActionList,
    ) -> Result<(), OutOfMemory>
        requires known { IsKnown facts.now self.old }
        requires responder { has_responder protocol ≡ true }
        ensures does { OnOk result (DoesTo facts.now.cid.0 (replies reply protocol) actions.old self.old self.new actions.new) }
        ensures same { OnOk result (self.new ≡ self.old) }
    {
        if matches!(reply, Reply::Nothing) {
            return Ok(());
        }
        self.send_reply(facts, protocol, reply, actions)
    }

    // Most of what comes in has no reply, so this stands apart.
    #[inline(never)]
    fn send_reply(
        &mut self,
        facts: &Facts,
        protocol: u16,
        reply: Reply,
        actions: &mut ActionList,
    ) -> Result<(), OutOfMemory>
        requires some { ¬ (reply ≡ Nothing) }
        requires known { IsKnown facts.now self.old }
        requires responder { has_responder protocol ≡ true }
        ensures does { OnOk result (DoesTo facts.now.cid.0 (replies reply protocol) actions.old self.old self.new actions.new) }
        ensures same { OnOk result (self.new ≡ self.old) }
    {
        let peers = self.served_peers(reply, facts.addr)?;
        let bytes = reply_bytes(self.alloc, &reply, peers.as_slice())?;
        self.send(facts.cid, RESPONDER, protocol, bytes.as_slice(), actions)
    }

    // The peers that are handed out to the other side.
    fn served_peers(&mut self, reply: Reply, asker: Addr) -> Result<AddrList, OutOfMemory>
        ensures peers { IfOk result (λ peers. peers ≡ served_peers reply asker self.old) }
        ensures same { self.new ≡ self.old }
    {
        match reply {
            Reply::Share(n) => self.peers.served_to(asker, n),
            _ => Ok(AddrList::new(self.alloc)),
        }
    }
}
