ghost use Rattle.std.specs.Prelude.{◌≡◌, Some, OnOk, IfOk};
ghost use Rattle.machine.specs.Machine.{fresh_entry};
ghost use Rattle.machine.specs.Replies.{reply_on};
ghost use Rattle.machine.specs.Talking.{takes_addresses, pays, brings, answered_as};
ghost use Rattle.node_engine.specs.State.{Does, DoesTo, IsKnown};
ghost use Rattle.mux_segment.specs.Lent.{lent};
ghost use Rattle.warm_messages.specs.Reading.{share_of};

use crate::NodeState;
use crate::node_state::moves::tell_known;
use connections::Reply;
use mux_segment::LentItem;
use net_base::protocol::{CHAIN_SYNC, KEEP_ALIVE};
use net_base::{ActionList, CloseCause, Facts, FaultKind, OutOfMemory, Temp};
use std::alloc::Global;
use warm_messages::{Alive, Share, item_number, message, read_alive, read_share};

impl NodeState {
    /// The other side answers.
    pub(crate) fn take_answer(
        &mut self,
        facts: &Facts,
        item: &LentItem<'_>,
        actions: &mut ActionList,
    ) -> Result<(), OutOfMemory>
        requires { IsKnown facts.now self.old }
        ensures { OnOk result (DoesTo facts.now.cid.0 (λ e. answered_as (reply_on item.now.id e) (lent item.now) e) actions.old self.old self.new actions.new) }
    {
        match self.connections.reply(facts.cid, item.id) {
            Some(reply) => self.take_owed(facts, reply, item, actions),
            None => self.end(facts, CloseCause::Fault(FaultKind::Protocol), actions),
        }
    }

    // The other side answers on a protocol on which a reply is owed.
    fn take_owed(
        &mut self,
        facts: &Facts,
        reply: Reply,
        item: &LentItem<'_>,
        actions: &mut ActionList,
    ) -> Result<(), OutOfMemory>
        requires { IsKnown facts.now self.old }
        ensures { OnOk result (DoesTo facts.now.cid.0
            (answered_as (Some (record { protocol = item.now.id; until = reply.until; asked = reply.asked })) (lent item.now))
            actions.old self.old self.new actions.new) }
    {
        if !pays(self.alloc, reply, item)? {
            return self.end(facts, CloseCause::Fault(FaultKind::Protocol), actions);
        }
        self.pay(facts.cid, item.id);
        self.bring(facts, item, actions)
    }

    // What a reply brings.
    fn bring(
        &mut self,
        facts: &Facts,
        item: &LentItem<'_>,
        actions: &mut ActionList,
    ) -> Result<(), OutOfMemory>
        ensures { OnOk result (Does (brings item.now.id item.now.body.now (fresh_entry facts.now) self.old) actions.old self.new actions.new) }
    {
        match item.id {
            CHAIN_SYNC => self.peer_becomes(Temp::Hot, facts.addr, actions),
            KEEP_ALIVE => Ok(()),
            _ => self.take_addresses(item.body, actions),
        }
    }

    // The addresses that a peer told come into the book, as far as they are taken.
    fn take_addresses(&mut self, body: &[u8], actions: &mut ActionList) -> Result<(), OutOfMemory>
        ensures { OnOk result (Does (takes_addresses (share_of body.now) self.old) actions.old self.new actions.new) }
    {
        let Some(Share::Peers(told)) = read_share(self.alloc, body)? else {
            return Ok(());
        };
        let settings = self.connections.settings();
        let (own, version) = (settings.own, settings.version);
        let new = self.peers.take_told(&told, own, version, self.moment)?;
        tell_known(new.as_slice(), actions)
    }
}

// Whether an item pays a reply that is owed on its protocol.
fn pays(alloc: Global, reply: Reply, item: &LentItem<'_>) -> Result<bool, OutOfMemory>
    ensures { IfOk result (λ paid. paid
        ≡ pays (record { protocol = item.now.id; until = reply.until; asked = reply.asked }) item.now.body.now) }
{
    match item.id {
        CHAIN_SYNC => Ok(matches!(
            item_number(item.body),
            Some(message::INTERSECT_FOUND | message::INTERSECT_NOT_FOUND)
        )),
        // the cookie that was sent
        KEEP_ALIVE => match read_alive(item.body) {
            Some(Alive::Reply(number)) => Ok(u64::from(number) == reply.asked),
            _ => Ok(false),
        },
        // at most as many addresses as were asked for
        _ => match read_share(alloc, item.body)? {
            Some(Share::Peers(told)) => Ok(told.as_slice().len() as u64 <= reply.asked),
            _ => Ok(false),
        },
    }
}
