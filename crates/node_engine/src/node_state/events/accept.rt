ghost use Rattle.std.specs.Prelude.{◌≡◌, ◌≤◌, ◌<◌, ◌^◌, OnOk, IfSome, IsSomeAnd, Some, None};
ghost use Rattle.laws.specs.Sound.{IsOrderly};
ghost use Rattle.machine.specs.Events.{peer_connects, admitted, crossed};
ghost use Rattle.machine.specs.Machine.{counted_in, entry_at, live_entry_at};
ghost use Rattle.node_engine.specs.State.{Does};

use crate::NodeState;
use accept_gate::{Gate, verdict};
use conn_state::facts::is_pending;
use net_base::{Action, ActionList, Addr, Away, CloseCause, Facts, OutOfMemory, StateName};

impl NodeState {
    /// A peer has connected. The first that decides: the own address, the hard limit, a live connection of the address.
    pub(crate) fn accept(&mut self, addr: Addr, actions: &mut ActionList) -> Result<(), OutOfMemory>
        requires orderly { IsOrderly self.old }
        requires few_ids { self.old.next_id ≤ 2 ^ 48 }
        ensures { OnOk result (Does (peer_connects addr self.old) actions.old self.new actions.new) }
    {
        if addr == self.connections.settings().own {
            return actions.push(Action::Turnaway(Away::OwnAddr));
        }
        if self.connections.counted() >= self.connections.settings().hard {
            return actions.push(Action::Turnaway(Away::Full));
        }
        match self.live(addr) {
            None => self.admit(addr, actions),
            Some(facts) if is_pending(&facts) => self.cross(addr, &facts, actions),
            Some(_) => actions.push(Action::Turnaway(Away::Present)),
        }
    }

    // Two nodes have dialed each other: the connection that the lower address dialed survives.
    fn cross(
        &mut self,
        addr: Addr,
        facts: &Facts,
        actions: &mut ActionList,
    ) -> Result<(), OutOfMemory>
        requires orderly { IsOrderly self.old }
        requires few_ids { self.old.next_id ≤ 2 ^ 48 }
        requires room { counted_in self.old < self.old.settings.hard }
        requires live { IsSomeAnd (live_entry_at addr self.old) (λ e. e.facts ≡ facts.now) }
        requires by_id { IfSome (live_entry_at addr self.old) (λ e. entry_at e.facts.cid.0 self.old ≡ Some e) }
        ensures { OnOk result (IfSome (live_entry_at addr self.old)
            (λ e. Does (crossed addr e self.old) actions.old self.new actions.new)) }
    {
        if !addr.is_before(&self.connections.settings().own) {
            return actions.push(Action::Turnaway(Away::Crossed));
        }
        self.end(facts, CloseCause::Overwritten, actions)?;
        self.admit(addr, actions)
    }

    // An address without a live connection is admitted under the next id, and accepting pauses where the soft limit
    // is passed.
    fn admit(&mut self, addr: Addr, actions: &mut ActionList) -> Result<(), OutOfMemory>
        requires few_ids { self.old.next_id ≤ 2 ^ 48 }
        requires no_live { live_entry_at addr self.old ≡ None }
        requires room { counted_in self.old < self.old.settings.hard }
        ensures { OnOk result (Does (admitted addr self.old) actions.old self.new actions.new) }
    {
        let gate = verdict(self.connections.settings(), self.connections.counted());
        let cid = self.connections.admit(addr, self.moment)?;
        actions.push(Action::Admit(cid, addr))?;
        actions.push(Action::State(cid, StateName::UnnegotiatedInbound))?;
        match gate {
            Gate::Pause(delay) => actions.push(Action::Pause(delay)),
            Gate::Free | Gate::Full => Ok(()),
        }
    }
}
