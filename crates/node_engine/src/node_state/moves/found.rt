ghost use Rattle.std.specs.Prelude.{◌≡◌, Some, IfSome};
ghost use Rattle.std.specs.Option.{option_map};
ghost use Rattle.machine.specs.Govern.{is_used_at};
ghost use Rattle.machine.specs.Machine.{entry_at, live_entry_at};
ghost use Rattle.node_engine.specs.State.{IsKnown};
ghost use Rattle.std.specs.Prelude.{find};

use crate::NodeState;
use net_base::{Addr, Cid, Facts};

impl NodeState {
    /// What is known of the connection with an id.
    pub(crate) fn found(&self, cid: Cid) -> Option<Facts>
        ensures entry { result ≡ option_map (λ e. e.facts) (entry_at cid.0 self.now) }
        ensures id { IfSome result (λ f. f.cid ≡ cid) }
        ensures known { IfSome result (λ f. IsKnown f self.now) }
    {
        self.connections.facts(cid).copied()
    }

    /// The same, so that the next look for the connection is short.
    pub(crate) fn look_up(&mut self, cid: Cid) -> Option<Facts>
        ensures same { self.new ≡ self.old }
        ensures entry { result ≡ option_map (λ e. e.facts) (entry_at cid.0 self.old) }
        ensures id { IfSome result (λ f. f.cid ≡ cid) }
        ensures known { IfSome result (λ f. IsKnown f self.new) }
    {
        self.connections.look_up(cid)
    }

    /// The live connection of an address, so that one more of the address is let in after a short search.
    pub(crate) fn live(&mut self, addr: Addr) -> Option<Facts>
        ensures same { self.new ≡ self.old }
        ensures entry { result ≡ option_map (λ e. e.facts) (live_entry_at addr self.old) }
        ensures by_id { IfSome (live_entry_at addr self.old) (λ e. entry_at e.facts.cid.0 self.old ≡ Some e) }
        ensures known { IfSome result (λ f. IsKnown f self.new) }
    {
        self.connections.live(addr)
    }

    /// The connection of an address that is in local use, in the same way.
    pub(crate) fn used(&mut self, addr: Addr) -> Option<Facts>
        ensures same { self.new ≡ self.old }
        ensures entry { result ≡ option_map (λ e. e.facts) (find (is_used_at addr) self.old.connections) }
        ensures by_id { IfSome (find (is_used_at addr) self.old.connections) (λ e. entry_at e.facts.cid.0 self.old ≡ Some e) }
        ensures known { IfSome result (λ f. IsKnown f self.new) }
    {
        self.connections.used(addr)
    }
}
