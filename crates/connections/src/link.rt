ghost use Rattle.std.specs.Prelude.{◌≡◌};
ghost use Rattle.machine.specs.Govern.{link_of};
ghost use Rattle.net_base.specs.Shared.{nothing_undecoded};

use crate::replies::Replies;
use crate::sight::sight_of;
use govern_rules::Link;
use net_base::Facts;

/// What the rules see of a connection.
pub fn link_of(facts: &Facts, replies: &Replies) -> Link
    ensures { result ≡ link_of (record { facts = facts.now; undecoded = nothing_undecoded; owed = replies.now }) }
{
    let sight = sight_of(facts, replies);
    Link {
        addr: facts.addr,
        cid: facts.cid,
        live: sight.live,
        acquirable: sight.acquirable,
        pending: sight.pending,
        local: sight.local,
        sharing: sight.sharing,
        owes2: sight.owes2,
        owes8: sight.owes8,
        owes10: sight.owes10,
    }
}
