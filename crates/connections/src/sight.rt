ghost use Rattle.std.specs.Prelude.{◌≡◌};
ghost use Rattle.connections.specs.Linked.{sight_of};
ghost use Rattle.net_base.specs.Shared.{nothing_undecoded};

use crate::replies::Replies;
use conn_state::facts::{is_acquirable, is_live, is_pending, is_sharing};
use net_base::Facts;
use net_base::protocol::{CHAIN_SYNC, KEEP_ALIVE, PEER_SHARING};

/// What the rules see of a connection, but for its address and id, which stay.
#[derive(Clone, Copy, PartialEq, Eq)]
pub struct Sight {
    pub live: bool,
    pub acquirable: bool,
    pub pending: bool,
    pub local: bool,
    pub sharing: bool,
    pub owes2: bool,
    pub owes8: bool,
    pub owes10: bool,
}

pub fn sight_of(facts: &Facts, replies: &Replies) -> Sight
    ensures { result ≡ sight_of (record { facts = facts.now; undecoded = nothing_undecoded; owed = replies.now }) }
{
    Sight {
        live: is_live(facts),
        acquirable: is_acquirable(facts),
        pending: is_pending(facts),
        local: facts.local,
        sharing: is_sharing(facts),
        owes2: replies.on(CHAIN_SYNC).is_some(),
        owes8: replies.on(KEEP_ALIVE).is_some(),
        owes10: replies.on(PEER_SHARING).is_some(),
    }
}
