ghost use Rattle.std.specs.Prelude.{◌≡◌, ◌≤◌, ◌^◌, nat_le, is_some, IfSome};

use net_base::{Cid, NUMBER_MOST};

/// The id of a connection that a trace may name.
#[derive(Clone, Copy)]
pub(crate) struct Id {
    pub(crate) cid: Cid,
    ghost bounded: { cid.0 ≤ 2 ^ 48 },
}

impl Id {
    /// None is where the id is beyond what a trace may name.
    pub(crate) fn new(cid: Cid) -> Option<Id>
        ensures id { IfSome result (λ id. id.cid ≡ cid) }
        ensures bounded { is_some result ≡ nat_le cid.0 (2 ^ 48) }
    {
        if cid.0 <= NUMBER_MOST {
            Some(Id { cid })
        } else {
            None
        }
    }
}
