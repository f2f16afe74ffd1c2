ghost use Rattle.std.specs.Prelude.{◌≡◌};

use net_base::Cid;
use std::marker::Model;

/// The right to use a connection from this side, and the duty to give it back. There is no second one of a connection,
/// and only the table makes one. Where it is dropped, its connection stays in local use.
#[derive(Drop)]
pub struct LocalLease {
    cid: Cid,
}

impl Model for LocalLease {
    ghost use Rattle.net_base.specs.declared.connection.Cid.{Cid};

    ghost Value = { Cid };

    ghost view = { λ l. l.cid };
}

impl LocalLease {
    pub(crate) fn new(cid: Cid) -> LocalLease
        ensures { result ≡ cid }
    {
        LocalLease { cid }
    }

    /// The id of its connection.
    pub fn cid(&self) -> Cid
        ensures { result ≡ self.now }
    {
        self.cid
    }
}
