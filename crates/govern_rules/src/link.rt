ghost use Rattle.std.specs.Prelude.{◌≡◌};

use net_base::{Addr, Cid};

/// What the rules need to know of one entry among the connections. An address may have several.
#[derive(Clone, Copy, PartialEq, Eq)]
pub struct Link {
    pub addr: Addr,
    pub cid: Cid,
    /// This side has not closed it.
    pub live: bool,
    /// It can be taken into use: negotiated, duplex, not in use by this side, nor kept for it.
    pub acquirable: bool,
    /// It was dialed, and is being opened or in its handshake.
    pub pending: bool,
    /// It is in use by this side.
    pub local: bool,
    /// Peer sharing was agreed on.
    pub sharing: bool,
    /// A reply is owed on chain-sync.
    pub owes2: bool,
    /// A reply is owed on keep-alive.
    pub owes8: bool,
    /// A reply is owed on peer-sharing.
    pub owes10: bool,
}

impl Link {
    ghost use Rattle.govern_rules.specs.Lent.{is_counted};

    /// Rules count by it: a dial is on its way, or a reply is owed on chain-sync or peer-sharing.
    pub fn is_counted(&self) -> bool
        ensures { result ≡ is_counted self.now }
    {
        self.pending || self.owes2 || self.owes10
    }
}
