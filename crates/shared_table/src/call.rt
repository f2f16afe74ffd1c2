ghost use Rattle.std.specs.Prelude.{◌≡◌};
ghost use Rattle.shared_table.specs.Entries.{who_of};

use crate::Who;
use net_base::{Addr, Agreed, Cid, Sequence};

/// A call of the outbound governor. Moments are milliseconds.
#[derive(Clone, Copy, PartialEq, Eq)]
pub enum OutCall {
    /// This side begins to dial an address.
    Dial(Addr),
    /// The dialed socket is open since a moment, and the handshake begins.
    Connected(Cid, u64),
    /// The handshake of a connection that this side dialed is over, at a moment.
    Agreed(Cid, Agreed, u64),
    /// Takes the connection of an address into local use.
    Acquire(Addr),
    /// This side uses a connection no more, from a moment on.
    Release(Cid, u64),
    /// A connection goes.
    DropOut(Cid),
}

/// A call of the inbound governor. Moments are milliseconds.
#[derive(Clone, Copy, PartialEq, Eq)]
pub enum InCall {
    /// Lets in a peer that connected at a moment.
    Admit(Addr, u64),
    /// The handshake of a connection that the other side dialed is over, at a moment.
    Agreed(Cid, Agreed, u64),
    /// The other side starts the responder of a mini-protocol.
    Awake(Cid, u16),
    /// The responder of a mini-protocol stops, at a moment.
    Idle(Cid, u16, u64),
    /// The grace of a connection is over at a moment.
    GraceOver(Cid, u64),
    /// A connection goes.
    DropIn(Cid),
}

/// A call of either governor.
#[derive(Clone, Copy, PartialEq, Eq)]
pub enum TableCall {
    Out(OutCall),
    In(InCall),
}

/// Calls of the outbound governor, one after another.
pub type OutCallList = Sequence<OutCall>;

/// Calls of the inbound governor, one after another.
pub type InCallList = Sequence<InCall>;

impl TableCall {
    /// Which governor makes the call.
    pub fn who(&self) -> Who
        ensures { result ≡ who_of self.now }
    {
        match self {
            TableCall::Out(_) => Who::Out,
            TableCall::In(_) => Who::In,
        }
    }
}
