ghost use Rattle.std.specs.Prelude.{◌≡◌};
ghost use Rattle.net_base.specs.Timer.{deadline_before};

use crate::Cid;

/// What a deadline is for, in the order in which deadlines of one moment and connection fire.
#[derive(Clone, Copy, PartialEq, Eq, PartialOrd, Ord)]
pub enum Kind {
    Handshake,
    Grace,
    TimeWait,
    /// A reply owed on chain-sync.
    Reply2,
    /// A reply owed on keep-alive.
    Reply8,
    /// A reply owed on peer-sharing.
    Reply10,
}

/// A moment at which something happens to a connection.
#[derive(Clone, Copy, PartialEq, Eq, PartialOrd, Ord)]
pub struct Deadline {
    /// Milliseconds.
    pub at: u64,
    pub cid: Cid,
    pub kind: Kind,
}

impl Deadline {
    /// Deadlines fire by their moment, then by the id of the connection, then by their kind.
    pub fn is_before(&self, other: &Deadline) -> bool
        ensures { result ≡ deadline_before self.now other.now }
    {
        self < other
    }
}
