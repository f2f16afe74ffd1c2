ghost use Rattle.std.specs.Prelude.{◌≡◌};
ghost use Rattle.pair_net.specs.Pair.{other};
ghost use Rattle.pair_net.specs.Steps.{is_fresh};

use hs_decide::Role;
use net_base::{Agreed, FaultKind};

/// One of the two ends of a pair.
#[derive(Clone, Copy, PartialEq, Eq)]
pub enum End {
    Left,
    Right,
}

/// How far an end has come.
#[derive(Clone, Copy, PartialEq, Eq)]
pub enum EndPhase {
    /// It has neither dialed nor been dialed.
    Fresh,
    /// It waits for a message of the other end.
    Waiting(Role),
    Agreed(Agreed),
    Ended(EndCause),
}

/// Why an end has ended.
#[derive(Clone, Copy, PartialEq, Eq)]
pub enum EndCause {
    /// It refused the other end, or was refused.
    Refused,
    /// The other end only asked for the versions.
    Query,
    /// It has waited too long.
    Timeout,
    Closed,
    Fault(FaultKind),
}

impl End {
    pub fn other(self) -> Self
        ensures { result ≡ other self }
    {
        match self {
            End::Left => End::Right,
            End::Right => End::Left,
        }
    }
}

impl EndPhase {
    pub fn is_fresh(self) -> bool
        ensures { result ≡ is_fresh self }
    {
        matches!(self, EndPhase::Fresh)
    }
}
