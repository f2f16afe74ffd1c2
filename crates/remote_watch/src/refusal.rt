ghost use Rattle.std.specs.Prelude.{◌≡◌, MatchResult};

use net_base::{FaultKind, OutOfMemory};

/// Why an item was not seen.
#[derive(Clone, Copy, PartialEq, Eq)]
pub enum WatchRefusal {
    /// It breaks a rule, and the connection is to end.
    Fault(FaultKind),
    OutOfMemory,
}

impl WatchRefusal {
    ghost use Rattle.remote_watch.specs.declared.refusal.WatchRefusal.TheVariants.{Fault, OutOfMemory as Wanting};

    /// The fault. Want of memory is none.
    pub fn fault(self) -> Result<FaultKind, OutOfMemory>
        ensures { MatchResult result (λ kind. self ≡ Fault kind) (λ memory. self ≡ Wanting) }
    {
        match self {
            WatchRefusal::Fault(kind) => Ok(kind),
            WatchRefusal::OutOfMemory => Err(OutOfMemory),
        }
    }
}

impl From<FaultKind> for WatchRefusal {
    ghost use Rattle.remote_watch.specs.declared.refusal.WatchRefusal.TheVariants.{Fault};

    ghost from_gives = { λ kind refusal. refusal ≡ Fault kind };

    fn from(kind: FaultKind) -> Self {
        WatchRefusal::Fault(kind)
    }
}

impl From<OutOfMemory> for WatchRefusal {
    ghost use Rattle.remote_watch.specs.declared.refusal.WatchRefusal.TheVariants.{OutOfMemory};

    ghost from_gives = { λ _ refusal. refusal ≡ OutOfMemory };

    fn from(_: OutOfMemory) -> Self {
        WatchRefusal::OutOfMemory
    }
}
