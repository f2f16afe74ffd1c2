ghost use Rattle.std.specs.Prelude.{◌≡◌};
ghost use Rattle.mux_segment.specs.declared.stopped.Stopped.TheVariants.{NoMemory};
ghost use Rattle.mux_segment.specs.Steps.{IsTold};

use crate::CutFault;
use net_base::OutOfMemory;
use std::alloc::{AllocError, AllocFailed};

/// Why a feed does not go on.
#[derive(Clone, Copy, PartialEq, Eq)]
pub(crate) enum Stopped {
    Fault(CutFault),
    NoMemory,
}

impl Stopped {
    /// The fault of the stream. Want of memory is none.
    pub(crate) fn fault(self) -> Result<CutFault, OutOfMemory>
        ensures { IsTold self result }
    {
        match self {
            Stopped::Fault(fault) => Ok(fault),
            Stopped::NoMemory => Err(OutOfMemory),
        }
    }
}

impl From<OutOfMemory> for Stopped {
    ghost from_gives = { λ _ e. e ≡ NoMemory };

    fn from(_: OutOfMemory) -> Self {
        Stopped::NoMemory
    }
}

impl From<AllocError> for Stopped {
    ghost from_gives = { λ _ e. e ≡ NoMemory };

    fn from(_: AllocError) -> Self {
        Stopped::NoMemory
    }
}

impl<T: Drop> From<AllocFailed<T>> for Stopped {
    ghost from_gives = { λ _ e. e ≡ NoMemory };

    fn from(_: AllocFailed<T>) -> Self {
        Stopped::NoMemory
    }
}
