ghost use Rattle.std.specs.Prelude.{◌≡◌};
ghost use Rattle.io_edge.specs.declared.line_fault.LineFault.TheVariants.{Failed as SourceFailed, OutOfMemory};

use crate::Failed;
use std::alloc::AllocError;

/// Why a reader gives no line.
#[derive(Clone, Copy, PartialEq, Eq)]
pub enum LineFault {
    /// The source failed.
    Failed,
    /// The line has more than 140,000 bytes.
    TooLong,
    OutOfMemory,
}

impl From<Failed> for LineFault {
    ghost from_gives = { λ _ fault. fault ≡ SourceFailed };

    fn from(_: Failed) -> Self {
        LineFault::Failed
    }
}

impl From<AllocError> for LineFault {
    ghost from_gives = { λ _ fault. fault ≡ OutOfMemory };

    fn from(_: AllocError) -> Self {
        LineFault::OutOfMemory
    }
}
