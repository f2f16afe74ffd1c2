use line_run::LineOutcome;
use net_base::{OutOfMemory, RefusalKind};

/// How a command over a trace ended. Lines are numbered from 1.
#[derive(Clone, Copy, PartialEq, Eq)]
pub enum Outcome {
    /// The input was read to its `end` line.
    Done,
    /// The first line that is not the machine's.
    Differ { line: u64 },
    /// The first line that is not of the grammar, or the one inside or before which the input ended.
    Refused { line: u64, kind: RefusalKind },
    ReadFault,
    WriteFault,
    OutOfMemory,
    WorldFault,
    /// The first line past a limit on bytes, lines or events.
    TooLong { line: u64 },
}

impl From<OutOfMemory> for Outcome {
    ghost use Rattle.std.specs.Prelude.{◌≡◌};
    ghost use Rattle.trace_meaning.specs.declared.outcome.Outcome.TheVariants.{OutOfMemory as NoMemory};

    ghost from_gives = { λ _ outcome. outcome ≡ NoMemory };

    fn from(_: OutOfMemory) -> Self {
        Outcome::OutOfMemory
    }
}

impl From<LineOutcome> for Outcome {
    ghost use Rattle.std.specs.Prelude.{◌≡◌};
    ghost use Rattle.trace_meaning.specs.Told.{outcome_run};

    ghost from_gives = { λ outcome told. told ≡ outcome_run outcome };

    fn from(outcome: LineOutcome) -> Self {
        match outcome {
            LineOutcome::Done => Outcome::Done,
            LineOutcome::Differ { line } => Outcome::Differ { line },
            LineOutcome::Refused { line, kind } => Outcome::Refused { line, kind },
            LineOutcome::ReadFault => Outcome::ReadFault,
            LineOutcome::WriteFault => Outcome::WriteFault,
            LineOutcome::OutOfMemory => Outcome::OutOfMemory,
            LineOutcome::TooLong { line } => Outcome::TooLong { line },
        }
    }
}
