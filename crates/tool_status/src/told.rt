ghost use Rattle.std.specs.Prelude.{◌≡◌};
ghost use Rattle.tool_status.specs.Told.{status_told};

use crate::Status;
use trace_meaning::Outcome;

impl Status {
    /// How the outcome of a command over a trace is told.
    pub fn of_outcome(outcome: Outcome) -> Status
        ensures { result ≡ status_told outcome }
    {
        match outcome {
            Outcome::Done => Status::Done,
            Outcome::Differ { line } => Status::Differ { line },
            Outcome::Refused { line, kind } => Status::Refused { line, kind },
            Outcome::ReadFault => Status::ReadFault,
            Outcome::WriteFault => Status::WriteFault,
            Outcome::OutOfMemory => Status::OutOfMemory,
            Outcome::WorldFault => Status::WorldFault,
            Outcome::TooLong { line } => Status::TooLong { line },
        }
    }
}
