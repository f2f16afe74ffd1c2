use net_base::{OutOfMemory, RefusalKind};
use trace_text::LineRefusal;

/// Why an interpreter stops at a line.
#[derive(Clone, Copy, PartialEq, Eq)]
pub enum Stop {
    /// The line is the last one.
    Ended,
    /// The line isn't the one that is wanted there.
    Differs,
    Refused(RefusalKind),
    /// The line goes past a limit of the interpreter's own.
    TooMany,
    OutOfMemory,
}

impl From<OutOfMemory> for Stop {
    ghost use Rattle.std.specs.Prelude.{◌≡◌};
    ghost use Rattle.line_run.specs.declared.stop.Stop.TheVariants.{OutOfMemory as NoMemory};

    ghost from_gives = { λ _ stop. stop ≡ NoMemory };

    fn from(_: OutOfMemory) -> Self {
        Stop::OutOfMemory
    }
}

impl From<LineRefusal> for Stop {
    ghost use Rattle.std.specs.Prelude.{◌≡◌};
    ghost use Rattle.line_run.specs.Refusals.{stop_of};

    ghost from_gives = { λ refusal stop. stop ≡ stop_of refusal };

    fn from(refusal: LineRefusal) -> Self {
        match refusal {
            LineRefusal::BadWord(place) => Stop::Refused(RefusalKind::Word(place)),
            LineRefusal::BadNumber(place) => Stop::Refused(RefusalKind::Number(place)),
            LineRefusal::BadTargets => Stop::Refused(RefusalKind::Targets),
            LineRefusal::OutOfOrder => Stop::Refused(RefusalKind::Order),
            LineRefusal::OutOfMemory => Stop::OutOfMemory,
        }
    }
}
