ghost use Rattle.std.specs.Prelude.{◌≡◌};
ghost use Rattle.trace_text.specs.declared.line.LineRefusal.TheVariants.{OutOfMemory as NoMemory};

use net_base::{Addr, Event, OutOfMemory};

/// What a line of a trace says.
#[derive(Drop)]
pub enum Line {
    Head(HeadLine),
    Happen(Event),
    /// A line that begins with `> `: an action as it was printed. What it says is not read.
    Acted,
    End,
}

/// What a line of the head says.
#[derive(Clone, Copy, PartialEq, Eq)]
pub enum HeadLine {
    /// The version of the trace, 1 or 2.
    Trace(u64),
    /// The node's own address.
    Own(Addr),
    /// The place of a setting among the thirteen, from 1, and its value.
    Set(u8, u64),
}

/// Why a line is refused. A place is that of a word in the line, from 1.
#[derive(Clone, Copy, PartialEq, Eq)]
pub enum LineRefusal {
    /// A word that is wrong, missing or too many.
    BadWord(u64),
    /// A number that is no decimal or out of its range.
    BadNumber(u64),
    /// Targets that break a bound.
    BadTargets,
    /// A setting that stands before one that it should follow, or after an event.
    OutOfOrder,
    OutOfMemory,
}

impl From<OutOfMemory> for LineRefusal {
    ghost from_gives = { λ _ refusal. refusal ≡ NoMemory };

    fn from(_: OutOfMemory) -> Self {
        LineRefusal::OutOfMemory
    }
}
