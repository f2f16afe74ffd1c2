ghost use Rattle.std.specs.Prelude.{◌≡◌};
ghost use Rattle.trace_text.specs.Stages.{first_stage, stage_after, stage_after_head};

use crate::{HeadLine, Line};

/// How far a trace was read, as far as the next line depends on it.
#[derive(Clone, Copy, PartialEq, Eq)]
pub struct Stage {
    /// The version of the trace, 0 before its first line was read.
    pub version: u64,
    /// How many of the first two lines were read.
    pub seen: u8,
    /// The place of the last setting that was read, 0 before any.
    pub last: u8,
    /// The hard limit in force.
    pub hard: u64,
    /// An event was read.
    pub events: bool,
}

impl Stage {
    /// Nothing was read yet.
    pub fn first() -> Stage
        ensures { result ≡ first_stage }
    {
        Stage {
            version: 0,
            seen: 0,
            last: 0,
            hard: 512,
            events: false,
        }
    }

    /// One line more was read.
    pub fn after(self, line: &Line) -> Stage
        ensures { result ≡ stage_after self line.now }
    {
        match line {
            Line::Head(head) => self.after_head(*head),
            Line::Happen(_) => Stage {
                events: true,
                ..self
            },
            Line::Acted | Line::End => self,
        }
    }

    fn after_head(self, head: HeadLine) -> Stage
        ensures { result ≡ stage_after_head self head }
    {
        match head {
            HeadLine::Trace(version) => Stage {
                version,
                seen: 1,
                ..self
            },
            HeadLine::Own(_) => Stage { seen: 2, ..self },
            HeadLine::Set(4, hard) => Stage {
                last: 4,
                hard,
                ..self
            },
            HeadLine::Set(place, _) => Stage {
                last: place,
                ..self
            },
        }
    }
}
