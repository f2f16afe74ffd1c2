ghost use Rattle.std.specs.Prelude.{◌≡◌, ◌+◌, ◌∷◌, [], map, IfOk};
ghost use Rattle.io_edge.specs.Lines.{ended_lines};
ghost use Rattle.std.specs.String.{string_bytes};
ghost use Rattle.world_drive.specs.Drill.{counts_of, told_count, tally_lines};
ghost use Rattle.world_drive.specs.DrillCourse.{counts_joined};

use io_edge::PieceWriter;
use net_base::{Action, OutOfMemory};
use std::alloc::{AllocError, Global};

/// How many actions there were, and how many of four kinds.
#[derive(Clone, Copy, PartialEq, Eq)]
pub(crate) struct Counts {
    pub actions: u64,
    pub admitted: u64,
    /// Connections that were turned away.
    pub turned: u64,
    pub dials: u64,
    pub closes: u64,
}

impl Counts {
    pub(crate) fn none() -> Counts
        ensures { result ≡ counts_of [] }
    {
        Counts {
            actions: 0,
            admitted: 0,
            turned: 0,
            dials: 0,
            closes: 0,
        }
    }

    /// With one action more.
    pub(crate) fn and(self, action: &Action) -> Result<Counts, OutOfMemory>
        ensures { IfOk result (λ counts. counts ≡ counts_joined self (counts_of (action.now ∷ []))) }
    {
        let counts = Counts {
            actions: one_more(self.actions)?,
            ..self
        };
        Ok(match action {
            Action::Admit(..) => Counts {
                admitted: one_more(self.admitted)?,
                ..counts
            },
            Action::Turnaway(_) => Counts {
                turned: one_more(self.turned)?,
                ..counts
            },
            Action::Dial(..) => Counts {
                dials: one_more(self.dials)?,
                ..counts
            },
            Action::Close(..) => Counts {
                closes: one_more(self.closes)?,
                ..counts
            },
            _ => counts,
        })
    }
}

// No machine runs long enough for a count that 64 bits don't hold. It would be told as want of memory.
fn one_more(count: u64) -> Result<u64, OutOfMemory>
    ensures { IfOk result (λ more. more ≡ count + 1) }
{
    count.checked_add(1).ok_or(OutOfMemory)
}

/// What is told of a drill.
#[derive(Clone, Copy, PartialEq, Eq)]
pub(crate) struct Tallies {
    pub events: u64,
    pub counts: Counts,
    /// Peers that are warm or hot at the end.
    pub established: u64,
    /// Peers that are hot at the end.
    pub active: u64,
}

impl Tallies {
    /// The eight lines.
    pub(crate) fn told(&self, alloc: Global) -> Result<PieceWriter, OutOfMemory>
        ensures { IfOk result (λ pieces. pieces ≡ ended_lines (tally_lines self.now)) }
    {
        let mut pieces = PieceWriter::new(alloc)?;
        for (name, count) in &self.named() {
            let line = told_count(alloc, name, *count)?;
            pieces.push_line(line.as_bytes())?;
        }
        Ok(pieces)
    }

    fn named(&self) -> [(&'static str, u64); 8]
        ensures { map (λ named. told_count named.0.now named.1) result ≡ tally_lines self.now }
    {
        [
            ("events", self.events),
            ("actions", self.counts.actions),
            ("admitted", self.counts.admitted),
            ("turned", self.counts.turned),
            ("dials", self.counts.dials),
            ("closes", self.counts.closes),
            ("established", self.established),
            ("active", self.active),
        ]
    }
}

fn told_count(alloc: Global, name: &str, count: u64) -> Result<String, AllocError>
    ensures { IfOk result (λ text. string_bytes text ≡ told_count name.now count) }
{
    format!(in alloc; "{name} {count}")
}
