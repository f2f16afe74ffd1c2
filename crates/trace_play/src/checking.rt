ghost use Rattle.trace_meaning.specs.FaultCounts.{HasReadCount, HasWriteCount};
ghost use Rattle.trace_play.specs.Checks.{Checks};

use crate::checker::Checker;
use io_edge::{Sink, Source};
use line_run::run_lines;
use net_base::OutOfMemory;
use std::alloc::Global;
use stepper::Stepper;
use trace_meaning::Outcome;

/// Reads a trace from a source and compares it, line by line, with what `replay_by` writes for it. Reading stops at the
/// line that decides and at the first that differs, and nothing is read behind it but what came with it. What was found
/// is written then; where the trace is refused or too long nothing is.
pub fn check_by<E: Stepper, S: Source, K: Sink>(
    alloc: Global,
    means: E::Means,
    src: &mut S,
    out: &mut K,
) -> Outcome
    ensures checks { Checks (S.left src.old) (S.left src.new) (K.taken out.old) (K.taken out.new) result }
    ensures reads { HasReadCount (S.faults src.old) (S.faults src.new) result }
    ensures writes { HasWriteCount (K.faults out.old) (K.faults out.new) result }
{
    match Checker::<E>::new(alloc, means) {
        Ok(mut checker) => Outcome::from(run_lines(alloc, &mut checker, src, out)),
        Err(OutOfMemory) => Outcome::OutOfMemory,
    }
}
