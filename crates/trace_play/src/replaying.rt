ghost use Rattle.trace_meaning.specs.FaultCounts.{HasReadCount, HasWriteCount};
ghost use Rattle.trace_meaning.specs.Replays.{Replays};

use crate::playback::Playback;
use io_edge::{Sink, Source};
use line_run::run_lines;
use std::alloc::Global;
use stepper::Stepper;
use trace_meaning::Outcome;

/// Reads a trace from a source and writes it again with the machine's actions, by what steps as the machine does. Reading
/// stops at the line that decides, and nothing is read behind it but what came with it. What is written is put in pieces:
/// before each reading, and where much has collected.
pub fn replay_by<E: Stepper, S: Source, K: Sink>(
    alloc: Global,
    means: E::Means,
    src: &mut S,
    out: &mut K,
) -> Outcome
    ensures replays { Replays (S.left src.old) (S.left src.new) (K.taken out.old) (K.taken out.new) result }
    ensures reads { HasReadCount (S.faults src.old) (S.faults src.new) result }
    ensures writes { HasWriteCount (K.faults out.old) (K.faults out.new) result }
{
    let mut playback: Playback<E> = Playback::new(alloc, means);
    Outcome::from(run_lines(alloc, &mut playback, src, out))
}
