ghost use Rattle.std.specs.Prelude.{◌≡◌, ℕ, List, Some};
ghost use Rattle.line_run.specs.Runs.{HasReadCount, HasWriteCount};
ghost use Rattle.pair_net.specs.Replay.{IsLawfulSoFar, IsPairOver, PairRuns, progress_after};

use crate::PairOutcome;
use crate::pair_replay::PairReplay;
use io_edge::{Sink, Source};
use line_run::run_lines;
use std::alloc::Global;

/// Reads two ends and their steps from a source, and writes each line again with what is told of it. Reading stops at the
/// line that decides, and nothing is read behind it but what came with it.
pub fn pair_run<S: Source, K: Sink>(alloc: Global, src: &mut S, out: &mut K) -> PairOutcome
    ensures runs { PairRuns (S.left src.old) (S.left src.new) (K.taken out.old) (K.taken out.new) result }
    ensures over { (input : List ℕ) → S.left src.old ≡ Some input → IsPairOver input result (S.left src.new) (K.taken out.old) (K.taken out.new) }
    ensures reads { HasReadCount (S.faults src.old) (S.faults src.new) result }
    ensures writes { HasWriteCount (K.faults out.old) (K.faults out.new) result }
    ensures lawful { (input : List ℕ) (count : ℕ) → IsLawfulSoFar (progress_after count input) }
{
    let mut replay = PairReplay::new(alloc);
    run_lines(alloc, &mut replay, src, out)
}
