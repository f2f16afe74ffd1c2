ghost use Rattle.trace_meaning.specs.FaultCounts.{HasReadCount, HasWriteCount};
ghost use Rattle.trace_meaning.specs.Replays.{Replays, outcome_or};
ghost use Rattle.trace_replay.specs.Lawful.{ReplaysLawfully};

use crate::law::traces_are_lawful;
use engine_start::{LentEngine, Pickers, ranked_score, score};
use io_edge::{Sink, Source};
use net_base::{Addr, OutOfMemory};
use pick_policy::{Picker, RankedPicker};
use std::alloc::Global;
use trace_meaning::Outcome;
use trace_play::replay_by;

/// Reads a trace from a source and writes it again with the machine's actions. Reading stops at the line that decides,
/// and nothing is read behind it but what came with it. What is written is put in pieces: before each reading, and
/// where much has collected.
pub fn replay<S: Source, K: Sink>(alloc: Global, src: &mut S, out: &mut K) -> Outcome
    ensures replays { Replays (S.left src.old) (S.left src.new) (K.taken out.old) (K.taken out.new) result }
    ensures lawful { ReplaysLawfully (S.left src.old) (S.left src.new) (K.taken out.old) (K.taken out.new) result }
    ensures reads { HasReadCount (S.faults src.old) (S.faults src.new) result }
    ensures writes { HasWriteCount (K.faults out.old) (K.faults out.new) result }
{
    traces_are_lawful();
    match replay_anew(alloc, src, out) {
        Ok(outcome) => outcome,
        Err(OutOfMemory) => Outcome::OutOfMemory,
    }
}

// Replays with the pickers that are this project's own. Nothing is read or written where they find no memory.
fn replay_anew<S: Source, K: Sink>(
    alloc: Global,
    src: &mut S,
    out: &mut K,
) -> Result<Outcome, OutOfMemory>
    ensures replays { Replays (S.left src.old) (S.left src.new) (K.taken out.old) (K.taken out.new) (outcome_or result) }
    ensures reads { HasReadCount (S.faults src.old) (S.faults src.new) (outcome_or result) }
    ensures writes { HasWriteCount (K.faults out.old) (K.faults out.new) (outcome_or result) }
{
    let picker = Picker::new(Box::new(alloc, |addr: Addr, word: u64| score(addr, word))?);
    let ranked = RankedPicker::new(Box::new(alloc, |addr: Addr, failures: u64, word: u64| {
        ranked_score(addr, failures, word)
    })?);
    let pickers = Pickers { picker, ranked };
    Ok(replay_by::<LentEngine, S, K>(alloc, pickers, src, out))
}
