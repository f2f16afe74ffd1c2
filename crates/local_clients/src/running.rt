ghost use Rattle.std.specs.Prelude.{◌≡◌, ℕ, List, Some};
ghost use Rattle.line_run.specs.Runs.{HasReadCount, HasWriteCount};
ghost use Rattle.local_clients.specs.Law.{AreLawful};
ghost use Rattle.local_clients.specs.Replay.{ClientsRun, AreClientsOver, clients_after};
ghost use Rattle.local_clients.specs.Rules.{AreInRange};

use crate::replay::ClientsReplay;
use crate::{ClientOutcome, ClientRules};
use io_edge::{Sink, Source};
use line_run::run_lines;
use std::alloc::Global;

/// Reads events from a source, and writes each line again with what is done below it. Reading stops at the line that
/// decides, and nothing is read behind it but what came with it.
pub fn clients_run<S: Source, K: Sink>(
    alloc: Global,
    rules: ClientRules,
    src: &mut S,
    out: &mut K,
) -> ClientOutcome
    requires { AreInRange rules }
    ensures runs { ClientsRun rules (S.left src.old) (S.left src.new) (K.taken out.old) (K.taken out.new) result }
    ensures over { (input : List ℕ) → S.left src.old ≡ Some input → AreClientsOver rules input result (S.left src.new) (K.taken out.old) (K.taken out.new) }
    ensures reads { HasReadCount (S.faults src.old) (S.faults src.new) result }
    ensures writes { HasWriteCount (K.faults out.old) (K.faults out.new) result }
    ensures lawful { (input : List ℕ) (count : ℕ) → AreLawful rules (clients_after rules count input) }
{
    let mut replay = ClientsReplay::new(alloc, rules);
    run_lines(alloc, &mut replay, src, out)
}
