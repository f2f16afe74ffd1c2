ghost use Rattle.std.specs.Prelude.{ℕ, List, Option};
ghost use Rattle.trace_meaning.specs.Replays.{Replays};
ghost use Rattle.trace_meaning.specs.declared.outcome.Outcome.{Outcome as Ended};
ghost use Rattle.trace_play.specs.Checks.{Checks};
ghost use Rattle.trace_replay.specs.Lawful.{ChecksLawfully, IsLawfulRunOf, ReplaysLawfully};

use laws::runs_are_lawful;

/// A law: every law of the machine holds in the run of any bytes of a trace, so in the run that is replayed, or that a
/// trace is compared with.
pub fn traces_are_lawful()
    ensures runs { (seen : List ℕ) → IsLawfulRunOf seen }
    ensures replays { (left0 left1 taken0 taken1 : Option (List ℕ)) (outcome : Ended) → Replays left0 left1 taken0 taken1 outcome →
        ReplaysLawfully left0 left1 taken0 taken1 outcome }
    ensures checks { (left0 left1 taken0 taken1 : Option (List ℕ)) (outcome : Ended) → Checks left0 left1 taken0 taken1 outcome →
        ChecksLawfully left0 left1 taken0 taken1 outcome }
{
    runs_are_lawful();
}
