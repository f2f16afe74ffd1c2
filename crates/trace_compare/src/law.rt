ghost use Rattle.std.specs.Prelude.{◌≡◌, ◌≤◌, ℕ, List, All, length};
ghost use Rattle.net_base.specs.Bounds.{AreSound};
ghost use Rattle.net_base.specs.Limits.{IsWithinLimits};
ghost use Rattle.net_base.specs.declared.event.Event.{Event};
ghost use Rattle.net_base.specs.declared.settings.Settings.{Settings};
ghost use Rattle.trace_compare.specs.Again.{FitsTrace};
ghost use Rattle.trace_compare.specs.Compare.{outcome_told, lines_found, lines_written, comparison_of};
ghost use Rattle.trace_compare.specs.RunText.{whole_text};
ghost use Rattle.line_run.specs.Judgement.{ended};
ghost use Rattle.trace_meaning.specs.Judgement.{judged};
ghost use Rattle.trace_meaning.specs.Output.{output_of};
ghost use Rattle.trace_meaning.specs.Replays.{verdict_of};
ghost use Rattle.trace_compare.specs.Written.{CanHold, IsAgreeing};
ghost use Rattle.trace_meaning.specs.declared.outcome.Outcome.TheVariants.{Done};

/// A law: the output of a trace that is read to its `end` is such a trace too, where it keeps the limits of one, and its
/// output is itself.
pub fn outputs_are_their_own()
    ensures ends { (input : List ℕ) → verdict_of input ≡ ended → FitsTrace (output_of input)
        → verdict_of (output_of input) ≡ ended }
    ensures same { (input : List ℕ) → verdict_of input ≡ ended → FitsTrace (output_of input)
        → output_of (output_of input) ≡ output_of input }
{}

/// A law: the output of a trace that is read to its `end` agrees, where it keeps the limits of one.
pub fn outputs_agree()
    ensures { (input : List ℕ) → verdict_of input ≡ ended → FitsTrace (output_of input)
        → outcome_told (comparison_of (output_of input)) ≡ Done }
{}

/// A law: a trace that agrees has exactly the lines of its output, up to `end`.
pub fn agreeing_traces_are_their_output()
    ensures { (input : List ℕ) → outcome_told (comparison_of input) ≡ Done
        → lines_found (judged input) ≡ lines_written (judged input) }
{}

/// A law: the text of a run agrees, where a trace of its version can hold its events, and it keeps the limits of one.
pub fn runs_agree()
    ensures { (settings : Settings) (events : List Event) → AreSound settings → CanHold settings.version settings.own events
        → All IsWithinLimits events → length events ≤ 1_000_000 → FitsTrace (whole_text settings events)
        → IsAgreeing (whole_text settings events) }
{}
