ghost use Rattle.std.specs.Prelude.{◌≡◌, ℕ, ◌↔◌, Some, None, map, string_bytes};
ghost use Rattle.local_clients.specs.declared.rules.ClientRules.{ClientRules as Rules};
ghost use Rattle.command_run.specs.Checked.{IsChecked};
ghost use Rattle.command_run.specs.Command.{command_of, IsInRange};
ghost use Rattle.command_run.specs.Drilled.{HasDrilled};
ghost use Rattle.command_run.specs.Laws.{EndsAgree};
ghost use Rattle.command_run.specs.Lined.{HasPaired, HasServed, status_run};
ghost use Rattle.command_run.specs.Replayed.{IsReplayed};
ghost use Rattle.command_run.specs.Run.{HasRun, ReadsNothing};
ghost use Rattle.tool_status.specs.Status.{status_text};
ghost use Rattle.tool_status.specs.Streams.{source_told, sink_told, streams_told, IsSaid};

use crate::Command;
use io_edge::{Sink, Source};
use line_run::LineOutcome;
use local_clients::clients_run;
use pair_net::law::both_ends_agree;
use pair_net::pair_run;
use std::alloc::Global;
use tool_status::{Status, tell};
use trace_meaning::Outcome;
use trace_replay::{check, replay};
use world_drive::drill;

/// Does what the words of a command line say, from a source to a sink, and tells on another sink how it ended. The
/// words stand without the program's name.
pub fn run<S: Source, K: Sink, E: Sink>(
    alloc: Global,
    words: &[String],
    src: &mut S,
    out: &mut K,
    err: &mut E,
) -> Status
    // Words that are no command are answered so, and nothing is read or written. Nor does a drill read.
    ensures usage { (result ≡ Status.Usage) ↔ (command_of (map string_bytes words.now) ≡ None) }
    ensures unread { ReadsNothing (command_of (map string_bytes words.now)) → src.new ≡ src.old }
    ensures unwritten { result ≡ Status.Usage → out.new ≡ out.old }

    // What has come of each command: what was read and written of which run, whose count of faults rose, and that every law
    // holds in that run.
    ensures replay { command_of (map string_bytes words.now) ≡ Some Command.Replay →
        IsReplayed (streams_told (source_told (S.left src.old) (S.faults src.old)) (sink_told (K.taken out.old) (K.faults out.old)))
        (streams_told (source_told (S.left src.new) (S.faults src.new)) (sink_told (K.taken out.new) (K.faults out.new))) result }
    ensures check { command_of (map string_bytes words.now) ≡ Some Command.Check →
        IsChecked (streams_told (source_told (S.left src.old) (S.faults src.old)) (sink_told (K.taken out.old) (K.faults out.old)))
        (streams_told (source_told (S.left src.new) (S.faults src.new)) (sink_told (K.taken out.new) (K.faults out.new))) result }
    ensures pair { command_of (map string_bytes words.now) ≡ Some Command.Pair →
        HasPaired (streams_told (source_told (S.left src.old) (S.faults src.old)) (sink_told (K.taken out.old) (K.faults out.old)))
        (streams_told (source_told (S.left src.new) (S.faults src.new)) (sink_told (K.taken out.new) (K.faults out.new))) result }
    ensures clients { (rules : Rules) → command_of (map string_bytes words.now) ≡ Some (Command.Clients rules) →
        HasServed rules (streams_told (source_told (S.left src.old) (S.faults src.old)) (sink_told (K.taken out.old) (K.faults out.old)))
        (streams_told (source_told (S.left src.new) (S.faults src.new)) (sink_told (K.taken out.new) (K.faults out.new))) result }
    ensures drill { (seed count : ℕ) → command_of (map string_bytes words.now) ≡ Some (Command.Drill seed count) →
        HasDrilled seed count (sink_told (K.taken out.old) (K.faults out.old)) (sink_told (K.taken out.new) (K.faults out.new)) result }

    ensures told { IsSaid (sink_told (E.taken err.old) (E.faults err.old)) (sink_told (E.taken err.new) (E.faults err.new)) (status_text result) }

    // What holds of any two ends of a pair.
    ensures ends { EndsAgree }
{
    both_ends_agree();
    let status = answer(alloc, words, src, out);
    // A text that is not taken changes no status.
    let _ = tell(&status, err);
    status
}

// The status of the words.
fn answer<S: Source, K: Sink>(alloc: Global, words: &[String], src: &mut S, out: &mut K) -> Status
    ensures runs { HasRun (command_of (map string_bytes words.now))
        (streams_told (source_told (S.left src.old) (S.faults src.old)) (sink_told (K.taken out.old) (K.faults out.old)))
        (streams_told (source_told (S.left src.new) (S.faults src.new)) (sink_told (K.taken out.new) (K.faults out.new))) result }
    ensures source { ReadsNothing (command_of (map string_bytes words.now)) → src.new ≡ src.old }
    ensures out { command_of (map string_bytes words.now) ≡ None → out.new ≡ out.old }
{
    match Command::of_words(words) {
        Some(command) => obey(alloc, command, src, out),
        None => Status::Usage,
    }
}

// The status of a command.
fn obey<S: Source, K: Sink>(alloc: Global, command: Command, src: &mut S, out: &mut K) -> Status
    requires in_range { IsInRange command }
    ensures runs { HasRun (Some command)
        (streams_told (source_told (S.left src.old) (S.faults src.old)) (sink_told (K.taken out.old) (K.faults out.old)))
        (streams_told (source_told (S.left src.new) (S.faults src.new)) (sink_told (K.taken out.new) (K.faults out.new))) result }
    ensures source { ReadsNothing (Some command) → src.new ≡ src.old }
{
    match command {
        Command::Replay => Status::of_outcome(replay(alloc, src, out)),
        Command::Check => Status::of_outcome(check(alloc, src, out)),
        Command::Pair => ran(pair_run(alloc, src, out)),
        Command::Clients(rules) => ran(clients_run(alloc, rules, src, out)),
        Command::Drill { seed, count } => Status::of_outcome(drill(alloc, seed, count, out)),
    }
}

// How the outcome of a run over lines is told.
fn ran(outcome: LineOutcome) -> Status
    ensures { result ≡ status_run outcome }
{
    Status::of_outcome(Outcome::from(outcome))
}
