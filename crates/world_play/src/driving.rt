ghost use Rattle.std.specs.Prelude.{◌≡◌, ◌+◌, ◌<◌, ◌≤◌, true, [], ◌∷◌, codes, length, All, IfOk, IfErr, OnOk, OnErr, MatchResult};
ghost use Rattle.io_edge.specs.Lines.{ended_lines};
ghost use Rattle.io_edge.specs.Told.{Takes};
ghost use Rattle.machine.specs.Machine.{start_of};
ghost use Rattle.machine.specs.Step.{step};
ghost use Rattle.node_world.specs.Meanings.{with_more, taken_after, done_after, says_end, GivesWithinLimits};
ghost use Rattle.world_play.specs.DriveCourse.{Ran, Broke, BrokeAt, Came, Stopped, IsUnsaid, DoesFront, IsOfWorld};
ghost use Rattle.net_base.specs.Bounds.{AreSound};
ghost use Rattle.net_base.specs.Limits.{IsWithinLimits};
ghost use Rattle.trace_text.specs.EventTexts.{IsEventIn};
ghost use Rattle.trace_text.specs.HeadTexts.{printed_head};
ghost use Rattle.world_play.specs.Drive.{Drives, HasWorldCount, outcome_of_drive};
ghost use Rattle.trace_meaning.specs.Replays.{outcome_or};
ghost use Rattle.trace_meaning.specs.FaultCounts.{HasWriteCount};
ghost use Rattle.trace_compare.specs.RunText.{event_text};
ghost use Rattle.trace_compare.specs.Written.{TakesAgreeing};

use io_edge::{PieceWriter, Sink, put_all};
use line_run::tell_line;
use net_base::{Action, ActionList, Event, OutOfMemory, Settings};
use node_world::{Next, World, WorldRefusal};
use std::alloc::Global;
use stepper::Stepper;
use trace_compare::{hold_address, hold_event};
use trace_meaning::{Outcome, put_pending};
use trace_text::{print_event, print_head};

/// Has what steps as the machine does take the first events and then as many of a world, or those up to its end, has the world
/// do each action, and writes a trace of it. What is written of an event is put before the world is asked for anything.
pub fn drive_by<E: Stepper, W: World, K: Sink>(
    alloc: Global,
    means: E::Means,
    settings: &Settings,
    first: &[Event],
    world: &mut W,
    count: u64,
    out: &mut K,
) -> Outcome
    requires open { W.is_open world.old ≡ true }
    requires sound { AreSound settings.now }
    requires within { All IsWithinLimits first.now }
    requires few { length first.now + count ≤ 1_000_000 }
    ensures drives { Drives settings.now first.now count (W.taken world.old) (W.taken world.new) (W.done world.old) (W.done world.new)
        (W.has_ended world.new) (K.taken out.old) (K.taken out.new) result }
    ensures agrees { result ≡ Outcome.Done → settings.now.version ≡ 2 → TakesAgreeing (K.taken out.old) (K.taken out.new) }
    ensures open { W.is_open world.new ≡ true }
    ensures opening { W.opening world.new ≡ W.opening world.old }
    ensures worlds { HasWorldCount (W.faults world.old) (W.faults world.new) result }
    ensures writes { HasWriteCount (K.faults out.old) (K.faults out.new) result }
{
    match drive_anew::<E, W, K>(alloc, means, settings, first, world, count, out) {
        Ok(outcome) => outcome,
        Err(OutOfMemory) => Outcome::OutOfMemory,
    }
}

// Drives one to which nothing has happened yet. Nothing is taken or written where there is no memory for it.
fn drive_anew<E: Stepper, W: World, K: Sink>(
    alloc: Global,
    means: E::Means,
    settings: &Settings,
    first: &[Event],
    world: &mut W,
    count: u64,
    out: &mut K,
) -> Result<Outcome, OutOfMemory>
    requires open { W.is_open world.old ≡ true }
    requires sound { AreSound settings.now }
    requires within { All IsWithinLimits first.now }
    requires few { length first.now + count ≤ 1_000_000 }
    ensures drives { Drives settings.now first.now count (W.taken world.old) (W.taken world.new) (W.done world.old) (W.done world.new)
        (W.has_ended world.new) (K.taken out.old) (K.taken out.new) (outcome_or result) }
    ensures open { W.is_open world.new ≡ true }
    ensures opening { W.opening world.new ≡ W.opening world.old }
    ensures worlds { HasWorldCount (W.faults world.old) (W.faults world.new) (outcome_or result) }
    ensures writes { HasWriteCount (K.faults out.old) (K.faults out.new) (outcome_or result) }
{
    let mut engine = E::begin(alloc, *settings, means)?;
    let mut pieces = PieceWriter::new(alloc)?;
    let driven = drive_all(
        alloc,
        &mut engine,
        settings,
        first,
        world,
        count,
        &mut pieces,
        out,
    );
    Ok(match driven {
        Ok(()) => Outcome::Done,
        Err(outcome) => outcome,
    })
}

// The head, the events that are given, those of the world, and the end.
fn drive_all<E: Stepper, W: World, K: Sink>(
    alloc: Global,
    engine: &mut E,
    settings: &Settings,
    first: &[Event],
    world: &mut W,
    count: u64,
    pieces: &mut PieceWriter,
    out: &mut K,
) -> Result<(), Outcome>
    requires open { W.is_open world.old ≡ true }
    requires sound { AreSound settings.now }
    requires within { All IsWithinLimits first.now }
    requires few { length first.now + count ≤ 1_000_000 }
    requires none { E.events engine.old ≡ 0 }
    requires start { E.machine engine.old ≡ start_of settings.now }
    requires silent { pieces.old ≡ [] }
    ensures drives { Drives settings.now first.now count (W.taken world.old) (W.taken world.new) (W.done world.old) (W.done world.new)
        (W.has_ended world.new) (K.taken out.old) (K.taken out.new) (outcome_of_drive result) }
    ensures open { W.is_open world.new ≡ true }
    ensures opening { W.opening world.new ≡ W.opening world.old }
    ensures worlds { HasWorldCount (W.faults world.old) (W.faults world.new) (outcome_of_drive result) }
    ensures writes { HasWriteCount (K.faults out.old) (K.faults out.new) (outcome_of_drive result) }
{
    hold_address(settings.own);
    put_head(alloc, settings, out)?;
    take_first(alloc, engine, first, world, pieces, out)?;
    take_from(alloc, engine, world, count, pieces, out)?;
    put_end(pieces, out)
}

// Puts the last line.
fn put_end<K: Sink>(pieces: &mut PieceWriter, out: &mut K) -> Result<(), Outcome>
    requires silent { pieces.old ≡ [] }
    ensures whole { OnOk result (Takes (K.taken out.old) (K.taken out.new) (ended_lines (codes "end" ∷ []))) }
    ensures part { IfErr result (IsUnsaid (K.taken out.old) (K.taken out.new) (ended_lines (codes "end" ∷ []))) }
    ensures writes { MatchResult result (λ _. K.faults out.new ≡ K.faults out.old) (HasWriteCount (K.faults out.old) (K.faults out.new)) }
{
    pieces.push_line(b"end")?;
    put_pending(pieces, out)
}

// Puts the head.
fn put_head<K: Sink>(alloc: Global, settings: &Settings, out: &mut K) -> Result<(), Outcome>
    ensures whole { OnOk result (Takes (K.taken out.old) (K.taken out.new) (printed_head settings.now)) }
    ensures part { IfErr result (IsUnsaid (K.taken out.old) (K.taken out.new) (printed_head settings.now)) }
    ensures writes { MatchResult result (λ _. K.faults out.new ≡ K.faults out.old) (HasWriteCount (K.faults out.old) (K.faults out.new)) }
{
    let head = print_head(alloc, settings)?;
    match put_all(out, head.as_slice()) {
        Ok(()) => Ok(()),
        Err(_) => Err(Outcome::WriteFault),
    }
}

// The events that are given.
fn take_first<E: Stepper, W: World, K: Sink>(
    alloc: Global,
    engine: &mut E,
    first: &[Event],
    world: &mut W,
    pieces: &mut PieceWriter,
    out: &mut K,
) -> Result<(), Outcome>
    requires open { W.is_open world.old ≡ true }
    requires few { E.events engine.old + length first.now ≤ 1_000_000 }
    requires within { All IsWithinLimits first.now }
    requires silent { pieces.old ≡ [] }
    ensures ran { OnOk result (Ran (E.machine engine.old) first.now (E.machine engine.new) (W.done world.old) (W.done world.new) (K.taken out.old) (K.taken out.new)) }
    ensures broke { IfErr result (BrokeAt (E.machine engine.old) first.now (W.done world.old) (W.done world.new) (K.taken out.old) (K.taken out.new)) }
    ensures events { OnOk result (E.events engine.new ≡ E.events engine.old + length first.now) }
    ensures silent { OnOk result (pieces.new ≡ []) }
    ensures open { W.is_open world.new ≡ true }
    ensures opening { W.opening world.new ≡ W.opening world.old }
    ensures taken { W.taken world.new ≡ W.taken world.old }
    ensures worlds { MatchResult result (λ _. W.faults world.new ≡ W.faults world.old) (HasWorldCount (W.faults world.old) (W.faults world.new)) }
    ensures writes { MatchResult result (λ _. K.faults out.new ≡ K.faults out.old) (HasWriteCount (K.faults out.old) (K.faults out.new)) }
{
    for event in first {
        take(alloc, engine, event, world, pieces, out)?;
    }
    Ok(())
}

// As many events of the world, or those up to its end.
fn take_from<E: Stepper, W: World, K: Sink>(
    alloc: Global,
    engine: &mut E,
    world: &mut W,
    count: u64,
    pieces: &mut PieceWriter,
    out: &mut K,
) -> Result<(), Outcome>
    requires open { W.is_open world.old ≡ true }
    requires few { E.events engine.old + count ≤ 1_000_000 }
    requires silent { pieces.old ≡ [] }
    ensures came { OnOk result (Came (E.machine engine.old) count (W.taken world.old) (W.taken world.new) (W.has_ended world.new) (W.done world.old) (W.done world.new) (K.taken out.old) (K.taken out.new)) }
    ensures stopped { IfErr result (Stopped (E.machine engine.old) count (W.taken world.old) (W.taken world.new) (W.done world.old) (W.done world.new) (K.taken out.old) (K.taken out.new)) }
    ensures silent { OnOk result (pieces.new ≡ []) }
    ensures open { W.is_open world.new ≡ true }
    ensures opening { W.opening world.new ≡ W.opening world.old }
    ensures worlds { MatchResult result (λ _. W.faults world.new ≡ W.faults world.old) (HasWorldCount (W.faults world.old) (W.faults world.new)) }
    ensures writes { MatchResult result (λ _. K.faults out.new ≡ K.faults out.old) (HasWriteCount (K.faults out.old) (K.faults out.new)) }
{
    for turn in 0..count {
        match next(world)? {
            Next::Event(event) => take(alloc, engine, &event, world, pieces, out)?,
            Next::End => return Ok(()),
        }
    }
    Ok(())
}

// One event: the step, the writing, and each action in its order.
fn take<E: Stepper, W: World, K: Sink>(
    alloc: Global,
    engine: &mut E,
    event: &Event,
    world: &mut W,
    pieces: &mut PieceWriter,
    out: &mut K,
) -> Result<(), Outcome>
    requires open { W.is_open world.old ≡ true }
    requires few { E.events engine.old < 1_000_000 }
    requires within { IsWithinLimits event.now }
    requires silent { pieces.old ≡ [] }
    ensures ran { OnOk result (Ran (E.machine engine.old) (event.now ∷ []) (E.machine engine.new) (W.done world.old) (W.done world.new) (K.taken out.old) (K.taken out.new)) }
    ensures broke { IfErr result (Broke (E.machine engine.old) [] event.now (W.done world.old) (W.done world.new) (K.taken out.old) (K.taken out.new)) }
    ensures events { OnOk result (E.events engine.new ≡ E.events engine.old + 1) }
    ensures silent { OnOk result (pieces.new ≡ []) }
    ensures open { W.is_open world.new ≡ true }
    ensures opening { W.opening world.new ≡ W.opening world.old }
    ensures ended { W.has_ended world.new ≡ W.has_ended world.old }
    ensures taken { W.taken world.new ≡ W.taken world.old }
    ensures worlds { MatchResult result (λ _. W.faults world.new ≡ W.faults world.old) (HasWorldCount (W.faults world.old) (W.faults world.new)) }
    ensures writes { MatchResult result (λ _. K.faults out.new ≡ K.faults out.old) (HasWriteCount (K.faults out.old) (K.faults out.new)) }
{
    let actions = say(alloc, engine, event, pieces, out)?;
    act_all(actions.as_slice(), world)?;
    Ok(())
}

// The step of an event, and the writing. Nothing is pending then.
#[tactic(auto, unfolding(trace_compare::specs::RunText::event_text))]
fn say<E: Stepper, K: Sink>(
    alloc: Global,
    engine: &mut E,
    event: &Event,
    pieces: &mut PieceWriter,
    out: &mut K,
) -> Result<ActionList, Outcome>
    requires few { E.events engine.old < 1_000_000 }
    requires within { IsWithinLimits event.now }
    requires silent { pieces.old ≡ [] }
    ensures machine { OnOk result (E.machine engine.new ≡ (step (E.machine engine.old) event.now).machine) }
    ensures events { OnOk result (E.events engine.new ≡ E.events engine.old + 1) }
    ensures actions { IfOk result (λ actions. actions ≡ (step (E.machine engine.old) event.now).actions) }
    ensures said { OnOk result (Takes (K.taken out.old) (K.taken out.new) (event_text (E.machine engine.old) event.now)) }
    ensures silent { OnOk result (pieces.new ≡ []) }
    ensures unsaid { IfErr result (IsUnsaid (K.taken out.old) (K.taken out.new) (event_text (E.machine engine.old) event.now)) }
    ensures traced { IsEventIn 2 event.now }
    ensures writes { MatchResult result (λ _. K.faults out.new ≡ K.faults out.old) (HasWriteCount (K.faults out.old) (K.faults out.new)) }
{
    hold_event(event);
    let line = print_event(alloc, event)?;
    let actions = engine.step(event, ActionList::new(alloc))?;
    tell_line(alloc, line.as_slice(), actions.as_slice(), pieces)?;
    put_pending(pieces, out)?;
    Ok(actions)
}

// Has the world do each action.
fn act_all<W: World>(actions: &[Action], world: &mut W) -> Result<(), Outcome>
    requires open { W.is_open world.old ≡ true }
    ensures done { OnOk result (W.done world.new ≡ with_more (W.done world.old) actions.now) }
    ensures front { OnErr result (DoesFront (W.done world.old) (W.done world.new) actions.now) }
    ensures why { IfErr result IsOfWorld }
    ensures open { W.is_open world.new ≡ true }
    ensures opening { W.opening world.new ≡ W.opening world.old }
    ensures ended { W.has_ended world.new ≡ W.has_ended world.old }
    ensures taken { W.taken world.new ≡ W.taken world.old }
    ensures worlds { MatchResult result (λ _. W.faults world.new ≡ W.faults world.old) (HasWorldCount (W.faults world.old) (W.faults world.new)) }
{
    for action in actions {
        act(action, world)?;
    }
    Ok(())
}

fn act<W: World>(action: &Action, world: &mut W) -> Result<(), Outcome>
    requires open { W.is_open world.old ≡ true }
    ensures done { W.done world.new ≡ done_after (W.done world.old) action.now result }
    ensures why { IfErr result IsOfWorld }
    ensures open { W.is_open world.new ≡ true }
    ensures opening { W.opening world.new ≡ W.opening world.old }
    ensures ended { W.has_ended world.new ≡ W.has_ended world.old }
    ensures taken { W.taken world.new ≡ W.taken world.old }
    ensures worlds { MatchResult result (λ _. W.faults world.new ≡ W.faults world.old) (HasWorldCount (W.faults world.old) (W.faults world.new)) }
{
    match world.act(action) {
        Ok(()) => Ok(()),
        Err(WorldRefusal::Failed) => Err(Outcome::WorldFault),
        Err(WorldRefusal::OutOfMemory) => Err(Outcome::OutOfMemory),
    }
}

// What comes next in the world.
fn next<W: World>(world: &mut W) -> Result<Next, Outcome>
    requires open { W.is_open world.old ≡ true }
    ensures limits { GivesWithinLimits result }
    ensures ended { W.has_ended world.new ≡ says_end result }
    ensures taken { W.taken world.new ≡ taken_after (W.taken world.old) result }
    ensures why { IfErr result IsOfWorld }
    ensures open { W.is_open world.new ≡ true }
    ensures opening { W.opening world.new ≡ W.opening world.old }
    ensures done { W.done world.new ≡ W.done world.old }
    ensures worlds { MatchResult result (λ _. W.faults world.new ≡ W.faults world.old) (HasWorldCount (W.faults world.old) (W.faults world.new)) }
{
    match world.next() {
        Ok(next) => Ok(next),
        Err(WorldRefusal::Failed) => Err(Outcome::WorldFault),
        Err(WorldRefusal::OutOfMemory) => Err(Outcome::OutOfMemory),
    }
}
