ghost use Rattle.std.specs.Prelude.{◌≡◌, ◌+◌, ◌≤◌, true, length, All};
ghost use Rattle.net_base.specs.Bounds.{AreSound};
ghost use Rattle.net_base.specs.Limits.{IsWithinLimits};
ghost use Rattle.trace_compare.specs.Written.{TakesAgreeing};
ghost use Rattle.trace_meaning.specs.FaultCounts.{HasWriteCount};
ghost use Rattle.trace_meaning.specs.Replays.{outcome_or};
ghost use Rattle.world_drive.specs.Lawful.{DrivesLawfully};
ghost use Rattle.world_play.specs.Drive.{Drives, HasWorldCount};

use engine_start::{LentEngine, Pickers, ranked_score, score};
use io_edge::Sink;
use laws::runs_are_lawful;
use net_base::{Addr, Event, OutOfMemory, Settings};
use node_world::World;
use pick_policy::{Picker, RankedPicker};
use std::alloc::Global;
use trace_meaning::Outcome;
use world_play::drive_by;

/// Has the machine take the first events and then as many of a world, or those up to its end, has the world do each
/// action, and writes a trace of it. What is written of an event is put before the world is asked for anything.
pub fn drive<W: World, K: Sink>(
    alloc: Global,
    settings: &Settings,
    first: &[Event],
    world: &mut W,
    count: u64,
    out: &mut K,
) -> Outcome
    requires open { W.is_open world.old ≡ true }
    requires sound { AreSound settings.now }
    requires within { All IsWithinLimits first.now }
    requires few { length first.now + count ≤ 1_000_000 }
    ensures drives { Drives settings.now first.now count (W.taken world.old) (W.taken world.new) (W.done world.old) (W.done world.new)
        (W.has_ended world.new) (K.taken out.old) (K.taken out.new) result }
    ensures agrees { result ≡ Outcome.Done → settings.now.version ≡ 2 → TakesAgreeing (K.taken out.old) (K.taken out.new) }
    ensures lawful { DrivesLawfully settings.now first.now (W.taken world.old) (W.taken world.new) (W.done world.old) (W.done world.new)
        (K.taken out.old) (K.taken out.new) }
    ensures open { W.is_open world.new ≡ true }
    ensures opening { W.opening world.new ≡ W.opening world.old }
    ensures worlds { HasWorldCount (W.faults world.old) (W.faults world.new) result }
    ensures writes { HasWriteCount (K.faults out.old) (K.faults out.new) result }
{
    runs_are_lawful();
    match drive_anew(alloc, settings, first, world, count, out) {
        Ok(outcome) => outcome,
        Err(OutOfMemory) => Outcome::OutOfMemory,
    }
}

// Drives with the pickers of `replay`. Nothing is taken or written where they find no memory.
fn drive_anew<W: World, K: Sink>(
    alloc: Global,
    settings: &Settings,
    first: &[Event],
    world: &mut W,
    count: u64,
    out: &mut K,
) -> Result<Outcome, OutOfMemory>
    requires open { W.is_open world.old ≡ true }
    requires sound { AreSound settings.now }
    requires within { All IsWithinLimits first.now }
    requires few { length first.now + count ≤ 1_000_000 }
    ensures drives { Drives settings.now first.now count (W.taken world.old) (W.taken world.new) (W.done world.old) (W.done world.new)
        (W.has_ended world.new) (K.taken out.old) (K.taken out.new) (outcome_or result) }
    ensures agrees { outcome_or result ≡ Outcome.Done → settings.now.version ≡ 2 → TakesAgreeing (K.taken out.old) (K.taken out.new) }
    ensures open { W.is_open world.new ≡ true }
    ensures opening { W.opening world.new ≡ W.opening world.old }
    ensures worlds { HasWorldCount (W.faults world.old) (W.faults world.new) (outcome_or result) }
    ensures writes { HasWriteCount (K.faults out.old) (K.faults out.new) (outcome_or result) }
{
    let picker = Picker::new(Box::new(alloc, |addr: Addr, word: u64| score(addr, word))?);
    let ranked = RankedPicker::new(Box::new(alloc, |addr: Addr, failures: u64, word: u64| {
        ranked_score(addr, failures, word)
    })?);
    let pickers = Pickers { picker, ranked };
    Ok(drive_by::<LentEngine, W, K>(alloc, pickers, settings, first, world, count, out))
}
